//! What the words of data have to be.

ghost use Rattle.std.specs.Prelude.{◌≡◌, ◌<◌, ◌&&◌, not};
ghost use Rattle.chi_observer.specs.Lines.{known_of, watched};
ghost use Rattle.chi_observer.specs.WordedLines.{worded_in, words_watched};
ghost use Rattle.chi_observer.specs.Rules.{gives_data, looks};
ghost use Rattle.chi_observer.specs.Tables.{renews};
ghost use Rattle.chi_observer.specs.Wanted.{AnyWordsAreTaken, FreeWordsAreTaken, KnownWordsAreTaken, WordlessFlitsAreApart, may_differ, reads_home, reads_home_sent, wanted, wanted_if, wanted_given, wanted_sent};

use crate::flits::{CacheFlit, Flit, HomeFlit};
use crate::observer::Observer;
use crate::rules::{gives_data, has_data, lets_go, looks, tells_words};
use crate::worded::WordedObserver;

/// What the words of data have to be, where the line takes all else of their flit.
/// Source: `docs/OBSERVER.md`, "Data in beats".
#[derive(Clone, Copy, Debug, PartialEq, Eq)]
pub enum Wanted {
    /// They aren't the line's value, or tell more of their cache.
    Nothing,
    /// The home's, which are known.
    Known,
    /// Any: the home has them then.
    Any,
    /// Any, and nothing is told by them: they come to a copy that is dirty.
    Free,
}

/// The law by which data in beats are told at their first beat: flits without words, but for stores where all are listed, go on
/// whatever the home's words are, and leave them; data whose words may be any are taken with any that are as loads and stores
/// told, and change the home's words by them alone, or nothing; and those whose words are to be known are taken with the
/// home's alone.
/// Source: `docs/OBSERVER.md`, "Data in beats".
pub fn data_in_beats()
    ensures apart { WordlessFlitsAreApart }
    ensures any { AnyWordsAreTaken }
    ensures free { FreeWordsAreTaken }
    ensures known { KnownWordsAreTaken }
{}

impl WordedObserver {
    /// What the words of a flit with data have to be; `Nothing` of every other.
    /// Source: `docs/OBSERVER.md`, "Data in beats".
    pub fn wanted(&self, flit: Flit) -> Wanted
        ensures { result ≡ wanted (words_watched self.now) flit }
    {
        match flit {
            Flit::Up(sent) => {
                if sent.agent.0 < 32 {
                    self.wanted_sent(sent)
                } else {
                    Wanted::Nothing
                }
            }
            Flit::Down(given) => {
                if given.agent.0 < 32 {
                    self.wanted_given(given)
                } else {
                    Wanted::Nothing
                }
            }
        }
    }

    /// The same of a flit of a cache. Behind a request that was retried, words that are others than the known ones tell that it
    /// is cancelled.
    fn wanted_sent(&self, flit: CacheFlit) -> Wanted
        requires { flit.agent.0 < 32 }
        ensures { result ≡ wanted_sent (worded_in (words_watched self.now)) flit }
    {
        let agent = self.seen.agents[usize::from(flit.agent.0)];
        let cancels = agent.is_cancelled(flit.act, true) && !agent.is_cancelled(flit.act, false);
        if !tells_words(flit.act) || (self.may_differ() && cancels) {
            return Wanted::Nothing;
        }
        let renewed = agent.is_renewed(self.seen.stores, flit.act, lets_go(agent.snooped));
        let known = self.seen.current && self.seen.home.is_some();
        wanted_if(has_data(flit.act) && (!renewed && known))
    }

    /// The same of a flit of the home.
    fn wanted_given(&self, flit: HomeFlit) -> Wanted
        requires { flit.agent.0 < 32 }
        ensures { result ≡ wanted_given (watched self.now.seen).seen flit }
    {
        let agent = self.seen.agents[usize::from(flit.agent.0)];
        if agent.is_shown(flit.grant) {
            wanted_if(self.seen.home.is_some())
        } else if gives_data(flit.grant) {
            Wanted::Free
        } else {
            Wanted::Nothing
        }
    }

    /// Whether data of a copy may be told to be others than the value last stored.
    fn may_differ(&self) -> bool
        ensures { result ≡ may_differ (worded_in (words_watched self.now)) }
    {
        if self.seen.current {
            self.seen.home.is_some()
        } else {
            !self.words.is_unknown()
        }
    }
}

impl Observer {
    /// Whether a flit is a load whose word has to be the home's, which is known.
    /// Source: `docs/OBSERVER.md`, "Data in beats".
    pub fn reads_home(&self, flit: Flit) -> bool
        ensures { result ≡ reads_home (watched self.now) flit }
    {
        match flit {
            Flit::Up(sent) => sent.agent.0 < 32 && self.reads_home_sent(sent),
            Flit::Down(_) => false,
        }
    }

    /// The same of a flit of a cache.
    fn reads_home_sent(&self, flit: CacheFlit) -> bool
        requires { flit.agent.0 < 32 }
        ensures { result ≡ reads_home_sent (watched self.now).seen flit }
    {
        let any = self.agents[usize::from(flit.agent.0)].reads_any(self.stores);
        looks(flit.act) && (!any && (self.current && self.home.is_some()))
    }
}

/// Words that are to be the home's, or any.
fn wanted_if(known: bool) -> Wanted
    ensures { result ≡ wanted_if known }
{
    if known { Wanted::Known } else { Wanted::Any }
}
