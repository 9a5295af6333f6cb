//! What judges the flits of a line of memory: an observer from the trace's beginning, which knows words, one that begins in the
//! middle, or one of what the home receives.

ghost use Rattle.std.specs.Prelude.{◌≡◌, ◌<◌, IfErr, IfOk, OnErr, true};
ghost use Rattle.chi_observer.specs.Arriving.{holds_none};
ghost use Rattle.chi_observer.specs.Begun.{begun};
ghost use Rattle.chi_observer.specs.Lines.{watched};
ghost use Rattle.chi_observer.specs.WordedLines.{words_watched, words_of};
ghost use Rattle.chi_observer.specs.Worlds.{all_below};
ghost use Rattle.chi_observe.specs.Beginnings.{certainty_of, is_told_at};
ghost use Rattle.chi_observe.specs.Judges.Judged.{AtHome};
ghost use Rattle.chi_observer.specs.Arrivals.{arrived};
ghost use Rattle.chi_observe.specs.Judges.{before_of, fault_of, holds, is_judge_fault, judged, keeps_store, line_judged, opened_from, told_in, told_words, verdict, verdict_of, wake, wanted_in, woken, worded};

use crate::marks::teller_of;
use chi_flit::{Agent, Data};
use chi_observer::{
    AGENTS, Act, Arrivals, Begun, Certainty, Flit, Held, KnownWords, NOBODY, Observer, Reason,
    Stores, Untaken, Wanted, WordedObserver,
};
use std::alloc::{AllocError, Allocator};

/// How a log was taken.
/// Source: `docs/OBSERVER.md`, "What is printed".
#[derive(Clone, Copy, Debug, PartialEq, Eq)]
pub enum Log {
    /// Each flit stands where it is sent, and before the first no cache has a copy, no request is open, and memory has any
    /// words.
    Whole,
    /// So too, but it is cut out of a longer one: before the first flit the lines are anything.
    Tail,
    /// A flit of a cache stands where the home receives it; it begins as a whole one.
    Home,
}

/// What is known of what was before the trace.
#[derive(Drop)]
pub(crate) struct Before<'a> {
    pub log: Log,
    pub stores: Stores,
    /// Of each agent the number of the trace's line that is its last flit which names an id from before, and so no line of
    /// memory; 0 where there is none.
    pub last: &'a [usize; 32],
}

/// An observer of a line that begins in the middle.
#[derive(Drop)]
pub(crate) struct BegunLine {
    pub begun: Begun,
    /// The number of the trace's line that it was told last, or that came before its first.
    pub synced: usize,
}

/// What judges the flits of a line.
#[derive(Drop)]
pub(crate) enum Judge<A: Allocator> {
    /// From the trace's beginning.
    Whole(WordedObserver),
    /// From the middle.
    Begun(Box<BegunLine, A>),
    /// By what the home receives.
    Home(Box<Arrivals, A>),
}

/// Why a flit isn't taken that breaks a rule, if it isn't.
fn untaken(taken: Result<(), Reason>) -> Result<(), Untaken>
    ensures { result ≡ fault_of taken }
{
    match taken {
        Ok(()) => Ok(()),
        Err(reason) => Err(Untaken::Fault(reason)),
    }
}

/// Takes the next flit of a line that is logged at its home, which has this number.
fn take_at_home(
    arrivals: &mut Arrivals,
    flit: Flit,
    before: &Before,
    number: usize,
) -> Result<(), Untaken>
    ensures verdict { verdict_of result (AtHome (arrived arrivals.new))
        ≡ verdict (before_of before.now) number (AtHome (arrived arrivals.old)) flit }
    ensures kept { OnErr result (arrivals.new ≡ arrivals.old) }
    ensures fault { IfErr result (λ why.
        is_judge_fault (before_of before.now) (AtHome (arrived arrivals.old)) flit why ≡ true) }
{
    arrivals.take(flit)
}

impl BegunLine {
    /// The same.
    fn copy(&self) -> BegunLine
        ensures { line_judged result ≡ line_judged self.now }
    {
        BegunLine {
            begun: self.begun_copy(),
            synced: self.synced,
        }
    }

    /// The same observer.
    fn begun_copy(&self) -> Begun
        ensures { begun result ≡ begun self.now.begun }
    {
        Begun {
            observer: copy_of(&self.begun.observer),
            agents: self.begun.agents,
        }
    }

    /// The observer, to which the agents' flits from before may have been told since.
    fn woken(&self, before: &Before) -> Begun
        ensures { begun result ≡ woken (before_of before.now) self.now.synced (begun self.now.begun) }
    {
        let mut next = self.begun_copy();
        for n in 0..32u8 {
            wake(&mut next, before, self.synced, n);
        }
        next
    }

    /// Takes the next flit of the line, which has this number.
    fn take(&mut self, flit: Flit, before: &Before, number: usize) -> Result<(), Untaken>
        ensures verdict { verdict_of result (line_judged self.new)
            ≡ verdict (before_of before.now) number (line_judged self.old) flit }
        ensures kept { OnErr result (line_judged self.new ≡ line_judged self.old) }
        ensures fault { IfErr result
            (λ why. is_judge_fault (before_of before.now) (line_judged self.old) flit why ≡ true) }
    {
        let mut next = self.woken(before);
        if let Err(reason) = next.take(flit) {
            return Err(Untaken::Fault(reason));
        }
        self.begun = next;
        self.synced = number;
        Ok(())
    }
}

/// Tells an observer that a flit from before may have been of its line, if the agent of this number had one since.
fn wake(line: &mut Begun, before: &Before, synced: usize, number: u8)
    requires { number < 32 }
    ensures { begun line.new ≡ wake (before_of before.now) synced number (begun line.old) }
{
    if before.last[usize::from(number)] > synced {
        line.forget(Agent(number));
    }
}

/// Whether no request is held.
fn is_none(held: Held) -> bool
    ensures { result ≡ holds_none held }
{
    matches!(held, Held::Nothing)
}

/// An observer that knows of these two agents alone what the given one does.
fn pair_of(observer: &Observer, one: usize, other: usize) -> Observer {
    let mut agents = [NOBODY; 32];
    agents[one % AGENTS] = observer.agents[one % AGENTS];
    agents[other % AGENTS] = observer.agents[other % AGENTS];
    Observer {
        stores: observer.stores,
        agents,
        home: observer.home,
        current: observer.current,
        duty: observer.duty,
        thrown: observer.thrown,
        waits: observer.waits,
        shown: observer.shown,
    }
}

/// The same observer.
fn copy_of(observer: &Observer) -> Observer
    ensures { result ≡ observer.now }
{
    Observer {
        stores: observer.stores,
        agents: observer.agents,
        home: observer.home,
        current: observer.current,
        duty: observer.duty,
        thrown: observer.thrown,
        waits: observer.waits,
        shown: observer.shown,
    }
}

/// The same of one that knows words.
fn worded_copy(observer: &WordedObserver) -> WordedObserver
    ensures { words_watched result ≡ words_watched observer.now }
{
    WordedObserver {
        seen: copy_of(&observer.seen),
        words: observer.words,
    }
}

/// The same of what the home receives.
fn arrivals_copy(arrivals: &Arrivals) -> Arrivals
    ensures { result ≡ arrivals.now }
{
    Arrivals {
        seen: copy_of(&arrivals.seen),
        agents: arrivals.agents,
        timed: arrivals.timed,
    }
}

impl<A: Allocator> Judge<A> {
    /// That of a line which no flit has touched before the one with this number.
    pub(crate) fn new(
        alloc: A,
        log: Log,
        stores: Stores,
        number: usize,
    ) -> Result<Judge<A>, AllocError>
        ensures { IfOk result (λ judge. judged judge ≡ opened_from log stores number) }
    {
        match log {
            Log::Whole => Ok(Judge::Whole(WordedObserver::new(stores))),
            Log::Tail => {
                let begun = Begun::new(stores);
                let line = BegunLine {
                    begun,
                    synced: number,
                };
                Ok(Judge::Begun(Box::new(alloc, line)?))
            }
            Log::Home => Ok(Judge::Home(Box::new(alloc, Arrivals::new())?)),
        }
    }

    /// Takes the next flit of the line, which has this number; where it isn't taken nothing changes.
    pub(crate) fn take(&mut self, flit: Flit, before: &Before, number: usize) -> Result<(), Untaken>
        ensures verdict { verdict_of result (judged self.new)
            ≡ verdict (before_of before.now) number (judged self.old) flit }
        ensures kept { OnErr result (judged self.new ≡ judged self.old) }
        ensures fault { IfErr result
            (λ why. is_judge_fault (before_of before.now) (judged self.old) flit why ≡ true) }
    {
        match self {
            Judge::Whole(observer) => untaken(observer.take(flit)),
            Judge::Begun(line) => line.take(flit, before, number),
            Judge::Home(arrivals) => take_at_home(arrivals, flit, before, number),
        }
    }

    /// The same.
    pub(crate) fn copy_in(&self, alloc: A) -> Result<Judge<A>, AllocError>
        ensures { IfOk result (λ judge. judged judge ≡ judged self.now) }
    {
        match self {
            Judge::Whole(observer) => Ok(Judge::Whole(worded_copy(observer))),
            Judge::Begun(line) => Ok(Judge::Begun(Box::new(alloc, line.copy())?)),
            Judge::Home(arrivals) => { Ok(Judge::Home(Box::new(alloc, arrivals_copy(arrivals))?)) }
        }
    }

    /// Whether it takes the flit, or leaves open what that tells.
    pub(crate) fn takes(&self, flit: Flit, before: &Before) -> bool {
        match self {
            Judge::Whole(observer) => worded_copy(observer).take(flit).is_ok(),
            Judge::Begun(line) => line.woken(before).take(flit).is_ok(),
            Judge::Home(arrivals) => {
                let taken = arrivals_copy(arrivals).take(flit);
                !matches!(taken, Err(Untaken::Fault(_)))
            }
        }
    }

    /// Whether the other agent's copy alone doesn't let the flit be taken.
    pub(crate) fn is_in_the_way(&self, flit: Flit, other: usize) -> bool {
        let agent = usize::from(teller_of(flit).0);
        let mut pair = pair_of(self.observer(), agent, other);
        let taken = match self {
            Judge::Whole(_) | Judge::Home(_) => {
                let words = KnownWords::none();
                let mut worded = WordedObserver { seen: pair, words };
                worded.take(flit)
            }
            Judge::Begun(line) => {
                let agents = line.begun.agents;
                let mut begun = Begun {
                    observer: pair,
                    agents,
                };
                begun.take(flit)
            }
        };
        other != agent && matches!(taken, Err(Reason::OtherCopy))
    }

    /// How much is known of an agent's copy.
    pub(crate) fn certainty(&self, agent: usize) -> Certainty
        ensures { result ≡ certainty_of (judged self.now) agent }
    {
        match self {
            Judge::Whole(_) => Certainty::Told,
            Judge::Begun(line) => match line.begun.agents.get(agent) {
                Some(mark) => mark.copy,
                None => Certainty::Told,
            },
            Judge::Home(_) => Certainty::Told,
        }
    }

    /// Whether it is known what an agent's copy was told to be.
    fn is_told(&self, agent: usize) -> bool
        ensures { result ≡ is_told_at (judged self.now) agent }
    {
        matches!(self.certainty(agent), Certainty::Told)
    }

    /// Whether it is known of each of the first agents, so many.
    pub(crate) fn are_told(&self, agents: usize) -> bool
        ensures { result ≡ all_below agents (is_told_at (judged self.now)) }
    {
        let mut told = true;
        for n in 0..agents {
            told &= self.is_told(n);
        }
        told
    }

    /// What the words of data have to be that come in beats; `Nothing` where the line is told of them at their last beat.
    pub(crate) fn wanted(&self, flit: Flit) -> Wanted
        ensures { result ≡ wanted_in (judged self.now) flit }
    {
        match self {
            Judge::Whole(observer) => observer.wanted(flit),
            Judge::Begun(_) => Wanted::Nothing,
            Judge::Home(_) => Wanted::Nothing,
        }
    }

    /// The home has these words, where the line was told of their data before they had all come.
    pub(crate) fn show(&mut self, words: Data)
        ensures { judged self.new ≡ worded words (judged self.old) }
    {
        match self {
            Judge::Whole(observer) => {
                observer.seen.home = Some(words);
            }
            Judge::Begun(_) => {}
            Judge::Home(_) => {}
        }
    }

    /// What flits have told.
    pub(crate) fn observer(&self) -> &Observer
        ensures { watched result.now ≡ told_in (judged self.now) }
    {
        match self {
            Judge::Whole(observer) => &observer.seen,
            Judge::Begun(line) => &line.begun.observer,
            Judge::Home(arrivals) => &arrivals.seen,
        }
    }

    /// The words that those of data of a copy have to be besides: those that loads and stores told.
    pub(crate) fn told_words(&self, flit: Flit) -> KnownWords
        ensures { words_of result ≡ told_words (judged self.now) flit }
    {
        match (self, flit) {
            (Judge::Whole(observer), Flit::Up(sent)) => observer.copy_words(sent),
            _ => KnownWords::none(),
        }
    }

    /// Whether the flit is a store of which words are kept: where all are listed.
    pub(crate) fn keeps_store(&self, flit: Flit) -> bool
        ensures { result ≡ keeps_store (judged self.now) flit }
    {
        match (self, flit) {
            (Judge::Whole(observer), Flit::Up(sent)) => {
                matches!(observer.seen.stores, Stores::Listed) && matches!(sent.act, Act::Store(_))
            }
            _ => false,
        }
    }

    /// The words that are known which those of the flit are to be.
    pub(crate) fn known_words(&self, flit: Flit) -> KnownWords {
        match (self, flit) {
            (Judge::Whole(observer), Flit::Up(_)) => observer.known_words(),
            _ => KnownWords::all(&self.observer().home),
        }
    }

    /// Whether loads and stores told these words, and no data the whole value since.
    pub(crate) fn is_of_accesses(&self, flit: Flit) -> bool {
        match (self, flit) {
            (Judge::Whole(observer), Flit::Up(_)) => !observer.seen.current,
            _ => false,
        }
    }

    /// Whether a request of the agent came that isn't told yet.
    pub(crate) fn holds(&self, agent: Agent) -> bool
        ensures { result ≡ holds (judged self.now) agent.0 }
    {
        match self {
            Judge::Whole(_) => false,
            Judge::Begun(_) => false,
            Judge::Home(arrivals) => match arrivals.agents.get(usize::from(agent.0)) {
                Some(own) => !is_none(own.held),
                None => false,
            },
        }
    }
}
