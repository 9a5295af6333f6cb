//! The observer of one line that knows words: of the value last stored those that loads and stores told.

ghost use Rattle.std.specs.Prelude.{◌≡◌, ◌<◌, ◌||◌, IfErr, IfSome, None, OnErr, OnOk, Some, false, if◌then◌else◌, is_ok, not, true};
ghost use Rattle.chi_observer.specs.Rules.{has_data};
ghost use Rattle.chi_observer.specs.Worded.{agree, all_words, copy_words, counted_load, counts_later, differs_by_word, fits_known, fits_load, fits_words, forgets, is_open, is_placed, known_words, may_be_empty, may_read_any, no_words, renewed, tells_by_word, words_after, words_stored};
ghost use Rattle.chi_observer.specs.WordedLines.{counted_by_word, is_taken_worded, is_worded_reason, nothing_worded, takes_by_word, watch_by_word, watch_worded, worded_in, words_of, words_watched};
ghost use Rattle.chi_observer.specs.Wanted.{none_known};
ghost use Rattle.chi_observer.specs.Lines.{agent_of, watched};
ghost use Rattle.chi_observer.specs.Worlds.{put};
ghost use Rattle.chi_observer.specs.declared.flits.Flit.TheVariants.{Down, Up};

use crate::flits::{Act, CacheFlit, Due, Flit, HomeFlit, Stores, Word};
use crate::moments::is_request;
use crate::observer::{AgentSeen, NOBODY, Observer, Reason};
use crate::rules::{has_data, lets_go, makes, writes};
use crate::told::{Told, hides_stores};
use chi_flit::{Agent, Data, NO_DATA, WordNo};

/// Words of a line, where they are known.
/// Source: `docs/OBSERVER.md`, "Words that are known".
#[derive(Clone, Copy, Debug, PartialEq, Eq)]
pub struct KnownWords {
    /// Which are known.
    pub known: [bool; 8],
    /// All of them; of no meaning where they aren't known.
    pub words: Data,
}

/// What flits have told of one line, and the words of the value last stored that loads and stores told.
/// Source: `docs/OBSERVER.md`, "Words that are known".
#[derive(Clone, Debug, Drop, PartialEq, Eq)]
pub struct WordedObserver {
    /// What any observer is told.
    pub seen: Observer,
    /// The words of the value last stored that are known, while it isn't the home's.
    pub words: KnownWords,
}

impl KnownWords {
    /// None is known.
    /// Source: `docs/OBSERVER.md`, "Words that are known".
    pub fn none() -> KnownWords
        ensures { words_of result ≡ no_words }
    {
        KnownWords {
            known: [false; 8],
            words: NO_DATA,
        }
    }

    /// All are known where these are.
    /// Source: `docs/OBSERVER.md`, "Words that are known".
    pub fn all(words: &Option<Data>) -> KnownWords
        ensures { words_of result ≡ all_words words.now }
    {
        match words {
            None => KnownWords::none(),
            Some(words) => KnownWords {
                known: [true; 8],
                words: *words,
            },
        }
    }

    /// The word at a place, if it is known; none beyond the eight.
    /// Source: `docs/OBSERVER.md`, "Words that are known".
    pub fn at(&self, place: usize) -> Option<u64>
        ensures { result ≡ words_of self.now place }
    {
        if place < 8 && self.known[place] {
            Some(self.words[place])
        } else {
            None
        }
    }

    /// Whether the word may be what is known of it.
    fn fits_word(&self, word: Word) -> bool
        ensures { result ≡ fits_known (words_of self.now word.place.0) word.value }
    {
        match self.at(usize::from(word.place.0)) {
            None => true,
            Some(known) => known == word.value,
        }
    }

    /// Whether all words may be what is known of them.
    fn fits(&self, words: &Data) -> bool
        ensures { result ≡ agree (words_of self.now) words.now }
    {
        let mut fits = true;
        for n in 0..8u8 {
            let word = Word {
                place: WordNo(n),
                value: words[usize::from(n)],
            };
            fits = self.fits_word(word) && fits;
        }
        fits
    }

    /// Whether none is known.
    pub(crate) fn is_unknown(&self) -> bool
        ensures { result ≡ none_known (words_of self.now) }
    {
        let mut none = true;
        for n in 0..8 {
            none = self.at(n).is_none() && none;
        }
        none
    }

    /// The same with this word.
    fn with(self, word: Word) -> KnownWords
        requires { word.place.0 < 8 }
        ensures { words_of result ≡ put word.place.0 (Some word.value) (words_of self) }
    {
        let at = usize::from(word.place.0);
        let mut next = self;
        next.known[at] = true;
        next.words[at] = word.value;
        next
    }
}

impl WordedObserver {
    /// An observer of a line that no cache has a copy of, with no request open, and whose memory has any words.
    /// Source: `docs/OBSERVER.md`, "What is kept".
    pub fn new(stores: Stores) -> WordedObserver
        ensures { words_watched result ≡ nothing_worded stores }
    {
        WordedObserver {
            seen: Observer::new(stores),
            words: KnownWords::none(),
        }
    }

    /// Takes the next flit of the line. `Ok` exactly where an observer takes it, and its words, those of a load too, may be
    /// the value last stored. Else the first rule that it breaks, the observer's own first, and nothing changes. A load of
    /// another word than the known one, of a copy that may have been stored to unseen, is taken as the store of that word.
    /// Source: `docs/OBSERVER.md`, "Words that are known".
    pub fn take(&mut self, flit: Flit) -> Result<(), Reason>
        ensures taken { is_ok result ≡ takes_by_word (words_watched self.old) flit }
        ensures after { OnOk result
            (words_watched self.new ≡ watch_by_word (words_watched self.old) flit) }
        ensures kept { OnErr result (self.new ≡ self.old) }
        ensures reason { IfErr result
            (λ reason. is_worded_reason (words_watched self.old)
            (counted_by_word (words_watched self.old) flit) reason ≡ true) }
    {
        match flit {
            Flit::Up(sent) => match sent.act {
                Act::Load(_) => self.take_load(sent),
                Act::Request(_)
                | Act::Resend(_)
                | Act::SnpResp(_)
                | Act::CompAck
                | Act::CopyBackWrData(_)
                | Act::NonCopyBackWrData
                | Act::Store(_) => self.take_sent(sent),
            },
            Flit::Down(given) => self.take_given(given),
        }
    }

    /// Takes a load, or the store as which it counts.
    fn take_load(&mut self, sent: CacheFlit) -> Result<(), Reason>
        ensures taken { is_ok result ≡ takes_by_word (words_watched self.old) (Up sent) }
        ensures after { OnOk result
            (words_watched self.new ≡ watch_by_word (words_watched self.old) (Up sent)) }
        ensures kept { OnErr result (self.new ≡ self.old) }
        ensures reason { IfErr result
            (λ reason. is_worded_reason (words_watched self.old)
            (counted_by_word (words_watched self.old) (Up sent)) reason ≡ true) }
    {
        let counted = self.counted(sent);
        self.take_sent(counted)
    }

    /// The flit of a cache as which one counts.
    fn counted(&self, sent: CacheFlit) -> CacheFlit
        ensures { result ≡ counted_load sent.act (worded_in (words_watched self.now)) sent }
    {
        match sent.act {
            Act::Load(word) => {
                if sent.agent.0 < 32 && self.tells_by_word(sent.agent, word) {
                    let act = Act::Store(word);
                    CacheFlit { act, ..sent }
                } else {
                    sent
                }
            }
            _ => sent,
        }
    }

    /// Whether a load of this word tells of a store which nobody saw.
    fn tells_by_word(&self, agent: Agent, word: Word) -> bool
        requires { agent.0 < 32 }
        ensures { result ≡ tells_by_word (worded_in (words_watched self.now)) agent.0 word }
    {
        if self.seen.current {
            return self.seen.tells_store(agent, word);
        }
        let seen = self.seen.agents[usize::from(agent.0)];
        (seen.reads_any(self.seen.stores) && seen.told.holds_data()) && !self.words.fits_word(word)
    }

    /// The words of the value last stored that are known: the home's, where it is the home's.
    /// Source: `docs/OBSERVER.md`, "Words that are known".
    pub fn known_words(&self) -> KnownWords
        ensures { words_of result ≡ known_words (worded_in (words_watched self.now)) }
    {
        if self.seen.current {
            KnownWords::all(&self.seen.home)
        } else {
            self.words
        }
    }

    /// The words that those of data of a copy are to be, where they are known: none where there may have been a store since.
    /// Source: `docs/OBSERVER.md`, "Data in beats".
    pub fn copy_words(&self, sent: CacheFlit) -> KnownWords
        ensures { words_of result ≡ copy_words (worded_in (words_watched self.now)) sent }
    {
        if writes(sent.act) || self.is_renewed(sent) {
            KnownWords::none()
        } else {
            self.known_words()
        }
    }

    /// Takes a flit of a cache.
    fn take_sent(&mut self, sent: CacheFlit) -> Result<(), Reason>
        ensures taken { is_ok result ≡ is_taken_worded (words_watched self.old) (Up sent) }
        ensures after { OnOk result
            (words_watched self.new ≡ watch_worded (words_watched self.old) (Up sent)) }
        ensures kept { OnErr result (self.new ≡ self.old) }
        ensures reason { IfErr result
            (λ reason. is_worded_reason (words_watched self.old) (Up sent) reason ≡ true) }
    {
        if !self.fits(sent) {
            return Err(self.refusal(sent));
        }
        let changed = self.words_after(sent);
        let differs = self.differs(sent);
        self.seen.take_as(Flit::Up(sent), differs)?;
        if let Some(words) = changed {
            self.words = words;
        }
        Ok(())
    }

    /// Takes a flit of the home.
    fn take_given(&mut self, given: HomeFlit) -> Result<(), Reason>
        ensures taken { is_ok result ≡ is_taken_worded (words_watched self.old) (Down given) }
        ensures after { OnOk result
            (words_watched self.new ≡ watch_worded (words_watched self.old) (Down given)) }
        ensures kept { OnErr result (self.new ≡ self.old) }
        ensures reason { IfErr result
            (λ reason. is_worded_reason (words_watched self.old) (Down given) reason ≡ true) }
    {
        let made = makes(given.grant, self.agent(given.agent).due);
        self.seen.take(Flit::Down(given))?;
        if made {
            self.words = KnownWords::none();
        }
        Ok(())
    }

    /// What is told of an agent; nothing of one whose number is 32 or more.
    fn agent(&self, agent: Agent) -> AgentSeen
        ensures { result ≡ agent_of self.now.seen.agents agent.0 }
    {
        match self.seen.agents.get(usize::from(agent.0)) {
            Some(seen) => *seen,
            None => NOBODY,
        }
    }

    /// Whether a flit of a cache says that there may have been a store since the last one.
    fn is_renewed(&self, sent: CacheFlit) -> bool
        ensures { result ≡ renewed (worded_in (words_watched self.now)) sent }
    {
        let agent = self.agent(sent.agent);
        agent.is_renewed(self.seen.stores, sent.act, lets_go(agent.snooped))
    }

    /// Whether a store that nobody saw may be done to its copy.
    fn is_open(&self, sent: CacheFlit) -> bool
        ensures { result ≡ is_open (worded_in (words_watched self.now)) sent }
    {
        let agent = self.agent(sent.agent);
        hides_stores(self.seen.stores, agent.due) && agent.told.is_unique()
    }

    /// Whether nothing is known behind a flit of a cache: there may have been a store, or there may be one unseen.
    fn forgets(&self, sent: CacheFlit) -> bool
        ensures { result ≡ forgets (worded_in (words_watched self.now)) sent }
    {
        let is_resending = matches!(self.agent(sent.agent).due, Due::Resending(_));
        self.is_renewed(sent) || (self.is_open(sent) && (!is_resending || is_request(sent.act)))
    }

    /// Whether a load counts behind the CompAck, and so may be of a store that is done then.
    fn counts_later(&self, sent: CacheFlit) -> bool
        ensures { result ≡ counts_later (worded_in (words_watched self.now)) sent }
    {
        let agent = self.agent(sent.agent);
        matches!(agent.due, Due::Acknowledgement) && agent.reads_any(self.seen.stores)
    }

    /// Whether a load of the copy may be of any word.
    fn may_read_any(&self, sent: CacheFlit) -> bool
        ensures { result ≡ may_read_any (worded_in (words_watched self.now)) sent }
    {
        self.agent(sent.agent).reads_any(self.seen.stores)
    }

    /// Whether the words of a flit of a cache may be the value last stored.
    fn fits(&self, sent: CacheFlit) -> bool
        ensures { result ≡ fits_words (worded_in (words_watched self.now)) sent }
    {
        is_placed(sent.act)
            && (self.seen.current || (self.fits_data(sent) && self.fits_loaded(sent)))
    }

    /// The same of data.
    fn fits_data(&self, sent: CacheFlit) -> bool
        ensures { result ≡ (not (has_data sent.act)
            || (renewed (worded_in (words_watched self.now)) sent || agree (words_of self.now.words) sent.shown)) }
    {
        !has_data(sent.act) || (self.is_renewed(sent) || self.words.fits(&sent.shown))
    }

    /// The same of the word of a load.
    fn fits_loaded(&self, sent: CacheFlit) -> bool
        ensures { result ≡ (may_read_any (worded_in (words_watched self.now)) sent
            || fits_load sent.act (words_of self.now.words)) }
    {
        self.may_read_any(sent) || self.fits_load(sent.act)
    }

    /// The same of one that may not be any.
    fn fits_load(&self, act: Act) -> bool
        ensures { result ≡ fits_load act (words_of self.now.words) }
    {
        match act {
            Act::Load(word) => self.words.fits_word(word),
            Act::Request(_)
            | Act::Resend(_)
            | Act::SnpResp(_)
            | Act::CompAck
            | Act::CopyBackWrData(_)
            | Act::NonCopyBackWrData
            | Act::Store(_) => true,
        }
    }

    /// Whether data of a copy are known to be others than the value last stored, where that isn't the home's.
    fn differs(&self, sent: CacheFlit) -> bool
        ensures { result ≡ differs_by_word (worded_in (words_watched self.now)) sent }
    {
        has_data(sent.act) && (!self.seen.current && !self.words.fits(&sent.shown))
    }

    /// Why a flit of a cache isn't taken whose words don't fit: first what an observer says of the copy that sends it.
    fn refusal(&self, sent: CacheFlit) -> Reason
        requires { fits_words (worded_in (words_watched self.now)) sent ≡ false }
        ensures { is_worded_reason (words_watched self.now) (Up sent) result ≡ true }
    {
        if !Flit::Up(sent).is_judged() {
            return Reason::NotJudged;
        }
        if sent.agent.0 >= 32 {
            return Reason::NoAgent;
        }
        let agent = self.seen.agents[usize::from(sent.agent.0)];
        if !agent.sends(self.seen.stores, sent.act) || !is_placed(sent.act) {
            return Reason::NotSent;
        }
        Reason::OtherWords
    }

    /// The words that are known behind a flit of a cache; `None` where they are those that were.
    fn words_after(&self, sent: CacheFlit) -> Option<KnownWords>
        requires { is_placed sent.act ≡ true }
        ensures kept { result ≡ None
            → words_of self.now.words ≡ words_after sent (worded_in (words_watched self.now)) }
        ensures changed { IfSome result
            (λ words. words_of words ≡ words_after sent (worded_in (words_watched self.now))) }
    {
        match sent.act {
            Act::Store(word) => Some(self.words_stored(sent.agent, word)),
            Act::Load(word) => self.words_loaded(sent, word),
            Act::Request(_)
            | Act::Resend(_)
            | Act::SnpResp(_)
            | Act::CompAck
            | Act::CopyBackWrData(_)
            | Act::NonCopyBackWrData => self.words_but(sent),
        }
    }

    /// Those behind a flit that is neither a load nor a store.
    fn words_but(&self, sent: CacheFlit) -> Option<KnownWords>
        ensures kept { result ≡ None → forgets (worded_in (words_watched self.now)) sent ≡ false }
        ensures changed { IfSome result
            (λ words. words_of words ≡ (if forgets (worded_in (words_watched self.now)) sent then no_words
            else words_of self.now.words)) }
    {
        if self.forgets(sent) {
            Some(KnownWords::none())
        } else {
            None
        }
    }

    /// Those behind a load.
    fn words_loaded(&self, sent: CacheFlit, word: Word) -> Option<KnownWords>
        requires { word.place.0 < 8 }
        ensures kept { result ≡ None → words_of self.now.words
            ≡ (if forgets (worded_in (words_watched self.now)) sent then no_words
            else (if counts_later (worded_in (words_watched self.now)) sent then words_of self.now.words
            else put word.place.0 (Some word.value) (words_of self.now.words))) }
        ensures changed { IfSome result (λ words. words_of words
            ≡ (if forgets (worded_in (words_watched self.now)) sent then no_words
            else (if counts_later (worded_in (words_watched self.now)) sent then words_of self.now.words
            else put word.place.0 (Some word.value) (words_of self.now.words)))) }
    {
        if self.forgets(sent) {
            Some(KnownWords::none())
        } else if self.counts_later(sent) {
            None
        } else {
            Some(self.words.with(word))
        }
    }

    /// Those behind a store: its own too where all are listed, and none where others may be done unseen.
    fn words_stored(&self, agent: Agent, word: Word) -> KnownWords
        requires { word.place.0 < 8 }
        ensures { words_of result ≡ words_stored self.now.seen.stores word
            (may_be_empty ((watched self.now.seen).seen.told agent.0).told)
            (known_words (worded_in (words_watched self.now))) }
    {
        match self.seen.stores {
            Stores::Hidden => KnownWords::none(),
            Stores::Listed => self.words_stored_to(agent).with(word),
        }
    }

    /// The words that are known of a copy that is stored to, beside the one that is stored: none where it may be without data.
    fn words_stored_to(&self, agent: Agent) -> KnownWords
        ensures { words_of result
            ≡ (if may_be_empty ((watched self.now.seen).seen.told agent.0).told then no_words
            else known_words (worded_in (words_watched self.now))) }
    {
        if may_be_empty(self.agent(agent).told) {
            KnownWords::none()
        } else {
            self.known_words()
        }
    }
}

/// Whether a load or a store is of one of the line's eight words.
fn is_placed(act: Act) -> bool
    ensures { result ≡ is_placed act }
{
    match act {
        Act::Load(word) => word.place.0 < 8,
        Act::Store(word) => word.place.0 < 8,
        Act::Request(_)
        | Act::Resend(_)
        | Act::SnpResp(_)
        | Act::CompAck
        | Act::CopyBackWrData(_)
        | Act::NonCopyBackWrData => true,
    }
}

/// Whether a copy that is stored to may be without data.
fn may_be_empty(told: Told) -> bool
    ensures { result ≡ may_be_empty told }
{
    matches!(told, Told::UCE | Told::UCEOrI | Told::UCOrUCE)
}
