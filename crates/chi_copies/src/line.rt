//! A line.

ghost use Rattle.std.specs.Prelude.{◌≡◌, ◌<◌, ◌&&◌, ◌||◌, ◌==◌, ℕ, IfErr, IfSome, OnErr, OnOk, Option, Some, false, is_ok, is_some, if◌then◌else◌, not, true};
ghost use Rattle.chi_observer.specs.Rules.{due_after, due_granted, is_busy, needs_duty, overwrites, passes_duty, tells_words, word_at};
ghost use Rattle.chi_copies.specs.Rules.{shows};
ghost use Rattle.chi_copies.specs.declared.tests.Test.TheVariants.{FillsStored};
ghost use Rattle.chi_copies.specs.Copies.{Held as HeldOf};
ghost use Rattle.chi_copies.specs.Observed.{any_of, fits_home, forgets, given, given_of, goes, got as got_by, home_at, is_beside, loose, moved, news_after, next, next_home, no_words, of_eight, sent as sent_by, takes, takes_home};
ghost use Rattle.chi_copies.specs.Moments.{has_moment, shown_after};
ghost use Rattle.chi_copies.specs.Runs.{nothing_told};
ghost use Rattle.chi_observer.specs.declared.flits.Flit.TheVariants.{Down, Up};
ghost use Rattle.chi_copies.specs.Worlds.{all_below, home_may, is_placed, put};
ghost use Rattle.chi_copies.specs.Sets.{members};
ghost use Rattle.chi_copies.specs.declared.line.Reason.{Reason};
ghost use Rattle.chi_copies.specs.declared.line.Reason.TheVariants.{NoMoment};
ghost use Rattle.chi_copies.specs.Dues.{due_is};
ghost use Rattle.chi_copies.specs.Images.{fits, keeps_words, with_news};
ghost use Rattle.chi_copies.specs.Refusals.{copy_refusal, due_refusal, home_refusal, refusal, refused_if};
ghost use Rattle.chi_copies.specs.Lines.{due_at, is_taken, is_taken_home, keeps_order, known_at, known_stored, may_at, observed, others_may, passes, sent_of, shown_at, snooped_at};

use crate::acts::{renews, stays};
use crate::copies::{Copies, NOBODY};
use crate::dues::{DueCode, NOTHING_DUE};
use crate::rules::{
    allows, are_hidden, due_granted, has_data, is_due, is_request, lets_go, makes, needs_alone,
    needs_duty, needs_moment, needs_overwriter, needs_quiet, passes_duty, snooped_after,
    snooped_granted, tells_words,
};
use crate::sends::{Sent, fits_by, fits_each, fitting, is_placed, is_plain, plain};
use crate::steps::Step;
use crate::tests::{Test, apart_by};
use crate::timed::{is_none_stored, issuer_of, shown_behind};
use chi_flit::Data;
use chi_observer::{Act, CacheFlit, Due, Grant, HomeFlit, Snoop, Stores, Word};

/// How many agents a line follows; their numbers are below it.
/// Source: `docs/COPIES.md`, "What is kept".
pub const AGENTS: usize = 32;

/// What flits have told of one line.
/// Source: `docs/COPIES.md`, "What is kept".
#[derive(Clone, Debug, Drop, PartialEq, Eq)]
pub struct Line {
    /// Whether each store of a processor is told of.
    pub stores: Stores,
    /// What is due next of each agent's request.
    pub due: [DueCode; 32],
    /// The snoop that each agent hasn't answered.
    pub snooped: [Option<Snoop>; 32],
    /// Whether the home has dirty data that it must write or pass on.
    pub duty: bool,
    /// What each agent's copy may be.
    pub may: [Copies; 32],
    /// The words of the home's own copy, once a flit has shown them.
    pub home: Option<Data>,
    /// The words that are known of the value last stored, where the home hasn't it.
    pub news: [Option<u64>; 8],
    /// Of each agent whose CleanShared or ReadOnce is open: there was its moment since its issue. Of a CleanShared one at
    /// which no other copy was dirty, of a ReadOnce one at which the home had the value last stored.
    pub shown: [bool; 32],
}

/// Why a flit isn't taken.
/// Source: `docs/COPIES.md`, "What is kept".
#[derive(Clone, Copy, Debug, PartialEq, Eq)]
pub enum Reason {
    /// The agent's number is 32 or more.
    NoAgent,
    /// No copy that the agent may have sends this flit of a cache now.
    NotSent,
    /// What is due of the agent, or a snoop that it hasn't answered, doesn't let the home send it.
    NotDue,
    /// The home has no dirty data to pass on.
    NoDuty,
    /// A CompAck or write data are due at the line, and nothing is snooped meanwhile.
    Busy,
    /// No request of another agent is open for which copies may be thrown away.
    NoOverwriter,
    /// The words are known to be others.
    OtherWords,
    /// Since the agent's CleanShared was sent another copy may always have been dirty; or since its ReadOnce was sent the
    /// home may never have had the value last stored.
    NoMoment,
    /// The value last stored may have been thrown away.
    Lost,
    /// Another agent's copy may be one that doesn't go with the one that this makes.
    OtherCopy,
}

/// The known words with this one.
fn with_word(known: [Option<u64>; 8], word: Word) -> [Option<u64>; 8]
    requires { word.place.0 < 8 }
    ensures { known_at result ≡ put word.place.0 (Some word.value) (known_at known) }
{
    let at = usize::from(word.place.0);
    let mut next = known;
    next[at] = Some(word.value);
    next
}

/// The words of the home, where they are known.
pub(crate) fn home_words(home: &Option<Data>) -> [Option<u64>; 8]
    ensures { known_at result ≡ of_eight (home_at home.now) }
{
    match home {
        None => [None; 8],
        Some(words) => [
            Some(words[0]),
            Some(words[1]),
            Some(words[2]),
            Some(words[3]),
            Some(words[4]),
            Some(words[5]),
            Some(words[6]),
            Some(words[7]),
        ],
    }
}

/// No words are known.
pub(crate) fn none_known() -> [Option<u64>; 8]
    ensures { known_at result ≡ no_words }
{
    [None; 8]
}

/// Whether the home has the duty to write dirty data behind a flit of a cache.
pub(crate) fn duty_after(duty: bool, act: Act) -> bool
    ensures { result ≡ (duty || passes_duty act) }
{
    duty || passes_duty(act)
}

/// What an agent's copy may be.
pub(crate) fn may_at(may: &[Copies; 32], agent: usize) -> Copies
    requires { agent < 32 }
    ensures { result ≡ may_at may.now agent }
{
    may[agent]
}

/// What each copy may be where the home has its words.
fn each_shown(may: &[Copies; 32]) -> [Copies; 32]
    ensures { (n : ℕ) (h : HeldOf) → members (may_at result n) h ≡ others_may true may.now n h }
{
    let mut shown = [NOBODY; 32];
    for n in 0..32 {
        shown[n] = may_at(may, n).shown();
    }
    shown
}

/// What each copy may be behind a flit; `tells` says that the home has its words.
pub(crate) fn others_may(tells: bool, may: &[Copies; 32]) -> [Copies; 32]
    ensures { (n : ℕ) (h : HeldOf) → members (may_at result n) h ≡ others_may tells may.now n h }
{
    if tells { each_shown(may) } else { *may }
}

/// The home's words behind a flit; `tells` says that they are its own.
pub(crate) fn home_then(tells: bool, words: Data, home: Option<Data>) -> Option<Data>
    ensures { result ≡ (if tells then Some words else home) }
{
    if tells { Some(words) } else { home }
}

/// What is due behind a flit of a cache, as a byte.
fn code_after(act: Act, code: DueCode) -> DueCode
    ensures { due_is result ≡ due_after act (due_is code) }
{
    match act {
        Act::Request(kind) => DueCode::encode(Due::Completion(kind)),
        Act::Resend(kind) => DueCode::encode(Due::SureCompletion(kind)),
        Act::SnpResp(_) => code,
        Act::CompAck => NOTHING_DUE,
        Act::CopyBackWrData(_) => NOTHING_DUE,
        Act::NonCopyBackWrData => NOTHING_DUE,
        Act::Load(_) => code,
        Act::Store(_) => code,
    }
}

/// What is due behind a flit of the home, as a byte.
fn code_granted(grant: Grant, code: DueCode) -> DueCode
    ensures { due_is result ≡ due_granted grant (due_is code) }
{
    match grant {
        Grant::Snp(_) => code,
        Grant::RetryAck => DueCode::encode(due_granted(grant, code.due())),
        Grant::CompData(_) => DueCode::encode(due_granted(grant, code.due())),
        Grant::CompUC => DueCode::encode(due_granted(grant, code.due())),
        Grant::CompSC => NOTHING_DUE,
        Grant::CompI => NOTHING_DUE,
        Grant::CompDBIDResp => DueCode::encode(due_granted(grant, code.due())),
    }
}

/// Whether two lines have the same words.
fn same_words(known: &Data, words: &Data) -> bool
    ensures { result ≡ all_below 8 (λ p. word_at known.now p == word_at words.now p) }
{
    let mut same = true;
    for n in 0..8 {
        same &= known[n] == words[n];
    }
    same
}

/// Whether the words may be the home's.
fn home_fits(home: &Option<Data>, words: &Data) -> bool
    ensures { result ≡ fits_home home.now words.now }
{
    match home {
        None => true,
        Some(known) => same_words(known, words),
    }
}

/// The home has these words, if `tells` says that they are its own.
fn tell(home: &mut Option<Data>, tells: bool, words: &Data)
    ensures { home.new ≡ (if tells then Some words.now else home.old) }
{
    if tells {
        *home = Some(*words);
    }
}

/// The others' copies behind a flit; `tells` says that the home has their words.
#[inline(always)]
fn show_others(may: &mut [Copies; 32], tells: bool)
    ensures { (n : ℕ) (h : HeldOf) → members (may_at may.new n) h ≡ others_may tells may.old n h }
{
    if !tells {
        return;
    }
    if is_none_stored(may) {
        return;
    }
    *may = each_shown(may);
}

/// Whether the words that are known stay behind a flit of a cache; `forgets` says that there may have been a store which
/// nobody told of.
fn keeps_words(act: Act, forgets: bool) -> bool
    ensures { result ≡ keeps_words act forgets }
{
    let tells = tells_words(act);
    match act {
        Act::Load(_) => false,
        Act::Store(_) => false,
        Act::Request(_)
        | Act::Resend(_)
        | Act::SnpResp(_)
        | Act::CompAck
        | Act::CopyBackWrData(_)
        | Act::NonCopyBackWrData => !(forgets || tells),
    }
}

/// No words are known any more, if they are to be forgotten.
fn forget(news: &mut [Option<u64>; 8], forgets: bool)
    ensures { known_at news.new ≡ (if forgets then no_words else known_at news.old) }
{
    if forgets {
        *news = none_known();
    }
}

/// Whether the home has the duty to write dirty data behind a flit of its own.
pub(crate) fn duty_granted(duty: bool, grant: Grant) -> bool
    ensures { result ≡ (duty && not (needs_duty grant)) }
{
    duty && !needs_duty(grant)
}

/// Whether no agent has a CompAck or write data due.
pub(crate) fn is_quiet(due: &[DueCode; 32]) -> bool
    ensures { result ≡ all_below 32 (λ m. not (is_busy (due_at due.now m))) }
{
    let mut quiet = true;
    for n in 0..32 {
        quiet &= !due[n].is_busy();
    }
    quiet
}

/// Whether no other agent has a request open for which copies may be thrown away.
pub(crate) fn is_none_overwriting(due: &[DueCode; 32], agent: u8) -> bool
    ensures { result ≡ all_below 32 (λ m. m == agent || not (overwrites (due_at due.now m))) }
{
    let mut none = true;
    for n in 0..32 {
        none &= is_sparing(n, agent, due[n]);
    }
    none
}

/// Whether this isn't due of a request for which copies may be thrown away; the agent's own don't count.
fn is_sparing(n: usize, agent: u8, due: DueCode) -> bool
    ensures { result ≡ (n == agent || not (overwrites (due_is due))) }
{
    let overwrites = due.overwrites();
    n == usize::from(agent) || !overwrites
}

/// Whether the copies of an agent go with each that another may have; `alone` says that there is to be none.
fn stands_beside(may: &[Copies; 32], agent: u8, got: Copies, alone: bool) -> bool
    ensures { result ≡ all_below 32 (λ m. m == agent || is_beside (members got) alone (members (may_at may.now m))) }
{
    let apart = apart_by(got, alone);
    let mut beside = true;
    for n in 0..32 {
        let other = may_at(may, n);
        beside &= goes_beside(n, agent, apart, other);
    }
    beside
}

/// Whether the copies of an agent go with each that another may have behind a flit; `tells` says that the home has their words.
fn stands_with(tells: bool, may: &[Copies; 32], agent: u8, got: Copies, alone: bool) -> bool
    ensures { result ≡ all_below 32 (λ m. m == agent || is_beside (members got) alone (others_may tells may.now m)) }
{
    if tells {
        let shown = each_shown(may);
        stands_beside(&shown, agent, got, alone)
    } else {
        stands_beside(may, agent, got, alone)
    }
}

/// Whether none of these copies is one that agent `n` may have; the agent's own don't count.
fn goes_beside(n: usize, agent: u8, apart: Copies, other: Copies) -> bool
    ensures { result ≡ (n == agent || not (any_of (members other) (members apart))) }
{
    n == usize::from(agent) || !other.meets(apart)
}

impl Line {
    /// A line that no cache has a copy of, with no request open, and whose memory has any words.
    /// Source: `docs/COPIES.md`, "What is kept".
    pub fn new(stores: Stores) -> Line
        ensures told { observed result ≡ nothing_told stores }
        ensures shown { (n : ℕ) → shown_at result.shown n ≡ false }
    {
        Line {
            stores,
            due: [NOTHING_DUE; 32],
            snooped: [None; 32],
            duty: false,
            may: [NOBODY; 32],
            home: None,
            news: [None; 8],
            shown: [false; 32],
        }
    }

    /// Takes a flit of a cache: `Ok` exactly where some world that the line stands for sends it. Else nothing changes.
    /// Source: `docs/COPIES.md`, "The relation".
    pub fn take(&mut self, flit: CacheFlit) -> Result<(), Reason>
        ensures taken { is_ok result ≡ is_taken (observed self.old) flit }
        ensures after { OnOk result (observed self.new ≡ next (observed self.old) flit) }
        ensures moments { OnOk result ((n : ℕ) → shown_at self.new.shown n
            ≡ shown_after (observed self.old) (Up flit) (shown_at self.old.shown) n) }
        ensures why { IfErr result (λ reason. refusal (observed self.old) flit ≡ Some reason) }
        ensures kept { OnErr result (self.new ≡ self.old) }
    {
        if flit.agent.0 >= 32 {
            return Err(Reason::NoAgent);
        }
        match self.left_by(flit) {
            None => Err(Reason::NotSent),
            Some(left) => {
                self.move_to(flit, left);
                self.shown = shown_behind(&self.due, &self.may, &self.shown, issuer_of(flit));
                self.loosen(flit.agent.0);
                Ok(())
            }
        }
    }

    /// Takes a flit of the home: `Ok` exactly where it is safe in each world that the line stands for. Else nothing changes.
    /// Source: `docs/COPIES.md`, "The relation".
    pub fn take_home(&mut self, flit: HomeFlit) -> Result<(), Reason>
        ensures taken { is_ok result ≡ is_taken_home (observed self.old) (shown_at self.old.shown) flit }
        ensures after { OnOk result (observed self.new ≡ next_home (observed self.old) flit) }
        ensures moments { OnOk result ((n : ℕ) → shown_at self.new.shown n
            ≡ shown_after (observed self.old) (Down flit) (shown_at self.old.shown) n) }
        ensures why { IfErr result (λ reason. home_refusal (observed self.old) (shown_at self.old.shown) flit ≡ Some reason) }
        ensures kept { OnErr result (self.new ≡ self.old) }
    {
        if flit.agent.0 >= 32 {
            return Err(Reason::NoAgent);
        }
        let got = self.got(flit);
        match self.is_timely(flit, got) {
            Err(reason) => Err(reason),
            Ok(()) => {
                self.give(flit, got);
                self.shown = shown_behind(&self.due, &self.may, &self.shown, None);
                self.loosen(flit.agent.0);
                Ok(())
            }
        }
    }

    /// What is due next of an agent's request.
    fn due_of(&self, agent: u8) -> Due
        requires { agent < 32 }
        ensures { result ≡ due_at self.now.due agent }
    {
        self.due[usize::from(agent)].due()
    }

    /// The snoop that an agent hasn't answered.
    fn snooped_of(&self, agent: u8) -> Option<Snoop>
        requires { agent < 32 }
        ensures { result ≡ snooped_at self.now.snooped agent }
    {
        self.snooped[usize::from(agent)]
    }

    /// What an agent's copy may be.
    fn may_of(&self, agent: u8) -> Copies
        requires { agent < 32 }
        ensures { result ≡ may_at self.now.may agent }
    {
        may_at(&self.may, usize::from(agent))
    }

    /// The copies that a flit of a cache leaves, where it is taken.
    fn left_by(&self, flit: CacheFlit) -> Option<Copies>
        requires { flit.agent.0 < 32 }
        ensures taken { is_some result ≡ takes (observed self.now) flit }
        ensures placed { IfSome result (λ left. is_placed flit.act ≡ true) }
        ensures left { IfSome result (λ left. (h : HeldOf) → members left h ≡ sent_by (observed self.now) flit h) }
    {
        let snooped = self.snooped_of(flit.agent.0);
        if !allows(flit.act, snooped) {
            return None;
        }
        if !is_placed(flit.act) {
            return None;
        }
        let left = self.left_of(flit);
        if Test::Each.any(left) {
            Some(left)
        } else {
            None
        }
    }

    /// The copies that a flit of a cache leaves of those that may have sent it.
    fn left_of(&self, flit: CacheFlit) -> Copies
        requires low { flit.agent.0 < 32 }
        requires placed { is_placed flit.act ≡ true }
        ensures { (h : HeldOf) → members result h ≡ sent_by (observed self.now) flit h }
    {
        let snooped = self.snooped_of(flit.agent.0);
        let goes = lets_go(snooped);
        let due = self.due_of(flit.agent.0);
        let may = self.may_of(flit.agent.0);
        let fits = self.fitting(&flit, due, may);
        if is_plain(flit.act, due, fits) {
            plain(flit.act, goes, due, fits)
        } else {
            let sent = self.sent(flit);
            Step::Sending(sent).image(may)
        }
    }

    /// The copies of a set whose words the data of a flit, if it has any, may be.
    fn fitting(&self, flit: &CacheFlit, due: Due, may: Copies) -> Copies
        requires { due ≡ due_at self.now.due flit.now.agent.0 }
        ensures { (h : HeldOf) → members result h ≡ (members may h && fits (observed self.now) flit.now h) }
    {
        if !has_data(flit.act) {
            return may;
        }
        let home = home_fits(&self.home, &flit.shown);
        let news = fits_each(&self.news, &flit.shown);
        may.and(fitting(self.stores, due, home, news))
    }

    /// The flit beside what is kept of the line.
    fn sent(&self, flit: CacheFlit) -> Sent
        requires low { flit.agent.0 < 32 }
        requires placed { is_placed flit.act ≡ true }
        ensures { result ≡ sent_of (observed self.now) flit }
    {
        let snooped = self.snooped_of(flit.agent.0);
        let goes = lets_go(snooped);
        let due = self.due_of(flit.agent.0);
        let words = home_words(&self.home);
        let home = fits_by(flit, &words);
        let news = fits_by(flit, &self.news);
        Sent {
            stores: self.stores,
            act: flit.act,
            goes,
            due,
            home,
            news,
        }
    }

    /// What is kept behind a flit of a cache that leaves these copies, before hidden steps.
    fn move_to(&mut self, flit: CacheFlit, left: Copies)
        requires low { flit.agent.0 < 32 }
        requires placed { is_placed flit.act ≡ true }
        requires left { (h : HeldOf) → members left h ≡ sent_by (observed self.old) flit h }
        ensures after { observed self.new ≡ moved (observed self.old) flit }
        ensures shown { self.new.shown ≡ self.old.shown }
    {
        let at = usize::from(flit.agent.0);
        let tells = tells_words(flit.act);
        self.learn(flit, left);
        tell(&mut self.home, tells, &flit.shown);
        show_others(&mut self.may, tells);
        self.may[at] = left;
        self.due[at] = code_after(flit.act, self.due[at]);
        self.snooped[at] = snooped_after(flit.act, self.snooped[at]);
        self.duty = duty_after(self.duty, flit.act);
    }

    /// What is kept behind hidden steps of an agent.
    fn loosen(&mut self, agent: u8)
        requires { agent < 32 }
        ensures after { observed self.new ≡ loose agent (observed self.old) }
        ensures shown { self.new.shown ≡ self.old.shown }
    {
        let due = self.due_of(agent);
        let may = self.may_of(agent);
        self.may[usize::from(agent)] = may.hidden(self.stores, due);
    }

    /// The words that are known behind a flit of a cache that leaves these copies are kept.
    fn learn(&mut self, flit: CacheFlit, left: Copies)
        requires low { flit.agent.0 < 32 }
        requires placed { is_placed flit.act ≡ true }
        requires left { (h : HeldOf) → members left h ≡ sent_by (observed self.old) flit h }
        ensures news { known_at self.new.news ≡ news_after (observed self.old) flit }
        ensures rest { self.new ≡ with_news self.old self.new.news }
    {
        let forgets = self.forgets(flit, left);
        if keeps_words(flit.act, forgets) {
            return;
        }
        self.news = self.news_after(flit, left);
    }

    /// The words that are known behind a flit of a cache that leaves these copies.
    fn news_after(&self, flit: CacheFlit, left: Copies) -> [Option<u64>; 8]
        requires low { flit.agent.0 < 32 }
        requires placed { is_placed flit.act ≡ true }
        requires left { (h : HeldOf) → members left h ≡ sent_by (observed self.now) flit h }
        ensures { known_at result ≡ news_after (observed self.now) flit }
    {
        match flit.act {
            Act::Load(word) => with_word(self.news, word),
            Act::Store(word) => {
                let known = self.known_stored(flit.agent.0);
                with_word(known, word)
            }
            Act::Request(_)
            | Act::Resend(_)
            | Act::SnpResp(_)
            | Act::CompAck
            | Act::CopyBackWrData(_)
            | Act::NonCopyBackWrData => self.news_but(flit, left),
        }
    }

    /// The words that are known of the value behind a flit that is neither a load nor a store.
    fn news_but(&self, flit: CacheFlit, left: Copies) -> [Option<u64>; 8]
        requires left { (h : HeldOf) → members left h ≡ sent_by (observed self.now) flit h }
        ensures { known_at result ≡ (if forgets (observed self.now) flit || tells_words flit.act then no_words else known_at self.now.news) }
    {
        if self.forgets(flit, left) {
            none_known()
        } else if tells_words(flit.act) {
            none_known()
        } else {
            self.news
        }
    }

    /// Whether a request says that there may have been a store which nobody told of.
    fn forgets(&self, flit: CacheFlit, left: Copies) -> bool
        requires left { (h : HeldOf) → members left h ≡ sent_by (observed self.now) flit h }
        ensures { result ≡ forgets (observed self.now) flit }
    {
        are_hidden(self.stores) && (is_request(flit.act) && Test::Newer.any(left))
    }

    /// The words that are known of each copy of the agent that a store may be to.
    fn known_stored(&self, agent: u8) -> [Option<u64>; 8]
        requires { agent < 32 }
        ensures { known_at result ≡ known_stored (observed self.now) agent }
    {
        let may = self.may_of(agent);
        let due = self.due_of(agent);
        let empty = Test::StorableEmpty(due).any(may);
        let newer = Test::StorableNewer(due).any(may);
        if empty {
            none_known()
        } else if newer {
            self.news
        } else {
            home_words(&self.home)
        }
    }

    /// Whether the home may send the flit by what flits say of requests, answers and its duty.
    fn may_give(&self, flit: HomeFlit) -> Result<(), Reason>
        requires { flit.agent.0 < 32 }
        ensures may { is_ok result ≡ home_may (observed self.now).public flit }
        ensures why { IfErr result (λ reason. (rest : Option Reason) → due_refusal (observed self.now) flit rest ≡ Some reason) }
    {
        let due = self.due_of(flit.agent.0);
        let snooped = self.snooped_of(flit.agent.0);
        if !is_due(flit.grant, due, snooped) {
            return Err(Reason::NotDue);
        }
        if needs_duty(flit.grant) && !self.duty {
            return Err(Reason::NoDuty);
        }
        if needs_quiet(flit.grant) && !is_quiet(&self.due) {
            return Err(Reason::Busy);
        }
        if needs_overwriter(flit.grant) && is_none_overwriting(&self.due, flit.agent.0) {
            return Err(Reason::NoOverwriter);
        }
        Ok(())
    }

    /// Whether there was the moment that the flit needs.
    fn has_moment(&self, flit: HomeFlit) -> bool
        requires { flit.agent.0 < 32 }
        ensures { result ≡ has_moment (observed self.now) (shown_at self.now.shown) flit }
    {
        let due = self.due_of(flit.agent.0);
        let shown = self.shown[usize::from(flit.agent.0)];
        !needs_moment(flit.grant, due) || shown
    }

    /// Whether there was its moment, the flit is due, and leaves all in order.
    fn is_timely(&self, flit: HomeFlit, got: Copies) -> Result<(), Reason>
        requires low { flit.agent.0 < 32 }
        requires got { (h : HeldOf) → members got h ≡ got_by (observed self.now) flit h }
        ensures takes { is_ok result ≡ (has_moment (observed self.now) (shown_at self.now.shown) flit
            && takes_home (observed self.now) flit) }
        ensures why { IfErr result (λ reason. refused_if (not (has_moment (observed self.now) (shown_at self.now.shown) flit)) NoMoment
            (due_refusal (observed self.now) flit (copy_refusal (observed self.now) flit)) ≡ Some reason) }
    {
        if self.has_moment(flit) {
            self.is_safe(flit, got)
        } else {
            Err(Reason::NoMoment)
        }
    }

    /// Whether the flit is due, and leaves all in order.
    fn is_safe(&self, flit: HomeFlit, got: Copies) -> Result<(), Reason>
        requires low { flit.agent.0 < 32 }
        requires got { (h : HeldOf) → members got h ≡ got_by (observed self.now) flit h }
        ensures takes { is_ok result ≡ takes_home (observed self.now) flit }
        ensures why { IfErr result (λ reason. due_refusal (observed self.now) flit
            (copy_refusal (observed self.now) flit) ≡ Some reason) }
    {
        match self.may_give(flit) {
            Err(reason) => Err(reason),
            Ok(()) => self.keeps_order(flit, got),
        }
    }

    /// Whether the flit leaves all in order, where the home may send it.
    fn keeps_order(&self, flit: HomeFlit, got: Copies) -> Result<(), Reason>
        requires low { flit.agent.0 < 32 }
        requires got { (h : HeldOf) → members got h ≡ got_by (observed self.now) flit h }
        ensures keeps { is_ok result ≡ keeps_order (observed self.now) flit }
        ensures why { IfErr result (λ reason. copy_refusal (observed self.now) flit ≡ Some reason) }
    {
        if !self.fits_shown(flit) {
            return Err(Reason::OtherWords);
        }
        if self.fills_stored(flit) {
            return Err(Reason::Lost);
        }
        if !self.goes(flit, got) {
            return Err(Reason::OtherCopy);
        }
        Ok(())
    }

    /// Whether the words of a flit of the home are the home's own.
    fn is_shown(&self, flit: HomeFlit) -> bool
        requires { flit.agent.0 < 32 }
        ensures { result ≡ any_of ((observed self.now).may flit.agent.0) (shows flit.grant) }
    {
        let may = self.may_of(flit.agent.0);
        Test::Shows(flit.grant).any(may)
    }

    /// Whether the words may be the home's, if they are its own.
    fn fits_shown(&self, flit: HomeFlit) -> bool
        requires { flit.agent.0 < 32 }
        ensures { result ≡ (not (any_of ((observed self.now).may flit.agent.0) (shows flit.grant))
            || fits_home self.now.home flit.shown) }
    {
        let shows = self.is_shown(flit);
        !shows || self.fits_home(flit)
    }

    /// Whether the words may be the home's.
    fn fits_home(&self, flit: HomeFlit) -> bool
        ensures { result ≡ fits_home self.now.home flit.shown }
    {
        home_fits(&self.home, &flit.shown)
    }

    /// Whether the flit fills a copy whose agent may have thrown the value away.
    fn fills_stored(&self, flit: HomeFlit) -> bool
        requires { flit.agent.0 < 32 }
        ensures { result ≡ any_of ((observed self.now).may flit.agent.0) (passes (FillsStored flit.grant)) }
    {
        let may = self.may_of(flit.agent.0);
        Test::FillsStored(flit.grant).any(may)
    }

    /// The copies of the flit's agent then.
    fn got(&self, flit: HomeFlit) -> Copies
        requires { flit.agent.0 < 32 }
        ensures { (h : HeldOf) → members result h ≡ got_by (observed self.now) flit h }
    {
        let due = self.due_of(flit.agent.0);
        let may = self.may_of(flit.agent.0);
        if stays(flit.grant, due) {
            may
        } else {
            Step::Granted(flit.grant, due).image(may)
        }
    }

    /// Whether each copy that another agent may have goes with those of the flit's then.
    fn goes(&self, flit: HomeFlit, got: Copies) -> bool
        requires low { flit.agent.0 < 32 }
        requires got { (h : HeldOf) → members got h ≡ got_by (observed self.now) flit h }
        ensures { result ≡ goes (observed self.now) flit }
    {
        let due = self.due_of(flit.agent.0);
        let alone = needs_alone(flit.grant, due);
        let renews = renews(flit.grant, due);
        stands_with(renews, &self.may, flit.agent.0, got, alone)
    }

    /// What is kept behind a flit of the home, before hidden steps.
    fn give(&mut self, flit: HomeFlit, got: Copies)
        requires low { flit.agent.0 < 32 }
        requires got { (h : HeldOf) → members got h ≡ got_by (observed self.old) flit h }
        ensures after { observed self.new ≡ given (observed self.old) flit }
        ensures shown { self.new.shown ≡ self.old.shown }
    {
        let at = usize::from(flit.agent.0);
        let due = self.due_of(flit.agent.0);
        let snooped = self.snooped_of(flit.agent.0);
        let shows = self.is_shown(flit);
        let makes = makes(flit.grant, due);
        let renews = renews(flit.grant, due);
        forget(&mut self.news, makes);
        tell(&mut self.home, shows, &flit.shown);
        show_others(&mut self.may, renews);
        self.may[at] = got;
        self.due[at] = code_granted(flit.grant, self.due[at]);
        self.snooped[at] = snooped_granted(flit.grant, snooped);
        self.duty = duty_granted(self.duty, flit.grant);
    }
}
