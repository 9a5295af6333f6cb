//! Moments at which no other copy was dirty, or the home had the value last stored.

ghost use Rattle.std.specs.Prelude.{◌≡◌, ◌<◌, ◌&&◌, ◌||◌, ◌==◌, ℕ, if◌then◌else◌, not};
ghost use Rattle.chi_observer.specs.Rules.{awaits_moment, reads_once};
ghost use Rattle.chi_observer.specs.declared.flits.Due.{Due};
ghost use Rattle.chi_copies.specs.Dues.{due_is};
ghost use Rattle.chi_copies.specs.Images.{dirty_then, is_clean_but, moment_by};
ghost use Rattle.chi_copies.specs.Observed.{any_of};
ghost use Rattle.chi_copies.specs.declared.tests.Test.TheVariants.{Dirty, Lost};
ghost use Rattle.chi_copies.specs.Worlds.{all_below};
ghost use Rattle.chi_copies.specs.Moments.{is_issue};
ghost use Rattle.chi_observer.specs.declared.flits.Flit.TheVariants.{Up};
ghost use Rattle.chi_copies.specs.Lines.{issues, due_at, may_at, none_dirty_of, none_stored_of, passes, shown_at, shown_here};
ghost use Rattle.chi_copies.specs.Sets.{members};

use crate::copies::Copies;
use crate::dues::DueCode;
use crate::line::may_at;
use crate::rules::is_request;
use crate::tests::Test;
use chi_observer::CacheFlit;

/// Whether no request needs a moment.
pub(crate) fn is_none_awaiting(due: &[DueCode; 32]) -> bool
    ensures { result ≡ all_below 32 (λ m. not (awaits_moment (due_at due.now m))) }
{
    let mut none = true;
    for n in 0..32 {
        none &= !due[n].awaits_moment();
    }
    none
}

/// The agent whose request the flit is.
pub(crate) fn issuer_of(flit: CacheFlit) -> Option<u8>
    ensures { (n : ℕ) → issues result n ≡ is_issue (Up flit) n }
{
    if is_request(flit.act) {
        Some(flit.agent.0)
    } else {
        None
    }
}

/// Whether the agent is this one.
pub(crate) fn is_issuer(issuer: Option<u8>, agent: usize) -> bool
    ensures { result ≡ issues issuer agent }
{
    match issuer {
        None => false,
        Some(one) => agent == usize::from(one),
    }
}

/// Whether the home's own copy is surely the value last stored.
pub(crate) fn is_none_stored(may: &[Copies; 32]) -> bool
    ensures { result ≡ none_stored_of may.now }
{
    let mut none = true;
    for n in 0..32 {
        let copies = may_at(may, n);
        let stored = Test::Stored.any(copies);
        none &= !stored;
    }
    none
}

/// Whether the value isn't lost.
fn is_none_lost(may: &[Copies; 32]) -> bool
    ensures { result ≡ all_below 32 (λ m. not (any_of (members (may_at may.now m)) (passes Lost))) }
{
    let mut none = true;
    for n in 0..32 {
        let copies = may_at(may, n);
        let lost = Test::Lost.any(copies);
        none &= !lost;
    }
    none
}

/// Nobody's copy may be dirty.
const NOBODY_DIRTY: u8 = 32;

/// The copies of several agents may be dirty.
const SEVERAL_DIRTY: u8 = 33;

/// Whose copies may be dirty, where one more agent's may be, or may not.
fn dirty_then(who: u8, dirty: bool, n: u8) -> u8
    ensures { result ≡ dirty_then who dirty n }
{
    if !dirty {
        who
    } else if who == NOBODY_DIRTY {
        n
    } else {
        SEVERAL_DIRTY
    }
}

/// The agent whose copies alone may be dirty, or that nobody's may be, or several agents'.
fn dirty_one(may: &[Copies; 32]) -> u8
    ensures { (n : ℕ) → n < 32 → is_clean_but result n
        ≡ all_below 32 (λ m. m == n || not (any_of (members (may_at may.now m)) (passes Dirty))) }
{
    let mut who = NOBODY_DIRTY;
    for n in 0..32u8 {
        let copies = may_at(may, usize::from(n));
        let dirty = Test::Dirty.any(copies);
        who = dirty_then(who, dirty, n);
    }
    who
}

/// What all copies may be, for the moments of requests.
#[derive(Clone, Copy, Debug, PartialEq, Eq)]
pub(crate) struct Moments {
    /// Whether the home's own copy is surely the value last stored.
    none_stored: bool,
    /// Whether the value isn't lost.
    none_lost: bool,
    /// The agent whose copies alone may be dirty, or that nobody's may be, or several agents'.
    dirty: u8,
}

impl Moments {
    /// The moments of these copies.
    fn of(may: &[Copies; 32]) -> Moments
        ensures { (d : Due) (n : ℕ) → n < 32 → moment_by result d n
            ≡ (if reads_once d then none_stored_of may.now else none_dirty_of may.now n) }
    {
        let none_stored = is_none_stored(may);
        let none_lost = is_none_lost(may);
        let dirty = dirty_one(may);
        Moments {
            none_stored,
            none_lost,
            dirty,
        }
    }

    /// Whether it is the moment that the agent's request needs, of which this is due.
    fn is_now(self, due: DueCode, n: u8) -> bool
        ensures { result ≡ moment_by self (due_is due) n }
    {
        let reads = due.reads_once();
        let clean = self.none_lost && (self.dirty == NOBODY_DIRTY || self.dirty == n);
        if reads { self.none_stored } else { clean }
    }

    /// Whether there was the moment that the agent's request needs since its issue, behind the flit.
    fn is_shown(self, due: DueCode, issues: bool, was: bool, n: u8) -> bool
        ensures { result ≡ (awaits_moment (due_is due) && ((not issues && was) || moment_by self (due_is due) n)) }
    {
        let awaits = due.awaits_moment();
        let now = self.is_now(due, n);
        awaits && ((!issues && was) || now)
    }
}

/// Whether a request needs a moment that there wasn't.
fn is_pending(due: DueCode, issues: bool, was: bool) -> bool
    ensures { result ≡ (awaits_moment (due_is due) && (issues || not was)) }
{
    let awaits = due.awaits_moment();
    awaits && (issues || !was)
}

/// Whether there was the moment of each request that needs one.
fn is_none_pending(due: &[DueCode; 32], shown: &[bool; 32], issuer: Option<u8>) -> bool
    ensures { result ≡ all_below 32 (λ m. not (awaits_moment (due_at due.now m) && (issues issuer m || not (shown_at shown.now m)))) }
{
    let mut none = true;
    for n in 0..32 {
        let issues = is_issuer(issuer, n);
        let pending = is_pending(due[n], issues, shown[n]);
        none &= !pending;
    }
    none
}

/// Whether each agent's request needs a moment.
fn awaiting(due: &[DueCode; 32]) -> [bool; 32]
    ensures { (n : ℕ) → shown_at result n ≡ awaits_moment (due_at due.now n) }
{
    let mut awaiting = [false; 32];
    for n in 0..32 {
        awaiting[n] = due[n].awaits_moment();
    }
    awaiting
}

/// Whether there was the moment that each agent's request needs, behind a flit: what is due, and the copies, are as the flit
/// leaves them, before hidden steps. If the flit is a request, `issuer` is its agent.
pub(crate) fn shown_behind(
    due: &[DueCode; 32],
    may: &[Copies; 32],
    shown: &[bool; 32],
    issuer: Option<u8>,
) -> [bool; 32]
    ensures { (n : ℕ) → shown_at result n ≡ shown_here due.now may.now issuer (shown_at shown.now n) n }
{
    if is_none_awaiting(due) {
        return [false; 32];
    }
    if is_none_pending(due, shown, issuer) {
        return awaiting(due);
    }
    let moments = Moments::of(may);
    let mut behind = [false; 32];
    for n in 0..32u8 {
        let at = usize::from(n);
        let issues = is_issuer(issuer, at);
        behind[at] = moments.is_shown(due[at], issues, shown[at], n);
    }
    behind
}
