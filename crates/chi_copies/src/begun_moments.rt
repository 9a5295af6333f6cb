//! What is kept right behind a flit of a line whose trace begins in the middle: hidden steps, and the moments of CleanShareds and
//! ReadOnces.

ghost use Rattle.std.specs.Prelude.{◌≡◌, ◌<◌, ◌&&◌, ◌||◌, ◌==◌, ℕ, if◌then◌else◌, not};
ghost use Rattle.chi_copies.specs.Copies.{Held as HeldOf, image};
ghost use Rattle.chi_copies.specs.Rules.{slips};
ghost use Rattle.chi_copies.specs.Begun.{is_one};
ghost use Rattle.chi_copies.specs.BegunLines.{clean_in, code_at, copies_at, dues_of, flags_of, moment_in, none_dirty_in, none_stored_in, sets_of, shown_in, sure_of};
ghost use Rattle.chi_copies.specs.Dues.{due_is};
ghost use Rattle.chi_copies.specs.Sets.{members};

use crate::copies::Copies;
use crate::dues::DueCode;
use crate::rules::reads_once;
use crate::tests::Test;
use crate::timed::{is_issuer, is_none_awaiting};
use chi_observer::Stores;

/// The set of none.
const NONE: Copies = Copies { bits: 0 };

/// What an agent's copy may be.
pub(crate) fn copies_at(may: &[Copies; 32], agent: usize) -> Copies
    requires { agent < 32 }
    ensures { result ≡ copies_at may.now agent }
{
    may[agent]
}

/// What is due of an agent's request.
pub(crate) fn code_at(due: &[DueCode; 32], agent: usize) -> DueCode
    requires { agent < 32 }
    ensures { result ≡ code_at due.now agent }
{
    due[agent]
}

/// Whether it is so of an agent.
pub(crate) fn flag_at(flags: &[bool; 32], agent: usize) -> bool
    requires { agent < 32 }
    ensures { result ≡ flags_of flags.now agent }
{
    flags[agent]
}

/// Whether an agent's copy is sure, behind a flit.
fn is_sure_then(asked: bool, sure: bool, copies: Copies) -> bool
    ensures { result ≡ (not asked && (sure || is_one (members copies))) }
{
    !asked && (sure || copies.is_one())
}

/// Whether each agent's copy is sure, behind a flit.
pub(crate) fn sure_then(asked: &[bool; 32], sure: &[bool; 32], may: &[Copies; 32]) -> [bool; 32]
    ensures { (n : ℕ) → sure_of result n
        ≡ (not (flags_of asked.now n) && (sure_of sure.now n || is_one (sets_of may.now n))) }
{
    let mut settled = [false; 32];
    for n in 0..32 {
        settled[n] = is_sure_then(flag_at(asked, n), sure[n], copies_at(may, n));
    }
    settled
}

/// What a copy may be behind hidden steps, if it is sure.
fn copies_then(stores: Stores, due: DueCode, sure: bool, copies: Copies) -> Copies
    ensures { (h : HeldOf) → members result h
        ≡ (if sure then image (slips stores (due_is due)) (members copies) else members copies) h }
{
    if sure {
        copies.hidden(stores, due.due())
    } else {
        copies
    }
}

/// What each copy may be behind hidden steps of those that are sure.
pub(crate) fn may_then(
    stores: Stores,
    due: &[DueCode; 32],
    sure: &[bool; 32],
    may: &[Copies; 32],
) -> [Copies; 32]
    ensures { (n : ℕ) (h : HeldOf) → sets_of result n h
        ≡ (if sure_of sure.now n then image (slips stores (dues_of due.now n)) (sets_of may.now n) else sets_of may.now n) h }
{
    let mut settled = [NONE; 32];
    for n in 0..32 {
        settled[n] = copies_then(stores, code_at(due, n), sure[n], copies_at(may, n));
    }
    settled
}

/// Whether no copy that counts was stored to.
fn is_none_stored(sure: &[bool; 32], may: &[Copies; 32]) -> bool
    ensures { result ≡ none_stored_in (sure_of sure.now) (sets_of may.now) }
{
    let mut none = true;
    for n in 0..32 {
        let copies = copies_at(may, n);
        let stored = Test::Stored.counts(sure[n], copies);
        none &= !stored;
    }
    none
}

/// Whether it doesn't count of one agent's copy that it is dirty, unless it is the other's own, nor that the value is lost.
fn is_clean_beside(sure: bool, copies: Copies, n: usize, agent: usize) -> bool
    ensures { result ≡ clean_in sure (members copies) n agent }
{
    let dirty = Test::Dirty.counts(sure, copies);
    let lost = Test::Lost.counts(sure, copies);
    (n == agent || !dirty) && !lost
}

/// Whether no other copy that counts is dirty, and the value isn't lost.
fn is_none_dirty(sure: &[bool; 32], may: &[Copies; 32], agent: usize) -> bool
    ensures { result ≡ none_dirty_in (sure_of sure.now) (sets_of may.now) agent }
{
    let mut clean = true;
    for n in 0..32 {
        let copies = copies_at(may, n);
        clean &= is_clean_beside(sure[n], copies, n, agent);
    }
    clean
}

/// Whether it may be the moment that the agent's request needs.
fn may_be_moment(due: DueCode, sure: &[bool; 32], may: &[Copies; 32], agent: usize) -> bool
    ensures { result ≡ moment_in (due_is due) (sure_of sure.now) (sets_of may.now) agent }
{
    if reads_once(due.due()) {
        is_none_stored(sure, may)
    } else {
        is_none_dirty(sure, may, agent)
    }
}

/// What is known of an agent's request, for its moment.
/// Source: `docs/COPIES.md`, "A trace that begins in the middle".
#[derive(Clone, Copy, Debug, PartialEq, Eq)]
pub struct Awaiting {
    /// A request from before may be open.
    pub asked: bool,
    /// What is due of it.
    pub due: DueCode,
    /// There was its moment before the flit.
    pub shown: bool,
}

/// Whether there may have been the moment that the agent's request needs, behind the flit.
fn is_shown(
    awaiting: Awaiting,
    issuer: Option<u8>,
    sure: &[bool; 32],
    may: &[Copies; 32],
    agent: usize,
) -> bool
    ensures { result ≡ shown_in awaiting.asked (due_is awaiting.due) awaiting.shown issuer
        (sure_of sure.now) (sets_of may.now) agent }
{
    if awaiting.asked {
        return true;
    }
    if !awaiting.due.awaits_moment() {
        return false;
    }
    (!is_issuer(issuer, agent) && awaiting.shown) || may_be_moment(awaiting.due, sure, may, agent)
}

/// Whether there may have been the moment that each agent's request needs, behind a flit: what may be from before, what is due,
/// and the copies, are as the flit leaves them. If the flit is a request, `issuer` is its agent.
pub(crate) fn shown_then(
    asked: &[bool; 32],
    due: &[DueCode; 32],
    shown: &[bool; 32],
    issuer: Option<u8>,
    sure: &[bool; 32],
    may: &[Copies; 32],
) -> [bool; 32]
    ensures { (n : ℕ) → flags_of result n ≡ shown_in (flags_of asked.now n) (dues_of due.now n) (flags_of shown.now n) issuer
        (sure_of sure.now) (sets_of may.now) n }
{
    if is_none_awaiting(due) {
        return *asked;
    }
    let mut settled = [true; 32];
    for n in 0..32 {
        let awaiting = Awaiting {
            asked: flag_at(asked, n),
            due: code_at(due, n),
            shown: flag_at(shown, n),
        };
        settled[n] = is_shown(awaiting, issuer, sure, may, n);
    }
    settled
}
