//! The sweep of the requesters for an owed credit of a type.

ghost use Rattle.std.specs.Prelude.{◌≡◌, ℕ, [], ◌∷◌, ⊤, ◌+◌, ◌<◌, ◌*◌, ◌/◌, ◌≤◌, None, MatchBool, MatchOption};
ghost use Rattle.chi_tracker.specs.Shape.{low, size, IsOf};
ghost use Rattle.chi_tracker.specs.Views.{PortView, has};
ghost use Rattle.chi_tracker.specs.Steps.{shown, solo, byte_of, frees, settles, promises};
ghost use Rattle.chi_tracker.specs.History.{IsAfter, port_in};
ghost use Rattle.chi_tracker.specs.Calls.{IsSeat, owner_in, with_sweep, stands_at, swept_all, granted_to, LeavesHand, ShowsOwed, Tended};
ghost use Rattle.chi_tracker.specs.Conduct.{Does, Then, One, Found, FoundClear, Settled, SettledIn, PromisedAt, SweptFor, EndActs, LookedUntil, LookedInVain, TendActs};

use crate::law::{Board, PortSeat};
use crate::marks::is_set;
use crate::released::Released;
use crate::scan::scan;
use crate::step::AtomicStep;
use crate::steps::{free_step, promise_step, settle_step, sweep_step};
use chi_flit::Agent;

/// The places of the type in a word of owed credits.
fn byte(word: u64, ty: usize) -> u64
    requires { ty < 4 }
    ensures { result ≡ byte_of ty word }
{
    (word >> (8 * ty)) % 256
}

/// Tries to settle a place at a requester, and promises it the entry in hand where the place was still
/// set. True where it did.
fn settle_one(
    board: &Board,
    port_seat: &mut PortSeat,
    agent: usize,
    place: usize,
    entry: usize,
) -> bool
    requires seat { IsSeat board.now.table_id port_seat.old }
    requires held { ((port_in port_seat.old.me).duty ≡ None) × (has entry (port_in port_seat.old.me) ≡ 1) }
    requires range { (agent < (port_in port_seat.old.me).shape.agents) × (agent < 8) × (entry < 256) }
    requires place { (place < 32) × IsOf (port_in port_seat.old.me).shape (place / 8) entry }
    ensures table { port_seat.new.table_id ≡ port_seat.old.table_id }
    ensures view { MatchBool result
        (shown port_seat.new.me ≡ solo (promises (settles entry agent place 1 (port_in port_seat.old.me))))
        (shown port_seat.new.me ≡ solo (settles entry agent place 0 (port_in port_seat.old.me))) }
    ensures acts { MatchBool result
        (Does (owner_in port_seat.old) (Settled entry agent place) (owner_in port_seat.new))
        (Does (owner_in port_seat.old) (Found (AtomicStep.Settle entry agent place) place 0) (owner_in port_seat.new)) }
    ensures after { IsAfter port_seat.new.me.0.history (port_in port_seat.new.me) }
{
    let old = settle_step(board, port_seat, agent, place, entry);
    if !is_set(old, place) {
        return false;
    }
    promise_step(board, port_seat, agent, entry);
    true
}

/// Tries to settle the places of the type that a look at the requester showed, from place 0, for an entry
/// in hand of the type. True where it was promised to the requester.
fn settle_places(
    board: &Board,
    port_seat: &mut PortSeat,
    ty: usize,
    agent: usize,
    word: u64,
    entry: usize,
) -> bool
    requires seat { IsSeat board.now.table_id port_seat.old }
    requires held { ((port_in port_seat.old.me).duty ≡ None) × (has entry (port_in port_seat.old.me) ≡ 1) }
    requires sweep { (port_in port_seat.old.me).sweep ≡ record {
      opened = (port_in port_seat.old.me).sweep.opened;
      kind = ty;
      at = agent;
      left = byte_of ty word;
    } }
    requires range { (ty < 4) × (agent < (port_in port_seat.old.me).shape.agents) × (agent < 8)
        × (entry < 256) × IsOf (port_in port_seat.old.me).shape ty entry }
    ensures table { port_seat.new.table_id ≡ port_seat.old.table_id }
    ensures view { MatchBool result
        ((left : ℕ) × (shown port_seat.new.me ≡ solo (granted_to agent entry
        (with_sweep (record (port_in port_seat.old.me).sweep { left = left }) (port_in port_seat.old.me)))))
        (shown port_seat.new.me
        ≡ solo (with_sweep (record (port_in port_seat.old.me).sweep { left = 0 }) (port_in port_seat.old.me))) }
    ensures acts { MatchBool result
        (Does (owner_in port_seat.old) (SettledIn ty entry agent word) (owner_in port_seat.new))
        (Does (owner_in port_seat.old) (FoundClear ty entry agent word 8) (owner_in port_seat.new)) }
    ensures after { MatchBool result (IsAfter port_seat.new.me.0.history (port_in port_seat.new.me)) ⊤ }
{
    for place in 8 * ty..8 * ty + 8 {
        if is_set(word, place) && settle_one(board, port_seat, agent, place, entry) {
            return true;
        }
    }
    false
}

/// Releases an entry in hand of the type: it is promised to the first requester, in rising order, of
/// which a place could be settled; where there is none it is freed. Answers the requester.
fn settle_first(
    board: &Board,
    port_seat: &mut PortSeat,
    ty: usize,
    agents: usize,
    entry: usize,
) -> Option<usize>
    requires seat { IsSeat board.now.table_id port_seat.old }
    requires held { ((port_in port_seat.old.me).duty ≡ None) × (has entry (port_in port_seat.old.me) ≡ 1) }
    requires range { (ty < 4) × (agents ≡ (port_in port_seat.old.me).shape.agents) × (0 < agents)
        × (agents ≤ 8) × (entry < 256) × IsOf (port_in port_seat.old.me).shape ty entry }
    ensures table { port_seat.new.table_id ≡ port_seat.old.table_id }
    ensures view { MatchOption result
        (shown port_seat.new.me ≡ solo (frees entry (swept_all ty (port_in port_seat.old.me))))
        (λ m. (m < agents) × ((left : ℕ)
        × (shown port_seat.new.me
        ≡ solo (granted_to m entry (stands_at ty m left (port_in port_seat.old.me)))))) }
    ensures acts { MatchOption result
        (Does (owner_in port_seat.old) (Then (SweptFor ty entry agents) (One (AtomicStep.Free entry)))
        (owner_in port_seat.new))
        (λ m. Does (owner_in port_seat.old) (Then (SweptFor ty entry m) (PromisedAt ty entry m))
        (owner_in port_seat.new)) }
    ensures after { IsAfter port_seat.new.me.0.history (port_in port_seat.new.me) }
{
    for agent in 0..agents {
        let word = sweep_step(board, port_seat, ty, agent);
        if settle_places(board, port_seat, ty, agent, word, entry) {
            return Some(agent);
        }
    }
    free_step(board, port_seat, entry);
    None
}

/// Releases an entry in hand of the type, as `settle_first` does.
pub(crate) fn release_entry(
    board: &Board,
    port_seat: &mut PortSeat,
    ty: usize,
    agents: usize,
    entry: usize,
) -> Released
    requires seat { IsSeat board.now.table_id port_seat.old }
    requires held { ((port_in port_seat.old.me).duty ≡ None) × (has entry (port_in port_seat.old.me) ≡ 1) }
    requires range { (ty < 4) × (agents ≡ (port_in port_seat.old.me).shape.agents) × (0 < agents)
        × (agents ≤ 8) × (entry < 256) × IsOf (port_in port_seat.old.me).shape ty entry }
    ensures table { port_seat.new.table_id ≡ port_seat.old.table_id }
    ensures alone { shown port_seat.new.me ≡ solo (port_in port_seat.new.me) }
    ensures view { LeavesHand (port_in port_seat.old.me) ty entry result (port_in port_seat.new.me) }
    ensures acts { Does (owner_in port_seat.old) (EndActs agents ty entry result) (owner_in port_seat.new) }
    ensures after { IsAfter port_seat.new.me.0.history (port_in port_seat.new.me) }
{
    match settle_first(board, port_seat, ty, agents, entry) {
        Some(agent) => Released::Granted(Agent(agent as u8)),
        None => Released::Freed,
    }
}

/// Looks at the requesters, in rising order, until one shows an owed credit of the type. True where one
/// did.
pub(crate) fn look_owed(board: &Board, port_seat: &mut PortSeat, ty: usize, agents: usize) -> bool
    requires seat { IsSeat board.now.table_id port_seat.old }
    requires range { (ty < 4) × (agents ≡ (port_in port_seat.old.me).shape.agents) × (0 < agents)
        × (agents ≤ 8) }
    ensures table { port_seat.new.table_id ≡ port_seat.old.table_id }
    ensures view { MatchBool result
        ((x : PortView) × (shown port_seat.new.me ≡ solo x) × ShowsOwed ty (port_in port_seat.old.me) x)
        (shown port_seat.new.me ≡ solo (swept_all ty (port_in port_seat.old.me))) }
    ensures acts { MatchBool result
        (Does (owner_in port_seat.old) (LookedUntil ty agents) (owner_in port_seat.new))
        (Does (owner_in port_seat.old) (LookedInVain ty agents) (owner_in port_seat.new)) }
    ensures after { IsAfter port_seat.new.me.0.history (port_in port_seat.new.me) }
{
    for agent in 0..agents {
        let shown = sweep_step(board, port_seat, ty, agent);
        if byte(shown, ty) != 0 {
            return true;
        }
    }
    false
}

/// Where a requester shows an owed credit of the type, claims an entry of the type and releases it.
#[tactic(auto, using(crate::proofs::BitLaws::with_here))]
pub(crate) fn tend_type(
    board: &Board,
    port_seat: &mut PortSeat,
    ty: usize,
    agents: usize,
    first: usize,
    count: usize,
) -> Option<Released>
    requires seat { IsSeat board.now.table_id port_seat.old }
    requires idle { (port_in port_seat.old.me).duty ≡ None }
    requires agents { (ty < 4) × (agents ≡ (port_in port_seat.old.me).shape.agents) × (0 < agents)
        × (agents ≤ 8) }
    requires range { (first ≡ low (port_in port_seat.old.me).shape ty)
        × (count ≡ size (port_in port_seat.old.me).shape ty) × (0 < count) × (first + count ≤ 256) }
    ensures table { port_seat.new.table_id ≡ port_seat.old.table_id }
    ensures alone { shown port_seat.new.me ≡ solo (port_in port_seat.new.me) }
    ensures view { Tended (port_in port_seat.old.me) ty result (port_in port_seat.new.me) }
    ensures acts { Does (owner_in port_seat.old) (TendActs (port_in port_seat.old.me) ty result) (owner_in port_seat.new) }
    ensures after { IsAfter port_seat.new.me.0.history (port_in port_seat.new.me) }
{
    if !look_owed(board, port_seat, ty, agents) {
        return None;
    }
    let entry = scan(board, port_seat, ty, first, count)?;
    Some(release_entry(board, port_seat, ty, agents, entry))
}
