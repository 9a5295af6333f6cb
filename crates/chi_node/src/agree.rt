//! Whether a requester agrees with a slice.

ghost use Rattle.std.specs.Prelude.{◌≡◌, ◌<◌, ◌↔◌, ℕ, All, IsTrue, Some, length, slice_index};
ghost use Rattle.chi_slice.specs.Words.{part_count};
ghost use Rattle.chi_credit.specs.Account.{slot_record_at};
ghost use Rattle.chi_slice.specs.Slice.{SliceKept};
ghost use Rattle.chi_node.specs.Requester.{RequesterKept};
ghost use Rattle.chi_node.specs.Agree.{is_said_in, said_place, position_of_state, Agree, AllAgree, MatchesRecord};
ghost use Rattle.chi_node.specs.Table.{AgreeByTable};

use crate::requester::Requester;
use chi_credit::{SlotRecord, SlotState};
use chi_flit::{Agent, Slot};
use chi_slice::{Position, RequestPlace, Slice};
use std::alloc::Allocator;

/// Whether the requester agrees with the slice: what the slice shows of each of the eight slots is what
/// the account says of it, row by row of the table, and the slice answered as many loads and stores as the
/// requester counted. No line is walked over, and no memory is taken.
/// Source: `docs/PROTOCOL.md`, "Agreement".
pub fn agrees<A: Allocator>(slice: &Slice<A>, requester: &Requester) -> bool
    ensures agree { IsTrue result ↔ Agree slice.now requester.now }
    ensures table { IsTrue result ↔ AgreeByTable slice.now requester.now }
{
    is_open(slice, requester)
}

// As `agrees`. Whoever asks knows what every slice and every requester keeps.
fn is_open<A: Allocator>(slice: &Slice<A>, requester: &Requester) -> bool
    ensures agree { IsTrue result ↔ Agree slice.now requester.now }
    ensures slice { SliceKept slice.now }
    ensures requester { RequesterKept requester.now.port.shape.sizes requester.now }
{
    has_count(slice, requester) && matches_account(slice, requester)
}

/// Whether each of the requesters agrees with the slice. No memory is taken.
/// Source: `docs/PROTOCOL.md`, "Agreement".
pub fn agree_with<A: Allocator>(slice: &Slice<A>, requesters: &[Requester]) -> bool
    ensures { IsTrue result ↔ All (Agree slice.now) requesters.now }
{
    let mut found = true;
    for requester in requesters {
        found &= agrees(slice, requester);
    }
    found
}

/// Whether each requester agrees with each slice.
pub(crate) fn all_agree<A: Allocator>(slices: &[Slice<A>], requesters: &[Requester]) -> bool
    ensures { IsTrue result ↔ AllAgree slices.now requesters.now }
{
    let mut found = true;
    for slice in slices {
        found &= agree_with(slice, requesters);
    }
    found
}

/// Whether the requester's count for the slice is how many of its loads and stores the journal counts.
fn has_count<A: Allocator>(slice: &Slice<A>, requester: &Requester) -> bool
    ensures is { IsTrue result
        ↔ (slice_index requester.now.counts slice.now.index
        ≡ part_count slice.now.journal requester.now.number) }
    ensures slice { SliceKept slice.now }
    ensures requester { RequesterKept requester.now.port.shape.sizes requester.now }
{
    let answered = slice.journal().part_len(requester.number());
    requester.count(slice.index()) == answered
}

/// Whether the slice shows of each slot what the account says of it.
fn matches_account<A: Allocator>(slice: &Slice<A>, requester: &Requester) -> bool
    ensures { IsTrue result
        ↔ ((slot : Slot) → slot.0 < 8
        → MatchesRecord slice.now requester.now.number slot (slot_record_at requester.now.slots slot.0)) }
{
    let agent = requester.number();
    let mut found = true;
    for slot in 0..8 {
        found &= matches_record(slice, agent, Slot(slot), requester.slot(Slot(slot)));
    }
    found
}

/// Whether the slice shows of an agent's slot what a record says of it. An idle slot has no place in the slice,
/// and nothing more is asked of it.
fn matches_record<A: Allocator>(
    slice: &Slice<A>,
    agent: Agent,
    slot: Slot,
    said: SlotRecord,
) -> bool
    requires agent { agent.0 < 8 }
    requires slot { slot.0 < 8 }
    ensures { IsTrue result ↔ MatchesRecord slice.now agent.0 slot said }
{
    match slice.place(agent, slot) {
        Some(place) => is_said(place, said) && slice.has_type(agent, slot, said.credit),
        None => !is_said_in(slice, said),
    }
}

/// Whether a record says that its request is at this place.
fn is_said(place: RequestPlace, said: SlotRecord) -> bool
    ensures { IsTrue result ↔ (Some place ≡ said_place said) }
{
    match position_of_state(said.state, said.answered) {
        Some(at) => place.line.0 == said.line.0 && place.at == at,
        None => false,
    }
}

/// Whether a record says that its request is in the slice.
fn is_said_in<A: Allocator>(slice: &Slice<A>, said: SlotRecord) -> bool
    ensures { result ≡ is_said_in slice.now said }
{
    // (both are asked, so that nothing branches on whether the slot is idle)
    let here = slice.has_line(said.line);
    position_of_state(said.state, said.answered).is_some() & here
}

/// Where the request of a slot is, by the slot's state and whether it is marked as answered.
fn position_of_state(state: SlotState, answered: bool) -> Option<Position>
    ensures { result ≡ position_of_state state answered }
{
    match state {
        SlotState::Idle | SlotState::Cancelled => None,
        SlotState::Sent => Some(Position::Sent),
        SlotState::Refused => Some(Position::Refused),
        SlotState::Retried => Some(Position::Retried),
        SlotState::Riding => Some(Position::Resent),
        SlotState::Admitted(_) => Some(if answered {
            Position::Answered
        } else {
            Position::Admitted
        }),
        SlotState::Closing => Some(Position::Closing),
    }
}
