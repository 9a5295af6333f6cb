//! Whether an agent's request is in one place, and is there what is pending.

ghost use Rattle.std.specs.Prelude.{◌≡◌, ◌↔◌, IsTrue};
ghost use Rattle.chi_line.specs.Keeping.{IsInOnePlace, IsPendingAs, RequestsKept, SentKept, SnoopedKept, WaitingKept, lane_in};
ghost use Rattle.chi_line.specs.Kept.{kind_if, snoops_for};
ghost use Rattle.chi_line.specs.RefusalRows.{is_retried};
ghost use Rattle.chi_line.specs.Step.{pending_slot};

use crate::kept::lane::AgentLane;
use crate::kept::marks::{bit, served_kind, snoops_for};
use crate::position::served_slot;
use chi_flit::{Kind, Request, Slot};
use chi_homeline::{Serving, Waiting};
use chi_rnline::{Pending, Phase};

/// Whether the agent's requests are as every line keeps them.
pub(crate) fn are_requests_kept(at: &AgentLane, serving: Serving, agent: u8) -> bool
    ensures { IsTrue result ↔ RequestsKept serving agent (lane_in at.now) }
{
    let snooped = snoops_for(serving, agent);
    is_in_one_place(at, snooped)
        && is_sent_kept(at.flits.req, at.pending)
        && is_waiting_kept(at.waiting, at.pending)
        && is_snooped_kept(snooped, at.awaited, at.pending, serving)
}

/// Whether a pending request is in one place, or retried; where none is pending, nothing is there.
fn is_in_one_place(at: &AgentLane, snooped: bool) -> bool
    ensures { IsTrue result ↔ IsInOnePlace snooped (lane_in at.now) }
{
    let flits = &at.flits;
    let coming = bit(flits.req.is_some()) + bit(at.waiting.is_some()) + bit(snooped);
    let going = bit(flits.dat_down.is_some()) + bit(flits.rsp_down.is_some());
    coming + going + bit(is_retried(at.pending)) == bit(at.pending.is_some())
}

/// Whether a pending request is in phase Retried.
fn is_retried(pending: Option<Pending>) -> bool
    ensures { result ≡ is_retried pending }
{
    match pending {
        Some(request) => matches!(request.phase, Phase::Retried),
        None => false,
    }
}

/// Whether a request that was sent is the one that is pending.
fn is_sent_kept(sent: Option<Request>, pending: Option<Pending>) -> bool
    ensures { IsTrue result ↔ SentKept sent pending }
{
    match sent {
        Some(request) => is_pending_as(pending, Some(request.kind), Some(request.slot)),
        None => true,
    }
}

/// Whether a request that waits is the one that is pending.
fn is_waiting_kept(waiting: Option<Waiting>, pending: Option<Pending>) -> bool
    ensures { IsTrue result ↔ WaitingKept waiting pending }
{
    match waiting {
        Some(request) => is_pending_as(pending, Some(request.kind), Some(request.slot)),
        None => true,
    }
}

/// Whether a request that is snooped for is the one that is pending, and its agent isn't asked itself.
fn is_snooped_kept(snooped: bool, awaited: bool, pending: Option<Pending>, serving: Serving) -> bool
    ensures { IsTrue result ↔ SnoopedKept snooped awaited pending serving }
{
    !snooped || (!awaited && is_pending_as(pending, served_kind(serving), served_slot(serving)))
}

/// Whether what is pending is of the kind, if there is one, and has the slot, if there is one.
pub(crate) fn is_pending_as(
    pending: Option<Pending>,
    kind: Option<Kind>,
    slot: Option<Slot>,
) -> bool
    ensures { IsTrue result ↔ IsPendingAs pending kind slot }
{
    is_pending_kind(pending, kind) && is_pending_slot(pending, slot)
}

/// Whether what is pending is of the kind, if there is one.
pub(crate) fn is_pending_kind(pending: Option<Pending>, kind: Option<Kind>) -> bool
    ensures { IsTrue result ↔ (kind_if pending ≡ kind) }
{
    match (pending, kind) {
        (Some(request), Some(kind)) => is_same_kind(request.kind, kind),
        (None, None) => true,
        (Some(_), None) | (None, Some(_)) => false,
    }
}

/// Whether what is pending has the slot, if there is one.
pub(crate) fn is_pending_slot(pending: Option<Pending>, slot: Option<Slot>) -> bool
    ensures { IsTrue result ↔ (pending_slot pending ≡ slot) }
{
    match (pending, slot) {
        (Some(request), Some(slot)) => is_same_slot(request.slot, slot),
        (None, None) => true,
        (Some(_), None) | (None, Some(_)) => false,
    }
}

/// Whether two kinds are the same.
#[tactic(auto, using(crate::proofs::Keeping::same_kind))]
fn is_same_kind(one: Kind, other: Kind) -> bool
    ensures { IsTrue result ↔ (one ≡ other) }
{
    one == other
}

/// Whether two slots are the same.
#[tactic(auto, using(crate::proofs::Keeping::same_slot))]
fn is_same_slot(one: Slot, other: Slot) -> bool
    ensures { IsTrue result ↔ (one ≡ other) }
{
    one == other
}
