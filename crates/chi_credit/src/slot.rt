//! One slot of a requester.

ghost use Rattle.std.specs.Prelude.{◌≡◌};
ghost use Rattle.chi_flit.specs.Credit.{credit_number};
ghost use Rattle.chi_credit.specs.Slot.{is_cancelled_of, is_idle_state, is_riding_of};

use chi_flit::{CreditType, Entry, Line};

/// How far the request of a slot has come, as its requester knows it.
/// Source: `docs/PROTOCOL.md`, "Slots and accounts".
#[derive(Clone, Copy, Debug, PartialEq, Eq)]
pub enum SlotState {
    /// The slot is free.
    Idle,
    /// The first attempt is on its way.
    Sent,
    /// The RetryAck to it is on its way.
    Refused,
    /// The RetryAck was taken; the request waits for a credit.
    Retried,
    /// The request was resent with a credit.
    Riding,
    /// The home has the request, with this entry.
    Admitted(Entry),
    /// An Evict that the home has completed, and whose Comp_I isn't taken yet.
    Closing,
    /// A retried copy-back that isn't resent; its credit will be given back.
    Cancelled,
}

/// A slot: the state of its request, the request's line and credit type, and whether the requester's own
/// part of it is over. Of a free slot all but the state means nothing.
/// Source: `docs/PROTOCOL.md`, "Slots and accounts".
#[derive(Clone, Copy, Debug, PartialEq, Eq)]
pub struct SlotRecord {
    pub state: SlotState,
    pub line: Line,
    pub credit: CreditType,
    pub answered: bool,
}

/// A free slot.
pub(crate) const IDLE_SLOT: SlotRecord = SlotRecord {
    state: SlotState::Idle,
    line: Line(0),
    credit: CreditType::T0,
    answered: false,
};

/// Whether the slot is free.
pub(crate) fn is_idle(slot: &SlotRecord) -> bool
    ensures { result ≡ is_idle_state slot.now.state }
{
    matches!(slot.state, SlotState::Idle)
}

/// Whether the slot's request rides on a credit of the type.
pub(crate) fn is_riding(slot: &SlotRecord, ty: CreditType) -> bool
    ensures { result ≡ is_riding_of (credit_number ty) slot.now }
{
    matches!(slot.state, SlotState::Riding) && slot.credit.number() == ty.number()
}

/// Whether the slot's request is cancelled and its credit, of the type, isn't given back yet.
pub(crate) fn is_cancelled(slot: &SlotRecord, ty: CreditType) -> bool
    ensures { result ≡ is_cancelled_of (credit_number ty) slot.now }
{
    matches!(slot.state, SlotState::Cancelled) && slot.credit.number() == ty.number()
}
