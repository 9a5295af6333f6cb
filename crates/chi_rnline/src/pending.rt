//! A request that its requester waits for.

use chi_flit::{Kind, Slot};

/// How far a pending request has come, as its requester knows it.
/// Source: `docs/PROTOCOL.md`, "One line".
#[derive(Clone, Copy, Debug, PartialEq, Eq)]
pub enum Phase {
    /// It was sent, and not answered yet.
    Sent,
    /// It was answered by RetryAck, and waits for a credit.
    Retried,
}

/// A request that its requester waits for.
/// Source: `docs/PROTOCOL.md`, "One line".
#[derive(Clone, Copy, Debug, PartialEq, Eq)]
pub struct Pending {
    pub kind: Kind,
    pub slot: Slot,
    pub phase: Phase,
}
