//! What a requester is told of an arrival and of a step.

use chi_flit::{CreditType, Effect, Entry};
use chi_tracker::Released;

/// What became of a request that arrived at the home.
/// Source: `docs/PROTOCOL.md`, "A requester and its calls".
#[derive(Clone, Copy, Debug, PartialEq, Eq)]
pub enum Arrived {
    /// The home let it in, with this entry.
    Admitted(Entry),
    /// Each entry of its type was found claimed: the home answered RetryAck, and owes a credit of the type.
    Retried(CreditType),
}

/// What a step did.
/// Source: `docs/PROTOCOL.md`, "A requester and its calls".
#[derive(Clone, Copy, Debug, PartialEq, Eq)]
pub struct Stepped {
    pub effect: Effect,
    /// What the release of a completed request's entry did; `None` where the step completed nothing.
    pub released: Option<Released>,
}
