//! What an agent passes at the beginning of each turn.

use chi_flit::Agent;

/// A gate may hold an agent at the beginning of a turn, and lets it pass in the end.
/// Source: `docs/FORMATS.md`, "A turn".
pub trait Gate: Sync {
    /// The agent begins the turn of this number; its first has number 1.
    fn pass(&self, agent: Agent, turn: u64);
}

/// The gate that holds nobody.
/// Source: `docs/FORMATS.md`, "A turn".
#[derive(Clone, Copy, Debug)]
pub struct OpenGate;

impl Gate for OpenGate {
    fn pass(&self, _agent: Agent, _turn: u64) {}
}
