//! What was seen of a line.

use crate::sent::SentFlit;
use chi_flit::{Agent, WordNo};

/// What was seen of a line.
/// Source: `docs/TRACES.md`, "Nodes, ids and credits".
#[derive(Clone, Copy, Debug, PartialEq, Eq)]
pub enum Observed {
    /// A flit, with all its data.
    Flit(SentFlit),
    /// The agent's processor read this value of the word.
    Load(Agent, WordNo, u64),
    /// The agent's processor wrote this value to the word.
    Store(Agent, WordNo, u64),
}

/// Which stores of processors a trace lists.
/// Source: `docs/TRACES.md`, "Loads and stores".
#[derive(Clone, Copy, Debug, PartialEq, Eq)]
pub enum StoreListing {
    /// Any or none: others may have been done.
    Partial,
    /// All.
    Complete,
}
