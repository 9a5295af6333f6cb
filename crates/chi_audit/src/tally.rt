//! What an agent counts.

/// How many turns an agent took, and how many of its loads and stores were answered.
#[derive(Clone, Copy, Debug, Default, PartialEq, Eq)]
pub struct Tally {
    pub turns: u64,
    pub loads: u64,
    pub stores: u64,
}
