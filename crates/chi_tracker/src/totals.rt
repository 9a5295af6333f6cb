//! The counts of entries and credits.

use arrayvec::ArrayVec;

/// Entries and owed credits by type.
/// Source: `docs/PROTOCOL.md`, "Totals".
#[derive(Clone, Copy, Debug, PartialEq, Eq)]
pub struct Counts {
    /// Entries that nobody claimed.
    pub free: [u32; 4],
    /// Entries in the hand of a port.
    pub hand: [u32; 4],
    /// Entries that are promised to a requester.
    pub promised: [u32; 4],
    /// Credits that are owed to requesters.
    pub owed: [u32; 4],
}

/// A requester's credits by type.
/// Source: `docs/PROTOCOL.md`, "The rule between steps", ledger.
#[derive(Clone, Copy, Debug, Default, PartialEq, Eq)]
pub struct Credits {
    /// Credits due: retries less spent and returned ones.
    pub due: [u32; 4],
    /// Credits that are owed.
    pub owed: [u32; 4],
    /// Credits that were granted: entries promised to the requester.
    pub promised: [u32; 4],
}

/// What a tracker had at its end: the counts of all, and the credits of each requester in rising order.
/// Source: `docs/PROTOCOL.md`, "Totals" and "The rule between steps".
#[derive(Drop)]
pub struct Totals {
    pub counts: Counts,
    pub requesters: ArrayVec<Credits, 8>,
}
