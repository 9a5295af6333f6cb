//! What the calls on a node tell, in C's words.

ghost use Rattle.std.specs.Prelude.{◌≡◌};
ghost use Rattle.chi_library.specs.NodeCalls.{arrival_told, release_if, release_told, counts_told};

use chi_node::{Arrived, Counts, Released};

/// What an arrival came to: `ChiArrival` of `chihome.h`.
/// Source: `docs/PROTOCOL.md`, "A requester and its calls", Arrival.
#[repr(C)]
#[derive(Clone, Copy)]
pub struct ChiArrival {
    pub arrival: u8,
    pub entry: u8,
    pub credit: u8,
}

/// Where a released entry went: `ChiRelease` of `chihome.h`.
/// Source: `docs/PROTOCOL.md`, "Steps of the tracker", release.
#[repr(C)]
#[derive(Clone, Copy)]
pub struct ChiRelease {
    pub release: u8,
    pub agent: u8,
}

/// The credits that an agent has seen granted, by type: `ChiCredits` of `chihome.h`.
/// Source: `docs/PROTOCOL.md`, "A requester and its calls", see.
#[repr(C)]
#[derive(Clone, Copy)]
pub struct ChiCredits {
    pub seen: [u32; 4],
}

/// Entries that are free, in hand and promised, and credits that are owed, by type: `ChiTotals` of
/// `chihome.h`.
/// Source: `docs/PROTOCOL.md`, "Totals".
#[repr(C)]
#[derive(Clone, Copy)]
pub struct ChiTotals {
    pub free: [u32; 4],
    pub hand: [u32; 4],
    pub promised: [u32; 4],
    pub owed: [u32; 4],
}

/// The loads and stores of a node, and the verdict on it: `ChiAudit` of `chihome.h`.
/// Source: `docs/FORMATS.md`, "Replay files".
#[repr(C)]
#[derive(Clone, Copy)]
pub struct ChiAudit {
    pub loads: u64,
    pub stores: u64,
    pub coherent: u8,
}

impl ChiArrival {
    /// No arrival: all numbers are 0.
    pub(crate) const NONE: ChiArrival = ChiArrival {
        arrival: 0,
        entry: 0,
        credit: 0,
    };
}

impl ChiRelease {
    /// No release: all numbers are 0.
    pub(crate) const NONE: ChiRelease = ChiRelease {
        release: 0,
        agent: 0,
    };
}

impl ChiCredits {
    /// No credits.
    pub(crate) const NONE: ChiCredits = ChiCredits { seen: [0; 4] };
}

impl ChiTotals {
    /// All numbers are 0.
    pub(crate) const NONE: ChiTotals = ChiTotals {
        free: [0; 4],
        hand: [0; 4],
        promised: [0; 4],
        owed: [0; 4],
    };
}

impl ChiAudit {
    /// No audit: all numbers are 0.
    pub(crate) const NONE: ChiAudit = ChiAudit {
        loads: 0,
        stores: 0,
        coherent: 0,
    };
}

/// What an arrival came to.
pub(crate) fn arrival_told(arrived: Arrived) -> ChiArrival
    ensures { result ≡ arrival_told arrived }
{
    match arrived {
        Arrived::Admitted(entry) => ChiArrival {
            arrival: 1,
            entry: entry.0,
            credit: 0,
        },
        Arrived::Retried(credit) => ChiArrival {
            arrival: 2,
            entry: 0,
            credit: credit.number(),
        },
    }
}

/// Where a released entry went.
pub(crate) fn release_told(released: Released) -> ChiRelease
    ensures { result ≡ release_told released }
{
    match released {
        Released::Freed => ChiRelease {
            release: 1,
            agent: 0,
        },
        Released::Granted(agent) => ChiRelease {
            release: 2,
            agent: agent.0,
        },
    }
}

/// Where a released entry went, if one was released.
pub(crate) fn release_if(released: Option<Released>) -> ChiRelease
    ensures { result ≡ release_if released }
{
    match released {
        Some(released) => release_told(released),
        None => ChiRelease::NONE,
    }
}

/// The tracker's numbers.
pub(crate) fn totals_told(counts: Counts) -> ChiTotals
    ensures { result ≡ counts_told counts }
{
    let Counts {
        free,
        hand,
        promised,
        owed,
    } = counts;
    ChiTotals {
        free,
        hand,
        promised,
        owed,
    }
}
