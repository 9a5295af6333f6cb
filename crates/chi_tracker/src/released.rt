//! Where a released entry went.

use chi_flit::Agent;

/// Where a released entry went.
/// Source: `docs/PROTOCOL.md`, "Steps of the tracker", release.
#[derive(Clone, Copy, Debug, PartialEq, Eq)]
pub enum Released {
    /// It was promised to this requester, for a credit that was owed to it.
    Granted(Agent),
    /// It is free: each requester was looked at, and of each credit of its type that a look showed owed, the
    /// place was found clear afterwards, settled by another port.
    Freed,
}
