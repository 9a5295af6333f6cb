//! What a cache line is told of.

use chi_issue_b::Opcode;
use chi_observer::Flit;

/// Why the flits of a cache line aren't judged from one on.
/// Source: `docs/WATCH.md`, "What isn't judged".
#[derive(Clone, Copy, Debug, PartialEq, Eq)]
pub enum Cause {
    /// The rules of a line have no row for its RESP, or for its opcode, which is this one.
    Opcode(Opcode),
    /// The requester is a home, or the home a requester, or there were 32 requesters before.
    Node,
    /// As many flits of the line wait for words of data as may.
    Crowded,
    /// A flit of the line broke a rule.
    Fault,
}

/// What a cache line is told of.
/// Source: `docs/WATCH.md`, "What a line is told".
#[derive(Clone, Copy, Debug, PartialEq, Eq)]
pub enum Told {
    /// A flit that the rules of a line judge.
    Flit(Flit),
    /// One that tells nothing of copies.
    Nothing,
    /// One that they don't judge, for this cause.
    Unjudged(Cause),
    /// One of another home than the line's.
    OtherHome,
}
