//! The forms of a trace of any home and any caches.

/// Which opcodes a trace may have.
/// Source: `docs/TRACES.md`, "Other opcodes".
#[derive(Clone, Copy, Debug, PartialEq, Eq)]
pub enum Opcodes {
    /// Those of Issue B.
    IssueB,
    /// A design's own too: words of letters and digits, a capital first.
    Any,
}

/// Whether flits list their data.
/// Source: `docs/TRACES.md`, "Other opcodes".
#[derive(Clone, Copy, Debug, PartialEq, Eq)]
pub enum Listing {
    /// They do.
    Listed,
    /// None does, nor does a load or a store: each has `-` in its place.
    None,
}

/// The form of a trace of any home and any caches.
/// Source: `docs/TRACES.md`, "Other opcodes".
#[derive(Clone, Copy, Debug, PartialEq, Eq)]
pub struct TraceForm {
    pub opcodes: Opcodes,
    pub listing: Listing,
}

impl TraceForm {
    /// The opcodes of Issue B, with their data.
    /// Source: `docs/TRACES.md`, "Other opcodes".
    pub const USUAL: TraceForm = TraceForm {
        opcodes: Opcodes::IssueB,
        listing: Listing::Listed,
    };
}
