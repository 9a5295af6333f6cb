//! What a trace may have.

/// Which opcodes a trace may have.
/// Source: `docs/TRACES.md`, "Other opcodes".
#[derive(Clone, Copy, Debug, PartialEq, Eq)]
pub enum Opcodes {
    /// The opcodes of Issue B.
    IssueB,
    /// A design's own too: words of letters and digits, a capital first.
    Any,
}

/// Whether flits list their data.
/// Source: `docs/TRACES.md`, "Other opcodes".
#[derive(Clone, Copy, Debug, PartialEq, Eq)]
pub enum Listing {
    /// They do.
    Listed,
    /// None does, nor does a load or a store: each has `-` in its place.
    None,
}

/// What a trace may have.
/// Source: `docs/TRACES.md`, "Other opcodes".
#[derive(Clone, Copy, Debug, PartialEq, Eq)]
pub struct Options {
    pub opcodes: Opcodes,
    pub listing: Listing,
}

impl Options {
    /// The opcodes of Issue B, with their data.
    /// Source: `docs/TRACES.md`, "Other opcodes".
    pub const USUAL: Options = Options {
        opcodes: Opcodes::IssueB,
        listing: Listing::Listed,
    };
}
