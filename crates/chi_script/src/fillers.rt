//! The comments of a check file round its filler: commands that belong to no run of the design that it tells of.

/// The comment behind which the commands of a check file are filler.
/// Source: `docs/FORMATS.md`, "Coverage".
pub const FILLER_BEGINS: &str = "# filler begins";

/// The comment behind which they aren't any more.
/// Source: `docs/FORMATS.md`, "Coverage".
pub const FILLER_ENDS: &str = "# filler ends";
