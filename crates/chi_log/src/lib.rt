//! A line of a trace, as bytes: the flit that it is, or why it is none.
//!
//! Source: `docs/TRACES.md`, "Traces" and "Other opcodes".
#![tactic(auto)]

mod beats;
mod columns;
mod fields;
mod files;
mod forms;
mod kinds;
mod laws;
mod lines;
mod malformed;
mod numbers;
mod options;
mod rows;
mod seen;
mod shown;

pub use columns::LineColumn;
pub use files::{CutLine, cut_fault, line_end};
pub use kinds::OwnOpcode;
pub use laws::right_lines_have_no_wrong_column;
pub use lines::{MOST_LINE_BYTES, Malformed, read_line, read_line_among};
pub use malformed::MalformedText;
pub use options::{Listing, Opcodes, Options};
pub use seen::{Access, OwnFlit, Seen};
