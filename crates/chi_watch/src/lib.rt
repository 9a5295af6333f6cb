//! A trace of flits, judged as it comes: its ids and credits, its nodes, and each flit at its place in its cache line, where flits wait
//! behind data in beats that lack words.
//!
//! Source: `docs/WATCH.md`, "What a line is told".
#![tactic(auto)]

mod beats;
mod flits;
mod held;
mod judge;
mod laws;
mod lines;
mod nodes;
#[cfg(test)]
mod tests;
mod told;
#[cfg(test)]
mod trace_tests;
mod watch;

pub use flits::told_of;
pub use held::{Held, HeldFlit, HeldStop, ROOM};
pub use judge::{BegunLine, Judge, LineReason, Start, Strays, Unjudged, Verdict};
pub use laws::{judged_lines, judged_tails, told_in_order};
pub use lines::{Drained, LineFault, LineSeen, Lines, Tally};
pub use nodes::{Nodes, Side};
pub use told::{Cause, Told};
pub use watch::{Settings, Watch, WatchStop, Watched};
