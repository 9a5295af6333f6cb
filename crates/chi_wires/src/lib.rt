//! The flits in flight at one line: one cell for each channel and agent.
//!
//! Source: Arm IHI 0050 B, chapter 2, and `docs/PROTOCOL.md`, "Messages".
#![tactic(auto)]

mod cells;
mod wires;

pub use cells::Cells;
pub use wires::{Wires, cells_of};
