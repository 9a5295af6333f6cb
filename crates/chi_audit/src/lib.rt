//! What agents report at their end, each agent's once, and how it is gathered; the tallies that they store while
//! they run, each read whole; and the verdict on a line.
//!
//! Source: `docs/FORMATS.md`, "Reports and tallies", and `docs/PROTOCOL.md`, "Coherence".
#![tactic(auto)]

mod boxes;
mod cell;
mod cells;
mod gathered;
mod once;
mod opening;
mod report_view;
mod reports;
mod rising;
mod tally;
mod tally_view;
mod watcher;
mod writer;

pub use boxes::{Inbox, Outbox, Sent, open_boxes};
pub use cells::Tallies;
pub use chi_slice::{LineView, check};
pub use gathered::{Gathered, gather};
pub use opening::tallies;
pub use reports::Report;
pub use rising::Rising;
pub use tally::Tally;
pub use watcher::Watcher;
pub use writer::Writer;
