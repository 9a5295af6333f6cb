//! The loads and stores of one slice that were answered, in their order.
//!
//! Source: `docs/PROTOCOL.md`, "The journal and last values".
#![tactic(auto)]

mod journal;
mod last_values;
mod record;
mod totals;

pub use journal::Journal;
pub use record::Record;
pub use totals::{JournalTotals, counted};
