//! Explanations of what was seen of a line: actions of the model that are done one after the other, and send
//! just the flits that were seen; the loads and stores that were seen are among them.
//!
//! Source: `docs/TRACES.md`, "Explanations".
#![tactic(auto)]

mod explanations;
mod observed;
mod openings;
mod same;
mod sent;

pub use explanations::{Unexplained, WitnessItem, explain_line};
pub use observed::{Observed, StoreListing};
pub use openings::opened;
pub use sent::SentFlit;
