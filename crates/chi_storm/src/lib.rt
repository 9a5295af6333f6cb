//! A storm: from the bytes of a file of scripts to the four lines that are written.
//!
//! Source: `docs/FORMATS.md`, "Storm files" and "The output of a storm".
#![tactic(auto)]

mod outcome;
mod scripts;
mod storms;
mod verdict;

pub use outcome::Outcome;
pub use scripts::agent_script;
pub use storms::storm;
pub use verdict::{outcome_from, outcome_of};
