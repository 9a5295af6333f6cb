//! What an open id of a trace is named by: its two nodes, and a number of its sort.
//!
//! Source: `docs/OBSERVER.md`, "Ids and credits".
#![tactic(auto)]

mod keys;

pub use keys::{CacheLine, IdKey, KeyNumbers, Sides, is_alike, numbers_of, sides_of};
