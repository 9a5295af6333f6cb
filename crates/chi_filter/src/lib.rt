//! The snoop filter of one line: which agents may hold it.
#![tactic(auto)]

mod filter;
mod sets;

pub use filter::{Filter, has_any};
