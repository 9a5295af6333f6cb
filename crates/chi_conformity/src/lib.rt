//! The reference beside the observer: no flit of a slice is ever a fault.
//!
//! Source: `docs/OBSERVER.md`, "What is proved".
#![tactic(auto)]

mod laws;

pub use laws::a_slice_conforms;
