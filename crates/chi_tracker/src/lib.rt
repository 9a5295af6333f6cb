//! The tracker of entries and protocol credits that all slices share without a lock: words that change
//! in single atomic steps, and a port for each requester that does these steps.
//!
//! Source: Arm IHI 0050 B, chapter 2, and `docs/PROTOCOL.md`, "Words of the tracker" and "Steps of the
//! tracker".
#![tactic(auto)]

mod closing;
mod law;
mod marks;
mod paying;
mod plays;
mod port;
mod released;
mod scan;
mod sets;
mod shape;
mod step;
mod steps;
mod sweep;
mod tally;
mod totals;
mod tracker;
mod view;
mod witness;
mod words;

pub use law::Law;
pub use port::Port;
pub use released::Released;
pub use totals::{Counts, Credits, Totals};
pub use tracker::Tracker;
pub use witness::Witness;
