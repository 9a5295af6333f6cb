//! The model as a library for C and SystemVerilog: a slice, a whole node on one thread, a monitor, and an observer.
//!
//! Source: `docs/LIBRARY.md`.
#![tactic(auto)]

mod actions;
mod answers;
mod box_pointer;
mod enabled;
mod flits;
mod lines;
mod messages;
mod monitor_calls;
mod monitor_handle;
mod monitor_told;
mod node_calls;
mod node_handle;
mod node_steps;
mod node_told;
mod numbers;
mod observed;
mod observer_calls;
mod observer_handle;
mod observer_told;
mod opcodes;
mod records;
mod saved_slices;
mod seen_flits;
mod sent;
mod sizes;
mod slice_calls;
mod slice_handle;
mod snapshots;
mod steps;

pub use actions::{ChiAction, ChiEffect};
pub use flits::{ChiFlit, ChiFlits, ChiSent};
pub use lines::{ChiCopy, ChiLine, ChiRequest, ChiServing};
pub use monitor_handle::ChiMonitor;
pub use monitor_told::{ChiFault, ChiOpen};
pub use node_handle::ChiNode;
pub use node_told::{ChiArrival, ChiAudit, ChiCredits, ChiRelease, ChiTotals};
pub use observer_handle::ChiObserver;
pub use observer_told::{ChiObserverConfig, ChiObserverCounts, ChiObserverFault, ChiUnjudged};
pub use records::ChiRecord;
pub use seen_flits::ChiSeen;
pub use sizes::ChiConfig;
pub use slice_handle::ChiSlice;
