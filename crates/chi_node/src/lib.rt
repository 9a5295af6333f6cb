//! A node: requesters and what they do at slices, and the node as a whole, on one thread and behind locks.
//!
//! A requester has its port to the tracker of entries and its account of the requests in its slots
//! (`Requester`); `arrive_on` and `step_on` do its arrivals and its steps on a slice that they are lent.
//! `System` has the slices, the tracker and the requesters of a node as one value, for one thread; `Node` has
//! each slice behind a lock of its own, for many. Only `Node::lock`, `arrive` and `step` may wait.
//!
//! Source: `docs/PROTOCOL.md`, "A requester and its calls".
#![tactic(auto)]

mod account_calls;
mod agree;
mod answers;
mod arrivals;
mod calls;
mod coherence;
mod conditions;
mod locks;
mod meeting;
mod node;
mod opening;
mod own;
mod requester;
mod steps;
mod system;

pub use agree::{agree_with, agrees};
pub use answers::{Arrived, Stepped};
pub use calls::{arrive_agreed, arrive_on, step_agreed, step_on};
pub use chi_credit::{SlotRecord, SlotState};
pub use chi_tracker::{Counts, Port, Released, Totals, Tracker};
pub use node::Node;
pub use opening::parts;
pub use requester::Requester;
pub use system::System;
