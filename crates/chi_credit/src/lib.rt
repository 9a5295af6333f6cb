//! A requester's account: what it knows of the requests in its eight slots, and how the credits that it
//! has seen are used for them.
//!
//! Source: Arm IHI 0050 B, chapter 2, and `docs/PROTOCOL.md`, "Slots and accounts".
#![tactic(auto)]

mod account;
mod slot;

pub use account::Account;
pub use slot::{SlotRecord, SlotState};
