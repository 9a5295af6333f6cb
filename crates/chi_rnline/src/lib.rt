//! One requester's side of one line: its copy, and its pending request.
//!
//! Each call is the requester's part of one action of the protocol (`docs/PROTOCOL.md`, "The actions").
#![tactic(auto)]

mod pending;
mod rn_line;

pub use pending::{Pending, Phase};
pub use rn_line::RnLine;
