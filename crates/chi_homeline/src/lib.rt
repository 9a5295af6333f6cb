//! One line at the home: its memory, its snoop filter, the requests that wait, and the one it serves.
//!
//! Each call is the home's part of one action of the protocol (`docs/PROTOCOL.md`, "The actions").
#![tactic(auto)]

mod home_line;
mod serving;

pub use home_line::HomeLine;
pub use serving::{Begun, Completion, CompletionForm, Serving, SnoopAnswer, Waiting};
