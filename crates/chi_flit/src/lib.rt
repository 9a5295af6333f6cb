//! The words of the protocol that every layer speaks: what is numbered, states, kinds of request,
//! snoops, messages, credit types, refusals and operations, each with the text that it prints.
//!
//! Source: Arm IHI 0050 Issue B, and `docs/PROTOCOL.md` where that leaves a choice.
#![tactic(auto)]

mod action;
mod config;
mod credit;
mod kind;
mod message;
mod numbers;
mod operation;
mod refusal;
mod snoop;
mod state;

pub use action::{Action, Effect, Step};
pub use config::Config;
pub use credit::{CreditType, Profile, credit_type};
pub use kind::Kind;
pub use message::{Channel, CompData, DatUp, Msg, Request, RspDown, RspUp, write_data};
pub use numbers::{Agent, Data, Entry, Line, NO_DATA, Slot, WordNo};
pub use operation::{Operation, Task};
pub use refusal::{NoMemory, Refusal};
pub use snoop::{Snoop, answer};
pub use state::State;
