//! The ids and credits of a trace of flits: what is outstanding behind the flits so far, which flits that allows, and of which
//! cache line each flit is.
//!
//! Source: Arm IHI 0050 Issue B, chapter 2, as `docs/TRANSACTIONS.md` reads it.
#![tactic(auto)]

mod attempts;
mod beats;
mod credits;
mod entries;
mod flits;
mod ids;
mod laws;
mod maps;
mod named;
mod outstanding;
mod parts;
mod requests;
mod retries;
mod rows;
mod rule;
#[cfg(test)]
mod tests;
mod transactions;

pub use entries::{
    Begun, CreditTypes, Credits, Named, OpenId, Options, Portion, Reason, Stop, Taken, Waiting,
};
pub use flits::{home_of, requester_of};
pub use ids::Id;
pub use laws::{
    credits_of_traces, id_numbers_differ, ids_of_traces, parts_are_sets, requests_of_traces,
    rows_are_of_their_opcodes,
};
pub use outstanding::Account;
pub use parts::Parts;
pub use transactions::Transactions;
