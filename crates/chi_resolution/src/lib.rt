//! The flits of a trace, resolved: which agent and which line each is of, by the ids that are open, and
//! the ledger of the protocol credits.
//!
//! Source: `docs/TRACES.md`, "Traces" and "Explanations".
#![tactic(auto)]

mod beats;
mod cancels;
mod changes;
mod credits;
mod data_flits;
mod ids;
mod ledger;
mod lines;
mod messages;
mod nodes;
mod reasons;
mod requests;
mod resolution;
mod responses;
mod tables;

pub use beats::OpenData;
pub use ids::{OpenId, OpenKey};
pub use ledger::{CreditLedger, Types};
pub use lines::{CacheLine, Resolved, line_of};
pub use nodes::Nodes;
pub use reasons::{IdFault, IdReason};
pub use resolution::{Options, Resolution, Resolver, resolve};
