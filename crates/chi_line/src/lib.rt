//! One line: the requesters' copies of it, what the home keeps of it, the flits in flight, and the seventeen
//! actions on them.
#![tactic(auto)]

mod act;
mod completions;
mod copies;
mod flits;
mod kept;
mod line;
mod position;
mod refusals;
mod requests;
mod snoops;
mod view;

pub use act::Conditions;
pub use flits::has_flit;
pub use line::CoherentLine;
pub use position::{ActionOutcome, Position, TypedSlot, pending_credit, pending_slot};
pub use view::{CopyView, LineView};
