//! The search for an explanation of what a monitor saw of a line: without backtracking and without a
//! look ahead; and a monitor that searches flit by flit.
//!
//! Source: `docs/TRACES.md`, "Explanations" and "A monitor".
#![tactic(auto)]

mod bases;
mod choices;
mod completions;
mod copies;
mod explained;
mod fault_texts;
mod faults;
mod filter;
mod home_turns;
mod line;
mod line_monitor;
mod monitor;
mod open_flits;
mod parts;
mod requester;
mod requests;
mod search;
mod snoops;
mod turns;
mod values;
mod writes;

pub use choices::allowed;
pub use explained::{NoExplanation, explain_flits, first_fault};
pub use fault_texts::{FaultNames, FaultText};
pub use faults::{
    Awaited, Basis, Differing, KnownWord, LineFault, Reach, SeenAt, WrongForm, WrongSnoops,
};
pub use monitor::{FirstFault, Monitor, NotExplained, NotTaken};
pub use open_flits::OpenFlits;
pub use parts::{PartSeen, words_of_run};
pub use search::Witness;
pub use values::Known;
