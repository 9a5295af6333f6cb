//! Scripts that are run by agents, each in a thread of its own.
//!
//! An agent draws a word for each of its turns (`Draws`), which says a line and one of its deliveries; what the
//! turn does on the slice of that line is a `Choice` of its player (`Player`), which has the requester and the
//! unfinished operations of the script (`Operations`). A `Runner` takes whole turns at a node, and `run_agents`
//! runs all agents of a node.
//!
//! Source: `docs/FORMATS.md`, "A turn".
#![tactic(auto)]

mod agents;
mod calls;
mod choice;
mod deliveries;
mod draws;
mod ended;
mod gates;
mod lives;
mod operations;
mod pauses;
mod player;
mod preparation;
mod progress;
mod retries;
mod runner;
mod scripts;
mod seats;
mod threads;
mod tries;
mod turn_line;
mod visits;

pub use agents::run_agents;
pub use choice::{Call, Choice, line_of};
pub use draws::Draws;
pub use ended::{AgentResult, Ended, requesters_of};
pub use gates::{Gate, OpenGate};
pub use operations::{OperationPlace, Operations, Unfinished};
pub use player::Player;
pub use progress::Progress;
pub use runner::Runner;
pub use scripts::Script;
