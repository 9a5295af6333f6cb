//! The program: what its command line asks for, done over the system's files and streams, with the status
//! and the line on standard error that tell how it went.
//!
//! Source: `docs/FORMATS.md`, "The program".
#![tactic(auto)]

mod covers;
mod drawings;
mod faults;
mod inputs;
mod jobs;
mod looks;
mod options;
mod program;
mod progress;
mod runs;
mod stops;
mod suites;
mod traces;
mod usages;

pub use faults::ArgFault;
pub use jobs::{Job, arguments};
pub use options::{CellForm, RowRange};
pub use program::serve;
pub use stops::Stop;
pub use usages::{Topic, usage, version};
