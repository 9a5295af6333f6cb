//! The verdict on a trace: each of its cache lines is explained by actions of the model, or the first flit is told
//! that no run of the model sends.
//!
//! Source: `docs/TRACES.md`, "What is printed".
#![tactic(auto)]

mod asked;
mod ballast;
mod check_files;
mod closings;
mod explanations;
mod id_texts;
mod judged_traces;
mod judgments;
mod lines;
mod malformed;
mod names;
mod open_texts;
mod outcome_texts;
mod readings;
mod reports;
mod stop_texts;
mod traces;
mod unseen;

pub use asked::{Asked, Ending};
pub use explanations::explain;
pub use lines::{LineTotals, Obstacle, explain_lines};
pub use reports::{TraceOutcome, TraceReport, TraceStop, TraceTotals, report_on};
