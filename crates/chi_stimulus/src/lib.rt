//! Stimulus: a check file of commands that are drawn at random, each with its answer.
//!
//! A second pass reads the text, plays its commands once more, and compares; only a text that it finds good is handed out.
//! No clause says which commands are drawn, nor how often: tests do (`tests/draw/run`).
//!
//! Source: `docs/FORMATS.md`, "Drawn files".
#![tactic(auto)]

mod drawing;
mod kind_sets;
mod operands;
mod options;
mod plan;
mod proposals;
mod rest;
mod second_pass;
mod stimulus;
mod weight_faults;
mod weights;
mod words;

pub use kind_sets::{KindSet, read_kinds};
pub use options::DrawOptions;
pub use stimulus::draw;
pub use weight_faults::{WeightsFault, WrongWords};
pub use weights::{Weights, read_weights};
