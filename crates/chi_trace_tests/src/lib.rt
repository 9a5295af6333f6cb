//! Tests of what the program does otherwise: a trace that is read and resolved in two calls (`chi_trace`,
//! `chi_resolution`), and monitors of lines (`chi_monitor`).
//!
//! What the program tells of traces is tested by `tests/traces` and `tests/rows/arguments`.
#![tactic(auto)]

#[cfg(test)]
mod calls;
#[cfg(test)]
mod forgetting;
#[cfg(test)]
mod monitors;
