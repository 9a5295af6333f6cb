//! Tests of the ways in which the program stops.
//!
//! Source: `docs/FORMATS.md`, "The program".
#![tactic(auto)]

#[cfg(test)]
mod stops;
