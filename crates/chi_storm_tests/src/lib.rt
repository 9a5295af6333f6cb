//! Tests of storms: the text of files of scripts, with devices that fail too, and storms in which a slice is
//! exchanged.
//!
//! Source: `docs/FORMATS.md`, "Storm files" and "The output of a storm".
#![tactic(auto)]

#[cfg(test)]
mod scripts;
#[cfg(test)]
mod storms;
#[cfg(test)]
mod verdicts;
