//! Tests of replays, checks and charts with devices that fail, with too little memory and of files at their limits, of the
//! node's agreement after each command, and of calls that the program doesn't make.
//!
//! What is read of files and printed of them is tested by `tests/rows`, `tests/charts` and `tests/cover`.
//!
//! Source: `docs/FORMATS.md`.
#![tactic(auto)]

#[cfg(test)]
mod agreement;
#[cfg(test)]
mod calls;
#[cfg(test)]
mod devices;
#[cfg(test)]
mod failures;
#[cfg(test)]
mod files;
#[cfg(test)]
mod heaps;
#[cfg(test)]
mod jobs;
