//! Tests of a slice and of what is below it through their public calls, by `docs/PROTOCOL.md`: the tables of the
//! flits, a journal, a line by its parts alone, where a slice finds a request, what it is in memory and as bytes,
//! whatever is tried on it, and the verdict on lines that no slice has.
//!
//! What the actions do to a line is tested by the files of `suite/` and by `tests/murphi`.
#![tactic(auto)]

#[cfg(test)]
mod flits;
#[cfg(test)]
mod journals;
#[cfg(test)]
mod memory;
#[cfg(test)]
mod parts;
#[cfg(test)]
mod places;
#[cfg(test)]
mod runs;
#[cfg(test)]
mod snapshots;
#[cfg(test)]
mod verdicts;
