//! Who is told how far the reading of a trace has come.

use crate::watch::Counts;

/// Is told how far the reading of a trace has come, after each piece of it.
/// Source: `docs/OBSERVER.md`, "What is printed".
pub trait Progress {
    /// So much was taken, and so many bytes were read.
    fn tell(&mut self, counts: &Counts, bytes: u64);
}

/// Nobody, who is told nothing.
/// Source: `docs/OBSERVER.md`, "What is printed".
#[derive(Clone, Copy, Debug)]
pub struct Nobody;

impl Progress for Nobody {
    fn tell(&mut self, _counts: &Counts, _bytes: u64) {}
}
