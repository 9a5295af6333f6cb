//! How far the reading of a trace has come.

use chi_observe::{Counts, Progress};
use std::rt::Clock;
use std::time::Instant;

/// Tells on standard error, once a second, how far the reading of a trace has come.
/// Source: `docs/OBSERVER.md`, "What is printed".
#[derive(Drop)]
pub(crate) struct Ticker<'a, R> {
    rt: &'a R,
    /// When it was told last; `None` where nothing is told.
    last: Option<Instant>,
}

impl<'a, R: Eprint + Clock> Ticker<'a, R> {
    /// One that tells from now on, or one that tells nothing. So it is too where the system has no clock.
    pub(crate) fn new(rt: &'a R, tells: bool) -> Ticker<'a, R> {
        let last = if tells { Instant::now(rt).ok() } else { None };
        Ticker { rt, last }
    }

    /// Whether a second has gone by.
    fn is_due(&self, now: Instant) -> bool {
        match self.last {
            None => false,
            Some(last) => now.saturating_duration_since(last).as_secs() >= 1,
        }
    }

    /// Tells it.
    fn print(&self, counts: &Counts, bytes: u64) {
        let (flits, lines, megabytes) = (counts.flits, counts.lines, bytes / 1_000_000);
        let _ = self.rt.eprintln(format_args!("{flits} flits on {lines} lines, {megabytes} MB"));
    }
}

impl<R: Eprint + Clock> Progress for Ticker<'_, R> {
    fn tell(&mut self, counts: &Counts, bytes: u64) {
        if self.last.is_none() {
            return;
        }
        if let Ok(now) = Instant::now(self.rt) {
            if self.is_due(now) {
                self.print(counts, bytes);
                self.last = Some(now);
            }
        }
    }
}
