//! What an agent does between turns in which there was nothing to do.

use std::thread;
use std::time::{Clock, Duration};

/// After so many turns in a row with nothing done, another thread gets the processor.
const PATIENCE: u32 = 128;

/// From so many on, the thread sleeps.
const LONG: u32 = 1024;

/// Rests after so many turns in a row with nothing done. It decides nothing of a line or an entry.
pub(crate) fn rest<C: Clock>(clock: &C, vain: u32) {
    if vain == 0 || vain % PATIENCE != 0 {
        return;
    }
    if vain < LONG {
        thread::yield_now();
    } else {
        thread::sleep(clock, Duration::from_micros(50));
    }
}
