//! The mix, one action at a time and each effect read, as `tests/c/speed.c` does it through the library for C.

use crate::mix::mix;
use crate::slices::opened;
use chi_slice::{Action, Effect, Slice};
use std::alloc::Global;
use std::io;
use std::rt::Clock;
use std::time::Instant;

/// What a run came to.
#[derive(Clone, Copy)]
pub struct Run {
    /// How long its actions took.
    pub nanos: u128,
    /// How many actions were done.
    pub count: usize,
    /// The sum of the numbers of all effects.
    pub sum: u64,
}

/// The blocks of lines and their width, for a number of lines that is measured: 64, 8 or one.
fn shape(lines: u8) -> Option<(u8, u8)> {
    match lines {
        64 => Some((8, 8)),
        8 => Some((1, 8)),
        1 => Some((1, 1)),
        _ => None,
    }
}

/// The number that an effect tells.
fn number(effect: Effect) -> u64 {
    match effect {
        Effect::Nothing => 0,
        Effect::Value(value) => value,
        Effect::Completed(slot) => u64::from(slot.0),
    }
}

/// Does all the actions, one after the other, and answers the sum of their effects' numbers; it is an error
/// where one is refused.
fn act_all(slice: &mut Slice<Global>, actions: &[Action]) -> io::Result<u64> {
    let mut sum: u64 = 0;
    for action in actions {
        match slice.act(*action) {
            Ok(effect) => sum = sum.wrapping_add(number(effect)),
            Err(_) => return Err(io::Error::from(io::ErrorKind::InvalidData)),
        }
    }
    Ok(sum)
}

/// Does all the actions so many times. It is the one caller of `Slice::act`, which so stands inlined in it.
pub fn act_times(slice: &mut Slice<Global>, actions: &[Action], times: usize) -> io::Result<u64> {
    let mut sum: u64 = 0;
    for _ in 0..times {
        sum = sum.wrapping_add(act_all(slice, actions)?);
    }
    Ok(sum)
}

/// Does the mix over so many lines as often as it fits into `count` actions, on a new slice.
pub fn run_acts<R: Clock>(rt: &R, alloc: Global, lines: u8, count: usize) -> io::Result<Run> {
    let Some((blocks, width)) = shape(lines) else {
        return Err(io::Error::from(io::ErrorKind::InvalidInput));
    };
    let actions = mix(alloc, blocks, width)?;
    if actions.is_empty() {
        return Err(io::Error::from(io::ErrorKind::InvalidInput));
    }
    let times = count / actions.len();
    let mut slice = opened(alloc, lines)?;
    let start = Instant::now(rt)?;
    let sum = act_times(&mut slice, &actions, times)?;
    Ok(Run {
        nanos: start.elapsed(rt)?.as_nanos(),
        count: times.saturating_mul(actions.len()),
        sum,
    })
}
