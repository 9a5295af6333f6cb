//! How fast a slice's actions are on one thread: those of a fixed mix of eight requesters, and cold reads, each over
//! 64 lines, over 8 and over one.

use crate::acts::{act_times, run_acts};
use crate::mix::{cold_reads, mix};
use chi_slice::{Action, Config, Slice};
use std::alloc::Global;
use std::io;
use std::rt::Clock;
use std::time::Instant;

/// How often each script is measured; the shortest time counts.
const RUNS: u32 = 7;

/// The actions of one run, about: the journal has room for all their loads and stores.
const ACTIONS: usize = 960_000;

/// The slice of a node of eight requesters and so many lines.
pub fn opened(alloc: Global, lines: u8) -> io::Result<Slice<Global>> {
    let Some(config) = Config::new(8, lines, 1, 32, 32, 65_536) else {
        return Err(io::Error::from(io::ErrorKind::InvalidInput));
    };
    match Slice::new(alloc, &config, 0) {
        Ok(slice) => Ok(slice),
        Err(_) => Err(io::Error::from(io::ErrorKind::OutOfMemory)),
    }
}

/// The nanoseconds that the script takes so many times over, in the fastest of all runs.
fn fastest<R: Clock>(
    rt: &R,
    alloc: Global,
    lines: u8,
    actions: &[Action],
    times: usize,
) -> io::Result<u128> {
    let mut best = u128::MAX;
    for _ in 0..RUNS {
        let mut slice = opened(alloc, lines)?;
        let start = Instant::now(rt)?;
        act_times(&mut slice, actions, times)?;
        best = best.min(start.elapsed(rt)?.as_nanos());
    }
    Ok(best)
}

/// Prints how many of what a script does `count` times are done in a second.
fn measure<R: Print + Clock>(
    rt: &R,
    alloc: Global,
    lines: u8,
    actions: &[Action],
    count: usize,
    what: &str,
) -> io::Result<()> {
    if actions.is_empty() {
        return Ok(());
    }
    let times = ACTIONS / actions.len();
    let nanos = fastest(rt, alloc, lines, actions, times)?;
    if nanos == 0 {
        return Ok(());
    }
    let thousands = times as u128 * count as u128 * 1_000_000 / nanos;
    println!(rt; "{lines} lines: {thousands} thousand {what} a second")
}

/// Prints how fast each script is over 64 lines, over 8 and over one.
pub fn measure_all<R: Print + Clock>(rt: &R, alloc: Global) -> io::Result<()> {
    for (blocks, width, lines) in [(8, 8, 64), (1, 8, 8), (1, 1, 1)] {
        let actions = mix(alloc, blocks, width)?;
        measure(
            rt,
            alloc,
            lines,
            &actions,
            actions.len(),
            "actions of the mix",
        )?;
        let reads = cold_reads(alloc, lines)?;
        measure(rt, alloc, lines, &reads, usize::from(lines), "cold reads")?;
    }
    Ok(())
}

/// Prints what a run of so many actions over so many lines came to.
pub fn print_acts<R: Print + Clock>(
    rt: &R,
    alloc: Global,
    lines: &str,
    count: &str,
) -> io::Result<()> {
    let (Ok(lines), Ok(count)) = (lines.parse::<u8>(), count.parse::<usize>()) else {
        return Err(io::Error::from(io::ErrorKind::InvalidInput));
    };
    let run = run_acts(rt, alloc, lines, count)?;
    println!(rt; "{} {} {}", run.nanos, run.count, run.sum)
}
