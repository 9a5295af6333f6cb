//! How fast the tracker's calls are: pairs of claim and release on one thread and on as many threads as the machine has
//! cores, and see steps.

ghost use Rattle.std.specs.Prelude.{◌≡◌, ℕ, ◌<◌, All};
ghost use Rattle.chi_flit.specs.Credit.{credit_number};
ghost use Rattle.chi_tracker.specs.Shape.{size};

use chi_flit::CreditType;
use chi_tracker::{Port, Tracker};
use std::alloc::{Allocator, Global};
use std::rt::Clock;
use std::thread::Threads;
use std::time::{Duration, Instant};
use std::{io, thread};

const PAIRS: u64 = 20_000_000;

const LOOKS: u64 = 20_000_000;

/// Claims and releases an entry of the type so many times.
fn pairs<A: Allocator>(tracker: &Tracker<A>, port: &mut Port, ty: CreditType, count: u64)
    requires table { port.old.table ≡ tracker.now.table }
    requires entries { 0 < size port.old.port.shape (credit_number ty) }
    ensures { (port.new.table ≡ port.old.table) × (port.new.port.shape ≡ port.old.port.shape) }
{
    for _turn in 0..count {
        if let Some(entry) = port.claim(tracker, ty) {
            port.release(tracker, entry);
        }
    }
}

/// Looks at what is promised so many times, and adds up the seen credits of type 0.
fn looks<A: Allocator>(tracker: &Tracker<A>, port: &mut Port, count: u64) -> u32
    requires { port.old.table ≡ tracker.now.table }
    ensures { (port.new.table ≡ port.old.table) × (port.new.port.shape ≡ port.old.port.shape) }
{
    let mut seen: u32 = 0;
    for _turn in 0..count {
        let credits = port.see(tracker);
        seen = seen.wrapping_add(credits[0]);
    }
    seen
}

/// Millions a second.
fn rate(count: u64, took: Duration) -> u128 {
    let nanos = took.as_nanos();
    if nanos == 0 {
        0
    } else {
        u128::from(count) * 1000 / nanos
    }
}

/// The type that a requester of this number works on.
fn type_of(number: usize) -> CreditType {
    match number % 4 {
        0 => CreditType::T0,
        1 => CreditType::T1,
        2 => CreditType::T2,
        _ => CreditType::T3,
    }
}

/// Pairs of claim and release of each port, in threads of their own.
fn pairs_of_all<R: Threads + Sync>(rt: &R, tracker: &Tracker<Global>, ports: &mut [Port])
    requires { All (λ p. (p.table ≡ tracker.now.table)
        × ((t : ℕ) → t < 4 → 0 < size p.port.shape t)) ports.old }
{
    thread::for_each_mut(
        rt,
        ports,
        8,
        &|number: usize, port: &mut Port| pairs(tracker, port, type_of(number), PAIRS),
    );
}

/// One thread: pairs of claim and release, then see steps.
pub fn alone<R: Print + Clock>(rt: &R, alloc: Global) -> io::Result<()> {
    let Ok((tracker, mut ports)) = Tracker::new(alloc, [64, 64, 64, 64], 1) else {
        return Err(io::Error::from(io::ErrorKind::OutOfMemory));
    };
    let Some(mut port) = ports.pop() else {
        unreachable!();
    };
    let start = Instant::now(rt)?;
    pairs(&tracker, &mut port, CreditType::T0, PAIRS);
    let millions = rate(PAIRS, start.elapsed(rt)?);
    println!(rt; "1 thread: {millions} million pairs of claim and release a second")?;
    let start = Instant::now(rt)?;
    let none = looks(&tracker, &mut port, LOOKS);
    let empty = start.elapsed(rt)?.as_nanos() * 1000 / u128::from(LOOKS);
    println!(rt; "1 thread: {empty} ps a see of {none} credits")?;
    let due = port.due();
    if due[0] < 8 {
        port.owe(&tracker, CreditType::T0);
    }
    pairs(&tracker, &mut port, CreditType::T0, 1);
    let start = Instant::now(rt)?;
    let some = looks(&tracker, &mut port, LOOKS);
    let full = start.elapsed(rt)?.as_nanos() * 1000 / u128::from(LOOKS);
    let each = some / 20_000_000;
    println!(rt; "1 thread: {full} ps a see of {each} credit")
}

/// As many threads as the machine has cores, at most eight.
pub fn together<R: Print + Clock + Threads + Sync>(rt: &R, alloc: Global) -> io::Result<()> {
    let cores = thread::available_parallelism(rt)?.get();
    let agents = if cores < 8 { cores as u8 } else { 8 };
    if agents == 0 {
        return Ok(());
    }
    let Ok((tracker, mut ports)) = Tracker::new(alloc, [64, 64, 64, 64], agents) else {
        return Err(io::Error::from(io::ErrorKind::OutOfMemory));
    };
    let start = Instant::now(rt)?;
    pairs_of_all(rt, &tracker, ports.as_mut_slice());
    let millions = rate(PAIRS * u64::from(agents), start.elapsed(rt)?);
    println!(rt; "{agents} threads: {millions} million pairs of claim and release a second")
}
