//! A tally that is read while another thread stores it.

ghost use Rattle.std.specs.Prelude.{◌≡◌, ◌<◌, Some, length, map, slice_get};
ghost use Rattle.chi_audit.specs.Tallies.{reader_cell, IsFresh};

use chi_audit::{Tallies, Tally, Watcher, Writer};
use chi_flit::{Agent, NoMemory};
use std::process::Abort;
use std::sync::Wait;
use std::sync::atomic::{AtomicU64, Ordering};
use std::thread;
use std::thread::Threads;

/// During so many readings a store has to end, before the writer may stop: so stores come between the looks of
/// readings, which have to look again.
const ENOUGH: u64 = 100;

/// What writer and reader tell one another: the number that was stored last, and how many readings a store met.
#[derive(Drop)]
struct Signs {
    stored: AtomicU64,
    met: AtomicU64,
}

/// What the reader saw: readings during which a store ended, and readings of numbers that weren't stored
/// together.
#[derive(Clone, Copy)]
struct Readings {
    met: u64,
    torn: u64,
}

/// A writer beside the tallies.
#[derive(Drop)]
struct Teller<'t> {
    tallies: &'t Tallies,
    writer: Writer,
    ghost fits: { slice_get tallies.now writer.agent ≡ Some writer.cell },
}

impl<'t> Teller<'t> {
    /// A writer that stored nothing.
    fn new(tallies: &'t Tallies, writer: Writer) -> Teller<'t>
        requires { IsFresh tallies.now writer }
    {
        Teller { tallies, writer }
    }

    /// Stores a tally of which each number is this, which isn't below that of the last.
    fn tell<R: Abort + Wait>(&mut self, rt: &R, number: u64) {
        let last = self.writer.last();
        assert!(rt; number >= last.turns && number >= last.loads && number >= last.stores);
        let tally = Tally {
            turns: number,
            loads: number,
            stores: number,
        };
        self.tallies.store(rt, &mut self.writer, tally);
    }
}

/// Stores tallies of three equal numbers, one after the other, until enough readings met a store.
fn stores<R: Abort + Wait>(rt: &R, tallies: &Tallies, writer: Writer, signs: &Signs)
    requires { IsFresh tallies.now writer }
{
    let mut teller = Teller::new(tallies, writer);
    for number in 1..100_000_000u64 {
        if signs.met.load(Ordering::SeqCst) >= ENOUGH {
            return;
        }
        teller.tell(rt, number);
        signs.stored.store(number, Ordering::SeqCst);
    }
}

/// The gate of a reading: it is passed when the writer has stored once more, and so is about to store again. The
/// number that it had stored then.
fn passed(signs: &Signs) -> u64 {
    let before = signs.stored.load(Ordering::SeqCst);
    for _ in 0..100_000_000u32 {
        let now = signs.stored.load(Ordering::SeqCst);
        if now != before {
            return now;
        }
        thread::yield_now();
    }
    before
}

/// What one reading adds to what was seen; `met` says whether a store ended during it.
fn after(readings: Readings, met: bool, tally: Tally) -> Readings {
    let whole = tally.turns == tally.loads && tally.loads == tally.stores;
    Readings {
        met: readings.met.saturating_add(u64::from(met)),
        torn: readings.torn.saturating_add(u64::from(!whole)),
    }
}

/// Reads until enough readings met a store.
fn reads<R: Wait>(rt: &R, tallies: &Tallies, mut watcher: Watcher, signs: &Signs) -> Readings
    requires cells { map reader_cell watcher ≡ tallies.now }
    requires some { 0 < length tallies.now }
{
    let mut readings = Readings { met: 0, torn: 0 };
    for _ in 0..100_000_000u32 {
        let before = passed(signs);
        let tally = watcher.read(rt, tallies, Agent(0));
        let met = signs.stored.load(Ordering::SeqCst) != before;
        readings = after(readings, met, tally);
        signs.met.store(readings.met, Ordering::SeqCst);
        if readings.met >= ENOUGH {
            break;
        }
    }
    readings
}

/// What a reader in a thread of its own sees of a writer in another.
fn race<R: Threads + Wait + Abort + Sync>(
    rt: &R,
    tallies: &Tallies,
    writer: Writer,
    watcher: Watcher,
) -> Readings
    requires fresh { IsFresh tallies.now writer }
    requires cells { map reader_cell watcher ≡ tallies.now }
    requires some { 0 < length tallies.now }
{
    let open = Signs {
        stored: AtomicU64::new(0),
        met: AtomicU64::new(0),
    };
    let signs = &open;
    let (_, readings) = thread::join(
        rt,
        move || -> ()
            requires { IsFresh tallies.now writer }
        { stores(rt, tallies, writer, signs) },
        move || -> Readings
            requires cells { map reader_cell watcher ≡ tallies.now }
            requires some { 0 < length tallies.now }
        { reads(rt, tallies, watcher, signs) },
    );
    readings
}

#[test]
fn no_reading_is_torn_where_stores_come_between(rt: HostRuntime) -> Result<(), NoMemory> {
    let (tallies, mut writers, watcher) = chi_audit::tallies(rt.alloc(), 1)?;
    assert!(rt; !writers.is_empty());
    let readings = race(&rt, &tallies, writers.remove(0), watcher);
    assert_eq!(rt; readings.torn, 0);
    assert!(rt; readings.met >= ENOUGH);
    Ok(())
}
