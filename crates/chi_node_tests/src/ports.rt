//! Ports, on one thread and in threads of their own, by `docs/PROTOCOL.md`, "Steps of the tracker".

ghost use Rattle.std.specs.Prelude.{◌≡◌, ◌<◌, ◌≤◌, All, IfOk};
ghost use Rattle.chi_tracker.specs.Shape.{low, size};
ghost use Rattle.chi_tracker.specs.Views.{new_port};
ghost use Rattle.chi_tracker.specs.Calls.{shape_of};

use chi_flit::{Agent, CreditType, Entry, NoMemory};
use chi_tracker::{Port, Released, Tracker};
use std::alloc::Global;
use std::test::Fail;
use std::thread;
use std::thread::Threads;

/// A tracker with two ports, of requesters 0 and 1.
fn two_ports(alloc: Global, entries: [u16; 4]) -> Result<(Tracker<Global>, Port, Port), NoMemory>
    requires { low (shape_of entries 2) 4 ≤ 256 }
    ensures tables { IfOk result (λ made. (made.1.table ≡ made.0.table) × (made.2.table ≡ made.0.table) × (made.0.shape ≡ shape_of entries 2)) }
    ensures ports { IfOk result (λ made. (made.1.port ≡ new_port (shape_of entries 2) 0) × (made.2.port ≡ new_port (shape_of entries 2) 1)) }
{
    let (tracker, mut ports) = Tracker::new(alloc, entries, 2)?;
    let (Some(one), Some(zero)) = (ports.pop(), ports.pop()) else {
        unreachable!();
    };
    Ok((tracker, zero, one))
}

#[test]
fn tend_grants(rt: HostRuntime) -> Result<(), Fail> {
    let Ok((tracker, mut zero, mut one)) = two_ports(rt.alloc(), [1, 1, 0, 0]) else {
        panic!(rt; "no memory");
    };
    assert!(rt; zero.claim(&tracker, CreditType::T0) == Some(Entry(0)));
    one.owe(&tracker, CreditType::T0);
    zero.free(&tracker, Entry(0));
    let granted = one.tend(&tracker, CreditType::T0);
    assert!(rt; granted == Some(Released::Granted(Agent(1))));
    assert!(rt; one.see(&tracker) == [1, 0, 0, 0]);
    assert!(rt; one.spend(&tracker, CreditType::T0) == Entry(0));
    Ok(())
}

/// One round of an agent: it claims an entry of type 0 and releases it, or owes a credit; and spends and
/// releases what was granted to it.
fn round(tracker: &Tracker<Global>, port: &mut Port)
    requires table { port.old.table ≡ tracker.now.table }
    requires entries { 0 < size port.old.port.shape 0 }
    ensures { (port.new.table ≡ port.old.table) × (port.new.port.shape ≡ port.old.port.shape) }
{
    match port.claim(tracker, CreditType::T0) {
        Some(entry) => {
            port.release(tracker, entry);
        }
        None => {
            let due = port.due();
            if due[0] < 8 {
                port.owe(tracker, CreditType::T0);
            }
        }
    }
    port.see(tracker);
    for _spent in 0..256 {
        let seen = port.seen();
        if seen[0] == 0 {
            return;
        }
        let entry = port.spend(tracker, CreditType::T0);
        port.release(tracker, entry);
    }
}

fn thousand_rounds(tracker: &Tracker<Global>, port: &mut Port)
    requires table { port.old.table ≡ tracker.now.table }
    requires entries { 0 < size port.old.port.shape 0 }
    ensures { (port.new.table ≡ port.old.table) × (port.new.port.shape ≡ port.old.port.shape) }
{
    for _turn in 0..1000 {
        round(tracker, port);
    }
}

/// A thousand rounds of each port, in threads of their own.
fn run_all<R: Threads + Sync>(rt: &R, tracker: &Tracker<Global>, ports: &mut [Port])
    requires { All (λ p. (p.table ≡ tracker.now.table) × (0 < size p.port.shape 0)) ports.old }
    ensures { All (λ p. p.table ≡ tracker.now.table) ports.new }
{
    thread::for_each_mut(
        rt,
        ports,
        8,
        &|_, port: &mut Port| thousand_rounds(tracker, port),
    );
}

#[test]
fn eight_threads_one_entry(rt: HostRuntime) -> Result<(), Fail> {
    let Ok((tracker, mut ports)) = Tracker::new(rt.alloc(), [1, 1, 0, 0], 8) else {
        panic!(rt; "no memory");
    };
    run_all(&rt, &tracker, ports.as_mut_slice());
    let totals = tracker.close(ports);
    let counts = totals.counts;
    assert!(rt; counts.free[0] + counts.promised[0] == 1 && counts.hand[0] == 0);
    for credits in totals.requesters.as_slice() {
        assert!(rt; credits.due[0] == credits.owed[0].wrapping_add(credits.promised[0]));
    }
    Ok(())
}
