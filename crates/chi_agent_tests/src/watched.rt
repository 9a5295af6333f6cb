//! A tally that is read while its agent is held at a gate.

ghost use Rattle.std.specs.Prelude.{◌≡◌, ◌<◌, length, map, vec_len};
ghost use Rattle.chi_slice.specs.Words.{two_types};
ghost use Rattle.chi_node.specs.Node.{AreOwn};
ghost use Rattle.chi_audit.specs.Tallies.{reader_cell};
ghost use Rattle.chi_audit.specs.Numbers.{numbers};
ghost use Rattle.chi_agent.specs.Ended.{requester_number};
ghost use Rattle.chi_agent.specs.Script.{writer_of, AreFresh};

use crate::bench::{node_of, on, opened};
use arrayvec::ArrayVec;
use chi_agent::{Gate, Script, run_agents};
use chi_audit::{Tallies, Tally, Watcher};
use chi_flit::{Agent, Task, WordNo};
use chi_node::{Node, Requester};
use chi_slice::Config;
use std::alloc::Global;
use std::process::Abort;
use std::sync::Wait;
use std::sync::atomic::{AtomicBool, Ordering};
use std::thread;
use std::thread::Threads;
use std::time::Clock;

/// Holds an agent at its third turn until it is opened.
#[derive(Drop)]
struct Hold {
    open: AtomicBool,
}

impl Gate for Hold {
    fn pass(&self, _agent: Agent, turn: u64) {
        if turn != 3 {
            return;
        }
        for _ in 0..100_000_000u32 {
            if self.open.load(Ordering::SeqCst) {
                return;
            }
            thread::yield_now();
        }
    }
}

/// One requester and one line, with an entry of each of two types.
fn sizes(rt: &impl Abort) -> Config
    ensures { result ≡ two_types 1 1 1 1 1 4 }
{
    Config::new(1, 1, 1, 1, 1, 4).expect(rt, "sizes in their limits")
}

/// Reads the tally until the agent did two turns, and opens the gate.
fn reads<R: Wait>(rt: &R, tallies: &Tallies, watcher: &mut Watcher, gate: &Hold) -> Tally
    requires cells { map reader_cell watcher.old ≡ tallies.now }
    requires some { 0 < length tallies.now }
{
    let mut tally = Tally::default();
    for _ in 0..100_000_000u32 {
        tally = watcher.read(rt, tallies, Agent(0));
        if tally.turns >= 2 {
            break;
        }
    }
    gate.open.store(true, Ordering::SeqCst);
    tally
}

/// Whether the agents ran, and the tally that was read meanwhile.
fn runs_and_reads<R: Threads + Wait + Clock + Sync>(
    rt: &R,
    alloc: Global,
    node: &Node<Global>,
    tallies: &Tallies,
    requesters: ArrayVec<Requester, 8>,
    scripts: Vec<Script<Global>>,
    watcher: Watcher,
    gate: &Hold,
) -> (bool, Tally)
    requires own { AreOwn node.now requesters.items }
    requires count { vec_len scripts ≡ node.now.tracker.shape.agents }
    requires fresh { AreFresh tallies.now scripts.items }
    requires requesters { map requester_number requesters.items ≡ numbers node.now.config.agents }
    requires writers { map writer_of scripts.items ≡ numbers node.now.config.agents }
    requires cells { map reader_cell watcher ≡ tallies.now }
    requires some { 0 < length tallies.now }
{
    thread::join(
        rt,
        move || -> bool
            requires own { AreOwn node.now requesters.items }
            requires count { vec_len scripts ≡ node.now.tracker.shape.agents }
            requires fresh { AreFresh tallies.now scripts.items }
            requires requesters { map requester_number requesters.items ≡ numbers node.now.config.agents }
            requires writers { map writer_of scripts.items ≡ numbers node.now.config.agents }
        {
            let ran = run_agents(
                rt, alloc, node, tallies, requesters, scripts, 1, 100_000, gate,
            );
            ran.is_ok()
        },
        move || -> Tally
            requires cells { map reader_cell watcher ≡ tallies.now }
            requires some { 0 < length tallies.now }
        {
            let mut watcher = watcher;
            reads(rt, tallies, &mut watcher, gate)
        },
    )
}

#[test]
fn tally_read_while_held(rt: HostRuntime) {
    let (node, requesters) = node_of(&rt, rt.alloc(), &sizes(&rt));
    let all = [[on(0, Task::Load(WordNo(0)))]];
    let (tallies, scripts, watcher) = opened(&rt, rt.alloc(), 1, &all);
    let gate = Hold {
        open: AtomicBool::new(false),
    };
    let alloc = rt.alloc();
    let (ran, tally) = runs_and_reads(
        &rt, alloc, &node, &tallies, requesters, scripts, watcher, &gate,
    );
    assert!(rt; ran);
    assert_eq!(rt; tally.turns, 2);
    assert_eq!(rt; tally.loads, 0);
    assert_eq!(rt; tally.stores, 0);
}
