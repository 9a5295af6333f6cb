//! Agents that are held at a gate.

ghost use Rattle.std.specs.Prelude.{◌≡◌};
ghost use Rattle.chi_slice.specs.Words.{two_types};

use crate::bench::{SEED, node_of, on, opened, ran};
use chi_agent::{Gate, run_agents};
use chi_audit::Report;
use chi_flit::{Agent, Operation, Task, WordNo};
use chi_node::Node;
use chi_slice::Config;
use std::alloc::Global;
use std::process::Abort;
use std::sync::atomic::{AtomicBool, AtomicU64, Ordering};

/// Each of two agents says at its first turn that it came, and waits until it sees that the other came too.
#[derive(Drop)]
struct Meeting {
    came: [AtomicBool; 2],
    saw: [AtomicBool; 2],
}

impl Gate for Meeting {
    fn pass(&self, agent: Agent, turn: u64) {
        let own = usize::from(agent.0);
        if turn != 1 || own > 1 {
            return;
        }
        self.came[own].store(true, Ordering::SeqCst);
        for _ in 0..100_000_000u32 {
            if self.came[1 - own].load(Ordering::SeqCst) {
                self.saw[own].store(true, Ordering::SeqCst);
                return;
            }
        }
    }
}

/// Two requesters and two lines in two slices, with an entry of each of two types.
fn sizes(rt: &impl Abort) -> Config
    ensures { result ≡ two_types 2 2 2 1 1 4 }
{
    Config::new(2, 2, 2, 1, 1, 4).expect(rt, "sizes in their limits")
}

/// A load of each agent, on a line of its own.
fn loads() -> [[Operation; 1]; 2] {
    let load = Task::Load(WordNo(0));
    [[on(0, load)], [on(1, load)]]
}

#[test]
fn both_run_at_once(rt: HostRuntime) {
    let (node, requesters) = node_of(&rt, rt.alloc(), &sizes(&rt));
    let gate = Meeting {
        came: [AtomicBool::new(false), AtomicBool::new(false)],
        saw: [AtomicBool::new(false), AtomicBool::new(false)],
    };
    ran(&rt, rt.alloc(), &node, requesters, &loads(), 100_000, &gate);
    assert!(rt; gate.saw[0].load(Ordering::SeqCst));
    assert!(rt; gate.saw[1].load(Ordering::SeqCst));
}

/// Counts the turns of two agents, and sees whether each turn of an agent has the number behind the last.
#[derive(Drop)]
struct Count {
    turns: [AtomicU64; 2],
    in_order: AtomicBool,
}

impl Gate for Count {
    fn pass(&self, agent: Agent, turn: u64) {
        let own = usize::from(agent.0);
        if own > 1 {
            return;
        }
        let before = self.turns[own].fetch_add(1, Ordering::SeqCst);
        if before.checked_add(1) != Some(turn) {
            self.in_order.store(false, Ordering::SeqCst);
        }
    }
}

/// The report of an agent that did nothing so far.
fn unfinished(agent: u8) -> Report {
    Report {
        agent: Agent(agent),
        finished: false,
        loads: 0,
        stores: 0,
    }
}

// In four turns at most a request is issued, arrives and is started, and its data comes.
#[test]
fn turns_are_used_up(rt: HostRuntime) {
    let (node, requesters) = node_of(&rt, rt.alloc(), &sizes(&rt));
    let gate = Count {
        turns: [AtomicU64::new(0), AtomicU64::new(0)],
        in_order: AtomicBool::new(true),
    };
    let (ended, _, _) = ran(&rt, rt.alloc(), &node, requesters, &loads(), 4, &gate);
    assert!(rt; gate.in_order.load(Ordering::SeqCst));
    assert_eq!(rt; gate.turns[0].load(Ordering::SeqCst), 4);
    assert_eq!(rt; gate.turns[1].load(Ordering::SeqCst), 4);
    assert!(rt; ended.gathered.complete);
    assert!(rt; ended.gathered.reports[0] == Some(unfinished(0)));
    assert!(rt; ended.gathered.reports[1] == Some(unfinished(1)));
}

/// Sees how many entries of type 0 are free when an agent comes to its second turn.
#[derive(Drop)]
struct Glance<'n> {
    node: &'n Node<Global>,
    free: AtomicU64,
}

impl Gate for Glance<'_> {
    fn pass(&self, _agent: Agent, turn: u64) {
        if turn == 2 {
            let free = self.node.tracker().glance().free[0];
            self.free.store(u64::from(free), Ordering::SeqCst);
        }
    }
}

/// One requester and one line, with an entry of each of two types.
fn one(rt: &impl Abort) -> Config
    ensures { result ≡ two_types 1 1 1 1 1 4 }
{
    Config::new(1, 1, 1, 1, 1, 4).expect(rt, "sizes in their limits")
}

// In the first turn the request is issued. In the second it arrives, and takes the entry.
#[test]
fn the_gate_is_passed_before_the_turn(rt: HostRuntime) {
    let (node, requesters) = node_of(&rt, rt.alloc(), &one(&rt));
    let all = [[on(0, Task::Load(WordNo(0)))]];
    let (tallies, scripts, _watcher) = opened(&rt, rt.alloc(), 1, &all);
    let gate = Glance {
        node: &node,
        free: AtomicU64::new(9),
    };
    let ended = run_agents(
        &rt,
        rt.alloc(),
        &node,
        &tallies,
        requesters,
        scripts,
        SEED,
        2,
        &gate,
    );
    assert!(rt; ended.is_ok());
    assert_eq!(rt; gate.free.load(Ordering::SeqCst), 1);
    assert_eq!(rt; node.tracker().glance().free[0], 0);
}
