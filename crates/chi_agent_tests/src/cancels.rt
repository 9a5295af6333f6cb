//! A request that is cancelled in a storm.

use crate::bench::{SEED, eight_sizes, node_of, on, opened};
use chi_agent::{Ended, Gate, run_agents};
use chi_audit::Report;
use chi_flit::{Agent, Line, Operation, Task, WordNo};
use chi_node::Node;
use chi_slice::Phase;
use std::alloc::Global;
use std::sync::Wait;
use std::sync::atomic::{AtomicBool, AtomicU64, Ordering};
use std::thread;

/// What an agent does on two lines that all want: it stores to each and writes it back, twice.
fn twice(one: u8, other: u8) -> [Operation; 8] {
    let (store, back) = (Task::Store(WordNo(0), 1), Task::WriteBack);
    [
        on(one, store),
        on(one, back),
        on(other, store),
        on(other, back),
        on(one, store),
        on(one, back),
        on(other, store),
        on(other, back),
    ]
}

/// Has eight agents take turns in rising order, one at a time, until a request of one was cancelled; then each goes
/// on when it likes.
#[derive(Drop)]
struct Rounds<'r, 'n, R> {
    rt: &'r R,
    node: &'n Node<Global>,
    /// So many turns have ended.
    ended: AtomicU64,
    /// A bit for each agent and line: whether its request there was in phase Retried before its last turn.
    retried: AtomicU64,
    cancelled: AtomicBool,
}

/// Sets or clears a bit; whether it was set before.
fn swap(bits: &AtomicU64, place: u32, now: bool) -> bool {
    let bit = 1u64 << (place % 64);
    let before = if now {
        bits.fetch_or(bit, Ordering::SeqCst)
    } else {
        bits.fetch_and(!bit, Ordering::SeqCst)
    };
    before & bit != 0
}

/// How far the request that the agent has pending on the line has come, if it has one.
fn phase_at<R: Wait>(rt: &R, node: &Node<Global>, agent: Agent, line: Line) -> Option<Phase> {
    let Ok(slice) = node.lock(rt, line) else {
        return None;
    };
    let Ok(at) = slice.agent_line(agent, line) else {
        return None;
    };
    at.copy.pending().map(|request| request.phase)
}

impl<R: Wait> Rounds<'_, '_, R> {
    /// A request in phase Retried that is gone after one turn of its agent was cancelled: a resent one is in
    /// phase Sent.
    fn look(&self, agent: Agent, line: u8) {
        let phase = phase_at(self.rt, self.node, agent, Line(line));
        let retried = phase == Some(Phase::Retried);
        let place = u32::from(agent.0 % 8) + u32::from(line % 8) * 8;
        let before = swap(&self.retried, place, retried);
        if before && phase.is_none() {
            self.cancelled.store(true, Ordering::SeqCst);
        }
    }

    /// Waits until so many turns have ended, or a request was cancelled.
    fn wait(&self, turns: u64) {
        for _ in 0..100_000_000u32 {
            if self.cancelled.load(Ordering::SeqCst) || self.ended.load(Ordering::SeqCst) >= turns {
                return;
            }
            thread::yield_now();
        }
    }
}

impl<R: Wait + Sync> Gate for Rounds<'_, '_, R> {
    fn pass(&self, agent: Agent, turn: u64) {
        self.look(agent, 0);
        self.look(agent, 1);
        let before = turn.saturating_sub(1);
        if before > 0 {
            self.ended.fetch_add(1, Ordering::SeqCst);
        }
        self.wait(before.saturating_mul(8).saturating_add(u64::from(agent.0)));
    }
}

/// What was gathered of each agent is that its script finished, with its four stores.
fn have_finished(ended: &Ended) -> bool {
    let mut finished = ended.gathered.complete;
    for agent in 0..8u8 {
        let wanted = Report {
            agent: Agent(agent),
            finished: true,
            loads: 0,
            stores: 4,
        };
        finished &= ended.gathered.reports.get(usize::from(agent)) == Some(&Some(wanted));
    }
    finished
}

// A write-back that was retried has nothing to write once a store of another agent has taken the line. So it is
// in the run in which the agents take turns one at a time, which is the same each time.
#[test]
fn a_storm_goes_on_behind_a_cancelled_request(rt: HostRuntime) {
    let (node, requesters) = node_of(&rt, rt.alloc(), &eight_sizes(&rt));
    let (even, odd) = (twice(0, 1), twice(1, 0));
    let all = [even, odd, even, odd, even, odd, even, odd];
    let (tallies, scripts, _watcher) = opened(&rt, rt.alloc(), 8, &all);
    let gate = Rounds {
        rt: &rt,
        node: &node,
        ended: AtomicU64::new(0),
        retried: AtomicU64::new(0),
        cancelled: AtomicBool::new(false),
    };
    let ran = run_agents(
        &rt,
        rt.alloc(),
        &node,
        &tallies,
        requesters,
        scripts,
        SEED,
        10_000_000,
        &gate,
    );
    let ended = ran.expect(&rt, "memory and threads for agents");
    assert!(rt; gate.cancelled.load(Ordering::SeqCst));
    assert!(rt; have_finished(&ended));
}
