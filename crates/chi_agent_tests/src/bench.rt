//! What the tests share: nodes, scripts of agents with the writers of their tallies, and runs of them.

ghost use Rattle.std.specs.Prelude.{◌≡◌, ◌≤◌, All, length, map, vec_len};
ghost use Rattle.chi_slice.specs.Words.{two_types};
ghost use Rattle.chi_node.specs.Node.{AreOwn};
ghost use Rattle.chi_audit.specs.Numbers.{numbers};
ghost use Rattle.chi_audit.specs.Tallies.{writer_agent, reader_cell, IsFresh};
ghost use Rattle.chi_agent.specs.Ended.{requester_number};
ghost use Rattle.chi_agent.specs.Script.{writer_of, AreFresh};

use arrayvec::ArrayVec;
use chi_agent::{Ended, Gate, Script, run_agents};
use chi_audit::{Tallies, Watcher, Writer};
use chi_flit::{Line, Operation, Task};
use chi_node::{Node, Requester};
use chi_slice::Config;
use std::alloc::Global;
use std::process::Abort;
use std::sync::Wait;
use std::thread::Threads;
use std::time::Clock;

/// The seed of every run.
pub const SEED: u64 = 7;

/// An operation on a line.
pub fn on(line: u8, task: Task) -> Operation {
    Operation {
        line: Line(line),
        task,
    }
}

/// Eight requesters and eight lines, each in a slice of its own, with an entry of each of two types.
pub fn eight_sizes(rt: &impl Abort) -> Config
    ensures { result ≡ two_types 8 8 8 1 1 16 }
{
    Config::new(8, 8, 8, 1, 1, 16).expect(rt, "sizes in their limits")
}

/// A node of that size, and its requesters.
#[tactic(auto, using(chi_agent::proofs::Numbers::are_numbered))]
pub fn node_of(
    rt: &impl Abort,
    alloc: Global,
    config: &Config,
) -> (Node<Global>, ArrayVec<Requester, 8>)
    ensures config { result.0.config ≡ config.now }
    ensures agents { result.0.tracker.shape.agents ≡ config.now.agents }
    ensures own { AreOwn result.0 result.1.items }
    ensures numbers { map requester_number result.1.items ≡ numbers config.now.agents }
{
    Node::new(alloc, config).expect(rt, "memory for a node")
}

/// A script of these operations.
fn script_of(
    rt: &impl Abort,
    alloc: Global,
    operations: &[Operation],
    writer: Writer,
) -> Script<Global>
    ensures { result.writer ≡ writer }
{
    let mut list = Vec::new(alloc);
    for operation in operations {
        list.push(*operation).expect(rt, "memory for a script");
    }
    Script::new(writer.agent(), list, writer)
}

/// A script for each writer, in their order.
#[tactic(auto, using(chi_agent::proofs::Numbers::all_moved))]
fn scripts_of<const N: usize>(
    rt: &impl Abort,
    alloc: Global,
    tallies: &Tallies,
    all: &[[Operation; N]],
    mut writers: Vec<Writer>,
) -> Vec<Script<Global>>
    requires fresh { All (IsFresh tallies.now) writers.items }
    requires count { length writers.items ≡ length all.now }
    ensures fresh { AreFresh tallies.now result.items }
    ensures writers { map writer_of result.items ≡ map writer_agent writers.items }
    ensures count { vec_len result ≡ length all.now }
{
    let mut scripts = Vec::new(alloc);
    for operations in all {
        let script = script_of(rt, alloc, operations, writers.remove(0));
        scripts.push(script).expect(rt, "memory for scripts");
    }
    scripts
}

/// Cells for tallies, the scripts with their writers, and who reads them.
#[tactic(auto, using(chi_agent::proofs::Numbers::as_many))]
pub fn opened<const N: usize>(
    rt: &impl Abort,
    alloc: Global,
    agents: u8,
    all: &[[Operation; N]],
) -> (Tallies, Vec<Script<Global>>, Watcher)
    requires { length all.now ≡ agents }
    ensures fresh { AreFresh result.0 result.1.items }
    ensures writers { map writer_of result.1.items ≡ numbers agents }
    ensures count { vec_len result.1 ≡ agents }
    ensures cells { length result.0 ≡ agents }
    ensures watched { map reader_cell result.2 ≡ result.0 }
{
    let made = chi_audit::tallies(alloc, agents);
    let (tallies, writers, watcher) = made.expect(rt, "memory for tallies");
    let scripts = scripts_of(rt, alloc, &tallies, all, writers);
    (tallies, scripts, watcher)
}

/// What comes of agents that run these scripts for so many turns at most, and of their tallies.
pub fn ran<R: Abort + Threads + Wait + Clock + Sync, G: Gate, const N: usize>(
    rt: &R,
    alloc: Global,
    node: &Node<Global>,
    requesters: ArrayVec<Requester, 8>,
    all: &[[Operation; N]],
    turns: u64,
    gate: &G,
) -> (Ended, Tallies, Watcher)
    requires own { AreOwn node.now requesters.items }
    requires numbers { map requester_number requesters.items ≡ numbers node.now.config.agents }
    requires agents { node.now.tracker.shape.agents ≡ node.now.config.agents }
    requires count { length all.now ≡ node.now.config.agents }
    ensures cells { length result.1 ≡ node.now.config.agents }
    ensures watched { map reader_cell result.2 ≡ result.1 }
{
    let agents = node.config().agents();
    let (tallies, scripts, watcher) = opened(rt, alloc, agents, all);
    let made = run_agents(
        rt, alloc, node, &tallies, requesters, scripts, SEED, turns, gate,
    );
    let ended = made.expect(rt, "memory and threads for agents");
    (ended, tallies, watcher)
}
