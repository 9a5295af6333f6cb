//! All agents of a node, each in a thread of its own.

ghost use Rattle.std.specs.Prelude.{◌≡◌, ◌≤◌, ◌<◌, [], All, IfOk, map, true, vec_capacity, vec_len};
ghost use Rattle.chi_audit.specs.Gathered.{IsGathered};
ghost use Rattle.chi_node.specs.Node.{AreOwn, IsOwn};
ghost use Rattle.chi_audit.specs.Numbers.{numbers};
ghost use Rattle.chi_agent.specs.Script.{operations_of, writer_of, AreFresh};
ghost use Rattle.chi_agent.specs.Runs.{starts, AllLeave, KeepsTold};
ghost use Rattle.chi_agent.specs.Ended.{report_of, requester_number, requester_of, outbox_of};

use crate::ended::Ended;
use crate::gates::Gate;
use crate::lives::Plan;
use crate::scripts::Script;
use crate::threads::{join_all, start_all};
use arrayvec::ArrayVec;
use chi_audit::{Inbox, Outbox, Tallies, gather, open_boxes};
use chi_flit::NoMemory;
use chi_node::{Node, Requester};
use std::alloc::{Allocator, Global};
use std::sync::Wait;
use std::sync::atomic::AtomicU64;
use std::thread;
use std::thread::Threads;
use std::time::Clock;

/// How many agents a node has.
#[tactic(auto, using(crate::proofs::Counts::some_agent, crate::proofs::Counts::few_agents))]
fn count_of<A: Allocator>(node: &Node<A>) -> u8
    ensures is { result ≡ node.now.config.agents }
    ensures some { 0 < result }
    ensures few { result ≤ 8 }
{
    node.config().agents()
}

/// The outbox of each requester, in their order, and the inbox. Refused where memory runs out.
#[tactic(auto, using(crate::proofs::Numbers::own_outboxes))]
fn boxes_for(
    alloc: Global,
    agents: u8,
    requesters: &ArrayVec<Requester, 8>,
) -> Result<(Vec<Outbox>, Inbox), NoMemory>
    requires some { 0 < agents }
    requires numbers { map requester_number requesters.now.items ≡ numbers agents }
    ensures outboxes { IfOk result
        (λ made. made.0.items ≡ map (outbox_of made.1.channel) requesters.now.items) }
    ensures inbox { IfOk result (λ made. (made.1.got ≡ []) × (made.1.told ≡ [])) }
{
    Ok(open_boxes(alloc, agents)?)
}

/// Runs the scripts, each agent's in a thread of its own, until all agents have ended or each has used up so
/// many turns; then each sends its report. All threads are joined. It may wait.
///
/// Refused where memory runs out, and where a thread can't be started: the agents that run already then use
/// up their turns. All growths but the threads' own are made before the first thread is started. Conditions:
/// the requesters are all that `Node::new` gave, and there is a script for each of them, in their order, whose
/// writer is one of the tallies and has stored nothing.
/// Source: `docs/FORMATS.md`, "A turn".
pub fn run_agents<R: Threads + Wait + Clock + Sync, A: Allocator + Send + Sync, G: Gate>(
    rt: &R,
    alloc: Global,
    node: &Node<A>,
    tallies: &Tallies,
    requesters: ArrayVec<Requester, 8>,
    scripts: Vec<Script<Global>>,
    seed: u64,
    turns: u64,
    gate: &G,
) -> Result<Ended, NoMemory>
    requires own { AreOwn node.now requesters.items }
    requires count { vec_len scripts ≡ node.now.tracker.shape.agents }
    requires fresh { AreFresh tallies.now scripts.items }
    requires requesters { map requester_number requesters.items ≡ numbers node.now.config.agents }
    requires writers { map writer_of scripts.items ≡ numbers node.now.config.agents }
    ensures lives { IfOk result (λ e. AllLeave
        (starts node.now.config seed turns requesters.items (operations_of scripts.items))
        e.results.items) }
    ensures own { IfOk result (λ e. AreOwn node.now (map requester_of e.results.items)) }
    ensures reports { IfOk result (λ e. IsGathered node.now.config.agents e.inbox.got e.gathered) }
    ensures kept { IfOk result
        (λ e. KeepsTold node.now.config.agents (map report_of e.results.items)
        e.gathered.reports) }
{
    let agents = count_of(node);
    let (outboxes, inbox) = boxes_for(alloc, agents, &requesters)?;
    let handles = Vec::with_capacity(alloc, usize::from(agents))?;
    let plan = Plan {
        seed,
        turns,
        agents,
    };
    let ended = AtomicU64::new(0);
    let count = &ended;
    let (back, complete) = thread::scope(
        thread::scope_env(),
        rt,
        |scope| -> (Ended, bool)
            requires own { All (IsOwn node.now) requesters.items }
            requires fresh { AreFresh tallies.now scripts.items }
            requires writers { map writer_of scripts.items ≡ map requester_number requesters.items }
            requires outboxes { outboxes.items ≡ map (outbox_of inbox.channel) requesters.items }
            requires none { vec_len handles ≡ 0 }
            requires room { plan.agents ≤ vec_capacity handles }
            requires few { plan.agents ≤ 8 }
            requires unread { (inbox.got ≡ []) × (inbox.told ≡ []) }
            ensures lives { result.1 ≡ true → AllLeave
                (starts node.entry.now.config plan.seed plan.turns requesters.items (operations_of scripts.items))
                result.0.results.items }
            ensures reports { IsGathered plan.agents result.0.inbox.got result.0.gathered }
            ensures kept { KeepsTold plan.agents (map report_of result.0.results.items)
                result.0.gathered.reports }
        {
            let mut inbox = inbox;
            let (handles, complete) = start_all(
                scope, rt, node, tallies, gate, count, plan, handles, requesters, scripts,
                outboxes, &inbox,
            );
            let results = join_all(rt, handles, &mut inbox);
            let gathered = gather(rt, plan.agents, &mut inbox);
            let back = Ended {
                results,
                gathered,
                inbox,
            };
            (back, complete)
        },
    );
    if complete { Ok(back) } else { Err(NoMemory) }
}
