//! The threads of the agents: how they are started, and what comes back.

ghost use Rattle.std.specs.Prelude.{◌≡◌, ◌≤◌, [], All, IfOk, map, true, vec_capacity, vec_len};
ghost use Rattle.chi_agent.specs.Lives.{IsReportOf};
ghost use Rattle.chi_agent.specs.Runs.{begun, start_of, starts, AllLeave, LeavesRun};
ghost use Rattle.chi_node.specs.Node.{IsOwn};
ghost use Rattle.chi_audit.specs.Tallies.{IsFresh};
ghost use Rattle.chi_agent.specs.Script.{operations_of, writer_of, AreFresh};
ghost use Rattle.chi_agent.specs.Ended.{report_of, requester_number, outbox_of};

use crate::draws::Draws;
use crate::ended::AgentResult;
use crate::gates::Gate;
use crate::lives::{Plan, live};
use crate::player::Player;
use crate::runner::Runner;
use crate::scripts::Script;
use crate::seats::{Seat, first_seat};
use arrayvec::ArrayVec;
use chi_audit::{Inbox, Outbox, Report, Sent, Tallies};
use chi_flit::NoMemory;
use chi_node::{Node, Requester};
use chi_slice::Config;
use std::alloc::{Allocator, Global};
use std::snapshot::Snapshot;
use std::sync::Wait;
use std::sync::atomic::AtomicU64;
use std::thread::{Promise, PromisedHandle, Scope, Threads};
use std::time::Clock;

/// What comes back from a thread: its agent's result, and that its report was sent.
#[derive(Drop)]
pub(crate) struct Came {
    pub(crate) left: AgentResult,
    pub(crate) sent: Sent,
}

/// What comes back is left of an agent that took this seat: it played its script by its draws.
#[derive(Drop)]
pub(crate) struct Back {
    pub(crate) plan: Plan,
    pub(crate) config: Snapshot<Config>,
    pub(crate) seat: Snapshot<Seat>,
}

impl Promise<Came> for Back {
    ghost use Rattle.std.specs.Prelude.{◌≡◌};
    ghost use Rattle.chi_agent.specs.Runs.{begun, LeavesRun};

    ghost kept_by = { λ p came. LeavesRun (begun p) came.left
        × (came.sent.report ≡ came.left.report)
        × (came.sent.channel ≡ p.seat.value.outbox.channel) };
}

/// What the agent did.
fn report_of(player: &Player<Global>) -> Report
    ensures { IsReportOf player.now result }
{
    Report {
        agent: player.requester.number(),
        finished: player.has_finished(),
        loads: player.loads,
        stores: player.stores,
    }
}

/// What is left of an agent that took all its turns.
fn result_of(player: Player<Global>) -> AgentResult
    ensures requester { result.requester ≡ player.requester }
    ensures report { IsReportOf player result.report }
    ensures met { result.not_open ≡ player.not_open }
{
    let report = report_of(&player);
    let not_open = player.not_open;
    let Player { requester, .. } = player;
    AgentResult {
        requester,
        report,
        not_open,
    }
}

/// Sends the report of an agent that took all its turns.
fn send<R: Wait>(rt: &R, left: AgentResult, outbox: Outbox) -> Came
    requires { outbox.agent ≡ left.report.agent.0 }
    ensures left { result.left ≡ left }
    ensures report { result.sent.report ≡ left.report }
    ensures channel { result.sent.channel ≡ outbox.channel }
{
    let sent = outbox.send(rt, left.report);
    Came { left, sent }
}

/// An agent from its first turn to its report.
fn run<R: Wait + Clock, A: Allocator, G: Gate>(
    rt: &R,
    node: &Node<A>,
    tallies: &Tallies,
    gate: &G,
    ended: &AtomicU64,
    plan: Plan,
    seat: Seat,
) -> Came
    requires own { IsOwn node.now seat.requester }
    requires fresh { IsFresh tallies.now seat.script.writer }
    ensures leaves { LeavesRun (start_of node.now.config plan.seed plan.turns seat.requester seat.script.operations)
        result.left }
    ensures report { result.sent.report ≡ result.left.report }
    ensures channel { result.sent.channel ≡ seat.outbox.channel }
{
    let Seat {
        requester,
        script,
        outbox,
    } = seat;
    let draws = Draws::new(plan.seed, requester.number());
    let mut runner = Runner::new(tallies, script, requester, draws);
    live(rt, node, gate, ended, plan, &mut runner);
    let Runner { player, .. } = runner;
    send(rt, result_of(player), outbox)
}

/// What comes back is left of the agent of this seat.
fn promise_of(plan: Plan, config: &Config, seat: &Seat) -> Back
    ensures plan { result.plan ≡ plan }
    ensures config { result.config.value ≡ config.now }
    ensures seat { result.seat.value ≡ seat.now }
{
    Back {
        plan,
        config: Snapshot::of(config),
        seat: Snapshot::of(seat),
    }
}

/// Starts the thread of one agent; refused where that can't be done.
fn start_one<
    's,
    'r: 's,
    'n: 's,
    't: 's,
    'g: 's,
    'e: 's,
    E,
    R: Wait + Clock + Sync,
    A: Allocator + Send + Sync,
    G: Gate,
>(
    scope: &'s Scope<'s, E>,
    rt: &'r R,
    node: &'n Node<A>,
    tallies: &'t Tallies,
    gate: &'g G,
    ended: &'e AtomicU64,
    plan: Plan,
    seat: Seat,
) -> Result<PromisedHandle<Came, Back>, NoMemory>
    requires own { IsOwn node.now seat.requester }
    requires fresh { IsFresh tallies.now seat.script.writer }
    ensures seat { IfOk result (λ h. h.promise.seat.value ≡ seat) }
    ensures plan { IfOk result (λ h. h.promise.plan ≡ plan) }
    ensures config { IfOk result (λ h. h.promise.config.value ≡ node.now.config) }
{
    let back = promise_of(plan, node.config(), &seat);
    let life = move || -> Came
        requires own { IsOwn node.now seat.requester }
        requires fresh { IsFresh tallies.now seat.script.writer }
        ensures leaves { LeavesRun (start_of node.entry.now.config plan.seed plan.turns seat.requester seat.script.operations)
            result.left }
        ensures report { result.sent.report ≡ result.left.report }
        ensures channel { result.sent.channel ≡ seat.outbox.channel }
    { run(rt, node, tallies, gate, ended, plan, seat) };
    match scope.spawn_with(back, life) {
        Ok(handle) => Ok(handle),
        Err(_) => Err(NoMemory),
    }
}

/// Starts a thread for each agent, and says whether each was started.
pub(crate) fn start_all<
    's,
    'r: 's,
    'n: 's,
    't: 's,
    'g: 's,
    'e: 's,
    E,
    R: Wait + Clock + Sync,
    A: Allocator + Send + Sync,
    G: Gate,
>(
    scope: &'s Scope<'s, E>,
    rt: &'r R,
    node: &'n Node<A>,
    tallies: &'t Tallies,
    gate: &'g G,
    ended: &'e AtomicU64,
    plan: Plan,
    mut handles: Vec<PromisedHandle<Came, Back>>,
    mut requesters: ArrayVec<Requester, 8>,
    mut scripts: Vec<Script<Global>>,
    mut outboxes: Vec<Outbox>,
    inbox: &Inbox,
) -> (Vec<PromisedHandle<Came, Back>>, bool)
    requires own { All (IsOwn node.now) requesters.items }
    requires fresh { AreFresh tallies.now scripts.items }
    requires writers { map writer_of scripts.items ≡ map requester_number requesters.items }
    requires outboxes { outboxes.items ≡ map (outbox_of inbox.now.channel) requesters.items }
    requires none { vec_len handles ≡ 0 }
    requires room { plan.agents ≤ vec_capacity handles }
    ensures few { vec_len result.0 ≤ plan.agents }
    ensures all { result.1 ≡ true → map (λ h. begun h.promise) result.0.items
        ≡ starts node.now.config plan.seed plan.turns requesters.items (operations_of scripts.items) }
    ensures channels { All (λ h. h.promise.seat.value.outbox.channel
        ≡ inbox.now.channel) result.0.items }
{
    for _ in 0..plan.agents {
        let Some(seat) = first_seat(&mut requesters, &mut scripts, &mut outboxes, inbox) else {
            return (handles, requesters.is_empty());
        };
        let Ok(handle) = start_one(scope, rt, node, tallies, gate, ended, plan, seat) else {
            return (handles, false);
        };
        handles.push_reserved(handle);
    }
    let complete = requesters.is_empty();
    (handles, complete)
}

/// What comes back from each thread, in the order in which they were started. The inbox is told of the reports.
#[tactic(auto, using(crate::proofs::Left::all_left))]
pub(crate) fn join_all<R: Threads>(
    rt: &R,
    mut handles: Vec<PromisedHandle<Came, Back>>,
    inbox: &mut Inbox,
) -> ArrayVec<AgentResult, 8>
    requires few { vec_len handles ≤ 8 }
    requires channels { All (λ h. h.promise.seat.value.outbox.channel
        ≡ inbox.old.channel) handles.items }
    requires unread { (inbox.old.got ≡ []) × (inbox.old.told ≡ []) }
    ensures leave { AllLeave (map (λ h. begun h.promise) handles.items) result.items }
    ensures told { inbox.new.told ≡ map report_of result.items }
    ensures unread { inbox.new.got ≡ [] }
{
    let count = handles.len();
    let mut results = ArrayVec::new();
    for _ in 0..count {
        let came = handles.remove(0).join(rt);
        inbox.absorb(came.sent);
        results.push(came.left);
    }
    results
}
