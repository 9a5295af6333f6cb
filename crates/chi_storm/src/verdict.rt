//! The verdict on a storm.

ghost use Rattle.std.specs.Prelude.{◌≡◌, ◌<◌, ◌↔◌, IsTrue, length, map};
ghost use Rattle.chi_agent.specs.Ended.{requester_of};
ghost use Rattle.chi_node.specs.Node.{AreOwn, IsSliceOf};
ghost use Rattle.chi_storm.specs.Verdicts.{AreAllOpen, IsOutcome, IsOutcomeOf, SeenAt, SeenToAgree, finished_in, is_finished};

use crate::outcome::Outcome;
use chi_agent::{AgentResult, Ended, requesters_of};
use chi_audit::Report;
use chi_flit::Line;
use chi_node::{Counts, Node, Requester, agree_with};
use chi_replay::NodeTotals;
use chi_slice::{Config, Slice, audit_of};
use std::alloc::Allocator;
use std::sync::Wait;

/// How many of the reports that were kept say that the script finished.
fn finished_in(reports: &[Option<Report>; 8]) -> u8
    ensures { result ≡ finished_in reports.now }
{
    let mut finished = 0;
    for report in reports {
        if is_finished(*report) {
            finished += 1;
        }
    }
    finished
}

/// Whether a report was kept and says that the script finished.
fn is_finished(report: Option<Report>) -> bool
    ensures { result ≡ is_finished report }
{
    match report {
        Some(report) => report.finished,
        None => false,
    }
}

/// Whether no agent met refusal 11.
fn are_all_open(results: &[AgentResult]) -> bool
    ensures { IsTrue result ↔ AreAllOpen results.now }
{
    let mut open = true;
    for left in results {
        open &= !left.not_open;
    }
    open
}

/// Whether each requester agrees with a slice of the node.
fn agrees_here<A: Allocator>(
    slice: &Slice<A>,
    config: &Config,
    index: u8,
    requesters: &[Requester],
) -> bool
    requires { IsSliceOf config.now index slice.now }
    ensures { SeenAt config.now requesters.now index result }
{
    agree_with(slice, requesters)
}

/// Whether the slice of the index, which is locked for it, is the node's, and each requester agrees with it. It may
/// wait for another thread that has the lock.
#[tactic(auto, using(crate::proofs::Seen::lock_refused))]
fn agrees_at<R: Wait, A: Allocator>(
    rt: &R,
    node: &Node<A>,
    index: u8,
    requesters: &[Requester],
) -> bool
    requires { index < node.now.config.lines }
    ensures { SeenAt node.now.config requesters.now index result }
{
    match node.lock(rt, Line(index)) {
        Ok(slice) => agrees_here(&slice, node.config(), index, requesters),
        Err(_) => false,
    }
}

/// Whether each requester agrees with each slice, each of which is locked once more for it.
fn all_agree<R: Wait, A: Allocator>(rt: &R, node: &Node<A>, requesters: &[Requester]) -> bool
    ensures { SeenToAgree node.now.config.slices node.now.config requesters.now result }
{
    let slices = node.config().slices();
    let mut agree = true;
    for index in 0..slices {
        agree &= agrees_at(rt, node, index, requesters);
    }
    agree
}

/// The outcome of slices that are those of a node of that size, of what the words of its tracker held, and of
/// what its agents told: loads and stores are those in the journals of these slices, and the verdict is
/// `coherent` exactly where each of these slices is coherent, its journal legal, and the flags say that the
/// requesters agree and that no agent met refusal 11. Takes no memory.
///
/// Condition: there are as many slices as the size says.
/// Source: `docs/FORMATS.md`, "The output of a storm".
pub fn outcome_from<A: Allocator>(
    config: &Config,
    slices: &[Slice<A>],
    counts: Counts,
    agree: bool,
    all_open: bool,
    reports: &[Option<Report>; 8],
) -> Outcome
    requires { length slices.now ≡ config.now.slices }
    ensures { IsOutcomeOf config.now slices.now counts agree all_open reports.now result }
{
    let agents = config.agents();
    let profile = config.profile();
    let audit = audit_of(slices);
    Outcome {
        agents,
        finished: finished_in(reports),
        loads: audit.loads,
        stores: audit.stores,
        holdings: NodeTotals { counts, profile },
        coherent: audit.coherent & agree & all_open,
    }
}

/// What came of a storm on the node, whose agents have ended so. Each slice is locked once more before the
/// node is closed; it may wait for another thread that has the lock. Takes no memory.
///
/// Condition: the requesters are all that the node gave.
/// Source: `docs/FORMATS.md`, "The output of a storm".
pub fn outcome_of<R: Wait, A: Allocator>(rt: &R, node: Node<A>, ended: Ended) -> Outcome
    requires { AreOwn node (map requester_of ended.results.items) }
    ensures { IsOutcome node ended.results.items ended.gathered.reports result }
{
    let config = *node.config();
    let Ended {
        results,
        gathered,
        ..
    } = ended;
    let all_open = are_all_open(results.as_slice());
    let requesters = requesters_of(results);
    let agree = all_agree(rt, &node, requesters.as_slice());
    let (slices, totals) = node.close(requesters);
    outcome_from(
        &config,
        &slices,
        totals.counts,
        agree,
        all_open,
        &gathered.reports,
    )
}
