//! All turns of an agent.

ghost use Rattle.std.specs.Prelude.{◌≡◌};
ghost use Rattle.chi_agent.specs.Draws.{stream_of};
ghost use Rattle.chi_node.specs.Calls.{IsSameRequester};
ghost use Rattle.chi_node.specs.Node.{IsOwn};
ghost use Rattle.chi_agent.specs.Lives.{Lived};

use crate::gates::Gate;
use crate::pauses::rest;
use crate::runner::Runner;
use chi_node::Node;
use std::alloc::Allocator;
use std::sync::Wait;
use std::sync::atomic::{AtomicU64, Ordering};
use std::time::Clock;

/// How many turns an agent has at most, the seed of its draws, and how many agents there are.
#[derive(Clone, Copy)]
pub(crate) struct Plan {
    pub(crate) seed: u64,
    pub(crate) turns: u64,
    pub(crate) agents: u8,
}

/// The agent takes turns until all agents have ended or its turns are used up. It is counted once where it
/// has ended.
pub(crate) fn live<R: Wait + Clock, A: Allocator, B: Allocator, G: Gate>(
    rt: &R,
    node: &Node<B>,
    gate: &G,
    ended: &AtomicU64,
    plan: Plan,
    runner: &mut Runner<'_, A>,
)
    requires own { IsOwn node.now runner.old.player.requester }
    requires draws { runner.old.draws ≡ stream_of plan.seed runner.old.player.requester.number }
    requires turns { runner.old.turns ≡ 0 }
    ensures lived { Lived node.now.config plan.seed plan.turns runner.old.player.requester.number
        runner.old.player runner.new.player }
    ensures same { IsSameRequester runner.old.player.requester runner.new.player.requester }
{
    let mut counted = false;
    let mut vain = 0u32;
    for _ in 0..plan.turns {
        let done = runner.turn(rt, node, gate);
        vain = if done { 0 } else { vain.saturating_add(1) };
        if !counted && runner.player.has_ended() {
            counted = true;
            ended.fetch_add(1, Ordering::SeqCst);
        }
        // (the others end too: it is counted itself)
        if ended.load(Ordering::SeqCst) >= u64::from(plan.agents) && runner.player.has_ended() {
            break;
        }
        rest(rt, vain);
    }
}
