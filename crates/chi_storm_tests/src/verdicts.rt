//! Storms in which a slice is exchanged behind its lock, and their verdicts.

ghost use Rattle.std.specs.Prelude.{◌≡◌, map, vec_len};
ghost use Rattle.chi_slice.specs.Words.{two_types};
ghost use Rattle.chi_node.specs.Node.{AreOwn};
ghost use Rattle.chi_audit.specs.Numbers.{numbers};
ghost use Rattle.chi_agent.specs.Ended.{requester_number};
ghost use Rattle.chi_agent.specs.Script.{writer_of, AreFresh};

use arrayvec::ArrayVec;
use chi_agent::{Ended, Gate, OpenGate, Script, run_agents};
use chi_audit::{Tallies, Writer};
use chi_flit::{Agent, Line, Operation, Task, WordNo};
use chi_node::{Node, Requester};
use chi_slice::{Config, Slice};
use chi_storm::outcome_of;
use std::alloc::Global;
use std::mem::swap;
use std::process::Abort;
use std::sync::{Mutex, Wait};

/// One requester and one line, with an entry of each of two types.
fn sizes(rt: &impl Abort) -> Config
    ensures { result ≡ two_types 1 1 1 1 1 4 }
{
    Config::new(1, 1, 1, 1, 1, 4).expect(rt, "sizes in their limits")
}

/// A node of that size, and its requester.
#[tactic(auto, using(chi_agent::proofs::Numbers::are_numbered))]
fn node_of(rt: &impl Abort, alloc: Global) -> (Node<Global>, ArrayVec<Requester, 8>)
    ensures config { result.0.config ≡ two_types 1 1 1 1 1 4 }
    ensures agents { result.0.tracker.shape.agents ≡ 1 }
    ensures own { AreOwn result.0 result.1.items }
    ensures numbers { map requester_number result.1.items ≡ numbers 1 }
{
    Node::new(alloc, &sizes(rt)).expect(rt, "memory for a node")
}

/// A load of the one line, by the writer's agent.
fn script_for(rt: &impl Abort, alloc: Global, writer: Writer) -> Script<Global>
    ensures { result.writer ≡ writer }
{
    let (line, task) = (Line(0), Task::Load(WordNo(0)));
    let mut operations = Vec::new(alloc);
    let pushed = operations.push(Operation { line, task });
    pushed.expect(rt, "memory for a script");
    Script::new(writer.agent(), operations, writer)
}

/// The script of the one agent, with its tallies.
#[tactic(auto, using(crate::proofs::OneScript::is_fresh, crate::proofs::OneScript::is_first, chi_agent::proofs::Numbers::as_many))]
fn opened(rt: &impl Abort, alloc: Global) -> (Tallies, Vec<Script<Global>>)
    ensures fresh { AreFresh result.0 result.1.items }
    ensures writers { map writer_of result.1.items ≡ numbers 1 }
    ensures count { vec_len result.1 ≡ 1 }
{
    let made = chi_audit::tallies(alloc, 1);
    let (tallies, mut writers, _watcher) = made.expect(rt, "memory for tallies");
    let script = script_for(rt, alloc, writers.remove(0));
    let mut scripts = Vec::new(alloc);
    scripts.push(script).expect(rt, "memory for scripts");
    (tallies, scripts)
}

/// Exchanges the slice behind the lock of line 0 for another one at the beginning of the second turn, and back
/// at that of the third.
#[derive(Drop)]
struct Exchanger<'r, 'n, R> {
    rt: &'r R,
    node: &'n Node<Global>,
    other: Mutex<Slice<Global>>,
}

/// Exchanges the slice behind the lock of line 0 for the other.
fn swap_slices<R: Wait>(rt: &R, node: &Node<Global>, other: &Mutex<Slice<Global>>) {
    let Ok(mut slice) = node.lock(rt, Line(0)) else {
        return;
    };
    let mut other = other.lock(rt);
    swap(&mut *slice, &mut *other);
}

impl<R: Wait + Sync> Gate for Exchanger<'_, '_, R> {
    fn pass(&self, _agent: Agent, turn: u64) {
        if turn == 2 || turn == 3 {
            swap_slices(self.rt, self.node, &self.other);
        }
    }
}

/// A slice in its opening state, behind a lock of its own.
fn another(rt: &impl Abort, alloc: Global) -> Mutex<Slice<Global>> {
    let slice = Slice::new(alloc, &sizes(rt), 0);
    Mutex::new(slice.expect(rt, "memory for a slice"))
}

/// Whether the one agent met refusal 11.
fn has_met(ended: &Ended) -> bool {
    match ended.results.get(0) {
        Some(left) => left.not_open,
        None => false,
    }
}

// In the first turn the request is issued. In the second it isn't to be seen, the next issue is refused 11, and
// the script stops; from the third on the request is served.
#[test]
fn an_agent_that_meets_refusal_11_stops(rt: HostRuntime) {
    let (node, requesters) = node_of(&rt, rt.alloc());
    let (tallies, scripts) = opened(&rt, rt.alloc());
    let ended = {
        let gate = Exchanger {
            rt: &rt,
            node: &node,
            other: another(&rt, rt.alloc()),
        };
        let ran = run_agents(
            &rt,
            rt.alloc(),
            &node,
            &tallies,
            requesters,
            scripts,
            1,
            1_000,
            &gate,
        );
        ran.expect(&rt, "memory and threads for agents")
    };
    assert!(rt; has_met(&ended));
    let outcome = outcome_of(&rt, node, ended);
    assert_eq!(rt; (outcome.agents, outcome.finished), (1, 0));
    assert_eq!(rt; (outcome.loads, outcome.stores), (0, 0));
    assert!(rt; !outcome.coherent);
}

// One turn alone issues the request, which the slice that is then put behind the lock doesn't have.
#[test]
fn a_requester_that_does_not_agree_is_seen(rt: HostRuntime) {
    let (node, requesters) = node_of(&rt, rt.alloc());
    let (tallies, scripts) = opened(&rt, rt.alloc());
    let ran = run_agents(
        &rt,
        rt.alloc(),
        &node,
        &tallies,
        requesters,
        scripts,
        1,
        1,
        &OpenGate,
    );
    let ended = ran.expect(&rt, "memory and threads for agents");
    assert!(rt; !has_met(&ended));
    swap_slices(&rt, &node, &another(&rt, rt.alloc()));
    assert!(rt; !outcome_of(&rt, node, ended).coherent);
}
