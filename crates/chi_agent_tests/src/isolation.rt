//! Agents that take turns on one thread: a turn changes the line that it draws alone.

ghost use Rattle.std.specs.Prelude.{◌≡◌, All, vec_len};
ghost use Rattle.chi_node.specs.Node.{IsOwn};
ghost use Rattle.chi_audit.specs.Tallies.{IsFresh};
ghost use Rattle.chi_agent.specs.Script.{AreFresh};

use crate::bench::{SEED, eight_sizes, node_of, on, opened};
use crate::guests::{Guest, guests_of};
use crate::seen_lines::SeenLines;
use chi_agent::{Draws, OpenGate, Runner, Script};
use chi_audit::Tallies;
use chi_flit::{Line, Operation, Task, WordNo};
use chi_node::Node;
use std::alloc::Global;
use std::process::Abort;
use std::sync::Wait;

/// What agent `own` of eight does: it stores to its line and writes it back, and loads and drops the next.
fn neighbours(own: u8, next: u8) -> [Operation; 4] {
    let value = u64::from(own).saturating_add(1);
    [
        on(own, Task::Store(WordNo(0), value)),
        on(own, Task::WriteBack),
        on(next, Task::Load(WordNo(0))),
        on(next, Task::Drop),
    ]
}

/// The scripts of eight agents, each of which goes to its neighbour's line.
fn eight_scripts() -> [[Operation; 4]; 8] {
    [
        neighbours(0, 1),
        neighbours(1, 2),
        neighbours(2, 3),
        neighbours(3, 4),
        neighbours(4, 5),
        neighbours(5, 6),
        neighbours(6, 7),
        neighbours(7, 0),
    ]
}

/// An agent of the node, and the words that it draws, once more.
#[derive(Drop)]
struct Mover<'t, 'n> {
    node: &'n Node<Global>,
    runner: Runner<'t, Global>,
    words: Draws,
    ghost own: { IsOwn node.now runner.player.requester },
}

impl<'t, 'n> Mover<'t, 'n> {
    /// It begins the script, which is its own.
    fn new(
        rt: &impl Abort,
        tallies: &'t Tallies,
        script: Script<Global>,
        guest: Guest<'n>,
    ) -> Mover<'t, 'n>
        requires { IsFresh tallies.now script.writer }
    {
        let Guest { node, requester } = guest;
        let agent = requester.number();
        assert!(rt; script.agent().0 == agent.0);
        let draws = Draws::new(SEED, agent);
        let runner = Runner::new(tallies, script, requester, draws);
        Mover {
            node,
            runner,
            words: Draws::new(SEED, agent),
        }
    }

    /// A turn, and the line that it drew.
    fn turn<R: Wait>(&mut self, rt: &R) -> Line {
        let lines = u32::from(self.node.config().lines());
        self.runner.turn(rt, self.node, &OpenGate);
        Line((self.words.next() % lines) as u8)
    }
}

/// The requesters with their scripts, in the same order.
fn movers_of<'t, 'n>(
    rt: &impl Abort,
    alloc: Global,
    tallies: &'t Tallies,
    guests: Vec<Guest<'n>>,
    mut scripts: Vec<Script<Global>>,
) -> Vec<Mover<'t, 'n>>
    requires { AreFresh tallies.now scripts.items }
{
    let mut movers = Vec::new(alloc);
    for guest in guests {
        assert!(rt; !scripts.is_empty());
        let mover = Mover::new(rt, tallies, scripts.remove(0), guest);
        movers.push(mover).expect(rt, "memory for agents");
    }
    movers
}

/// Each takes a turn, in rising order, and every slice is looked at after it.
fn round<R: Abort + Wait>(rt: &R, movers: &mut Vec<Mover<'_, '_>>, seen_lines: &mut SeenLines<'_>) {
    for mover in movers.iter_mut() {
        let agent = mover.runner.player.requester.number();
        let line = mover.turn(rt);
        seen_lines.follow(rt, agent, line);
    }
}

/// Whether all have ended.
fn have_ended(movers: &[Mover<'_, '_>]) -> bool {
    let mut ended = true;
    for mover in movers {
        ended &= mover.runner.player.has_ended();
    }
    ended
}

/// Whether all scripts have finished.
fn have_finished(movers: &[Mover<'_, '_>]) -> bool {
    let mut finished = true;
    for mover in movers {
        finished &= mover.runner.player.has_finished();
    }
    finished
}

#[test]
fn a_turn_changes_its_own_line_alone(rt: HostRuntime) {
    let (node, requesters) = node_of(&rt, rt.alloc(), &eight_sizes(&rt));
    let (tallies, scripts, _watcher) = opened(&rt, rt.alloc(), 8, &eight_scripts());
    let guests = guests_of(&rt, rt.alloc(), &node, requesters);
    let mut movers = movers_of(&rt, rt.alloc(), &tallies, guests, scripts);
    let mut seen_lines = SeenLines::new(&rt, rt.alloc(), &node);
    for _ in 0..100_000u32 {
        if have_ended(&movers) {
            break;
        }
        round(&rt, &mut movers, &mut seen_lines);
    }
    assert_eq!(rt; movers.len(), 8);
    assert!(rt; have_finished(&movers));
    assert_eq!(rt; seen_lines.recorded(), 16);
}
