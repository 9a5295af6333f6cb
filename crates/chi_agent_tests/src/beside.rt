//! Agents that take turns behind a lock, beside the parts of another node: the same turns leave the same slice.

ghost use Rattle.std.specs.Prelude.{◌≡◌, [], ◌∷◌, All};
ghost use Rattle.chi_flit.specs.declared.credit.Profile.TheVariants.{Two};
ghost use Rattle.chi_slice.specs.Words.{two_types};
ghost use Rattle.chi_node.specs.Node.{IsOwn};
ghost use Rattle.chi_node.specs.Words.{shape_of};
ghost use Rattle.chi_agent.specs.Script.{AreFresh};

use crate::bench::{SEED, node_of, on, opened};
use arrayvec::ArrayVec;
use chi_agent::{Draws, OpenGate, Operations, Player, Runner, Script};
use chi_audit::Tallies;
use chi_flit::{CreditType, Line, Operation, Task, WordNo};
use chi_node::{Node, Requester, Tracker, parts};
use chi_slice::{Config, Slice};
use std::alloc::Global;
use std::process::Abort;
use std::sync::Wait;

/// Two requesters and two lines in one slice, with two entries of type 0 and one of type 1.
fn sizes(rt: &impl Abort) -> Config
    ensures { result ≡ two_types 2 2 1 2 1 16 }
{
    Config::new(2, 2, 1, 2, 1, 16).expect(rt, "sizes in their limits")
}

/// What an agent does on the two lines, which the other one wants too.
fn script_of(one: u8, other: u8) -> [Operation; 3] {
    let store = Task::Store(WordNo(0), 1);
    [on(one, store), on(one, Task::WriteBack), on(other, store)]
}

/// A slice of a node with two credit types.
#[derive(Drop)]
struct BareSlice {
    slice: Slice<Global>,
    ghost profile: { slice.config.profile ≡ Two },
}

/// An agent beside the tracker of its node, and the words that it draws.
#[derive(Drop)]
struct BareAgent<'k> {
    tracker: &'k Tracker<Global>,
    player: Player<Global>,
    draws: Draws,
    ghost table: { player.requester.table ≡ tracker.now.table },
    ghost shape: { player.requester.port.shape ≡ shape_of (2 ∷ 1 ∷ 0 ∷ 0 ∷ []) 2 },
}

impl<'k> BareAgent<'k> {
    /// An agent without a lock at the beginning of its script.
    fn new(
        rt: &impl Abort,
        alloc: Global,
        tracker: &'k Tracker<Global>,
        requester: Requester,
        script: &[Operation],
    ) -> BareAgent<'k>
        requires table { requester.table ≡ tracker.now.table }
        requires shape { requester.port.shape ≡ shape_of (2 ∷ 1 ∷ 0 ∷ 0 ∷ []) 2 }
    {
        let mut list = Vec::new(alloc);
        for operation in script {
            list.push(*operation).expect(rt, "memory for a script");
        }
        BareAgent {
            tracker,
            draws: Draws::new(SEED, requester.number()),
            player: Player::new(requester, Operations::new(list)),
        }
    }

    /// The turn of that number, which gives back of each type a credit that no request waits for, and where the slice
    /// has nothing to do, tends the type that is owed; whether it did something.
    fn turn(&mut self, slice: &mut BareSlice, number: u64) -> bool {
        let (tracker, x) = (self.tracker, self.draws.next());
        let requester = &mut self.player.requester;
        requester.see(tracker);
        let _ = requester.give_back(tracker, CreditType::T0);
        let _ = requester.give_back(tracker, CreditType::T1);
        if self.player.turn_on(&mut slice.slice, tracker, x) {
            return true;
        }
        let ty = [CreditType::T0, CreditType::T1][(number % 2) as usize];
        let _ = self.player.requester.tend(tracker, ty);
        false
    }
}

/// The first requester of the node that is left begins the first script, which is its own.
fn next_runner<'t>(
    rt: &impl Abort,
    node: &Node<Global>,
    tallies: &'t Tallies,
    scripts: &mut Vec<Script<Global>>,
    requesters: &mut ArrayVec<Requester, 8>,
) -> Runner<'t, Global>
    requires own { All (IsOwn node.now) requesters.old.items }
    requires fresh { AreFresh tallies.now scripts.old.items }
    ensures own { All (IsOwn node.now) requesters.new.items }
    ensures fresh { AreFresh tallies.now scripts.new.items }
    ensures runner { IsOwn node.now result.player.requester }
{
    assert!(rt; !scripts.is_empty() && !requesters.is_empty());
    let script = scripts.remove(0);
    let requester = requesters.remove(0);
    let agent = requester.number();
    assert!(rt; script.agent().0 == agent.0);
    Runner::new(tallies, script, requester, Draws::new(SEED, agent))
}

/// An agent's turn behind the lock and the same one on the parts do the same, and leave the same slice.
fn both<R: Abort + Wait>(
    rt: &R,
    node: &Node<Global>,
    runner: &mut Runner<'_, Global>,
    slice: &mut BareSlice,
    bare: &mut BareAgent<'_>,
)
    requires { IsOwn node.now runner.old.player.requester }
    ensures { IsOwn node.now runner.new.player.requester }
{
    let done = runner.turn(rt, node, &OpenGate);
    assert_eq!(rt; bare.turn(slice, runner.turns), done);
    let locked = node.lock(rt, Line(0)).expect(rt, "a line of the node");
    assert!(rt; locked.equals(&slice.slice));
}

/// Both agents take turns, the one and then the other, more than bring both scripts to their ends.
fn play<R: Abort + Wait>(
    rt: &R,
    node: &Node<Global>,
    first: &mut Runner<'_, Global>,
    second: &mut Runner<'_, Global>,
    slice: &mut BareSlice,
    one: &mut BareAgent<'_>,
    two: &mut BareAgent<'_>,
)
    requires first { IsOwn node.now first.old.player.requester }
    requires second { IsOwn node.now second.old.player.requester }
    ensures first { IsOwn node.now first.new.player.requester }
    ensures second { IsOwn node.now second.new.player.requester }
{
    for _ in 0..1_000u32 {
        both(rt, node, first, slice, one);
        both(rt, node, second, slice, two);
    }
}

/// The slices of the node, which is closed.
fn closed(node: Node<Global>, one: Player<Global>, two: Player<Global>) -> Vec<Slice<Global>>
    requires agents { node.tracker.shape.agents ≡ 2 }
    requires one { IsOwn node one.requester }
    requires two { IsOwn node two.requester }
{
    let mut requesters = ArrayVec::new();
    requesters.push(one.requester);
    requesters.push(two.requester);
    let (slices, _) = node.close(requesters);
    slices
}

// What a lock holds is known to no clause: so the slice is compared after each turn, and once the node is closed.
#[test]
fn locks_leave_what_turns_on_the_parts_leave(rt: HostRuntime) {
    let scripts = [script_of(0, 1), script_of(1, 0)];
    let made = parts(rt.alloc(), &sizes(&rt));
    let (mut slices, tracker, mut bare) = made.expect(&rt, "memory for the parts");
    let mut slice = BareSlice {
        slice: slices.remove(0),
    };
    let mut one = BareAgent::new(&rt, rt.alloc(), &tracker, bare.remove(0), &scripts[0]);
    let mut two = BareAgent::new(&rt, rt.alloc(), &tracker, bare.remove(0), &scripts[1]);
    let (node, mut own) = node_of(&rt, rt.alloc(), &sizes(&rt));
    let (tallies, mut all, _watcher) = opened(&rt, rt.alloc(), 2, &scripts);
    let mut first = next_runner(&rt, &node, &tallies, &mut all, &mut own);
    let mut second = next_runner(&rt, &node, &tallies, &mut all, &mut own);
    play(
        &rt,
        &node,
        &mut first,
        &mut second,
        &mut slice,
        &mut one,
        &mut two,
    );
    assert!(&rt; first.player.has_finished() && second.player.has_finished());
    let ended = closed(node, first.player, second.player);
    assert!(&rt; ended.len() == 1 && ended[0].equals(&slice.slice));
}
