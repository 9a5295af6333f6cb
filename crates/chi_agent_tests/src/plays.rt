//! Scripts that are played turn by turn, by one agent on a line of its own, and their windows.

ghost use Rattle.std.specs.Prelude.{◌≡◌, [], ◌∷◌};
ghost use Rattle.chi_slice.specs.Words.{two_types};

use chi_agent::{Operations, Player};
use chi_flit::{Line, Operation, Slot, Task, WordNo};
use chi_node::{SlotState, Tracker, parts};
use chi_slice::{Config, Slice};
use std::alloc::Global;
use std::marker::Model;
use std::process::Abort;

/// A slice of one line, its tracker with an entry of each of two types, and the agent that plays.
#[derive(Drop)]
struct Table {
    slice: Slice<Global>,
    tracker: Tracker<Global>,
    player: Player<Global>,
}

impl Model for Table {
    ghost use Rattle.std.specs.Prelude.{ℕ, ◌≡◌, [], ◌∷◌};
    ghost use Rattle.chi_flit.specs.declared.credit.Profile.TheVariants.{Two};
    ghost use Rattle.chi_node.specs.Words.{shape_of};

    ghost Value = { ℕ };

    ghost view = { λ t. t.player.requester.number };

    ghost invariant = { λ t. (t.slice.config.profile ≡ Two) × (t.player.requester.table ≡ t.tracker.table) × (t.player.requester.port.shape ≡ shape_of (1 ∷ 1 ∷ 0 ∷ 0 ∷ []) 1) };
}

/// A node of one agent, one line, an entry of each of two types, and a journal of two records.
fn node(rt: &impl Abort) -> Config
    ensures { result ≡ two_types 1 1 1 1 1 2 }
{
    Config::new(1, 1, 1, 1, 1, 2).expect(rt, "sizes in their limits")
}

impl Table {
    /// The parts of such a node, and an agent with these tasks on its line.
    fn new(rt: &impl Abort, alloc: Global, tasks: &[Task]) -> Table {
        let made = parts(alloc, &node(rt));
        let (mut slices, tracker, mut requesters) = made.expect(rt, "memory for a node");
        let requester = requesters.pop().expect(rt, "a requester");
        let slice = slices.pop().expect(rt, "a slice");
        let mut script = Vec::new(alloc);
        for task in tasks {
            let line = Line(0);
            let operation = Operation { line, task: *task };
            script.push(operation).expect(rt, "memory for a script");
        }
        let player = Player::new(requester, Operations::new(script));
        Table {
            slice,
            tracker,
            player,
        }
    }

    /// A turn for this word.
    fn turn(&mut self, x: u32) -> bool {
        self.player.turn_on(&mut self.slice, &self.tracker, x)
    }

    /// How many turns for this word do something, one after the other.
    fn turns(&mut self, x: u32) -> u32 {
        for done in 0..40 {
            if !self.turn(x) {
                return done;
            }
        }
        40
    }
}

const STORE: Task = Task::Store(WordNo(0), 7);

const LOAD: Task = Task::Load(WordNo(0));

/// A script, how many turns do something, the loads and stores that are done, and whether it has stopped.
type Script = (&'static [Task], u32, (u64, u64), bool);

const SCRIPTS: [Script; 2] = [
    (
        &[STORE, Task::WriteBack, LOAD, Task::Drop],
        19,
        (1, 1),
        false,
    ),
    // the journal has room for two records; the load that is refused is a turn too
    (&[STORE, LOAD, LOAD], 8, (1, 1), true),
];

/// Whether the script has ended so.
fn ends(player: &Player<Global>, counts: (u64, u64), stopped: bool) -> bool {
    player.has_ended()
        && player.stopped == stopped
        && player.has_finished() != stopped
        && !player.not_open
        && (player.loads, player.stores) == counts
}

#[test]
fn scripts_are_played_to_their_ends(rt: HostRuntime) {
    for (tasks, turns, counts, stopped) in &SCRIPTS {
        let mut table = Table::new(&rt, rt.alloc(), tasks);
        assert!(rt; !table.player.has_ended());
        assert_eq!(rt; table.turns(0), *turns);
        assert!(rt; ends(&table.player, *counts, *stopped), "{tasks:?}");
    }
}

#[test]
fn the_word_picks_the_delivery(rt: HostRuntime) {
    let mut table = Table::new(&rt, rt.alloc(), &[STORE, Task::WriteBack]);
    // a read, its store, and the issue of the write-back: an arrival is enabled now, and a CompAck
    for _ in 0..6 {
        assert!(rt; table.turn(0));
    }
    assert!(rt; table.turn(1));
    let requester = &table.player.requester;
    assert!(rt; requester.slot(Slot(0)).state == SlotState::Idle);
    assert!(rt; requester.slot(Slot(1)).state == SlotState::Sent);
}

/// Nine drops on the lines 0 to 8.
fn nine(rt: &impl Abort, alloc: Global) -> Operations<Global> {
    let mut script = Vec::new(alloc);
    for line in 0..9 {
        let (line, task) = (Line(line), Task::Drop);
        let operation = Operation { line, task };
        script.push(operation).expect(rt, "memory for a script");
    }
    Operations::new(script)
}

/// Whether the eligible operations on the lines 3, 4, 7 and 8 have these places.
fn are_eligible(operations: &Operations<Global>, places: [Option<usize>; 4]) -> bool {
    let found = [3, 4, 7, 8].map(|line| operations.eligible(Line(line)).map(|place| place.0));
    found == places
}

#[test]
fn the_window_has_eight_unfinished_operations(rt: HostRuntime) {
    let mut operations = nine(&rt, rt.alloc());
    assert!(&rt; are_eligible(&operations, [Some(3), Some(4), Some(7), None]));
    let place = operations
        .eligible(Line(3))
        .expect(&rt, "line 3 is in the window");
    operations.finish(place);
    assert!(&rt; are_eligible(&operations, [None, Some(3), Some(6), Some(7)]));
}
