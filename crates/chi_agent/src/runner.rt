//! An agent between its turns.

ghost use Rattle.std.specs.Prelude.{◌≡◌, ◌+◌, ◌%◌, ◌^◌};
ghost use Rattle.chi_node.specs.Agree.{KeepsAgreement};
ghost use Rattle.chi_node.specs.Calls.{IsSameRequester, IsSameSlice};
ghost use Rattle.chi_node.specs.Parts.{HasTypes};
ghost use Rattle.chi_node.specs.Node.{IsOwn};
ghost use Rattle.chi_agent.specs.Turns.{count_after, TurnsTo};
ghost use Rattle.chi_agent.specs.Draws.{word_after};
ghost use Rattle.chi_agent.specs.Lives.{opening_player, writer_after, Turned};
ghost use Rattle.chi_audit.specs.Tallies.{IsFresh};

use crate::draws::Draws;
use crate::gates::Gate;
use crate::operations::Operations;
use crate::player::Player;
use crate::progress::Progress;
use crate::scripts::Script;
use chi_audit::Tallies;
use chi_node::{Node, Requester, Tracker};
use chi_slice::Slice;
use std::alloc::Allocator;
use std::sync::Wait;

/// What an agent has of its script, its draws, the number of its turns done, and where it tells its tally.
/// Source: `docs/FORMATS.md`, "A turn".
#[derive(Drop)]
pub struct Runner<'t, A: Allocator> {
    pub player: Player<A>,
    pub draws: Draws,
    pub turns: u64,
    pub progress: Progress<'t>,
}

impl<'t, A: Allocator> Runner<'t, A> {
    /// The requester begins the script with these draws: no turn is done.
    ///
    /// Conditions: the script and the draws are those of the requester's agent; and the script's writer is one of
    /// the tallies, and has stored nothing.
    /// Source: `docs/FORMATS.md`, "A turn".
    pub fn new(
        tallies: &'t Tallies,
        script: Script<A>,
        requester: Requester,
        draws: Draws,
    ) -> Runner<'t, A>
        requires script { script.writer.agent ≡ requester.number }
        requires draws { draws.stream ≡ requester.number }
        requires fresh { IsFresh tallies.now script.writer }
        ensures player { result.player ≡ opening_player requester script.operations }
        ensures requester { result.player.requester ≡ requester }
        ensures draws { result.draws ≡ draws }
        ensures turns { result.turns ≡ 0 }
        ensures tally { result.progress ≡ script.writer }
    {
        let Script {
            operations,
            writer,
            ..
        } = script;
        Runner {
            player: Player::new(requester, Operations::new(operations)),
            draws,
            turns: 0,
            progress: Progress::new(tallies, writer),
        }
    }

    /// What a turn does on the slice of a line that was drawn by `x`: one call, a skip or a finish, and true;
    /// or nothing, and false. No memory is taken, nothing is waited for, and draws, turns and tally stay.
    ///
    /// Conditions: the tracker is the requester's, and it has entries of each type of the slice's profile.
    /// Source: `docs/FORMATS.md`, "A turn".
    pub fn turn_on<B: Allocator, C: Allocator>(
        &mut self,
        slice: &mut Slice<B>,
        tracker: &Tracker<C>,
        x: u32,
    ) -> bool
        requires table { self.old.player.requester.table ≡ tracker.now.table }
        requires types { HasTypes slice.old.config self.old.player.requester.port.shape }
        ensures turns { TurnsTo slice.old slice.new x self.old.player self.new.player result }
        ensures agreement { KeepsAgreement slice.old slice.new self.old.player.requester self.new.player.requester }
        ensures same { IsSameRequester self.old.player.requester self.new.player.requester }
        ensures slice { IsSameSlice slice.old slice.new }
        ensures draws { self.new.draws ≡ self.old.draws }
        ensures count { self.new.turns ≡ self.old.turns }
        ensures tally { self.new.progress ≡ self.old.progress }
    {
        self.player.turn_on(slice, tracker, x)
    }

    /// A whole turn: the gate is passed; credits are seen, and those that no request waits for are given
    /// back; a word is drawn, which says the line; and under the lock of the line's slice `turn_on` is called.
    /// Where that does nothing, what is owed of a type is tended. Then the tally is stored, once: turns, loads and
    /// stores, none below that of the last. It answers what `turn_on` answered, and may wait for another thread.
    ///
    /// Condition: the requester is the node's own.
    /// Source: `docs/FORMATS.md`, "A turn".
    pub fn turn<R: Wait, B: Allocator, G: Gate>(&mut self, rt: &R, node: &Node<B>, gate: &G) -> bool
        requires { IsOwn node.now self.old.player.requester }
        ensures turn { Turned node.now.config (word_after self.old.draws) self.new.turns
            self.old.player self.new.player result }
        ensures count { self.new.turns ≡ count_after self.old.turns }
        ensures draws { self.new.draws
            ≡ record self.old.draws { word_pos = (self.old.draws.word_pos + 1) % 2 ^ 68 } }
        ensures tally { self.new.progress ≡ writer_after self.old.progress self.new.turns
            self.new.player.loads self.new.player.stores }
        ensures same { IsSameRequester self.old.player.requester self.new.player.requester }
    {
        let turn = self.turns.saturating_add(1);
        gate.pass(self.player.requester.number(), turn);
        let x = self.draws.next();
        let done = self.player.take(rt, node, turn, x);
        self.turns = turn;
        self.progress
            .tell(rt, turn, self.player.loads, self.player.stores);
        done
    }
}
