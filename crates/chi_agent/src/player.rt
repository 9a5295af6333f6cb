//! An agent that plays its script, and one turn of it.

ghost use Rattle.std.specs.Prelude.{◌≡◌, ◌↔◌, IsTrue, false};
ghost use Rattle.chi_node.specs.Agree.{KeepsAgreement};
ghost use Rattle.chi_node.specs.Calls.{IsSameRequester, IsSameSlice};
ghost use Rattle.chi_node.specs.Parts.{HasTypes};
ghost use Rattle.chi_agent.specs.Choice.{drawn_line, IsInWindow, IsOwnChoice};
ghost use Rattle.chi_agent.specs.Turns.{after_issue, after_refusal, player_after_step, player_after_answer, count_after, player_without, AreIdle, HasEnded, IsFinished, TurnsTo};

use crate::calls::perform;
use crate::choice::{Choice, choose, line_of};
use crate::operations::{OperationPlace, Operations};
use chi_flit::{Kind, Line, Refusal, Slot, Step};
use chi_node::{Requester, SlotState, Tracker};
use chi_slice::Slice;
use std::alloc::Allocator;

/// An agent that plays its script: its requester, the operations that aren't finished, and what it met.
/// Source: `docs/FORMATS.md`, "A turn".
#[derive(Drop)]
pub struct Player<A: Allocator> {
    pub requester: Requester,
    pub operations: Operations<A>,
    /// The script met refusal 1 (JournalFull) or 11 (NotOpen), and goes no further.
    pub stopped: bool,
    /// A call was refused 11 (NotOpen).
    pub not_open: bool,
    /// The loads that were answered.
    pub loads: u64,
    /// The stores that were answered.
    pub stores: u64,
}

/// Whether every slot of the requester's account is Idle.
fn are_idle(requester: &Requester) -> bool
    ensures { IsTrue result ↔ AreIdle requester.now.slots }
{
    let mut idle = true;
    for slot in 0..8 {
        idle &= matches!(requester.slot(Slot(slot)).state, SlotState::Idle);
    }
    idle
}

impl<A: Allocator> Player<A> {
    /// An agent that has played nothing of its script.
    /// Source: `docs/FORMATS.md`, "A turn".
    pub fn new(requester: Requester, operations: Operations<A>) -> Player<A>
        ensures { result ≡ record {
          requester = requester;
          operations = operations;
          stopped = false;
          not_open = false;
          loads = 0;
          stores = 0;
        } }
    {
        Player {
            requester,
            operations,
            stopped: false,
            not_open: false,
            loads: 0,
            stores: 0,
        }
    }

    /// Whether no operation of the script is left unfinished. A script that has stopped keeps its operation.
    /// Source: `docs/FORMATS.md`, "A turn".
    pub fn has_finished(&self) -> bool
        ensures { IsTrue result ↔ IsFinished self.now }
    {
        self.operations.is_empty()
    }

    /// Whether the script is finished or has stopped, and every slot of the account is Idle.
    /// Source: `docs/FORMATS.md`, "A turn".
    pub fn has_ended(&self) -> bool
        ensures { IsTrue result ↔ HasEnded self.now }
    {
        (self.stopped || self.has_finished()) && are_idle(&self.requester)
    }

    /// The operation at the place is finished.
    fn finish(&mut self, place: OperationPlace)
        requires { IsInWindow self.old.operations place }
        ensures after { self.new ≡ player_without place self.old }
        ensures requester { self.new.requester ≡ self.old.requester }
    {
        self.operations.finish(place);
    }

    /// What the script makes of an issue: that of a copy-back or an Evict is marked.
    fn note_issue(&mut self, kind: Kind, place: OperationPlace)
        requires { IsInWindow self.old.operations place }
        ensures after { self.new ≡ after_issue kind place self.old }
        ensures requester { self.new.requester ≡ self.old.requester }
    {
        match kind {
            Kind::Evict | Kind::WriteBackFull | Kind::WriteCleanFull | Kind::WriteEvictFull => {
                self.operations.issue(place);
            }
            Kind::ReadNotSharedDirty | Kind::ReadShared | Kind::ReadUnique | Kind::CleanUnique => {}
        }
    }

    /// What the script makes of a step that was done for the operation at the place.
    fn note_step(&mut self, step: Step, place: OperationPlace)
        requires { IsInWindow self.old.operations place }
        ensures after { self.new ≡ player_after_step step place self.old }
        ensures requester { self.new.requester ≡ self.old.requester }
    {
        match step {
            Step::Load(_) => {
                self.loads = self.loads.saturating_add(1);
                self.finish(place);
            }
            Step::Store(_, _) => {
                self.stores = self.stores.saturating_add(1);
                self.finish(place);
            }
            Step::Drop => self.finish(place),
            Step::Issue(kind, _) => self.note_issue(kind, place),
            _ => {}
        }
    }

    /// What the script makes of a refusal: 1 and 11 stop it.
    fn note_refusal(&mut self, refusal: Refusal)
        ensures after { self.new ≡ after_refusal refusal self.old }
        ensures requester { self.new.requester ≡ self.old.requester }
    {
        match refusal {
            Refusal::JournalFull => self.stopped = true,
            Refusal::NotOpen => {
                self.stopped = true;
                self.not_open = true;
            }
            _ => {}
        }
    }

    /// What the script makes of the answer to a choice.
    fn note(&mut self, choice: Choice, answer: Option<Refusal>)
        requires { IsOwnChoice self.old.operations choice }
        ensures after { self.new ≡ player_after_answer answer choice self.old }
        ensures requester { self.new.requester ≡ self.old.requester }
    {
        match (answer, choice) {
            (Some(refusal), _) => self.note_refusal(refusal),
            (None, Choice::Finish(place)) => self.finish(place),
            (None, Choice::Try(place, step)) => self.note_step(step, place),
            (None, Choice::Do(_)) => {}
        }
    }

    /// What one turn does on the slice of its line, for the word `x` of its draw: whether something was
    /// done, be it a skip, a finish or a call that was refused. The line is `x` modulo the number of lines.
    ///
    /// A request in phase Retried there is cancelled where Resend would be refused 2, and else resent where
    /// a credit allows it; else the eligible operation on the line is tried, unless the script has stopped;
    /// else, of the deliveries that wouldn't be refused, the one at place `(x / L) mod count` is done. Where
    /// all three come to nothing, and in a slice that hasn't the line, the answer is false and nothing
    /// changes.
    ///
    /// Refusals 1 (JournalFull) and 11 (NotOpen) stop the script; a call that is refused changes nothing
    /// else. Conditions: the tracker is the requester's, and it has entries of each type of the node's
    /// profile. Whoever agreed with the slice before agrees with it after, and so does the requester with
    /// the node's other slices.
    /// Source: `docs/FORMATS.md`, "A turn".
    pub fn turn_on<B: Allocator, C: Allocator>(
        &mut self,
        slice: &mut Slice<B>,
        tracker: &Tracker<C>,
        x: u32,
    ) -> bool
        requires table { self.old.requester.table ≡ tracker.now.table }
        requires types { HasTypes slice.old.config self.old.requester.port.shape }
        ensures turns { TurnsTo slice.old slice.new x self.old self.new result }
        ensures agreement { KeepsAgreement slice.old slice.new self.old.requester self.new.requester }
        ensures same { IsSameRequester self.old.requester self.new.requester }
        ensures slice { IsSameSlice slice.old slice.new }
    {
        let line = line_of(slice.config(), x);
        self.turn_at(slice, tracker, line, x)
    }

    /// What `turn_on` does, lent the line that the word `x` drew, as whoever locked its slice has it.
    /// Source: `docs/FORMATS.md`, "A turn".
    pub fn turn_at<B: Allocator, C: Allocator>(
        &mut self,
        slice: &mut Slice<B>,
        tracker: &Tracker<C>,
        line: Line,
        x: u32,
    ) -> bool
        requires table { self.old.requester.table ≡ tracker.now.table }
        requires types { HasTypes slice.old.config self.old.requester.port.shape }
        requires line { line ≡ drawn_line slice.old.config x }
        ensures turns { TurnsTo slice.old slice.new x self.old self.new result }
        ensures agreement { KeepsAgreement slice.old slice.new self.old.requester self.new.requester }
        ensures same { IsSameRequester self.old.requester self.new.requester }
        ensures slice { IsSameSlice slice.old slice.new }
    {
        let (requester, operations) = (&self.requester, &self.operations);
        let Some(choice) = choose(slice, requester, operations, self.stopped, line, x) else {
            return false;
        };
        let answer = perform(slice, tracker, &mut self.requester, line, choice);
        self.note(choice, answer);
        true
    }
}
