//! A slice: some of the node's lines, and all that belongs to them.

ghost use Rattle.std.specs.Prelude.{◌≡◌, ◌↔◌, ◌<◌, ◌&&◌, nat_lt, true, false, None, Some, is_some, replicate, IfErr, IfOk, IfSome, IsTrue, OnErr};
ghost use Rattle.chi_flit.specs.Refusal.{refusal_of};
ghost use Rattle.chi_flit.specs.declared.numbers.Slot.{Slot};
ghost use Rattle.chi_line.specs.LineState.{opening_line};
ghost use Rattle.chi_line.specs.RefusalRows.{is_of_actions};
ghost use Rattle.chi_line.specs.Step.{is_step_in_range};
ghost use Rattle.chi_flit.specs.Config.{are_in_limits};
ghost use Rattle.chi_slice.specs.Index.{SlotsInRange};
ghost use Rattle.chi_slice.specs.Loading.{IsLoadable};
ghost use Rattle.chi_slice.specs.Protocol.{HasLastValue, IsEnabled, IsOpening, WouldComplete, refused, refused_with};
ghost use Rattle.chi_slice.specs.Run.{IsDone, IsRun};
ghost use Rattle.chi_slice.specs.Slice.{Computed, ComputedUnder, IsRowOf, SliceKept, conditions_under, flits_refusal, is_in_range, is_slot_used, each_credit, opening_slice, range_refusal, action_refusal, refused_under, row_count, row_of_line, run_after, slice_with, uses};

mod agreement;
mod looks;

use crate::loading::{are_parts_kept, places_in};
use crate::places::RequestPlaces;
use crate::records::{is_step_in_range, note};
use chi_flit::{Action, Agent, Config, Effect, Line, NoMemory, Refusal, Slot, Step};
use chi_journal::Journal;
use chi_line::{ActionOutcome, Conditions};
use std::alloc::Allocator;
use std::marker::Model;

/// A slice of the home, with the requesters' copies of its lines and the flits in flight for them: line
/// `l` of the node is in slice `l mod slices`. Contracts see it as a `SliceState`; each of its lines is
/// coherent whenever it can be looked at.
/// Source: `docs/PROTOCOL.md`, "The system" and "Coherence".
#[derive(Drop)]
pub struct Slice<A: Allocator> {
    config: Config,
    index: u8,
    lines: Vec<chi_line::CoherentLine, A>,
    journal: Journal<A>,
    places: RequestPlaces,
}

impl<A: Allocator> Model for Slice<A> {
    ghost use Rattle.chi_slice.specs.Slice.{SliceState, slice_with};
    ghost use Rattle.chi_slice.specs.Index.{IsSliceIndexed};

    ghost Value = { SliceState };

    ghost view = { λ s. slice_with s.config s.index s.lines.items s.journal };

    ghost invariant = { λ s. IsSliceIndexed s.config s.index s.lines.items s.journal s.places };
}

/// A credit of each type, by the type's number.
/// Source: `docs/PROTOCOL.md`, "The actions".
pub const EACH_CREDIT: [bool; 4] = [true; 4];

/// Where an action is done: the row of its line, and what it needs to know of the slice beside the line.
#[derive(Clone, Copy)]
struct ActionRow {
    row: usize,
    conditions: Conditions,
}

/// So many lines in the opening state.
fn opening_lines<A: Allocator>(
    alloc: A,
    rows: u8,
) -> Result<Vec<chi_line::CoherentLine, A>, NoMemory>
    ensures { IfOk result (λ lines. lines.items ≡ replicate rows opening_line) }
{
    let mut lines = Vec::with_capacity(alloc, usize::from(rows))?;
    for _ in 0..rows {
        lines.push(chi_line::CoherentLine::new())?;
    }
    Ok(lines)
}

/// Lines that are the same as these.
fn lines_in<A: Allocator>(
    alloc: A,
    lines: &[chi_line::CoherentLine],
) -> Result<Vec<chi_line::CoherentLine, A>, NoMemory>
    ensures { IfOk result (λ copies. copies.items ≡ lines.now) }
{
    let mut copies = Vec::with_capacity(alloc, lines.len())?;
    for line in lines {
        copies.push(line.clone()?)?;
    }
    Ok(copies)
}

/// Whether the sizes are the same.
#[tactic(auto, using(crate::proofs::Equal::sizes))]
fn are_same_sizes(one: &Config, other: &Config) -> bool
    ensures { IsTrue result ↔ (one.now ≡ other.now) }
{
    one == other
}

/// Whether the lines are the same, each with its flits.
#[tactic(auto, using(crate::proofs::Equal::all_lines))]
fn are_same_lines(one: &[chi_line::CoherentLine], other: &[chi_line::CoherentLine]) -> bool
    ensures { IsTrue result ↔ (one.now ≡ other.now) }
{
    one == other
}

/// How many lines are in the slice.
pub(crate) fn row_count(config: &Config, index: u8) -> u8
    requires { index < config.now.slices }
    ensures count { result ≡ row_count config.now index }
    ensures limits { are_in_limits config.now ≡ true }
{
    let slices = config.slices();
    (config.lines() - 1 - index) / slices + 1
}

/// Whether an action's agent is in the node, and the numbers of its step are in their ranges.
fn can_take(config: &Config, action: Action) -> bool
    ensures { result ≡ (nat_lt action.agent.0 config.now.agents && is_step_in_range action.step) }
{
    action.agent.0 < config.agents() && is_step_in_range(action.step)
}

impl<A: Allocator + Copy> Slice<A> {
    /// The slice of that index in a node of that size, in the opening state: memory 0, no copies, nothing
    /// in flight. All memory that the slice ever needs is found here; refused where it runs out.
    ///
    /// Conditions: the index is below the node's number of slices.
    /// Source: `docs/PROTOCOL.md`, "One line".
    pub fn new(alloc: A, config: &Config, index: u8) -> Result<Slice<A>, NoMemory>
        requires { index < config.now.slices }
        ensures opening { IfOk result (λ slice. IsOpening slice) }
        ensures parts { IfOk result (λ slice. slice ≡ opening_slice config.now index) }
    {
        let lines = opening_lines(alloc, row_count(config, index))?;
        let journal = Journal::with_limit(alloc, config.lines(), config.journal())?;
        Ok(Slice {
            config: *config,
            index,
            lines,
            journal,
            places: RequestPlaces::new(),
        })
    }

    /// A slice that is the same: what each does afterwards leaves the other as it is. All memory that it ever
    /// needs is found here; refused where it runs out.
    /// Source: `docs/PROTOCOL.md`, "The system".
    pub fn clone_in(&self, alloc: A) -> Result<Slice<A>, NoMemory>
        ensures { IfOk result (λ slice. slice ≡ self.now) }
    {
        let lines = lines_in(alloc, &self.lines)?;
        let journal = self.journal.clone_in(alloc)?;
        Ok(Slice {
            config: self.config,
            index: self.index,
            lines,
            journal,
            places: self.places.clone()?,
        })
    }
}

impl<A: Allocator> Slice<A> {
    /// The slice of that index in a node of that size, of these lines in the order of their rows, and this
    /// journal. Takes no memory.
    ///
    /// `None` exactly where these make no slice: the index or the number of lines isn't that of a slice of such a
    /// node, a line or the journal doesn't keep what it keeps in every slice, or a slot is in use at two lines
    /// or has a number above 7.
    /// Source: `docs/PROTOCOL.md`, "One line", "What a line keeps" and "Agreement".
    pub fn of_parts(
        config: &Config,
        index: u8,
        lines: Vec<chi_line::CoherentLine, A>,
        journal: Journal<A>,
    ) -> Option<Slice<A>>
        ensures parts { IfSome result (λ slice. slice
            ≡ slice_with config.now index lines.items journal) }
        ensures exactly { IsTrue (is_some result)
            ↔ IsLoadable (slice_with config.now index lines.items journal) }
    {
        if !are_parts_kept(config, index, &lines, &journal) {
            return None;
        }
        match places_in(config, index, &lines) {
            Some(places) => Some(Slice {
                config: *config,
                index,
                lines,
                journal,
                places,
            }),
            None => None,
        }
    }

    /// The row of an action's line, where all its numbers are in their ranges and its line is in this slice.
    fn row_in_range(&self, action: Action) -> Option<u8>
        ensures inside { is_some result ≡ is_in_range self.now action }
        ensures row { IfSome result (λ row. row ≡ row_of_line self.now action.line.0) }
        ensures kept { SliceKept self.now }
    {
        if !can_take(&self.config, action) {
            return None;
        }
        self.config.row_in(self.index, action.line.0)
    }

    /// Whether the agent's slot is in use at any line of the slice.
    fn uses(&self, agent: Agent, slot: Slot) -> bool
        requires agent { agent.0 < 8 }
        requires slot { slot.0 < 8 }
        ensures { result ≡ uses self.now agent.0 slot }
    {
        self.places.is_used(agent, slot)
    }

    /// Whether the slot that a step of the agent names is in use.
    fn is_slot_used(&self, agent: Agent, step: Step) -> bool
        requires agent { agent.0 < 8 }
        requires step { is_step_in_range step ≡ true }
        ensures { result ≡ is_slot_used self.now agent.0 step }
    {
        match step {
            Step::Issue(_, slot) => self.uses(agent, slot),
            _ => false,
        }
    }

    /// What an action needs to know of the slice beside its line, with these credits.
    fn conditions(&self, action: Action, credits: [bool; 4]) -> Conditions
        requires agent { action.agent.0 < 8 }
        requires step { is_step_in_range action.step ≡ true }
        ensures { result ≡ conditions_under credits self.now action }
    {
        Conditions {
            slot_used: self.is_slot_used(action.agent, action.step),
            journal_full: self.journal.is_full(),
            credits,
            profile: self.config.profile(),
        }
    }

    /// Where an action is done. Refused 10 (OutOfRange) exactly where one of its numbers is outside its
    /// range, or its line in another slice.
    fn action_row(&self, action: Action, credits: [bool; 4]) -> Result<ActionRow, Refusal>
        ensures refusal { refusal_of result ≡ range_refusal self.now action }
        ensures row { IfOk result (λ found. found.row ≡ row_of_line self.now action.line.0) }
        ensures conditions { IfOk result (λ found. found.conditions
            ≡ conditions_under credits self.now action) }
    {
        match self.row_in_range(action) {
            Some(row) => Ok(ActionRow {
                row: usize::from(row),
                conditions: self.conditions(action, credits),
            }),
            None => Err(Refusal::OutOfRange),
        }
    }

    /// Does one action. It changes its own line alone, by the action's row, and puts the record of a load or
    /// store into the journal; it takes no memory. A load has the value last stored to its word. No flit is lost or made: those in flight for the line
    /// afterwards, with the one that the action takes, are those before, with those that it sends.
    ///
    /// Refused 10 (OutOfRange) for a number outside its range or a line of another slice, then in the
    /// order of the action's row, and so never 8, 11 or 12; nothing changes then. It is done exactly where it
    /// is enabled.
    ///
    /// Of the representation, for callers that compute with it: `computed`.
    /// Source: `docs/PROTOCOL.md`, "The actions", "Refusals" and "Messages".
    pub fn act(&mut self, action: Action) -> Result<Effect, Refusal>
        ensures refused { refusal_of result ≡ refused self.old action }
        ensures numbers { IfErr result (λ refusal. is_of_actions refusal ≡ true) }
        ensures enabled { IsEnabled self.old action ↔ (refusal_of result ≡ None) }
        ensures protocol { IfOk result (λ effect. IsDone self.old action effect self.new) }
        ensures loads { IfOk result (λ effect. HasLastValue self.old action effect) }
        ensures computed { Computed self.old action result self.new }
        ensures err { OnErr result (self.new ≡ self.old) }
    {
        let outcome = self.act_with(action, EACH_CREDIT)?;
        Ok(outcome.effect)
    }

    /// Does one action with the credits of its requester, as `act` does it: by the type's number, whether there is
    /// one for a Resend.
    ///
    /// Refused as by `act`, and also 12 (NoCredit) a Resend without a credit of its request's type; nothing changes
    /// then.
    ///
    /// Of the representation, for callers that compute with it: `computed`.
    /// Source: `docs/PROTOCOL.md`, "The actions" and "A requester and its calls".
    #[inline(always)]
    pub fn act_with(&mut self, action: Action, credits: [bool; 4]) -> Result<ActionOutcome, Refusal>
        ensures refused { refusal_of result ≡ refused_with credits self.old action }
        ensures protocol { IfOk result
            (λ outcome. IsDone self.old action outcome.effect self.new) }
        ensures loads { IfOk result (λ outcome. HasLastValue self.old action outcome.effect) }
        ensures computed { ComputedUnder credits self.old action result self.new }
        ensures err { OnErr result (self.new ≡ self.old) }
    {
        match self.row_in_range(action) {
            Some(row) => self.act_in(row, action, credits),
            None => Err(Refusal::OutOfRange),
        }
    }

    /// The row of the line, in which the agent can act: whether both are there is asked once, for `flits_in`,
    /// `home_in` and `act_in`.
    ///
    /// Refused 10 (OutOfRange) exactly where the agent or the line is outside the node, or the line is in
    /// another slice.
    /// Source: `docs/PROTOCOL.md`, "Limits".
    #[tactic(auto, using(crate::proofs::AgentRows::row_there))]
    pub fn row_for(&self, agent: Agent, line: Line) -> Result<u8, Refusal>
        ensures row { IfOk result (IsRowOf self.now agent.0 line.0) }
        ensures refusal { refusal_of result ≡ flits_refusal self.now agent.0 line.0 }
        ensures kept { SliceKept self.now }
        ensures slots { SlotsInRange self.now }
    {
        match self.config.row_in(self.index, line.0) {
            Some(row) if agent.0 < self.config.agents() => Ok(row),
            _ => Err(Refusal::OutOfRange),
        }
    }

    /// Does one action in the row of its line with the credits of its requester, as `act_with` does it, and asks
    /// for neither the agent nor the line again.
    ///
    /// Refused as by `act_with`, but never 10; nothing changes then. Conditions: the row is the one that `row_for`
    /// of this slice answers, and the step's numbers are in their ranges.
    ///
    /// Of the representation, for callers that compute with it: `computed`.
    /// Source: `docs/PROTOCOL.md`, "The actions" and "A requester and its calls".
    #[inline(always)]
    pub fn act_in(
        &mut self,
        row: u8,
        action: Action,
        credits: [bool; 4],
    ) -> Result<ActionOutcome, Refusal>
        requires row { row ≡ row_of_line self.old action.line.0 }
        requires inside { is_in_range self.old action ≡ true }
        ensures refused { refusal_of result ≡ refused_with credits self.old action }
        ensures protocol { IfOk result
            (λ outcome. IsDone self.old action outcome.effect self.new) }
        ensures loads { IfOk result (λ outcome. HasLastValue self.old action outcome.effect) }
        ensures computed { ComputedUnder credits self.old action result self.new }
        ensures err { OnErr result (self.new ≡ self.old) }
    {
        // (built here its parts stay in registers)
        let action = Action {
            agent: action.agent,
            line: action.line,
            step: action.step,
        };
        let conditions = self.conditions(action, credits);
        let line = &mut self.lines[usize::from(row)];
        let outcome = line.act(conditions, action)?;
        self.places
            .follow(action.agent, action.line, outcome.slot, outcome.to);
        note(&mut self.journal, action, outcome.effect);
        Ok(outcome)
    }

    /// Tries the actions in their order; a refused one changes nothing. Answers how many were done.
    /// Takes no memory; the sizes and the index stay.
    /// Source: `docs/PROTOCOL.md`, "The actions".
    pub fn run(&mut self, actions: &[Action]) -> usize
        ensures run { IsRun self.old actions.now result self.new }
        ensures after { self.new ≡ run_after self.old actions.now }
        ensures config { self.new.config ≡ self.old.config }
        ensures index { self.new.index ≡ self.old.index }
    {
        let mut done = 0;
        for action in actions {
            if self.act(*action).is_ok() {
                done += 1;
            }
        }
        done
    }

    /// Why `act_with` would refuse the action with these credits; `None` where it would be done. Nothing is
    /// done.
    ///
    /// Of the representation, for callers that compute with it: `refusal`, `alone`, `allowed`.
    /// Source: `docs/PROTOCOL.md`, "The actions" and "A requester and its calls".
    pub fn refusal(&self, action: Action, credits: [bool; 4]) -> Option<Refusal>
        ensures refused { result ≡ refused_with credits self.now action }
        ensures refusal { result ≡ refused_under credits self.now action }
        ensures alone { credits ≡ each_credit → result ≡ action_refusal self.now action }
        ensures allowed { result ≡ None → action_refusal self.now action ≡ None }
    {
        match self.action_row(action, credits) {
            Ok(found) => self.lines[found.row].refusal(found.conditions, action),
            Err(refusal) => Some(refusal),
        }
    }

    /// The slot of the request that the action would complete: nothing refuses it, and its row has the effect
    /// Completed with that slot. `None` where there is no such slot.
    /// Source: `docs/PROTOCOL.md`, "The actions".
    pub fn completes(&self, action: Action) -> Option<Slot>
        ensures { (slot : Slot) → (result ≡ Some slot) ↔ WouldComplete self.now action slot }
    {
        match self.row_in_range(action) {
            Some(row) => self.lines[usize::from(row)].completed_slot(action.agent, action.step),
            None => None,
        }
    }

    /// Whether the slices are the same: their sizes and their places in the node, each line with its flits,
    /// and the journal. One walk over both, up to the first difference; it takes no memory.
    /// Source: `docs/PROTOCOL.md`, "The system".
    pub fn equals(&self, other: &Slice<A>) -> bool
        ensures { IsTrue result ↔ (self.now ≡ other.now) }
    {
        are_same_sizes(&self.config, &other.config)
            && self.index == other.index
            && are_same_lines(&self.lines, &other.lines)
            && self.journal.equals(&other.journal)
    }
}
