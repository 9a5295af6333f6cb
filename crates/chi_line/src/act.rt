//! The actions on a line.

ghost use Rattle.std.specs.Prelude.{◌≡◌, ℕ, List, ◌<◌, true, None, IfOk, OnOk, OnErr};
ghost use Rattle.chi_flit.specs.Refusal.{refusal_of};
ghost use Rattle.chi_line.specs.Kept.{Kept};
ghost use Rattle.chi_line.specs.Moves.{moved_slot, moved_to};
ghost use Rattle.chi_line.specs.Refused.{line_refusal};
ghost use Rattle.chi_line.specs.Step.{after, effect_of, is_step_in_range};
ghost use Rattle.chi_line.specs.Traffic.{KeepsFlits};

use crate::line::CoherentLine;
use crate::position::ActionOutcome;
use chi_flit::{Action, Profile, Refusal, Step};

/// What an action needs to know beside its line.
/// Source: `docs/DECISIONS.md`, "The slice", Conditions.
#[derive(Clone, Copy, Debug, PartialEq, Eq)]
pub struct Conditions {
    /// Whether the slot that an Issue names is in use.
    pub slot_used: bool,
    /// Whether the journal holds exactly its limit.
    pub journal_full: bool,
    /// Whether a Resend has a credit of its type, by the type's number.
    pub credits: [bool; 4],
    pub profile: Profile,
}

impl CoherentLine {
    /// Does an action on the line. Answers its effect, and which request of the agent it moved, and where
    /// to: all as the line before the action has it.
    ///
    /// No flit is lost or made: those in flight after the action, with the one that it took, are those before
    /// with those that it sent.
    ///
    /// Refused in the order of the action's row, but never 10; nothing changes then.
    ///
    /// Conditions: the agent's number is below 8, the step's numbers are in their ranges, and the line keeps
    /// what "What a line keeps" says, for some values last stored to its words.
    /// Source: `docs/PROTOCOL.md`, "The actions", "Messages", "Agreement" and "What a line keeps".
    #[inline(always)]
    pub fn act(&mut self, conditions: Conditions, action: Action) -> Result<ActionOutcome, Refusal>
        requires agent { action.agent.0 < 8 }
        requires step { is_step_in_range action.step ≡ true }
        requires kept { (last : List ℕ) × Kept last self.old }
        ensures refusal { refusal_of result ≡ line_refusal conditions self.old action }
        ensures effect { IfOk result (λ outcome. outcome.effect ≡ effect_of self.old action) }
        ensures slot { IfOk result (λ outcome. outcome.slot
            ≡ moved_slot self.old action.agent action.step) }
        ensures to { IfOk result (λ outcome. outcome.to
            ≡ moved_to self.old action.agent action.step) }
        ensures after { OnOk result (self.new ≡ after conditions.profile self.old action) }
        ensures flits { OnOk result (KeepsFlits conditions.profile self.old action self.new) }
        ensures err { OnErr result (self.new ≡ self.old) }
    {
        match self.refusal(conditions, action) {
            Some(refusal) => Err(refusal),
            None => Ok(self.effect(conditions, action)),
        }
    }

    /// Does an action that isn't refused; answers what `act` does.
    ///
    /// Conditions: those of `act`, and no refusal.
    /// Source: `docs/PROTOCOL.md`, "The actions".
    #[inline(always)]
    fn effect(&mut self, conditions: Conditions, action: Action) -> ActionOutcome
        requires agent { action.agent.0 < 8 }
        requires step { is_step_in_range action.step ≡ true }
        requires kept { (last : List ℕ) × Kept last self.old }
        requires allowed { line_refusal conditions self.old action ≡ None }
        ensures effect { result.effect ≡ effect_of self.old action }
        ensures slot { result.slot ≡ moved_slot self.old action.agent action.step }
        ensures to { result.to ≡ moved_to self.old action.agent action.step }
        ensures after { self.new ≡ after conditions.profile self.old action }
        ensures flits { KeepsFlits conditions.profile self.old action self.new }
    {
        let agent = action.agent;
        match action.step {
            Step::Load(word) => self.load(agent, word),
            Step::Store(word, value) => self.store(agent, word, value),
            Step::Drop => self.drop_clean(agent),
            Step::Issue(kind, slot) => self.issue(agent, kind, slot),
            Step::Admit => self.admit(agent),
            Step::Retry => self.retry(agent, conditions.profile),
            Step::RecvRetry => self.receive_retry(agent),
            Step::Resend => self.resend(agent),
            Step::Cancel => self.cancel(agent),
            Step::Start => self.start(agent),
            Step::RecvSnp => self.receive_snoop(agent),
            Step::RecvSnpResp => self.receive_answer(agent),
            Step::RecvData => self.receive_data(agent),
            Step::RecvComp => self.receive_comp(agent),
            Step::RecvAck => self.receive_ack(agent),
            Step::RecvDbid => self.receive_dbid(agent),
            Step::RecvWrData => self.receive_write_data(agent),
        }
    }
}
