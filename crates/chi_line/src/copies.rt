//! The actions of a requester's copy alone: they send nothing.

ghost use Rattle.std.specs.Prelude.{◌≡◌, ◌<◌, None};
ghost use Rattle.chi_flit.specs.declared.action.Effect.TheVariants.{Nothing, Value};
ghost use Rattle.chi_rnline.specs.Rn.{word_of};
ghost use Rattle.chi_line.specs.LineState.{rn_of};
ghost use Rattle.chi_line.specs.Step.{cancelled_line, dropped_line, pending_slot, stored_line};
ghost use Rattle.chi_line.specs.Outcomes.{outcome_with_move, outcome_without_move};

use crate::line::CoherentLine;
use crate::position::{ActionOutcome, pending_slot};
use chi_flit::{Agent, Effect, WordNo};

impl CoherentLine {
    /// Load: the value of a word of the agent's copy. The journal takes a record of it.
    /// Source: `docs/PROTOCOL.md`, "The actions", Load.
    pub(crate) fn load(&self, agent: Agent, word: WordNo) -> ActionOutcome
        requires agent { agent.0 < 8 }
        requires word { word.0 < 8 }
        ensures { result ≡ outcome_without_move (Value (word_of (rn_of self.now agent.0) word.0)) }
    {
        let value = self.requesters[usize::from(agent.0)].word(word);
        ActionOutcome::without_move(Effect::Value(value))
    }

    /// Store: the word of the agent's copy has the value. The journal takes a record of it.
    /// Source: `docs/PROTOCOL.md`, "The actions", Store.
    pub(crate) fn store(&mut self, agent: Agent, word: WordNo, value: u64) -> ActionOutcome
        requires agent { agent.0 < 8 }
        requires word { word.0 < 8 }
        ensures outcome { result ≡ outcome_without_move Nothing }
        ensures after { self.new ≡ stored_line self.old agent.0 word.0 value }
    {
        self.requesters[usize::from(agent.0)].stored(word, value);
        ActionOutcome::without_move(Effect::Nothing)
    }

    /// Drop: the agent's copy is given up, and nobody is told.
    /// Source: `docs/PROTOCOL.md`, "The actions", Drop.
    pub(crate) fn drop_clean(&mut self, agent: Agent) -> ActionOutcome
        requires { agent.0 < 8 }
        ensures outcome { result ≡ outcome_without_move Nothing }
        ensures after { self.new ≡ dropped_line self.old agent.0 }
    {
        self.requesters[usize::from(agent.0)].dropped();
        ActionOutcome::without_move(Effect::Nothing)
    }

    /// Cancel: the agent's retried copy-back is given up; nothing is pending.
    /// Source: `docs/PROTOCOL.md`, "The actions", Cancel.
    pub(crate) fn cancel(&mut self, agent: Agent) -> ActionOutcome
        requires { agent.0 < 8 }
        ensures outcome { result
            ≡ outcome_with_move (pending_slot (rn_of self.old agent.0).pending) None }
        ensures after { self.new ≡ cancelled_line self.old agent.0 }
    {
        let copy = &mut self.requesters[usize::from(agent.0)];
        let slot = pending_slot(copy.pending());
        copy.cancelled();
        ActionOutcome::with_move(slot, None)
    }
}
