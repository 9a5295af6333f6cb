//! Snoops of a line, and the answers to them.
//! Not trusted: chi_explain does again what the search finds, and compares.

ghost use Rattle.std.specs.Prelude.{◌≡◌, ◌<◌, IfErr, false};
ghost use Rattle.chi_monitor.specs.Places.{is_settled};

use crate::copies::{gives, has_data, state_left};
use crate::faults::LineFault;
use crate::home_turns::{HomeTurn, is_snooping};
use crate::line::{Answer, Draft, Search};
use crate::turns::{Turn, Turns, turn_of};
use crate::values::{SeenWords, UnknownWords};
use chi_flit::{Agent, DatUp, Msg, RspUp, Snoop, State, Step};
use std::alloc::Allocator;

/// What the answer does to the home, by which these words are given; `None` of another message.
fn given_by(message: &Msg, words: UnknownWords) -> Option<Answer> {
    match message {
        Msg::RspUp(RspUp::SnpRespI) => Some(Answer::Invalid),
        Msg::RspUp(RspUp::SnpRespSC) => Some(Answer::Clean),
        Msg::DatUp(DatUp::SnpRespDataIPD(_)) => Some(Answer::InvalidPassed(words)),
        Msg::DatUp(DatUp::SnpRespDataSCPD(_)) => Some(Answer::CleanPassed(words)),
        Msg::DatUp(DatUp::SnpRespDataSD(_)) => Some(Answer::Shared(words)),
        _ => None,
    }
}

impl<A: Allocator> Search<A> {
    /// A snoop to the agent, of a home that is in this turn before it.
    pub fn snoop(&mut self, home: &HomeTurn, agent: Agent) -> Result<(), LineFault>
        requires { agent.0 < 8 }
        ensures { IfErr result (λ fault. is_settled fault ≡ false) }
    {
        if !is_snooping(&home.service) {
            self.group_at = self.items.len();
            self.act(agent, Step::Admit)?;
            self.act(agent, Step::Start)?;
            self.answers = [None; 8];
        }
        self.items.push(Draft::Snoop(agent))?;
        Ok(())
    }

    /// The agent's answer to its snoop, whose data, if it has any, has these words.
    pub fn answer(
        &mut self,
        turns: &Turns,
        agent: Agent,
        message: &Msg,
        seen: &SeenWords,
    ) -> Result<(), LineFault>
        requires { agent.0 < 8 }
        ensures { IfErr result (λ fault. is_settled fault ≡ false) }
    {
        let turn = turn_of(turns, agent);
        let snoop = turn.snoop_or(Snoop::SnpUnique);
        let left = state_left(message).unwrap_or(State::I);
        let dirty = has_data(message);
        if let Some(reach) = self.loaded_reach(turns, agent) {
            if !reach.may_answer(snoop, left, dirty) {
                return Err(reach.answer_fault(snoop, left, dirty));
            }
        }
        if dirty {
            self.give_words(&turn, agent, seen)?;
        } else if !gives(turn.copy.base, snoop, left, dirty) {
            self.act(agent, Step::Drop)?;
        }
        self.act(agent, Step::RecvSnp)?;
        let mut side = self.at(agent);
        side.loaded = None;
        self.put(agent, side);
        self.answers[usize::from(agent.0)] = given_by(message, side.words);
        Ok(())
    }

    /// The words of the agent's dirty copy are these: they may have been stored, where nothing is pending.
    fn give_words(&mut self, turn: &Turn, agent: Agent, seen: &SeenWords) -> Result<(), LineFault>
        requires { agent.0 < 8 }
        ensures { IfErr result (λ fault. is_settled fault ≡ false) }
    {
        let mut side = self.at(agent);
        if turn.is_free() && self.may_hide() && turn.copy.base.is_unique() {
            side.words = self.values.seen_line(seen)?;
            let words = side.words;
            self.store_all(agent, &words)?;
            self.put(agent, side);
        } else if !self.values.are_now(&side.words, seen) {
            return Err(LineFault::Words(self.values.beside(&side.words, seen)));
        }
        Ok(())
    }
}
