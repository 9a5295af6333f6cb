//! Completions of a line's requests, and what acknowledges them.
//! Not trusted: chi_explain does again what the search finds, and compares.

ghost use Rattle.std.specs.Prelude.{◌≡◌, ◌<◌, IfErr, false};
ghost use Rattle.chi_monitor.specs.Places.{is_settled};

use crate::copies::Given;
use crate::faults::LineFault;
use crate::filter::has;
use crate::home_turns::{HomeTurn, Service, is_snooping};
use crate::line::{Answer, Draft, Search};
use crate::turns::{Turns, turn_of};
use crate::values::{SeenWords, UnknownWords};
use chi_flit::{Agent, Kind, Step};
use std::alloc::Allocator;

impl<A: Allocator> Search<A> {
    /// The agent's request is admitted and started here, or was at the first snoop of its group, whose answers then
    /// come to the home. The data that an answer gave for the completion, if one did.
    fn begin(&mut self, home: &HomeTurn, agent: Agent) -> Result<Option<UnknownWords>, LineFault>
        ensures { IfErr result (λ fault. is_settled fault ≡ false) }
    {
        if is_snooping(&home.service) {
            self.fill(agent);
            self.take_answers()
        } else {
            self.act(agent, Step::Admit)?;
            self.act(agent, Step::Start)?;
            Ok(None)
        }
    }

    /// The Admit and the Start of the group of snoops are those of the agent.
    fn fill(&mut self, agent: Agent) {
        if let Some(item) = self.items.get_mut(self.group_at) {
            *item = Draft::Act(agent, Step::Admit);
        }
        if let Some(item) = self.items.get_mut(self.group_at.saturating_add(1)) {
            *item = Draft::Act(agent, Step::Start);
        }
    }

    /// The flits end here: a group of snoops whose completion wasn't seen may be for any request that it fits.
    pub fn close(&mut self, service: &Service) {
        if let Service::Snooping(group) = service {
            for number in 0..8 {
                if has(&group.may_be, Agent(number)) {
                    self.fill(Agent(number));
                }
            }
        }
    }

    /// All answers come to the home.
    fn take_answers(&mut self) -> Result<Option<UnknownWords>, LineFault>
        ensures { IfErr result (λ fault. is_settled fault ≡ false) }
    {
        let mut given = None;
        for number in 0..8 {
            let agent = Agent(number);
            let Some(answer) = self.answers[usize::from(number)] else {
                continue;
            };
            self.act(agent, Step::RecvSnpResp)?;
            match answer {
                Answer::Invalid | Answer::Clean => {}
                Answer::InvalidPassed(words) | Answer::CleanPassed(words) => self.memory = words,
                Answer::Shared(words) => given = Some(words),
            }
        }
        self.answers = [None; 8];
        Ok(given)
    }

    /// The data of the agent's read, for a unique copy or a shared one, with these words.
    pub fn complete_read(
        &mut self,
        turns: &Turns,
        home: &HomeTurn,
        agent: Agent,
        unique: bool,
        seen: &SeenWords,
    ) -> Result<(), LineFault>
        requires { agent.0 < 8 }
        ensures { IfErr result (λ fault. is_settled fault ≡ false) }
    {
        let given = self.begin(home, agent)?;
        let words = match (turn_of(turns, agent).kind(), given) {
            (Kind::ReadShared, Some(words)) if !unique => words,
            _ => self.memory,
        };
        if !self.values.are_now(&words, seen) {
            return Err(LineFault::Words(self.values.beside(&words, seen)));
        }
        self.give(agent, Some(words));
        Ok(())
    }

    /// The agent has a completion, with these words if it is data.
    fn give(&mut self, agent: Agent, given: Option<UnknownWords>)
        requires { agent.0 < 8 }
    {
        let mut side = self.at(agent);
        side.given = given;
        self.put(agent, side);
    }

    /// Comp_UC of the agent's CleanUnique.
    pub fn complete_unique(&mut self, home: &HomeTurn, agent: Agent) -> Result<(), LineFault>
        requires { agent.0 < 8 }
        ensures { IfErr result (λ fault. is_settled fault ≡ false) }
    {
        let _ = self.begin(home, agent)?;
        self.give(agent, None);
        Ok(())
    }

    /// The agent's CompAck.
    pub fn acknowledge(&mut self, turns: &Turns, agent: Agent) -> Result<(), LineFault>
        requires { agent.0 < 8 }
        ensures { IfErr result (λ fault. is_settled fault ≡ false) }
    {
        let mut side = self.at(agent);
        match turn_of(turns, agent).given {
            Given::Shared(_) | Given::Unique(_) => self.act(agent, Step::RecvData)?,
            Given::Raised(_) => self.act(agent, Step::RecvComp)?,
            Given::Nothing => {}
        }
        side.words = side.given.unwrap_or(side.words);
        side.given = None;
        self.put(agent, side);
        self.act(agent, Step::RecvAck)
    }

    /// Comp_I of the agent's Evict.
    pub fn complete_evict(&mut self, agent: Agent) -> Result<(), LineFault>
        ensures { IfErr result (λ fault. is_settled fault ≡ false) }
    {
        self.act(agent, Step::Admit)?;
        self.act(agent, Step::Start)?;
        self.act(agent, Step::RecvComp)
    }
}
