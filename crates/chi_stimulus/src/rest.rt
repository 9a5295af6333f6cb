//! Bringing a node to rest: nothing is in flight, and each entry is free.

ghost use Rattle.std.specs.Prelude.{◌+◌, ◌≤◌};

use crate::drawing::Drawing;
use crate::operands::Operands;
use crate::plan::Plan;
use crate::proposals::{command_by, rest_verb};
use chi_flit::{Agent, CreditType, NoMemory};
use chi_script::Command;
use std::alloc::Allocator;

impl<A: Allocator> Drawing<A> {
    /// Brings the node to rest, if that is asked for.
    pub(crate) fn settle_if(&mut self, plan: &Plan, drain: bool) -> Result<(), NoMemory> {
        if drain { self.settle(plan) } else { Ok(()) }
    }

    /// Puts commands behind the text that bring the node to rest, round after round, until one keeps none but looks.
    /// Where that isn't reached a comment says so.
    fn settle(&mut self, plan: &Plan) -> Result<(), NoMemory> {
        self.set_done(true);
        self.rounds(plan)?;
        if self.is_done() {
            return self.remark("# not at rest");
        }
        Ok(())
    }

    /// Goes on round after round.
    fn rounds(&mut self, plan: &Plan) -> Result<(), NoMemory> {
        for _ in 0..plan.rounds {
            if !self.is_done() {
                return Ok(());
            }
            self.round(plan)?;
        }
        Ok(())
    }

    /// One round: deliveries, starts and resends; and where there is none, looks, resends and cancels.
    fn round(&mut self, plan: &Plan) -> Result<(), NoMemory> {
        self.set_done(false);
        self.walk(plan, 0, 11)?;
        if self.is_done() {
            return Ok(());
        }
        self.look(plan)?;
        self.walk(plan, 10, 2)
    }

    /// Tries so many of the commands to rest, from a place on, of each agent at each line.
    fn walk(&mut self, plan: &Plan, from: u8, count: u8) -> Result<(), NoMemory>
        requires { from + count ≤ 255 }
    {
        for line in 0..plan.lines {
            self.walk_line(plan, from, count, line)?;
        }
        Ok(())
    }

    /// The same at a line.
    fn walk_line(&mut self, plan: &Plan, from: u8, count: u8, line: u8) -> Result<(), NoMemory>
        requires { from + count ≤ 255 }
    {
        for more in 0..count {
            self.walk_agents(plan, from + more, line)?;
        }
        Ok(())
    }

    /// Tries one of the commands to rest, of each agent at a line.
    fn walk_agents(&mut self, plan: &Plan, place: u8, line: u8) -> Result<(), NoMemory> {
        let verb = rest_verb(place);
        for agent in 0..plan.agents {
            let operands = Operands::at(agent, line);
            self.tries(&command_by(verb, &operands, 0))?;
        }
        Ok(())
    }

    /// Lets each agent look, and give a credit of each type back.
    fn look(&mut self, plan: &Plan) -> Result<(), NoMemory> {
        for agent in 0..plan.agents {
            self.look_at(plan, agent)?;
        }
        Ok(())
    }

    /// The same of an agent.
    fn look_at(&mut self, plan: &Plan, agent: u8) -> Result<(), NoMemory> {
        let looks = Agent(agent);
        self.keep(&Command::See { agent: looks })?;
        self.give_back(plan, agent)
    }

    /// Gives a credit of each type back, where that isn't refused.
    fn give_back(&mut self, plan: &Plan, agent: u8) -> Result<(), NoMemory> {
        for ty in 0..plan.types {
            let credit = CreditType::numbered(ty);
            let agent = Agent(agent);
            self.tries(&Command::GiveBack { agent, credit })?;
        }
        Ok(())
    }
}
