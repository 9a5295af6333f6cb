//! Requests that a line was sent in their turn: first attempts, and their RetryAcks.
//! Not trusted: chi_explain does again what the search finds, and compares.

ghost use Rattle.std.specs.Prelude.{◌≡◌, ◌<◌, IfErr, false};
ghost use Rattle.chi_monitor.specs.Places.{is_settled};

use crate::faults::LineFault;
use crate::line::Search;
use crate::turns::Turns;
use chi_flit::{Agent, Kind, Slot, State, Step};
use std::alloc::Allocator;

impl<A: Allocator> Search<A> {
    /// A first attempt, in this slot.
    pub fn issue(
        &mut self,
        turns: &Turns,
        agent: Agent,
        kind: Kind,
        slot: Slot,
    ) -> Result<(), LineFault>
        requires { agent.0 < 8 }
        ensures { IfErr result (λ fault. is_settled fault ≡ false) }
    {
        if let Some(reach) = self.loaded_reach(turns, agent) {
            if reach.issue_state(kind).is_none() {
                return Err(LineFault::Needs(kind, reach));
            }
        }
        let mut side = self.at(agent);
        let reach = self.reach(turns, agent);
        match reach.issue_state(kind) {
            Some(State::I) if reach.base.is_valid() => {
                self.act(agent, Step::Drop)?;
            }
            Some(State::UD) if self.may_hide() => {
                side.words = self.values.unknown_line()?;
                self.store_all(agent, &side.words)?;
            }
            Some(_) | None => {}
        }
        side.loaded = None;
        self.put(agent, side);
        self.act(agent, Step::Issue(kind, slot))
    }

    /// A RetryAck.
    pub fn retry(&mut self, agent: Agent) -> Result<(), LineFault>
        ensures { IfErr result (λ fault. is_settled fault ≡ false) }
    {
        self.act(agent, Step::Retry)?;
        self.act(agent, Step::RecvRetry)
    }
}
