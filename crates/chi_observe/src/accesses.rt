//! Loads and stores of a trace, among the flits of their lines.

ghost use Rattle.std.specs.Prelude.{◌≡◌, OnOk};
ghost use Rattle.chi_observe.specs.Watched.{IsAccessWatched, IsWatched, access_agent, access_counted, access_settled, watched};

use crate::causes::add_cause;
use crate::events::{AccessEvent, Event, flit_by};
use crate::judges::Before;
use crate::lines::{LineNews, LineStop, LineTold, home_of, tell};
use crate::nodes::{add_requester, agent_of};
use crate::reasons::LineReason;
use crate::watch::{Watch, WatchFault, WatchStop, mark_of};
use chi_flit::Agent;
use chi_ids::Sides;
use chi_observer::Reason;
use chi_trace::NodeId;
use std::alloc::{AllocError, Allocator};

impl<A: Allocator> Watch<A> {
    /// The agent that a processor is at a line of this home.
    pub(crate) fn agent_at(&self, event: &AccessEvent, home: NodeId) -> Option<Agent>
        ensures { result ≡ access_agent (watched self.now) event.now home }
    {
        let sides = Sides {
            requester: event.requester,
            home,
        };
        agent_of(&self.requesters, &self.homes, sides)
    }

    /// What a load or a store of this agent leaves, but of its line, which was told so.
    fn settle_access(
        &mut self,
        event: &AccessEvent,
        agent: Option<Agent>,
        told: &LineTold,
    ) -> Result<(), AllocError>
        ensures { OnOk result
            (watched self.new ≡ access_settled (watched self.old) event.now agent told.now) }
    {
        let mark = mark_of(
            self.options,
            &event.tells,
            agent,
            told,
            event.line,
            event.number,
        );
        let Some(counts) = self.counts.with_told_access(told, mark) else {
            return Err(AllocError);
        };
        add_cause(&mut self.causes, mark)?;
        add_requester(&mut self.requesters, agent, event.requester)?;
        self.counts = counts;
        Ok(())
    }
}

impl<A: Allocator + Copy> Watch<A> {
    /// Takes a load or a store at a line of this home.
    fn take_access_at(&mut self, event: &AccessEvent, home: NodeId) -> Result<(), WatchStop>
        ensures { IsAccessWatched (watched self.old) (watched self.new) event.now home result }
    {
        let agent = self.agent_at(event, home);
        let news = LineNews::Flit(flit_by(&event.tells, agent));
        let before = Before {
            log: self.options.log,
            stores: self.options.stores,
            last: &self.last,
        };
        match tell(
            &mut self.lines,
            &mut self.spare,
            &before,
            event.line,
            home,
            &news,
            event.number,
        ) {
            Ok(told) => Ok(self.settle_access(event, agent, &told)?),
            Err(LineStop::Refused(reason)) => { Err(WatchStop::Fault(WatchFault::Line(reason))) }
            Err(LineStop::NoMemory) => Err(WatchStop::NoMemory),
        }
    }

    /// Counts a load or a store that isn't judged: of a line that no flit has touched, of which nothing is known, or in a log
    /// that is taken at the home.
    fn count_access(&mut self) -> Result<(), AllocError>
        ensures { OnOk result
            (watched self.new ≡ access_counted (watched self.old)) }
    {
        let Some(counts) = self.counts.with_access(false) else {
            return Err(AllocError);
        };
        self.counts = counts;
        Ok(())
    }

    /// Takes a load or a store. A line that no flit has touched takes none, as no cache has a copy of it, but where the
    /// trace is cut out of a longer one. A log that is taken at the home says nothing of when it was done.
    pub(crate) fn take_access(&mut self, event: &AccessEvent) -> Result<(), WatchStop>
        ensures { IsWatched (watched self.old) (watched self.new) (Event.Access event.now) result }
    {
        if self.options.is_at_home() {
            return Ok(self.count_access()?);
        }
        match home_of(&self.lines, event.line) {
            Some(home) => self.take_access_at(event, home),
            None => if self.options.is_cut() {
                Ok(self.count_access()?)
            } else {
                Err(WatchStop::Fault(WatchFault::Line(LineReason::Rule(Reason::NotSent))))
            },
        }
    }
}
