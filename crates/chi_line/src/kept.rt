//! Whether a line keeps what every line keeps.

ghost use Rattle.std.specs.Prelude.{◌≡◌, ◌↔◌, ◌<◌, IsTrue, length};
ghost use Rattle.chi_line.specs.Clean.{IsClean, IsCleanAgent};
ghost use Rattle.chi_line.specs.Keeping.{AreLanesKept, IsCleanAt, IsLaneKept, IsShaped, LaneChecked, PartsKept, lane_in};
ghost use Rattle.chi_line.specs.Kept.{IsOwnerInRange, IsServedRight, Kept, lane};

mod answers;
mod completions;
mod copies;
mod lane;
mod marks;
mod requests;
mod writes;

use crate::kept::answers::are_answers_kept;
use crate::kept::completions::are_completions_kept;
use crate::kept::copies::{does_kind_fit, is_copy_kept, is_owner_kept};
use crate::kept::lane::{AgentLane, HomeTerms};
use crate::kept::marks::{owned_by, served_kind};
use crate::kept::requests::are_requests_kept;
use crate::kept::writes::{is_write_data_kept, passes_dirty};
use crate::line::CoherentLine;
use chi_flit::{Agent, DatUp, Data, State};
use chi_homeline::{Serving, Waiting};
use chi_rnline::RnLine;
use chi_wires::Cells;

impl CoherentLine {
    /// Whether the line keeps what every line keeps through each action: each copy, request, flit and answer
    /// fits the others, and the values are those `last` stored to the line's words. Takes no memory.
    /// Source: `docs/PROTOCOL.md`, "What a line keeps".
    pub fn keeps(&self, last: &Data) -> bool
        ensures { IsTrue result ↔ Kept last.now self.now }
    {
        self.keeps_shape();
        self.are_parts_kept(last)
    }

    /// What each value of the type keeps: eight places for the agents, and one that is named where the flag is
    /// set.
    fn keeps_shape(&self)
        ensures { IsShaped self.now }
    {
        let named = self.home.filter().named();
        let (awaited, waiting) = (self.home.awaited(), self.home.all_waiting());
        have_places(&self.requesters, &self.flits.all());
        have_marks(&named, &awaited, &waiting);
    }

    /// Whether what is served, the owner, the lanes and the memory are kept.
    fn are_parts_kept(&self, last: &Data) -> bool
        ensures { IsTrue result ↔ PartsKept last.now self.now }
    {
        is_served_right(self.home.serving())
            && is_owner_in_range(self.home.filter().owner())
            && self.are_lanes_kept(last)
            && self.is_memory_kept(last)
    }

    /// Whether memory has the values that were stored last, or something isn't clean.
    fn is_memory_kept(&self, last: &Data) -> bool
        ensures { IsTrue result ↔ (IsClean self.now → self.now.home.memory ≡ last.now) }
    {
        !self.is_clean() || self.home.memory() == *last
    }

    /// Whether the lanes of all agents are kept.
    fn are_lanes_kept(&self, last: &Data) -> bool
        ensures { IsTrue result ↔ AreLanesKept last.now self.now }
    {
        let mut kept = true;
        for agent in 0..8 {
            kept &= self.is_lane_kept(agent, last);
        }
        kept
    }

    /// Whether the lane of an agent is kept.
    fn is_lane_kept(&self, agent: u8, last: &Data) -> bool
        requires { agent < 8 }
        ensures { IsTrue result ↔ IsLaneKept last.now self.now agent }
    {
        let home = self.home_terms(last);
        is_kept(&self.agent_lane(agent), &home, agent)
    }

    /// What belongs to an agent.
    fn agent_lane(&self, agent: u8) -> AgentLane
        requires { agent < 8 }
        ensures { lane_in result ≡ lane self.now agent }
    {
        let copy = self.copy(Agent(agent));
        let place = usize::from(agent);
        AgentLane {
            state: copy.state(),
            words: copy.words(),
            pending: copy.pending(),
            flits: *self.flits(Agent(agent)),
            named: self.home.filter().named()[place],
            awaited: self.home.awaited()[place],
            waiting: self.home.waiting(Agent(agent)),
        }
    }

    /// What the line has beside the lanes, and the values last stored to its words.
    fn home_terms(&self, last: &Data) -> HomeTerms
        ensures serving { result.serving ≡ self.now.home.serving }
        ensures unique { result.unique ≡ self.now.home.filter.unique }
        ensures owner { result.owner ≡ self.now.home.filter.owner }
        ensures last { result.last ≡ last.now }
    {
        let filter = self.home.filter();
        HomeTerms {
            serving: self.home.serving(),
            unique: filter.is_unique(),
            owner: filter.owner(),
            last: *last,
        }
    }

    /// Whether no copy is dirty, and no dirty data is passed on.
    fn is_clean(&self) -> bool
        ensures { IsTrue result ↔ IsClean self.now }
    {
        let mut clean = true;
        for agent in 0..8 {
            clean &= self.is_agent_clean(agent);
        }
        clean
    }

    /// Whether the agent's copy isn't dirty, and it passes no dirty data on.
    fn is_agent_clean(&self, agent: u8) -> bool
        requires { agent < 8 }
        ensures { IsTrue result ↔ IsCleanAt self.now agent }
    {
        let sent = &self.flits(Agent(agent)).dat_up;
        is_clean_agent(self.copy(Agent(agent)).state(), sent)
    }
}

/// Whether an agent's lane is kept.
fn is_kept(at: &AgentLane, home: &HomeTerms, agent: u8) -> bool
    ensures { IsTrue result
        ↔ LaneChecked home.now.serving home.now.unique home.now.owner home.now.last agent (lane_in at.now) }
{
    let kind = served_kind(home.serving);
    is_copy_kept(at.state, &at.words, at.named, home.unique, &home.last)
        && does_kind_fit(at.pending, at.state)
        && are_requests_kept(at, home.serving, agent)
        && are_completions_kept(at, home, agent)
        && are_answers_kept(at, home, agent)
        && is_write_data_kept(&at.flits.dat_up, at.state, at.named, kind, &home.last)
        && is_owner_kept(at, owned_by(home.owner, agent), home.unique)
}

/// Whether a copy isn't dirty, and what its agent sends up passes no dirty data on.
fn is_clean_agent(state: State, sent: &Option<DatUp>) -> bool
    ensures { IsTrue result ↔ IsCleanAgent state sent.now }
{
    !state.is_dirty() && !passes_dirty(sent)
}

/// Whether the agent that is served is one of the eight, and write data is awaited of a copy-back.
fn is_served_right(serving: Serving) -> bool
    ensures { IsTrue result ↔ IsServedRight serving }
{
    match serving {
        Serving::Idle => true,
        Serving::Snooping { agent, .. } | Serving::AwaitingCompAck { agent, .. } => agent.0 < 8,
        Serving::AwaitingWriteData { agent, kind, .. } => agent.0 < 8 && kind.is_copy_back(),
    }
}

/// Whether the owner, if there is one, is one of the eight.
fn is_owner_in_range(owner: Option<Agent>) -> bool
    ensures { IsTrue result ↔ IsOwnerInRange owner }
{
    match owner {
        Some(owner) => owner.0 < 8,
        None => true,
    }
}

/// What belongs to requesters has a place for each of the eight.
fn have_places(requesters: &[RnLine; 8], flits: &[Cells; 8])
    ensures requesters { length requesters.now ≡ 8 }
    ensures flits { length flits.now ≡ 8 }
{}

/// What the home keeps of requesters has a place for each of the eight.
fn have_marks(named: &[bool; 8], awaited: &[bool; 8], waiting: &[Option<Waiting>; 8])
    ensures named { length named.now ≡ 8 }
    ensures awaited { length awaited.now ≡ 8 }
    ensures waiting { length waiting.now ≡ 8 }
{}
