//! The agents that may hold one line.

ghost use Rattle.std.specs.Prelude.{◌≡◌, ◌<◌, ◌↔◌, IfSome, IsTrue, is_some, true, ⊤};
ghost use Rattle.chi_filter.specs.Filter.{AreApart, FilterState, HasOneAtMost, IsAlone, IsFilter, IsOwnerIn, filter_of_parts, filter_with, empty_filter, has_any, is_named, only_named, others_than, owner_ended, owner_made, owner_set, owner_without, filter_without, filter_without_flag, is_in};

use crate::sets::{only_set, others_than};
use chi_flit::Agent;
use std::alloc::AllocError;
use std::marker::Model;

/// Whether anybody is in a set of agents, given as a mark for each agent number.
/// Source: `docs/DECISIONS.md`, "The protocol's types".
pub fn has_any(agents: &[bool; 8]) -> bool
    ensures { result ≡ has_any agents.now }
{
    agents.iter().any(|named| *named)
}

/// The owner that is left where the agent may not be it any more.
fn owner_without(owner: Option<Agent>, agent: Agent) -> Option<Agent>
    ensures { result ≡ owner_without owner agent.0 }
{
    match owner {
        Some(owner) if owner.0 == agent.0 => None,
        Some(owner) => Some(owner),
        None => None,
    }
}

/// The owner as a set.
fn owner_set(owner: Option<Agent>) -> [bool; 8]
    ensures { result ≡ owner_set owner }
{
    match owner {
        Some(owner) if owner.0 < 8 => only_set(owner),
        Some(_) | None => [false; 8],
    }
}

/// Whether these parts are a filter's.
fn is_filter(named: &[bool; 8], unique: bool, owner: Option<Agent>) -> bool
    ensures { IsTrue result ↔ IsFilter (filter_of_parts named.now unique owner) }
{
    let alone = has_any(named) && has_one_at_most(named);
    (!unique || alone) && is_owner_in(named, owner)
}

/// Whether an owner, if there is one, is in a set.
fn is_owner_in(agents: &[bool; 8], owner: Option<Agent>) -> bool
    ensures { IsTrue result ↔ IsOwnerIn agents.now owner }
{
    match owner {
        Some(owner) => is_in(agents, owner),
        None => true,
    }
}

/// Whether an agent is in a set.
#[tactic(auto, using(std::proofs::lemmas::List::get_or_past))]
fn is_in(agents: &[bool; 8], agent: Agent) -> bool
    ensures { result ≡ is_in agents.now agent.0 }
{
    agent.0 < 8 && agents[usize::from(agent.0)]
}

/// Whether one agent at most is in a set.
fn has_one_at_most(agents: &[bool; 8]) -> bool
    ensures { IsTrue result ↔ HasOneAtMost agents.now }
{
    let mut alone = true;
    for agent in 0..8 {
        alone &= is_alone(agents, agent);
    }
    alone
}

/// Whether nobody but the agent is in a set, if it is.
fn is_alone(agents: &[bool; 8], agent: usize) -> bool
    requires { agent < 8 }
    ensures { IsTrue result ↔ AreApart agents.now agent }
{
    let mut alone = true;
    for other in 0..8 {
        alone &= is_alone_beside(agents, agent, other);
    }
    alone
}

/// Whether not two agents are in a set.
fn is_alone_beside(agents: &[bool; 8], agent: usize, other: usize) -> bool
    requires agent { agent < 8 }
    requires other { other < 8 }
    ensures { IsTrue result ↔ IsAlone agents.now agent other }
{
    agent == other || !agents[agent] || !agents[other]
}

/// The agents that the home names as possible holders of a line, a flag that is set only where one agent
/// alone is named, and the owner, who answers for dirty shared data. A named agent may hold nothing.
/// Contracts see it as a `FilterState`. No call is refused; each agent's number is below 8.
/// Source: `docs/PROTOCOL.md`, "The filter".
#[derive(Drop, PartialEq, Eq)]
pub struct Filter {
    named: [bool; 8],
    unique: bool,
    owner: Option<Agent>,
}

impl Model for Filter {
    ghost use Rattle.chi_filter.specs.Filter.{FilterState, IsFilter};

    ghost Value = { FilterState };

    ghost view = { λ filter. record { named = filter.named; unique = filter.unique; owner = filter.owner } };

    ghost inverse = { λ filter. record { named = filter.named; unique = filter.unique; owner = filter.owner } };

    ghost invariant = { λ filter. IsFilter (record { named = filter.named; unique = filter.unique; owner = filter.owner }) };
}

impl Clone for Filter {
    ghost is_clone = { λ filter copy. copy ≡ filter };

    ghost is_infallible = { λ _. ⊤ };

    fn clone(&self) -> Result<Self, AllocError> {
        Ok(Filter {
            named: self.named,
            unique: self.unique,
            owner: self.owner,
        })
    }
}

impl Filter {
    /// A filter that names nobody, with the flag clear and no owner.
    /// Source: `docs/PROTOCOL.md`, "One line".
    pub fn new() -> Filter
        ensures { result ≡ empty_filter }
    {
        Filter {
            named: [false; 8],
            unique: false,
            owner: None,
        }
    }

    /// The filter that names these agents, a mark for each agent number, with this flag and this owner.
    ///
    /// `None` exactly where that is no filter: the flag is set and not one agent alone is named, or the owner
    /// isn't named.
    /// Source: `docs/PROTOCOL.md`, "The filter".
    pub fn of_parts(named: [bool; 8], unique: bool, owner: Option<Agent>) -> Option<Filter>
        ensures parts { IfSome result (λ filter. filter ≡ filter_of_parts named unique owner) }
        ensures exactly { IsTrue (is_some result) ↔ IsFilter (filter_of_parts named unique owner) }
    {
        if !is_filter(&named, unique, owner) {
            return None;
        }
        Some(Filter {
            named,
            unique,
            owner,
        })
    }

    /// Names the agent; the flag stays only where the agent was named already, and who else is named and
    /// the owner stay.
    ///
    /// Conditions: the agent's number is below 8.
    /// Source: `docs/PROTOCOL.md`, "The filter".
    pub fn add(&mut self, agent: Agent)
        requires { agent.0 < 8 }
        ensures { self.new ≡ filter_with self.old agent.0 }
    {
        self.unique = self.unique && self.named[usize::from(agent.0)];
        self.named[usize::from(agent.0)] = true;
    }

    /// Names the agent no more: it is no owner then, and the flag ends where nobody else is named. All
    /// others that are named, and another owner, stay.
    ///
    /// Conditions: the agent's number is below 8.
    /// Source: `docs/PROTOCOL.md`, "The filter".
    pub fn remove(&mut self, agent: Agent)
        requires { agent.0 < 8 }
        ensures { self.new ≡ filter_without self.old agent.0 }
    {
        self.named = others_than(self.named, agent);
        self.unique = self.unique && has_any(&self.named);
        self.owner = owner_without(self.owner, agent);
    }

    /// Names the agent alone, with the flag set and no owner.
    ///
    /// Conditions: the agent's number is below 8.
    /// Source: `docs/PROTOCOL.md`, "The filter".
    pub fn only(&mut self, agent: Agent)
        requires { agent.0 < 8 }
        ensures { self.new ≡ only_named agent.0 }
    {
        self.named = only_set(agent);
        self.unique = true;
        self.owner = None;
    }

    /// Clears the flag; who is named and who is the owner stay.
    /// Source: `docs/PROTOCOL.md`, "Answers of snooped agents".
    pub fn share(&mut self)
        ensures { self.new ≡ filter_without_flag self.old }
    {
        self.unique = false;
    }

    /// Everybody named but the agent, a mark for each agent number.
    ///
    /// Conditions: the agent's number is below 8.
    /// Source: `docs/PROTOCOL.md`, "Start".
    pub fn others_than(&self, agent: Agent) -> [bool; 8]
        requires { agent.0 < 8 }
        ensures { result ≡ others_than agent.0 self.now.named }
    {
        others_than(self.named, agent)
    }

    /// The owner, where it is another agent, as a mark for each agent number.
    ///
    /// Conditions: the agent's number is below 8.
    /// Source: `docs/PROTOCOL.md`, "Start".
    pub fn other_owner(&self, agent: Agent) -> [bool; 8]
        requires { agent.0 < 8 }
        ensures { result ≡ others_than agent.0 (owner_set self.now.owner) }
    {
        others_than(owner_set(self.owner), agent)
    }

    /// Everybody named, a mark for each agent number. Whoever asks knows what every filter keeps: where
    /// the flag is set one agent alone is named, and the owner is named.
    /// Source: `docs/PROTOCOL.md`, "The filter".
    pub fn named(&self) -> [bool; 8]
        ensures value { result ≡ self.now.named }
        ensures kept { IsFilter self.now }
    {
        self.named
    }

    /// Whether the flag is set: then one agent alone is named, and that agent may hold nothing.
    /// Source: `docs/PROTOCOL.md`, "The filter".
    pub fn is_unique(&self) -> bool
        ensures { result ≡ self.now.unique }
    {
        self.unique
    }

    /// The owner, who answers for dirty shared data; `None` where the filter has none.
    /// Source: `docs/PROTOCOL.md`, "The filter".
    pub fn owner(&self) -> Option<Agent>
        ensures { result ≡ self.now.owner }
    {
        self.owner
    }

    /// Makes the agent the owner in place of any other, where it is named; who is named and the flag stay.
    /// Nothing changes where it isn't named. Conditions: the agent's number is below 8.
    /// Source: `docs/PROTOCOL.md`, "Answers of snooped agents".
    pub fn make_owner(&mut self, agent: Agent)
        requires { agent.0 < 8 }
        ensures { self.new ≡ owner_made self.old agent }
    {
        if self.named[usize::from(agent.0)] {
            self.owner = Some(agent);
        }
    }

    /// Ends the agent as the owner; another owner, who is named and the flag stay.
    ///
    /// Conditions: the agent's number is below 8.
    /// Source: `docs/PROTOCOL.md`, "The filter".
    pub fn end_owner(&mut self, agent: Agent)
        requires { agent.0 < 8 }
        ensures { self.new ≡ owner_ended self.old agent.0 }
    {
        self.owner = owner_without(self.owner, agent);
    }
}
