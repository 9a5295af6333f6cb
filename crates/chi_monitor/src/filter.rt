//! The home's filter, as the flits show it.

ghost use Rattle.std.specs.Prelude.{◌≡◌, ◌<◌, IfSome, slice_set};
ghost use Rattle.chi_filter.specs.Filter.{filter_without, is_in, others_than, owner_set, owner_without};
ghost use Rattle.chi_homeline.specs.Home.{asks, completed_filter, completes_unique, left_owner, left_shared, written_filter};
ghost use Rattle.chi_monitor.specs.HomeTurns.{beside, filter_of, is_beside, known_filter};

use chi_filter::has_any;
use chi_flit::{Agent, Kind};

/// A set of agents.
pub(crate) type AgentSet = [bool; 8];

/// Nobody.
pub(crate) const NOBODY: AgentSet = [false; 8];

/// Who is named, whether the flag is set, and who owns the line.
#[derive(Clone, Copy)]
pub(crate) struct KnownFilter {
    pub named: AgentSet,
    pub unique: bool,
    pub owner: Option<Agent>,
}

/// Those of one set that aren't in another one.
pub(crate) fn beside(set: &AgentSet, other: &AgentSet) -> AgentSet
    ensures { result ≡ beside set.now other.now }
{
    [
        is_beside(set, other, 0),
        is_beside(set, other, 1),
        is_beside(set, other, 2),
        is_beside(set, other, 3),
        is_beside(set, other, 4),
        is_beside(set, other, 5),
        is_beside(set, other, 6),
        is_beside(set, other, 7),
    ]
}

/// Whether the agent of this number is in one set and not in another one.
fn is_beside(set: &AgentSet, other: &AgentSet, number: u8) -> bool
    requires { number < 8 }
    ensures { result ≡ is_beside set.now other.now number }
{
    set[usize::from(number)] && !other[usize::from(number)]
}

/// The first agent that is in one set and not in another one.
pub(crate) fn first_beside(set: &AgentSet, other: &AgentSet) -> Option<Agent>
    ensures { IfSome result (λ agent. agent.0 < 8) }
{
    for number in 0..8 {
        if is_beside(set, other, number) {
            return Some(Agent(number));
        }
    }
    None
}

/// The set with the agent, or without it.
pub(crate) fn with_mark(mut set: AgentSet, agent: Agent, marked: bool) -> AgentSet
    requires { agent.0 < 8 }
    ensures { result ≡ slice_set set agent.0 marked }
{
    set[usize::from(agent.0)] = marked;
    set
}

/// Whether the agent is in the set.
#[tactic(auto, using(std::proofs::lemmas::List::get_or_past))]
pub(crate) fn has(set: &AgentSet, agent: Agent) -> bool
    ensures { result ≡ is_in set.now agent.0 }
{
    agent.0 < 8 && set[usize::from(agent.0)]
}

/// The owner as a set.
fn owner_set(owner: Option<Agent>) -> AgentSet
    ensures { result ≡ owner_set owner }
{
    match owner {
        Some(owner) if owner.0 < 8 => with_mark(NOBODY, owner, true),
        Some(_) | None => NOBODY,
    }
}

/// The owner that is left where the agent may not be it any more.
fn owner_without(owner: Option<Agent>, agent: Agent) -> Option<Agent>
    ensures { result ≡ owner_without owner agent.0 }
{
    match owner {
        Some(owner) if owner.0 == agent.0 => None,
        Some(owner) => Some(owner),
        None => None,
    }
}

impl KnownFilter {
    /// Nobody is named.
    pub const NONE: KnownFilter = KnownFilter {
        named: NOBODY,
        unique: false,
        owner: None,
    };

    /// Everybody who is named but the agent.
    pub fn others(&self, agent: Agent) -> AgentSet
        requires { agent.0 < 8 }
        ensures { result ≡ others_than agent.0 self.now.named }
    {
        with_mark(self.named, agent, false)
    }

    /// Whom a start of the agent's request of this kind snoops.
    pub fn targets(&self, agent: Agent, kind: Kind) -> AgentSet
        requires { agent.0 < 8 }
        ensures { result ≡ asks kind (filter_of self.now) agent.0 }
    {
        let others = self.others(agent);
        match kind {
            Kind::ReadNotSharedDirty | Kind::ReadShared => {
                if self.unique && has_any(&others) {
                    others
                } else {
                    with_mark(owner_set(self.owner), agent, false)
                }
            }
            Kind::ReadUnique | Kind::CleanUnique => others,
            _ => NOBODY,
        }
    }

    /// Whether a completion of the agent's request of this kind leaves it the only one named.
    pub fn completes_unique(&self, agent: Agent, kind: Kind) -> bool
        requires { agent.0 < 8 }
        ensures { result ≡ completes_unique kind (filter_of self.now) agent.0 }
    {
        match kind {
            Kind::ReadNotSharedDirty | Kind::ReadShared => !has_any(&self.others(agent)),
            Kind::ReadUnique | Kind::CleanUnique => true,
            _ => false,
        }
    }

    /// The filter behind a completion that leaves the agent the only one named, or not.
    pub fn completed(&self, agent: Agent, unique: bool) -> KnownFilter
        requires { agent.0 < 8 }
        ensures { result ≡ known_filter (completed_filter unique (filter_of self.now) agent.0) }
    {
        if unique {
            KnownFilter {
                named: with_mark(NOBODY, agent, true),
                unique: true,
                owner: None,
            }
        } else {
            KnownFilter {
                named: with_mark(self.named, agent, true),
                unique: false,
                owner: self.owner,
            }
        }
    }

    /// The agent is named no more, and no owner.
    pub fn left(&self, agent: Agent) -> KnownFilter
        requires { agent.0 < 8 }
        ensures { result ≡ known_filter (filter_without (filter_of self.now) agent.0) }
    {
        let named = self.others(agent);
        KnownFilter {
            named,
            unique: self.unique && has_any(&named),
            owner: owner_without(self.owner, agent),
        }
    }

    /// The agent has a shared copy, and no responsibility.
    pub fn shared(&self, agent: Agent) -> KnownFilter
        ensures { result ≡ known_filter (left_shared (filter_of self.now) agent.0) }
    {
        KnownFilter {
            unique: false,
            owner: owner_without(self.owner, agent),
            ..*self
        }
    }

    /// The agent has a shared copy, and is the owner.
    pub fn owned(&self, agent: Agent) -> KnownFilter
        ensures { result ≡ known_filter (left_owner (filter_of self.now) agent) }
    {
        KnownFilter {
            unique: false,
            owner: Some(agent),
            ..*self
        }
    }

    /// The filter behind write data, which leaves the agent without a copy, or not.
    pub fn written(&self, agent: Agent, gone: bool) -> KnownFilter
        requires { agent.0 < 8 }
        ensures { result ≡ known_filter (written_filter gone (filter_of self.now) agent.0) }
    {
        if gone {
            self.left(agent)
        } else {
            KnownFilter {
                owner: owner_without(self.owner, agent),
                ..*self
            }
        }
    }
}
