//! What requests that are held may tell at most, where a log is taken at the home.

ghost use Rattle.std.specs.Prelude.{◌≡◌, ◌||◌, ℕ, not};
ghost use Rattle.chi_observer.specs.Lines.{agent_of, watched};
ghost use Rattle.chi_observer.specs.Tables.{told_issued};
ghost use Rattle.chi_observer.specs.Worlds.{all_below};
ghost use Rattle.chi_observer.specs.Arrivals.{arriving_of};
ghost use Rattle.chi_observer.specs.Doubts.{due_held, due_open, is_cleaning, is_maybe_unstored, may_tell_value, supposed, supposed_agent, told_ahead, told_held, told_open};

use crate::arriving::{Arriving, Earlier, Held, left_by_data};
use crate::flits::{Act, Due};
use crate::kinds::Kind;
use crate::observer::{AgentSeen, Observer};
use crate::told::Told;

/// The line where each request that is held counts as sent, with all that it may tell; and there was each moment that one
/// may tell of.
pub(crate) fn supposed(seen: &Observer, own: &[Arriving; 32]) -> Observer
    ensures { watched result ≡ supposed (watched seen.now) (arriving_of own.now) }
{
    let agents = each_supposed(&seen.agents, own);
    let none = is_no_value_told(&seen.agents, own);
    let current = has_value(seen.current, none);
    Observer {
        stores: seen.stores,
        agents,
        home: seen.home,
        current,
        duty: seen.duty,
        thrown: seen.thrown,
        waits: seen.waits,
        shown: [true; 32],
    }
}

/// Each agent, where its request that is held counts as sent.
fn each_supposed(seen: &[AgentSeen; 32], own: &[Arriving; 32]) -> [AgentSeen; 32]
    ensures { (n : ℕ) → agent_of result n
        ≡ supposed_agent (arriving_of own.now n) (agent_of seen.now n) }
{
    let mut agents = *seen;
    for n in 0..32 {
        agents[n] = own[n].supposed(seen[n]);
    }
    agents
}

/// Whether no request that is held may tell that the home has the value last stored.
fn is_no_value_told(seen: &[AgentSeen; 32], own: &[Arriving; 32]) -> bool
    ensures { result ≡ all_below 32
        (λ n. not (may_tell_value (arriving_of own.now n) (agent_of seen.now n).due)) }
{
    let mut none = true;
    for n in 0..32 {
        none = !own[n].may_tell_value(seen[n].due) && none;
    }
    none
}

/// Whether the home has the value last stored, as flits have told, or as some request that is held may tell.
fn has_value(current: bool, none: bool) -> bool
    ensures { result ≡ (current || not none) }
{
    current || !none
}

impl Arriving {
    /// The agent, where its request that is held counts as sent.
    fn supposed(self, agent: AgentSeen) -> AgentSeen
        ensures { result ≡ supposed_agent self agent }
    {
        AgentSeen {
            told: self.told_held(agent),
            due: due_held(self.held, agent.due),
            ..agent
        }
    }

    /// What its copy may be, whatever the request that is held was sent ahead of, or behind.
    fn told_held(self, agent: AgentSeen) -> Told
        ensures { result ≡ told_held self.held self.earlier agent.due agent.told }
    {
        match self.held {
            Held::Nothing => agent.told,
            Held::Open(kind) => self.earlier.told_open(kind, agent),
            Held::Retried => Told::I,
            Held::Evicted => Told::I,
        }
    }

    /// Whether its request that is held may tell that the home has the value last stored.
    fn may_tell_value(self, due: Due) -> bool
        ensures { result ≡ may_tell_value self due }
    {
        !self.holds_none() && self.is_maybe_unstored(due)
    }

    /// Whether its copy may not have been stored to, though it seemed so.
    fn is_maybe_unstored(self, due: Due) -> bool
        ensures { result ≡ is_maybe_unstored self due }
    {
        self.unsure || (self.earlier.thrown || (self.current && is_cleaning(due)))
    }
}

impl Earlier {
    /// What the copy may be behind a request that the home hasn't answered.
    fn told_open(self, kind: Kind, agent: AgentSeen) -> Told
        ensures { result ≡ told_open kind self agent.due agent.told }
    {
        match agent.due {
            Due::WriteData(asked) => issued(left_by_data(asked, agent.told), kind),
            _ => self.told_ahead(kind, agent.told),
        }
    }

    /// What the copy may be behind a request that may stand before the answer to a snoop, which the cache need not have given.
    fn told_ahead(self, kind: Kind, told: Told) -> Told
        ensures { result ≡ told_ahead kind self told }
    {
        if told.may_issue(kind, true) {
            return issued(told, kind);
        }
        if self.may_issue(kind) { told } else { Told::I }
    }
}

/// What the copy may be behind a request.
fn issued(told: Told, kind: Kind) -> Told
    ensures { result ≡ told_issued kind told }
{
    told.after(Act::Request(kind), Due::Nothing)
}

/// What is due where a request that is held counts as sent.
fn due_held(held: Held, due: Due) -> Due
    ensures { result ≡ due_held held due }
{
    match held {
        Held::Open(kind) => due_open(kind, due),
        _ => due,
    }
}

/// What is due where it is open: write data that are awaited first.
fn due_open(kind: Kind, due: Due) -> Due
    ensures { result ≡ due_open kind due }
{
    match due {
        Due::WriteData(_) => due,
        _ => Due::Completion(kind),
    }
}

/// Whether the data of a WriteCleanFull are awaited.
fn is_cleaning(due: Due) -> bool
    ensures { result ≡ is_cleaning due }
{
    matches!(due, Due::WriteData(Kind::WriteCleanFull))
}
