//! Moments at which no other copy was dirty, or the home had the value last stored.

ghost use Rattle.std.specs.Prelude.{◌≡◌, ◌<◌, ◌&&◌, ℕ};
ghost use Rattle.chi_observer.specs.Moments.{is_issue, may_be_dirty, may_be_stored, opens_moment, tells_of};
ghost use Rattle.chi_observer.specs.Rules.{is_request};
ghost use Rattle.chi_observer.specs.Lines.{is_clean_beside, is_cleaned_of, known_of, moment_here, none_dirty_of, none_stored_of, none_waits, shown_here, shown_of, waits_here};

use crate::flits::{Act, Flit, Stores};
use crate::observer::AgentSeen;
use crate::rules::{awaits_moment, looks, needs_quiet, opens_moment, reads_once};
use crate::told::hides_stores;

/// Whether a CleanShared or a ReadOnce may be open behind the flit, where it is so that one may have been before.
pub(crate) fn waits_behind(agents: &[AgentSeen; 32], waits: bool, flit: Flit) -> bool
    ensures { result ≡ waits_here agents.now flit waits }
{
    opens(flit) || (waits && !is_none_waiting(agents))
}

/// Of each agent whose CleanShared or ReadOnce is open: whether there was its moment since its issue, behind the flit;
/// `agents` and `current` are as the flit leaves them, `shown` is as it was before, and `waits` says that some such
/// request may be open.
pub(crate) fn shown_behind(
    stores: Stores,
    agents: &[AgentSeen; 32],
    current: bool,
    waits: bool,
    shown: &[bool; 32],
    flit: Flit,
) -> [bool; 32]
    ensures { (n : ℕ) → shown_of result n
        ≡ (waits && shown_here stores agents.now current flit (shown_of shown.now n) n) }
{
    if !waits {
        return [false; 32];
    }
    each_shown(stores, agents, current, shown, flit)
}

/// The same where some such request may be open.
fn each_shown(
    stores: Stores,
    agents: &[AgentSeen; 32],
    current: bool,
    shown: &[bool; 32],
    flit: Flit,
) -> [bool; 32]
    ensures { (n : ℕ) → shown_of result n
        ≡ shown_here stores agents.now current flit (shown_of shown.now n) n }
{
    let mut behind = [false; 32];
    for n in 0..32 {
        behind[n] = is_shown(stores, agents, current, n, flit, shown[n]);
    }
    behind
}

/// The same of one agent.
fn is_shown(
    stores: Stores,
    agents: &[AgentSeen; 32],
    current: bool,
    agent: usize,
    flit: Flit,
    was: bool,
) -> bool
    requires { agent < 32 }
    ensures { result ≡ shown_here stores agents.now current flit was agent }
{
    awaits_moment(agents[agent].due)
        && ((!is_issue(flit, agent) && was) || is_moment(stores, agents, current, agent, flit))
}

/// Whether the flit has the moment that the agent's request needs right behind it.
fn is_moment(
    stores: Stores,
    agents: &[AgentSeen; 32],
    current: bool,
    agent: usize,
    flit: Flit,
) -> bool
    requires { agent < 32 }
    ensures { result ≡ moment_here stores agents.now current flit agent }
{
    if reads_once(agents[agent].due) {
        current && is_none_stored(stores, agents, flit)
    } else {
        is_cleaned(stores, agents, current, agent, flit)
    }
}

/// Whether no other agent's copy can be dirty right behind the flit, and the value last stored isn't lost.
fn is_cleaned(
    stores: Stores,
    agents: &[AgentSeen; 32],
    current: bool,
    agent: usize,
    flit: Flit,
) -> bool
    requires { agent < 32 }
    ensures { result ≡ is_cleaned_of stores agents.now current flit agent }
{
    (agents[agent].told.is_dirty() || current) && is_none_dirty(stores, agents, agent, flit)
}

/// Whether no agent has a CleanShared or a ReadOnce open.
fn is_none_waiting(agents: &[AgentSeen; 32]) -> bool
    ensures { result ≡ none_waits agents.now }
{
    let mut none = true;
    for n in 0..32 {
        none = !awaits_moment(agents[n].due) && none;
    }
    none
}

/// Whether no agent's copy can have been stored to unseen right behind the flit.
fn is_none_stored(stores: Stores, agents: &[AgentSeen; 32], flit: Flit) -> bool
    ensures { result ≡ none_stored_of stores agents.now flit }
{
    let mut none = true;
    for n in 0..32 {
        none = !agents[n].may_be_stored(stores, tells_of(flit, n)) && none;
    }
    none
}

/// Whether no other agent's copy can be dirty right behind the flit.
fn is_none_dirty(stores: Stores, agents: &[AgentSeen; 32], agent: usize, flit: Flit) -> bool
    ensures { result ≡ none_dirty_of stores agents.now flit agent }
{
    let mut clean = true;
    for n in 0..32 {
        clean &= is_clean_beside(stores, agents[n], n, agent, flit);
    }
    clean
}

/// Whether the other one's copy can't be dirty right behind the flit, if it is another than the agent.
fn is_clean_beside(stores: Stores, seen: AgentSeen, other: usize, agent: usize, flit: Flit) -> bool
    ensures { result ≡ is_clean_beside stores seen other agent flit }
{
    other == agent || !seen.may_be_dirty(stores, tells_of(flit, other))
}

/// Whether the flit is a CleanShared or a ReadOnce.
fn opens(flit: Flit) -> bool
    ensures { result ≡ opens_moment flit }
{
    match flit {
        Flit::Up(sent) => opens_moment(sent.act),
        Flit::Down(_) => false,
    }
}

/// Whether the flit is the agent's request.
fn is_issue(flit: Flit, agent: usize) -> bool
    ensures { result ≡ is_issue flit agent }
{
    match flit {
        Flit::Up(sent) => is_request(sent.act) && agent == usize::from(sent.agent.0),
        Flit::Down(_) => false,
    }
}

/// Whether a flit of a cache is a request.
pub(crate) fn is_request(act: Act) -> bool
    ensures { result ≡ is_request act }
{
    matches!(act, Act::Request(_))
}

/// Whether the agent's copy is as it is told right behind the flit.
fn tells_of(flit: Flit, agent: usize) -> bool
    ensures { result ≡ tells_of flit agent }
{
    match flit {
        Flit::Up(sent) => agent == usize::from(sent.agent.0) && !looks(sent.act),
        Flit::Down(given) => { agent == usize::from(given.agent.0) && !needs_quiet(given.grant) }
    }
}

impl AgentSeen {
    /// Whether the copy may have been stored to unseen; `told` says that the last flit told of it.
    fn may_be_stored(self, stores: Stores, told: bool) -> bool
        ensures { result ≡ may_be_stored stores self.due (known_of self) told }
    {
        !told && (hides_stores(stores, self.due) && self.told.is_unique())
    }

    /// Whether the copy may be dirty; `told` says that the last flit told of it.
    fn may_be_dirty(self, stores: Stores, told: bool) -> bool
        ensures { result ≡ may_be_dirty stores self.due (known_of self) told }
    {
        self.told.is_dirty() || self.may_be_stored(stores, told)
    }
}
