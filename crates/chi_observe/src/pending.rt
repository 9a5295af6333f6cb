//! What is open behind the flits of a trace.

ghost use Rattle.std.specs.Prelude.{◌≡◌};
ghost use Rattle.std.specs.List.{list_any};
ghost use Rattle.chi_observe.specs.Pending.{has_open_account, has_open_id, is_account_open, is_cancelled, is_cancelled_at, is_id_open, is_open};
ghost use Rattle.chi_observe.specs.Lines.{line_state};
ghost use Rattle.chi_observe.specs.Watched.{watched};

use crate::credits::Account;
use crate::ids::OpenId;
use crate::lines::{LineSeen, is_aside};
use crate::nodes::agent_of;
use crate::watch::Watch;
use chi_flit::Agent;
use chi_ids::IdKey;
use std::alloc::Allocator;

/// Whether the agent's request at the line that was retried is surely cancelled.
fn is_cancelled_at<A: Allocator>(seen: &LineSeen<A>, agent: Agent) -> bool
    ensures { result ≡ is_cancelled_at (line_state seen.now) agent }
{
    if seen.aside || seen.judge.holds(agent) {
        return false;
    }
    match seen.judge.observer().agents.get(usize::from(agent.0)) {
        Some(agent) => agent.cancelled,
        None => false,
    }
}

/// Whether credits are owed, or unused.
pub(crate) fn is_account_open(account: &Account) -> bool
    ensures { result ≡ is_account_open account.now }
{
    account.owed() > 0 || account.unused() > 0
}

impl<A: Allocator> Watch<A> {
    /// Whether an id is of a request that was retried and is surely cancelled.
    fn is_cancelled(&self, id: &OpenId) -> bool
        ensures { result ≡ is_cancelled (watched self.now) id.now.key }
    {
        match id.key {
            IdKey::Retried(sides, line) => {
                let agent = agent_of(&self.requesters, &self.homes, sides);
                match (agent, self.lines.get(&line.0)) {
                    (Some(agent), Some(seen)) => is_cancelled_at(seen, agent),
                    _ => false,
                }
            }
            IdKey::Request(_, _) | IdKey::Buffer(_, _) | IdKey::Snoop(_, _) => false,
        }
    }

    /// Whether an id is open that is of a line which isn't set aside.
    pub(crate) fn is_id_open(&self, id: &OpenId) -> bool
        ensures { result ≡ is_id_open (watched self.now) id.now }
    {
        !self.is_cancelled(id) && !is_aside(&self.lines, id.line)
    }

    /// Whether some id is open.
    fn has_open_id(&self) -> bool
        ensures { result ≡ has_open_id (watched self.now) }
    {
        let ids = self.ids.values().as_slice();
        ids.iter().any(|id| self.is_id_open(id))
    }

    /// Whether some account is open.
    fn has_open_account(&self) -> bool
        ensures { result ≡ has_open_account (watched self.now) }
    {
        let accounts = self.accounts.values().as_slice();
        accounts.iter().any(|account| is_account_open(account))
    }

    /// Whether anything is open: a request, a completion, a snoop, data that lack words, or a credit.
    /// Source: `docs/OBSERVER.md`, "What is printed".
    pub fn is_open(&self) -> bool
        ensures { result ≡ is_open (watched self.now) }
    {
        self.has_open_id() || (!self.options.is_cut() && self.has_open_account())
    }
}
