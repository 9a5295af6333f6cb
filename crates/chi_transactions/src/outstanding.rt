//! What is outstanding, to be told of.

ghost use Rattle.std.specs.Prelude.{◌≡◌, length, option_map, slice_get};
ghost use Rattle.chi_transactions.specs.Flits.{number_at};
ghost use Rattle.chi_transactions.specs.Outstanding.{account_numbered, account_row, id_row, waiting_row};
ghost use Rattle.chi_transactions.specs.Rule.{is_used};
ghost use Rattle.chi_transactions.specs.State.{state_of};

use crate::entries::{Credits, OpenId, Waiting};
use crate::flits::number_at;
use crate::ids::{Id, last_field};
use crate::maps::entry_in;
use crate::rule::is_used;
use crate::transactions::Transactions;
use chi_issue_b::{CacheLine, Flit, NodeId, PcrdType};
use std::alloc::Allocator;

/// Whose credits are counted together.
/// Source: `docs/TRANSACTIONS.md`, "Credits".
#[derive(Clone, Copy, Debug, PartialEq, Eq)]
pub struct Account {
    pub requester: NodeId,
    pub home: NodeId,
    pub credit: PcrdType,
}

impl OpenId {
    /// Whether something has to come by it still; not of an id from before the trace.
    /// Source: `docs/TRANSACTIONS.md`, "Credits".
    pub fn is_open(&self) -> bool
        ensures { result ≡ is_used self.now }
    {
        is_used(self)
    }
}

impl<A: Allocator> Transactions<A> {
    /// What is kept of the id that the flit opens or names; `None` where no flit has named it.
    /// Source: `docs/OBSERVER.md`, "Why a flit isn't taken".
    pub fn kept(&self, flit: &Flit) -> Option<OpenId>
        ensures { result ≡ (state_of self.now).ids (number_at flit.now) }
    {
        entry_in(&self.ids, number_at(flit))
    }

    /// How many ids flits have named.
    /// Source: `docs/OBSERVER.md`, "What is told to be open".
    pub fn id_count(&self) -> usize
        ensures { result ≡ length self.now.ids.entries }
    {
        self.ids.len()
    }

    /// The id that was named first after so many others, and what is kept of it; `None` where there is none.
    /// Source: `docs/OBSERVER.md`, "What is told to be open".
    pub fn id(&self, place: usize) -> Option<(Id, OpenId)>
        ensures { result ≡ option_map id_row (slice_get self.now.ids.entries place) }
    {
        match self.ids.get_index(place) {
            Some((number, id)) => Some((Id::numbered(*number), *id)),
            None => None,
        }
    }

    /// How many accounts of credits there are.
    /// Source: `docs/OBSERVER.md`, "What is told to be open".
    pub fn account_count(&self) -> usize
        ensures { result ≡ length self.now.credits.entries }
    {
        self.credits.len()
    }

    /// The account that was booked in first after so many others, and its credits; `None` where there is none.
    /// Source: `docs/OBSERVER.md`, "What is told to be open".
    pub fn account(&self, place: usize) -> Option<(Account, Credits)>
        ensures { result ≡ option_map account_row (slice_get self.now.credits.entries place) }
    {
        match self.credits.get_index(place) {
            Some((number, credits)) => Some((account_numbered(*number), *credits)),
            None => None,
        }
    }

    /// How many requests wait to be sent again.
    /// Source: `docs/OBSERVER.md`, "What is told to be open".
    pub fn waiting_count(&self) -> usize
        ensures { result ≡ length self.now.waiting.entries }
    {
        self.waiting.len()
    }

    /// One of the requests that wait: its requester, its cache line, and what it waits for; `None` where there aren't so many.
    /// Source: `docs/OBSERVER.md`, "What is told to be open".
    pub fn waiting(&self, place: usize) -> Option<(NodeId, CacheLine, Waiting)>
        ensures { result ≡ option_map waiting_row (slice_get self.now.waiting.entries place) }
    {
        match self.waiting.get_index(place) {
            Some((at, waiting)) => Some((NodeId(at.requester), CacheLine::at(at.line), *waiting)),
            None => None,
        }
    }
}

/// The account that has this number.
fn account_numbered(number: u64) -> Account
    ensures { result ≡ account_numbered number }
{
    let before = number / 65_536;
    Account {
        requester: NodeId(last_field(before / 65_536)),
        home: NodeId(last_field(before)),
        credit: PcrdType((number % 256) as u8),
    }
}
