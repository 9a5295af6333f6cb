//! The ledger of the protocol credits: of each node and type what was retried, granted, resent, cancelled and returned.

ghost use Rattle.std.specs.Prelude.{◌≡◌, position, IfSome};
ghost use Rattle.chi_resolution.specs.Ledger.{account_at, attempts, booked_type, fits, held_of, is_account, is_attempt, may_return, opened_account, owed_of, unused_of, wanted_of, with_event};

use crate::ids::{KeyTable, OpenId, OpenKey};
use chi_flit::{CreditType, Kind, Profile, credit_type};
use chi_trace::{NodeId, PcrdType};
use std::alloc::Allocator;

/// Which types of credit a trace has.
/// Source: `docs/TRACES.md`, "Nodes, ids and credits".
#[derive(Clone, Copy, Debug, PartialEq, Eq)]
pub enum Types {
    /// Those of profile `Two`, each with its kinds of request.
    Two,
    /// Those of profile `Four`, each with its kinds of request.
    Four,
    /// Any, each with any kind of request.
    Any,
}

/// What the flits so far have shown of a node's credits of a type.
/// Source: `docs/TRACES.md`, "Nodes, ids and credits".
#[derive(Clone, Copy, Debug, PartialEq, Eq)]
pub struct CreditLedger {
    pub node: NodeId,
    pub pcrd: PcrdType,
    /// RetryAcks.
    pub retried: u64,
    /// PCrdGrants.
    pub granted: u64,
    /// Requests without AllowRetry.
    pub resent: u64,
    /// Retried copy-backs that aren't resent, as their copies are lost.
    pub cancelled: u64,
    /// PCrdReturns.
    pub returned: u64,
}

/// An account, and its place among those that there are; none where nothing was booked in it yet.
#[derive(Clone, Copy)]
pub(crate) struct Held {
    pub place: Option<usize>,
    pub account: CreditLedger,
}

/// What a flit does to an account.
#[derive(Clone, Copy)]
pub(crate) enum CreditEvent {
    Retried,
    /// A RetryAck of a request that is cancelled at once.
    RetriedInVain,
    Granted,
    Resent,
    Cancelled,
    Returned,
}

/// What a flit does to which account.
#[derive(Clone, Copy)]
pub(crate) struct Booking {
    pub held: Held,
    pub event: CreditEvent,
}

impl Types {
    /// The type of credit that a request of this kind waits for in the protocol.
    pub(crate) fn credit(self, kind: Kind) -> CreditType
        ensures { result ≡ booked_type self kind }
    {
        match self {
            Types::Two | Types::Any => credit_type(Profile::Two, kind),
            Types::Four => credit_type(Profile::Four, kind),
        }
    }

    /// The type that a RetryAck of a request of this kind names; `None` where it may be any.
    pub(crate) fn wanted(self, kind: Kind) -> Option<PcrdType>
        ensures { result ≡ wanted_of self kind }
    {
        match self {
            Types::Two | Types::Four => Some(PcrdType(self.credit(kind).number())),
            Types::Any => None,
        }
    }

    /// Whether a request of this kind may be retried with the type.
    fn fits(self, kind: Kind, pcrd: PcrdType) -> bool
        ensures { result ≡ fits self kind pcrd }
    {
        match self.wanted(kind) {
            Some(wanted) => wanted.0 == pcrd.0,
            None => true,
        }
    }

    /// Whether the id is that of a first attempt of the node that may be retried with the type.
    fn is_attempt(self, node: NodeId, pcrd: PcrdType, id: &OpenId) -> bool
        ensures { result ≡ is_attempt self node pcrd id.now }
    {
        match (id.key, id.may_retry) {
            (OpenKey::Request(requester, _), Some(kind)) => {
                requester.0 == node.0 && self.fits(kind, pcrd)
            }
            _ => false,
        }
    }

    /// How many first attempts of the node are open that may be retried with the type.
    pub(crate) fn attempts<A: Allocator>(
        self,
        ids: &KeyTable<OpenId, A>,
        node: NodeId,
        pcrd: PcrdType,
    ) -> usize
        ensures { result ≡ attempts self node pcrd ids.now.entries }
    {
        let ids = ids.values().as_slice();
        ids.iter()
            .filter(|id| self.is_attempt(node, pcrd, id))
            .count()
    }
}

/// The account of a node that nothing was retried of.
fn opened_account(node: NodeId, pcrd: PcrdType) -> CreditLedger
    ensures { result ≡ opened_account node pcrd }
{
    CreditLedger {
        node,
        pcrd,
        retried: 0,
        granted: 0,
        resent: 0,
        cancelled: 0,
        returned: 0,
    }
}

impl CreditLedger {
    /// Whether it is that of this node and type.
    fn is_of(&self, node: NodeId, pcrd: PcrdType) -> bool
        ensures { result ≡ is_account node pcrd self.now }
    {
        self.node.0 == node.0 && self.pcrd.0 == pcrd.0
    }

    /// The credits that were granted and neither spent nor returned.
    /// Source: `docs/TRACES.md`, "Nodes, ids and credits".
    pub fn unused(&self) -> u64
        ensures { result ≡ unused_of self.now }
    {
        self.granted
            .saturating_sub(self.resent)
            .saturating_sub(self.returned)
    }

    /// The retried requests that no grant has come for.
    /// Source: `docs/TRACES.md`, "Nodes, ids and credits".
    pub fn owed(&self) -> u64
        ensures { result ≡ owed_of self.now }
    {
        self.retried.saturating_sub(self.granted)
    }

    /// Whether one more credit may be returned: G - S - B > 0, and C > B.
    pub(crate) fn may_return(&self) -> bool
        ensures { result ≡ may_return self.now }
    {
        self.unused() > 0 && self.returned < self.cancelled
    }

    /// The account with one more; `None` where the number would pass 2^64.
    pub(crate) fn with_event(&self, event: CreditEvent) -> Option<CreditLedger>
        ensures { IfSome result (λ account. account ≡ with_event event self.now) }
    {
        let mut account = *self;
        match event {
            CreditEvent::Retried => account.retried = self.retried.checked_add(1)?,
            CreditEvent::RetriedInVain => {
                account.retried = self.retried.checked_add(1)?;
                account.cancelled = self.cancelled.checked_add(1)?;
            }
            CreditEvent::Granted => account.granted = self.granted.checked_add(1)?,
            CreditEvent::Resent => account.resent = self.resent.checked_add(1)?,
            CreditEvent::Cancelled => account.cancelled = self.cancelled.checked_add(1)?,
            CreditEvent::Returned => account.returned = self.returned.checked_add(1)?,
        }
        Some(account)
    }
}

/// The place of the account of a node and a type.
fn place_of(accounts: &[CreditLedger], node: NodeId, pcrd: PcrdType) -> Option<usize>
    ensures { result ≡ position (is_account node pcrd) accounts.now }
{
    accounts
        .iter()
        .position(|account| account.is_of(node, pcrd))
}

/// The account at a place: one with nothing where there is none.
fn account_at(
    place: Option<usize>,
    node: NodeId,
    pcrd: PcrdType,
    accounts: &[CreditLedger],
) -> CreditLedger
    ensures { result ≡ account_at place node pcrd accounts.now }
{
    match place {
        Some(place) => match accounts.get(place) {
            Some(account) => *account,
            None => opened_account(node, pcrd),
        },
        None => opened_account(node, pcrd),
    }
}

/// The account of a node and a type, and its place.
pub(crate) fn find_account(accounts: &[CreditLedger], node: NodeId, pcrd: PcrdType) -> Held
    ensures { result ≡ held_of node pcrd accounts.now }
{
    let place = place_of(accounts, node, pcrd);
    let account = account_at(place, node, pcrd, accounts);
    Held { place, account }
}
