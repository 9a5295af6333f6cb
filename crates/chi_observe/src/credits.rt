//! The protocol credits: of each home, requester and type what was retried, granted, sent again and returned.

ghost use Rattle.std.specs.Prelude.{◌≡◌, IfSome};
ghost use Rattle.chi_observe.specs.Credits.{account_numbers, account_of, may_grant, opened_account, owed_of, unused_of, with_event};
ghost use Rattle.chi_observe.specs.Credits.{type_of_four, type_of_two, wanted_of};

use chi_ids::Sides;
use chi_observer::Kind;
use chi_trace::PcrdType;
use indexmap::IndexMap;
use std::alloc::Allocator;
use std::hash::{BuildHasherDefault, FoldHasher};

/// Which types of credit a trace has.
/// Source: `docs/OBSERVER.md`, "Ids and credits".
#[derive(Clone, Copy, Debug, PartialEq, Eq)]
pub enum CreditTypes {
    /// Those of profile `Two`, each with its kinds of request.
    Two,
    /// Those of profile `Four`, each with its kinds of request.
    Four,
    /// Any, each with any kind of request.
    Any,
}

impl CreditTypes {
    /// The type that a RetryAck of a request of this kind names; `None` where it may be any.
    pub(crate) fn wanted(self, kind: Kind) -> Option<PcrdType>
        ensures { result ≡ wanted_of self kind }
    {
        match self {
            CreditTypes::Two => Some(PcrdType(type_of_two(kind))),
            CreditTypes::Four => Some(PcrdType(type_of_four(kind))),
            CreditTypes::Any => None,
        }
    }
}

/// The type of a kind, where there are two: write data have one of their own.
fn type_of_two(kind: Kind) -> u8
    ensures { result ≡ type_of_two kind }
{
    match kind {
        Kind::WriteBackFull | Kind::WriteCleanFull | Kind::WriteEvictFull | Kind::WriteUniqueFull =>
            1,
        Kind::ReadNotSharedDirty
        | Kind::ReadShared
        | Kind::ReadClean
        | Kind::ReadOnce
        | Kind::ReadUnique
        | Kind::CleanUnique
        | Kind::MakeUnique
        | Kind::CleanShared
        | Kind::CleanInvalid
        | Kind::MakeInvalid
        | Kind::Evict => 0,
    }
}

/// The type of a kind, where there are four: shared reads, write data, what takes copies away or cleans them, and Evict.
fn type_of_four(kind: Kind) -> u8
    ensures { result ≡ type_of_four kind }
{
    match kind {
        Kind::ReadNotSharedDirty | Kind::ReadShared | Kind::ReadClean | Kind::ReadOnce => 0,
        Kind::WriteBackFull | Kind::WriteCleanFull | Kind::WriteEvictFull | Kind::WriteUniqueFull =>
            1,
        Kind::ReadUnique
        | Kind::CleanUnique
        | Kind::MakeUnique
        | Kind::CleanShared
        | Kind::CleanInvalid
        | Kind::MakeInvalid => 2,
        Kind::Evict => 3,
    }
}

/// What the flits so far have shown of a requester's credits of a type from a home.
/// Source: `docs/OBSERVER.md`, "Ids and credits".
#[derive(Clone, Copy, Debug, PartialEq, Eq)]
pub struct Account {
    pub sides: Sides,
    pub pcrd: PcrdType,
    /// RetryAcks.
    pub retried: u64,
    /// PCrdGrants.
    pub granted: u64,
    /// Requests without AllowRetry.
    pub resent: u64,
    /// PCrdReturns.
    pub returned: u64,
}

/// An account's key as numbers.
#[derive(Clone, Copy, PartialEq, Eq, Hash)]
pub(crate) struct AccountNumbers {
    home: u16,
    requester: u16,
    pcrd: u8,
}

/// The accounts, each under its key.
pub(crate) type AccountTable<A> = IndexMap<
    AccountNumbers,
    Account,
    BuildHasherDefault<FoldHasher>,
    A,
>;

/// What a flit does to an account.
#[derive(Clone, Copy)]
pub(crate) enum CreditEvent {
    Retried,
    Granted,
    Resent,
    Returned,
}

/// An account before a flit, and what the flit does to it.
#[derive(Clone, Copy)]
pub(crate) struct Booking {
    pub account: Account,
    pub event: CreditEvent,
}

/// The key of the account of these nodes and this type, as numbers.
pub(crate) fn account_numbers(sides: Sides, pcrd: PcrdType) -> AccountNumbers
    ensures { result ≡ account_numbers sides pcrd }
{
    AccountNumbers {
        home: sides.home.0,
        requester: sides.requester.0,
        pcrd: pcrd.0,
    }
}

/// The account of nodes between which nothing was booked.
fn opened_account(sides: Sides, pcrd: PcrdType) -> Account
    ensures { result ≡ opened_account sides pcrd }
{
    Account {
        sides,
        pcrd,
        retried: 0,
        granted: 0,
        resent: 0,
        returned: 0,
    }
}

/// The account of these nodes and this type.
pub(crate) fn find_account<A: Allocator>(
    accounts: &AccountTable<A>,
    sides: Sides,
    pcrd: PcrdType,
) -> Account
    ensures { result ≡ account_of sides pcrd accounts.now.entries }
{
    match accounts.get(&account_numbers(sides, pcrd)) {
        Some(account) => *account,
        None => opened_account(sides, pcrd),
    }
}

impl Account {
    /// The credits that a RetryAck has promised, and that were granted, and neither spent nor returned.
    /// Source: `docs/OBSERVER.md`, "Ids and credits".
    pub fn unused(&self) -> u64
        ensures { result ≡ unused_of self.now }
    {
        self.granted
            .min(self.retried)
            .saturating_sub(self.resent)
            .saturating_sub(self.returned)
    }

    /// The retried requests that no grant has come for.
    /// Source: `docs/OBSERVER.md`, "Ids and credits".
    pub fn owed(&self) -> u64
        ensures { result ≡ owed_of self.now }
    {
        self.retried.saturating_sub(self.granted)
    }

    /// Whether one more credit may be granted: G < R, or as far above R as that.
    pub(crate) fn may_grant(&self, early: u64) -> bool
        ensures { result ≡ may_grant self.now early }
    {
        match self.granted.checked_sub(self.retried) {
            Some(ahead) => ahead < early,
            None => true,
        }
    }

    /// The account with one more; `None` where the number would pass 2^64.
    pub(crate) fn with_event(&self, event: CreditEvent) -> Option<Account>
        ensures { IfSome result (λ account. account ≡ with_event event self.now) }
    {
        let mut account = *self;
        match event {
            CreditEvent::Retried => account.retried = self.retried.checked_add(1)?,
            CreditEvent::Granted => account.granted = self.granted.checked_add(1)?,
            CreditEvent::Resent => account.resent = self.resent.checked_add(1)?,
            CreditEvent::Returned => account.returned = self.returned.checked_add(1)?,
        }
        Some(account)
    }
}
