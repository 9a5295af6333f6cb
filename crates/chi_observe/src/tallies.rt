//! What a bench's watch holds: counts, and each id and account by its place.

ghost use Rattle.std.specs.Prelude.{◌≡◌, length, slice_get};
ghost use Rattle.std.specs.List.{count_by};
ghost use Rattle.std.specs.Map.{values_of};
ghost use Rattle.chi_observe.specs.Benches.{benched};
ghost use Rattle.chi_observe.specs.Pending.{is_account_open, is_id_open};
ghost use Rattle.chi_observe.specs.Tallies.{form_of, is_open_as, is_same_form, open_as, tallied, unsettled};
ghost use Rattle.chi_observe.specs.Watched.{watched};

use crate::benches::BenchWatch;
use crate::credits::Account;
use crate::ids::OpenId;
use crate::pending::is_account_open;
use crate::watch::{Counts, Watch};
use chi_ids::IdKey;
use std::alloc::Allocator;

/// What an id is named by.
/// Source: `docs/OBSERVER.md`, "Ids and credits".
#[derive(Clone, Copy, Debug, PartialEq, Eq)]
pub enum IdForm {
    Request,
    Buffer,
    Snoop,
    Retried,
}

/// How much a watch holds.
/// Source: `docs/OBSERVER.md`, "A watch with a room".
#[derive(Clone, Copy, Debug, PartialEq, Eq)]
pub struct Tally {
    pub counts: Counts,
    pub requesters: usize,
    pub homes: usize,
    /// Ids that are held, open or not.
    pub ids: usize,
    pub accounts: usize,
    /// Open ids, by their forms.
    pub requests: usize,
    pub completions: usize,
    pub snoops: usize,
    pub retried: usize,
    /// Accounts with credits that are owed or unused.
    pub unsettled: usize,
}

/// What a key names by.
fn form_of(key: IdKey) -> IdForm
    ensures { result ≡ form_of key }
{
    match key {
        IdKey::Request(_, _) => IdForm::Request,
        IdKey::Buffer(_, _) => IdForm::Buffer,
        IdKey::Snoop(_, _) => IdForm::Snoop,
        IdKey::Retried(_, _) => IdForm::Retried,
    }
}

/// Whether both are one form.
fn is_same_form(one: IdForm, other: IdForm) -> bool
    ensures { result ≡ is_same_form one other }
{
    match (one, other) {
        (IdForm::Request, IdForm::Request) => true,
        (IdForm::Buffer, IdForm::Buffer) => true,
        (IdForm::Snoop, IdForm::Snoop) => true,
        (IdForm::Retried, IdForm::Retried) => true,
        _ => false,
    }
}

impl<A: Allocator> Watch<A> {
    /// Whether an id of the form is open.
    fn is_open_as(&self, form: IdForm, id: &OpenId) -> bool
        ensures { result ≡ is_open_as (watched self.now) form id.now }
    {
        is_same_form(form, form_of(id.key)) && self.is_id_open(id)
    }

    /// How many ids of the form are open.
    fn open_as(&self, form: IdForm) -> usize
        ensures { result ≡ open_as (watched self.now) form }
    {
        let ids = self.ids.values().as_slice();
        ids.iter().filter(|id| self.is_open_as(form, id)).count()
    }

    /// How many accounts have credits that are owed or unused.
    fn unsettled(&self) -> usize
        ensures { result ≡ unsettled (watched self.now) }
    {
        let accounts = self.accounts.values().as_slice();
        accounts
            .iter()
            .filter(|account| is_account_open(account))
            .count()
    }

    /// How much it holds.
    fn tally(&self) -> Tally
        ensures { result ≡ tallied (watched self.now) }
    {
        Tally {
            counts: self.counts,
            requesters: self.requesters.len(),
            homes: self.homes.len(),
            ids: self.ids.len(),
            accounts: self.accounts.len(),
            requests: self.open_as(IdForm::Request),
            completions: self.open_as(IdForm::Buffer),
            snoops: self.open_as(IdForm::Snoop),
            retried: self.open_as(IdForm::Retried),
            unsettled: self.unsettled(),
        }
    }
}

impl<A: Allocator> BenchWatch<A> {
    /// How much it holds.
    /// Source: `docs/OBSERVER.md`, "A watch with a room".
    pub fn tally(&self) -> Tally
        ensures { result ≡ tallied (benched self.now).told.told }
    {
        self.bounded.watch.tally()
    }

    /// The id of a place among those that are held.
    /// Source: `docs/OBSERVER.md`, "A watch with a room".
    pub fn id_at(&self, place: usize) -> Option<OpenId>
        ensures { result ≡ slice_get (values_of (benched self.now).told.told.ids) place }
    {
        let ids = self.bounded.watch.ids.values().as_slice();
        match ids.get(place) {
            Some(id) => Some(*id),
            None => None,
        }
    }

    /// Whether an id is open: it is of a line that isn't set aside, and of no retried request that is surely cancelled.
    /// Source: `docs/OBSERVER.md`, "What is printed".
    pub fn is_id_open(&self, id: &OpenId) -> bool
        ensures { result ≡ is_id_open (benched self.now).told.told id.now }
    {
        self.bounded.watch.is_id_open(id)
    }

    /// The account of a place among those that are held.
    /// Source: `docs/OBSERVER.md`, "A watch with a room".
    pub fn account_at(&self, place: usize) -> Option<Account>
        ensures { result ≡ slice_get (values_of (benched self.now).told.told.accounts) place }
    {
        let accounts = self.bounded.watch.accounts.values().as_slice();
        match accounts.get(place) {
            Some(account) => Some(*account),
            None => None,
        }
    }
}
