//! The ids that are open.

ghost use Rattle.std.specs.Prelude.{◌≡◌, option_map};
ghost use Rattle.chi_observe.specs.Ids.{id_of, is_followed, is_kept_for, is_unknown, opened_at, opened_id};

use crate::events::Tells;
use chi_ids::{CacheLine, IdKey, KeyNumbers, numbers_of};
use chi_observer::{Kind, Snoop};
use chi_trace::{DbId, PcrdType};
use indexmap::IndexMap;
use std::alloc::Allocator;
use std::hash::{BuildHasherDefault, FoldHasher};

/// What an id is open for.
/// Source: `docs/OBSERVER.md`, "Ids and credits".
#[derive(Clone, Copy, Debug, PartialEq, Eq)]
pub enum Purpose {
    /// A request, whose flit has AllowRetry where it is the first.
    Request { kind: Kind, first: bool },
    /// A snoop.
    Snoop(Snoop),
    /// A flit whose opcode isn't known, or one of a line that is set aside; which is a first attempt, or isn't.
    Unknown { first: bool },
}

impl Purpose {
    /// Whether its completion has to name a DBID, by which the home keeps it until CompAck or write data come.
    pub(crate) fn is_kept_for(self) -> bool
        ensures { result ≡ is_kept_for self }
    {
        match self {
            Purpose::Request { kind, first: _ } => is_followed(kind),
            Purpose::Snoop(_) => false,
            Purpose::Unknown { first: _ } => false,
        }
    }

    /// Whether it isn't known.
    pub(crate) fn is_unknown(self) -> bool
        ensures { result ≡ is_unknown self }
    {
        match self {
            Purpose::Request { kind: _, first: _ } => false,
            Purpose::Snoop(_) => false,
            Purpose::Unknown { first: _ } => true,
        }
    }
}

/// Whether a CompAck or write data follow the completion of such a request.
fn is_followed(kind: Kind) -> bool
    ensures { result ≡ is_followed kind }
{
    match kind {
        Kind::ReadOnce | Kind::CleanShared | Kind::CleanInvalid | Kind::MakeInvalid | Kind::Evict =>
            false,
        Kind::ReadNotSharedDirty
        | Kind::ReadShared
        | Kind::ReadClean
        | Kind::ReadUnique
        | Kind::CleanUnique
        | Kind::MakeUnique
        | Kind::WriteBackFull
        | Kind::WriteCleanFull
        | Kind::WriteEvictFull
        | Kind::WriteUniqueFull => true,
    }
}

/// What the later beats of an id's data are to their line.
/// Source: `docs/OBSERVER.md`, "Data in beats".
#[derive(Clone, Copy, Debug, PartialEq, Eq)]
pub enum Later {
    /// It is told of the data with the last one.
    Told,
    /// Their words are known since the first one.
    Held,
    /// Their words may be any, and tell nothing.
    Free,
}

/// An id that is open.
/// Source: `docs/OBSERVER.md`, "Ids and credits".
#[derive(Clone, Copy, Debug, PartialEq, Eq)]
pub struct OpenId {
    pub key: IdKey,
    pub line: CacheLine,
    pub purpose: Purpose,
    /// The type of credit that a retried request waits for.
    pub waits_for: Option<PcrdType>,
    /// Which words its data lacks, once a beat has come.
    pub lacks: Option<[bool; 8]>,
    /// What its data tell, with the words that have come, once a beat has; with all words where they are known.
    pub begun: Option<Tells>,
    pub later: Later,
    /// The DBID that the first beat named, of data that CompAck follows.
    pub dbid: Option<DbId>,
    /// The number of the trace's line that opened it, counted from 1; 0 of one that isn't open yet.
    pub since: usize,
}

/// The ids that are open, each under its key.
pub(crate) type IdTable<A> = IndexMap<KeyNumbers, OpenId, BuildHasherDefault<FoldHasher>, A>;

/// The open id that has this key.
pub(crate) fn find_id<A: Allocator>(ids: &IdTable<A>, key: IdKey) -> Option<&OpenId>
    ensures { option_map (λ id. id.now) result ≡ id_of key ids.now.entries }
{
    ids.get(&numbers_of(key))
}

/// An id that is opened.
pub(crate) fn opened_id(key: IdKey, line: CacheLine, purpose: Purpose) -> OpenId
    ensures { result ≡ opened_id key line purpose }
{
    OpenId {
        key,
        line,
        purpose,
        waits_for: None,
        lacks: None,
        begun: None,
        later: Later::Told,
        dbid: None,
        since: 0,
    }
}

impl OpenId {
    /// The same of a flit with this number.
    pub(crate) fn opened_at(&self, number: usize) -> OpenId
        ensures { result ≡ opened_at number self.now }
    {
        OpenId {
            since: number,
            ..*self
        }
    }
}
