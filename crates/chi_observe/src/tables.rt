//! What is open, and what a flit may name of it.

ghost use Rattle.std.specs.Prelude.{◌≡◌};
ghost use Rattle.std.specs.List.{find};
ghost use Rattle.chi_observe.specs.Tables.{booking_of, freed, freed_key, in_line, is_stray, kept_id, named, new_buffer, new_id, plain_change, right_type, stray, stray_id, table_of, unknown_id};

use crate::credits::{AccountTable, Booking, CreditEvent, find_account};
use crate::events::Tells;
use crate::ids::{IdTable, OpenId, Purpose, find_id, opened_id};
use crate::lines::{LineTable, is_aside};
use crate::reasons::IdReason;
use crate::steps::WatchOptions;
use chi_ids::{CacheLine, IdKey, Sides, is_alike, sides_of};
use chi_trace::{DbId, PcrdType};
use std::alloc::Allocator;

/// What part of its data a flit is.
#[derive(Clone, Copy)]
pub(crate) enum Part {
    /// All, or the flit has none.
    Whole,
    /// The first beat: these other words lack.
    First([bool; 8]),
    /// The first beat, of data whose words are known or tell nothing: what they tell, with all words.
    Known(Tells),
    /// A later one, behind which words lack.
    Further,
    /// A later one of data whose words were known at the first: whether it has them.
    Held(bool),
    /// The last one: what the data tell, with all words.
    Last(Tells),
}

/// What a flit of a line does to ids and credits.
#[derive(Clone, Copy)]
pub(crate) struct Change {
    pub line: CacheLine,
    /// The key of the id that it frees, where that is open.
    pub frees: Option<IdKey>,
    /// The id that stays open, with the words that its data lacks.
    pub keeps: Option<OpenId>,
    pub opens: Option<OpenId>,
    pub books: Option<Booking>,
    pub part: Part,
}

/// What is open.
#[derive(Drop)]
pub(crate) struct Tables<'a, A: Allocator> {
    pub options: WatchOptions,
    pub ids: &'a IdTable<A>,
    pub accounts: &'a AccountTable<A>,
    pub lines: &'a LineTable<A>,
}

/// A flit that neither frees, opens nor books.
pub(crate) fn plain_change(line: CacheLine) -> Change
    ensures { result ≡ plain_change line }
{
    Change {
        line,
        frees: None,
        keeps: None,
        opens: None,
        books: None,
        part: Part::Whole,
    }
}

/// The id, which is of the line that is named, if one is.
pub(crate) fn in_line(found: &OpenId, at: Option<CacheLine>) -> Result<OpenId, IdReason>
    ensures { result ≡ in_line at found.now }
{
    match at {
        Some(named) if named.0 != found.line.0 => Err(IdReason::WrongAddress {
            named,
            line: found.line,
        }),
        Some(_) | None => Ok(*found),
    }
}

/// An id of which only its line is known.
pub(crate) fn unknown_id(key: IdKey, line: CacheLine) -> OpenId
    ensures { result ≡ unknown_id key line }
{
    opened_id(key, line, Purpose::Unknown { first: false })
}

/// The key that a flit which names this id frees: none of one that isn't known.
pub(crate) fn freed_key(found: &OpenId) -> Option<IdKey>
    ensures { result ≡ freed_key found.now }
{
    if found.purpose.is_unknown() {
        None
    } else {
        Some(found.key)
    }
}

/// The named type, which is the wanted one, if that isn't open.
pub(crate) fn right_type(named: PcrdType, wanted: Option<PcrdType>) -> Result<PcrdType, IdReason>
    ensures { result ≡ right_type named wanted }
{
    match wanted {
        Some(wanted) if wanted.0 != named.0 => Err(IdReason::OtherType { named, wanted }),
        Some(_) | None => Ok(named),
    }
}

impl<A: Allocator> Tables<'_, A> {
    /// Whether the line is set aside.
    pub(crate) fn is_aside(&self, line: CacheLine) -> bool
        ensures { result ≡ (table_of self.now).aside line.0 }
    {
        is_aside(self.lines, line)
    }

    /// The key, which no open id has but one of a line that is set aside.
    pub(crate) fn new_id(&self, key: IdKey) -> Result<IdKey, IdReason>
        ensures { result ≡ new_id (table_of self.now) key }
    {
        match find_id(self.ids, key) {
            Some(found) => {
                if self.is_aside(found.line) {
                    Ok(key)
                } else {
                    Err(IdReason::InUse(key))
                }
            }
            None => Ok(key),
        }
    }

    /// Whether an id is of a line that is set aside, and has this key but for its home.
    fn is_stray(&self, id: &OpenId, key: IdKey) -> bool
        ensures { result ≡ is_stray (table_of self.now) key id.now }
    {
        is_alike(key, id.key) && self.is_aside(id.line)
    }

    /// The first such id.
    pub(crate) fn stray_id(&self, key: IdKey) -> Option<OpenId>
        ensures { result ≡ stray_id (table_of self.now) key }
    {
        let ids = self.ids.values().as_slice();
        match ids.iter().find(|id| self.is_stray(id, key)) {
            Some(id) => Some(unknown_id(id.key, id.line)),
            None => None,
        }
    }

    /// What a flit that names no open id is of: of the line of its address, or of an id of its requester, that are set aside.
    fn stray(&self, key: IdKey, at: Option<CacheLine>) -> Option<OpenId>
        ensures { result ≡ stray (table_of self.now) key at }
    {
        match at {
            Some(line) => {
                if self.is_aside(line) {
                    Some(unknown_id(key, line))
                } else {
                    None
                }
            }
            None => self.stray_id(key),
        }
    }

    /// The open id that a flit names, which is of the line that it names, if it names one.
    pub(crate) fn named(&self, key: IdKey, at: Option<CacheLine>) -> Result<OpenId, IdReason>
        ensures { result ≡ named (table_of self.now) key at }
    {
        match find_id(self.ids, key) {
            Some(found) => in_line(found, at),
            None => self.stray(key, at).ok_or(IdReason::NotOpen(key)),
        }
    }

    /// The open id that a flit without data frees.
    pub(crate) fn freed(&self, key: IdKey, at: Option<CacheLine>) -> Result<OpenId, IdReason>
        ensures { result ≡ freed (table_of self.now) key at }
    {
        let found = self.named(key, at)?;
        match found.lacks {
            Some(_) => Err(IdReason::Unfinished(key)),
            None => Ok(found),
        }
    }

    /// One more in the account of the nodes and the type.
    pub(crate) fn booking(&self, sides: Sides, pcrd: PcrdType, event: CreditEvent) -> Booking
        ensures { result ≡ booking_of (table_of self.now) sides pcrd event }
    {
        Booking {
            account: find_account(self.accounts, sides, pcrd),
            event,
        }
    }

    /// A DBID is opened for the id.
    fn kept_id(&self, found: &OpenId, dbid: DbId) -> Result<Option<OpenId>, IdReason>
        ensures { result ≡ kept_id (table_of self.now) found.now dbid }
    {
        let key = self.new_id(IdKey::Buffer(sides_of(found.key), dbid))?;
        Ok(Some(opened_id(key, found.line, found.purpose)))
    }

    /// The DBID that a completion opens, where a CompAck or write data follow.
    pub(crate) fn new_buffer(
        &self,
        found: &OpenId,
        dbid: Option<DbId>,
    ) -> Result<Option<OpenId>, IdReason>
        ensures { result ≡ new_buffer (table_of self.now) found.now dbid }
    {
        if found.purpose.is_kept_for() {
            let dbid = dbid.ok_or(IdReason::NoDbid(found.key))?;
            return self.kept_id(found, dbid);
        }
        match dbid {
            Some(dbid) => {
                if found.purpose.is_unknown() {
                    self.kept_id(found, dbid)
                } else {
                    Ok(None)
                }
            }
            None => Ok(None),
        }
    }
}
