//! A watch with a room: it has tables for so much, and refuses a flit that would add more.

ghost use Rattle.std.specs.Prelude.{◌≡◌, IfOk, Ok, []};
ghost use Rattle.chi_observe.specs.Benches.{line_in};
ghost use Rattle.chi_observe.specs.Bounded.{IsBoundedTaken, access_fits, account_fits, adds_requester, booking_fits, bounded, change_fits, fits, has_room, ids_behind, is_account_new, is_freed, is_new, is_opened_as, line_fits, nodes_fit, nothing_bounded, number_of, opens_account};
ghost use Rattle.chi_observe.specs.Nodes.{adds_home};
ghost use Rattle.chi_observe.specs.Watched.{allowed, nothing_watched, watched};

use crate::causes::MOST_CAUSES;
use crate::credits::{AccountTable, Booking, account_numbers};
use crate::events::{AccessEvent, Event, LineEvent};
use crate::ids::{IdTable, OpenId, find_id};
use crate::lines::{LineTable, SpareMarks, home_of};
use crate::nodes::adds_home;
use crate::reasons::IdReason;
use crate::steps::WatchOptions;
use crate::tables::{Change, Part};
use crate::watch::{Counts, Watch, WatchFault, WatchStop};
use chi_flit::Agent;
use chi_ids::{CacheLine, IdKey, Sides, numbers_of};
use chi_trace::NodeId;
use indexmap::IndexMap;
use std::alloc::{AllocError, Allocator};

/// How much a watch has room for.
/// Source: `docs/OBSERVER.md`, "A watch with a room".
#[derive(Clone, Copy, Debug, PartialEq, Eq)]
pub struct Room {
    pub requesters: usize,
    pub homes: usize,
    /// Lines of memory that flits touch.
    pub lines: usize,
    /// Ids that are held at once.
    pub ids: usize,
    /// Accounts of credits.
    pub accounts: usize,
}

/// A watch with a room.
/// Source: `docs/OBSERVER.md`, "A watch with a room".
#[derive(Drop)]
pub struct BoundedWatch<A: Allocator> {
    pub(crate) room: Room,
    pub(crate) watch: Watch<A>,
}

/// Why a watch with a room didn't go on.
/// Source: `docs/OBSERVER.md`, "A watch with a room".
#[derive(Clone, Copy, Debug, PartialEq, Eq)]
pub enum BoundedStop {
    /// The flit isn't taken, and nothing has changed.
    Fault(WatchFault),
    /// There is no room for what it would add, and nothing has changed.
    Full,
    /// Memory ran out: the watch is of no use any more.
    NoMemory,
}

/// Whether there is room for one more, where one comes.
fn has_room(adds: bool, count: usize, most: usize) -> bool
    ensures { result ≡ has_room adds count most }
{
    !adds || count < most
}

/// Whether an id is kept or opened that isn't held.
fn is_new<A: Allocator>(ids: &IdTable<A>, id: Option<OpenId>) -> bool
    ensures { result ≡ is_new id ids.now.entries }
{
    match id {
        Some(id) => find_id(ids, id.key).is_none(),
        None => false,
    }
}

/// Whether an id of this key is kept or opened.
fn is_opened_as(key: IdKey, id: Option<OpenId>) -> bool
    ensures { result ≡ is_opened_as key id }
{
    match id {
        Some(id) => numbers_of(key) == numbers_of(id.key),
        None => false,
    }
}

/// Whether an id is freed that is held, and isn't opened again.
fn is_freed<A: Allocator>(ids: &IdTable<A>, change: &Change) -> bool
    ensures { result ≡ is_freed change.now ids.now.entries }
{
    match change.frees {
        Some(key) => {
            let again = is_opened_as(key, change.keeps) || is_opened_as(key, change.opens);
            find_id(ids, key).is_some() && !again
        }
        None => false,
    }
}

/// 1 where it is so, else 0.
fn number_of(it: bool) -> usize
    ensures { result ≡ number_of it }
{
    if it { 1 } else { 0 }
}

/// How many ids are held behind a flit.
fn ids_behind<A: Allocator>(ids: &IdTable<A>, change: &Change) -> usize
    ensures { result ≡ ids_behind change.now ids.now.entries }
{
    let kept = number_of(is_new(ids, change.keeps));
    let opened = number_of(is_new(ids, change.opens));
    let freed = number_of(is_freed(ids, change));
    (ids.len() + kept + opened).saturating_sub(freed)
}

/// Whether nothing was booked in the account of a booking.
fn is_account_new<A: Allocator>(accounts: &AccountTable<A>, booking: &Booking) -> bool
    ensures { result ≡ is_account_new booking.now accounts.now.entries }
{
    let numbers = account_numbers(booking.account.sides, booking.account.pcrd);
    !accounts.contains_key(&numbers)
}

/// Whether a booking, if there is one, opens an account.
fn opens_account<A: Allocator>(accounts: &AccountTable<A>, books: &Option<Booking>) -> bool
    ensures { result ≡ opens_account books.now accounts.now.entries }
{
    match books {
        Some(booking) => is_account_new(accounts, booking),
        None => false,
    }
}

/// Whether a flit of this agent is the first of its requester.
fn adds_requester(agent: Option<Agent>, requesters: &[NodeId]) -> bool
    ensures { result ≡ adds_requester agent requesters.now }
{
    match agent {
        Some(agent) => usize::from(agent.0) == requesters.len(),
        None => false,
    }
}

/// A table of no ids, with memory for so many.
fn ids_with<A: Allocator + Copy>(alloc: A, most: usize) -> Result<IdTable<A>, AllocError>
    ensures { IfOk result (λ ids. ids.entries ≡ []) }
{
    IndexMap::with_capacity(alloc, most)
}

/// A table of no accounts, with memory for so many.
fn accounts_with<A: Allocator + Copy>(alloc: A, most: usize) -> Result<AccountTable<A>, AllocError>
    ensures { IfOk result (λ accounts. accounts.entries ≡ []) }
{
    IndexMap::with_capacity(alloc, most)
}

/// A table of no lines, with memory for so many.
fn lines_with<A: Allocator + Copy>(alloc: A, most: usize) -> Result<LineTable<A>, AllocError>
    ensures { IfOk result (λ lines. lines.entries ≡ []) }
{
    IndexMap::with_capacity(alloc, most)
}

/// Memory for the marks of so many lines, each of so many requesters.
pub(crate) fn marks_with<A: Allocator + Copy>(
    alloc: A,
    lines: usize,
    requesters: usize,
) -> Result<SpareMarks<A>, AllocError> {
    let mut spare = Vec::with_capacity(alloc, lines)?;
    for _ in 0..lines {
        spare.push(Vec::with_capacity(alloc, requesters)?)?;
    }
    Ok(spare)
}

impl<A: Allocator + Copy> Watch<A> {
    /// A watch that has seen no flit, with memory for so much.
    fn with_room(alloc: A, options: WatchOptions, room: &Room) -> Result<Watch<A>, AllocError>
        ensures { IfOk result (λ w. watched w ≡ nothing_watched options) }
    {
        let requesters = Vec::with_capacity(alloc, room.requesters)?;
        let homes = Vec::with_capacity(alloc, room.homes)?;
        let spare = marks_with(alloc, room.lines, room.requesters)?;
        let accounts = accounts_with(alloc, room.accounts)?;
        let ids = ids_with(alloc, room.ids)?;
        let lines = lines_with(alloc, room.lines)?;
        let causes = Vec::with_capacity(alloc, MOST_CAUSES)?;
        Ok(Watch {
            options,
            requesters,
            homes,
            ids,
            accounts,
            lines,
            spare,
            counts: Counts::NOTHING,
            causes,
            last: [0; 32],
            named: IndexMap::new(alloc),
        })
    }

    /// Whether there is room for the nodes of a flit of this agent.
    fn nodes_fit(&self, room: &Room, agent: Option<Agent>, sides: Sides) -> bool
        ensures { result ≡ nodes_fit room.now (watched self.now) agent sides }
    {
        let requester = adds_requester(agent, &self.requesters);
        let home = adds_home(agent, &self.homes, sides.home);
        has_room(requester, self.requesters.len(), room.requesters)
            && has_room(home, self.homes.len(), room.homes)
    }

    /// Whether there is room for the line of a flit.
    fn line_fits(&self, room: &Room, line: CacheLine) -> bool
        ensures { result ≡ line_fits room.now (watched self.now) line }
    {
        self.lines.contains_key(&line.0) || self.counts.lines < (room.lines as u64)
    }

    /// Whether there is room for an account, if one is opened.
    fn account_fits(&self, room: &Room, opens: bool) -> bool
        ensures { result ≡ account_fits room.now (watched self.now) opens }
    {
        has_room(opens, self.accounts.len(), room.accounts)
    }

    /// Whether there is room for what a flit of a line adds, which does this.
    fn change_fits(&self, room: &Room, event: &LineEvent, change: &Change) -> bool
        ensures { result ≡ change_fits room.now (watched self.now) event.now change.now }
    {
        if ids_behind(&self.ids, change) > room.ids {
            return false;
        }
        if matches!(change.part, Part::Further) {
            return true;
        }
        let opens = opens_account(&self.accounts, &change.books);
        self.line_fits(room, change.line)
            && (self.account_fits(room, opens)
                && self.nodes_fit(room, self.agent_in(event), event.sides))
    }

    /// Whether there is room for the account of a credit.
    fn booking_fits(&self, room: &Room, booking: &Result<Booking, IdReason>) -> bool
        ensures { result ≡ booking_fits room.now (watched self.now) booking.now }
    {
        match booking {
            Ok(booking) => self.account_fits(room, is_account_new(&self.accounts, booking)),
            Err(_) => true,
        }
    }

    /// Whether there is room for the requester of a load or a store.
    fn access_fits(&self, room: &Room, event: &AccessEvent) -> bool
        ensures { result ≡ access_fits room.now (watched self.now) event.now }
    {
        match home_of(&self.lines, event.line) {
            None => true,
            Some(home) => {
                let adds = adds_requester(self.agent_at(event, home), &self.requesters);
                has_room(adds, self.requesters.len(), room.requesters)
            }
        }
    }

    /// Whether there is room for what the next line of a trace adds.
    fn fits(&self, room: &Room, event: &Event) -> bool
        ensures { result ≡ fits room.now (watched self.now) event.now }
    {
        match event {
            Event::Access(event) => self.access_fits(room, event),
            Event::Granted(sides, pcrd) => {
                self.booking_fits(room, &self.tables().grant(*sides, *pcrd))
            }
            Event::Returned(sides, pcrd) => {
                self.booking_fits(room, &self.tables().give_back(*sides, *pcrd))
            }
            Event::Line(event) => match self.allowed(event) {
                Ok(change) => self.change_fits(room, event, &change),
                Err(_) => true,
            },
        }
    }
}

impl<A: Allocator + Copy> BoundedWatch<A> {
    /// A watch that has seen no flit, with memory for so much; it takes no other. Refused where memory runs out, and of a trace
    /// that begins in the middle: the ids that it names from before have no bound in a room. So it is of one that is taken at the
    /// home, whose lines take memory of their own.
    /// Source: `docs/OBSERVER.md`, "A watch with a room".
    pub fn new(alloc: A, options: WatchOptions, room: Room) -> Result<BoundedWatch<A>, AllocError>
        ensures { IfOk result (λ b. bounded b ≡ nothing_bounded room options) }
    {
        if options.is_cut() || options.is_at_home() {
            return Err(AllocError);
        }
        let watch = Watch::with_room(alloc, options, &room)?;
        Ok(BoundedWatch { room, watch })
    }

    /// Takes a flit of a line that ids and credits allow to do this, where there is room for it.
    pub(crate) fn take_allowed(
        &mut self,
        event: &LineEvent,
        change: &Change,
    ) -> Result<(), BoundedStop>
        requires { allowed (bounded self.old).told event.now ≡ Ok change.now }
        ensures { IsBoundedTaken (bounded self.old) (bounded self.new)
            (Event.Line event.now) result }
    {
        if !self.watch.change_fits(&self.room, event, change) {
            return Err(BoundedStop::Full);
        }
        match self.watch.take_allowed(event, change) {
            Ok(()) => Ok(()),
            Err(WatchStop::Fault(fault)) => Err(BoundedStop::Fault(fault)),
            Err(WatchStop::NoMemory) => Err(BoundedStop::NoMemory),
        }
    }

    /// Takes a flit of a line, and answers which line that is.
    fn take_line(&mut self, event: &LineEvent) -> Result<Option<CacheLine>, BoundedStop>
        ensures taken { IsBoundedTaken (bounded self.old) (bounded self.new)
            (Event.Line event.now) result }
        ensures line { IfOk result (λ line. line
            ≡ line_in (bounded self.old).told (Event.Line event.now)) }
    {
        let mut changed = self.watch.changed(event);
        match &mut changed {
            Ok(change) => {
                self.watch.make_ready(event, change);
                match self.take_allowed(event, change) {
                    Ok(()) => Ok(Some(change.line)),
                    Err(stop) => Err(stop),
                }
            }
            Err(reason) => match self.watch.take_unopened(event, *reason) {
                Ok(()) => Ok(None),
                Err(WatchStop::Fault(fault)) => Err(BoundedStop::Fault(fault)),
                Err(WatchStop::NoMemory) => Err(BoundedStop::NoMemory),
            },
        }
    }

    /// Takes what isn't a flit of a line.
    fn take_other(&mut self, event: &Event) -> Result<(), BoundedStop>
        ensures { IsBoundedTaken (bounded self.old) (bounded self.new) event.now result }
    {
        if self.watch.fits(&self.room, event) {
            match self.watch.take(event) {
                Ok(()) => Ok(()),
                Err(WatchStop::Fault(fault)) => Err(BoundedStop::Fault(fault)),
                Err(WatchStop::NoMemory) => Err(BoundedStop::NoMemory),
            }
        } else {
            Err(BoundedStop::Full)
        }
    }

    /// Takes what the next line of a trace is, as `take` does, and answers the line of memory that it is of.
    pub(crate) fn take_at(&mut self, event: &Event) -> Result<Option<CacheLine>, BoundedStop>
        ensures taken { IsBoundedTaken (bounded self.old) (bounded self.new) event.now result }
        ensures line { IfOk result (λ line. line
            ≡ line_in (bounded self.old).told event.now) }
    {
        let line = match event {
            Event::Line(event) => return self.take_line(event),
            Event::Access(event) => Some(event.line),
            Event::Granted(_, _) => None,
            Event::Returned(_, _) => None,
        };
        match self.take_other(event) {
            Ok(()) => Ok(line),
            Err(stop) => Err(stop),
        }
    }

    /// Takes what the next line of a trace is, where there is room for what it adds. `Full` exactly where a table is full
    /// that it would add to; nothing changes then. Else it is taken, or isn't, as a watch takes it.
    /// Source: `docs/OBSERVER.md`, "A watch with a room".
    pub fn take(&mut self, event: &Event) -> Result<(), BoundedStop>
        ensures { IsBoundedTaken (bounded self.old) (bounded self.new) event.now result }
    {
        match self.take_at(event) {
            Ok(_) => Ok(()),
            Err(stop) => Err(stop),
        }
    }
}
