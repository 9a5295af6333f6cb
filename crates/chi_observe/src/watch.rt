//! A watch over a trace: what its flits so far have told, and whether the next one is taken.

ghost use Rattle.std.specs.Prelude.{◌≡◌, IfSome, OnOk, option_map};
ghost use Rattle.chi_observe.specs.declared.watch.WatchStop.TheVariants.{NoMemory};
ghost use Rattle.chi_observe.specs.Causes.{cause_of};
ghost use Rattle.chi_observe.specs.Ids.{opened_at, with_id, without};
ghost use Rattle.chi_observe.specs.Credits.{booked, booked_all};
ghost use Rattle.chi_observe.specs.Lines.{lines_in};
ghost use Rattle.chi_observe.specs.Grants.{granted, returned};
ghost use Rattle.chi_observe.specs.Steps.{ids_after};
ghost use Rattle.chi_observe.specs.Tables.{table_of};
ghost use Rattle.chi_observe.specs.Watched.{IsCreditWatched, IsFlitWatched, IsWatched, agent_in, allowed, changed, booking_after, counts_access, counts_after, counts_aside, counts_first, counts_left_over, counts_told, counts_unjudged, early_in, mark_if, one_if, nothing_watched, ready, settled, table_in, watched, with_early};

use crate::causes::{Cause, CauseRow, add_cause, cause_of};
use crate::credits::{AccountTable, Booking, account_numbers};
use crate::events::{Event, LineEvent, Tells, flit_by, news_of};
use crate::ids::{IdTable, Later, OpenId};
use crate::judges::Before;
use crate::left_over::close_id;
use crate::lines::{LineStop, LineTable, LineTold, SpareMarks, tell};
use crate::nodes::{add_home, add_requester, agent_of};
use crate::reasons::{IdReason, LineReason};
use crate::steps::WatchOptions;
use crate::tables::{Change, Part, Tables};
use chi_flit::{Agent, Data};
use chi_ids::{CacheLine, IdKey, Sides, numbers_of};
use chi_trace::{NodeId, PcrdType};
use indexmap::IndexMap;
use std::alloc::{AllocError, Allocator};

/// A line that was set aside, and by which line of the trace.
/// Source: `docs/OBSERVER.md`, "A trace of many lines".
#[derive(Clone, Copy, Debug, PartialEq, Eq)]
pub struct Aside {
    /// The number of the trace's line, counted from 1.
    pub number: usize,
    pub line: CacheLine,
    pub cause: Cause,
}

/// How much a watch has seen, and how much of it isn't judged.
/// Source: `docs/OBSERVER.md`, "What isn't judged".
#[derive(Clone, Copy, Debug, PartialEq, Eq)]
pub struct Counts {
    /// Flits; data that come in beats are one.
    pub flits: u64,
    /// Flits that no observer was told of: of a line that is set aside, from the one on that sets it aside, and those that name
    /// an id from before the trace.
    pub unjudged: u64,
    /// Flits that name an id from before the trace.
    pub left_over: u64,
    /// Loads and stores.
    pub accesses: u64,
    /// Loads and stores that no observer was told of.
    pub unseen: u64,
    /// Lines that flits have touched.
    pub lines: u64,
    /// Lines that were set aside.
    pub aside: u64,
    /// The first of them.
    pub first_aside: Option<Aside>,
    /// The number of the trace's last line, where no line end follows it.
    pub cut: Option<usize>,
}

/// What the flits so far have told.
/// Source: `docs/OBSERVER.md`, "A trace of many lines".
#[derive(Drop)]
pub struct Watch<A: Allocator> {
    pub(crate) options: WatchOptions,
    pub(crate) requesters: Vec<NodeId, A>,
    pub(crate) homes: Vec<NodeId, A>,
    pub(crate) ids: IdTable<A>,
    pub(crate) accounts: AccountTable<A>,
    pub(crate) lines: LineTable<A>,
    /// Memory that was taken for lines to come.
    pub(crate) spare: SpareMarks<A>,
    pub(crate) counts: Counts,
    /// Why lines were set aside, in the order of the first of each cause.
    pub(crate) causes: Vec<CauseRow, A>,
    /// Of each agent the number of the trace's line that is its last flit which names an id from before; 0 where there is
    /// none.
    pub(crate) last: [usize; 32],
    /// The ids that a trace which is cut out of a longer one has named, and that aren't open.
    pub(crate) named: IdTable<A>,
}

/// Why a flit isn't taken.
/// Source: `docs/OBSERVER.md`, "Faults".
#[derive(Clone, Copy, Debug, PartialEq, Eq)]
pub enum WatchFault {
    /// The ids or the credits don't allow it.
    Ids(IdReason),
    /// Its line doesn't take it.
    Line(LineReason),
}

/// Why a watch didn't go on.
/// Source: `docs/OBSERVER.md`, "Faults".
#[derive(Clone, Copy, Debug, PartialEq, Eq)]
pub enum WatchStop {
    /// The flit isn't taken, and nothing has changed.
    Fault(WatchFault),
    /// Memory ran out: the watch is of no use any more.
    NoMemory,
}

impl From<AllocError> for WatchStop {
    ghost from_gives = { λ _ stop. stop ≡ NoMemory };

    fn from(_lack: AllocError) -> WatchStop {
        WatchStop::NoMemory
    }
}

impl Counts {
    /// Nothing was seen.
    pub(crate) const NOTHING: Counts = Counts {
        flits: 0,
        unjudged: 0,
        left_over: 0,
        accesses: 0,
        unseen: 0,
        lines: 0,
        aside: 0,
        first_aside: None,
        cut: None,
    };

    /// The counts behind a flit, which is the first of its line or isn't; `None` where a number would pass 2^64.
    fn with_first(self, fresh: bool) -> Option<Counts>
        ensures { IfSome result (λ counts. counts ≡ counts_first fresh self) }
    {
        let flits = self.flits.checked_add(1)?;
        let lines = if fresh {
            self.lines.checked_add(1)?
        } else {
            self.lines
        };
        Some(Counts {
            flits,
            lines,
            ..self
        })
    }

    /// The counts behind a flit that sets a line aside, or doesn't; `None` where a number would pass 2^64.
    fn with_aside(self, aside: Option<Aside>) -> Option<Counts>
        ensures { IfSome result (λ counts. counts ≡ counts_aside aside self) }
    {
        match aside {
            None => Some(self),
            Some(mark) => {
                let aside = self.aside.checked_add(1)?;
                Some(Counts {
                    aside,
                    first_aside: Some(self.first_aside.unwrap_or(mark)),
                    ..self
                })
            }
        }
    }

    /// The counts behind so many flits more that aren't judged; `None` where the number would pass 2^64.
    fn with_unjudged(self, flits: u64) -> Option<Counts>
        ensures { IfSome result (λ counts. counts ≡ counts_unjudged flits self) }
    {
        let unjudged = self.unjudged.checked_add(flits)?;
        Some(Counts { unjudged, ..self })
    }

    /// The counts behind a load or a store, of which an observer was told or wasn't; `None` where a number would pass 2^64.
    pub(crate) fn with_access(self, judged: bool) -> Option<Counts>
        ensures { IfSome result (λ counts. counts ≡ counts_access judged self) }
    {
        let accesses = self.accesses.checked_add(1)?;
        let unseen = self.unseen.checked_add(one_if(!judged))?;
        Some(Counts {
            accesses,
            unseen,
            ..self
        })
    }

    /// The counts behind a load or a store of which its line was told so, and which set the line aside or didn't; `None` where
    /// a number would pass 2^64.
    pub(crate) fn with_told_access(self, told: &LineTold, aside: Option<Aside>) -> Option<Counts>
        ensures { IfSome result (λ counts. counts ≡ counts_told told.now aside self) }
    {
        let counts = self.with_access(told.judged)?;
        counts
            .with_unjudged(one_if(told.forgets_data()))?
            .with_aside(aside)
    }

    /// The counts behind a flit that names an id from before the trace; `None` where a number would pass 2^64.
    pub(crate) fn with_left_over(self) -> Option<Counts>
        ensures { IfSome result (λ counts. counts ≡ counts_left_over self) }
    {
        let flits = self.flits.checked_add(1)?;
        let unjudged = self.unjudged.checked_add(1)?;
        let left_over = self.left_over.checked_add(1)?;
        Some(Counts {
            flits,
            unjudged,
            left_over,
            ..self
        })
    }

    /// The counts behind a flit, or the last beat of one, of which its line was told so.
    fn with_flit(self, part: Part, told: &LineTold, aside: Option<Aside>) -> Option<Counts>
        ensures { IfSome result (λ counts. counts ≡ counts_after part told.now aside self) }
    {
        let counts = match part {
            Part::Whole | Part::First(_) | Part::Known(_) => {
                let counts = self.with_first(told.fresh)?;
                counts
                    .with_unjudged(one_if(!told.judged))?
                    .with_unjudged(one_if(told.forgets_data()))?
            }
            Part::Last(_) => self.with_unjudged(one_if(told.aside))?,
            Part::Further | Part::Held(_) => self,
        };
        counts.with_aside(aside)
    }
}

/// 1 where it is so, else 0.
fn one_if(it: bool) -> u64
    ensures { result ≡ one_if it }
{
    if it { 1 } else { 0 }
}

/// The line and why, if it was set aside by a flit that tells this, of this agent.
pub(crate) fn mark_of(
    options: WatchOptions,
    tells: &Tells,
    agent: Option<Agent>,
    told: &LineTold,
    line: CacheLine,
    number: usize,
) -> Option<Aside>
    ensures { result ≡ mark_if (cause_of options tells.now agent told.now) told.now line number }
{
    if told.aside {
        let cause = cause_of(options, tells, agent, told);
        Some(Aside {
            number,
            line,
            cause,
        })
    } else {
        None
    }
}

/// The change is by a first beat of data that tell this with all words, which are kept for its later ones.
fn make_early(change: &mut Change, told: Tells, later: Later)
    ensures { change.new ≡ with_early told later change.old }
{
    if let Some(id) = &mut change.keeps {
        id.begun = Some(told);
        id.later = later;
    }
    change.part = Part::Known(told);
}

/// The account has one more.
fn book<A: Allocator>(accounts: &mut AccountTable<A>, booking: &Booking) -> Result<(), AllocError>
    ensures { OnOk result (accounts.new.entries ≡ booked booking.now accounts.old.entries) }
{
    let Some(account) = booking.account.with_event(booking.event) else {
        return Err(AllocError);
    };
    let key = account_numbers(booking.account.sides, booking.account.pcrd);
    let _ = accounts.insert(key, account)?;
    Ok(())
}

/// The account has one more, if one is booked in.
fn book_all<A: Allocator>(
    accounts: &mut AccountTable<A>,
    books: &Option<Booking>,
) -> Result<(), AllocError>
    ensures { OnOk result (accounts.new.entries ≡ booked_all books.now accounts.old.entries) }
{
    match books {
        Some(booking) => book(accounts, booking),
        None => Ok(()),
    }
}

/// The id of the key is free, if one is.
pub(crate) fn free_id<A: Allocator>(ids: &mut IdTable<A>, frees: Option<IdKey>)
    ensures { ids.new.entries ≡ without frees ids.old.entries }
{
    if let Some(key) = frees {
        let _ = ids.swap_remove(&numbers_of(key));
    }
}

/// An id is kept open, if one is.
pub(crate) fn keep_id<A: Allocator>(
    ids: &mut IdTable<A>,
    keeps: &Option<OpenId>,
) -> Result<(), AllocError>
    ensures { OnOk result (ids.new.entries ≡ with_id keeps.now ids.old.entries) }
{
    if let Some(id) = keeps {
        let _ = ids.insert(numbers_of(id.key), *id)?;
    }
    Ok(())
}

/// The id that a flit with this number opens is open, if it opens one.
fn open_id<A: Allocator>(
    ids: &mut IdTable<A>,
    opens: &Option<OpenId>,
    number: usize,
) -> Result<(), AllocError>
    ensures { OnOk result
        (ids.new.entries ≡ with_id (option_map (opened_at number) opens.now) ids.old.entries) }
{
    if let Some(id) = opens {
        let _ = ids.insert(numbers_of(id.key), id.opened_at(number))?;
    }
    Ok(())
}

/// The ids behind a flit with this number.
fn change_ids<A: Allocator>(
    ids: &mut IdTable<A>,
    change: &Change,
    number: usize,
) -> Result<(), AllocError>
    ensures { OnOk result (ids.new.entries ≡ ids_after number change.now ids.old.entries) }
{
    free_id(ids, change.frees);
    keep_id(ids, &change.keeps)?;
    open_id(ids, &change.opens, number)
}

impl<A: Allocator + Copy> Watch<A> {
    /// A watch that has seen no flit: no cache has a copy of a line, no request is open, and memory has any words.
    /// Source: `docs/OBSERVER.md`, "A trace of many lines".
    pub fn new(alloc: A, options: WatchOptions) -> Watch<A>
        ensures { watched result ≡ nothing_watched options }
    {
        Watch {
            options,
            requesters: Vec::new(alloc),
            homes: Vec::new(alloc),
            ids: IndexMap::new(alloc),
            accounts: IndexMap::new(alloc),
            lines: IndexMap::new(alloc),
            spare: Vec::new(alloc),
            counts: Counts::NOTHING,
            causes: Vec::new(alloc),
            last: [0; 32],
            named: IndexMap::new(alloc),
        }
    }
}

impl<A: Allocator> Watch<A> {
    /// What is open, and which lines are set aside.
    pub(crate) fn tables(&self) -> Tables<'_, A>
        ensures options { result.options ≡ self.now.options }
        ensures table { table_of result ≡ table_in (watched self.now) }
    {
        Tables {
            options: self.options,
            ids: &self.ids,
            accounts: &self.accounts,
            lines: &self.lines,
        }
    }

    /// What a flit of a line does to ids and credits, or why they don't allow it; of data the first beat alone.
    pub(crate) fn changed(&self, event: &LineEvent) -> Result<Change, IdReason>
        ensures { result ≡ changed (watched self.now) event.now }
    {
        if let Tells::NoForm(resp) = event.tells {
            return Err(IdReason::Form(resp));
        }
        self.tables()
            .change(event.sides, &event.step, event.at, &event.tells)
    }

    /// The same, with all words of data whose words are known at their first beat.
    pub(crate) fn allowed(&self, event: &LineEvent) -> Result<Change, IdReason>
        ensures { result ≡ allowed (watched self.now) event.now }
    {
        let mut allowed = self.changed(event);
        if let Ok(change) = &mut allowed {
            self.make_ready(event, change);
        }
        allowed
    }

    /// The agent that a flit's requester is; none where the flit isn't judged.
    pub(crate) fn agent_in(&self, event: &LineEvent) -> Option<Agent>
        ensures { result ≡ agent_in (watched self.now) event.now }
    {
        match event.tells {
            Tells::Unjudged(_) => None,
            Tells::Sent(_, _) | Tells::Given(_, _) | Tells::NoForm(_) => {
                agent_of(&self.requesters, &self.homes, event.sides)
            }
        }
    }

    /// What the words of a first beat of data are known to be, and what the later ones are then.
    fn early_in(
        &self,
        event: &LineEvent,
        line: CacheLine,
        lacks: &[bool; 8],
    ) -> Option<(Later, Data)>
        ensures { result ≡ early_in (watched self.now) event.now line lacks.now }
    {
        let flit = flit_by(&event.tells, self.agent_in(event))?;
        match self.lines.get(&line.0) {
            Some(seen) => seen.early(flit, lacks),
            None => None,
        }
    }

    /// Data whose words are known at their first beat have all words.
    pub(crate) fn make_ready(&self, event: &LineEvent, change: &mut Change)
        ensures { change.new ≡ ready (watched self.now) event.now change.old }
    {
        if let Part::First(lacks) = &change.part {
            if let Some(early) = self.early_in(event, change.line, lacks) {
                let words = early.1;
                make_early(change, event.tells.with_words(words), early.0);
            }
        }
    }

    /// A flit that books this is counted.
    fn keep_booking(&mut self, booking: &Booking) -> Result<(), AllocError>
        ensures { OnOk result
            (watched self.new ≡ booking_after (watched self.old) booking.now) }
    {
        let Some(flits) = self.counts.flits.checked_add(1) else {
            return Err(AllocError);
        };
        book(&mut self.accounts, booking)?;
        self.counts.flits = flits;
        Ok(())
    }

    /// A credit is granted.
    fn grant(&mut self, sides: Sides, pcrd: PcrdType) -> Result<(), WatchStop>
        ensures { IsCreditWatched (watched self.old) (watched self.new)
            (granted self.old.options (table_in (watched self.old)) sides pcrd) result }
    {
        match self.tables().grant(sides, pcrd) {
            Ok(booking) => Ok(self.keep_booking(&booking)?),
            Err(reason) => Err(WatchStop::Fault(WatchFault::Ids(reason))),
        }
    }

    /// A credit is returned.
    fn give_back(&mut self, sides: Sides, pcrd: PcrdType) -> Result<(), WatchStop>
        ensures { IsCreditWatched (watched self.old) (watched self.new)
            (returned self.old.options (table_in (watched self.old)) sides pcrd) result }
    {
        match self.tables().give_back(sides, pcrd) {
            Ok(booking) => Ok(self.keep_booking(&booking)?),
            Err(reason) => Err(WatchStop::Fault(WatchFault::Ids(reason))),
        }
    }

    /// What a flit of this agent that does this leaves, but of its line, which was told so.
    fn settle(
        &mut self,
        event: &LineEvent,
        change: &Change,
        agent: Option<Agent>,
        told: &LineTold,
    ) -> Result<(), AllocError>
        ensures { OnOk result
            (watched self.new ≡ settled (watched self.old) event.now change.now agent told.now) }
    {
        let mark = mark_of(
            self.options,
            &event.tells,
            agent,
            told,
            change.line,
            event.number,
        );
        let Some(counts) = self.counts.with_flit(change.part, told, mark) else {
            return Err(AllocError);
        };
        add_cause(&mut self.causes, mark)?;
        add_requester(&mut self.requesters, agent, event.sides.requester)?;
        add_home(&mut self.homes, agent, event.sides.home)?;
        change_ids(&mut self.ids, change, event.number)?;
        book_all(&mut self.accounts, &change.books)?;
        close_id(self.options, &mut self.named, change.frees)?;
        self.counts = counts;
        Ok(())
    }
}

impl<A: Allocator + Copy> Watch<A> {
    /// Takes a flit of a line that ids and credits allow.
    pub(crate) fn take_allowed(
        &mut self,
        event: &LineEvent,
        change: &Change,
    ) -> Result<(), WatchStop>
        ensures { IsFlitWatched (watched self.old) (watched self.new) event.now change.now result }
    {
        if matches!(change.part, Part::Further) {
            return Ok(change_ids(&mut self.ids, change, event.number)?);
        }
        let agent = self.agent_in(event);
        let news = news_of(&event.tells, &change.part, agent);
        let home = event.sides.home;
        let before = Before {
            log: self.options.log,
            stores: self.options.stores,
            last: &self.last,
        };
        match tell(
            &mut self.lines,
            &mut self.spare,
            &before,
            change.line,
            home,
            &news,
            event.number,
        ) {
            Ok(told) => Ok(self.settle(event, change, agent, &told)?),
            Err(LineStop::Refused(reason)) => Err(WatchStop::Fault(WatchFault::Line(reason))),
            Err(LineStop::NoMemory) => Err(WatchStop::NoMemory),
        }
    }

    /// Takes a flit of a line.
    fn take_line(&mut self, event: &LineEvent) -> Result<(), WatchStop>
        ensures { IsWatched (watched self.old) (watched self.new) (Event.Line event.now) result }
    {
        let mut changed = self.changed(event);
        match &mut changed {
            Ok(change) => {
                self.make_ready(event, change);
                self.take_allowed(event, change)
            }
            Err(reason) => self.take_unopened(event, *reason),
        }
    }

    /// Takes what the next line of a trace is. `Ok` exactly where ids, credits and its line allow it. Else it is why they
    /// don't, and nothing changes.
    /// Source: `docs/OBSERVER.md`, "A trace of many lines".
    pub fn take(&mut self, event: &Event) -> Result<(), WatchStop>
        ensures { IsWatched (watched self.old) (watched self.new) event.now result }
    {
        match event {
            Event::Access(event) => self.take_access(event),
            Event::Granted(sides, pcrd) => self.grant(*sides, *pcrd),
            Event::Returned(sides, pcrd) => self.give_back(*sides, *pcrd),
            Event::Line(event) => self.take_line(event),
        }
    }
}
