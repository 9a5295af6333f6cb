//! Flits that name an id from before a trace that is cut out of a longer one.

ghost use Rattle.std.specs.Prelude.{◌≡◌, OnOk, if◌then◌else◌};
ghost use Rattle.chi_observe.specs.Judges.{last_of};
ghost use Rattle.chi_observe.specs.LeftOver.{closed_id, dbid_key, has_more, is_agent, is_left_over, is_of_line, is_unknown_reply, lacked_of, lacks_behind, last_at, may_come, named_after, named_behind, named_id, opened_in, words_there};
ghost use Rattle.chi_observe.specs.Watched.{IsUnopenedWatched, left_over_after, watched};

use crate::beats::is_again;
use crate::events::LineEvent;
use crate::ids::{IdTable, OpenId, Purpose, find_id, opened_id};
use crate::nodes::place_of;
use crate::reasons::IdReason;
use crate::steps::{IdStep, WatchOptions};
use crate::watch::{Watch, WatchFault, WatchStop, free_id, keep_id};
use crate::words::left_of;
use chi_ids::{CacheLine, IdKey, Sides};
use chi_trace::DbId;
use std::alloc::{AllocError, Allocator};

/// The words that a beat has.
fn words_there(step: &IdStep) -> Option<[bool; 8]>
    ensures { result ≡ words_there step.now }
{
    match step {
        IdStep::ReadData(_, _, there) => Some(*there),
        IdStep::AnswerData(_, there) => Some(*there),
        IdStep::WriteData(_, there) => Some(*there),
        IdStep::Attempt(_, _, _)
        | IdStep::Resent(_, _, _, _)
        | IdStep::Snoop(_, _, _)
        | IdStep::RetryAck(_, _)
        | IdStep::Complete(_)
        | IdStep::CompleteWith(_, _)
        | IdStep::Answer(_)
        | IdStep::Acknowledge(_)
        | IdStep::UnknownRequest(_, _, _)
        | IdStep::UnknownSnoop(_, _)
        | IdStep::UnknownAnswer(_)
        | IdStep::UnknownReply(_, _) => None,
    }
}

/// Whether the opcode isn't known, which frees no id.
fn is_unknown_reply(step: &IdStep) -> bool
    ensures { result ≡ is_unknown_reply step.now }
{
    matches!(step, IdStep::UnknownAnswer(_) | IdStep::UnknownReply(_, _))
}

/// Whether the key names a line.
fn is_of_line(key: IdKey) -> bool
    ensures { result ≡ is_of_line key }
{
    matches!(key, IdKey::Retried(_, _))
}

/// Whether a beat has just words that lack.
fn has_more(lacks: &Option<[bool; 8]>, there: &Option<[bool; 8]>) -> bool
    ensures { result ≡ has_more lacks.now there.now }
{
    match (lacks, there) {
        (Some(lacks), Some(there)) => !is_again(lacks, there),
        _ => false,
    }
}

/// Whether the flit may name an id from before, which the trace has named so, or hasn't.
fn may_come(step: &IdStep, named: &Option<OpenId>) -> bool
    ensures { result ≡ may_come step.now named.now }
{
    match named {
        None => true,
        Some(id) => is_unknown_reply(step) || has_more(&id.lacks, &words_there(step)),
    }
}

/// Whether the flit names an id from before.
fn is_left_over<A: Allocator>(
    options: WatchOptions,
    named: &IdTable<A>,
    step: &IdStep,
    key: IdKey,
) -> bool
    ensures { result ≡ is_left_over options named.now.entries step.now key }
{
    options.is_cut() && (!is_of_line(key) && may_come(step, &find_id(named, key).copied()))
}

/// The words that lack of the data of an id from before.
fn lacked_of(named: &Option<OpenId>) -> [bool; 8]
    ensures { result ≡ lacked_of named.now }
{
    match named {
        None => [true; 8],
        Some(id) => id.lacks.unwrap_or([true; 8]),
    }
}

/// The words that lack behind the flit, if it is a beat.
fn lacks_behind(there: &Option<[bool; 8]>, lacks: &[bool; 8]) -> Option<[bool; 8]>
    ensures { result ≡ lacks_behind there.now lacks.now }
{
    match there {
        None => None,
        Some(there) => Some(left_of(lacks, there)),
    }
}

/// An id that was named, of whose data these words lack.
fn named_id(key: IdKey, lacks: Option<[bool; 8]>) -> OpenId
    ensures { result ≡ named_id key lacks }
{
    OpenId {
        lacks,
        ..opened_id(key, CacheLine(0), Purpose::Unknown { first: false })
    }
}

/// The key of a DBID that a completion names, if it names one.
fn dbid_key(sides: Sides, dbid: Option<DbId>) -> Option<IdKey>
    ensures { result ≡ dbid_key sides dbid }
{
    match dbid {
        None => None,
        Some(dbid) => Some(IdKey::Buffer(sides, dbid)),
    }
}

/// The same of any flit.
fn opened_in(sides: Sides, step: &IdStep) -> Option<IdKey>
    ensures { result ≡ opened_in sides step.now }
{
    match step {
        IdStep::CompleteWith(_, dbid) => dbid_key(sides, *dbid),
        IdStep::ReadData(_, dbid, _) => dbid_key(sides, *dbid),
        IdStep::UnknownReply(_, dbid) => dbid_key(sides, *dbid),
        IdStep::Attempt(_, _, _)
        | IdStep::Resent(_, _, _, _)
        | IdStep::Snoop(_, _, _)
        | IdStep::RetryAck(_, _)
        | IdStep::Complete(_)
        | IdStep::Answer(_)
        | IdStep::AnswerData(_, _)
        | IdStep::Acknowledge(_)
        | IdStep::WriteData(_, _)
        | IdStep::UnknownRequest(_, _, _)
        | IdStep::UnknownSnoop(_, _)
        | IdStep::UnknownAnswer(_) => None,
    }
}

/// The id is named, and a DBID that the flit names may be named again.
fn name_id<A: Allocator>(
    named: &mut IdTable<A>,
    event: &LineEvent,
    key: IdKey,
) -> Result<(), AllocError>
    ensures { OnOk result (named.new.entries ≡ named_behind event.now key named.old.entries) }
{
    let lacked = lacked_of(&find_id(named, key).copied());
    let lacks = lacks_behind(&words_there(&event.step), &lacked);
    free_id(named, opened_in(event.sides, &event.step));
    keep_id(named, &Some(named_id(key, lacks)))
}

/// What is kept of the id that a flit frees: it was named.
fn closed_id(frees: Option<IdKey>) -> Option<OpenId>
    ensures { result ≡ closed_id frees }
{
    match frees {
        None => None,
        Some(key) => if is_of_line(key) {
            None
        } else {
            Some(named_id(key, None))
        },
    }
}

/// The id that a flit frees is named, where the trace is cut out of a longer one.
pub(crate) fn close_id<A: Allocator>(
    options: WatchOptions,
    named: &mut IdTable<A>,
    frees: Option<IdKey>,
) -> Result<(), AllocError>
    ensures { OnOk result (named.new.entries ≡ named_after options frees named.old.entries) }
{
    if options.is_cut() {
        keep_id(named, &closed_id(frees))
    } else {
        Ok(())
    }
}

/// Whether the requester may be the agent of this number: each that no requester is, where it is new.
fn may_be(place: Option<usize>, count: usize, number: usize) -> bool
    ensures { result ≡ is_agent place count number }
{
    match place {
        None => count <= number,
        Some(place) => number == place,
    }
}

/// The number of an agent's last flit that names an id from before, which may be this one.
fn one_behind(may_be: bool, number: usize, last: usize) -> usize
    ensures { result ≡ (if may_be then number else last) }
{
    if may_be { number } else { last }
}

/// Of each agent the last flit that names an id from before, behind one of this requester with this number.
fn last_behind(last: &[usize; 32], place: Option<usize>, count: usize, number: usize) -> [usize; 32]
    ensures { last_of result ≡ last_at place count number (last_of last.now) }
{
    let mut behind = *last;
    for n in 0..32 {
        behind[n] = one_behind(may_be(place, count, n), number, last[n]);
    }
    behind
}

impl<A: Allocator> Watch<A> {
    /// Takes a flit that names an id from before.
    fn take_left_over(&mut self, event: &LineEvent, key: IdKey) -> Result<(), AllocError>
        ensures { OnOk result (watched self.new ≡ left_over_after (watched self.old) event.now key) }
    {
        let Some(counts) = self.counts.with_left_over() else {
            return Err(AllocError);
        };
        name_id(&mut self.named, event, key)?;
        let place = place_of(&self.requesters, event.sides.requester);
        let count = self.requesters.len();
        self.last = last_behind(&self.last, place, count, event.number);
        self.counts = counts;
        Ok(())
    }

    /// Takes a flit that ids and credits don't allow for this reason, if it names an id from before.
    pub(crate) fn take_unopened(
        &mut self,
        event: &LineEvent,
        reason: IdReason,
    ) -> Result<(), WatchStop>
        ensures { IsUnopenedWatched (watched self.old) (watched self.new) event.now reason result }
    {
        match reason {
            IdReason::NotOpen(key) if is_left_over(self.options, &self.named, &event.step, key) => {
                Ok(self.take_left_over(event, key)?)
            }
            _ => Err(WatchStop::Fault(WatchFault::Ids(reason))),
        }
    }
}
