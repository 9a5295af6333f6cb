//! Flits that name an id.

ghost use Rattle.std.specs.Prelude.{◌≡◌, IfSome, OnOk, Some};
ghost use Rattle.chi_transactions.specs.Flits.{number_at};
ghost use Rattle.chi_transactions.specs.Maps.{IsSlot, entry_in, value_of};
ghost use Rattle.chi_transactions.specs.Rule.{begun_behind};
ghost use Rattle.chi_transactions.specs.State.{state_of};
ghost use Rattle.chi_transactions.specs.Steps.{IsDone, after_named, attempts_without, beat_in, begun_at, begun_by, buffer_at, ids_with, naming_after, naming_answer, naming_refusal, taken_of, with_buffer};

use crate::attempts::keep_attempts;
use crate::beats::{beat_of, begun_behind};
use crate::entries::{Begun, Named, OpenId, Portion, Reason, Stop, Taken};
use crate::flits::{buffer_of, number_at};
use crate::maps::{Slot, Table, entry_in, put, put_at, remove, slot_in, value_of};
use crate::rows::names_buffer;
use crate::rule::{brought, found_by, is_in_use, is_opening, named_refusal, opened_buffer};
use crate::transactions::Transactions;
use chi_issue_b::{DbId, Flit};
use std::alloc::{AllocError, Allocator};

impl<A: Allocator> Transactions<A> {
    /// What is kept of the id that the flit opens or names, and where.
    #[inline(always)]
    pub(crate) fn slot_at(&self, flit: &Flit) -> Option<Slot<OpenId>>
        ensures value { value_of result ≡ (state_of self.now).ids (number_at flit.now) }
        ensures place { IfSome result (λ slot. IsSlot self.now.ids (number_at flit.now) slot) }
    {
        slot_in(&self.ids, number_at(flit))
    }

    /// The data that have begun to come by the id which the flit names.
    #[inline(always)]
    fn begun_at(&self, flit: &Flit, id: &OpenId) -> Option<Begun>
        ensures { result ≡ begun_at (state_of self.now) flit.now id.now }
    {
        if id.begun {
            entry_in(&self.begun, number_at(flit))
        } else {
            None
        }
    }

    /// What is kept of the DBID that the flit names.
    #[inline(always)]
    #[tactic(auto, unfolding(crate::specs::Steps::buffer_at))]
    fn buffer_at(&self, flit: &Flit) -> Option<OpenId>
        ensures { result ≡ buffer_at (state_of self.now) flit.now }
    {
        match flit.dbid() {
            Some(dbid) => entry_in(&self.ids, buffer_of(flit, dbid).number()),
            None => None,
        }
    }

    /// Keeps a flit with this number that names the id, and is this beat of its data.
    fn keep_named(
        &mut self,
        flit: &Flit,
        there: u8,
        number: u64,
        slot: Option<Slot<OpenId>>,
        id: &OpenId,
        begun: Option<Begun>,
        buffer: Option<OpenId>,
    ) -> Result<(), AllocError>
        requires slot { IfSome slot (λ slot. IsSlot self.old.ids (number_at flit.now) slot) }
        requires begun { begun ≡ begun_at (state_of self.old) flit.now id.now }
        requires buffer { buffer ≡ buffer_at (state_of self.old) flit.now }
        ensures { OnOk result
            (state_of self.new ≡ after_named (state_of self.old) flit.now there number id.now) }
    {
        let beat = beat_of(flit, there, begun);
        keep_id(&mut self.ids, flit, number, beat, slot, id, buffer)?;
        keep_begun(&mut self.begun, flit, there, beat, id, begun)?;
        keep_attempts(self.options, &mut self.attempts, flit, id)
    }

    /// Takes a flit that names an id, with these words of data.
    pub(crate) fn take_named(&mut self, flit: &Flit, there: u8, number: u64) -> Result<Taken, Stop>
        ensures { IsDone (state_of self.old) (state_of self.new)
            (naming_refusal (state_of self.old) flit.now there)
            (naming_after (state_of self.old) flit.now there number)
            (naming_answer (state_of self.old) flit.now there) result }
    {
        let slot = self.slot_at(flit);
        let Some(id) = found_by(self.options, flit, value_of(slot)) else {
            return Err(Stop::Refused(Reason::NotOpen));
        };
        let begun = self.begun_at(flit, &id);
        let buffer = self.buffer_at(flit);
        if let Some(reason) = named_refusal(flit, there, &id, begun, buffer) {
            return Err(Stop::Refused(reason));
        }
        self.keep_named(flit, there, number, slot, &id, begun, buffer)?;
        Ok(taken_of(&id, beat_of(flit, there, begun)))
    }
}

/// What is told of a flit of the id, which is this beat of its data.
#[inline(always)]
pub(crate) fn taken_of(id: &OpenId, beat: Portion) -> Taken
    ensures { result ≡ taken_of id.now beat }
{
    if id.since == 0 {
        return Taken::Before(beat);
    }
    Taken::Of(Named {
        line: id.line,
        of: id.of,
        since: id.since,
        beat,
    })
}

/// The ids behind a flit with this number that names one, and is this beat of its data.
#[inline(always)]
#[tactic(auto, unfolding(crate::specs::Steps::ids_with))]
fn keep_id<A: Allocator>(
    ids: &mut Table<OpenId, A>,
    flit: &Flit,
    number: u64,
    beat: Portion,
    slot: Option<Slot<OpenId>>,
    id: &OpenId,
    buffer: Option<OpenId>,
) -> Result<(), AllocError>
    requires { IfSome slot (λ slot. IsSlot ids.old (number_at flit.now) slot) }
    ensures { OnOk result (entry_in ids.new
        ≡ ids_with (entry_in ids.old) flit.now number beat id.now buffer) }
{
    put_at(ids, number_at(flit), slot, brought(flit, beat, id))?;
    if is_in_use(buffer) {
        return Ok(());
    }
    match flit.dbid() {
        Some(dbid) => keep_buffer(ids, flit, number, id, dbid),
        None => Ok(()),
    }
}

/// The ids with the DBID that the flit opens; one that an id from before the trace names may be named again.
#[inline(always)]
fn keep_buffer<A: Allocator>(
    ids: &mut Table<OpenId, A>,
    flit: &Flit,
    number: u64,
    id: &OpenId,
    dbid: DbId,
) -> Result<(), AllocError>
    ensures { OnOk result (entry_in ids.new
        ≡ with_buffer flit.now number id.now (Some dbid) (entry_in ids.old)) }
{
    if is_opening(flit, id) {
        return put(
            ids,
            buffer_of(flit, dbid).number(),
            opened_buffer(number, id),
        );
    }
    let named = names_buffer(flit.opcode, flit.resp);
    if id.since == 0 && named {
        remove(ids, buffer_of(flit, dbid).number());
    }
    Ok(())
}

/// The data that lack words behind a flit that is this beat of the id's.
#[inline(always)]
fn keep_begun<A: Allocator>(
    table: &mut Table<Begun, A>,
    flit: &Flit,
    there: u8,
    beat: Portion,
    id: &OpenId,
    begun: Option<Begun>,
) -> Result<(), AllocError>
    ensures { OnOk result (entry_in table.new
        ≡ begun_by beat (entry_in table.old) (number_at flit.now) (begun_behind flit.now there id.now begun)) }
{
    match beat {
        Portion::Whole => Ok(()),
        Portion::First => put(table, number_at(flit), begun_behind(flit, there, id, begun)),
        Portion::Further => put(table, number_at(flit), begun_behind(flit, there, id, begun)),
        Portion::Last => {
            remove(table, number_at(flit));
            Ok(())
        }
    }
}
