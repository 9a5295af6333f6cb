//! What flits that aren't judged do to ids and credits.

ghost use Rattle.std.specs.Prelude.{◌≡◌};
ghost use Rattle.chi_observe.specs.Tables.{booking_of, table_of};
ghost use Rattle.chi_observe.specs.Unknown.{spent_if, turned, unknown_answer, unknown_buffer, unknown_named, unknown_reply, unknown_request, unknown_response, unknown_snoop};
ghost use Rattle.chi_observe.specs.declared.credits.CreditEvent.TheVariants as events;

use crate::credits::{Booking, CreditEvent};
use crate::ids::{OpenId, Purpose, find_id, opened_id};
use crate::reasons::IdReason;
use crate::tables::{Change, Tables, in_line, plain_change, unknown_id};
use chi_ids::{CacheLine, IdKey, Sides};
use chi_trace::{DbId, PcrdType, TxnId};
use std::alloc::Allocator;

/// The nodes, each on the other side.
fn turned(sides: Sides) -> Sides
    ensures { result ≡ turned sides }
{
    Sides {
        requester: sides.home,
        home: sides.requester,
    }
}

impl<A: Allocator> Tables<'_, A> {
    /// One more credit of the type is spent, where there is one.
    fn spent(&self, sides: Sides, pcrd: PcrdType) -> Option<Booking>
        ensures { result ≡ spent_if (booking_of (table_of self.now) sides pcrd events.Resent) }
    {
        let booking = self.booking(sides, pcrd, CreditEvent::Resent);
        if booking.account.unused() == 0 {
            None
        } else {
            Some(booking)
        }
    }

    /// A request whose kind isn't known, or to a line that is set aside.
    #[tactic(auto, unfolding(crate::specs::Unknown::unknown_request))]
    pub(crate) fn unknown_request(
        &self,
        sides: Sides,
        txn: TxnId,
        line: CacheLine,
        spends: Option<PcrdType>,
    ) -> Result<Change, IdReason>
        ensures { result ≡ unknown_request (table_of self.now) sides txn line spends }
    {
        let key = self.new_id(IdKey::Request(sides, txn))?;
        let first = spends.is_none();
        let change = Change {
            opens: Some(opened_id(key, line, Purpose::Unknown { first })),
            ..plain_change(line)
        };
        match spends {
            None => Ok(change),
            Some(pcrd) => Ok(Change {
                frees: Some(IdKey::Retried(sides, line)),
                books: self.spent(sides, pcrd),
                ..change
            }),
        }
    }

    /// A snoop that isn't known, or to a line that is set aside.
    #[tactic(auto, unfolding(crate::specs::Unknown::unknown_snoop))]
    pub(crate) fn unknown_snoop(
        &self,
        sides: Sides,
        txn: TxnId,
        line: CacheLine,
    ) -> Result<Change, IdReason>
        ensures { result ≡ unknown_snoop (table_of self.now) sides txn line }
    {
        let key = self.new_id(IdKey::Snoop(sides, txn))?;
        Ok(Change {
            opens: Some(unknown_id(key, line)),
            ..plain_change(line)
        })
    }

    /// The open id that a flit which isn't known names; where there is none, its address alone says the line.
    fn unknown_named(&self, key: IdKey, at: Option<CacheLine>) -> Result<OpenId, IdReason>
        ensures { result ≡ unknown_named (table_of self.now) key at }
    {
        match find_id(self.ids, key) {
            Some(found) => in_line(found, at),
            None => match at {
                Some(line) => Ok(unknown_id(key, line)),
                None => self.stray_id(key).ok_or(IdReason::NotOpen(key)),
            },
        }
    }

    /// An answer that isn't known: of the line alone.
    pub(crate) fn unknown_answer(
        &self,
        key: IdKey,
        at: Option<CacheLine>,
    ) -> Result<Change, IdReason>
        ensures { result ≡ unknown_answer (table_of self.now) key at }
    {
        let found = self.unknown_named(key, at)?;
        Ok(plain_change(found.line))
    }

    /// The DBID that a response which isn't known names, if it names one.
    fn unknown_buffer(&self, found: &OpenId, dbid: Option<DbId>) -> Result<Option<OpenId>, IdReason>
        ensures { result ≡ unknown_buffer (table_of self.now) found.now dbid }
    {
        match dbid {
            None => Ok(None),
            Some(dbid) => self.new_buffer(found, Some(dbid)),
        }
    }

    /// A response of the home that isn't known.
    #[tactic(auto, unfolding(crate::specs::Unknown::unknown_response))]
    fn unknown_response(
        &self,
        key: IdKey,
        dbid: Option<DbId>,
        at: Option<CacheLine>,
    ) -> Result<Change, IdReason>
        ensures { result ≡ unknown_response (table_of self.now) key dbid at }
    {
        let found = self.unknown_named(key, at)?;
        let opens = self.unknown_buffer(&found, dbid)?;
        Ok(Change {
            opens,
            ..plain_change(found.line)
        })
    }

    /// A response, or data, that aren't known: of a requester where it names a DBID that is open, else of the home.
    pub(crate) fn unknown_reply(
        &self,
        sides: Sides,
        txn: TxnId,
        dbid: Option<DbId>,
        at: Option<CacheLine>,
    ) -> Result<Change, IdReason>
        ensures { result ≡ unknown_reply (table_of self.now) sides txn dbid at }
    {
        let kept = IdKey::Buffer(turned(sides), DbId(txn.0));
        match find_id(self.ids, kept) {
            Some(found) => Ok(plain_change(in_line(found, at)?.line)),
            None => self.unknown_response(IdKey::Request(sides, txn), dbid, at),
        }
    }
}
