//! What each flit does to ids and credits.

ghost use Rattle.std.specs.Prelude.{◌≡◌};
ghost use Rattle.chi_observe.specs.Judges.{is_at_home, is_cut};
ghost use Rattle.chi_observe.specs.Steps.{acknowledged, attempt_of, attempted_kind, change_of, completed, judged_attempt, judged_resent, judged_snoop, read_data, resent_of, retried, snooped, waited_for, waiting_of, wanted_type};
ghost use Rattle.chi_observe.specs.Tables.{new_buffer, table_of};

use crate::credits::{CreditEvent, CreditTypes};
use crate::events::Tells;
use crate::ids::{OpenId, Purpose, find_id, opened_id};
use crate::judges::Log;
use crate::reasons::IdReason;
use crate::tables::{Change, Part, Tables, freed_key, plain_change, right_type};
use chi_ids::{CacheLine, IdKey, Sides};
use chi_observer::{Kind, Snoop, Stores};
use chi_trace::{DbId, PcrdType, TraceForm, TxnId};
use std::alloc::Allocator;

/// What a trace is taken for.
/// Source: `docs/OBSERVER.md`, "Ids and credits".
#[derive(Clone, Copy, Debug, PartialEq, Eq)]
pub struct WatchOptions {
    pub types: CreditTypes,
    /// The monitors stand at the requesters, where a grant may come before its RetryAck.
    pub early_grants: bool,
    /// Whether each store of a processor is in the trace.
    pub stores: Stores,
    /// How it was taken.
    pub log: Log,
    /// Which opcodes and which data it lists.
    pub form: TraceForm,
}

impl WatchOptions {
    /// Whether the trace is cut out of a longer one.
    pub(crate) fn is_cut(self) -> bool
        ensures { result ≡ is_cut self }
    {
        matches!(self.log, Log::Tail)
    }

    /// Whether it is taken at the home.
    pub(crate) fn is_at_home(self) -> bool
        ensures { result ≡ is_at_home self }
    {
        matches!(self.log, Log::Home)
    }
}

/// What a flit of a line is to ids and credits.
/// Source: `docs/OBSERVER.md`, "Ids and credits".
#[derive(Clone, Copy, Debug, PartialEq, Eq)]
pub enum IdStep {
    /// A request with AllowRetry.
    Attempt(TxnId, Kind, CacheLine),
    /// A request without it, which spends a credit.
    Resent(TxnId, Kind, CacheLine, PcrdType),
    Snoop(TxnId, Snoop, CacheLine),
    RetryAck(TxnId, PcrdType),
    /// A completion without data that names no DBID.
    Complete(TxnId),
    /// One that names a DBID where a CompAck or write data follow.
    CompleteWith(TxnId, Option<DbId>),
    /// A beat of a read's data: which words it has. It names a DBID where a CompAck follows.
    ReadData(TxnId, Option<DbId>, [bool; 8]),
    /// An answer without data.
    Answer(TxnId),
    /// A beat of an answer.
    AnswerData(TxnId, [bool; 8]),
    /// A CompAck.
    Acknowledge(DbId),
    /// A beat of write data.
    WriteData(DbId, [bool; 8]),
    /// A request whose kind isn't known, and the type of the credit that it spends without AllowRetry.
    UnknownRequest(TxnId, CacheLine, Option<PcrdType>),
    /// A snoop that isn't known.
    UnknownSnoop(TxnId, CacheLine),
    /// An answer that isn't known.
    UnknownAnswer(TxnId),
    /// A response, or data, that aren't known, and the DBID that they name, if any: of the home by the id of a request, or of
    /// a requester by a DBID.
    UnknownReply(TxnId, Option<DbId>),
}

/// The kind of a request with AllowRetry, where it is known.
fn attempt_of(found: &OpenId) -> Option<Option<Kind>>
    ensures { result ≡ attempted_kind found.now.purpose }
{
    match found.purpose {
        Purpose::Request { kind, first: true } => Some(Some(kind)),
        Purpose::Unknown { first: true } => Some(None),
        Purpose::Request {
            kind: _,
            first: false,
        }
        | Purpose::Unknown { first: false }
        | Purpose::Snoop(_) => None,
    }
}

/// A request that waits for a credit of the type.
fn waiting_of(found: &OpenId, sides: Sides, pcrd: PcrdType) -> OpenId
    ensures { result ≡ waiting_of found.now sides pcrd }
{
    OpenId {
        waits_for: Some(pcrd),
        ..opened_id(IdKey::Retried(sides, found.line), found.line, found.purpose)
    }
}

impl<A: Allocator> Tables<'_, A> {
    /// A request that is sent for the first time.
    fn attempt(
        &self,
        sides: Sides,
        txn: TxnId,
        kind: Kind,
        line: CacheLine,
    ) -> Result<Change, IdReason>
        ensures { result ≡ attempt_of (table_of self.now) sides txn kind line }
    {
        if self.is_aside(line) {
            self.unknown_request(sides, txn, line, None)
        } else {
            self.judged_attempt(sides, txn, kind, line)
        }
    }

    /// The same to a line that is judged. One that was retried before is cancelled.
    #[tactic(auto, unfolding(crate::specs::Steps::judged_attempt))]
    fn judged_attempt(
        &self,
        sides: Sides,
        txn: TxnId,
        kind: Kind,
        line: CacheLine,
    ) -> Result<Change, IdReason>
        ensures { result ≡ judged_attempt (table_of self.now) sides txn kind line }
    {
        let key = self.new_id(IdKey::Request(sides, txn))?;
        let purpose = Purpose::Request { kind, first: true };
        Ok(Change {
            frees: Some(IdKey::Retried(sides, line)),
            opens: Some(opened_id(key, line, purpose)),
            ..plain_change(line)
        })
    }

    /// A request that is sent again.
    fn resent(
        &self,
        sides: Sides,
        txn: TxnId,
        kind: Kind,
        line: CacheLine,
        pcrd: PcrdType,
    ) -> Result<Change, IdReason>
        ensures { result ≡ resent_of self.now.options (table_of self.now) sides txn kind line pcrd }
    {
        if self.is_aside(line) {
            self.unknown_request(sides, txn, line, Some(pcrd))
        } else {
            self.judged_resent(sides, txn, kind, line, pcrd)
        }
    }

    /// The same to a line that is judged: it takes a credit of the type that its RetryAck has named.
    #[tactic(auto, unfolding(crate::specs::Steps::judged_resent))]
    fn judged_resent(
        &self,
        sides: Sides,
        txn: TxnId,
        kind: Kind,
        line: CacheLine,
        pcrd: PcrdType,
    ) -> Result<Change, IdReason>
        ensures { result ≡ judged_resent self.now.options (table_of self.now) sides txn kind line pcrd }
    {
        let key = self.new_id(IdKey::Request(sides, txn))?;
        let old = IdKey::Retried(sides, line);
        let wanted = self.waited_for(old)?;
        let pcrd = right_type(pcrd, wanted)?;
        let booking = self.booking(sides, pcrd, CreditEvent::Resent);
        if self.lacks_credit(&booking) {
            return Err(IdReason::NoCredit(sides, pcrd));
        }
        let purpose = Purpose::Request { kind, first: false };
        Ok(Change {
            frees: Some(old),
            opens: Some(opened_id(key, line, purpose)),
            books: Some(booking),
            ..plain_change(line)
        })
    }

    /// The type of credit that a request which is sent again waits for; any where it was retried before the trace.
    fn waited_for(&self, key: IdKey) -> Result<Option<PcrdType>, IdReason>
        ensures { result ≡ waited_for self.now.options (table_of self.now) key }
    {
        match find_id(self.ids, key) {
            Some(waiting) => Ok(waiting.waits_for),
            None => if self.options.is_cut() {
                Ok(None)
            } else {
                Err(IdReason::NotOpen(key))
            },
        }
    }

    /// A snoop.
    fn snoop(
        &self,
        sides: Sides,
        txn: TxnId,
        snoop: Snoop,
        line: CacheLine,
    ) -> Result<Change, IdReason>
        ensures { result ≡ snooped (table_of self.now) sides txn snoop line }
    {
        if self.is_aside(line) {
            self.unknown_snoop(sides, txn, line)
        } else {
            self.judged_snoop(sides, txn, snoop, line)
        }
    }

    /// The same to a line that is judged.
    #[tactic(auto, unfolding(crate::specs::Steps::judged_snoop))]
    fn judged_snoop(
        &self,
        sides: Sides,
        txn: TxnId,
        snoop: Snoop,
        line: CacheLine,
    ) -> Result<Change, IdReason>
        ensures { result ≡ judged_snoop (table_of self.now) sides txn snoop line }
    {
        let key = self.new_id(IdKey::Snoop(sides, txn))?;
        Ok(Change {
            opens: Some(opened_id(key, line, Purpose::Snoop(snoop))),
            ..plain_change(line)
        })
    }

    /// A RetryAck: the request waits for a credit of the type.
    #[tactic(auto, unfolding(crate::specs::Steps::retried))]
    fn retry(
        &self,
        sides: Sides,
        txn: TxnId,
        pcrd: PcrdType,
        at: Option<CacheLine>,
    ) -> Result<Change, IdReason>
        ensures { result ≡ retried self.now.options (table_of self.now) sides txn pcrd at }
    {
        let key = IdKey::Request(sides, txn);
        let found = self.freed(key, at)?;
        let kind = attempt_of(&found).ok_or(IdReason::NotRetryable(key))?;
        let pcrd = right_type(pcrd, self.wanted(kind))?;
        Ok(Change {
            frees: Some(key),
            opens: Some(waiting_of(&found, sides, pcrd)),
            books: Some(self.booking(sides, pcrd, CreditEvent::Retried)),
            ..plain_change(found.line)
        })
    }

    /// The type that a RetryAck has to name; `None` where it may be any, as of a kind that isn't known.
    fn wanted(&self, kind: Option<Kind>) -> Option<PcrdType>
        ensures { result ≡ wanted_type self.now.options kind }
    {
        match kind {
            Some(kind) => self.options.types.wanted(kind),
            None => None,
        }
    }

    /// A completion without data that may open a DBID.
    #[tactic(auto, unfolding(crate::specs::Steps::completed))]
    fn complete_with(
        &self,
        sides: Sides,
        txn: TxnId,
        dbid: Option<DbId>,
        at: Option<CacheLine>,
    ) -> Result<Change, IdReason>
        ensures { result ≡ completed (table_of self.now) sides txn dbid at }
    {
        let key = IdKey::Request(sides, txn);
        let found = self.freed(key, at)?;
        let opens = self.new_buffer(&found, dbid)?;
        Ok(Change {
            frees: freed_key(&found),
            opens,
            ..plain_change(found.line)
        })
    }

    /// A flit that frees an id, and neither has data nor opens another.
    fn acknowledge(&self, key: IdKey, at: Option<CacheLine>) -> Result<Change, IdReason>
        ensures { result ≡ acknowledged (table_of self.now) key at }
    {
        let found = self.freed(key, at)?;
        Ok(Change {
            frees: freed_key(&found),
            ..plain_change(found.line)
        })
    }

    /// A beat of a read's data: the first one opens the DBID.
    #[tactic(auto, unfolding(crate::specs::Steps::read_data))]
    fn read(
        &self,
        sides: Sides,
        txn: TxnId,
        dbid: Option<DbId>,
        there: &[bool; 8],
        at: Option<CacheLine>,
        tells: &Tells,
    ) -> Result<Change, IdReason>
        ensures { result ≡ read_data (table_of self.now) sides txn dbid there.now at tells.now }
    {
        let key = IdKey::Request(sides, txn);
        let found = self.named(key, at)?;
        let change = self.beat(key, there, dbid, at, tells)?;
        match change.part {
            Part::Further | Part::Held(_) | Part::Last(_) => Ok(change),
            Part::Whole | Part::First(_) | Part::Known(_) => {
                let opens = self.new_buffer(&found, dbid)?;
                Ok(Change { opens, ..change })
            }
        }
    }

    /// What a flit of a line does to ids and credits, or why they don't allow it. `at` is the line of its address, if it
    /// has one, and `tells` what it tells of its line.
    pub(crate) fn change(
        &self,
        sides: Sides,
        step: &IdStep,
        at: Option<CacheLine>,
        tells: &Tells,
    ) -> Result<Change, IdReason>
        ensures { result ≡ change_of self.now.options (table_of self.now) sides step.now at tells.now }
    {
        match step {
            IdStep::Attempt(txn, kind, line) => self.attempt(sides, *txn, *kind, *line),
            IdStep::Resent(txn, kind, line, pcrd) => self.resent(sides, *txn, *kind, *line, *pcrd),
            IdStep::Snoop(txn, snoop, line) => self.snoop(sides, *txn, *snoop, *line),
            IdStep::RetryAck(txn, pcrd) => self.retry(sides, *txn, *pcrd, at),
            IdStep::Complete(txn) => self.acknowledge(IdKey::Request(sides, *txn), at),
            IdStep::CompleteWith(txn, dbid) => self.complete_with(sides, *txn, *dbid, at),
            IdStep::ReadData(txn, dbid, there) => self.read(sides, *txn, *dbid, there, at, tells),
            IdStep::Answer(txn) => self.acknowledge(IdKey::Snoop(sides, *txn), at),
            IdStep::AnswerData(txn, there) => self.beat(
                IdKey::Snoop(sides, *txn),
                there,
                None,
                at,
                tells,
            ),
            IdStep::Acknowledge(dbid) => self.acknowledge(IdKey::Buffer(sides, *dbid), at),
            IdStep::UnknownRequest(txn, line, spends) => {
                self.unknown_request(sides, *txn, *line, *spends)
            }
            IdStep::UnknownSnoop(txn, line) => self.unknown_snoop(sides, *txn, *line),
            IdStep::UnknownAnswer(txn) => self.unknown_answer(IdKey::Snoop(sides, *txn), at),
            IdStep::UnknownReply(txn, dbid) => self.unknown_reply(sides, *txn, *dbid, at),
            IdStep::WriteData(dbid, there) => self.beat(
                IdKey::Buffer(sides, *dbid),
                there,
                None,
                at,
                tells,
            ),
        }
    }
}
