//! What each flit does to what is open.

ghost use Rattle.std.specs.Prelude.{◌≡◌, Some};
ghost use Rattle.chi_resolution.specs.Changes.{access_at, cancelled_by, change_by, change_of, credit_change, data_flit, flit_change, once_received, with_loss, with_loss_in};
ghost use Rattle.chi_resolution.specs.Tables.{table_of};

use crate::beats::find_before;
use crate::cancels::{is_unfit, left_by};
use crate::data_flits::{DataFlit, DataSort};
use crate::ids::{OpenId, OpenKey, find_id, is_completed};
use crate::ledger::{Booking, CreditEvent};
use crate::lines::{line_of, word_of};
use crate::nodes::Ends;
use crate::reasons::IdReason;
use crate::responses::buffer_of;
use crate::tables::{Change, LineFlit, Tables, plain_flit};
use chi_explain::Observed;
use chi_flit::{RspDown, RspUp, State};
use chi_trace::{Address, Beat, Flit, Opcode, Resp, Transaction};
use std::alloc::Allocator;

/// Data that frees a request, a snoop or a DBID.
fn data_flit(
    sort: DataSort,
    key: OpenKey,
    resp: Resp,
    transaction: &Transaction,
    beat: &Beat,
) -> DataFlit
    ensures { result ≡ data_flit sort key resp transaction.now beat.now }
{
    DataFlit {
        sort,
        key,
        resp,
        address: transaction.address,
        beat: *beat,
    }
}

impl<A: Allocator> Tables<'_, A> {
    /// What a processor did to a word: it waits where its requester's copy isn't acknowledged.
    fn access(&self, ends: &Ends, address: Address, flit: Observed) -> LineFlit
        ensures { result ≡ access_at (table_of self.now) ends.now address flit }
    {
        let line = line_of(address);
        LineFlit {
            waits: is_completed(self.ids, ends.requester, line),
            ..plain_flit(line, flit)
        }
    }

    /// A flit of the opcode, which the home sends only once it has all words of the data that comes before it.
    fn once_received(&self, opcode: Opcode, flit: LineFlit) -> Result<Change, IdReason>
        ensures { result ≡ once_received (table_of self.now) opcode flit }
    {
        match find_before(self.unfinished, opcode, flit.line) {
            Some(data) => Err(IdReason::Lacking(data.key)),
            None => Ok(Change::Flit(flit)),
        }
    }

    /// The flit, which cancels a retried copy-back where it takes the copy that this needs.
    fn with_loss(&self, ends: &Ends, flit: LineFlit) -> LineFlit
        ensures { result ≡ with_loss (table_of self.now) ends.now flit }
    {
        match left_by(&flit.flit) {
            Some(state) => self.with_loss_of(ends, flit, state),
            None => flit,
        }
    }

    /// The same of an answer that leaves the copy in this state.
    fn with_loss_of(&self, ends: &Ends, flit: LineFlit, state: State) -> LineFlit
        ensures { result ≡ with_loss_in (table_of self.now) ends.now flit (Some state) }
    {
        match find_id(self.ids, OpenKey::Retried(ends.requester, flit.line)) {
            Some(waiting) if is_unfit(waiting.may_retry, state) => {
                self.cancelled_by(ends, &waiting, flit)
            }
            Some(_) | None => flit,
        }
    }

    /// The flit, which cancels the request that waits for a credit.
    fn cancelled_by(&self, ends: &Ends, waiting: &OpenId, flit: LineFlit) -> LineFlit
        ensures { result
            ≡ cancelled_by (table_of self.now) ends.now waiting.now flit waiting.now.waits_for }
    {
        match waiting.waits_for {
            Some(pcrd) => LineFlit {
                cancels: Some(waiting.key),
                books: Some(self.booking(ends.requester, pcrd, CreditEvent::Cancelled)),
                ..flit
            },
            None => flit,
        }
    }

    /// What the flit does, between these nodes, or why it isn't allowed.
    #[tactic(auto, unfolding(crate::specs::Changes::change_of))]
    pub(crate) fn change(&self, ends: &Ends, flit: &Flit) -> Result<Change, IdReason>
        ensures { result ≡ change_of self.now.options (table_of self.now) ends.now flit.now }
    {
        match self.change_by(ends, flit)? {
            Change::Flit(change) => {
                self.once_received(flit.opcode(), self.with_loss(ends, change))
            }
            change @ (Change::Credit(_) | Change::Beat(_)) => Ok(change),
        }
    }

    /// The same by the ids and the ledger alone.
    fn change_by(&self, ends: &Ends, flit: &Flit) -> Result<Change, IdReason>
        ensures { result ≡ change_by flit.now self.now.options (table_of self.now) ends.now }
    {
        let (node, agent) = (ends.requester, ends.agent);
        match flit {
            Flit::Request {
                kind,
                spends,
                target: _,
                txn,
                address,
            } => { told(self.request(ends, *kind, *spends, *txn, *address)) }
            Flit::PCrdReturn { pcrd, target: _ } => told_booking(self.give_back(ends, *pcrd)),
            Flit::Snoop {
                snoop,
                target: _,
                txn,
                address,
            } => { told(self.snoop(ends, *snoop, *txn, *address)) }
            Flit::RetryAck { pcrd, transaction } => told(self.retry(ends, *pcrd, transaction)),
            Flit::CompUC { dbid, transaction } => {
                told(self.respond(ends, RspDown::CompUC, *dbid, transaction))
            }
            Flit::Comp { resp, transaction } => told(self.complete(ends, *resp, transaction)),
            Flit::CompDBIDResp { dbid, transaction } => {
                told(self.respond(ends, RspDown::CompDBIDResp, *dbid, transaction))
            }
            Flit::PCrdGrant { pcrd, target: _ } => told_booking(self.grant(ends, *pcrd)),
            Flit::SnpResp { resp, transaction } => told(self.answer(ends, *resp, transaction)),
            Flit::CompAck { transaction } => {
                let key = buffer_of(node, transaction.txn);
                told(self.reply(ends, key, transaction.address, RspUp::CompAck))
            }
            Flit::CompData {
                resp,
                dbid,
                transaction,
                beat,
            } => {
                let key = OpenKey::Request(node, transaction.txn);
                let sort = DataSort::Read(*dbid);
                self.data(ends, &data_flit(sort, key, *resp, transaction, beat))
            }
            Flit::SnpRespData {
                resp,
                transaction,
                beat,
            } => {
                let key = OpenKey::Snoop(node, transaction.txn);
                self.data(
                    ends,
                    &data_flit(DataSort::Snooped, key, *resp, transaction, beat),
                )
            }
            Flit::CopyBackWrData {
                resp,
                transaction,
                beat,
            } => {
                let key = buffer_of(node, transaction.txn);
                self.data(
                    ends,
                    &data_flit(DataSort::Written, key, *resp, transaction, beat),
                )
            }
            Flit::Load { address, value } => {
                let load = Observed::Load(agent, word_of(*address), *value);
                Ok(Change::Flit(self.access(ends, *address, load)))
            }
            Flit::Store { address, value } => {
                let store = Observed::Store(agent, word_of(*address), *value);
                Ok(Change::Flit(self.access(ends, *address, store)))
            }
        }
    }
}

/// The change of a flit of a line.
fn told(flit: Result<LineFlit, IdReason>) -> Result<Change, IdReason>
    ensures { result ≡ flit_change flit }
{
    match flit {
        Ok(flit) => Ok(Change::Flit(flit)),
        Err(reason) => Err(reason),
    }
}

/// The change of a flit of a credit.
fn told_booking(booking: Result<Booking, IdReason>) -> Result<Change, IdReason>
    ensures { result ≡ credit_change booking }
{
    match booking {
        Ok(booking) => Ok(Change::Credit(booking)),
        Err(reason) => Err(reason),
    }
}
