//! Requests, their RetryAcks and snoops.

ghost use Rattle.std.specs.Prelude.{◌≡◌};
ghost use Rattle.chi_resolution.specs.Requests.{attempted, request_by, requested, retried, retried_flit, retry_event, right_type, resent, snooped, unless_lost};
ghost use Rattle.chi_resolution.specs.Tables.{table_of};

use crate::cancels::is_lost;
use crate::ids::{OpenId, OpenKey, find_id};
use crate::ledger::CreditEvent;
use crate::lines::line_of;
use crate::nodes::Ends;
use crate::reasons::IdReason;
use crate::tables::{LineFlit, Tables, plain_flit, sent};
use chi_explain::Observed;
use chi_flit::{Kind, Msg, Request, RspDown, Slot, Snoop};
use chi_trace::{Address, PcrdType, Transaction, TxnId};
use std::alloc::Allocator;

/// A first attempt of this kind, which opens the id.
fn first_attempt(kind: Kind, id: OpenId, flit: Observed) -> LineFlit
    ensures { result ≡ attempted kind id flit }
{
    LineFlit {
        opens: Some(OpenId {
            may_retry: Some(kind),
            ..id
        }),
        ..plain_flit(id.line, flit)
    }
}

impl<A: Allocator> Tables<'_, A> {
    /// A request. A first attempt opens its id; another request takes a credit too.
    #[tactic(auto, unfolding(crate::specs::Requests::requested))]
    pub(crate) fn request(
        &self,
        ends: &Ends,
        kind: Kind,
        spends: Option<PcrdType>,
        txn: TxnId,
        address: Address,
    ) -> Result<LineFlit, IdReason>
        ensures { result ≡ requested (table_of self.now) ends.now kind spends txn address }
    {
        let key = self.new_id(OpenKey::Request(ends.requester, txn))?;
        let request = Request {
            kind,
            slot: Slot(0),
            allow_retry: spends.is_none(),
        };
        let id = self.plain_id(key, line_of(address));
        self.request_by(spends, ends, kind, id, sent(ends, Msg::Req(request)))
    }

    /// The same, by the credit that it spends.
    fn request_by(
        &self,
        spends: Option<PcrdType>,
        ends: &Ends,
        kind: Kind,
        id: OpenId,
        flit: Observed,
    ) -> Result<LineFlit, IdReason>
        ensures { result ≡ request_by spends (table_of self.now) ends.now kind id flit }
    {
        match spends {
            None => Ok(first_attempt(kind, id, flit)),
            Some(pcrd) => self.resent(ends, pcrd, id, flit),
        }
    }

    /// A request that is resent and opens the id: it takes a credit of the type that its RetryAck has named.
    #[tactic(auto, unfolding(crate::specs::Requests::resent))]
    fn resent(
        &self,
        ends: &Ends,
        named: PcrdType,
        id: OpenId,
        flit: Observed,
    ) -> Result<LineFlit, IdReason>
        ensures { result ≡ resent (table_of self.now) ends.now named id flit }
    {
        let node = ends.requester;
        let key = OpenKey::Retried(node, id.line);
        let retried = find_id(self.ids, key).ok_or(IdReason::NotOpen(key))?;
        let named = right_type(named, retried.waits_for)?;
        let booking = self.booking(node, named, CreditEvent::Resent);
        if booking.held.account.unused() == 0 {
            return Err(IdReason::NoCredit(node, named));
        }
        Ok(LineFlit {
            frees: Some(retried.key),
            opens: Some(id),
            books: Some(booking),
            ..plain_flit(id.line, flit)
        })
    }

    /// A snoop.
    #[tactic(auto, unfolding(crate::specs::Requests::snooped))]
    pub(crate) fn snoop(
        &self,
        ends: &Ends,
        snoop: Snoop,
        txn: TxnId,
        address: Address,
    ) -> Result<LineFlit, IdReason>
        ensures { result ≡ snooped (table_of self.now) ends.now snoop txn address }
    {
        let line = line_of(address);
        let key = self.new_id(OpenKey::Snoop(ends.requester, txn))?;
        Ok(LineFlit {
            opens: Some(self.plain_id(key, line)),
            ..plain_flit(line, sent(ends, Msg::Snp(snoop)))
        })
    }

    /// A RetryAck: the request waits for a credit, or is cancelled at once.
    #[tactic(auto, unfolding(crate::specs::Requests::retried))]
    pub(crate) fn retry(
        &self,
        ends: &Ends,
        named: PcrdType,
        transaction: &Transaction,
    ) -> Result<LineFlit, IdReason>
        ensures { result ≡
            retried self.now.options (table_of self.now) ends.now named transaction.now }
    {
        let (node, txn) = (ends.requester, transaction.txn);
        let found = self.freed(OpenKey::Request(node, txn), transaction.address)?;
        let kind = found.may_retry.ok_or(IdReason::NotRetryable(node, txn))?;
        let types = self.options.types;
        let named = right_type(named, types.wanted(kind))?;
        let line = found.line;
        let key = self.new_id(OpenKey::Retried(node, line))?;
        let message = Msg::RspDown(RspDown::RetryAck(types.credit(kind)));
        let waiting = OpenId {
            may_retry: Some(kind),
            waits_for: Some(named),
            ..self.plain_id(key, line)
        };
        let lost = is_lost(kind, ends.agent, &found, self.flits);
        Ok(self.retried_flit(lost, ends, &found, waiting, named, sent(ends, message)))
    }

    /// A RetryAck of a request that is lost, or waits for a credit of the type.
    fn retried_flit(
        &self,
        lost: bool,
        ends: &Ends,
        found: &OpenId,
        waiting: OpenId,
        named: PcrdType,
        flit: Observed,
    ) -> LineFlit
        ensures { result ≡
            retried_flit lost (table_of self.now) ends.now found.now waiting named flit }
    {
        LineFlit {
            frees: Some(found.key),
            opens: unless_lost(lost, waiting),
            books: Some(self.booking(ends.requester, named, retry_event(lost))),
            ..plain_flit(found.line, flit)
        }
    }
}

/// The id of a request that waits for a credit; none where it is lost.
fn unless_lost(lost: bool, waiting: OpenId) -> Option<OpenId>
    ensures { result ≡ unless_lost lost waiting }
{
    if lost { None } else { Some(waiting) }
}

/// What a RetryAck books of a request that is lost, or isn't.
fn retry_event(lost: bool) -> CreditEvent
    ensures { result ≡ retry_event lost }
{
    if lost {
        CreditEvent::RetriedInVain
    } else {
        CreditEvent::Retried
    }
}

/// The named type, which is the wanted one, if that isn't open.
fn right_type(named: PcrdType, wanted: Option<PcrdType>) -> Result<PcrdType, IdReason>
    ensures { result ≡ right_type named wanted }
{
    match wanted {
        Some(wanted) if wanted.0 != named.0 => Err(IdReason::OtherType { named, wanted }),
        Some(_) | None => Ok(named),
    }
}
