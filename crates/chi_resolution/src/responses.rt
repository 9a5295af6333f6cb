//! Responses without data.

ghost use Rattle.std.specs.Prelude.{◌≡◌};
ghost use Rattle.chi_resolution.specs.Responses.{answered, buffer_of, completed, is_acknowledged, replied, responded};
ghost use Rattle.chi_resolution.specs.Tables.{table_of};

use crate::ids::{OpenId, OpenKey};
use crate::messages::{answer, completion};
use crate::nodes::Ends;
use crate::reasons::IdReason;
use crate::tables::{LineFlit, Tables, plain_flit, sent};
use chi_flit::{Msg, RspDown, RspUp};
use chi_trace::{Address, DbId, NodeId, Resp, Transaction, TxnId};
use std::alloc::Allocator;

/// Whether a CompAck follows the response.
fn is_acknowledged(response: RspDown) -> bool
    ensures { result ≡ is_acknowledged response }
{
    matches!(response, RspDown::CompUC)
}

/// What the home keeps for a request, as CompAck and CopyBackWrData name it: their TxnID is its DBID.
pub(crate) fn buffer_of(node: NodeId, txn: TxnId) -> OpenKey
    ensures { result ≡ buffer_of node txn }
{
    OpenKey::Buffer(node, DbId(txn.0))
}

impl<A: Allocator> Tables<'_, A> {
    /// A response that frees a request and opens a DBID.
    #[tactic(auto, unfolding(crate::specs::Responses::responded))]
    pub(crate) fn respond(
        &self,
        ends: &Ends,
        response: RspDown,
        dbid: DbId,
        transaction: &Transaction,
    ) -> Result<LineFlit, IdReason>
        ensures { result ≡
            responded (table_of self.now) ends.now response dbid transaction.now }
    {
        let key = OpenKey::Request(ends.requester, transaction.txn);
        let found = self.freed(key, transaction.address)?;
        let buffer = self.new_id(OpenKey::Buffer(ends.requester, dbid))?;
        Ok(LineFlit {
            frees: Some(found.key),
            opens: Some(OpenId {
                awaits_ack: is_acknowledged(response),
                ..self.plain_id(buffer, found.line)
            }),
            ..plain_flit(found.line, sent(ends, Msg::RspDown(response)))
        })
    }

    /// A completion that no CompAck follows.
    #[tactic(auto, unfolding(crate::specs::Responses::completed))]
    pub(crate) fn complete(
        &self,
        ends: &Ends,
        resp: Resp,
        transaction: &Transaction,
    ) -> Result<LineFlit, IdReason>
        ensures { result ≡ completed (table_of self.now) ends.now resp transaction.now }
    {
        let response = completion(resp).ok_or(IdReason::Form(resp))?;
        let key = OpenKey::Request(ends.requester, transaction.txn);
        let found = self.freed(key, transaction.address)?;
        Ok(LineFlit {
            frees: Some(found.key),
            ..plain_flit(found.line, sent(ends, Msg::RspDown(response)))
        })
    }

    /// A response of the node, which frees an id.
    #[tactic(auto, unfolding(crate::specs::Responses::replied))]
    pub(crate) fn reply(
        &self,
        ends: &Ends,
        key: OpenKey,
        address: Option<Address>,
        response: RspUp,
    ) -> Result<LineFlit, IdReason>
        ensures { result ≡ replied (table_of self.now) ends.now key address response }
    {
        let found = self.freed(key, address)?;
        Ok(LineFlit {
            frees: Some(found.key),
            ..plain_flit(found.line, sent(ends, Msg::RspUp(response)))
        })
    }

    /// An answer without data to a snoop.
    #[tactic(auto, unfolding(crate::specs::Responses::answered))]
    pub(crate) fn answer(
        &self,
        ends: &Ends,
        resp: Resp,
        transaction: &Transaction,
    ) -> Result<LineFlit, IdReason>
        ensures { result ≡ answered (table_of self.now) ends.now resp transaction.now }
    {
        let response = answer(resp).ok_or(IdReason::Form(resp))?;
        let key = OpenKey::Snoop(ends.requester, transaction.txn);
        self.reply(ends, key, transaction.address, response)
    }
}
