//! The flit that the columns of a line are, read once: by each opcode the columns that it has, in their order.

ghost use Rattle.std.specs.Prelude.{◌≡◌};
ghost use Rattle.chi_trace.specs.Columns.{row_of_columns};
ghost use Rattle.chi_trace.specs.Flits.{ack_in, address_in, allow_in, answer_in, beat_in, comp_dbid_in, comp_in, dbid_in, flit_by, grant_in, load_in, named_in, opcode_of, pcrd_in, read_data_in, request_fields_in, request_in, resp_in, retry_in, return_in, seen_in, snoop_data_in, snoop_fields_in, snoop_in, source_in, spent_by, store_in, target_in, transaction_in, txn_in, value_in, write_data_in, written_in};

use crate::columns::{Column, Columns};
use crate::fields::{
    Address, Beat, DbId, NodeId, PcrdType, Resp, TxnId, is_dash, read_address, read_allow,
    read_beat, read_dbid, read_node, read_pcrd, read_resp, read_txn, read_value, read_written,
};
use crate::flits::{Flit, RequestFields, Seen, SnoopFields, Transaction};
use crate::opcodes::{Opcode, channel_in, opcode_in};
use chi_flit::{Kind, Snoop};

impl Columns<'_> {
    /// The opcode that the columns name.
    fn opcode(&self) -> Result<Opcode, Column>
        ensures { result ≡ opcode_of (row_of_columns self.now) }
    {
        let channel = channel_in(self.channel).ok_or(Column::Channel)?;
        opcode_in(channel, self.opcode).ok_or(Column::Opcode)
    }

    pub(crate) fn source(&self) -> Result<NodeId, Column>
        ensures { result ≡ source_in (row_of_columns self.now) }
    {
        read_node(self.source).ok_or(Column::Source)
    }

    fn target(&self) -> Result<NodeId, Column>
        ensures { result ≡ target_in (row_of_columns self.now) }
    {
        read_node(self.target).ok_or(Column::Target)
    }

    fn txn(&self) -> Result<TxnId, Column>
        ensures { result ≡ txn_in (row_of_columns self.now) }
    {
        read_txn(self.txn).ok_or(Column::Txn)
    }

    fn address(&self) -> Result<Address, Column>
        ensures { result ≡ address_in (row_of_columns self.now) }
    {
        read_address(self.address).ok_or(Column::Address)
    }

    /// The address, where it isn't left out.
    fn named(&self) -> Result<Option<Address>, Column>
        ensures { result ≡ named_in (row_of_columns self.now) }
    {
        if is_dash(self.address) {
            return Ok(None);
        }
        let address = self.address()?;
        Ok(Some(address))
    }

    pub(crate) fn resp(&self) -> Result<Resp, Column>
        ensures { result ≡ resp_in (row_of_columns self.now) }
    {
        read_resp(self.resp).ok_or(Column::Resp)
    }

    pub(crate) fn dbid(&self) -> Result<DbId, Column>
        ensures { result ≡ dbid_in (row_of_columns self.now) }
    {
        read_dbid(self.dbid).ok_or(Column::Dbid)
    }

    fn allow_retry(&self) -> Result<bool, Column>
        ensures { result ≡ allow_in (row_of_columns self.now) }
    {
        read_allow(self.allow_retry).ok_or(Column::AllowRetry)
    }

    fn pcrd(&self) -> Result<PcrdType, Column>
        ensures { result ≡ pcrd_in (row_of_columns self.now) }
    {
        read_pcrd(self.pcrd).ok_or(Column::Pcrd)
    }

    /// The type of the credit that a request with this AllowRetry spends.
    fn spent(&self, allow_retry: bool) -> Result<Option<PcrdType>, Column>
        ensures { result ≡ spent_by allow_retry (row_of_columns self.now) }
    {
        if allow_retry {
            return Ok(None);
        }
        let pcrd = self.pcrd()?;
        Ok(Some(pcrd))
    }

    pub(crate) fn beat(&self) -> Result<Beat, Column>
        ensures { result ≡ beat_in (row_of_columns self.now) }
    {
        read_beat(self.payload).ok_or(Column::Data)
    }

    /// The data of a write back with this RESP.
    fn written(&self, resp: Resp) -> Result<Beat, Column>
        ensures { result ≡ written_in resp (row_of_columns self.now) }
    {
        read_written(resp, self.payload).ok_or(Column::Data)
    }

    fn value(&self) -> Result<u64, Column>
        ensures { result ≡ value_in (row_of_columns self.now) }
    {
        read_value(self.payload).ok_or(Column::Data)
    }

    #[tactic(auto, unfolding(crate::specs::Flits::transaction_in))]
    pub(crate) fn transaction(&self) -> Result<Transaction, Column>
        ensures { result ≡ transaction_in (row_of_columns self.now) }
    {
        let target = self.target()?;
        let txn = self.txn()?;
        let address = self.named()?;
        Ok(Transaction {
            target,
            txn,
            address,
        })
    }

    /// The columns of a request.
    #[tactic(auto, unfolding(crate::specs::Flits::request_fields_in))]
    pub(crate) fn request_fields(&self) -> Result<RequestFields, Column>
        ensures { result ≡ request_fields_in (row_of_columns self.now) }
    {
        let target = self.target()?;
        let txn = self.txn()?;
        let address = self.address()?;
        let allow_retry = self.allow_retry()?;
        let spends = self.spent(allow_retry)?;
        Ok(RequestFields {
            spends,
            target,
            txn,
            address,
        })
    }

    fn request(&self, kind: Kind) -> Result<Flit, Column>
        ensures { result ≡ request_in kind (row_of_columns self.now) }
    {
        let fields = self.request_fields()?;
        Ok(Flit::Request {
            kind,
            spends: fields.spends,
            target: fields.target,
            txn: fields.txn,
            address: fields.address,
        })
    }

    #[tactic(auto, unfolding(crate::specs::Flits::return_in))]
    fn credit_return(&self) -> Result<Flit, Column>
        ensures { result ≡ return_in (row_of_columns self.now) }
    {
        let target = self.target()?;
        let pcrd = self.pcrd()?;
        Ok(Flit::PCrdReturn { pcrd, target })
    }

    /// The columns of a snoop.
    #[tactic(auto, unfolding(crate::specs::Flits::snoop_fields_in))]
    pub(crate) fn snoop_fields(&self) -> Result<SnoopFields, Column>
        ensures { result ≡ snoop_fields_in (row_of_columns self.now) }
    {
        let target = self.target()?;
        let txn = self.txn()?;
        let address = self.address()?;
        Ok(SnoopFields {
            target,
            txn,
            address,
        })
    }

    fn snoop(&self, snoop: Snoop) -> Result<Flit, Column>
        ensures { result ≡ snoop_in snoop (row_of_columns self.now) }
    {
        let fields = self.snoop_fields()?;
        Ok(Flit::Snoop {
            snoop,
            target: fields.target,
            txn: fields.txn,
            address: fields.address,
        })
    }

    #[tactic(auto, unfolding(crate::specs::Flits::retry_in))]
    fn retry_ack(&self) -> Result<Flit, Column>
        ensures { result ≡ retry_in (row_of_columns self.now) }
    {
        let transaction = self.transaction()?;
        let pcrd = self.pcrd()?;
        Ok(Flit::RetryAck { pcrd, transaction })
    }

    #[tactic(auto, unfolding(crate::specs::Flits::comp_in))]
    fn comp(&self) -> Result<Flit, Column>
        ensures { result ≡ comp_in (row_of_columns self.now) }
    {
        let transaction = self.transaction()?;
        match self.resp()? {
            Resp::UC => {
                let dbid = self.dbid()?;
                Ok(Flit::CompUC { dbid, transaction })
            }
            resp => Ok(Flit::Comp { resp, transaction }),
        }
    }

    #[tactic(auto, unfolding(crate::specs::Flits::comp_dbid_in))]
    fn comp_dbid(&self) -> Result<Flit, Column>
        ensures { result ≡ comp_dbid_in (row_of_columns self.now) }
    {
        let transaction = self.transaction()?;
        let dbid = self.dbid()?;
        Ok(Flit::CompDBIDResp { dbid, transaction })
    }

    #[tactic(auto, unfolding(crate::specs::Flits::grant_in))]
    fn credit_grant(&self) -> Result<Flit, Column>
        ensures { result ≡ grant_in (row_of_columns self.now) }
    {
        let target = self.target()?;
        let pcrd = self.pcrd()?;
        Ok(Flit::PCrdGrant { pcrd, target })
    }

    #[tactic(auto, unfolding(crate::specs::Flits::answer_in))]
    fn answer(&self) -> Result<Flit, Column>
        ensures { result ≡ answer_in (row_of_columns self.now) }
    {
        let transaction = self.transaction()?;
        let resp = self.resp()?;
        Ok(Flit::SnpResp { resp, transaction })
    }

    #[tactic(auto, unfolding(crate::specs::Flits::ack_in))]
    fn comp_ack(&self) -> Result<Flit, Column>
        ensures { result ≡ ack_in (row_of_columns self.now) }
    {
        let transaction = self.transaction()?;
        Ok(Flit::CompAck { transaction })
    }

    #[tactic(auto, unfolding(crate::specs::Flits::read_data_in))]
    fn read_data(&self) -> Result<Flit, Column>
        ensures { result ≡ read_data_in (row_of_columns self.now) }
    {
        let transaction = self.transaction()?;
        let resp = self.resp()?;
        let dbid = self.dbid()?;
        let beat = self.beat()?;
        Ok(Flit::CompData {
            resp,
            dbid,
            transaction,
            beat,
        })
    }

    #[tactic(auto, unfolding(crate::specs::Flits::snoop_data_in))]
    fn snoop_data(&self) -> Result<Flit, Column>
        ensures { result ≡ snoop_data_in (row_of_columns self.now) }
    {
        let transaction = self.transaction()?;
        let resp = self.resp()?;
        let beat = self.beat()?;
        Ok(Flit::SnpRespData {
            resp,
            transaction,
            beat,
        })
    }

    #[tactic(auto, unfolding(crate::specs::Flits::write_data_in))]
    fn write_data(&self) -> Result<Flit, Column>
        ensures { result ≡ write_data_in (row_of_columns self.now) }
    {
        let transaction = self.transaction()?;
        let resp = self.resp()?;
        let beat = self.written(resp)?;
        Ok(Flit::CopyBackWrData {
            resp,
            transaction,
            beat,
        })
    }

    #[tactic(auto, unfolding(crate::specs::Flits::load_in))]
    fn load(&self) -> Result<Flit, Column>
        ensures { result ≡ load_in (row_of_columns self.now) }
    {
        let address = self.address()?;
        let value = self.value()?;
        Ok(Flit::Load { address, value })
    }

    #[tactic(auto, unfolding(crate::specs::Flits::store_in))]
    fn store(&self) -> Result<Flit, Column>
        ensures { result ≡ store_in (row_of_columns self.now) }
    {
        let address = self.address()?;
        let value = self.value()?;
        Ok(Flit::Store { address, value })
    }

    /// The flit of the opcode.
    pub(crate) fn flit(&self, opcode: Opcode) -> Result<Flit, Column>
        ensures { result ≡ flit_by opcode (row_of_columns self.now) }
    {
        match opcode {
            Opcode::Request(kind) => self.request(kind),
            Opcode::PCrdReturn => self.credit_return(),
            Opcode::Snoop(snoop) => self.snoop(snoop),
            Opcode::RetryAck => self.retry_ack(),
            Opcode::Comp => self.comp(),
            Opcode::CompDBIDResp => self.comp_dbid(),
            Opcode::PCrdGrant => self.credit_grant(),
            Opcode::SnpResp => self.answer(),
            Opcode::CompAck => self.comp_ack(),
            Opcode::CompData => self.read_data(),
            Opcode::SnpRespData => self.snoop_data(),
            Opcode::CopyBackWrData => self.write_data(),
            Opcode::Load => self.load(),
            Opcode::Store => self.store(),
        }
    }

    /// The flit that the columns of this line are, or the first column that is wrong: the channel, the
    /// opcode, and then the others in their order.
    #[tactic(auto, unfolding(crate::specs::Flits::seen_in))]
    pub(crate) fn seen(&self, line: usize) -> Result<Seen, Column>
        ensures { result ≡ seen_in line (row_of_columns self.now) }
    {
        let opcode = self.opcode()?;
        let source = self.source()?;
        let flit = self.flit(opcode)?;
        Ok(Seen { line, source, flit })
    }
}
