//! The flit of any home or any cache that the columns of a line are.

ghost use Rattle.std.specs.Prelude.{◌≡◌};
ghost use Rattle.std.specs.Option.{option_map};
ghost use Rattle.chi_trace.specs.AnyFlits.{any_comp_in, any_data_in, any_flit_by, any_opcode_of, any_seen_in, bare_comp_in, bare_data_in, dataless_flit_by, formed_flit_by, named_dbid_in, other_request_in, other_snoop_flit, other_write_in, profile_in, unknown_answer_in, unknown_reply_in, unknown_request_in, unknown_snoop_in, unlisted_in, whole_in, with_payload, zeros_of};
ghost use Rattle.chi_trace.specs.Columns.{row_of_columns};
ghost use Rattle.chi_trace.specs.Fields.{is_dash};

use crate::any_flits::{AnyFlit, AnySeen};
use crate::any_opcodes::{AnyOpcode, OtherKind, OtherSnoop, any_opcode_in};
use crate::columns::{Column, Columns};
use crate::fields::{DbId, Resp, is_dash};
use crate::flits::Flit;
use crate::forms::{Listing, Opcodes, TraceForm};
use crate::opcodes::{Opcode, channel_in};
use crate::other_opcodes::OtherOpcode;

/// What stands for the data of an opcode in a log that lists none; `None` where it has no data.
fn zeros_of(opcode: AnyOpcode) -> Option<&'static str>
    ensures { option_map (λ zeros. zeros.now) result ≡ zeros_of opcode }
{
    match opcode {
        AnyOpcode::Profile(Opcode::CompData) => Some("0,0,0,0,0,0,0,0"),
        AnyOpcode::Profile(Opcode::SnpRespData) => Some("0,0,0,0,0,0,0,0"),
        AnyOpcode::Profile(Opcode::CopyBackWrData) => Some("0,0,0,0,0,0,0,0"),
        AnyOpcode::NonCopyBackWrData => Some("0,0,0,0,0,0,0,0"),
        AnyOpcode::Profile(Opcode::Load) => Some("0"),
        AnyOpcode::Profile(Opcode::Store) => Some("0"),
        _ => None,
    }
}

impl Columns<'_> {
    /// The opcode that the columns name.
    fn any_opcode(&self, opcodes: Opcodes) -> Result<AnyOpcode, Column>
        ensures { result ≡ any_opcode_of opcodes (row_of_columns self.now) }
    {
        let channel = channel_in(self.channel).ok_or(Column::Channel)?;
        any_opcode_in(opcodes, channel, self.opcode).ok_or(Column::Opcode)
    }

    fn other_request(&self, kind: OtherKind) -> Result<AnyFlit, Column>
        ensures { result ≡ other_request_in kind (row_of_columns self.now) }
    {
        let fields = self.request_fields()?;
        Ok(AnyFlit::Request { kind, fields })
    }

    fn other_snoop(&self, snoop: OtherSnoop) -> Result<AnyFlit, Column>
        ensures { result ≡ other_snoop_flit snoop (row_of_columns self.now) }
    {
        let fields = self.snoop_fields()?;
        Ok(AnyFlit::Snoop { snoop, fields })
    }

    /// A Comp whose DBID is left out.
    #[tactic(auto, unfolding(crate::specs::AnyFlits::bare_comp_in))]
    fn bare_comp(&self) -> Result<AnyFlit, Column>
        ensures { result ≡ bare_comp_in (row_of_columns self.now) }
    {
        let transaction = self.transaction()?;
        match self.resp()? {
            Resp::UC => Ok(AnyFlit::CompUC { transaction }),
            resp => Ok(AnyFlit::Profile(Flit::Comp { resp, transaction })),
        }
    }

    /// CompData whose DBID is left out.
    #[tactic(auto, unfolding(crate::specs::AnyFlits::bare_data_in))]
    fn bare_data(&self) -> Result<AnyFlit, Column>
        ensures { result ≡ bare_data_in (row_of_columns self.now) }
    {
        let transaction = self.transaction()?;
        let resp = self.resp()?;
        let beat = self.beat()?;
        Ok(AnyFlit::CompData {
            resp,
            transaction,
            beat,
        })
    }

    #[tactic(auto, unfolding(crate::specs::AnyFlits::other_write_in))]
    fn other_write(&self) -> Result<AnyFlit, Column>
        ensures { result ≡ other_write_in (row_of_columns self.now) }
    {
        let transaction = self.transaction()?;
        let resp = self.resp()?;
        let beat = self.beat()?;
        Ok(AnyFlit::NonCopyBackWrData {
            resp,
            transaction,
            beat,
        })
    }

    /// The flit of an opcode of the profile, with all its columns.
    fn whole(&self, opcode: Opcode) -> Result<AnyFlit, Column>
        ensures { result ≡ whole_in opcode (row_of_columns self.now) }
    {
        let flit = self.flit(opcode)?;
        Ok(AnyFlit::Profile(flit))
    }

    fn any_comp(&self) -> Result<AnyFlit, Column>
        ensures { result ≡ any_comp_in (row_of_columns self.now) }
    {
        if is_dash(self.dbid) {
            self.bare_comp()
        } else {
            self.whole(Opcode::Comp)
        }
    }

    fn any_data(&self) -> Result<AnyFlit, Column>
        ensures { result ≡ any_data_in (row_of_columns self.now) }
    {
        if is_dash(self.dbid) {
            self.bare_data()
        } else {
            self.whole(Opcode::CompData)
        }
    }

    /// The flit of an opcode of the profile; Comp and CompData may leave their DBID out.
    fn profile(&self, opcode: Opcode) -> Result<AnyFlit, Column>
        ensures { result ≡ profile_in opcode (row_of_columns self.now) }
    {
        match opcode {
            Opcode::Comp => self.any_comp(),
            Opcode::CompData => self.any_data(),
            Opcode::Request(_)
            | Opcode::PCrdReturn
            | Opcode::Snoop(_)
            | Opcode::RetryAck
            | Opcode::CompDBIDResp
            | Opcode::PCrdGrant
            | Opcode::SnpResp
            | Opcode::CompAck
            | Opcode::SnpRespData
            | Opcode::CopyBackWrData
            | Opcode::Load
            | Opcode::Store => self.whole(opcode),
        }
    }

    fn unknown_request(&self, opcode: OtherOpcode) -> Result<AnyFlit, Column>
        ensures { result ≡ unknown_request_in opcode (row_of_columns self.now) }
    {
        let fields = self.request_fields()?;
        Ok(AnyFlit::UnknownRequest(opcode, fields))
    }

    fn unknown_snoop(&self, opcode: OtherOpcode) -> Result<AnyFlit, Column>
        ensures { result ≡ unknown_snoop_in opcode (row_of_columns self.now) }
    {
        let fields = self.snoop_fields()?;
        Ok(AnyFlit::UnknownSnoop(opcode, fields))
    }

    fn unknown_answer(&self, opcode: OtherOpcode) -> Result<AnyFlit, Column>
        ensures { result ≡ unknown_answer_in opcode (row_of_columns self.now) }
    {
        let transaction = self.transaction()?;
        Ok(AnyFlit::UnknownAnswer(opcode, transaction))
    }

    /// The DBID, where it isn't left out.
    fn named_dbid(&self) -> Result<Option<DbId>, Column>
        ensures { result ≡ named_dbid_in (row_of_columns self.now) }
    {
        if is_dash(self.dbid) {
            return Ok(None);
        }
        let dbid = self.dbid()?;
        Ok(Some(dbid))
    }

    fn unknown_reply(&self, opcode: OtherOpcode) -> Result<AnyFlit, Column>
        ensures { result ≡ unknown_reply_in opcode (row_of_columns self.now) }
    {
        let transaction = self.transaction()?;
        let dbid = self.named_dbid()?;
        Ok(AnyFlit::UnknownReply(opcode, transaction, dbid))
    }

    /// The flit of the opcode.
    fn any_flit(&self, opcode: AnyOpcode) -> Result<AnyFlit, Column>
        ensures { result ≡ any_flit_by opcode (row_of_columns self.now) }
    {
        match opcode {
            AnyOpcode::Profile(opcode) => self.profile(opcode),
            AnyOpcode::Request(kind) => self.other_request(kind),
            AnyOpcode::Snoop(snoop) => self.other_snoop(snoop),
            AnyOpcode::NonCopyBackWrData => self.other_write(),
            AnyOpcode::UnknownRequest(opcode) => self.unknown_request(opcode),
            AnyOpcode::UnknownSnoop(opcode) => self.unknown_snoop(opcode),
            AnyOpcode::UnknownAnswer(opcode) => self.unknown_answer(opcode),
            AnyOpcode::UnknownReply(opcode) => self.unknown_reply(opcode),
        }
    }

    /// The columns with other data.
    fn with_payload(&self, payload: &'static str) -> Columns<'_>
        ensures { row_of_columns result ≡ with_payload payload.now (row_of_columns self.now) }
    {
        let mut columns = *self;
        columns.payload = payload.as_bytes();
        columns
    }

    /// The flit of an opcode with data, which the log leaves out: these stand for them.
    fn unlisted(&self, opcode: AnyOpcode, zeros: &'static str) -> Result<AnyFlit, Column>
        ensures { result ≡ unlisted_in opcode zeros.now (row_of_columns self.now) }
    {
        let flit = self.with_payload(zeros).any_flit(opcode)?;
        if is_dash(self.payload) {
            Ok(flit)
        } else {
            Err(Column::Data)
        }
    }

    /// The flit of the opcode in a log that lists no data.
    fn dataless_flit(&self, opcode: AnyOpcode) -> Result<AnyFlit, Column>
        ensures { result ≡ dataless_flit_by opcode (row_of_columns self.now) }
    {
        match zeros_of(opcode) {
            Some(zeros) => self.unlisted(opcode, zeros),
            None => self.any_flit(opcode),
        }
    }

    /// The flit of the opcode in a log that lists data or none.
    fn formed_flit(&self, listing: Listing, opcode: AnyOpcode) -> Result<AnyFlit, Column>
        ensures { result ≡ formed_flit_by listing opcode (row_of_columns self.now) }
    {
        match listing {
            Listing::Listed => self.any_flit(opcode),
            Listing::None => self.dataless_flit(opcode),
        }
    }

    /// The flit that the columns of this line are, or the first column that is wrong: the channel, the
    /// opcode, and then the others in their order.
    #[tactic(auto, unfolding(crate::specs::AnyFlits::any_seen_in))]
    pub(crate) fn any_seen(&self, form: TraceForm, line: usize) -> Result<AnySeen, Column>
        ensures { result ≡ any_seen_in form line (row_of_columns self.now) }
    {
        let opcode = self.any_opcode(form.opcodes)?;
        let source = self.source()?;
        let flit = self.formed_flit(form.listing, opcode)?;
        Ok(AnySeen { line, source, flit })
    }
}
