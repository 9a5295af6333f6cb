//! A flit of a trace, without its words of data.

ghost use Rattle.std.specs.Prelude.{◌≡◌, Some, is_none, true};
ghost use Rattle.chi_issue_b.specs.Flit.{dbid_of, line_of, plain_flit};

use crate::ids::{CacheLine, DbId, NodeId, PcrdType, TxnId};
use crate::opcodes::Opcode;
use crate::resp::Resp;

/// A flit without its words of data, which are lent beside it as a `Beat`. It has 24 bytes.
/// Source: `docs/TRACES.md`, "Traces".
#[derive(Clone, Copy, Debug, PartialEq, Eq)]
pub struct Flit {
    /// The cache line of the flit's address, where `has_line` says that it has one; else line 0.
    line: CacheLine,
    /// The node that sent it.
    pub source: NodeId,
    /// The node that it goes to: of a snoop the requester that is asked.
    pub target: NodeId,
    /// The TXN: of CompAck and of write data the DBID that they name; 0 of PCrdReturn and PCrdGrant, which have none.
    pub txn: TxnId,
    /// The DBID, where `has_dbid` says that the flit has one; else 0.
    dbid: DbId,
    /// The opcode, and with it the channel.
    pub opcode: Opcode,
    /// The RESP, where the flit has one.
    pub resp: Option<Resp>,
    /// The credit type of a RetryAck, of a credit that is granted or returned, and of a request with AllowRetry 0.
    pub credit: Option<PcrdType>,
    has_line: bool,
    has_dbid: bool,
}

impl Flit {
    /// A flit with this opcode between these nodes, with this TXN, and with no cache line, DBID, RESP or credit type.
    /// Source: `docs/TRACES.md`, "Traces".
    #[inline(always)]
    pub fn new(opcode: Opcode, source: NodeId, target: NodeId, txn: TxnId) -> Flit
        ensures { result ≡ plain_flit opcode source target txn }
    {
        Flit {
            line: CacheLine::at(0),
            source,
            target,
            txn,
            dbid: DbId(0),
            opcode,
            resp: None,
            credit: None,
            has_line: false,
            has_dbid: false,
        }
    }

    /// The flit with this cache line.
    /// Source: `docs/TRACES.md`, "Traces".
    #[inline(always)]
    pub fn with_line(self, line: CacheLine) -> Flit
        ensures { result ≡ record self { line = line; has_line = true } }
    {
        Flit {
            line,
            has_line: true,
            ..self
        }
    }

    /// The flit with this DBID.
    /// Source: `docs/TRACES.md`, "Traces".
    #[inline(always)]
    pub fn with_dbid(self, dbid: DbId) -> Flit
        ensures { result ≡ record self { dbid = dbid; has_dbid = true } }
    {
        Flit {
            dbid,
            has_dbid: true,
            ..self
        }
    }

    /// The flit with this RESP.
    /// Source: `docs/TRACES.md`, "Traces".
    #[inline(always)]
    pub fn with_resp(self, resp: Resp) -> Flit
        ensures { result ≡ record self { resp = Some resp } }
    {
        Flit {
            resp: Some(resp),
            ..self
        }
    }

    /// The flit with this credit type. A request with one has AllowRetry 0.
    /// Source: `docs/TRACES.md`, "Traces".
    #[inline(always)]
    pub fn with_credit(self, credit: PcrdType) -> Flit
        ensures { result ≡ record self { credit = Some credit } }
    {
        Flit {
            credit: Some(credit),
            ..self
        }
    }

    /// The cache line of the flit's address; `None` where it has none.
    /// Source: `docs/TRACES.md`, "Traces".
    #[inline(always)]
    pub fn line(&self) -> Option<CacheLine>
        ensures { result ≡ line_of self.now }
    {
        if self.has_line { Some(self.line) } else { None }
    }

    /// The flit's DBID; `None` where it has none.
    /// Source: `docs/TRACES.md`, "Traces".
    #[inline(always)]
    pub fn dbid(&self) -> Option<DbId>
        ensures { result ≡ dbid_of self.now }
    {
        if self.has_dbid { Some(self.dbid) } else { None }
    }

    /// Whether AllowRetry is 1, of a request: it spends no credit.
    /// Source: `docs/TRACES.md`, "Traces".
    #[inline(always)]
    pub fn allows_retry(&self) -> bool
        ensures { result ≡ is_none self.now.credit }
    {
        self.credit.is_none()
    }
}
