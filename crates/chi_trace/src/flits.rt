//! The flit that a line is.

ghost use Rattle.std.specs.Prelude.{◌≡◌};
ghost use Rattle.chi_trace.specs.Flits.{flit_at, flit_opcode, is_comment_word};
ghost use Rattle.chi_trace.specs.Words.{blank_words};

use crate::columns::columns_behind;
use crate::faults::TraceFault;
use crate::fields::{Address, Beat, DbId, NodeId, PcrdType, Resp, TxnId};
use crate::opcodes::Opcode;
use crate::words::next_word;
use chi_flit::{Kind, Snoop};

/// A flit that a monitor saw, or a load or a store of a processor: a line of a trace.
/// Source: `docs/TRACES.md`, "Traces".
#[derive(Clone, Copy, Debug, PartialEq, Eq)]
pub struct Seen {
    /// The number of its line, counted from 1.
    pub line: usize,
    /// The node that sent it, or whose processor it was.
    pub source: NodeId,
    pub flit: Flit,
}

/// What ties a response, or data, to its transaction.
/// Source: `docs/TRACES.md`, "Traces".
#[derive(Clone, Copy, Debug, PartialEq, Eq)]
pub struct Transaction {
    pub target: NodeId,
    /// Of CompAck and CopyBackWrData the DBID.
    pub txn: TxnId,
    /// Where it isn't left out.
    pub address: Option<Address>,
}

/// What a request has beside its kind.
/// Source: `docs/TRACES.md`, "Traces".
#[derive(Clone, Copy, Debug, PartialEq, Eq)]
pub struct RequestFields {
    /// The type of the credit that it spends; `None` where it asserts AllowRetry.
    pub spends: Option<PcrdType>,
    pub target: NodeId,
    pub txn: TxnId,
    pub address: Address,
}

/// What a snoop has beside its opcode.
/// Source: `docs/TRACES.md`, "Traces".
#[derive(Clone, Copy, Debug, PartialEq, Eq)]
pub struct SnoopFields {
    /// The requester that it asks.
    pub target: NodeId,
    pub txn: TxnId,
    pub address: Address,
}

/// A flit with the fields that its opcode has, or a load or a store of a word.
/// Source: `docs/TRACES.md`, "Traces".
#[derive(Clone, Copy, Debug, PartialEq, Eq)]
pub enum Flit {
    Request {
        kind: Kind,
        /// The type of the credit that it spends; `None` where it asserts AllowRetry.
        spends: Option<PcrdType>,
        target: NodeId,
        txn: TxnId,
        address: Address,
    },
    PCrdReturn {
        pcrd: PcrdType,
        target: NodeId,
    },
    Snoop {
        snoop: Snoop,
        /// The requester that it asks.
        target: NodeId,
        txn: TxnId,
        address: Address,
    },
    RetryAck {
        pcrd: PcrdType,
        transaction: Transaction,
    },
    /// A Comp with RESP UC: a CompAck with this DBID follows.
    CompUC {
        dbid: DbId,
        transaction: Transaction,
    },
    /// A Comp with another RESP.
    Comp {
        resp: Resp,
        transaction: Transaction,
    },
    CompDBIDResp {
        dbid: DbId,
        transaction: Transaction,
    },
    PCrdGrant {
        pcrd: PcrdType,
        target: NodeId,
    },
    SnpResp {
        resp: Resp,
        transaction: Transaction,
    },
    CompAck {
        transaction: Transaction,
    },
    CompData {
        resp: Resp,
        dbid: DbId,
        transaction: Transaction,
        beat: Beat,
    },
    SnpRespData {
        resp: Resp,
        transaction: Transaction,
        beat: Beat,
    },
    CopyBackWrData {
        resp: Resp,
        transaction: Transaction,
        beat: Beat,
    },
    /// A processor read this value.
    Load {
        address: Address,
        value: u64,
    },
    /// A processor wrote this value.
    Store {
        address: Address,
        value: u64,
    },
}

impl Flit {
    /// Its opcode.
    /// Source: `docs/TRACES.md`, "Traces".
    pub fn opcode(&self) -> Opcode
        ensures { result ≡ flit_opcode self.now }
    {
        match self {
            Flit::Request { kind, .. } => Opcode::Request(*kind),
            Flit::PCrdReturn { .. } => Opcode::PCrdReturn,
            Flit::Snoop { snoop, .. } => Opcode::Snoop(*snoop),
            Flit::RetryAck { .. } => Opcode::RetryAck,
            Flit::CompUC { .. } => Opcode::Comp,
            Flit::Comp { .. } => Opcode::Comp,
            Flit::CompDBIDResp { .. } => Opcode::CompDBIDResp,
            Flit::PCrdGrant { .. } => Opcode::PCrdGrant,
            Flit::SnpResp { .. } => Opcode::SnpResp,
            Flit::CompAck { .. } => Opcode::CompAck,
            Flit::CompData { .. } => Opcode::CompData,
            Flit::SnpRespData { .. } => Opcode::SnpRespData,
            Flit::CopyBackWrData { .. } => Opcode::CopyBackWrData,
            Flit::Load { .. } => Opcode::Load,
            Flit::Store { .. } => Opcode::Store,
        }
    }
}

/// Whether a line whose first word this is is a comment.
pub(crate) fn is_comment(first: &[u8]) -> bool
    ensures { result ≡ is_comment_word first.now }
{
    match first {
        [] => false,
        [byte, ..] => *byte == b'#',
    }
}

/// The flit that a line is, which is given without its line end and has this number; `None` where it is a
/// comment or has no words.
///
/// `FewWords` where it has words, and fewer than eleven; `BadWord` with the first column whose word is wrong. No other
/// fault is told.
/// Source: `docs/TRACES.md`, "Traces".
pub fn flit_in(line: &[u8], number: usize) -> Result<Option<Seen>, TraceFault>
    ensures { result ≡ flit_at number (blank_words line.now) }
{
    let first = next_word(line);
    if first.text.is_empty() {
        return Ok(None);
    }
    if is_comment(first.text) {
        return Ok(None);
    }
    let columns = columns_behind(first.text, first.rest);
    if !columns.are_all() {
        return Err(TraceFault::FewWords(number));
    }
    match columns.seen(number) {
        Ok(seen) => Ok(Some(seen)),
        Err(column) => Err(TraceFault::BadWord {
            line: number,
            column,
        }),
    }
}
