//! The columns of a line.

ghost use Rattle.std.specs.Prelude.{◌≡◌};
ghost use Rattle.chi_trace.specs.Columns.{row_behind, row_if, row_of_columns};
ghost use Rattle.chi_trace.specs.Words.{blank_words, has_bytes};

use crate::words::{next_long_word, next_word};

/// A column of a line: one of its first eleven words.
/// Source: `docs/TRACES.md`, "Traces".
#[derive(Clone, Copy, Debug, PartialEq, Eq)]
pub enum Column {
    Channel,
    Source,
    Target,
    Txn,
    Opcode,
    Address,
    Resp,
    Dbid,
    AllowRetry,
    Pcrd,
    Data,
}

/// The eleven words of a line, by their columns.
#[derive(Clone, Copy)]
pub(crate) struct Columns<'a> {
    pub channel: &'a [u8],
    pub source: &'a [u8],
    pub target: &'a [u8],
    pub txn: &'a [u8],
    pub opcode: &'a [u8],
    pub address: &'a [u8],
    pub resp: &'a [u8],
    pub dbid: &'a [u8],
    pub allow_retry: &'a [u8],
    pub pcrd: &'a [u8],
    pub payload: &'a [u8],
}

/// The columns of a line that has this first word and the rest behind it; words behind the eleventh are
/// passed over. The last are empty where there are fewer.
#[tactic(auto, using(crate::proofs::ColumnLemmas::row_is))]
pub(crate) fn columns_behind<'a>(channel: &'a [u8], rest: &'a [u8]) -> Columns<'a>
    ensures { row_if (row_of_columns result) ≡ row_behind channel.now (blank_words rest.now) }
{
    let source = next_word(rest);
    let target = next_word(source.rest);
    let txn = next_word(target.rest);
    let opcode = next_word(txn.rest);
    let address = next_word(opcode.rest);
    let resp = next_word(address.rest);
    let dbid = next_word(resp.rest);
    let allow_retry = next_word(dbid.rest);
    let pcrd = next_word(allow_retry.rest);
    let payload = next_long_word(pcrd.rest);
    Columns {
        channel,
        source: source.text,
        target: target.text,
        txn: txn.text,
        opcode: opcode.text,
        address: address.text,
        resp: resp.text,
        dbid: dbid.text,
        allow_retry: allow_retry.text,
        pcrd: pcrd.text,
        payload: payload.text,
    }
}

impl Columns<'_> {
    /// Whether the line has all eleven.
    pub(crate) fn are_all(&self) -> bool
        ensures { result ≡ has_bytes (row_of_columns self.now).payload }
    {
        !self.payload.is_empty()
    }
}
