//! The eleven words of a line, by their columns.

ghost use Rattle.std.specs.Prelude.{◌≡◌};
ghost use Rattle.chi_log.specs.Rows.{row_of};

use chi_lanes::{Column, Columns};

/// The eleven words of a line, by their columns.
#[derive(Drop)]
pub(crate) struct Row<'a> {
    pub channel: Column<'a>,
    pub source: Column<'a>,
    pub target: Column<'a>,
    pub txn: Column<'a>,
    pub opcode: Column<'a>,
    pub address: Column<'a>,
    pub resp: Column<'a>,
    pub dbid: Column<'a>,
    pub allow_retry: Column<'a>,
    pub pcrd: Column<'a>,
    pub payload: Column<'a>,
}

/// The first eleven of these words; `None` where there are fewer.
#[inline(always)]
pub(crate) fn row_in<'a>(words: &mut Columns<'a>) -> Option<Row<'a>>
    ensures { result ≡ row_of words.old }
{
    let channel = words.next_column()?;
    let source = words.next_column()?;
    let target = words.next_column()?;
    let txn = words.next_column()?;
    let opcode = words.next_column()?;
    let address = words.next_column()?;
    let resp = words.next_column()?;
    let dbid = words.next_column()?;
    let allow_retry = words.next_column()?;
    let pcrd = words.next_column()?;
    let payload = words.next_column()?;
    Some(Row {
        channel,
        source,
        target,
        txn,
        opcode,
        address,
        resp,
        dbid,
        allow_retry,
        pcrd,
        payload,
    })
}
