//! A line of a trace.

ghost use Rattle.std.specs.Prelude.{◌≡◌, ◌≤◌, length, take};
ghost use Rattle.std.specs.List.{find};
ghost use Rattle.chi_lanes.specs.Columns.{columns_of};
ghost use Rattle.chi_log.specs.Lines.{beat_behind, begins_hash, first_wrong, is_comment, is_credit_wrong, is_dbid_wrong, is_gzip, is_wrong, line_of, words_read, words_told};
ghost use Rattle.chi_log.specs.Seen.{beat_after, seen_of};

use crate::columns::LineColumn;
use crate::fields::{address_as, allow_as, credit_as, dbid_need, id_as, pcrd_need, resp_as};
use crate::forms::Form;
use crate::kinds::{Kind, kind_in, port_in};
use crate::numbers::id_in;
use crate::options::Options;
use crate::rows::{Row, row_in};
use crate::seen::{Seen, read_in};
use chi_issue_b::Beat;
use chi_lanes::Columns;

/// The most bytes that a line may have, without its line end.
/// Source: `docs/TRACES.md`, "Traces".
pub const MOST_LINE_BYTES: usize = 4_096;

/// Why a line is none of a trace.
/// Source: `docs/TRACES.md`, "Traces".
#[derive(Clone, Copy, Debug, PartialEq, Eq)]
pub enum Malformed {
    /// The bytes are those of a compressed file.
    Gzip,
    /// The line has more than `MOST_LINE_BYTES` bytes.
    LongLine,
    /// The line has words, and fewer than eleven.
    FewWords,
    /// The word of this column is wrong, and of none before it: CH and OPCODE, and then the others in their order.
    BadWord(LineColumn),
}

/// The columns in the order in which they are looked at, but DATA, the last.
static COLUMNS: [LineColumn; 10] = [
    LineColumn::Channel,
    LineColumn::Opcode,
    LineColumn::Source,
    LineColumn::Target,
    LineColumn::Txn,
    LineColumn::Address,
    LineColumn::Resp,
    LineColumn::Dbid,
    LineColumn::AllowRetry,
    LineColumn::Pcrd,
];

/// What a line is that is given without its line end; `None` where it is a comment or has no words. Its words of data are
/// written to `beat`, where it has some.
///
/// `Gzip` where it begins with the bytes 1f and 8b, and `LongLine` where it has more than `MOST_LINE_BYTES` bytes, before all
/// else. `FewWords` where it has words, and fewer than eleven; `BadWord` with the first column whose word is wrong.
/// Source: `docs/TRACES.md`, "Traces" and "Other opcodes".
pub fn read_line(line: &[u8], options: Options, beat: &mut Beat) -> Result<Option<Seen>, Malformed>
    ensures line { result ≡ line_of options line.now }
    ensures beat { beat.new ≡ beat_behind options line.now beat.old }
{
    read_line_among(line, line.len(), options, beat)
}

/// What the line is that the first `size` of the bytes are, as `read_line` tells it: sooner where 64 bytes are there, be they
/// the line's or not.
/// Source: `docs/TRACES.md`, "Traces" and "Other opcodes".
#[inline(always)]
#[tactic(auto, using(crate::proofs::LineLemmas::read_told, crate::proofs::LineLemmas::none_read), unfolding(crate::specs::Lines::line_of, crate::specs::Lines::beat_behind))]
pub fn read_line_among(
    bytes: &[u8],
    size: usize,
    options: Options,
    beat: &mut Beat,
) -> Result<Option<Seen>, Malformed>
    requires { size ≤ length bytes.now }
    ensures line { result ≡ line_of options (take size bytes.now) }
    ensures beat { beat.new ≡ beat_behind options (take size bytes.now) beat.old }
{
    if is_gzip(&bytes[..size]) {
        return Err(Malformed::Gzip);
    }
    if size > MOST_LINE_BYTES {
        return Err(Malformed::LongLine);
    }
    match quick(bytes, size, options, beat) {
        Some(seen) => Ok(Some(seen)),
        None => unread(bytes, size, options),
    }
}

/// Whether a line begins as a compressed file does.
#[inline(always)]
pub(crate) fn is_gzip(line: &[u8]) -> bool
    ensures { result ≡ is_gzip line.now }
{
    match line {
        [first, second, ..] => *first == 0x1f && *second == 0x8b,
        _ => false,
    }
}

/// Whether the first word of a comment is this.
#[inline(always)]
fn begins_hash(word: &[u8]) -> bool
    ensures { result ≡ begins_hash word.now }
{
    match word {
        [] => false,
        [first, ..] => *first == b'#',
    }
}

/// What a line is in which no column is wrong, and its words of data, which are lent.
#[inline(always)]
fn quick(bytes: &[u8], size: usize, options: Options, beat: &mut Beat) -> Option<Seen>
    requires { size ≤ length bytes.now }
    ensures seen { result ≡ seen_of (words_read options (columns_of (take size bytes.now))) }
    ensures beat { beat.new ≡ beat_after (words_read options (columns_of (take size bytes.now))) beat.old }
{
    read_words(&mut Columns::of(bytes, size), options, beat)
}

/// What a line with these words is in which no column is wrong. The columns aren't put together before, as `row_in` does: so
/// none is copied.
#[inline(always)]
fn read_words(words: &mut Columns, options: Options, beat: &mut Beat) -> Option<Seen>
    ensures seen { result ≡ seen_of (words_read options words.old) }
    ensures beat { beat.new ≡ beat_after (words_read options words.old) beat.old }
{
    let channel = words.next_column()?;
    let source = words.next_column()?;
    let target = words.next_column()?;
    let txn = words.next_column()?;
    let opcode = words.next_column()?;
    let address = words.next_column()?;
    let resp = words.next_column()?;
    let dbid = words.next_column()?;
    let allow_retry = words.next_column()?;
    let pcrd = words.next_column()?;
    let payload = words.next_column()?;
    let row = Row {
        channel,
        source,
        target,
        txn,
        opcode,
        address,
        resp,
        dbid,
        allow_retry,
        pcrd,
        payload,
    };
    read_in(options, &row, beat)
}

/// What a line is of which nothing was read: a comment, or none of a trace.
#[cold]
#[inline(never)]
#[tactic(auto, unfolding(crate::specs::Lines::words_read, crate::specs::Lines::words_told))]
fn unread(bytes: &[u8], size: usize, options: Options) -> Result<Option<Seen>, Malformed>
    requires within { size ≤ length bytes.now }
    requires unread { words_read options (columns_of (take size bytes.now)) ≡ None }
    ensures { result ≡ words_told options (columns_of (take size bytes.now)) }
{
    if is_comment(bytes, size) {
        return Ok(None);
    }
    match row_in(&mut Columns::of(bytes, size)) {
        Some(row) => Err(Malformed::BadWord(first_wrong(options, &row))),
        None => Err(Malformed::FewWords),
    }
}

/// Whether the line has no words, or its first word begins with `#`.
fn is_comment(bytes: &[u8], size: usize) -> bool
    requires { size ≤ length bytes.now }
    ensures { result ≡ is_comment (columns_of (take size bytes.now)) }
{
    match Columns::of(bytes, size).next_column() {
        Some(first) => begins_hash(first.text()),
        None => true,
    }
}

/// The first column that is wrong, where one is.
#[inline(never)]
#[tactic(auto, unfolding(crate::specs::Lines::first_wrong))]
fn first_wrong(options: Options, row: &Row) -> LineColumn
    ensures { result ≡ first_wrong options row.now }
{
    first_among(&COLUMNS, options, row).unwrap_or(LineColumn::Data)
}

/// The first of these columns that is wrong.
fn first_among(columns: &[LineColumn], options: Options, row: &Row) -> Option<LineColumn>
    ensures { result ≡ find (is_wrong options row.now) columns.now }
{
    for column in columns {
        if is_wrong(options, row, *column) {
            return Some(*column);
        }
    }
    None
}

/// Whether a column is wrong, where none before it is.
fn is_wrong(options: Options, row: &Row, column: LineColumn) -> bool
    ensures { result ≡ is_wrong options row.now column }
{
    let kind = kind_in(options.opcodes, row.channel.text(), row.opcode.text());
    let form = kind.unwrap_or(Kind::Load).form();
    match column {
        LineColumn::Channel => port_in(row.channel.text()).is_none(),
        LineColumn::Opcode => kind.is_none(),
        LineColumn::Source => id_in(&row.source).is_none(),
        LineColumn::Target => id_as(form.target, &row.target).is_none(),
        LineColumn::Txn => id_as(form.txn, &row.txn).is_none(),
        LineColumn::Address => address_as(form.address, &row.address).is_none(),
        LineColumn::Resp => resp_as(form.resp, &row.resp).is_none(),
        LineColumn::Dbid => is_dbid_wrong(form, row),
        LineColumn::AllowRetry => allow_as(form.allow_retry, &row.allow_retry).is_none(),
        LineColumn::Pcrd => is_credit_wrong(form, row),
        LineColumn::Data => false,
    }
}

/// Whether the column of the DBID is wrong.
fn is_dbid_wrong(form: &Form, row: &Row) -> bool
    ensures { result ≡ is_dbid_wrong form.now row.now }
{
    let resp = resp_as(form.resp, &row.resp).unwrap_or(None);
    id_as(dbid_need(form.dbid, resp), &row.dbid).is_none()
}

/// Whether the column of the credit type is wrong.
fn is_credit_wrong(form: &Form, row: &Row) -> bool
    ensures { result ≡ is_credit_wrong form.now row.now }
{
    let allow = allow_as(form.allow_retry, &row.allow_retry).unwrap_or(None);
    credit_as(pcrd_need(form.pcrd, allow), &row.pcrd).is_none()
}
