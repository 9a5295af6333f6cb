//! The columns of a line, by a mask of its blanks.

ghost use Rattle.std.specs.Prelude.{◌≡◌, ◌+◌, ◌<◌, ◌≤◌, List, ℕ, drop, false, length, slice_get, slice_range, take};
ghost use Rattle.chi_lanes.specs.Columns.{blank_at, columns_of};
ghost use Rattle.chi_lanes.specs.Cursors.{IsCursor, IsPlace, IsWindow};
ghost use Rattle.chi_lanes.specs.Numbers.{first_number, number_of, short_number};

use crate::bits::changes;
use crate::digits::{Digits, number_at};
use crate::masks::line_blanks;
use crate::places::{next_place, next_start};
use std::marker::Model;

/// Where the numbers of a line begin: behind a first column of three letters.
/// Source: `docs/TRACES.md`, "Traces".
const WINDOW: usize = 4;

/// A column of a line: a text between blanks, of one byte or more.
/// Source: `docs/TRACES.md`, "Traces".
#[derive(Drop)]
pub struct Column<'a> {
    /// What has the text, and maybe more behind.
    bytes: &'a [u8],
    start: usize,
    end: usize,
}

impl<'a> Model for Column<'a> {
    ghost Value = { List ℕ };

    ghost view = { λ column. slice_range column.bytes.now column.start column.end };

    ghost invariant = { λ column. IsPlace column.start column.end (length column.bytes.now) };
}

impl<'a> Column<'a> {
    /// The text of the column.
    /// Source: `docs/TRACES.md`, "Traces".
    #[inline(always)]
    pub fn text(&self) -> &'a [u8]
        ensures { result.now ≡ self.now }
    {
        &self.bytes[self.start..self.end]
    }

    /// How many bytes the text has.
    /// Source: `docs/TRACES.md`, "Traces".
    #[inline(always)]
    pub fn size(&self) -> usize
        ensures size { result ≡ length self.now }
        ensures some { 0 < result }
    {
        self.end - self.start
    }

    /// The number that it writes, of up to sixteen hexadecimal digits. `None` where one of its bytes is no digit.
    /// Source: `docs/TRACES.md`, "Traces".
    #[inline(always)]
    pub fn number(&self) -> Option<u64>
        requires { length self.now ≤ 16 }
        ensures { result ≡ number_of self.now }
    {
        number_at(self.bytes, self.start, self.end)
    }
}

/// The columns of a line that are still to come. Those that end among the line's first 64 bytes come by a mask of their
/// ends; any further on is looked for.
/// Source: `docs/TRACES.md`, "Traces".
#[derive(Drop)]
pub struct Columns<'a> {
    /// The line, and what stands behind it.
    bytes: &'a [u8],
    /// How many of them are the line's.
    size: usize,
    /// Where the next column begins at the earliest.
    at: usize,
    /// Where columns begin and end from there on, among the first 64 bytes; none once the next isn't among them.
    edges: u64,
    /// The sixteen bytes from `WINDOW` on, where there are so many.
    window: Digits,
}

impl<'a> Model for Columns<'a> {
    ghost Value = { List (List ℕ) };

    ghost view = { λ columns. columns_of (drop columns.at (take columns.size columns.bytes.now)) };

    ghost invariant = { λ columns. IsCursor columns.bytes.now columns.size columns.at columns.edges columns.window };
}

impl<'a> Columns<'a> {
    /// The columns of the line that the first `size` of the bytes are. None is copied where there are 64 bytes, be they
    /// the line's or not.
    /// Source: `docs/TRACES.md`, "Traces".
    #[inline(always)]
    pub fn of(bytes: &'a [u8], size: usize) -> Columns<'a>
        requires { size ≤ length bytes.now }
        ensures { result ≡ columns_of (take size bytes.now) }
    {
        Columns {
            bytes,
            size,
            at: 0,
            edges: changes(line_blanks(bytes, size)),
            window: window_of(bytes),
        }
    }

    /// The next column, which is taken. `None` where there is no other.
    /// Source: `docs/TRACES.md`, "Traces".
    #[inline(always)]
    pub fn next_column(&mut self) -> Option<Column<'a>>
        ensures first { result ≡ slice_get self.old 0 }
        ensures rest { self.new ≡ drop 1 self.old }
    {
        match next_place(&self.bytes[..self.size], self.at, self.edges) {
            None => None,
            Some(next) => {
                self.at = next.end + 1;
                self.edges = next.edges;
                Some(Column {
                    bytes: self.bytes,
                    start: next.start,
                    end: next.end,
                })
            }
        }
    }

    /// The number that the next column writes, of up to sixteen hexadecimal digits; the column is taken, whatever it
    /// is. `None` where one of its bytes is no digit, where it has more than sixteen, and where there is no other column.
    /// Source: `docs/TRACES.md`, "Traces".
    #[inline(always)]
    pub fn next_number(&mut self) -> Option<u64>
        ensures first { result ≡ first_number self.old }
        ensures rest { self.new ≡ drop 1 self.old }
    {
        match next_place(&self.bytes[..self.size], self.at, self.edges) {
            None => None,
            Some(next) => {
                self.at = next.end + 1;
                self.edges = next.edges;
                number_by(self.bytes, self.window, next.start, next.end)
            }
        }
    }

    /// The line from its next column on; nothing where there is no other.
    /// Source: `docs/TRACES.md`, "Traces".
    #[inline(always)]
    pub fn rest(&self) -> &'a [u8]
        ensures columns { columns_of result.now ≡ self.now }
        ensures first { 0 < length result.now → blank_at result.now 0 ≡ false }
    {
        let line = &self.bytes[..self.size];
        &line[next_start(line, self.at, self.edges)..]
    }
}

/// The sixteen bytes from `WINDOW` on, where there are so many.
#[inline(always)]
fn window_of(bytes: &[u8]) -> Digits
    ensures { IsWindow result bytes.now }
{
    if bytes.len() >= WINDOW + 16 {
        Digits::at(bytes, WINDOW)
    } else {
        Digits {
            packed: 0,
            marks: 0,
        }
    }
}

/// The number that a text writes, of up to sixteen digits, by the window if it is in there.
#[inline(always)]
fn number_by(bytes: &[u8], window: Digits, start: usize, end: usize) -> Option<u64>
    requires some { start < end }
    requires within { end ≤ length bytes.now }
    requires known { IsWindow window bytes.now }
    ensures { result ≡ short_number (slice_range bytes.now start end) }
{
    if bytes.len() >= WINDOW + 16 && start >= WINDOW && end <= WINDOW + 16 {
        window.number(start - WINDOW, end - WINDOW)
    } else if end - start <= 16 {
        number_at(bytes, start, end)
    } else {
        None
    }
}
