//! Where the columns of a line stand.

ghost use Rattle.std.specs.Prelude.{◌≡◌, ◌≢◌, ◌+◌, ◌<◌, ◌≤◌, ℕ, [], drop, false, length, not, MatchOption};
ghost use Rattle.std.specs.List.{position};
ghost use Rattle.chi_lanes.specs.Columns.{blank_at, columns_of};
ghost use Rattle.chi_lanes.specs.Cursors.{HasEdges, IsEnd, IsNext, IsStart};
ghost use Rattle.chi_lanes.specs.Masks.{is_blank};

use crate::bits::{lowest, without_lowest};
use crate::masks::blanks;

/// Where a column begins and ends, and the edges behind it.
#[derive(Drop)]
pub(crate) struct Next {
    pub start: usize,
    pub end: usize,
    pub edges: u64,
}

/// Where the next column of a line stands, from a place on with these edges.
#[inline(always)]
pub(crate) fn next_place(line: &[u8], at: usize, edges: u64) -> Option<Next>
    requires { edges ≢ 0 → HasEdges line.now at edges }
    ensures { MatchOption result (columns_of (drop at line.now) ≡ []) (λ next. IsNext line.now at next) }
{
    if edges != 0 {
        let start = lowest(edges);
        let behind = without_lowest(edges);
        if behind != 0 {
            return Some(Next {
                start,
                end: lowest(behind),
                edges: without_lowest(behind),
            });
        }
    }
    let start = far_start(line, at);
    if start == line.len() {
        return None;
    }
    Some(Next {
        start,
        end: far_end(line, start),
        edges: 0,
    })
}

/// Where the next column of a line begins, from a place on with these edges: the line's end where none does.
#[inline(always)]
pub(crate) fn next_start(line: &[u8], at: usize, edges: u64) -> usize
    requires { edges ≢ 0 → HasEdges line.now at edges }
    ensures { IsStart line.now at result }
{
    if edges != 0 {
        lowest(edges)
    } else {
        far_start(line, at)
    }
}

/// Where the next column of a line begins, from a place on: the line's end where none does.
#[inline(never)]
fn far_start(line: &[u8], at: usize) -> usize
    ensures { IsStart line.now at result }
{
    match column_start(behind(line, at)) {
        Some(start) => at + start,
        None => line.len(),
    }
}

/// What stands from a place on; nothing behind the end.
#[inline(always)]
fn behind(text: &[u8], at: usize) -> &[u8]
    ensures { result.now ≡ drop at text.now }
{
    if at <= text.len() { &text[at..] } else { &[] }
}

/// Where the column ends that begins at a place.
#[inline(never)]
fn far_end(line: &[u8], start: usize) -> usize
    requires { start ≤ length line.now }
    ensures { IsEnd line.now start result }
{
    match first_blank(&line[start..]) {
        Some(size) => start + size,
        None => line.len(),
    }
}

/// Where the first byte stands that is no blank.
fn column_start(text: &[u8]) -> Option<usize>
    ensures { result ≡ position (λ byte. not (is_blank byte)) text.now }
{
    text.iter().position(|byte| !is_blank(*byte))
}

/// Whether the byte parts columns.
fn is_blank(byte: u8) -> bool
    ensures { result ≡ is_blank byte }
{
    byte == b' ' || byte == b'\t' || byte == b'\r'
}

/// Where the first blank of a text stands.
/// Source: `docs/TRACES.md`, "Traces".
pub fn first_blank(text: &[u8]) -> Option<usize>
    ensures { result ≡ position is_blank text.now }
{
    let mut at = 0;
    while text.len() - at >= 64 {
        let mask = blanks(text, at);
        if mask != 0 {
            return Some(at + lowest(mask));
        }
        at += 64;
    }
    last_blank(text, at)
}

/// The first blank, where none stands before a place that has fewer than 64 bytes behind it.
#[inline(always)]
fn last_blank(text: &[u8], at: usize) -> Option<usize>
    requires within { at ≤ length text.now }
    requires blocks { (0 < at) → 64 ≤ at }
    requires few { length text.now < at + 64 }
    requires none { (k : ℕ) → k < at → blank_at text.now k ≡ false }
    ensures { result ≡ position is_blank text.now }
{
    if at == 0 {
        text.iter().position(|byte| is_blank(*byte))
    } else {
        let from = text.len() - 64;
        let mask = blanks(text, from);
        if mask == 0 {
            None
        } else {
            Some(from + lowest(mask))
        }
    }
}
