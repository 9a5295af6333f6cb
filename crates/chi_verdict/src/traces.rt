//! The lines of a trace, and a last one that no line end follows.

ghost use Rattle.std.specs.Prelude.{◌≡◌, ◌≤◌, ◌+◌, length};
ghost use Rattle.chi_script.specs.Files.{lines_of};
ghost use Rattle.chi_trace.specs.AnyFlits.{is_gzip};
ghost use Rattle.chi_trace.specs.Faults.{TraceGives};
ghost use Rattle.chi_verdict.specs.Traces.{cut_at, line_flit, misfit, seen_of, trace_from, trace_in, with_line};

use chi_script::first_line;
use chi_trace::{MOST_BYTES, MOST_LINE_BYTES, Seen, TraceFault, flit_in};
use std::alloc::Allocator;

/// Whether a line begins as a compressed file does.
fn is_gzip(line: &[u8]) -> bool
    ensures { result ≡ is_gzip line.now }
{
    match line {
        [first, second, ..] => *first == 0x1f && *second == 0x8b,
        _ => false,
    }
}

/// Why a line of this number is none of a trace, whatever its words are: it is one of a compressed file, or too long.
fn misfit(line: &[u8], number: usize) -> Option<TraceFault>
    ensures { result ≡ misfit number line.now }
{
    if is_gzip(line) {
        return Some(TraceFault::Gzip);
    }
    if line.len() > MOST_LINE_BYTES {
        Some(TraceFault::LongLine(number))
    } else {
        None
    }
}

/// The flit, load or store that a line is, which is given without its line end and has this number; `None` where it is a
/// comment or has no words.
#[tactic(auto, unfolding(crate::specs::Traces::line_flit))]
pub(crate) fn line_flit(line: &[u8], number: usize) -> Result<Option<Seen>, TraceFault>
    ensures { result ≡ line_flit number line.now }
{
    match misfit(line, number) {
        Some(fault) => Err(fault),
        None => flit_in(line, number),
    }
}

/// The number of a last line that no line end follows, by what stands behind the last line end: it isn't read. `None` where
/// nothing stands there.
#[tactic(auto, unfolding(crate::specs::Traces::cut_at))]
pub(crate) fn cut_at(last: &[u8], number: usize) -> Result<Option<usize>, TraceFault>
    ensures { result ≡ cut_at number last.now }
{
    if last.is_empty() {
        return Ok(None);
    }
    match misfit(last, number) {
        Some(fault) => Err(fault),
        None => Ok(Some(number)),
    }
}

/// Puts the flit that a line is behind the others; nothing where it is none.
fn add_flit<A: Allocator>(
    flits: &mut Vec<Seen, A>,
    line: &[u8],
    number: usize,
) -> Result<(), TraceFault>
    ensures { TraceGives (λ _. flits.new.items) result (with_line flits.old.items number line.now) }
{
    if let Some(seen) = line_flit(line, number)? {
        flits.push(seen)?;
    }
    Ok(())
}

/// The flits of all lines that a line end closes.
fn flits_from<A: Allocator + Copy>(alloc: A, bytes: &[u8]) -> Result<Vec<Seen, A>, TraceFault>
    requires { length bytes.now ≤ 67108864 }
    ensures { TraceGives (λ flits. flits.items) result (seen_of (trace_from 1 (lines_of bytes.now))) }
{
    let mut flits = Vec::new(alloc);
    let mut rest = bytes;
    let mut number = 1;
    while let Some((line, after)) = first_line(rest) {
        add_flit(&mut flits, line, number)?;
        rest = after;
        number += 1;
    }
    let _ = cut_at(rest, number)?;
    Ok(flits)
}

/// The flits, loads and stores of the trace that a file of these bytes is.
///
/// The faults are those of `read_resolved`, in the same places.
#[tactic(auto, unfolding(crate::specs::Traces::trace_in))]
pub(crate) fn flits_in<A: Allocator + Copy>(
    alloc: A,
    bytes: &[u8],
) -> Result<Vec<Seen, A>, TraceFault>
    ensures { TraceGives (λ flits. flits.items) result (seen_of (trace_in bytes.now)) }
{
    if bytes.len() > MOST_BYTES {
        return Err(TraceFault::TooLarge);
    }
    flits_from(alloc, bytes)
}
