//! A whole trace.

ghost use Rattle.std.specs.Prelude.{◌≡◌, ◌≤◌, ◌+◌, length};
ghost use Rattle.chi_script.specs.Files.{lines_of};
ghost use Rattle.chi_trace.specs.Faults.{TraceGives};
ghost use Rattle.chi_trace.specs.Files.{trace_flits, trace_of, with_trace_line};

use crate::faults::TraceFault;
use crate::flits::{Seen, flit_in};
use chi_script::first_line;
use std::alloc::Allocator;

/// The most bytes that a trace may have: 64 MiB.
/// Source: `docs/TRACES.md`, "Traces".
pub const MOST_BYTES: usize = 67_108_864;

/// The flits of a trace, which is read whole, in the order of their lines; comments and lines without words
/// have none. The list is all the memory that it takes.
///
/// `TooLarge` where the file has more than `MOST_BYTES` bytes, before all else. Otherwise the first faulty
/// line is told: `FewWords` or `BadWord`, or `MissingNewline` where bytes stand behind the last line end.
/// `NoMemory` where memory runs out.
/// Source: `docs/TRACES.md`, "Traces".
#[tactic(auto, unfolding(crate::specs::Files::trace_of))]
pub fn read_trace<A: Allocator + Copy>(alloc: A, bytes: &[u8]) -> Result<Vec<Seen, A>, TraceFault>
    ensures { TraceGives (λ flits. flits.items) result (trace_of bytes.now) }
{
    if bytes.len() > MOST_BYTES {
        return Err(TraceFault::TooLarge);
    }
    flits_from(alloc, bytes)
}

/// The flits of all lines.
fn flits_from<A: Allocator + Copy>(alloc: A, bytes: &[u8]) -> Result<Vec<Seen, A>, TraceFault>
    requires { length bytes.now ≤ 67108864 }
    ensures { TraceGives (λ flits. flits.items) result (trace_flits 1 (lines_of bytes.now)) }
{
    let mut flits = Vec::new(alloc);
    let mut rest = bytes;
    let mut number = 1;
    while let Some((line, after)) = first_line(rest) {
        add_flit(&mut flits, line, number)?;
        rest = after;
        number += 1;
    }
    if rest.is_empty() {
        Ok(flits)
    } else {
        Err(TraceFault::MissingNewline(number))
    }
}

/// Puts the flit that a line is behind the others; nothing where it is none.
fn add_flit<A: Allocator>(
    flits: &mut Vec<Seen, A>,
    line: &[u8],
    number: usize,
) -> Result<(), TraceFault>
    ensures { TraceGives (λ _. flits.new.items) result (with_trace_line flits.old.items number line.now) }
{
    if let Some(seen) = flit_in(line, number)? {
        flits.push(seen)?;
    }
    Ok(())
}
