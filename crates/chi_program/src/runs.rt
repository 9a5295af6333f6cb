//! Replays, charts and storms.

ghost use Rattle.std.specs.Prelude.{◌≡◌, Ok, Some};
ghost use Rattle.chi_program.specs.Stops.{storm_end};
ghost use Rattle.chi_program.specs.Charts.{part_asked};

use crate::inputs::{tell, tell_unread};
use crate::looks::{lacks_line, lacks_rows};
use crate::options::RowRange;
use crate::stops::End;
use crate::suites::read_file;
use chi_chart::{ChartPart, chart};
use chi_flit::Line;
use chi_replay::replay;
use chi_script::{Fault, FileInput, MOST_CHECK_BYTES, MemoryInput, StandardOutput};
use chi_storm::storm;
use std::alloc::Global;
use std::io;
use std::rt::{Clock, Files};
use std::sync::Wait;
use std::thread::Threads;

/// Replays the file at the path to standard output.
pub(crate) fn replay_file<R: Files + AllocGlobal + Print>(
    rt: &R,
    path: &str,
) -> Result<End, Fault> {
    let mut input = FileInput::open(rt, path)?;
    let mut output = StandardOutput::new(io::writer(rt));
    replay(rt.alloc(), &mut input, &mut output)?;
    Ok(End::Done)
}

/// The part of a chart that is asked for.
pub(crate) fn part_of(line: Option<Line>, rows: RowRange) -> ChartPart
    ensures { result ≡ part_asked line rows }
{
    ChartPart {
        line,
        first: rows.first,
        last: rows.last,
    }
}

/// Whether a part of a chart leaves rows out.
fn has_some_rows(part: ChartPart) -> bool {
    part.first > 1 || part.last < u64::MAX
}

/// What is told of a good file whose bytes these are, and that has nothing of this part of a chart: its line, or all of its
/// rows, are beyond it. `None` where it has some, and of any other file.
fn lack_of(alloc: Global, bytes: &[u8], part: ChartPart) -> Option<&'static str> {
    if let Some(line) = part.line {
        if let Ok(true) = lacks_line(alloc, bytes, line) {
            return Some("chihome: the file has no such line");
        }
    }
    if has_some_rows(part) {
        if let Ok(true) = lacks_rows(alloc, bytes, part.first) {
            return Some("chihome: the file has no such rows");
        }
    }
    None
}

/// Writes this part of the chart of the file at the path to standard output.
pub(crate) fn chart_file<R: Files + AllocGlobal + Print + Eprint>(
    rt: &R,
    path: &str,
    part: ChartPart,
) -> Result<End, Fault> {
    let Some(bytes) = read_file(rt, path, MOST_CHECK_BYTES + 1)? else {
        return tell_unread(rt, path);
    };
    if let Some(lack) = lack_of(rt.alloc(), &bytes, part) {
        let _ = rt.eprintln(lack);
        return Ok(End::Nothing);
    }
    let mut input = MemoryInput::new(&bytes, u64::MAX);
    let mut output = StandardOutput::new(io::writer(rt));
    match chart(rt.alloc(), &mut input, &mut output, &part) {
        Ok(()) => Ok(End::Done),
        Err(fault) => tell(rt, &bytes, fault),
    }
}

/// Runs the storm of the file at the path, and writes to standard output what came of it.
pub(crate) fn storm_file<R: Files + AllocGlobal + Print + Threads + Wait + Clock + Sync>(
    rt: &R,
    path: &str,
    seed: u64,
    turns: u64,
) -> Result<End, Fault> {
    let mut input = FileInput::open(rt, path)?;
    let mut output = StandardOutput::new(io::writer(rt));
    let finished = storm(rt, rt.alloc(), &mut input, &mut output, seed, turns)?;
    Ok(storm_end(finished))
}

/// The end of a storm of which all scripts finished, or not.
fn storm_end(finished: bool) -> End
    ensures { result ≡ storm_end finished }
{
    if finished { End::Done } else { End::Unfinished }
}
