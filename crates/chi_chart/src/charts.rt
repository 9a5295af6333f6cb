//! From the bytes of a file to the chart that is written.

ghost use Rattle.std.specs.Prelude.{◌+◌, ◌^◌, ◌<◌};

use crate::frame::Layout;
use crate::headings::LeftLines;
use crate::picture::svg_of;
use crate::rows::{ChartPart, below_headings, rows_of};
use chi_flit::NoMemory;
use chi_script::{
    CheckFile, Failed, Fault, Input, MOST_CHECK_BYTES, Output, read_checks, read_most,
};
use chi_slice::Config;
use std::alloc::Allocator;

/// How a chart of a node of these sizes is laid out.
fn layout_of(config: &Config) -> Layout {
    Layout {
        agents: config.agents(),
        lines: config.lines(),
        slices: config.slices(),
    }
}

/// Where the frame of a chart ends.
const TOP: u32 = 70;

/// The chart of a good file, whose bytes these are. Refused where memory runs out.
fn chart_on<A: Allocator + Copy>(
    alloc: A,
    bytes: &[u8],
    script: &CheckFile<'_, A>,
    part: &ChartPart,
) -> Result<Vec<u8, A>, NoMemory> {
    let mut lines = LeftLines { bytes };
    let title = lines.headings(alloc)?;
    let top = below_headings(TOP, false, title.len())?;
    let run = rows_of(
        alloc,
        &script.header,
        &script.checks,
        part,
        lines.bytes,
        top,
    )?;
    let layout = layout_of(&script.header);
    svg_of(alloc, layout, &title, run.place.y, &run.rows)
}

/// The chart of a file, whose bytes these are; else its first fault, or want of memory.
fn chart_of<A: Allocator + Copy>(
    alloc: A,
    bytes: &[u8],
    part: &ChartPart,
) -> Result<Vec<u8, A>, Fault> {
    let script = read_checks(alloc, bytes)?;
    match chart_on(alloc, bytes, &script, part) {
        Ok(text) => Ok(text),
        Err(_) => Err(Fault::NoMemory),
    }
}

/// The chart of the file that the input has; `Read` if reading it failed.
fn chart_of_input<A: Allocator + Copy, I: Input>(
    alloc: A,
    input: &mut I,
    part: &ChartPart,
) -> Result<Vec<u8, A>, Fault>
    requires { I.failures input.old + 1 < 2 ^ 64 }
{
    let bytes = read_most(alloc, input, MOST_CHECK_BYTES + 1)?;
    chart_of(alloc, &bytes, part)
}

/// Runs the commands of the replay or check file that the input has, on one thread, and writes the message
/// sequence chart of the part of them that is asked for, an SVG. Comments are its headings, and where an answer is
/// another than the wanted one both are told.
///
/// If the file is faulty nothing is written, and the fault is that of its first faulty line, or `TooLarge`, unless
/// `Read` or `NoMemory` came first. After `Write` a beginning of the chart was written; after any other fault nothing
/// was. `NoMemory` also stands for a chart that is higher than a number of 32 bits says. What a chart shows no clause
/// says: tests compare stored charts byte for byte.
///
/// Conditions: the counts of failures of the input and of the output are below 2 ^ 64 - 1.
/// Source: `docs/FORMATS.md`, "Charts" and "The program".
pub fn chart<A: Allocator + Copy, I: Input, O: Output>(
    alloc: A,
    input: &mut I,
    output: &mut O,
    part: &ChartPart,
) -> Result<(), Fault>
    requires reads { I.failures input.old + 1 < 2 ^ 64 }
    requires writes { O.failures output.old + 1 < 2 ^ 64 }
{
    let text = chart_of_input(alloc, input, part)?;
    match output.write_all(&text) {
        Ok(()) => Ok(()),
        Err(Failed) => Err(Fault::Write),
    }
}
