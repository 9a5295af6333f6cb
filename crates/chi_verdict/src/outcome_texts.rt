//! The lines on how much is explained, what isn't read, and nothing that was seen; how a line on what isn't explained begins.

ghost use Rattle.std.specs.Prelude.{◌≡◌, ◌++◌, IfOk, OnOk, Some, string_bytes};
ghost use Rattle.std.specs.List.{slice_get};
ghost use Rattle.chi_verdict.specs.Texts.{BeginsWith, access_text, cut_comment, cut_line, explained_line, flit_number_of, nothing_front, numbered, stop_front};

use crate::names::{LineName, joined, kept};
use crate::reports::{TraceStop, TraceTotals};
use chi_flit::NoMemory;
use chi_resolution::line_of;
use chi_trace::{Address, Seen};
use std::alloc::{AllocError, Allocator};
use std::fmt;
use std::fmt::Write;

/// How many loads and stores are explained, behind the flits; nothing where there are none.
#[derive(Clone, Copy)]
struct AccessCount(usize);

impl fmt::Display for AccessCount {
    ghost output = { λ count. Some (access_text count.0) };

    fn fmt<W: fmt::Write>(&self, f: &mut fmt::Formatter<W>) -> fmt::Result {
        let accesses = self.0;
        if accesses == 0 {
            return Ok(());
        }
        write!(f, " and {accesses} loads and stores")
    }
}

/// Puts a last line that isn't read behind the text.
pub(crate) fn write_cut<A: Allocator>(
    text: &mut String<A>,
    cut: Option<usize>,
) -> Result<(), AllocError>
    ensures { OnOk result (string_bytes text.new ≡ string_bytes text.old ++ cut_line cut) }
{
    match cut {
        None => Ok(()),
        Some(number) => writeln!(
            text,
            "not judged: trace line {number}, the last, which has no line end"
        ),
    }
}

/// The line on a last line that is cut, as a comment of a check file.
pub(crate) fn cut_comment<A: Allocator>(alloc: A, cut: Option<usize>) -> Result<String<A>, NoMemory>
    ensures { IfOk result (λ text. string_bytes text ≡ cut_comment cut) }
{
    let mut text = String::new(alloc);
    match cut {
        None => Ok(text),
        Some(_) => {
            text.push_str("# ")?;
            write_cut(&mut text, cut)?;
            Ok(text)
        }
    }
}

/// Puts the line on how much is explained behind the text.
pub(crate) fn write_explained<A: Allocator>(
    text: &mut String<A>,
    totals: TraceTotals,
) -> Result<(), AllocError>
    ensures { OnOk result (string_bytes text.new ≡ string_bytes text.old ++ explained_line totals) }
{
    let (flits, actions, lines) = (totals.flits, totals.actions, totals.lines);
    let accesses = AccessCount(totals.accesses);
    writeln!(
        text,
        "explained {flits} flits{accesses} by {actions} actions on {lines} lines"
    )
}

/// The number of the line of the file that the flit at this place of the trace is.
pub(crate) fn number_at(seen: &[Seen], at: usize) -> usize
    ensures { result ≡ flit_number_of (slice_get seen.now at) }
{
    match seen.get(at) {
        Some(seen) => seen.line,
        None => 0,
    }
}

/// How a line on the flit at this place of the trace begins.
fn numbered<A: Allocator>(alloc: A, line: usize) -> Result<String<A>, NoMemory>
    ensures { IfOk result (λ text. string_bytes text ≡ numbered line) }
{
    let mut text = String::new(alloc);
    kept(write!(text, "line {line}: "))?;
    Ok(text)
}

/// How the line on what isn't explained begins.
pub(crate) fn stop_front<A: Allocator + Copy>(
    alloc: A,
    seen: &[Seen],
    stop: &TraceStop,
) -> Result<String<A>, NoMemory>
    ensures { IfOk result (λ text. string_bytes text ≡ stop_front seen.now stop.now) }
{
    let mut text = String::new(alloc);
    let written = match stop {
        TraceStop::Ids(fault) => return numbered(alloc, number_at(seen, fault.at)),
        TraceStop::Flit { at, fault: _ } => return numbered(alloc, number_at(seen, *at)),
        TraceStop::Undone(_) => write!(text, "no explanation of the cache line at "),
    };
    kept(written)?;
    Ok(text)
}

/// How the text on a trace that has nothing of what is asked for begins.
fn nothing_front<A: Allocator>(alloc: A, cut: Option<usize>) -> Result<String<A>, NoMemory>
    ensures { IfOk result (λ text. string_bytes text ≡ nothing_front cut) }
{
    let mut text = String::new(alloc);
    write_cut(&mut text, cut)?;
    kept(write!(text, "no flit, load or store"))?;
    Ok(text)
}

/// The rest of it: of what nothing was seen.
fn nothing_rest<A: Allocator>(alloc: A, only: Option<Address>) -> Result<String<A>, NoMemory> {
    let mut text = String::new(alloc);
    kept(match only {
        Some(address) => {
            let line = LineName(line_of(address));
            writeln!(text, " at {line}")
        }
        None => writeln!(text, " is in the trace"),
    })?;
    Ok(text)
}

/// What is told of a trace that has nothing of what is asked for.
pub(crate) fn nothing_text<A: Allocator + Copy>(
    alloc: A,
    cut: Option<usize>,
    only: Option<Address>,
) -> Result<String<A>, NoMemory>
    ensures { IfOk result (λ text. BeginsWith (nothing_front cut) (string_bytes text)) }
{
    let front = nothing_front(alloc, cut)?;
    let rest = nothing_rest(alloc, only)?;
    joined(front, &rest)
}
