//! What is told of a line that is none of a trace.

ghost use Rattle.std.specs.Prelude.{◌≡◌, IfOk, string_bytes};
ghost use Rattle.chi_trace.specs.Malformed.{malformed_front};
ghost use Rattle.chi_observe.specs.Reports.{BeginsWith};

use crate::names::joined;
use chi_trace::{
    Expected, MalformedFront, Opcodes, TraceFault, TraceForm, channel_word, near_opcode,
    opcode_word,
};
use std::alloc::{AllocError, Allocator};
use std::fmt::Write;

/// What is expected as the opcode of a line: the one that its word nearly is, or any.
fn opcodes(form: TraceForm, line: &[u8]) -> &'static str {
    let channel = channel_word(line);
    if let b"CPU" = channel {
        return "Load or Store";
    }
    match (form.opcodes, near_opcode(channel, opcode_word(line))) {
        (Opcodes::Any, _) => "an opcode: letters and digits, a capital first",
        (Opcodes::IssueB, Some(near)) => near,
        (Opcodes::IssueB, None) => "an opcode of Issue B (--opcodes any takes others)",
    }
}

/// Puts what was expected of the line behind the text.
fn write_expected<A: Allocator>(
    text: &mut String<A>,
    form: TraceForm,
    line: &[u8],
    fault: TraceFault,
) -> Result<(), AllocError> {
    let expected = Expected {
        fault,
        line,
        opcodes: opcodes(form, line),
        listing: form.listing,
    };
    write!(text, "{expected}")
}

/// Names the byte-order mark where the trace begins with one and its first line is wrong.
fn write_mark<A: Allocator>(
    text: &mut String<A>,
    line: &[u8],
    fault: TraceFault,
) -> Result<(), AllocError> {
    match (fault, line) {
        (TraceFault::FewWords(1) | TraceFault::BadWord { line: 1, .. }, [0xef, 0xbb, 0xbf, ..]) =>
            write!(text, "; the trace begins with a byte-order mark"),
        _ => Ok(()),
    }
}

/// How the text on a line that is none begins.
fn malformed_front<A: Allocator>(alloc: A, fault: TraceFault) -> Result<String<A>, AllocError>
    ensures { IfOk result (λ text. string_bytes text ≡ malformed_front fault) }
{
    let front = MalformedFront(fault);
    let mut text = String::new(alloc);
    write!(text, "{front}")?;
    Ok(text)
}

/// What is told of a line that is none: it is given without its line end.
pub(crate) fn malformed_text<A: Allocator + Copy>(
    alloc: A,
    form: TraceForm,
    fault: TraceFault,
    line: &[u8],
) -> Result<String<A>, AllocError>
    ensures { IfOk result (λ text. BeginsWith (malformed_front fault) (string_bytes text)) }
{
    let front = malformed_front(alloc, fault)?;
    let mut rest = String::new(alloc);
    write_expected(&mut rest, form, line, fault)?;
    write_mark(&mut rest, line, fault)?;
    joined(front, &rest)
}
