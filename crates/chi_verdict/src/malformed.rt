//! What is told of a file that is no trace.

ghost use Rattle.std.specs.Prelude.{◌≡◌, ◌≢◌, IfOk, IsTrue, string_bytes};
ghost use Rattle.chi_trace.specs.declared.faults.TraceFault.TheVariants as faults;
ghost use Rattle.chi_verdict.specs.Texts.{BeginsWith, fault_front, is_compressed};

use crate::names::{joined, kept};
use chi_flit::NoMemory;
use chi_script::line_at;
use chi_trace::{
    Column, Expected, Listing, MOST_BYTES, MalformedFront, TraceFault, channel_word, near_opcode,
    opcode_word,
};
use std::alloc::Allocator;
use std::fmt::Write;

/// The opcodes that a channel has in the model.
fn modelled_opcodes(channel: &[u8]) -> &'static str {
    match channel {
        b"REQ" => {
            "ReadNotSharedDirty, ReadShared, ReadUnique, CleanUnique, Evict, WriteBackFull, WriteCleanFull, WriteEvictFull or PCrdReturn"
        }
        b"SNP" => "SnpShared, SnpNotSharedDirty, SnpUnique or SnpCleanInvalid",
        b"CPU" => "Load or Store",
        b"RSP" => "RetryAck, Comp, CompDBIDResp, PCrdGrant, SnpResp or CompAck",
        _ => "CompData, SnpRespData or CopyBackWrData",
    }
}

/// Whether the model has this opcode.
fn is_modelled(opcode: &str) -> bool {
    matches!(
        opcode,
        "ReadNotSharedDirty"
            | "ReadShared"
            | "ReadUnique"
            | "CleanUnique"
            | "Evict"
            | "WriteBackFull"
            | "WriteCleanFull"
            | "WriteEvictFull"
            | "PCrdReturn"
            | "SnpShared"
            | "SnpNotSharedDirty"
            | "SnpUnique"
            | "SnpCleanInvalid"
            | "RetryAck"
            | "Comp"
            | "CompDBIDResp"
            | "PCrdGrant"
            | "SnpResp"
            | "CompAck"
            | "CompData"
            | "SnpRespData"
            | "CopyBackWrData"
            | "Load"
            | "Store"
    )
}

/// What is expected as the opcode of a line: the one that its word nearly is, or those of its channel.
fn expected_opcodes(line: &[u8]) -> &'static str {
    let channel = channel_word(line);
    if let b"CPU" = channel {
        return modelled_opcodes(channel);
    }
    match near_opcode(channel, opcode_word(line)) {
        Some(near) if is_modelled(near) => near,
        _ => modelled_opcodes(channel),
    }
}

/// Names the opcode of Issue B that the wrong word of a line is, or nearly is, where the model hasn't it.
fn write_unmodelled<A: Allocator>(text: &mut String<A>, line: &[u8]) -> Result<(), NoMemory> {
    match near_opcode(channel_word(line), opcode_word(line)) {
        Some(near) if !is_modelled(near) => {
            kept(write!(text, "; this profile has no {near}, which observe reads"))
        }
        _ => Ok(()),
    }
}

/// What is wrong with a file of these bytes; `NoMemory` where that is the fault.
pub(crate) fn malformed_text<A: Allocator + Copy>(
    alloc: A,
    bytes: &[u8],
    fault: TraceFault,
) -> Result<String<A>, NoMemory>
    ensures fault { IfOk result (λ _. fault ≢ faults.NoMemory) }
    ensures text { IfOk result (λ text. BeginsWith (fault_front fault) (string_bytes text)) }
{
    let front = fault_front(alloc, fault)?;
    let mut rest = String::new(alloc);
    write_expected(&mut rest, bytes, fault)?;
    write_mark(&mut rest, bytes, fault)?;
    joined(front, &rest)
}

/// How the line on a fault begins.
fn fault_front<A: Allocator>(alloc: A, fault: TraceFault) -> Result<String<A>, NoMemory>
    ensures fault { IfOk result (λ _. fault ≢ faults.NoMemory) }
    ensures text { IfOk result (λ text. string_bytes text ≡ fault_front fault) }
{
    if !is_of_file(fault) {
        return Err(NoMemory);
    }
    let mut text = String::new(alloc);
    if is_compressed(fault) {
        kept(write!(text, "chihome: is gzip: zcat FILE | chihome explain -"))?;
        return Ok(text);
    }
    let front = MalformedFront(fault);
    kept(write!(text, "{front}"))?;
    Ok(text)
}

/// Whether the file is compressed.
fn is_compressed(fault: TraceFault) -> bool
    ensures { result ≡ is_compressed fault }
{
    matches!(fault, TraceFault::Gzip)
}

/// Whether it is a fault of the file, and not want of memory.
fn is_of_file(fault: TraceFault) -> bool
    ensures { IsTrue result → fault ≢ faults.NoMemory }
{
    match fault {
        TraceFault::NoMemory => false,
        TraceFault::TooLarge => true,
        TraceFault::Gzip => true,
        TraceFault::LongLine(_) => true,
        TraceFault::MissingNewline(_) => true,
        TraceFault::FewWords(_) => true,
        TraceFault::BadWord { .. } => true,
    }
}

/// Puts what was expected behind the text.
fn write_expected<A: Allocator>(
    text: &mut String<A>,
    bytes: &[u8],
    fault: TraceFault,
) -> Result<(), NoMemory> {
    match fault {
        TraceFault::FewWords(line) | TraceFault::BadWord { line, column: _ } => {
            let line = line_at(bytes, line);
            let expected = Expected {
                fault,
                line,
                opcodes: expected_opcodes(line),
                listing: Listing::Listed,
            };
            kept(write!(text, "{expected}"))?;
            match fault {
                TraceFault::BadWord {
                    column: Column::Opcode,
                    ..
                } => write_unmodelled(text, line),
                _ => Ok(()),
            }
        }
        TraceFault::TooLarge => kept(write!(
            text,
            ", expected {MOST_BYTES} bytes at most; a monitor takes flits without an end (docs/LIBRARY.md)"
        )),
        TraceFault::NoMemory
        | TraceFault::Gzip
        | TraceFault::LongLine(_)
        | TraceFault::MissingNewline(_) => Ok(()),
    }
}

/// Names the byte-order mark where the file begins with one and its first line is wrong.
fn write_mark<A: Allocator>(
    text: &mut String<A>,
    bytes: &[u8],
    fault: TraceFault,
) -> Result<(), NoMemory> {
    match (fault, bytes) {
        (TraceFault::FewWords(1) | TraceFault::BadWord { line: 1, .. }, [0xef, 0xbb, 0xbf, ..]) =>
            kept(write!(text, "; the file begins with a byte-order mark")),
        _ => Ok(()),
    }
}
