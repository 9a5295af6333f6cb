//! From the bytes of a file to the text that is printed.

ghost use Rattle.std.specs.Prelude.{◌≡◌, ◌≢◌, ◌+◌, ◌^◌, ◌<◌, IfOk, IfErr, IfSome, OnOk, string_bytes};
ghost use Rattle.std.specs.Io.KnownBytes.{Keeps};
ghost use Rattle.chi_script.specs.Faults.{Fails};
ghost use Rattle.chi_script.specs.Files.{commands_of, file_of, lines_of};
ghost use Rattle.chi_replay.specs.Texts.{IsTextOfLines};
ghost use Rattle.chi_replay.specs.Replays.{AtWrite, IsTextOf, KeepsAtFault, NoText, NoTextAt, RefusesFault, TellsFault, WritesFront, WritesText};

use crate::runs::run_lines;
use chi_script::{Failed, Fault, Input, Output, first_fault, read_all, read_head};
use chi_slice::Config;
use std::alloc::Allocator;

/// The text of the commands of a file, whose bytes these are; else its first fault, or want of memory.
fn text_of<A: Allocator + Copy>(alloc: A, bytes: &[u8]) -> Result<String<A>, Fault>
    ensures ok { IfOk result (λ text. IsTextOf bytes.now (string_bytes text)) }
    ensures err { IfErr result (λ fault. Fails fault (file_of bytes.now)) }
{
    // (matched, since the checker doesn't follow a `?` on what has a reference and an invariant in it)
    match read_head(alloc, bytes) {
        Ok(head) => text_of_lines(alloc, &head.0, head.1),
        Err(fault) => Err(fault),
    }
}

/// The text of the lines behind a header. Each is played as soon as it is read; where memory runs out,
/// they are read again, so that faulty lines are told as such.
fn text_of_lines<A: Allocator + Copy>(
    alloc: A,
    config: &Config,
    lines: &[u8],
) -> Result<String<A>, Fault>
    ensures ok { IfOk result (λ text. IsTextOfLines config.now lines.now (string_bytes text)) }
    ensures err { IfErr result (λ fault. Fails fault (commands_of 2 (lines_of lines.now))) }
    ensures faulty { TellsFault (commands_of 2 (lines_of lines.now)) result }
{
    match run_lines(alloc, config, lines) {
        Ok(text) => Ok(text),
        Err(fault) => Err(first_fault(lines, fault)),
    }
}

/// The same of an input's bytes; `Read` where reading them failed.
fn text_of_input<A: Allocator + Copy, I: Input>(alloc: A, input: &mut I) -> Result<String<A>, Fault>
    requires { I.failures input.old + 1 < 2 ^ 64 }
    ensures ok { IfOk result
        (λ text. IfSome (I.left input.old) (λ file. IsTextOf file (string_bytes text))) }
    ensures err { IfErr result
        (NoText file_of (I.left input.old) (I.failures input.old) (I.failures input.new)) }
{
    let bytes = read_all(alloc, input)?;
    text_of(alloc, &bytes)
}

/// Runs the commands of the file that the input has, on one thread, and writes the answer of each.
///
/// At `Ok` the input was a good file, and the text of its commands, under answers that the tracker may give,
/// was written, no more. Where the file is faulty nothing is written, and the fault is that of its first
/// faulty line, or `TooLarge`, unless `Read` or `NoMemory` came first. `Read` and `Write` come only where
/// that device counted a failure. After `Write` a beginning of such a text was written; after any other fault
/// nothing was.
///
/// Conditions: the counts of failures of the input and of the output are below 2 ^ 64 - 1.
/// Source: `docs/FORMATS.md`, "Replay files" and "The program".
pub fn replay<A: Allocator + Copy, I: Input, O: Output>(
    alloc: A,
    input: &mut I,
    output: &mut O,
) -> Result<(), Fault>
    requires reads { I.failures input.old + 1 < 2 ^ 64 }
    requires writes { O.failures output.old + 1 < 2 ^ 64 }
    ensures ok { OnOk result
        (WritesText (I.left input.old) (O.written output.old) (O.written output.new)) }
    ensures write { AtWrite result (O.failures output.new ≡ O.failures output.old + 1) }
    ensures front { AtWrite result
        (WritesFront (I.left input.old) (O.written output.old) (O.written output.new)) }
    ensures err { NoTextAt result file_of (I.left input.old)
        (I.failures input.old) (I.failures input.new) }
    ensures kept { IfErr result
        (λ fault. fault ≢ Fault.Write → Keeps (O.written output.old) (O.written output.new)) }
    ensures faulty { RefusesFault file_of (I.left input.old) result }
    ensures silent { KeepsAtFault file_of (I.left input.old)
        (O.written output.old) (O.written output.new) }
{
    let text = text_of_input(alloc, input)?;
    match output.write_all(text.as_bytes()) {
        Ok(()) => Ok(()),
        Err(Failed) => Err(Fault::Write),
    }
}
