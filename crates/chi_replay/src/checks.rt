//! From the bytes of a check file to the report that is printed.

ghost use Rattle.std.specs.Prelude.{◌≡◌, ◌≢◌, ◌↔◌, ◌+◌, ◌++◌, ◌^◌, ◌<◌, IfOk, IfErr, IfSome, IsTrue, map};
ghost use Rattle.std.specs.Io.KnownBytes.{Keeps};
ghost use Rattle.chi_script.specs.Faults.{Fails};
ghost use Rattle.chi_replay.specs.Replays.{AtWrite, KeepsAtFault, NoText, NoTextAt, RefusesFault};
ghost use Rattle.chi_script.specs.Checks.{line_of_check};
ghost use Rattle.chi_script.specs.CheckFiles.{check_file_of};
ghost use Rattle.chi_replay.specs.Reports.{check_summary};
ghost use Rattle.chi_replay.specs.Checks.{ComparesChecks, IsCheckReport, IsComparison, WritesReportFront, WritesReport, commands_in};

use crate::reports::{Comparison, compare, write_summary};
use crate::runs::run;
use chi_flit::NoMemory;
use chi_script::{
    Check, CheckFile, Command, Failed, Fault, Input, MOST_CHECK_BYTES, Output, read_checks,
    read_most,
};
use std::alloc::{AllocError, Allocator};

/// The commands of the checks, in order. Refused where memory for the list runs out.
/// Source: `docs/FORMATS.md`, "Check files".
pub fn commands_of<A: Allocator>(alloc: A, checks: &[Check]) -> Result<Vec<Command, A>, AllocError>
    ensures { IfOk result
        (λ commands. commands.items ≡ commands_in (map line_of_check checks.now)) }
{
    checks.iter().map(|check| check.command).collect(alloc)
}

/// The answers of a good file's commands beside the wanted ones. Refused where memory runs out.
fn compare_script<A: Allocator + Copy>(
    alloc: A,
    front: &[u8],
    script: &CheckFile<'_, A>,
) -> Result<Comparison<A>, NoMemory>
    ensures { IfOk result
        (λ found. ComparesChecks script.now.header (map line_of_check script.now.checks.items)
        front.now found.lines.items found.wanted found.differing) }
{
    let commands = commands_of(alloc, &script.checks)?;
    let text = run(alloc, &script.header, &commands)?;
    compare(alloc, front, &script.checks, text.as_bytes())
}

/// The answers of a file's commands beside the wanted ones; the file's bytes are these, and the front stands
/// at the beginning of each line on an answer that differs. Else its first fault, or want of memory.
pub(crate) fn compare_file<A: Allocator + Copy>(
    alloc: A,
    front: &[u8],
    bytes: &[u8],
) -> Result<Comparison<A>, Fault>
    ensures ok { IfOk result
        (λ found. IsComparison bytes.now front.now found.lines.items found.wanted found.differing) }
    ensures err { IfErr result (λ fault. Fails fault (check_file_of bytes.now)) }
{
    let script = read_checks(alloc, bytes)?;
    match compare_script(alloc, front, &script) {
        Ok(found) => Ok(found),
        Err(_) => Err(Fault::NoMemory),
    }
}

/// What came of the checks of a file.
#[derive(Drop)]
struct CheckReport<A: Allocator> {
    /// What is printed.
    text: Vec<u8, A>,
    /// Whether each answer is the wanted one, where one is wanted.
    hold: bool,
}

/// The report on a file, whose bytes these are; else its first fault, or want of memory.
fn report_of<A: Allocator + Copy>(alloc: A, bytes: &[u8]) -> Result<CheckReport<A>, Fault>
    ensures ok { IfOk result (λ report. IsCheckReport bytes.now report.hold report.text.items) }
    ensures err { IfErr result (λ fault. Fails fault (check_file_of bytes.now)) }
{
    let found = compare_file(alloc, b"", bytes)?;
    match report_on(found) {
        Ok(report) => Ok(report),
        Err(_) => Err(Fault::NoMemory),
    }
}

/// The report on what was found. Refused where memory runs out.
fn report_on<A: Allocator>(found: Comparison<A>) -> Result<CheckReport<A>, NoMemory>
    ensures text { IfOk result
        (λ report. report.text.items
        ≡ found.lines.items ++ check_summary found.wanted found.differing) }
    ensures hold { IfOk result (λ report. IsTrue report.hold ↔ (found.differing ≡ 0)) }
{
    let Comparison {
        lines: mut text,
        wanted,
        differing,
    } = found;
    write_summary(&mut text, wanted, differing)?;
    let hold = differing == 0;
    Ok(CheckReport { text, hold })
}

/// The same of an input's bytes; `Read` where reading them failed.
fn report_of_input<A: Allocator + Copy, I: Input>(
    alloc: A,
    input: &mut I,
) -> Result<CheckReport<A>, Fault>
    requires { I.failures input.old + 1 < 2 ^ 64 }
    ensures ok { IfOk result
        (λ report. IfSome (I.left input.old) (λ file. IsCheckReport file report.hold report.text.items)) }
    ensures err { IfErr result
        (NoText check_file_of (I.left input.old) (I.failures input.old) (I.failures input.new)) }
{
    let bytes = read_most(alloc, input, MOST_CHECK_BYTES + 1)?;
    report_of(alloc, &bytes)
}

/// Runs the commands of the check file that the input has, on one thread, compares the answer of each with
/// the one that is wanted of it, where one is, and writes the report: whether all answers hold.
///
/// At `Ok` the input was a good file, and the report on the answers of its commands, under answers that the
/// tracker may give, was written, no more: a line for each answer that differs, and the last line. Where the
/// file is faulty nothing is written, and the fault is that of its first faulty line, or `TooLarge`, unless
/// `Read` or `NoMemory` came first. `Read` and `Write` come only where that device counted a failure. After
/// `Write` a beginning of such a report was written; after any other fault nothing was.
///
/// Conditions: the counts of failures of the input and of the output are below 2 ^ 64 - 1.
/// Source: `docs/FORMATS.md`, "Check files" and "The program".
pub fn check<A: Allocator + Copy, I: Input, O: Output>(
    alloc: A,
    input: &mut I,
    output: &mut O,
) -> Result<bool, Fault>
    requires reads { I.failures input.old + 1 < 2 ^ 64 }
    requires writes { O.failures output.old + 1 < 2 ^ 64 }
    ensures ok { IfOk result
        (WritesReport (I.left input.old) (O.written output.old) (O.written output.new)) }
    ensures write { AtWrite result (O.failures output.new ≡ O.failures output.old + 1) }
    ensures front { AtWrite result
        (WritesReportFront (I.left input.old) (O.written output.old) (O.written output.new)) }
    ensures err { NoTextAt result check_file_of (I.left input.old) (I.failures input.old)
        (I.failures input.new) }
    ensures kept { IfErr result
        (λ fault. fault ≢ Fault.Write → Keeps (O.written output.old) (O.written output.new)) }
    ensures faulty { RefusesFault check_file_of (I.left input.old) result }
    ensures silent { KeepsAtFault check_file_of (I.left input.old) (O.written output.old)
        (O.written output.new) }
{
    let report = report_of_input(alloc, input)?;
    match output.write_all(&report.text) {
        Ok(()) => Ok(report.hold),
        Err(Failed) => Err(Fault::Write),
    }
}
