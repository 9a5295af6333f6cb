//! From the bytes of a trace to what is printed of it.

ghost use Rattle.std.specs.Prelude.{◌≡◌, ◌≢◌, ◌+◌, ◌^◌, ◌<◌, IfErr, IfOk, IfSome, OnErr, OnOk, false, string_bytes};
ghost use Rattle.std.specs.Io.KnownBytes.{Keeps};
ghost use Rattle.chi_script.specs.Devices.{AppendsFront, CountsFault};
ghost use Rattle.chi_verdict.specs.Verdicts.{AtFailedWrite, IsReport, IsReportFront, IsReportWritten, IsUnreported, KeepsUnlessWritten, is_malformed};

use crate::asked::Asked;
use crate::reports::{TraceOutcome, TraceReport, report_on};
use chi_flit::NoMemory;
use chi_resolution::Options;
use chi_script::{Failed, Fault, Input, Output, read_most};
use chi_trace::MOST_BYTES;
use std::alloc::Allocator;

/// The report on the trace that the input has; `Read` where reading it failed.
fn report_on_input<A: Allocator + Copy, I: Input>(
    alloc: A,
    input: &mut I,
    options: Options,
    asked: Asked,
) -> Result<TraceReport<A>, Fault>
    requires { I.failures input.old + 1 < 2 ^ 64 }
    ensures told { IfOk result (λ report. IfSome (I.left input.old)
        (λ file. IsReport options asked file report.outcome (string_bytes report.text))) }
    ensures ok { OnOk result (I.failures input.new ≡ I.failures input.old) }
    ensures err { IfErr result (CountsFault (I.failures input.old) (I.failures input.new)) }
{
    let bytes = read_most(alloc, input, MOST_BYTES + 1)?;
    match report_on(alloc, &bytes, options, asked) {
        Ok(report) => Ok(report),
        Err(NoMemory) => Err(Fault::NoMemory),
    }
}

/// Holds the trace that the input has against the model, and writes the report on it; of a malformed file, also of one
/// that is too large, nothing is written, and the report is one line for standard error.
///
/// `Read` where the input failed, `Write` where the output did, and `NoMemory` where memory runs out; that device then
/// counted one failure, and no other count changed. After `Write` a beginning of such a report was written; after
/// another fault nothing was.
///
/// Conditions: the counts of failures of the input and of the output are below 2 ^ 64 - 1.
/// Source: `docs/TRACES.md`, "What is printed".
pub fn explain<A: Allocator + Copy, I: Input, O: Output>(
    alloc: A,
    input: &mut I,
    output: &mut O,
    options: Options,
    asked: Asked,
) -> Result<TraceReport<A>, Fault>
    requires reads { I.failures input.old + 1 < 2 ^ 64 }
    requires writes { O.failures output.old + 1 < 2 ^ 64 }
    ensures told { IfOk result (λ report. IfSome (I.left input.old)
        (λ file. IsReport options asked file report.outcome (string_bytes report.text))) }
    ensures written { IfOk result (λ report.
        IsReportWritten report.outcome (O.written output.old) (O.written output.new)
        (string_bytes report.text)) }
    ensures read { OnOk result (I.failures input.new ≡ I.failures input.old) }
    ensures wrote { OnOk result (O.failures output.new ≡ O.failures output.old) }
    ensures err { IfErr result (IsUnreported (I.failures input.old) (I.failures input.new)
        (O.failures output.old) (O.failures output.new)) }
    ensures front { AtFailedWrite result (IfSome (I.left input.old)
        (λ file. IsReportFront options asked file (O.written output.old) (O.written output.new))) }
    ensures kept { IfErr result
        (λ fault. fault ≢ Fault.Write → Keeps (O.written output.old) (O.written output.new)) }
    ensures silent { KeepsUnlessWritten (I.left input.old)
        (O.written output.old) (O.written output.new) }
{
    let report = report_on_input(alloc, input, options, asked)?;
    write_report(output, report)
}

/// Writes the report, but where the file is malformed; `Write` where that failed.
fn write_report<A: Allocator, O: Output>(
    output: &mut O,
    report: TraceReport<A>,
) -> Result<TraceReport<A>, Fault>
    requires { O.failures output.old + 1 < 2 ^ 64 }
    ensures same { IfOk result (λ given. given ≡ report) }
    ensures written { OnOk result (IsReportWritten report.outcome (O.written output.old)
        (O.written output.new) (string_bytes report.text)) }
    ensures ok { OnOk result (O.failures output.new ≡ O.failures output.old) }
    ensures fault { IfErr result (λ fault. fault ≡ Fault.Write) }
    ensures err { OnErr result (O.failures output.new ≡ O.failures output.old + 1) }
    ensures wellformed { OnErr result (is_malformed report.outcome ≡ false) }
    ensures front { OnErr result (AppendsFront (O.written output.old) (O.written output.new)
        (string_bytes report.text)) }
{
    match report.outcome {
        TraceOutcome::Malformed(_) => Ok(report),
        TraceOutcome::Explained(_)
        | TraceOutcome::Incomplete(_)
        | TraceOutcome::Partly(_)
        | TraceOutcome::Nothing
        | TraceOutcome::Faulty(_) => match output.write_all(report.text.as_bytes()) {
            Ok(()) => Ok(report),
            Err(Failed) => Err(Fault::Write),
        },
    }
}
