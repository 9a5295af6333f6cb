//! From the bytes of a trace to what is printed of it.

ghost use Rattle.std.specs.Prelude.{◌≡◌, ◌≢◌, ◌+◌, ◌^◌, ◌<◌, IfErr, IfOk, IfSome, OnErr, OnOk, false, string_bytes};
ghost use Rattle.std.specs.Io.KnownBytes.{Keeps};
ghost use Rattle.chi_script.specs.Devices.{AppendsFront, CountsFault};
ghost use Rattle.chi_observe.specs.Reports.{AtFailedWrite, IsObserved, IsReportFront, IsReportWritten, IsUnreported, is_malformed};
ghost use Rattle.chi_observe.specs.Watched.{nothing_watched, watched};

use crate::progress::Progress;
use crate::reports::{Demands, ObserveOutcome, ObserveReport};
use crate::steps::WatchOptions;
use crate::stream::{Notes, watch_input};
use crate::watch::Watch;
use chi_script::{Failed, Fault, Input, Output};
use std::alloc::Allocator;

/// The report on the trace that the input has, by a watch that has seen nothing; `Read` where reading it failed.
fn report_by<A: Allocator + Copy, I: Input, P: Progress>(
    watch: &mut Watch<A>,
    notes: &mut Notes<A>,
    alloc: A,
    input: &mut I,
    demands: Demands,
    progress: &mut P,
) -> Result<ObserveReport<A>, Fault>
    requires new { watched watch.old ≡ nothing_watched watch.old.options }
    requires reads { I.failures input.old + 1 < 2 ^ 64 }
    ensures told { IfOk result (λ report. IfSome (I.left input.old)
        (λ file. IsObserved watch.old.options demands file report.outcome (string_bytes report.text))) }
    ensures ok { OnOk result (I.failures input.new ≡ I.failures input.old) }
    ensures err { IfErr result (CountsFault (I.failures input.old) (I.failures input.new)) }
{
    let stop = watch_input(alloc, input, watch, notes, progress)?;
    match watch.report(alloc, demands, &stop, notes) {
        Ok(report) => Ok(report),
        Err(_) => Err(Fault::NoMemory),
    }
}

/// The report on the trace that the input has; `Read` where reading it failed.
fn report_on_input<A: Allocator + Copy, I: Input, P: Progress>(
    alloc: A,
    input: &mut I,
    options: WatchOptions,
    demands: Demands,
    context: usize,
    progress: &mut P,
) -> Result<ObserveReport<A>, Fault>
    requires { I.failures input.old + 1 < 2 ^ 64 }
    ensures told { IfOk result (λ report. IfSome (I.left input.old)
        (λ file. IsObserved options demands file report.outcome (string_bytes report.text))) }
    ensures ok { OnOk result (I.failures input.new ≡ I.failures input.old) }
    ensures err { IfErr result (CountsFault (I.failures input.old) (I.failures input.new)) }
{
    let mut watch = Watch::new(alloc, options);
    let mut notes = Notes::new(alloc, context);
    report_by(&mut watch, &mut notes, alloc, input, demands, progress)
}

/// Judges the trace that the input has, which is read in pieces, and writes the report on it; of a malformed trace nothing
/// is written, and the report is one line for standard error. With a fault the flits of its line of memory that were taken
/// last are told, at most `context` of them, and memory grows by as many for each line; none where that is 0.
/// `progress` is told after each piece how far the reading has come.
///
/// `Read` where the input failed, `Write` where the output did, and `NoMemory` where memory runs out; that device then
/// counted one failure, and no other count changed. After `Write` a beginning of such a report was written; after
/// another fault nothing was.
///
/// Conditions: the counts of failures of the input and of the output are below 2 ^ 64 - 1.
/// Source: `docs/OBSERVER.md`, "What is printed".
pub fn observe<A: Allocator + Copy, I: Input, O: Output, P: Progress>(
    alloc: A,
    input: &mut I,
    output: &mut O,
    options: WatchOptions,
    demands: Demands,
    context: usize,
    progress: &mut P,
) -> Result<ObserveReport<A>, Fault>
    requires reads { I.failures input.old + 1 < 2 ^ 64 }
    requires writes { O.failures output.old + 1 < 2 ^ 64 }
    ensures told { IfOk result (λ report. IfSome (I.left input.old)
        (λ file. IsObserved options demands file report.outcome (string_bytes report.text))) }
    ensures written { IfOk result (λ report.
        IsReportWritten report.outcome (O.written output.old) (O.written output.new)
        (string_bytes report.text)) }
    ensures read { OnOk result (I.failures input.new ≡ I.failures input.old) }
    ensures wrote { OnOk result (O.failures output.new ≡ O.failures output.old) }
    ensures err { IfErr result (IsUnreported (I.failures input.old) (I.failures input.new)
        (O.failures output.old) (O.failures output.new)) }
    ensures front { AtFailedWrite result (IfSome (I.left input.old) (λ file.
        IsReportFront options demands file (O.written output.old) (O.written output.new))) }
    ensures kept { IfErr result
        (λ fault. fault ≢ Fault.Write → Keeps (O.written output.old) (O.written output.new)) }
{
    let report = report_on_input(alloc, input, options, demands, context, progress)?;
    write_report(output, report)
}

/// Writes the report, but where the trace is malformed; `Write` where that failed.
fn write_report<A: Allocator, O: Output>(
    output: &mut O,
    report: ObserveReport<A>,
) -> Result<ObserveReport<A>, Fault>
    requires { O.failures output.old + 1 < 2 ^ 64 }
    ensures same { IfOk result (λ given. given ≡ report) }
    ensures written { OnOk result (IsReportWritten report.outcome (O.written output.old)
        (O.written output.new) (string_bytes report.text)) }
    ensures ok { OnOk result (O.failures output.new ≡ O.failures output.old) }
    ensures fault { IfErr result (λ fault. fault ≡ Fault.Write) }
    ensures err { OnErr result (O.failures output.new ≡ O.failures output.old + 1) }
    ensures wellformed { OnErr result (is_malformed report.outcome ≡ false) }
    ensures front { OnErr result (AppendsFront (O.written output.old) (O.written output.new)
        (string_bytes report.text)) }
{
    match report.outcome {
        ObserveOutcome::Malformed(_) => Ok(report),
        ObserveOutcome::Accepted(_)
        | ObserveOutcome::Incomplete(_)
        | ObserveOutcome::Partly(_)
        | ObserveOutcome::Unjudged(_)
        | ObserveOutcome::Nothing
        | ObserveOutcome::Faulty(_) => match output.write_all(report.text.as_bytes()) {
            Ok(()) => Ok(report),
            Err(Failed) => Err(Fault::Write),
        },
    }
}
