//! Traces, explained and observed.

ghost use Rattle.std.specs.Prelude.{◌≡◌, Ok};
ghost use Rattle.chi_program.specs.Stops.{explain_end, observe_end};
ghost use Rattle.chi_program.specs.Watches.{stores_watched, types_watched};

use crate::inputs::{file_of, tell_unread};
use crate::stops::End;
use chi_explain::StoreListing;
use chi_observe::{CreditTypes, Demands, ObserveOutcome, Progress, WatchOptions, observe};
use chi_observer::Stores;
use chi_resolution::{Options, Types};
use chi_script::{Fault, FileInput, StandardOutput};
use chi_verdict::{Asked, TraceOutcome, explain};
use std::io;
use std::rt::Files;

/// Writes to standard output what explains the trace at the path; of a malformed one a line is on standard error.
pub(crate) fn explain_file<R: Files + AllocGlobal + Print + Eprint>(
    rt: &R,
    path: &str,
    options: Options,
    asked: Asked,
) -> Result<End, Fault> {
    let mut input = match FileInput::open(rt, file_of(path)) {
        Ok(input) => input,
        Err(Fault::Read) => return tell_unread(rt, path),
        Err(fault) => return Err(fault),
    };
    let mut output = StandardOutput::new(io::writer(rt));
    let report = match explain(rt.alloc(), &mut input, &mut output, options, asked) {
        Ok(report) => report,
        Err(Fault::Read) => return tell_unread(rt, path),
        Err(fault) => return Err(fault),
    };
    if matches!(report.outcome, TraceOutcome::Malformed(_)) {
        let _ = rt.eprintln(report.text.as_str());
    }
    Ok(explain_end(report.outcome))
}

/// The end of an explanation of which this came.
fn explain_end(outcome: TraceOutcome) -> End
    ensures { result ≡ explain_end outcome }
{
    match outcome {
        TraceOutcome::Explained(_) => End::Done,
        TraceOutcome::Incomplete(_) => End::Incomplete,
        TraceOutcome::Partly(_) => End::Few,
        TraceOutcome::Nothing => End::Nothing,
        TraceOutcome::Faulty(_) => End::Unexplained,
        TraceOutcome::Malformed(_) => End::Malformed,
    }
}

/// The types of credit that a watch is given.
pub(crate) fn types_watched(types: Types) -> CreditTypes
    ensures { result ≡ types_watched types }
{
    match types {
        Types::Two => CreditTypes::Two,
        Types::Four => CreditTypes::Four,
        Types::Any => CreditTypes::Any,
    }
}

/// Whether each store of a processor is in the trace, as a watch is given it.
pub(crate) fn stores_watched(stores: StoreListing) -> Stores
    ensures { result ≡ stores_watched stores }
{
    match stores {
        StoreListing::Partial => Stores::Hidden,
        StoreListing::Complete => Stores::Listed,
    }
}

/// Writes to standard output what comes of the trace at the path; of a malformed one a line is on standard error.
pub(crate) fn observe_file<R: Files + AllocGlobal + Print + Eprint, P: Progress>(
    rt: &R,
    path: &str,
    options: WatchOptions,
    demands: Demands,
    context: u64,
    progress: &mut P,
) -> Result<End, Fault> {
    let mut input = match FileInput::open(rt, file_of(path)) {
        Ok(input) => input,
        Err(Fault::Read) => return tell_unread(rt, path),
        Err(fault) => return Err(fault),
    };
    let mut output = StandardOutput::new(io::writer(rt));
    let context = context as usize;
    let report = match observe(
        rt.alloc(),
        &mut input,
        &mut output,
        options,
        demands,
        context,
        progress,
    ) {
        Ok(report) => report,
        Err(Fault::Read) => return tell_unread(rt, path),
        Err(fault) => return Err(fault),
    };
    if matches!(report.outcome, ObserveOutcome::Malformed(_)) {
        let _ = rt.eprintln(report.text.as_str());
    }
    Ok(observe_end(report.outcome))
}

/// The end of a trace of which this came.
fn observe_end(outcome: ObserveOutcome) -> End
    ensures { result ≡ observe_end outcome }
{
    match outcome {
        ObserveOutcome::Accepted(_) => End::Done,
        ObserveOutcome::Incomplete(_) => End::Incomplete,
        ObserveOutcome::Partly(_) => End::Few,
        ObserveOutcome::Unjudged(_) => End::Nothing,
        ObserveOutcome::Nothing => End::Nothing,
        ObserveOutcome::Faulty(_) => End::Unexplained,
        ObserveOutcome::Malformed(_) => End::Malformed,
    }
}
