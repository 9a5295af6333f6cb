//! The report on a trace, from the bytes of its file.

ghost use Rattle.std.specs.Prelude.{◌≡◌, ◌≢◌, IfOk, Ok, OnOk, Some, string_bytes, true};
ghost use Rattle.chi_trace.specs.declared.faults.TraceFault.TheVariants as faults;
ghost use Rattle.chi_verdict.specs.Readings.{IsReading};
ghost use Rattle.chi_verdict.specs.Outstanding.{AreInOrder, IsInOrder, data_place, id_place, outstanding_in};
ghost use Rattle.chi_verdict.specs.Texts.{BeginsWith, fault_front};
ghost use Rattle.chi_verdict.specs.Traces.{Trace, seen_of, trace_in};
ghost use Rattle.chi_verdict.specs.Verdicts.{IsFlitsReport, IsReport, names_flits, verdict_sizes};
ghost use Rattle.chi_verdict.specs.declared.reports.TraceOutcome.TheVariants as outcomes;

use crate::asked::{Asked, is_anything_open, is_nothing_there};
use crate::judged_traces::JudgedTrace;
use crate::judgments::judge;
use crate::lines::sort_items;
use crate::malformed::malformed_text;
use crate::readings::{Reading, read_resolved};
use crate::traces::flits_in;
use chi_flit::{NoMemory, Profile};
use chi_monitor::LineFault;
use chi_resolution::{CacheLine, IdFault, OpenData, OpenId, Options, Resolution, Types};
use chi_slice::Config;
use chi_trace::{Address, Seen, TraceFault};
use std::alloc::{AllocError, Allocator};

/// How much of a trace is explained, by how many actions, and on how many lines.
/// Source: `docs/TRACES.md`, "What is printed".
#[derive(Clone, Copy, Debug, PartialEq, Eq)]
pub struct TraceTotals {
    pub flits: usize,
    /// Loads and stores.
    pub accesses: usize,
    pub actions: u128,
    pub lines: usize,
    /// The number of a last line that isn't read, as no line end follows it.
    pub cut: Option<usize>,
}

/// What of a trace is told as the first that isn't explained. A flit, a load or a store is named by its place in the
/// trace, counted from 0.
/// Source: `docs/TRACES.md`, "What is printed".
#[derive(Clone, Copy, Debug, PartialEq, Eq)]
pub enum TraceStop {
    /// The first flit that the ids or the ledger don't allow.
    Ids(IdFault),
    /// No run of the model sends this flit, or does this load or store, behind those before it at its line.
    Flit { at: usize, fault: LineFault },
    /// As `Obstacle::Undone`.
    Undone(CacheLine),
}

/// What came of a trace.
/// Source: `docs/TRACES.md`, "What is printed".
#[derive(Clone, Copy, Debug, PartialEq, Eq)]
pub enum TraceOutcome {
    /// Each line is explained.
    Explained(TraceTotals),
    /// Each line is explained, and something is open at the end of a trace that is to be complete.
    Incomplete(TraceTotals),
    /// Each line is explained, and a last line of a trace that is to be judged whole isn't read, as no line end follows it.
    Partly(TraceTotals),
    /// The trace has no flit, load or store, or none of the line that is asked for.
    Nothing,
    /// Something isn't explained.
    Faulty(TraceStop),
    /// The file is no trace. Want of memory is none of these faults.
    Malformed(TraceFault),
}

/// What came of a trace, and what is told of it.
/// Source: `docs/TRACES.md`, "What is printed".
#[derive(Drop)]
pub struct TraceReport<A: Allocator> {
    pub outcome: TraceOutcome,
    /// Lines for standard output; of a malformed file one line, without its end, for standard error.
    pub text: String<A>,
}

impl TraceStop {
    /// The place in the trace before which all is explained.
    pub(crate) fn place(&self) -> usize {
        match self {
            TraceStop::Ids(fault) => fault.at,
            TraceStop::Flit { at, fault: _ } => *at,
            TraceStop::Undone(_) => usize::MAX,
        }
    }
}

/// The profile of a trace's types of credit.
fn profile_of(types: Types) -> Profile {
    match types {
        Types::Two | Types::Any => Profile::Two,
        Types::Four => Profile::Four,
    }
}

/// A node of one line, with eight agents.
fn config_of(types: Types) -> Option<Config>
    ensures { result ≡ Some (verdict_sizes types) }
{
    match types {
        Types::Two | Types::Any => Config::without_records(8, 1, 1, Profile::Two, [1, 1, 0, 0]),
        Types::Four => Config::without_records(8, 1, 1, Profile::Four, [1, 1, 1, 1]),
    }
}

/// The report on the trace that a file of these bytes is: that all its lines are explained, and by how much; else what
/// isn't first. Of a file that is no trace it is its first fault. Where an address is asked for the text is the check file
/// that explains its line, up to the first that isn't explained. A last line that no line end follows isn't read, and is told.
///
/// `NoMemory` where memory runs out. That what is told as a fault of a line is one is a clause where its reason is
/// settled, and else tested.
/// Source: `docs/TRACES.md`, "What is printed".
pub fn report_on<A: Allocator + Copy>(
    alloc: A,
    bytes: &[u8],
    options: Options,
    asked: Asked,
) -> Result<TraceReport<A>, NoMemory>
    ensures { IfOk result (λ report.
        IsReport options asked bytes.now report.outcome (string_bytes report.text)) }
{
    match read_resolved(alloc, bytes, options) {
        Ok(reading) => report_on_reading(alloc, bytes, reading, options, asked),
        Err(fault) => malformed(alloc, bytes, fault),
    }
}

/// What is told of a file that is no trace; `NoMemory` where that is its fault.
fn malformed<A: Allocator + Copy>(
    alloc: A,
    bytes: &[u8],
    fault: TraceFault,
) -> Result<TraceReport<A>, NoMemory>
    ensures outcome { IfOk result (λ report. report.outcome ≡ outcomes.Malformed fault) }
    ensures fault { IfOk result (λ _. fault ≢ faults.NoMemory) }
    ensures text { IfOk result
        (λ report. BeginsWith (fault_front fault) (string_bytes report.text)) }
{
    let text = malformed_text(alloc, bytes, fault)?;
    let outcome = TraceOutcome::Malformed(fault);
    Ok(TraceReport { outcome, text })
}

/// The report on a trace that was read and resolved.
fn report_on_reading<A: Allocator + Copy>(
    alloc: A,
    bytes: &[u8],
    reading: Reading<A>,
    options: Options,
    asked: Asked,
) -> Result<TraceReport<A>, NoMemory>
    ensures { IfOk result (λ report. (trace : Trace) → trace_in bytes.now ≡ Ok trace
        → IsReading options trace reading
        → IsFlitsReport options asked trace report.outcome (string_bytes report.text)) }
{
    let config = match config_of(options.types) {
        Some(config) => config,
        None => unreachable!(),
    };
    let mut resolution = reading.resolution;
    let is_open = is_anything_open(&resolution);
    let nothing = is_nothing_there(reading.counts.all, &resolution, asked.only);
    let judged = judge(
        alloc,
        &config,
        options.stores,
        reading.counts,
        &mut resolution,
    )?;
    let seen = flits_named(alloc, bytes, &judged, asked.only)?;
    sort_parts(&mut resolution, asked.only)?;
    let trace = JudgedTrace {
        seen: &seen,
        cut: reading.counts.cut,
        profile: profile_of(options.types),
        stores: options.stores,
        config,
        resolution: &resolution,
    };
    trace.report(alloc, judged, asked, is_open, nothing)
}

/// Whether the text names flits of the trace: a fault, or what is explained of a line.
fn names_flits(judged: &Result<TraceTotals, TraceStop>, only: Option<Address>) -> bool
    ensures { result ≡ names_flits judged.now only }
{
    judged.is_err() || only.is_some()
}

/// The flits of the trace, where the text names some: they are read once more, as none is kept.
fn flits_named<A: Allocator + Copy>(
    alloc: A,
    bytes: &[u8],
    judged: &Result<TraceTotals, TraceStop>,
    only: Option<Address>,
) -> Result<Vec<Seen, A>, NoMemory>
    ensures { IfOk result (λ seen.
        names_flits judged.now only ≡ true → seen_of (trace_in bytes.now) ≡ Ok seen.items) }
{
    if !names_flits(judged, only) {
        return Ok(Vec::new(alloc));
    }
    match flits_in(alloc, bytes) {
        Ok(seen) => Ok(seen),
        Err(_) => Err(NoMemory),
    }
}

/// Puts ids in the order in which they were opened.
fn sort_ids<A: Allocator + Copy>(ids: &mut Vec<OpenId, A>) -> Result<(), AllocError>
    ensures { OnOk result (IsInOrder id_place ids.old.items ids.new.items) }
{
    ids.sort_by_key(|id| id.place)?;
    Ok(())
}

/// Puts data that lacks words in the order in which it was begun.
fn sort_unfinished<A: Allocator + Copy>(unfinished: &mut Vec<OpenData, A>) -> Result<(), AllocError>
    ensures { OnOk result (IsInOrder data_place unfinished.old.items unfinished.new.items) }
{
    unfinished.sort_by_key(|begun| begun.place)?;
    Ok(())
}

/// Puts what is open in the order in which it was opened, and items in that of their lines where one is asked for.
fn sort_parts<A: Allocator + Copy>(
    resolution: &mut Resolution<A>,
    only: Option<Address>,
) -> Result<(), NoMemory>
    ensures { OnOk result
        (AreInOrder (outstanding_in resolution.old) (outstanding_in resolution.new)) }
{
    sort_ids(&mut resolution.ids)?;
    sort_unfinished(&mut resolution.unfinished)?;
    if only.is_some() {
        sort_items(&mut resolution.flits)?;
    }
    Ok(())
}
