//! What comes of a trace that was resolved: how much is explained, or what is told as the first that isn't.

ghost use Rattle.std.specs.Prelude.{◌≡◌, IfErr, IfOk, IfSome, List, None};
ghost use Rattle.chi_explain.specs.declared.observed.StoreListing.{StoreListing};
ghost use Rattle.chi_resolution.specs.declared.lines.Resolved.{Resolved};
ghost use Rattle.chi_slice.specs.Words.{Sizes};
ghost use Rattle.chi_verdict.specs.Outstanding.{outstanding_in};
ghost use Rattle.chi_verdict.specs.Lines.{IsLineFault, IsObstacle};
ghost use Rattle.chi_verdict.specs.Verdicts.{IsStopAmong, IsTraceJudged, items_with};

use crate::closings::close;
use crate::lines::{LineTotals, Obstacle, explain_lines};
use crate::readings::Counts;
use crate::reports::{TraceStop, TraceTotals};
use crate::unseen::fill_data;
use chi_explain::StoreListing;
use chi_flit::NoMemory;
use chi_monitor::LineFault;
use chi_resolution::{CacheLine, IdFault, Resolution};
use chi_slice::Config;
use std::alloc::Allocator;

/// Explains what a resolution of a trace has, whose order is another one then, but for what is open: how much was explained,
/// or what is told as the first that isn't.
pub(crate) fn judge<A: Allocator + Copy>(
    alloc: A,
    config: &Config,
    stores: StoreListing,
    counts: Counts,
    resolution: &mut Resolution<A>,
) -> Result<Result<TraceTotals, TraceStop>, NoMemory>
    ensures judged { IfOk result (λ judged.
        IsTraceJudged config.now stores counts resolution.old.fault
        (items_with resolution.old.flits.items resolution.old.unfinished.items
        resolution.old.waiting.items) judged) }
    ensures kept { outstanding_in resolution.new ≡ outstanding_in resolution.old }
{
    let fault = resolution.fault;
    let unfinished = resolution.unfinished.as_slice();
    close(&mut resolution.flits, &resolution.waiting)?;
    fill_data(alloc, config, stores, &mut resolution.flits, unfinished)?;
    match explain_lines(alloc, config, stores, &mut resolution.flits) {
        Ok(totals) => Ok(total_of(counts, totals, fault)),
        Err(obstacle) => match first_stop(obstacle, fault) {
            Some(stop) => Ok(Err(stop)),
            None => Err(NoMemory),
        },
    }
}

/// How much is explained of a trace whose lines are: all, but where the ids or the ledger don't allow a flit.
fn total_of(
    counts: Counts,
    totals: LineTotals,
    fault: Option<IdFault>,
) -> Result<TraceTotals, TraceStop>
    ensures allowed { IfOk result (λ total. fault ≡ None) }
    ensures flits { IfOk result (λ total. total.flits ≡ counts.flits) }
    ensures accesses { IfOk result (λ total. total.accesses ≡ counts.accesses) }
    ensures cut { IfOk result (λ total. total.cut ≡ counts.cut) }
    ensures actions { IfOk result (λ total. total.actions ≡ totals.actions) }
    ensures lines { IfOk result (λ total. total.lines ≡ totals.lines) }
    ensures err { (config : Sizes) (stores : StoreListing) (whole : List Resolved)
        → IfErr result (IsStopAmong config stores whole fault) }
{
    match fault {
        None => Ok(TraceTotals {
            flits: counts.flits,
            accesses: counts.accesses,
            actions: totals.actions,
            lines: totals.lines,
            cut: counts.cut,
        }),
        Some(fault) => Err(TraceStop::Ids(fault)),
    }
}

/// What comes first in the trace, an obstacle of a line or the first flit that the ids or the ledger don't allow;
/// `None` where memory ran out.
fn first_stop(obstacle: Obstacle, fault: Option<IdFault>) -> Option<TraceStop>
    ensures { (config : Sizes) (stores : StoreListing) (whole : List Resolved)
        → IsObstacle config stores whole obstacle
        → IfSome result (IsStopAmong config stores whole fault) }
{
    match obstacle {
        Obstacle::NoMemory => None,
        Obstacle::Fault { at, fault: cause } => Some(first_of_both(at, cause, fault)),
        Obstacle::Undone(line) => Some(undone(line, fault)),
    }
}

/// Of both what comes first.
fn first_of_both(at: usize, cause: LineFault, fault: Option<IdFault>) -> TraceStop
    ensures { (config : Sizes) (stores : StoreListing) (whole : List Resolved)
        → IsLineFault config stores whole at cause
        → IsStopAmong config stores whole fault result }
{
    match fault {
        Some(fault) if fault.at <= at => TraceStop::Ids(fault),
        _ => TraceStop::Flit { at, fault: cause },
    }
}

/// A line that isn't explained, unless the ids or the ledger don't allow a flit.
fn undone(line: CacheLine, fault: Option<IdFault>) -> TraceStop
    ensures { (config : Sizes) (stores : StoreListing) (whole : List Resolved)
        → IsStopAmong config stores whole fault result }
{
    match fault {
        Some(fault) => TraceStop::Ids(fault),
        None => TraceStop::Undone(line),
    }
}
