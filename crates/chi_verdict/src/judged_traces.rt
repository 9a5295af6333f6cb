//! What is told of a trace that was judged.

ghost use Rattle.std.specs.Prelude.{◌≡◌, IfOk, string_bytes};
ghost use Rattle.chi_verdict.specs.Ending.{explained_outcome, trace_outcome_of, whole_outcome};
ghost use Rattle.chi_verdict.specs.Outstanding.{outstanding_in};
ghost use Rattle.chi_verdict.specs.Texts.{BeginsWith, IfWhole, IsExplainedText, IsOutcomeText, explained_text, stop_front};

use crate::asked::{Asked, Ending};
use crate::check_files::Told;
use crate::lines::said_by;
use crate::names::{joined, kept};
use crate::open_texts::write_open;
use crate::outcome_texts::{cut_comment, nothing_text, stop_front, write_cut, write_explained};
use crate::reports::{TraceOutcome, TraceReport, TraceStop, TraceTotals};
use chi_explain::StoreListing;
use chi_flit::{NoMemory, Profile};
use chi_monitor::explain_flits;
use chi_resolution::{CacheLine, Resolution, Resolved, line_of};
use chi_slice::Config;
use chi_trace::{Address, Seen};
use std::alloc::Allocator;
use std::fmt::Write;

/// What is told of a trace each of whose lines is explained, of which all was read that is to be.
fn whole_outcome(ending: Ending, is_open: bool, totals: TraceTotals) -> TraceOutcome
    ensures { result ≡ whole_outcome ending is_open totals }
{
    match (ending, is_open) {
        (Ending::Complete, true) => TraceOutcome::Incomplete(totals),
        (Ending::Any, _) | (Ending::Complete, false) => TraceOutcome::Explained(totals),
    }
}

/// What is told of a trace each of whose lines is explained.
fn explained_outcome(
    asked: Asked,
    is_open: bool,
    nothing: bool,
    totals: TraceTotals,
) -> TraceOutcome
    ensures { result ≡ explained_outcome asked is_open nothing totals }
{
    if nothing {
        return TraceOutcome::Nothing;
    }
    if asked.judged && totals.cut.is_some() {
        TraceOutcome::Partly(totals)
    } else {
        whole_outcome(asked.ending, is_open, totals)
    }
}

/// A trace that was resolved, and judged: the items ascend by line where one isn't explained, or is asked for.
#[derive(Drop)]
pub(crate) struct JudgedTrace<'a, A: Allocator> {
    pub(crate) seen: &'a [Seen],
    /// The number of a last line that isn't read.
    pub(crate) cut: Option<usize>,
    pub(crate) profile: Profile,
    pub(crate) stores: StoreListing,
    pub(crate) config: Config,
    pub(crate) resolution: &'a Resolution<A>,
}

impl<A: Allocator + Copy> JudgedTrace<'_, A> {
    /// The report on a trace that was judged so, by whether anything is open and nothing was seen.
    pub(crate) fn report(
        &self,
        alloc: A,
        judged: Result<TraceTotals, TraceStop>,
        asked: Asked,
        is_open: bool,
        nothing: bool,
    ) -> Result<TraceReport<A>, NoMemory>
        ensures outcome { IfOk result (λ report.
            report.outcome ≡ trace_outcome_of asked is_open nothing judged) }
        ensures text { IfOk result (λ report. IsOutcomeText self.now.seen.now self.now.cut
            (outstanding_in self.now.resolution.now) asked.only report.outcome (string_bytes report.text)) }
    {
        let outcome = match judged {
            Ok(totals) => explained_outcome(asked, is_open, nothing, totals),
            Err(stop) => TraceOutcome::Faulty(stop),
        };
        let text = self.outcome_text(alloc, &outcome, asked.only)?;
        Ok(TraceReport { outcome, text })
    }

    /// What is told of a trace of which this came.
    fn outcome_text(
        &self,
        alloc: A,
        outcome: &TraceOutcome,
        only: Option<Address>,
    ) -> Result<String<A>, NoMemory>
        ensures { IfOk result (λ text. IsOutcomeText self.now.seen.now self.now.cut
            (outstanding_in self.now.resolution.now) only outcome.now (string_bytes text)) }
    {
        match outcome {
            TraceOutcome::Explained(totals) => self.told_text(alloc, *totals, only),
            TraceOutcome::Incomplete(totals) => self.told_text(alloc, *totals, only),
            TraceOutcome::Partly(totals) => self.told_text(alloc, *totals, only),
            TraceOutcome::Nothing => nothing_text(alloc, self.cut, only),
            TraceOutcome::Faulty(stop) => self.faulty_text(alloc, stop, only),
            TraceOutcome::Malformed(_) => Err(NoMemory),
        }
    }

    /// What is told where all is explained: what isn't read, and totals and what is open, or the check file of one line.
    fn told_text(
        &self,
        alloc: A,
        totals: TraceTotals,
        only: Option<Address>,
    ) -> Result<String<A>, NoMemory>
        ensures { IfOk result (λ text. IsExplainedText only totals
            (outstanding_in self.now.resolution.now) (string_bytes text)) }
    {
        match only {
            Some(address) => {
                let front = cut_comment(alloc, totals.cut)?;
                let rest = self.line_text(alloc, line_of(address), usize::MAX)?;
                joined(front, &rest)
            }
            None => self.explained_text(alloc, totals),
        }
    }

    /// What isn't read, how much is explained, and what is open.
    fn explained_text(&self, alloc: A, totals: TraceTotals) -> Result<String<A>, NoMemory>
        ensures { IfOk result (λ text. string_bytes text
            ≡ explained_text totals (outstanding_in self.now.resolution.now)) }
    {
        let mut text = String::new(alloc);
        write_cut(&mut text, totals.cut)?;
        write_explained(&mut text, totals)?;
        write_open(&mut text, self.resolution)?;
        Ok(text)
    }

    /// What is told where something isn't explained: the line on it, behind the check file of one line up to it where
    /// one is asked for.
    fn faulty_text(
        &self,
        alloc: A,
        stop: &TraceStop,
        only: Option<Address>,
    ) -> Result<String<A>, NoMemory>
        ensures { IfOk result (λ text. IfWhole only
            (BeginsWith (stop_front self.now.seen.now stop.now) (string_bytes text))) }
    {
        let told = self.stop_text(alloc, stop)?;
        match only {
            Some(address) => {
                let mut text = self.line_text(alloc, line_of(address), stop.place())?;
                text.push_str("# ")?;
                joined(text, &told)
            }
            None => Ok(told),
        }
    }

    /// The line of text on what isn't explained.
    fn stop_text(&self, alloc: A, stop: &TraceStop) -> Result<String<A>, NoMemory>
        ensures { IfOk result (λ text. BeginsWith
            (stop_front self.now.seen.now stop.now) (string_bytes text)) }
    {
        let front = stop_front(alloc, self.seen, stop)?;
        let mut rest = String::new(alloc);
        self.write_stop(alloc, &mut rest, stop)?;
        joined(front, &rest)
    }

    /// The items of a line before this place of the trace.
    fn items_of(&self, line: CacheLine, before: usize) -> &[Resolved] {
        let items = self.resolution.flits.as_slice();
        let start = items
            .iter()
            .position(|item| item.line == line)
            .unwrap_or(items.len());
        let rest = if start <= items.len() {
            &items[start..]
        } else {
            &[]
        };
        let count = rest
            .iter()
            .position(|item| item.line != line || item.at >= before)
            .unwrap_or(rest.len());
        if count <= rest.len() {
            &rest[..count]
        } else {
            rest
        }
    }

    /// The check file of a line, up to this place of the trace.
    fn line_text(&self, alloc: A, line: CacheLine, before: usize) -> Result<String<A>, NoMemory> {
        let mut text = String::new(alloc);
        let items = self.items_of(line, before);
        let told = Told {
            seen: self.seen,
            requesters: &self.resolution.nodes.requesters,
            home: self.resolution.nodes.home,
            profile: self.profile,
            line,
            items,
        };
        let seen = said_by(alloc, items)?;
        match explain_flits(alloc, &self.config, self.stores, &seen) {
            Ok(witness) => told.write(&mut text, &witness)?,
            Err(_) => kept(writeln!(text, "# no explanation was found"))?,
        }
        Ok(text)
    }
}
