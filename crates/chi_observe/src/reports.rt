//! The report on a trace.

ghost use Rattle.std.specs.Prelude.{◌≡◌, ◌++◌, ◌-◌, IfOk, OnOk, string_bytes};
ghost use Rattle.chi_observe.specs.Pending.{is_open};
ghost use Rattle.chi_observe.specs.Reports.{BeginsWith, IsOutcomeOf, IsReportText, ended_outcome, is_nothing_seen, nothing_text, numbered, unjudged_outcome};
ghost use Rattle.chi_observe.specs.Told.{IsAcceptedText, IsUnjudgedText, is_nothing_judged, is_unjudged, rest_text};
ghost use Rattle.chi_observe.specs.Watched.{watched};

use crate::beginnings::write_unknown;
use crate::malformed::malformed_text;
use crate::names::{LineName, NodeName, SeenName, joined, requester_of};
use crate::seen::event_of;
use crate::stream::{Notes, TextStop};
use crate::told::{ranked, write_cut, write_judged, write_unjudged};
use crate::watch::{Counts, Watch, WatchFault};
use chi_trace::{AnySeen, TraceFault};
use std::alloc::{AllocError, Allocator};
use std::fmt::Write;

/// What a trace has to be, beside legal.
/// Source: `docs/OBSERVER.md`, "What is printed".
#[derive(Clone, Copy, Debug, PartialEq, Eq)]
pub struct Demands {
    /// Nothing is open at its end.
    pub complete: bool,
    /// Each flit, load and store of it is judged.
    pub judged: bool,
}

/// What came of a trace.
/// Source: `docs/OBSERVER.md`, "What is printed".
#[derive(Clone, Copy, Debug, PartialEq, Eq)]
pub enum ObserveOutcome {
    /// Every flit is taken, and each was judged, or needn't be.
    Accepted(Counts),
    /// So too, and something is open at the end of a trace that is to be complete.
    Incomplete(Counts),
    /// No flit is a fault, and some weren't judged that were to be.
    Partly(Counts),
    /// No flit, load or store was judged, and all were to be.
    Unjudged(Counts),
    /// The trace has no flit, load or store.
    Nothing,
    /// The flit of the line with this number is the first that isn't taken.
    Faulty(usize),
    /// The first line that is none of a trace.
    Malformed(TraceFault),
}

/// What came of a trace, and what is told of it.
/// Source: `docs/OBSERVER.md`, "What is printed".
#[derive(Drop)]
pub struct ObserveReport<A: Allocator> {
    pub outcome: ObserveOutcome,
    /// Lines for standard output; of a malformed trace one line, without its end, for standard error.
    pub text: String<A>,
}

/// Whether neither a flit nor a load or a store was seen.
fn is_nothing_seen(counts: Counts) -> bool
    ensures { result ≡ is_nothing_seen counts }
{
    counts.flits == 0 && counts.accesses == 0
}

impl Counts {
    /// Flits of which an observer was told.
    pub(crate) fn judged(self) -> u64
        ensures { result ≡ self.flits - self.unjudged }
    {
        self.flits.saturating_sub(self.unjudged)
    }

    /// Loads and stores of which one was.
    pub(crate) fn judged_accesses(self) -> u64
        ensures { result ≡ self.accesses - self.unseen }
    {
        self.accesses.saturating_sub(self.unseen)
    }

    /// Whether something isn't judged.
    pub(crate) fn is_unjudged(self) -> bool
        ensures { result ≡ is_unjudged self }
    {
        self.unjudged != 0 || (self.unseen != 0 || self.cut.is_some())
    }

    /// Whether nothing is.
    fn is_nothing_judged(self) -> bool
        ensures { result ≡ is_nothing_judged self }
    {
        self.judged() == 0 && self.judged_accesses() == 0
    }
}

/// What comes of a trace whose flits are all taken, and of which something was seen that isn't judged.
fn unjudged_outcome(counts: Counts) -> ObserveOutcome
    ensures { result ≡ unjudged_outcome counts }
{
    if counts.is_nothing_judged() {
        ObserveOutcome::Unjudged(counts)
    } else {
        ObserveOutcome::Partly(counts)
    }
}

/// What comes of a trace whose flits are all taken.
fn ended_outcome(demands: Demands, is_open: bool, counts: Counts) -> ObserveOutcome
    ensures { result ≡ ended_outcome demands is_open counts }
{
    if is_nothing_seen(counts) {
        return ObserveOutcome::Nothing;
    }
    if demands.judged && counts.is_unjudged() {
        return unjudged_outcome(counts);
    }
    if demands.complete && is_open {
        ObserveOutcome::Incomplete(counts)
    } else {
        ObserveOutcome::Accepted(counts)
    }
}

/// What is told of a trace without a flit, of which a last line may be cut.
fn nothing_text<A: Allocator>(alloc: A, counts: Counts) -> Result<String<A>, AllocError>
    ensures { IfOk result (λ text. string_bytes text ≡ nothing_text counts) }
{
    let mut text = String::new(alloc);
    write_cut(&mut text, counts.cut)?;
    writeln!(text, "no flit, load or store is in the trace")?;
    Ok(text)
}

/// How the line on a flit that isn't taken begins.
fn numbered<A: Allocator>(alloc: A, number: usize) -> Result<String<A>, AllocError>
    ensures { IfOk result (λ text. string_bytes text ≡ numbered number) }
{
    let mut text = String::new(alloc);
    write!(text, "line {number}: ")?;
    Ok(text)
}

impl<A: Allocator + Copy> Watch<A> {
    /// What is told of a trace whose flits are all taken.
    fn accepted_text(&self, alloc: A) -> Result<String<A>, AllocError>
        ensures { IfOk result (λ text. IsAcceptedText (watched self.now) (string_bytes text)) }
    {
        let rows = ranked(alloc, &self.causes)?;
        let unknown = self.unknown_lines();
        let mut text = String::new(alloc);
        let (home, listing) = (self.options.is_at_home(), self.options.form.listing);
        write_judged(&mut text, home, listing, self.counts, &rows)?;
        self.write_rest(&mut text, unknown)?;
        Ok(text)
    }

    /// Puts behind the text why lines are set aside, on how many a copy isn't known, and what is open.
    fn write_rest(&self, text: &mut String<A>, unknown: usize) -> Result<(), AllocError>
        ensures { OnOk result (string_bytes text.new
            ≡ string_bytes text.old ++ rest_text (watched self.now) unknown) }
    {
        self.write_late(text)?;
        write_unknown(text, self.options, unknown)?;
        self.write_open(text)
    }

    /// What is told of flits, loads and stores that aren't judged; empty where each is.
    pub(crate) fn unjudged_text(&self, alloc: A) -> Result<String<A>, AllocError>
        ensures { IfOk result (λ text. IsUnjudgedText (watched self.now) (string_bytes text)) }
    {
        let rows = ranked(alloc, &self.causes)?;
        let mut text = String::new(alloc);
        write_unjudged(&mut text, self.options.is_at_home(), self.counts, &rows)?;
        Ok(text)
    }

    /// What is told of a flit that isn't taken.
    fn faulty_text(
        &self,
        alloc: A,
        seen: &AnySeen,
        fault: WatchFault,
        notes: &Notes<A>,
    ) -> Result<String<A>, AllocError>
        ensures { IfOk result
            (λ text. BeginsWith (numbered seen.now.line) (string_bytes text)) }
    {
        let front = numbered(alloc, seen.line)?;
        let mut rest = String::new(alloc);
        self.write_untaken(&mut rest, seen, fault)?;
        writeln!(rest, "")?;
        let line = self.place_of(&event_of(seen));
        write_recent(&mut rest, notes.recent.of(line))?;
        joined(front, &rest)
    }

    /// Puts a flit, its line and why it isn't taken behind the text.
    pub(crate) fn write_untaken(
        &self,
        text: &mut String<A>,
        seen: &AnySeen,
        fault: WatchFault,
    ) -> Result<(), AllocError> {
        let event = event_of(seen);
        let (node, side) = requester_of(seen);
        let (name, node) = (SeenName(seen), NodeName(node));
        write!(text, "{name} {side} node {node}")?;
        if let Some(line) = self.place_of(&event) {
            let line = LineName(line);
            write!(text, " at {line}")?;
        }
        write!(text, ": ")?;
        self.write_fault(text, &event, fault)
    }

    /// What is told of a trace whose flits are all taken, and of which this came.
    fn outcome_text(&self, alloc: A, outcome: ObserveOutcome) -> Result<String<A>, AllocError>
        ensures { IfOk result (λ text. IsReportText (watched self.now) outcome (string_bytes text)) }
    {
        match outcome {
            ObserveOutcome::Accepted(_)
            | ObserveOutcome::Incomplete(_)
            | ObserveOutcome::Partly(_)
            | ObserveOutcome::Unjudged(_) => self.accepted_text(alloc),
            ObserveOutcome::Nothing => nothing_text(alloc, self.counts),
            ObserveOutcome::Faulty(_) | ObserveOutcome::Malformed(_) => Err(AllocError),
        }
    }

    /// The report on a trace whose flits are all taken, or that stopped so.
    pub(crate) fn report(
        &self,
        alloc: A,
        demands: Demands,
        stop: &Option<TextStop>,
        notes: &Notes<A>,
    ) -> Result<ObserveReport<A>, AllocError>
        ensures outcome { IfOk result
            (λ report. IsOutcomeOf demands (watched self.now) stop.now report.outcome) }
        ensures text { IfOk result
            (λ report. IsReportText (watched self.now) report.outcome (string_bytes report.text)) }
    {
        match stop {
            None => {
                let outcome = ended_outcome(demands, self.is_open(), self.counts);
                let text = self.outcome_text(alloc, outcome)?;
                Ok(ObserveReport { outcome, text })
            }
            Some(TextStop::Malformed(fault)) => {
                let text = malformed_text(alloc, self.options.form, *fault, &notes.wrong)?;
                let outcome = ObserveOutcome::Malformed(*fault);
                Ok(ObserveReport { outcome, text })
            }
            Some(TextStop::Untaken(seen, fault)) => {
                let text = self.faulty_text(alloc, seen, *fault, notes)?;
                let outcome = ObserveOutcome::Faulty(seen.line);
                Ok(ObserveReport { outcome, text })
            }
            Some(TextStop::NoMemory) => Err(AllocError),
        }
    }
}

/// Puts a line for each of these flits behind the text.
fn write_recent<A: Allocator>(text: &mut String<A>, flits: &[AnySeen]) -> Result<(), AllocError> {
    for seen in flits {
        let (node, side) = requester_of(seen);
        let (name, node, number) = (SeenName(seen), NodeName(node), seen.line);
        writeln!(text, "before: line {number}: {name} {side} node {node}")?;
    }
    Ok(())
}
