//! A monitor of the lines of a node.
//! Whether a flit is taken isn't trusted: what is kept is explained by chi_explain.

ghost use Rattle.std.specs.Prelude.{◌≡◌, IfOk, replicate, slice_get};
ghost use Rattle.chi_monitor.specs.Watched.{IsObserved, IsToldAt, flit_refusal, next_number, open_flits_at, opening_monitor, judging_refusal, unwatched_line};

use crate::explained::NoExplanation;
use crate::faults::LineFault;
use crate::line_monitor::LineMonitor;
use crate::open_flits::OpenFlits;
use chi_explain::SentFlit;
use chi_flit::{Line, NoMemory};
use chi_slice::Config;
use std::alloc::Allocator;
use std::marker::Model;

/// The first flit that no run of the model sends.
/// Source: `docs/TRACES.md`, "A monitor".
#[derive(Clone, Copy, Debug, PartialEq, Eq)]
pub struct FirstFault {
    pub line: Line,
    pub flit: SentFlit,
    /// How many flits were taken before it, of all lines.
    pub number: u64,
    pub reason: LineFault,
}

/// Why a flit wasn't taken.
/// Source: `docs/TRACES.md`, "A monitor".
#[derive(Clone, Copy, Debug, PartialEq, Eq)]
pub enum NotTaken {
    /// The agent or the line is outside the node.
    OutOfRange,
    /// It is the first fault, for this reason, or stands behind it.
    Faulty(LineFault),
    /// As many flits of the line are kept as there is room for.
    Full,
}

/// Why a line's flits aren't explained.
/// Source: `docs/TRACES.md`, "A monitor".
#[derive(Clone, Copy, Debug, PartialEq, Eq)]
pub enum NotExplained {
    /// The line is outside the node.
    OutOfRange,
    /// No flits are kept.
    NotKept,
    /// There is no explanation, or none was found.
    Not(NoExplanation),
}

/// A monitor of the lines of a node, which takes one flit after the other as long as a run of the model sends them.
/// Contracts see it as a `MonitorState`.
/// Source: `docs/TRACES.md`, "A monitor".
#[derive(Drop)]
pub struct Monitor<A: Allocator> {
    config: Config,
    lines: Vec<LineMonitor<A>, A>,
    taken: u64,
    fault: Option<FirstFault>,
}

impl<A: Allocator> Model for Monitor<A> {
    ghost use Rattle.chi_monitor.specs.Watched.{MonitorState};

    ghost Value = { MonitorState };

    ghost view = { λ m. record { config = m.config; lines = m.lines.items; taken = m.taken; fault = m.fault } };
}

impl<A: Allocator + Copy> Monitor<A> {
    /// A monitor of so many lines, which keeps so many flits of each; none where that is 0. What it keeps is to be
    /// explained by runs of a node of this size. Refused where memory runs out.
    /// Source: `docs/TRACES.md`, "A monitor".
    pub fn new(alloc: A, config: &Config, lines: u8, room: usize) -> Result<Monitor<A>, NoMemory>
        ensures { IfOk result (λ monitor. monitor ≡ opening_monitor config.now lines room) }
    {
        let lines = unwatched_lines(alloc, config, lines, room)?;
        Ok(Monitor {
            config: *config,
            lines,
            taken: 0,
            fault: None,
        })
    }
}

impl<A: Allocator> Monitor<A> {
    /// Takes the next flit of a line, where a run of the model sends it behind those before.
    ///
    /// Refused as OutOfRange, where nothing changes; as Faulty at the first flit that no run sends, or where memory
    /// ran out, which is kept as the first fault, and at each flit behind it, where nothing changes; as Full, where
    /// nothing changes. That no run sends it is what the rules of "Rules" say; no contract does.
    /// Source: `docs/TRACES.md`, "A monitor".
    pub fn observe(&mut self, line: Line, flit: &SentFlit) -> Result<(), NotTaken>
        ensures { IsObserved (flit_refusal self.old flit.now.agent.0 line.0)
            self.old line.0 flit.now result self.new }
    {
        if let Some(refusal) = self.refusal(line, flit) {
            return Err(refusal);
        }
        match self.lines[usize::from(line.0)].take(self.taken, flit) {
            Ok(()) => {
                self.taken = next_number(self.taken);
                Ok(())
            }
            Err(reason) => {
                self.fault = Some(FirstFault {
                    line,
                    flit: *flit,
                    number: self.taken,
                    reason,
                });
                Err(NotTaken::Faulty(reason))
            }
        }
    }

    /// Why a flit isn't looked at.
    fn refusal(&self, line: Line, flit: &SentFlit) -> Option<NotTaken>
        ensures { result ≡ flit_refusal self.now flit.now.agent.0 line.0 }
    {
        let inside = flit.agent.0 < self.config.agents();
        match self.lines.get(usize::from(line.0)) {
            Some(watched) => judging_refusal(watched, inside, &self.fault),
            None => Some(NotTaken::OutOfRange),
        }
    }

    /// The first flit that wasn't taken as a fault.
    /// Source: `docs/TRACES.md`, "A monitor".
    pub fn fault(&self) -> Option<FirstFault>
        ensures { result ≡ self.now.fault }
    {
        self.fault
    }

    /// What is open of each agent at a line; `None` where it is outside the node.
    /// Source: `docs/TRACES.md`, "A monitor".
    pub fn open_flits(&self, line: Line) -> Option<[OpenFlits; 8]>
        ensures { result ≡ open_flits_at self.now line.0 }
    {
        match self.lines.get(usize::from(line.0)) {
            Some(watched) => Some(watched.open_flits()),
            None => None,
        }
    }

    /// Explains the flits that were kept of a line: actions of a node of the monitor's size were found, and done, and
    /// send just these. Nothing changes.
    /// Source: `docs/TRACES.md`, "A monitor".
    pub fn explain<B: Allocator + Copy>(&self, alloc: B, line: Line) -> Result<(), NotExplained>
        ensures { IsToldAt (slice_get self.now.lines line.0) self.now.config result }
    {
        match self.lines.get(usize::from(line.0)) {
            Some(watched) => watched.explain(alloc, &self.config),
            None => Err(NotExplained::OutOfRange),
        }
    }
}

/// So many lines of which nothing was seen.
fn unwatched_lines<A: Allocator + Copy>(
    alloc: A,
    config: &Config,
    count: u8,
    room: usize,
) -> Result<Vec<LineMonitor<A>, A>, NoMemory>
    ensures { IfOk result (λ lines. lines.items ≡ replicate count (unwatched_line room)) }
{
    let mut lines = Vec::with_capacity(alloc, usize::from(count))?;
    for _ in 0..count {
        match LineMonitor::new(alloc, config, room) {
            Ok(line) => lines.push(line)?,
            Err(_) => return Err(NoMemory),
        }
    }
    Ok(lines)
}

/// Why a flit of an agent that is inside the node, or isn't, isn't looked at.
fn judging_refusal<A: Allocator>(
    watched: &LineMonitor<A>,
    inside: bool,
    fault: &Option<FirstFault>,
) -> Option<NotTaken>
    ensures { result ≡ judging_refusal watched.now inside fault.now }
{
    match (inside, fault) {
        (false, _) => Some(NotTaken::OutOfRange),
        (true, Some(first)) => Some(NotTaken::Faulty(first.reason)),
        (true, None) => {
            if watched.has_no_room() {
                Some(NotTaken::Full)
            } else {
                None
            }
        }
    }
}

/// The number of flits with one more; it stays at its greatest.
fn next_number(taken: u64) -> u64
    ensures { result ≡ next_number taken }
{
    if taken < u64::MAX { taken + 1 } else { taken }
}
