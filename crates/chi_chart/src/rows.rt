//! The rows of a chart: its commands, played one after the other.

use crate::headings::LeftLines;
use crate::marks::{Mark, marks_between};
use chi_flit::{Line, NoMemory};
use chi_node::System;
use chi_replay::{Reply, answer};
use chi_script::{Check, Command};
use chi_slice::{Config, LineView};
use std::alloc::Allocator;

/// Which of the commands of a file a chart shows: those from the first to the last, counted from 1, and of these the ones
/// that name this line, or none, where one is given.
/// Source: `docs/FORMATS.md`, "Charts".
#[derive(Clone, Copy, Debug, PartialEq, Eq)]
pub struct ChartPart {
    /// The line alone that is shown; all where there is none.
    pub line: Option<Line>,
    /// The number of the first command that is shown, counted from 1.
    pub first: u64,
    /// The number of the last.
    pub last: u64,
}

/// A command, the line that a replay prints for it, and what it changed. Places are in pixels from the top.
#[derive(Drop)]
pub(crate) struct CommandRow<A: Allocator> {
    /// The number of the command, counted from 1.
    pub(crate) number: u64,
    /// Where it begins, with the names and the headings above the command.
    pub(crate) start: u32,
    /// Whether the names of the home and the agents are repeated.
    pub(crate) names: bool,
    /// The comments before the command.
    pub(crate) headings: Vec<Vec<u8, A>, A>,
    /// Where its command begins.
    pub(crate) y: u32,
    pub(crate) command: Command,
    pub(crate) reply: Reply,
    /// The line of the reply, with its end.
    pub(crate) answer: String<A>,
    /// The wanted answer, where it is another.
    pub(crate) wanted: Option<Vec<u8, A>>,
    pub(crate) marks: Vec<Mark, A>,
}

/// Where the next command stands.
#[derive(Clone, Copy)]
pub(crate) struct RowPlace {
    /// Its number, counted from 1.
    pub(crate) number: u64,
    /// How many rows are above its own.
    pub(crate) drawn: u64,
    /// Where its row begins.
    pub(crate) y: u32,
}

/// The rows, and where the next one stands.
#[derive(Drop)]
pub(crate) struct Rows<A: Allocator> {
    pub(crate) rows: Vec<CommandRow<A>, A>,
    pub(crate) place: RowPlace,
}

/// So much lower. Refused where no number says it.
pub(crate) fn lower(y: u32, by: u32) -> Result<u32, NoMemory> {
    y.checked_add(by).ok_or(NoMemory)
}

/// Where the next band of a row begins, behind a mark.
pub(crate) fn below_mark(y: u32, mark: &Mark) -> Result<u32, NoMemory> {
    match mark {
        Mark::Sent(..) => lower(y, 16),
        Mark::Turned(..) | Mark::Taken(_) | Mark::Serves(..) => Ok(y),
    }
}

/// How high the names are, where they are repeated.
pub(crate) fn names_height(names: bool) -> u32 {
    if names { 24 } else { 0 }
}

/// Where a command begins, below the names and so many headings.
pub(crate) fn below_headings(y: u32, names: bool, count: usize) -> Result<u32, NoMemory> {
    let names = lower(y, names_height(names))?;
    let high = count.checked_mul(18).ok_or(NoMemory)?;
    match u32::try_from(high) {
        Ok(high) => lower(names, high),
        Err(_) => Err(NoMemory),
    }
}

/// Where they begin behind all marks.
pub(crate) fn below_marks(y: u32, marks: &[Mark]) -> Result<u32, NoMemory> {
    let mut low = y;
    for mark in marks {
        low = below_mark(low, mark)?;
    }
    Ok(low)
}

/// The line that a command names.
pub(crate) fn line_of(command: Command) -> Option<Line> {
    match command {
        Command::Show { line } | Command::Flits { line, .. } | Command::Arrive { line, .. } => {
            Some(line)
        }
        Command::Act(action) => Some(action.action().line),
        Command::Totals
        | Command::Audit
        | Command::See { .. }
        | Command::GiveBack { .. }
        | Command::Tend { .. } => None,
    }
}

/// Whether a command that names this line, or none, is shown where one line alone may be wanted.
fn is_line(only: Option<Line>, named: Option<Line>) -> bool {
    match (only, named) {
        (Some(only), Some(line)) => only.0 == line.0,
        _ => true,
    }
}

impl ChartPart {
    /// Whether the command of this number, which names this line, or none, is shown.
    fn has(&self, number: u64, named: Option<Line>) -> bool {
        is_line(self.line, named) && number >= self.first && number <= self.last
    }
}

/// An answer without its line end.
pub(crate) fn said_in(answer: &[u8]) -> &[u8] {
    &answer[..answer.len().saturating_sub(1)]
}

/// The wanted answer, where it is another. Refused where memory runs out.
fn other_wanted<A: Allocator>(
    alloc: A,
    wanted: Option<&[u8]>,
    answer: &[u8],
) -> Result<Option<Vec<u8, A>>, NoMemory> {
    let Some(wanted) = wanted else {
        return Ok(None);
    };
    if said_in(answer) == wanted {
        return Ok(None);
    }
    let mut other = Vec::new(alloc);
    other.extend_from_slice(wanted)?;
    Ok(Some(other))
}

/// The line as it is shown, where there is one of that number.
fn seen_line<A: Allocator>(system: &System<A>, line: Option<Line>) -> Option<LineView> {
    match system.view(line?) {
        Ok(view) => Some(view),
        Err(_) => None,
    }
}

impl RowPlace {
    /// Whether the names are repeated above the row.
    fn is_repeated(self) -> bool {
        self.drawn != 0 && self.drawn % 40 == 0
    }
}

/// Plays a command with these headings, and answers its row at this place.
fn play<A: Allocator, B: Allocator + Copy>(
    alloc: B,
    system: &mut System<A>,
    check: &Check,
    place: RowPlace,
    headings: Vec<Vec<u8, B>, B>,
) -> Result<CommandRow<B>, NoMemory> {
    let line = line_of(check.command);
    let before = seen_line(system, line);
    let reply = answer(system, check.command);
    let mut text = String::new(alloc);
    reply.print(system, &mut text)?;
    let after = seen_line(system, line);
    let marks = marks_between(alloc, line, &before, &after)?;
    let wanted = other_wanted(alloc, check.wanted, text.as_bytes())?;
    let names = place.is_repeated();
    let y = below_headings(place.y, names, headings.len())?;
    Ok(CommandRow {
        number: place.number,
        start: place.y,
        names,
        headings,
        y,
        command: check.command,
        reply,
        answer: text,
        wanted,
        marks,
    })
}

/// Where what tells the wanted answer ends, where it is told.
fn below_wanted<A: Allocator>(y: u32, wanted: &Option<Vec<u8, A>>) -> Result<u32, NoMemory> {
    match wanted {
        None => Ok(y),
        Some(_) => lower(y, 16),
    }
}

/// Where the next row begins.
fn below_row<A: Allocator>(row: &CommandRow<A>) -> Result<u32, NoMemory> {
    let band = lower(below_marks(row.y, &row.marks)?, 20)?;
    below_wanted(band, &row.wanted)
}

/// One more. Refused where no number says it.
fn next(number: u64) -> Result<u64, NoMemory> {
    number.checked_add(1).ok_or(NoMemory)
}

impl<A: Allocator> Rows<A> {
    /// Puts a row behind the others, where it is shown.
    fn add(&mut self, shown: bool, row: CommandRow<A>) -> Result<(), NoMemory> {
        self.place.number = next(self.place.number)?;
        if shown {
            self.place.drawn = next(self.place.drawn)?;
            self.place.y = below_row(&row)?;
            self.rows.push(row)?;
        }
        Ok(())
    }
}

/// Plays the commands on a new node of that size, and answers the rows of the part that is shown, the first at the top;
/// their headings are found in the lines that are left. Refused where memory runs out, or the rows are higher than a
/// number of 32 bits.
/// Source: `docs/FORMATS.md`, "Charts".
pub(crate) fn rows_of<A: Allocator + Copy>(
    alloc: A,
    config: &Config,
    checks: &[Check],
    part: &ChartPart,
    lines: &[u8],
    top: u32,
) -> Result<Rows<A>, NoMemory> {
    let mut system = System::new(alloc, config)?;
    let mut left = LeftLines { bytes: lines };
    let mut rows = Rows {
        rows: Vec::new(alloc),
        place: RowPlace {
            number: 1,
            drawn: 0,
            y: top,
        },
    };
    for check in checks {
        let headings = left.headings(alloc)?;
        let shown = part.has(rows.place.number, line_of(check.command));
        let row = play(alloc, &mut system, check, rows.place, headings)?;
        rows.add(shown, row)?;
    }
    Ok(rows)
}
