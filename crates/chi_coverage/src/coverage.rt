//! What files cover, and what is told of it.

use crate::forms::{CoverForm, CoverShape, text_of};
use crate::past::Past;
use crate::steps::{Step, named_by, scene_of};
use crate::tally::Tally;
use chi_flit::{Line, NoMemory};
use chi_node::System;
use chi_replay::{FaultWords, SuiteFile, answer};
use chi_script::{Command, FILLER_BEGINS, FILLER_ENDS, Fault, hint_at, is, number, read_checks};
use std::alloc::{AllocError, Allocator};
use std::fmt::Write;

/// What came of the coverage of files, or of earlier reports.
/// Source: `docs/FORMATS.md`, "Coverage".
#[derive(Drop)]
pub struct CoverReport<A: Allocator> {
    /// What is printed.
    pub text: Vec<u8, A>,
    /// A line for each file that is faulty, or no report, or couldn't be read, for standard error; and whether there is one.
    pub faults: String<A>,
    pub faulty: bool,
    /// The first fault of a file of commands.
    pub fault: Option<Fault>,
    /// How many cells were reached, of those that a run may reach.
    pub reached: usize,
}

/// Plays the commands of each of the files, in their order, each file on a new node, and counts the cells of the protocol's
/// tables that each step is in: a faulty file hinders no other. The shape says in which form the cells are written, each with
/// how often it was done, and whether those alone that no step is in.
///
/// Refused where memory runs out, and nothing is told then.
/// Source: `docs/FORMATS.md`, "Coverage".
pub fn cover<A: Allocator + Copy>(
    alloc: A,
    files: &[SuiteFile],
    shape: CoverShape,
) -> Result<CoverReport<A>, NoMemory> {
    let (mut tally, mut faults) = (Tally::new(alloc)?, String::new(alloc));
    let mut fault = None;
    for file in files {
        if let Err(found) = count_file(alloc, file, &mut tally) {
            tell_fault(alloc, file, found, &mut faults)?;
            fault = fault.or(Some(found));
        }
    }
    report_on(&tally, faults, fault, shape)
}

/// Adds up the counts of earlier reports on all cells, in any form, and writes them as the shape says. A file that is no
/// such report hinders no other.
///
/// Refused where memory runs out, or where a sum is above 18446744073709551615, and nothing is told then.
/// Source: `docs/FORMATS.md`, "Coverage".
pub fn merge<A: Allocator + Copy>(
    alloc: A,
    files: &[SuiteFile],
    shape: CoverShape,
) -> Result<CoverReport<A>, NoMemory> {
    let (mut tally, mut faults) = (Tally::new(alloc)?, String::new(alloc));
    for file in files {
        let name = file.name;
        match file.bytes {
            Some(bytes) if add_report(alloc, bytes, &mut tally)? => Ok(()),
            Some(_) => writeln!(faults, "chihome: {name}: no report of all cells"),
            None => writeln!(faults, "chihome: {name}: cannot read"),
        }
        .map_err(|_| NoMemory)?;
    }
    report_on(&tally, faults, None, shape)
}

/// The report on the counts. Refused where memory runs out.
fn report_on<A: Allocator + Copy>(
    tally: &Tally<A>,
    faults: String<A>,
    fault: Option<Fault>,
    shape: CoverShape,
) -> Result<CoverReport<A>, NoMemory> {
    let text = text_of(tally, shape)?;
    let (_, reached) = tally.reachable();
    let faulty = !faults.is_empty();
    Ok(CoverReport {
        text,
        faults,
        faulty,
        fault,
        reached,
    })
}

/// Puts the line of a faulty file behind the others. Refused where memory runs out, or ran out before.
fn tell_fault<A: Allocator + Copy>(
    alloc: A,
    file: &SuiteFile,
    fault: Fault,
    faults: &mut String<A>,
) -> Result<(), NoMemory> {
    if fault == Fault::NoMemory {
        return Err(NoMemory);
    }
    let (name, words) = (file.name, FaultWords(fault));
    let hint = match file.bytes {
        Some(bytes) => hint_at(alloc, bytes, fault)?,
        None => String::new(alloc),
    };
    writeln!(faults, "chihome: {name}: {words}{hint}").map_err(|_| NoMemory)
}

/// Plays the commands of a file on a new node, and counts the cells of each step that is no filler; else its first fault,
/// and nothing is counted, or want of memory.
fn count_file<A: Allocator + Copy>(
    alloc: A,
    file: &SuiteFile,
    tally: &mut Tally<A>,
) -> Result<(), Fault> {
    let bytes = file.bytes.ok_or(Fault::Read)?;
    let script = read_checks(alloc, bytes)?;
    let fillers = filler_lines(alloc, bytes)?;
    let mut system = System::new(alloc, &script.header)?;
    let mut past = Past::new();
    for check in &script.checks {
        let filler = fillers.get(check.line) == Some(&true);
        count_command(&mut system, &check.command, filler, &mut past, tally)?;
    }
    Ok(())
}

/// Of each line of a check file, from a line 0 on, whether a command there is filler. Refused where memory runs out.
fn filler_lines<A: Allocator>(alloc: A, bytes: &[u8]) -> Result<Vec<bool, A>, AllocError> {
    let mut fillers = vec![in alloc; false]?;
    let mut filler = false;
    for line in bytes.split(|byte| *byte == b'\n') {
        filler = is(line, FILLER_BEGINS) || (filler && !is(line, FILLER_ENDS));
        fillers.push(filler)?;
    }
    Ok(fillers)
}

/// Plays a command, and counts the cells of its step, where it is no filler. Refused where memory runs out.
fn count_command<A: Allocator + Copy>(
    system: &mut System<A>,
    command: &Command,
    filler: bool,
    past: &mut Past,
    tally: &mut Tally<A>,
) -> Result<(), NoMemory> {
    let (agent, line) = named_by(*command);
    let is_there = line.0 < system.config().lines();
    let place = if is_there { line } else { Line(0) };
    let before = system.view(place);
    let reply = answer(system, *command);
    let (Ok(before), Ok(after)) = (before, system.view(place)) else {
        return Ok(());
    };
    let (config, journal) = (system.config(), system.slice_of(place).journal());
    let mut slices = 0..config.slices();
    let step = Step {
        config,
        command: *command,
        reply: &reply,
        agent,
        line,
        scene: scene_of(&before, agent),
        after: &after,
        is_full: journal.is_full(),
        has_store: journal.stores() > 0,
        has_room: slices.any(|slice| !system.slice_of(Line(slice)).journal().is_full()),
    };
    match reply.refusal() {
        _ if filler => {}
        Some(refusal) => tally.count_refused(&step, past, refusal)?,
        None => tally.count_done(&step, past)?,
    }
    past.follow(&step);
    Ok(())
}

/// Adds the counts of a report on all cells, where the bytes are one; they are none where its counts give another text.
/// Refused where memory runs out, or a sum is too large.
fn add_report<A: Allocator + Copy>(
    alloc: A,
    bytes: &[u8],
    tally: &mut Tally<A>,
) -> Result<bool, NoMemory> {
    let form = match bytes {
        [b'{', ..] => CoverForm::Json,
        [b's', ..] => CoverForm::Tsv,
        _ => CoverForm::Lines,
    };
    let mut report = Tally::new(alloc)?;
    read_counts(&mut report, form, bytes);
    let only_missing = false;
    let shape = CoverShape { form, only_missing };
    if text_of(&report, shape)?.as_slice() != bytes {
        return Ok(false);
    }
    for (text, cell) in report.cells.iter() {
        tally.add(text.as_str(), cell.count.unwrap_or(0))?;
    }
    Ok(true)
}

/// Reads the counts out of the lines; but for the form of lines the first one is of no cell.
fn read_counts<A: Allocator + Copy>(report: &mut Tally<A>, form: CoverForm, bytes: &[u8]) {
    let heads = if form == CoverForm::Lines { 0 } else { 1 };
    let lines = bytes.split(|byte| *byte == b'\n').skip(heads);
    for (place, line) in lines.enumerate() {
        if let Some(cell) = report.cells.get_index_mut(place) {
            cell.count = cell.count.map(|_| last_number(line));
        }
    }
}

/// The last number in a line; 0 where there is none, or it isn't written as a count is.
fn last_number(line: &[u8]) -> u64 {
    let numbers = line
        .split(|byte| !byte.is_ascii_digit())
        .filter(|word| !word.is_empty());
    numbers.last().and_then(|word| number(word)).unwrap_or(0)
}
