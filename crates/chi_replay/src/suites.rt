//! The check of several files, one after the other.

ghost use Rattle.std.specs.Prelude.{◌≡◌, ◌≢◌, ◌↔◌, ◌+◌, ◌++◌, [], IfOk, IsTrue, OnOk, None, Some, map, string_bytes};
ghost use Rattle.chi_replay.specs.Suites.{IsSuiteReport, SuiteGoesOn, fault_words, faulty_line, faulty_text, first_of, found_point, found_text, front_of, given, given_of, new_counts, no_counts, suite_end, suite_head, suite_summary};

use crate::checks::compare_file;
use crate::reports::{Comparison, write_summary};
use chi_flit::NoMemory;
use chi_script::{Fault, hint_at};
use std::alloc::Allocator;
use std::fmt;
use std::io::Write;

/// A file that is to be checked.
/// Source: `docs/FORMATS.md`, "Check files".
#[derive(Clone, Copy, Debug, PartialEq, Eq)]
pub struct SuiteFile<'a> {
    /// Its name, as it is told.
    pub name: &'a str,
    /// Its bytes, where it could be read.
    pub bytes: Option<&'a [u8]>,
}

/// How the check of several files is told.
/// Source: `docs/FORMATS.md`, "Check files".
#[derive(Clone, Copy, Debug, PartialEq, Eq)]
pub enum SuiteForm {
    /// A line for each answer that differs, behind the name of its file, and a last line over all files.
    Lines,
    /// TAP, version 13: a test point for each file.
    Tap,
}

/// What came of the check of several files.
/// Source: `docs/FORMATS.md`, "Check files".
#[derive(Drop)]
pub struct SuiteReport<A: Allocator> {
    /// What is printed.
    pub text: Vec<u8, A>,
    /// A line for each file that is faulty or couldn't be read, for standard error.
    pub faults: String<A>,
    /// The first fault of a file.
    pub fault: Option<Fault>,
    /// Whether each answer is the wanted one, where one is wanted.
    pub hold: bool,
}

/// Checks each of the files, in their order, and tells of each what `check` finds in that file alone: a faulty
/// one hinders no other.
///
/// Refused where memory runs out, and nothing is told then.
/// Source: `docs/FORMATS.md`, "Check files".
pub fn check_suite<A: Allocator + Copy>(
    alloc: A,
    form: SuiteForm,
    files: &[SuiteFile],
) -> Result<SuiteReport<A>, NoMemory>
    ensures { IfOk result
        (λ report. IsSuiteReport form (map given_of files.now) report.text.items
        (string_bytes report.faults) report.fault report.hold) }
{
    let mut run = SuiteRun::new(alloc, form, files.len())?;
    let mut number = 1;
    for file in files {
        run.add(alloc, form, number, file)?;
        number += 1;
    }
    run.report(form)
}

/// What was found over all files so far.
/// Source: `docs/FORMATS.md`, "Check files".
#[derive(Clone, Copy, Debug, PartialEq, Eq)]
struct SuiteCounts {
    /// Files that were checked.
    files: usize,
    /// Of those, the ones of which an answer differs.
    files_differ: usize,
    /// Answers that are wanted.
    wanted: usize,
    /// Of those, the ones that differ.
    differ: usize,
}

impl SuiteCounts {
    /// The counts with those of one file more. Refused where a number is too large, as only endless memory could
    /// have it.
    fn with(self, wanted: usize, differ: usize) -> Result<SuiteCounts, NoMemory>
        ensures { IfOk result (λ counts. counts ≡ new_counts self wanted differ) }
    {
        let unequal = if differ == 0 { 0 } else { 1 };
        Ok(SuiteCounts {
            files: sum(self.files, 1)?,
            files_differ: sum(self.files_differ, unequal)?,
            wanted: sum(self.wanted, wanted)?,
            differ: sum(self.differ, differ)?,
        })
    }
}

/// The sum. Refused where it is too large.
fn sum(one: usize, other: usize) -> Result<usize, NoMemory>
    ensures { IfOk result (λ sum. sum ≡ one + other) }
{
    one.checked_add(other).ok_or(NoMemory)
}

/// The files as far as they were checked.
#[derive(Drop)]
struct SuiteRun<A: Allocator> {
    text: Vec<u8, A>,
    faults: String<A>,
    fault: Option<Fault>,
    counts: SuiteCounts,
}

impl<A: Allocator + Copy> SuiteRun<A> {
    /// No file was checked yet, of so many. Refused where memory runs out.
    fn new(alloc: A, form: SuiteForm, count: usize) -> Result<SuiteRun<A>, NoMemory>
        ensures text { IfOk result (λ run. run.text.items ≡ suite_head form count) }
        ensures faults { IfOk result (λ run. string_bytes run.faults ≡ []) }
        ensures fault { IfOk result (λ run. run.fault ≡ None) }
        ensures counts { IfOk result (λ run. run.counts ≡ no_counts) }
    {
        let mut text = Vec::new(alloc);
        if form == SuiteForm::Tap {
            writeln!(text, "TAP version 13").map_err(|_| NoMemory)?;
            writeln!(text, "1..{count}").map_err(|_| NoMemory)?;
        }
        Ok(SuiteRun {
            text,
            faults: String::new(alloc),
            fault: None,
            counts: SuiteCounts {
                files: 0,
                files_differ: 0,
                wanted: 0,
                differ: 0,
            },
        })
    }

    /// Checks the file of this number. Refused where memory runs out.
    fn add(
        &mut self,
        alloc: A,
        form: SuiteForm,
        number: usize,
        file: &SuiteFile,
    ) -> Result<(), NoMemory>
        ensures { OnOk result (SuiteGoesOn form number (given_of file.now)
            (record {
              text = self.old.text.items;
              faults = string_bytes self.old.faults;
              fault = self.old.fault;
              counts = self.old.counts;
            })
            (record {
              text = self.new.text.items;
              faults = string_bytes self.new.faults;
              fault = self.new.fault;
              counts = self.new.counts;
            })) }
    {
        match file.bytes {
            Some(bytes) => self.add_bytes(alloc, form, number, file.name, bytes),
            None => self.add_fault(form, number, file.name, Fault::Read, ""),
        }
    }

    /// Checks the file of this number and name, whose bytes these are. Refused where memory runs out.
    fn add_bytes(
        &mut self,
        alloc: A,
        form: SuiteForm,
        number: usize,
        name: &str,
        bytes: &[u8],
    ) -> Result<(), NoMemory>
        ensures { OnOk result (SuiteGoesOn form number (given name.now (Some bytes.now))
            (record {
              text = self.old.text.items;
              faults = string_bytes self.old.faults;
              fault = self.old.fault;
              counts = self.old.counts;
            })
            (record {
              text = self.new.text.items;
              faults = string_bytes self.new.faults;
              fault = self.new.fault;
              counts = self.new.counts;
            })) }
    {
        let front = front_of(alloc, form, name)?;
        match compare_file(alloc, &front, bytes) {
            Ok(found) => self.add_found(form, number, name, &found),
            Err(fault) => {
                let hint = hint_at(alloc, bytes, fault)?;
                self.add_fault(form, number, name, fault, hint.as_str())
            }
        }
    }

    /// Tells what was found in the file of this number and name. Refused where memory runs out.
    fn add_found(
        &mut self,
        form: SuiteForm,
        number: usize,
        name: &str,
        found: &Comparison<A>,
    ) -> Result<(), NoMemory>
        ensures text { OnOk result (self.new.text.items ≡ self.old.text.items
            ++ found_text form number name.now found.now.lines.items found.now.wanted found.now.differing) }
        ensures faults { OnOk result (string_bytes self.new.faults ≡ string_bytes self.old.faults) }
        ensures fault { OnOk result (self.new.fault ≡ self.old.fault) }
        ensures counts { OnOk result
            (self.new.counts ≡ new_counts self.old.counts found.now.wanted found.now.differing) }
    {
        self.counts = self.counts.with(found.wanted, found.differing)?;
        match form {
            SuiteForm::Lines => {
                self.text.extend_from_slice(&found.lines)?;
                Ok(())
            }
            SuiteForm::Tap => write_point(&mut self.text, number, name, found),
        }
    }

    /// Tells that the file of this number and name is faulty, and the hint. Refused where memory runs out, or ran out
    /// before.
    fn add_fault(
        &mut self,
        form: SuiteForm,
        number: usize,
        name: &str,
        fault: Fault,
        hint: &str,
    ) -> Result<(), NoMemory>
        ensures text { OnOk result (self.new.text.items
            ≡ self.old.text.items ++ faulty_text form number name.now fault hint.now) }
        ensures faults { OnOk result (string_bytes self.new.faults
            ≡ string_bytes self.old.faults ++ faulty_line name.now fault hint.now) }
        ensures fault { OnOk result (self.new.fault ≡ first_of self.old.fault (Some fault)) }
        ensures counts { OnOk result (self.new.counts ≡ self.old.counts) }
        ensures memory { OnOk result (fault ≢ Fault.NoMemory) }
    {
        if fault == Fault::NoMemory {
            return Err(NoMemory);
        }
        let words = FaultWords(fault);
        if form == SuiteForm::Tap {
            writeln!(self.text, "not ok {number} - {name}").map_err(|_| NoMemory)?;
            writeln!(self.text, "# {words}{hint}").map_err(|_| NoMemory)?;
        }
        writeln!(self.faults, "chihome: {name}: {words}{hint}").map_err(|_| NoMemory)?;
        self.fault = self.fault.or(Some(fault));
        Ok(())
    }

    /// What came of all files. Refused where memory runs out.
    fn report(self, form: SuiteForm) -> Result<SuiteReport<A>, NoMemory>
        ensures text { IfOk result
            (λ report. report.text.items ≡ self.text.items ++ suite_end form self.counts) }
        ensures faults { IfOk result (λ report. string_bytes report.faults
            ≡ string_bytes self.faults) }
        ensures fault { IfOk result (λ report. report.fault ≡ self.fault) }
        ensures hold { IfOk result (λ report. IsTrue report.hold ↔ (self.counts.differ ≡ 0)) }
    {
        let SuiteRun {
            mut text,
            faults,
            fault,
            counts,
        } = self;
        if form == SuiteForm::Lines {
            write_suite_summary(&mut text, counts)?;
        }
        let hold = counts.differ == 0;
        Ok(SuiteReport {
            text,
            faults,
            fault,
            hold,
        })
    }
}

/// What stands before each line on an answer that differs. Refused where memory runs out.
fn front_of<A: Allocator>(alloc: A, form: SuiteForm, name: &str) -> Result<Vec<u8, A>, NoMemory>
    ensures { IfOk result (λ front. front.items ≡ front_of form name.now) }
{
    let mut front = Vec::new(alloc);
    match form {
        SuiteForm::Lines => write!(front, "{name}: ").map_err(|_| NoMemory)?,
        SuiteForm::Tap => front.extend_from_slice(b"# ")?,
    }
    Ok(front)
}

/// Puts the test point of a file behind the text, and what was found in it as diagnostics. Refused where memory
/// runs out.
fn write_point<A: Allocator>(
    text: &mut Vec<u8, A>,
    number: usize,
    name: &str,
    found: &Comparison<A>,
) -> Result<(), NoMemory>
    ensures { OnOk result (text.new.items ≡ text.old.items
        ++ found_point number name.now found.now.lines.items found.now.wanted found.now.differing) }
{
    if found.differing == 0 {
        writeln!(text, "ok {number} - {name}").map_err(|_| NoMemory)?;
    } else {
        writeln!(text, "not ok {number} - {name}").map_err(|_| NoMemory)?;
    }
    text.extend_from_slice(&found.lines)?;
    text.extend_from_slice(b"# ")?;
    write_summary(text, found.wanted, found.differing)
}

/// Puts the last line over all files behind the text. Refused where memory runs out.
fn write_suite_summary<A: Allocator>(
    text: &mut Vec<u8, A>,
    counts: SuiteCounts,
) -> Result<(), NoMemory>
    ensures { OnOk result (text.new.items ≡ text.old.items ++ suite_summary counts) }
{
    let SuiteCounts {
        files,
        files_differ,
        wanted,
        differ,
    } = counts;
    if differ == 0 {
        writeln!(text, "checked {wanted} answers in {files} files").map_err(|_| NoMemory)
    } else {
        write!(text, "{differ} of {wanted} answers differ, ").map_err(|_| NoMemory)?;
        writeln!(text, "in {files_differ} of {files} files").map_err(|_| NoMemory)
    }
}

/// What is wrong with a file, without the program's name.
/// Source: `docs/FORMATS.md`, "The program".
#[derive(Clone, Copy, Debug)]
pub struct FaultWords(pub Fault);

impl fmt::Display for FaultWords {
    ghost output = { λ words. Some (fault_words words.0) };

    fn fmt<W: fmt::Write>(&self, f: &mut fmt::Formatter<W>) -> fmt::Result {
        match self.0 {
            Fault::NoMemory => write!(f, "out of memory"),
            Fault::BadHeader(line) => write!(f, "line {line}: bad header"),
            Fault::BadCommand(line) => write!(f, "line {line}: bad command"),
            Fault::MissingNewline(line) => write!(f, "line {line}: missing newline"),
            Fault::TooLarge => write!(f, "file too large"),
            Fault::Read => write!(f, "cannot read"),
            Fault::Write => write!(f, "cannot write"),
        }
    }
}
