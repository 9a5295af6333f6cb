//! Check files, one or several.

ghost use Rattle.std.specs.Prelude.{◌≡◌, Ok, Some, IfOk, map};
ghost use Rattle.chi_program.specs.Stops.{check_end, suite_stop, wanted_end};
ghost use Rattle.chi_program.specs.Suites.{given_in};
ghost use Rattle.chi_replay.specs.Suites.{given_of};

use crate::inputs::{bytes_of, tell, tell_unread, tell_unread_file};
use crate::looks::wants_answer;
use crate::stops::End;
use chi_replay::{SuiteFile, SuiteForm, check, check_suite};
use chi_script::{Fault, MOST_CHECK_BYTES, MemoryInput, Output, StandardOutput};
use std::alloc::Global;
use std::fmt::Write;
use std::io;
use std::rt::Files;

/// Checks the files at the paths, and writes to standard output what came of it: of one file its own report, of
/// several, or where TAP is asked for, what is told of all.
pub(crate) fn check_files<R: Files + AllocGlobal + Print + Eprint>(
    rt: &R,
    paths: &[&str],
    tap: bool,
) -> Result<End, Fault> {
    match (paths, tap) {
        ([path], false) => check_file(rt, path),
        (_, false) => check_all(rt, paths, SuiteForm::Lines),
        (_, true) => check_all(rt, paths, SuiteForm::Tap),
    }
}

/// Checks the file at the path, and writes to standard output what came of it.
fn check_file<R: Files + AllocGlobal + Print + Eprint>(rt: &R, path: &str) -> Result<End, Fault> {
    let Some(bytes) = read_file(rt, path, MOST_CHECK_BYTES + 1)? else {
        return tell_unread_file(rt, path);
    };
    let mut input = MemoryInput::new(&bytes, u64::MAX);
    let mut output = StandardOutput::new(io::writer(rt));
    match check(rt.alloc(), &mut input, &mut output) {
        Ok(false) => Ok(End::Differs),
        Ok(true) => wanted_end(rt, wants_answer(rt.alloc(), &bytes)?),
        Err(fault) => tell(rt, &bytes, fault),
    }
}

/// Checks each of the files at the paths. A line for each that is faulty or can't be read is on standard error.
fn check_all<R: Files + AllocGlobal + Print + Eprint>(
    rt: &R,
    paths: &[&str],
    form: SuiteForm,
) -> Result<End, Fault> {
    let files = read_files(rt, paths)?;
    let suite = suite_of(rt.alloc(), &files)?;
    let report = check_suite(rt.alloc(), form, &suite)?;
    let mut output = StandardOutput::new(io::writer(rt));
    if output.write_all(&report.text).is_err() {
        return Err(Fault::Write);
    }
    if !report.faults.is_empty() {
        let _ = rt.eprint(report.faults.as_str());
    }
    match suite_end(report.fault, report.hold) {
        End::Done => wanted_end(rt, some_wants(rt.alloc(), &suite)?),
        end => Ok(end),
    }
}

/// Whether an answer is wanted in some of these good files.
fn some_wants(alloc: Global, files: &[SuiteFile]) -> Result<bool, Fault> {
    for file in files {
        if let Some(bytes) = file.bytes {
            if wants_answer(alloc, bytes)? {
                return Ok(true);
            }
        }
    }
    Ok(false)
}

/// The end of a check of which all answers hold, where some answer is wanted, or none. That none is wanted is told on
/// standard error.
fn wanted_end<R: Eprint>(rt: &R, wants: bool) -> Result<End, Fault>
    ensures { result ≡ Ok (wanted_end wants) }
{
    if wants {
        return Ok(End::Done);
    }
    let _ = rt.eprintln("chihome: no answer is wanted");
    Ok(End::Nothing)
}

/// A file of which the path was given.
#[derive(Drop)]
pub(crate) struct ReadFile<'a> {
    path: &'a str,
    /// Its bytes, where it can be read.
    bytes: Option<Vec<u8>>,
}

impl ReadFile<'_> {
    /// The same, lent to a check.
    fn lent(&self) -> SuiteFile<'_>
        ensures { given_of result ≡ given_in self.now }
    {
        let bytes = match &self.bytes {
            Some(bytes) => Some(bytes.as_slice()),
            None => None,
        };
        SuiteFile {
            name: self.path,
            bytes,
        }
    }
}

/// The files at the paths, one for each in their order; `NoMemory` where memory runs out.
pub(crate) fn read_files<'a, R: Files + AllocGlobal>(
    rt: &R,
    paths: &[&'a str],
) -> Result<Vec<ReadFile<'a>>, Fault>
    ensures { IfOk result
        (λ files. map (λ file. file.path.now) files.items ≡ map (λ path. path.now) paths.now) }
{
    let mut files = Vec::new(rt.alloc());
    for path in paths {
        let bytes = read_file(rt, path, MOST_CHECK_BYTES + 1)?;
        files.push(ReadFile { path, bytes })?;
    }
    Ok(files)
}

/// The bytes of the file at the path, so many at most, where it can be read; `NoMemory` where memory runs out.
pub(crate) fn read_file<R: Files + AllocGlobal>(
    rt: &R,
    path: &str,
    most: usize,
) -> Result<Option<Vec<u8>>, Fault> {
    match bytes_of(rt, path, most) {
        Ok(bytes) => Ok(Some(bytes)),
        Err(Fault::NoMemory) => Err(Fault::NoMemory),
        Err(_) => Ok(None),
    }
}

/// The same files, lent to a check; `NoMemory` where memory runs out.
pub(crate) fn suite_of<'a>(
    alloc: Global,
    files: &'a [ReadFile<'a>],
) -> Result<Vec<SuiteFile<'a>>, Fault>
    ensures { IfOk result (λ suite. map given_of suite.items ≡ map given_in files.now) }
{
    Ok(files.iter().map(|file| file.lent()).collect(alloc)?)
}

/// Tells on standard error each of the files that can't be read, and why, where that is known; whether there is one.
pub(crate) fn tell_unread_files<R: Files + AllocGlobal + Eprint>(
    rt: &R,
    files: &[ReadFile],
) -> Result<bool, Fault> {
    let mut some = false;
    for file in files {
        if file.bytes.is_none() {
            tell_unread(rt, file.path)?;
            some = true;
        }
    }
    Ok(some)
}

/// The files that can be read, lent; `NoMemory` where memory runs out.
pub(crate) fn readable_of<'a>(
    alloc: Global,
    files: &'a [ReadFile<'a>],
) -> Result<Vec<SuiteFile<'a>>, Fault> {
    let mut readable = Vec::new(alloc);
    for file in files {
        if file.bytes.is_some() {
            readable.push(file.lent())?;
        }
    }
    Ok(readable)
}

/// The end of a check of several files, of which this is the first fault, and all answers hold, or not.
fn suite_end(fault: Option<Fault>, hold: bool) -> End
    ensures { result ≡ suite_stop fault hold }
{
    match fault {
        Some(fault) => End::Faulty(fault),
        None => check_end(hold),
    }
}

/// The end of a check of which all answers hold, or not.
fn check_end(hold: bool) -> End
    ensures { result ≡ check_end hold }
{
    if hold { End::Done } else { End::Differs }
}
