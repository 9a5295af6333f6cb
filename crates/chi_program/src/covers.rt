//! The cells that files reach.

ghost use Rattle.std.specs.Prelude.{◌≡◌, Ok, Some};
ghost use Rattle.chi_program.specs.Stops.{cover_end, merge_end};

use crate::stops::End;
use crate::suites::{read_files, readable_of, tell_unread_files};
use chi_coverage::{CoverShape, cover, merge};
use chi_script::{Fault, Output, StandardOutput};
use std::fmt::Write;
use std::io;
use std::rt::Files;

/// Counts the cells that the files at the paths reach, and writes them to standard output, but where none can be read. A line
/// for each file that can't be read is on standard error, and then one for each that is faulty.
pub(crate) fn cover_files<R: Files + AllocGlobal + Print + Eprint>(
    rt: &R,
    paths: &[&str],
    shape: CoverShape,
    least: u64,
) -> Result<End, Fault> {
    let files = read_files(rt, paths)?;
    let unread = tell_unread_files(rt, &files)?;
    let suite = readable_of(rt.alloc(), &files)?;
    if suite.is_empty() {
        return Ok(End::Faulty(Fault::Read));
    }
    let report = cover(rt.alloc(), &suite, shape)?;
    let mut output = StandardOutput::new(io::writer(rt));
    if output.write_all(&report.text).is_err() {
        return Err(Fault::Write);
    }
    if !report.faults.is_empty() {
        let _ = rt.eprint(report.faults.as_str());
    }
    let fault = if unread {
        Some(Fault::Read)
    } else {
        report.fault
    };
    Ok(cover_end(fault, report.reached, least))
}

/// Adds up the reports at the paths, and writes them to standard output, but where none can be read. A line for each file that
/// can't be read is on standard error, and then one for each that is no report.
pub(crate) fn merge_files<R: Files + AllocGlobal + Print + Eprint>(
    rt: &R,
    paths: &[&str],
    shape: CoverShape,
    least: u64,
) -> Result<End, Fault> {
    let files = read_files(rt, paths)?;
    let unread = tell_unread_files(rt, &files)?;
    let suite = readable_of(rt.alloc(), &files)?;
    if suite.is_empty() {
        return Ok(End::Faulty(Fault::Read));
    }
    let report = merge(rt.alloc(), &suite, shape)?;
    let mut output = StandardOutput::new(io::writer(rt));
    if output.write_all(&report.text).is_err() {
        return Err(Fault::Write);
    }
    if report.faulty {
        let _ = rt.eprint(report.faults.as_str());
    }
    Ok(merge_end(unread || report.faulty, report.reached, least))
}

/// The end of a sum of reports, of which some is faulty, or none, and so many cells were reached, where so many at least
/// were asked for.
fn merge_end(faulty: bool, reached: usize, least: u64) -> End
    ensures { result ≡ merge_end faulty reached least }
{
    if faulty {
        End::Malformed
    } else {
        cover_end(None, reached, least)
    }
}

/// The end of a count of cells, of which this is the first fault, and so many were reached, where so many at least were
/// asked for.
fn cover_end(fault: Option<Fault>, reached: usize, least: u64) -> End
    ensures { result ≡ cover_end fault reached least }
{
    match fault {
        Some(fault) => End::Faulty(fault),
        None => {
            if (reached as u64) < least {
                End::Few
            } else {
                End::Done
            }
        }
    }
}
