//! A whole check file: its header and its checks, or its first fault.

ghost use Rattle.std.specs.Prelude.{◌≡◌, ◌≤◌, ◌+◌, length, map};
ghost use Rattle.chi_script.specs.Faults.{Gives};
ghost use Rattle.chi_script.specs.Files.{lines_of};
ghost use Rattle.chi_script.specs.Checks.{line_of_check};
ghost use Rattle.chi_script.specs.CheckFiles.{check_file_of, checks_of, check_script_of, most_check_bytes, with_check_line};

use crate::checks::{Check, check_in, is_comment};
use crate::faults::Fault;
use crate::files::{first_line, header_in};
use chi_flit::Config;
use std::alloc::Allocator;

/// The most bytes that a check file may have.
/// Source: `docs/FORMATS.md`, "Check files".
pub const MOST_CHECK_BYTES: usize = 16_777_216;

/// A good check file: the sizes of the system, and the commands in order, each with the answer that is
/// wanted of it, where one is.
/// Source: `docs/FORMATS.md`, "Check files".
#[derive(Drop)]
pub struct CheckFile<'a, A: Allocator> {
    pub header: Config,
    pub checks: Vec<Check<'a>, A>,
}

/// The header and the checks of a check file, which is read whole.
///
/// `TooLarge` where the file has more than `MOST_CHECK_BYTES` bytes, before all else. Otherwise the first
/// faulty line is told, comments aside: `BadHeader`, `BadCommand`, or `MissingNewline` where bytes stand
/// behind the last line end. A file of comments alone is `BadHeader`, at the line behind them. `NoMemory`
/// where memory runs out.
/// Source: `docs/FORMATS.md`, "Check files".
#[tactic(auto, unfolding(crate::specs::CheckFiles::check_file_of))]
pub fn read_checks<'a, A: Allocator + Copy>(
    alloc: A,
    bytes: &'a [u8],
) -> Result<CheckFile<'a, A>, Fault>
    ensures { Gives (λ script. (script.header, map line_of_check script.checks.items)) result
        (check_file_of bytes.now) }
{
    if bytes.len() > MOST_CHECK_BYTES {
        return Err(Fault::TooLarge);
    }
    read_lines(alloc, bytes)
}

/// The header and the checks of the lines from line 1 on.
fn read_lines<'a, A: Allocator + Copy>(alloc: A, bytes: &'a [u8]) -> Result<CheckFile<'a, A>, Fault>
    requires { length bytes.now ≤ most_check_bytes }
    ensures { Gives (λ script. (script.header, map line_of_check script.checks.items)) result
        (check_script_of 1 (lines_of bytes.now)) }
{
    let mut rest = bytes;
    let mut number = 1;
    while let Some((line, after)) = first_line(rest) {
        if !is_comment(line) {
            let header = header_in(alloc, line, number)?;
            let checks = checks_from(alloc, after, number + 1)?;
            return Ok(CheckFile { header, checks });
        }
        rest = after;
        number += 1;
    }
    if rest.is_empty() {
        Err(Fault::BadHeader(number))
    } else {
        Err(Fault::MissingNewline(number))
    }
}

/// The checks of the lines from this one on.
fn checks_from<'a, A: Allocator + Copy>(
    alloc: A,
    bytes: &'a [u8],
    first: usize,
) -> Result<Vec<Check<'a>, A>, Fault>
    requires { first + length bytes.now ≤ 1 + most_check_bytes }
    ensures { Gives (λ checks. map line_of_check checks.items) result
        (checks_of first (lines_of bytes.now)) }
{
    let mut checks = Vec::new(alloc);
    let mut rest = bytes;
    let mut number = first;
    while let Some((line, after)) = first_line(rest) {
        add_check(&mut checks, line, number)?;
        rest = after;
        number += 1;
    }
    if rest.is_empty() {
        Ok(checks)
    } else {
        Err(Fault::MissingNewline(number))
    }
}

/// Puts the check that a line is behind the others; nothing where it is a comment. Its number is for the
/// fault.
fn add_check<'a, A: Allocator>(
    checks: &mut Vec<Check<'a>, A>,
    line: &'a [u8],
    number: usize,
) -> Result<(), Fault>
    ensures { Gives (λ _. map line_of_check checks.new.items) result
        (with_check_line (map line_of_check checks.old.items) number line.now) }
{
    if is_comment(line) {
        return Ok(());
    }
    // (matched, since the checker doesn't follow a `?` on what has a reference and an invariant in it)
    match check_in(line, number) {
        Ok(check) => match checks.push(check) {
            Ok(()) => Ok(()),
            Err(_) => Err(Fault::NoMemory),
        },
        Err(fault) => Err(fault),
    }
}
