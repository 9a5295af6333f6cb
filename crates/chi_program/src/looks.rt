//! What a check file has besides its run: whether an answer is wanted in it, and a line.

ghost use Rattle.std.specs.Prelude.{◌≡◌, IfOk, length, map};
ghost use Rattle.chi_script.specs.Checks.{line_of_check};
ghost use Rattle.chi_script.specs.CheckFiles.{check_file_of};
ghost use Rattle.chi_program.specs.Looks.{any_wanted, is_wanted, lacks_line, lacks_rows, wants_in};

use chi_flit::Line;
use chi_script::{Check, Fault, read_checks};
use std::alloc::Global;

/// Whether an answer is wanted in the check file whose bytes these are; its first fault where it is faulty, or want of
/// memory.
/// Source: `docs/FORMATS.md`, "Check files".
pub(crate) fn wants_answer(alloc: Global, bytes: &[u8]) -> Result<bool, Fault>
    ensures { IfOk result (λ wants. wants ≡ wants_in (check_file_of bytes.now)) }
{
    let script = read_checks(alloc, bytes)?;
    Ok(any_wanted(&script.checks))
}

/// Whether a check wants an answer.
fn is_wanted(check: &Check) -> bool
    ensures { result ≡ is_wanted (line_of_check check.now) }
{
    check.wanted.is_some()
}

/// Whether an answer is wanted by some of the checks.
fn any_wanted(checks: &[Check]) -> bool
    ensures { result ≡ any_wanted (map line_of_check checks.now) }
{
    for check in checks {
        if is_wanted(check) {
            return true;
        }
    }
    false
}

/// Whether the check file whose bytes these are has no such line; its first fault where it is faulty, or want of memory.
/// Source: `docs/FORMATS.md`, "Charts".
pub(crate) fn lacks_line(alloc: Global, bytes: &[u8], line: Line) -> Result<bool, Fault>
    ensures { IfOk result (λ lacks. lacks ≡ lacks_line line (check_file_of bytes.now)) }
{
    let script = read_checks(alloc, bytes)?;
    Ok(line.0 >= script.header.lines())
}

/// Whether the check file whose bytes these are has fewer commands than this one's number, which is counted from 1; its first
/// fault where it is faulty, or want of memory.
/// Source: `docs/FORMATS.md`, "Charts".
pub(crate) fn lacks_rows(alloc: Global, bytes: &[u8], first: u64) -> Result<bool, Fault>
    ensures { IfOk result (λ lacks. lacks ≡ lacks_rows first (check_file_of bytes.now)) }
{
    let script = read_checks(alloc, bytes)?;
    Ok((script.checks.len() as u64) < first)
}
