//! The lines of a check file.

ghost use Rattle.std.specs.Prelude.{◌≡◌};
ghost use Rattle.std.specs.Option.{option_map};
ghost use Rattle.chi_script.specs.Faults.{Reads};
ghost use Rattle.chi_script.specs.Checks.{is_comment, parts_of, line_of_check};
ghost use Rattle.chi_script.specs.CheckFiles.{check_at};

use crate::commands::{Command, read_command};
use crate::faults::Fault;

/// A command of a check file.
/// Source: `docs/FORMATS.md`, "Check files".
#[derive(Clone, Copy, Debug, PartialEq, Eq)]
pub struct Check<'a> {
    /// The number of its line, counted from 1.
    pub line: usize,
    pub command: Command,
    /// The answer that is wanted of it; any will do where there is none.
    pub wanted: Option<&'a [u8]>,
}

/// What parts a command from the answer that is wanted of it.
const ARROW: &[u8] = b" -> ";

/// Whether the line, which is given without its line end, is a comment: it has no bytes, or begins with `#`.
/// Source: `docs/FORMATS.md`, "Check files".
pub fn is_comment(line: &[u8]) -> bool
    ensures { result ≡ is_comment line.now }
{
    match line {
        [] => true,
        [first, ..] => *first == b'#',
    }
}

/// What stands before the line's first arrow, and what behind it, where there is one.
pub(crate) fn parts(line: &[u8]) -> (&[u8], Option<&[u8]>)
    ensures front { result.0.now ≡ (parts_of line.now).0 }
    ensures answer { option_map (λ text. text.now) result.1 ≡ (parts_of line.now).1 }
{
    for at in 0..line.len() {
        if line[at..].starts_with(ARROW) {
            return (&line[..at], Some(&line[at + ARROW.len()..]));
        }
    }
    (line, None)
}

/// The check that a line is, which is given without its line end and is no comment; its number is for the
/// fault. `BadCommand` where what stands before its first arrow is no command.
/// Source: `docs/FORMATS.md`, "Check files".
pub(crate) fn check_in(line: &[u8], number: usize) -> Result<Check<'_>, Fault>
    ensures { Reads line_of_check result (check_at number line.now) }
{
    let (front, wanted) = parts(line);
    let command = read_command(front).ok_or(Fault::BadCommand(number))?;
    Ok(Check {
        line: number,
        command,
        wanted,
    })
}
