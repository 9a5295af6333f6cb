//! Whether lines are commands, without a list of them; and their first fault.

ghost use Rattle.std.specs.Prelude.{◌≡◌, ◌+◌, ◌≤◌, Err, length, IfErr, OnOk};
ghost use Rattle.chi_script.specs.Faults.{Fails};
ghost use Rattle.chi_script.specs.declared.faults.Fault.{Fault};
ghost use Rattle.chi_script.specs.Files.{AreCommands, commands_of, lines_of};

use crate::faults::Fault;
use crate::files::{command_in, first_line};

/// Whether the lines of a replay file, from line 2 on, are all commands; otherwise the first fault of theirs.
/// That takes no memory, and is never refused.
/// Source: `docs/FORMATS.md`, "Replay files".
pub fn check_lines(lines: &[u8]) -> Result<(), Fault>
    ensures ok { OnOk result (AreCommands lines.now) }
    ensures err { IfErr result (λ fault. commands_of 2 (lines_of lines.now) ≡ Err fault) }
{
    let mut rest = lines;
    let mut number = 2;
    while let Some((line, after)) = first_line(rest) {
        let _command = command_in(line, number)?;
        rest = after;
        number += 1;
    }
    if rest.is_empty() {
        Ok(())
    } else {
        Err(Fault::MissingNewline(number))
    }
}

/// The first fault of the lines of a replay file, from line 2 on, where they have one; otherwise the one with
/// which playing them ended. So faulty lines are told as such where memory ran out before their fault.
///
/// Condition: the one with which it ended is theirs, or want of memory.
/// Source: `docs/FORMATS.md`, "Replay files".
pub fn first_fault(lines: &[u8], ended: Fault) -> Fault
    requires { Fails ended (commands_of 2 (lines_of lines.now)) }
    ensures fails { Fails result (commands_of 2 (lines_of lines.now)) }
    ensures first { (fault : Fault) → commands_of 2 (lines_of lines.now) ≡ Err fault → result ≡ fault }
{
    match check_lines(lines) {
        Ok(()) => ended,
        Err(fault) => fault,
    }
}
