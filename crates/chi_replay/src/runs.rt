//! All commands of a file, one after the other.

ghost use Rattle.std.specs.Prelude.{IfErr, IfOk, string_bytes};
ghost use Rattle.chi_script.specs.Faults.{Fails};
ghost use Rattle.chi_script.specs.Files.{commands_of, lines_of};
ghost use Rattle.chi_replay.specs.Texts.{IsText, IsTextOfLines};

use crate::session::play;
use chi_flit::NoMemory;
use chi_node::System;
use chi_script::{Command, Fault, command_in, first_line};
use chi_slice::Config;
use std::alloc::Allocator;

/// Plays the commands on a new node of that size, and answers the text of their answers, a line for each
/// command: that of the table of the commands under answers that the tracker may give. Each `audit` prints
/// the loads and the stores in the journals of the slices as they are then, and `coherent` exactly where each
/// of their lines is coherent and each journal is legal.
///
/// Refused where memory runs out.
/// Source: `docs/FORMATS.md`, "Replay files".
pub fn run<A: Allocator + Copy>(
    alloc: A,
    config: &Config,
    commands: &[Command],
) -> Result<String<A>, NoMemory>
    ensures { IfOk result (λ text. IsText config.now commands.now (string_bytes text)) }
{
    let mut system = System::new(alloc, config)?;
    let mut text = String::new(alloc);
    for command in commands {
        play(&mut system, *command, &mut text)?;
    }
    Ok(text)
}

/// Plays the commands that the lines of a replay file are, from line 2 on, each as soon as it is read, and
/// answers the text of their answers as `run` does. So no list of the commands takes memory.
///
/// The fault is that of the first faulty line: `BadCommand`, or `MissingNewline` where bytes stand behind
/// the last line end. `NoMemory` where memory runs out before.
/// Source: `docs/FORMATS.md`, "Replay files".
pub fn run_lines<A: Allocator + Copy>(
    alloc: A,
    config: &Config,
    lines: &[u8],
) -> Result<String<A>, Fault>
    ensures ok { IfOk result (λ text. IsTextOfLines config.now lines.now (string_bytes text)) }
    ensures err { IfErr result (λ fault. Fails fault (commands_of 2 (lines_of lines.now))) }
{
    let mut system = System::new(alloc, config)?;
    let mut text = String::new(alloc);
    let mut rest = lines;
    let mut number = 2;
    while let Some((line, after)) = first_line(rest) {
        let command = command_in(line, number)?;
        play(&mut system, command, &mut text)?;
        rest = after;
        number += 1;
    }
    if rest.is_empty() {
        Ok(text)
    } else {
        Err(Fault::MissingNewline(number))
    }
}
