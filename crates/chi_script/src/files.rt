//! The parts of a replay file: its header, its lines, and the command that a line is.

ghost use Rattle.std.specs.Prelude.{◌≡◌, ◌<◌, ◌+◌, ◌==◌, ◌≤◌, ◌∷◌, [], length, IfErr, IfNone, IfSome, IfOk};
ghost use Rattle.std.specs.List.{position};
ghost use Rattle.chi_script.specs.Faults.{Fails, Gives, Reads, TellsTooLarge};
ghost use Rattle.chi_script.specs.Files.{lines_of, header_at, command_at, commands_of, file_of, script_of, with_header};

use crate::commands::{Command, read_command};
use crate::faults::Fault;
use crate::headers::read_header;
use crate::words::read_words;
use chi_flit::Config;
use memchr::memchr;
use std::alloc::Allocator;

/// The most bytes that a replay file or a storm file may have.
/// Source: `docs/PROTOCOL.md`, "Limits".
pub const MOST_BYTES: usize = 1_048_576;

/// The header of a replay file, and the lines behind it, which aren't read yet: they are its commands, or
/// have its first fault.
///
/// `TooLarge` where the file has more than `MOST_BYTES` bytes, before all else. `BadHeader` where line 1 is
/// no header within the limits, or the file is empty, and `MissingNewline` where no line end closes line 1.
/// `NoMemory` where memory runs out.
/// Source: `docs/FORMATS.md`, "Replay files".
#[tactic(auto, unfolding(crate::specs::Files::file_of))]
pub fn read_head<A: Allocator>(alloc: A, bytes: &[u8]) -> Result<(Config, &[u8]), Fault>
    ensures lines { IfOk result
        (λ head. file_of bytes.now ≡ with_header head.0 (commands_of 2 (lines_of head.1.now))) }
    ensures err { IfErr result (λ fault. Fails fault (file_of bytes.now)) }
    ensures large { TellsTooLarge 1048576 bytes.now result }
{
    if bytes.len() > MOST_BYTES {
        return Err(Fault::TooLarge);
    }
    read_first_line(alloc, bytes)
}

/// The header that line 1 is, and the lines behind it.
fn read_first_line<A: Allocator>(alloc: A, bytes: &[u8]) -> Result<(Config, &[u8]), Fault>
    ensures lines { IfOk result (λ head. script_of
        (lines_of bytes.now) ≡ with_header head.0 (commands_of 2 (lines_of head.1.now))) }
    ensures err { IfErr result (λ fault. Fails fault (script_of (lines_of bytes.now))) }
{
    match first_line(bytes) {
        None if bytes.is_empty() => Err(Fault::BadHeader(1)),
        None => Err(Fault::MissingNewline(1)),
        Some((line, rest)) => {
            let header = header_in(alloc, line, 1)?;
            Ok((header, rest))
        }
    }
}

/// The header that a line is, which is given without its line end; its number is for the fault.
/// `BadHeader` where it is none within the limits, and `NoMemory` where memory runs out.
/// Source: `docs/FORMATS.md`, "Replay files", and `docs/PROTOCOL.md`, "Limits".
pub fn header_in<A: Allocator>(alloc: A, line: &[u8], number: usize) -> Result<Config, Fault>
    ensures { Gives (λ header. header) result (header_at number line.now) }
{
    let mut words = Vec::new(alloc);
    read_words(&mut words, line)?;
    read_header(&words).ok_or(Fault::BadHeader(number))
}

/// The command that a line is, which is given without its line end; its number is for the fault.
/// `BadCommand` where it is none.
/// Source: `docs/FORMATS.md`, "Replay files".
pub fn command_in(line: &[u8], number: usize) -> Result<Command, Fault>
    ensures { Reads (λ command. command) result (command_at number line.now) }
{
    read_command(line).ok_or(Fault::BadCommand(number))
}

/// The bytes before the first line end, and those after it. `None` where there is no line end.
/// Source: `docs/FORMATS.md`, "Bytes, lines and numbers".
pub fn first_line(bytes: &[u8]) -> Option<(&[u8], &[u8])>
    ensures some { IfSome result
        (λ parts. lines_of bytes.now ≡ parts.0.now ∷ lines_of parts.1.now) }
    ensures shorter { IfSome result (λ parts. length parts.1.now < length bytes.now) }
    ensures none { IfNone result (lines_of bytes.now ≡ bytes.now ∷ []) }
{
    let end = line_end(bytes)?;
    Some((&bytes[..end], &bytes[end + 1..]))
}

/// Where the first line end stands.
fn line_end(bytes: &[u8]) -> Option<usize>
    ensures { result ≡ position (λ byte. byte == 10) bytes.now }
{
    memchr(b'\n', bytes)
}
