//! A whole storm file: its header and its operations, or its first fault.

ghost use Rattle.std.specs.Prelude.{◌≡◌, ◌≤◌, IfOk, length};
ghost use Rattle.std.specs.List.{All};
ghost use Rattle.chi_script.specs.Faults.{Gives};
ghost use Rattle.chi_script.specs.Files.{lines_of};
ghost use Rattle.chi_script.specs.StormSpelling.{IsInRange};
ghost use Rattle.chi_script.specs.Storms.{operation_at, operations_from, storm_of};

use crate::faults::Fault;
use crate::files::{MOST_BYTES, first_line, header_in};
use crate::operations::{AgentOperation, read_operation};
use crate::words::read_words;
use chi_flit::Config;
use std::alloc::Allocator;

/// A good storm file: the sizes of the system, and the operations in the order of their lines. The
/// script of an agent is the operations that name it.
/// Source: `docs/FORMATS.md`, "Storm files".
#[derive(Drop)]
pub struct StormFile<A: Allocator> {
    pub header: Config,
    pub deeds: Vec<AgentOperation, A>,
}

/// The header and the operations of a storm file, which is read whole.
///
/// `TooLarge` where the file has more than `MOST_BYTES` bytes, before all else. Otherwise the first
/// faulty line is told: `BadHeader`, `BadCommand`, or `MissingNewline` where bytes stand behind the last
/// line end. An empty file is `BadHeader`. `NoMemory` where memory runs out.
/// Source: `docs/FORMATS.md`, "Storm files".
#[tactic(auto, unfolding(crate::specs::Storms::storm_of))]
pub fn read_storm<A: Allocator + Copy>(alloc: A, bytes: &[u8]) -> Result<StormFile<A>, Fault>
    ensures read { Gives (λ storm. (storm.header, storm.deeds.items)) result (storm_of bytes.now) }
    ensures ranges { IfOk result (λ storm. All (IsInRange storm.header) storm.deeds.items) }
{
    if bytes.len() > MOST_BYTES {
        return Err(Fault::TooLarge);
    }
    match first_line(bytes) {
        None if bytes.is_empty() => Err(Fault::BadHeader(1)),
        None => Err(Fault::MissingNewline(1)),
        Some((line, rest)) => {
            let header = header_in(alloc, line, 1)?;
            let deeds = read_operations(alloc, &header, rest)?;
            Ok(StormFile { header, deeds })
        }
    }
}

/// The operations of the lines from line 2 on.
fn read_operations<A: Allocator + Copy>(
    alloc: A,
    header: &Config,
    bytes: &[u8],
) -> Result<Vec<AgentOperation, A>, Fault>
    requires { length bytes.now ≤ 1048576 }
    ensures { Gives (λ operations. operations.items) result (operations_from header.now 2 (lines_of bytes.now)) }
{
    let mut operations = Vec::new(alloc);
    let mut words = Vec::new(alloc);
    let mut rest = bytes;
    let mut number = 2;
    while let Some((line, after)) = first_line(rest) {
        let operation = operation_in(&mut words, header, line, number)?;
        operations.push(operation)?;
        rest = after;
        number += 1;
    }
    if rest.is_empty() {
        Ok(operations)
    } else {
        Err(Fault::MissingNewline(number))
    }
}

/// The operation that a line is; its number is for the fault. The list is room for its words.
fn operation_in<'a, A: Allocator>(
    words: &mut Vec<&'a [u8], A>,
    header: &Config,
    line: &'a [u8],
    number: usize,
) -> Result<AgentOperation, Fault>
    ensures { Gives (λ operation. operation) result (operation_at header.now number line.now) }
{
    read_words(words, line)?;
    read_operation(header, words).ok_or(Fault::BadCommand(number))
}
