//! What is numbered: agents, lines, slots, entries and words; and the data of a line.

ghost use Rattle.std.specs.Prelude.{Some};
ghost use Rattle.std.specs.Fmt.{decimal};

use std::fmt;

/// A requester (RN-F), by its number from 0.
/// Source: `docs/PROTOCOL.md`, "The system".
#[derive(Clone, Copy, Debug, PartialEq, Eq)]
pub struct Agent(pub u8);

/// A cache line of 64 bytes, by its number from 0.
/// Source: `docs/PROTOCOL.md`, "What is taken from the standard", The home.
#[derive(Clone, Copy, Debug, PartialEq, Eq)]
pub struct Line(pub u8);

/// One of a requester's eight transaction slots, by its number from 0.
/// Source: `docs/PROTOCOL.md`, "Slots and accounts".
#[derive(Clone, Copy, Debug, PartialEq, Eq)]
pub struct Slot(pub u8);

/// An entry of the home's tracker, by its number from 0.
/// Source: `docs/PROTOCOL.md`, "Limits".
#[derive(Clone, Copy, Debug, PartialEq, Eq)]
pub struct Entry(pub u8);

/// One of the eight words of 64 bits in a line, by its number from 0.
/// Source: `docs/PROTOCOL.md`, "What is chosen here".
#[derive(Clone, Copy, Debug, PartialEq, Eq)]
pub struct WordNo(pub u8);

/// The eight words of a line, by their numbers.
/// Source: `docs/PROTOCOL.md`, "What is chosen here".
pub type Data = [u64; 8];

/// A line whose words are all 0, as memory is at first.
/// Source: `docs/PROTOCOL.md`, "One line".
pub const NO_DATA: Data = [0; 8];

impl fmt::Display for Agent {
    ghost output = { λ agent. Some (decimal agent.0) };

    fn fmt<W: fmt::Write>(&self, f: &mut fmt::Formatter<W>) -> fmt::Result {
        let agent = self.0;
        write!(f, "{agent}")
    }
}

impl fmt::Display for Line {
    ghost output = { λ line. Some (decimal line.0) };

    fn fmt<W: fmt::Write>(&self, f: &mut fmt::Formatter<W>) -> fmt::Result {
        let line = self.0;
        write!(f, "{line}")
    }
}

impl fmt::Display for Slot {
    ghost output = { λ slot. Some (decimal slot.0) };

    fn fmt<W: fmt::Write>(&self, f: &mut fmt::Formatter<W>) -> fmt::Result {
        let slot = self.0;
        write!(f, "{slot}")
    }
}

impl fmt::Display for Entry {
    ghost output = { λ entry. Some (decimal entry.0) };

    fn fmt<W: fmt::Write>(&self, f: &mut fmt::Formatter<W>) -> fmt::Result {
        let entry = self.0;
        write!(f, "{entry}")
    }
}

impl fmt::Display for WordNo {
    ghost output = { λ word. Some (decimal word.0) };

    fn fmt<W: fmt::Write>(&self, f: &mut fmt::Formatter<W>) -> fmt::Result {
        let word = self.0;
        write!(f, "{word}")
    }
}
