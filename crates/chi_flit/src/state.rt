//! The cache states of a copy.

ghost use Rattle.std.specs.Prelude.{◌≡◌, Some};
ghost use Rattle.chi_flit.specs.State.{state_text, is_valid, is_unique, is_dirty, state_number, state_numbered};

use std::fmt;

/// The state of one requester's copy of a line (Arm IHI 0050 B, chapter 4).
/// Source: `docs/PROTOCOL.md`, "What is taken from the standard", Cache states.
#[derive(Clone, Copy, Debug, PartialEq, Eq)]
pub enum State {
    /// Invalid: no copy.
    I,
    /// Shared, clean: others may hold the line, and this holder owes memory nothing.
    SC,
    /// Unique, clean: no other cache holds the line, and this holder owes memory nothing.
    UC,
    /// Unique, dirty: no other cache holds the line, and this holder owes memory its value.
    UD,
    /// Shared, dirty: others may hold the line, and this holder owes memory its value.
    SD,
}

impl State {
    /// Whether there is a copy at all: true in every state but `I`.
    /// Source: `docs/PROTOCOL.md`, "What is taken from the standard", Cache states.
    pub fn is_valid(self) -> bool
        ensures { result ≡ is_valid self }
    {
        !matches!(self, State::I)
    }

    /// Whether no other cache may hold the line: true in `UC` and `UD`.
    /// Source: `docs/PROTOCOL.md`, "What is taken from the standard", Cache states.
    pub fn is_unique(self) -> bool
        ensures { result ≡ is_unique self }
    {
        matches!(self, State::UC | State::UD)
    }

    /// Whether the holder owes memory the line's value: true in `UD` and `SD`.
    /// Source: `docs/PROTOCOL.md`, "What is taken from the standard", Cache states.
    pub fn is_dirty(self) -> bool
        ensures { result ≡ is_dirty self }
    {
        matches!(self, State::UD | State::SD)
    }

    /// The state's number, 0 to 4.
    /// Source: `docs/LIBRARY.md`, "Numbers".
    pub fn number(self) -> u8
        ensures { result ≡ state_number self }
    {
        match self {
            State::I => 0,
            State::SC => 1,
            State::UC => 2,
            State::UD => 3,
            State::SD => 4,
        }
    }

    /// The state of a number; `None` above 4.
    /// Source: `docs/LIBRARY.md`, "Numbers".
    pub fn numbered(number: u8) -> Option<State>
        ensures { result ≡ state_numbered number }
    {
        match number {
            0 => Some(State::I),
            1 => Some(State::SC),
            2 => Some(State::UC),
            3 => Some(State::UD),
            4 => Some(State::SD),
            _ => None,
        }
    }

    /// The state's name.
    fn name(self) -> &'static str
        ensures { result.now ≡ state_text self }
    {
        match self {
            State::I => "I",
            State::SC => "SC",
            State::UC => "UC",
            State::UD => "UD",
            State::SD => "SD",
        }
    }
}

impl fmt::Display for State {
    ghost output = { λ state. Some (state_text state) };

    fn fmt<W: fmt::Write>(&self, f: &mut fmt::Formatter<W>) -> fmt::Result {
        f.write_str(self.name())
    }
}
