//! The kinds of request.

ghost use Rattle.std.specs.Prelude.{◌≡◌, Some};
ghost use Rattle.chi_flit.specs.Kind.{gives_up, is_needed, snoop_of, is_copy_back, kind_text, kind_number, kind_numbered};

use crate::snoop::Snoop;
use crate::state::State;
use std::fmt;

/// A kind of request that a fully coherent requester issues (Arm IHI 0050 B, chapter 4).
/// Source: `docs/PROTOCOL.md`, "Kinds of request".
#[derive(Clone, Copy, Debug, PartialEq, Eq)]
pub enum Kind {
    /// A read that never leaves its requester in `SD`.
    ReadNotSharedDirty,
    /// A read that accepts any shared state.
    ReadShared,
    /// A read that leaves its requester the only holder.
    ReadUnique,
    /// Makes a shared holder the only one, without data.
    CleanUnique,
    /// Tells the home that a clean copy is gone.
    Evict,
    /// Writes a dirty copy back and gives it up.
    WriteBackFull,
    /// Writes a dirty copy back and keeps it clean.
    WriteCleanFull,
    /// Hands a unique clean copy back and gives it up.
    WriteEvictFull,
}

impl Kind {
    /// The kind's number, 0 to 7.
    /// Source: `docs/LIBRARY.md`, "Numbers".
    pub fn number(self) -> u8
        ensures { result ≡ kind_number self }
    {
        match self {
            Kind::ReadNotSharedDirty => 0,
            Kind::ReadShared => 1,
            Kind::ReadUnique => 2,
            Kind::CleanUnique => 3,
            Kind::Evict => 4,
            Kind::WriteBackFull => 5,
            Kind::WriteCleanFull => 6,
            Kind::WriteEvictFull => 7,
        }
    }

    /// The kind of a number; `None` above 7.
    /// Source: `docs/LIBRARY.md`, "Numbers".
    pub fn numbered(number: u8) -> Option<Kind>
        ensures { result ≡ kind_numbered number }
    {
        match number {
            0 => Some(Kind::ReadNotSharedDirty),
            1 => Some(Kind::ReadShared),
            2 => Some(Kind::ReadUnique),
            3 => Some(Kind::CleanUnique),
            4 => Some(Kind::Evict),
            5 => Some(Kind::WriteBackFull),
            6 => Some(Kind::WriteCleanFull),
            7 => Some(Kind::WriteEvictFull),
            _ => None,
        }
    }

    /// The kind's name.
    fn name(self) -> &'static str
        ensures { result.now ≡ kind_text self }
    {
        match self {
            Kind::ReadNotSharedDirty => "ReadNotSharedDirty",
            Kind::ReadShared => "ReadShared",
            Kind::ReadUnique => "ReadUnique",
            Kind::CleanUnique => "CleanUnique",
            Kind::Evict => "Evict",
            Kind::WriteBackFull => "WriteBackFull",
            Kind::WriteCleanFull => "WriteCleanFull",
            Kind::WriteEvictFull => "WriteEvictFull",
        }
    }

    /// Whether a copy in `state` is in the state that this kind needs at its issue. A copy-back that was
    /// retried needs it again where it is resent; no other kind does.
    /// Source: `docs/PROTOCOL.md`, "Kinds of request".
    pub fn needs(self, state: State) -> bool
        ensures { result ≡ is_needed self state }
    {
        match self {
            Kind::ReadNotSharedDirty | Kind::ReadShared | Kind::ReadUnique => {
                matches!(state, State::I)
            }
            Kind::CleanUnique => matches!(state, State::SC | State::SD),
            Kind::Evict => matches!(state, State::SC | State::UC),
            Kind::WriteBackFull | Kind::WriteCleanFull => matches!(state, State::UD | State::SD),
            Kind::WriteEvictFull => matches!(state, State::UC),
        }
    }

    /// The snoop by which the home serves this kind; `None` for a kind that snoops nobody.
    /// Source: `docs/PROTOCOL.md`, "Kinds of request".
    pub fn snoop(self) -> Option<Snoop>
        ensures { result ≡ snoop_of self }
    {
        match self {
            Kind::ReadNotSharedDirty => Some(Snoop::SnpNotSharedDirty),
            Kind::ReadShared => Some(Snoop::SnpShared),
            Kind::ReadUnique => Some(Snoop::SnpUnique),
            Kind::CleanUnique => Some(Snoop::SnpCleanInvalid),
            Kind::Evict | Kind::WriteBackFull | Kind::WriteCleanFull | Kind::WriteEvictFull => None,
        }
    }

    /// Whether this kind ends with write data: `WriteBackFull`, `WriteCleanFull` and `WriteEvictFull`.
    /// Source: `docs/PROTOCOL.md`, "Kinds of request".
    pub fn is_copy_back(self) -> bool
        ensures { result ≡ is_copy_back self }
    {
        matches!(
            self,
            Kind::WriteBackFull | Kind::WriteCleanFull | Kind::WriteEvictFull
        )
    }

    /// Whether write data of this kind leaves its sender without a copy: of the copy-backs
    /// `WriteCleanFull` alone keeps it.
    /// Source: `docs/PROTOCOL.md`, "Kinds of request".
    pub fn gives_up(self) -> bool
        ensures { result ≡ gives_up self }
    {
        matches!(self, Kind::WriteBackFull | Kind::WriteEvictFull)
    }
}

impl fmt::Display for Kind {
    ghost output = { λ kind. Some (kind_text kind) };

    fn fmt<W: fmt::Write>(&self, f: &mut fmt::Formatter<W>) -> fmt::Result {
        f.write_str(self.name())
    }
}
