//! What is due of an agent's request, as one byte.

ghost use Rattle.std.specs.Prelude.{◌≡◌, ◌<◌};
ghost use Rattle.chi_observer.specs.Rules.{awaits_moment as awaits, is_busy as busy, overwrites, reads_once};
ghost use Rattle.chi_copies.specs.Dues.{due_is, kind_at};

use chi_observer::{Due, Kind};

/// What is due next of an agent's request, as one byte: its upper half says what, and its lower half of which kind of request.
/// Questions to all agents are asked of their bytes, which stand side by side. Each byte stands for something.
/// Source: `docs/COPIES.md`, "What is kept".
#[derive(Clone, Copy, Debug, PartialEq, Eq)]
pub struct DueCode(pub u8);

/// Nothing is due.
/// Source: `docs/COPIES.md`, "What is kept".
pub const NOTHING_DUE: DueCode = DueCode(0);

/// The number of a kind.
fn kind_number(kind: Kind) -> u8
    ensures low { result < 16 }
    ensures of { kind_at result ≡ kind }
{
    match kind {
        Kind::ReadNotSharedDirty => 0,
        Kind::ReadShared => 1,
        Kind::ReadClean => 2,
        Kind::ReadOnce => 3,
        Kind::ReadUnique => 4,
        Kind::CleanUnique => 5,
        Kind::MakeUnique => 6,
        Kind::CleanShared => 7,
        Kind::CleanInvalid => 8,
        Kind::MakeInvalid => 9,
        Kind::Evict => 10,
        Kind::WriteBackFull => 11,
        Kind::WriteCleanFull => 12,
        Kind::WriteEvictFull => 13,
        Kind::WriteUniqueFull => 14,
    }
}

/// The kind of a number.
fn kind_at(number: u8) -> Kind
    ensures { result ≡ kind_at number }
{
    match number {
        0 => Kind::ReadNotSharedDirty,
        1 => Kind::ReadShared,
        2 => Kind::ReadClean,
        3 => Kind::ReadOnce,
        4 => Kind::ReadUnique,
        5 => Kind::CleanUnique,
        6 => Kind::MakeUnique,
        7 => Kind::CleanShared,
        8 => Kind::CleanInvalid,
        9 => Kind::MakeInvalid,
        10 => Kind::Evict,
        11 => Kind::WriteBackFull,
        12 => Kind::WriteCleanFull,
        13 => Kind::WriteEvictFull,
        _ => Kind::WriteUniqueFull,
    }
}

impl DueCode {
    /// The byte of what is due.
    /// Source: `docs/COPIES.md`, "What is kept".
    pub fn encode(due: Due) -> DueCode
        ensures { due_is result ≡ due }
    {
        match due {
            Due::Nothing => NOTHING_DUE,
            Due::Completion(kind) => DueCode(16 + kind_number(kind)),
            Due::Resending(kind) => DueCode(32 + kind_number(kind)),
            Due::SureCompletion(kind) => DueCode(48 + kind_number(kind)),
            Due::WriteData(kind) => DueCode(128 + kind_number(kind)),
            Due::Acknowledgement => DueCode(144),
        }
    }

    /// What is due.
    /// Source: `docs/COPIES.md`, "What is kept".
    pub fn due(self) -> Due
        ensures { result ≡ due_is self }
    {
        let kind = kind_at(self.0 % 16);
        match self.0 / 16 {
            1 => Due::Completion(kind),
            2 => Due::Resending(kind),
            3 => Due::SureCompletion(kind),
            8 => Due::WriteData(kind),
            9 => Due::Acknowledgement,
            _ => Due::Nothing,
        }
    }

    /// Whether a moment is needed before the request is completed.
    pub(crate) fn awaits_moment(self) -> bool
        ensures { result ≡ awaits (due_is self) }
    {
        15 < self.0 && (self.0 < 64 && (self.0 % 16 < 8 && self.0 % 4 == 3))
    }

    /// Whether a ReadOnce is open.
    pub(crate) fn reads_once(self) -> bool
        ensures { result ≡ reads_once (due_is self) }
    {
        15 < self.0 && (self.0 < 64 && self.0 % 16 == 3)
    }

    /// Whether a request is open for which copies may be thrown away.
    pub(crate) fn overwrites(self) -> bool
        ensures { result ≡ overwrites (due_is self) }
    {
        15 < self.0
            && (self.0 < 64
                && (!(self.0 / 16 == 2)
                    && (self.0 % 16 == 6 || (self.0 % 16 == 9 || 13 < self.0 % 16))))
    }

    /// Whether a CompAck or write data are due.
    pub(crate) fn is_busy(self) -> bool
        ensures { result ≡ busy (due_is self) }
    {
        127 < self.0 && self.0 < 160
    }
}
