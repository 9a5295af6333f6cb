//! Types of protocol credit, and which kind of request takes which.

ghost use Rattle.std.specs.Prelude.{◌≡◌, Some};
ghost use Rattle.chi_flit.specs.Credit.{credit_number, credit_text, credit_type_of};
ghost use Rattle.chi_flit.specs.Numbers.{credit_of};

use crate::kind::Kind;
use std::fmt;

/// A type of protocol credit: each tracker entry belongs to one, and a retried request waits for a credit
/// of its type (Arm IHI 0050 B, chapter 2).
/// Source: `docs/PROTOCOL.md`, "What is taken from the standard", Retry.
#[derive(Clone, Copy, Debug, PartialEq, Eq)]
pub enum CreditType {
    T0,
    T1,
    T2,
    T3,
}

/// How many credit types there are, and so which kinds share one.
/// Source: `docs/PROTOCOL.md`, "What is chosen here" and "Kinds of request".
#[derive(Clone, Copy, Debug, PartialEq, Eq)]
pub enum Profile {
    /// Types 0 and 1: copy-backs have type 1, all other kinds type 0.
    Two,
    /// Types 0 to 3: shared reads, copy-backs, unique requests and evictions.
    Four,
}

impl CreditType {
    /// The type's number, 0 to 3.
    /// Source: `docs/PROTOCOL.md`, "Kinds of request".
    pub fn number(self) -> u8
        ensures { result ≡ credit_number self }
    {
        match self {
            CreditType::T0 => 0,
            CreditType::T1 => 1,
            CreditType::T2 => 2,
            CreditType::T3 => 3,
        }
    }

    /// The type of a number; `None` above 3.
    /// Source: `docs/PROTOCOL.md`, "Kinds of request".
    pub fn numbered(number: u8) -> Option<CreditType>
        ensures { result ≡ credit_of number }
    {
        match number {
            0 => Some(CreditType::T0),
            1 => Some(CreditType::T1),
            2 => Some(CreditType::T2),
            3 => Some(CreditType::T3),
            _ => None,
        }
    }
}

/// The credit type of a request of this kind.
/// Source: `docs/PROTOCOL.md`, "Kinds of request".
pub fn credit_type(profile: Profile, kind: Kind) -> CreditType
    ensures { result ≡ credit_type_of profile kind }
{
    match (profile, kind) {
        (_, Kind::ReadNotSharedDirty | Kind::ReadShared) => CreditType::T0,
        (_, Kind::WriteBackFull | Kind::WriteCleanFull | Kind::WriteEvictFull) => CreditType::T1,
        (Profile::Two, Kind::ReadUnique | Kind::CleanUnique | Kind::Evict) => CreditType::T0,
        (Profile::Four, Kind::ReadUnique | Kind::CleanUnique) => CreditType::T2,
        (Profile::Four, Kind::Evict) => CreditType::T3,
    }
}

impl fmt::Display for CreditType {
    ghost output = { λ ty. Some (credit_text ty) };

    fn fmt<W: fmt::Write>(&self, f: &mut fmt::Formatter<W>) -> fmt::Result {
        f.write_str(match self {
            CreditType::T0 => "0",
            CreditType::T1 => "1",
            CreditType::T2 => "2",
            CreditType::T3 => "3",
        })
    }
}
