//! Why a call is refused.

ghost use Rattle.std.specs.Prelude.{◌≡◌, Some};
ghost use Rattle.chi_flit.specs.Refusal.{refusal_number, refusal_text};
ghost use Rattle.chi_flit.specs.declared.refusal.Refusal.TheVariants as refusals;

use std::alloc::{AllocError, AllocFailed};
use std::error::Error;
use std::fmt;

/// Why a call is refused. After a refusal all that the call was lent is as before.
/// Source: `docs/PROTOCOL.md`, "Refusals".
#[derive(Clone, Copy, Debug, PartialEq, Eq)]
pub enum Refusal {
    /// 1: the journal holds exactly its limit.
    JournalFull,
    /// 2: the copy's state doesn't allow it.
    WrongState,
    /// 3: a request of this agent to the line is pending, or the slot is in use.
    Pending,
    /// 4: no request of this agent to the line is in phase Retried.
    NothingPending,
    /// 5: the line is serving a request.
    LineBusy,
    /// 6: the agent has no request that waits at this line.
    NotWaiting,
    /// 7: no flit of that message is in flight for that agent and line.
    NoFlit,
    /// 8: a growth was really refused.
    NoMemory,
    /// 9: a request without AllowRetry can't be retried.
    MustAccept,
    /// 10: an agent, line, word, slot or type outside its range, or a line of another slice.
    OutOfRange,
    /// 11: the requester's account doesn't agree with the slice.
    NotOpen,
    /// 12: no seen credit is unreserved, or there is no cancelled slot of the type to give one back for.
    NoCredit,
}

/// Memory ran out: refusal 8, by itself.
/// Source: `docs/PROTOCOL.md`, "Refusals".
#[derive(Clone, Copy, Debug, PartialEq, Eq)]
pub struct NoMemory;

impl Refusal {
    /// The refusal's number, 1 to 12.
    /// Source: `docs/PROTOCOL.md`, "Refusals".
    pub fn number(self) -> u8
        ensures { result ≡ refusal_number self }
    {
        match self {
            Refusal::JournalFull => 1,
            Refusal::WrongState => 2,
            Refusal::Pending => 3,
            Refusal::NothingPending => 4,
            Refusal::LineBusy => 5,
            Refusal::NotWaiting => 6,
            Refusal::NoFlit => 7,
            Refusal::NoMemory => 8,
            Refusal::MustAccept => 9,
            Refusal::OutOfRange => 10,
            Refusal::NotOpen => 11,
            Refusal::NoCredit => 12,
        }
    }

    /// The refusal's name.
    fn name(self) -> &'static str
        ensures { result.now ≡ refusal_text self }
    {
        match self {
            Refusal::JournalFull => "JournalFull",
            Refusal::WrongState => "WrongState",
            Refusal::Pending => "Pending",
            Refusal::NothingPending => "NothingPending",
            Refusal::LineBusy => "LineBusy",
            Refusal::NotWaiting => "NotWaiting",
            Refusal::NoFlit => "NoFlit",
            Refusal::NoMemory => "NoMemory",
            Refusal::MustAccept => "MustAccept",
            Refusal::OutOfRange => "OutOfRange",
            Refusal::NotOpen => "NotOpen",
            Refusal::NoCredit => "NoCredit",
        }
    }
}

impl fmt::Display for Refusal {
    ghost output = { λ refusal. Some (refusal_text refusal) };

    fn fmt<W: fmt::Write>(&self, f: &mut fmt::Formatter<W>) -> fmt::Result {
        f.write_str(self.name())
    }
}

impl Error for Refusal {}

impl fmt::Display for NoMemory {
    ghost output = { λ _. Some (refusal_text refusals.NoMemory) };

    fn fmt<W: fmt::Write>(&self, f: &mut fmt::Formatter<W>) -> fmt::Result {
        f.write_str("NoMemory")
    }
}

impl Error for NoMemory {}

impl From<NoMemory> for Refusal {
    ghost from_gives = { λ _ refusal. refusal ≡ refusals.NoMemory };

    fn from(_lack: NoMemory) -> Refusal {
        Refusal::NoMemory
    }
}

impl From<AllocError> for NoMemory {
    fn from(_lack: AllocError) -> NoMemory {
        NoMemory
    }
}

impl<T: Drop> From<AllocFailed<T>> for NoMemory {
    fn from(_lack: AllocFailed<T>) -> NoMemory {
        NoMemory
    }
}
