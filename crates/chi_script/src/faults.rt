//! Why a replay ends without its whole text.

ghost use Rattle.std.specs.Prelude.{◌≡◌, Some};
ghost use Rattle.chi_script.specs.Faults.{fault_text, status_of};
ghost use Rattle.chi_script.specs.declared.faults.Fault.TheVariants.{NoMemory};

use std::alloc::{AllocError, AllocFailed};
use std::fmt;
use thiserror::Error;

/// Why a replay ends without its whole text. The text is the line that the program writes to standard
/// error.
/// Source: `docs/FORMATS.md`, "The program".
#[derive(Clone, Copy, Debug, PartialEq, Eq, Error)]
pub enum Fault {
    /// Memory ran out.
    NoMemory,
    /// This line, counted from 1, is where the header stands, and is none within the limits.
    BadHeader(usize),
    /// This line, counted from 1, is no command.
    BadCommand(usize),
    /// This line, counted from 1, is the last and no line end follows it.
    MissingNewline(usize),
    /// The file has more bytes than one of its kind may have.
    TooLarge,
    /// The input failed.
    Read,
    /// The output failed.
    Write,
}

impl Fault {
    /// The program's status at this fault: 3 for want of memory, and 1 for every other.
    /// Source: `docs/FORMATS.md`, "The program".
    pub fn status(self) -> u8
        ensures { result ≡ status_of self }
    {
        match self {
            Fault::NoMemory => 3,
            Fault::BadHeader(_)
            | Fault::BadCommand(_)
            | Fault::MissingNewline(_)
            | Fault::TooLarge
            | Fault::Read
            | Fault::Write => 1,
        }
    }
}

impl fmt::Display for Fault {
    ghost output = { λ fault. Some (fault_text fault) };

    fn fmt<W: fmt::Write>(&self, f: &mut fmt::Formatter<W>) -> fmt::Result {
        match self {
            Fault::NoMemory => write!(f, "chihome: out of memory"),
            Fault::BadHeader(line) => write!(f, "chihome: line {line}: bad header"),
            Fault::BadCommand(line) => write!(f, "chihome: line {line}: bad command"),
            Fault::MissingNewline(line) => write!(f, "chihome: line {line}: missing newline"),
            Fault::TooLarge => write!(f, "chihome: file too large"),
            Fault::Read => write!(f, "chihome: cannot read"),
            Fault::Write => write!(f, "chihome: cannot write"),
        }
    }
}

impl From<AllocError> for Fault {
    ghost from_gives = { λ _ fault. fault ≡ NoMemory };

    fn from(_lack: AllocError) -> Fault {
        Fault::NoMemory
    }
}

impl From<chi_flit::NoMemory> for Fault {
    ghost from_gives = { λ _ fault. fault ≡ NoMemory };

    fn from(_lack: chi_flit::NoMemory) -> Fault {
        Fault::NoMemory
    }
}

impl<T: Drop> From<AllocFailed<T>> for Fault {
    ghost from_gives = { λ _ fault. fault ≡ NoMemory };

    fn from(_lack: AllocFailed<T>) -> Fault {
        Fault::NoMemory
    }
}
