//! Why a command line isn't followed.

ghost use Rattle.std.specs.Prelude.{◌≡◌, Some};
ghost use Rattle.chi_program.specs.Faults.{argument_fault_status, argument_fault_text, fault_at};
ghost use Rattle.clap.specs.Values.{kind_of};
ghost use Rattle.chi_program.specs.declared.faults.ArgFault.TheVariants.{NoMemory};

use clap::Error;
use clap::error::ErrorKind;
use std::alloc::AllocError;
use std::fmt;

/// Why a command line isn't followed. The text is the line that the program writes to standard error.
/// Source: `docs/FORMATS.md`, "The program".
#[derive(Clone, Copy, Debug, PartialEq, Eq)]
pub enum ArgFault {
    /// The words are no command line of the program. Asking for help is that too.
    Bad,
    /// Memory ran out while the words were read.
    NoMemory,
}

impl ArgFault {
    /// The program's status at this fault: 4 for bad arguments, 3 for want of memory.
    /// Source: `docs/FORMATS.md`, "The program".
    pub fn status(self) -> u8
        ensures { result ≡ argument_fault_status self }
    {
        match self {
            ArgFault::Bad => 4,
            ArgFault::NoMemory => 3,
        }
    }
}

impl fmt::Display for ArgFault {
    ghost output = { λ fault. Some (argument_fault_text fault) };

    fn fmt<W: fmt::Write>(&self, f: &mut fmt::Formatter<W>) -> fmt::Result {
        match self {
            ArgFault::Bad => write!(f, "chihome: bad arguments"),
            ArgFault::NoMemory => write!(f, "chihome: out of memory"),
        }
    }
}

impl From<AllocError> for ArgFault {
    ghost from_gives = { λ _ fault. fault ≡ NoMemory };

    fn from(_lack: AllocError) -> ArgFault {
        ArgFault::NoMemory
    }
}

impl From<Error> for ArgFault {
    ghost from_gives = { λ error fault. fault ≡ fault_at (kind_of error) };

    fn from(error: Error) -> ArgFault {
        match error.kind() {
            ErrorKind::OutOfMemory => ArgFault::NoMemory,
            _ => ArgFault::Bad,
        }
    }
}
