//! Why a file is no trace.

ghost use Rattle.chi_trace.specs.declared.faults.TraceFault.TheVariants.{NoMemory};
ghost use Rattle.std.specs.Prelude.{◌≡◌};

use crate::columns::Column;
use std::alloc::{AllocError, AllocFailed};

/// Why a file is no trace. Lines are counted from 1.
/// Source: `docs/TRACES.md`, "Traces".
#[derive(Clone, Copy, Debug, PartialEq, Eq)]
pub enum TraceFault {
    /// Memory ran out.
    NoMemory,
    /// The file has more than `MOST_BYTES` bytes.
    TooLarge,
    /// The bytes are those of a compressed file.
    Gzip,
    /// This line has more than `MOST_LINE_BYTES` bytes.
    LongLine(usize),
    /// This line is the last and no line end follows it.
    MissingNewline(usize),
    /// This line has words, and fewer than eleven.
    FewWords(usize),
    /// A word of this line is wrong: the one in this column.
    BadWord { line: usize, column: Column },
}

impl From<AllocError> for TraceFault {
    ghost from_gives = { λ _ fault. fault ≡ NoMemory };

    fn from(_lack: AllocError) -> TraceFault {
        TraceFault::NoMemory
    }
}

impl<T: Drop> From<AllocFailed<T>> for TraceFault {
    ghost from_gives = { λ _ fault. fault ≡ NoMemory };

    fn from(_lack: AllocFailed<T>) -> TraceFault {
        TraceFault::NoMemory
    }
}
