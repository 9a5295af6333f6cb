//! Why bytes are no slice.

ghost use Rattle.std.specs.Prelude.{◌≡◌, Some};
ghost use Rattle.chi_snapshot.specs.Faults.{load_fault_text};
ghost use Rattle.chi_snapshot.specs.declared.faults.LoadFault.TheVariants as faults;

use chi_flit::NoMemory as Lack;
use std::error::Error;
use std::fmt;

/// Why bytes are not made a slice.
/// Source: `docs/SNAPSHOTS.md`.
#[derive(Clone, Copy, Debug, PartialEq, Eq)]
pub enum LoadFault {
    /// Memory runs out.
    NoMemory,
    /// They are a snapshot of another version.
    OtherVersion,
    /// They are a slice of another node, or another slice of the node.
    OtherSize,
    /// They are no snapshot, or not as it was saved.
    Damaged,
}

impl fmt::Display for LoadFault {
    ghost output = { λ fault. Some (load_fault_text fault) };

    fn fmt<W: fmt::Write>(&self, f: &mut fmt::Formatter<W>) -> fmt::Result {
        f.write_str(match self {
            LoadFault::NoMemory => "NoMemory",
            LoadFault::OtherVersion => "OtherVersion",
            LoadFault::OtherSize => "OtherSize",
            LoadFault::Damaged => "Damaged",
        })
    }
}

impl Error for LoadFault {}

impl From<Lack> for LoadFault {
    ghost from_gives = { λ _ fault. fault ≡ faults.NoMemory };

    fn from(_lack: Lack) -> LoadFault {
        LoadFault::NoMemory
    }
}
