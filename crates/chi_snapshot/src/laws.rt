//! The law of snapshots.

ghost use Rattle.std.specs.Prelude.{◌≡◌};
ghost use Rattle.chi_slice.specs.Slice.{SliceState};
ghost use Rattle.chi_snapshot.specs.Snapshot.{saved};

/// The bytes of a slice are those of no other one: slices with the same bytes are the same, to their sizes, the
/// last flit of each line, and the journal.
/// Source: `docs/SNAPSHOTS.md`.
pub fn a_snapshot_is_of_one_slice()
    ensures { (s t : SliceState) → saved s ≡ saved t → s ≡ t }
{}
