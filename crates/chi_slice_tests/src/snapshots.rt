//! A slice that is saved is loaded as it was. What isn't as it was saved is refused by `tests/c`.

ghost use Rattle.std.specs.Prelude.{◌≡◌};

use crate::places::{WALK, goes_by, node};
use chi_flit::Profile;
use chi_slice::{Config, Slice};
use chi_snapshot::{load, save};
use std::alloc::Global;
use std::process::Abort;

/// Whether the slice, saved and loaded again, is found the same.
fn is_same_again(rt: &impl Abort, alloc: Global, slice: &Slice<Global>) -> bool {
    let bytes = save(slice, alloc).expect(rt, "memory for a snapshot");
    match load(alloc, slice.config(), slice.index(), &bytes) {
        Ok(again) => again.equals(slice),
        Err(_) => false,
    }
}

/// The one slice of the node is loaded as it was saved after each step of the walk.
fn is_loaded_along(rt: &impl Abort, alloc: Global, config: &Config)
    requires { config.now.slices ≡ 1 }
{
    let mut slice = Slice::new(alloc, config, 0).expect(rt, "memory for a slice");
    for row in &WALK {
        assert!(rt; goes_by(&mut slice, row), "{row:?}");
        assert!(rt; is_same_again(rt, alloc, &slice), "after {row:?}");
    }
}

/// A node of one slice whose journal keeps no records.
fn unrecorded(rt: &impl Abort) -> Config
    ensures { result.slices ≡ 1 }
{
    Config::without_records(3, 5, 1, Profile::Four, [1; 4]).expect(rt, "sizes in their limits")
}

#[test]
fn a_slice_is_loaded_as_it_was_saved(rt: HostRuntime) {
    is_loaded_along(&rt, rt.alloc(), &node(&rt, 1));
    is_loaded_along(&rt, rt.alloc(), &unrecorded(&rt));
}
