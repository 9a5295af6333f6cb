//! Whether a slice is the one that a line is in.

ghost use Rattle.std.specs.Prelude.{◌≡◌, ◌↔◌, IsTrue};
ghost use Rattle.chi_node.specs.Node.{IsSliceOf};

use chi_flit::Line;
use chi_slice::{Config, Slice};
use std::alloc::Allocator;

/// Whether the two sizes are the same.
fn are_same(one: &Config, other: &Config) -> bool
    ensures { IsTrue result ↔ (one.now ≡ other.now) }
{
    let counts = one.agents() == other.agents()
        && one.lines() == other.lines()
        && one.slices() == other.slices();
    let journal = one.journal() == other.journal();
    let entries = one.entries() == other.entries();
    let profile = one.profile() == other.profile();
    counts && journal && entries && profile
}

/// Whether the slice is one of a node of that size, and the one that the line is in.
pub(crate) fn is_slice_of<A: Allocator>(slice: &Slice<A>, config: &Config, line: Line) -> bool
    ensures { IsTrue result ↔ IsSliceOf config.now line.0 slice.now }
{
    are_same(slice.config(), config) && slice.index() == config.slice_of(line)
}
