//! That slices are coherent.

ghost use Rattle.std.specs.Prelude.{All};
ghost use Rattle.chi_slice.specs.Coherence.{IsCoherentSlice};

use chi_slice::Slice;
use std::alloc::Allocator;

/// Each slice is coherent, since a slice keeps this: no line is asked. Does nothing.
pub(crate) fn are_coherent<A: Allocator>(slices: &[Slice<A>])
    ensures { All IsCoherentSlice slices.now }
{
    for slice in slices {
        slice.coherence();
    }
}
