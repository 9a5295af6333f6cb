//! What an audit finds: whether slices are coherent, and what their journals have.

ghost use Rattle.std.specs.Prelude.{◌≡◌, ◌≤◌, ◌↔◌, IsTrue, length, true};
ghost use Rattle.chi_slice.specs.Audits.{IsAudited};
ghost use Rattle.chi_slice.specs.Coherence.{AreLinesCoherent, IsCoherentSlice, IsLineCoherent};

use crate::slice::Slice;
use crate::verdict::is_line_coherent;
use chi_flit::Line;
use std::alloc::Allocator;

/// How many loads and stores the journals of a node have, and whether its lines are coherent and its
/// journals legal.
/// Source: `docs/FORMATS.md`, "Replay files".
#[derive(Clone, Copy, Debug, PartialEq, Eq)]
pub struct Audit {
    pub loads: u64,
    pub stores: u64,
    pub coherent: bool,
}

/// How many loads and stores the journals of slices have together, and whether each slice is coherent.
/// Takes no memory.
/// Source: `docs/FORMATS.md`, "Replay files".
pub fn audit_of<A: Allocator>(slices: &[Slice<A>]) -> Audit
    requires { length slices.now ≤ 64 }
    ensures { IsAudited slices.now result.loads result.stores result.coherent }
{
    let (mut loads, mut stores, mut coherent) = (0, 0, true);
    for slice in slices {
        let journal = slice.journal();
        loads += journal.loads();
        stores += journal.stores();
        coherent &= check_slice(slice);
    }
    Audit {
        loads,
        stores,
        coherent,
    }
}

/// Whether each line of a slice is coherent, and its journal is legal. It asks each line and the journal,
/// where they are, and answers true of every slice, since a slice keeps this. Takes no memory.
/// Source: `docs/PROTOCOL.md`, "Coherence", and `docs/FORMATS.md`, "Replay files".
pub fn check_slice<A: Allocator>(slice: &Slice<A>) -> bool
    ensures verdict { IsTrue result ↔ IsCoherentSlice slice.now }
    ensures always { result ≡ true }
{
    slice.coherence();
    are_lines_coherent(slice) && slice.journal().legal()
}

/// Whether each line of a slice is coherent.
fn are_lines_coherent<A: Allocator>(slice: &Slice<A>) -> bool
    ensures { IsTrue result ↔ AreLinesCoherent slice.now }
{
    let lines = slice.config().lines();
    let mut coherent = true;
    for line in 0..lines {
        coherent &= is_coherent_if_there(slice, Line(line));
    }
    coherent
}

/// Whether a line is coherent, if it is in the slice.
fn is_coherent_if_there<A: Allocator>(slice: &Slice<A>, line: Line) -> bool
    ensures { IsTrue result ↔ IsLineCoherent slice.now line.0 }
{
    match slice.line(line) {
        Some(at) => is_line_coherent(at, slice.journal().last_words(line)),
        None => true,
    }
}
