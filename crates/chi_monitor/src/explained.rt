//! Explanations that were found by the search, and done by chi_explain: that they hold is proved.

ghost use Rattle.std.specs.Prelude.{IfErr, IfOk, IfSome};
ghost use Rattle.chi_monitor.specs.Places.{IsToldFault};
ghost use Rattle.chi_explain.specs.Explained.{IsExplained};

use crate::faults::LineFault;
use crate::search::{Witness, search_line};
use chi_explain::{Observed, StoreListing, Unexplained, explain_line};
use chi_slice::Config;
use std::alloc::Allocator;

/// Why there is no explanation.
/// Source: `docs/TRACES.md`, "Explanations".
#[derive(Clone, Copy, Debug, PartialEq, Eq)]
pub enum NoExplanation {
    /// Memory ran out while it was looked for.
    NoMemory,
    /// No run of the model sends or does this, counted from 0 in what was seen, behind that before it.
    Fault(usize, LineFault),
    /// Actions were found that don't explain what was seen.
    Undone(Unexplained),
}

/// Actions of a node of this size that explain what was seen of a line: they were found, and then done and compared
/// with it. Where all stores are listed no others are among them.
///
/// `Fault` where none are found, with the first flit, load or store that no run of the model sends or does.
/// Source: `docs/TRACES.md`, "Explanations".
pub fn explain_flits<A: Allocator + Copy>(
    alloc: A,
    config: &Config,
    stores: StoreListing,
    seen: &[Observed],
) -> Result<Witness<A>, NoExplanation>
    ensures explained { IfOk result
        (λ witness. IsExplained config.now stores witness.memory witness.items.items seen.now) }
    ensures told { IfErr result (IsToldFault config.now stores seen.now) }
{
    let witness = search_line(alloc, config, stores, seen)?;
    match explain_line(alloc, config, stores, witness.memory, &witness.items, seen) {
        Ok(()) => Ok(witness),
        Err(undone) => Err(NoExplanation::Undone(undone)),
    }
}

/// The first of what was seen, counted from 0, that no run of the model sends or does behind that before it, and why,
/// as `Fault`; nothing is done. `None` where there is no such, `NoMemory` where memory runs out.
/// Source: `docs/TRACES.md`, "Explanations".
pub fn first_fault<A: Allocator + Copy>(
    alloc: A,
    config: &Config,
    stores: StoreListing,
    seen: &[Observed],
) -> Option<NoExplanation>
    ensures { IfSome result (IsToldFault config.now stores seen.now) }
{
    search_line(alloc, config, stores, seen).err()
}
