//! A law of the slice and the observer.

ghost use Rattle.chi_conformity.specs.Conformity.{SlicesConform};

use chi_observer::{cache_flits, counted_loads, home_flits, meaning};

/// The law that an observer of a line takes each flit that the actions of a slice send there, in the order in which they
/// are sent, and each load and store there, whatever the actions are, whether stores may be hidden or all are listed.
/// Source: `docs/OBSERVER.md`, "What is proved".
pub fn a_slice_conforms()
    ensures taken { SlicesConform }
{
    meaning();
    cache_flits();
    counted_loads();
    home_flits();
}
