//! The law that ties logs taken at the home to caches whose flits are on their way.

ghost use Rattle.chi_observer.specs.Late.{CopiesGoTogether, FlitsOnTheirWayAreTaken};

/// The law of each log that is taken, in which no request is retried or completed ahead of an answer or write data of its
/// agent, none retried while the copy is unsure, and none sent again ahead of an answer; with all caches that stores, drops
/// and cancels which nobody saw, and flits on their way in whatever order, explain it by: a flit that one of them has on its
/// way, but for a request that is sent again, is taken when it comes, sets the line aside, or is a fault by its words alone;
/// and their copies go together.
/// Source: `docs/OBSERVER.md`, "Seen at the home".
pub fn late_flits()
    ensures taken { FlitsOnTheirWayAreTaken }
    ensures together { CopiesGoTogether }
{}
