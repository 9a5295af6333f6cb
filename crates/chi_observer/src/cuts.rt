//! The law of traces that begin in the middle.

ghost use Rattle.chi_observer.specs.Tails.{RefusedIsNoTail, TailsAreTaken};

/// The law that an observer which knows of nothing before a trace takes each flit of the trace, where some flits before
/// it make it legal; so what it refuses no worlds explain, whatever was before. Flits from before of which nobody knows
/// their line may be missed, where it is told of their agents.
/// Source: `docs/OBSERVER.md`, "What is proved".
pub fn tails()
    ensures taken { TailsAreTaken }
    ensures refused { RefusedIsNoTail }
{}
