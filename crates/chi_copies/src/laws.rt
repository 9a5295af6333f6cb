//! Laws of the rules.

ghost use Rattle.chi_copies.specs.Laws.{MeaningIsCoherent, MeaningIsClosed, MeaningLoosens, MeaningRewinds, EachIsInSome, CacheFlitsAreTaken, CacheFlitsLead, CacheFlitsKeepSound, MeaningComes, HomeFlitsKeepSound, HomeFlitsAreSafe, HomeFlitsLead, HomeFlitsArePossible, SafeFlitsAreTaken, MeaningComesByHome};
ghost use Rattle.chi_copies.specs.Told.{NewIsTold, TakenIsTold, TakenIsAccepted, AcceptedIsTaken};
ghost use Rattle.chi_copies.specs.Runs.{LegalIsAccepted, AcceptedIsLegal, AcceptedIsExact, AcceptedIsCoherent};
ghost use Rattle.chi_copies.specs.Values.{ReadOnceShowsValue};
ghost use Rattle.chi_copies.specs.Above.{AboveTakes, StaysAbove, AboveMeansMore, SoundIsAbove, NothingIsAboveAll};
ghost use Rattle.chi_copies.specs.Tails.{TailsAreTaken, RefusedIsNoTail, ReturnsAreTaken, RefusedIsNoReturn};
ghost use Rattle.chi_copies.specs.Unjudged.{FlitsAreCounted, OverBegunLeavesOnly, OverLeavesRetried};
ghost use Rattle.chi_copies.specs.Prompt.{BeginsPrompt, PromptFlitsAreTaken, StaysPrompt, StaysPromptGiven, PromptGivenIsTaken, PromptLogsAreTaken};

/// The law that each world that the sets stand for is coherent, that hidden steps lead to just those that they stand for, and that
/// each copy of a set is in some world.
/// Source: `docs/COPIES.md`, "What is proved".
pub fn meaning()
    ensures coherent { MeaningIsCoherent }
    ensures closed { MeaningIsClosed }
    ensures loosens { MeaningLoosens }
    ensures rewinds { MeaningRewinds }
    ensures some { EachIsInSome }
{}

/// The law that a flit of a cache is taken where some world sends it, and leads to just the worlds that it leaves.
/// Source: `docs/COPIES.md`, "What is proved".
pub fn cache_flits()
    ensures taken { CacheFlitsAreTaken }
    ensures leads { CacheFlitsLead }
    ensures sound { CacheFlitsKeepSound }
    ensures comes { MeaningComes }
{}

/// The law that a flit of the home is taken exactly where it is safe in each world that it may be sent in, and leads to just the
/// worlds that it leaves.
/// Source: `docs/COPIES.md`, "What is proved".
pub fn home_flits()
    ensures sound { HomeFlitsKeepSound }
    ensures safe { HomeFlitsAreSafe }
    ensures leads { HomeFlitsLead }
    ensures possible { HomeFlitsArePossible }
    ensures taken { SafeFlitsAreTaken }
    ensures comes { MeaningComesByHome }
{}

/// The law of whole traces, with the words of loads and stores: a trace is accepted exactly where it is legal, the worlds behind an
/// accepted one are those that the sets stand for, all of them are coherent, and the words that complete a ReadOnce were the value
/// last stored right behind a flit since its issue.
/// Source: `docs/COPIES.md`, "What is proved".
pub fn traces()
    ensures accepted { LegalIsAccepted }
    ensures legal { AcceptedIsLegal }
    ensures exact { AcceptedIsExact }
    ensures coherent { AcceptedIsCoherent }
    ensures values { ReadOnceShowsValue }
{}

/// The law that sets that think more copies possible, and know less of the words, take each flit of a cache that others take, and go
/// on to think so; so do sets that know nothing.
/// Source: `docs/COPIES.md`, "What is proved".
pub fn above()
    ensures takes { AboveTakes }
    ensures stays { StaysAbove }
    ensures means { AboveMeansMore }
    ensures sound { SoundIsAbove }
    ensures nothing { NothingIsAboveAll }
{}

/// The law of a line's calls: a new `Line` is told nothing, one that takes a flit is told it, and it takes a flit exactly where the
/// trace is accepted with it.
/// Source: `docs/COPIES.md`, "What is proved".
pub fn calls()
    ensures starts { NewIsTold }
    ensures told { TakenIsTold }
    ensures accepted { TakenIsAccepted }
    ensures taken { AcceptedIsTaken }
{}

/// The law of traces that begin in the middle: each flit of such a trace is taken if some flits before it make the whole one legal, so
/// behind a flit that isn't taken no trace is legal, whatever was before. And of lines that come back: each flit is taken if some flits
/// before it make the whole trace legal and leave only that outstanding which the line was told of.
/// Source: `docs/COPIES.md`, "A trace that begins in the middle", "A line that comes back".
pub fn tails()
    ensures taken { TailsAreTaken }
    ensures refused { RefusedIsNoTail }
    ensures returns { ReturnsAreTaken }
    ensures impossible { RefusedIsNoReturn }
{}

/// The law of what a judged line hands over where it isn't judged from some flit on: once nothing is outstanding, no more is open than
/// requests that were retried, or may be from before, and snoops that may be; and behind each flit of a legal trace one more is
/// outstanding, one fewer or as many, as a line that isn't judged is told of the flit.
/// Source: `docs/COPIES.md`, "A line that comes back".
pub fn outstanding()
    ensures line { OverLeavesRetried }
    ensures begun { OverBegunLeavesOnly }
    ensures counted { FlitsAreCounted }
{}

/// The law of a log that is taken at the home while nothing is on its way, beside the same log as sent: the two observers begin beside
/// each other, and stay so behind each flit that is taken of the log as sent; a flit of a cache that is taken of it is taken at the home
/// too, so in a legal log none is refused for coming at once; and a flit of the home that is taken there is taken of it, its words apart.
/// Source: `docs/COPIES.md`, "Seen at the home".
pub fn prompt()
    ensures begins { BeginsPrompt }
    ensures taken { PromptFlitsAreTaken }
    ensures stays { StaysPrompt }
    ensures given { StaysPromptGiven }
    ensures safe { PromptGivenIsTaken }
    ensures logs { PromptLogsAreTaken }
{}
