//! Laws of the rules.

ghost use Rattle.chi_observer.specs.Runs.{LegalIsAccepted, AcceptedIsLegal, AcceptedIsExact, AcceptedIsCoherent, ReadOnceShowsValue};
ghost use Rattle.chi_observer.specs.WordedLaws.{WordedFlitsAreTaken, WordedFlitsKeepSound, WordedFlitsLead, WordedHomeFlitsLead, WordsAreClosed, StoresByWordAreTaken, StoresByWordLead, UnloadedFlitsAreAlike};
ghost use Rattle.chi_observer.specs.ListedRuns.{LegalWordsAreAccepted, AcceptedWordsAreLegal, AcceptedWordsAreExact, AcceptedWordsAreCoherent};
ghost use Rattle.chi_observer.specs.Laws.{MeaningIsCoherent, MeaningIsClosed, CacheFlitsAreTaken, CacheFlitsArePossible, CacheFlitsLead, CacheFlitsTellTheValue, CacheFlitsKeepSound, MeaningComes, HomeFlitsKeepSound, HomeFlitsAreSafe, HomeFlitsLead, HomeFlitsArePossible, SafeFlitsAreTaken, MeaningComesByHome};

/// The law that each world that the observer's state stands for is coherent, and hidden steps lead to none that it
/// doesn't stand for.
/// Source: `docs/OBSERVER.md`, "What is proved".
pub fn meaning()
    ensures coherent { MeaningIsCoherent }
    ensures closed { MeaningIsClosed }
{}

/// The law that a flit of a cache is taken exactly where some world sends it, in which its copy has the word of a load,
/// and leads to just the worlds that it leaves, whatever a load's word; and that its words are the value last stored.
/// Source: `docs/OBSERVER.md`, "What is proved".
pub fn cache_flits()
    ensures taken { CacheFlitsAreTaken }
    ensures possible { CacheFlitsArePossible }
    ensures leads { CacheFlitsLead }
    ensures tells { CacheFlitsTellTheValue }
    ensures sound { CacheFlitsKeepSound }
    ensures comes { MeaningComes }
{}

/// The law that a flit of the home is taken exactly where it is safe in each world that it may be sent in, and leads
/// to just the worlds that it leaves.
/// Source: `docs/OBSERVER.md`, "What is proved".
pub fn home_flits()
    ensures sound { HomeFlitsKeepSound }
    ensures safe { HomeFlitsAreSafe }
    ensures leads { HomeFlitsLead }
    ensures possible { HomeFlitsArePossible }
    ensures taken { SafeFlitsAreTaken }
    ensures comes { MeaningComesByHome }
{}

/// The law that a whole trace is accepted exactly where it is legal; that the worlds behind an accepted one are those
/// that the observer's state stands for; that all of them are coherent; and that the words that complete a ReadOnce were
/// the value last stored at a moment since its issue, whichever of them is the truth.
/// Source: `docs/OBSERVER.md`, "What is proved".
pub fn traces()
    ensures accepted { LegalIsAccepted }
    ensures legal { AcceptedIsLegal }
    ensures exact { AcceptedIsExact }
    ensures coherent { AcceptedIsCoherent }
    ensures values { ReadOnceShowsValue }
{}

/// The law that a flit of a cache that some world sends word by word is taken, and that it and one of the home lead to worlds
/// that the known words behind it stand for too, and so do hidden steps. Where a load counts as a store, that is taken, and each
/// world whose copy has the word is one that it leaves. Where neither a load nor a store has told a word, any other flit is taken
/// as by an observer that keeps none, of which `traces` speaks, and tells none.
/// Source: `docs/OBSERVER.md`, "What is proved".
pub fn worded_flits()
    ensures taken { WordedFlitsAreTaken }
    ensures leads { WordedFlitsLead }
    ensures sound { WordedFlitsKeepSound }
    ensures given { WordedHomeFlitsLead }
    ensures closed { WordsAreClosed }
    ensures counted { StoresByWordAreTaken }
    ensures stored { StoresByWordLead }
    ensures alike { UnloadedFlitsAreAlike }
{}

/// The law of traces whose stores are all listed, word by word: one is accepted exactly where it is legal; the worlds behind
/// an accepted one, in which each load had its word and each store made its own, are those that the observer's state and
/// the words that it knows stand for; and all of them are coherent.
/// Source: `docs/OBSERVER.md`, "What is proved".
pub fn listed_traces()
    ensures accepted { LegalWordsAreAccepted }
    ensures legal { AcceptedWordsAreLegal }
    ensures exact { AcceptedWordsAreExact }
    ensures coherent { AcceptedWordsAreCoherent }
{}
