//! The laws of a watch.

ghost use Rattle.chi_observe.specs.Bounded.{StartsWithin, StaysWithin};
ghost use Rattle.chi_observe.specs.InBeats.{BeatsAreOneFlit};

use chi_observer::data_in_beats;

/// The law that no table ever holds more than there is room for: so it is of a watch that has seen no flit, and if it is so
/// before a line of a trace for which there is room, so it is behind it.
/// Source: `docs/OBSERVER.md`, "A watch with a room".
pub fn a_watch_stays_in_its_room()
    ensures starts { StartsWithin }
    ensures stays { StaysWithin }
{}

/// The law that a line which is judged from the trace's beginning takes data in two beats that it is told of at the first one,
/// and flits between them, exactly where it takes the data with all words in the place of the first beat, and those flits
/// behind; and that what is told then is the same. Between the beats stand any whole flits where the words are the home's or
/// tell nothing; and where they may be any and are told, and stores may be hidden, such as have no words and are no loads.
/// Source: `docs/OBSERVER.md`, "Data in beats".
pub fn beats_are_one_flit()
    ensures { BeatsAreOneFlit }
{
    data_in_beats();
}
