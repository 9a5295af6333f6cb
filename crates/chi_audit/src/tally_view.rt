//! What a pass of a tally's cell knows.

use crate::tally::Tally;
use std::collections::LinkedList;

/// Whether it may store, and the tallies that it knows were stored, the oldest first. No value of it is made.
pub struct TallyView {
    pub writes: bool,
    pub seen: LinkedList<Tally>,
}
