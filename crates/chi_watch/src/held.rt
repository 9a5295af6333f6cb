//! The flits of a cache line that wait for words of data.

ghost use Rattle.std.specs.Prelude.{◌≡◌, ◌<◌, ◌^◌, [], drop, is_some, length, slice_get};
ghost use Rattle.std.specs.List.{position};
ghost use Rattle.chi_watch.specs.Held.{IsPushed, awaits, has_room, held_in, is_none_held, is_whole, joined, joined_at, joined_in, next_in, rest_of};

use crate::beats::told_with;
use crate::told::Told;
use chi_issue_b::Beat;
use std::alloc::{AllocFailed, Allocator};
use std::collections::VecDeque;

/// How many flits of a line may wait.
/// Source: `docs/WATCH.md`, "Data in beats".
pub const ROOM: usize = 64;

/// A flit of a cache line that waits.
/// Source: `docs/WATCH.md`, "Data in beats".
#[derive(Clone, Copy, Debug, PartialEq, Eq)]
pub struct HeldFlit {
    /// What the line is to be told of, with the words that have come.
    pub told: Told,
    /// Whether it is a load or a store of a processor.
    pub is_access: bool,
    /// The key of the id whose later beats have the words that lack; none where no word lacks.
    pub awaits: Option<u64>,
    /// The number of its line in the trace, or of that of its first beat.
    pub number: u64,
    /// The number of the line of its last beat so far.
    pub last: u64,
}

impl HeldFlit {
    /// Whether no word lacks.
    pub fn is_whole(&self) -> bool
        ensures { result ≡ is_whole self.now }
    {
        self.awaits.is_none()
    }

    /// Whether words lack that beats of this id have.
    fn awaits(&self, id: u64) -> bool
        ensures { result ≡ awaits id self.now }
    {
        match self.awaits {
            Some(awaited) => awaited == id,
            None => false,
        }
    }

    /// The flit behind a later beat of its data, which has this number.
    fn joined(&self, beat: &Beat, number: u64, is_last: bool) -> HeldFlit
        ensures { result ≡ joined beat.now number is_last self.now }
    {
        HeldFlit {
            told: told_with(&self.told, beat),
            is_access: self.is_access,
            awaits: if is_last { None } else { self.awaits },
            number: self.number,
            last: number,
        }
    }
}

/// Why a flit can't wait.
#[derive(Clone, Copy, Debug, PartialEq, Eq)]
pub enum HeldStop {
    /// As many wait as may.
    Full,
    /// Memory ran out.
    NoMemory,
}

/// The flits of a line that wait, in the order of their first beats: the first one for its own words, and each behind it for
/// its own or for those of another before it.
/// Source: `docs/WATCH.md`, "Data in beats".
#[derive(Drop)]
pub struct Held<A: Allocator> {
    waiting: VecDeque<HeldFlit, A>,
}

impl<A: Allocator> Held<A> {
    /// None waits. Takes no memory.
    pub fn new(alloc: A) -> Held<A>
        ensures { held_in result ≡ [] }
    {
        Held {
            waiting: VecDeque::new(alloc),
        }
    }

    /// Whether none waits.
    pub fn is_empty(&self) -> bool
        ensures { result ≡ is_none_held (held_in self.now) }
    {
        self.waiting.is_empty()
    }

    /// How many wait.
    pub(crate) fn len(&self) -> usize
        ensures count { result ≡ length (held_in self.now) }
        ensures small { result < 2 ^ 63 }
    {
        self.waiting.len()
    }

    /// Whether one more may wait.
    pub fn has_room(&self) -> bool
        ensures { result ≡ has_room (held_in self.now) }
    {
        self.waiting.len() < ROOM
    }

    /// Lets a flit wait behind the others. Err, and nothing changes, where as many wait as may, or memory runs out.
    pub fn push(&mut self, flit: HeldFlit) -> Result<(), HeldStop>
        ensures { IsPushed (held_in self.old) (held_in self.new) flit result }
    {
        if !self.has_room() {
            return Err(HeldStop::Full);
        }
        match self.waiting.push_back(flit) {
            Ok(()) => Ok(()),
            Err(_) => Err(HeldStop::NoMemory),
        }
    }

    /// Puts the words of a later beat into the first flit that awaits beats of this id; nothing changes where none does.
    /// `number` is that of the beat, and `is_last` says that no word lacks behind it.
    pub fn join(&mut self, id: u64, beat: &Beat, number: u64, is_last: bool)
        ensures { held_in self.new ≡ joined_in id beat.now number is_last (held_in self.old) }
    {
        if let Some(place) = self.place_of(id) {
            self.join_at(place, beat, number, is_last);
        }
    }

    /// The place of the first flit that awaits beats of this id.
    fn place_of(&self, id: u64) -> Option<usize>
        ensures { result ≡ position (awaits id) (held_in self.now) }
    {
        self.waiting.iter().position(|held| held.awaits(id))
    }

    /// Puts the words of a beat into the flit at a place.
    fn join_at(&mut self, place: usize, beat: &Beat, number: u64, is_last: bool)
        ensures { held_in self.new ≡ joined_at place beat.now number is_last (held_in self.old) }
    {
        if let Some(held) = self.waiting.get_mut(place) {
            *held = held.joined(beat, number, is_last);
        }
    }

    /// Whether the front is whole.
    fn is_ready(&self) -> bool
        ensures { result ≡ is_some (next_in (held_in self.now)) }
    {
        match self.waiting.front() {
            Some(held) => held.is_whole(),
            None => false,
        }
    }

    /// Takes the front out of the queue once it is whole; else nothing changes.
    pub fn next(&mut self) -> Option<HeldFlit>
        ensures front { result ≡ next_in (held_in self.old) }
        ensures rest { held_in self.new ≡ rest_of (held_in self.old) }
    {
        if self.is_ready() {
            self.waiting.pop_front()
        } else {
            None
        }
    }

    /// Takes the front out of the queue, whole or not.
    pub(crate) fn pop(&mut self) -> Option<HeldFlit>
        ensures front { result ≡ slice_get (held_in self.old) 0 }
        ensures rest { held_in self.new ≡ drop 1 (held_in self.old) }
    {
        self.waiting.pop_front()
    }
}
