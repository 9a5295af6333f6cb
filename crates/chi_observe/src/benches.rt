//! A watch for a bench: it takes flits without an end, and keeps the first that isn't taken.

ghost use Rattle.std.specs.Prelude.{◌≡◌, IfOk, None, string_bytes};
ghost use Rattle.chi_observe.specs.Benches.{IsSeen, IsSeenNext, benched, is_line_aside, nothing_benched};
ghost use Rattle.chi_observe.specs.Told.{IsUnjudgedText};
ghost use Rattle.chi_observe.specs.Watched.{watched};

use crate::bounded::{BoundedStop, BoundedWatch, Room};
use crate::lines::is_aside;
use crate::seen::event_of;
use crate::steps::WatchOptions;
use crate::watch::{Watch, WatchFault};
use chi_ids::CacheLine;
use chi_trace::AnySeen;
use std::alloc::{AllocError, Allocator};
use std::fmt::Write;

/// What a bench's watch stopped at.
/// Source: `docs/OBSERVER.md`, "A watch with a room".
#[derive(Clone, Copy, Debug, PartialEq, Eq)]
pub enum FirstStop {
    /// The first flit that isn't taken, and why.
    Untaken(AnySeen, WatchFault),
    /// Memory ran out.
    NoMemory,
}

/// What a bench is told of a flit.
/// Source: `docs/OBSERVER.md`, "A watch with a room".
#[derive(Clone, Copy, Debug, PartialEq, Eq)]
pub enum Judged {
    Taken,
    /// It is taken, and of a line that is set aside, by it or before it.
    SetAside,
    /// There is no room for what it would add.
    Full,
    /// It isn't taken, or is behind one that wasn't.
    Untaken,
    /// Memory has run out.
    NoMemory,
}

/// A watch with a room, and the first flit that it didn't take.
/// Source: `docs/OBSERVER.md`, "A watch with a room".
#[derive(Drop)]
pub struct BenchWatch<A: Allocator> {
    pub(crate) bounded: BoundedWatch<A>,
    pub(crate) stop: Option<FirstStop>,
}

impl<A: Allocator> Watch<A> {
    /// Whether the line, if there is one, is set aside.
    fn is_line_aside(&self, line: Option<CacheLine>) -> bool
        ensures { result ≡ is_line_aside (watched self.now) line }
    {
        match line {
            Some(line) => is_aside(&self.lines, line),
            None => false,
        }
    }
}

impl<A: Allocator + Copy> BenchWatch<A> {
    /// A watch that has seen no flit, with memory for so much; it takes no other.
    /// Source: `docs/OBSERVER.md`, "A watch with a room".
    pub fn new(alloc: A, options: WatchOptions, room: Room) -> Result<BenchWatch<A>, AllocError>
        ensures { IfOk result (λ b. benched b ≡ nothing_benched room options) }
    {
        let bounded = BoundedWatch::new(alloc, options, room)?;
        Ok(BenchWatch {
            bounded,
            stop: None,
        })
    }

    /// Takes the next flit, with its number in the place of its line of a trace, where there is room for it. The first that
    /// isn't taken is kept, and so is it where memory runs out; behind that each flit is told so, and nothing changes.
    /// Source: `docs/OBSERVER.md`, "A watch with a room".
    pub fn see(&mut self, seen: &AnySeen) -> Judged
        ensures { IsSeen (benched self.old) (benched self.new) seen.now result }
    {
        match self.stop {
            Some(FirstStop::Untaken(_, _)) => Judged::Untaken,
            Some(FirstStop::NoMemory) => Judged::NoMemory,
            None => self.see_next(seen),
        }
    }

    /// The same where each flit so far was taken.
    fn see_next(&mut self, seen: &AnySeen) -> Judged
        requires { self.old.stop ≡ None }
        ensures { IsSeenNext (benched self.old) (benched self.new) seen.now result }
    {
        let event = event_of(seen);
        match self.bounded.take_at(&event) {
            Ok(line) => {
                if self.bounded.watch.is_line_aside(line) {
                    Judged::SetAside
                } else {
                    Judged::Taken
                }
            }
            Err(BoundedStop::Full) => Judged::Full,
            Err(BoundedStop::Fault(fault)) => {
                self.stop = Some(FirstStop::Untaken(*seen, fault));
                Judged::Untaken
            }
            Err(BoundedStop::NoMemory) => {
                self.stop = Some(FirstStop::NoMemory);
                Judged::NoMemory
            }
        }
    }

    /// The lines that `observe` prints of flits, loads and stores that aren't judged; empty where each is.
    /// Source: `docs/OBSERVER.md`, "What isn't judged".
    pub fn unjudged_text(&self, alloc: A) -> Result<String<A>, AllocError>
        ensures { IfOk result
            (λ text. IsUnjudgedText (benched self.now).told.told (string_bytes text)) }
    {
        self.bounded.watch.unjudged_text(alloc)
    }

    /// The line that `observe` prints of the first flit that isn't taken, without its end; empty where each was taken. No
    /// clause says which it is: it is tested.
    /// Source: `docs/OBSERVER.md`, "What is printed".
    pub fn fault_text(&self, alloc: A) -> Result<String<A>, AllocError> {
        let mut text = String::new(alloc);
        if let Some(FirstStop::Untaken(seen, fault)) = &self.stop {
            let number = seen.line;
            write!(text, "line {number}: ")?;
            self.bounded.watch.write_untaken(&mut text, seen, *fault)?;
        }
        Ok(text)
    }
}
