//! What the first flit that a bench's watch didn't take rests on.

ghost use Rattle.std.specs.Prelude.{◌≡◌};
ghost use Rattle.chi_observe.specs.Benches.{IsToldOf, benched, sides_in};
ghost use Rattle.chi_observe.specs.Seen.{event_of};

use crate::benches::{BenchWatch, FirstStop};
use crate::events::Event;
use crate::ids::find_id;
use crate::judges::Judge;
use crate::lines::LineSeen;
use crate::marks::{is_known, teller_of};
use crate::reasons::{IdReason, LineReason};
use crate::seen::event_of;
use crate::texts::{expected_in, key_of, known_words_of, words_beside};
use crate::watch::{Watch, WatchFault};
use chi_flit::Data;
use chi_ids::{CacheLine, IdKey, Sides};
use chi_observer::{AGENTS, Flit, Reason, Told};
use chi_trace::{AnySeen, NodeId};
use std::alloc::Allocator;

/// What a reason rests on.
/// Source: `docs/OBSERVER.md`, "A watch with a room".
#[derive(Clone, Copy, Debug, PartialEq, Eq)]
pub struct Ground {
    /// The id that a reason of ids rests on.
    pub key: Option<IdKey>,
    /// The number of the flit that has told it; 0 where none has, or loads and stores have told words.
    pub since: usize,
    /// Another node: the line's home, or the one whose copy is in the way.
    pub other: Option<NodeId>,
    /// What was told of a copy: of the one that is in the way, or of the requester's.
    pub told: Option<Told>,
    /// The words that are known, and those of the flit, where they are others; a word that isn't known is the flit's in both.
    pub words: Option<(Data, Data)>,
}

/// The first flit that isn't taken, and what its reason rests on.
/// Source: `docs/OBSERVER.md`, "A watch with a room".
#[derive(Clone, Copy, Debug, PartialEq, Eq)]
pub struct FaultFacts {
    pub number: usize,
    pub fault: WatchFault,
    pub sides: Sides,
    /// Its line, where it is known.
    pub line: Option<CacheLine>,
    pub ground: Ground,
}

/// A line's flit that isn't taken, and what is known of the line.
#[derive(Drop)]
struct Untaken<'a, A: Allocator> {
    flit: Flit,
    judge: &'a Judge<A>,
    /// None of a line that no flit has touched.
    seen: Option<&'a LineSeen<A>>,
    requesters: &'a [NodeId],
}

impl Ground {
    /// It rests on nothing that a flit has told.
    const NONE: Ground = Ground {
        key: None,
        since: 0,
        other: None,
        told: None,
        words: None,
    };
}

/// The nodes that a flit of this source is between; of a load or a store its source alone.
fn sides_in(event: &Event, source: NodeId) -> Sides
    ensures { result ≡ sides_in event.now source }
{
    match event {
        Event::Line(event) => event.sides,
        Event::Granted(sides, _) => *sides,
        Event::Returned(sides, _) => *sides,
        _ => Sides {
            requester: source,
            home: source,
        },
    }
}

/// The id that a reason rests on, whether it is open or not.
fn named_by(reason: IdReason, event: &Event) -> Option<IdKey> {
    match reason {
        IdReason::NotOpen(key) => Some(key),
        _ => key_of(reason, event),
    }
}

impl<A: Allocator> Untaken<'_, A> {
    /// What was told of an agent's copy, and by which flit.
    fn copy(&self, agent: usize) -> Ground {
        let told = match self.judge.observer().agents.get(agent) {
            Some(seen) => Some(seen.told),
            None => None,
        };
        let since = match self.seen {
            Some(seen) => match seen.marks.copies.get(agent) {
                Some(number) => *number,
                None => 0,
            },
            None => 0,
        };
        Ground {
            told,
            since,
            ..Ground::NONE
        }
    }

    /// The first other agent whose copy is in the way.
    fn in_the_way(&self) -> Ground {
        for other in 0..AGENTS {
            if let Some(node) = self.requesters.get(other) {
                if self.judge.is_in_the_way(self.flit, other) {
                    return Ground {
                        other: Some(*node),
                        ..self.copy(other)
                    };
                }
            }
        }
        Ground::NONE
    }

    /// Which flit has told the words that are known; 0 where loads and stores have.
    fn words_since(&self) -> usize {
        match self.seen {
            Some(seen) => if self.judge.is_of_accesses(self.flit) {
                0
            } else {
                seen.marks.words
            },
            None => 0,
        }
    }

    /// The words that are known, and which flit has told them.
    fn words(&self) -> Ground {
        let known = known_words_of(self.judge, self.seen, self.flit);
        let shown = words_beside(self.flit, known.words);
        if known.known == [false; 8] {
            return Ground::NONE;
        }
        Ground {
            since: self.words_since(),
            words: Some((expected_in(&known, &shown), shown)),
            ..self.copy(usize::from(teller_of(self.flit).0))
        }
    }

    /// The words that were known at the first beat of data, beside other ones, and which flit has told them, where they are
    /// still the home's.
    fn held(&self, words: (Data, Data)) -> Ground {
        let home = is_known(&self.judge.observer().home, &words.0);
        Ground {
            since: if home { self.words_since() } else { 0 },
            words: Some(words),
            ..self.copy(usize::from(teller_of(self.flit).0))
        }
    }

    /// What a rule's reason rests on.
    fn ground(&self, reason: Reason) -> Ground {
        match reason {
            Reason::OtherCopy => self.in_the_way(),
            Reason::OtherWords => self.words(),
            _ => self.copy(usize::from(teller_of(self.flit).0)),
        }
    }
}

impl<A: Allocator> Watch<A> {
    /// What a reason of ids or credits rests on.
    fn id_ground(&self, event: &Event, reason: IdReason) -> Ground {
        let key = named_by(reason, event);
        let since = match key {
            Some(key) => match find_id(&self.ids, key) {
                Some(id) => id.since,
                None => 0,
            },
            None => 0,
        };
        Ground {
            key,
            since,
            ..Ground::NONE
        }
    }

    /// What it rests on that another node is the line's home.
    fn home_ground(&self, line: CacheLine, home: NodeId) -> Ground {
        let since = match self.lines.get(&line.0) {
            Some(seen) => seen.marks.first,
            None => 0,
        };
        Ground {
            other: Some(home),
            since,
            ..Ground::NONE
        }
    }
}

impl<A: Allocator + Copy> Watch<A> {
    /// What a rule's reason rests on, of a flit of this line.
    fn rule_ground(&self, event: &Event, line: CacheLine, reason: Reason) -> Ground {
        let Some((_, flit)) = self.judged_in(event) else {
            return Ground::NONE;
        };
        let (log, stores) = (self.options.log, self.options.stores);
        let Ok(untouched) = Judge::new(*self.lines.allocator(), log, stores, 0) else {
            return Ground::NONE;
        };
        let seen = self.lines.get(&line.0);
        let judge = match seen {
            Some(seen) => &seen.judge,
            None => &untouched,
        };
        let untaken = Untaken {
            flit,
            judge,
            seen,
            requesters: &self.requesters,
        };
        match self.held_words(event) {
            Some(words) => untaken.held(words),
            None => untaken.ground(reason),
        }
    }

    /// What a fault rests on.
    fn ground(&self, event: &Event, line: Option<CacheLine>, fault: WatchFault) -> Ground {
        match (fault, line) {
            (WatchFault::Ids(reason), _) => self.id_ground(event, reason),
            (WatchFault::Line(LineReason::OtherHome(home)), Some(line)) => {
                self.home_ground(line, home)
            }
            (WatchFault::Line(LineReason::Rule(reason)), Some(line)) => {
                self.rule_ground(event, line, reason)
            }
            (WatchFault::Line(_), None) => Ground::NONE,
        }
    }

    /// What is told of a flit that isn't taken.
    fn facts(&self, seen: &AnySeen, fault: WatchFault) -> FaultFacts
        ensures number { result.number ≡ seen.now.line }
        ensures fault { result.fault ≡ fault }
        ensures sides { result.sides ≡ sides_in (event_of seen.now) seen.now.source }
    {
        let event = event_of(seen);
        let line = self.place_of(&event);
        FaultFacts {
            number: seen.line,
            fault,
            sides: sides_in(&event, seen.source),
            line,
            ground: self.ground(&event, line, fault),
        }
    }
}

impl<A: Allocator + Copy> BenchWatch<A> {
    /// What is told of the first flit that isn't taken, if there is one. What its reason rests on no clause says: it is
    /// tested.
    /// Source: `docs/OBSERVER.md`, "A watch with a room".
    pub fn fault(&self) -> Option<FaultFacts>
        ensures { IsToldOf (benched self.now).stop result }
    {
        match &self.stop {
            Some(FirstStop::Untaken(seen, fault)) => Some(self.bounded.watch.facts(seen, *fault)),
            Some(FirstStop::NoMemory) => None,
            None => None,
        }
    }
}
