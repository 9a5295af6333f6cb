//! An index of the slots in use: where each agent's requests are.

ghost use Rattle.std.specs.Prelude.{◌≡◌, ◌<◌, is_some, ⊤};
ghost use Rattle.chi_slice.specs.Index.{moved_in, no_places, place_number, place_of, place_of_spot, with_place};

use chi_flit::{Agent, Line, Slot};
use chi_line::Position;
use std::alloc::AllocError;
use std::marker::Model;

/// The line of a request, and where the request is.
/// Source: `docs/PROTOCOL.md`, "Agreement".
#[derive(Clone, Copy, Debug, PartialEq, Eq)]
pub struct RequestPlace {
    pub line: Line,
    pub at: Position,
}

/// What is kept of a slot: where its request is, if it has one, and the line that it is at or was last.
#[derive(Clone, Copy)]
struct SlotPlace {
    line: Line,
    at: Option<Position>,
}

/// For each slot of each agent, by their numbers, the place of its request.
#[derive(Drop)]
pub struct RequestPlaces {
    by_slot: [SlotPlace; 64],
}

impl Model for RequestPlaces {
    ghost use Rattle.std.specs.Prelude.{List, Option, map};
    ghost use Rattle.chi_slice.specs.declared.places.RequestPlace.{RequestPlace};
    ghost use Rattle.chi_slice.specs.Index.{place_of_spot};

    ghost Value = { List (Option RequestPlace) };

    ghost view = { λ places. map place_of_spot places.by_slot };
}

impl Clone for RequestPlaces {
    ghost is_clone = { λ places copy. copy ≡ places };

    ghost is_infallible = { λ _. ⊤ };

    fn clone(&self) -> Result<Self, AllocError> {
        Ok(RequestPlaces {
            by_slot: self.by_slot,
        })
    }
}

/// The number of an agent's slot among those of all agents.
fn place_number(agent: Agent, slot: Slot) -> usize
    requires agent { agent.0 < 8 }
    requires slot { slot.0 < 8 }
    ensures number { result ≡ place_number agent.0 slot }
    ensures low { result < 64 }
{
    usize::from(agent.0) * 8 + usize::from(slot.0)
}

impl SlotPlace {
    /// No request.
    const NONE: SlotPlace = SlotPlace {
        line: Line(0),
        at: None,
    };

    /// The place of the request, if there is one.
    fn place(self) -> Option<RequestPlace>
        ensures { result ≡ place_of_spot self }
    {
        self.at.map(|at| RequestPlace {
            line: self.line,
            at,
        })
    }
}

impl RequestPlaces {
    /// No slot is in use.
    pub fn new() -> RequestPlaces
        ensures { result ≡ no_places }
    {
        RequestPlaces {
            by_slot: [SlotPlace::NONE; 64],
        }
    }

    /// The place of the request of an agent's slot; none outside the eight of each.
    #[tactic(auto, using(crate::proofs::SlotPlaces::spot_place))]
    pub fn get(&self, agent: Agent, slot: Slot) -> Option<RequestPlace>
        ensures { result ≡ place_of self.now agent.0 slot }
    {
        if agent.0 < 8 && slot.0 < 8 {
            self.by_slot[place_number(agent, slot)].place()
        } else {
            None
        }
    }

    /// Whether an agent's slot has a place.
    #[tactic(auto, using(crate::proofs::SlotPlaces::spot_place))]
    pub fn is_used(&self, agent: Agent, slot: Slot) -> bool
        requires agent { agent.0 < 8 }
        requires slot { slot.0 < 8 }
        ensures { result ≡ is_some (place_of self.now agent.0 slot) }
    {
        self.by_slot[place_number(agent, slot)].at.is_some()
    }

    /// Gives an agent's slot this place, or none; outside the eight of each nothing changes.
    #[tactic(auto, using(crate::proofs::SlotPlaces::other_place))]
    fn put(&mut self, agent: Agent, slot: Slot, spot: SlotPlace)
        ensures { self.new ≡ with_place self.old agent.0 slot (place_of_spot spot) }
    {
        if agent.0 < 8 && slot.0 < 8 {
            self.by_slot[place_number(agent, slot)] = spot;
        }
    }

    /// Gives an agent's slot this place, or none; outside the eight of each nothing changes.
    pub fn set(&mut self, agent: Agent, slot: Slot, place: Option<RequestPlace>)
        ensures { self.new ≡ with_place self.old agent.0 slot place }
    {
        let spot = match place {
            Some(RequestPlace { line, at }) => SlotPlace { line, at: Some(at) },
            None => SlotPlace::NONE,
        };
        self.put(agent, slot, spot);
    }

    /// Follows an action of the agent on a line: the slot whose request was moved, if one was, has its new
    /// place on the line, or none.
    pub fn follow(&mut self, agent: Agent, line: Line, slot: Option<Slot>, to: Option<Position>)
        ensures { self.new ≡ moved_in self.old agent.0 line slot to }
    {
        if let Some(slot) = slot {
            self.put(agent, slot, SlotPlace { line, at: to });
        }
    }
}
