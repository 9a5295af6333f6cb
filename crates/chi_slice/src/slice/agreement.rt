//! Where the requests of an agent's slots are in a slice.

ghost use Rattle.std.specs.Prelude.{◌≡◌, ◌↔◌, ◌<◌, true, false, None, Some, IsTrue};
ghost use Rattle.chi_flit.specs.declared.numbers.Slot.{Slot};
ghost use Rattle.chi_slice.specs.declared.places.RequestPlace.{RequestPlace};
ghost use Rattle.chi_slice.specs.Idle.{lowest_idle};
ghost use Rattle.chi_slice.specs.Index.{HasType, IsInside, IsShown, is_slot_of, typed_at};
ghost use Rattle.chi_slice.specs.Slice.{SliceKept};
ghost use Rattle.chi_slice.specs.Table.{IsByTable};

use crate::places::RequestPlace;
use crate::slice::Slice;
use chi_flit::{Agent, CreditType, Slot};
use chi_line::TypedSlot;
use std::alloc::Allocator;

impl<A: Allocator> Slice<A> {
    /// The agent's slot of the lowest number that is in use at no line of the slice; 8, which is none, where
    /// each of the eight is.
    ///
    /// Conditions: the agent's number is below 8.
    /// Source: `docs/PROTOCOL.md`, "Slots and accounts".
    pub fn lowest_idle(&self, agent: Agent) -> Slot
        requires { agent.0 < 8 }
        ensures { result ≡ lowest_idle self.now agent.0 }
    {
        for number in 0..8 {
            if !self.uses(agent, Slot(number)) {
                return Slot(number);
            }
        }
        Slot(8)
    }

    /// The place of the request that uses an agent's slot: its line, which is in this slice, and where the
    /// request is there, by the rows of the table. `None` where no row holds of the slot at any line of the
    /// slice, and for an agent or slot outside the eight of each.
    /// Source: `docs/PROTOCOL.md`, "Agreement".
    pub fn place(&self, agent: Agent, slot: Slot) -> Option<RequestPlace>
        ensures table { agent.0 < 8 → slot.0 < 8 → IsByTable self.now agent.0 slot result }
        ensures shows { agent.0 < 8 → slot.0 < 8 → IsShown self.now agent.0 slot result }
        ensures line { agent.0 < 8 → slot.0 < 8 → IsInside self.now result }
        ensures outside { is_slot_of agent.0 slot ≡ false → result ≡ None }
    {
        self.places.get(agent, slot)
    }

    /// Whether the slot, whose place is this, has its credit type there.
    fn is_type_in(&self, place: Option<RequestPlace>, typed: TypedSlot) -> bool
        requires agent { (there : RequestPlace) → place ≡ Some there → typed.agent.0 < 8 }
        requires line { IsInside self.now place }
        ensures typed { result ≡ typed_at self.now typed.credit typed.agent.0 typed.slot place }
        ensures kept { SliceKept self.now }
    {
        let profile = self.config.profile();
        match place {
            Some(place) => match self.line(place.line) {
                Some(at) => at.is_of_type(profile, typed),
                None => unreachable!(),
            },
            None => true,
        }
    }

    /// Whether an agent's slot has this credit type wherever a line of the slice still keeps the kind of its
    /// request: true where the slice has no place of the slot, and for an agent or slot outside the eight of
    /// each. No line is looked at but that of the place.
    /// Source: `docs/PROTOCOL.md`, "Agreement".
    pub fn has_type(&self, agent: Agent, slot: Slot, credit: CreditType) -> bool
        ensures typed { agent.0 < 8 → slot.0 < 8
            → IsTrue result ↔ HasType self.now credit agent.0 slot }
        ensures outside { is_slot_of agent.0 slot ≡ false → result ≡ true }
        ensures kept { SliceKept self.now }
    {
        let typed = TypedSlot {
            agent,
            slot,
            credit,
        };
        self.is_type_in(self.place(agent, slot), typed)
    }
}
