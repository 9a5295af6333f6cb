//! The eight slots of a requester.

ghost use Rattle.std.specs.Prelude.{◌≡◌, ◌≢◌, ℕ, ◌<◌, ◌≤◌, true, false, slice_set, position, IfSome, IfNone, IsTrue, ◌↔◌};
ghost use Rattle.chi_flit.specs.Credit.{credit_number};
ghost use Rattle.chi_tracker.specs.Calls.{seen_of};
ghost use Rattle.chi_credit.specs.Slot.{after_answer, after_finish, can_be_answered, idle_slot, is_admitted, is_cancelled_of, opened_slot};
ghost use Rattle.chi_credit.specs.Account.{all_idle, due_of, lowest_cancelled, slots_with_state, riding_of, slot_record_at, state_at, type_at, CountsMove, FallsAt, GrowsAt, HasSpare, IsLowestIdle, IsSameSlot, StaysInStep, StaysWithinSeen};
ghost use Rattle.chi_credit.specs.Payment.{HasSpent, IsGivenBack};

use crate::slot::{IDLE_SLOT, SlotRecord, SlotState, is_cancelled, is_idle, is_riding};
use chi_flit::{CreditType, Entry, Line, Slot};
use chi_tracker::{Port, Released, Tracker};
use std::alloc::Allocator;
use std::marker::Model;

/// The place of the lowest Cancelled slot of the type.
fn lowest_cancelled(slots: &[SlotRecord; 8], ty: CreditType) -> Option<usize>
    ensures { result ≡ position (is_cancelled_of (credit_number ty)) slots.now }
{
    slots.iter().position(|slot| is_cancelled(slot, ty))
}

/// What a requester knows of its eight slots. Contracts see it as the list of the slots. A slot's number
/// is below 8. Each call changes the one slot that it names; none is refused, takes memory or waits.
///
/// A slot is marked as answered only while it is Admitted.
/// Source: `docs/PROTOCOL.md`, "Slots and accounts".
#[derive(Drop)]
pub struct Account {
    slots: [SlotRecord; 8],
}

impl Model for Account {
    ghost use Rattle.std.specs.Prelude.{List};
    ghost use Rattle.chi_credit.specs.declared.slot.SlotRecord.{SlotRecord};
    ghost use Rattle.chi_credit.specs.Account.{IsAccount};

    ghost Value = { List SlotRecord };

    ghost view = { λ account. account.slots };

    ghost invariant = { λ account. IsAccount account.slots };
}

impl Account {
    /// An account whose slots are all free.
    /// Source: `docs/PROTOCOL.md`, "Slots and accounts".
    pub fn new() -> Account
        ensures { result ≡ all_idle }
    {
        Account {
            slots: [IDLE_SLOT; 8],
        }
    }

    /// The slot of this number.
    ///
    /// Condition: the slot's number is below 8.
    /// Source: `docs/PROTOCOL.md`, "Slots and accounts".
    pub fn slot(&self, slot: Slot) -> SlotRecord
        requires { slot.0 < 8 }
        ensures { result ≡ slot_record_at self.now slot.0 }
    {
        self.slots[usize::from(slot.0)]
    }

    /// The lowest free slot; `None` where no slot is free.
    /// Source: `docs/PROTOCOL.md`, "Slots and accounts".
    pub fn lowest_idle(&self) -> Option<Slot>
        ensures some { IfSome result (λ slot. IsLowestIdle self.now slot.0) }
        ensures none { IfNone result ((s : ℕ) → s < 8 → state_at self.now s ≢ SlotState.Idle) }
    {
        let place = self.slots.iter().position(is_idle)?;
        Some(Slot(place as u8))
    }

    /// How many slots of the type are Riding, at most 8.
    /// Source: `docs/PROTOCOL.md`, "Slots and accounts".
    pub fn riding(&self, ty: CreditType) -> u32
        ensures is { result ≡ riding_of self.now (credit_number ty) }
        ensures few { result ≤ 8 }
    {
        let mut count = 0;
        for slot in &self.slots {
            if is_riding(slot, ty) {
                count += 1;
            }
        }
        count
    }

    /// Whether a slot of the type is Cancelled.
    /// Source: `docs/PROTOCOL.md`, "Slots and accounts".
    #[tactic(auto, using(crate::proofs::Counts::cancelled_there))]
    pub fn has_cancelled(&self, ty: CreditType) -> bool
        ensures { IsTrue result ↔ (lowest_cancelled self.now (credit_number ty) < 8) }
    {
        lowest_cancelled(&self.slots, ty).is_some()
    }

    /// Whether one of `seen` credits of the type is spare: left beside those for the Riding slots.
    /// Source: `docs/PROTOCOL.md`, "Slots and accounts", can_resend.
    pub fn can_resend(&self, ty: CreditType, seen: u32) -> bool
        ensures { IsTrue result ↔ HasSpare self.now (credit_number ty) seen }
    {
        self.riding(ty) < seen
    }

    /// The first attempt of a request of this line and credit type was sent: Idle becomes Sent, not answered.
    /// All other slots stay.
    ///
    /// Conditions: the slot's number is below 8, and the slot is Idle.
    /// Source: `docs/PROTOCOL.md`, "Slots and accounts", open.
    pub fn open(&mut self, slot: Slot, line: Line, ty: CreditType)
        requires slot { slot.0 < 8 }
        requires idle { state_at self.old slot.0 ≡ SlotState.Idle }
        ensures account { self.new ≡ slice_set self.old slot.0 (opened_slot line ty) }
        ensures counts { CountsMove IsSameSlot IsSameSlot IsSameSlot self.old self.new }
    {
        self.slots[usize::from(slot.0)] = SlotRecord {
            state: SlotState::Sent,
            line,
            credit: ty,
            answered: false,
        };
    }

    /// The home let the first attempt in, with this entry: Sent becomes Admitted. The slot's line and credit
    /// type stay, and so do all other slots.
    ///
    /// Conditions: the slot's number is below 8, and the slot is Sent.
    /// Source: `docs/PROTOCOL.md`, "Slots and accounts", admitted.
    pub fn admitted(&mut self, slot: Slot, entry: Entry)
        requires slot { slot.0 < 8 }
        requires sent { state_at self.old slot.0 ≡ SlotState.Sent }
        ensures account { self.new ≡ slots_with_state self.old slot.0 (SlotState.Admitted entry) }
        ensures unanswered { (slot_record_at self.old slot.0).answered ≡ false }
        ensures counts { CountsMove IsSameSlot IsSameSlot (GrowsAt entry.0) self.old self.new }
    {
        self.slots[usize::from(slot.0)].state = SlotState::Admitted(entry);
    }

    /// The home answered the first attempt by RetryAck: Sent becomes Refused. The slot's line and credit type
    /// stay, and so do all other slots.
    ///
    /// Conditions: the slot's number is below 8, and the slot is Sent.
    /// Source: `docs/PROTOCOL.md`, "Slots and accounts", refused.
    pub fn refused(&mut self, slot: Slot)
        requires slot { slot.0 < 8 }
        requires sent { state_at self.old slot.0 ≡ SlotState.Sent }
        ensures account { self.new ≡ slots_with_state self.old slot.0 SlotState.Refused }
        ensures few { due_of self.old (type_at self.old slot.0) < 8 }
        ensures counts { CountsMove IsSameSlot (GrowsAt (type_at self.old slot.0)) IsSameSlot self.old self.new }
    {
        self.slots[usize::from(slot.0)].state = SlotState::Refused;
    }

    /// The RetryAck was taken: Refused becomes Retried. The slot's line and credit type stay, and so do all
    /// other slots.
    ///
    /// Conditions: the slot's number is below 8, and the slot is Refused.
    /// Source: `docs/PROTOCOL.md`, "Slots and accounts", retry_seen.
    pub fn retry_seen(&mut self, slot: Slot)
        requires slot { slot.0 < 8 }
        requires refused { state_at self.old slot.0 ≡ SlotState.Refused }
        ensures account { self.new ≡ slots_with_state self.old slot.0 SlotState.Retried }
        ensures counts { CountsMove IsSameSlot IsSameSlot IsSameSlot self.old self.new }
    {
        self.slots[usize::from(slot.0)].state = SlotState::Retried;
    }

    /// The request was sent again with a credit: Retried becomes Riding. The slot's line and credit type
    /// stay, and so do all other slots. Where `can_resend` was true of the port's seen credits, the Riding
    /// slots are still no more than these.
    ///
    /// Conditions: the slot's number is below 8, and the slot is Retried.
    /// Source: `docs/PROTOCOL.md`, "Slots and accounts", resend.
    #[tactic(auto, using(crate::proofs::Keeps::rides_within))]
    pub fn resend(&mut self, slot: Slot)
        requires slot { slot.0 < 8 }
        requires retried { state_at self.old slot.0 ≡ SlotState.Retried }
        ensures account { self.new ≡ slots_with_state self.old slot.0 SlotState.Riding }
        ensures counts { CountsMove (GrowsAt (type_at self.old slot.0)) IsSameSlot IsSameSlot self.old self.new }
        ensures within { StaysWithinSeen (type_at self.old slot.0) self.old self.new }
    {
        self.ride(slot);
    }

    // Retried becomes Riding.
    fn ride(&mut self, slot: Slot)
        requires slot { slot.0 < 8 }
        requires retried { state_at self.old slot.0 ≡ SlotState.Retried }
        ensures account { self.new ≡ slots_with_state self.old slot.0 SlotState.Riding }
        ensures counts { CountsMove (GrowsAt (type_at self.old slot.0)) IsSameSlot IsSameSlot self.old self.new }
    {
        self.slots[usize::from(slot.0)].state = SlotState::Riding;
    }

    /// The request isn't sent again: Retried becomes Cancelled. The slot's line and credit type stay, and so
    /// do all other slots.
    ///
    /// Conditions: the slot's number is below 8, and the slot is Retried.
    /// Source: `docs/PROTOCOL.md`, "Slots and accounts", cancel.
    pub fn cancel(&mut self, slot: Slot)
        requires slot { slot.0 < 8 }
        requires retried { state_at self.old slot.0 ≡ SlotState.Retried }
        ensures account { self.new ≡ slots_with_state self.old slot.0 SlotState.Cancelled }
        ensures counts { CountsMove IsSameSlot IsSameSlot IsSameSlot self.old self.new }
    {
        self.slots[usize::from(slot.0)].state = SlotState::Cancelled;
    }

    /// The requester's own part is over: an Admitted slot is marked so, and a Closing one becomes Idle. All
    /// other slots stay.
    ///
    /// Conditions: the slot's number is below 8, and the slot is Admitted or Closing.
    /// Source: `docs/PROTOCOL.md`, "Slots and accounts", answered.
    pub fn answered(&mut self, slot: Slot)
        requires slot { slot.0 < 8 }
        requires waits { can_be_answered (state_at self.old slot.0) ≡ true }
        ensures account { self.new ≡ slice_set self.old slot.0 (after_answer (slot_record_at self.old slot.0)) }
        ensures counts { CountsMove IsSameSlot IsSameSlot IsSameSlot self.old self.new }
    {
        let place = usize::from(slot.0);
        if matches!(self.slots[place].state, SlotState::Closing) {
            self.slots[place] = IDLE_SLOT;
        } else {
            self.slots[place].answered = true;
        }
    }

    /// The home's part is over: Admitted becomes Idle where the slot was answered, and Closing where it
    /// wasn't. Answers the slot's entry. All other slots stay.
    ///
    /// Conditions: the slot's number is below 8, and the slot is Admitted.
    /// Source: `docs/PROTOCOL.md`, "Slots and accounts", finished.
    pub fn finished(&mut self, slot: Slot) -> Entry
        requires slot { slot.0 < 8 }
        requires admitted { is_admitted (state_at self.old slot.0) ≡ true }
        ensures entry { state_at self.old slot.0 ≡ SlotState.Admitted result }
        ensures account { self.new ≡ slice_set self.old slot.0 (after_finish (slot_record_at self.old slot.0)) }
        ensures counts { CountsMove IsSameSlot IsSameSlot (FallsAt result.0) self.old self.new }
    {
        let place = usize::from(slot.0);
        let SlotState::Admitted(entry) = self.slots[place].state else {
            unreachable!();
        };
        if self.slots[place].answered {
            self.slots[place] = IDLE_SLOT;
        } else {
            self.slots[place].state = SlotState::Closing;
        }
        entry
    }

    /// The home let the resent request in: Riding becomes Admitted, with the entry of the lowest seen credit
    /// of its type, which the port spends. It is never refused. The slot's line and credit type stay, and so
    /// do all other slots. The port has one seen credit of the type less, and of each other type as many as
    /// before; what it did is what `Port::spend` promises.
    ///
    /// Conditions: the slot's number is below 8, the slot is Riding, the port is one that this tracker gave,
    /// and it has seen no fewer credits of the slot's type than slots of the type are Riding.
    /// Source: `docs/PROTOCOL.md`, "Slots and accounts", arrive.
    pub fn arrive<A: Allocator>(
        &mut self,
        slot: Slot,
        tracker: &Tracker<A>,
        port: &mut Port,
    ) -> Entry
        requires slot { slot.0 < 8 }
        requires riding { state_at self.old slot.0 ≡ SlotState.Riding }
        requires table { port.old.table ≡ tracker.now.table }
        requires credit { let t = type_at self.old slot.0 in riding_of self.old t ≤ seen_of port.old.port t }
        ensures account { self.new ≡ slots_with_state self.old slot.0 (SlotState.Admitted result) }
        ensures unanswered { (slot_record_at self.old slot.0).answered ≡ false }
        ensures spent { HasSpent (type_at self.old slot.0) result.0 port.old port.new }
        ensures counts { CountsMove (FallsAt (type_at self.old slot.0)) (FallsAt (type_at self.old slot.0)) (GrowsAt result.0) self.old self.new }
        ensures kept { StaysInStep self.old port.old.port self.new port.new.port }
    {
        let entry = port.spend(tracker, self.slot(slot).credit);
        self.arrived(slot, entry);
        entry
    }

    // The account's part of `arrive`: Riding becomes Admitted, with the entry of the credit.
    fn arrived(&mut self, slot: Slot, entry: Entry)
        requires slot { slot.0 < 8 }
        requires riding { state_at self.old slot.0 ≡ SlotState.Riding }
        ensures account { self.new ≡ slots_with_state self.old slot.0 (SlotState.Admitted entry) }
        ensures unanswered { (slot_record_at self.old slot.0).answered ≡ false }
        ensures counts { CountsMove (FallsAt (type_at self.old slot.0)) (FallsAt (type_at self.old slot.0)) (GrowsAt entry.0) self.old self.new }
    {
        self.slots[usize::from(slot.0)].state = SlotState::Admitted(entry);
    }

    /// The lowest Cancelled slot of the type becomes Idle, and the port gives its credit back. All other
    /// slots stay, and so does the port's hand. The port has one seen credit of the type less, and of each
    /// other type as many as before; what it did is what `Port::give_back` promises.
    ///
    /// Conditions: a slot of the type is Cancelled, the port is one that this tracker gave, and it has seen a
    /// credit of the type beyond those for the Riding slots.
    /// Source: `docs/PROTOCOL.md`, "Slots and accounts", give_back.
    #[tactic(auto, using(crate::proofs::Keeps::returned_within, crate::proofs::Keeps::returned_due, crate::proofs::Keeps::returned_entries))]
    pub fn give_back<A: Allocator>(
        &mut self,
        ty: CreditType,
        tracker: &Tracker<A>,
        port: &mut Port,
    ) -> Released
        requires cancelled { lowest_cancelled self.old (credit_number ty) < 8 }
        requires table { port.old.table ≡ tracker.now.table }
        requires credit { HasSpare self.old (credit_number ty) (seen_of port.old.port (credit_number ty)) }
        ensures account { self.new
            ≡ slice_set self.old (lowest_cancelled self.old (credit_number ty)) idle_slot }
        ensures cancelled { state_at self.old (lowest_cancelled self.old (credit_number ty))
            ≡ SlotState.Cancelled }
        ensures returned { IsGivenBack (credit_number ty) result port.old port.new }
        ensures counts { CountsMove IsSameSlot (FallsAt (credit_number ty)) IsSameSlot self.old self.new }
        ensures kept { StaysInStep self.old port.old.port self.new port.new.port }
    {
        self.end_cancelled(ty);
        port.give_back(tracker, ty)
    }

    // The account's part of `give_back`: the lowest Cancelled slot of the type becomes Idle.
    #[tactic(auto, using(crate::proofs::Counts::found_cancelled, crate::proofs::Counts::found_riding, crate::proofs::Counts::found_due, crate::proofs::Counts::found_entries))]
    fn end_cancelled(&mut self, ty: CreditType)
        requires { lowest_cancelled self.old (credit_number ty) < 8 }
        ensures account { self.new
            ≡ slice_set self.old (lowest_cancelled self.old (credit_number ty)) idle_slot }
        ensures cancelled { state_at self.old (lowest_cancelled self.old (credit_number ty))
            ≡ SlotState.Cancelled }
        ensures counts { CountsMove IsSameSlot (FallsAt (credit_number ty)) IsSameSlot self.old self.new }
    {
        let Some(place) = lowest_cancelled(&self.slots, ty) else {
            unreachable!();
        };
        self.slots[place] = IDLE_SLOT;
    }
}
