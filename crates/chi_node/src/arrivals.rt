//! What arrivals and completions do to a requester: these take entries to hand and release them.

ghost use Rattle.std.specs.Prelude.{◌≡◌, ℕ, ◌<◌, IfNone, IfSome, Some, slice_set, false, true};
ghost use Rattle.chi_tracker.specs.Sums.{without_bit};
ghost use Rattle.chi_tracker.specs.Shape.{size};
ghost use Rattle.chi_tracker.specs.Views.{has};
ghost use Rattle.chi_tracker.specs.Steps.{spends};
ghost use Rattle.chi_tracker.specs.Calls.{hand_with, owed_one, HasSameCredits, IsLowestSeen};
ghost use Rattle.chi_credit.specs.Slot.{after_finish, is_admitted};
ghost use Rattle.chi_credit.specs.Account.{slots_with_state, slot_record_at, state_at, type_at};
ghost use Rattle.chi_tracker.specs.declared.step.AtomicStep.TheVariants.{Spend};
ghost use Rattle.chi_tracker.specs.Conduct.{ClaimActs, One, ReleaseActs};
ghost use Rattle.chi_node.specs.Arrives.{Arrives, CanArrive, Retries};
ghost use Rattle.chi_node.specs.Requester.{owner, with_both, Acted};

use crate::answers::Arrived;
use crate::requester::Requester;
use chi_credit::SlotState;
use chi_flit::{Entry, Slot};
use chi_tracker::{Released, Tracker};
use std::alloc::Allocator;

impl Requester {
    /// A first attempt arrived: an entry of its type is claimed in one scan, and Sent becomes Admitted.
    /// Where each entry of the type was found claimed, one more credit of the type is owed, and Sent
    /// becomes Refused.
    #[tactic(auto, using(crate::proofs::Keeps::still_eight, crate::proofs::Keeps::still_within, crate::proofs::Keeps::still_due, crate::proofs::Keeps::taken_entries, crate::proofs::Keeps::taken_inside, crate::proofs::Keeps::owed_due, crate::proofs::Keeps::few_due, crate::proofs::Keeps::still_entries, crate::proofs::Passed::of_credit))]
    pub(crate) fn admit_first<A: Allocator>(
        &mut self,
        tracker: &Tracker<A>,
        slot: Slot,
    ) -> Option<Entry>
        requires table { self.old.table ≡ tracker.now.table }
        requires slot { slot.0 < 8 }
        requires sent { state_at self.old.slots slot.0 ≡ SlotState.Sent }
        requires entries { 0 < size self.old.port.shape (type_at self.old.slots slot.0) }
        ensures unanswered { IfSome result (λ _. (slot_record_at self.old.slots slot.0).answered
            ≡ false) }
        ensures hand { self.new.port.hand ≡ hand_with result self.old.port.hand }
        ensures some { IfSome result (λ e. HasSameCredits self.old.port self.new.port
            × (self.new ≡ with_both self.new.port self.new.history
            (slots_with_state self.old.slots slot.0 (SlotState.Admitted e)) self.old)) }
        ensures none { IfNone result (HasSameCredits
            (owed_one (type_at self.old.slots slot.0) self.old.port) self.new.port
            × (self.new ≡ with_both self.new.port self.new.history
            (slots_with_state self.old.slots slot.0 SlotState.Refused) self.old)) }
        ensures admitted { IfSome result (λ e. Acted
            (ClaimActs self.old.port (type_at self.old.slots slot.0) (Some e)) self.old self.new) }
        ensures retried { IfNone result
            (Retries (type_at self.old.slots slot.0) (owner self.old) (owner self.new)) }
    {
        let ty = self.account.slot(slot).credit;
        let claimed = self.port.claim(tracker, ty);
        match claimed {
            Some(entry) => self.account.admitted(slot, entry),
            None => {
                self.account.refused(slot);
                self.port.owe(tracker, ty);
            }
        }
        claimed
    }

    /// A resent request arrived: the lowest seen credit of its type is spent for it, and Riding becomes
    /// Admitted. It is never refused.
    #[tactic(auto, using(crate::proofs::Keeps::still_eight, crate::proofs::Keeps::taken_inside))]
    pub(crate) fn admit_resent<A: Allocator>(&mut self, tracker: &Tracker<A>, slot: Slot) -> Entry
        requires table { self.old.table ≡ tracker.now.table }
        requires slot { slot.0 < 8 }
        requires riding { state_at self.old.slots slot.0 ≡ SlotState.Riding }
        ensures unanswered { (slot_record_at self.old.slots slot.0).answered ≡ false }
        ensures lowest { IsLowestSeen self.old.port (type_at self.old.slots slot.0) result.0 }
        ensures held { has result.0 self.old.port ≡ 0 }
        ensures after { self.new
            ≡ with_both (spends (type_at self.old.slots slot.0) result.0 self.old.port)
            self.new.history (slots_with_state self.old.slots slot.0 (SlotState.Admitted result)) self.old }
        ensures acted { Acted (One (Spend (type_at self.old.slots slot.0) result.0))
            self.old self.new }
    {
        self.account.arrive(slot, tracker, &mut self.port)
    }

    /// A request of the slot arrived, with AllowRetry or resent without it.
    pub(crate) fn arrive<A: Allocator>(
        &mut self,
        tracker: &Tracker<A>,
        slot: Slot,
        allow_retry: bool,
    ) -> Arrived
        requires table { self.old.table ≡ tracker.now.table }
        requires slot { slot.0 < 8 }
        requires fits { CanArrive allow_retry slot.0 self.old }
        ensures { Arrives allow_retry slot.0 result self.old self.new }
    {
        if !allow_retry {
            return Arrived::Admitted(self.admit_resent(tracker, slot));
        }
        let ty = self.account.slot(slot).credit;
        match self.admit_first(tracker, slot) {
            Some(entry) => Arrived::Admitted(entry),
            None => Arrived::Retried(ty),
        }
    }

    /// The home completed the request: Admitted becomes Idle where the slot was answered, and Closing
    /// where it wasn't; its entry is released.
    #[tactic(auto, using(crate::proofs::Keeps::still_eight, crate::proofs::Keeps::still_within, crate::proofs::Keeps::still_due, crate::proofs::Keeps::left_entries, crate::proofs::Keeps::left_inside))]
    pub(crate) fn complete<A: Allocator>(&mut self, tracker: &Tracker<A>, slot: Slot) -> Released
        requires table { self.old.table ≡ tracker.now.table }
        requires slot { slot.0 < 8 }
        requires admitted { is_admitted (state_at self.old.slots slot.0) ≡ true }
        ensures held { (e : Entry) → state_at self.old.slots slot.0 ≡ SlotState.Admitted e
            → has e.0 self.old.port ≡ 1 }
        ensures credits { HasSameCredits self.old.port self.new.port }
        ensures acted { (e : Entry) × (state_at self.old.slots slot.0 ≡ SlotState.Admitted e)
            × (self.new.port.hand ≡ without_bit self.old.port.hand e.0)
            × Acted (ReleaseActs self.old.port e.0 result) self.old self.new }
        ensures after { self.new ≡ with_both self.new.port self.new.history
            (slice_set self.old.slots slot.0 (after_finish (slot_record_at self.old.slots slot.0))) self.old }
    {
        let entry = self.account.finished(slot);
        self.port.release(tracker, entry)
    }
}
