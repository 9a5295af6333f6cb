//! What each action of an agent does to its account and its port.

ghost use Rattle.std.specs.Prelude.{◌≡◌, ◌<◌, true, slice_index, slice_set};
ghost use Rattle.chi_slice.specs.Words.{counted};
ghost use Rattle.chi_credit.specs.Slot.{after_answer, can_be_answered, opened_slot};
ghost use Rattle.chi_credit.specs.Account.{slots_with_state, slot_record_at, state_at, type_at};
ghost use Rattle.chi_node.specs.Outstanding.{has_spare, outstanding_of};

use crate::requester::Requester;
use chi_credit::SlotState;
use chi_flit::{CreditType, Line, Slot};
use chi_slice::counted;

impl Requester {
    /// The slice of that index answered one more load or store; at most 2^58 - 1 are counted.
    pub(crate) fn count_access(&mut self, index: u8)
        requires { index < 8 }
        ensures { self.new ≡ record self.old {
          counts = slice_set self.old.counts index (counted (slice_index self.old.counts index));
        } }
    {
        let place = usize::from(index);
        self.counts[place] = counted(self.counts[place]);
    }

    /// The first attempt of a request of this line and credit type was sent: Idle becomes Sent.
    #[tactic(auto, using(crate::proofs::Keeps::still_eight, crate::proofs::Keeps::still_within, crate::proofs::Keeps::still_due, crate::proofs::Keeps::still_entries))]
    pub(crate) fn open(&mut self, slot: Slot, line: Line, ty: CreditType)
        requires slot { slot.0 < 8 }
        requires idle { state_at self.old.slots slot.0 ≡ SlotState.Idle }
        ensures { self.new
            ≡ record self.old { slots = slice_set self.old.slots slot.0 (opened_slot line ty) } }
    {
        self.account.open(slot, line, ty);
    }

    /// The RetryAck was taken: Refused becomes Retried.
    #[tactic(auto, using(crate::proofs::Keeps::still_eight, crate::proofs::Keeps::still_within, crate::proofs::Keeps::still_due, crate::proofs::Keeps::still_entries))]
    pub(crate) fn retry_seen(&mut self, slot: Slot)
        requires slot { slot.0 < 8 }
        requires refused { state_at self.old.slots slot.0 ≡ SlotState.Refused }
        ensures { self.new
            ≡ record self.old { slots = slots_with_state self.old.slots slot.0 SlotState.Retried } }
    {
        self.account.retry_seen(slot);
    }

    /// The request was sent again with a credit that is beyond those for the other Riding slots: Retried
    /// becomes Riding.
    pub(crate) fn resend(&mut self, slot: Slot)
        requires slot { slot.0 < 8 }
        requires retried { state_at self.old.slots slot.0 ≡ SlotState.Retried }
        requires credit { has_spare (outstanding_of self.old) (type_at self.old.slots slot.0) ≡ true }
        ensures { self.new
            ≡ record self.old { slots = slots_with_state self.old.slots slot.0 SlotState.Riding } }
    {
        self.account.resend(slot);
    }

    /// The request isn't sent again: Retried becomes Cancelled.
    #[tactic(auto, using(crate::proofs::Keeps::still_eight, crate::proofs::Keeps::still_within, crate::proofs::Keeps::still_due, crate::proofs::Keeps::still_entries))]
    pub(crate) fn cancel(&mut self, slot: Slot)
        requires slot { slot.0 < 8 }
        requires retried { state_at self.old.slots slot.0 ≡ SlotState.Retried }
        ensures { self.new
            ≡ record self.old { slots = slots_with_state self.old.slots slot.0 SlotState.Cancelled } }
    {
        self.account.cancel(slot);
    }

    /// The requester's own part is over: an Admitted slot is marked so, and a Closing one becomes Idle.
    #[tactic(auto, using(crate::proofs::Keeps::still_eight, crate::proofs::Keeps::still_within, crate::proofs::Keeps::still_due, crate::proofs::Keeps::still_entries))]
    pub(crate) fn answered(&mut self, slot: Slot)
        requires slot { slot.0 < 8 }
        requires waits { can_be_answered (state_at self.old.slots slot.0) ≡ true }
        ensures { self.new
            ≡ record self.old {
              slots = slice_set self.old.slots slot.0
                  (after_answer (slot_record_at self.old.slots slot.0));
            } }
    {
        self.account.answered(slot);
    }
}
