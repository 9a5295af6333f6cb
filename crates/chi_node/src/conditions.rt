//! What a requester has for its steps: a slot that is Idle, and credits.

ghost use Rattle.std.specs.Prelude.{◌≡◌, [], ◌∷◌, true};
ghost use Rattle.chi_credit.specs.Slot.{is_idle_state};
ghost use Rattle.chi_slice.specs.Words.{is_step_in_range};
ghost use Rattle.chi_node.specs.Outstanding.{credits_for, has_spare, names_taken, outstanding_of};

use crate::requester::Requester;
use chi_credit::SlotState;
use chi_flit::{CreditType, Step};
use chi_slice::EACH_CREDIT;

impl Requester {
    /// Whether the step is an Issue of a slot that isn't Idle in the account.
    pub(crate) fn is_taken(&self, step: Step) -> bool
        requires { is_step_in_range step ≡ true }
        ensures { result ≡ names_taken self.now.slots step }
    {
        match step {
            Step::Issue(_, slot) => !is_idle(self.slot(slot).state),
            _ => false,
        }
    }

    /// For each credit type whether a seen credit is left beside those for the Riding slots.
    fn spare_credits(&self) -> [bool; 4]
        ensures { result ≡ has_spare (outstanding_of self.now) 0
            ∷ has_spare (outstanding_of self.now) 1 ∷ has_spare (outstanding_of self.now) 2
            ∷ has_spare (outstanding_of self.now) 3 ∷ [] }
    {
        let seen = self.port.seen();
        [
            self.account.can_resend(CreditType::T0, seen[0]),
            self.account.can_resend(CreditType::T1, seen[1]),
            self.account.can_resend(CreditType::T2, seen[2]),
            self.account.can_resend(CreditType::T3, seen[3]),
        ]
    }

    /// The credits that the requester has for its step: a Resend needs one that is spare.
    pub(crate) fn credits_for(&self, step: Step) -> [bool; 4]
        ensures { result ≡ credits_for (outstanding_of self.now) step }
    {
        match step {
            Step::Resend => self.spare_credits(),
            _ => EACH_CREDIT,
        }
    }
}

/// Whether a slot in this state is free.
fn is_idle(state: SlotState) -> bool
    ensures { result ≡ is_idle_state state }
{
    matches!(state, SlotState::Idle)
}
