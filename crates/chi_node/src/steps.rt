//! A requester's half of a step.

ghost use Rattle.std.specs.Prelude.{◌≡◌, Some, is_some, IsTrue};
ghost use Rattle.chi_node.specs.AfterStep.{place_in, requester_after, CanFinish, CanFollow, Finishes};

use crate::requester::Requester;
use chi_flit::{Action, Effect, Slot, Step, credit_type};
use chi_slice::{ActionOutcome, Slice};
use chi_tracker::{Released, Tracker};
use std::alloc::Allocator;

impl Requester {
    /// The agent did an action on the slice that completes nothing, and moved the request of the slot, if there is
    /// one: its account and its counts follow.
    pub(crate) fn follow<A: Allocator>(
        &mut self,
        slice: &Slice<A>,
        action: Action,
        moved: Option<Slot>,
    )
        requires { CanFollow (place_in slice.now action.line moved) action.step self.old }
        ensures { self.new
            ≡ requester_after (place_in slice.now action.line moved) action.step self.old }
    {
        match action.step {
            Step::Load(_) | Step::Store(_, _) => self.count_access(slice.index()),
            Step::Issue(kind, slot) => {
                let profile = slice.config().profile();
                self.open(slot, action.line, credit_type(profile, kind));
            }
            Step::RecvRetry => self.retry_seen(moved_slot(moved)),
            Step::Resend => self.resend(moved_slot(moved)),
            Step::Cancel => self.cancel(moved_slot(moved)),
            Step::RecvData | Step::RecvComp | Step::RecvDbid => self.answered(moved_slot(moved)),
            _ => {}
        }
    }

    /// The agent did an action on the slice, which came to this: where it completed a request, the slot's entry is
    /// released. Answers what the release did.
    pub(crate) fn finish<A: Allocator, B: Allocator>(
        &mut self,
        slice: &Slice<A>,
        tracker: &Tracker<B>,
        action: Action,
        outcome: ActionOutcome,
    ) -> Option<Released>
        requires table { self.old.table ≡ tracker.now.table }
        requires fits { CanFinish (place_in slice.now action.line outcome.slot)
            action.step outcome.effect self.old }
        ensures { Finishes (place_in slice.now action.line outcome.slot)
            action.step outcome.effect result self.old self.new }
    {
        match outcome.effect {
            Effect::Nothing | Effect::Value(_) => {
                self.follow(slice, action, outcome.slot);
                None
            }
            Effect::Completed(slot) => Some(self.complete(tracker, slot)),
        }
    }
}

/// The slot of the request that a step moved.
fn moved_slot(moved: Option<Slot>) -> Slot
    requires { IsTrue (is_some moved) }
    ensures { moved ≡ Some result }
{
    let Some(slot) = moved else {
        unreachable!();
    };
    slot
}
