//! The calls of a choice on a slice.

ghost use Rattle.std.specs.Prelude.{◌≡◌, true};
ghost use Rattle.chi_node.specs.Agree.{KeepsAgreement};
ghost use Rattle.chi_node.specs.Calls.{is_own_step, IsSameRequester, IsSameSlice};
ghost use Rattle.chi_node.specs.Parts.{HasTypes};
ghost use Rattle.chi_agent.specs.Choice.{IsOwnStep};
ghost use Rattle.chi_agent.specs.Turns.{action_by, ArrivalTried, ChoiceTried, StepTried};

use crate::choice::{Call, Choice};
use chi_flit::{Action, Line, Refusal, Step};
use chi_node::{Requester, Tracker, arrive_on, step_on};
use chi_slice::Slice;
use std::alloc::Allocator;

/// The requester tries a step at the line; why it was refused.
fn try_step<A: Allocator, B: Allocator>(
    slice: &mut Slice<A>,
    tracker: &Tracker<B>,
    requester: &mut Requester,
    line: Line,
    step: Step,
) -> Option<Refusal>
    requires table { requester.old.table ≡ tracker.now.table }
    requires own { is_own_step step ≡ true }
    ensures tried { StepTried slice.old slice.new (action_by requester.old line step)
        requester.old requester.new result }
    ensures agreement { KeepsAgreement slice.old slice.new requester.old requester.new }
    ensures same { IsSameRequester requester.old requester.new }
    ensures slice { IsSameSlice slice.old slice.new }
{
    let agent = requester.number();
    let action = Action { agent, line, step };
    match step_on(slice, tracker, requester, action) {
        Ok(_) => None,
        Err(refusal) => Some(refusal),
    }
}

/// The requester's request arrives at the line; why it was refused.
fn try_arrival<A: Allocator, B: Allocator>(
    slice: &mut Slice<A>,
    tracker: &Tracker<B>,
    requester: &mut Requester,
    line: Line,
) -> Option<Refusal>
    requires table { requester.old.table ≡ tracker.now.table }
    requires types { HasTypes slice.old.config requester.old.port.shape }
    ensures tried { ArrivalTried slice.old slice.new line requester.old requester.new result }
    ensures agreement { KeepsAgreement slice.old slice.new requester.old requester.new }
    ensures same { IsSameRequester requester.old requester.new }
    ensures slice { IsSameSlice slice.old slice.new }
{
    match arrive_on(slice, tracker, requester, line) {
        Ok(_) => None,
        Err(refusal) => Some(refusal),
    }
}

/// The choice is tried of the requester and the slice; why its call was refused. A finish calls nothing.
pub(crate) fn perform<A: Allocator, B: Allocator>(
    slice: &mut Slice<A>,
    tracker: &Tracker<B>,
    requester: &mut Requester,
    line: Line,
    choice: Choice,
) -> Option<Refusal>
    requires table { requester.old.table ≡ tracker.now.table }
    requires types { HasTypes slice.old.config requester.old.port.shape }
    requires own { IsOwnStep choice }
    ensures tried { ChoiceTried choice slice.old slice.new line requester.old requester.new result }
    ensures agreement { KeepsAgreement slice.old slice.new requester.old requester.new }
    ensures same { IsSameRequester requester.old requester.new }
    ensures slice { IsSameSlice slice.old slice.new }
{
    match choice {
        Choice::Finish(_) => None,
        Choice::Try(_, step) | Choice::Do(Call::Step(step)) => {
            try_step(slice, tracker, requester, line, step)
        }
        Choice::Do(Call::Arrival) => try_arrival(slice, tracker, requester, line),
    }
}
