//! The calls for a whole requester on a slice: an arrival of its request, and a step.

ghost use Rattle.std.specs.Prelude.{◌≡◌, ◌<◌, true, is_some, length, IfOk, Some};
ghost use Rattle.chi_flit.specs.Refusal.{refusal_of};
ghost use Rattle.chi_slice.specs.Slice.{IsRowOf, line_in_row};
ghost use Rattle.chi_slice.specs.Words.{cells_of, no_flit_unless};
ghost use Rattle.chi_node.specs.Agree.{Agree};
ghost use Rattle.chi_node.specs.Calls.{arrival_step, is_own_step, BothKept, DoesArrival, DoesStep, OrNotOpen};
ghost use Rattle.chi_node.specs.Outstanding.{arrival_refusal, outstanding_of, step_refusal};
ghost use Rattle.chi_node.specs.Parts.{HasTypes};

use crate::agree::agrees;
use crate::answers::{Arrived, Stepped};
use crate::requester::Requester;
use chi_flit::{Action, Line, Refusal, Request, Step};
use chi_slice::{EACH_CREDIT, Slice, is_step_in_range};
use chi_tracker::Tracker;
use std::alloc::Allocator;

/// The requester's request that is in flight at the line arrives at the home. A first attempt is admitted
/// where one claim gives an entry of its type; where each entry of the type was found claimed it is retried,
/// and a credit of the type is owed. A resent request is always admitted, with the entry of a credit that is
/// spent for it. The slice does Admit or Retry. No memory is taken, and nothing waited for.
///
/// Refused 10 (OutOfRange) for a requester whose number is none of the node's, or a line outside the node or
/// of another slice, 7 (NoFlit) where no request of the requester is in flight there, and then 11 (NotOpen)
/// exactly where the requester doesn't agree with the slice; nothing changes then. Conditions: the tracker is
/// the requester's, and it has entries of each type of the node's profile. Whoever agreed with the slice
/// before agrees with it after, and so does the requester with the node's other slices.
/// Source: `docs/PROTOCOL.md`, "A requester and its calls".
pub fn arrive_on<A: Allocator, B: Allocator>(
    slice: &mut Slice<A>,
    tracker: &Tracker<B>,
    requester: &mut Requester,
    line: Line,
) -> Result<Arrived, Refusal>
    requires table { requester.old.table ≡ tracker.now.table }
    requires types { HasTypes slice.old.config requester.old.port.shape }
    ensures refusal { OrNotOpen (arrival_refusal slice.old requester.old.number line.0)
        (Agree slice.old requester.old) (refusal_of result) }
    ensures call { DoesArrival slice.old slice.new line requester.old requester.new result }
{
    let row = slice.row_for(requester.number(), line)?;
    if agrees(slice, requester) {
        return arrive_agreed(slice, tracker, requester, row, line);
    }
    arrival(slice, requester, row)?;
    Err(Refusal::NotOpen)
}

/// As `arrive_on`, of a requester that agrees with the slice, at a line that is there: neither is asked again.
///
/// Refused 7 (NoFlit) exactly where no request of the requester is in flight there; nothing changes then.
/// Conditions: those of `arrive_on`, that the requester agrees with the slice, and that the row is the one that
/// `row_for` of this slice answers for the requester and the line.
/// Source: `docs/PROTOCOL.md`, "A requester and its calls".
pub fn arrive_agreed<A: Allocator, B: Allocator>(
    slice: &mut Slice<A>,
    tracker: &Tracker<B>,
    requester: &mut Requester,
    row: u8,
    line: Line,
) -> Result<Arrived, Refusal>
    requires table { requester.old.table ≡ tracker.now.table }
    requires types { HasTypes slice.old.config requester.old.port.shape }
    requires row { IsRowOf slice.old requester.old.number line.0 row }
    requires agrees { Agree slice.old requester.old }
    ensures refusal { refusal_of result ≡ arrival_refusal slice.old requester.old.number line.0 }
    ensures call { DoesArrival slice.old slice.new line requester.old requester.new result }
{
    let agent = requester.number();
    let request = arrival(slice, requester, row)?;
    let arrived = requester.arrive(tracker, request.slot, request.allow_retry);
    let step = arrival_step(arrived);
    let action = Action { agent, line, step };
    let Ok(_) = slice.act_in(row, action, EACH_CREDIT) else {
        unreachable!();
    };
    Ok(arrived)
}

/// The requester's request that is in flight at the line in a row.
fn arrival<A: Allocator>(
    slice: &Slice<A>,
    requester: &Requester,
    row: u8,
) -> Result<Request, Refusal>
    requires row { row < length slice.now.lines }
    requires agent { requester.now.number < 8 }
    ensures refusal { refusal_of result ≡ no_flit_unless (is_some
        (cells_of (line_in_row slice.now row) requester.now.number).req) }
    ensures request { IfOk result (λ request.
        (cells_of (line_in_row slice.now row) requester.now.number).req ≡ Some request) }
    ensures kept { BothKept slice.now requester.now }
{
    keeps(slice, requester);
    let Some(request) = slice.flits_in(row, requester.number()).req else {
        return Err(Refusal::NoFlit);
    };
    Ok(request)
}

/// What the slice does where a request arrived so.
fn arrival_step(arrived: Arrived) -> Step
    ensures { result ≡ arrival_step arrived }
{
    match arrived {
        Arrived::Admitted(_) => Step::Admit,
        Arrived::Retried(_) => Step::Retry,
    }
}

/// The requester does an action other than Admit and Retry: the slice does it, and the account and the
/// port their parts. Where it completes a request, the slot's entry is released. No memory is taken, and
/// nothing waited for.
///
/// Refused as `Slice::act` refuses the action, with 3 (Pending) also where an Issue's slot isn't Idle in the
/// account; then 12 (NoCredit) for a Resend without a seen credit of the pending request's type beyond
/// those for Riding slots; then 11 (NotOpen) exactly where the requester doesn't agree with the slice.
/// Nothing changes then. Conditions: the action's agent is the requester, its step is neither Admit nor
/// Retry, and the tracker is the requester's. Whoever agreed with the slice before agrees with it after, and
/// so does the requester with the node's other slices.
/// Source: `docs/PROTOCOL.md`, "A requester and its calls".
pub fn step_on<A: Allocator, B: Allocator>(
    slice: &mut Slice<A>,
    tracker: &Tracker<B>,
    requester: &mut Requester,
    action: Action,
) -> Result<Stepped, Refusal>
    requires table { requester.old.table ≡ tracker.now.table }
    requires agent { action.agent.0 ≡ requester.old.number }
    requires step { is_own_step action.step ≡ true }
    ensures refusal { OrNotOpen (step_refusal slice.old (outstanding_of requester.old) action)
        (Agree slice.old requester.old) (refusal_of result) }
    ensures call { DoesStep slice.old slice.new action requester.old requester.new result }
{
    if agrees(slice, requester) {
        let row = slice.row_for(action.agent, action.line)?;
        return step_agreed(slice, tracker, requester, row, action);
    }
    may_step(slice, requester, action)?;
    Err(Refusal::NotOpen)
}

/// As `step_on`, of a requester that agrees with the slice, at a line that is there: neither is asked again.
///
/// Refused as `Slice::act` refuses the action, but 10 (OutOfRange) only for a number of the step, with 3
/// (Pending) also where an Issue's slot isn't Idle in the account, and then 12 (NoCredit) for a Resend without
/// a seen credit of the pending request's type beyond those for Riding slots; nothing changes then.
/// Conditions: those of `step_on`, that the requester agrees with the slice, and that the row is the one that
/// `row_for` of this slice answers for the action's agent and line.
/// Source: `docs/PROTOCOL.md`, "A requester and its calls".
pub fn step_agreed<A: Allocator, B: Allocator>(
    slice: &mut Slice<A>,
    tracker: &Tracker<B>,
    requester: &mut Requester,
    row: u8,
    action: Action,
) -> Result<Stepped, Refusal>
    requires table { requester.old.table ≡ tracker.now.table }
    requires agent { action.agent.0 ≡ requester.old.number }
    requires row { IsRowOf slice.old action.agent.0 action.line.0 row }
    requires step { is_own_step action.step ≡ true }
    requires agrees { Agree slice.old requester.old }
    ensures refusal { refusal_of result
        ≡ step_refusal slice.old (outstanding_of requester.old) action }
    ensures call { DoesStep slice.old slice.new action requester.old requester.new result }
{
    if !is_step_in_range(action.step) {
        return Err(Refusal::OutOfRange);
    }
    if requester.is_taken(action.step) {
        return Err(Refusal::Pending);
    }
    let credits = requester.credits_for(action.step);
    keeps(slice, requester);
    let outcome = slice.act_in(row, action, credits)?;
    let released = requester.finish(slice, tracker, action, outcome);
    Ok(Stepped {
        effect: outcome.effect,
        released,
    })
}

/// Why the step is refused, before it is asked whether the requester agrees with the slice.
fn may_step<A: Allocator>(
    slice: &Slice<A>,
    requester: &Requester,
    action: Action,
) -> Result<(), Refusal>
    ensures { refusal_of result ≡ step_refusal slice.now (outstanding_of requester.now) action }
{
    slice.row_for(action.agent, action.line)?;
    if !is_step_in_range(action.step) {
        return Err(Refusal::OutOfRange);
    }
    if requester.is_taken(action.step) {
        return Err(Refusal::Pending);
    }
    match slice.refusal(action, requester.credits_for(action.step)) {
        Some(refusal) => Err(refusal),
        None => Ok(()),
    }
}

/// What every slice and every requester keep. Nothing is done.
fn keeps<A: Allocator>(slice: &Slice<A>, requester: &Requester)
    ensures { BothKept slice.now requester.now }
{
    let agent = requester.number();
    let _ = slice.journal().part_len(agent);
}
