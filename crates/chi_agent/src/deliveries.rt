//! The deliveries of a line: which are enabled, and the one that is done.

ghost use Rattle.std.specs.Prelude.{◌≡◌, ◌%◌, Bool, IfSome, length, map, slice_get};
ghost use Rattle.std.specs.List.{filter};
ghost use Rattle.chi_agent.specs.Choice.{deliveries, delivery, is_enabled, IsCall};
ghost use Rattle.chi_agent.specs.declared.choice.Call.{Call};

use crate::choice::{Call, Choice};
use crate::turn_line::TurnLine;
use arrayvec::ArrayVec;
use chi_flit::Step;
use chi_slice::has_flit;
use std::alloc::Allocator;

/// All deliveries at a line, in the order in which they are counted: of flits to the agent; of its request to the
/// home, or a start of it there; and of its answers to the home.
fn deliveries() -> [Call; 10]
    ensures { result ≡ deliveries }
{
    [
        Call::Step(Step::RecvSnp),
        Call::Step(Step::RecvRetry),
        Call::Step(Step::RecvData),
        Call::Step(Step::RecvComp),
        Call::Step(Step::RecvDbid),
        Call::Arrival,
        Call::Step(Step::Start),
        Call::Step(Step::RecvSnpResp),
        Call::Step(Step::RecvAck),
        Call::Step(Step::RecvWrData),
    ]
}

/// Of each delivery, in their order, whether it is enabled.
fn delivery_marks<A: Allocator>(here: &TurnLine<'_, A>) -> [bool; 10]
    ensures { result ≡ map (is_enabled here.now.slice.now here.now.agent.0 here.now.line) deliveries }
{
    // (each with a step that the compiler knows: so no question is a jump by a table)
    let flits = here.at.flits;
    [
        has_flit(flits, Step::RecvSnp),
        has_flit(flits, Step::RecvRetry),
        has_flit(flits, Step::RecvData),
        has_flit(flits, Step::RecvComp),
        has_flit(flits, Step::RecvDbid),
        has_flit(flits, Step::Admit),
        here.at.home.why_no_start(here.agent).is_none(),
        has_flit(flits, Step::RecvSnpResp),
        has_flit(flits, Step::RecvAck),
        has_flit(flits, Step::RecvWrData),
    ]
}

/// The deliveries that are marked, in their order.
#[tactic(auto, using(crate::proofs::Marked::marked_here, crate::proofs::Marked::unmarked_here))]
fn deliveries_of(marks: [bool; 10]) -> ArrayVec<Call, 10>
    ensures { (f : Call → Bool) → marks ≡ map f deliveries → result.items ≡ filter f deliveries }
{
    let all = deliveries();
    let mut found = ArrayVec::new();
    for place in 0..10 {
        if marks[place] {
            found.push(all[place]);
        }
    }
    found
}

/// Of some deliveries the one at the place `number` modulo their count; `None` where there is none.
fn pick(deliveries: &[Call], number: u32) -> Option<Call>
    ensures { result ≡ slice_get deliveries.now (number % length deliveries.now) }
{
    if deliveries.is_empty() {
        return None;
    }
    let place = number as usize % deliveries.len();
    Some(deliveries[place])
}

/// Of the deliveries that are enabled, the one at the place `number` modulo their count; `None` where none
/// is.
pub(crate) fn delivery_at<A: Allocator>(here: &TurnLine<'_, A>, number: u32) -> Option<Choice>
    ensures is { result ≡ delivery here.now.slice.now here.now.agent.0 here.now.line number }
    ensures own { IfSome result IsCall }
{
    let marks = delivery_marks(here);
    if marks == [false; 10] {
        return None;
    }
    let found = pick(&deliveries_of(marks), number)?;
    Some(Choice::Do(found))
}
