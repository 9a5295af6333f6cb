//! An action on a slice with the flits that it took and sent, for C.

ghost use Rattle.std.specs.Prelude.{◌≡◌, [], IfOk, OnErr, OnOk, Some, map, true};
ghost use Rattle.chi_flit.specs.Refusal.{refusal_of};
ghost use Rattle.chi_slice.specs.Words.{effect_of, flit_taken, flits_sent, is_step_in_range};
ghost use Rattle.chi_library.specs.Actions.{action_of, effect_told, no_effect};
ghost use Rattle.chi_library.specs.Calls.{answer_number, output_of, state_after};
ghost use Rattle.chi_library.specs.Flits.{no_sent, sent_told, taken_told};
ghost use Rattle.chi_library.specs.Listed.{IsListed};
ghost use Rattle.chi_library.specs.Numbers.{number_if};
ghost use Rattle.chi_library.specs.SliceCalls.{act_after, act_told, decoded_refusal, sent_shown, taken_shown};
ghost use Rattle.chi_library.specs.Standing.{line_standing};
ghost use Rattle.chi_slice.specs.Slice.{IsRowOf, action_refusal, is_in_range, line as line_of_slice, row_of_line, slice_after, slice_after_try};

use crate::actions::{ChiAction, ChiEffect, action_by, by_step, tell_effect};
use crate::answers::{CLOSED, DONE, OUT_OF_RANGE};
use crate::flits::{ChiFlit, ChiSent};
use crate::sent::{
    list_ack, list_ack_of, list_answer, list_answered, list_cell, list_issued, list_started,
    tell_taken,
};
use crate::slice_handle::ChiSlice;
use chi_flit::{Action, Channel, Effect, Kind, Refusal, Slot, Step, WordNo};
use chi_slice::{EACH_CREDIT, Serving, Slice};
use std::alloc::Global;

/// Does one action as `chi_slice_act` does it, and tells the flits that it sent, by agent, and the one that it
/// took.
///
/// Answers as `chi_slice_act`. On a refusal nothing changes, `count` is 0, and so are all numbers of `effect`
/// and `taken`; those of `taken` are also where the action takes no flit. Of `sent` the first `count` are
/// written, and the others stay as they were. Answers 255 of a closed handle.
/// Source: `docs/PROTOCOL.md`, "The actions" and "Messages"; `docs/LIBRARY.md`, "A slice".
#[unsafe(no_mangle)]
pub extern "C" fn chi_slice_step(
    alloc: Global,
    slice: &mut ChiSlice,
    action: &ChiAction,
    effect: &mut ChiEffect,
    sent: &mut [ChiSent; 8],
    count: &mut u8,
    taken: &mut ChiSent,
) -> u8
    ensures answer { result
        ≡ answer_number slice.old.value (decoded_refusal (action_of action.now)) }
    ensures after { slice.new.value
        ≡ state_after slice.old.value (act_after (action_of action.now)) }
    ensures effect { effect.new
        ≡ output_of slice.old.value no_effect (act_told (action_of action.now)) }
    ensures sent { IsListed (output_of slice.old.value [] (sent_shown (action_of action.now)))
        sent.old sent.new count.new }
    ensures taken { taken.new
        ≡ output_of slice.old.value no_sent (taken_shown (action_of action.now)) }
{
    *effect = ChiEffect::NONE;
    *count = 0;
    match slice.take(alloc) {
        Some(mut held) => {
            let answer = step(&mut held, action, effect, sent, count, taken);
            slice.put(held);
            answer
        }
        None => {
            *taken = ChiSent::NONE;
            CLOSED
        }
    }
}

/// Does an action, and tells what it gives, the flits that it sent, and the one that it took.
fn step(
    slice: &mut Slice<Global>,
    action: &ChiAction,
    effect: &mut ChiEffect,
    sent: &mut [ChiSent; 8],
    count: &mut u8,
    taken: &mut ChiSent,
) -> u8
    requires effect { effect.old ≡ no_effect }
    requires count { count.old ≡ 0 }
    ensures answer { result ≡ number_if (decoded_refusal (action_of action.now) slice.old) }
    ensures after { slice.new ≡ act_after (action_of action.now) slice.old }
    ensures effect { effect.new ≡ act_told (action_of action.now) slice.old }
    ensures sent { IsListed (sent_shown (action_of action.now) slice.old)
        sent.old sent.new count.new }
    ensures taken { taken.new ≡ taken_shown (action_of action.now) slice.old }
{
    by_step!(
        action,
        step_by,
        (slice, effect, sent, count, taken),
        {
            *taken = ChiSent::NONE;
            OUT_OF_RANGE
        }
    )
}

/// Does an action that C's numbers name as `step` does it.
#[inline(always)]
fn step_by(
    action: Action,
    slice: &mut Slice<Global>,
    effect: &mut ChiEffect,
    sent: &mut [ChiSent; 8],
    count: &mut u8,
    taken: &mut ChiSent,
) -> u8
    requires effect { effect.old ≡ no_effect }
    requires count { count.old ≡ 0 }
    ensures answer { result ≡ number_if (action_refusal slice.old action) }
    ensures after { slice.new ≡ slice_after_try slice.old action }
    ensures effect { effect.new ≡ act_told (Some action) slice.old }
    ensures sent { IsListed (sent_shown (Some action) slice.old) sent.old sent.new count.new }
    ensures taken { taken.new ≡ taken_shown (Some action) slice.old }
{
    match act_telling(slice, action, effect, sent, taken) {
        Ok(sents) => {
            *count = sents;
            DONE
        }
        Err(reason) => {
            *taken = ChiSent::NONE;
            reason.number()
        }
    }
}

/// Does an action, and tells its effect, the flit that it took out of its cell before it, and those that it sent
/// out of theirs after it. It asks once where the line is, and answers how many flits were sent.
#[inline(always)]
fn act_telling(
    slice: &mut Slice<Global>,
    action: Action,
    effect: &mut ChiEffect,
    sent: &mut [ChiSent; 8],
    taken: &mut ChiSent,
) -> Result<u8, Refusal>
    requires { effect.old ≡ no_effect }
    ensures refusal { refusal_of result ≡ action_refusal slice.old action }
    ensures effect { OnOk result (effect.new
        ≡ effect_told (effect_of (line_of_slice slice.old action.line.0) action)) }
    ensures taken { OnOk result (taken.new ≡ taken_told
        (flit_taken (line_of_slice slice.old action.line.0) action.agent action.step)) }
    ensures sent { IfOk result (λ count. IsListed
        (map sent_told (flits_sent slice.old.config.profile
        (line_of_slice slice.old action.line.0) action.agent action.step))
        sent.old sent.new count) }
    ensures after { OnOk result (slice.new ≡ slice_after slice.old action) }
    ensures untold { OnErr result (sent.new ≡ sent.old) }
    ensures ungiven { OnErr result (effect.new ≡ effect.old) }
    ensures err { OnErr result (slice.new ≡ slice.old) }
{
    let row = slice.row_for(action.agent, action.line)?;
    if !is_in_range(action.step) {
        return Err(Refusal::OutOfRange);
    }
    tell_taken(
        taken,
        action.agent,
        slice.flits_in(row, action.agent),
        action.step,
    );
    let before = slice.home_in(row).serving();
    let given = act_in_row(slice, row, action)?;
    tell_effect(effect, given);
    Ok(list_sent(slice, row, action, before, &taken.flit, sent))
}

/// Does an action in the row of its line.
#[inline(always)]
fn act_in_row(slice: &mut Slice<Global>, row: u8, action: Action) -> Result<Effect, Refusal>
    requires row { row ≡ row_of_line slice.old action.line.0 }
    requires inside { is_in_range slice.old action ≡ true }
    ensures refusal { refusal_of result ≡ action_refusal slice.old action }
    ensures effect { IfOk result (λ effect. effect
        ≡ effect_of (line_of_slice slice.old action.line.0) action) }
    ensures after { OnOk result (slice.new ≡ slice_after slice.old action) }
    ensures err { OnErr result (slice.new ≡ slice.old) }
{
    let outcome = slice.act_in(row, action, EACH_CREDIT)?;
    Ok(outcome.effect)
}

/// Whether the numbers of a step are in their ranges.
fn is_in_range(step: Step) -> bool
    ensures { result ≡ is_step_in_range step }
{
    match step {
        Step::Load(word) | Step::Store(word, _) => word.0 < 8,
        Step::Issue(_, slot) => slot.0 < 8,
        _ => true,
    }
}

/// Lists the flits that a step sent, by what stands after it, and answers how many they are.
#[inline(always)]
pub(crate) fn list_sent(
    slice: &Slice<Global>,
    row: u8,
    action: Action,
    before: Serving,
    taken: &ChiFlit,
    sent: &mut [ChiSent; 8],
) -> u8
    requires { IsRowOf slice.now action.agent.0 action.line.0 row }
    ensures { IsListed (map sent_told (line_standing (line_of_slice slice.now action.line.0)
        action.agent before taken.now action.step)) sent.old sent.new result }
{
    let agent = action.agent;
    match action.step {
        Step::Issue(kind, slot) => list_issued(agent, kind, slot, sent),
        Step::Retry => list_cell(agent, slice.flits_in(row, agent), Channel::RspDown, sent),
        Step::Resend => list_cell(agent, slice.flits_in(row, agent), Channel::Req, sent),
        Step::Start => list_started(agent, slice.home_in(row), slice.flits_in(row, agent), sent),
        Step::RecvSnp => list_answer(agent, slice.flits_in(row, agent), sent),
        Step::RecvSnpResp => list_answered(before, taken, slice.home_in(row), sent),
        Step::RecvData => list_ack(agent, sent),
        Step::RecvComp => list_ack_of(agent, taken.message, sent),
        Step::RecvDbid => list_cell(agent, slice.flits_in(row, agent), Channel::DatUp, sent),
        _ => 0,
    }
}
