//! The actions that a slice wouldn't refuse, for C.

ghost use Rattle.std.specs.Prelude.{◌≡◌, ◌≤◌, [], length, map};
ghost use Rattle.chi_library.specs.Actions.{action_told};
ghost use Rattle.chi_library.specs.Calls.{answer_number, output_of};
ghost use Rattle.chi_library.specs.Enabled.{all_steps, enabled_of, enabled_told};
ghost use Rattle.chi_library.specs.Listed.{IsListed};
ghost use Rattle.chi_library.specs.Numbers.{number_if};
ghost use Rattle.chi_slice.specs.Slice.{flits_refusal};

use crate::actions::{ChiAction, action_told};
use crate::answers::{CLOSED, DONE};
use crate::slice_handle::ChiSlice;
use chi_flit::{Action, Agent, Kind, Line, Slot, Step, WordNo};
use chi_slice::{EACH_CREDIT, Slice};
use std::alloc::Global;

/// The agent's actions at the line that `chi_slice_act` would do, in the order of their numbers: each step once,
/// Load and Store of word 0 with value 0, and Issue for each kind with the agent's lowest slot that is free in
/// the slice. Nothing is done.
///
/// Answers 10 where the agent or the line is outside the node, or the line is in another slice; `count` is 0
/// then. Of `actions` the first `count` are written, and the others stay as they were. Answers 255 of a closed
/// handle.
/// Source: `docs/PROTOCOL.md`, "The actions"; `docs/LIBRARY.md`, "A slice".
#[unsafe(no_mangle)]
pub extern "C" fn chi_slice_enabled(
    alloc: Global,
    slice: &mut ChiSlice,
    agent: u8,
    line: u8,
    actions: &mut [ChiAction; 24],
    count: &mut u8,
) -> u8
    ensures answer { result ≡ answer_number slice.old.value (λ s. flits_refusal s agent line) }
    ensures after { slice.new.value ≡ slice.old.value }
    ensures listed { IsListed (output_of slice.old.value [] (enabled_told agent line))
        actions.old actions.new count.new }
{
    *count = 0;
    match slice.take(alloc) {
        Some(held) => {
            let answer = show_enabled(&held, Agent(agent), Line(line), actions, count);
            slice.put(held);
            answer
        }
        None => CLOSED,
    }
}

/// Each step once: a load and a store of word 0, and an issue of each kind into one slot.
fn all_steps(slot: Slot) -> [Step; 24]
    ensures { result ≡ all_steps slot }
{
    [
        Step::Load(WordNo(0)),
        Step::Store(WordNo(0), 0),
        Step::Drop,
        Step::Issue(Kind::ReadNotSharedDirty, slot),
        Step::Issue(Kind::ReadShared, slot),
        Step::Issue(Kind::ReadUnique, slot),
        Step::Issue(Kind::CleanUnique, slot),
        Step::Issue(Kind::Evict, slot),
        Step::Issue(Kind::WriteBackFull, slot),
        Step::Issue(Kind::WriteCleanFull, slot),
        Step::Issue(Kind::WriteEvictFull, slot),
        Step::Admit,
        Step::Retry,
        Step::RecvRetry,
        Step::Resend,
        Step::Cancel,
        Step::Start,
        Step::RecvSnp,
        Step::RecvSnpResp,
        Step::RecvData,
        Step::RecvComp,
        Step::RecvAck,
        Step::RecvDbid,
        Step::RecvWrData,
    ]
}

/// Shows the actions of an agent at a line that aren't refused.
fn show_enabled(
    slice: &Slice<Global>,
    agent: Agent,
    line: Line,
    actions: &mut [ChiAction; 24],
    count: &mut u8,
) -> u8
    requires none { count.old ≡ 0 }
    ensures answer { result ≡ number_if (flits_refusal slice.now agent.0 line.0) }
    ensures listed { IsListed (enabled_told agent.0 line.0 slice.now)
        actions.old actions.new count.new }
{
    match slice.row_for(agent, line) {
        Ok(_) => {
            let steps = all_steps(slice.lowest_idle(agent));
            *count = list_enabled(slice, agent, line, &steps, actions);
            DONE
        }
        Err(refusal) => refusal.number(),
    }
}

/// Lists the actions of these steps that aren't refused, and answers how many they are.
fn list_enabled(
    slice: &Slice<Global>,
    agent: Agent,
    line: Line,
    steps: &[Step],
    actions: &mut [ChiAction; 24],
) -> u8
    requires { length steps.now ≤ 24 }
    ensures { IsListed (map action_told (enabled_of slice.now agent line steps.now))
        actions.old actions.new result }
{
    let mut count = 0;
    for step in steps {
        let step = *step;
        let action = Action { agent, line, step };
        if slice.refusal(action, EACH_CREDIT).is_none() {
            actions[usize::from(count)] = action_told(action);
            count += 1;
        }
    }
    count
}
