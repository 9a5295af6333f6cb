//! The calls on a slice, for C.

ghost use Rattle.std.specs.Prelude.{◌≡◌, ◌<◌, IfOk, None, Some};
ghost use Rattle.chi_library.specs.Actions.{action_of, no_effect};
ghost use Rattle.chi_library.specs.Calls.{IsOpeningCall, answer_number, state_after, output_of};
ghost use Rattle.chi_library.specs.Flits.{no_flits_told};
ghost use Rattle.chi_library.specs.Lines.{no_line_told};
ghost use Rattle.chi_library.specs.NodeCalls.{no_audit, slice_audit};
ghost use Rattle.chi_library.specs.Numbers.{number_if};
ghost use Rattle.chi_library.specs.Records.{no_record};
ghost use Rattle.chi_library.specs.Sizes.{config_of};
ghost use Rattle.chi_library.specs.SliceCalls.{Opens, act_after, decoded_refusal, act_told, entry_at, entry_refusal, entry_told, flits_shown, show_told, sizes_at};
ghost use Rattle.chi_slice.specs.Slice.{action_refusal, flits_refusal, opening_slice, slice_after_try, view_refusal};

use crate::actions::{ChiAction, ChiEffect, action_at, action_by, by_step, tell_effect};
use crate::answers::{ALREADY_OPEN, CLOSED, DONE, NO_MEMORY, OUT_OF_RANGE, number_if};
use crate::flits::{ChiFlits, flits_told};
use crate::lines::{ChiLine, line_told};
use crate::node_told::ChiAudit;
use crate::numbers::flag_number;
use crate::records::{ChiRecord, record_told};
use crate::sizes::{ChiConfig, config_at};
use crate::slice_handle::ChiSlice;
use chi_flit::{Action, Agent, Kind, Line, NoMemory, Slot, Step, WordNo};
use chi_slice::{Config, EACH_CREDIT, Slice, check_slice};
use std::alloc::Global;

/// Opens a slice of a node of these sizes, in its opening state. All memory that it ever needs is taken
/// here.
///
/// Answers 0; 254 where the handle is open already, which stays as it is; 10 where a size is outside its
/// limits or the index isn't below the number of slices; 8 where memory runs out. After 10 and 8 the handle
/// is closed.
/// Source: `docs/LIBRARY.md`, "A slice".
#[unsafe(no_mangle)]
pub extern "C" fn chi_slice_open(
    alloc: Global,
    slice: &mut ChiSlice,
    config: &ChiConfig,
    index: u8,
) -> u8
    ensures { IsOpeningCall (Opens index)
        (sizes_at (config_of config.now) index) slice.old.value result slice.new.value }
{
    if let Some(held) = slice.take(alloc) {
        slice.put(held);
        return ALREADY_OPEN;
    }
    match config_at(config) {
        Some(config) if index < config.slices() => open(alloc, slice, &config, index),
        Some(_) | None => OUT_OF_RANGE,
    }
}

/// Does one action.
///
/// Answers 0 where it is done, and the number of its refusal else, 10 also where a number names no step or
/// no kind of request; nothing changes then. `effect` is what the action gives; on a refusal all its numbers
/// are 0. Answers 255 of a closed handle.
/// Source: `docs/PROTOCOL.md`, "The actions"; `docs/LIBRARY.md`, "A slice".
#[unsafe(no_mangle)]
pub extern "C" fn chi_slice_act(
    alloc: Global,
    slice: &mut ChiSlice,
    action: &ChiAction,
    effect: &mut ChiEffect,
) -> u8
    ensures answer { result
        ≡ answer_number slice.old.value (decoded_refusal (action_of action.now)) }
    ensures after { slice.new.value
        ≡ state_after slice.old.value (act_after (action_of action.now)) }
    ensures effect { effect.new
        ≡ output_of slice.old.value no_effect (act_told (action_of action.now)) }
{
    *effect = ChiEffect::NONE;
    match slice.take(alloc) {
        Some(mut held) => {
            let answer = act(&mut held, action, effect);
            slice.put(held);
            answer
        }
        None => CLOSED,
    }
}

/// Why `chi_slice_act` would refuse an action: 0 where it would be done. Nothing is done.
///
/// Answers 255 of a closed handle.
/// Source: `docs/PROTOCOL.md`, "The actions"; `docs/LIBRARY.md`, "A slice".
#[unsafe(no_mangle)]
pub extern "C" fn chi_slice_refusal(alloc: Global, slice: &mut ChiSlice, action: &ChiAction) -> u8
    ensures answer { result
        ≡ answer_number slice.old.value (decoded_refusal (action_of action.now)) }
    ensures after { slice.new.value ≡ slice.old.value }
{
    match slice.take(alloc) {
        Some(held) => {
            let answer = refusal(&held, action);
            slice.put(held);
            answer
        }
        None => CLOSED,
    }
}

/// All parts of a line but its flits.
///
/// Answers 10 where the line is outside the node or in another slice; all numbers of `shown` are 0 then.
/// Answers 255 of a closed handle. Nothing changes.
/// Source: `docs/PROTOCOL.md`, "One line"; `docs/LIBRARY.md`, "A slice".
#[unsafe(no_mangle)]
pub extern "C" fn chi_slice_show(
    alloc: Global,
    slice: &mut ChiSlice,
    line: u8,
    shown: &mut ChiLine,
) -> u8
    ensures answer { result ≡ answer_number slice.old.value (λ s. view_refusal s line) }
    ensures after { slice.new.value ≡ slice.old.value }
    ensures shown { shown.new ≡ output_of slice.old.value no_line_told (show_told line) }
{
    *shown = ChiLine::NONE;
    match slice.take(alloc) {
        Some(held) => {
            let answer = show(&held, Line(line), shown);
            slice.put(held);
            answer
        }
        None => CLOSED,
    }
}

/// What is in flight between an agent and the home for a line, by channel.
///
/// Answers 10 where the agent or the line is outside the node, or the line is in another slice; all numbers
/// of `flits` are 0 then. Answers 255 of a closed handle. Nothing changes.
/// Source: `docs/PROTOCOL.md`, "Messages"; `docs/LIBRARY.md`, "A slice".
#[unsafe(no_mangle)]
pub extern "C" fn chi_slice_flits(
    alloc: Global,
    slice: &mut ChiSlice,
    agent: u8,
    line: u8,
    flits: &mut ChiFlits,
) -> u8
    ensures answer { result ≡ answer_number slice.old.value (λ s. flits_refusal s agent line) }
    ensures after { slice.new.value ≡ slice.old.value }
    ensures flits { flits.new ≡ output_of slice.old.value no_flits_told (flits_shown agent line) }
{
    *flits = ChiFlits::NONE;
    match slice.take(alloc) {
        Some(held) => {
            let answer = show_flits(&held, Agent(agent), Line(line), flits);
            slice.put(held);
            answer
        }
        None => CLOSED,
    }
}

/// The load or store of a place in the journal, from 0.
///
/// Answers 10 where the journal has no more than so many records; all numbers of `entry` are 0 then. Answers
/// 255 of a closed handle. Nothing changes.
/// Source: `docs/PROTOCOL.md`, "The journal and last values"; `docs/LIBRARY.md`, "A slice".
#[unsafe(no_mangle)]
pub extern "C" fn chi_slice_journal(
    alloc: Global,
    slice: &mut ChiSlice,
    place: u32,
    entry: &mut ChiRecord,
) -> u8
    ensures answer { result
        ≡ answer_number slice.old.value (λ s. entry_refusal (entry_at s place)) }
    ensures after { slice.new.value ≡ slice.old.value }
    ensures entry { entry.new
        ≡ output_of slice.old.value no_record (λ s. entry_told (entry_at s place)) }
{
    *entry = ChiRecord::NONE;
    match slice.take(alloc) {
        Some(held) => {
            let answer = show_entry(&held, place as usize, entry);
            slice.put(held);
            answer
        }
        None => CLOSED,
    }
}

/// The loads and stores of the slice, as its journal counts them, and whether each line is coherent and the
/// journal legal, as always. The numbers of a closed handle are 0.
///
/// Answers 0, or 255 of a closed handle. Nothing changes.
/// Source: `docs/PROTOCOL.md`, "Coherence"; `docs/LIBRARY.md`, "A slice".
#[unsafe(no_mangle)]
pub extern "C" fn chi_slice_audit(alloc: Global, slice: &mut ChiSlice, audit: &mut ChiAudit) -> u8
    ensures answer { result ≡ answer_number slice.old.value (λ s. None) }
    ensures after { slice.new.value ≡ slice.old.value }
    ensures audit { audit.new ≡ output_of slice.old.value no_audit slice_audit }
{
    *audit = ChiAudit::NONE;
    match slice.take(alloc) {
        Some(held) => {
            *audit = audit_of_slice(&held);
            slice.put(held);
            DONE
        }
        None => CLOSED,
    }
}

/// Closes the handle and frees the slice.
///
/// Answers 0, or 255 of a closed handle.
/// Source: `docs/LIBRARY.md`, "Handles".
#[unsafe(no_mangle)]
pub extern "C" fn chi_slice_close(alloc: Global, slice: &mut ChiSlice) -> u8
    ensures answer { result ≡ answer_number slice.old.value (λ s. None) }
    ensures after { slice.new.value ≡ None }
{
    match slice.take(alloc) {
        Some(_) => DONE,
        None => CLOSED,
    }
}

/// What is counted of a slice, and the verdict on it.
fn audit_of_slice(slice: &Slice<Global>) -> ChiAudit
    ensures { result ≡ slice_audit slice.now }
{
    let journal = slice.journal();
    ChiAudit {
        loads: journal.loads(),
        stores: journal.stores(),
        coherent: flag_number(check_slice(slice)),
    }
}

/// Opens a closed handle.
fn open(alloc: Global, slice: &mut ChiSlice, config: &Config, index: u8) -> u8
    requires closed { slice.old.value ≡ None }
    requires index { index < config.now.slices }
    ensures { IsOpeningCall (Opens index) (Some config.now) None result slice.new.value }
{
    match boxed_slice(alloc, config, index) {
        Ok(held) => {
            slice.put(held);
            DONE
        }
        Err(_) => NO_MEMORY,
    }
}

/// A new slice on the heap.
fn boxed_slice(alloc: Global, config: &Config, index: u8) -> Result<Box<Slice<Global>>, NoMemory>
    requires { index < config.now.slices }
    ensures { IfOk result (λ held. held.value ≡ opening_slice config.now index) }
{
    let slice = Slice::new(alloc, config, index)?;
    Ok(Box::new(alloc, slice)?)
}

/// Does an action that C's numbers name, and says what it gives.
#[inline(always)]
fn act_by(action: Action, slice: &mut Slice<Global>, effect: &mut ChiEffect) -> u8
    requires { effect.old ≡ no_effect }
    ensures answer { result ≡ number_if (action_refusal slice.old action) }
    ensures after { slice.new ≡ slice_after_try slice.old action }
    ensures effect { effect.new ≡ act_told (Some action) slice.old }
{
    match slice.act_with(action, EACH_CREDIT) {
        Ok(done) => {
            tell_effect(effect, done.effect);
            DONE
        }
        Err(reason) => reason.number(),
    }
}

/// Does an action, and says what it gives.
fn act(slice: &mut Slice<Global>, action: &ChiAction, effect: &mut ChiEffect) -> u8
    requires { effect.old ≡ no_effect }
    ensures answer { result ≡ number_if (decoded_refusal (action_of action.now) slice.old) }
    ensures after { slice.new ≡ act_after (action_of action.now) slice.old }
    ensures effect { effect.new ≡ act_told (action_of action.now) slice.old }
{
    by_step!(action, act_by, (slice, effect), OUT_OF_RANGE)
}

/// Why an action would be refused.
fn refusal(slice: &Slice<Global>, action: &ChiAction) -> u8
    ensures { result ≡ number_if (decoded_refusal (action_of action.now) slice.now) }
{
    match action_at(action) {
        Some(action) => number_if(slice.refusal(action, EACH_CREDIT)),
        None => OUT_OF_RANGE,
    }
}

/// Shows a line.
fn show(slice: &Slice<Global>, line: Line, shown: &mut ChiLine) -> u8
    requires { shown.old ≡ no_line_told }
    ensures answer { result ≡ number_if (view_refusal slice.now line.0) }
    ensures shown { shown.new ≡ show_told line.0 slice.now }
{
    match slice.view(line) {
        Ok(view) => {
            *shown = line_told(&view);
            DONE
        }
        Err(refusal) => refusal.number(),
    }
}

/// Shows what is in flight.
fn show_flits(slice: &Slice<Global>, agent: Agent, line: Line, flits: &mut ChiFlits) -> u8
    requires { flits.old ≡ no_flits_told }
    ensures answer { result ≡ number_if (flits_refusal slice.now agent.0 line.0) }
    ensures flits { flits.new ≡ flits_shown agent.0 line.0 slice.now }
{
    match slice.flits(agent, line) {
        Ok(cells) => {
            *flits = flits_told(&cells);
            DONE
        }
        Err(refusal) => refusal.number(),
    }
}

/// Shows a record.
fn show_entry(slice: &Slice<Global>, place: usize, entry: &mut ChiRecord) -> u8
    requires { entry.old ≡ no_record }
    ensures answer { result ≡ number_if (entry_refusal (entry_at slice.now place)) }
    ensures entry { entry.new ≡ entry_told (entry_at slice.now place) }
{
    match slice.journal().records().get(place) {
        Some(found) => {
            *entry = record_told(*found);
            DONE
        }
        None => OUT_OF_RANGE,
    }
}
