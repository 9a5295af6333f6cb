//! The calls on a monitor, for C.

ghost use Rattle.std.specs.Prelude.{◌≡◌, IfOk, None, Some, replicate};
ghost use Rattle.chi_library.specs.Calls.{IsOpeningCall, answer_number, output_of};
ghost use Rattle.chi_library.specs.MonitorCalls.{IsExplainedAs, IsExplainedIf, IsFlitAnswered, IsTakenAs, IsMonitorOf, all_open_told, fault_told, IsTextTold, config_in, watched_refusal, monitor_config, no_fault, none_open};
ghost use Rattle.chi_library.specs.Numbers.{number_if};
ghost use Rattle.chi_library.specs.Observed.{observed_of};
ghost use Rattle.chi_monitor.specs.Watched.{open_flits_at, opening_monitor};

use crate::answers::{ALREADY_OPEN, CLOSED, DONE, NO_MEMORY, OUT_OF_RANGE, tell_bytes};
use crate::flits::ChiSent;
use crate::monitor_handle::ChiMonitor;
use crate::monitor_told::{
    ChiFault, ChiOpen, all_open_told, explained_number, fault_told, taken_number,
};
use crate::numbers::profile_at;
use crate::observed::observed_at;
use chi_flit::{Line, NoMemory, Profile};
use chi_monitor::{FaultNames, FaultText, FirstFault, Monitor};
use chi_slice::Config;
use std::alloc::Global;
use std::fmt::Write;

/// Opens a monitor of the lines of a node of this profile, of so many agents, which keeps so many flits of each
/// line, or none where that is 0.
///
/// Answers 0; 254 where the handle is open already, which stays as it is; 10 where the number names no profile,
/// there aren't 1 to 8 agents and 1 to 64 lines, or more than 65,536 flits are to be kept; 8 where memory runs out. After 10 and 8 the
/// handle is closed.
/// Source: `docs/LIBRARY.md`, "A monitor".
#[unsafe(no_mangle)]
pub extern "C" fn chi_monitor_open(
    alloc: Global,
    monitor: &mut ChiMonitor,
    profile: u8,
    agents: u8,
    lines: u8,
    kept: u32,
) -> u8
    ensures { IsOpeningCall (IsMonitorOf lines kept) (monitor_config profile agents lines kept)
        monitor.old.value result monitor.new.value }
{
    if let Some(held) = monitor.take(alloc) {
        monitor.put(held);
        return ALREADY_OPEN;
    }
    match config_at(profile, agents, lines, kept) {
        Some(config) => open(alloc, monitor, &config, lines, kept),
        None => OUT_OF_RANGE,
    }
}

/// Takes the next flit of a line, where a run of the model sends it behind those before: of the flit its agent
/// is read and what its message has.
///
/// Answers 0 where it is taken; 10 where its agent or the line is outside the node, or a number names no
/// message, kind or credit type; 253 where no run sends it, which is kept as the first fault; 253 too of each
/// flit behind that; 1 where so many flits of the line are kept as were to be; 8 where memory ran out, which is
/// kept as a fault is. Answers 255 of a closed handle. But for the fault nothing changes where it isn't taken.
/// Source: `docs/LIBRARY.md`, "A monitor".
#[unsafe(no_mangle)]
pub extern "C" fn chi_monitor_flit(
    alloc: Global,
    monitor: &mut ChiMonitor,
    line: u8,
    sent: &ChiSent,
) -> u8
    ensures { IsFlitAnswered monitor.old.value line (observed_of sent.now)
        result monitor.new.value }
{
    match monitor.take(alloc) {
        Some(mut held) => {
            let answer = flit(&mut held, Line(line), sent);
            monitor.put(held);
            answer
        }
        None => CLOSED,
    }
}

/// Tells the first fault; all its numbers are 0 where there is none.
///
/// Answers 0, or 255 of a closed handle. Nothing changes.
/// Source: `docs/LIBRARY.md`, "A monitor".
#[unsafe(no_mangle)]
pub extern "C" fn chi_monitor_fault(
    alloc: Global,
    monitor: &mut ChiMonitor,
    fault: &mut ChiFault,
) -> u8
    ensures answer { result ≡ answer_number monitor.old.value (λ m. None) }
    ensures after { monitor.new.value ≡ monitor.old.value }
    ensures fault { fault.new ≡ output_of monitor.old.value no_fault (λ m. fault_told m.fault) }
{
    *fault = ChiFault::NONE;
    match monitor.take(alloc) {
        Some(held) => {
            *fault = fault_told(held.fault());
            monitor.put(held);
            DONE
        }
        None => CLOSED,
    }
}

/// Writes the text of the first fault, why no run of the model sends that flit, in UTF-8 and without a 0 behind it;
/// none where there is no fault. `length` is how many bytes it has, and those of `bytes` behind them stay.
///
/// Answers 0; 1 where there is not room for all, and 8 where memory runs out: `bytes` is then as it was, and after
/// 1 `length` is how many there are, else 0. Answers 255 of a closed handle. Nothing changes. Which text it is no
/// clause says.
/// Source: `docs/LIBRARY.md`, "A monitor"; `docs/TRACES.md`, "Reasons".
#[unsafe(no_mangle)]
pub extern "C" fn chi_monitor_text(
    alloc: Global,
    monitor: &mut ChiMonitor,
    bytes: &mut [u8],
    length: &mut usize,
) -> u8
    ensures text { IsTextTold monitor.old.value bytes.old result bytes.new length.new }
    ensures after { monitor.new.value ≡ monitor.old.value }
{
    *length = 0;
    match monitor.take(alloc) {
        Some(held) => {
            let answer = text_into(alloc, &held, bytes, length);
            monitor.put(held);
            answer
        }
        None => CLOSED,
    }
}

/// Tells what is open of each agent at a line behind the flits that were taken.
///
/// Answers 10 where there is no such line; all numbers are 0 then. Answers 255 of a closed handle. Nothing
/// changes.
/// Source: `docs/LIBRARY.md`, "A monitor".
#[unsafe(no_mangle)]
pub extern "C" fn chi_monitor_end(
    alloc: Global,
    monitor: &mut ChiMonitor,
    line: u8,
    agents: &mut [ChiOpen; 8],
) -> u8
    ensures answer { result
        ≡ answer_number monitor.old.value (λ m. watched_refusal (open_flits_at m line)) }
    ensures after { monitor.new.value ≡ monitor.old.value }
    ensures agents { agents.new
        ≡ output_of monitor.old.value (replicate 8 none_open)
        (λ m. all_open_told (open_flits_at m line)) }
{
    *agents = [ChiOpen::NONE; 8];
    match monitor.take(alloc) {
        Some(held) => {
            let answer = end(&held, Line(line), agents);
            monitor.put(held);
            answer
        }
        None => CLOSED,
    }
}

/// Explains the flits that were kept of a line: actions of the model are found, and done, and send just these.
///
/// Answers 0 where they are; 10 where there is no such line; 252 where no flits are kept; 8 where memory runs
/// out; 253 where no explanation is found. Answers 255 of a closed handle. Nothing changes.
/// Source: `docs/LIBRARY.md`, "A monitor"; `docs/TRACES.md`, "Explanations".
#[unsafe(no_mangle)]
pub extern "C" fn chi_monitor_explain(alloc: Global, monitor: &mut ChiMonitor, line: u8) -> u8
    ensures answer { IsExplainedIf monitor.old.value line result }
    ensures after { monitor.new.value ≡ monitor.old.value }
{
    match monitor.take(alloc) {
        Some(held) => {
            let answer = explain(alloc, &held, Line(line));
            monitor.put(held);
            answer
        }
        None => CLOSED,
    }
}

/// Closes the handle and frees the monitor.
///
/// Answers 0, or 255 of a closed handle.
/// Source: `docs/LIBRARY.md`, "Handles".
#[unsafe(no_mangle)]
pub extern "C" fn chi_monitor_close(alloc: Global, monitor: &mut ChiMonitor) -> u8
    ensures answer { result ≡ answer_number monitor.old.value (λ m. None) }
    ensures after { monitor.new.value ≡ None }
{
    match monitor.take(alloc) {
        Some(_) => DONE,
        None => CLOSED,
    }
}

/// The node by whose runs flits are explained, where a monitor's sizes are in their limits.
fn config_at(profile: u8, agents: u8, lines: u8, kept: u32) -> Option<Config>
    ensures { result ≡ monitor_config profile agents lines kept }
{
    if 1 <= lines && lines <= 64 && kept <= 65_536 {
        config_in(profile_at(profile), agents)
    } else {
        None
    }
}

/// A node of one line in the profile, whose journal keeps no records.
fn config_in(profile: Option<Profile>, agents: u8) -> Option<Config>
    ensures { result ≡ config_in profile agents }
{
    match profile {
        Some(Profile::Two) => { Config::without_records(agents, 1, 1, Profile::Two, [1, 1, 0, 0]) }
        Some(Profile::Four) => {
            Config::without_records(agents, 1, 1, Profile::Four, [1, 1, 1, 1])
        }
        None => None,
    }
}

/// Opens a closed handle.
fn open(alloc: Global, monitor: &mut ChiMonitor, config: &Config, lines: u8, kept: u32) -> u8
    requires { monitor.old.value ≡ None }
    ensures { IsOpeningCall (IsMonitorOf lines kept) (Some config.now) None
        result monitor.new.value }
{
    match boxed_monitor(alloc, config, lines, kept) {
        Ok(held) => {
            monitor.put(held);
            DONE
        }
        Err(_) => NO_MEMORY,
    }
}

/// A new monitor on the heap.
fn boxed_monitor(
    alloc: Global,
    config: &Config,
    lines: u8,
    kept: u32,
) -> Result<Box<Monitor<Global>>, NoMemory>
    ensures { IfOk result (λ held. held.value ≡ opening_monitor config.now lines kept) }
{
    let monitor = Monitor::new(alloc, config, lines, kept as usize)?;
    Ok(Box::new(alloc, monitor)?)
}

/// Writes the text of the first fault into a room.
fn text_into(alloc: Global, monitor: &Monitor<Global>, bytes: &mut [u8], length: &mut usize) -> u8
    requires { length.old ≡ 0 }
    ensures { IsTextTold (Some monitor.now) bytes.old result bytes.new length.new }
{
    match fault_text(alloc, monitor.fault()) {
        Ok(text) => tell_bytes(text.as_bytes(), bytes, length),
        Err(_) => NO_MEMORY,
    }
}

/// The text of the first fault; none where there is no fault.
fn fault_text(alloc: Global, fault: Option<FirstFault>) -> Result<String, NoMemory> {
    let mut text = String::new(alloc);
    if let Some(first) = fault {
        let reason = FaultText {
            fault: first.reason,
            names: FaultNames {
                nodes: &[],
                lines: &[],
            },
        };
        write!(text, "{reason}")?;
    }
    Ok(text)
}

/// Takes a flit.
fn flit(monitor: &mut Monitor<Global>, line: Line, sent: &ChiSent) -> u8
    ensures { IsTakenAs monitor.old line.0 (observed_of sent.now) result monitor.new }
{
    match observed_at(sent) {
        Some(seen) => taken_number(monitor.observe(line, &seen)),
        None => OUT_OF_RANGE,
    }
}

/// Tells what is open.
fn end(monitor: &Monitor<Global>, line: Line, agents: &mut [ChiOpen; 8]) -> u8
    requires { agents.old ≡ replicate 8 none_open }
    ensures answer { result ≡ number_if (watched_refusal (open_flits_at monitor.now line.0)) }
    ensures agents { agents.new ≡ all_open_told (open_flits_at monitor.now line.0) }
{
    match monitor.open_flits(line) {
        Some(open_flits) => {
            *agents = all_open_told(&open_flits);
            DONE
        }
        None => OUT_OF_RANGE,
    }
}

/// Explains a line.
fn explain(alloc: Global, monitor: &Monitor<Global>, line: Line) -> u8
    ensures { IsExplainedAs monitor.now line.0 result }
{
    explained_number(monitor.explain(alloc, line))
}
