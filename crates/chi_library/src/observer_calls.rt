//! The calls on an observer, for C.

ghost use Rattle.std.specs.Prelude.{◌≡◌, IfOk, None, Some, option_map};
ghost use Rattle.chi_observe.specs.Benches.{benched};
ghost use Rattle.chi_library.specs.Calls.{IsOpeningCall, answer_number, output_of};
ghost use Rattle.chi_library.specs.ObserverCalls.{IsFaultTold, IsFaultTextTold, IsObserverOf, IsSeenAnswered, IsSeenAs, IsUnjudgedTextOf, IsUnjudgedTextTold, closing_number, counts_in, told_in, unjudged_in};
ghost use Rattle.chi_library.specs.ObserverTold.{ended_number, no_counts, nothing_unjudged, opening_at};
ghost use Rattle.chi_library.specs.SeenFlits.{seen_of};
ghost use Rattle.chi_library.specs.Snapshots.{IsCopied};

use crate::answers::{ALREADY_OPEN, CLOSED, DONE, NO_MEMORY, OUT_OF_RANGE, tell_bytes};
use crate::observer_handle::ChiObserver;
use crate::observer_told::{
    ChiObserverConfig, ChiObserverCounts, ChiObserverFault, ChiUnjudged, Opening, counts_told,
    ended_number, fault_told, judged_number, opening_at, unjudged_told,
};
use crate::seen_flits::{ChiSeen, seen_at};
use chi_flit::NoMemory;
use chi_observe::BenchWatch;
use std::alloc::Global;

/// Opens an observer that has seen no flit, with memory for so much.
///
/// Answers 0; 254 where the handle is open already, which stays as it is; 10 where a size is outside its limits, or the
/// credit types or the flag are none; 8 where memory runs out. After 10 and 8 the handle is closed.
/// Source: `docs/LIBRARY.md`, "An observer".
#[unsafe(no_mangle)]
pub extern "C" fn chi_observer_open(
    alloc: Global,
    observer: &mut ChiObserver,
    config: &ChiObserverConfig,
) -> u8
    ensures { IsOpeningCall IsObserverOf (opening_at config.now)
        observer.old.value result observer.new.value }
{
    if let Some(held) = observer.take(alloc) {
        observer.put(held);
        return ALREADY_OPEN;
    }
    match opening_at(config) {
        Some(opening) => open(alloc, observer, &opening),
        None => OUT_OF_RANGE,
    }
}

/// Takes the next flit, where there is room for what it adds, and ids, credits and its line allow it.
///
/// Answers 0 where it is taken, and 248 where its line is set aside then, by it or before it; 247 where there is no room;
/// 253 where it isn't allowed, which is kept as the first fault; 253 too of each flit behind that; 10 where a number is
/// none of its enum's, or a field lacks; 8 where memory ran out, and of each flit behind that. Answers 255 of a closed
/// handle. But for the fault nothing changes where it isn't taken.
/// Source: `docs/LIBRARY.md`, "An observer".
#[unsafe(no_mangle)]
pub extern "C" fn chi_observer_take(alloc: Global, observer: &mut ChiObserver, seen: &ChiSeen) -> u8
    ensures { IsSeenAnswered observer.old.value (seen_of seen.now) result observer.new.value }
{
    match observer.take(alloc) {
        Some(mut held) => {
            let answer = judge(&mut held, seen);
            observer.put(held);
            answer
        }
        None => CLOSED,
    }
}

/// Tells the first fault; all numbers are 0 where there is none.
///
/// Answers 0, or 255 of a closed handle. Nothing changes.
/// Source: `docs/LIBRARY.md`, "An observer".
#[unsafe(no_mangle)]
pub extern "C" fn chi_observer_fault(
    alloc: Global,
    observer: &mut ChiObserver,
    fault: &mut ChiObserverFault,
) -> u8
    ensures answer { result ≡ answer_number observer.old.value (λ b. None) }
    ensures after { observer.new.value ≡ observer.old.value }
    ensures fault { IsFaultTold observer.old.value fault.new }
{
    *fault = ChiObserverFault::NONE;
    match observer.take(alloc) {
        Some(held) => {
            *fault = fault_of(&held);
            observer.put(held);
            DONE
        }
        None => CLOSED,
    }
}

/// Writes the text of the first fault, in UTF-8 and without a 0 behind it; none where there is no fault. `length` is how
/// many bytes it has, and those of `bytes` behind them stay.
///
/// Answers 0; 1 where there is not room for all, and 8 where memory runs out: `bytes` is then as it was, and after 1
/// `length` is how many there are, else 0. Answers 255 of a closed handle. Nothing changes. Which text it is no clause
/// says.
/// Source: `docs/LIBRARY.md`, "An observer"; `docs/OBSERVER.md`, "What is printed".
#[unsafe(no_mangle)]
pub extern "C" fn chi_observer_text(
    alloc: Global,
    observer: &mut ChiObserver,
    bytes: &mut [u8],
    length: &mut usize,
) -> u8
    ensures text { IsFaultTextTold observer.old.value bytes.old result bytes.new length.new }
    ensures after { observer.new.value ≡ observer.old.value }
{
    *length = 0;
    match observer.take(alloc) {
        Some(held) => {
            let answer = text_into(alloc, &held, bytes, length);
            observer.put(held);
            answer
        }
        None => CLOSED,
    }
}

/// Tells how much the observer has seen, and what it holds.
///
/// Answers 0, or 255 of a closed handle. Nothing changes.
/// Source: `docs/LIBRARY.md`, "An observer".
#[unsafe(no_mangle)]
pub extern "C" fn chi_observer_counts(
    alloc: Global,
    observer: &mut ChiObserver,
    counts: &mut ChiObserverCounts,
) -> u8
    ensures answer { result ≡ answer_number observer.old.value (λ b. None) }
    ensures after { observer.new.value ≡ observer.old.value }
    ensures counts { counts.new ≡ output_of observer.old.value no_counts counts_in }
{
    *counts = ChiObserverCounts::NONE;
    match observer.take(alloc) {
        Some(held) => {
            *counts = counts_of(&held);
            observer.put(held);
            DONE
        }
        None => CLOSED,
    }
}

/// Tells how much of what the observer was given it hasn't judged.
///
/// Answers 0, or 255 of a closed handle. Nothing changes.
/// Source: `docs/LIBRARY.md`, "An observer".
#[unsafe(no_mangle)]
pub extern "C" fn chi_observer_unjudged(
    alloc: Global,
    observer: &mut ChiObserver,
    unjudged: &mut ChiUnjudged,
) -> u8
    ensures answer { result ≡ answer_number observer.old.value (λ b. None) }
    ensures after { observer.new.value ≡ observer.old.value }
    ensures unjudged { unjudged.new ≡ output_of observer.old.value nothing_unjudged unjudged_in }
{
    *unjudged = ChiUnjudged::NONE;
    match observer.take(alloc) {
        Some(held) => {
            *unjudged = unjudged_of(&held);
            observer.put(held);
            DONE
        }
        None => CLOSED,
    }
}

/// Writes the lines that `observe` prints on what isn't judged, each with its end, in UTF-8 and without a 0 behind them; none
/// where all that the observer was given is judged. `length` is how many bytes they have, and those of `bytes` behind them
/// stay.
///
/// Answers 0; 1 where there is not room for all, and 8 where memory runs out: `bytes` is then as it was, and after 1
/// `length` is how many there are, else 0. Answers 255 of a closed handle. Nothing changes.
/// Source: `docs/LIBRARY.md`, "An observer"; `docs/OBSERVER.md`, "What is printed".
#[unsafe(no_mangle)]
pub extern "C" fn chi_observer_unjudged_text(
    alloc: Global,
    observer: &mut ChiObserver,
    bytes: &mut [u8],
    length: &mut usize,
) -> u8
    ensures text { IsUnjudgedTextTold observer.old.value bytes.old result bytes.new length.new }
    ensures after { observer.new.value ≡ observer.old.value }
{
    *length = 0;
    match observer.take(alloc) {
        Some(held) => {
            let answer = unjudged_into(alloc, &held, bytes, length);
            observer.put(held);
            answer
        }
        None => CLOSED,
    }
}

/// Copies the observer of `from`: `to` holds an observer that is the same, and each goes on by itself. What `to` held before
/// is closed. All memory that the copy ever needs is taken here.
///
/// Answers 0; 8 where memory runs out, and 255 where `from` is closed: `to` is then as it was. `from` stays in each case.
/// Source: `docs/LIBRARY.md`, "An observer".
#[unsafe(no_mangle)]
pub extern "C" fn chi_observer_copy(
    alloc: Global,
    to: &mut ChiObserver,
    from: &mut ChiObserver,
) -> u8
    ensures copied { IsCopied (option_map benched from.old.value) (option_map benched to.old.value)
        result (option_map benched to.new.value) }
    ensures from { from.new.value ≡ from.old.value }
{
    match from.take(alloc) {
        Some(held) => {
            let answer = copy_into(alloc, to, &held);
            from.put(held);
            answer
        }
        None => CLOSED,
    }
}

/// Closes the handle and frees the observer.
///
/// Answers 0 where each flit, load and store that was taken was judged, and there was one; 245 where none was; 246 where some
/// weren't. Answers 255 of a closed handle.
/// Source: `docs/LIBRARY.md`, "Handles".
#[unsafe(no_mangle)]
pub extern "C" fn chi_observer_close(alloc: Global, observer: &mut ChiObserver) -> u8
    ensures answer { result ≡ closing_number observer.old.value }
    ensures after { observer.new.value ≡ None }
{
    match observer.take(alloc) {
        Some(held) => ended_of(&held),
        None => CLOSED,
    }
}

/// Opens a closed handle.
fn open(alloc: Global, observer: &mut ChiObserver, opening: &Opening) -> u8
    requires { observer.old.value ≡ None }
    ensures { IsOpeningCall IsObserverOf (Some opening.now) None result observer.new.value }
{
    match boxed_observer(alloc, opening) {
        Ok(held) => {
            observer.put(held);
            DONE
        }
        Err(_) => NO_MEMORY,
    }
}

/// A new observer on the heap.
fn boxed_observer(alloc: Global, opening: &Opening) -> Result<Box<BenchWatch<Global>>, NoMemory>
    ensures { IfOk result (λ held. IsObserverOf opening.now held.value) }
{
    let observer = BenchWatch::new(alloc, opening.options, opening.room)?;
    Ok(Box::new(alloc, observer)?)
}

/// Copies an observer into a handle, whose own is closed.
fn copy_into(alloc: Global, to: &mut ChiObserver, observer: &BenchWatch<Global>) -> u8
    ensures { IsCopied (Some (benched observer.now)) (option_map benched to.old.value)
        result (option_map benched to.new.value) }
{
    match boxed_copy(alloc, observer) {
        Ok(copy) => {
            to.take(alloc);
            to.put(copy);
            DONE
        }
        Err(_) => NO_MEMORY,
    }
}

/// A copy of an observer on the heap.
fn boxed_copy(
    alloc: Global,
    observer: &BenchWatch<Global>,
) -> Result<Box<BenchWatch<Global>>, NoMemory>
    ensures { IfOk result (λ copy. benched copy.value ≡ benched observer.now) }
{
    let copy = observer.clone_in(alloc)?;
    Ok(Box::new(alloc, copy)?)
}

/// Takes a flit.
fn judge(observer: &mut BenchWatch<Global>, seen: &ChiSeen) -> u8
    ensures { IsSeenAs observer.old (seen_of seen.now) result observer.new }
{
    match seen_at(seen) {
        Some(seen) => judged_number(observer.see(&seen)),
        None => OUT_OF_RANGE,
    }
}

/// The first fault.
fn fault_of(observer: &BenchWatch<Global>) -> ChiObserverFault
    ensures { IsFaultTold (Some observer.now) result }
{
    fault_told(&observer.fault())
}

/// How much an observer has seen, and what it holds.
fn counts_of(observer: &BenchWatch<Global>) -> ChiObserverCounts
    ensures { result ≡ counts_in observer.now }
{
    counts_told(&observer.tally())
}

/// How much an observer hasn't judged.
fn unjudged_of(observer: &BenchWatch<Global>) -> ChiUnjudged
    ensures { result ≡ unjudged_in observer.now }
{
    unjudged_told(&observer.tally().counts)
}

/// What the close of an observer answers.
fn ended_of(observer: &BenchWatch<Global>) -> u8
    ensures { result ≡ ended_number (told_in observer.now).counts }
{
    ended_number(&observer.tally().counts)
}

/// Writes the text on what isn't judged into a room.
fn unjudged_into(
    alloc: Global,
    observer: &BenchWatch<Global>,
    bytes: &mut [u8],
    length: &mut usize,
) -> u8
    requires { length.old ≡ 0 }
    ensures { IsUnjudgedTextOf (told_in observer.now) bytes.old result bytes.new length.new }
{
    match observer.unjudged_text(alloc) {
        Ok(text) => tell_bytes(text.as_bytes(), bytes, length),
        Err(_) => NO_MEMORY,
    }
}

/// Writes the text of the first fault into a room.
fn text_into(
    alloc: Global,
    observer: &BenchWatch<Global>,
    bytes: &mut [u8],
    length: &mut usize,
) -> u8
    requires { length.old ≡ 0 }
    ensures { IsFaultTextTold (Some observer.now) bytes.old result bytes.new length.new }
{
    match observer.fault_text(alloc) {
        Ok(text) => tell_bytes(text.as_bytes(), bytes, length),
        Err(_) => NO_MEMORY,
    }
}
