//! The atomic steps, each on one word, with its effect on the view of the port that does it
//! (`docs/PROTOCOL.md`, "Steps of the tracker").

ghost use Rattle.std.specs.Prelude.{◌≡◌, ℕ, ◌+◌, ◌*◌, ◌%◌, ◌<◌, ◌≤◌, slice_index, bit_and, bit_or};
ghost use Rattle.std.specs.Int.{bit_at};
ghost use Rattle.chi_tracker.specs.Words.{word_count};
ghost use Rattle.chi_tracker.specs.Views.{has, paid_of};
ghost use Rattle.chi_tracker.specs.Steps.{first_clear, word_of_step, written, May};
ghost use Rattle.chi_tracker.specs.History.{act, port_in, GoesOn};
ghost use Rattle.chi_tracker.specs.Calls.{IsSeat};
ghost use Rattle.chi_tracker.specs.Conduct.{HasStepped};

use crate::law::{Board, PortSeat};
use crate::marks::{bit, others};
use crate::plays::{Atomic, Pick};
use crate::step::AtomicStep;
use crate::words::{owed_word, promise_word};
use std::marker::Brand;

/// A step that only loads its word. Which step it is, `step`, is for its contract alone.
#[inline(always)]
fn load_word<T: Pick>(board: &Board, port_seat: &mut PortSeat, step: AtomicStep, word: usize) -> u64
    requires picked { T.step ≡ step }
    requires seat { IsSeat board.now.table_id port_seat.old }
    requires may { May step (port_in port_seat.old.me) }
    requires word { (word ≡ word_of_step step (port_in port_seat.old.me).who) × (word < word_count) }
    requires written { (r : ℕ) → r ≡ written step r }
    ensures is { HasStepped step port_seat.old result port_seat.new }
    ensures goes { let p = port_in port_seat.old.me in
        GoesOn p (act p.who step result) port_seat.old.me.0.history port_seat.new.me.0.history }
{
    board.load::<Atomic<T>>(port_seat, word)
}

/// A step that sets bits of its word. Which step it is, `step`, is for its contract alone.
#[inline(always)]
fn set_bits<T: Pick>(
    board: &Board,
    port_seat: &mut PortSeat,
    step: AtomicStep,
    word: usize,
    mask: u64,
) -> u64
    requires picked { T.step ≡ step }
    requires seat { IsSeat board.now.table_id port_seat.old }
    requires may { May step (port_in port_seat.old.me) }
    requires word { (word ≡ word_of_step step (port_in port_seat.old.me).who) × (word < word_count) }
    requires written { (r : ℕ) → bit_or r mask ≡ written step r }
    ensures is { HasStepped step port_seat.old result port_seat.new }
    ensures goes { let p = port_in port_seat.old.me in
        GoesOn p (act p.who step result) port_seat.old.me.0.history port_seat.new.me.0.history }
{
    board.fetch_or::<Atomic<T>>(port_seat, word, mask)
}

/// A step that clears bits of its word. Which step it is, `step`, is for its contract alone.
#[inline(always)]
fn clear_bits<T: Pick>(
    board: &Board,
    port_seat: &mut PortSeat,
    step: AtomicStep,
    word: usize,
    mask: u64,
) -> u64
    requires picked { T.step ≡ step }
    requires seat { IsSeat board.now.table_id port_seat.old }
    requires may { May step (port_in port_seat.old.me) }
    requires word { (word ≡ word_of_step step (port_in port_seat.old.me).who) × (word < word_count) }
    requires written { (r : ℕ) → bit_and r mask ≡ written step r }
    ensures is { HasStepped step port_seat.old result port_seat.new }
    ensures goes { let p = port_in port_seat.old.me in
        GoesOn p (act p.who step result) port_seat.old.me.0.history port_seat.new.me.0.history }
{
    board.fetch_and::<Atomic<T>>(port_seat, word, mask)
}

/// Claims the entry in a scan of the type, and answers the word of C as it was.
pub(crate) fn claim_step(board: &Board, port_seat: &mut PortSeat, ty: usize, entry: usize) -> u64
    requires seat { IsSeat board.now.table_id port_seat.old }
    requires may { May (AtomicStep.Claim ty entry) (port_in port_seat.old.me) }
    requires entry { entry < 256 }
    ensures is { HasStepped (AtomicStep.Claim ty entry) port_seat.old result port_seat.new }
    ensures held { has entry (port_in port_seat.old.me) ≤ bit_at result (entry % 64) }
{
    set_bits::<Brand>(
        board,
        port_seat,
        AtomicStep::Claim(ty, entry),
        entry / 64,
        bit(entry % 64),
    )
}

/// Frees an entry in hand.
pub(crate) fn free_step(board: &Board, port_seat: &mut PortSeat, entry: usize) -> u64
    requires seat { IsSeat board.now.table_id port_seat.old }
    requires may { May (AtomicStep.Free entry) (port_in port_seat.old.me) }
    ensures { HasStepped (AtomicStep.Free entry) port_seat.old result port_seat.new }
{
    clear_bits::<Brand>(
        board,
        port_seat,
        AtomicStep::Free(entry),
        entry / 64,
        others(entry % 64),
    )
}

/// Looks at the port's own word of owed credits for a place of the type, and answers the word.
pub(crate) fn look_step(board: &Board, port_seat: &mut PortSeat, number: usize, ty: usize) -> u64
    requires seat { IsSeat board.now.table_id port_seat.old }
    requires may { May (AtomicStep.Note ty) (port_in port_seat.old.me) }
    requires number { ((port_in port_seat.old.me).who ≡ number) × (number < 8) }
    ensures is { HasStepped (AtomicStep.Note ty) port_seat.old result port_seat.new }
    ensures few { (bit_at result (first_clear (8 * ty) result) ≡ 0)
        × (first_clear (8 * ty) result < 8 * ty + 8) }
{
    load_word::<Brand>(board, port_seat, AtomicStep::Note(ty), owed_word(number))
}

/// Sets the noted place: one more credit is owed.
pub(crate) fn owe_step(board: &Board, port_seat: &mut PortSeat, number: usize, place: usize) -> u64
    requires seat { IsSeat board.now.table_id port_seat.old }
    requires may { May (AtomicStep.Owe place) (port_in port_seat.old.me) }
    requires number { ((port_in port_seat.old.me).who ≡ number) × (number < 8) }
    ensures { HasStepped (AtomicStep.Owe place) port_seat.old result port_seat.new }
{
    set_bits::<Brand>(
        board,
        port_seat,
        AtomicStep::Owe(place),
        owed_word(number),
        bit(place),
    )
}

/// Looks at the credits owed to a requester in a sweep of the type, and answers the word.
pub(crate) fn sweep_step(board: &Board, port_seat: &mut PortSeat, ty: usize, agent: usize) -> u64
    requires seat { IsSeat board.now.table_id port_seat.old }
    requires may { May (AtomicStep.Look ty agent) (port_in port_seat.old.me) }
    requires agent { agent < 8 }
    ensures { HasStepped (AtomicStep.Look ty agent) port_seat.old result port_seat.new }
{
    load_word::<Brand>(
        board,
        port_seat,
        AtomicStep::Look(ty, agent),
        owed_word(agent),
    )
}

/// Tries to settle a place of the entry's type at a requester, and answers the word as it was.
pub(crate) fn settle_step(
    board: &Board,
    port_seat: &mut PortSeat,
    agent: usize,
    place: usize,
    entry: usize,
) -> u64
    requires seat { IsSeat board.now.table_id port_seat.old }
    requires may { May (AtomicStep.Settle entry agent place) (port_in port_seat.old.me) }
    requires agent { agent < 8 }
    ensures { HasStepped (AtomicStep.Settle entry agent place) port_seat.old result port_seat.new }
{
    clear_bits::<Brand>(
        board,
        port_seat,
        AtomicStep::Settle(entry, agent, place),
        owed_word(agent),
        others(place),
    )
}

/// Promises the entry under duty to the requester of the duty.
pub(crate) fn promise_step(
    board: &Board,
    port_seat: &mut PortSeat,
    agent: usize,
    entry: usize,
) -> u64
    requires seat { IsSeat board.now.table_id port_seat.old }
    requires may { May (AtomicStep.Promise entry agent) (port_in port_seat.old.me) }
    requires range { (agent < 8) × (entry < 256) }
    ensures { HasStepped (AtomicStep.Promise entry agent) port_seat.old result port_seat.new }
{
    set_bits::<Brand>(
        board,
        port_seat,
        AtomicStep::Promise(entry, agent),
        promise_word(agent, entry / 64),
        bit(entry % 64),
    )
}

/// Looks at one of the four words of what is promised to the port, and answers it.
pub(crate) fn see_step(board: &Board, port_seat: &mut PortSeat, number: usize, part: usize) -> u64
    requires seat { IsSeat board.now.table_id port_seat.old }
    requires may { May (AtomicStep.See part) (port_in port_seat.old.me) }
    requires number { ((port_in port_seat.old.me).who ≡ number) × (number < 8) }
    ensures is { HasStepped (AtomicStep.See part) port_seat.old result port_seat.new }
    ensures more { (i : ℕ) → i < 64
        → bit_at (slice_index (port_in port_seat.old.me).seen part) i ≤ bit_at result i }
{
    load_word::<Brand>(
        board,
        port_seat,
        AtomicStep::See(part),
        promise_word(number, part),
    )
}

/// Spends a seen credit: its entry comes to hand.
pub(crate) fn spend_step(
    board: &Board,
    port_seat: &mut PortSeat,
    number: usize,
    ty: usize,
    entry: usize,
) -> u64
    requires seat { IsSeat board.now.table_id port_seat.old }
    requires may { May (AtomicStep.Spend ty entry) (port_in port_seat.old.me) }
    requires number { ((port_in port_seat.old.me).who ≡ number) × (number < 8) × (entry < 256) }
    ensures is { HasStepped (AtomicStep.Spend ty entry) port_seat.old result port_seat.new }
    ensures held { has entry (port_in port_seat.old.me) ≡ 0 }
    ensures due { paid_of (port_in port_seat.old.me) ty < slice_index (port_in port_seat.old.me).retries ty }
{
    clear_bits::<Brand>(
        board,
        port_seat,
        AtomicStep::Spend(ty, entry),
        promise_word(number, entry / 64),
        others(entry % 64),
    )
}

/// Takes back the entry of a seen credit that is returned.
pub(crate) fn return_step(
    board: &Board,
    port_seat: &mut PortSeat,
    number: usize,
    ty: usize,
    entry: usize,
) -> u64
    requires seat { IsSeat board.now.table_id port_seat.old }
    requires may { May (AtomicStep.Return ty entry) (port_in port_seat.old.me) }
    requires number { ((port_in port_seat.old.me).who ≡ number) × (number < 8) × (entry < 256) }
    ensures is { HasStepped (AtomicStep.Return ty entry) port_seat.old result port_seat.new }
    ensures held { has entry (port_in port_seat.old.me) ≡ 0 }
    ensures due { paid_of (port_in port_seat.old.me) ty < slice_index (port_in port_seat.old.me).retries ty }
{
    clear_bits::<Brand>(
        board,
        port_seat,
        AtomicStep::Return(ty, entry),
        promise_word(number, entry / 64),
        others(entry % 64),
    )
}
