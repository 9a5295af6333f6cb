//! The steps by which a port owes a credit, and pays one that was granted.

ghost use Rattle.std.specs.Prelude.{◌≡◌, ◌+◌, ◌<◌, None, MatchBool, slice_index};
ghost use Rattle.chi_tracker.specs.Sums.{one_more, set_at};
ghost use Rattle.chi_tracker.specs.Shape.{IsOf};
ghost use Rattle.chi_tracker.specs.Views.{has, paid_of, CanOwe};
ghost use Rattle.chi_tracker.specs.Steps.{shown, solo, spends, returns_credit};
ghost use Rattle.chi_tracker.specs.History.{IsAfter, port_in};
ghost use Rattle.chi_tracker.specs.Calls.{IsSeat, owner_in};
ghost use Rattle.chi_tracker.specs.Conduct.{Does, OweActs, One};

use crate::law::{Board, PortSeat};
use crate::sets::first_clear;
use crate::step::AtomicStep;
use crate::steps::{look_step, owe_step, return_step, spend_step};

/// Looks at the port's own word of owed credits and sets the lowest clear place of the type there.
#[tactic(auto, using(crate::proofs::Places::place_kind))]
pub(crate) fn owe_one(board: &Board, port_seat: &mut PortSeat, number: usize, ty: usize)
    requires seat { IsSeat board.now.table_id port_seat.old }
    requires view { ((port_in port_seat.old.me).who ≡ number) }
    requires kind { (ty < 4) × (number < 8) }
    requires few { CanOwe (port_in port_seat.old.me) ty }
    ensures table { port_seat.new.table_id ≡ port_seat.old.table_id }
    ensures view { shown port_seat.new.me
        ≡ solo
        (record
        (port_in port_seat.old.me) { noted = None; retries = one_more (port_in port_seat.old.me).retries ty }) }
    ensures acts { Does (owner_in port_seat.old) (OweActs ty) (owner_in port_seat.new) }
    ensures after { IsAfter port_seat.new.me.0.history (port_in port_seat.new.me) }
{
    let word = look_step(board, port_seat, number, ty);
    owe_step(board, port_seat, number, first_clear(word, ty));
}

/// Takes a seen credit's entry to hand: the credit is returned, or spent.
pub(crate) fn pay(
    board: &Board,
    port_seat: &mut PortSeat,
    number: usize,
    ty: usize,
    entry: usize,
    returned: bool,
)
    requires seat { IsSeat board.now.table_id port_seat.old }
    requires view { ((port_in port_seat.old.me).duty ≡ None)
        × ((port_in port_seat.old.me).who ≡ number) }
    requires kind { (ty < 4) × (number < 8) × (entry < 256) }
    requires seen { IsOf (port_in port_seat.old.me).shape ty entry
        × (set_at (port_in port_seat.old.me).seen entry ≡ 1) }
    ensures table { port_seat.new.table_id ≡ port_seat.old.table_id }
    ensures view { MatchBool returned
        (shown port_seat.new.me ≡ solo (returns_credit ty entry (port_in port_seat.old.me)))
        (shown port_seat.new.me ≡ solo (spends ty entry (port_in port_seat.old.me))) }
    ensures held { has entry (port_in port_seat.old.me) ≡ 0 }
    ensures due { paid_of (port_in port_seat.old.me) ty < slice_index (port_in port_seat.old.me).retries ty }
    ensures acts { MatchBool returned
        (Does (owner_in port_seat.old) (One (AtomicStep.Return ty entry)) (owner_in port_seat.new))
        (Does (owner_in port_seat.old) (One (AtomicStep.Spend ty entry)) (owner_in port_seat.new)) }
    ensures after { IsAfter port_seat.new.me.0.history (port_in port_seat.new.me) }
{
    if returned {
        return_step(board, port_seat, number, ty, entry);
    } else {
        spend_step(board, port_seat, number, ty, entry);
    }
}
