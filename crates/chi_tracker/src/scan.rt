//! The scan of a type for a free entry.

ghost use Rattle.std.specs.Prelude.{◌≡◌, ◌+◌, ◌-◌, ◌<◌, ◌≤◌, None, IfSome, IfNone};
ghost use Rattle.chi_tracker.specs.Shape.{low, size, IsOf};
ghost use Rattle.chi_tracker.specs.Views.{has};
ghost use Rattle.chi_tracker.specs.Steps.{shown, solo};
ghost use Rattle.chi_tracker.specs.History.{IsAfter, port_in};
ghost use Rattle.chi_tracker.specs.Calls.{IsSeat, owner_in, port_after_scan, into_hand};
ghost use Rattle.chi_tracker.specs.Conduct.{Does, FoundFree, FoundTaken};

use crate::law::{Board, PortSeat};
use crate::marks::is_set;
use crate::steps::claim_step;

/// Tries the `count` entries of the type from the lowest, `first`, until one is claimed.
pub(crate) fn scan(
    board: &Board,
    port_seat: &mut PortSeat,
    ty: usize,
    first: usize,
    count: usize,
) -> Option<usize>
    requires seat { IsSeat board.now.table_id port_seat.old }
    requires idle { (port_in port_seat.old.me).duty ≡ None }
    requires kind { ty < 4 }
    requires range { (first ≡ low (port_in port_seat.old.me).shape ty)
        × (count ≡ size (port_in port_seat.old.me).shape ty) × (0 < count) × (first + count ≤ 256) }
    ensures table { port_seat.new.table_id ≡ port_seat.old.table_id }
    ensures some { IfSome result
        (λ e. IsOf (port_in port_seat.old.me).shape ty e × (has e (port_in port_seat.old.me) ≡ 0)
        × (shown port_seat.new.me
        ≡ solo (into_hand e (port_after_scan ty (e - first) (port_in port_seat.old.me))))) }
    ensures none { IfNone result (shown port_seat.new.me
        ≡ solo (port_after_scan ty count (port_in port_seat.old.me))) }
    ensures free { IfSome result (λ e. Does (owner_in port_seat.old) (FoundFree ty first e) (owner_in port_seat.new)) }
    ensures taken { IfNone result (Does (owner_in port_seat.old) (FoundTaken ty first count) (owner_in port_seat.new)) }
    ensures after { IsAfter port_seat.new.me.0.history (port_in port_seat.new.me) }
{
    let word = claim_step(board, port_seat, ty, first);
    if !is_set(word, first % 64) {
        return Some(first);
    }
    for entry in first + 1..first + count {
        let word = claim_step(board, port_seat, ty, entry);
        if !is_set(word, entry % 64) {
            return Some(entry);
        }
    }
    None
}
