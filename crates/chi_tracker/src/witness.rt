//! A witness of a tracker's history, which joins what ports know.

ghost use Rattle.std.specs.Prelude.{◌≡◌, ◌<◌, ◌≤◌, All, length};
ghost use Rattle.chi_tracker.specs.History.{port_in, IsAfter};
ghost use Rattle.chi_tracker.specs.Calls.{IsSeat};
ghost use Rattle.chi_tracker.specs.Witness.{Told, IsOfNone};

use crate::law::{Board, PortSeat};
use crate::plays::{GoBack, Known, Meet, Past};
use crate::port::Port;
use crate::tracker::Tracker;
use std::alloc::Allocator;
use std::marker::{Brand, Model};

/// A witness of a tracker's history: it knows the longest of the histories that ports which told it of
/// themselves knew (`Port::tell`). It has no bytes.
///
/// Whoever has all ports tells it of each twice: the first time it comes to know the longest history of all,
/// and the second time that this one history leaves each port as it is (`Law::together`).
/// Source: `docs/PROTOCOL.md`, "The rule between steps".
#[derive(Drop)]
pub struct Witness {
    pub(crate) port_seat: PortSeat,
}

impl Model for Witness {
    ghost use Rattle.chi_tracker.specs.Witness.{WitnessState, IsOfNone};

    ghost Value = { WitnessState };

    ghost view = { λ w. record { table = w.port_seat.table_id; history = w.port_seat.me.0.history } };

    ghost invariant = { λ w. IsOfNone w.port_seat.me };
}

/// A port's seat tells a witness's of itself, and comes back as it was: it knows the history T again.
fn tell_past<T: Past>(board: &Board, witness: &mut PortSeat, own: PortSeat) -> PortSeat
    requires past { T.history ≡ own.me.0.history }
    requires witness { (witness.old.table_id ≡ board.now.table_id) × IsOfNone witness.old.me }
    requires own { IsSeat board.now.table_id own }
    ensures witness { (witness.new.table_id ≡ board.now.table_id) × IsOfNone witness.new.me }
    ensures own { (result.table_id ≡ own.table_id) × (result.me ≡ own.me) }
    ensures told { Told (port_in own.me).who own.me.0.history witness.old.me.0.history witness.new.me.0.history }
    ensures after { IsAfter witness.new.me.0.history (port_in own.me) }
{
    board.join_seat::<Meet>(witness, own);
    board.load::<Known>(witness, 0);
    board.split_seat::<GoBack<T>>(witness)
}

/// A port's seat tells a witness's of itself, and comes back as it was.
pub(crate) fn tell(board: &Board, witness: &mut PortSeat, own: PortSeat) -> PortSeat
    requires witness { (witness.old.table_id ≡ board.now.table_id) × IsOfNone witness.old.me }
    requires own { IsSeat board.now.table_id own }
    ensures witness { (witness.new.table_id ≡ board.now.table_id) × IsOfNone witness.new.me }
    ensures own { (result.table_id ≡ own.table_id) × (result.me ≡ own.me) }
    ensures told { Told (port_in own.me).who own.me.0.history witness.old.me.0.history witness.new.me.0.history }
    ensures after { IsAfter witness.new.me.0.history (port_in own.me) }
{
    tell_past::<Brand>(board, witness, own)
}

/// Tells a witness of each port. It knows a history then that is no shorter than any of theirs; and where it
/// knew such a one before, that history leaves each port as it is.
fn tell_each<A: Allocator>(tracker: &Tracker<A>, ports: &mut [Port], witness: &mut Witness)
    requires tables { All (λ p. p.table ≡ tracker.now.table) ports.old }
    requires witness { witness.old.table ≡ tracker.now.table }
    ensures same { ports.new ≡ ports.old }
    ensures witness { witness.new.table ≡ tracker.now.table }
    ensures longest { All (λ p. length p.history ≤ length witness.new.history) ports.old }
    ensures after { All (λ p. length p.history ≤ length witness.old.history) ports.old
        → All (λ p. IsAfter witness.new.history p.port) ports.old }
{
    for index in 0..ports.len() {
        ports[index].tell(tracker, witness);
    }
}

/// A witness whose one history leaves each port as it is.
pub(crate) fn witness_of<A: Allocator>(tracker: &Tracker<A>, ports: &mut [Port]) -> Witness
    requires tables { All (λ p. p.table ≡ tracker.now.table) ports.old }
    ensures same { ports.new ≡ ports.old }
    ensures after { All (λ p. IsAfter result.history p.port) ports.old }
    ensures some { 0 < tracker.now.shape.agents }
{
    let mut witness = tracker.witness();
    tell_each(tracker, ports, &mut witness);
    tell_each(tracker, ports, &mut witness);
    witness
}
