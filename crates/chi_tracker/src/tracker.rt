//! The tracker's words, which all ports share.

ghost use Rattle.std.specs.Prelude.{◌≡◌, ℕ, ◌<◌, ◌≤◌, [], All, IfOk, length, slice_index_or};
ghost use Rattle.chi_tracker.specs.Shape.{low};
ghost use Rattle.chi_tracker.specs.Words.{word_count};
ghost use Rattle.chi_tracker.specs.Views.{new_ports};
ghost use Rattle.chi_tracker.specs.Rule.{all_new};
ghost use Rattle.chi_tracker.specs.Calls.{no_owner, owners, new_owners, shape_of, IsOwnerAt};
ghost use Rattle.chi_tracker.specs.Witness.{AreAllPorts, GoesOnFromEach};
ghost use Rattle.chi_tracker.specs.Totals.{views_of, longest, IsClosed, IsBalanced, IsGlance};

use crate::closing::{Gathered, credits, gather, last_words};
use crate::law::{Board, Law, PortSeat};
use crate::plays::{Deal, Enter};
use crate::port::Port;
use crate::shape::Shape;
use crate::tally::counts;
use crate::totals::{Counts, Totals};
use crate::view::SeatView;
use crate::witness::{Witness, witness_of};
use crate::words::{WORD_COUNT, owed_word};
use arrayvec::ArrayVec;
use atomic_table::Table;
use chi_flit::NoMemory;
use std::alloc::Allocator;
use std::marker::Model;

/// The entries and the credits of a home node, in words that ports change by single atomic steps.
/// Contracts see which words they are, the entries by type and the number of requesters.
/// Source: `docs/PROTOCOL.md`, "Words of the tracker".
#[derive(Drop)]
pub struct Tracker<A: Allocator> {
    pub(crate) table: Table<u8, SeatView, Shape, Law, A>,
    pub(crate) shape: Shape,
}

impl<A: Allocator> Model for Tracker<A> {
    ghost use Rattle.std.specs.Prelude.{◌≡◌};
    ghost use Rattle.chi_tracker.specs.Words.{word_count};
    ghost use Rattle.chi_tracker.specs.Calls.{TrackerState};
    ghost use Rattle.chi_tracker.specs.Shape.{IsShape};

    ghost Value = { TrackerState };

    ghost view = { λ t. record { table = t.table.shared.table_id; shape = t.shape } };

    ghost invariant = { λ t. (t.table.shared.table_id.words ≡ word_count) × (t.table.shared.table_id.slots ≡ 0) × (t.table.shared.key ≡ t.shape) × IsShape t.shape };
}

impl<A: Allocator> Tracker<A> {
    /// A tracker with so many entries of each credit type, numbered by rising type, all of them free,
    /// and a port for each requester, in rising order. NoMemory where there is none for the words.
    ///
    /// Conditions: 1 to 8 requesters, and at most 256 entries; a type may have none.
    /// Source: `docs/PROTOCOL.md`, "Words of the tracker".
    pub fn new(
        alloc: A,
        entries: [u16; 4],
        agents: u8,
    ) -> Result<(Tracker<A>, ArrayVec<Port, 8>), NoMemory>
        requires agents { (0 < agents) × (agents ≤ 8) }
        requires entries { low (shape_of entries agents) 4 ≤ 256 }
        ensures shape { IfOk result (λ made. made.0.shape ≡ shape_of entries agents) }
        ensures ports { IfOk result
            (λ made. made.1.items ≡ new_owners made.0.table (shape_of entries agents)) }
        ensures own { IfOk result (λ made. All (IsOwnerAt made.0) made.1.items) }
        ensures all { IfOk result (λ made. length made.1.items ≡ agents) }
    {
        let shape = Shape::of(entries, usize::from(agents));
        let (table, port_seat) = Table::of_words(alloc, &[0; WORD_COUNT], &shape)?;
        let tracker = Tracker { table, shape };
        let ports = tracker.deal(port_seat);
        Ok((tracker, ports))
    }

    // Gives each port of the seat, which has all, a seat of its own.
    #[tactic(auto, using(crate::proofs::Deals::dealt_own, crate::proofs::Deals::dealt_all))]
    fn deal(&self, mut port_seat: PortSeat) -> ArrayVec<Port, 8>
        requires { (port_seat.table_id ≡ self.now.table) × (port_seat.me ≡ (all_new self.now.shape, [])) }
        ensures ports { result.items
            ≡ owners self.now.table (new_ports self.now.shape 0 self.now.shape.agents) }
        ensures own { All (λ p. (p.table ≡ self.now.table)
            × (p.port.shape ≡ self.now.shape)) result.items }
        ensures all { length result.items ≡ self.now.shape.agents }
    {
        let (board, shape) = (&self.table.shared, self.shape);
        let mut ports = ArrayVec::new();
        for number in 0..shape.agents {
            let own = board.split_seat::<Deal>(&mut port_seat);
            ports.push(Port::on_seat(own, number, shape));
        }
        ports
    }

    // The words as ports share them.
    pub(crate) fn board(&self) -> &Board
        ensures { (result.now.table_id ≡ self.now.table)
            × (result.now.table_id.words ≡ word_count) }
    {
        &self.table.shared
    }

    /// A witness of the tracker's history, which knows nothing yet.
    /// Source: `docs/PROTOCOL.md`, "The rule between steps".
    pub fn witness(&self) -> Witness
        ensures is { result ≡ record { table = self.now.table; history = [] } }
        ensures some { 0 < self.now.shape.agents }
    {
        let (_, port_seat) = self.table.shared.load_new_seat::<Enter>(0);
        Witness { port_seat }
    }

    /// Joins what all ports know, which stay as they are: they are all the ports of one state of the words and
    /// of all ports, in which the tracker's rule holds. Each entry is there free, in the hand of exactly one of
    /// them, or promised to exactly one requester; the ledgers hold; and what each port knows is so.
    ///
    /// Condition: the ports are all that `new` gave, in rising order.
    /// Source: `docs/PROTOCOL.md`, "The rule between steps".
    pub fn meet(&self, ports: &mut [Port])
        requires own { All (IsOwnerAt self.now) ports.old }
        requires all { length ports.old ≡ self.now.shape.agents }
        requires numbers { (n : ℕ) → n < self.now.shape.agents
            → (slice_index_or ports.old n no_owner).port.who ≡ n }
        ensures same { ports.new ≡ ports.old }
        ensures together { AreAllPorts self.now.shape (views_of ports.old) }
    {
        witness_of(self, ports);
    }

    /// Ends the tracker: it joins the seats of all ports, so that all views are known, and answers what the
    /// words hold then, by type and by requester. With these views the words keep the tracker's rule: each
    /// entry is in one place, and each credit that a port has seen is promised to its requester. No duty is
    /// open, and for each requester and type what is due is what is owed and what is promised.
    ///
    /// Condition: the ports are all that `new` gave, in any order.
    /// Source: `docs/PROTOCOL.md`, "Words of the tracker".
    pub fn close(self, ports: ArrayVec<Port, 8>) -> Totals
        requires all { length ports.items ≡ self.shape.agents }
        requires table { All (λ p. p.table ≡ self.table) ports.items }
        ensures closed { IsClosed self.shape (views_of ports.items) (longest ports.items) result.counts result.requesters.items }
        ensures balanced { IsBalanced self.shape.agents result.requesters.items }
        ensures later { GoesOnFromEach ports.items (longest ports.items) }
    {
        let Tracker { table, shape } = self;
        let Gathered { port_seat, dues } = gather(&table.shared, ports);
        let words = last_words(table, port_seat);
        let counts = counts(&words, &shape);
        let requesters = credits(&words, &shape, &dues);
        Totals { counts, requesters }
    }

    /// Loads the words one after the other, those of C and of each requester, and counts what they held, by
    /// type. Ports may do steps between two loads: the contract promises that the counts are those of the
    /// same words, and nothing of when each was what it was.
    /// Source: `docs/PROTOCOL.md`, "Totals".
    pub fn glance(&self) -> Counts
        ensures { IsGlance self.now.shape result }
    {
        let board = self.board();
        let shape = &self.shape;
        let mut words = [0; WORD_COUNT];
        let end = owed_word(shape.agents - 1) + 1;
        for i in 0..end {
            words[i] = board.peek(i);
        }
        counts(&words, shape)
    }
}
