//! The end of a tracker: the ports' seats are joined, and what they were due is added up.

ghost use Rattle.std.specs.Prelude.{◌≡◌, ℕ, [], ◌+◌, ◌*◌, ◌<◌, ◌≤◌, All, length, slice_index, cond, ◌==◌};
ghost use Rattle.std.specs.Slots.{slots_items, slots_len, IsFull};
ghost use Rattle.chi_tracker.specs.Shape.{low};
ghost use Rattle.chi_tracker.specs.Words.{word_count};
ghost use Rattle.chi_tracker.specs.Rule.{TrackerRule};
ghost use Rattle.chi_tracker.specs.History.{history_outcome, Legal, ArePortsOf};
ghost use Rattle.chi_tracker.specs.Laws.{duties};
ghost use Rattle.chi_tracker.specs.Totals.{views_of, longest, closed_state, AreDue, AreCredits};
ghost use Rattle.chi_tracker.specs.Witness.{GoesOnFromEach};

use crate::law::{Board, Law, PortSeat};
use crate::plays::{Enter, Known, Meet};
use crate::port::{Port, Seated};
use crate::shape::Shape;
use crate::tally::{Words, owed_to, promised_of};
use crate::totals::Credits;
use crate::view::SeatView;
use crate::words::WORD_COUNT;
use arrayvec::ArrayVec;
use atomic_table::{Closed, Table};
use std::alloc::Allocator;

/// What is due by requester and type: place 4 * requester + type.
pub(crate) type Dues = [u32; 32];

/// A seat that stands for all ports, and what they were due.
pub(crate) struct Gathered {
    pub(crate) port_seat: PortSeat,
    pub(crate) dues: Dues,
}

/// Adds what is due to a requester.
fn add_due(mut dues: Dues, number: usize, due: [u32; 4]) -> Dues
    requires number { number < 8 }
    requires small { (i : ℕ) → i < 32 → slice_index dues i ≤ 1000 }
    requires few { (t : ℕ) → t < 4 → slice_index due t ≤ 8 }
    ensures sum { (n t : ℕ) → n < 8 → t < 4
        → slice_index result (4 * n + t)
        ≡ slice_index dues (4 * n + t) + cond (number == n) (slice_index due t) 0 }
    ensures small { (i : ℕ) → i < 32 → slice_index result i ≤ slice_index dues i + 8 }
{
    let at = 4 * number;
    let sums = [
        dues[at] + due[0],
        dues[at + 1] + due[1],
        dues[at + 2] + due[2],
        dues[at + 3] + due[3],
    ];
    dues[at] = sums[0];
    dues[at + 1] = sums[1];
    dues[at + 2] = sums[2];
    dues[at + 3] = sums[3];
    dues
}

/// Joins the seats of all ports.
pub(crate) fn gather(board: &Board, mut ports: ArrayVec<Port, 8>) -> Gathered
    requires table { (board.now.table_id.words ≡ word_count)
        × All (λ p. p.table ≡ board.now.table_id) ports.items }
    requires few { length ports.items ≤ 8 }
    ensures port_seat { (result.port_seat.table_id ≡ board.now.table_id)
        × (result.port_seat.me.0.ports ≡ views_of ports.items) }
    ensures history { result.port_seat.me.0.history ≡ longest ports.items }
    ensures later { GoesOnFromEach ports.items result.port_seat.me.0.history }
    ensures idle { (n t : ℕ) → duties n t (views_of ports.items) ≡ 0 }
    ensures due { AreDue result.dues (views_of ports.items) }
{
    let (_, mut port_seat) = board.load_new_seat::<Enter>(0);
    let mut dues = [0; 32];
    while let Some(port) = ports.pop() {
        let Seated {
            port_seat: own,
            number,
            due,
        } = port.into_seated();
        let sums = add_due(dues, number, due);
        dues = sums;
        board.join_seat::<Meet>(&mut port_seat, own);
        board.load::<Known>(&mut port_seat, 0);
    }
    Gathered { port_seat, dues }
}

/// The words of a closed tracker.
fn read<A: Allocator>(closed: &Closed<u8, A>) -> Words
    requires { (slots_len closed.now.words ≡ word_count) × IsFull closed.now.words }
    ensures { result ≡ slots_items closed.now.words }
{
    let mut words = [0; WORD_COUNT];
    for i in 0..WORD_COUNT {
        words[i] = closed.word(i);
    }
    words
}

/// Ends the words' table with the seat that stands for all ports: what the words hold then.
pub(crate) fn last_words<A: Allocator>(
    table: Table<u8, SeatView, Shape, Law, A>,
    port_seat: PortSeat,
) -> Words
    requires words { (table.shared.table_id.words ≡ word_count)
        × (table.shared.table_id.slots ≡ 0) }
    requires table { port_seat.table_id ≡ table.shared.table_id }
    requires all { length port_seat.me.0.ports ≡ table.shared.key.agents }
    ensures rule { TrackerRule table.shared.key (closed_state result port_seat.me.0.ports) }
    ensures history { Legal table.shared.key port_seat.me.0.history
        × (result ≡ (history_outcome table.shared.key port_seat.me.0.history).words)
        × ArePortsOf table.shared.key port_seat.me.0.history [] port_seat.me.0.ports }
{
    let closed = table.close_with(port_seat);
    let words = read(&closed);
    closed.free();
    words
}

/// What is due to a requester, by type.
fn due_of(dues: &Dues, agent: usize) -> [u32; 4]
    requires { agent < 8 }
    ensures { (t : ℕ) → t < 4 → slice_index result t ≡ slice_index dues.now (4 * agent + t) }
{
    let at = 4 * agent;
    [dues[at], dues[at + 1], dues[at + 2], dues[at + 3]]
}

/// The credits of each requester, in rising order.
pub(crate) fn credits(words: &Words, shape: &Shape, dues: &Dues) -> ArrayVec<Credits, 8>
    requires { (shape.now.agents ≤ 8) × (low shape.now 4 ≤ 256) }
    ensures { AreCredits shape.now words.now dues.now shape.now.agents result.items }
{
    let mut all = ArrayVec::new();
    for agent in 0..shape.agents {
        let due = due_of(dues, agent);
        let owed = owed_to(words, agent);
        let promised = promised_of(words, agent, shape);
        all.push(Credits {
            due,
            owed,
            promised,
        });
    }
    all
}
