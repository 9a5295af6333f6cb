//! A requester's port to the tracker.

ghost use Rattle.std.specs.Prelude.{◌≡◌, None, ℕ, [], ◌∷◌, ◌<◌, ◌≤◌, IfSome, slice_index};
ghost use Rattle.chi_flit.specs.Credit.{credit_number};
ghost use Rattle.chi_tracker.specs.Sums.{set_at, without_bit};
ghost use Rattle.chi_tracker.specs.Shape.{size, IsOf, IsShape};
ghost use Rattle.chi_tracker.specs.Views.{has, new_port, IsDue, CanOwe};
ghost use Rattle.chi_tracker.specs.History.{IsAfter};
ghost use Rattle.chi_tracker.specs.Conduct.{ClaimActs, HasActed, One, OweActs, SeeActs, ReleaseActs, ReturnActs, TendActs};
ghost use Rattle.chi_tracker.specs.Steps.{shown, solo, spends};
ghost use Rattle.chi_tracker.specs.Witness.{Told};
ghost use Rattle.chi_tracker.specs.Calls.{no_owner, hand_with, owed_one, seen_of, with_return, HasSameCredits, IsLowestSeen, HasOneLess};

use crate::law::PortSeat;
use crate::marks::others;
use crate::paying::{owe_one, pay};
use crate::released::Released;
use crate::scan::scan;
use crate::sets::{counts_by_type, lowest};
use crate::shape::Shape;
use crate::step::AtomicStep;
use crate::steps::{free_step, see_step};
use crate::sweep::{release_entry, tend_type};
use crate::tracker::Tracker;
use crate::witness::{Witness, tell};
use chi_flit::{CreditType, Entry};
use std::alloc::Allocator;
use std::marker::Model;

/// A requester's port to the tracker. A port that `Tracker::new` didn't give (`Port::default`) is of no
/// tracker, and no call that does a step can be made with it.
///
/// Each call that does a step takes the tracker by reference. No call takes memory or a lock, or waits for
/// anybody.
///
/// Contracts see the port's view and the history of the tracker up to the port's last step. Each call that does
/// a step says what it did (`acts`): these steps, each with the word that it found, and no others, whatever
/// other ports did meanwhile. The view is what these steps made of it; what scans, looks, sweeps and ends then
/// record follows by `Law::steps`. And this history is legal and leaves the port so: what `Law::place`,
/// `Law::ledger` and `Law::knowledge` say holds of the port in the running tracker, by `Law::running`. Beside
/// the acts stand the facts that a caller counts with: the hand, and what the port knows of its credits.
/// Source: `docs/PROTOCOL.md`, "Words of the tracker".
#[derive(Drop)]
pub struct Port {
    port_seat: Option<PortSeat>,
    number: usize,
    shape: Shape,
    seen: [u64; 4],
    due: [u32; 4],
}

/// A port's seat, as it is given back at the end.
pub(crate) struct Seated {
    pub(crate) port_seat: PortSeat,
    pub(crate) number: usize,
    pub(crate) due: [u32; 4],
}

impl Model for Port {
    ghost use Rattle.chi_tracker.specs.Calls.{Owner, owner_of, IsPortKept};

    ghost Value = { Owner };

    ghost view = { λ p. owner_of p.port_seat };

    ghost invariant = { λ p. IsPortKept p.port_seat p.number p.shape p.seen p.due };
}

impl Default for Port {
    ghost is_default = { λ p. p ≡ no_owner };

    fn default() -> Port {
        Port {
            port_seat: None,
            number: 0,
            shape: Shape {
                sizes: [0; 4],
                agents: 0,
            },
            seen: [0; 4],
            due: [0; 4],
        }
    }
}

impl Port {
    // The port of requester `number`, which has done nothing yet.
    pub(crate) fn on_seat(port_seat: PortSeat, number: usize, shape: Shape) -> Port
        requires view { (shown port_seat.me ≡ solo (new_port shape number))
            × (port_seat.me.0.history ≡ []) }
        requires shape { IsShape shape × (number < shape.agents) }
        ensures { result ≡ record { table = port_seat.table_id; port = new_port shape number; history = [] } }
    {
        Port {
            port_seat: Some(port_seat),
            number,
            shape,
            seen: [0; 4],
            due: [0; 4],
        }
    }

    // The port's seat, with its number and the credits due.
    pub(crate) fn into_seated(self) -> Seated
        requires { 0 < self.table.words }
        ensures port_seat { (result.port_seat.table_id ≡ self.table)
            × (shown result.port_seat.me ≡ solo self.port)
            × (result.port_seat.me.0.history ≡ self.history) }
        ensures number { (result.number ≡ self.port.who) × (self.port.duty ≡ None) }
        ensures due { (t : ℕ) → t < 4 → IsDue self.port t (slice_index result.due t) }
        ensures few { (t : ℕ) → t < 4 → slice_index result.due t ≤ 8 }
    {
        let Port {
            port_seat,
            number,
            shape: _,
            seen: _,
            due,
        } = self;
        let Some(port_seat) = port_seat else {
            unreachable!();
        };
        Seated {
            port_seat,
            number,
            due,
        }
    }

    /// Tries the entries of the type from the lowest, in one scan, until one is free: it comes to hand.
    /// `None` only where each entry of the type was found claimed by a step of this call. Nothing else comes
    /// to hand, and the port's credits stay.
    ///
    /// Conditions: the port is one that this tracker gave, and the type has entries.
    /// Source: `docs/PROTOCOL.md`, "Steps of the tracker", claim.
    #[tactic(auto, using(crate::proofs::BitLaws::with_here, crate::proofs::Entries::of_credit, crate::proofs::Entries::scan_found))]
    pub fn claim<A: Allocator>(&mut self, tracker: &Tracker<A>, ty: CreditType) -> Option<Entry>
        requires table { self.old.table ≡ tracker.now.table }
        requires entries { 0 < size self.old.port.shape (credit_number ty) }
        ensures some { IfSome result (λ e. IsOf self.old.port.shape (credit_number ty) e.0
            × (has e.0 self.old.port ≡ 0)) }
        ensures hand { self.new.port.hand ≡ hand_with result self.old.port.hand }
        ensures credits { HasSameCredits self.old.port self.new.port }
        ensures acts { HasActed (ClaimActs self.old.port (credit_number ty) result) self.old self.new }
    {
        let board = tracker.board();
        let Some(mut port_seat) = self.port_seat.take() else {
            unreachable!();
        };
        let (first, count) = (self.shape.first(ty), self.shape.count(ty));
        let found = scan(board, &mut port_seat, ty.number() as usize, first, count);
        self.port_seat = Some(port_seat);
        match found {
            Some(entry) => Some(Entry(entry as u8)),
            None => None,
        }
    }

    /// Tells a witness of the port, which stays as it is: the witness goes on to the longer of the history that
    /// it knew and the port's. That history leaves the port as it is, and goes on from the port's own with no
    /// act of the port (`told`), whatever other ports did meanwhile.
    ///
    /// Conditions: the port and the witness are this tracker's.
    /// Source: `docs/PROTOCOL.md`, "The rule between steps".
    pub fn tell<A: Allocator>(&mut self, tracker: &Tracker<A>, witness: &mut Witness)
        requires table { self.old.table ≡ tracker.now.table }
        requires witness { witness.old.table ≡ tracker.now.table }
        ensures same { self.new ≡ self.old }
        ensures witness { witness.new.table ≡ witness.old.table }
        ensures told { Told self.old.port.who self.old.history witness.old.history witness.new.history }
        ensures running { IsAfter witness.new.history self.old.port }
    {
        let board = tracker.board();
        let Some(port_seat) = self.port_seat.take() else {
            unreachable!();
        };
        let port_seat = tell(board, &mut witness.port_seat, port_seat);
        self.port_seat = Some(port_seat);
    }

    /// Frees an entry in hand. The port's other entries in hand and its credits stay.
    ///
    /// Conditions: the port is one that this tracker gave, and the entry is in its hand.
    /// Source: `docs/PROTOCOL.md`, "Steps of the tracker", free.
    pub fn free<A: Allocator>(&mut self, tracker: &Tracker<A>, entry: Entry)
        requires table { self.old.table ≡ tracker.now.table }
        requires entry { has entry.0 self.old.port ≡ 1 }
        ensures hand { self.new.port.hand ≡ without_bit self.old.port.hand entry.0 }
        ensures credits { HasSameCredits self.old.port self.new.port }
        ensures acts { HasActed (One (AtomicStep.Free entry.0)) self.old self.new }
    {
        let board = tracker.board();
        let Some(mut port_seat) = self.port_seat.take() else {
            unreachable!();
        };
        free_step(board, &mut port_seat, usize::from(entry.0));
        self.port_seat = Some(port_seat);
    }

    /// Owes the requester one more credit of the type: it looks at its own word of owed credits and sets the
    /// lowest clear place there. The port's retries of the type are one more, and nothing else that it knows
    /// changes.
    ///
    /// Conditions: the port is one that this tracker gave, the type has entries, and fewer than 8 credits of
    /// the type are due.
    /// Source: `docs/PROTOCOL.md`, "Steps of the tracker", owe.
    pub fn owe<A: Allocator>(&mut self, tracker: &Tracker<A>, ty: CreditType)
        requires table { self.old.table ≡ tracker.now.table }
        requires entries { 0 < size self.old.port.shape (credit_number ty) }
        requires few { CanOwe self.old.port (credit_number ty) }
        ensures port { self.new.port ≡ owed_one (credit_number ty) self.old.port }
        ensures acts { HasActed (OweActs (credit_number ty)) self.old self.new }
    {
        let board = tracker.board();
        let Some(mut port_seat) = self.port_seat.take() else {
            unreachable!();
        };
        let kind = ty.number() as usize;
        owe_one(board, &mut port_seat, self.number, kind);
        self.due[kind] += 1;
        self.port_seat = Some(port_seat);
    }

    /// Looks at what is promised to the port, one step on each of its four words, and answers the seen
    /// credits by type. A credit that was seen before is seen still. The port's hand, and what it has counted
    /// of its credits, stay.
    ///
    /// Condition: the port is one that this tracker gave.
    /// Source: `docs/PROTOCOL.md`, "Steps of the tracker", see.
    pub fn see<A: Allocator>(&mut self, tracker: &Tracker<A>) -> [u32; 4]
        requires table { self.old.table ≡ tracker.now.table }
        ensures hand { self.new.port.hand ≡ self.old.port.hand }
        ensures credits { HasSameCredits
            (record self.old.port { seen = self.new.port.seen }) self.new.port }
        ensures more { (e : ℕ) → e < 256
            → set_at self.old.port.seen e ≤ set_at self.new.port.seen e }
        ensures counts { (t : ℕ) → t < 4 → slice_index result t ≡ seen_of self.new.port t }
        ensures acts { HasActed (SeeActs self.new.port.seen) self.old self.new }
    {
        let board = tracker.board();
        let Some(mut port_seat) = self.port_seat.take() else {
            unreachable!();
        };
        self.seen[0] = see_step(board, &mut port_seat, self.number, 0);
        self.seen[1] = see_step(board, &mut port_seat, self.number, 1);
        self.seen[2] = see_step(board, &mut port_seat, self.number, 2);
        self.seen[3] = see_step(board, &mut port_seat, self.number, 3);
        self.port_seat = Some(port_seat);
        counts_by_type(&self.seen, &self.shape)
    }

    /// The seen credits by type, as the port has them. It does no step.
    /// Source: `docs/PROTOCOL.md`, "Steps of the tracker", seen.
    pub fn seen(&self) -> [u32; 4]
        ensures { (t : ℕ) → t < 4 → slice_index result t ≡ seen_of self.now.port t }
    {
        counts_by_type(&self.seen, &self.shape)
    }

    /// The credits due by type: retries less spent and returned credits, 0 to 8. It does no step. Whoever asks
    /// knows that between two calls no duty is open.
    /// Source: `docs/PROTOCOL.md`, "The rule between steps".
    pub fn due(&self) -> [u32; 4]
        ensures few { (t : ℕ) → t < 4 → slice_index result t ≤ 8 }
        ensures is { (t : ℕ) → t < 4 → IsDue self.now.port t (slice_index result t) }
        ensures idle { self.now.port.duty ≡ None }
    {
        let due = self.due;
        due
    }

    /// Spends the lowest seen credit of the type: its entry, which wasn't in hand, comes to hand. One seen
    /// credit of the type is less, and of each other type there are as many as before.
    ///
    /// Conditions: the port is one that this tracker gave, and has a seen credit of the type.
    /// Source: `docs/PROTOCOL.md`, "Steps of the tracker", spend.
    pub fn spend<A: Allocator>(&mut self, tracker: &Tracker<A>, ty: CreditType) -> Entry
        requires table { self.old.table ≡ tracker.now.table }
        requires credit { 0 < seen_of self.old.port (credit_number ty) }
        ensures lowest { IsLowestSeen self.old.port (credit_number ty) result.0 }
        ensures held { has result.0 self.old.port ≡ 0 }
        ensures port { self.new.port ≡ spends (credit_number ty) result.0 self.old.port }
        ensures fewer { HasOneLess (credit_number ty) self.old.port self.new.port }
        ensures acts { HasActed (One (AtomicStep.Spend (credit_number ty) result.0)) self.old self.new }
    {
        let board = tracker.board();
        let Some(mut port_seat) = self.port_seat.take() else {
            unreachable!();
        };
        let kind = ty.number() as usize;
        let entry = lowest(self.seen, self.shape.first(ty), self.shape.count(ty));
        pay(board, &mut port_seat, self.number, kind, entry, false);
        self.seen[entry / 64] &= others(entry % 64);
        self.due[kind] -= 1;
        self.port_seat = Some(port_seat);
        Entry(entry as u8)
    }

    /// Releases an entry in hand: it looks at the requesters in rising order and promises the entry to the
    /// first of which it can settle an owed credit of the entry's type; where there is none, the entry is
    /// freed.
    ///
    /// The contract says that the entry left the hand, and that it was promised to the requester that is
    /// answered, which is one of the tracker's: a look at its word, after all requesters before it were swept in
    /// vain, showed a place of the entry's type that a settle then found set, and so owed to it. Or it was freed
    /// after all requesters were swept in vain: each was looked at, and each place of the type that a look
    /// showed was then found clear. The port's other entries in hand and its credits stay.
    ///
    /// Conditions: the port is one that this tracker gave, and the entry is in its hand.
    /// Source: `docs/PROTOCOL.md`, "Steps of the tracker", release.
    pub fn release<A: Allocator>(&mut self, tracker: &Tracker<A>, entry: Entry) -> Released
        requires table { self.old.table ≡ tracker.now.table }
        requires entry { has entry.0 self.old.port ≡ 1 }
        ensures hand { self.new.port.hand ≡ without_bit self.old.port.hand entry.0 }
        ensures credits { HasSameCredits self.old.port self.new.port }
        ensures acts { HasActed (ReleaseActs self.old.port entry.0 result) self.old self.new }
    {
        let board = tracker.board();
        let Some(mut port_seat) = self.port_seat.take() else {
            unreachable!();
        };
        let entry = usize::from(entry.0);
        let kind = self.shape.kind_of(entry);
        let released = release_entry(board, &mut port_seat, kind, self.shape.agents, entry);
        self.port_seat = Some(port_seat);
        released
    }

    /// Gives back the lowest seen credit of the type, which counts as returned and not as spent, and releases
    /// its entry as `release` does; what the contract says of the release is what is said there. The port's
    /// hand is as it was. One seen credit of the type is less, and of each other type there are as many as
    /// before.
    ///
    /// Conditions: the port is one that this tracker gave, and has a seen credit of the type.
    /// Source: `docs/PROTOCOL.md`, "Steps of the tracker", give_back.
    pub fn give_back<A: Allocator>(&mut self, tracker: &Tracker<A>, ty: CreditType) -> Released
        requires table { self.old.table ≡ tracker.now.table }
        requires credit { 0 < seen_of self.old.port (credit_number ty) }
        ensures hand { (i : ℕ) → has i self.new.port ≡ has i self.old.port }
        ensures credits { HasSameCredits (with_return (credit_number ty)
            self.new.port.seen self.old.port) self.new.port }
        ensures fewer { HasOneLess (credit_number ty) self.old.port self.new.port }
        ensures acts { HasActed (ReturnActs self.old.port (credit_number ty) result) self.old self.new }
    {
        let board = tracker.board();
        let Some(mut port_seat) = self.port_seat.take() else {
            unreachable!();
        };
        let kind = ty.number() as usize;
        let entry = lowest(self.seen, self.shape.first(ty), self.shape.count(ty));
        pay(board, &mut port_seat, self.number, kind, entry, true);
        self.seen[entry / 64] &= others(entry % 64);
        self.due[kind] -= 1;
        let released = release_entry(board, &mut port_seat, kind, self.shape.agents, entry);
        self.port_seat = Some(port_seat);
        released
    }

    /// Where a requester shows an owed credit of the type, claims an entry of the type and releases it.
    /// `None` where no credit of the type was seen owed, or each entry of the type was found claimed.
    ///
    /// The contract says that looks at the requesters, from the first on, found an owed credit of the type at
    /// one, and an entry of the type, which wasn't in hand, was then claimed in a scan and went where `release`
    /// says; or, with `None`, that none of them found one, or that one did and a scan found each entry of the
    /// type claimed. The port's hand and its credits are as they were.
    ///
    /// Conditions: the port is one that this tracker gave, and the type has entries.
    /// Source: `docs/PROTOCOL.md`, "Steps of the tracker", tend.
    #[tactic(auto, using(crate::proofs::Sweeps::tended_hand, crate::proofs::Upkeep::inside_after))]
    pub fn tend<A: Allocator>(&mut self, tracker: &Tracker<A>, ty: CreditType) -> Option<Released>
        requires table { self.old.table ≡ tracker.now.table }
        requires entries { 0 < size self.old.port.shape (credit_number ty) }
        ensures hand { (i : ℕ) → has i self.new.port ≡ has i self.old.port }
        ensures credits { HasSameCredits self.old.port self.new.port }
        ensures acts { HasActed (TendActs self.old.port (credit_number ty) result) self.old self.new }
    {
        let board = tracker.board();
        let Some(mut port_seat) = self.port_seat.take() else {
            unreachable!();
        };
        let (kind, agents) = (ty.number() as usize, self.shape.agents);
        let (first, count) = (self.shape.first(ty), self.shape.count(ty));
        let released = tend_type(board, &mut port_seat, kind, agents, first, count);
        self.port_seat = Some(port_seat);
        released
    }
}
