//! The rule of the tracker's table.

ghost use Rattle.chi_tracker.specs.Rule.{all_new};
ghost use Rattle.chi_tracker.specs.History.{Reached};

use crate::shape::Shape;
use crate::view::SeatView;
use atomic_table::{Seat, Shared, TableRule};

/// What holds between any two atomic steps: that there is a history of legal acts which made the words and all
/// ports, and of which each seat knows its part.
/// Source: `docs/PROTOCOL.md`, "The rule between steps".
pub struct Law;

impl TableRule<u8, SeatView, Shape> for Law {
    ghost holds = { Reached };

    ghost first = { all_new };
}

impl Law {
    ghost use Rattle.std.specs.Prelude.{ℕ, ◌<◌};
    ghost use Rattle.atomic_table.specs.Table.{State};
    ghost use Rattle.chi_tracker.specs.declared.shape.Shape.{Shape};
    ghost use Rattle.chi_tracker.specs.declared.view.SeatView.{SeatView};
    ghost use Rattle.std.specs.Prelude.{List};
    ghost use Rattle.chi_tracker.specs.Acts.{Act};
    ghost use Rattle.chi_tracker.specs.Rule.{TrackerRule};
    ghost use Rattle.chi_tracker.specs.History.{Reached, Legal, history_outcome, table_state, IsAfter, ViewsAre, HistoriesAgree};
    ghost use Rattle.chi_tracker.specs.Laws.{Places, Ledgers, AllKnow, IsOfRunning};
    ghost use Rattle.chi_tracker.specs.Witness.{AreAfter, AreAllPorts};
    ghost use Rattle.chi_tracker.specs.Views.{PortView};
    ghost use Rattle.std.specs.Prelude.{◌≡◌, Option};
    ghost use Rattle.chi_flit.specs.declared.numbers.Entry.{Entry};
    ghost use Rattle.chi_tracker.specs.declared.released.Released.{Released};
    ghost use Rattle.chi_tracker.specs.Calls.{saw_all, Claims, HasReturned, LeavesHandAsItsType, Tended};
    ghost use Rattle.chi_tracker.specs.Conduct.{after_steps, ClaimActs, ReleaseActs, ReturnActs, SeeActs, Steps, TendActs};

    /// Whatever legal acts make of the words and the ports keeps the tracker's rule, and so does each state
    /// that the table's rule allows. Does nothing: its contract is the law.
    /// Source: `docs/PROTOCOL.md`, "The rule between steps".
    pub fn history()
        ensures made { (key : Shape) (acts : List Act) → Legal key acts
            → TrackerRule key (table_state (history_outcome key acts)) }
        ensures kept { (key : Shape) (st : State ℕ SeatView) → Reached key st → TrackerRule key st }
    {}

    /// A port as a legal history leaves it is a port of a state that keeps the tracker's rule: what `place`,
    /// `ledger` and `knowledge` say holds of it. Does nothing: its contract is the law.
    /// Source: `docs/PROTOCOL.md`, "The rule between steps".
    pub fn running()
        ensures { (history : List Act) (p : PortView) → IsAfter history p → IsOfRunning p }
    {}

    /// Whatever steps were done, by whatever plays: each port's view is as legal acts leave it. So no step
    /// can write anything else into a view. Does nothing: its contract is the law.
    /// Source: `docs/PROTOCOL.md`, "The rule between steps".
    pub fn views()
        ensures { (key : Shape) (st : State ℕ SeatView) → Reached key st → ViewsAre st }
    {}

    /// Of each two seats one knows all that the other does: its history goes on from the other's, with acts of
    /// which none is one of the other's ports. So what two threads know fits together. Does nothing: its
    /// contract is the law.
    /// Source: `docs/PROTOCOL.md`, "The rule between steps".
    pub fn histories()
        ensures { (key : Shape) (st : State ℕ SeatView) → Reached key st → HistoriesAgree st }
    {}

    /// Where one legal history leaves the ports of all requesters as they are, they are all the ports of one
    /// state of the words and of all ports, in which the tracker's rule holds: each entry is in one place, the
    /// ledgers hold, and what each port knows is so. Does nothing: its contract is the law.
    /// Source: `docs/PROTOCOL.md`, "The rule between steps".
    pub fn together()
        ensures { (s : Shape) (history : List Act) (ports : List PortView) → 0 < s.agents
            → AreAfter s history ports → AreAllPorts s ports }
    {}

    /// What the steps of a call make of its port's view. A claim opens one scan, which found each entry
    /// claimed up to the one that came to hand, or each of the type. A look at what is promised is one step on
    /// each of the four words. A release ends with the entry promised to a requester at which its sweep stands,
    /// or freed by a sweep that looked at every requester and has no bit left; so does a credit that is given
    /// back, and a tend, after a sweep that showed an owed credit, and a scan. Does nothing: its contract is the
    /// law.
    /// Source: `docs/PROTOCOL.md`, "Steps of the tracker".
    pub fn steps()
        ensures claim { (p : PortView) (t : ℕ) (result : Option Entry) (steps : Steps)
            → ClaimActs p t result steps → Claims t result p (after_steps steps p) }
        ensures see { (p : PortView) (words : List ℕ) (steps : Steps) → SeeActs words steps
            → after_steps steps p ≡ saw_all (after_steps steps p).seen p }
        ensures release { (p : PortView) (e : ℕ) (to : Released) (steps : Steps) → 0 < p.shape.agents
            → ReleaseActs p e to steps → LeavesHandAsItsType p e to (after_steps steps p) }
        ensures give_back { (p : PortView) (t : ℕ) (to : Released) (steps : Steps) → 0 < p.shape.agents
            → ReturnActs p t to steps → HasReturned t p to (after_steps steps p) }
        ensures tend { (p : PortView) (t : ℕ) (to : Option Released) (steps : Steps) → 0 < p.shape.agents
            → TendActs p t to steps → Tended p t to (after_steps steps p) }
    {}

    /// Between any two atomic steps each entry is free, in the hand of exactly one port, or promised to
    /// exactly one requester. Does nothing: its contract is the law.
    /// Source: `docs/PROTOCOL.md`, "The rule between steps", place.
    pub fn place()
        ensures { (key : Shape) (st : State ℕ SeatView) → TrackerRule key st → Places key st }
    {}

    /// Between any two atomic steps, for each requester and type the retries are the credits owed, under
    /// duty, promised, spent and returned. Does nothing: its contract is the law.
    /// Source: `docs/PROTOCOL.md`, "The rule between steps", ledger.
    pub fn ledger()
        ensures { (key : Shape) (st : State ℕ SeatView) → TrackerRule key st → Ledgers key st }
    {}

    /// Between any two atomic steps each credit that a port has seen is promised to its requester, the
    /// entry of a port's duty is in hand and of the duty's type, and the place that a port has noted is
    /// clear. Does nothing: its contract is the law.
    /// Source: `docs/PROTOCOL.md`, "The rule between steps".
    pub fn knowledge()
        ensures { (key : Shape) (st : State ℕ SeatView) → TrackerRule key st → AllKnow key st }
    {}
}

/// The words as ports share them.
pub(crate) type Board = Shared<u8, SeatView, Shape, Law>;

/// What a port steps with.
pub(crate) type PortSeat = Seat<u8, SeatView>;
