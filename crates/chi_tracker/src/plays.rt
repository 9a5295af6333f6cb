//! What each atomic step tells its caller.

ghost use Rattle.std.specs.Prelude.{◌≡◌, List, [], ◌∷◌};
ghost use Rattle.chi_tracker.specs.Acts.{Act};
ghost use Rattle.chi_tracker.specs.declared.step.AtomicStep.{AtomicStep};
ghost use Rattle.chi_tracker.specs.declared.step.AtomicStep.TheVariants.{Free};
ghost use Rattle.chi_tracker.specs.Steps.{first_port};
ghost use Rattle.chi_tracker.specs.History.{TakesEffect, no_ports};
ghost use Rattle.chi_tracker.specs.Calls.{rest_ports};
ghost use Rattle.chi_tracker.specs.Witness.{joined, IsKnown};

use crate::view::SeatView;
use atomic_table::{Join, Play, Split};
use std::marker::{Brand, PhantomData};

/// A step, one of those that `specs/Acts.antt` lists. A caller picks it.
/// Source: `docs/DECISIONS.md`, "The tracker".
pub trait Pick {
    ghost step: { AtomicStep };
}

impl Pick for Brand {
    ghost step = { Free 0 };
}

/// An atomic step: the history goes on to it, and the port's view goes by the step's effect.
/// Source: `docs/PROTOCOL.md`, "Steps of the tracker".
pub struct Atomic<T: Pick>(PhantomData<T>);

impl<T: Pick> Play<u8, SeatView> for Atomic<T> {
    ghost then = { λ _. TakesEffect T.step };
}

/// A seat's first port goes to a seat of its own.
/// Source: `docs/PROTOCOL.md`, "Words of the tracker".
pub struct Deal;

impl Split<SeatView> for Deal {
    ghost left = { λ v. record { ports = rest_ports v.ports; history = v.history } };

    ghost right = { λ v. record { ports = first_port v.ports ∷ []; history = v.history } };
}

/// A new seat, of no port.
/// Source: `docs/PROTOCOL.md`, "Words of the tracker".
pub struct Enter;

impl Play<u8, SeatView> for Enter {
    ghost then = { λ _ _ _ w. w ≡ (no_ports, []) };
}

/// The ports of another seat go before those of this one, and the longer history stays: a load on the joined
/// seat shows that the histories of the two agreed.
/// Source: `docs/PROTOCOL.md`, "The rule between steps".
pub struct Meet;

impl Join<SeatView> for Meet {
    ghost both = { joined };

    ghost spent = { no_ports };
}

/// A load that tells of a seat's ports that the history which the seat knows leaves them so.
/// Source: `docs/PROTOCOL.md`, "The rule between steps".
pub struct Known;

impl Play<u8, SeatView> for Known {
    ghost then = { λ _ m _ w. (w ≡ m) × IsKnown m.0 };
}

/// The part of a history that a seat knew. A caller picks it.
/// Source: `docs/DECISIONS.md`, "The tracker".
pub trait Past {
    ghost history: { List Act };
}

impl Past for Brand {
    ghost history = { [] };
}

/// A seat's port goes to a seat of its own, which knows what it knew.
/// Source: `docs/PROTOCOL.md`, "The rule between steps".
pub struct GoBack<T: Past>(PhantomData<T>);

impl<T: Past> Split<SeatView> for GoBack<T> {
    ghost left = { λ v. record { ports = rest_ports v.ports; history = v.history } };

    ghost right = { λ v. record { ports = first_port v.ports ∷ []; history = T.history } };
}
