//! What a seat at the table knows.

ghost use Rattle.std.specs.Prelude.{List};
ghost use Rattle.chi_tracker.specs.Acts.{Act};
ghost use Rattle.chi_tracker.specs.Views.{PortView};

use std::marker::Model;

/// The ports that a seat stands for: one, or all of those that were joined; and the history of the tracker up
/// to the last step of one of them, the last act first. It has no bytes, and no value of it is made.
/// Source: `docs/PROTOCOL.md`, "Words of the tracker".
pub struct SeatView {
    pub ghost ports: { List PortView },
    pub ghost history: { List Act },
}

impl Model for SeatView {
    ghost use base.Fml.{ftrue};

    ghost also_owns = { λ _. ftrue };
}
