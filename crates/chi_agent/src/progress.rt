//! What an agent tells of itself while it runs.

ghost use Rattle.std.specs.Prelude.{◌≡◌};
ghost use Rattle.chi_audit.specs.Tallies.{IsFresh};
ghost use Rattle.chi_agent.specs.Lives.{writer_after};

use chi_audit::{Tallies, Tally, Writer};
use std::marker::Model;
use std::sync::Wait;

/// Where an agent tells its tally. Contracts see the writer, a `WriterState`.
/// Source: `docs/FORMATS.md`, "Reports and tallies".
#[derive(Drop)]
pub struct Progress<'t> {
    pub(crate) tallies: &'t Tallies,
    pub(crate) writer: Writer,
}

impl<'t> Model for Progress<'t> {
    ghost use Rattle.std.specs.Prelude.{◌≡◌, Some, slice_get};
    ghost use Rattle.chi_audit.specs.Tallies.{WriterState};

    ghost Value = { WriterState };

    ghost view = { λ p. p.writer };

    ghost invariant = { λ p. slice_get p.tallies.now p.writer.agent ≡ Some p.writer.cell };
}

impl<'t> Progress<'t> {
    // Nothing was told yet.
    pub(crate) fn new(tallies: &'t Tallies, writer: Writer) -> Progress<'t>
        requires { IsFresh tallies.now writer }
        ensures { result ≡ writer }
    {
        Progress { tallies, writer }
    }

    // Stores the numbers; one that is below the last told stays as it was told. It may wait.
    pub(crate) fn tell<R: Wait>(&mut self, rt: &R, turns: u64, loads: u64, stores: u64)
        ensures { self.new ≡ writer_after self.old turns loads stores }
    {
        let last = self.writer.last();
        let tally = Tally {
            turns: turns.max(last.turns),
            loads: loads.max(last.loads),
            stores: stores.max(last.stores),
        };
        self.tallies.store(rt, &mut self.writer, tally);
    }
}
