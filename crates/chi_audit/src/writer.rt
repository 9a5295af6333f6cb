//! Who stores the tallies of an agent.

ghost use Rattle.std.specs.Prelude.{◌≡◌, [], ◌∷◌, ◌++◌};
ghost use Rattle.chi_audit.specs.Tally.{last_tally, NotAbove};

use crate::cell::TallyCell;
use crate::rising::CellPass;
use crate::tally::Tally;
use chi_flit::Agent;
use std::marker::Model;
use std::sync::Wait;

/// Who alone stores in an agent's cell. Contracts see a `WriterState`: the agent, its cell, and the tallies
/// that were stored, the oldest first.
#[derive(Drop)]
pub struct Writer {
    pub(crate) agent: Agent,
    pub(crate) pass: CellPass,
    pub(crate) last: Tally,
}

impl Model for Writer {
    ghost use Rattle.std.specs.Prelude.{◌≡◌, true};
    ghost use Rattle.crossbeam_utils.specs.Seq.{cell_view};
    ghost use Rattle.chi_audit.specs.Tally.{last_tally};
    ghost use Rattle.chi_audit.specs.Tallies.{WriterState};

    ghost Value = { WriterState };

    ghost view = { λ w. record {
      agent = w.agent.0;
      cell = w.pass.table_id;
      stored = (cell_view w.pass).seen;
    } };

    ghost invariant = { λ w. ((cell_view w.pass).writes ≡ true)
        × (last_tally (cell_view w.pass).seen ≡ w.last) };
}

impl Writer {
    /// The agent whose tallies it stores.
    pub fn agent(&self) -> Agent
        ensures { result.0 ≡ self.now.agent }
    {
        self.agent
    }

    /// The tally that was stored last, or the opening one.
    pub fn last(&self) -> Tally
        ensures { result ≡ last_tally self.now.stored }
    {
        self.last
    }

    // Stores a tally in the writer's cell.
    pub(crate) fn store<R: Wait>(&mut self, rt: &R, cell: &TallyCell, tally: Tally)
        requires cell { self.old.cell ≡ cell.now }
        requires later { NotAbove (last_tally self.old.stored) tally }
        ensures { self.new ≡ record self.old { stored = self.old.stored ++ tally ∷ [] } }
    {
        cell.store(rt, &mut self.pass, tally);
        self.last = tally;
    }
}
