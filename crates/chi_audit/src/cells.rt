//! The cells of all agents.

ghost use Rattle.std.specs.Prelude.{◌≡◌, [], ◌∷◌, ◌++◌, Some, slice_get};
ghost use Rattle.chi_audit.specs.Tally.{last_tally, NotAbove};

use crate::cell::TallyCell;
use crate::tally::Tally;
use crate::writer::Writer;
use std::marker::Model;
use std::sync::Wait;

/// A cell for the tally of each agent, in rising order. Contracts see the list of the cells' names.
#[derive(Drop)]
pub struct Tallies {
    pub(crate) cells: Vec<TallyCell>,
}

impl Model for Tallies {
    ghost use Rattle.std.specs.Prelude.{List};
    ghost use Rattle.atomic_table.specs.Seated.{TableId};

    ghost Value = { List TableId };

    ghost view = { λ t. t.cells.items };
}

impl Tallies {
    /// Stores a tally of the writer's agent whole, by the writer of its cell. The tallies stored before stay
    /// known, and other cells stay. It may wait for a watcher that reads the cell.
    /// Source: `docs/FORMATS.md`, "Reports and tallies".
    pub fn store<R: Wait>(&self, rt: &R, writer: &mut Writer, tally: Tally)
        requires cell { slice_get self.now writer.old.agent ≡ Some writer.old.cell }
        requires later { NotAbove (last_tally writer.old.stored) tally }
        ensures stored { writer.new
            ≡ record writer.old { stored = writer.old.stored ++ tally ∷ [] } }
        ensures last { last_tally writer.new.stored ≡ tally }
    {
        let place = usize::from(writer.agent.0);
        writer.store(rt, &self.cells[place], tally);
    }
}
