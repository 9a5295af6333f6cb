//! Who reads the tallies of all agents.

ghost use Rattle.std.specs.Prelude.{◌≡◌, ◌<◌, length, map};
ghost use Rattle.chi_audit.specs.Tallies.{reader_cell, IsRead, IsReadBy};

use crate::cell::TallyCell;
use crate::cells::Tallies;
use crate::rising::CellPass;
use crate::tally::Tally;
use chi_flit::Agent;
use std::marker::Model;
use std::sync::Wait;

/// Who reads one cell. Contracts see a `ReaderState`: the cell, and the tallies that it knows were stored.
#[derive(Drop)]
pub struct Reader {
    pub(crate) pass: CellPass,
}

impl Model for Reader {
    ghost use Rattle.crossbeam_utils.specs.Seq.{cell_view};
    ghost use Rattle.chi_audit.specs.Tallies.{ReaderState};

    ghost Value = { ReaderState };

    ghost view = { λ r. record { cell = r.pass.table_id; seen = (cell_view r.pass).seen } };
}

impl Reader {
    // Reads the cell.
    fn read<R: Wait>(&mut self, rt: &R, cell: &TallyCell) -> Tally
        requires { self.old.cell ≡ cell.now }
        ensures { IsReadBy self.old self.new result }
    {
        cell.read(rt, &mut self.pass)
    }
}

/// Who reads the tallies. Contracts see a list of `ReaderState`s: of each agent the cell, and the tallies that
/// the watcher knows were stored there, the oldest first, up to its last reading.
#[derive(Drop)]
pub struct Watcher {
    pub(crate) readers: Vec<Reader>,
}

impl Model for Watcher {
    ghost use Rattle.std.specs.Prelude.{List};
    ghost use Rattle.chi_audit.specs.Tallies.{ReaderState};

    ghost Value = { List ReaderState };

    ghost view = { λ w. w.readers.items };
}

impl Watcher {
    /// The tally of an agent: the opening one, or the last that was stored whole by then. No number of it is
    /// below one that this watcher read of that agent before. What it knows of other agents stays. Where a
    /// store comes between its looks it waits until it has the cell for itself.
    /// Source: `docs/FORMATS.md`, "Reports and tallies".
    pub fn read<R: Wait>(&mut self, rt: &R, tallies: &Tallies, agent: Agent) -> Tally
        requires cells { map reader_cell self.old ≡ tallies.now }
        requires agent { agent.0 < length tallies.now }
        ensures { IsRead self.old self.new agent.0 result }
    {
        let place = usize::from(agent.0);
        self.readers[place].read(rt, &tallies.cells[place])
    }
}
