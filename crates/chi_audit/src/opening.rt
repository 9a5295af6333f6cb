//! The tallies of all agents, as they are at first.

ghost use Rattle.std.specs.Prelude.{◌≡◌, [], All, IfOk, length, map};
ghost use Rattle.chi_audit.specs.Numbers.{numbers};
ghost use Rattle.chi_audit.specs.Tallies.{writer_agent, reader_cell, unread, IsFresh};

use crate::cell::TallyCell;
use crate::cells::Tallies;
use crate::tally::Tally;
use crate::watcher::{Reader, Watcher};
use crate::writer::Writer;
use chi_flit::{Agent, NoMemory};
use std::alloc::Global;

/// A cell with the opening tally for each agent, a writer for each agent in rising order, which stored nothing
/// so far, and a watcher of all cells, which read nothing so far. Refused where memory runs out.
/// Source: `docs/FORMATS.md`, "Reports and tallies".
pub fn tallies(alloc: Global, agents: u8) -> Result<(Tallies, Vec<Writer>, Watcher), NoMemory>
    ensures cells { IfOk result (λ made. length made.0 ≡ agents) }
    ensures writers { IfOk result (λ made. All (IsFresh made.0) made.1.items) }
    ensures agents { IfOk result (λ made. map writer_agent made.1.items ≡ numbers agents) }
    ensures watcher { IfOk result (λ made. made.2 ≡ map unread made.0) }
    ensures watched { IfOk result (λ made. map reader_cell made.2 ≡ made.0) }
{
    let mut cells = Vec::new(alloc);
    let mut writers = Vec::new(alloc);
    let mut readers = Vec::new(alloc);
    for agent in 0..agents {
        let (cell, writer, reader) = open_cell(alloc, Agent(agent))?;
        readers.push(reader)?;
        writers.push(writer)?;
        cells.push(cell)?;
    }
    Ok((Tallies { cells }, writers, Watcher { readers }))
}

// A cell with the opening tally, with its writer and its reader.
fn open_cell(alloc: Global, agent: Agent) -> Result<(TallyCell, Writer, Reader), NoMemory>
    ensures writer { IfOk result
        (λ made. made.1 ≡ record { agent = agent.0; cell = made.0; stored = [] }) }
    ensures reader { IfOk result (λ made. made.2 ≡ unread made.0) }
{
    let (cell, mut pass) = TallyCell::open(alloc)?;
    let reader = Reader {
        pass: cell.watch(&mut pass),
    };
    let writer = Writer {
        agent,
        pass,
        last: Tally {
            turns: 0,
            loads: 0,
            stores: 0,
        },
    };
    Ok((cell, writer, reader))
}
