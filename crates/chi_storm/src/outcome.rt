//! What came of a storm, as it is printed.

ghost use Rattle.chi_storm.specs.Outcomes.{outcome_text};

use chi_replay::{NodeTotals, Printable, verdict_word};
use std::alloc::{AllocError, Allocator};

/// What came of a storm: how many agents there were and how many finished their scripts, the loads and
/// stores in the journals, what the tracker held at its end, and the verdict. It prints as the four lines
/// of a storm, each with its line end.
/// Source: `docs/FORMATS.md`, "The output of a storm".
#[derive(Clone, Copy, Debug, PartialEq, Eq)]
pub struct Outcome {
    pub agents: u8,
    pub finished: u8,
    pub loads: u64,
    pub stores: u64,
    pub holdings: NodeTotals,
    pub coherent: bool,
}

impl Printable for Outcome {
    ghost text = { outcome_text };

    fn print<A: Allocator>(&self, printed: &mut String<A>) -> Result<(), AllocError> {
        let (agents, finished) = (self.agents, self.finished);
        let (loads, stores) = (self.loads, self.stores);
        let verdict = verdict_word(self.coherent);
        writeln!(printed, "agents {agents} finished {finished}")?;
        writeln!(printed, "loads {loads} stores {stores}")?;
        self.holdings.print(printed)?;
        writeln!(printed)?;
        writeln!(printed, "verdict {verdict}")
    }
}
