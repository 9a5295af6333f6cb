//! What one agent and the home have of a line.

use chi_homeline::HomeLine;
use chi_rnline::RnLine;
use chi_wires::Cells;

/// An agent's copy of a line, what is in flight between the agent and the home for it, and the line at the
/// home; all lent.
/// Source: `docs/PROTOCOL.md`, "One line".
#[derive(Clone, Copy)]
pub struct AgentLine<'s> {
    pub copy: &'s RnLine,
    pub flits: &'s Cells,
    pub home: &'s HomeLine,
}
