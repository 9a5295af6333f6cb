//! What a slice shows of its lines, and what it is.

ghost use Rattle.std.specs.Prelude.{◌≡◌, ◌<◌, ◌&&◌, None, Some, is_some, length, IfOk, IfSome, OnOk};
ghost use Rattle.chi_flit.specs.Refusal.{refusal_of};
ghost use Rattle.chi_journal.specs.Journal.{IsLegalLog};
ghost use Rattle.chi_line.specs.Coherence.{Coherent};
ghost use Rattle.chi_line.specs.LineState.{cells_of, rn_of};
ghost use Rattle.chi_line.specs.Meaning.{standing_of};
ghost use Rattle.chi_line.specs.View.{line_view};
ghost use Rattle.chi_slice.specs.Coherence.{IsCoherentSlice};
ghost use Rattle.chi_slice.specs.Index.{SlotsInRange};
ghost use Rattle.chi_slice.specs.Loading.{IsLoadable};
ghost use Rattle.chi_slice.specs.Slice.{SliceKept, flits_refusal, is_line_in_range, last_of, line as line_of_slice, line_in_row, view_refusal};

use crate::agent_line::AgentLine;
use crate::slice::Slice;
use chi_flit::{Agent, Config, Line, Refusal};
use chi_homeline::HomeLine;
use chi_journal::Journal;
use chi_line::LineView;
use chi_wires::Cells;
use std::alloc::Allocator;

impl<A: Allocator> Slice<A> {
    /// What is in flight between an agent and the home for the line in a row, lent.
    ///
    /// Conditions: the row is one that `row_for` of this slice answered for the agent.
    /// Source: `docs/PROTOCOL.md`, "Messages".
    pub fn flits_in(&self, row: u8, agent: Agent) -> &Cells
        requires row { row < length self.now.lines }
        requires agent { agent.0 < 8 }
        ensures { result.now ≡ cells_of (line_in_row self.now row) agent.0 }
    {
        self.lines[usize::from(row)].flits(agent)
    }

    /// What the home keeps of the line in a row, lent.
    ///
    /// Conditions: the row is one that `row_for` of this slice answered.
    /// Source: `docs/PROTOCOL.md`, "One line".
    pub fn home_in(&self, row: u8) -> &HomeLine
        requires row { row < length self.now.lines }
        ensures { result.now ≡ (line_in_row self.now row).home }
    {
        self.lines[usize::from(row)].home()
    }

    /// The line, where it is in this slice.
    pub(crate) fn line(&self, line: Line) -> Option<&chi_line::CoherentLine>
        ensures inside { is_some result ≡ is_line_in_range self.now line.0 }
        ensures line { IfSome result (λ at. at.now ≡ line_of_slice self.now line.0) }
        ensures kept { SliceKept self.now }
        ensures slots { SlotsInRange self.now }
    {
        let row = self.config.row_in(self.index, line.0)?;
        Some(&self.lines[usize::from(row)])
    }

    /// The line, where it is in this slice and the agent in the node; refused 10 (OutOfRange) exactly where
    /// not.
    fn line_for(&self, agent: Agent, line: Line) -> Result<&chi_line::CoherentLine, Refusal>
        ensures line { IfOk result (λ at. at.now ≡ line_of_slice self.now line.0) }
        ensures agent { OnOk result (agent.0 < 8) }
        ensures refusal { refusal_of result ≡ flits_refusal self.now agent.0 line.0 }
        ensures kept { SliceKept self.now }
        ensures slots { SlotsInRange self.now }
    {
        match self.line(line) {
            Some(at) if agent.0 < self.config.agents() => Ok(at),
            Some(_) | None => Err(Refusal::OutOfRange),
        }
    }

    /// All parts of a line, as plain data. The line is coherent. Takes no memory.
    ///
    /// Refused 10 (OutOfRange) exactly where the line is outside the node or in another slice.
    /// Source: `docs/PROTOCOL.md`, "One line" and "Coherence".
    pub fn view(&self, line: Line) -> Result<LineView, Refusal>
        ensures shown { IfOk result
            (λ view. view ≡ line_view (line_of_slice self.now line.0) (last_of self.now line.0)) }
        ensures coherent { OnOk result
            (Coherent (last_of self.now line.0) (standing_of (line_of_slice self.now line.0))) }
        ensures refusal { refusal_of result ≡ view_refusal self.now line.0 }
    {
        match self.line(line) {
            Some(at) => Ok(at.view(self.journal.last_words(line))),
            None => Err(Refusal::OutOfRange),
        }
    }

    /// What is in flight between an agent and the home for a line.
    ///
    /// Refused 10 (OutOfRange) exactly where the agent or the line is outside the node, or the line is in
    /// another slice.
    /// Source: `docs/PROTOCOL.md`, "Messages".
    pub fn flits(&self, agent: Agent, line: Line) -> Result<Cells, Refusal>
        ensures cells { IfOk result (λ cells. cells
            ≡ cells_of (line_of_slice self.now line.0) agent.0) }
        ensures refusal { refusal_of result ≡ flits_refusal self.now agent.0 line.0 }
        ensures kept { SliceKept self.now }
        ensures slots { SlotsInRange self.now }
    {
        let at = self.line_for(agent, line)?;
        Ok(*at.flits(agent))
    }

    /// What an agent has of a line, what is in flight between it and the home for the line, and the line at
    /// the home: all of one look, and lent.
    ///
    /// Refused 10 (OutOfRange) exactly where the agent or the line is outside the node, or the line is in
    /// another slice.
    /// Source: `docs/PROTOCOL.md`, "One line".
    pub fn agent_line(&self, agent: Agent, line: Line) -> Result<AgentLine<'_>, Refusal>
        ensures copy { IfOk result (λ at. at.copy.now
            ≡ rn_of (line_of_slice self.now line.0) agent.0) }
        ensures flits { IfOk result (λ at. at.flits.now
            ≡ cells_of (line_of_slice self.now line.0) agent.0) }
        ensures home { IfOk result (λ at. at.home.now ≡ (line_of_slice self.now line.0).home) }
        ensures refusal { refusal_of result ≡ flits_refusal self.now agent.0 line.0 }
    {
        let at = self.line_for(agent, line)?;
        Ok(AgentLine {
            copy: at.copy(agent),
            flits: at.flits(agent),
            home: at.home(),
        })
    }

    /// Whether the line is one of this slice: a line `l` of the node is where `l mod slices` is its index.
    /// Source: `docs/PROTOCOL.md`, "Limits".
    pub fn has_line(&self, line: Line) -> bool
        ensures { result ≡ is_line_in_range self.now line.0 }
    {
        line.0 < self.config.lines() && self.config.slice_of(line) == self.index
    }

    /// The loads and stores that were answered, in their order: each load had the value that was stored
    /// last before it. Whoever asks for them knows what every slice keeps.
    /// Source: `docs/PROTOCOL.md`, "The journal and last values".
    pub fn journal(&self) -> &Journal<A>
        ensures journal { result.now ≡ self.now.journal }
        ensures legal { IsLegalLog self.now.journal }
        ensures kept { SliceKept self.now }
        ensures slots { SlotsInRange self.now }
    {
        &self.journal
    }

    /// What every slice keeps: each of its lines is coherent, with the values that the journal has as last
    /// stored to its words, and each load in the journal had the value stored last before it. Nothing is
    /// done.
    /// Source: `docs/PROTOCOL.md`, "Coherence" and "The journal and last values".
    pub fn coherence(&self)
        ensures { IsCoherentSlice self.now }
    {
        let _ = self.journal();
    }

    /// The lines of the slice in the order of their rows, lent: line `l` of the node is in row `l / slices`.
    /// Whoever asks for them knows that `of_parts` makes this slice of its parts.
    /// Source: `docs/PROTOCOL.md`, "One line".
    pub fn lines(&self) -> &[chi_line::CoherentLine]
        ensures lines { result.now ≡ self.now.lines }
        ensures parts { IsLoadable self.now }
    {
        &self.lines
    }

    /// The size of the node.
    /// Source: `docs/PROTOCOL.md`, "Limits".
    pub fn config(&self) -> &Config
        ensures { result.now ≡ self.now.config }
    {
        &self.config
    }

    /// Which slice of the node this is.
    /// Source: `docs/PROTOCOL.md`, "Limits".
    pub fn index(&self) -> u8
        ensures { result ≡ self.now.index }
    {
        self.index
    }
}
