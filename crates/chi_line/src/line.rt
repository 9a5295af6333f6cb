//! A line: the requesters' sides of it, the home's, and what is in flight between them.

ghost use Rattle.std.specs.List.{filter};
ghost use Rattle.std.specs.Prelude.{◌≡◌, ◌<◌, [], ⊤};
ghost use Rattle.chi_flit.specs.declared.message.Channel.{Channel};
ghost use Rattle.chi_wires.specs.Cell.{cell_of};
ghost use Rattle.chi_wires.specs.Flight.{flit_of, in_flight, is_at};
ghost use Rattle.chi_line.specs.LineState.{cells_of, line_of_parts, opening_line, rn_of};

use chi_flit::Agent;
use chi_homeline::HomeLine;
use chi_rnline::RnLine;
use chi_wires::{Cells, Wires};
use std::alloc::AllocError;
use std::marker::Model;

/// One line: what each of the eight requesters and the home keep of it, and what is in flight between them.
/// Contracts see it as a `LineState`.
/// Source: `docs/PROTOCOL.md`, "One line".
#[derive(Drop, PartialEq, Eq)]
pub struct CoherentLine {
    pub(crate) requesters: [RnLine; 8],
    pub(crate) home: HomeLine,
    pub(crate) flits: Wires,
}

impl Model for CoherentLine {
    ghost use Rattle.chi_line.specs.LineState.{LineState};

    ghost Value = { LineState };

    ghost view = { λ line. record { requesters = line.requesters; home = line.home; flits = line.flits } };

    ghost inverse = { λ line. record { requesters = line.requesters; home = line.home; flits = line.flits } };
}

impl Clone for CoherentLine {
    ghost is_clone = { λ line copy. copy ≡ line };

    ghost is_infallible = { λ _. ⊤ };

    fn clone(&self) -> Result<Self, AllocError> {
        Ok(CoherentLine {
            requesters: self.requesters,
            home: self.home.clone()?,
            flits: self.flits.clone()?,
        })
    }
}

impl CoherentLine {
    /// A line whose memory is 0, with no copies, and nothing pending, waiting, served or in flight.
    /// Source: `docs/PROTOCOL.md`, "One line".
    pub fn new() -> CoherentLine
        ensures opening { result ≡ opening_line }
        ensures none { in_flight result.flits ≡ [] }
    {
        CoherentLine {
            requesters: [RnLine::new(); 8],
            home: HomeLine::new(),
            flits: Wires::new(),
        }
    }

    /// The line of these parts: what the requesters keep of it, by agent number, what the home does, and what
    /// is in flight. Whether it keeps what every line keeps is for `keeps` to say.
    /// Source: `docs/PROTOCOL.md`, "One line".
    pub fn of_parts(requesters: [RnLine; 8], home: HomeLine, flits: Wires) -> CoherentLine
        ensures { result ≡ line_of_parts requesters home flits }
    {
        CoherentLine {
            requesters,
            home,
            flits,
        }
    }

    /// The agent's copy and pending request, lent.
    ///
    /// Conditions: the agent's number is below 8.
    /// Source: `docs/PROTOCOL.md`, "One line".
    pub fn copy(&self, agent: Agent) -> &RnLine
        requires { agent.0 < 8 }
        ensures { result.now ≡ rn_of self.now agent.0 }
    {
        &self.requesters[usize::from(agent.0)]
    }

    /// What is in flight to and from the agent, lent: at most one flit on each channel.
    ///
    /// Conditions: the agent's number is below 8.
    /// Source: `docs/PROTOCOL.md`, "Messages".
    pub fn flits(&self, agent: Agent) -> &Cells
        requires { agent.0 < 8 }
        ensures cells { result.now ≡ cells_of self.now agent.0 }
        ensures once { (channel : Channel)
            → filter (is_at channel agent) (in_flight self.now.flits)
            ≡ flit_of agent (cell_of result.now channel) }
    {
        self.flits.cells(agent)
    }

    /// The copies and pending requests of all agents, by their numbers, lent.
    /// Source: `docs/PROTOCOL.md`, "One line".
    pub fn copies(&self) -> &[RnLine; 8]
        ensures { result.now ≡ self.now.requesters }
    {
        &self.requesters
    }

    /// What is in flight to and from all agents, lent.
    /// Source: `docs/PROTOCOL.md`, "Messages".
    pub fn all_flits(&self) -> &Wires
        ensures { result.now ≡ self.now.flits }
    {
        &self.flits
    }

    /// What the home keeps of the line, lent.
    /// Source: `docs/PROTOCOL.md`, "One line".
    pub fn home(&self) -> &HomeLine
        ensures { result.now ≡ self.now.home }
    {
        &self.home
    }
}
