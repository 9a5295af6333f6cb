//! A line as plain data.

ghost use Rattle.std.specs.Prelude.{◌≡◌, map};
ghost use Rattle.chi_line.specs.View.{copy_shown, pending_shown, line_view};

use crate::line::CoherentLine;
use chi_flit::{Agent, Data, NO_DATA, State};
use chi_homeline::{Serving, Waiting};
use chi_rnline::{Pending, RnLine};
use chi_wires::Cells;

/// One requester's copy of a line: its data means nothing in state `I`.
/// Source: `docs/PROTOCOL.md`, "One line".
#[derive(Clone, Copy, Debug, PartialEq, Eq)]
pub struct CopyView {
    pub state: State,
    pub words: Data,
}

/// All parts of one line, as plain data. Arrays go by agent number.
/// Source: `docs/PROTOCOL.md`, "One line" and "The journal and last values".
#[derive(Clone, Copy, Debug, PartialEq, Eq)]
pub struct LineView {
    /// The requesters' copies.
    pub copies: [CopyView; 8],
    /// The requesters' pending requests.
    pub pending: [Option<Pending>; 8],
    /// The memory's value.
    pub memory: Data,
    /// The agents that the snoop filter names.
    pub named: [bool; 8],
    /// The filter's flag: where it is set, one agent alone is named, which may hold nothing.
    pub unique: bool,
    /// The agent that answers for dirty shared data.
    pub owner: Option<Agent>,
    /// The request that is served.
    pub serving: Serving,
    /// The agents whose snoop answer is awaited.
    pub awaited: [bool; 8],
    /// The requests that wait.
    pub waiting: [Option<Waiting>; 8],
    /// The flits in flight.
    pub flits: [Cells; 8],
    /// The values last stored to the words.
    pub last: Data,
}

impl CopyView {
    /// No copy: state `I`, with data that is 0.
    /// Source: `docs/PROTOCOL.md`, "One line".
    pub const NONE: CopyView = CopyView {
        state: State::I,
        words: NO_DATA,
    };
}

impl CoherentLine {
    /// The line as plain data; last are the values last stored to its words.
    /// Source: `docs/PROTOCOL.md`, "One line" and "The journal and last values".
    pub fn view(&self, last: Data) -> LineView
        ensures { result ≡ line_view self.now last }
    {
        let home = &self.home;
        let filter = home.filter();
        LineView {
            copies: copies_of(&self.requesters),
            pending: pending_of(&self.requesters),
            memory: home.memory(),
            named: filter.named(),
            unique: filter.is_unique(),
            owner: filter.owner(),
            serving: home.serving(),
            awaited: home.awaited(),
            waiting: home.all_waiting(),
            flits: self.flits.all(),
            last,
        }
    }
}

/// The requesters' copies.
fn copies_of(requesters: &[RnLine; 8]) -> [CopyView; 8]
    ensures { result ≡ map copy_shown requesters.now }
{
    let mut copies = [CopyView::NONE; 8];
    for agent in 0..8 {
        let line = &requesters[agent];
        copies[agent] = CopyView {
            state: line.state(),
            words: line.words(),
        };
    }
    copies
}

/// The requesters' pending requests.
fn pending_of(requesters: &[RnLine; 8]) -> [Option<Pending>; 8]
    ensures { result ≡ map pending_shown requesters.now }
{
    let mut pending = [None; 8];
    for agent in 0..8 {
        pending[agent] = requesters[agent].pending();
    }
    pending
}
