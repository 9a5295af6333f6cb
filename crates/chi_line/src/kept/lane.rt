//! What belongs to one agent at a line, as plain data.

use chi_flit::{Agent, Data, State};
use chi_homeline::{Serving, Waiting};
use chi_rnline::Pending;
use chi_wires::Cells;

/// All that belongs to one agent at a line.
#[derive(Clone, Copy)]
pub(crate) struct AgentLane {
    pub(crate) state: State,
    pub(crate) words: Data,
    pub(crate) pending: Option<Pending>,
    pub(crate) flits: Cells,
    pub(crate) named: bool,
    pub(crate) awaited: bool,
    pub(crate) waiting: Option<Waiting>,
}

/// What the line has beside its agents' lanes, and the values last stored to its words.
#[derive(Clone, Copy)]
pub(crate) struct HomeTerms {
    pub(crate) serving: Serving,
    pub(crate) unique: bool,
    pub(crate) owner: Option<Agent>,
    pub(crate) last: Data,
}
