//! Where the parts of a chart stand.

ghost use Rattle.std.specs.Prelude.{◌≤◌};

use crate::frame::Layout;
use crate::marks::{ChannelCell, channel_place};
use chi_flit::{Agent, Line};

/// The lifeline of an agent.
pub(crate) fn agent_x(agent: Agent) -> u64
    ensures low { result ≤ 100000 }
{
    304 + 318 * u64::from(agent.0)
}

/// What is written beside the lifeline of an agent.
pub(crate) fn words_x(agent: Agent) -> u64 {
    agent_x(agent) + 84
}

/// The state of an agent's copy.
pub(crate) fn state_x(agent: Agent) -> u64 {
    298 + 318 * u64::from(agent.0)
}

impl Layout {
    /// Where the flit of a cell goes down.
    pub(crate) fn lane_x(&self, cell: &ChannelCell) -> u64 {
        let place = u64::from(channel_place(cell.channel));
        agent_x(cell.agent) + 10 + 12 * place + self.line_shift(cell.line)
    }

    /// How far right in its lane the flit of a line goes.
    fn line_shift(&self, line: Line) -> u64
        ensures low { result ≤ 3060 }
    {
        12 * u64::from(line.0) / u64::from(self.lines)
    }

    /// The home.
    pub(crate) fn home_x(&self) -> u64
        ensures low { result ≤ 100000 }
    {
        310 + 318 * u64::from(self.agents)
    }

    /// How many lines a slice has, or as many as the others where it has one less.
    fn lines_each(&self) -> u64
        ensures low { result ≤ 256 }
    {
        (u64::from(self.lines) - 1) / u64::from(self.slices) + 1
    }

    /// A slice of the home.
    pub(crate) fn slice_x(&self, slice: u8) -> u64
        ensures low { result ≤ 1000000 }
    {
        self.home_x() + 12 * (u64::from(slice) * self.lines_each())
    }

    /// The strip of a line in its slice.
    pub(crate) fn strip_x(&self, line: Line) -> u64
        ensures low { result ≤ 2000000 }
    {
        self.slice_x(line.0 % self.slices) + 12 * u64::from(line.0 / self.slices)
    }

    /// The right side of the home.
    pub(crate) fn right_x(&self) -> u64
        ensures low { result ≤ 1000000 }
    {
        self.slice_x(self.slices)
    }

    /// How wide the chart is.
    pub(crate) fn width(&self) -> u64 {
        self.right_x() + 310
    }

    /// What is written of answers right of the home.
    pub(crate) fn home_words_x(&self) -> u64 {
        self.right_x() + 10
    }

    /// What is written of what the home does.
    pub(crate) fn serving_x(&self) -> u64 {
        self.right_x() + 170
    }
}
