//! What a command changes at its line.

ghost use Rattle.std.specs.Prelude.{◌<◌};

use chi_flit::{Agent, Channel, Line, Msg, NoMemory, State};
use chi_slice::{Cells, LineView, Serving};
use std::alloc::Allocator;

/// Where one flit is in flight: there is one cell for each channel, agent and line.
/// Source: `docs/PROTOCOL.md`, "Messages".
#[derive(Clone, Copy, Debug, PartialEq, Eq)]
pub(crate) struct ChannelCell {
    pub(crate) line: Line,
    pub(crate) agent: Agent,
    pub(crate) channel: Channel,
}

/// One change that a command made.
/// Source: `docs/FORMATS.md`, "Charts".
#[derive(Clone, Copy, Debug, PartialEq, Eq)]
pub(crate) enum Mark {
    /// The agent's copy turned to this state.
    Turned(Agent, State),
    /// The flit of this cell was taken.
    Taken(ChannelCell),
    /// This message was sent, and is in this cell.
    Sent(ChannelCell, Msg),
    /// The home came to do this at the line.
    Serves(Line, Serving),
}

/// The channels, those to a requester first.
pub(crate) const CHANNELS: [Channel; 6] = [
    Channel::Snp,
    Channel::RspDown,
    Channel::DatDown,
    Channel::Req,
    Channel::RspUp,
    Channel::DatUp,
];

/// The place of a channel among them.
pub(crate) fn channel_place(channel: Channel) -> u8 {
    match channel {
        Channel::Snp => 0,
        Channel::RspDown => 1,
        Channel::DatDown => 2,
        Channel::Req => 3,
        Channel::RspUp => 4,
        Channel::DatUp => 5,
    }
}

impl ChannelCell {
    /// Whether it is the same cell.
    pub(crate) fn is(&self, other: &ChannelCell) -> bool {
        self.line.0 == other.line.0
            && self.agent.0 == other.agent.0
            && channel_place(self.channel) == channel_place(other.channel)
    }
}

/// A number for each thing that the home may do at a line.
fn serving_place(serving: Serving) -> u8 {
    match serving {
        Serving::Idle => 0,
        Serving::Snooping { .. } => 1,
        Serving::AwaitingCompAck { .. } => 2,
        Serving::AwaitingWriteData { .. } => 3,
    }
}

/// What changed at a line between two views of it; nothing where there is no line. Refused where memory
/// runs out.
/// Source: `docs/FORMATS.md`, "Charts".
pub(crate) fn marks_between<A: Allocator>(
    alloc: A,
    line: Option<Line>,
    before: &Option<LineView>,
    after: &Option<LineView>,
) -> Result<Vec<Mark, A>, NoMemory> {
    let mut marks = Vec::new(alloc);
    match (line, before, after) {
        (Some(line), Some(before), Some(after)) => {
            add_marks(&mut marks, line, before, after)?;
            Ok(marks)
        }
        _ => Ok(marks),
    }
}

/// Puts what changed of a line behind the marks.
fn add_marks<A: Allocator>(
    marks: &mut Vec<Mark, A>,
    line: Line,
    before: &LineView,
    after: &LineView,
) -> Result<(), NoMemory> {
    add_serving(marks, line, before.serving, after.serving)?;
    for agent in 0..8 {
        add_agent(marks, line, agent, before, after)?;
    }
    Ok(())
}

/// What the home does at the line, where that is something else than before.
fn add_serving<A: Allocator>(
    marks: &mut Vec<Mark, A>,
    line: Line,
    before: Serving,
    after: Serving,
) -> Result<(), NoMemory> {
    if serving_place(before) != serving_place(after) {
        marks.push(Mark::Serves(line, after))?;
    }
    Ok(())
}

/// What changed of an agent's part of the line.
fn add_agent<A: Allocator>(
    marks: &mut Vec<Mark, A>,
    line: Line,
    agent: u8,
    before: &LineView,
    after: &LineView,
) -> Result<(), NoMemory>
    requires { agent < 8 }
{
    let place = usize::from(agent);
    add_state(
        marks,
        Agent(agent),
        before.copies[place].state,
        after.copies[place].state,
    )?;
    add_flits(
        marks,
        line,
        Agent(agent),
        &before.flits[place],
        &after.flits[place],
    )
}

/// The state of an agent's copy, where it is another than before.
fn add_state<A: Allocator>(
    marks: &mut Vec<Mark, A>,
    agent: Agent,
    before: State,
    after: State,
) -> Result<(), NoMemory> {
    if before.number() != after.number() {
        marks.push(Mark::Turned(agent, after))?;
    }
    Ok(())
}

/// The flits to and from an agent that were taken and sent.
fn add_flits<A: Allocator>(
    marks: &mut Vec<Mark, A>,
    line: Line,
    agent: Agent,
    before: &Cells,
    after: &Cells,
) -> Result<(), NoMemory> {
    add_channels(marks, line, agent, before, after, &CHANNELS)
}

/// Those on some of the channels, one after the other.
fn add_channels<A: Allocator>(
    marks: &mut Vec<Mark, A>,
    line: Line,
    agent: Agent,
    before: &Cells,
    after: &Cells,
    channels: &[Channel],
) -> Result<(), NoMemory> {
    for channel in channels {
        add_channel(marks, line, agent, *channel, before, after)?;
    }
    Ok(())
}

/// The flit on a channel to or from an agent that was taken or sent.
fn add_channel<A: Allocator>(
    marks: &mut Vec<Mark, A>,
    line: Line,
    agent: Agent,
    channel: Channel,
    before: &Cells,
    after: &Cells,
) -> Result<(), NoMemory> {
    let cell = ChannelCell {
        line,
        agent,
        channel,
    };
    add_flit(marks, cell, before.get(channel), after.get(channel))
}

/// Whether the flit of a cell was taken or sent.
fn add_flit<A: Allocator>(
    marks: &mut Vec<Mark, A>,
    cell: ChannelCell,
    before: Option<Msg>,
    after: Option<Msg>,
) -> Result<(), NoMemory> {
    match (before, after) {
        (Some(_), None) => marks.push(Mark::Taken(cell))?,
        (None, Some(message)) => marks.push(Mark::Sent(cell, message))?,
        _ => {}
    }
    Ok(())
}
