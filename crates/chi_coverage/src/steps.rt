//! A step of a run: a command, its answer, and what stood there.

use chi_flit::{Agent, Channel, Config, Kind, Line, Msg, State, Step as ActionStep, credit_type};
use chi_replay::Reply;
use chi_script::{Command, Verb};
use chi_slice::{Cells, LineView, Pending, Serving};

/// A command, its answer, and what stood there: at line 0, where the one that it names isn't there.
/// Source: `docs/FORMATS.md`, "Coverage".
#[derive(Drop)]
pub(crate) struct Step<'a> {
    pub(crate) config: &'a Config,
    pub(crate) command: Command,
    pub(crate) reply: &'a Reply,
    /// The agent and the line that it names; 0 where it names none.
    pub(crate) agent: Agent,
    pub(crate) line: Line,
    /// What stood of both before it, and the line after it.
    pub(crate) scene: Scene,
    pub(crate) after: &'a LineView,
    /// Whether the journal of the line's slice is full, and has a store, and whether that of some slice has room.
    pub(crate) is_full: bool,
    pub(crate) has_store: bool,
    pub(crate) has_room: bool,
}

/// What stands of one agent and one line.
/// Source: `docs/PROTOCOL.md`, "One line".
#[derive(Clone, Copy)]
pub(crate) struct Scene {
    /// The agent's copy, its pending request, and the flits to and from it.
    pub(crate) state: State,
    pub(crate) pending: Option<Pending>,
    pub(crate) flits: Cells,
    /// Whether the filter names the agent, and some other one; its flag; whether its owner is the agent, or another one.
    pub(crate) named: bool,
    pub(crate) others: bool,
    pub(crate) unique: bool,
    pub(crate) owns: bool,
    pub(crate) other_owns: bool,
    /// What the home does at the line, and whether it awaits the answer of some other agent.
    pub(crate) serving: Serving,
    pub(crate) awaits_others: bool,
}

impl Step<'_> {
    pub(crate) fn verb(&self) -> Verb {
        self.command.verb()
    }

    /// The kind of an `issue`, or else of the request that is pending there.
    pub(crate) fn kind(&self) -> Option<Kind> {
        if let Command::Act(action) = self.command
            && let ActionStep::Issue(kind, _) = action.action().step
        {
            return Some(kind);
        }
        self.scene.pending.map(|pending| pending.kind)
    }

    /// The number of the credit type of a `giveback`, or else of that kind; 4 where there is none.
    pub(crate) fn credit(&self) -> usize {
        let credit = match self.command {
            Command::GiveBack { credit, .. } => credit,
            _ => self
                .kind()
                .map(|kind| credit_type(self.config.profile(), kind)),
        };
        credit.map_or(4, |credit| usize::from(credit.number()))
    }
}

impl Scene {
    /// Whether a second attempt is in flight.
    pub(crate) fn is_resent(&self) -> bool {
        self.flits.req.is_some_and(|request| !request.allow_retry)
    }

    /// The kind of the request that is served, as long as it isn't completed.
    pub(crate) fn served(&self) -> Option<Kind> {
        match self.serving {
            Serving::Snooping { kind, .. } => Some(kind),
            Serving::AwaitingWriteData { kind, .. } => Some(kind),
            _ => None,
        }
    }

    /// The completion that was sent to the agent, and whose CompAck is awaited.
    pub(crate) fn completion(&self) -> Option<Msg> {
        let flits = &self.flits;
        match self.serving {
            Serving::AwaitingCompAck { .. } => first_of(flits, Channel::DatDown, Channel::RspDown),
            _ => None,
        }
    }
}

/// The message in flight on one channel, or else on the other.
pub(crate) fn first_of(flits: &Cells, one: Channel, other: Channel) -> Option<Msg> {
    flits.get(one).or(flits.get(other))
}

/// The agent and the line that a command names; 0 where it names none.
pub(crate) fn named_by(command: Command) -> (Agent, Line) {
    match command {
        Command::Totals | Command::Audit => (Agent(0), Line(0)),
        Command::Show { line } => (Agent(0), line),
        Command::See { agent } => (agent, Line(0)),
        Command::GiveBack { agent, .. } | Command::Tend { agent, .. } => (agent, Line(0)),
        Command::Flits { agent, line } | Command::Arrive { agent, line } => (agent, line),
        Command::Act(action) => (action.action().agent, action.action().line),
    }
}

/// What stands of an agent at a line.
pub(crate) fn scene_of(view: &LineView, agent: Agent) -> Scene {
    let place = usize::from(agent.0 % 8);
    let owns = view.owner == Some(agent);
    Scene {
        state: view.copies[place].state,
        pending: view.pending[place],
        flits: view.flits[place],
        named: view.named[place],
        others: any_other(&view.named, place),
        unique: view.unique,
        owns,
        other_owns: view.owner.is_some() && !owns,
        serving: view.serving,
        awaits_others: any_other(&view.awaited, place),
    }
}

/// Whether one at another place has a mark.
fn any_other(marks: &[bool; 8], place: usize) -> bool {
    marks
        .iter()
        .enumerate()
        .any(|(at, marked)| *marked && at != place)
}
