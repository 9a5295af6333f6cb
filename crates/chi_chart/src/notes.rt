//! What is written of a command's answer.

use crate::drawn::add_escaped;
use crate::frame::Layout;
use crate::layout::words_x;
use chi_flit::{Agent, NoMemory, Step};
use chi_replay::Reply;
use chi_script::Command;
use std::alloc::Allocator;
use std::fmt;
use std::io::Write;

/// What stands before the answer of a command.
#[derive(Drop)]
struct Front(Command);

/// The same of a step.
#[derive(Drop)]
struct StepFront(Step);

impl fmt::Display for Front {
    fn fmt<W: fmt::Write>(&self, f: &mut fmt::Formatter<W>) -> fmt::Result {
        match self.0 {
            Command::Act(action) => {
                let step = StepFront(action.action().step);
                write!(f, "{step}")
            }
            _ => Ok(()),
        }
    }
}

impl fmt::Display for StepFront {
    fn fmt<W: fmt::Write>(&self, f: &mut fmt::Formatter<W>) -> fmt::Result {
        match self.0 {
            Step::Load(word) => write!(f, "load {word}: "),
            Step::Store(word, value) => write!(f, "store {word}: {value}"),
            _ => Ok(()),
        }
    }
}

/// The words of an answer that aren't written.
fn ok_words(reply: &Reply) -> &'static [u8] {
    match reply {
        Reply::Done => b"ok",
        Reply::Value(_) => b"ok value ",
        Reply::Refused(_) => b"",
        _ => b"ok ",
    }
}

/// The words of an answer that are written.
fn words_in<'a>(reply: &Reply, answer: &'a [u8]) -> &'a [u8] {
    let front = ok_words(reply).len().min(answer.len());
    &answer[front..]
}

/// The agent whose command it is.
fn agent_of(command: Command) -> Option<Agent> {
    match command {
        Command::Totals | Command::Audit | Command::Show { .. } => None,
        Command::Flits { agent, .. }
        | Command::Arrive { agent, .. }
        | Command::See { agent }
        | Command::GiveBack { agent, .. }
        | Command::Tend { agent, .. } => Some(agent),
        Command::Act(action) => Some(action.action().agent),
    }
}

/// Beside an agent, or else beside the home: where it is no agent's, or there is no such agent.
fn beside(layout: &Layout, agent: Option<Agent>) -> u64 {
    let Some(agent) = agent else {
        return layout.home_words_x();
    };
    if agent.0 < layout.agents {
        words_x(agent)
    } else {
        layout.home_words_x()
    }
}

/// Beside the agent whose command it is, where it has a lifeline.
fn asker_x(layout: &Layout, command: Command) -> u64 {
    beside(layout, agent_of(command))
}

/// Where it is told that a step is done, if it is.
fn store_x(agent: Agent, step: Step) -> Option<u64> {
    match step {
        Step::Store(..) => Some(words_x(agent)),
        _ => None,
    }
}

/// Where it is told that a command is done, if it is.
fn done_x(command: Command) -> Option<u64> {
    match command {
        Command::Act(action) => {
            let action = action.action();
            store_x(action.agent, action.step)
        }
        _ => None,
    }
}

/// Where a reply is told, if it is.
fn note_x(layout: &Layout, command: Command, reply: &Reply) -> Option<u64> {
    match reply {
        Reply::Done => done_x(command),
        Reply::Totals(_) | Reply::Line(_) | Reply::Flits(..) => None,
        Reply::Value(_) | Reply::Credits(_) | Reply::Refused(_) => Some(asker_x(layout, command)),
        _ => Some(layout.home_words_x()),
    }
}

/// Puts behind the text what stands before words of this class.
fn add_words_tag<A: Allocator>(
    text: &mut Vec<u8, A>,
    class: &str,
    x: u64,
    y: u64,
    front: &Front,
) -> Result<(), NoMemory> {
    write!(text, "<text class='{class}' x='{x}' y='{y}'>{front}").map_err(|_| NoMemory)
}

/// Puts words of this class behind the text.
fn add_words<A: Allocator>(
    text: &mut Vec<u8, A>,
    class: &str,
    x: u64,
    y: u64,
    front: &Front,
    words: &[u8],
) -> Result<(), NoMemory> {
    add_words_tag(text, class, x, y, front)?;
    add_escaped(text, words)?;
    text.extend_from_slice(b"</text>\n")?;
    Ok(())
}

/// Puts what is told of a command's answer behind the text, so many pixels below the top.
pub(crate) fn add_note<A: Allocator>(
    text: &mut Vec<u8, A>,
    layout: &Layout,
    y: u64,
    command: &Command,
    reply: &Reply,
    answer: &[u8],
) -> Result<(), NoMemory> {
    let words = words_in(reply, answer);
    match (note_x(layout, *command, reply), reply.refusal()) {
        (None, _) => Ok(()),
        (Some(x), None) => add_words(text, "answer", x, y, &Front(*command), words),
        (Some(x), Some(_)) => add_words(text, "refused", x, y, &Front(Command::Totals), words),
    }
}
