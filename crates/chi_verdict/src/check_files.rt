//! The explanation of a line as a check file. Its items are those that chi_explain has done; no clause says how they are
//! written: that each check file holds is tested.

use crate::ballast::{Ballast, write_beginning, write_end};
use crate::names::{LineName, NodeName, SeenName, kept, requester_of};
use crate::readings::is_access;
use chi_explain::{Observed, WitnessItem};
use chi_flit::{Action, Agent, Data, Line, NO_DATA, NoMemory, Profile, Step};
use chi_monitor::{Known, Witness};
use chi_resolution::{CacheLine, Resolved};
use chi_script::{Command, RequesterAction};
use chi_trace::{NodeId, Seen};
use std::alloc::Allocator;
use std::fmt::Write;

/// What a check file tells of a line: its flits in the trace, and what explains them.
#[derive(Clone, Copy)]
pub(crate) struct Told<'a> {
    pub seen: &'a [Seen],
    pub requesters: &'a [NodeId],
    pub home: Option<NodeId>,
    pub profile: Profile,
    pub line: CacheLine,
    /// The items of the line that are explained.
    pub items: &'a [Resolved],
}

impl Told<'_> {
    /// Puts the check file behind the text: the explanation that was found, in the protocol's commands, with the
    /// flits of the trace as comments.
    pub fn write<A: Allocator>(
        &self,
        text: &mut String<A>,
        witness: &Witness<A>,
    ) -> Result<(), NoMemory> {
        self.write_nodes(text)?;
        let agents = self.requesters.len().clamp(1, 8) as u8;
        let mut ballast = Ballast::new(self.profile, agents, &witness.items);
        ballast.write_header(text)?;
        write_memory(text, &witness.memory)?;
        let mut done = 0;
        for (item, end) in self.items.iter().zip(&witness.ends) {
            self.write_flit(text, item)?;
            let end = (*end).min(witness.items.len());
            if done < end {
                write_items(text, &mut ballast, &witness.items[done..end])?;
                done = end;
            }
        }
        Ok(())
    }

    /// The nodes and the address, as comments.
    fn write_nodes<A: Allocator>(&self, text: &mut String<A>) -> Result<(), NoMemory> {
        let line = LineName(self.line);
        kept(writeln!(text, "# line 0 is the cache line at {line}"))?;
        for (number, node) in self.requesters.iter().enumerate() {
            let node = NodeName(*node);
            kept(writeln!(text, "# agent {number} is node {node}"))?;
        }
        if let Some(node) = self.home {
            let node = NodeName(node);
            kept(writeln!(text, "# the home is node {node}"))?;
        }
        Ok(())
    }

    /// A flit of the trace, as a comment.
    fn write_flit<A: Allocator>(
        &self,
        text: &mut String<A>,
        item: &Resolved,
    ) -> Result<(), NoMemory> {
        let Some(seen) = self.seen.get(item.at) else {
            return Ok(());
        };
        let (node, side) = requester_of(seen);
        let (number, name, node) = (seen.line, SeenName(seen), NodeName(node));
        match item.flit {
            Observed::Flit(_) if is_access(&seen.flit) => {
                kept(writeln!(
                    text,
                    "# behind the trace: CompAck of node {node}, for line {number}"
                ))
            }
            _ => kept(writeln!(text, "# line {number}: {name} {side} node {node}")),
        }
    }
}

/// The steps after which memory has these words.
fn write_memory<A: Allocator>(text: &mut String<A>, memory: &Data) -> Result<(), NoMemory> {
    if *memory == NO_DATA {
        return Ok(());
    }
    let words = Known(memory.map(|word| Some(word)));
    kept(writeln!(text, "# memory has {words} at first"))?;
    write_beginning(text)?;
    kept(writeln!(
        text,
        "issue 0 0 ReadUnique 0\narrive 0 0\nstart 0 0\ndata 0 0\nack 0 0"
    ))?;
    for (number, word) in memory.iter().enumerate() {
        kept(writeln!(text, "store 0 0 {number} {word}"))?;
    }
    kept(writeln!(
        text,
        "issue 0 0 WriteBackFull 0\narrive 0 0\nstart 0 0\ndbid 0 0\nwrdata 0 0"
    ))?;
    write_end(text)
}

/// Puts the commands of some items behind the text.
fn write_items<A: Allocator>(
    text: &mut String<A>,
    ballast: &mut Ballast,
    items: &[WitnessItem],
) -> Result<(), NoMemory> {
    for item in items {
        match *item {
            WitnessItem::Act(agent, step) => write_act(text, ballast, agent, step)?,
            WitnessItem::Load(agent, word, value) => {
                let command = command_of(agent, Step::Load(word));
                kept(writeln!(text, "{command} -> ok value {value}"))?;
            }
            WitnessItem::Store(agent, word, value) => {
                write_step(text, ballast, agent, Step::Store(word, value))?;
            }
            WitnessItem::Snoop(_) => {}
        }
    }
    Ok(())
}

/// Puts the command of an agent's step behind the text, and what has to be done for the tracker.
fn write_act<A: Allocator>(
    text: &mut String<A>,
    ballast: &mut Ballast,
    agent: Agent,
    step: Step,
) -> Result<(), NoMemory> {
    write_before(text, ballast, agent, step)?;
    write_step(text, ballast, agent, step)?;
    ballast.note(agent, step);
    write_after(text, ballast, agent, step)
}

/// What has to be done for the tracker before a step.
fn write_before<A: Allocator>(
    text: &mut String<A>,
    ballast: &mut Ballast,
    agent: Agent,
    step: Step,
) -> Result<(), NoMemory> {
    match step {
        Step::Admit => ballast.write_room(text, agent),
        Step::Retry => ballast.write_full(text, agent),
        _ => Ok(()),
    }
}

/// What has to be done for the tracker after a step.
fn write_after<A: Allocator>(
    text: &mut String<A>,
    ballast: &mut Ballast,
    agent: Agent,
    step: Step,
) -> Result<(), NoMemory> {
    match step {
        Step::RecvRetry => ballast.write_grant(text, agent),
        Step::Cancel => ballast.write_return(text, agent),
        _ => Ok(()),
    }
}

/// The command of a step at line 0.
fn command_of(agent: Agent, step: Step) -> Command {
    let line = Line(0);
    match step {
        Step::Admit => Command::Arrive { agent, line },
        Step::Retry => Command::Arrive { agent, line },
        step => Command::Act(RequesterAction::new(Action { agent, line, step })),
    }
}

/// The command of a step, with its answer where that is known.
fn write_step<A: Allocator>(
    text: &mut String<A>,
    ballast: &Ballast,
    agent: Agent,
    step: Step,
) -> Result<(), NoMemory> {
    let command = command_of(agent, step);
    kept(match step {
        Step::Load(_) | Step::Admit | Step::Start | Step::RecvAck | Step::RecvWrData => {
            writeln!(text, "{command}")
        }
        Step::Retry => {
            let ty = ballast.type_of(agent);
            writeln!(text, "{command} -> ok retry {ty}")
        }
        _ => writeln!(text, "{command} -> ok"),
    })
}
