//! A node, and the text of the commands that were drawn for it so far.

use crate::operands::Operands;
use crate::plan::Plan;
use crate::proposals::{any_command, command_by};
use crate::words::{Lot, Words};
use chi_flit::{Agent, NoMemory};
use chi_node::System;
use chi_replay::{Reply, answer};
use chi_script::Command;
use chi_slice::Config;
use std::alloc::Allocator;

/// A node, and the text so far.
#[derive(Drop)]
pub(crate) struct Drawing<A: Allocator> {
    system: System<A>,
    words: Words,
    /// How many commands there are.
    count: u64,
    /// The header, and each command with its answer.
    text: String<A>,
    /// Whether a command was kept since this was last cleared.
    done: bool,
}

/// Whether a command isn't refused.
fn is_enabled(reply: &Reply) -> bool {
    reply.refusal().is_none()
}

/// A header and its line end.
fn header_line<A: Allocator>(alloc: A, header: &str) -> Result<String<A>, NoMemory> {
    let mut text = String::new(alloc);
    writeln!(text, "{header}")?;
    Ok(text)
}

impl<A: Allocator + Copy> Drawing<A> {
    /// A new node, and its header.
    pub(crate) fn new(
        alloc: A,
        header: &str,
        config: &Config,
        seed: u64,
    ) -> Result<Drawing<A>, NoMemory> {
        let system = System::new(alloc, config)?;
        let text = header_line(alloc, header)?;
        Ok(Drawing {
            system,
            words: Words::new(seed),
            count: 0,
            text,
            done: false,
        })
    }
}

impl<A: Allocator> Drawing<A> {
    /// The text so far.
    pub(crate) fn into_text(self) -> String<A> {
        self.text
    }

    /// Whether a command was kept since this was last cleared.
    pub(crate) fn is_done(&self) -> bool {
        self.done
    }

    /// Makes it so.
    pub(crate) fn set_done(&mut self, done: bool) {
        self.done = done;
    }

    /// How many commands there are.
    fn count(&self) -> u64 {
        self.count
    }

    /// The next word.
    fn word(&mut self) -> u32 {
        self.words.next()
    }

    /// The next five words.
    fn lot(&mut self) -> Lot {
        self.words.lot()
    }

    /// Does the command, and tells its reply.
    fn play(&mut self, command: &Command) -> Reply {
        answer(&mut self.system, *command)
    }

    /// Puts the command behind the text, with the reply that it was given.
    fn note(&mut self, command: &Command, reply: &Reply) -> Result<(), NoMemory> {
        write!(self.text, "{command} -> ")?;
        reply.print(&self.system, &mut self.text)?;
        self.count = self.count.wrapping_add(1);
        Ok(())
    }

    /// Does the command, which then stands in the text with its answer.
    pub(crate) fn keep(&mut self, command: &Command) -> Result<(), NoMemory> {
        let reply = self.play(command);
        self.note(command, &reply)
    }

    /// The same where it isn't refused, and then one was kept; else nothing.
    pub(crate) fn tries(&mut self, command: &Command) -> Result<(), NoMemory> {
        let reply = self.play(command);
        if !is_enabled(&reply) {
            return Ok(());
        }
        self.note(command, &reply)?;
        self.set_done(true);
        Ok(())
    }

    /// Puts a comment behind the text.
    pub(crate) fn remark(&mut self, comment: &str) -> Result<(), NoMemory> {
        writeln!(self.text, "{comment}")?;
        Ok(())
    }

    /// Puts so many commands behind the text.
    pub(crate) fn add_all(&mut self, plan: &Plan, commands: u64) -> Result<(), NoMemory> {
        for _ in 0..commands {
            self.add(plan)?;
        }
        Ok(())
    }

    /// Puts a command behind the text: any one, so many times in a hundred, and else one that is enabled.
    pub(crate) fn add(&mut self, plan: &Plan) -> Result<(), NoMemory> {
        if self.word() % 100 < u32::from(plan.wild) {
            self.add_any(plan)
        } else {
            self.add_enabled(plan)
        }
    }

    /// Puts any command behind the text.
    fn add_any(&mut self, plan: &Plan) -> Result<(), NoMemory> {
        let lot = self.lot();
        let count = self.count();
        self.keep(&any_command(plan, &lot, count))
    }

    /// Puts an enabled command behind the text: of a verb by weight, else of any that is drawn, else a look, which is
    /// never refused.
    fn add_enabled(&mut self, plan: &Plan) -> Result<(), NoMemory> {
        self.set_done(false);
        self.seek(plan, false)?;
        self.seek(plan, true)?;
        if self.is_done() {
            return Ok(());
        }
        self.keep(&Command::See { agent: Agent(0) })
    }

    /// Tries one proposal after the other, until one is kept.
    fn seek(&mut self, plan: &Plan, even: bool) -> Result<(), NoMemory> {
        for _ in 0..plan.tries {
            if self.is_done() {
                return Ok(());
            }
            self.propose(plan, even)?;
        }
        Ok(())
    }

    /// Tries one proposal: of a verb by weight, or of each verb with one chance.
    fn propose(&mut self, plan: &Plan, even: bool) -> Result<(), NoMemory> {
        let lot = self.lot();
        match plan.weights.verb_by(even, lot.verb) {
            None => Ok(()),
            Some(verb) => {
                let count = self.count();
                let operands = Operands::new(plan, &lot);
                self.tries(&command_by(verb, &operands, count))
            }
        }
    }
}
