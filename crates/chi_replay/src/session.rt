//! One command after the other, played on a node.

ghost use Rattle.std.specs.Prelude.{◌≡◌};
ghost use Rattle.chi_node.specs.Home.{node_view_refusal};
ghost use Rattle.chi_script.specs.declared.commands.Command.TheVariants as commands;
ghost use Rattle.chi_replay.specs.Session.{PlaysTurn, TellsTurn};

use crate::credits::SeenCredits;
use crate::listener::{Heard, Listener};
use crate::node_replies::{arrival_reply, give_back_reply, step_reply, tend_reply};
use crate::replies::Reply;
use crate::totals::NodeTotals;
use chi_flit::{Agent, CreditType, Line, NoMemory, Refusal};
use chi_node::System;
use chi_script::Command;
use std::alloc::Allocator;

/// Does what a command says, and answers what came of it.
/// Source: `docs/FORMATS.md`, "Replay files".
pub fn answer<A: Allocator>(system: &mut System<A>, command: Command) -> Reply
    ensures { PlaysTurn command system.old system.new result }
{
    let mut heard = Heard(Reply::Done);
    let Ok(()) = play(system, command, &mut heard) else {
        unreachable!();
    };
    heard.0
}

/// Does what a command says, and tells the listener what came of it. Refused where the listener refuses
/// what it is told.
#[inline(always)]
pub(crate) fn play<A: Allocator, L: Listener>(
    system: &mut System<A>,
    command: Command,
    listener: &mut L,
) -> Result<(), NoMemory>
    ensures { TellsTurn command system.old system.new
        (λ reply. L.hears listener.old system.new.home reply listener.new result) }
{
    // What is asked for seldom isn't inlined, so that this frame stays small.
    match command {
        Command::Totals => totals(system, listener),
        Command::Audit => audit(system, listener),
        Command::Show { line } => shown_line(system, line, listener),
        Command::Flits { agent, line } => shown_flits(system, agent, line, listener),
        Command::See { agent } => see(system, agent, listener),
        Command::Arrive { agent, line } => {
            let arrived = system.arrive(agent, line);
            listener.hear(system, arrival_reply(arrived))
        }
        Command::GiveBack { agent, credit } => give_back(system, agent, credit, listener),
        Command::Tend { agent, credit } => tend(system, agent, credit, listener),
        Command::Act(action) => {
            let stepped = system.step(action.action());
            listener.hear(system, step_reply(stepped))
        }
    }
}

/// The numbers of entries and of owed credits.
#[inline(never)]
fn totals<A: Allocator, L: Listener>(system: &System<A>, listener: &mut L) -> Result<(), NoMemory>
    ensures { TellsTurn commands.Totals system.now system.now
        (λ reply. L.hears listener.old system.now.home reply listener.new result) }
{
    let counts = system.glance();
    let profile = system.config().profile();
    listener.hear_totals(system, &NodeTotals { counts, profile })
}

/// The loads and stores, and whether all is coherent: the headline of the node is asked for.
#[inline(never)]
fn audit<A: Allocator, L: Listener>(
    system: &mut System<A>,
    listener: &mut L,
) -> Result<(), NoMemory>
    ensures { TellsTurn commands.Audit system.old system.new
        (λ reply. L.hears listener.old system.new.home reply listener.new result) }
{
    let found = system.headline();
    listener.hear(system, Reply::Audit(found))
}

/// Why the line isn't there, where it isn't.
fn line_refusal<A: Allocator>(system: &System<A>, line: Line) -> Option<Refusal>
    ensures { result ≡ node_view_refusal system.now.home line.0 }
{
    if system.slice_of(line).has_line(line) {
        None
    } else {
        Some(Refusal::OutOfRange)
    }
}

/// Whether the line is there.
#[inline(never)]
fn shown_line<A: Allocator, L: Listener>(
    system: &System<A>,
    line: Line,
    listener: &mut L,
) -> Result<(), NoMemory>
    ensures { TellsTurn (commands.Show line) system.now system.now
        (λ reply. L.hears listener.old system.now.home reply listener.new result) }
{
    match line_refusal(system, line) {
        None => listener.hear(system, Reply::Line(line)),
        Some(refusal) => listener.hear(system, Reply::Refused(refusal)),
    }
}

/// Whether the agent and the line are there.
#[inline(never)]
fn shown_flits<A: Allocator, L: Listener>(
    system: &System<A>,
    agent: Agent,
    line: Line,
    listener: &mut L,
) -> Result<(), NoMemory>
    ensures { TellsTurn (commands.Flits agent line) system.now system.now
        (λ reply. L.hears listener.old system.now.home reply listener.new result) }
{
    match system.slice_of(line).row_for(agent, line) {
        Ok(_) => listener.hear(system, Reply::Flits(agent, line)),
        Err(refusal) => listener.hear(system, Reply::Refused(refusal)),
    }
}

/// The agent looks at its promises: its seen credits by type.
#[inline(always)]
fn see<A: Allocator, L: Listener>(
    system: &mut System<A>,
    agent: Agent,
    listener: &mut L,
) -> Result<(), NoMemory>
    ensures { TellsTurn (commands.See agent) system.old system.new
        (λ reply. L.hears listener.old system.new.home reply listener.new result) }
{
    let profile = system.config().profile();
    match system.see(agent) {
        Ok(counts) => listener.hear_credits(system, SeenCredits { counts, profile }),
        Err(refusal) => listener.hear(system, Reply::Refused(refusal)),
    }
}

/// The agent gives a credit of the type back.
#[inline(never)]
fn give_back<A: Allocator, L: Listener>(
    system: &mut System<A>,
    agent: Agent,
    credit: Option<CreditType>,
    listener: &mut L,
) -> Result<(), NoMemory>
    ensures { TellsTurn (commands.GiveBack agent credit) system.old system.new
        (λ reply. L.hears listener.old system.new.home reply listener.new result) }
{
    let given = system.give_back(agent, credit);
    listener.hear(system, give_back_reply(given))
}

/// The agent tends the type.
#[inline(never)]
fn tend<A: Allocator, L: Listener>(
    system: &mut System<A>,
    agent: Agent,
    credit: Option<CreditType>,
    listener: &mut L,
) -> Result<(), NoMemory>
    ensures { TellsTurn (commands.Tend agent credit) system.old system.new
        (λ reply. L.hears listener.old system.new.home reply listener.new result) }
{
    let tended = system.tend(agent, credit);
    listener.hear(system, tend_reply(tended))
}
