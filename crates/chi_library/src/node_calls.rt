//! The calls on a node, for C.

ghost use Rattle.std.specs.Prelude.{◌≡◌, IfOk, None, Some};
ghost use Rattle.chi_flit.specs.Numbers.{agent_at, credit_of, line_at};
ghost use Rattle.chi_library.specs.Actions.{no_effect};
ghost use Rattle.chi_library.specs.Calls.{IsOpeningCall, answer_number, output_of};
ghost use Rattle.chi_library.specs.Flits.{no_flits_told};
ghost use Rattle.chi_library.specs.Lines.{no_line_told};
ghost use Rattle.chi_library.specs.Numbers.{number_if};
ghost use Rattle.chi_library.specs.NodeCalls.{ArrivalCall, CalledOn, ReturnCall, IsAuditOf, IsOwnAction, IsTotalsOf, IsUntold, LookCall, OpensNode, StepCall, TendCall, no_arrival, no_credits_told, no_release, node_flits_told, node_show_told, node_step_refusal, own_of};
ghost use Rattle.chi_library.specs.Sizes.{config_of};
ghost use Rattle.chi_node.specs.Calls.{is_own_step};
ghost use Rattle.chi_node.specs.Home.{node_flits_refusal, node_view_refusal};
ghost use Rattle.chi_node.specs.Outstanding.{see_refusal};
ghost use Rattle.chi_node.specs.System.{arrive_refusal, give_back_refusal_in, tend_refusal_in};

use crate::actions::{ChiAction, ChiEffect, action_at, tell_effect};
use crate::answers::{ALREADY_OPEN, CLOSED, DONE, NO_MEMORY, NOT_OPEN, OUT_OF_RANGE};
use crate::flits::{ChiFlits, flits_told};
use crate::lines::{ChiLine, line_told};
use crate::node_handle::ChiNode;
use crate::node_told::{
    ChiArrival, ChiAudit, ChiCredits, ChiRelease, ChiTotals, arrival_told, release_if,
    release_told, totals_told,
};
use crate::numbers::flag_number;
use crate::sizes::{ChiConfig, config_at};
use chi_flit::{Action, Agent, CreditType, Line, NoMemory, Step};
use chi_node::System;
use chi_slice::Config;
use std::alloc::Global;

/// Opens a node of these sizes, in its opening state. All memory that it ever needs is taken here.
///
/// Answers 0; 254 where the handle is open already, which stays as it is; 10 where a size is outside its
/// limits; 8 where memory runs out. After 10 and 8 the handle is closed.
/// Source: `docs/LIBRARY.md`, "A node".
#[unsafe(no_mangle)]
pub extern "C" fn chi_node_open(alloc: Global, node: &mut ChiNode, config: &ChiConfig) -> u8
    ensures { IsOpeningCall OpensNode (config_of config.now) node.old.value result node.new.value }
{
    if let Some(held) = node.take(alloc) {
        node.put(held);
        return ALREADY_OPEN;
    }
    match config_at(config) {
        Some(config) => open(alloc, node, &config),
        None => OUT_OF_RANGE,
    }
}

/// The agent's request that is in flight at the line arrives at the home.
///
/// Answers 0; 10 where the agent or the line is outside the node; 7 where no request of the agent is in
/// flight there. Nothing changes then, and all numbers of `arrival` are 0. Answers 255 of a closed handle.
/// Source: `docs/PROTOCOL.md`, "A requester and its calls", Arrival; `docs/LIBRARY.md`, "A node".
#[unsafe(no_mangle)]
pub extern "C" fn chi_node_arrive(
    alloc: Global,
    node: &mut ChiNode,
    agent: u8,
    line: u8,
    arrival: &mut ChiArrival,
) -> u8
    ensures answer { result ≡ answer_number node.old.value (λ y. arrive_refusal y agent line) }
    ensures call { CalledOn node.old.value node.new.value
        (ArrivalCall (agent_at agent) (line_at line) arrival.new) }
    ensures closed { node.old.value ≡ None → arrival.new ≡ no_arrival }
{
    *arrival = ChiArrival::NONE;
    match node.take(alloc) {
        Some(mut held) => {
            let answer = arrive(&mut held, Agent(agent), Line(line), arrival);
            node.put(held);
            answer
        }
        None => CLOSED,
    }
}

/// The agent does an action other than Admit and Retry, which are an arrival's.
///
/// Answers 0 where it is done, and the number of its refusal else, 10 also where a number names no step or
/// no kind of request, or an arrival's step. Nothing changes then, and all numbers of `effect` and `release`
/// are 0. Answers 255 of a closed handle.
/// Source: `docs/PROTOCOL.md`, "The actions" and "A requester and its calls"; `docs/LIBRARY.md`, "A node".
#[unsafe(no_mangle)]
pub extern "C" fn chi_node_step(
    alloc: Global,
    node: &mut ChiNode,
    action: &ChiAction,
    effect: &mut ChiEffect,
    release: &mut ChiRelease,
) -> u8
    ensures answer { result ≡ answer_number node.old.value (node_step_refusal (own_of action.now)) }
    ensures call { CalledOn node.old.value node.new.value
        (StepCall (own_of action.now) effect.new release.new) }
    ensures closed { node.old.value ≡ None → IsUntold effect.new release.new }
{
    step_on(alloc, node, own_action_at(action), effect, release)
}

/// The agent looks at what is promised to it, and is told the seen credits by type.
///
/// Answers 0, or 10 where the agent is none of the node's; nothing changes then, and all numbers of `credits`
/// are 0. Answers 255 of a closed handle.
/// Source: `docs/PROTOCOL.md`, "A requester and its calls", see; `docs/LIBRARY.md`, "A node".
#[unsafe(no_mangle)]
pub extern "C" fn chi_node_see(
    alloc: Global,
    node: &mut ChiNode,
    agent: u8,
    credits: &mut ChiCredits,
) -> u8
    ensures answer { result ≡ answer_number node.old.value (λ y. see_refusal y.home agent) }
    ensures call { CalledOn node.old.value node.new.value (LookCall (agent_at agent) credits.new) }
    ensures closed { node.old.value ≡ None → credits.new ≡ no_credits_told }
{
    *credits = ChiCredits::NONE;
    match node.take(alloc) {
        Some(mut held) => {
            let answer = see(&mut held, Agent(agent), credits);
            node.put(held);
            answer
        }
        None => CLOSED,
    }
}

/// The agent's lowest Cancelled slot of the type becomes Idle, and its lowest seen credit of the type is
/// given back.
///
/// Answers 0; 10 where the agent is none of the node's, or the type none of the profile's; 12 where there is
/// no such slot or no such credit. Nothing changes then, and all numbers of `release` are 0. Answers 255 of a
/// closed handle.
/// Source: `docs/PROTOCOL.md`, "A requester and its calls", give back; `docs/LIBRARY.md`, "A node".
#[unsafe(no_mangle)]
pub extern "C" fn chi_node_give_back(
    alloc: Global,
    node: &mut ChiNode,
    agent: u8,
    credit: u8,
    release: &mut ChiRelease,
) -> u8
    ensures answer { result
        ≡ answer_number node.old.value (λ y. give_back_refusal_in y agent (credit_of credit)) }
    ensures call { CalledOn node.old.value node.new.value
        (ReturnCall (agent_at agent) (credit_of credit) release.new) }
    ensures closed { node.old.value ≡ None → release.new ≡ no_release }
{
    *release = ChiRelease::NONE;
    match node.take(alloc) {
        Some(mut held) => {
            let answer = give_back(
                &mut held,
                Agent(agent),
                CreditType::numbered(credit),
                release,
            );
            node.put(held);
            answer
        }
        None => CLOSED,
    }
}

/// Where a requester shows an owed credit of the type, the agent claims an entry of the type and releases it.
///
/// Answers 0, also where nothing was released; 10 where the agent is none of the node's, or the type none of
/// the profile's. Nothing changes then, and all numbers of `release` are 0. Answers 255 of a closed handle.
/// Source: `docs/PROTOCOL.md`, "A requester and its calls", tend; `docs/LIBRARY.md`, "A node".
#[unsafe(no_mangle)]
pub extern "C" fn chi_node_tend(
    alloc: Global,
    node: &mut ChiNode,
    agent: u8,
    credit: u8,
    release: &mut ChiRelease,
) -> u8
    ensures answer { result
        ≡ answer_number node.old.value (λ y. tend_refusal_in y agent (credit_of credit)) }
    ensures call { CalledOn node.old.value node.new.value
        (TendCall (agent_at agent) (credit_of credit) release.new) }
    ensures closed { node.old.value ≡ None → release.new ≡ no_release }
{
    *release = ChiRelease::NONE;
    match node.take(alloc) {
        Some(mut held) => {
            let answer = tend(
                &mut held,
                Agent(agent),
                CreditType::numbered(credit),
                release,
            );
            node.put(held);
            answer
        }
        None => CLOSED,
    }
}

/// All parts of a line but its flits.
///
/// Answers 10 where the line is outside the node; all numbers of `shown` are 0 then. Answers 255 of a closed
/// handle. Nothing changes.
/// Source: `docs/PROTOCOL.md`, "One line"; `docs/LIBRARY.md`, "A node".
#[unsafe(no_mangle)]
pub extern "C" fn chi_node_show(
    alloc: Global,
    node: &mut ChiNode,
    line: u8,
    shown: &mut ChiLine,
) -> u8
    ensures answer { result ≡ answer_number node.old.value (λ y. node_view_refusal y.home line) }
    ensures after { node.new.value ≡ node.old.value }
    ensures shown { shown.new ≡ output_of node.old.value no_line_told (node_show_told line) }
{
    *shown = ChiLine::NONE;
    match node.take(alloc) {
        Some(held) => {
            let answer = show(&held, Line(line), shown);
            node.put(held);
            answer
        }
        None => CLOSED,
    }
}

/// What is in flight between an agent and the home for a line, by channel.
///
/// Answers 10 where the agent or the line is outside the node; all numbers of `flits` are 0 then. Answers 255
/// of a closed handle. Nothing changes.
/// Source: `docs/PROTOCOL.md`, "Messages"; `docs/LIBRARY.md`, "A node".
#[unsafe(no_mangle)]
pub extern "C" fn chi_node_flits(
    alloc: Global,
    node: &mut ChiNode,
    agent: u8,
    line: u8,
    flits: &mut ChiFlits,
) -> u8
    ensures answer { result
        ≡ answer_number node.old.value (λ y. node_flits_refusal y.home agent line) }
    ensures after { node.new.value ≡ node.old.value }
    ensures flits { flits.new
        ≡ output_of node.old.value no_flits_told (node_flits_told agent line) }
{
    *flits = ChiFlits::NONE;
    match node.take(alloc) {
        Some(held) => {
            let answer = show_flits(&held, Agent(agent), Line(line), flits);
            node.put(held);
            answer
        }
        None => CLOSED,
    }
}

/// How many entries of each type are free, in hand and promised, and how many credits are owed, as the
/// tracker's words show it. The numbers of a closed handle are 0.
///
/// Answers 0, or 255 of a closed handle. Nothing changes.
/// Source: `docs/PROTOCOL.md`, "Totals"; `docs/LIBRARY.md`, "A node".
#[unsafe(no_mangle)]
pub extern "C" fn chi_node_totals(alloc: Global, node: &mut ChiNode, totals: &mut ChiTotals) -> u8
    ensures answer { result ≡ answer_number node.old.value (λ y. None) }
    ensures after { node.new.value ≡ node.old.value }
    ensures totals { IsTotalsOf node.old.value totals.new }
{
    *totals = ChiTotals::NONE;
    match node.take(alloc) {
        Some(held) => {
            let counts = held.glance();
            *totals = totals_told(counts);
            node.put(held);
            DONE
        }
        None => CLOSED,
    }
}

/// Whether each requester agrees with each slice, as always.
///
/// Answers 0, and 11 would say otherwise; answers 255 of a closed handle. Nothing changes.
/// Source: `docs/PROTOCOL.md`, "Agreement"; `docs/LIBRARY.md`, "A node".
#[unsafe(no_mangle)]
pub extern "C" fn chi_node_agrees(alloc: Global, node: &mut ChiNode) -> u8
    ensures answer { result ≡ answer_number node.old.value (λ y. None) }
    ensures after { node.new.value ≡ node.old.value }
{
    match node.take(alloc) {
        Some(held) => {
            let agrees = held.agrees();
            node.put(held);
            if agrees { DONE } else { NOT_OPEN }
        }
        None => CLOSED,
    }
}

/// The loads and stores of all slices, and whether each is coherent, as always. The numbers of a closed handle
/// are 0.
///
/// Answers 0, or 255 of a closed handle. Nothing changes.
/// Source: `docs/FORMATS.md`, "Replay files"; `docs/LIBRARY.md`, "A node".
#[unsafe(no_mangle)]
pub extern "C" fn chi_node_audit(alloc: Global, node: &mut ChiNode, audit: &mut ChiAudit) -> u8
    ensures answer { result ≡ answer_number node.old.value (λ y. None) }
    ensures after { node.new.value ≡ node.old.value }
    ensures audit { IsAuditOf node.old.value audit.new }
{
    *audit = ChiAudit::NONE;
    match node.take(alloc) {
        Some(held) => {
            let found = held.audit();
            *audit = ChiAudit {
                loads: found.loads,
                stores: found.stores,
                coherent: flag_number(found.coherent),
            };
            node.put(held);
            DONE
        }
        None => CLOSED,
    }
}

/// Closes the handle and frees the node.
///
/// Answers 0, or 255 of a closed handle.
/// Source: `docs/LIBRARY.md`, "Handles".
#[unsafe(no_mangle)]
pub extern "C" fn chi_node_close(alloc: Global, node: &mut ChiNode) -> u8
    ensures answer { result ≡ answer_number node.old.value (λ y. None) }
    ensures after { node.new.value ≡ None }
{
    match node.take(alloc) {
        Some(_) => DONE,
        None => CLOSED,
    }
}

/// Opens a closed handle.
fn open(alloc: Global, node: &mut ChiNode, config: &Config) -> u8
    requires closed { node.old.value ≡ None }
    ensures { IsOpeningCall OpensNode (Some config.now) None result node.new.value }
{
    match boxed_node(alloc, config) {
        Ok(held) => {
            node.put(held);
            DONE
        }
        Err(_) => NO_MEMORY,
    }
}

/// A new node on the heap.
fn boxed_node(alloc: Global, config: &Config) -> Result<Box<System<Global>>, NoMemory>
    ensures { IfOk result (λ held. OpensNode config.now held.value) }
{
    let node = System::new(alloc, config)?;
    Ok(Box::new(alloc, node)?)
}

/// A request arrives.
fn arrive(node: &mut System<Global>, agent: Agent, line: Line, arrival: &mut ChiArrival) -> u8
    requires { arrival.old ≡ no_arrival }
    ensures answer { result ≡ number_if (arrive_refusal node.old agent.0 line.0) }
    ensures call { ArrivalCall agent line arrival.new node.old node.new }
{
    match node.arrive(agent, line) {
        Ok(arrived) => {
            *arrival = arrival_told(arrived);
            DONE
        }
        Err(refusal) => refusal.number(),
    }
}

/// Whether a step is none of an arrival's.
fn is_own_step(step: Step) -> bool
    ensures { result ≡ is_own_step step }
{
    !matches!(step, Step::Admit | Step::Retry)
}

/// The action of a requester's own that C's numbers name.
pub(crate) fn own_action_at(action: &ChiAction) -> Option<Action>
    ensures action { result ≡ own_of action.now }
    ensures own { IsOwnAction result }
{
    let action = action_at(action)?;
    if is_own_step(action.step) {
        Some(action)
    } else {
        None
    }
}

/// An agent of the handle's node does an action of its own; `None` is one that C's numbers don't name.
fn step_on(
    alloc: Global,
    node: &mut ChiNode,
    own: Option<Action>,
    effect: &mut ChiEffect,
    release: &mut ChiRelease,
) -> u8
    requires { IsOwnAction own }
    ensures answer { result ≡ answer_number node.old.value (node_step_refusal own) }
    ensures call { CalledOn node.old.value node.new.value (StepCall own effect.new release.new) }
    ensures closed { node.old.value ≡ None → IsUntold effect.new release.new }
{
    *effect = ChiEffect::NONE;
    *release = ChiRelease::NONE;
    match node.take(alloc) {
        Some(mut held) => {
            let answer = step(&mut held, own, effect, release);
            node.put(held);
            answer
        }
        None => CLOSED,
    }
}

/// An agent does an action of its own.
fn step(
    node: &mut System<Global>,
    own: Option<Action>,
    effect: &mut ChiEffect,
    release: &mut ChiRelease,
) -> u8
    requires effect { effect.old ≡ no_effect }
    requires release { release.old ≡ no_release }
    requires own { IsOwnAction own }
    ensures answer { result ≡ number_if (node_step_refusal own node.old) }
    ensures call { StepCall own effect.new release.new node.old node.new }
{
    let Some(action) = own else {
        return OUT_OF_RANGE;
    };
    match node.step(action) {
        Ok(stepped) => {
            tell_effect(effect, stepped.effect);
            *release = release_if(stepped.released);
            DONE
        }
        Err(refusal) => refusal.number(),
    }
}

/// An agent looks at its promises.
fn see(node: &mut System<Global>, agent: Agent, credits: &mut ChiCredits) -> u8
    requires { credits.old ≡ no_credits_told }
    ensures answer { result ≡ number_if (see_refusal node.old.home agent.0) }
    ensures call { LookCall agent credits.new node.old node.new }
{
    match node.see(agent) {
        Ok(seen) => {
            *credits = ChiCredits { seen };
            DONE
        }
        Err(refusal) => refusal.number(),
    }
}

/// An agent gives a credit back.
fn give_back(
    node: &mut System<Global>,
    agent: Agent,
    credit: Option<CreditType>,
    release: &mut ChiRelease,
) -> u8
    requires { release.old ≡ no_release }
    ensures answer { result ≡ number_if (give_back_refusal_in node.old agent.0 credit) }
    ensures call { ReturnCall agent credit release.new node.old node.new }
{
    match node.give_back(agent, credit) {
        Ok(released) => {
            *release = release_told(released);
            DONE
        }
        Err(refusal) => refusal.number(),
    }
}

/// An agent tends a type.
fn tend(
    node: &mut System<Global>,
    agent: Agent,
    credit: Option<CreditType>,
    release: &mut ChiRelease,
) -> u8
    requires { release.old ≡ no_release }
    ensures answer { result ≡ number_if (tend_refusal_in node.old agent.0 credit) }
    ensures call { TendCall agent credit release.new node.old node.new }
{
    match node.tend(agent, credit) {
        Ok(released) => {
            *release = release_if(released);
            DONE
        }
        Err(refusal) => refusal.number(),
    }
}

/// Shows a line.
fn show(node: &System<Global>, line: Line, shown: &mut ChiLine) -> u8
    requires { shown.old ≡ no_line_told }
    ensures answer { result ≡ number_if (node_view_refusal node.now.home line.0) }
    ensures shown { shown.new ≡ node_show_told line.0 node.now }
{
    match node.view(line) {
        Ok(view) => {
            *shown = line_told(&view);
            DONE
        }
        Err(refusal) => refusal.number(),
    }
}

/// Shows what is in flight.
fn show_flits(node: &System<Global>, agent: Agent, line: Line, flits: &mut ChiFlits) -> u8
    requires { flits.old ≡ no_flits_told }
    ensures answer { result ≡ number_if (node_flits_refusal node.now.home agent.0 line.0) }
    ensures flits { flits.new ≡ node_flits_told agent.0 line.0 node.now }
{
    match node.flits(agent, line) {
        Ok(cells) => {
            *flits = flits_told(&cells);
            DONE
        }
        Err(refusal) => refusal.number(),
    }
}
