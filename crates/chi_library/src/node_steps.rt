//! A node's arrivals and steps with the flits that they took and sent, for C.

ghost use Rattle.std.specs.Prelude.{◌≡◌, [], IfOk, None, OnErr, OnOk, Some, map, true};
ghost use Rattle.chi_flit.specs.Numbers.{agent_at, line_at};
ghost use Rattle.chi_flit.specs.Refusal.{refusal_of};
ghost use Rattle.chi_library.specs.Actions.{no_effect};
ghost use Rattle.chi_library.specs.Calls.{answer_number, output_of};
ghost use Rattle.chi_library.specs.Flits.{no_sent, sent_told};
ghost use Rattle.chi_library.specs.Listed.{IsListed};
ghost use Rattle.chi_library.specs.NodeCalls.{ArrivalCall, CalledOn, IsOwnAction, IsUntold, StepCall, no_arrival, no_release, node_step_refusal, own_of};
ghost use Rattle.chi_library.specs.NodeFlits.{arrival_sent_shown, arrival_taken_shown, node_sent_shown, node_sent_told, node_taken_shown, node_taken_told};
ghost use Rattle.chi_library.specs.Numbers.{number_if};
ghost use Rattle.chi_library.specs.Standing.{line_standing, told_or};
ghost use Rattle.chi_node.specs.Calls.{arrival_action, arrival_step, is_own_step};
ghost use Rattle.chi_node.specs.Home.{node_flits_refusal, node_line, slice_of};
ghost use Rattle.chi_node.specs.System.{ArrivesIn, StepsIn, arrive_refusal, system_step_refusal};
ghost use Rattle.chi_library.specs.Taken.{message_taken};
ghost use Rattle.chi_slice.specs.Slice.{SliceKept};
ghost use Rattle.chi_slice.specs.Words.{cells_of, flit_of};

use crate::actions::{ChiAction, ChiEffect, tell_effect};
use crate::answers::{CLOSED, DONE, OUT_OF_RANGE};
use crate::flits::{ChiFlit, ChiSent};
use crate::node_calls::own_action_at;
use crate::node_handle::ChiNode;
use crate::node_told::{ChiArrival, ChiRelease, arrival_told, release_if};
use crate::sent::tell_taken;
use crate::steps::list_sent;
use chi_flit::{Action, Agent, Line, Refusal, Step};
use chi_node::{Arrived, Stepped, System};
use chi_slice::Serving;
use std::alloc::Global;

/// The agent's request arrives as by `chi_node_arrive`, and the flits that the arrival sent and took are told:
/// the request, and the RetryAck where it was retried.
///
/// Answers as `chi_node_arrive`. On a refusal nothing changes, `count` is 0, and so are all numbers of `arrival`
/// and `taken`. Of `sent` the first `count` are written, and the others stay as they were. Answers 255 of a
/// closed handle.
/// Source: `docs/PROTOCOL.md`, "A requester and its calls", Arrival, and "Messages"; `docs/LIBRARY.md`, "A node".
#[unsafe(no_mangle)]
pub extern "C" fn chi_node_arrive_flits(
    alloc: Global,
    node: &mut ChiNode,
    agent: u8,
    line: u8,
    arrival: &mut ChiArrival,
    sent: &mut [ChiSent; 8],
    count: &mut u8,
    taken: &mut ChiSent,
) -> u8
    ensures answer { result ≡ answer_number node.old.value (λ y. arrive_refusal y agent line) }
    ensures call { CalledOn node.old.value node.new.value
        (ArrivalCall (agent_at agent) (line_at line) arrival.new) }
    ensures closed { node.old.value ≡ None → arrival.new ≡ no_arrival }
    ensures sent { IsListed (output_of node.old.value []
        (arrival_sent_shown (agent_at agent) (line_at line) arrival.new))
        sent.old sent.new count.new }
    ensures taken { taken.new ≡ output_of node.old.value no_sent
        (arrival_taken_shown (agent_at agent) (line_at line) arrival.new) }
{
    *arrival = ChiArrival::NONE;
    *count = 0;
    match node.take(alloc) {
        Some(mut held) => {
            let (agent, line) = (Agent(agent), Line(line));
            let answer = arrive(&mut held, agent, line, arrival, sent, count, taken);
            node.put(held);
            answer
        }
        None => {
            *taken = ChiSent::NONE;
            CLOSED
        }
    }
}

/// The agent does an action as by `chi_node_step`, and the flits that it sent, by agent, and the one that it took
/// are told.
///
/// Answers as `chi_node_step`. On a refusal nothing changes, `count` is 0, and so are all numbers of `effect`,
/// `release` and `taken`; those of `taken` are also where the action takes no flit. Of `sent` the first `count` are
/// written, and the others stay as they were. Answers 255 of a closed handle.
/// Source: `docs/PROTOCOL.md`, "The actions", "Messages" and "A requester and its calls"; `docs/LIBRARY.md`, "A node".
#[unsafe(no_mangle)]
pub extern "C" fn chi_node_step_flits(
    alloc: Global,
    node: &mut ChiNode,
    action: &ChiAction,
    effect: &mut ChiEffect,
    release: &mut ChiRelease,
    sent: &mut [ChiSent; 8],
    count: &mut u8,
    taken: &mut ChiSent,
) -> u8
    ensures answer { result ≡ answer_number node.old.value (node_step_refusal (own_of action.now)) }
    ensures call { CalledOn node.old.value node.new.value
        (StepCall (own_of action.now) effect.new release.new) }
    ensures closed { node.old.value ≡ None → IsUntold effect.new release.new }
    ensures sent { IsListed (output_of node.old.value [] (node_sent_shown (own_of action.now)))
        sent.old sent.new count.new }
    ensures taken { taken.new
        ≡ output_of node.old.value no_sent (node_taken_shown (own_of action.now)) }
{
    step_on(
        alloc,
        node,
        own_action_at(action),
        effect,
        release,
        sent,
        count,
        taken,
    )
}

/// An agent of the handle's node does an action of its own; `None` is one that C's numbers don't name.
fn step_on(
    alloc: Global,
    node: &mut ChiNode,
    own: Option<Action>,
    effect: &mut ChiEffect,
    release: &mut ChiRelease,
    sent: &mut [ChiSent; 8],
    count: &mut u8,
    taken: &mut ChiSent,
) -> u8
    requires { IsOwnAction own }
    ensures answer { result ≡ answer_number node.old.value (node_step_refusal own) }
    ensures call { CalledOn node.old.value node.new.value (StepCall own effect.new release.new) }
    ensures closed { node.old.value ≡ None → IsUntold effect.new release.new }
    ensures sent { IsListed (output_of node.old.value [] (node_sent_shown own))
        sent.old sent.new count.new }
    ensures taken { taken.new ≡ output_of node.old.value no_sent (node_taken_shown own) }
{
    *effect = ChiEffect::NONE;
    *release = ChiRelease::NONE;
    *count = 0;
    match node.take(alloc) {
        Some(mut held) => {
            let answer = step(&mut held, own, effect, release, sent, count, taken);
            node.put(held);
            answer
        }
        None => {
            *taken = ChiSent::NONE;
            CLOSED
        }
    }
}

/// What an arrival came to, and how many flits it sent.
#[derive(Clone, Copy)]
struct ArrivalTold {
    arrived: Arrived,
    count: u8,
}

/// What a step gave, and how many flits it sent.
#[derive(Clone, Copy)]
struct StepTold {
    stepped: Stepped,
    count: u8,
}

/// A request arrives.
fn arrive(
    node: &mut System<Global>,
    agent: Agent,
    line: Line,
    arrival: &mut ChiArrival,
    sent: &mut [ChiSent; 8],
    count: &mut u8,
    taken: &mut ChiSent,
) -> u8
    requires arrival { arrival.old ≡ no_arrival }
    requires count { count.old ≡ 0 }
    ensures answer { result ≡ number_if (arrive_refusal node.old agent.0 line.0) }
    ensures call { ArrivalCall agent line arrival.new node.old node.new }
    ensures sent { IsListed (arrival_sent_shown agent line arrival.new node.old)
        sent.old sent.new count.new }
    ensures taken { taken.new ≡ arrival_taken_shown agent line arrival.new node.old }
{
    match arrive_telling(node, agent, line, sent, taken) {
        Ok(told) => {
            *arrival = arrival_told(told.arrived);
            *count = told.count;
            DONE
        }
        Err(refusal) => {
            *taken = ChiSent::NONE;
            refusal.number()
        }
    }
}

/// A request arrives, and its flits are told: the one that it took out of its cell before, and those that it sent
/// out of theirs after it.
fn arrive_telling(
    node: &mut System<Global>,
    agent: Agent,
    line: Line,
    sent: &mut [ChiSent; 8],
    taken: &mut ChiSent,
) -> Result<ArrivalTold, Refusal>
    ensures refusal { refusal_of result ≡ arrive_refusal node.old agent.0 line.0 }
    ensures ok { IfOk result (λ told. ArrivesIn node.old node.new agent line told.arrived) }
    ensures sent { IfOk result (λ told. IsListed
        (node_sent_told node.old (arrival_action agent.0 line told.arrived))
        sent.old sent.new told.count) }
    ensures taken { IfOk result (λ told. taken.new
        ≡ node_taken_told node.old (arrival_action agent.0 line told.arrived)) }
    ensures untold { OnErr result (sent.new ≡ sent.old) }
    ensures err { OnErr result (node.new ≡ node.old) }
{
    let before = tell_before(node, agent, line, Step::Admit, taken)?;
    let arrived = node.arrive(agent, line)?;
    let action = Action {
        agent,
        line,
        step: step_of(arrived),
    };
    let count = list_after(node, action, before, &taken.flit, sent);
    Ok(ArrivalTold { arrived, count })
}

/// What the slice of its line did where a request arrived so.
fn step_of(arrived: Arrived) -> Step
    ensures { result ≡ arrival_step arrived }
{
    match arrived {
        Arrived::Admitted(_) => Step::Admit,
        Arrived::Retried(_) => Step::Retry,
    }
}

/// An agent does an action of its own.
fn step(
    node: &mut System<Global>,
    own: Option<Action>,
    effect: &mut ChiEffect,
    release: &mut ChiRelease,
    sent: &mut [ChiSent; 8],
    count: &mut u8,
    taken: &mut ChiSent,
) -> u8
    requires effect { effect.old ≡ no_effect }
    requires release { release.old ≡ no_release }
    requires count { count.old ≡ 0 }
    requires own { IsOwnAction own }
    ensures answer { result ≡ number_if (node_step_refusal own node.old) }
    ensures call { StepCall own effect.new release.new node.old node.new }
    ensures sent { IsListed (node_sent_shown own node.old) sent.old sent.new count.new }
    ensures taken { taken.new ≡ node_taken_shown own node.old }
{
    let Some(action) = own else {
        *taken = ChiSent::NONE;
        return OUT_OF_RANGE;
    };
    match step_telling(node, action, sent, taken) {
        Ok(told) => {
            tell_effect(effect, told.stepped.effect);
            *release = release_if(told.stepped.released);
            *count = told.count;
            DONE
        }
        Err(refusal) => {
            *taken = ChiSent::NONE;
            refusal.number()
        }
    }
}

/// An agent does an action of its own, and its flits are told.
fn step_telling(
    node: &mut System<Global>,
    action: Action,
    sent: &mut [ChiSent; 8],
    taken: &mut ChiSent,
) -> Result<StepTold, Refusal>
    requires { is_own_step action.step ≡ true }
    ensures refusal { refusal_of result ≡ system_step_refusal node.old action }
    ensures ok { IfOk result (λ told. StepsIn node.old node.new action told.stepped) }
    ensures sent { IfOk result (λ told. IsListed
        (node_sent_told node.old action) sent.old sent.new told.count) }
    ensures taken { OnOk result (taken.new ≡ node_taken_told node.old action) }
    ensures untold { OnErr result (sent.new ≡ sent.old) }
    ensures err { OnErr result (node.new ≡ node.old) }
{
    let before = tell_before(node, action.agent, action.line, action.step, taken)?;
    let stepped = node.step(action)?;
    let count = list_after(node, action, before, &taken.flit, sent);
    Ok(StepTold { stepped, count })
}

/// Tells the flit that a step of the agent at the line will take, or that it takes none, and answers what the home
/// serves there. Refused 10 (OutOfRange) exactly where the agent or the line is outside the node.
fn tell_before(
    node: &System<Global>,
    agent: Agent,
    line: Line,
    step: Step,
    taken: &mut ChiSent,
) -> Result<Serving, Refusal>
    ensures refusal { refusal_of result ≡ node_flits_refusal node.now.home agent.0 line.0 }
    ensures serving { IfOk result
        (λ before. before ≡ (node_line node.now.home line.0).home.serving) }
    ensures taken { OnOk result (taken.new ≡ told_or (flit_of agent
        (message_taken (cells_of (node_line node.now.home line.0) agent.0) step)) no_sent) }
    ensures kept { OnOk result (SliceKept (slice_of node.now.home line.0)) }
{
    let slice = node.slice_of(line);
    let row = slice.row_for(agent, line)?;
    tell_taken(taken, agent, slice.flits_in(row, agent), step);
    Ok(slice.home_in(row).serving())
}

/// Lists the flits that a step sent, by what stands after it, and answers how many they are.
fn list_after(
    node: &System<Global>,
    action: Action,
    before: Serving,
    taken: &ChiFlit,
    sent: &mut [ChiSent; 8],
) -> u8
    requires { node_flits_refusal node.now.home action.agent.0 action.line.0 ≡ None }
    ensures { IsListed (map sent_told (line_standing (node_line node.now.home action.line.0)
        action.agent before taken.now action.step)) sent.old sent.new result }
{
    let slice = node.slice_of(action.line);
    match slice.row_for(action.agent, action.line) {
        Ok(row) => list_sent(slice, row, action, before, taken, sent),
        Err(_) => unreachable!(),
    }
}
