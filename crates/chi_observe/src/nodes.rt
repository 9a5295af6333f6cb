//! The nodes of a trace: its requesters, in the order of their first flits, and its homes.

ghost use Rattle.std.specs.Prelude.{◌≡◌, OnOk, is_some, position};
ghost use Rattle.chi_observe.specs.Nodes.{adds_home, agent_of, is_node, is_one_sided, numbered, with_home, with_requester};

use chi_flit::Agent;
use chi_ids::Sides;
use chi_observer::AGENTS;
use chi_trace::NodeId;
use std::alloc::{AllocError, Allocator};

/// Whether it is this node.
fn is_node(node: NodeId, other: &NodeId) -> bool
    ensures { result ≡ is_node node other.now }
{
    other.0 == node.0
}

/// The place of a node.
pub(crate) fn place_of(nodes: &[NodeId], node: NodeId) -> Option<usize>
    ensures { result ≡ position (is_node node) nodes.now }
{
    nodes.iter().position(|other| is_node(node, other))
}

/// The agent of this number, if an observer has so many.
fn numbered(number: usize) -> Option<Agent>
    ensures { result ≡ numbered number }
{
    if number < AGENTS {
        Some(Agent(number as u8))
    } else {
        None
    }
}

/// Whether the requester is no home, and the home no requester.
fn is_one_sided(requesters: &[NodeId], homes: &[NodeId], sides: Sides) -> bool
    ensures { result ≡ is_one_sided requesters.now homes.now sides }
{
    let is_home = place_of(homes, sides.requester).is_some();
    let is_requester = place_of(requesters, sides.home).is_some();
    !is_node(sides.requester, &sides.home) && (!is_home && !is_requester)
}

/// The agent that the requester is: the next one where it is new. `None` where it is a home, or the home a requester, or
/// there are too many.
pub(crate) fn agent_of(requesters: &[NodeId], homes: &[NodeId], sides: Sides) -> Option<Agent>
    ensures { result ≡ agent_of requesters.now homes.now sides }
{
    if !is_one_sided(requesters, homes, sides) {
        return None;
    }
    match place_of(requesters, sides.requester) {
        Some(place) => numbered(place),
        None => numbered(requesters.len()),
    }
}

/// The requester is known from now on, if it is this agent.
pub(crate) fn add_requester<A: Allocator>(
    requesters: &mut Vec<NodeId, A>,
    agent: Option<Agent>,
    node: NodeId,
) -> Result<(), AllocError>
    ensures { OnOk result (requesters.new.items ≡ with_requester agent node requesters.old.items) }
{
    if let Some(agent) = agent {
        if usize::from(agent.0) == requesters.len() {
            requesters.push(node)?;
        }
    }
    Ok(())
}

/// Whether a flit of this agent is the first with the home.
pub(crate) fn adds_home(agent: Option<Agent>, homes: &[NodeId], node: NodeId) -> bool
    ensures { result ≡ adds_home agent node homes.now }
{
    agent.is_some() && place_of(homes, node).is_none()
}

/// The home is known from now on, if the requester is this agent.
pub(crate) fn add_home<A: Allocator>(
    homes: &mut Vec<NodeId, A>,
    agent: Option<Agent>,
    node: NodeId,
) -> Result<(), AllocError>
    ensures { OnOk result (homes.new.items ≡ with_home agent node homes.old.items) }
{
    if adds_home(agent, homes, node) {
        homes.push(node)?;
    }
    Ok(())
}
