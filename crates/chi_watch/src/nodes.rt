//! The nodes of a trace: its requesters, in the order of their first flits, and its homes.

ghost use Rattle.std.specs.Prelude.{◌≡◌, IfOk, OnOk, Some};
ghost use Rattle.chi_watch.specs.Nodes.{agent_by, agent_of, is_home_by, known, known_by, no_nodes, nodes, numbered, settled_by, with_requester, with_side};

use chi_copies::AGENTS;
use chi_flit::Agent;
use chi_issue_b::NodeId;
use indexmap::IndexMap;
use std::alloc::{AllocError, Allocator};
use std::hash::{BuildHasherDefault, FoldHasher};

/// What a node is in a trace.
/// Source: `docs/WATCH.md`, "Nodes".
#[derive(Clone, Copy, Debug, PartialEq, Eq)]
pub enum Side {
    /// A requester, which is this agent.
    Requester(Agent),
    /// A home.
    Home,
}

/// What nodes are, each under its number.
type SideTable<A> = IndexMap<u16, Side, BuildHasherDefault<FoldHasher>, A>;

/// The nodes of a trace that are known.
/// Source: `docs/WATCH.md`, "Nodes".
#[derive(Drop)]
pub struct Nodes<A: Allocator> {
    sides: SideTable<A>,
    /// The requesters, by their agents.
    requesters: Vec<NodeId, A>,
}

/// The agent of this number, if a line follows so many.
fn numbered(number: usize) -> Option<Agent>
    ensures { result ≡ numbered number }
{
    if number < AGENTS {
        Some(Agent(number as u8))
    } else {
        None
    }
}

/// Whether a node may be a home, by what is known of it.
fn is_home_by(side: Option<Side>) -> bool
    ensures { result ≡ is_home_by side }
{
    !matches!(side, Some(Side::Requester(_)))
}

/// The agent that a requester is, by what is known of it: the next one where that is nothing.
fn agent_by(side: Option<Side>, count: usize) -> Option<Agent>
    ensures { result ≡ agent_by side count }
{
    match side {
        Some(Side::Requester(agent)) => Some(agent),
        Some(Side::Home) => None,
        None => numbered(count),
    }
}

/// The agent of a requester that is known, where the home is known too.
fn settled_by(requester: Option<Side>, home: Option<Side>) -> Option<Agent>
    ensures { result ≡ settled_by requester home }
{
    match (requester, home) {
        (Some(Side::Requester(agent)), Some(Side::Home)) => Some(agent),
        _ => None,
    }
}

impl<A: Allocator + Copy> Nodes<A> {
    /// No node is known.
    /// Source: `docs/WATCH.md`, "Nodes".
    pub fn new(alloc: A) -> Nodes<A>
        ensures { nodes result ≡ no_nodes }
    {
        Nodes {
            sides: IndexMap::new(alloc),
            requesters: Vec::new(alloc),
        }
    }
}

impl<A: Allocator> Nodes<A> {
    /// What is known of a node.
    fn side(&self, node: NodeId) -> Option<Side>
        ensures { result ≡ (nodes self.now).side node.0 }
    {
        self.sides.get(&node.0).copied()
    }

    /// The agent that a requester is: the next one where it is new. `None` where it is a home, or the home is a requester, or there
    /// are 32 before it.
    /// Source: `docs/WATCH.md`, "Nodes".
    pub fn agent_of(&self, requester: NodeId, home: NodeId) -> Option<Agent>
        ensures { result ≡ agent_of (nodes self.now) requester home }
    {
        if requester.0 == home.0 {
            return None;
        }
        if is_home_by(self.side(home)) {
            agent_by(self.side(requester), self.requesters.len())
        } else {
            None
        }
    }

    /// The agent that a requester is, where both it and the home are known.
    fn settled(&self, requester: NodeId, home: NodeId) -> Option<Agent>
        ensures { result ≡ settled_by ((nodes self.now).side requester.0) ((nodes self.now).side home.0) }
    {
        settled_by(self.side(requester), self.side(home))
    }

    /// A node is this from now on.
    fn put(&mut self, node: NodeId, side: Side) -> Result<(), AllocError>
        ensures { OnOk result (nodes self.new ≡ with_side node side (nodes self.old)) }
    {
        self.sides.insert(node.0, side)?;
        Ok(())
    }

    /// A node is a requester, and this agent, from now on.
    fn put_requester(&mut self, node: NodeId, agent: Agent) -> Result<(), AllocError>
        ensures { OnOk result (nodes self.new ≡ with_requester node agent (nodes self.old)) }
    {
        if self.side(node).is_none() {
            self.requesters.push(node)?;
        }
        self.put(node, Side::Requester(agent))
    }

    /// A requester is this agent, and a home is one, from now on.
    fn know(&mut self, requester: NodeId, home: NodeId, agent: Agent) -> Result<(), AllocError>
        ensures { OnOk result (nodes self.new ≡ known_by (Some agent) requester home (nodes self.old)) }
    {
        self.put_requester(requester, agent)?;
        self.put(home, Side::Home)
    }

    /// The agent that a requester is, as `agent_of` has it. Where it is one, it and the home are known from now on. Err where memory
    /// runs out; what is known then isn't said.
    /// Source: `docs/WATCH.md`, "Nodes".
    pub fn number(&mut self, requester: NodeId, home: NodeId) -> Result<Option<Agent>, AllocError>
        ensures agent { IfOk result (λ agent. agent ≡ agent_of (nodes self.old) requester home) }
        ensures known { OnOk result (nodes self.new ≡ known requester home (nodes self.old)) }
    {
        if let Some(agent) = self.settled(requester, home) {
            return Ok(Some(agent));
        }
        match self.agent_of(requester, home) {
            None => Ok(None),
            Some(agent) => {
                self.know(requester, home, agent)?;
                Ok(Some(agent))
            }
        }
    }

    /// The requesters, by their agents.
    /// Source: `docs/WATCH.md`, "Nodes".
    pub fn requesters(&self) -> &[NodeId]
        ensures { result.now ≡ (nodes self.now).requesters }
    {
        &self.requesters
    }
}
