//! The nodes of a trace: its home, and its requesters in the order of their first flits.

ghost use Rattle.std.specs.Prelude.{◌≡◌, [], None, position, OnOk};
ghost use Rattle.chi_resolution.specs.Nodes.{numbered_requester, agent_of, down, ends_of, home_in, home_of, is_node, same_home, sides_of, up, with_home, with_requester};

use crate::reasons::IdReason;
use chi_flit::Agent;
use chi_trace::{Flit, NodeId, Seen};
use std::alloc::{AllocError, Allocator};

/// The nodes that flits have named so far.
/// Source: `docs/TRACES.md`, "Nodes, ids and credits".
#[derive(Debug, Drop)]
pub struct Nodes<A: Allocator> {
    pub home: Option<NodeId>,
    /// The requesters in the order of their first flits: each agent's node, at most eight.
    pub requesters: Vec<NodeId, A>,
}

/// The nodes of a flit.
#[derive(Clone, Copy)]
pub(crate) struct Ends {
    pub requester: NodeId,
    pub agent: Agent,
    /// `None` for what a processor did.
    pub home: Option<NodeId>,
}

/// The requester of a flit and its home, if it has one.
#[derive(Clone, Copy)]
pub(crate) struct Sides {
    pub requester: NodeId,
    pub home: Option<NodeId>,
}

/// The nodes of a flit that goes up to the home.
fn up(source: NodeId, target: NodeId) -> Sides
    ensures { result ≡ up source target }
{
    Sides {
        requester: source,
        home: Some(target),
    }
}

/// The nodes of a flit that goes down to a requester.
fn down(source: NodeId, target: NodeId) -> Sides
    ensures { result ≡ down source target }
{
    Sides {
        requester: target,
        home: Some(source),
    }
}

/// The nodes of what a requester's processor did.
fn aside(source: NodeId) -> Sides
    ensures requester { result.requester ≡ source }
    ensures home { result.home ≡ None }
{
    Sides {
        requester: source,
        home: None,
    }
}

/// The requester and the home of a flit of this node.
fn sides_of(source: NodeId, flit: &Flit) -> Sides
    ensures { result ≡ sides_of source flit.now }
{
    match flit {
        Flit::Request { target, .. } => up(source, *target),
        Flit::PCrdReturn { target, .. } => up(source, *target),
        Flit::Snoop { target, .. } => down(source, *target),
        Flit::RetryAck { transaction, .. } => down(source, transaction.target),
        Flit::CompUC { transaction, .. } => down(source, transaction.target),
        Flit::Comp { transaction, .. } => down(source, transaction.target),
        Flit::CompDBIDResp { transaction, .. } => down(source, transaction.target),
        Flit::PCrdGrant { target, .. } => down(source, *target),
        Flit::SnpResp { transaction, .. } => up(source, transaction.target),
        Flit::CompAck { transaction } => up(source, transaction.target),
        Flit::CompData { transaction, .. } => down(source, transaction.target),
        Flit::SnpRespData { transaction, .. } => up(source, transaction.target),
        Flit::CopyBackWrData { transaction, .. } => up(source, transaction.target),
        Flit::Load { .. } => aside(source),
        Flit::Store { .. } => aside(source),
    }
}

/// Whether it is this node.
fn is_node(node: NodeId, other: &NodeId) -> bool
    ensures { result ≡ is_node node other.now }
{
    other.0 == node.0
}

/// The place of a requester.
fn place_of(requesters: &[NodeId], node: NodeId) -> Option<usize>
    ensures { result ≡ position (is_node node) requesters.now }
{
    requesters
        .iter()
        .position(|requester| is_node(node, requester))
}

/// The agent of this number, which the node is.
fn agent_at(number: usize, node: NodeId) -> Result<Agent, IdReason>
    ensures { result ≡ numbered_requester number node }
{
    if number < 8 {
        Ok(Agent(number as u8))
    } else {
        Err(IdReason::NinthRequester(node))
    }
}

/// The home, which this node is too.
fn same_home(known: Option<NodeId>, node: NodeId) -> Result<Option<NodeId>, IdReason>
    ensures { result ≡ same_home known node }
{
    match known {
        Some(home) if home.0 != node.0 => Err(IdReason::SecondHome(home)),
        Some(_) | None => Ok(Some(node)),
    }
}

impl<A: Allocator> Nodes<A> {
    /// None yet.
    pub(crate) fn new(alloc: A) -> Nodes<A>
        ensures home { result.home ≡ None }
        ensures requesters { result.requesters.items ≡ [] }
    {
        Nodes {
            home: None,
            requesters: Vec::new(alloc),
        }
    }

    /// The agent of a requester: the next number where it is new.
    fn agent_of(&self, node: NodeId) -> Result<Agent, IdReason>
        ensures { result ≡ agent_of self.now.home self.now.requesters.items node }
    {
        match self.home {
            Some(home) if is_node(node, &home) => Err(IdReason::BothSides(node)),
            Some(_) | None => match place_of(&self.requesters, node) {
                Some(place) => agent_at(place, node),
                None => agent_at(self.requesters.len(), node),
            },
        }
    }

    /// The home of a flit with this requester.
    fn home_of(&self, requester: NodeId, node: NodeId) -> Result<Option<NodeId>, IdReason>
        ensures { result ≡ home_of self.now.home self.now.requesters.items requester node }
    {
        if is_node(node, &requester) || place_of(&self.requesters, node).is_some() {
            return Err(IdReason::BothSides(node));
        }
        same_home(self.home, node)
    }

    /// The same where it has one.
    fn home_in(&self, sides: Sides) -> Result<Option<NodeId>, IdReason>
        ensures { result
            ≡ home_in self.now.home self.now.requesters.items sides.requester sides.home }
    {
        match sides.home {
            Some(node) => self.home_of(sides.requester, node),
            None => Ok(None),
        }
    }

    /// The nodes of a flit, as those before it allow.
    #[tactic(auto, unfolding(crate::specs::Nodes::ends_of))]
    pub(crate) fn ends_of(&self, seen: &Seen) -> Result<Ends, IdReason>
        ensures { result ≡ ends_of self.now.home self.now.requesters.items
            (sides_of seen.now.source seen.now.flit) }
    {
        let sides = sides_of(seen.source, &seen.flit);
        let agent = self.agent_of(sides.requester)?;
        let home = self.home_in(sides)?;
        Ok(Ends {
            requester: sides.requester,
            agent,
            home,
        })
    }

    /// The nodes are known from now on.
    pub(crate) fn add(&mut self, ends: &Ends) -> Result<(), AllocError>
        ensures requesters { OnOk result
            (self.new.requesters.items ≡ with_requester ends.now self.old.requesters.items) }
        ensures home { OnOk result (self.new.home ≡ with_home ends.now self.old.home) }
    {
        if usize::from(ends.agent.0) == self.requesters.len() {
            self.requesters.push(ends.requester)?;
        }
        if let Some(home) = ends.home {
            self.home = Some(home);
        }
        Ok(())
    }
}
