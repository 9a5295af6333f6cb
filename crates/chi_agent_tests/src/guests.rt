//! The requesters of a node, each beside it.

ghost use Rattle.std.specs.Prelude.{◌≡◌, All, true};
ghost use Rattle.chi_node.specs.Calls.{is_own_step};
ghost use Rattle.chi_node.specs.Node.{IsOwn};

use arrayvec::ArrayVec;
use chi_flit::{Action, Line, Refusal, Step};
use chi_node::{Arrived, Node, Requester, Stepped};
use std::alloc::Global;
use std::process::Abort;
use std::sync::Wait;

/// A requester of the node.
#[derive(Drop)]
pub struct Guest<'n> {
    pub node: &'n Node<Global>,
    pub requester: Requester,
    ghost own: { IsOwn node.now requester },
}

/// Whether a step is a requester's own: an arrival admits or retries.
fn is_own(step: Step) -> bool
    ensures { result ≡ is_own_step step }
{
    !matches!(step, Step::Admit | Step::Retry)
}

impl Guest<'_> {
    /// Its request that is in flight at the line arrives.
    pub fn arrives<R: Wait>(&mut self, rt: &R, line: Line) -> Result<Arrived, Refusal> {
        self.node.arrive(rt, &mut self.requester, line)
    }

    /// It does the step at the line.
    pub fn does<R: Abort + Wait>(
        &mut self,
        rt: &R,
        line: Line,
        step: Step,
    ) -> Result<Stepped, Refusal> {
        assert!(rt; is_own(step));
        let agent = self.requester.number();
        let action = Action { agent, line, step };
        self.node.step(rt, &mut self.requester, action)
    }
}

/// The requesters of the node, in the same order.
pub fn guests_of<'n>(
    rt: &impl Abort,
    alloc: Global,
    node: &'n Node<Global>,
    mut requesters: ArrayVec<Requester, 8>,
) -> Vec<Guest<'n>>
    requires { All (IsOwn node.now) requesters.items }
{
    let count = requesters.len();
    let mut guests = Vec::new(alloc);
    for _ in 0..count {
        let requester = requesters.remove(0);
        let guest = Guest { node, requester };
        guests.push(guest).expect(rt, "memory for requesters");
    }
    guests
}
