//! What a turn of an agent does at its node.

ghost use Rattle.std.specs.Prelude.{◌≡◌};
ghost use Rattle.chi_flit.specs.declared.refusal.Refusal.TheVariants.{NotOpen};
ghost use Rattle.chi_node.specs.Calls.{IsSameRequester};
ghost use Rattle.chi_node.specs.Parts.{HasTypes};
ghost use Rattle.chi_node.specs.Node.{IsOwn, IsSliceOf};
ghost use Rattle.chi_agent.specs.Choice.{drawn_line};
ghost use Rattle.chi_agent.specs.Turns.{after_refusal};
ghost use Rattle.chi_agent.specs.Lives.{EndsTurn, Turned, Visits};

use crate::choice::line_of;
use crate::player::Player;
use crate::preparation::{prepare, tend};
use chi_flit::Line;
use chi_node::Node;
use chi_slice::Slice;
use std::alloc::Allocator;
use std::sync::Wait;

impl<A: Allocator> Player<A> {
    /// The slice isn't that of the line, which stops the script as a refusal 11 (NotOpen) does.
    fn stop(&mut self)
        ensures after { self.new ≡ after_refusal NotOpen self.old }
    {
        self.stopped = true;
        self.not_open = true;
    }

    /// Looks at the line that was drawn by `x` in its slice.
    fn visit_on<B: Allocator>(
        &mut self,
        slice: &mut Slice<B>,
        node: &Node<B>,
        line: Line,
        x: u32,
    ) -> bool
        requires own { IsOwn node.now self.old.requester }
        requires types { HasTypes node.now.config node.now.tracker.shape }
        requires line { line ≡ drawn_line node.now.config x }
        requires slice { IsSliceOf node.now.config line.0 slice.old }
        ensures visits { Visits node.now.config x self.old self.new result }
        ensures same { IsSameRequester self.old.requester self.new.requester }
    {
        self.turn_at(slice, node.tracker(), line, x)
    }

    /// Looks at the line that was drawn by `x`, under the lock of its slice.
    #[tactic(auto, using(crate::proofs::Another::found_another))]
    fn visit<R: Wait, B: Allocator>(&mut self, rt: &R, node: &Node<B>, x: u32) -> bool
        requires { IsOwn node.now self.old.requester }
        ensures visits { Visits node.now.config x self.old self.new result }
        ensures same { IsSameRequester self.old.requester self.new.requester }
    {
        let line = line_of(node.config(), x);
        let Ok(mut slice) = node.lock(rt, line) else {
            self.stop();
            return false;
        };
        self.visit_on(&mut slice, node, line, x)
    }

    /// What is done after a visit: where it came to nothing, what is owed of a type is tended.
    fn end_turn<B: Allocator>(&mut self, node: &Node<B>, number: u64, done: bool)
        requires { IsOwn node.now self.old.requester }
        ensures ends { EndsTurn done node.now.config number self.old self.new }
        ensures same { IsSameRequester self.old.requester self.new.requester }
    {
        if !done {
            let profile = node.config().profile();
            tend(&mut self.requester, node.tracker(), profile, number);
        }
    }

    /// The turn of that number, for the word `x`.
    pub(crate) fn take<R: Wait, B: Allocator>(
        &mut self,
        rt: &R,
        node: &Node<B>,
        number: u64,
        x: u32,
    ) -> bool
        requires { IsOwn node.now self.old.requester }
        ensures turn { Turned node.now.config x number self.old self.new result }
        ensures same { IsSameRequester self.old.requester self.new.requester }
    {
        prepare(&mut self.requester, node.tracker());
        let done = self.visit(rt, node, x);
        self.end_turn(node, number, done);
        done
    }
}
