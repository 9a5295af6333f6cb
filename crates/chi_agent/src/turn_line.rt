//! The line that a turn looks at.

ghost use Rattle.std.specs.Prelude.{◌≡◌, ◌<◌, IfNone, IfSome, false, length, true};
ghost use Rattle.chi_slice.specs.Words.{cells_of, rn_of};
ghost use Rattle.chi_slice.specs.Slice.{are_in_range, line as line_of_slice};

use chi_flit::{Agent, Line};
use chi_node::Requester;
use chi_slice::{AgentLine, Slice};
use std::alloc::Allocator;

/// A requester, a slice that has the line, and what the two have of it.
#[derive(Drop)]
pub(crate) struct TurnLine<'s, A: Allocator> {
    pub(crate) slice: &'s Slice<A>,
    pub(crate) requester: &'s Requester,
    pub(crate) agent: Agent,
    pub(crate) line: Line,
    pub(crate) at: AgentLine<'s>,
    ghost number: { agent.0 ≡ requester.now.number },
    ghost slots: { length requester.now.slots ≡ 8 },
    ghost eight: { agent.0 < 8 },
    ghost inside: { are_in_range slice.now agent.0 line.0 ≡ true },
    ghost copy: { at.copy.now ≡ rn_of (line_of_slice slice.now line.0) agent.0 },
    ghost flits: { at.flits.now ≡ cells_of (line_of_slice slice.now line.0) agent.0 },
    ghost home: { at.home.now ≡ (line_of_slice slice.now line.0).home },
}

impl<'s, A: Allocator> TurnLine<'s, A> {
    // What the two have of the line; `None` where the slice hasn't the line.
    pub(crate) fn of(
        slice: &'s Slice<A>,
        requester: &'s Requester,
        line: Line,
    ) -> Option<TurnLine<'s, A>>
        ensures slice { IfSome result (λ here. here.slice.now ≡ slice.now) }
        ensures requester { IfSome result (λ here. here.requester.now ≡ requester.now) }
        ensures line { IfSome result (λ here. here.line ≡ line) }
        ensures inside { IfSome result (λ _. are_in_range slice.now requester.now.number line.0
            ≡ true) }
        ensures outside { IfNone result (are_in_range slice.now requester.now.number line.0
            ≡ false) }
    {
        let agent = requester.number();
        let at = slice.agent_line(agent, line).ok()?;
        Some(TurnLine {
            slice,
            requester,
            agent,
            line,
            at,
        })
    }
}
