//! What is left of a run of all agents.

ghost use Rattle.std.specs.Prelude.{◌≡◌, map};
ghost use Rattle.chi_agent.specs.Ended.{requester_of};

use arrayvec::ArrayVec;
use chi_audit::{Gathered, Inbox, Report};
use chi_node::Requester;

/// What is left of an agent: its requester, its report, and whether its script met refusal 11 (NotOpen).
/// Source: `docs/FORMATS.md`, "A turn".
#[derive(Drop)]
pub struct AgentResult {
    pub requester: Requester,
    pub report: Report,
    pub not_open: bool,
}

impl Default for AgentResult {
    ghost use Rattle.std.specs.Prelude.{◌≡◌, false};
    ghost use Rattle.chi_node.specs.Requester.{no_requester};

    ghost is_default = { λ a. a ≡ record {
      requester = no_requester;
      report = record {
        agent = record { 0 = 0 };
        finished = false;
        loads = 0;
        stores = 0;
      };
      not_open = false;
    } };

    fn default() -> AgentResult {
        AgentResult {
            requester: Requester::default(),
            report: Report::default(),
            not_open: false,
        }
    }
}

/// The agents' results, in the order in which their requesters came; the reports that were gathered, and the
/// inbox that received them.
/// Source: `docs/FORMATS.md`, "A turn".
#[derive(Drop)]
pub struct Ended {
    pub results: ArrayVec<AgentResult, 8>,
    pub gathered: Gathered,
    pub inbox: Inbox,
}

/// The requesters of the results, in their order.
/// Source: `docs/FORMATS.md`, "A turn".
pub fn requesters_of(mut results: ArrayVec<AgentResult, 8>) -> ArrayVec<Requester, 8>
    ensures { result.items ≡ map requester_of results.items }
{
    let count = results.len();
    let mut requesters = ArrayVec::new();
    for number in 0..count {
        requesters.push(results.remove(0).requester);
    }
    requesters
}
