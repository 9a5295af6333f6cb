//! The reports of all agents, gathered from the inbox.

ghost use Rattle.std.specs.Prelude.{◌≡◌, ◌<◌, ◌≤◌, true, false, List, [], ◌∷◌, ◌++◌, length};
ghost use Rattle.chi_audit.specs.declared.reports.Report.{Report};
ghost use Rattle.chi_audit.specs.Gathered.{AreKept, AreAllThere, AreToldKept, IsOneMissing, IsGathered};

use crate::boxes::Inbox;
use crate::reports::Report;
use std::alloc::Allocator;
use std::sync::Wait;

/// The reports that were kept, in each agent's place its first, and whether each agent's was received.
#[derive(Clone, Copy, Debug, PartialEq, Eq)]
pub struct Gathered {
    pub reports: [Option<Report>; 8],
    pub complete: bool,
}

// Keeps a report in its agent's place, where the agent is below `n` and the place is empty.
#[tactic(auto, using(crate::proofs::Firsts::stranger, crate::proofs::Firsts::second, crate::proofs::Firsts::first))]
fn keep(places: &mut [Option<Report>; 8], n: u8, report: Report)
    requires { n ≤ 8 }
    ensures { (got : List Report)
        → AreKept n got places.old → AreKept n (got ++ report ∷ []) places.new }
{
    if report.agent.0 >= n {
        return;
    }
    let place = usize::from(report.agent.0);
    if places[place].is_none() {
        places[place] = Some(report);
    }
}

// Whether the places of all agents below `n` are full.
#[tactic(auto, using(crate::proofs::Firsts::more_there))]
fn are_all_there(places: &[Option<Report>; 8], n: u8) -> bool
    requires { n ≤ 8 }
    ensures there { result ≡ true → AreAllThere n places.now }
    ensures missing { result ≡ false → IsOneMissing n places.now }
{
    for agent in 0..n {
        if places[usize::from(agent)].is_none() {
            return false;
        }
    }
    true
}

/// Receives until the report of each agent below `n` has come, or a receive fails. It keeps of each of these
/// agents the first report that it received, and no other. Where the inbox was told what an agent sent, just
/// that report stands in the agent's place. It may wait.
/// Source: `docs/FORMATS.md`, "Reports and tallies".
#[tactic(auto, using(crate::proofs::Firsts::complete, crate::proofs::Firsts::incomplete, crate::proofs::Firsts::more_as_told, crate::proofs::Firsts::told_there, crate::proofs::Firsts::told_over))]
pub fn gather<A: Allocator, R: Wait>(rt: &R, n: u8, inbox: &mut Inbox<A>) -> Gathered
    requires agents { n ≤ 8 }
    requires unread { inbox.old.got ≡ [] }
    ensures gathered { IsGathered n inbox.new.got result }
    ensures told { AreToldKept n inbox.old.told result.reports }
    ensures ends { result.complete ≡ false → inbox.new.failed ≡ true }
    ensures same { (inbox.new.told ≡ inbox.old.told) × (inbox.new.channel ≡ inbox.old.channel) }
{
    let mut reports = [None; 8];
    for _ in rt.forever() {
        if are_all_there(&reports, n) {
            return Gathered {
                reports,
                complete: true,
            };
        }
        let Some(report) = inbox.receive(rt) else {
            return Gathered {
                reports,
                complete: false,
            };
        };
        keep(&mut reports, n, report);
    }
    unreachable!()
}
