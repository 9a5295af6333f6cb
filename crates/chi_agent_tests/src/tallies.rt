//! What is read of the tallies of agents that have ended, each of which did as much as no other.

ghost use Rattle.std.specs.Prelude.{◌≡◌, ◌<◌, length, map};
ghost use Rattle.chi_audit.specs.Tallies.{reader_cell};

use crate::bench::{eight_sizes, node_of, on, ran};
use chi_agent::{Ended, OpenGate};
use chi_audit::{Report, Tallies, Watcher};
use chi_flit::{Agent, Operation, Task, WordNo};
use std::process::Abort;
use std::sync::Wait;

/// Nine operations of an agent on its own line: so many stores as its number and one, and then loads.
fn script_of(own: u8) -> [Operation; 9] {
    let mut script = [on(own, Task::Load(WordNo(0))); 9];
    for place in 0..9u8 {
        if place <= own {
            script[usize::from(place)] = on(own, Task::Store(WordNo(0), 1));
        }
    }
    script
}

/// The scripts of eight agents, no two of which have as many loads or stores.
fn unequal_scripts() -> [[Operation; 9]; 8] {
    [
        script_of(0),
        script_of(1),
        script_of(2),
        script_of(3),
        script_of(4),
        script_of(5),
        script_of(6),
        script_of(7),
    ]
}

/// What the agent of such a script reports at its end.
fn report_of(agent: u8) -> Report {
    let stores = u64::from(agent).saturating_add(1);
    Report {
        agent: Agent(agent),
        finished: true,
        loads: 9u64.saturating_sub(stores),
        stores,
    }
}

/// The agent's report is the one that is wanted, as it came with its thread and as it was gathered, its
/// requester is its own, and it didn't meet refusal 11.
fn is_told(ended: &Ended, agent: u8, wanted: Report) -> bool {
    let place = usize::from(agent);
    let told = match ended.results.get(place) {
        Some(left) => {
            left.requester.number().0 == agent && left.report == wanted && !left.not_open
        }
        None => false,
    };
    told && ended.gathered.reports.get(place) == Some(&Some(wanted))
}

/// The most turns that each agent is given, which are far more than it needs.
const MOST_TURNS: u64 = 10_000_000;

/// The tally of each agent has the loads and the stores of its report, and the agent left before its turns were used
/// up.
fn all_match<R: Abort + Wait>(rt: &R, tallies: &Tallies, watcher: &mut Watcher, ended: &Ended)
    requires cells { map reader_cell watcher.old ≡ tallies.now }
    requires agents { length tallies.now ≡ 8 }
{
    for agent in 0..8 {
        let report = report_of(agent);
        assert!(rt; is_told(ended, agent, report), "agent {agent}");
        let tally = watcher.read(rt, tallies, Agent(agent));
        assert_eq!(rt; (tally.loads, tally.stores), (report.loads, report.stores));
        assert!(rt; tally.turns < MOST_TURNS, "agent {agent}");
    }
}

#[test]
fn tallies_match_reports(rt: HostRuntime) {
    let (node, requesters) = node_of(&rt, rt.alloc(), &eight_sizes(&rt));
    let all = unequal_scripts();
    let (ended, tallies, mut watcher) = ran(
        &rt,
        rt.alloc(),
        &node,
        requesters,
        &all,
        MOST_TURNS,
        &OpenGate,
    );
    assert!(rt; ended.gathered.complete);
    all_match(&rt, &tallies, &mut watcher, &ended);
}
