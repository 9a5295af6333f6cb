//! Reports that are sent, told to the inbox, and gathered.

ghost use Rattle.std.specs.Prelude.{◌≡◌};

use chi_audit::{Outbox, Report, gather, open_boxes};
use chi_flit::{Agent, NoMemory};
use std::process::Abort;
use std::sync::Wait;

/// The report of an agent, whose script finished where its number is even.
fn report(agent: Agent) -> Report
    ensures { result.agent ≡ agent }
{
    Report {
        agent,
        finished: agent.0 % 2 == 0,
        loads: u64::from(agent.0),
        stores: 2,
    }
}

/// Each agent but one sends its report; the outbox of that one goes unused.
fn send_others<R: Abort + Wait>(rt: &R, outboxes: Vec<Outbox>, silent: Option<Agent>) {
    for outbox in outboxes {
        let agent = outbox.agent();
        if Some(agent) != silent {
            let sent = outbox.send(rt, report(agent));
            assert_eq!(rt; sent.report(), report(agent));
        }
    }
}

#[test]
fn each_report_is_gathered_in_its_agents_place(rt: HostRuntime) -> Result<(), NoMemory> {
    for agents in [1, 2, 8] {
        assert!(rt; agents > 0 && agents <= 8);
        let (outboxes, mut inbox) = open_boxes(rt.alloc(), agents)?;
        send_others(&rt, outboxes, None);
        let gathered = gather(&rt, agents, &mut inbox);
        assert!(rt; gathered.complete);
        for agent in 0..8 {
            let wanted = if agent < agents {
                Some(report(Agent(agent)))
            } else {
                None
            };
            assert_eq!(rt; gathered.reports[usize::from(agent)], wanted);
        }
    }
    Ok(())
}

#[test]
fn a_report_that_is_not_sent_leaves_its_place_empty(rt: HostRuntime) -> Result<(), NoMemory> {
    let (outboxes, mut inbox) = open_boxes(rt.alloc(), 3)?;
    send_others(&rt, outboxes, Some(Agent(1)));
    let gathered = gather(&rt, 3, &mut inbox);
    assert!(rt; !gathered.complete);
    assert_eq!(rt; gathered.reports[0], Some(report(Agent(0))));
    assert_eq!(rt; gathered.reports[1], None);
    assert_eq!(rt; gathered.reports[2], Some(report(Agent(2))));
    Ok(())
}

#[test]
fn a_report_is_sent_though_the_inbox_is_gone(rt: HostRuntime) -> Result<(), NoMemory> {
    let (mut outboxes, inbox) = open_boxes(rt.alloc(), 1)?;
    drop(inbox);
    let outbox = outboxes.remove(0);
    let agent = outbox.agent();
    let sent = outbox.send(&rt, report(agent));
    assert_eq!(rt; sent.report(), report(Agent(0)));
    Ok(())
}
