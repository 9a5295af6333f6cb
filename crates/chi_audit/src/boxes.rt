//! The two ends of the channel: an outbox for each agent, and one inbox.

ghost use Rattle.std.specs.Prelude.{◌≡◌, ◌<◌, [], ◌∷◌, ◌++◌, IfOk, MatchOption, map};
ghost use Rattle.crossbeam_channel.specs.Claims.{IsSeatAt, view as knows};
ghost use Rattle.crossbeam_channel.specs.Ends.{sends_on, receives_on};
ghost use Rattle.chi_audit.specs.Boxes.{empty_inbox, outbox_at, HasFailed, IsReceived};
ghost use Rattle.chi_audit.specs.Numbers.{numbers};

use crate::once::{Next, Once, Receives, Sends, Tells};
use crate::report_view::ReportView;
use crate::reports::Report;
use chi_flit::{Agent, NoMemory};
use crossbeam_channel::{Pass, RuledReceiver, RuledSender, bounded_with};
use std::alloc::{Allocator, Global};
use std::marker::Model;
use std::sync::Wait;

/// The outbox of one agent, which sends at most one report. It keeps the channel's other end too, so that there is
/// always one who could receive, and a send can't fail. Contracts see an `OutboxState`.
#[derive(Drop)]
pub struct Outbox<A: Allocator = Global> {
    agent: Agent,
    sender: RuledSender<Report, ReportView, Once, A>,
    receiver: RuledReceiver<Report, ReportView, Once, A>,
    pass: Pass<Report, ReportView>,
}

impl<A: Allocator> Model for Outbox<A> {
    ghost use Rattle.std.specs.Prelude.{◌≡◌};
    ghost use Rattle.crossbeam_channel.specs.Claims.{IsSeatAt, view as knows};
    ghost use Rattle.crossbeam_channel.specs.Ends.{sends_on};
    ghost use Rattle.chi_audit.specs.Boxes.{sender_view, OutboxState};

    ghost Value = { OutboxState };

    ghost view = { λ o. record {
      agent = o.agent.0;
      channel = record {
        table = (sends_on o.sender).stamps.shared.table_id;
        key = (sends_on o.sender).stamps.shared.key;
      };
    } };

    ghost invariant = { λ o. IsSeatAt (sends_on o.sender) o.pass
        × (knows o.pass ≡ sender_view o.agent.0) };
}

impl<A: Allocator> Outbox<A> {
    /// The agent whose report it sends.
    pub fn agent(&self) -> Agent
        ensures { result.0 ≡ self.now.agent }
    {
        self.agent
    }

    /// Sends the agent's report, after which none is sent for the agent any more: the report is in the channel
    /// or was received. It may wait.
    /// Source: `docs/FORMATS.md`, "Reports and tallies".
    pub fn send<R: Wait>(self, rt: &R, report: Report) -> Sent<A>
        requires { report.agent.0 ≡ self.agent }
        ensures { result ≡ record { report = report; channel = self.channel } }
    {
        let Outbox {
            agent: _,
            sender,
            receiver: _kept,
            mut pass,
        } = self;
        for _ in rt.forever() {
            if sender.send_as::<Sends, R>(rt, &mut pass, report).is_ok() {
                return Sent {
                    report,
                    sender,
                    pass,
                };
            }
        }
        unreachable!()
    }
}

/// A report that an outbox has sent: nothing else makes one. It keeps the channel open. Contracts see a
/// `SentState`.
#[derive(Drop)]
pub struct Sent<A: Allocator = Global> {
    report: Report,
    sender: RuledSender<Report, ReportView, Once, A>,
    pass: Pass<Report, ReportView>,
}

impl<A: Allocator> Model for Sent<A> {
    ghost use Rattle.std.specs.Prelude.{◌≡◌};
    ghost use Rattle.crossbeam_channel.specs.Claims.{IsSeatAt, view as knows};
    ghost use Rattle.crossbeam_channel.specs.Ends.{sends_on};
    ghost use Rattle.chi_audit.specs.Boxes.{teller_view, SentState};

    ghost Value = { SentState };

    ghost view = { λ s. record {
      report = s.report;
      channel = record {
        table = (sends_on s.sender).stamps.shared.table_id;
        key = (sends_on s.sender).stamps.shared.key;
      };
    } };

    ghost invariant = { λ s. IsSeatAt (sends_on s.sender) s.pass
        × (knows s.pass ≡ teller_view s.report) };
}

impl<A: Allocator> Sent<A> {
    /// The report that was sent.
    pub fn report(&self) -> Report
        ensures { result ≡ self.now.report }
    {
        self.report
    }
}

/// Where the reports arrive. Contracts see an `InboxState`: those that it received, the oldest first, those of
/// which it is told that they were sent, whether a receive failed, and for how many reports the channel has room.
#[derive(Drop)]
pub struct Inbox<A: Allocator = Global> {
    receiver: RuledReceiver<Report, ReportView, Once, A>,
    pass: Pass<Report, ReportView>,
    failed: bool,
}

impl<A: Allocator> Model for Inbox<A> {
    ghost use Rattle.std.specs.Prelude.{◌≡◌, true};
    ghost use Rattle.crossbeam_channel.specs.Claims.{IsSeatAt, view as knows};
    ghost use Rattle.crossbeam_channel.specs.Ends.{receives_on, ruled_capacity};
    ghost use Rattle.chi_audit.specs.Boxes.{InboxState};

    ghost Value = { InboxState };

    ghost view = { λ i. record {
      got = (knows i.pass).got;
      told = (knows i.pass).told;
      failed = i.failed;
      channel = record {
        table = (receives_on i.receiver).stamps.shared.table_id;
        key = (receives_on i.receiver).stamps.shared.key;
      };
      room = ruled_capacity (receives_on i.receiver);
    } };

    ghost invariant = { λ i. IsSeatAt (receives_on i.receiver) i.pass
        × ((knows i.pass).opens ≡ true) };
}

impl<A: Allocator> Inbox<A> {
    /// The next report: where it is told which one of that agent was sent, it is that one. None where no
    /// outbox and no sent report that it isn't told of is left, and no report either: then all that it is told
    /// of was received. It may wait.
    /// Source: `docs/FORMATS.md`, "Reports and tallies".
    pub fn receive<R: Wait>(&mut self, rt: &R) -> Option<Report>
        ensures { MatchOption result
            (HasFailed self.old self.new) (λ r. IsReceived self.old r self.new) }
    {
        match self.receiver.recv_as::<Receives, R>(rt, &mut self.pass) {
            Ok(report) => Some(report),
            Err(_) => {
                self.failed = true;
                None
            }
        }
    }

    /// The inbox is told that a report was sent through its channel. It takes no memory and waits for nobody.
    /// Source: `docs/FORMATS.md`, "Reports and tallies".
    pub fn absorb(&mut self, sent: Sent<A>)
        requires { sent.channel ≡ self.old.channel }
        ensures { self.new ≡ record self.old { told = self.old.told ++ sent.report ∷ [] } }
    {
        let Sent {
            report: _,
            sender,
            pass,
        } = sent;
        sender.absorb::<Tells>(&mut self.pass, pass);
    }
}

/// An outbox for each agent, in rising order, and the inbox, which has received nothing and is told of nothing.
/// Their channel has room for one report of each agent. Refused where memory runs out.
/// Source: `docs/FORMATS.md`, "Reports and tallies".
#[tactic(auto, using(crate::proofs::Channel::begins))]
pub fn open_boxes<A: Allocator + Clone>(
    alloc: A,
    agents: u8,
) -> Result<(Vec<Outbox<A>, A>, Inbox<A>), NoMemory>
    requires { 0 < agents }
    ensures outboxes { IfOk result
        (λ made. made.0.items ≡ map (outbox_at made.1.channel) (numbers agents)) }
    ensures inbox { IfOk result (λ made. made.1 ≡ empty_inbox made.1.channel agents) }
{
    let (sender, receiver, mut pass) = bounded_with::<Report, ReportView, Once, A>(
        alloc.clone()?,
        usize::from(agents),
    )?;
    let mut outboxes = Vec::new(alloc);
    for agent in 0..agents {
        let own = sender.another::<Next>(&mut pass);
        outboxes.push(Outbox {
            agent: Agent(agent),
            sender: sender.try_clone()?,
            receiver: receiver.try_clone()?,
            pass: own,
        })?;
    }
    let inbox = Inbox {
        receiver,
        pass,
        failed: false,
    };
    Ok((outboxes, inbox))
}
