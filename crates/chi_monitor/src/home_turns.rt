//! What the home does at a line, and whom it names: which of its flits may come next, whatever copies and words are.

ghost use Rattle.std.specs.Prelude.{◌≡◌, ◌<◌, is_none};
ghost use Rattle.std.specs.Result.{result_ok};
ghost use Rattle.chi_monitor.specs.Forgotten.{is_snooping};
ghost use Rattle.chi_monitor.specs.HomeTurns.{acknowledged, answered, answered_filter, asks_for, asks_waiting, askers, completed, evicted, filter_of, given, home_after, is_complete, is_for, is_idle, kind_of, known_filter, more_snooped, read_completed, retried, snooped, snooping_for, write_asked, written};
ghost use Rattle.chi_monitor.specs.Turns.{turn_of};

use crate::faults::{Awaited, LineFault, SeenAt, WrongForm, WrongSnoops};
use crate::filter::{AgentSet, KnownFilter, NOBODY, beside, first_beside, has, with_mark};
use crate::turns::{Asked, Turns, turn_of};
use chi_filter::has_any;
use chi_flit::{Agent, DatUp, Kind, Msg, RspDown, RspUp, Snoop, State};

/// A group of snoops, whose request a completion tells.
#[derive(Clone, Copy)]
pub(crate) struct Group {
    pub snoop: Snoop,
    /// Whose request it may be.
    pub may_be: AgentSet,
    pub snooped: AgentSet,
    pub answered: AgentSet,
    /// Its first snoop.
    pub since: SeenAt,
}

/// What the home does.
#[derive(Clone, Copy)]
pub(crate) enum Service {
    Idle,
    Snooping(Group),
    /// The CompAck to the completion that was seen then.
    AwaitingAck(Agent, SeenAt),
    /// The write data that the CompDBIDResp asks for which was seen then.
    AwaitingWriteData(Agent, SeenAt),
}

/// What the home does, and its filter once all that was sent to it has come.
#[derive(Clone, Copy)]
pub(crate) struct HomeTurn {
    pub filter: KnownFilter,
    pub service: Service,
}

/// Why the home doesn't send a flit.
#[derive(Clone, Copy)]
pub(crate) enum HomeFault {
    Told(LineFault),
    /// A completion of a request of this kind, and this agent, whatever its copy is, is to be snooped first.
    Unsnooped(Kind, Agent),
    /// Data for a unique copy, and the home names this agent too, whatever its copy is.
    Shared(Agent),
}

/// When the agent was snooped for the group's request; when the group began where it has answered.
fn snooped_since(turns: &Turns, agent: Agent, group: &Group) -> SeenAt
    requires { agent.0 < 8 }
{
    match turn_of(turns, agent).snoop {
        Some(open) => open.since,
        None => group.since,
    }
}

/// Whether a request of the kind is served by this snoop.
fn is_for(kind: Kind, snoop: Snoop) -> bool
    ensures { result ≡ is_for kind snoop }
{
    match kind.snoop() {
        Some(own) => own.number() == snoop.number(),
        None => false,
    }
}

/// Whether a group of snoops has no completion yet, which tells whose it is.
pub(crate) fn is_snooping(service: &Service) -> bool
    ensures { result ≡ is_snooping service.now }
{
    matches!(service, Service::Snooping(_))
}

impl HomeTurn {
    /// Nobody is named, and nothing is under way.
    pub const NONE: HomeTurn = HomeTurn {
        filter: KnownFilter::NONE,
        service: Service::Idle,
    };

    /// Whether a request of the agent waits that asks for this snoop of the other agent.
    fn asks(&self, turns: &Turns, agent: Agent, snoop: Snoop, other: Agent) -> bool
        requires { agent.0 < 8 }
        ensures { result ≡ asks_for self.now.filter turns.now agent snoop other.0 }
    {
        match turn_of(turns, agent).waiting() {
            Some(asked) => self.asks_waiting(&asked, agent, snoop, other),
            None => false,
        }
    }

    /// The same of a request that waits.
    fn asks_waiting(&self, asked: &Asked, agent: Agent, snoop: Snoop, other: Agent) -> bool
        requires { agent.0 < 8 }
        ensures { result ≡ asks_waiting self.now.filter asked.now agent snoop other.0 }
    {
        is_for(asked.kind, snoop) && has(&self.filter.targets(agent, asked.kind), other)
    }

    /// The agents of a set whose waiting request asks for this snoop of the agent.
    fn askers(&self, turns: &Turns, snoop: Snoop, agent: Agent, among: &AgentSet) -> AgentSet
        ensures { result ≡ askers self.now.filter turns.now snoop agent.0 among.now }
    {
        [
            among[0] && self.asks(turns, Agent(0), snoop, agent),
            among[1] && self.asks(turns, Agent(1), snoop, agent),
            among[2] && self.asks(turns, Agent(2), snoop, agent),
            among[3] && self.asks(turns, Agent(3), snoop, agent),
            among[4] && self.asks(turns, Agent(4), snoop, agent),
            among[5] && self.asks(turns, Agent(5), snoop, agent),
            among[6] && self.asks(turns, Agent(6), snoop, agent),
            among[7] && self.asks(turns, Agent(7), snoop, agent),
        ]
    }

    /// The same home, snooping for a request of one of those whose it may be.
    fn in_group(&self, group: Group) -> Result<HomeTurn, HomeFault>
        ensures { result_ok result ≡ snooping_for self.now.filter group }
    {
        if has_any(&group.may_be) {
            Ok(HomeTurn {
                service: Service::Snooping(group),
                ..*self
            })
        } else {
            Err(HomeFault::Told(LineFault::NobodyAsks(group.snoop)))
        }
    }

    /// A snoop to the agent.
    fn snooped(
        &self,
        turns: &Turns,
        at: SeenAt,
        agent: Agent,
        snoop: Snoop,
    ) -> Result<HomeTurn, HomeFault>
        requires { agent.0 < 8 }
        ensures { result_ok result ≡ snooped self.now turns.now at agent snoop }
    {
        match self.service {
            Service::Idle => self.in_group(Group {
                snoop,
                may_be: self.askers(turns, snoop, agent, &[true; 8]),
                snooped: with_mark(NOBODY, agent, true),
                answered: NOBODY,
                since: at,
            }),
            Service::Snooping(group) => self.more_snooped(turns, group, agent, snoop),
            Service::AwaitingAck(served, since) => Err(early_snoop(Awaited::Ack(served, since))),
            Service::AwaitingWriteData(served, since) => {
                Err(early_snoop(Awaited::WriteData(served, since)))
            }
        }
    }

    /// A further snoop of a group.
    fn more_snooped(
        &self,
        turns: &Turns,
        group: Group,
        agent: Agent,
        snoop: Snoop,
    ) -> Result<HomeTurn, HomeFault>
        requires { agent.0 < 8 }
        ensures { result_ok result ≡ more_snooped self.now.filter turns.now group agent snoop }
    {
        if has(&group.snooped, agent) {
            let since = snooped_since(turns, agent, &group);
            return Err(HomeFault::Told(LineFault::SnoopedTwice(since)));
        }
        if group.snoop.number() != snoop.number() {
            return Err(HomeFault::Told(LineFault::NobodyAsks(snoop)));
        }
        self.in_group(Group {
            may_be: self.askers(turns, group.snoop, agent, &group.may_be),
            snooped: with_mark(group.snooped, agent, true),
            ..group
        })
    }

    /// A RetryAck to the agent.
    fn retried(&self, agent: Agent) -> Result<HomeTurn, HomeFault>
        requires { agent.0 < 8 }
        ensures { result_ok result ≡ retried self.now agent }
    {
        let Service::Snooping(group) = self.service else {
            return Ok(*self);
        };
        let may_be = with_mark(group.may_be, agent, false);
        if !has_any(&may_be) {
            return Err(HomeFault::Told(LineFault::ServedRetry(group.since)));
        }
        Ok(HomeTurn {
            service: Service::Snooping(Group { may_be, ..group }),
            ..*self
        })
    }

    /// The filter behind an answer of the agent.
    fn answered_filter(&self, agent: Agent, message: &Msg) -> KnownFilter
        requires { agent.0 < 8 }
        ensures { result
            ≡ known_filter (answered_filter message.now (filter_of self.now.filter) agent) }
    {
        match message {
            Msg::RspUp(RspUp::SnpRespI) | Msg::DatUp(DatUp::SnpRespDataIPD(_)) => {
                self.filter.left(agent)
            }
            Msg::RspUp(RspUp::SnpRespSC) | Msg::DatUp(DatUp::SnpRespDataSCPD(_)) => {
                self.filter.shared(agent)
            }
            Msg::DatUp(DatUp::SnpRespDataSD(_)) => self.filter.owned(agent),
            _ => self.filter,
        }
    }

    /// An answer of the agent to its snoop.
    fn answered(&self, agent: Agent, message: &Msg) -> HomeTurn
        requires { agent.0 < 8 }
        ensures { result ≡ answered self.now agent message.now }
    {
        HomeTurn {
            filter: self.answered_filter(agent, message),
            service: match self.service {
                Service::Snooping(group) => Service::Snooping(Group {
                    answered: with_mark(group.answered, agent, true),
                    ..group
                }),
                service => service,
            },
        }
    }

    /// A completion of the agent's request of this kind.
    fn completed(
        &self,
        turns: &Turns,
        at: SeenAt,
        agent: Agent,
        kind: Kind,
    ) -> Result<HomeTurn, HomeFault>
        requires { agent.0 < 8 }
        ensures { result_ok result ≡ completed self.now at agent kind }
    {
        let targets = self.filter.targets(agent, kind);
        match self.service {
            Service::Idle if has_any(&targets) => Err(unsnooped(kind, &targets, &NOBODY)),
            Service::Idle => Ok(self.given(at, agent, kind)),
            Service::Snooping(group) if is_complete(&group, agent, &targets) => {
                Ok(self.given(at, agent, kind))
            }
            Service::Snooping(group) => Err(wrong_snoops(turns, agent, kind, &targets, &group)),
            Service::AwaitingAck(served, since) => {
                Err(early_completion(Awaited::Ack(served, since)))
            }
            Service::AwaitingWriteData(served, since) => {
                Err(early_completion(Awaited::WriteData(served, since)))
            }
        }
    }

    /// The home behind a completion of the agent's request of this kind.
    fn given(&self, at: SeenAt, agent: Agent, kind: Kind) -> HomeTurn
        requires { agent.0 < 8 }
        ensures { result ≡ given self.now at agent kind }
    {
        let unique = self.filter.completes_unique(agent, kind);
        HomeTurn {
            filter: self.filter.completed(agent, unique),
            service: Service::AwaitingAck(agent, at),
        }
    }

    /// The data of the agent's read, for a unique copy or a shared one.
    fn read_completed(
        &self,
        turns: &Turns,
        at: SeenAt,
        agent: Agent,
        unique: bool,
    ) -> Result<HomeTurn, HomeFault>
        requires { agent.0 < 8 }
        ensures { result_ok result
            ≡ read_completed self.now at agent (kind_of (turn_of turns.now agent).asked) unique }
    {
        let kind = turn_of(turns, agent).kind();
        let completed = self.completed(turns, at, agent, kind)?;
        if unique == self.filter.completes_unique(agent, kind) {
            Ok(completed)
        } else {
            Err(self.wrong_form(agent, kind))
        }
    }

    /// The form that the data of the agent's read is to have in place of the other one.
    fn wrong_form(&self, agent: Agent, kind: Kind) -> HomeFault
        requires { agent.0 < 8 }
    {
        if matches!(kind, Kind::ReadUnique) {
            return HomeFault::Told(LineFault::Form(WrongForm::NotUnique));
        }
        match first_beside(&self.filter.others(agent), &NOBODY) {
            Some(other) => HomeFault::Shared(other),
            None => HomeFault::Told(LineFault::Form(WrongForm::Alone)),
        }
    }

    /// What the home awaits for the request that it serves; `None` where it serves none.
    fn awaited(&self, turns: &Turns) -> Option<Awaited>
        ensures { is_none result ≡ is_idle self.now.service }
    {
        match self.service {
            Service::Idle => None,
            Service::Snooping(group) => Some(match first_beside(&group.snooped, &group.answered) {
                Some(other) => Awaited::Answer(other, snooped_since(turns, other, &group)),
                None => Awaited::Nothing(group.since),
            }),
            Service::AwaitingAck(served, since) => Some(Awaited::Ack(served, since)),
            Service::AwaitingWriteData(served, since) => Some(Awaited::WriteData(served, since)),
        }
    }

    /// Comp_I of the agent's Evict.
    fn evicted(&self, turns: &Turns, agent: Agent) -> Result<HomeTurn, HomeFault>
        requires { agent.0 < 8 }
        ensures { result_ok result ≡ evicted self.now agent }
    {
        match self.awaited(turns) {
            Some(awaited) => Err(HomeFault::Told(LineFault::EarlyEvict(awaited))),
            None => Ok(HomeTurn {
                filter: self.filter.left(agent),
                ..*self
            }),
        }
    }

    /// CompDBIDResp of the agent's copy-back.
    fn write_asked(&self, turns: &Turns, at: SeenAt, agent: Agent) -> Result<HomeTurn, HomeFault>
        ensures { result_ok result ≡ write_asked self.now at agent }
    {
        match self.awaited(turns) {
            Some(awaited) => Err(HomeFault::Told(LineFault::EarlyCopyBack(awaited))),
            None => Ok(HomeTurn {
                service: Service::AwaitingWriteData(agent, at),
                ..*self
            }),
        }
    }

    /// The agent's CompAck.
    fn acknowledged(&self) -> HomeTurn
        ensures { result ≡ acknowledged self.now }
    {
        HomeTurn {
            service: Service::Idle,
            ..*self
        }
    }

    /// The agent's write data, in this form.
    fn written(&self, turns: &Turns, agent: Agent, form: State) -> HomeTurn
        requires { agent.0 < 8 }
        ensures { result ≡ written self.now agent (kind_of (turn_of turns.now agent).asked) form }
    {
        let kind = turn_of(turns, agent).kind();
        HomeTurn {
            filter: self
                .filter
                .written(agent, kind.gives_up() || !form.is_valid()),
            service: Service::Idle,
        }
    }

    /// The home behind a flit of the agent, or to it, of this number.
    pub fn after(
        &self,
        turns: &Turns,
        at: SeenAt,
        agent: Agent,
        message: &Msg,
    ) -> Result<HomeTurn, HomeFault>
        requires { agent.0 < 8 }
        ensures { result_ok result ≡ home_after turns.now at self.now agent message.now }
    {
        match message {
            Msg::Req(_) => Ok(*self),
            Msg::Snp(snoop) => self.snooped(turns, at, agent, *snoop),
            Msg::RspDown(RspDown::RetryAck(_)) => self.retried(agent),
            Msg::RspDown(RspDown::CompUC) => self.completed(turns, at, agent, Kind::CleanUnique),
            Msg::RspDown(RspDown::CompI) => self.evicted(turns, agent),
            Msg::RspDown(RspDown::CompDBIDResp) => self.write_asked(turns, at, agent),
            Msg::DatDown(read) => self.read_completed(turns, at, agent, read.unique),
            Msg::RspUp(RspUp::CompAck) => Ok(self.acknowledged()),
            Msg::DatUp(DatUp::CopyBackWrData(form, _)) => Ok(self.written(turns, agent, *form)),
            Msg::RspUp(_) => Ok(self.answered(agent, message)),
            Msg::DatUp(_) => Ok(self.answered(agent, message)),
        }
    }
}

/// A snoop, and the home awaits this for an earlier request.
fn early_snoop(awaited: Awaited) -> HomeFault {
    HomeFault::Told(LineFault::EarlySnoop(awaited))
}

/// A completion, and the home awaits this for an earlier request.
fn early_completion(awaited: Awaited) -> HomeFault {
    HomeFault::Told(LineFault::EarlyCompletion(awaited))
}

/// Whether a group of snoops is one for a request of the agent that asks these, and all of them have answered.
fn is_complete(group: &Group, agent: Agent, targets: &AgentSet) -> bool
    ensures { result ≡ is_complete group.now agent targets.now }
{
    has(&group.may_be, agent)
        && !has_any(&beside(targets, &group.snooped))
        && !has_any(&beside(&group.snooped, &group.answered))
}

/// The fault of a completion for which somebody of the first set, who isn't in the other one, is to be snooped.
fn unsnooped(kind: Kind, targets: &AgentSet, snooped: &AgentSet) -> HomeFault {
    match first_beside(targets, snooped) {
        Some(other) => HomeFault::Unsnooped(kind, other),
        None => HomeFault::Told(LineFault::NoAgent),
    }
}

/// The fault of a completion of the agent's request, which asks these, behind other snoops, or before the answers.
fn wrong_snoops(
    turns: &Turns,
    agent: Agent,
    kind: Kind,
    targets: &AgentSet,
    group: &Group,
) -> HomeFault {
    let wrong = if !has(&group.may_be, agent) {
        WrongSnoops::OfAnother(group.since)
    } else if has_any(&beside(targets, &group.snooped)) {
        return unsnooped(kind, targets, &group.snooped);
    } else {
        match first_beside(&group.snooped, &group.answered) {
            Some(other) => WrongSnoops::Unanswered(other, snooped_since(turns, other, group)),
            None => WrongSnoops::OfAnother(group.since),
        }
    };
    HomeFault::Told(LineFault::Snoops(kind, wrong))
}
