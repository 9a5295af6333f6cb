//! One line at the home.

ghost use Rattle.std.specs.Prelude.{◌≡◌, ◌<◌, ◌↔◌, IfOk, IfSome, IsTrue, OnErr, Some, is_some, true, ⊤};
ghost use Rattle.chi_filter.specs.Filter.{is_in, is_named};
ghost use Rattle.chi_flit.specs.Refusal.{refusal_of};
ghost use Rattle.chi_homeline.specs.Home.{Home, IsServedInRange, home_of_parts, home_after_ack, acks_for, home_after_admit, answer_taken, asks, home_after_completion, completes_unique, completion_form, data_to_send, finished_home, finished_sends, idle_home, leaves, home_after_service, served_kind, served_sends, served_slot, snoop_answered, snoop_answered_sends, home_after_start, start_refusal, started_as, started_sends, started_with, waiting_of, writes_for, home_after_write};
ghost use Rattle.chi_flit.specs.declared.kind.Kind.{Kind};
ghost use Rattle.chi_homeline.specs.declared.serving.Completion.{Completion};

use crate::serving::{Begun, Completion, CompletionForm, Serving, SnoopAnswer, Waiting};
use chi_filter::{Filter, has_any};
use chi_flit::{Agent, Data, Kind, NO_DATA, Refusal, Slot, Snoop, State};
use std::alloc::AllocError;
use std::marker::Model;

/// What the home keeps of one line. Contracts see it as a `Home`. Each agent's number is below 8.
/// Source: `docs/PROTOCOL.md`, "One line".
#[derive(Drop, PartialEq, Eq)]
pub struct HomeLine {
    memory: Data,
    filter: Filter,
    serving: Serving,
    awaited: [bool; 8],
    waiting: [Option<Waiting>; 8],
}

impl Model for HomeLine {
    ghost use Rattle.chi_homeline.specs.Home.{Home, IsServedInRange};

    ghost Value = { Home };

    ghost view = { λ home. record { memory = home.memory; filter = home.filter; serving = home.serving; awaited = home.awaited; waiting = home.waiting } };

    ghost inverse = { λ home. record { memory = home.memory; filter = home.filter; serving = home.serving; awaited = home.awaited; waiting = home.waiting } };

    ghost invariant = { λ home. IsServedInRange home.serving };
}

impl Clone for HomeLine {
    ghost is_clone = { λ home copy. copy ≡ home };

    ghost is_infallible = { λ _. ⊤ };

    fn clone(&self) -> Result<Self, AllocError> {
        Ok(HomeLine {
            memory: self.memory,
            filter: self.filter.clone()?,
            serving: self.serving,
            awaited: self.awaited,
            waiting: self.waiting,
        })
    }
}

/// Whether the agent that is served, if one is, is one of the eight.
fn is_served_in_range(serving: Serving) -> bool
    ensures { IsTrue result ↔ IsServedInRange serving }
{
    match serving {
        Serving::Idle => true,
        Serving::Snooping { agent, .. }
        | Serving::AwaitingCompAck { agent, .. }
        | Serving::AwaitingWriteData { agent, .. } => agent.0 < 8,
    }
}

impl HomeLine {
    /// A line that nobody holds and whose memory is 0, with nothing waiting or served.
    /// Source: `docs/PROTOCOL.md`, "One line".
    pub fn new() -> HomeLine
        ensures { result ≡ idle_home }
    {
        HomeLine {
            memory: NO_DATA,
            filter: Filter::new(),
            serving: Serving::Idle,
            awaited: [false; 8],
            waiting: [None; 8],
        }
    }

    /// What a home keeps of a line, of these parts: arrays go by agent number.
    ///
    /// `None` exactly where the agent that is served, if one is, isn't one of the eight.
    /// Source: `docs/PROTOCOL.md`, "One line".
    pub fn of_parts(
        memory: Data,
        filter: Filter,
        serving: Serving,
        awaited: [bool; 8],
        waiting: [Option<Waiting>; 8],
    ) -> Option<HomeLine>
        ensures parts { IfSome result (λ home. home
            ≡ home_of_parts memory filter serving awaited waiting) }
        ensures exactly { IsTrue (is_some result) ↔ IsServedInRange serving }
    {
        if !is_served_in_range(serving) {
            return None;
        }
        Some(HomeLine {
            memory,
            filter,
            serving,
            awaited,
            waiting,
        })
    }

    /// Lets the agent's request in: it waits, in place of any that waited. All else stays.
    ///
    /// Conditions: the agent's number is below 8.
    /// Source: `docs/PROTOCOL.md`, "The actions", Admit.
    pub fn admit(&mut self, agent: Agent, request: Waiting)
        requires { agent.0 < 8 }
        ensures { self.new ≡ home_after_admit self.old agent.0 request }
    {
        self.waiting[usize::from(agent.0)] = Some(request);
    }

    /// The agent's waiting request, where it may be started.
    #[inline(always)]
    fn to_start(&self, agent: Agent) -> Result<Waiting, Refusal>
        requires { agent.0 < 8 }
        ensures refusal { refusal_of result ≡ start_refusal self.now agent.0 }
        ensures request { IfOk result (λ request. waiting_of self.now agent.0 ≡ Some request) }
    {
        let Some(request) = self.waiting[usize::from(agent.0)] else {
            return Err(Refusal::NotWaiting);
        };
        if !matches!(self.serving, Serving::Idle) {
            return Err(Refusal::LineBusy);
        }
        Ok(request)
    }

    /// The refusal that `start` would answer: 6 (NotWaiting) where the agent doesn't wait, then 5 (LineBusy)
    /// where the line is served.
    ///
    /// Conditions: the agent's number is below 8.
    /// Source: `docs/PROTOCOL.md`, "Start".
    #[inline(always)]
    pub fn why_no_start(&self, agent: Agent) -> Option<Refusal>
        requires { agent.0 < 8 }
        ensures { result ≡ start_refusal self.now agent.0 }
    {
        self.to_start(agent).err()
    }

    /// Begins to serve the agent's waiting request, which waits no more; the memory and the other
    /// requests that wait stay. Answers what is to be sent, where the memory is the data of a completion:
    /// so whoever sends it needn't copy that twice.
    ///
    /// Refused 6 (NotWaiting) where the agent doesn't wait, then 5 (LineBusy) where the line is served;
    /// nothing changes then. Conditions: the agent's number is below 8.
    /// Source: `docs/PROTOCOL.md`, "Start".
    pub fn start(&mut self, agent: Agent) -> Result<Begun, Refusal>
        requires { agent.0 < 8 }
        ensures refusal { refusal_of result ≡ start_refusal self.old agent.0 }
        ensures sends { IfOk result (λ begun. (request : Waiting)
            → waiting_of self.old agent.0 ≡ Some request
            → started_with begun self.old.memory ≡ started_sends self.old agent request) }
        ensures ok { IfOk result (λ _. (request : Waiting)
            → waiting_of self.old agent.0 ≡ Some request
            → self.new ≡ home_after_start self.old agent request) }
        ensures memory { IfOk result (λ _. self.new.memory ≡ self.old.memory) }
        ensures err { OnErr result (self.new ≡ self.old) }
    {
        let request = self.to_start(agent)?;
        Ok(self.started(agent, request))
    }

    /// What `start` does where nothing refuses it.
    ///
    /// Conditions: the agent's number is below 8, and its request, this one, waits.
    /// Source: `docs/PROTOCOL.md`, "Start".
    #[inline(always)]
    pub fn started(&mut self, agent: Agent, request: Waiting) -> Begun
        requires agent { agent.0 < 8 }
        requires waiting { waiting_of self.old agent.0 ≡ Some request }
        ensures sends { started_with result self.old.memory ≡ started_sends self.old agent request }
        ensures after { self.new ≡ home_after_start self.old agent request }
        ensures memory { self.new.memory ≡ self.old.memory }
    {
        self.waiting[usize::from(agent.0)] = None;
        self.take_up(agent, request)
    }

    /// Serves a request that was taken out of those that wait. Answers what is to be sent, with the memory
    /// as the data.
    fn take_up(&mut self, agent: Agent, request: Waiting) -> Begun
        requires { agent.0 < 8 }
        ensures sends { started_with result self.old.memory ≡ started_sends self.old agent request }
        ensures memory { self.new.memory ≡ self.old.memory }
        ensures after { self.new ≡ started_as request.kind self.old agent request.slot }
    {
        let kind = request.kind;
        let slot = request.slot;
        match kind {
            Kind::ReadNotSharedDirty => self.serve(agent, kind, Snoop::SnpNotSharedDirty, slot),
            Kind::ReadShared => self.serve(agent, kind, Snoop::SnpShared, slot),
            Kind::ReadUnique => self.serve(agent, kind, Snoop::SnpUnique, slot),
            Kind::CleanUnique => self.serve(agent, kind, Snoop::SnpCleanInvalid, slot),
            Kind::Evict => {
                self.filter.remove(agent);
                Begun::Evicted(slot)
            }
            Kind::WriteBackFull | Kind::WriteCleanFull | Kind::WriteEvictFull => {
                self.serving = Serving::AwaitingWriteData { agent, kind, slot };
                Begun::WriteData
            }
        }
    }

    /// Snoops for a request, or completes it at once where there is nobody to ask.
    fn serve(&mut self, agent: Agent, kind: Kind, snoop: Snoop, slot: Slot) -> Begun
        requires { agent.0 < 8 }
        ensures sends { started_with result self.old.memory
            ≡ served_sends self.old kind snoop agent }
        ensures memory { self.new.memory ≡ self.old.memory }
        ensures after { self.new ≡ home_after_service self.old kind agent slot }
    {
        let agents = agents_to_ask(&self.filter, kind, agent);
        if has_any(&agents) {
            self.serving = Serving::Snooping { agent, kind, slot };
            self.awaited = agents;
            return Begun::Snoops { snoop, agents };
        }
        Begun::Completes(self.complete(agent, kind, slot))
    }

    /// Completes a request of the kind. Answers the form of its completion.
    /// Source: `docs/PROTOCOL.md`, "Completion".
    fn complete(&mut self, agent: Agent, kind: Kind, slot: Slot) -> CompletionForm
        requires { agent.0 < 8 }
        ensures form { result ≡ completion_form kind (completes_unique kind self.old.filter agent.0) }
        ensures after { self.new ≡ home_after_completion self.old kind agent slot }
        ensures memory { self.new.memory ≡ self.old.memory }
    {
        let unique = completes_unique(&self.filter, kind, agent);
        if unique {
            self.filter.only(agent);
        } else {
            self.filter.share();
            self.filter.add(agent);
        }
        self.serving = Serving::AwaitingCompAck { agent, slot };
        completion_form(kind, unique)
    }

    /// Takes the agent's CompAck: the line is idle. Answers the slot of the request that is complete.
    ///
    /// Conditions: that CompAck is awaited.
    /// Source: `docs/PROTOCOL.md`, "The actions", RecvAck.
    pub fn ack(&mut self, agent: Agent) -> Slot
        requires { acks_for self.old.serving agent.0 ≡ true }
        ensures slot { served_slot self.old.serving ≡ Some result }
        ensures after { self.new ≡ home_after_ack self.old }
    {
        let Serving::AwaitingCompAck { slot, .. } = self.serving else {
            unreachable!()
        };
        self.serving = Serving::Idle;
        slot
    }

    /// The memory's value of the line.
    /// Source: `docs/PROTOCOL.md`, "One line".
    pub fn memory(&self) -> Data
        ensures { result ≡ self.now.memory }
    {
        self.memory
    }

    /// The snoop filter of the line.
    /// Source: `docs/PROTOCOL.md`, "One line".
    pub fn filter(&self) -> &Filter
        ensures { result.now ≡ self.now.filter }
    {
        &self.filter
    }

    /// The request that is served.
    /// Source: `docs/PROTOCOL.md`, "One line".
    pub fn serving(&self) -> Serving
        ensures { result ≡ self.now.serving }
    {
        self.serving
    }

    /// The agents whose snoop answer is awaited, a mark for each agent number.
    /// Source: `docs/PROTOCOL.md`, "One line".
    pub fn awaited(&self) -> [bool; 8]
        ensures { result ≡ self.now.awaited }
    {
        self.awaited
    }

    /// The requests that wait, by agent; `None` for an agent that has none there.
    /// Source: `docs/PROTOCOL.md`, "One line".
    pub fn all_waiting(&self) -> [Option<Waiting>; 8]
        ensures { result ≡ self.now.waiting }
    {
        self.waiting
    }

    /// The agent's request that waits; `None` where there is none.
    ///
    /// Conditions: the agent's number is below 8.
    /// Source: `docs/PROTOCOL.md`, "One line".
    pub fn waiting(&self, agent: Agent) -> Option<Waiting>
        requires { agent.0 < 8 }
        ensures { result ≡ waiting_of self.now agent.0 }
    {
        self.waiting[usize::from(agent.0)]
    }

    /// Takes the agent's answer to its snoop, which is awaited no more. Data of a `_PD` form becomes the
    /// memory; an agent that is left without a copy is named no more; the flag ends where a copy is left;
    /// and the agent is the owner after `SD`, and no owner after any other answer. Answers the completion
    /// that is to be sent, where this was the last answer.
    ///
    /// Conditions: the agent's number is below 8, its answer is awaited, and the filter names it.
    /// Source: `docs/PROTOCOL.md`, "Answers of snooped agents".
    #[inline(always)]
    pub fn snp_resp(&mut self, agent: Agent, answer: SnoopAnswer) -> Option<Completion>
        requires agent { agent.0 < 8 }
        requires awaited { is_in self.old.awaited agent.0 ≡ true }
        requires named { is_named self.old.filter agent.0 ≡ true }
        ensures sends { result ≡ snoop_answered_sends self.old agent answer }
        ensures agent { (completion : Completion) → result ≡ Some completion
            → completion.agent.0 < 8 }
        ensures after { self.new ≡ snoop_answered self.old agent answer }
    {
        let sent = data_to_send(answer, self.memory);
        self.take_answer(agent, answer);
        self.finish(sent)
    }

    /// Takes the agent's answer, and doesn't look whether it was the last one.
    fn take_answer(&mut self, agent: Agent, answer: SnoopAnswer)
        requires agent { agent.0 < 8 }
        requires named { is_named self.old.filter agent.0 ≡ true }
        ensures { self.new ≡ answer_taken self.old agent answer }
    {
        self.awaited[usize::from(agent.0)] = false;
        match answer {
            SnoopAnswer::I => self.filter.remove(agent),
            SnoopAnswer::SC => {
                self.filter.share();
                self.filter.end_owner(agent);
            }
            SnoopAnswer::IPD(words) => {
                self.memory = words;
                self.filter.remove(agent);
            }
            SnoopAnswer::SCPD(words) => {
                self.memory = words;
                self.filter.share();
                self.filter.end_owner(agent);
            }
            SnoopAnswer::SD(_) => {
                self.filter.share();
                self.filter.make_owner(agent);
            }
        }
    }

    /// Completes the request that is snooped for, where no answer is awaited any more. Answers the
    /// completion.
    fn finish(&mut self, sent: Data) -> Option<Completion>
        ensures sends { result ≡ finished_sends self.old sent }
        ensures agent { (completion : Completion) → result ≡ Some completion
            → completion.agent.0 < 8 }
        ensures after { self.new ≡ finished_home self.old }
    {
        let Serving::Snooping { agent, kind, slot } = self.serving else {
            return None;
        };
        if has_any(&self.awaited) {
            return None;
        }
        let message = self.complete(agent, kind, slot).message(sent);
        Some(Completion { agent, message })
    }

    /// Takes the agent's write data: dirty data becomes the memory, the agent is no owner and, where no
    /// copy is left to it, named no more, and the line is idle. Answers the slot of the request that is
    /// complete.
    ///
    /// Conditions: the agent's number is below 8, and its write data is awaited.
    /// Source: `docs/PROTOCOL.md`, "Write data".
    pub fn wr_data(&mut self, agent: Agent, form: State, words: Data) -> Slot
        requires agent { agent.0 < 8 }
        requires awaited { writes_for self.old.serving agent.0 ≡ true }
        ensures slot { served_slot self.old.serving ≡ Some result }
        ensures after { (kind : Kind) → served_kind self.old.serving ≡ Some kind
            → self.new ≡ home_after_write self.old agent.0 kind form words }
    {
        let Serving::AwaitingWriteData { kind, slot, .. } = self.serving else {
            unreachable!()
        };
        if form.is_dirty() {
            self.memory = words;
        }
        if leaves(kind, form) {
            self.filter.remove(agent);
        } else {
            self.filter.end_owner(agent);
        }
        self.serving = Serving::Idle;
        slot
    }
}

/// The data of a completion that an answer brings, beside the memory before it.
fn data_to_send(answer: SnoopAnswer, memory: Data) -> Data
    ensures { result ≡ data_to_send answer memory }
{
    match answer {
        SnoopAnswer::I | SnoopAnswer::SC => memory,
        SnoopAnswer::IPD(words) | SnoopAnswer::SCPD(words) | SnoopAnswer::SD(words) => words,
    }
}

/// Whether write data of the form leaves its sender without a copy.
fn leaves(kind: Kind, form: State) -> bool
    ensures { result ≡ leaves kind form }
{
    kind.gives_up() || !form.is_valid()
}

/// Whom a request asks, by its kind.
/// Source: `docs/PROTOCOL.md`, "Start".
fn agents_to_ask(filter: &Filter, kind: Kind, agent: Agent) -> [bool; 8]
    requires { agent.0 < 8 }
    ensures { result ≡ asks kind filter.now agent.0 }
{
    let others = filter.others_than(agent);
    match kind {
        Kind::ReadNotSharedDirty | Kind::ReadShared => {
            if filter.is_unique() && has_any(&others) {
                others
            } else {
                filter.other_owner(agent)
            }
        }
        Kind::ReadUnique | Kind::CleanUnique => others,
        _ => [false; 8],
    }
}

/// Whether a completion leaves its agent the only one named, by the kind of its request.
/// Source: `docs/PROTOCOL.md`, "Completion".
fn completes_unique(filter: &Filter, kind: Kind, agent: Agent) -> bool
    requires { agent.0 < 8 }
    ensures { result ≡ completes_unique kind filter.now agent.0 }
{
    match kind {
        Kind::ReadNotSharedDirty | Kind::ReadShared => !has_any(&filter.others_than(agent)),
        Kind::ReadUnique | Kind::CleanUnique => true,
        _ => false,
    }
}

/// The form of a completion, by the kind of its request: a CleanUnique's has no data.
/// Source: `docs/PROTOCOL.md`, "Completion".
fn completion_form(kind: Kind, unique: bool) -> CompletionForm
    ensures { result ≡ completion_form kind unique }
{
    match kind {
        Kind::CleanUnique => CompletionForm::NoData,
        _ => CompletionForm::Data { unique },
    }
}
