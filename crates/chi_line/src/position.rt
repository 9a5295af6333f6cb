//! Where the request of a slot is: its position, its credit type, and what an action made of it.

ghost use Rattle.std.specs.Prelude.{◌<◌, ◌↔◌, ◌≡◌, IsTrue, Option};
ghost use Rattle.chi_flit.specs.declared.action.Effect.TheVariants.{Completed};
ghost use Rattle.chi_flit.specs.declared.numbers.Slot.{Slot};
ghost use Rattle.chi_homeline.specs.Home.{served_slot, start_refusal, waiting_of};
ghost use Rattle.chi_line.specs.Keeping.{AreNoHighSlots, HasLowSlots, HasLowSlotsOf, IsNoHighSlot};
ghost use Rattle.chi_line.specs.LineState.{cells_of};
ghost use Rattle.chi_line.specs.Outcomes.{outcome_of_end, outcome_of_start, outcome_with_move, outcome_without_move};
ghost use Rattle.chi_line.specs.Places.{agent_seen, is_at_home, phase_at, position_at, response_at, sent_at, unasked_at};
ghost use Rattle.chi_line.specs.Refused.{completed_at, no_flit_unless};
ghost use Rattle.chi_line.specs.Step.{completed_effect, is_slot, pending_slot, slot_of_evict, slot_served_for, slot_unless, waiting_effect, waiting_slot};
ghost use Rattle.chi_line.specs.Types.{has_type, is_of_type, pending_credit, pending_kind_of, requested_kind_of, served_kind_of, waiting_kind_of};

use crate::flits::has_flit;
use crate::line::CoherentLine;
use chi_flit::{
    Agent, CreditType, Effect, Kind, Profile, Request, RspDown, Slot, Step, credit_type,
};
use chi_homeline::{HomeLine, Serving, Waiting};
use chi_rnline::{Pending, Phase};

/// Where a request is.
/// Source: `docs/PROTOCOL.md`, "Agreement".
#[derive(Clone, Copy, Debug, PartialEq, Eq)]
pub enum Position {
    /// In flight, with AllowRetry.
    Sent,
    /// The RetryAck to it is in flight.
    Refused,
    /// Pending in phase Retried.
    Retried,
    /// In flight, without AllowRetry.
    Resent,
    /// It waits or is served at the home, and is pending.
    Admitted,
    /// It is served at the home, and not pending any more.
    Answered,
    /// An Evict whose Comp_I is in flight.
    Closing,
}

/// What an action came to: its effect, and what became of a request of its agent.
/// Source: `docs/PROTOCOL.md`, "The actions" and "Agreement".
#[derive(Clone, Copy, Debug, PartialEq, Eq)]
pub struct ActionOutcome {
    pub effect: Effect,
    /// The slot of the request that was moved, if one was.
    pub slot: Option<Slot>,
    /// Where that request is now; `None` where it is over.
    pub to: Option<Position>,
}

impl ActionOutcome {
    /// An effect, and no request was moved.
    #[inline(always)]
    pub(crate) fn without_move(effect: Effect) -> ActionOutcome
        ensures { result ≡ outcome_without_move effect }
    {
        ActionOutcome {
            effect,
            slot: None,
            to: None,
        }
    }

    /// A request is there now, or over, and there is no effect.
    #[inline(always)]
    pub(crate) fn with_move(slot: Option<Slot>, to: Option<Position>) -> ActionOutcome
        ensures { result ≡ outcome_with_move slot to }
    {
        ActionOutcome {
            effect: Effect::Nothing,
            slot,
            to,
        }
    }

    /// The home is done with the request of the slot, and that is over.
    #[inline(always)]
    pub(crate) fn of_end(slot: Slot) -> ActionOutcome
        ensures { result ≡ outcome_of_end (Completed slot) }
    {
        ActionOutcome {
            effect: Effect::Completed(slot),
            slot: Some(slot),
            to: None,
        }
    }

    /// The home is done with the Evict of the slot, whose completion is in flight.
    #[inline(always)]
    pub(crate) fn of_evict(slot: Slot) -> ActionOutcome
        ensures { result ≡ outcome_of_start (Completed slot) }
    {
        ActionOutcome {
            effect: Effect::Completed(slot),
            slot: Some(slot),
            to: Some(Position::Closing),
        }
    }
}

impl CoherentLine {
    /// Where the request of an agent's slot is at the line; `None` where the line shows nothing of it.
    ///
    /// Conditions: the agent's number is below 8.
    /// Source: `docs/PROTOCOL.md`, "Agreement".
    pub fn position(&self, agent: Agent, slot: Slot) -> Option<Position>
        requires { agent.0 < 8 }
        ensures { result ≡ position_at self.now agent.0 slot }
    {
        match self.copy(agent).pending() {
            Some(request) if request.slot.0 == slot.0 => self.pending_position(
                agent, request, slot,
            ),
            Some(_) | None => self.unasked_position(agent, slot),
        }
    }

    /// Whether no slot of a number above 7 is in use at the line.
    /// Source: `docs/PROTOCOL.md`, "Slots and accounts".
    pub fn has_low_slots(&self) -> bool
        ensures { IsTrue result ↔ HasLowSlots self.now }
    {
        let mut low = true;
        for agent in 0..8 {
            low &= self.has_low_slots_of(Agent(agent));
        }
        low
    }

    /// Whether no slot of the agent of a number above 7 is in use at the line.
    fn has_low_slots_of(&self, agent: Agent) -> bool
        requires { agent.0 < 8 }
        ensures { IsTrue result ↔ HasLowSlotsOf self.now agent.0 }
    {
        are_low(
            pending_slot(self.copy(agent).pending()),
            waiting_slot(self.home.waiting(agent)),
            slot_served_for(self.home.serving(), agent),
        )
    }

    /// Where a request is that is pending.
    fn pending_position(&self, agent: Agent, request: Pending, slot: Slot) -> Option<Position>
        requires { agent.0 < 8 }
        ensures { result ≡ phase_at request.phase (agent_seen self.now agent.0) slot }
    {
        match request.phase {
            Phase::Sent => {
                let flits = self.flits(agent);
                sent_position(flits.req, self.is_at_home(agent, slot), flits.rsp_down)
            }
            Phase::Retried => Some(Position::Retried),
        }
    }

    /// Where a slot is that no pending request has.
    fn unasked_position(&self, agent: Agent, slot: Slot) -> Option<Position>
        requires { agent.0 < 8 }
        ensures { result ≡ unasked_at (agent_seen self.now agent.0) slot }
    {
        if self.is_at_home(agent, slot) {
            Some(Position::Answered)
        } else {
            None
        }
    }

    /// Whether the agent's slot waits or is served at the home.
    fn is_at_home(&self, agent: Agent, slot: Slot) -> bool
        requires { agent.0 < 8 }
        ensures { result ≡ is_at_home (agent_seen self.now agent.0) slot }
    {
        is_slot(waiting_slot(self.home.waiting(agent)), slot)
            || is_slot(slot_served_for(self.home.serving(), agent), slot)
    }
}

/// Where a request is that was sent: in flight, else at the home, else answered by a response.
fn sent_position(
    request: Option<Request>,
    at_home: bool,
    response: Option<RspDown>,
) -> Option<Position>
    ensures { result ≡ sent_at request at_home response }
{
    match request {
        Some(request) if request.allow_retry => Some(Position::Sent),
        Some(_) => Some(Position::Resent),
        None if at_home => Some(Position::Admitted),
        None => response_position(response),
    }
}

/// Where a request is that a response refuses or ends.
fn response_position(response: Option<RspDown>) -> Option<Position>
    ensures { result ≡ response_at response }
{
    match response {
        Some(RspDown::RetryAck(_)) => Some(Position::Refused),
        Some(RspDown::CompI) => Some(Position::Closing),
        Some(RspDown::CompUC | RspDown::CompDBIDResp) | None => None,
    }
}

/// Whether a slot is this one.
fn is_slot(found: Option<Slot>, slot: Slot) -> bool
    ensures { result ≡ is_slot found slot }
{
    match found {
        Some(found) => found.0 == slot.0,
        None => false,
    }
}

/// The slot of a request that waits; `None` where none does.
fn waiting_slot(waiting: Option<Waiting>) -> Option<Slot>
    ensures { result ≡ waiting_slot waiting }
{
    match waiting {
        Some(request) => Some(request.slot),
        None => None,
    }
}

/// The slot of the request that is served, where it is the agent's.
fn slot_served_for(serving: Serving, agent: Agent) -> Option<Slot>
    ensures { result ≡ slot_served_for serving agent.0 }
{
    match serving {
        Serving::Snooping {
            agent: served,
            slot,
            ..
        }
        | Serving::AwaitingCompAck {
            agent: served,
            slot,
        }
        | Serving::AwaitingWriteData {
            agent: served,
            slot,
            ..
        } if served.0 == agent.0 => Some(slot),
        _ => None,
    }
}

/// Whether a slot, if there is one, is one of the eight.
fn is_low(slot: Option<Slot>) -> bool
    ensures { IsTrue result ↔ IsNoHighSlot slot }
{
    match slot {
        Some(slot) => slot.0 < 8,
        None => true,
    }
}

/// Whether each of three slots, if there is one, is one of the eight.
fn are_low(pending: Option<Slot>, waiting: Option<Slot>, served: Option<Slot>) -> bool
    ensures { IsTrue result ↔ AreNoHighSlots pending waiting served }
{
    is_low(pending) & is_low(waiting) & is_low(served)
}

impl CoherentLine {
    /// The slot of the request that a step of the agent would complete; `None` where the step would be
    /// refused, or completes nothing.
    ///
    /// Conditions: the agent's number is below 8.
    /// Source: `docs/PROTOCOL.md`, "The actions".
    pub fn completed_slot(&self, agent: Agent, step: Step) -> Option<Slot>
        requires { agent.0 < 8 }
        ensures { result ≡ completed_at self.now.home (cells_of self.now agent.0) agent step }
    {
        let cells = self.flits.cells(agent);
        match step {
            Step::Start => evicted_slot(&self.home, agent),
            Step::RecvAck | Step::RecvWrData => ended_slot(&self.home, has_flit(cells, step)),
            _ => None,
        }
    }
}

/// The slot that a Start of the agent's request would complete: that of an Evict, where nothing refuses the
/// Start.
fn evicted_slot(home: &HomeLine, agent: Agent) -> Option<Slot>
    requires { agent.0 < 8 }
    ensures { result
        ≡ slot_unless (start_refusal home.now agent.0) (waiting_effect home.now agent (waiting_of home.now agent.0)) }
{
    match home.why_no_start(agent) {
        Some(_) => None,
        None => slot_of_evict(home.waiting(agent)?),
    }
}

/// The slot of a request that its start completes: that of an Evict.
fn slot_of_evict(request: Waiting) -> Option<Slot>
    ensures { result ≡ slot_of_evict request.kind request.slot }
{
    match request.kind {
        Kind::Evict => Some(request.slot),
        _ => None,
    }
}

/// The slot of the request that a CompAck or write data would complete, if it is there.
fn ended_slot(home: &HomeLine, there: bool) -> Option<Slot>
    ensures { result
        ≡ slot_unless (no_flit_unless there) (completed_effect (served_slot home.now.serving)) }
{
    if there {
        served_slot(home.serving())
    } else {
        None
    }
}

/// The slot of the request that is served.
pub(crate) fn served_slot(serving: Serving) -> Option<Slot>
    ensures { result ≡ served_slot serving }
{
    match serving {
        Serving::Idle => None,
        Serving::Snooping { slot, .. }
        | Serving::AwaitingCompAck { slot, .. }
        | Serving::AwaitingWriteData { slot, .. } => Some(slot),
    }
}

/// The slot of a request that is pending; `None` where none is.
/// Source: `docs/PROTOCOL.md`, "One line".
pub fn pending_slot(pending: Option<Pending>) -> Option<Slot>
    ensures { result ≡ pending_slot pending }
{
    match pending {
        Some(request) => Some(request.slot),
        None => None,
    }
}

/// A slot of an agent, and the credit type that it is said to have.
/// Source: `docs/PROTOCOL.md`, "Agreement".
#[derive(Clone, Copy, Debug, PartialEq, Eq)]
pub struct TypedSlot {
    pub agent: Agent,
    pub slot: Slot,
    pub credit: CreditType,
}

impl CoherentLine {
    /// Whether the slot has its credit type wherever the line still keeps the kind of its request.
    ///
    /// Conditions: the agent's number is below 8.
    /// Source: `docs/PROTOCOL.md`, "Agreement".
    pub fn is_of_type(&self, profile: Profile, typed: TypedSlot) -> bool
        requires { typed.agent.0 < 8 }
        ensures { result ≡ is_of_type profile typed.credit self.now typed.agent.0 typed.slot }
    {
        let TypedSlot {
            agent,
            slot,
            credit,
        } = typed;
        let pending = self.requesters[usize::from(agent.0)].pending();
        let cells = self.flits.cells(agent);
        has_type(profile, credit, pending_kind_of(pending, slot))
            && has_type(profile, credit, requested_kind_of(cells.req, slot))
            && has_type(
                profile,
                credit,
                waiting_kind_of(self.home.waiting(agent), slot),
            )
            && has_type(
                profile,
                credit,
                served_kind_of(self.home.serving(), agent, slot),
            )
    }
}

/// Whether a kind that is kept, if there is one, has the credit type.
fn has_type(profile: Profile, credit: CreditType, kind: Option<Kind>) -> bool
    ensures { result ≡ has_type profile credit kind }
{
    match kind {
        Some(kind) => credit_type(profile, kind).number() == credit.number(),
        None => true,
    }
}

/// The credit type of a request that is pending, by the profile; `None` where none is pending.
/// Source: `docs/PROTOCOL.md`, "Kinds of request".
pub fn pending_credit(profile: Profile, pending: Option<Pending>) -> Option<CreditType>
    ensures { result ≡ pending_credit profile pending }
{
    match pending {
        Some(request) => Some(credit_type(profile, request.kind)),
        None => None,
    }
}

/// The kind of the slot's request, where it is the pending one.
fn pending_kind_of(pending: Option<Pending>, slot: Slot) -> Option<Kind>
    ensures { result ≡ pending_kind_of pending slot }
{
    match pending {
        Some(request) if request.slot.0 == slot.0 => Some(request.kind),
        Some(_) | None => None,
    }
}

/// The kind of the slot's request, where it is the one in flight.
fn requested_kind_of(request: Option<Request>, slot: Slot) -> Option<Kind>
    ensures { result ≡ requested_kind_of request slot }
{
    match request {
        Some(request) if request.slot.0 == slot.0 => Some(request.kind),
        Some(_) | None => None,
    }
}

/// The kind of the slot's request, where it is the one that waits.
fn waiting_kind_of(waiting: Option<Waiting>, slot: Slot) -> Option<Kind>
    ensures { result ≡ waiting_kind_of waiting slot }
{
    match waiting {
        Some(request) if request.slot.0 == slot.0 => Some(request.kind),
        Some(_) | None => None,
    }
}

/// The kind of the agent's slot that is served, where it is kept.
fn served_kind_of(serving: Serving, agent: Agent, slot: Slot) -> Option<Kind>
    ensures { result ≡ served_kind_of serving agent.0 slot }
{
    match serving {
        Serving::Snooping {
            agent: served,
            kind,
            slot: own,
        }
        | Serving::AwaitingWriteData {
            agent: served,
            kind,
            slot: own,
        } => {
            if served.0 == agent.0 && own.0 == slot.0 {
                Some(kind)
            } else {
                None
            }
        }
        Serving::Idle | Serving::AwaitingCompAck { .. } => None,
    }
}
