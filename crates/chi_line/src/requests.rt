//! The actions that bring a request to the home: its way there, its retries, and its start.

ghost use Rattle.std.specs.List.Sorted.{IsPermutation};
ghost use Rattle.std.specs.Prelude.{◌≡◌, ℕ, ◌<◌, true, None, is_some, Some, [], ◌∷◌, slice_set};
ghost use Rattle.chi_flit.specs.Message.{channel_of};
ghost use Rattle.chi_flit.specs.declared.message.Channel.TheVariants as channels;
ghost use Rattle.chi_wires.specs.Cell.{cell_of, with_message};
ghost use Rattle.chi_wires.specs.Flight.{flit, flit_of, in_flight};
ghost use Rattle.chi_wires.specs.Flits.{cells_at};
ghost use Rattle.chi_rnline.specs.Rn.{request_message};
ghost use Rattle.chi_homeline.specs.Home.{form_message, waiting_of};
ghost use Rattle.chi_line.specs.LineState.{cells_of, rn_of};
ghost use Rattle.chi_line.specs.Moves.{requested_slot};
ghost use Rattle.chi_line.specs.Step.{admitted_line, issued_line, pending_slot, resent_line, retried_line, retry_received_line, started_line, waiting_effect, where_some};
ghost use Rattle.chi_line.specs.Traffic.{Balances, flit_on, request_again, retry_ack, started_flits};
ghost use Rattle.chi_line.specs.Outcomes.{outcome_of_start, outcome_with_move};
ghost use Rattle.chi_line.specs.declared.position.Position.TheVariants.{Admitted, Refused, Retried, Resent, Sent};

use crate::line::CoherentLine;
use crate::position::{ActionOutcome, Position, pending_slot};
use chi_flit::{
    Agent, Channel, CompData, Effect, Kind, Msg, Profile, Request, RspDown, Slot, credit_type,
};
use chi_homeline::{Begun, CompletionForm, HomeLine, Waiting};
use chi_wires::Wires;

impl CoherentLine {
    /// Issue: the agent's request is pending, and in flight with AllowRetry.
    ///
    /// Conditions: no request of the agent is in flight.
    /// Source: `docs/PROTOCOL.md`, "The actions", Issue.
    pub(crate) fn issue(&mut self, agent: Agent, kind: Kind, slot: Slot) -> ActionOutcome
        requires agent { agent.0 < 8 }
        requires empty { (cells_of self.old agent.0).req ≡ None }
        ensures outcome { result ≡ outcome_with_move (Some slot) (Some Sent) }
        ensures after { self.new ≡ issued_line self.old agent.0 kind slot }
        ensures flits { Balances [] (flit agent (request_message kind slot true) ∷ []) self.old self.new }
    {
        let request = self.requesters[usize::from(agent.0)].issued(kind, slot);
        self.flits.put(agent, request);
        ActionOutcome::with_move(Some(slot), Some(Position::Sent))
    }

    /// Admit: the agent's request, which was in flight, waits.
    ///
    /// Conditions: that request is in flight.
    /// Source: `docs/PROTOCOL.md`, "The actions", Admit.
    pub(crate) fn admit(&mut self, agent: Agent) -> ActionOutcome
        requires agent { agent.0 < 8 }
        requires there { is_some (cells_of self.old agent.0).req ≡ true }
        ensures outcome { result
            ≡ outcome_with_move (requested_slot (cells_of self.old agent.0).req) (Some Admitted) }
        ensures after { self.new
            ≡ where_some self.old (cells_of self.old agent.0).req (admitted_line self.old agent.0) }
        ensures flits { Balances (flit_on self.old agent channels.Req) [] self.old self.new }
    {
        let Some(Request { kind, slot, .. }) = self.flits.cells(agent).req else {
            unreachable!()
        };
        self.flits.clear(agent, Channel::Req);
        self.home.admit(agent, Waiting { kind, slot });
        ActionOutcome::with_move(Some(slot), Some(Position::Admitted))
    }

    /// Retry: the agent's request is taken, and RetryAck of its credit type is in flight.
    ///
    /// Conditions: that request is in flight, and no response to the agent.
    /// Source: `docs/PROTOCOL.md`, "The actions", Retry.
    pub(crate) fn retry(&mut self, agent: Agent, profile: Profile) -> ActionOutcome
        requires agent { agent.0 < 8 }
        requires there { is_some (cells_of self.old agent.0).req ≡ true }
        requires empty { (cells_of self.old agent.0).rsp_down ≡ None }
        ensures outcome { result
            ≡ outcome_with_move (requested_slot (cells_of self.old agent.0).req) (Some Refused) }
        ensures after { self.new
            ≡ where_some self.old (cells_of self.old agent.0).req (retried_line profile self.old agent.0) }
        ensures flits { Balances (flit_on self.old agent channels.Req)
            (flit_of agent (retry_ack profile (cells_of self.old agent.0).req)) self.old self.new }
    {
        let Some(request) = self.flits.cells(agent).req else {
            unreachable!()
        };
        let answer = Msg::RspDown(RspDown::RetryAck(credit_type(profile, request.kind)));
        self.flits.exchange(agent, Channel::Req, answer);
        ActionOutcome::with_move(Some(request.slot), Some(Position::Refused))
    }

    /// RecvRetry: the agent takes its RetryAck, and its request is in phase Retried.
    /// Source: `docs/PROTOCOL.md`, "The actions", RecvRetry.
    pub(crate) fn receive_retry(&mut self, agent: Agent) -> ActionOutcome
        requires { agent.0 < 8 }
        ensures outcome { result
            ≡ outcome_with_move (pending_slot (rn_of self.old agent.0).pending) (Some Retried) }
        ensures after { self.new ≡ retry_received_line self.old agent.0 }
        ensures flits { Balances (flit_on self.old agent channels.RspDown) [] self.old self.new }
    {
        self.flits.clear(agent, Channel::RspDown);
        let copy = &mut self.requesters[usize::from(agent.0)];
        let slot = pending_slot(copy.pending());
        copy.retried();
        ActionOutcome::with_move(slot, Some(Position::Retried))
    }

    /// Resend: the agent's retried request is in flight again, without AllowRetry.
    ///
    /// Conditions: a request of the agent is pending, and none in flight.
    /// Source: `docs/PROTOCOL.md`, "The actions", Resend.
    pub(crate) fn resend(&mut self, agent: Agent) -> ActionOutcome
        requires agent { agent.0 < 8 }
        requires pending { is_some (rn_of self.old agent.0).pending ≡ true }
        requires empty { (cells_of self.old agent.0).req ≡ None }
        ensures outcome { result
            ≡ outcome_with_move (pending_slot (rn_of self.old agent.0).pending) (Some Resent) }
        ensures after { self.new
            ≡ where_some self.old (rn_of self.old agent.0).pending (resent_line self.old agent.0) }
        ensures flits { Balances [] (flit_of agent (request_again (rn_of self.old agent.0).pending)) self.old self.new }
    {
        let copy = &mut self.requesters[usize::from(agent.0)];
        let Some(request) = copy.pending() else {
            unreachable!()
        };
        let message = copy.resent(request);
        self.flits.put(agent, message);
        ActionOutcome::with_move(Some(request.slot), Some(Position::Resent))
    }

    /// Start: the home begins to serve the agent's waiting request, and what that sends is in flight. An
    /// Evict is complete with it.
    ///
    /// Conditions: that request waits; no snoop is in flight, and nothing to the agent on the channels of
    /// completions.
    /// Source: `docs/PROTOCOL.md`, "Start".
    #[inline(always)]
    pub(crate) fn start(&mut self, agent: Agent) -> ActionOutcome
        requires agent { agent.0 < 8 }
        requires waiting { is_some (waiting_of self.old.home agent.0) ≡ true }
        requires response { (cells_of self.old agent.0).rsp_down ≡ None }
        requires data { (cells_of self.old agent.0).dat_down ≡ None }
        requires no_snoops { (other : ℕ) → (cells_of self.old other).snp ≡ None }
        ensures outcome { result
            ≡ outcome_of_start (waiting_effect self.old.home agent (waiting_of self.old.home agent.0)) }
        ensures after { self.new
            ≡ where_some self.old (waiting_of self.old.home agent.0) (started_line self.old agent) }
        ensures flits { Balances [] (started_flits self.old.home agent (waiting_of self.old.home agent.0)) self.old self.new }
    {
        let Some(request) = self.home.waiting(agent) else {
            unreachable!()
        };
        match self.home.started(agent, request) {
            Begun::Completes(form) => {
                put_form(&mut self.flits, agent, form, &self.home);
                ActionOutcome::without_move(Effect::Nothing)
            }
            Begun::WriteData => {
                self.flits.put(agent, Msg::RspDown(RspDown::CompDBIDResp));
                ActionOutcome::without_move(Effect::Nothing)
            }
            Begun::Evicted(slot) => {
                self.flits.put(agent, Msg::RspDown(RspDown::CompI));
                ActionOutcome::of_evict(slot)
            }
            Begun::Snoops { snoop, agents } => {
                self.flits.put_snoops(agents, snoop);
                ActionOutcome::without_move(Effect::Nothing)
            }
        }
    }
}

/// Puts the completion of this form to the agent, whose cell must be empty; its data is the memory, which is
/// copied once.
#[inline(always)]
fn put_form(flits: &mut Wires, agent: Agent, form: CompletionForm, home: &HomeLine)
    requires agent { agent.0 < 8 }
    requires empty { cell_of (cells_at flits.old agent.0) (channel_of (form_message form home.now.memory))
        ≡ None }
    ensures after { flits.new
        ≡ slice_set flits.old agent.0 (with_message (cells_at flits.old agent.0) (form_message form home.now.memory)) }
    ensures adds { IsPermutation (in_flight flits.new)
        (flit agent (form_message form home.now.memory) ∷ in_flight flits.old) }
{
    match form {
        CompletionForm::Data { unique } => {
            let words = home.memory();
            flits.put_data(agent, CompData { unique, words });
        }
        CompletionForm::NoData => flits.put(agent, Msg::RspDown(RspDown::CompUC)),
    }
}
