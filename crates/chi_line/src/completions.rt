//! The actions that complete a request: data, completions, and what the home takes back.

ghost use Rattle.std.specs.Prelude.{◌≡◌, ◌<◌, true, None, Some, is_some, [], ◌∷◌};
ghost use Rattle.chi_flit.specs.Message.{write_data_of};
ghost use Rattle.chi_flit.specs.declared.message.Channel.TheVariants as channels;
ghost use Rattle.chi_flit.specs.declared.message.Msg.TheVariants as messages;
ghost use Rattle.chi_flit.specs.declared.message.RspDown.TheVariants.{CompUC};
ghost use Rattle.chi_flit.specs.declared.message.RspUp.TheVariants.{CompAck};
ghost use Rattle.chi_wires.specs.Flight.{flit, flit_of};
ghost use Rattle.chi_homeline.specs.Home.{acks_for, served_kind, served_slot, writes_for};
ghost use Rattle.chi_line.specs.LineState.{cells_of, rn_of};
ghost use Rattle.chi_line.specs.Moves.{completed_to};
ghost use Rattle.chi_line.specs.Step.{acknowledged_line, completed_effect, completion_received, data_written, dbid_received_line, is_comp, is_write_data, pending_slot, received_line, where_some};
ghost use Rattle.chi_line.specs.Traffic.{Balances, completion_ack, flit_on};
ghost use Rattle.chi_line.specs.Outcomes.{outcome_of_end, outcome_with_move};
ghost use Rattle.chi_line.specs.declared.position.Position.TheVariants.{Answered};

use crate::line::CoherentLine;
use crate::position::{ActionOutcome, Position, pending_slot};
use chi_flit::{Agent, Channel, DatUp, RspDown};

impl CoherentLine {
    /// RecvData: the agent's copy is that of the data, nothing is pending, and its CompAck is in flight.
    ///
    /// Conditions: data is in flight to the agent, and no response of it.
    /// Source: `docs/PROTOCOL.md`, "The actions", RecvData.
    pub(crate) fn receive_data(&mut self, agent: Agent) -> ActionOutcome
        requires agent { agent.0 < 8 }
        requires there { is_some (cells_of self.old agent.0).dat_down ≡ true }
        requires empty { (cells_of self.old agent.0).rsp_up ≡ None }
        ensures outcome { result
            ≡ outcome_with_move (pending_slot (rn_of self.old agent.0).pending) (Some Answered) }
        ensures after { self.new
            ≡ where_some self.old (cells_of self.old agent.0).dat_down (received_line self.old agent.0) }
        ensures flits { Balances (flit_on self.old agent channels.DatDown)
            (flit agent (messages.RspUp CompAck) ∷ []) self.old self.new }
    {
        let Some(message) = self.flits.cells(agent).dat_down else {
            unreachable!()
        };
        let copy = &mut self.requesters[usize::from(agent.0)];
        let slot = pending_slot(copy.pending());
        let answer = copy.data(message);
        self.flits.exchange(agent, Channel::DatDown, answer);
        ActionOutcome::with_move(slot, Some(Position::Answered))
    }

    /// RecvComp: the agent takes Comp_UC, and its CompAck is in flight; or it takes Comp_I.
    ///
    /// Conditions: one of them is in flight to the agent, and with Comp_UC no response of it.
    /// Source: `docs/PROTOCOL.md`, "The actions", RecvComp.
    pub(crate) fn receive_comp(&mut self, agent: Agent) -> ActionOutcome
        requires agent { agent.0 < 8 }
        requires there { is_comp (cells_of self.old agent.0).rsp_down ≡ true }
        requires empty { (cells_of self.old agent.0).rsp_down ≡ Some CompUC
            → (cells_of self.old agent.0).rsp_up ≡ None }
        ensures outcome { result
            ≡ outcome_with_move (pending_slot (rn_of self.old agent.0).pending)
            (completed_to (cells_of self.old agent.0).rsp_down) }
        ensures after { self.new
            ≡ completion_received self.old agent.0 (cells_of self.old agent.0).rsp_down }
        ensures flits { Balances (flit_on self.old agent channels.RspDown)
            (flit_of agent (completion_ack (cells_of self.old agent.0).rsp_down)) self.old self.new }
    {
        let response = self.flits.cells(agent).rsp_down;
        let copy = &mut self.requesters[usize::from(agent.0)];
        let slot = pending_slot(copy.pending());
        match response {
            Some(RspDown::CompUC) => {
                let answer = copy.comp();
                self.flits.exchange(agent, Channel::RspDown, answer);
                ActionOutcome::with_move(slot, Some(Position::Answered))
            }
            Some(RspDown::CompI) => {
                copy.evicted();
                self.flits.clear(agent, Channel::RspDown);
                ActionOutcome::with_move(slot, None)
            }
            _ => unreachable!(),
        }
    }

    /// RecvAck: the home takes the agent's CompAck; the line is idle, and the request is complete.
    ///
    /// Conditions: the home awaits it. (That it is in flight is for the flits alone.)
    /// Source: `docs/PROTOCOL.md`, "The actions", RecvAck.
    pub(crate) fn receive_ack(&mut self, agent: Agent) -> ActionOutcome
        requires agent { agent.0 < 8 }
        requires awaited { acks_for self.old.home.serving agent.0 ≡ true }
        ensures outcome { result
            ≡ outcome_of_end (completed_effect (served_slot self.old.home.serving)) }
        ensures after { self.new ≡ acknowledged_line self.old agent.0 }
        ensures flits { Balances (flit_on self.old agent channels.RspUp) [] self.old self.new }
    {
        self.flits.clear(agent, Channel::RspUp);
        ActionOutcome::of_end(self.home.ack(agent))
    }

    /// RecvDbid: the agent takes the leave to send its write data; that of the copy as it stands is in
    /// flight, and nothing is pending.
    ///
    /// Conditions: a request of the agent is pending, and no data of it is in flight.
    /// Source: `docs/PROTOCOL.md`, "Write data".
    pub(crate) fn receive_dbid(&mut self, agent: Agent) -> ActionOutcome
        requires agent { agent.0 < 8 }
        requires pending { is_some (rn_of self.old agent.0).pending ≡ true }
        requires empty { (cells_of self.old agent.0).dat_up ≡ None }
        ensures outcome { result
            ≡ outcome_with_move (pending_slot (rn_of self.old agent.0).pending) (Some Answered) }
        ensures after { self.new
            ≡ where_some self.old (rn_of self.old agent.0).pending
            (λ request. dbid_received_line self.old agent.0 request.kind) }
        ensures flits { Balances (flit_on self.old agent channels.RspDown)
            (flit agent (messages.DatUp (write_data_of (rn_of self.old agent.0).state (rn_of self.old agent.0).words)) ∷ [])
            self.old self.new }
    {
        let copy = &mut self.requesters[usize::from(agent.0)];
        let slot = pending_slot(copy.pending());
        let answer = copy.dbid();
        self.flits.exchange(agent, Channel::RspDown, answer);
        ActionOutcome::with_move(slot, Some(Position::Answered))
    }

    /// RecvWrData: the home takes the agent's write data; the line is idle, and the request is complete.
    ///
    /// Conditions: it is in flight, and the home awaits it.
    /// Source: `docs/PROTOCOL.md`, "Write data".
    #[inline(always)]
    pub(crate) fn receive_write_data(&mut self, agent: Agent) -> ActionOutcome
        requires agent { agent.0 < 8 }
        requires there { is_write_data (cells_of self.old agent.0).dat_up ≡ true }
        requires awaited { writes_for self.old.home.serving agent.0 ≡ true }
        ensures outcome { result
            ≡ outcome_of_end (completed_effect (served_slot self.old.home.serving)) }
        ensures after { self.new
            ≡ where_some self.old (served_kind self.old.home.serving)
            (λ kind. data_written self.old agent.0 kind (cells_of self.old agent.0).dat_up) }
        ensures flits { Balances (flit_on self.old agent channels.DatUp) [] self.old self.new }
    {
        let Some(DatUp::CopyBackWrData(form, words)) = self.flits.cells(agent).dat_up else {
            unreachable!()
        };
        self.flits.clear(agent, Channel::DatUp);
        ActionOutcome::of_end(self.home.wr_data(agent, form, words))
    }
}
