//! The actions of snoops: an agent answers one, and the home takes the answer.

ghost use Rattle.std.specs.List.Sorted.{IsPermutation};
ghost use Rattle.std.specs.Prelude.{◌≡◌, ◌<◌, ℕ, true, None, Some, is_some, [], ◌++◌};
ghost use Rattle.chi_flit.specs.Message.{channel_of};
ghost use Rattle.chi_flit.specs.declared.action.Effect.TheVariants.{Nothing};
ghost use Rattle.chi_flit.specs.declared.message.Channel.TheVariants as channels;
ghost use Rattle.chi_filter.specs.Filter.{is_in, is_named};
ghost use Rattle.chi_wires.specs.Cell.{cell_of};
ghost use Rattle.chi_wires.specs.Flight.{flit_of, in_flight};
ghost use Rattle.chi_wires.specs.Flits.{cells_at};
ghost use Rattle.chi_homeline.specs.declared.serving.Completion.{Completion};
ghost use Rattle.chi_line.specs.Kept.{snoops_for};
ghost use Rattle.chi_line.specs.LineState.{cells_of, rn_of};
ghost use Rattle.chi_line.specs.Snooped.{completion_put};
ghost use Rattle.chi_line.specs.Step.{answer_in, answered_by, snooped_line, where_some};
ghost use Rattle.chi_line.specs.Traffic.{Balances, answer_flit, answered_flits, completion_flits, flit_on, snoop_answer};
ghost use Rattle.chi_line.specs.Outcomes.{outcome_without_move};

use crate::flits::answer_in;
use crate::line::CoherentLine;
use crate::position::ActionOutcome;
use chi_flit::{Agent, Channel, Effect};
use chi_homeline::Completion;
use chi_wires::Wires;

impl CoherentLine {
    /// RecvSnp: the agent takes its snoop, and the answer of its copy is in flight.
    ///
    /// Conditions: a snoop is in flight to the agent, and no response or data of it.
    /// Source: `docs/PROTOCOL.md`, "Answers to snoops".
    pub(crate) fn receive_snoop(&mut self, agent: Agent) -> ActionOutcome
        requires agent { agent.0 < 8 }
        requires there { is_some (cells_of self.old agent.0).snp ≡ true }
        requires response { (cells_of self.old agent.0).rsp_up ≡ None }
        requires data { (cells_of self.old agent.0).dat_up ≡ None }
        ensures outcome { result ≡ outcome_without_move Nothing }
        ensures after { self.new
            ≡ where_some self.old (cells_of self.old agent.0).snp (snooped_line self.old agent.0) }
        ensures flits { Balances (flit_on self.old agent channels.Snp)
            (flit_of agent (snoop_answer (rn_of self.old agent.0) (cells_of self.old agent.0).snp)) self.old self.new }
    {
        let Some(snoop) = self.flits.cells(agent).snp else {
            unreachable!()
        };
        let answer = self.requesters[usize::from(agent.0)].snooped(snoop);
        self.flits.exchange(agent, Channel::Snp, answer);
        ActionOutcome::without_move(Effect::Nothing)
    }

    /// RecvSnpResp: the home takes the agent's answer to its snoop. Where it is the last one, the completion
    /// that it brings is in flight at once.
    ///
    /// Conditions: an answer of the agent is in flight and awaited, and the filter names the agent; the agent
    /// for whose request the home snoops has nothing in flight to it on the channels of completions.
    /// Source: `docs/PROTOCOL.md`, "Answers of snooped agents".
    #[inline(always)]
    pub(crate) fn receive_answer(&mut self, agent: Agent) -> ActionOutcome
        requires agent { agent.0 < 8 }
        requires there { is_some (answer_in (cells_of self.old agent.0)) ≡ true }
        requires awaited { is_in self.old.home.awaited agent.0 ≡ true }
        requires named { is_named self.old.home.filter agent.0 ≡ true }
        requires down { (other : ℕ) → snoops_for self.old.home.serving other ≡ true
            → ((cells_of self.old other).rsp_down ≡ None)
            × ((cells_of self.old other).dat_down ≡ None) }
        ensures outcome { result ≡ outcome_without_move Nothing }
        ensures after { self.new
            ≡ where_some self.old (answer_in (cells_of self.old agent.0)) (answered_by self.old agent) }
        ensures flits { Balances (answer_flit self.old agent (answer_in (cells_of self.old agent.0)))
            (answered_flits self.old.home agent (answer_in (cells_of self.old agent.0))) self.old self.new }
    {
        let Some(found) = answer_in(self.flits.cells(agent)) else {
            unreachable!()
        };
        self.flits.clear(agent, found.channel);
        let completion = self.home.snp_resp(agent, found.answer);
        put_completion(&mut self.flits, completion);
        ActionOutcome::without_move(Effect::Nothing)
    }
}

/// Puts the completion, if there is one, whose cell must be empty.
#[inline(always)]
fn put_completion(flits: &mut Wires, completion: Option<Completion>)
    requires agent { (some : Completion) → completion ≡ Some some → some.agent.0 < 8 }
    requires empty { (some : Completion) → completion ≡ Some some
        → cell_of (cells_at flits.old some.agent.0) (channel_of some.message) ≡ None }
    ensures after { flits.new ≡ completion_put flits.old completion }
    ensures adds { IsPermutation (in_flight flits.new) (completion_flits completion ++ in_flight flits.old) }
{
    if let Some(completion) = completion {
        flits.put(completion.agent, completion.message);
    }
}
