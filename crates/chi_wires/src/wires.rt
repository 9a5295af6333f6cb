//! What is in flight at one line: the cells of its agents, by their numbers.

ghost use Rattle.std.specs.Prelude.{◌≡◌, ℕ, ◌<◌, ◌≤◌, true, false, length, None, Some, ◌∷◌, ◌++◌, IfOk, OnErr, OnOk, slice_index_or, slice_set, ⊤};
ghost use Rattle.std.specs.List.{filter};
ghost use Rattle.std.specs.List.Sorted.{IsPermutation};
ghost use Rattle.chi_flit.specs.Message.{channel_of};
ghost use Rattle.chi_flit.specs.Refusal.{refusal_of};
ghost use Rattle.chi_flit.specs.declared.message.Channel.{Channel};
ghost use Rattle.chi_flit.specs.declared.message.Msg.TheVariants as messages;
ghost use Rattle.chi_wires.specs.Cell.{cell_of, without_message, with_message};
ghost use Rattle.chi_wires.specs.Flight.{cell_flit, flit, flit_of, in_flight, is_at, snoop_flits};
ghost use Rattle.chi_wires.specs.Flits.{cells_at, no_wires, take_refusal, with_snoops};

use crate::cells::Cells;
use chi_flit::{Agent, Channel, CompData, Msg, Refusal, Snoop};
use std::alloc::AllocError;
use std::marker::Model;

/// What is in flight at one line: for each of the eight agents at most one flit on each channel. Contracts see
/// it as the list of the agents' cells; its multiset of flits is `in_flight` of that.
/// Source: `docs/PROTOCOL.md`, "Messages".
#[derive(Drop, PartialEq, Eq)]
pub struct Wires {
    cells: [Cells; 8],
}

impl Model for Wires {
    ghost use Rattle.std.specs.Prelude.{List};
    ghost use Rattle.chi_wires.specs.declared.cells.Cells.{Cells};

    ghost Value = { List Cells };

    ghost view = { λ wires. wires.cells };

    ghost inverse = { λ cells. record { cells = cells } };
}

impl Clone for Wires {
    ghost is_clone = { λ wires copy. copy ≡ wires };

    ghost is_infallible = { λ _. ⊤ };

    fn clone(&self) -> Result<Self, AllocError> {
        Ok(Wires { cells: self.cells })
    }
}

impl Wires {
    /// Nothing in flight.
    /// Source: `docs/PROTOCOL.md`, "Messages".
    pub fn new() -> Wires
        ensures { result ≡ no_wires }
    {
        Wires {
            cells: [Cells::new(); 8],
        }
    }

    /// What is in flight in these cells of the agents, by their numbers.
    /// Source: `docs/PROTOCOL.md`, "Messages".
    pub fn of_parts(cells: [Cells; 8]) -> Wires
        ensures { result ≡ cells }
    {
        Wires { cells }
    }

    /// The cells of all agents, by their numbers.
    /// Source: `docs/PROTOCOL.md`, "Messages".
    pub fn all(&self) -> [Cells; 8]
        ensures { result ≡ self.now }
    {
        self.cells
    }

    /// What is in flight between the agent and the home, lent: at most one flit on each channel.
    ///
    /// Conditions: the agent's number is below 8.
    /// Source: `docs/PROTOCOL.md`, "Messages".
    #[inline(always)]
    pub fn cells(&self, agent: Agent) -> &Cells
        requires { agent.0 < 8 }
        ensures cells { result.now ≡ cells_at self.now agent.0 }
        ensures once { (channel : Channel)
            → filter (is_at channel agent) (in_flight self.now)
            ≡ flit_of agent (cell_of result.now channel) }
    {
        cells_of(&self.cells, agent)
    }

    /// Puts the message on its channel, to or from the agent. All else stays.
    ///
    /// Conditions: the agent's number is below 8, and the cell of the message's channel is empty.
    /// Source: `docs/PROTOCOL.md`, "Messages".
    #[tactic(auto, using(crate::proofs::Moved::put_adds))]
    #[inline(always)]
    pub fn put(&mut self, agent: Agent, message: Msg)
        requires agent { agent.0 < 8 }
        requires empty { cell_of (cells_at self.old agent.0) (channel_of message) ≡ None }
        ensures after { self.new
            ≡ slice_set self.old agent.0 (with_message (cells_at self.old agent.0) message) }
        ensures adds { IsPermutation (in_flight self.new) (flit agent message ∷ in_flight self.old) }
    {
        self.cells[usize::from(agent.0)].put(message);
    }

    /// Puts the data of a completion on its channel, to the agent. All else stays.
    ///
    /// Conditions: the agent's number is below 8, and the cell of that channel is empty.
    /// Source: `docs/PROTOCOL.md`, "Messages".
    #[tactic(auto, using(crate::proofs::Moved::put_adds))]
    #[inline(always)]
    pub fn put_data(&mut self, agent: Agent, response: CompData)
        requires agent { agent.0 < 8 }
        requires empty { cell_of (cells_at self.old agent.0) (channel_of (messages.DatDown response)) ≡ None }
        ensures after { self.new
            ≡ slice_set self.old agent.0 (with_message (cells_at self.old agent.0) (messages.DatDown response)) }
        ensures adds { IsPermutation (in_flight self.new)
            (flit agent (messages.DatDown response) ∷ in_flight self.old) }
    {
        self.cells[usize::from(agent.0)].dat_down = Some(response);
    }

    /// The message that is in flight on the channel, to or from the agent; `None` where there is none. It is
    /// what `take` would answer, and it stays.
    ///
    /// Conditions: the agent's number is below 8.
    /// Source: `docs/PROTOCOL.md`, "Messages".
    #[tactic(auto, using(crate::proofs::Once::once))]
    pub fn has(&self, channel: Channel, agent: Agent) -> Option<Msg>
        requires { agent.0 < 8 }
        ensures cell { result ≡ cell_of (cells_at self.now agent.0) channel }
        ensures once { filter (is_at channel agent) (in_flight self.now) ≡ flit_of agent result }
    {
        self.cells[usize::from(agent.0)].get(channel)
    }

    /// Takes the message that is in flight on the channel, to or from the agent: its cell is empty then, and all
    /// else stays.
    ///
    /// Refused 7 (NoFlit) where there is none; nothing changes then. Conditions: the agent's number is below 8.
    /// Source: `docs/PROTOCOL.md`, "Messages".
    #[tactic(auto, using(crate::proofs::Moved::take_removes))]
    pub fn take(&mut self, channel: Channel, agent: Agent) -> Result<Msg, Refusal>
        requires { agent.0 < 8 }
        ensures refusal { refusal_of result ≡ take_refusal self.old agent channel }
        ensures message { IfOk result
            (λ message. cell_of (cells_at self.old agent.0) channel ≡ Some message) }
        ensures after { OnOk result (self.new
            ≡ slice_set self.old agent.0 (without_message (cells_at self.old agent.0) channel)) }
        ensures removes { IfOk result
            (λ message. IsPermutation (flit agent message ∷ in_flight self.new) (in_flight self.old)) }
        ensures err { OnErr result (self.new ≡ self.old) }
    {
        let cells = &mut self.cells[usize::from(agent.0)];
        let message = cells.get(channel).ok_or(Refusal::NoFlit)?;
        cells.clear(channel);
        Ok(message)
    }

    /// Takes what is in flight on the channel, to or from the agent: its cell is empty then, and all else stays.
    ///
    /// Conditions: the agent's number is below 8.
    /// Source: `docs/PROTOCOL.md`, "Messages".
    #[tactic(auto, using(crate::proofs::Moved::clear_removes))]
    #[inline(always)]
    pub fn clear(&mut self, agent: Agent, channel: Channel)
        requires { agent.0 < 8 }
        ensures after { self.new
            ≡ slice_set self.old agent.0 (without_message (cells_at self.old agent.0) channel) }
        ensures removes { IsPermutation (cell_flit self.old agent channel ++ in_flight self.new)
            (in_flight self.old) }
    {
        self.cells[usize::from(agent.0)].clear(channel);
    }

    /// Takes what is in flight on a channel, and puts the message on its own, to or from the same agent. All
    /// else stays.
    ///
    /// Conditions: the agent's number is below 8, and the cell of the message's channel is empty, or the one
    /// that is emptied.
    /// Source: `docs/PROTOCOL.md`, "Messages".
    #[tactic(auto, using(crate::proofs::Moved::exchange_swaps))]
    #[inline(always)]
    pub fn exchange(&mut self, agent: Agent, taken: Channel, message: Msg)
        requires agent { agent.0 < 8 }
        requires empty { cell_of (without_message (cells_at self.old agent.0) taken) (channel_of message)
            ≡ None }
        ensures after { self.new
            ≡ slice_set self.old agent.0 (with_message (without_message (cells_at self.old agent.0) taken) message) }
        ensures swaps { IsPermutation (cell_flit self.old agent taken ++ in_flight self.new)
            (flit agent message ∷ in_flight self.old) }
    {
        self.cells[usize::from(agent.0)].exchange(taken, message);
    }

    /// Puts the snoop to each marked agent. All else stays.
    ///
    /// Conditions: the cell for snoops of each marked agent is empty.
    /// Source: `docs/PROTOCOL.md`, "Messages".
    #[tactic(auto, using(crate::proofs::Moved::snoops_add))]
    #[inline(always)]
    pub fn put_snoops(&mut self, agents: [bool; 8], snoop: Snoop)
        requires empty { (agent : ℕ) → slice_index_or agents agent false ≡ true
            → (cells_at self.old agent).snp ≡ None }
        ensures after { self.new ≡ with_snoops agents snoop self.old }
        ensures adds { IsPermutation (in_flight self.new) (snoop_flits 0 agents snoop ++ in_flight self.old) }
    {
        snoop_marked(&mut self.cells, agents, snoop);
    }
}

/// The cells of the agent, of those of all agents, lent: at most one flit on each channel.
///
/// Conditions: the agent's number is below 8.
/// Source: `docs/PROTOCOL.md`, "Messages".
#[tactic(auto, using(crate::proofs::Once::once))]
#[inline(always)]
pub fn cells_of(flits: &[Cells; 8], agent: Agent) -> &Cells
    requires { agent.0 < 8 }
    ensures cells { result.now ≡ cells_at flits.now agent.0 }
    ensures once { (channel : Channel)
        → filter (is_at channel agent) (in_flight flits.now)
        ≡ flit_of agent (cell_of result.now channel) }
{
    &flits[usize::from(agent.0)]
}

/// Puts the snoop to each marked agent.
fn snoop_marked(flits: &mut [Cells; 8], agents: [bool; 8], snoop: Snoop)
    ensures after { flits.new ≡ with_snoops agents snoop flits.old }
    ensures fits { length agents ≤ length flits.old }
{
    for (agent, cells) in flits.iter_mut().enumerate() {
        if agents[agent] {
            cells.snp = Some(snoop);
        }
    }
}
