//! A node on one thread.

ghost use Rattle.std.specs.Prelude.{◌≡◌, ◌<◌, ◌↔◌, All, IfOk, IsTrue, None, OnErr, OnOk, Some, length, nat_lt, slice_set, true};
ghost use Rattle.std.specs.List.{slice_index_or};
ghost use Rattle.atomic_table.specs.Seated.{TableId};
ghost use Rattle.chi_flit.specs.Credit.{credit_number};
ghost use Rattle.chi_flit.specs.Refusal.{refusal_of};
ghost use Rattle.chi_slice.specs.Words.{cells_of, line_view, standing_of, Coherent};
ghost use Rattle.chi_slice.specs.Slice.{IsRowOf};
ghost use Rattle.chi_node.specs.Calls.{is_own_step};
ghost use Rattle.chi_node.specs.Requester.{RequesterState, no_requester};
ghost use Rattle.chi_slice.specs.Audits.{IsAudited};
ghost use Rattle.chi_node.specs.Headline.{Headline};
ghost use Rattle.chi_node.specs.Home.{node_flits_refusal, index_of, node_last, node_line, slice_of, node_view_refusal};
ghost use Rattle.chi_node.specs.Credits.{ForType, GivesBack, Sees, Tends, Tried};
ghost use Rattle.chi_node.specs.Agree.{AllAgree};
ghost use Rattle.chi_node.specs.Outstanding.{give_back_refusal, outstanding_of, see_refusal, tend_refusal, typed_refusal};
ghost use Rattle.chi_node.specs.System.{arrive_refusal, give_back_refusal_in, opening_system, system_step_refusal, tend_refusal_in, ArrivesIn, DoesAlone, Glances, IsSystem, StepsIn};

use crate::agree::all_agree;
use crate::answers::{Arrived, Stepped};
use crate::calls::{arrive_agreed, step_agreed};
use crate::coherence::are_coherent;
use crate::meeting::witness_of;
use crate::opening::parts;
use crate::requester::Requester;
use arrayvec::ArrayVec;
use chi_flit::{Action, Agent, CreditType, Line, NoMemory, Refusal};
use chi_slice::{Audit, Cells, Config, LineView, Slice, audit_of};
use chi_tracker::{Counts, Law, Released, Tracker};
use std::alloc::Allocator;
use std::marker::Model;

/// The slices of a node in rising order, where line `l` is in slice `l mod slices`; its tracker; and its
/// requesters in rising order. Contracts see it as a `SystemState`.
///
/// Each requester agrees with each slice, so no call is refused with 11 (NotOpen). No call takes memory or
/// waits.
/// Source: `docs/PROTOCOL.md`, "A requester and its calls" and "Agreement".
#[derive(Drop)]
pub struct System<A: Allocator> {
    config: Config,
    slices: Vec<Slice<A>, A>,
    tracker: Tracker<A>,
    requesters: ArrayVec<Requester, 8>,
}

impl<A: Allocator> Model for System<A> {
    ghost use Rattle.chi_node.specs.System.{SystemState, IsSystemOf};

    ghost Value = { SystemState };

    ghost view = { λ y. record { home = record { config = y.config; slices = y.slices.items }; requesters = y.requesters.items } };

    ghost invariant = { λ y. IsSystemOf y.tracker (record { home = record { config = y.config; slices = y.slices.items }; requesters = y.requesters.items }) };
}

impl<A: Allocator + Copy> System<A> {
    /// A node of that size in its opening state. All memory that it ever needs is found here; refused where
    /// it runs out.
    /// Source: `docs/PROTOCOL.md`, "A requester and its calls".
    pub fn new(alloc: A, config: &Config) -> Result<System<A>, NoMemory>
        ensures opening { IfOk result
            (λ system. (table : TableId) × (system ≡ opening_system config.now table)) }
        ensures kept { IfOk result IsSystem }
    {
        let (slices, tracker, requesters) = parts(alloc, config)?;
        Ok(System {
            config: *config,
            slices,
            tracker,
            requesters,
        })
    }
}

impl<A: Allocator> System<A> {
    /// The agent's request that is in flight at the line arrives at the home: it is admitted, or retried
    /// where each entry of its type was found claimed. A resent request is always admitted. The other slices
    /// and all other requesters stay.
    ///
    /// Refused 10 (OutOfRange) where the agent or the line is outside the node, and then 7 (NoFlit) where no
    /// request of the agent is in flight there; nothing changes then.
    /// Source: `docs/PROTOCOL.md`, "A requester and its calls", Arrival.
    pub fn arrive(&mut self, agent: Agent, line: Line) -> Result<Arrived, Refusal>
        ensures refusal { refusal_of result ≡ arrive_refusal self.old agent.0 line.0 }
        ensures ok { IfOk result (λ arrived. ArrivesIn self.old self.new agent line arrived) }
        ensures err { OnErr result (self.new ≡ self.old) }
        ensures kept { IsSystem self.old }
    {
        let (place, row) = self.row_for(agent, line)?;
        let requesters = self.requesters.as_mut_slice();
        arrive_agreed(
            &mut self.slices[place],
            &self.tracker,
            &mut requesters[usize::from(agent.0)],
            row,
            line,
        )
    }

    /// The agent does an action other than Admit and Retry, which are an arrival's. Where it completes a
    /// request, the slot's entry is released. The other slices and all other requesters stay.
    ///
    /// Refused as `step_on` refuses it of the line's slice and of the agent's requester, but
    /// never with 11; nothing changes then.
    /// Condition: the action is neither Admit nor Retry.
    /// Source: `docs/PROTOCOL.md`, "The actions" and "A requester and its calls".
    pub fn step(&mut self, action: Action) -> Result<Stepped, Refusal>
        requires { is_own_step action.step ≡ true }
        ensures refusal { refusal_of result ≡ system_step_refusal self.old action }
        ensures ok { IfOk result (λ stepped. StepsIn self.old self.new action stepped) }
        ensures err { OnErr result (self.new ≡ self.old) }
        ensures kept { IsSystem self.old }
    {
        let (place, row) = self.row_for(action.agent, action.line)?;
        let requesters = self.requesters.as_mut_slice();
        step_agreed(
            &mut self.slices[place],
            &self.tracker,
            &mut requesters[usize::from(action.agent.0)],
            row,
            action,
        )
    }

    /// The agent looks at what is promised to it, one step on each of the tracker's four words, and is told
    /// the seen credits by type. The slices and all other requesters stay.
    ///
    /// Refused 10 (OutOfRange) exactly where the agent is none of the node's; nothing changes then.
    /// Source: `docs/PROTOCOL.md`, "A requester and its calls", see.
    pub fn see(&mut self, agent: Agent) -> Result<[u32; 4], Refusal>
        ensures refusal { refusal_of result ≡ see_refusal self.old.home agent.0 }
        ensures ok { IfOk result (λ seen. DoesAlone self.old self.new agent (Sees seen)) }
        ensures err { OnErr result (self.new ≡ self.old) }
        ensures kept { IsSystem self.old }
    {
        if !self.has_agent(agent) {
            return Err(Refusal::OutOfRange);
        }
        let requesters = self.requesters.as_mut_slice();
        Ok(see_at(&self.tracker, requesters, agent))
    }

    /// The agent's lowest Cancelled slot of the type becomes Idle, and its lowest seen credit of the type is
    /// given back. The slices and all other requesters stay. `None` is a number that names no type.
    ///
    /// Refused 10 (OutOfRange) where the agent is none of the node's, or the type none of the profile's, and
    /// then 12 (NoCredit) where no slot of the type is Cancelled, or no seen credit is beyond those for the
    /// Riding slots; nothing changes then.
    /// Source: `docs/PROTOCOL.md`, "A requester and its calls", give back.
    pub fn give_back(
        &mut self,
        agent: Agent,
        credit: Option<CreditType>,
    ) -> Result<Released, Refusal>
        ensures refusal { refusal_of result ≡ give_back_refusal_in self.old agent.0 credit }
        ensures ok { IfOk result (λ released. DoesAlone self.old self.new agent
            (ForType credit (λ t. GivesBack t released))) }
        ensures err { OnErr result (self.new ≡ self.old) }
        ensures kept { IsSystem self.old }
    {
        let ty = self.type_for(agent, credit)?;
        let requesters = self.requesters.as_mut_slice();
        give_back_at(&self.tracker, requesters, agent, ty)
    }

    /// Where a requester shows an owed credit of the type, the agent claims an entry of the type and releases
    /// it. `None` is answered where no credit of the type was seen owed, or each entry of the type was found
    /// claimed. What of this the contract says is told at `Port::tend` of chi_tracker. The slices and all
    /// other requesters stay. A type of `None` is a number that names no type.
    ///
    /// Refused 10 (OutOfRange) exactly where the agent is none of the node's, or the type none of the
    /// profile's; nothing changes then.
    /// Source: `docs/PROTOCOL.md`, "A requester and its calls", tend.
    pub fn tend(
        &mut self,
        agent: Agent,
        credit: Option<CreditType>,
    ) -> Result<Option<Released>, Refusal>
        ensures refusal { refusal_of result ≡ tend_refusal_in self.old agent.0 credit }
        ensures ok { IfOk result (λ released. DoesAlone self.old self.new agent
            (ForType credit (λ t. Tends t released))) }
        ensures err { OnErr result (self.new ≡ self.old) }
        ensures kept { IsSystem self.old }
    {
        let ty = self.type_for(agent, credit)?;
        let requesters = self.requesters.as_mut_slice();
        tend_at(&self.tracker, requesters, agent, ty)
    }

    /// The place of a line's slice.
    fn place_of(&self, line: Line) -> usize
        ensures place { result ≡ index_of self.now.home line.0 }
        ensures kept { IsSystem self.now }
    {
        usize::from(self.config.slice_of(line))
    }

    /// The place of a line's slice, and the line's row there: whether agent and line are in the node is asked of
    /// the slice alone. Refused 10 (OutOfRange) exactly where not.
    fn row_for(&self, agent: Agent, line: Line) -> Result<(usize, u8), Refusal>
        ensures refusal { refusal_of result ≡ node_flits_refusal self.now.home agent.0 line.0 }
        ensures place { IfOk result (λ found. found.0 ≡ index_of self.now.home line.0) }
        ensures row { IfOk result
            (λ found. IsRowOf (slice_of self.now.home line.0) agent.0 line.0 found.1) }
        ensures near { OnOk result (agent.0 < self.now.home.config.agents) }
        ensures kept { IsSystem self.now }
    {
        let place = self.place_of(line);
        let row = self.slices[place].row_for(agent, line)?;
        Ok((place, row))
    }

    /// The slice of a line, lent: that whose index is the line's number modulo the number of slices.
    /// Source: `docs/PROTOCOL.md`, "The system".
    pub fn slice_of(&self, line: Line) -> &Slice<A>
        ensures slice { result.now ≡ slice_of self.now.home line.0 }
        ensures sizes { result.now.config ≡ self.now.home.config }
    {
        &self.slices[self.place_of(line)]
    }

    /// The type that a call for an agent names.
    fn type_for(&self, agent: Agent, credit: Option<CreditType>) -> Result<CreditType, Refusal>
        ensures refusal { refusal_of result
            ≡ typed_refusal self.now.home agent.0 (λ t. None) credit }
        ensures ok { IfOk result (λ ty. credit ≡ Some ty) }
        ensures agent { OnOk result (agent.0 < self.now.home.config.agents) }
        ensures kept { IsSystem self.now }
    {
        if !self.has_agent(agent) {
            return Err(Refusal::OutOfRange);
        }
        credit.ok_or(Refusal::OutOfRange)
    }

    /// Whether the agent is one of the node's.
    fn has_agent(&self, agent: Agent) -> bool
        ensures is { result ≡ nat_lt agent.0 self.now.home.config.agents }
        ensures kept { IsSystem self.now }
    {
        agent.0 < self.config.agents()
    }

    /// All parts of a line, as plain data. The line is coherent. Takes no memory.
    ///
    /// Refused 10 (OutOfRange) exactly where the line is outside the node.
    /// Source: `docs/PROTOCOL.md`, "One line" and "Coherence".
    pub fn view(&self, line: Line) -> Result<LineView, Refusal>
        ensures shown { IfOk result (λ view. view
            ≡ line_view (node_line self.now.home line.0) (node_last self.now.home line.0)) }
        ensures coherent { OnOk result
            (Coherent (node_last self.now.home line.0) (standing_of (node_line self.now.home line.0))) }
        ensures refusal { refusal_of result ≡ node_view_refusal self.now.home line.0 }
    {
        self.slice_of(line).view(line)
    }

    /// What is in flight between an agent and the home for a line.
    ///
    /// Refused 10 (OutOfRange) exactly where the agent or the line is outside the node.
    /// Source: `docs/PROTOCOL.md`, "Messages".
    pub fn flits(&self, agent: Agent, line: Line) -> Result<Cells, Refusal>
        ensures cells { IfOk result (λ cells. cells
            ≡ cells_of (node_line self.now.home line.0) agent.0) }
        ensures refusal { refusal_of result ≡ node_flits_refusal self.now.home agent.0 line.0 }
        ensures agent { OnOk result (agent.0 < self.now.home.config.agents) }
    {
        self.slice_of(line).flits(agent, line)
    }

    /// The loads and stores of all slices, and whether each is coherent.
    /// Source: `docs/FORMATS.md`, "Replay files".
    pub fn audit(&self) -> Audit
        ensures { IsAudited self.now.home.slices result.loads result.stores result.coherent }
    {
        audit_of(&self.slices)
    }

    /// The size of the node. Whoever asks for it knows what every node keeps.
    /// Source: `docs/PROTOCOL.md`, "Limits".
    pub fn config(&self) -> &Config
        ensures is { result.now ≡ self.now.home.config }
        ensures kept { IsSystem self.now }
    {
        &self.config
    }

    /// Whether each requester agrees with each slice. It is always so, since every call keeps it.
    /// Source: `docs/PROTOCOL.md`, "Agreement".
    pub fn agrees(&self) -> bool
        ensures is { IsTrue result ↔ AllAgree self.now.home.slices self.now.requesters }
        ensures always { result ≡ true }
    {
        all_agree(&self.slices, self.requesters.as_slice())
    }

    /// The headline of the node, as it stands between any two calls: each line has at most one unique holder
    /// and then no other, its filter names every holder, and each valid copy and each answered load has the
    /// value last written; each entry of the tracker is free, in the hand of one requester's port or promised
    /// to one requester, in one state of all ports; and a request that was resent with a credit is never
    /// refused an entry. It joins what all ports know, which stay as they are, and audits the slices: they are
    /// always coherent, since every call keeps this.
    /// Source: `docs/PROMISES.md`, "The headline".
    pub fn headline(&mut self) -> Audit
        ensures headline { Headline self.new }
        ensures audited { IsAudited self.new.home.slices result.loads result.stores result.coherent }
        ensures always { result.coherent ≡ true }
        ensures same { self.new ≡ self.old }
    {
        Law::together();
        are_coherent(&self.slices);
        let requesters = self.requesters.as_mut_slice();
        let _witness = witness_of(&self.tracker, requesters);
        audit_of(&self.slices)
    }

    /// How many entries of each type are free, in hand and promised, and how many credits are owed, as the
    /// tracker's words show it, loaded one after the other: the counts of some words of a tracker of the
    /// node's entries and agents.
    /// Source: `docs/PROTOCOL.md`, "Totals".
    pub fn glance(&self) -> Counts
        ensures { Glances self.now result }
    {
        self.tracker.glance()
    }
}

/// A look of the agent's requester.
fn see_at<A: Allocator>(
    tracker: &Tracker<A>,
    requesters: &mut [Requester],
    agent: Agent,
) -> [u32; 4]
    requires agent { agent.0 < length requesters.old }
    requires tables { All (λ r. r.table ≡ tracker.now.table) requesters.old }
    ensures { (r : RequesterState) × (requesters.new ≡ slice_set requesters.old agent.0 r)
        × Sees result (slice_index_or requesters.old agent.0 no_requester) r }
{
    requesters[usize::from(agent.0)].see(tracker)
}

/// The agent's requester gives a credit back.
fn give_back_at<A: Allocator>(
    tracker: &Tracker<A>,
    requesters: &mut [Requester],
    agent: Agent,
    ty: CreditType,
) -> Result<Released, Refusal>
    requires agent { agent.0 < length requesters.old }
    requires tables { All (λ r. r.table ≡ tracker.now.table) requesters.old }
    ensures { (r : RequesterState) × (requesters.new ≡ slice_set requesters.old agent.0 r)
        × Tried (give_back_refusal (outstanding_of
        (slice_index_or requesters.old agent.0 no_requester)) (credit_number ty))
        (GivesBack (credit_number ty)) (slice_index_or requesters.old agent.0 no_requester) r result }
{
    requesters[usize::from(agent.0)].give_back(tracker, ty)
}

/// The agent's requester tends a type.
fn tend_at<A: Allocator>(
    tracker: &Tracker<A>,
    requesters: &mut [Requester],
    agent: Agent,
    ty: CreditType,
) -> Result<Option<Released>, Refusal>
    requires agent { agent.0 < length requesters.old }
    requires tables { All (λ r. r.table ≡ tracker.now.table) requesters.old }
    ensures { (r : RequesterState) × (requesters.new ≡ slice_set requesters.old agent.0 r)
        × Tried (tend_refusal (outstanding_of
        (slice_index_or requesters.old agent.0 no_requester)) (credit_number ty))
        (Tends (credit_number ty)) (slice_index_or requesters.old agent.0 no_requester) r result }
{
    requesters[usize::from(agent.0)].tend(tracker, ty)
}
