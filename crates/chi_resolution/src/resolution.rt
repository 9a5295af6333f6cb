//! The flits of a trace, resolved one after the other.

ghost use Rattle.std.specs.Prelude.{◌≡◌, ◌++◌, All, IfOk, IfSome, OnOk, not};
ghost use Rattle.std.specs.List.{filter};
ghost use Rattle.std.specs.Map.{values_of};
ghost use Rattle.chi_resolution.specs.Grants.{AreGrantsDue};
ghost use Rattle.chi_resolution.specs.Ids.{with_id, without};
ghost use Rattle.chi_resolution.specs.Ledger.{IsLedgerBalanced, booked};
ghost use Rattle.chi_resolution.specs.Resolution.{IsFirstRefused, after_beat, after_flit, acting_agent, allowed_of, data_after, ids_after, is_ack_of, is_released, nothing, placed, resolution_of, stepped, taken, waiting_after, with_data};

use crate::beats::OpenData;
use crate::ids::{KeyTable, OpenId, OpenKey, numbers_of};
use crate::ledger::{Booking, CreditLedger, Types};
use crate::lines::Resolved;
use crate::nodes::{Ends, Nodes};
use crate::reasons::{IdFault, IdReason};
use crate::tables::{Change, Further, LineFlit, Tables};
use chi_explain::{Observed, StoreListing};
use chi_flit::{Agent, Msg, NoMemory, RspUp};
use chi_trace::Seen;
use indexmap::IndexMap;
use std::alloc::{AllocError, Allocator};
use std::marker::Model;

/// What a trace is taken for.
/// Source: `docs/TRACES.md`, "Nodes, ids and credits".
#[derive(Clone, Copy, Debug, PartialEq, Eq)]
pub struct Options {
    pub types: Types,
    /// The monitors stand at the requesters, where a grant may come before its RetryAck.
    pub early_grants: bool,
    /// Which stores it lists.
    pub stores: StoreListing,
}

/// The flits of a trace, resolved, and what is open behind them.
/// Source: `docs/TRACES.md`, "Nodes, ids and credits".
#[derive(Debug, Drop)]
pub struct Resolution<A: Allocator> {
    /// In the order of the trace, but that a load or a store that waits for a CompAck stands behind it; data stands at the
    /// place of its first beat. Words that no beat has had are 0.
    pub flits: Vec<Resolved, A>,
    pub nodes: Nodes<A>,
    /// The first flit that isn't allowed; all before it are resolved, and nothing else.
    pub fault: Option<IdFault>,
    /// The ids that are open behind them, in no order.
    pub ids: Vec<OpenId, A>,
    /// The data that lacks words, in no order.
    pub unfinished: Vec<OpenData, A>,
    /// The accounts of the nodes and types of which credits were seen.
    pub accounts: Vec<CreditLedger, A>,
    /// The loads and stores that still wait for a CompAck, in the order of the trace.
    pub waiting: Vec<Resolved, A>,
}

/// What the flits so far have left open, and those that are resolved.
/// Source: `docs/TRACES.md`, "Nodes, ids and credits".
#[derive(Drop)]
pub struct Resolver<A: Allocator> {
    nodes: Nodes<A>,
    ids: KeyTable<OpenId, A>,
    unfinished: KeyTable<OpenData, A>,
    accounts: Vec<CreditLedger, A>,
    flits: Vec<Resolved, A>,
    waiting: Vec<Resolved, A>,
}

impl<A: Allocator> Model for Resolver<A> {
    ghost use Rattle.chi_resolution.specs.Resolution.{IdProgress, progress_of};

    ghost Value = { IdProgress };

    ghost view = { λ s.
        progress_of s.nodes.home s.nodes.requesters.items s.ids.entries s.unfinished.entries
        s.accounts.items s.flits.items s.waiting.items };
}

/// The nodes of a flit, and what it does.
#[derive(Clone, Copy)]
struct Allowed {
    ends: Ends,
    change: Change,
}

/// Resolves the flits in their order, up to the first that the ids or the ledger don't allow.
///
/// `NoMemory` where memory runs out.
/// Source: `docs/TRACES.md`, "Nodes, ids and credits".
pub fn resolve<A: Allocator + Copy>(
    alloc: A,
    seen: &[Seen],
    options: Options,
) -> Result<Resolution<A>, NoMemory>
    ensures flits { IfOk result (λ r.
        r.flits.items ≡ (resolution_of options seen.now).progress.table.flits) }
    ensures fault { IfOk result (λ r. r.fault ≡ (resolution_of options seen.now).fault) }

    // What is open behind the flits that are resolved.
    ensures home { IfOk result (λ r.
        r.nodes.home ≡ (resolution_of options seen.now).progress.home) }
    ensures requesters { IfOk result (λ r.
        r.nodes.requesters.items ≡ (resolution_of options seen.now).progress.requesters) }
    ensures ids { IfOk result (λ r.
        r.ids.items ≡ values_of (resolution_of options seen.now).progress.table.ids) }
    ensures unfinished { IfOk result (λ r.
        r.unfinished.items
        ≡ values_of (resolution_of options seen.now).progress.table.unfinished) }
    ensures accounts { IfOk result (λ r.
        r.accounts.items ≡ (resolution_of options seen.now).progress.table.accounts) }
    ensures waiting { IfOk result (λ r.
        r.waiting.items ≡ (resolution_of options seen.now).progress.table.waiting) }

    // Of each node and type: S + B ≤ G, B ≤ C, and G ≤ R unless grants may be early.
    ensures ledger { IfOk result (λ r. All (IsLedgerBalanced options.early_grants) r.accounts.items) }

    // Each grant, by the flits before it: G < R, or with early grants less than R and the first attempts on their way.
    ensures grants { IfOk result (λ r. AreGrantsDue options seen.now r.fault) }

    // The first flit that isn't allowed, and that no trace that goes on behind it is without that fault.
    ensures refused { IfOk result (λ r. IfSome r.fault (IsFirstRefused options seen.now)) }
{
    let mut state = Resolver::new(alloc, seen.len())?;
    for (at, flit) in seen.iter().enumerate() {
        if let Some(reason) = state.take(options, at, flit)? {
            return state.ended(alloc, Some(IdFault { at, reason }));
        }
    }
    state.ended(alloc, None)
}

/// The id of the key is free, if one is.
fn free_id<A: Allocator>(ids: &mut KeyTable<OpenId, A>, frees: Option<OpenKey>)
    ensures { ids.new.entries ≡ without frees ids.old.entries }
{
    if let Some(key) = frees {
        let _ = ids.swap_remove(&numbers_of(key));
    }
}

/// Another id is open, if one is.
fn open_id<A: Allocator>(
    ids: &mut KeyTable<OpenId, A>,
    opens: Option<OpenId>,
) -> Result<(), AllocError>
    ensures { OnOk result (ids.new.entries ≡ with_id opens ids.old.entries) }
{
    if let Some(id) = opens {
        let _ = ids.insert(numbers_of(id.key), id)?;
    }
    Ok(())
}

/// The id of the key is free, if one is, and another one open.
fn change_ids<A: Allocator>(
    ids: &mut KeyTable<OpenId, A>,
    frees: Option<OpenKey>,
    opens: Option<OpenId>,
) -> Result<(), AllocError>
    ensures { OnOk result (ids.new.entries ≡ ids_after frees opens ids.old.entries) }
{
    free_id(ids, frees);
    open_id(ids, opens)
}

/// Data that lacks words is kept, if there is such.
fn keep_data<A: Allocator>(
    unfinished: &mut KeyTable<OpenData, A>,
    begun: Option<OpenData>,
) -> Result<(), AllocError>
    ensures { OnOk result (unfinished.new.entries ≡ with_data begun unfinished.old.entries) }
{
    if let Some(data) = begun {
        let _ = unfinished.insert(numbers_of(data.key), data)?;
    }
    Ok(())
}

/// The account has one more, and is in its place or behind the others. Its number is at most that of the flits.
fn book<A: Allocator>(
    accounts: &mut Vec<CreditLedger, A>,
    booking: &Booking,
) -> Result<(), AllocError>
    ensures { OnOk result (accounts.new.items ≡ booked booking.now accounts.old.items) }
{
    let Some(account) = booking.held.account.with_event(booking.event) else {
        return Err(AllocError);
    };
    match booking.held.place {
        Some(place) => {
            if let Some(held) = accounts.get_mut(place) {
                *held = account;
            }
        }
        None => accounts.push(account)?,
    }
    Ok(())
}

/// The data has the words of a further beat; where it lacks none it is finished.
fn change_data<A: Allocator>(
    unfinished: &mut KeyTable<OpenData, A>,
    further: &Further,
) -> Result<(), AllocError>
    ensures { OnOk result (unfinished.new.entries ≡ data_after further.now unfinished.old.entries) }
{
    if further.frees.is_some() {
        let _ = unfinished.swap_remove(&numbers_of(further.joined.key));
        return Ok(());
    }
    keep_data(unfinished, Some(further.joined))
}

/// Whether it is the agent's CompAck.
fn is_ack_of(flit: &Observed, agent: Agent) -> bool
    ensures { result ≡ is_ack_of agent flit.now }
{
    match flit {
        Observed::Flit(sent) => {
            sent.agent.0 == agent.0 && matches!(sent.message, Msg::RspUp(RspUp::CompAck))
        }
        Observed::Load(_, _, _) | Observed::Store(_, _, _) => false,
    }
}

/// The agent of an item.
fn agent_of(flit: &Observed) -> Agent
    ensures { result ≡ acting_agent flit.now }
{
    match flit {
        Observed::Flit(sent) => sent.agent,
        Observed::Load(agent, _, _) | Observed::Store(agent, _, _) => *agent,
    }
}

/// Whether a load or a store waits for this flit.
fn is_released(flit: &LineFlit, item: &Resolved) -> bool
    ensures { result ≡ is_released flit.now item.now }
{
    item.line.0 == flit.line.0 && is_ack_of(&flit.flit, agent_of(&item.flit))
}

/// Puts the loads and stores that wait for a flit behind it.
fn release<A: Allocator>(
    flits: &mut Vec<Resolved, A>,
    waiting: &[Resolved],
    flit: &LineFlit,
) -> Result<(), AllocError>
    ensures { OnOk result
        (flits.new.items ≡ flits.old.items ++ filter (is_released flit.now) waiting.now) }
{
    for item in waiting {
        if is_released(flit, item) {
            flits.push(*item)?;
        }
    }
    Ok(())
}

/// Takes out the loads and stores that wait for a flit.
fn forget<A: Allocator>(waiting: &mut Vec<Resolved, A>, flit: &LineFlit)
    ensures { waiting.new.items
        ≡ filter (λ item. not (is_released flit.now item)) waiting.old.items }
{
    waiting.retain(|item| !is_released(flit, item));
}

/// A flit stands behind those before it, with the loads and stores that wait for it, or waits itself.
fn place<A: Allocator>(
    flits: &mut Vec<Resolved, A>,
    waiting: &mut Vec<Resolved, A>,
    at: usize,
    flit: &LineFlit,
) -> Result<(), AllocError>
    ensures flits { OnOk result
        (flits.new.items ≡ flits.old.items ++ placed at flit.now waiting.old.items) }
    ensures waiting { OnOk result
        (waiting.new.items ≡ waiting_after at flit.now waiting.old.items) }
{
    let item = Resolved {
        at,
        line: flit.line,
        flit: flit.flit,
    };
    if flit.waits {
        waiting.push(item)?;
    } else {
        flits.push(item)?;
        release(flits, waiting, flit)?;
        forget(waiting, flit);
    }
    Ok(())
}

impl<A: Allocator + Copy> Resolver<A> {
    /// Nothing is seen yet, and there is room for so many flits; more may come.
    ///
    /// `NoMemory` where memory runs out.
    /// Source: `docs/TRACES.md`, "Nodes, ids and credits".
    pub fn new(alloc: A, count: usize) -> Result<Resolver<A>, NoMemory>
        ensures { IfOk result (λ state. state ≡ nothing) }
    {
        let flits = Vec::with_capacity(alloc, count)?;
        Ok(Resolver {
            nodes: Nodes::new(alloc),
            ids: IndexMap::new(alloc),
            unfinished: IndexMap::new(alloc),
            accounts: Vec::new(alloc),
            flits,
            waiting: Vec::new(alloc),
        })
    }

    /// What the flits so far are resolved to, where this one is the first that isn't allowed.
    ///
    /// `NoMemory` where memory runs out.
    /// Source: `docs/TRACES.md`, "Nodes, ids and credits".
    pub fn ended(self, alloc: A, fault: Option<IdFault>) -> Result<Resolution<A>, NoMemory>
        ensures flits { IfOk result (λ r. r.flits.items ≡ self.table.flits) }
        ensures fault { IfOk result (λ r. r.fault ≡ fault) }
        ensures home { IfOk result (λ r. r.nodes.home ≡ self.home) }
        ensures requesters { IfOk result (λ r. r.nodes.requesters.items ≡ self.requesters) }
        ensures ids { IfOk result (λ r. r.ids.items ≡ values_of self.table.ids) }
        ensures unfinished { IfOk result
            (λ r. r.unfinished.items ≡ values_of self.table.unfinished) }
        ensures accounts { IfOk result (λ r. r.accounts.items ≡ self.table.accounts) }
        ensures waiting { IfOk result (λ r. r.waiting.items ≡ self.table.waiting) }
    {
        let ids = Vec::from_slice(alloc, self.ids.values().as_slice())?;
        let unfinished = Vec::from_slice(alloc, self.unfinished.values().as_slice())?;
        Ok(Resolution {
            flits: self.flits,
            nodes: self.nodes,
            fault,
            ids,
            unfinished,
            accounts: self.accounts,
            waiting: self.waiting,
        })
    }
}

impl<A: Allocator> Resolver<A> {
    /// The nodes of the next flit, and what it does, or why it isn't allowed.
    #[tactic(auto, unfolding(crate::specs::Resolution::allowed_of))]
    fn allowed_of(&self, options: Options, seen: &Seen) -> Result<Allowed, IdReason>
        ensures { result ≡ allowed_of options self.now seen.now }
    {
        let ends = self.nodes.ends_of(seen)?;
        let tables = Tables {
            options,
            ids: &self.ids,
            unfinished: &self.unfinished,
            accounts: &self.accounts,
            flits: &self.flits,
            waiting: &self.waiting,
        };
        let change = tables.change(&ends, &seen.flit)?;
        Ok(Allowed { ends, change })
    }

    /// Takes the next flit, of this number; the reason where the ids or the ledger don't allow it, and then all stays as
    /// it is.
    ///
    /// `NoMemory` where memory runs out: what is open isn't known then.
    /// Source: `docs/TRACES.md`, "Nodes, ids and credits".
    pub fn take(
        &mut self,
        options: Options,
        at: usize,
        seen: &Seen,
    ) -> Result<Option<IdReason>, NoMemory>
        ensures { IfOk result
            (λ reason. (self.new, reason) ≡ stepped options at self.old seen.now) }
    {
        match self.allowed_of(options, seen) {
            Ok(allowed) => {
                self.take_allowed(at, &allowed)?;
                Ok(None)
            }
            Err(reason) => Ok(Some(reason)),
        }
    }

    /// Takes the flit of this number.
    fn take_allowed(&mut self, at: usize, allowed: &Allowed) -> Result<(), AllocError>
        ensures { OnOk result (self.new ≡ taken at allowed.now self.old) }
    {
        self.nodes.add(&allowed.ends)?;
        match allowed.change {
            Change::Flit(flit) => self.tell(at, &flit),
            Change::Credit(booking) => book(&mut self.accounts, &booking),
            Change::Beat(further) => self.fill(&further),
        }
    }

    /// A flit of a line.
    fn tell(&mut self, at: usize, flit: &LineFlit) -> Result<(), AllocError>
        ensures { OnOk result
            (self.new ≡ record self.old { table = after_flit at flit.now self.old.table }) }
    {
        free_id(&mut self.ids, flit.cancels);
        change_ids(&mut self.ids, flit.frees, flit.opens)?;
        if let Some(booking) = flit.books {
            book(&mut self.accounts, &booking)?;
        }
        keep_data(&mut self.unfinished, flit.begins)?;
        place(&mut self.flits, &mut self.waiting, at, flit)
    }

    /// A further beat of data.
    fn fill(&mut self, further: &Further) -> Result<(), AllocError>
        ensures { OnOk result
            (self.new ≡ record self.old { table = after_beat further.now self.old.table }) }
    {
        if let Some(resolved) = self.flits.get_mut(further.joined.place) {
            resolved.flit = further.flit;
        }
        change_data(&mut self.unfinished, further)?;
        change_ids(&mut self.ids, further.frees, None)
    }
}
