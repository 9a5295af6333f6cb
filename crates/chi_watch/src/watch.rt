//! A trace of flits, judged: its ids and credits, and each flit at its place in its cache line.

ghost use Rattle.std.specs.Prelude.{◌≡◌, IfOk, false};
ghost use Rattle.chi_transactions.specs.State.{state_of};
ghost use Rattle.chi_watch.specs.Lines.{lines};
ghost use Rattle.chi_watch.specs.Nodes.{nodes};
ghost use Rattle.chi_watch.specs.Watched.{IsAccess, IsAccessTold, IsComing, IsGoingOn, IsNew, IsStray, IsTold, IsToldOf, IsWatched, access_by, is_unknown, parts};

use crate::flits::told_of;
use crate::held::HeldFlit;
use crate::judge::Start;
use crate::lines::{Drained, Lines};
use crate::nodes::Nodes;
use crate::told::{Cause, Told};
use chi_flit::{Agent, NO_DATA};
use chi_issue_b::{Beat, CacheLine, Flit, NodeId};
use chi_observer::{Act, CacheFlit, Stores};
use chi_transactions::{
    CreditTypes, Named, Options, Portion, Stop, Taken, Transactions, home_of, requester_of,
};
use std::alloc::{AllocError, Allocator};

/// What a trace is judged for.
/// Source: `docs/WATCH.md`, "What isn't judged".
#[derive(Clone, Copy, Debug, PartialEq, Eq)]
pub struct Settings {
    /// Which types of credit it has.
    pub types: CreditTypes,
    /// Whether a grant may come before its RetryAck.
    pub early_grants: bool,
    /// Whether each store of a processor is told of.
    pub stores: Stores,
    /// What was before its first flit.
    pub start: Start,
}

/// What came of a flit that ids and credits allow.
/// Source: `docs/WATCH.md`, "What isn't judged".
#[derive(Clone, Copy, Debug, PartialEq, Eq)]
pub struct Watched {
    /// What it is of.
    pub taken: Taken,
    /// What its line judged then, and the first fault there.
    pub done: Drained,
}

/// A trace of flits, as far as it was seen.
/// Source: `docs/WATCH.md`, "What a line is told".
#[derive(Drop)]
pub struct Watch<A: Allocator> {
    transactions: Transactions<A>,
    nodes: Nodes<A>,
    lines: Lines<A>,
}

/// Why a trace isn't watched any further.
/// Source: `docs/WATCH.md`, "What isn't judged".
#[derive(Clone, Copy, Debug, PartialEq, Eq)]
pub enum WatchStop {
    /// Ids or credits don't allow the flit, and nothing has changed.
    Ids(chi_transactions::Reason),
    /// Memory ran out: what is kept is of no use any more.
    NoMemory,
}

/// Whether ids from before the trace may be named.
fn is_unknown(start: Start) -> bool
    ensures { result ≡ is_unknown start }
{
    matches!(start, Start::Unknown)
}

impl<A: Allocator + Copy> Watch<A> {
    /// A trace that is judged for this, before its first flit.
    /// Source: `docs/WATCH.md`, "What a line is told".
    pub fn new(alloc: A, settings: Settings) -> Watch<A>
        ensures { IsNew settings result }
    {
        let options = Options {
            types: settings.types,
            early_grants: settings.early_grants,
            begins_in_middle: is_unknown(settings.start),
        };
        Watch {
            transactions: Transactions::new(alloc, options),
            nodes: Nodes::new(alloc),
            lines: Lines::new(alloc, settings.start, settings.stores),
        }
    }
}

/// A flit that waits, or not, with this number.
fn held_by(told: Told, awaits: Option<u64>, number: u64) -> HeldFlit
    ensures { result ≡ record { told = told; is_access = false; awaits = awaits; number = number; last = number } }
{
    HeldFlit {
        told,
        is_access: false,
        awaits,
        number,
        last: number,
    }
}

/// What a line is told of by a load or a store of an agent's processor.
fn access_by(agent: Option<Agent>, act: Act) -> Told
    ensures { result ≡ access_by agent act }
{
    match agent {
        Some(agent) => Told::Flit(chi_observer::Flit::Up(CacheFlit {
            agent,
            act,
            shown: NO_DATA,
        })),
        None => Told::Unjudged(Cause::Node),
    }
}

impl<A: Allocator + Copy> Watch<A> {
    /// Takes the next flit of the trace, which has this number, counted from 1, and these words of data, if it has data. Err where ids
    /// and credits don't allow it, and nothing changes; or where memory runs out. Where they do, its line is told of it, and the
    /// answer has the first fault that is met there, which may be of a flit before it that waited.
    /// Source: `docs/WATCH.md`, "What a line is told".
    pub fn take(&mut self, flit: &Flit, beat: &Beat, number: u64) -> Result<Watched, WatchStop>
        ensures { IsWatched self.old self.new flit.now beat.now number result }
    {
        match self.transactions.take(flit, beat.given, number) {
            Ok(taken) => match self.tell(&taken, flit, beat, number) {
                Ok(done) => Ok(Watched { taken, done }),
                Err(_) => Err(WatchStop::NoMemory),
            },
            Err(Stop::Refused(reason)) => Err(WatchStop::Ids(reason)),
            Err(Stop::NoMemory) => Err(WatchStop::NoMemory),
        }
    }

    /// Tells the line of a flit, by what it is of.
    fn tell(
        &mut self,
        taken: &Taken,
        flit: &Flit,
        beat: &Beat,
        number: u64,
    ) -> Result<Drained, AllocError>
        ensures told { IfOk result (λ done. IsTold taken.now (parts self.old) (parts self.new) flit.now beat.now number done) }
        ensures ids { self.new.transactions ≡ self.old.transactions }
    {
        match taken {
            Taken::Of(named) => self.tell_of(named, flit, beat, number),
            Taken::Before(_) => self.stray(flit, number),
            Taken::Credit => Ok(Drained::none()),
            Taken::Nothing => Ok(Drained::none()),
        }
    }

    /// Tells the line of a flit, by which part of its data that is.
    fn tell_of(
        &mut self,
        named: &Named,
        flit: &Flit,
        beat: &Beat,
        number: u64,
    ) -> Result<Drained, AllocError>
        ensures told { IfOk result (λ done.
            IsToldOf named.now.beat (parts self.old) (parts self.new) named.now flit.now beat.now number done) }
        ensures ids { self.new.transactions ≡ self.old.transactions }
    {
        match named.beat {
            Portion::Whole => self.arrive(named, flit, beat, None, number),
            Portion::First => self.arrive(named, flit, beat, Some(named.since), number),
            Portion::Further => Ok(self.go_on(named, beat, number, false)),
            Portion::Last => Ok(self.go_on(named, beat, number, true)),
        }
    }

    /// Tells the line of a flit that is whole, or whose other words are to come by this id.
    fn arrive(
        &mut self,
        named: &Named,
        flit: &Flit,
        beat: &Beat,
        awaited: Option<u64>,
        number: u64,
    ) -> Result<Drained, AllocError>
        ensures told { IfOk result (λ done.
            IsComing (parts self.old) (parts self.new) named.now flit.now beat.now awaited number done) }
        ensures ids { self.new.transactions ≡ self.old.transactions }
    {
        let home = home_of(flit);
        let agent = self.nodes.number(requester_of(flit), home)?;
        let held = held_by(told_of(flit, named.of, agent, &beat.words), awaited, number);
        self.lines.arrive(named.line, home, &held)
    }

    /// Tells the line of a later beat.
    fn go_on(&mut self, named: &Named, beat: &Beat, number: u64, is_last: bool) -> Drained
        ensures told { IsGoingOn (parts self.old) (parts self.new) named.now beat.now number is_last result }
        ensures ids { self.new.transactions ≡ self.old.transactions }
    {
        self.lines
            .join(named.line, named.since, beat, number, is_last)
    }

    /// A flit that names an id from before may be of any line.
    fn stray(&mut self, flit: &Flit, number: u64) -> Result<Drained, AllocError>
        ensures told { IfOk result (λ done. IsStray (parts self.old) (parts self.new) flit.now number done) }
        ensures ids { self.new.transactions ≡ self.old.transactions }
    {
        let agent = self.nodes.number(requester_of(flit), home_of(flit))?;
        self.lines.stray_by(agent, number);
        Ok(Drained::none())
    }

    /// Takes a load or a store of a requester's processor, with this number. Err where memory runs out.
    /// Source: `docs/WATCH.md`, "What a line is told".
    pub fn access(
        &mut self,
        requester: NodeId,
        line: CacheLine,
        act: Act,
        number: u64,
    ) -> Result<Drained, AllocError>
        ensures { IfOk result (λ done. IsAccessTold (parts self.old) (parts self.new) requester line act number done) }
    {
        match self.lines.home_of(line) {
            Some(home) => self.access_at(requester, home, line, act, number),
            None => Ok(self.lines.untouched(number)),
        }
    }

    /// Takes a load or a store at a line of this home.
    fn access_at(
        &mut self,
        requester: NodeId,
        home: NodeId,
        line: CacheLine,
        act: Act,
        number: u64,
    ) -> Result<Drained, AllocError>
        ensures { IfOk result (λ done. IsAccess (parts self.old) (parts self.new) requester home line act number done) }
    {
        let agent = self.nodes.number(requester, home)?;
        let held = HeldFlit {
            told: access_by(agent, act),
            is_access: true,
            awaits: None,
            number,
            last: number,
        };
        self.lines.arrive(line, home, &held)
    }
}

impl<A: Allocator> Watch<A> {
    /// What is outstanding by ids, and the credits.
    /// Source: `docs/WATCH.md`, "Nodes".
    pub fn transactions(&self) -> &Transactions<A>
        ensures { state_of result.now ≡ state_of self.now.transactions }
    {
        &self.transactions
    }

    /// The nodes that are known.
    /// Source: `docs/WATCH.md`, "What a line is told".
    pub fn nodes(&self) -> &Nodes<A>
        ensures { nodes result.now ≡ (parts self.now).nodes }
    {
        &self.nodes
    }

    /// The lines that flits have touched.
    /// Source: `docs/WATCH.md`, "What a line is told".
    pub fn lines(&self) -> &Lines<A>
        ensures { lines result.now ≡ (parts self.now).lines }
    {
        &self.lines
    }
}
