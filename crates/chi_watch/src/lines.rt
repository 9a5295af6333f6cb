//! The cache lines that flits have touched.

ghost use Rattle.std.specs.Prelude.{◌≡◌, ◌<◌, ◌^◌, ◌&&◌, [], IfOk, None, OnErr, length, nat_eq, option_map, slice_get};
ghost use Rattle.std.specs.Map.{lookup};
ghost use Rattle.chi_watch.specs.Held.{held_in, is_none_held, is_whole};
ghost use Rattle.chi_watch.specs.Judges.{judged};
ghost use Rattle.chi_watch.specs.Lines.{IsArrived, IsDone, IsJoined, arrived, at_once, counted, crowded, drained, entry_state, fault_by, first_fault, heard_line, home_of, joined_line, line_state, lines, lines_by, no_lines, nothing_done, opened_line, outcome_of, passed, row_state, strayed, strayed_by, tallied, total, unjudged_of, untouched, waiting_of};

use crate::held::{Held, HeldFlit, HeldStop};
use crate::judge::{Judge, LineReason, Start, Strays, Unjudged, Verdict};
use crate::told::Told;
use chi_copies::Reason;
use chi_flit::Agent;
use chi_issue_b::{Beat, CacheLine, NodeId};
use chi_observer::Stores;
use indexmap::IndexMap;
use std::alloc::{AllocError, Allocator};
use std::hash::{BuildHasherDefault, FoldHasher};

/// A fault of a cache line.
/// Source: `docs/WATCH.md`, "What isn't judged".
#[derive(Clone, Copy, Debug, PartialEq, Eq)]
pub struct LineFault {
    /// The number of the flit that is a fault: of data that come in beats that of the last one, with which they are judged.
    pub number: u64,
    pub reason: LineReason,
}

/// How many flits were judged by a call, or passed unjudged.
/// Source: `docs/WATCH.md`, "What isn't judged".
#[derive(Clone, Copy, Debug, PartialEq, Eq)]
pub struct Tally {
    /// How many the line's judge took.
    pub judged: usize,
    /// How many weren't judged.
    pub unjudged: usize,
}

/// What came of what a line was told of by a call; what waits is in none of these.
/// Source: `docs/WATCH.md`, "What isn't judged".
#[derive(Clone, Copy, Debug, PartialEq, Eq)]
pub struct Drained {
    /// Of flits.
    pub flits: Tally,
    /// Of loads and stores.
    pub accesses: Tally,
    /// The first one that is a fault.
    pub fault: Option<LineFault>,
}

/// A cache line that flits have touched.
/// Source: `docs/WATCH.md`, "What a line is told".
#[derive(Drop)]
pub struct LineSeen<A: Allocator> {
    /// The home of its first flit.
    pub home: NodeId,
    /// What judges its flits.
    pub judge: Judge<A>,
    /// The flits that wait for words of data.
    pub held: Held<A>,
}

/// What was before a trace.
#[derive(Clone, Copy, Debug, PartialEq, Eq)]
pub(crate) struct Before {
    /// Before its first flit.
    pub start: Start,
    /// Whether each store of a processor is told of.
    pub stores: Stores,
    /// The flits that name ids from before.
    pub strays: Strays,
}

/// The lines that flits have touched, each under the address of its first byte.
pub(crate) type LineTable<A> = IndexMap<u64, LineSeen<A>, BuildHasherDefault<FoldHasher>, A>;

impl Tally {
    /// Counts one more.
    fn count(&mut self, verdict: Verdict)
        requires judged { self.old.judged < 2 ^ 63 }
        requires unjudged { self.old.unjudged < 2 ^ 63 }
        ensures { self.new ≡ tallied verdict self.old }
    {
        match verdict {
            Verdict::Judged => self.judged += 1,
            Verdict::Unjudged => self.unjudged += 1,
            Verdict::Fault(_) => {}
        }
    }
}

/// The first fault, behind a flit with this number.
fn fault_by(verdict: Verdict, number: u64, first: Option<LineFault>) -> Option<LineFault>
    ensures { result ≡ fault_by verdict number first }
{
    match verdict {
        Verdict::Fault(reason) => first_fault(first, LineFault { number, reason }),
        Verdict::Judged | Verdict::Unjudged => first,
    }
}

/// The first of the faults, behind this one.
fn first_fault(first: Option<LineFault>, fault: LineFault) -> Option<LineFault>
    ensures { result ≡ first_fault first fault }
{
    match first {
        Some(first) => Some(first),
        None => Some(fault),
    }
}

impl Drained {
    /// Of nothing.
    pub(crate) fn none() -> Drained
        ensures { result ≡ nothing_done }
    {
        let none = Tally {
            judged: 0,
            unjudged: 0,
        };
        Drained {
            flits: none,
            accesses: none,
            fault: None,
        }
    }

    /// Counts one more flit.
    fn count(&mut self, verdict: Verdict, flit: &HeldFlit)
        requires { total self.old < 2 ^ 63 }
        ensures { self.new ≡ counted verdict flit.now self.old }
    {
        self.fault = fault_by(verdict, flit.last, self.fault);
        if flit.is_access {
            self.accesses.count(verdict);
        } else {
            self.flits.count(verdict);
        }
    }
}

/// Judges the front of the queue while it is whole.
fn drain<A: Allocator>(judge: &mut Judge<A>, held: &mut Held<A>, strays: &Strays) -> Drained
    ensures { outcome_of judge.new held.new result ≡ drained strays.now (judged judge.old) (held_in held.old) nothing_done }
{
    let mut done = Drained::none();
    while let Some(flit) = held.next() {
        let verdict = judge.take(&flit.told, flit.number, strays);
        done.count(verdict, &flit);
    }
    done
}

/// Lets all that wait pass unjudged, and one more flit.
fn pass_all<A: Allocator>(held: &mut Held<A>, flit: &HeldFlit) -> Drained
    ensures none { held_in held.new ≡ [] }
    ensures passed { result ≡ passed (held_in held.old) (counted Verdict.Unjudged flit.now nothing_done) }
{
    let mut done = Drained::none();
    done.count(Verdict::Unjudged, flit);
    while let Some(passed) = held.pop() {
        done.count(Verdict::Unjudged, &passed);
    }
    done
}

impl<A: Allocator + Copy> LineSeen<A> {
    /// A line of this home that no flit has touched before the one with this number.
    fn new(alloc: A, before: &Before, home: NodeId, number: u64) -> Result<LineSeen<A>, AllocError>
        ensures { IfOk result (λ seen. line_state seen ≡ opened_line before.now.start before.now.stores home number) }
    {
        let judge = Judge::new(alloc, before.start, before.stores, number)?;
        Ok(LineSeen {
            home,
            judge,
            held: Held::new(alloc),
        })
    }
}

impl<A: Allocator> LineSeen<A> {
    /// Judges a flit for which none waits.
    fn judge_at_once(&mut self, flit: &HeldFlit, strays: &Strays) -> Drained
        ensures { IsDone (line_state self.old) (line_state self.new) (at_once strays.now (line_state self.old) flit.now) result }
    {
        let mut done = Drained::none();
        let verdict = self.judge.take(&flit.told, flit.number, strays);
        done.count(verdict, flit);
        done
    }

    /// Whether none waits for a flit, nor it for words.
    fn is_next(&self, flit: &HeldFlit) -> bool
        ensures { result ≡ (is_none_held (held_in self.now.held) && is_whole flit.now) }
    {
        self.held.is_empty() && flit.is_whole()
    }

    /// None of the flits that wait is judged, nor one more.
    fn crowd(&mut self, flit: &HeldFlit) -> Drained
        ensures { IsDone (line_state self.old) (line_state self.new) (crowded (line_state self.old) flit.now) result }
    {
        self.judge.crowd(flit.number);
        pass_all(&mut self.held, flit)
    }

    /// Lets a flit wait behind the others, and judges what can be.
    fn hold(&mut self, flit: &HeldFlit, strays: &Strays) -> Result<Drained, AllocError>
        ensures ok { IfOk result (λ done. IsDone (line_state self.old) (line_state self.new)
            (arrived strays.now (line_state self.old) flit.now) done) }
        ensures err { OnErr result (line_state self.new ≡ line_state self.old) }
    {
        match self.held.push(*flit) {
            Ok(()) => Ok(drain(&mut self.judge, &mut self.held, strays)),
            Err(HeldStop::Full) => Ok(self.crowd(flit)),
            Err(HeldStop::NoMemory) => Err(AllocError),
        }
    }

    /// Takes a flit of the line's home that is whole, or is the first beat of its data.
    fn arrive(&mut self, flit: &HeldFlit, strays: &Strays) -> Result<Drained, AllocError>
        ensures ok { IfOk result (λ done. IsDone (line_state self.old) (line_state self.new)
            (arrived strays.now (line_state self.old) flit.now) done) }
        ensures err { OnErr result (line_state self.new ≡ line_state self.old) }
    {
        if self.is_next(flit) {
            return Ok(self.judge_at_once(flit, strays));
        }
        self.hold(flit, strays)
    }

    /// Takes a flit of this home.
    fn hear(
        &mut self,
        home: NodeId,
        flit: &HeldFlit,
        strays: &Strays,
    ) -> Result<Drained, AllocError>
        ensures ok { IfOk result (λ done. IsDone (line_state self.old) (line_state self.new)
            (heard_line strays.now (line_state self.old) home flit.now) done) }
        ensures err { OnErr result (line_state self.new ≡ line_state self.old) }
    {
        if self.home.0 == home.0 {
            return self.arrive(flit, strays);
        }
        let other = HeldFlit {
            told: Told::OtherHome,
            ..*flit
        };
        self.arrive(&other, strays)
    }

    /// Takes a later beat.
    fn join(&mut self, id: u64, beat: &Beat, number: u64, is_last: bool, strays: &Strays) -> Drained
        ensures { IsDone (line_state self.old) (line_state self.new)
            (joined_line strays.now (line_state self.old) id beat.now number is_last) result }
    {
        self.held.join(id, beat, number, is_last);
        drain(&mut self.judge, &mut self.held, strays)
    }
}

/// The lines of a trace's flits.
/// Source: `docs/WATCH.md`, "What a line is told".
#[derive(Drop)]
pub struct Lines<A: Allocator> {
    table: LineTable<A>,
    before: Before,
}

/// Takes a flit of a line and of this home.
fn arrive_in<A: Allocator + Copy>(
    table: &mut LineTable<A>,
    before: &Before,
    line: CacheLine,
    home: NodeId,
    flit: &HeldFlit,
) -> Result<Drained, AllocError>
    ensures { IsArrived (lines_by before.now table.old.entries) (lines_by before.now table.new.entries) line home flit.now result }
{
    match table.get_mut(&line.address()) {
        Some(seen) => seen.hear(home, flit, &before.strays),
        None => open(table, before, line, home, flit),
    }
}

/// Takes the first flit of a line.
fn open<A: Allocator + Copy>(
    table: &mut LineTable<A>,
    before: &Before,
    line: CacheLine,
    home: NodeId,
    flit: &HeldFlit,
) -> Result<Drained, AllocError>
    requires { lookup (nat_eq line.address) table.old.entries ≡ None }
    ensures { IsArrived (lines_by before.now table.old.entries) (lines_by before.now table.new.entries) line home flit.now result }
{
    let alloc = *table.allocator();
    let mut seen = LineSeen::new(alloc, before, home, flit.number)?;
    let done = seen.hear(home, flit, &before.strays)?;
    match table.insert(line.address(), seen) {
        Ok(_) => Ok(done),
        Err(_) => Err(AllocError),
    }
}

/// Takes a later beat of data of a line.
fn join_in<A: Allocator>(
    table: &mut LineTable<A>,
    before: &Before,
    line: CacheLine,
    id: u64,
    beat: &Beat,
    number: u64,
    is_last: bool,
) -> Drained
    ensures { IsJoined (lines_by before.now table.old.entries) (lines_by before.now table.new.entries)
        line id beat.now number is_last result }
{
    match table.get_mut(&line.address()) {
        Some(seen) => seen.join(id, beat, number, is_last, &before.strays),
        None => Drained::none(),
    }
}

impl<A: Allocator + Copy> Lines<A> {
    /// The lines of a trace that begins so, before its first flit.
    /// Source: `docs/WATCH.md`, "What a line is told".
    pub fn new(alloc: A, start: Start, stores: Stores) -> Lines<A>
        ensures { lines result ≡ no_lines start stores }
    {
        Lines {
            table: IndexMap::new(alloc),
            before: Before {
                start,
                stores,
                strays: [0; 32],
            },
        }
    }

    /// Takes a flit of a line that is whole, or is the first beat of its data: it waits behind those of the line that lack words,
    /// and each that no word and no other before it lacks is judged at its place. A line is of the home of its first flit. Err
    /// where memory runs out, and nothing changes.
    /// Source: `docs/WATCH.md`, "Data in beats".
    pub fn arrive(
        &mut self,
        line: CacheLine,
        home: NodeId,
        flit: &HeldFlit,
    ) -> Result<Drained, AllocError>
        ensures { IsArrived (lines self.old) (lines self.new) line home flit.now result }
    {
        arrive_in(&mut self.table, &self.before, line, home, flit)
    }

    /// Takes a later beat of data of a line, which brings words to the first of its flits that awaits beats of this id; what no
    /// longer waits is judged. `number` is that of the beat, and `is_last` says that no word lacks behind it.
    /// Source: `docs/WATCH.md`, "Data in beats".
    pub fn join(
        &mut self,
        line: CacheLine,
        id: u64,
        beat: &Beat,
        number: u64,
        is_last: bool,
    ) -> Drained
        ensures { IsJoined (lines self.old) (lines self.new) line id beat.now number is_last result }
    {
        join_in(
            &mut self.table,
            &self.before,
            line,
            id,
            beat,
            number,
            is_last,
        )
    }

    /// A flit of an agent, with this number, names an id from before the trace, and so may have been of any line.
    /// Source: `docs/WATCH.md`, "What isn't judged".
    pub fn stray(&mut self, agent: Agent, number: u64)
        ensures { lines self.new ≡ strayed agent number (lines self.old) }
    {
        if agent.0 < 32 {
            self.before.strays[usize::from(agent.0)] = number;
        }
    }

    /// So of the agent that it is of, if it is of one.
    pub(crate) fn stray_by(&mut self, agent: Option<Agent>, number: u64)
        ensures { lines self.new ≡ strayed_by agent number (lines self.old) }
    {
        if let Some(agent) = agent {
            self.stray(agent, number);
        }
    }

    /// What comes of a load or a store, with this number, of a line that no flit has touched: a fault, where no cache has a copy.
    pub(crate) fn untouched(&self, number: u64) -> Drained
        ensures { result ≡ untouched (lines self.now).start number }
    {
        let none = Drained::none();
        match self.before.start {
            Start::Empty => Drained {
                fault: Some(LineFault {
                    number,
                    reason: LineReason::Rule(Reason::NotSent),
                }),
                ..none
            },
            Start::Unknown => Drained {
                accesses: Tally {
                    judged: 0,
                    unjudged: 1,
                },
                ..none
            },
        }
    }

    /// The home of the line's first flit; none of a line that no flit has touched.
    /// Source: `docs/WATCH.md`, "What a line is told".
    pub fn home_of(&self, line: CacheLine) -> Option<NodeId>
        ensures { result ≡ home_of (lines self.now) line }
    {
        match self.table.get(&line.address()) {
            Some(seen) => Some(seen.home),
            None => None,
        }
    }

    /// Why the line isn't judged, and since when; none of one that is judged, or that no flit has touched.
    /// Source: `docs/WATCH.md`, "What isn't judged".
    pub fn unjudged(&self, line: CacheLine) -> Option<Unjudged>
        ensures { result ≡ unjudged_of (lines self.now) line }
    {
        match self.table.get(&line.address()) {
            Some(seen) => seen.judge.unjudged(),
            None => None,
        }
    }

    /// How many flits of the line wait for words of data.
    /// Source: `docs/WATCH.md`, "Data in beats".
    pub fn waiting(&self, line: CacheLine) -> usize
        ensures { result ≡ waiting_of (lines self.now) line }
    {
        match self.table.get(&line.address()) {
            Some(seen) => seen.held.len(),
            None => 0,
        }
    }

    /// What is known of a line; `None` of one that no flit has touched.
    /// Source: `docs/WATCH.md`, "What isn't judged".
    pub fn line(&self, line: CacheLine) -> Option<&LineSeen<A>>
        ensures { option_map (λ seen. line_state seen.now) result ≡ (lines self.now).at line.address }
    {
        self.table.get(&line.address())
    }

    /// How many lines flits have touched.
    /// Source: `docs/WATCH.md`, "What isn't judged".
    pub fn count(&self) -> usize
        ensures { result ≡ length self.now.table.entries }
    {
        self.table.len()
    }

    /// The address of the line that was touched first after so many others, and what is known of it; `None` where there is none.
    /// Source: `docs/WATCH.md`, "What isn't judged".
    pub fn line_at(&self, place: usize) -> Option<(u64, &LineSeen<A>)>
        ensures { option_map row_state result ≡ option_map entry_state (slice_get self.now.table.entries place) }
    {
        match self.table.get_index(place) {
            Some((address, seen)) => Some((*address, seen)),
            None => None,
        }
    }
}
