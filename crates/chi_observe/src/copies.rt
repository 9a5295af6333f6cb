//! Copies of a watch with a room.

ghost use Rattle.std.specs.Prelude.{◌≡◌, IfOk};
ghost use Rattle.chi_observe.specs.Benches.{benched};
ghost use Rattle.chi_observe.specs.Bounded.{bounded};
ghost use Rattle.chi_observe.specs.Lines.{line_state, lines_in};
ghost use Rattle.chi_observe.specs.Marks.{marked};
ghost use Rattle.chi_observe.specs.Watched.{watched};

use crate::benches::BenchWatch;
use crate::bounded::{BoundedWatch, Room, marks_with};
use crate::causes::{CauseRow, MOST_CAUSES};
use crate::credits::AccountTable;
use crate::ids::IdTable;
use crate::lines::{LineSeen, LineTable};
use crate::marks::Marks;
use crate::watch::Watch;
use chi_trace::NodeId;
use std::alloc::{AllocError, Allocator};

impl<A: Allocator + Copy> Marks<A> {
    /// The same marks, with memory for as many.
    fn clone_in(&self, alloc: A) -> Result<Marks<A>, AllocError>
        ensures { IfOk result (λ marks. marked marks ≡ marked self.now) }
    {
        let mut copies = Vec::with_capacity(alloc, self.copies.capacity())?;
        copies.extend_from_slice(&self.copies)?;
        Ok(Marks {
            first: self.first,
            copies,
            words: self.words,
        })
    }
}

impl<A: Allocator + Copy> Clone for LineSeen<A> {
    ghost is_clone = { λ seen copy. line_state copy ≡ line_state seen };

    fn clone(&self) -> Result<LineSeen<A>, AllocError> {
        let alloc = *self.marks.copies.allocator();
        let judge = self.judge.copy_in(alloc)?;
        let marks = self.marks.clone_in(alloc)?;
        Ok(LineSeen {
            home: self.home,
            aside: self.aside,
            why: self.why,
            lacking: self.lacking,
            judge,
            marks,
        })
    }
}

/// The same nodes, with memory for so many.
fn nodes_copy<A: Allocator + Copy>(
    alloc: A,
    nodes: &[NodeId],
    most: usize,
) -> Result<Vec<NodeId, A>, AllocError>
    ensures { IfOk result (λ copy. copy.items ≡ nodes.now) }
{
    let mut copy = Vec::with_capacity(alloc, most)?;
    copy.extend_from_slice(nodes)?;
    Ok(copy)
}

/// The same causes, with memory for as many as there are.
fn causes_copy<A: Allocator + Copy>(
    alloc: A,
    causes: &[CauseRow],
) -> Result<Vec<CauseRow, A>, AllocError>
    ensures { IfOk result (λ copy. copy.items ≡ causes.now) }
{
    let mut copy = Vec::with_capacity(alloc, MOST_CAUSES)?;
    copy.extend_from_slice(causes)?;
    Ok(copy)
}

/// The same ids, with memory for so many.
fn ids_copy<A: Allocator + Copy>(ids: &IdTable<A>, most: usize) -> Result<IdTable<A>, AllocError>
    ensures { IfOk result (λ copy. copy.entries ≡ ids.now.entries) }
{
    let mut copy = ids.clone()?;
    copy.reserve(most.saturating_sub(ids.len()))?;
    Ok(copy)
}

/// The same accounts, with memory for so many.
fn accounts_copy<A: Allocator + Copy>(
    accounts: &AccountTable<A>,
    most: usize,
) -> Result<AccountTable<A>, AllocError>
    ensures { IfOk result (λ copy. copy.entries ≡ accounts.now.entries) }
{
    let mut copy = accounts.clone()?;
    copy.reserve(most.saturating_sub(accounts.len()))?;
    Ok(copy)
}

/// The same lines, with memory for so many.
fn lines_copy<A: Allocator + Copy>(
    lines: &LineTable<A>,
    most: usize,
) -> Result<LineTable<A>, AllocError>
    ensures { IfOk result (λ copy. lines_in copy.entries ≡ lines_in lines.now.entries) }
{
    let mut copy = lines.clone()?;
    copy.reserve(most.saturating_sub(lines.len()))?;
    Ok(copy)
}

impl<A: Allocator + Copy> Watch<A> {
    /// The same watch, with memory for so much.
    fn clone_in(&self, alloc: A, room: &Room) -> Result<Watch<A>, AllocError>
        ensures { IfOk result (λ copy. watched copy ≡ watched self.now) }
    {
        let requesters = nodes_copy(alloc, &self.requesters, room.requesters)?;
        let homes = nodes_copy(alloc, &self.homes, room.homes)?;
        let spare = marks_with(alloc, self.spare.len(), room.requesters)?;
        let accounts = accounts_copy(&self.accounts, room.accounts)?;
        let ids = ids_copy(&self.ids, room.ids)?;
        let named = ids_copy(&self.named, 0)?;
        let lines = lines_copy(&self.lines, room.lines)?;
        let causes = causes_copy(alloc, &self.causes)?;
        Ok(Watch {
            options: self.options,
            requesters,
            homes,
            ids,
            accounts,
            lines,
            spare,
            counts: self.counts,
            causes,
            last: self.last,
            named,
        })
    }
}

impl<A: Allocator + Copy> BoundedWatch<A> {
    /// The same watch, with memory for all that its room lets it take.
    fn clone_in(&self, alloc: A) -> Result<BoundedWatch<A>, AllocError>
        ensures { IfOk result (λ copy. bounded copy ≡ bounded self.now) }
    {
        let watch = self.watch.clone_in(alloc, &self.room)?;
        Ok(BoundedWatch {
            room: self.room,
            watch,
        })
    }
}

impl<A: Allocator + Copy> BenchWatch<A> {
    /// A watch that is the same: what each does afterwards leaves the other as it is. All memory that it ever needs is taken
    /// here; refused where it runs out.
    /// Source: `docs/OBSERVER.md`, "A watch with a room".
    pub fn clone_in(&self, alloc: A) -> Result<BenchWatch<A>, AllocError>
        ensures { IfOk result (λ copy. benched copy ≡ benched self.now) }
    {
        let bounded = self.bounded.clone_in(alloc)?;
        Ok(BenchWatch {
            bounded,
            stop: self.stop,
        })
    }
}
