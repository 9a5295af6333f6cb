//! Too little memory.

use crate::jobs::{JOBS, Job, done};
use bumpalo::Bump;
use chi_script::Fault;
use linked_list_allocator::LocalHeap;
use std::alloc::{AllocError, Allocator, Global};
use std::process::Abort;

/// How a job may end with little memory.
#[derive(Clone, Copy, Debug, PartialEq, Eq)]
enum End {
    /// All was written.
    Whole,
    /// Memory ran out, and nothing was written.
    Scarce,
    /// Otherwise, which is wrong.
    Other,
}

/// How the job ends with this memory.
fn end_in<A: Allocator + Copy>(alloc: A, out: Global, job: Job, file: &[u8], end: &[u8]) -> End {
    let (fault, output) = done(alloc, out, job, file, 10, 100_000);
    match fault {
        None if output.bytes().ends_with(end) => End::Whole,
        Some(Fault::NoMemory) if output.bytes().is_empty() => End::Scarce,
        _ => End::Other,
    }
}

/// The job on heaps of growing size: the least is too small, and the last is large enough.
fn on_heaps(
    rt: &(impl Abort + AllocGlobal),
    job: Job,
    file: &[u8],
    end: &[u8],
) -> Result<(), AllocError> {
    let (mut found, mut scarce) = (End::Other, 0u32);
    for step in 0..1_000 {
        let heap = LocalHeap::new(rt.alloc(), 64 + 32 * step)?;
        found = end_in(&heap, rt.alloc(), job, file, end);
        assert!(rt; found != End::Other, "{step}");
        scarce = scarce.saturating_add(u32::from(found == End::Scarce));
    }
    assert!(rt; found == End::Whole && scarce > 0, "{job:?}");
    Ok(())
}

#[test]
fn a_heap_of_any_size_is_enough_or_too_small(rt: HostRuntime) -> Result<(), AllocError> {
    for (job, file, end) in &JOBS {
        on_heaps(&rt, *job, file, end)?;
    }
    Ok(())
}

/// The job in an arena of 16,320 bytes, of which 0 to 15,999 are taken beforehand: what some of these leave is enough, and
/// what the last leaves is too little. An allocation that fits into what an earlier one gave back is refused at none.
fn in_arenas(
    rt: &(impl Abort + AllocGlobal),
    job: Job,
    file: &[u8],
    end: &[u8],
) -> Result<(), AllocError> {
    let filling = [0u8; 16_000];
    let (mut found, mut whole) = (End::Other, 0u32);
    for taken in 0..16_000 {
        let bump = Bump::new(rt.alloc());
        bump.set_allocation_limit(Some(16_320));
        bump.try_alloc_slice_copy(&filling[..taken])?;
        found = end_in(&bump, rt.alloc(), job, file, end);
        assert!(rt; found != End::Other, "{taken}");
        whole = whole.saturating_add(u32::from(found == End::Whole));
    }
    assert!(rt; found == End::Scarce && whole > 0, "{job:?}");
    Ok(())
}

#[test]
fn an_arena_of_any_size_is_enough_or_too_small(rt: HostRuntime) -> Result<(), AllocError> {
    for (job, file, end) in &JOBS[..3] {
        in_arenas(&rt, *job, file, end)?;
    }
    Ok(())
}

const FAULTY: &[u8] = b"node 1 2 1 4 2 8\nissue 0 0 ReadNotSharedDirty 0\nshow 1\nflits 0 0\n\
    arrive 0 0\nload 0 0\n";

/// The file with another last line.
const GOOD: &[u8] = b"node 1 2 1 4 2 8\nissue 0 0 ReadNotSharedDirty 0\nshow 1\nflits 0 0\n\
    arrive 0 0\ntotals\n";

/// The fault of a replay on a heap of so many bytes, which writes nothing then.
fn fault_on_heap(
    rt: &(impl Abort + AllocGlobal),
    bytes: usize,
    file: &[u8],
) -> Result<Option<Fault>, AllocError> {
    let heap = LocalHeap::new(rt.alloc(), bytes)?;
    let (fault, output) = done(&heap, rt.alloc(), Job::Replay, file, 10, 1_000);
    assert!(rt; output.bytes().is_empty() == fault.is_some(), "{bytes}");
    Ok(fault)
}

// Where there is room to read it, a faulty file is told as faulty, though there is none to play the commands before its
// fault.
#[test]
fn a_faulty_file_is_told_or_cannot_be_read(rt: HostRuntime) -> Result<(), AllocError> {
    let (no_memory, bad) = (Some(Fault::NoMemory), Some(Fault::BadCommand(6)));
    let (mut unread, mut unplayed, mut played) = (false, false, false);
    for step in 0..400 {
        let faulty = fault_on_heap(&rt, 64 + 32 * step, FAULTY)?;
        let good = fault_on_heap(&rt, 64 + 32 * step, GOOD)?;
        let none = faulty == no_memory && good == no_memory;
        assert!(rt;
            none || faulty == bad && (good == no_memory || good.is_none()),
            "{step}"
        );
        unread |= none;
        unplayed |= faulty == bad && good == no_memory;
        played |= good.is_none();
    }
    assert!(rt; unread && unplayed && played);
    Ok(())
}
