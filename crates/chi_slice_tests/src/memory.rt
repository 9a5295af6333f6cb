//! A slice takes all its memory when it is made, and gives back what it took where that isn't enough.

use crate::places::node;
use crate::runs::{SNOOP_CROSSES_WRITE_BACK, plays};
use chi_flit::NoMemory;
use chi_slice::Slice;
use linked_list_allocator::LocalHeap;
use std::alloc::{Allocator, Global};
use std::process::Abort;

/// A heap of so many bytes.
pub fn heap_of(rt: &impl Abort, alloc: Global, bytes: usize) -> LocalHeap {
    LocalHeap::new(alloc, bytes).expect(rt, "memory for a heap")
}

/// A slice, if it finds memory.
fn made<A: Allocator + Copy>(rt: &impl Abort, alloc: A) -> Result<Slice<A>, NoMemory> {
    Slice::new(alloc, &node(rt, 1), 0)
}

/// A copy of the slice, if it finds memory.
fn copied<A: Allocator + Copy>(alloc: A, slice: &Slice<A>) -> Result<Slice<A>, NoMemory> {
    slice.clone_in(alloc)
}

#[test]
fn a_copy_is_the_same_slice(rt: HostRuntime) {
    let mut slice = made(&rt, rt.alloc()).expect(&rt, "memory for a slice");
    plays(&rt, &mut slice, &SNOOP_CROSSES_WRITE_BACK);
    let copy = copied(rt.alloc(), &slice).expect(&rt, "memory for a copy");
    assert!(rt; copy.equals(&slice) && slice.equals(&copy));
}

/// How much memory a slice takes.
fn size_of_slice(rt: &impl Abort, alloc: Global) -> usize {
    let heap = heap_of(rt, alloc, 65_536);
    let slice = made(rt, &heap).expect(rt, "memory for a slice");
    assert!(rt; slice.index() == 0);
    heap.used()
}

/// In a heap of so many bytes a slice is made only where it has them all.
fn makes_none(rt: &impl Abort, alloc: Global, bytes: usize) {
    let heap = heap_of(rt, alloc, bytes);
    let found = made(rt, &heap).is_err();
    assert!(rt; found && heap.used() == 0, "in {bytes} bytes");
}

/// Beside a slice a copy of it finds too little in so many bytes, and leaves them as they were.
fn copies_none(rt: &impl Abort, alloc: Global, size: usize, bytes: usize) {
    let heap = heap_of(rt, alloc, size.saturating_add(bytes));
    let slice = made(rt, &heap).expect(rt, "memory for a slice");
    let found = copied(&heap, &slice).is_err();
    assert!(rt; found && heap.used() == size, "in {bytes} bytes");
}

#[test]
fn too_little_memory_is_refused_and_given_back(rt: HostRuntime) {
    let size = size_of_slice(&rt, rt.alloc());
    for part in 1..64 {
        let bytes = size / 64 * part;
        makes_none(&rt, rt.alloc(), bytes);
        copies_none(&rt, rt.alloc(), size, bytes);
    }
}

/// The heap has given all its memory away.
fn is_full(heap: &LocalHeap) -> bool {
    Box::new(heap, 0u8).is_err()
}

#[test]
fn a_slice_runs_where_all_memory_is_used(rt: HostRuntime) {
    let size = size_of_slice(&rt, rt.alloc());
    let heap = heap_of(&rt, rt.alloc(), size);
    let mut slice = made(&rt, &heap).expect(&rt, "memory for a slice");
    assert!(rt; heap.used() == size && is_full(&heap));
    plays(&rt, &mut slice, &SNOOP_CROSSES_WRITE_BACK);
    assert!(rt; is_full(&heap));
}
