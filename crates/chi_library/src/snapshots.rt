//! Copies of a slice, also of one of a node's, and whether two slices are the same, for C.

ghost use Rattle.std.specs.Prelude.{◌≡◌, IfOk, Some};
ghost use Rattle.chi_library.specs.Snapshots.{IsCompared, IsCopied, node_slice};

use crate::answers::{CLOSED, DONE, NO_MEMORY};
use crate::node_handle::ChiNode;
use crate::slice_handle::ChiSlice;
use chi_flit::{Line, NoMemory};
use chi_slice::Slice;
use std::alloc::Global;

/// Copies the slice of `from`: `to` holds a slice that is the same, and each goes on by itself. What `to`
/// held before is closed. All memory that the copy ever needs is taken here.
///
/// Answers 0; 8 where memory runs out, and 255 where `from` is closed: `to` is then as it was. `from` stays
/// in each case.
/// Source: `docs/LIBRARY.md`, "Snapshots".
#[unsafe(no_mangle)]
pub extern "C" fn chi_slice_copy(alloc: Global, to: &mut ChiSlice, from: &mut ChiSlice) -> u8
    ensures copied { IsCopied from.old.value to.old.value result to.new.value }
    ensures from { from.new.value ≡ from.old.value }
{
    match from.take(alloc) {
        Some(slice) => {
            let answer = copy_into(alloc, to, &slice);
            from.put(slice);
            answer
        }
        None => CLOSED,
    }
}

/// Whether two slices are the same: their sizes and their index, each line with its flits, and the journal.
/// `equal` is 1 where they are, and 0 where not.
///
/// Answers 0, or 255 where one of them is closed; `equal` is 0 then. Nothing changes.
/// Source: `docs/LIBRARY.md`, "Snapshots".
#[unsafe(no_mangle)]
pub extern "C" fn chi_slice_equal(
    alloc: Global,
    one: &mut ChiSlice,
    other: &mut ChiSlice,
    equal: &mut u8,
) -> u8
    ensures compared { IsCompared one.old.value other.old.value result equal.new }
    ensures one { one.new.value ≡ one.old.value }
    ensures other { other.new.value ≡ other.old.value }
{
    *equal = 0;
    match one.take(alloc) {
        Some(slice) => {
            let answer = compare(alloc, &slice, other, equal);
            one.put(slice);
            answer
        }
        None => CLOSED,
    }
}

/// Copies the slice of a line of the node of `from`, that whose index is the line modulo the number of slices:
/// `to` holds a slice that is the same, without the node's tracker and requesters, and each goes on by itself.
/// What `to` held before is closed. All memory that the copy ever needs is taken here.
///
/// Answers 0; 8 where memory runs out, and 255 where `from` is closed: `to` is then as it was. `from` stays
/// in each case.
/// Source: `docs/LIBRARY.md`, "Snapshots".
#[unsafe(no_mangle)]
pub extern "C" fn chi_node_slice(
    alloc: Global,
    to: &mut ChiSlice,
    from: &mut ChiNode,
    line: u8,
) -> u8
    ensures copied { IsCopied (node_slice from.old.value line) to.old.value result to.new.value }
    ensures from { from.new.value ≡ from.old.value }
{
    match from.take(alloc) {
        Some(node) => {
            let answer = copy_into(alloc, to, node.slice_of(Line(line)));
            from.put(node);
            answer
        }
        None => CLOSED,
    }
}

/// Whether the slice of a line of the node is the same as that of `slice`, as `chi_slice_equal` says it.
/// `equal` is 1 where they are, and 0 where not.
///
/// Answers 0, or 255 where one of them is closed; `equal` is 0 then. Nothing changes.
/// Source: `docs/LIBRARY.md`, "Snapshots".
#[unsafe(no_mangle)]
pub extern "C" fn chi_node_slice_equal(
    alloc: Global,
    node: &mut ChiNode,
    line: u8,
    slice: &mut ChiSlice,
    equal: &mut u8,
) -> u8
    ensures compared { IsCompared (node_slice node.old.value line)
        slice.old.value result equal.new }
    ensures node { node.new.value ≡ node.old.value }
    ensures slice { slice.new.value ≡ slice.old.value }
{
    *equal = 0;
    match node.take(alloc) {
        Some(held) => {
            let answer = compare(alloc, held.slice_of(Line(line)), slice, equal);
            node.put(held);
            answer
        }
        None => CLOSED,
    }
}

/// Copies a slice into a handle, whose own is closed.
fn copy_into(alloc: Global, to: &mut ChiSlice, slice: &Slice<Global>) -> u8
    ensures { IsCopied (Some slice.now) to.old.value result to.new.value }
{
    match boxed_copy(alloc, slice) {
        Ok(copy) => {
            to.take(alloc);
            to.put(copy);
            DONE
        }
        Err(_) => NO_MEMORY,
    }
}

/// A copy of a slice on the heap.
fn boxed_copy(alloc: Global, slice: &Slice<Global>) -> Result<Box<Slice<Global>>, NoMemory>
    ensures { IfOk result (λ copy. copy.value ≡ slice.now) }
{
    let copy = slice.clone_in(alloc)?;
    Ok(Box::new(alloc, copy)?)
}

/// Compares a slice with that of a handle.
fn compare(alloc: Global, slice: &Slice<Global>, other: &mut ChiSlice, equal: &mut u8) -> u8
    requires { equal.old ≡ 0 }
    ensures compared { IsCompared (Some slice.now) other.old.value result equal.new }
    ensures other { other.new.value ≡ other.old.value }
{
    match other.take(alloc) {
        Some(held) => {
            *equal = u8::from(slice.equals(&held));
            other.put(held);
            DONE
        }
        None => CLOSED,
    }
}
