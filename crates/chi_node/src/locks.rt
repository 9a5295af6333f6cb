//! Slices into locks and out of them, and the ports of requesters.

ghost use Rattle.std.specs.Prelude.{◌≡◌, ◌≤◌, IfOk, vec_capacity, vec_len};
ghost use Rattle.std.specs.List.Sorted.{IsNonDecreasingBy};
ghost use Rattle.chi_node.specs.Node.{owners_of};

use crate::requester::Requester;
use arrayvec::ArrayVec;
use chi_flit::NoMemory;
use chi_slice::Slice;
use chi_tracker::Port;
use std::alloc::Allocator;
use std::sync::Mutex;

/// The slices in the same order, each behind a lock.
pub(crate) fn behind_locks<A: Allocator + Copy>(
    alloc: A,
    mut slices: Vec<Slice<A>, A>,
) -> Result<Vec<Mutex<Slice<A>>, A>, NoMemory>
    ensures { IfOk result (λ locked. vec_len locked ≡ vec_len slices) }
{
    let count = slices.len();
    let mut locked = Vec::with_capacity(alloc, count)?;
    for index in 0..count {
        locked.push(Mutex::new(slices.remove(0)))?;
    }
    Ok(locked)
}

/// The slices out of their locks, in a list that was reserved for them, in rising order of their index: what
/// a lock holds is known to no clause.
pub(crate) fn out_of_locks<A: Allocator>(
    mut locked: Vec<Mutex<Slice<A>>, A>,
    mut ended: Vec<Slice<A>, A>,
) -> Vec<Slice<A>, A>
    requires empty { vec_len ended ≡ 0 }
    requires room { vec_len locked ≤ vec_capacity ended }
    ensures count { vec_len result ≡ vec_len locked }
    ensures order { IsNonDecreasingBy (λ s. s.index) result.items }
{
    let count = locked.len();
    for index in 0..count {
        ended.push_reserved(locked.remove(0).into_inner());
    }
    ended.sort_unstable_by_key(|slice| slice.index());
    ended
}

/// The ports of the requesters, in the same order.
pub(crate) fn ports_of(mut requesters: ArrayVec<Requester, 8>) -> ArrayVec<Port, 8>
    ensures { result.items ≡ owners_of requesters.items }
{
    let count = requesters.len();
    let mut ports = ArrayVec::new();
    for number in 0..count {
        ports.push(requesters.remove(0).into_port());
    }
    ports
}
