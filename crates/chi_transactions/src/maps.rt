//! Tables by number, seen as functions.

ghost use Rattle.std.specs.Prelude.{◌≡◌, IfSome, OnOk, None, Some};
ghost use Rattle.chi_transactions.specs.Maps.{IsSlot, entry_in, nothing, put, put_waiting, value_of, waiting_in};

use crate::entries::{Place, Waiting};
use indexmap::IndexMap;
use std::alloc::{AllocError, Allocator};
use std::hash::{BuildHasherDefault, FoldHasher};

/// Values by number.
pub(crate) type Table<V, A> = IndexMap<u64, V, BuildHasherDefault<FoldHasher>, A>;

/// A table with nothing in it.
pub(crate) fn new_table<V: Copy, A: Allocator + Copy>(alloc: A) -> Table<V, A>
    ensures { entry_in result ≡ nothing }
{
    IndexMap::new(alloc)
}

/// What the table has at a number.
#[inline(always)]
pub(crate) fn entry_in<V: Copy, A: Allocator>(table: &Table<V, A>, number: u64) -> Option<V>
    ensures { result ≡ entry_in table.now number }
{
    table.get(&number).copied()
}

/// The table has this at the number.
#[inline(always)]
pub(crate) fn put<V: Copy + Drop, A: Allocator>(
    table: &mut Table<V, A>,
    number: u64,
    value: V,
) -> Result<(), AllocError>
    ensures { OnOk result (entry_in table.new ≡ put (entry_in table.old) number (Some value)) }
{
    let _ = table.insert(number, value)?;
    Ok(())
}

/// A place of a table, and what it has there.
#[derive(Clone, Copy)]
pub(crate) struct Slot<V> {
    pub place: usize,
    pub value: V,
}

/// What the table has at a number, and where.
#[inline(always)]
pub(crate) fn slot_in<V: Copy, A: Allocator>(table: &Table<V, A>, number: u64) -> Option<Slot<V>>
    ensures value { value_of result ≡ entry_in table.now number }
    ensures place { IfSome result (λ slot. IsSlot table.now number slot) }
{
    match table.get_full(&number) {
        Some((place, _, value)) => Some(Slot {
            place,
            value: *value,
        }),
        None => None,
    }
}

/// What a slot has, if there is one.
#[inline(always)]
pub(crate) fn value_of<V: Copy>(slot: Option<Slot<V>>) -> Option<V>
    ensures { result ≡ value_of slot }
{
    match slot {
        Some(slot) => Some(slot.value),
        None => None,
    }
}

/// The table has this at the number, whose slot it is, if it has one: then nothing is looked up.
#[inline(always)]
pub(crate) fn put_at<V: Copy + Drop, A: Allocator>(
    table: &mut Table<V, A>,
    number: u64,
    slot: Option<Slot<V>>,
    value: V,
) -> Result<(), AllocError>
    requires { IfSome slot (λ slot. IsSlot table.old number slot) }
    ensures { OnOk result (entry_in table.new ≡ put (entry_in table.old) number (Some value)) }
{
    match slot {
        Some(slot) => {
            put_slot(table, number, slot, value);
            Ok(())
        }
        None => put(table, number, value),
    }
}

/// The table has this in the number's slot.
#[inline(always)]
fn put_slot<V: Copy + Drop, A: Allocator>(
    table: &mut Table<V, A>,
    number: u64,
    slot: Slot<V>,
    value: V,
)
    requires { IsSlot table.old number slot }
    ensures { entry_in table.new ≡ put (entry_in table.old) number (Some value) }
{
    if let Some(kept) = table.get_index_mut(slot.place) {
        *kept = value;
    }
}

/// The table has nothing at the number.
#[inline(always)]
pub(crate) fn remove<V: Copy + Drop, A: Allocator>(table: &mut Table<V, A>, number: u64)
    ensures { entry_in table.new ≡ put (entry_in table.old) number None }
{
    let _ = table.swap_remove(&number);
}

/// Requests that wait for a credit, by their places.
pub(crate) type WaitingTable<A> = IndexMap<Place, Waiting, BuildHasherDefault<FoldHasher>, A>;

/// A table in which no request waits.
pub(crate) fn new_waiting<A: Allocator + Copy>(alloc: A) -> WaitingTable<A>
    ensures { waiting_in result ≡ nothing }
{
    IndexMap::new(alloc)
}

/// The request that waits at a place, if one does.
pub(crate) fn waiting_in<A: Allocator>(table: &WaitingTable<A>, place: Place) -> Option<Waiting>
    ensures { result ≡ waiting_in table.now place }
{
    table.get(&place).copied()
}

/// A request waits at the place.
pub(crate) fn wait<A: Allocator>(
    table: &mut WaitingTable<A>,
    place: Place,
    waiting: Waiting,
) -> Result<(), AllocError>
    ensures { OnOk result (waiting_in table.new
        ≡ put_waiting (waiting_in table.old) place (Some waiting)) }
{
    let _ = table.insert(place, waiting)?;
    Ok(())
}

/// No request waits at the place.
pub(crate) fn wait_no_more<A: Allocator>(table: &mut WaitingTable<A>, place: Place)
    ensures { waiting_in table.new ≡ put_waiting (waiting_in table.old) place None }
{
    if !table.is_empty() {
        let _ = table.swap_remove(&place);
    }
}
