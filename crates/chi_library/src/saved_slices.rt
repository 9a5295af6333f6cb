//! The bytes of a slice, and a slice out of bytes, for C.

ghost use Rattle.std.specs.Prelude.{◌≡◌, IfErr, IfOk, None, Some};
ghost use Rattle.chi_library.specs.SavedSlices.{IsLoading, IsSavedAs, IsSaving, AreBytesTold, load_fault_number};
ghost use Rattle.chi_library.specs.Sizes.{config_of};
ghost use Rattle.chi_library.specs.SliceCalls.{sizes_at};
ghost use Rattle.chi_snapshot.specs.Faults.{IsFaultOf};
ghost use Rattle.chi_snapshot.specs.Snapshot.{saved};

use crate::answers::{
    ALREADY_OPEN, CLOSED, DAMAGED, DONE, NO_MEMORY, OTHER_SIZE, OTHER_VERSION, OUT_OF_RANGE,
    tell_bytes,
};
use crate::sizes::{ChiConfig, config_at};
use crate::slice_handle::ChiSlice;
use chi_slice::{Config, Slice};
use chi_snapshot::{LoadFault, load, save};
use std::alloc::Global;

/// Writes the bytes of the slice. `length` is how many there are, and those of `bytes` behind them stay.
///
/// Answers 0; 1 where there is not room for all, and 8 where memory runs out: `bytes` is then as it was, and
/// after 1 `length` is how many there are, else 0. Answers 255 of a closed handle. The slice stays.
/// Source: `docs/LIBRARY.md`, "Snapshots".
#[unsafe(no_mangle)]
pub extern "C" fn chi_slice_save(
    alloc: Global,
    slice: &mut ChiSlice,
    bytes: &mut [u8],
    length: &mut usize,
) -> u8
    ensures saved { IsSaving slice.old.value bytes.old result bytes.new length.new }
    ensures slice { slice.new.value ≡ slice.old.value }
{
    *length = 0;
    match slice.take(alloc) {
        Some(held) => {
            let answer = save_into(alloc, &held, bytes, length);
            slice.put(held);
            answer
        }
        None => CLOSED,
    }
}

/// Opens the slice of this size and index whose bytes these are.
///
/// Answers 0; 254 where the handle is open already, which stays as it is; 10 where a size is outside its limits
/// or the index isn't below the number of slices; 249 where the bytes are of another version, 250 where they
/// are of another size or index, and 251 where they are damaged; 8 where memory runs out. After 10, 249 to 251
/// and 8 the handle is closed.
/// Source: `docs/LIBRARY.md`, "Snapshots".
#[unsafe(no_mangle)]
pub extern "C" fn chi_slice_load(
    alloc: Global,
    slice: &mut ChiSlice,
    config: &ChiConfig,
    index: u8,
    bytes: &[u8],
) -> u8
    ensures { IsLoading (sizes_at (config_of config.now) index) index bytes.now
        slice.old.value result slice.new.value }
{
    if let Some(held) = slice.take(alloc) {
        slice.put(held);
        return ALREADY_OPEN;
    }
    match config_at(config) {
        Some(config) if index < config.slices() => open_saved(alloc, slice, &config, index, bytes),
        Some(_) | None => OUT_OF_RANGE,
    }
}

/// Writes the bytes of a slice into a room.
fn save_into(alloc: Global, slice: &Slice<Global>, bytes: &mut [u8], length: &mut usize) -> u8
    requires { length.old ≡ 0 }
    ensures { AreBytesTold (saved slice.now) bytes.old result bytes.new length.new }
{
    match save(slice, alloc) {
        Ok(saved) => tell_bytes(&saved, bytes, length),
        Err(_) => NO_MEMORY,
    }
}

/// Opens a slice out of bytes in a closed handle.
fn open_saved(alloc: Global, slice: &mut ChiSlice, config: &Config, index: u8, bytes: &[u8]) -> u8
    requires { slice.old.value ≡ None }
    ensures { IsLoading (Some config.now) index bytes.now None result slice.new.value }
{
    match boxed_saved(alloc, config, index, bytes) {
        Ok(held) => {
            slice.put(held);
            DONE
        }
        Err(fault) => fault_number(fault),
    }
}

/// A slice out of bytes on the heap.
fn boxed_saved(
    alloc: Global,
    config: &Config,
    index: u8,
    bytes: &[u8],
) -> Result<Box<Slice<Global>>, LoadFault>
    ensures held { IfOk result (λ held. IsSavedAs config.now index bytes.now held.value) }
    ensures fault { IfErr result (λ fault. IsFaultOf config.now index bytes.now fault) }
{
    let slice = load(alloc, config, index, bytes)?;
    match Box::new(alloc, slice) {
        Ok(held) => Ok(held),
        Err(_) => Err(LoadFault::NoMemory),
    }
}

/// The number of a fault.
fn fault_number(fault: LoadFault) -> u8
    ensures { result ≡ load_fault_number fault }
{
    match fault {
        LoadFault::NoMemory => NO_MEMORY,
        LoadFault::OtherVersion => OTHER_VERSION,
        LoadFault::OtherSize => OTHER_SIZE,
        LoadFault::Damaged => DAMAGED,
    }
}
