//! What a call of C answers.

ghost use Rattle.std.specs.Prelude.{◌≡◌};
ghost use Rattle.chi_library.specs.Numbers.{number_if};
ghost use Rattle.chi_library.specs.SavedSlices.{AreBytesTold};

use chi_flit::Refusal;

/// It was done.
pub(crate) const DONE: u8 = 0;

/// There is no room for one more: the number of the refusal `JournalFull`.
pub(crate) const NO_ROOM: u8 = 1;

/// Memory ran out: the number of the refusal `NoMemory`.
pub(crate) const NO_MEMORY: u8 = 8;

/// A number is outside its range: the number of the refusal `OutOfRange`.
pub(crate) const OUT_OF_RANGE: u8 = 10;

/// A requester doesn't agree with a slice: the number of the refusal `NotOpen`.
pub(crate) const NOT_OPEN: u8 = 11;

/// An observer is closed, and nothing that it was given was judged.
pub(crate) const NOTHING_JUDGED: u8 = 245;

/// An observer is closed, and something that it was given wasn't judged.
pub(crate) const PARTLY_JUDGED: u8 = 246;

/// An observer has no room for what a flit would add.
pub(crate) const FULL: u8 = 247;

/// A flit is of a line that an observer has set aside.
pub(crate) const SET_ASIDE: u8 = 248;

/// The bytes are a snapshot of another version.
pub(crate) const OTHER_VERSION: u8 = 249;

/// The bytes are a slice of another node, or another slice of the node.
pub(crate) const OTHER_SIZE: u8 = 250;

/// The bytes are no snapshot, or not as it was saved.
pub(crate) const DAMAGED: u8 = 251;

/// A monitor keeps no flits.
pub(crate) const NOT_KEPT: u8 = 252;

/// No run of the model sends it.
pub(crate) const FAULT: u8 = 253;

/// The handle is open already.
pub(crate) const ALREADY_OPEN: u8 = 254;

/// The handle is closed.
pub(crate) const CLOSED: u8 = 255;

/// The number of a refusal, or 0 where there is none.
pub(crate) fn number_if(refusal: Option<Refusal>) -> u8
    ensures { result ≡ number_if refusal }
{
    match refusal {
        Some(refusal) => refusal.number(),
        None => DONE,
    }
}

/// Copies bytes into a room, where there is room for all of them, and says how many they are.
pub(crate) fn tell_bytes(told: &[u8], bytes: &mut [u8], length: &mut usize) -> u8
    ensures { AreBytesTold told.now bytes.old result bytes.new length.new }
{
    let count = told.len();
    *length = count;
    if bytes.len() < count {
        return NO_ROOM;
    }
    bytes[..count].copy_from_slice(told);
    DONE
}
