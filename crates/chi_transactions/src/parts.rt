//! The parts of a transaction.

ghost use Rattle.std.specs.Prelude.{◌≡◌, ◌==◌};
ghost use Rattle.chi_transactions.specs.Parts.{both, either, has, meets, without};

/// A set of parts of a transaction: what is still to come by an id, or what a flit brings.
/// Source: `docs/TRANSACTIONS.md`, "Ids".
#[derive(Clone, Copy, Debug, PartialEq, Eq)]
pub struct Parts {
    /// One bit of each part.
    pub bits: u8,
}

/// That a request is done: Comp and CompDBIDResp.
pub(crate) const COMPLETION: u8 = 1;
/// The DBID that write data have to name: DBIDResp and CompDBIDResp.
pub(crate) const BUFFER: u8 = 2;
/// All words that a request reads: CompData.
pub(crate) const READ_DATA: u8 = 4;
/// That an ordered read is in its place: ReadReceipt.
pub(crate) const RECEIPT: u8 = 8;
/// All words that a request writes, or that none are written: write data and WriteDataCancel.
pub(crate) const WRITE_DATA: u8 = 16;
/// That the requester has the completion: CompAck.
pub(crate) const COMP_ACK: u8 = 32;
/// What a snoop is answered by.
pub(crate) const ANSWER: u8 = 64;
/// The parts that data in beats bring with the last of them.
pub(crate) const IN_BEATS: u8 = READ_DATA | WRITE_DATA | ANSWER;
/// All parts.
pub(crate) const EVERY: u8 = 127;

impl Parts {
    /// None.
    pub(crate) const NONE: Parts = Parts { bits: 0 };

    /// Whether none is in it.
    /// Source: `docs/TRANSACTIONS.md`, "Ids".
    pub fn is_empty(self) -> bool
        ensures { result ≡ (self.bits == 0) }
    {
        self.bits == 0
    }

    /// Whether all of another are in it.
    pub(crate) fn has(self, other: Parts) -> bool
        ensures { result ≡ has self other }
    {
        self.bits & other.bits == other.bits
    }

    /// Whether one of another is in it.
    pub(crate) fn meets(self, other: Parts) -> bool
        ensures { result ≡ meets self other }
    {
        self.bits & other.bits != 0
    }

    /// Those that aren't in another.
    pub(crate) fn without(self, other: Parts) -> Parts
        ensures { result ≡ without self other }
    {
        Parts {
            bits: self.bits ^ self.bits & other.bits,
        }
    }

    /// Those of either.
    pub(crate) fn either(self, other: Parts) -> Parts
        ensures { result ≡ either self other }
    {
        Parts {
            bits: self.bits | other.bits,
        }
    }

    /// Those of both.
    pub(crate) fn both(self, other: Parts) -> Parts
        ensures { result ≡ both self other }
    {
        Parts {
            bits: self.bits & other.bits,
        }
    }
}
