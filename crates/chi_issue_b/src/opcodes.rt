//! The opcodes of Issue B.

ghost use Rattle.std.specs.Prelude.{◌≡◌};
ghost use Rattle.chi_issue_b.specs.Opcodes.{carries_data, channel_of, number_of, opcode_named, opcode_numbered, role_of, word_of};

use crate::channels::Channel;
use crate::roles::Role;
use crate::table::{named_in, numbered_in, row_of, rows_of};
use std::fmt;

/// A request's opcode. Named as in the standard; its word, number and role are a row of the table.
/// Source: Arm IHI 0050 Issue B, chapter 12; `docs/TRACES.md`, "Other opcodes".
#[derive(Clone, Copy, Debug, PartialEq, Eq)]
pub enum RequestOpcode {
    ReqLCrdReturn,
    ReadShared,
    ReadClean,
    ReadOnce,
    ReadNoSnp,
    PCrdReturn,
    ReadUnique,
    CleanShared,
    CleanInvalid,
    MakeInvalid,
    CleanUnique,
    MakeUnique,
    Evict,
    DVMOp,
    WriteEvictFull,
    WriteCleanFull,
    WriteUniquePtl,
    WriteUniqueFull,
    WriteBackPtl,
    WriteBackFull,
    WriteNoSnpPtl,
    WriteNoSnpFull,
    WriteUniqueFullStash,
    WriteUniquePtlStash,
    StashOnceShared,
    StashOnceUnique,
    ReadOnceCleanInvalid,
    ReadOnceMakeInvalid,
    ReadNotSharedDirty,
    CleanSharedPersist,
    AtomicStore,
    AtomicLoad,
    AtomicSwap,
    AtomicCompare,
    PrefetchTgt,
}

/// A snoop's opcode. Named as in the standard; its word, number and role are a row of the table.
/// Source: Arm IHI 0050 Issue B, chapter 12; `docs/TRACES.md`, "Other opcodes".
#[derive(Clone, Copy, Debug, PartialEq, Eq)]
pub enum SnoopOpcode {
    SnpLCrdReturn,
    SnpShared,
    SnpClean,
    SnpOnce,
    SnpNotSharedDirty,
    SnpUniqueStash,
    SnpMakeInvalidStash,
    SnpUnique,
    SnpCleanShared,
    SnpCleanInvalid,
    SnpMakeInvalid,
    SnpStashUnique,
    SnpStashShared,
    SnpDVMOp,
    SnpSharedFwd,
    SnpCleanFwd,
    SnpOnceFwd,
    SnpNotSharedDirtyFwd,
    SnpUniqueFwd,
}

/// The opcode of a response without data. Named as in the standard; its word, number and role are a row of the table.
/// Source: Arm IHI 0050 Issue B, chapter 12; `docs/TRACES.md`, "Other opcodes".
#[derive(Clone, Copy, Debug, PartialEq, Eq)]
pub enum ResponseOpcode {
    RespLCrdReturn,
    SnpResp,
    CompAck,
    RetryAck,
    Comp,
    CompDBIDResp,
    DBIDResp,
    PCrdGrant,
    ReadReceipt,
    SnpRespFwded,
}

/// The opcode of data. Named as in the standard; its word, number and role are a row of the table.
/// Source: Arm IHI 0050 Issue B, chapter 12; `docs/TRACES.md`, "Other opcodes".
#[derive(Clone, Copy, Debug, PartialEq, Eq)]
pub enum DataOpcode {
    DataLCrdReturn,
    SnpRespData,
    CopyBackWrData,
    NonCopyBackWrData,
    CompData,
    SnpRespDataPtl,
    SnpRespDataFwded,
    WriteDataCancel,
}

/// An opcode, by its channel. Prints as its word.
/// Source: Arm IHI 0050 Issue B, chapter 12; `docs/TRACES.md`, "Traces".
#[derive(Clone, Copy, Debug, PartialEq, Eq)]
pub enum Opcode {
    /// On `REQ`.
    Req(RequestOpcode),
    /// On `SNP`.
    Snp(SnoopOpcode),
    /// On `RSP`.
    Rsp(ResponseOpcode),
    /// On `DAT`.
    Dat(DataOpcode),
}

impl Opcode {
    /// The channel that flits of the opcode use.
    /// Source: `docs/TRACES.md`, "Traces".
    #[inline(always)]
    pub fn channel(self) -> Channel
        ensures { result ≡ channel_of self }
    {
        match self {
            Opcode::Req(_) => Channel::Req,
            Opcode::Snp(_) => Channel::Snp,
            Opcode::Rsp(_) => Channel::Rsp,
            Opcode::Dat(_) => Channel::Dat,
        }
    }

    /// The word that names the opcode, as the standard writes it.
    /// Source: `docs/TRACES.md`, "Traces".
    #[inline(always)]
    pub fn word(self) -> &'static str
        ensures { result.now ≡ word_of self }
    {
        row_of(self).1
    }

    /// The number of the opcode on its channel, the first of them where it has several.
    /// Source: Arm IHI 0050 Issue B, chapter 12.
    #[inline(always)]
    pub fn number(self) -> u8
        ensures { result ≡ number_of self }
    {
        row_of(self).2
    }

    /// What flits of the opcode do to the ids that are open.
    /// Source: `docs/OBSERVER.md`, "Ids and credits".
    #[inline(always)]
    pub fn role(self) -> Role
        ensures { result ≡ role_of self }
    {
        row_of(self).4
    }

    /// Whether flits of the opcode carry words of a cache line: all on `DAT` but DataLCrdReturn and WriteDataCancel.
    /// Source: `docs/TRACES.md`, "Traces".
    #[inline(always)]
    pub fn carries_data(self) -> bool
        ensures { result ≡ carries_data self }
    {
        row_of(self).5
    }

    /// The opcode of the channel that the word names; `None` where Issue B has none.
    /// Source: `docs/TRACES.md`, "Traces".
    pub fn from_word(channel: Channel, word: &[u8]) -> Option<Opcode>
        ensures { result ≡ opcode_named channel word.now }
    {
        named_in(rows_of(channel), word)
    }

    /// The opcode of the channel that has this number; `None` where Issue B has none.
    /// Source: Arm IHI 0050 Issue B, chapter 12.
    pub fn from_number(channel: Channel, number: u8) -> Option<Opcode>
        ensures { result ≡ opcode_numbered channel number }
    {
        numbered_in(rows_of(channel), number)
    }
}

impl fmt::Display for Opcode {
    ghost use Rattle.std.specs.Prelude.{Some};

    ghost output = { λ opcode. Some (word_of opcode) };

    fn fmt<W: fmt::Write>(&self, f: &mut fmt::Formatter<W>) -> fmt::Result {
        f.write_str(self.word())
    }
}
