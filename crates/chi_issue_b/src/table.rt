//! The table of opcodes: of each its word, its number and its role.

ghost use Rattle.std.specs.Prelude.{◌≡◌, map};
ghost use Rattle.chi_issue_b.specs.Opcodes.{first_of, has_number, is_named, lent_row, row_of, rows_of};

use crate::channels::Channel;
use crate::opcodes::{DataOpcode, Opcode, RequestOpcode, ResponseOpcode, SnoopOpcode};
use crate::roles::Role;

/// An opcode, its word, its first number, how many numbers it has, its role, and whether its flits carry words of a cache line.
// A tuple, as a clause can cite a constant of these, and none of a struct with a reference in it.
pub(crate) type Row = (Opcode, &'static str, u8, u8, Role, bool);

/// The opcodes of requests. In the order of [`RequestOpcode`], by number.
#[rattlefmt::skip]
pub(crate) static REQUESTS: [Row; 35] = [
    (Opcode::Req(RequestOpcode::ReqLCrdReturn), "ReqLCrdReturn", 0x00, 1, Role::NoTransaction, false),
    (Opcode::Req(RequestOpcode::ReadShared), "ReadShared", 0x01, 1, Role::Request, false),
    (Opcode::Req(RequestOpcode::ReadClean), "ReadClean", 0x02, 1, Role::Request, false),
    (Opcode::Req(RequestOpcode::ReadOnce), "ReadOnce", 0x03, 1, Role::Request, false),
    (Opcode::Req(RequestOpcode::ReadNoSnp), "ReadNoSnp", 0x04, 1, Role::Request, false),
    (Opcode::Req(RequestOpcode::PCrdReturn), "PCrdReturn", 0x05, 1, Role::CreditReturn, false),
    (Opcode::Req(RequestOpcode::ReadUnique), "ReadUnique", 0x07, 1, Role::Request, false),
    (Opcode::Req(RequestOpcode::CleanShared), "CleanShared", 0x08, 1, Role::Request, false),
    (Opcode::Req(RequestOpcode::CleanInvalid), "CleanInvalid", 0x09, 1, Role::Request, false),
    (Opcode::Req(RequestOpcode::MakeInvalid), "MakeInvalid", 0x0a, 1, Role::Request, false),
    (Opcode::Req(RequestOpcode::CleanUnique), "CleanUnique", 0x0b, 1, Role::Request, false),
    (Opcode::Req(RequestOpcode::MakeUnique), "MakeUnique", 0x0c, 1, Role::Request, false),
    (Opcode::Req(RequestOpcode::Evict), "Evict", 0x0d, 1, Role::Request, false),
    (Opcode::Req(RequestOpcode::DVMOp), "DVMOp", 0x14, 1, Role::Request, false),
    (Opcode::Req(RequestOpcode::WriteEvictFull), "WriteEvictFull", 0x15, 1, Role::Request, false),
    (Opcode::Req(RequestOpcode::WriteCleanFull), "WriteCleanFull", 0x17, 1, Role::Request, false),
    (Opcode::Req(RequestOpcode::WriteUniquePtl), "WriteUniquePtl", 0x18, 1, Role::Request, false),
    (Opcode::Req(RequestOpcode::WriteUniqueFull), "WriteUniqueFull", 0x19, 1, Role::Request, false),
    (Opcode::Req(RequestOpcode::WriteBackPtl), "WriteBackPtl", 0x1a, 1, Role::Request, false),
    (Opcode::Req(RequestOpcode::WriteBackFull), "WriteBackFull", 0x1b, 1, Role::Request, false),
    (Opcode::Req(RequestOpcode::WriteNoSnpPtl), "WriteNoSnpPtl", 0x1c, 1, Role::Request, false),
    (Opcode::Req(RequestOpcode::WriteNoSnpFull), "WriteNoSnpFull", 0x1d, 1, Role::Request, false),
    (Opcode::Req(RequestOpcode::WriteUniqueFullStash), "WriteUniqueFullStash", 0x20, 1, Role::Request, false),
    (Opcode::Req(RequestOpcode::WriteUniquePtlStash), "WriteUniquePtlStash", 0x21, 1, Role::Request, false),
    (Opcode::Req(RequestOpcode::StashOnceShared), "StashOnceShared", 0x22, 1, Role::Request, false),
    (Opcode::Req(RequestOpcode::StashOnceUnique), "StashOnceUnique", 0x23, 1, Role::Request, false),
    (Opcode::Req(RequestOpcode::ReadOnceCleanInvalid), "ReadOnceCleanInvalid", 0x24, 1, Role::Request, false),
    (Opcode::Req(RequestOpcode::ReadOnceMakeInvalid), "ReadOnceMakeInvalid", 0x25, 1, Role::Request, false),
    (Opcode::Req(RequestOpcode::ReadNotSharedDirty), "ReadNotSharedDirty", 0x26, 1, Role::Request, false),
    (Opcode::Req(RequestOpcode::CleanSharedPersist), "CleanSharedPersist", 0x27, 1, Role::Request, false),
    (Opcode::Req(RequestOpcode::AtomicStore), "AtomicStore", 0x28, 8, Role::Request, false),
    (Opcode::Req(RequestOpcode::AtomicLoad), "AtomicLoad", 0x30, 8, Role::Request, false),
    (Opcode::Req(RequestOpcode::AtomicSwap), "AtomicSwap", 0x38, 1, Role::Request, false),
    (Opcode::Req(RequestOpcode::AtomicCompare), "AtomicCompare", 0x39, 1, Role::Request, false),
    (Opcode::Req(RequestOpcode::PrefetchTgt), "PrefetchTgt", 0x3a, 1, Role::NoTransaction, false),
];

/// The opcodes of snoops. In the order of [`SnoopOpcode`], by number.
#[rattlefmt::skip]
pub(crate) static SNOOPS: [Row; 19] = [
    (Opcode::Snp(SnoopOpcode::SnpLCrdReturn), "SnpLCrdReturn", 0x00, 1, Role::NoTransaction, false),
    (Opcode::Snp(SnoopOpcode::SnpShared), "SnpShared", 0x01, 1, Role::Snoop, false),
    (Opcode::Snp(SnoopOpcode::SnpClean), "SnpClean", 0x02, 1, Role::Snoop, false),
    (Opcode::Snp(SnoopOpcode::SnpOnce), "SnpOnce", 0x03, 1, Role::Snoop, false),
    (Opcode::Snp(SnoopOpcode::SnpNotSharedDirty), "SnpNotSharedDirty", 0x04, 1, Role::Snoop, false),
    (Opcode::Snp(SnoopOpcode::SnpUniqueStash), "SnpUniqueStash", 0x05, 1, Role::Snoop, false),
    (Opcode::Snp(SnoopOpcode::SnpMakeInvalidStash), "SnpMakeInvalidStash", 0x06, 1, Role::Snoop, false),
    (Opcode::Snp(SnoopOpcode::SnpUnique), "SnpUnique", 0x07, 1, Role::Snoop, false),
    (Opcode::Snp(SnoopOpcode::SnpCleanShared), "SnpCleanShared", 0x08, 1, Role::Snoop, false),
    (Opcode::Snp(SnoopOpcode::SnpCleanInvalid), "SnpCleanInvalid", 0x09, 1, Role::Snoop, false),
    (Opcode::Snp(SnoopOpcode::SnpMakeInvalid), "SnpMakeInvalid", 0x0a, 1, Role::Snoop, false),
    (Opcode::Snp(SnoopOpcode::SnpStashUnique), "SnpStashUnique", 0x0b, 1, Role::Snoop, false),
    (Opcode::Snp(SnoopOpcode::SnpStashShared), "SnpStashShared", 0x0c, 1, Role::Snoop, false),
    (Opcode::Snp(SnoopOpcode::SnpDVMOp), "SnpDVMOp", 0x0d, 1, Role::Snoop, false),
    (Opcode::Snp(SnoopOpcode::SnpSharedFwd), "SnpSharedFwd", 0x11, 1, Role::Snoop, false),
    (Opcode::Snp(SnoopOpcode::SnpCleanFwd), "SnpCleanFwd", 0x12, 1, Role::Snoop, false),
    (Opcode::Snp(SnoopOpcode::SnpOnceFwd), "SnpOnceFwd", 0x13, 1, Role::Snoop, false),
    (Opcode::Snp(SnoopOpcode::SnpNotSharedDirtyFwd), "SnpNotSharedDirtyFwd", 0x14, 1, Role::Snoop, false),
    (Opcode::Snp(SnoopOpcode::SnpUniqueFwd), "SnpUniqueFwd", 0x17, 1, Role::Snoop, false),
];

/// The opcodes of responses without data. In the order of [`ResponseOpcode`], by number.
#[rattlefmt::skip]
pub(crate) static RESPONSES: [Row; 10] = [
    (Opcode::Rsp(ResponseOpcode::RespLCrdReturn), "RespLCrdReturn", 0x00, 1, Role::NoTransaction, false),
    (Opcode::Rsp(ResponseOpcode::SnpResp), "SnpResp", 0x01, 1, Role::Answer, false),
    (Opcode::Rsp(ResponseOpcode::CompAck), "CompAck", 0x02, 1, Role::Acknowledgement, false),
    (Opcode::Rsp(ResponseOpcode::RetryAck), "RetryAck", 0x03, 1, Role::Retry, false),
    (Opcode::Rsp(ResponseOpcode::Comp), "Comp", 0x04, 1, Role::Completion, false),
    (Opcode::Rsp(ResponseOpcode::CompDBIDResp), "CompDBIDResp", 0x05, 1, Role::Completion, false),
    (Opcode::Rsp(ResponseOpcode::DBIDResp), "DBIDResp", 0x06, 1, Role::BufferGrant, false),
    (Opcode::Rsp(ResponseOpcode::PCrdGrant), "PCrdGrant", 0x07, 1, Role::CreditGrant, false),
    (Opcode::Rsp(ResponseOpcode::ReadReceipt), "ReadReceipt", 0x08, 1, Role::Receipt, false),
    (Opcode::Rsp(ResponseOpcode::SnpRespFwded), "SnpRespFwded", 0x09, 1, Role::Answer, false),
];

/// The opcodes of data. In the order of [`DataOpcode`], by number.
#[rattlefmt::skip]
pub(crate) static DATA_FLITS: [Row; 8] = [
    (Opcode::Dat(DataOpcode::DataLCrdReturn), "DataLCrdReturn", 0x00, 1, Role::NoTransaction, false),
    (Opcode::Dat(DataOpcode::SnpRespData), "SnpRespData", 0x01, 1, Role::Answer, true),
    (Opcode::Dat(DataOpcode::CopyBackWrData), "CopyBackWrData", 0x02, 1, Role::WriteData, true),
    (Opcode::Dat(DataOpcode::NonCopyBackWrData), "NonCopyBackWrData", 0x03, 1, Role::WriteData, true),
    (Opcode::Dat(DataOpcode::CompData), "CompData", 0x04, 1, Role::Completion, true),
    (Opcode::Dat(DataOpcode::SnpRespDataPtl), "SnpRespDataPtl", 0x05, 1, Role::Answer, true),
    (Opcode::Dat(DataOpcode::SnpRespDataFwded), "SnpRespDataFwded", 0x06, 1, Role::Answer, true),
    (Opcode::Dat(DataOpcode::WriteDataCancel), "WriteDataCancel", 0x07, 1, Role::WriteCancel, false),
];

/// The rows of a channel.
#[inline(always)]
#[tactic(auto, unfolding(crate::specs::Opcodes::rows_of))]
pub(crate) fn rows_of(channel: Channel) -> &'static [Row]
    ensures { map lent_row result.now ≡ rows_of channel }
{
    match channel {
        Channel::Req => &REQUESTS,
        Channel::Snp => &SNOOPS,
        Channel::Rsp => &RESPONSES,
        Channel::Dat => &DATA_FLITS,
    }
}

/// The row of an opcode.
#[inline(always)]
#[tactic(auto, unfolding(crate::specs::Opcodes::row_of, crate::specs::Opcodes::rows_of))]
pub(crate) fn row_of(opcode: Opcode) -> &'static Row
    ensures { lent_row result.now ≡ row_of opcode }
{
    match opcode {
        Opcode::Req(kind) => &REQUESTS[kind as usize],
        Opcode::Snp(kind) => &SNOOPS[kind as usize],
        Opcode::Rsp(kind) => &RESPONSES[kind as usize],
        Opcode::Dat(kind) => &DATA_FLITS[kind as usize],
    }
}

/// The opcode of the first of these rows that has this word.
pub(crate) fn named_in(rows: &[Row], word: &[u8]) -> Option<Opcode>
    ensures { result ≡ first_of (is_named word.now) (map lent_row rows.now) }
{
    for row in rows {
        if row.1.as_bytes() == word {
            return Some(row.0);
        }
    }
    None
}

/// The opcode of the first of these rows that has this number.
pub(crate) fn numbered_in(rows: &[Row], number: u8) -> Option<Opcode>
    ensures { result ≡ first_of (has_number number) (map lent_row rows.now) }
{
    for row in rows {
        if row.2 <= number && number - row.2 < row.3 {
            return Some(row.0);
        }
    }
    None
}
