//! The tables as the standard's page has them, and flits and beats.

use crate::beat::Beat;
use crate::channels::Channel;
use crate::flit::Flit;
use crate::ids::{CacheLine, DbId, NodeId, PcrdType, TxnId};
use crate::opcodes::{DataOpcode, Opcode, RequestOpcode, ResponseOpcode};
use crate::resp::{Resp, RespUse};
use crate::roles::Role;
use std::mem::size_of;
use std::test::Fail;

/// A number, and the word of what it names.
type Numbered = (u8, &'static str);

/// Each number of `REQ` that is an opcode's.
#[rattlefmt::skip]
static REQUESTS: [Numbered; 49] = [
    (0x00, "ReqLCrdReturn"), (0x01, "ReadShared"), (0x02, "ReadClean"), (0x03, "ReadOnce"), (0x04, "ReadNoSnp"),
    (0x05, "PCrdReturn"), (0x07, "ReadUnique"), (0x08, "CleanShared"), (0x09, "CleanInvalid"), (0x0a, "MakeInvalid"),
    (0x0b, "CleanUnique"), (0x0c, "MakeUnique"), (0x0d, "Evict"), (0x14, "DVMOp"), (0x15, "WriteEvictFull"),
    (0x17, "WriteCleanFull"), (0x18, "WriteUniquePtl"), (0x19, "WriteUniqueFull"), (0x1a, "WriteBackPtl"),
    (0x1b, "WriteBackFull"), (0x1c, "WriteNoSnpPtl"), (0x1d, "WriteNoSnpFull"), (0x20, "WriteUniqueFullStash"),
    (0x21, "WriteUniquePtlStash"), (0x22, "StashOnceShared"), (0x23, "StashOnceUnique"),
    (0x24, "ReadOnceCleanInvalid"), (0x25, "ReadOnceMakeInvalid"), (0x26, "ReadNotSharedDirty"),
    (0x27, "CleanSharedPersist"), (0x28, "AtomicStore"), (0x29, "AtomicStore"), (0x2a, "AtomicStore"),
    (0x2b, "AtomicStore"), (0x2c, "AtomicStore"), (0x2d, "AtomicStore"), (0x2e, "AtomicStore"), (0x2f, "AtomicStore"),
    (0x30, "AtomicLoad"), (0x31, "AtomicLoad"), (0x32, "AtomicLoad"), (0x33, "AtomicLoad"), (0x34, "AtomicLoad"),
    (0x35, "AtomicLoad"), (0x36, "AtomicLoad"), (0x37, "AtomicLoad"), (0x38, "AtomicSwap"), (0x39, "AtomicCompare"),
    (0x3a, "PrefetchTgt"),
];

/// Each number of `RSP` that is an opcode's.
#[rattlefmt::skip]
static RESPONSES: [Numbered; 10] = [
    (0x00, "RespLCrdReturn"), (0x01, "SnpResp"), (0x02, "CompAck"), (0x03, "RetryAck"), (0x04, "Comp"),
    (0x05, "CompDBIDResp"), (0x06, "DBIDResp"), (0x07, "PCrdGrant"), (0x08, "ReadReceipt"), (0x09, "SnpRespFwded"),
];

/// Each number of `SNP` that is an opcode's.
#[rattlefmt::skip]
static SNOOPS: [Numbered; 19] = [
    (0x00, "SnpLCrdReturn"), (0x01, "SnpShared"), (0x02, "SnpClean"), (0x03, "SnpOnce"), (0x04, "SnpNotSharedDirty"),
    (0x05, "SnpUniqueStash"), (0x06, "SnpMakeInvalidStash"), (0x07, "SnpUnique"), (0x08, "SnpCleanShared"),
    (0x09, "SnpCleanInvalid"), (0x0a, "SnpMakeInvalid"), (0x0b, "SnpStashUnique"), (0x0c, "SnpStashShared"),
    (0x0d, "SnpDVMOp"), (0x11, "SnpSharedFwd"), (0x12, "SnpCleanFwd"), (0x13, "SnpOnceFwd"),
    (0x14, "SnpNotSharedDirtyFwd"), (0x17, "SnpUniqueFwd"),
];

/// Each number of `DAT` that is an opcode's.
#[rattlefmt::skip]
static DATA_FLITS: [Numbered; 8] = [
    (0x00, "DataLCrdReturn"), (0x01, "SnpRespData"), (0x02, "CopyBackWrData"), (0x03, "NonCopyBackWrData"),
    (0x04, "CompData"), (0x05, "SnpRespDataPtl"), (0x06, "SnpRespDataFwded"), (0x07, "WriteDataCancel"),
];

/// What flits of an opcode do to ids, and whether they carry data, of each channel.
type Does = (Channel, &'static str, Role, bool);

/// All opcodes that neither are requests or snoops nor are of no transaction.
#[rattlefmt::skip]
static DOING: [Does; 17] = [
    (Channel::Req, "PCrdReturn", Role::CreditReturn, false),
    (Channel::Rsp, "SnpResp", Role::Answer, false),
    (Channel::Rsp, "CompAck", Role::Acknowledgement, false),
    (Channel::Rsp, "RetryAck", Role::Retry, false),
    (Channel::Rsp, "Comp", Role::Completion, false),
    (Channel::Rsp, "CompDBIDResp", Role::Completion, false),
    (Channel::Rsp, "DBIDResp", Role::BufferGrant, false),
    (Channel::Rsp, "PCrdGrant", Role::CreditGrant, false),
    (Channel::Rsp, "ReadReceipt", Role::Receipt, false),
    (Channel::Rsp, "SnpRespFwded", Role::Answer, false),
    (Channel::Dat, "SnpRespData", Role::Answer, true),
    (Channel::Dat, "CopyBackWrData", Role::WriteData, true),
    (Channel::Dat, "NonCopyBackWrData", Role::WriteData, true),
    (Channel::Dat, "CompData", Role::Completion, true),
    (Channel::Dat, "SnpRespDataPtl", Role::Answer, true),
    (Channel::Dat, "SnpRespDataFwded", Role::Answer, true),
    (Channel::Dat, "WriteDataCancel", Role::WriteCancel, false),
];

/// The opcodes of no transaction.
#[rattlefmt::skip]
static APART: [Does; 5] = [
    (Channel::Req, "ReqLCrdReturn", Role::NoTransaction, false),
    (Channel::Req, "PrefetchTgt", Role::NoTransaction, false),
    (Channel::Snp, "SnpLCrdReturn", Role::NoTransaction, false),
    (Channel::Rsp, "RespLCrdReturn", Role::NoTransaction, false),
    (Channel::Dat, "DataLCrdReturn", Role::NoTransaction, false),
];

/// A word, and what it nearly is.
type Near = (Channel, &'static str, &'static str);

#[rattlefmt::skip]
static NEAR: [Near; 8] = [
    (Channel::Dat, "CompDat", "CompData"),
    (Channel::Dat, "compdata", "CompData"),
    (Channel::Dat, "CompDataa", "CompData"),
    (Channel::Dat, "CompDaat", "CompData"),
    (Channel::Req, "ReadShraed", "ReadShared"),
    (Channel::Rsp, "Xomp", "Comp"),
    (Channel::Rsp, "omp", "Comp"),
    (Channel::Snp, "Snpuniquestash", "SnpUniqueStash"),
];

/// Each number of the Resp field, as completions and answers to snoops have it: `-` where they have none.
static RESPS: [(&str, &str); 8] = [
    ("I", "I"),
    ("SC", "SC"),
    ("UC", "UC"),
    ("-", "SD"),
    ("-", "I_PD"),
    ("-", "SC_PD"),
    ("UD_PD", "UC_PD"),
    ("SD_PD", "-"),
];

fn has_word(opcode: Option<Opcode>, word: &str) -> bool {
    match opcode {
        Some(opcode) => opcode.word() == word,
        None => false,
    }
}

/// Whether the word and the number are those of one opcode.
fn is_read(channel: Channel, number: u8, word: &str) -> bool {
    let named = Opcode::from_word(channel, word.as_bytes());
    named == Opcode::from_number(channel, number) && has_word(named, word)
}

/// Whether all these are read, and their channel has no other number.
fn are_read(channel: Channel, rows: &[Numbered]) -> bool {
    let mut read = true;
    for (number, word) in rows {
        read &= is_read(channel, *number, word);
    }
    read && (0..=255u8)
        .filter(|number| Opcode::from_number(channel, *number).is_some())
        .count()
        == rows.len()
}

fn does(row: &Does) -> bool {
    match Opcode::from_word(row.0, row.1.as_bytes()) {
        Some(opcode) => {
            opcode.channel() == row.0 && opcode.role() == row.2 && opcode.carries_data() == row.3
        }
        None => false,
    }
}

fn do_as_said(rows: &[Does]) -> bool {
    let mut done = true;
    for row in rows {
        done &= does(row);
    }
    done
}

/// How many numbers of the channel are of this role.
fn count_of(channel: Channel, role: Role) -> usize {
    let mut count = 0;
    for number in 0..=255u8 {
        if let Some(opcode) = Opcode::from_number(channel, number) {
            if opcode.role() == role && count < 256 {
                count += 1;
            }
        }
    }
    count
}

fn are_near(rows: &[Near]) -> bool {
    let mut near = true;
    for (channel, word, name) in rows {
        near &= has_word(Opcode::near(*channel, word.as_bytes()), name);
    }
    near
}

fn is_resp(of: RespUse, number: u8, word: &str) -> bool {
    match Resp::from_number(of, number) {
        Some(resp) => resp.word() == word
            && resp.number() == number
            && Resp::from_word(word.as_bytes()) == Some(resp),
        None => word == "-",
    }
}

fn are_resps(rows: &[(&str, &str)]) -> bool {
    let mut read = true;
    let mut number = 0u8;
    for (completion, answer) in rows {
        read &= is_resp(RespUse::Completion, number, completion)
            && is_resp(RespUse::Answer, number, answer);
        number = number.saturating_add(1);
    }
    read
}

#[test]
fn each_number_of_the_page_is_read(rt: HostRuntime) {
    assert!(rt; are_read(Channel::Req, &REQUESTS));
    assert!(rt; are_read(Channel::Snp, &SNOOPS));
    assert!(rt; are_read(Channel::Rsp, &RESPONSES));
    assert!(rt; are_read(Channel::Dat, &DATA_FLITS));
}

#[test]
fn opcodes_do_to_ids_what_the_page_says(rt: HostRuntime) {
    assert!(rt; do_as_said(&DOING));
    assert!(rt; do_as_said(&APART));
    assert!(rt; count_of(Channel::Req, Role::Request) == 46);
    assert!(rt; count_of(Channel::Snp, Role::Snoop) == 18);
}

#[test]
fn words_that_are_nearly_opcodes(rt: HostRuntime) {
    assert!(rt; are_near(&NEAR));
    assert!(rt; Opcode::near(Channel::Dat, b"Own").is_none());
    assert!(rt; Opcode::near(Channel::Rsp, b"CompDat").is_none());
    assert!(rt; Opcode::from_word(Channel::Dat, b"CompDat").is_none());
    assert!(rt; Opcode::from_word(Channel::Req, b"CompData").is_none());
}

#[test]
fn each_resp_of_the_page_is_read(rt: HostRuntime) {
    assert!(rt; are_resps(&RESPS));
    assert!(rt; Resp::from_word(b"UD") == Some(Resp::UD) && Resp::UD.number() == 2);
    assert!(rt; Resp::from_word(b"UD_PD") == Some(Resp::UDPD) && Resp::UDPD.number() == 6);
    assert!(rt; Resp::from_word(b"-").is_none());
    assert!(rt; Resp::from_number(RespUse::Answer, 8).is_none());
}

#[test]
fn channels_and_ids_are_written_as_in_a_trace(rt: HostRuntime) -> Result<(), Fail> {
    let text = format!(in rt.alloc(); "{} {} {}", Channel::Snp, NodeId(0x40), TxnId(0x1f))?;
    assert!(rt; text.as_str() == "SNP 40 1f");
    let text = format!(in rt.alloc(); "{} {} {}", DbId(0xa), PcrdType(0xf), CacheLine::at(0x107f))?;
    assert!(rt; text.as_str() == "a f 1040");
    let text = format!(in rt.alloc(); "{} {}", Opcode::Dat(DataOpcode::CompData), Resp::UDPD)?;
    assert!(rt; text.as_str() == "CompData UD_PD");
    assert!(rt; Channel::from_word(b"SNP") == Some(Channel::Snp));
    assert!(rt; Channel::from_word(b"CPU").is_none());
    assert!(rt; PcrdType::from_number(16).is_none());
    Ok(())
}

#[test]
fn a_flit_says_what_it_was_given(rt: HostRuntime) {
    let request = Flit::new(
        Opcode::Req(RequestOpcode::ReadShared),
        NodeId(8),
        NodeId(40),
        TxnId(1),
    );
    assert!(rt; request.line().is_none() && request.dbid().is_none() && request.allows_retry());
    let again = request
        .with_line(CacheLine::at(0x1040))
        .with_credit(PcrdType(2));
    assert!(rt; again.line() == Some(CacheLine::at(0x1078)) && !again.allows_retry());
    let completion = Flit::new(
        Opcode::Rsp(ResponseOpcode::Comp),
        NodeId(40),
        NodeId(8),
        TxnId(1),
    );
    let completion = completion.with_resp(Resp::UC).with_dbid(DbId(0));
    assert!(rt; completion.dbid() == Some(DbId(0)) && completion.resp == Some(Resp::UC));
    assert!(rt; completion.line().is_none());
}

#[test]
fn a_flit_is_small(rt: HostRuntime) {
    assert!(rt; size_of::<Flit>() == 24);
    assert!(rt; size_of::<Beat>() == 72);
}

#[test]
fn a_beat_has_the_words_that_were_put(rt: HostRuntime) {
    let mut beat = Beat::NONE;
    beat.put(3, 7);
    beat.put(7, 9);
    assert!(rt; beat.word(3) == Some(7) && beat.word(7) == Some(9));
    assert!(rt; beat.word(0).is_none() && !beat.is_whole());
    assert!(rt; Beat::whole(&beat.words).word(0) == Some(0));
    assert!(rt; Beat::whole(&beat.words).is_whole());
}
