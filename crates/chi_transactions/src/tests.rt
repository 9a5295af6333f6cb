//! Flits that are taken, and flits that aren't.

use crate::entries::{CreditTypes, Credits, Named, Options, Portion, Reason, Stop, Taken, Waiting};
use crate::ids::Id;
use crate::outstanding::Account;
use crate::transactions::Transactions;
use chi_issue_b::{
    CacheLine, DataOpcode, DbId, Flit, NodeId, Opcode, PcrdType, RequestOpcode, Resp,
    ResponseOpcode, SnoopOpcode, TxnId,
};
use std::alloc::Allocator;

/// A flit: its opcode, source, target and TXN; its address, DBID, RESP and credit type, if it has them; the words of data that it
/// has; and why it isn't taken, if it isn't.
type Row = (
    Opcode,
    u16,
    u16,
    u16,
    Option<u64>,
    Option<u16>,
    Option<Resp>,
    Option<u8>,
    u8,
    Option<Reason>,
);

// Nodes 1 and 2 are requesters, and 9 and 10 are homes.

const READ_SHARED: Opcode = Opcode::Req(RequestOpcode::ReadShared);

const READ_ONCE: Opcode = Opcode::Req(RequestOpcode::ReadOnce);

const CLEAN_UNIQUE: Opcode = Opcode::Req(RequestOpcode::CleanUnique);

const MAKE_INVALID: Opcode = Opcode::Req(RequestOpcode::MakeInvalid);

const EVICT: Opcode = Opcode::Req(RequestOpcode::Evict);

const WRITE_BACK_FULL: Opcode = Opcode::Req(RequestOpcode::WriteBackFull);

const WRITE_UNIQUE_FULL: Opcode = Opcode::Req(RequestOpcode::WriteUniqueFull);

const WRITE_UNIQUE_PTL: Opcode = Opcode::Req(RequestOpcode::WriteUniquePtl);

const ATOMIC_LOAD: Opcode = Opcode::Req(RequestOpcode::AtomicLoad);

const ATOMIC_STORE: Opcode = Opcode::Req(RequestOpcode::AtomicStore);

const PCRD_RETURN: Opcode = Opcode::Req(RequestOpcode::PCrdReturn);

const PREFETCH_TGT: Opcode = Opcode::Req(RequestOpcode::PrefetchTgt);

const SNP_SHARED: Opcode = Opcode::Snp(SnoopOpcode::SnpShared);

const SNP_UNIQUE: Opcode = Opcode::Snp(SnoopOpcode::SnpUnique);

const SNP_SHARED_FWD: Opcode = Opcode::Snp(SnoopOpcode::SnpSharedFwd);

const COMP: Opcode = Opcode::Rsp(ResponseOpcode::Comp);

const COMP_ACK: Opcode = Opcode::Rsp(ResponseOpcode::CompAck);

const COMP_DBID_RESP: Opcode = Opcode::Rsp(ResponseOpcode::CompDBIDResp);

const DBID_RESP: Opcode = Opcode::Rsp(ResponseOpcode::DBIDResp);

const READ_RECEIPT: Opcode = Opcode::Rsp(ResponseOpcode::ReadReceipt);

const RETRY_ACK: Opcode = Opcode::Rsp(ResponseOpcode::RetryAck);

const PCRD_GRANT: Opcode = Opcode::Rsp(ResponseOpcode::PCrdGrant);

const SNP_RESP: Opcode = Opcode::Rsp(ResponseOpcode::SnpResp);

const SNP_RESP_FWDED: Opcode = Opcode::Rsp(ResponseOpcode::SnpRespFwded);

const SNP_RESP_DATA: Opcode = Opcode::Dat(DataOpcode::SnpRespData);

const COMP_DATA: Opcode = Opcode::Dat(DataOpcode::CompData);

const COPY_BACK: Opcode = Opcode::Dat(DataOpcode::CopyBackWrData);

const NON_COPY_BACK: Opcode = Opcode::Dat(DataOpcode::NonCopyBackWrData);

const WRITE_CANCEL: Opcode = Opcode::Dat(DataOpcode::WriteDataCancel);

const I: Option<Resp> = Some(Resp::I);

const SC: Option<Resp> = Some(Resp::SC);

const UC: Option<Resp> = Some(Resp::UC);

const UD: Option<Resp> = Some(Resp::UDPD);

/// Reads: data open the DBID, also in beats, and CompAck frees it; a ReadOnce may have a receipt, before or behind its data, and a
/// CompAck.
#[rattlefmt::skip]
const READS: [Row; 20] = [
    (READ_SHARED,  1, 9, 3, Some(0x40), None,    None, None, 0,    None),
    (COMP_DATA,    9, 1, 3, None,       Some(5), SC,   None, 0xff, None),
    (COMP_DATA,    9, 1, 3, None,       Some(6), SC,   None, 0xff, Some(Reason::NotOpen)),
    (COMP_ACK,     1, 9, 5, None,       None,    None, None, 0,    None),
    (COMP_ACK,     1, 9, 5, None,       None,    None, None, 0,    Some(Reason::NotOpen)),
    (READ_SHARED,  1, 9, 3, Some(0x80), None,    None, None, 0,    None),
    (READ_SHARED,  1, 9, 3, Some(0xc0), None,    None, None, 0,    Some(Reason::InUse)),
    (READ_SHARED,  2, 9, 3, Some(0x80), None,    None, None, 0,    None),
    (COMP_DATA,    9, 1, 3, None,       Some(5), UC,   None, 0x0f, None),
    (COMP_ACK,     1, 9, 5, None,       None,    None, None, 0,    None),
    (COMP_DATA,    9, 1, 3, None,       Some(5), UC,   None, 0xf0, None),
    (COMP_DATA,    9, 2, 3, None,       Some(5), SC,   None, 0xff, None),
    (READ_ONCE,    1, 9, 3, Some(0x40), None,    None, None, 0,    None),
    (READ_RECEIPT, 9, 1, 3, None,       None,    None, None, 0,    None),
    (COMP_DATA,    9, 1, 3, None,       None,    I,    None, 0xff, None),
    (READ_ONCE,    1, 9, 3, Some(0x40), None,    None, None, 0,    None),
    (COMP_DATA,    9, 1, 3, None,       Some(7), I,    None, 0xff, None),
    (READ_RECEIPT, 9, 1, 3, None,       None,    None, None, 0,    None),
    (COMP_ACK,     1, 9, 7, None,       None,    None, None, 0,    None),
    (PREFETCH_TGT, 1, 9, 3, Some(0x40), None,    None, None, 0,    None),
];

/// Requests without data; copy-backs; writes whose Comp and DBIDResp come apart, in either order; atomics; snoops.
#[rattlefmt::skip]
const OTHERS: [Row; 41] = [
    (CLEAN_UNIQUE,      1, 9, 1, Some(0x40), None,    None, None, 0,    None),
    (COMP,              9, 1, 1, Some(0x40), Some(1), UC,   None, 0,    None),
    (COMP_ACK,          1, 9, 1, None,       None,    None, None, 0,    None),
    (MAKE_INVALID,      1, 9, 1, Some(0x40), None,    None, None, 0,    None),
    (COMP,              9, 1, 1, None,       None,    I,    None, 0,    None),
    (EVICT,             1, 9, 1, Some(0x40), None,    None, None, 0,    None),
    (COMP,              9, 1, 1, None,       Some(1), I,    None, 0,    None),
    (COMP_ACK,          1, 9, 1, None,       None,    None, None, 0,    Some(Reason::NotOpen)),
    (WRITE_BACK_FULL,   1, 9, 1, Some(0x40), None,    None, None, 0,    None),
    (COMP_DBID_RESP,    9, 1, 1, None,       Some(1), I,    None, 0,    None),
    (COMP_ACK,          1, 9, 1, None,       None,    None, None, 0,    Some(Reason::NotLeft)),
    (COPY_BACK,         1, 9, 1, None,       None,    UD,   None, 0xff, None),
    (WRITE_UNIQUE_FULL, 1, 9, 1, Some(0x40), None,    None, None, 0,    None),
    (DBID_RESP,         9, 1, 1, None,       Some(1), None, None, 0,    None),
    (NON_COPY_BACK,     1, 9, 1, None,       None,    I,    None, 0x03, None),
    (COMP,              9, 1, 1, None,       Some(1), I,    None, 0,    None),
    (COMP_ACK,          1, 9, 1, None,       None,    None, None, 0,    None),
    (NON_COPY_BACK,     1, 9, 1, None,       None,    I,    None, 0xfc, None),
    (WRITE_UNIQUE_PTL,  1, 9, 1, Some(0x40), None,    None, None, 0,    None),
    (COMP,              9, 1, 1, None,       None,    I,    None, 0,    None),
    (COMP,              9, 1, 1, None,       None,    I,    None, 0,    Some(Reason::NotLeft)),
    (DBID_RESP,         9, 1, 1, None,       Some(1), None, None, 0,    None),
    (WRITE_CANCEL,      1, 9, 1, None,       None,    I,    None, 0,    None),
    (ATOMIC_LOAD,       1, 9, 1, Some(0x40), None,    None, None, 0,    None),
    (DBID_RESP,         9, 1, 1, None,       Some(1), None, None, 0,    None),
    (COMP_DATA,         9, 1, 1, None,       Some(1), I,    None, 0xff, None),
    (NON_COPY_BACK,     1, 9, 1, None,       None,    I,    None, 0xff, None),
    (ATOMIC_LOAD,       1, 9, 1, Some(0x40), None,    None, None, 0,    None),
    (COMP_DATA,         9, 1, 1, None,       None,    I,    None, 0x0f, None),
    (DBID_RESP,         9, 1, 1, None,       Some(1), None, None, 0,    None),
    (COMP_DATA,         9, 1, 1, None,       None,    I,    None, 0xf0, None),
    (NON_COPY_BACK,     1, 9, 1, None,       None,    I,    None, 0xff, None),
    (ATOMIC_STORE,      1, 9, 1, Some(0x40), None,    None, None, 0,    None),
    (COMP_DBID_RESP,    9, 1, 1, None,       Some(1), I,    None, 0,    None),
    (SNP_SHARED,        9, 1, 1, Some(0x80), None,    None, None, 0,    None),
    (SNP_RESP,          1, 9, 1, None,       None,    SC,   None, 0,    None),
    (SNP_UNIQUE,        9, 1, 1, Some(0x80), None,    None, None, 0,    None),
    (SNP_RESP_DATA,     1, 9, 1, None,       None,    I,    None, 0x0f, None),
    (SNP_RESP_DATA,     1, 9, 1, None,       None,    I,    None, 0xf0, None),
    (SNP_SHARED_FWD,    9, 1, 1, Some(0x80), None,    None, None, 0,    None),
    (SNP_RESP_FWDED,    1, 9, 1, None,       None,    SC,   None, 0,    None),
];

/// Retries and credits, where there are four types: a request is sent again, one is cancelled, and its credit is returned.
#[rattlefmt::skip]
const CREDITS: [Row; 20] = [
    (PCRD_GRANT,  9, 1, 0, None,       None,    None, Some(0), 0,    Some(Reason::NothingRetried)),
    (READ_SHARED, 1, 9, 1, Some(0x40), None,    None, None,    0,    None),
    (RETRY_ACK,   9, 1, 1, None,       None,    None, Some(2), 0,    Some(Reason::OtherType)),
    (RETRY_ACK,   9, 1, 1, None,       None,    None, Some(0), 0,    None),
    (RETRY_ACK,   9, 1, 1, None,       None,    None, Some(0), 0,    Some(Reason::NotOpen)),
    (READ_SHARED, 1, 9, 1, Some(0x40), None,    None, Some(0), 0,    Some(Reason::NoCredit)),
    (PCRD_GRANT,  9, 1, 0, None,       None,    None, Some(0), 0,    None),
    (PCRD_GRANT,  9, 1, 0, None,       None,    None, Some(0), 0,    Some(Reason::NothingRetried)),
    (READ_SHARED, 1, 9, 1, Some(0x80), None,    None, Some(0), 0,    Some(Reason::NotWaiting)),
    (READ_SHARED, 2, 9, 1, Some(0x40), None,    None, Some(0), 0,    Some(Reason::NotWaiting)),
    (READ_SHARED, 1, 9, 1, Some(0x40), None,    None, Some(1), 0,    Some(Reason::OtherType)),
    (READ_SHARED, 1, 9, 1, Some(0x40), None,    None, Some(0), 0,    None),
    (RETRY_ACK,   9, 1, 1, None,       None,    None, Some(0), 0,    Some(Reason::NotRetryable)),
    (PCRD_RETURN, 1, 9, 0, None,       None,    None, Some(0), 0,    Some(Reason::NoCredit)),
    (EVICT,       1, 9, 2, Some(0x80), None,    None, None,    0,    None),
    (RETRY_ACK,   9, 1, 2, None,       None,    None, Some(3), 0,    None),
    (PCRD_GRANT,  9, 1, 0, None,       None,    None, Some(3), 0,    None),
    (EVICT,       1, 9, 2, Some(0x80), None,    None, None,    0,    None),
    (PCRD_RETURN, 1, 9, 0, None,       None,    None, Some(3), 0,    None),
    (PCRD_RETURN, 1, 9, 0, None,       None,    None, Some(3), 0,    Some(Reason::NoCredit)),
];

/// Refusals that the other tables haven't, and a ReadOnce that names a DBID which is in use.
#[rattlefmt::skip]
const REFUSALS: [Row; 25] = [
    (READ_SHARED,       1, 9,  1, None,       None,    None, None,    0,    Some(Reason::NoLine)),
    (SNP_SHARED,        9, 1,  1, None,       None,    None, None,    0,    Some(Reason::NoLine)),
    (COMP_DATA,         9, 1,  1, None,       Some(1), SC,   None,    0xff, Some(Reason::NotOpen)),
    (READ_SHARED,       1, 9,  1, Some(0x40), None,    None, None,    0,    None),
    (COMP_DATA,         9, 2,  1, None,       Some(1), SC,   None,    0xff, Some(Reason::NotOpen)),
    (COMP_DATA,        10, 1,  1, None,       Some(1), SC,   None,    0xff, Some(Reason::OtherHome)),
    (RETRY_ACK,        10, 1,  1, None,       None,    None, Some(0), 0,    Some(Reason::OtherHome)),
    (COMP_DATA,         9, 1,  1, Some(0x80), Some(1), SC,   None,    0xff, Some(Reason::OtherLine)),
    (RETRY_ACK,         9, 1,  1, Some(0x80), None,    None, Some(0), 0,    Some(Reason::OtherLine)),
    (COMP,              9, 1,  1, None,       Some(1), UC,   None,    0,    Some(Reason::NotLeft)),
    (COMP_DATA,         9, 1,  1, None,       None,    SC,   None,    0xff, Some(Reason::NoDbid)),
    (COMP_DATA,         9, 1,  1, None,       Some(1), SC,   None,    0x0f, None),
    (RETRY_ACK,         9, 1,  1, None,       None,    None, Some(0), 0,    Some(Reason::NotRetryable)),
    (COMP_DATA,         9, 1,  1, None,       Some(1), UC,   None,    0xf0, Some(Reason::OtherBeat)),
    (COMP_DATA,         9, 1,  1, None,       Some(2), SC,   None,    0xf0, Some(Reason::OtherBeat)),
    (COMP_DATA,         9, 1,  1, None,       Some(1), SC,   None,    0x18, Some(Reason::WordAgain)),
    (COMP_DATA,         9, 1,  1, None,       Some(1), SC,   None,    0xf0, None),
    (READ_SHARED,       1, 9,  2, Some(0x80), None,    None, None,    0,    None),
    (COMP_DATA,         9, 1,  2, None,       Some(1), SC,   None,    0xff, Some(Reason::InUse)),
    (READ_ONCE,         1, 9,  3, Some(0xc0), None,    None, None,    0,    None),
    (COMP_DATA,         9, 1,  3, None,       Some(1), I,    None,    0xff, None),
    (COMP_ACK,          1, 9,  1, None,       None,    None, None,    0,    None),
    (SNP_UNIQUE,        9, 2,  1, Some(0x40), None,    None, None,    0,    None),
    (SNP_RESP_DATA,     2, 9,  1, None,       None,    I,    None,    0x0f, None),
    (SNP_RESP,          2, 9,  1, None,       None,    I,    None,    0,    Some(Reason::Unfinished)),
];

/// A trace that begins in the middle: each id from before is named once, but for what else may be left of it, and for beats.
#[rattlefmt::skip]
const MIDDLE: [Row; 15] = [
    (COMP_ACK,    1, 9, 5, None,       None,    None, None,    0,    None),
    (COMP_ACK,    1, 9, 5, None,       None,    None, None,    0,    Some(Reason::NotLeft)),
    (COMP_DATA,   9, 1, 3, None,       Some(5), SC,   None,    0x0f, None),
    (COMP_DATA,   9, 1, 3, None,       Some(5), SC,   None,    0xf0, None),
    (COMP_DATA,   9, 1, 3, None,       Some(5), SC,   None,    0xff, Some(Reason::NotLeft)),
    (COMP_ACK,    1, 9, 5, None,       None,    None, None,    0,    None),
    (DBID_RESP,   9, 1, 4, None,       Some(6), None, None,    0,    None),
    (COMP,        9, 1, 4, None,       None,    I,    None,    0,    None),
    (COMP,        9, 1, 4, None,       None,    I,    None,    0,    Some(Reason::NotOpen)),
    (COPY_BACK,   1, 9, 6, None,       None,    UD,   None,    0xff, None),
    (RETRY_ACK,   9, 1, 7, None,       None,    None, Some(0), 0,    None),
    (READ_SHARED, 1, 9, 7, Some(0x40), None,    None, Some(1), 0,    None),
    (COMP_DATA,   9, 1, 7, None,       Some(5), SC,   None,    0xff, None),
    (COMP_DATA,   9, 1, 7, None,       Some(5), SC,   None,    0xff, Some(Reason::NotOpen)),
    (PCRD_GRANT,  9, 1, 0, None,       None,    None, Some(0), 0,    None),
];

/// Grants that come before their RetryAcks: as many as there are first attempts that may be retried.
#[rattlefmt::skip]
const EARLY: [Row; 9] = [
    (PCRD_GRANT,  9, 1, 0, None,       None,    None, Some(0), 0,    Some(Reason::NothingRetried)),
    (READ_SHARED, 1, 9, 1, Some(0x40), None,    None, None,    0,    None),
    (PCRD_GRANT,  9, 1, 0, None,       None,    None, Some(0), 0,    None),
    (PCRD_GRANT,  9, 1, 0, None,       None,    None, Some(0), 0,    Some(Reason::NothingRetried)),
    (PCRD_RETURN, 1, 9, 0, None,       None,    None, Some(0), 0,    Some(Reason::NoCredit)),
    (RETRY_ACK,   9, 1, 1, None,       None,    None, Some(0), 0,    None),
    (READ_SHARED, 1, 9, 1, Some(0x80), None,    None, None,    0,    None),
    (COMP_DATA,   9, 1, 1, None,       Some(5), SC,   None,    0xff, None),
    (PCRD_GRANT,  9, 1, 0, None,       None,    None, Some(0), 0,    Some(Reason::NothingRetried)),
];

/// The flit of a row.
fn flit_of(row: &Row) -> Flit {
    let mut flit = Flit::new(row.0, NodeId(row.1), NodeId(row.2), TxnId(row.3));
    if let Some(address) = row.4 {
        flit = flit.with_line(CacheLine::at(address));
    }
    if let Some(dbid) = row.5 {
        flit = flit.with_dbid(DbId(dbid));
    }
    if let Some(resp) = row.6 {
        flit = flit.with_resp(resp);
    }
    if let Some(credit) = row.7 {
        flit = flit.with_credit(PcrdType(credit));
    }
    flit
}

/// Whether a flit was taken or refused as it should be.
fn is_wanted(taken: Result<Taken, Stop>, refused: Option<Reason>) -> bool {
    match (taken, refused) {
        (Ok(_), None) => true,
        (Err(Stop::Refused(reason)), Some(wanted)) => reason == wanted,
        _ => false,
    }
}

/// Whether each flit of the rows is taken or refused as it should be.
fn are_wanted<A: Allocator + Copy>(alloc: A, options: Options, rows: &[Row]) -> bool {
    let mut transactions = Transactions::new(alloc, options);
    let mut wanted = true;
    for (place, row) in rows.iter().enumerate() {
        let result = transactions.take(&flit_of(row), row.8, place as u64 + 1);
        wanted &= is_wanted(result, row.9);
    }
    wanted
}

/// A trace from its beginning, with four types of credit.
const WHOLE: Options = Options {
    types: CreditTypes::Four,
    early_grants: false,
    begins_in_middle: false,
};

#[test]
fn reads_are_acknowledged(rt: HostRuntime) {
    assert!(rt; are_wanted(rt.alloc(), WHOLE, &READS));
}

#[test]
fn each_family_has_its_flits(rt: HostRuntime) {
    assert!(rt; are_wanted(rt.alloc(), WHOLE, &OTHERS));
}

#[test]
fn credits_are_spent_once(rt: HostRuntime) {
    assert!(rt; are_wanted(rt.alloc(), WHOLE, &CREDITS));
}

#[test]
fn each_refusal_has_its_reason(rt: HostRuntime) {
    assert!(rt; are_wanted(rt.alloc(), WHOLE, &REFUSALS));
}

#[test]
fn ids_from_before_are_named_once(rt: HostRuntime) {
    let options = Options {
        begins_in_middle: true,
        ..WHOLE
    };
    assert!(rt; are_wanted(rt.alloc(), options, &MIDDLE));
}

#[test]
fn grants_come_early(rt: HostRuntime) {
    let options = Options {
        early_grants: true,
        ..WHOLE
    };
    assert!(rt; are_wanted(rt.alloc(), options, &EARLY));
}

/// What is told of the flits of a read whose data come in beats, behind which its DBID is acknowledged.
fn told<A: Allocator + Copy>(alloc: A) -> [Option<Taken>; 5] {
    let mut transactions = Transactions::new(alloc, WHOLE);
    let mut told = [None; 5];
    for (place, row) in READS[5..].iter().enumerate() {
        let result = transactions.take(&flit_of(row), row.8, place as u64 + 1);
        if place < 5 {
            told[place] = result.ok();
        }
    }
    told
}

#[test]
fn each_flit_is_of_its_line(rt: HostRuntime) {
    let [request, refused, _, first, acknowledged] = told(rt.alloc());
    let read = |since: u64, beat: Portion| {
        Some(Taken::Of(Named {
            line: CacheLine::at(0x80),
            of: READ_SHARED,
            since,
            beat,
        }))
    };
    assert_eq!(rt; request, read(1, Portion::Whole));
    assert_eq!(rt; refused, None);
    assert_eq!(rt; first, read(1, Portion::First));
    assert_eq!(rt; acknowledged, read(4, Portion::Whole));
}

/// A request that is retried, and a snoop.
#[rattlefmt::skip]
const WAITING: [Row; 3] = [
    (READ_SHARED, 1, 9, 3, Some(0x40), None, None, None,    0, None),
    (RETRY_ACK,   9, 1, 3, None,       None, None, Some(0), 0, None),
    (SNP_UNIQUE,  9, 2, 4, Some(0x80), None, None, None,    0, None),
];

#[test]
fn what_is_outstanding_is_told(rt: HostRuntime) {
    let mut transactions = Transactions::new(rt.alloc(), WHOLE);
    for (place, row) in WAITING.iter().enumerate() {
        let _ = transactions.take(&flit_of(row), row.8, place as u64 + 1);
    }
    let retried = Id::Request {
        requester: NodeId(1),
        txn: TxnId(3),
    };
    let snooped = Id::Snoop {
        node: NodeId(2),
        home: NodeId(9),
        txn: TxnId(4),
    };
    let ids = [0, 1, 2].map(|place| match transactions.id(place) {
        Some((id, kept)) => Some((id, kept.is_open(), kept.since)),
        None => None,
    });
    assert_eq!(rt;
        ids,
        [Some((retried, false, 1)), Some((snooped, true, 3)), None]
    );
    let account = Account {
        requester: NodeId(1),
        home: NodeId(9),
        credit: PcrdType(0),
    };
    let credits = Credits {
        retried: 1,
        granted: 0,
        resent: 0,
        returned: 0,
    };
    assert_eq!(rt; transactions.account(0), Some((account, credits)));
    let waiting = Waiting {
        home: NodeId(9),
        credit: PcrdType(0),
        of: READ_SHARED,
        since: 2,
    };
    assert_eq!(rt;
        transactions.waiting(0),
        Some((NodeId(1), CacheLine::at(0x40), waiting))
    );
}
