//! A trace of flits, watched.

use crate::judge::Start;
use crate::watch::{Settings, Watch, WatchStop};
use chi_flit::WordNo;
use chi_issue_b::{
    Beat, CacheLine, DataOpcode, DbId, Flit, NodeId, Opcode, RequestOpcode, Resp, ResponseOpcode,
    SnoopOpcode, TxnId,
};
use chi_observer::{Act, Stores, Word};
use chi_transactions::{CreditTypes, Reason};
use std::alloc::Allocator;

/// A flit: its opcode, source, target and TXN; its address, DBID and RESP, if it has them; the words of data that it has, each with this
/// value; and how many flits are judged then, or the stop of ids, or the number of a fault.
type Row = (
    Opcode,
    u16,
    u16,
    u16,
    Option<u64>,
    Option<u16>,
    Option<Resp>,
    u8,
    u64,
    Wanted,
);

/// What is wanted of a flit.
#[derive(Clone, Copy, PartialEq, Eq)]
enum Wanted {
    /// So many flits are judged.
    Judged(usize),
    /// So many aren't.
    Unjudged(usize),
    /// The flit with this number is a fault.
    Fault(u64),
    /// Ids don't allow it.
    Ids(Reason),
    /// Memory ran out.
    NoMemory,
}

const READ_SHARED: Opcode = Opcode::Req(RequestOpcode::ReadShared);

const READ_ONCE: Opcode = Opcode::Req(RequestOpcode::ReadOnce);

const READ_RECEIPT: Opcode = Opcode::Rsp(ResponseOpcode::ReadReceipt);

const READ_UNIQUE: Opcode = Opcode::Req(RequestOpcode::ReadUnique);

const ATOMIC_LOAD: Opcode = Opcode::Req(RequestOpcode::AtomicLoad);

const SNP_SHARED: Opcode = Opcode::Snp(SnoopOpcode::SnpShared);

const COMP_DATA: Opcode = Opcode::Dat(DataOpcode::CompData);

const SNP_RESP_DATA: Opcode = Opcode::Dat(DataOpcode::SnpRespData);

const COMP_ACK: Opcode = Opcode::Rsp(ResponseOpcode::CompAck);

const I: Option<Resp> = Some(Resp::I);

const I_PD: Option<Resp> = Some(Resp::IPD);

const SC: Option<Resp> = Some(Resp::SC);

const UC: Option<Resp> = Some(Resp::UC);

/// Two reads, with a snoop whose data come in beats, and an id that isn't open; then a home that gives away what it hasn't got back, and
/// an opcode that the rules haven't, of another line; then a ReadOnce with a receipt and a CompAck, which tell nothing of copies.
#[rattlefmt::skip]
const ROWS: [Row; 18] = [
    (READ_UNIQUE,   8, 64, 1, Some(0x1040), None,       None, 0,    0, Wanted::Judged(1)),
    (COMP_DATA,     64, 8, 1, None,         Some(0x11), UC,   0xff, 7, Wanted::Judged(1)),
    (COMP_ACK,      8, 64, 0x11, None,      None,       None, 0,    0, Wanted::Judged(1)),
    (READ_SHARED,   9, 64, 1, Some(0x1040), None,       None, 0,    0, Wanted::Judged(1)),
    (SNP_SHARED,    64, 8, 2, Some(0x1040), None,       None, 0,    0, Wanted::Judged(1)),
    (SNP_RESP_DATA, 8, 64, 2, None,         None,       I_PD, 0x0f, 9, Wanted::Judged(0)),
    (COMP_DATA,     64, 9, 1, None,         Some(0x12), SC,   0x0f, 9, Wanted::Judged(0)),
    (COMP_ACK,      9, 64, 0x13, None,      None,       None, 0,    0, Wanted::Ids(Reason::NotOpen)),
    (SNP_RESP_DATA, 8, 64, 2, None,         None,       I_PD, 0xf0, 9, Wanted::Judged(1)),
    (COMP_DATA,     64, 9, 1, None,         Some(0x12), SC,   0xf0, 9, Wanted::Judged(1)),
    (COMP_ACK,      9, 64, 0x12, None,      None,       None, 0,    0, Wanted::Judged(1)),
    (READ_UNIQUE,   8, 64, 1, Some(0x1040), None,       None, 0,    0, Wanted::Judged(1)),
    (COMP_DATA,     64, 8, 1, None,         Some(0x11), UC,   0xff, 9, Wanted::Fault(13)),
    (ATOMIC_LOAD,   8, 64, 3, Some(0x1080), None,       None, 0,    0, Wanted::Unjudged(1)),
    (READ_ONCE,     9, 64, 4, Some(0x10c0), None,       None, 0,    0, Wanted::Judged(1)),
    (READ_RECEIPT,  64, 9, 4, None,         None,       None, 0,    0, Wanted::Judged(1)),
    (COMP_DATA,     64, 9, 4, None,         Some(0x21), I,    0xff, 7, Wanted::Judged(1)),
    (COMP_ACK,      9, 64, 0x21, None,      None,       None, 0,    0, Wanted::Judged(1)),
];

/// The flit of a row.
fn flit_of(row: &Row) -> Flit {
    let mut flit = Flit::new(row.0, NodeId(row.1), NodeId(row.2), TxnId(row.3));
    if let Some(address) = row.4 {
        flit = flit.with_line(CacheLine::at(address));
    }
    if let Some(dbid) = row.5 {
        flit = flit.with_dbid(DbId(dbid));
    }
    if let Some(resp) = row.6 {
        flit = flit.with_resp(resp);
    }
    flit
}

/// The words of a row.
fn beat_of(row: &Row) -> Beat {
    let mut beat = Beat::NONE;
    for n in 0..8 {
        if row.7 >> n & 1 == 1 {
            beat.put(n, row.8);
        }
    }
    beat
}

/// What comes of a row's flit, with this number.
fn said<A: Allocator + Copy>(watch: &mut Watch<A>, row: &Row, number: u64) -> Wanted {
    match watch.take(&flit_of(row), &beat_of(row), number) {
        Ok(watched) => match watched.done.fault {
            Some(fault) => Wanted::Fault(fault.number),
            None if watched.done.flits.unjudged > 0 => Wanted::Unjudged(
                watched.done.flits.unjudged,
            ),
            None => Wanted::Judged(watched.done.flits.judged),
        },
        Err(WatchStop::Ids(reason)) => Wanted::Ids(reason),
        Err(WatchStop::NoMemory) => Wanted::NoMemory,
    }
}

const SETTINGS: Settings = Settings {
    types: CreditTypes::Any,
    early_grants: false,
    stores: Stores::Hidden,
    start: Start::Empty,
};

#[test]
fn a_trace_is_judged_flit_by_flit(rt: HostRuntime) {
    let mut watch = Watch::new(rt.alloc(), SETTINGS);
    let mut pass = true;
    for n in 0..ROWS.len() {
        pass &= said(&mut watch, &ROWS[n], n as u64 + 1) == ROWS[n].9;
    }
    assert!(rt; pass);
}

#[test]
fn a_load_of_a_line_that_no_flit_has_touched_is_a_fault(rt: HostRuntime) {
    let mut watch = Watch::new(rt.alloc(), SETTINGS);
    let act = Act::Load(Word {
        place: WordNo(0),
        value: 0,
    });
    let done = watch.access(NodeId(8), CacheLine::at(64), act, 1);
    assert!(rt; done.ok().and_then(|done| done.fault).is_some());
}
