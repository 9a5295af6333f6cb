//! A flit that C gives an observer, as a line of a trace.

ghost use Rattle.std.specs.Prelude.{◌≡◌, ◌<◌};
ghost use Rattle.chi_library.specs.SeenFlits.{address_named, asking_flit, beat_at, completion_flit, completion_of, data_at, data_of, dbid_named, flit_at, is_between, is_data, is_request, is_response, is_snoop, is_there, is_unjudged_answer, kind_flit, other_asking_flit, other_at, other_kind_flit, pcrd_at, read_of, request_at, request_fields_at, request_fields_of, request_flit, resp_at, response_at, row_of, seen_of, snoop_fields_at, snoop_flit, transaction_at, unjudged_at, unjudged_reply, unjudged_request, word_at, words_there};

use crate::opcodes::{
    CLEAN_INVALID, CLEAN_SHARED, CLEAN_UNIQUE, COMP, COMP_ACK, COMP_DATA, COMP_DBID_RESP,
    COPY_BACK_WR_DATA, EVICT, LOAD, MAKE_INVALID, MAKE_UNIQUE, NON_COPY_BACK_WR_DATA, OTHER_ANSWER,
    OTHER_REPLY, OTHER_REQUEST, OTHER_SNOOP, PCRD_GRANT, PCRD_RETURN, PREFETCH_TGT, READ_CLEAN,
    READ_NOT_SHARED_DIRTY, READ_ONCE, READ_SHARED, READ_UNIQUE, REQ_LCRD_RETURN, RESP_LCRD_RETURN,
    RETRY_ACK, SNP_CLEAN, SNP_CLEAN_INVALID, SNP_CLEAN_SHARED, SNP_LCRD_RETURN, SNP_MAKE_INVALID,
    SNP_NOT_SHARED_DIRTY, SNP_ONCE, SNP_RESP, SNP_RESP_DATA, SNP_RESP_DATA_FWDED,
    SNP_RESP_DATA_PTL, SNP_RESP_FWDED, SNP_SHARED, SNP_UNIQUE, SNP_UNIQUE_FWD, STORE,
    WRITE_BACK_FULL, WRITE_CLEAN_FULL, WRITE_DATA_CANCEL, WRITE_EVICT_FULL, WRITE_UNIQUE_FULL,
};
use chi_flit::{Data, Kind, Snoop};
use chi_trace::{
    Address, AnyFlit, AnySeen, Beat, DbId, Flit, NodeId, OtherKind, OtherOpcode, OtherSnoop,
    PcrdType, RequestFields, Resp, SnoopFields, Transaction, TxnId,
};

/// An opcode of a design's own: it is in no row.
const OWN: OtherOpcode = OtherOpcode(255);

/// A flit as a monitor sees it, or a load or a store: `ChiSeen` of `chihome.h`. Fields that its opcode hasn't aren't read.
/// `reserved` is padding in C.
/// Source: `docs/LIBRARY.md`, "An observer".
#[repr(C)]
#[derive(Clone, Copy)]
pub struct ChiSeen {
    /// The number of the flit, from 1.
    pub number: u64,
    pub address: u64,
    pub words: Data,
    pub source: u16,
    pub target: u16,
    pub txn: u16,
    pub dbid: u16,
    pub opcode: u8,
    pub resp: u8,
    pub credit: u8,
    pub allow_retry: u8,
    pub has_address: u8,
    pub has_dbid: u8,
    /// The words that a beat has, a bit each.
    pub mask: u8,
    pub reserved: u8,
}

/// The RESP of a number.
fn resp_at(number: u8) -> Option<Resp>
    ensures { result ≡ resp_at number }
{
    match number {
        0 => Some(Resp::I),
        1 => Some(Resp::SC),
        2 => Some(Resp::UC),
        3 => Some(Resp::UD),
        4 => Some(Resp::SD),
        5 => Some(Resp::IPD),
        6 => Some(Resp::SCPD),
        7 => Some(Resp::UCPD),
        8 => Some(Resp::UDPD),
        9 => Some(Resp::SDPD),
        _ => None,
    }
}

/// The credit type of a number.
fn pcrd_at(number: u8) -> Option<PcrdType>
    ensures { result ≡ pcrd_at number }
{
    if number < 16 {
        Some(PcrdType(number))
    } else {
        None
    }
}

/// Whether a beat has a word: that of the bit that is worth so much.
fn is_there(mask: u8, worth: u8) -> bool
    requires { 0 < worth }
    ensures { result ≡ is_there mask worth }
{
    mask / worth % 2 == 1
}

/// A word of a beat; 0 where it hasn't it.
fn word_at(word: u64, there: bool) -> u64
    ensures { result ≡ word_at word there }
{
    if there { word } else { 0 }
}

/// The words that a beat has.
fn words_there(mask: u8) -> [bool; 8]
    ensures { result ≡ words_there mask }
{
    [
        is_there(mask, 1),
        is_there(mask, 2),
        is_there(mask, 4),
        is_there(mask, 8),
        is_there(mask, 16),
        is_there(mask, 32),
        is_there(mask, 64),
        is_there(mask, 128),
    ]
}

/// The beat of a flit; none where it has no word.
fn beat_at(seen: &ChiSeen) -> Option<Beat>
    ensures { result ≡ beat_at seen.now }
{
    if seen.mask == 0 {
        return None;
    }
    let there = words_there(seen.mask);
    let words = [
        word_at(seen.words[0], there[0]),
        word_at(seen.words[1], there[1]),
        word_at(seen.words[2], there[2]),
        word_at(seen.words[3], there[3]),
        word_at(seen.words[4], there[4]),
        word_at(seen.words[5], there[5]),
        word_at(seen.words[6], there[6]),
        word_at(seen.words[7], there[7]),
    ];
    Some(Beat { words, there })
}

/// The address, where it is known.
fn address_named(seen: &ChiSeen) -> Option<Address>
    ensures { result ≡ address_named seen.now }
{
    if seen.has_address == 0 {
        None
    } else {
        Some(Address(seen.address))
    }
}

/// The DBID, where one is named.
fn dbid_named(seen: &ChiSeen) -> Option<DbId>
    ensures { result ≡ dbid_named seen.now }
{
    if seen.has_dbid == 0 {
        None
    } else {
        Some(DbId(seen.dbid))
    }
}

/// What ties a response, or data, to its transaction.
fn transaction_at(seen: &ChiSeen) -> Transaction
    ensures { result ≡ transaction_at seen.now }
{
    Transaction {
        target: NodeId(seen.target),
        txn: TxnId(seen.txn),
        address: address_named(seen),
    }
}

/// What a request has that spends this.
fn request_fields_of(seen: &ChiSeen, spends: Option<PcrdType>) -> RequestFields
    ensures { result ≡ request_fields_of seen.now spends }
{
    RequestFields {
        spends,
        target: NodeId(seen.target),
        txn: TxnId(seen.txn),
        address: Address(seen.address),
    }
}

/// What a request has; none where the type of its credit is none.
fn request_fields_at(seen: &ChiSeen) -> Option<RequestFields>
    ensures { result ≡ request_fields_at seen.now }
{
    if seen.allow_retry == 0 {
        let pcrd = pcrd_at(seen.credit)?;
        Some(request_fields_of(seen, Some(pcrd)))
    } else {
        Some(request_fields_of(seen, None))
    }
}

/// What a snoop has.
fn snoop_fields_at(seen: &ChiSeen) -> SnoopFields
    ensures { result ≡ snoop_fields_at seen.now }
{
    SnoopFields {
        target: NodeId(seen.target),
        txn: TxnId(seen.txn),
        address: Address(seen.address),
    }
}

/// A request of the profile.
fn kind_flit(kind: Kind, fields: RequestFields) -> AnyFlit
    ensures { result ≡ kind_flit kind fields }
{
    AnyFlit::Profile(Flit::Request {
        kind,
        spends: fields.spends,
        target: fields.target,
        txn: fields.txn,
        address: fields.address,
    })
}

/// A request that the profile hasn't.
fn other_kind_flit(kind: OtherKind, fields: RequestFields) -> AnyFlit
    ensures { result ≡ other_kind_flit kind fields }
{
    AnyFlit::Request { kind, fields }
}

/// The request of an opcode with these fields.
fn request_flit(opcode: u8, fields: RequestFields) -> Option<AnyFlit>
    ensures { result ≡ request_flit opcode fields }
{
    match opcode {
        READ_NOT_SHARED_DIRTY => Some(kind_flit(Kind::ReadNotSharedDirty, fields)),
        READ_SHARED => Some(kind_flit(Kind::ReadShared, fields)),
        READ_CLEAN => Some(other_kind_flit(OtherKind::ReadClean, fields)),
        READ_ONCE => Some(other_kind_flit(OtherKind::ReadOnce, fields)),
        READ_UNIQUE => Some(kind_flit(Kind::ReadUnique, fields)),
        CLEAN_UNIQUE => Some(kind_flit(Kind::CleanUnique, fields)),
        MAKE_UNIQUE => Some(other_kind_flit(OtherKind::MakeUnique, fields)),
        CLEAN_SHARED => Some(other_kind_flit(OtherKind::CleanShared, fields)),
        CLEAN_INVALID => Some(other_kind_flit(OtherKind::CleanInvalid, fields)),
        MAKE_INVALID => Some(other_kind_flit(OtherKind::MakeInvalid, fields)),
        EVICT => Some(kind_flit(Kind::Evict, fields)),
        WRITE_BACK_FULL => Some(kind_flit(Kind::WriteBackFull, fields)),
        WRITE_CLEAN_FULL => Some(kind_flit(Kind::WriteCleanFull, fields)),
        WRITE_EVICT_FULL => Some(kind_flit(Kind::WriteEvictFull, fields)),
        WRITE_UNIQUE_FULL => Some(other_kind_flit(OtherKind::WriteUniqueFull, fields)),
        OTHER_REQUEST => Some(AnyFlit::UnknownRequest(OWN, fields)),
        _ => None,
    }
}

/// A request.
fn request_at(seen: &ChiSeen) -> Option<AnyFlit>
    ensures { result ≡ request_at seen.now }
{
    request_flit(seen.opcode, request_fields_at(seen)?)
}

/// A snoop of the profile.
fn asking_flit(snoop: Snoop, fields: SnoopFields) -> AnyFlit
    ensures { result ≡ asking_flit snoop fields }
{
    AnyFlit::Profile(Flit::Snoop {
        snoop,
        target: fields.target,
        txn: fields.txn,
        address: fields.address,
    })
}

/// A snoop that the profile hasn't.
fn other_asking_flit(snoop: OtherSnoop, fields: SnoopFields) -> AnyFlit
    ensures { result ≡ other_asking_flit snoop fields }
{
    AnyFlit::Snoop { snoop, fields }
}

/// The snoop of an opcode with these fields.
fn snoop_flit(opcode: u8, fields: SnoopFields) -> Option<AnyFlit>
    ensures { result ≡ snoop_flit opcode fields }
{
    match opcode {
        SNP_ONCE => Some(other_asking_flit(OtherSnoop::SnpOnce, fields)),
        SNP_CLEAN => Some(other_asking_flit(OtherSnoop::SnpClean, fields)),
        SNP_SHARED => Some(asking_flit(Snoop::SnpShared, fields)),
        SNP_NOT_SHARED_DIRTY => Some(asking_flit(Snoop::SnpNotSharedDirty, fields)),
        SNP_CLEAN_SHARED => Some(other_asking_flit(OtherSnoop::SnpCleanShared, fields)),
        SNP_UNIQUE => Some(asking_flit(Snoop::SnpUnique, fields)),
        SNP_CLEAN_INVALID => Some(asking_flit(Snoop::SnpCleanInvalid, fields)),
        SNP_MAKE_INVALID => Some(other_asking_flit(OtherSnoop::SnpMakeInvalid, fields)),
        OTHER_SNOOP => Some(AnyFlit::UnknownSnoop(OWN, fields)),
        _ => None,
    }
}

/// A Comp with this RESP and DBID.
fn completion_of(resp: Resp, dbid: Option<DbId>, transaction: Transaction) -> AnyFlit
    ensures { result ≡ completion_of resp dbid transaction }
{
    match (resp, dbid) {
        (Resp::UC, Some(dbid)) => AnyFlit::Profile(Flit::CompUC { dbid, transaction }),
        (Resp::UC, None) => AnyFlit::CompUC { transaction },
        (resp, _) => AnyFlit::Profile(Flit::Comp { resp, transaction }),
    }
}

/// A Comp.
fn completion_flit(seen: &ChiSeen) -> Option<AnyFlit>
    ensures { result ≡ completion_flit seen.now }
{
    let resp = resp_at(seen.resp)?;
    Some(completion_of(resp, dbid_named(seen), transaction_at(seen)))
}

/// A read's data with this DBID.
fn read_of(resp: Resp, dbid: Option<DbId>, transaction: Transaction, beat: Beat) -> AnyFlit
    ensures { result ≡ read_of resp dbid transaction beat }
{
    match dbid {
        Some(dbid) => AnyFlit::Profile(Flit::CompData {
            resp,
            dbid,
            transaction,
            beat,
        }),
        None => AnyFlit::CompData {
            resp,
            transaction,
            beat,
        },
    }
}

/// The data of an opcode with these fields.
fn data_of(seen: &ChiSeen, resp: Resp, beat: Beat) -> Option<AnyFlit>
    ensures { result ≡ data_of seen.now resp beat }
{
    let transaction = transaction_at(seen);
    match seen.opcode {
        COMP_DATA => Some(read_of(resp, dbid_named(seen), transaction, beat)),
        SNP_RESP_DATA => Some(AnyFlit::Profile(Flit::SnpRespData {
            resp,
            transaction,
            beat,
        })),
        COPY_BACK_WR_DATA => Some(AnyFlit::Profile(Flit::CopyBackWrData {
            resp,
            transaction,
            beat,
        })),
        NON_COPY_BACK_WR_DATA => Some(AnyFlit::NonCopyBackWrData {
            resp,
            transaction,
            beat,
        }),
        _ => None,
    }
}

/// Data, which need a RESP and a word.
fn data_at(seen: &ChiSeen) -> Option<AnyFlit>
    ensures { result ≡ data_at seen.now }
{
    let resp = resp_at(seen.resp)?;
    let beat = beat_at(seen)?;
    data_of(seen, resp, beat)
}

/// A response or a credit; CompDBIDResp needs a DBID.
fn response_at(seen: &ChiSeen) -> Option<AnyFlit>
    ensures { result ≡ response_at seen.now }
{
    let (target, transaction) = (NodeId(seen.target), transaction_at(seen));
    let flit = match seen.opcode {
        PCRD_RETURN => Flit::PCrdReturn {
            pcrd: pcrd_at(seen.credit)?,
            target,
        },
        RETRY_ACK => Flit::RetryAck {
            pcrd: pcrd_at(seen.credit)?,
            transaction,
        },
        COMP => return completion_flit(seen),
        COMP_DBID_RESP => Flit::CompDBIDResp {
            dbid: dbid_named(seen)?,
            transaction,
        },
        PCRD_GRANT => Flit::PCrdGrant {
            pcrd: pcrd_at(seen.credit)?,
            target,
        },
        SNP_RESP => Flit::SnpResp {
            resp: resp_at(seen.resp)?,
            transaction,
        },
        COMP_ACK => Flit::CompAck { transaction },
        _ => return None,
    };
    Some(AnyFlit::Profile(flit))
}

/// A load or a store, or a response or data that have no number here.
fn other_at(seen: &ChiSeen) -> Option<AnyFlit>
    ensures { result ≡ other_at seen.now }
{
    let (address, value) = (Address(seen.address), seen.words[0]);
    match seen.opcode {
        LOAD => Some(AnyFlit::Profile(Flit::Load { address, value })),
        STORE => Some(AnyFlit::Profile(Flit::Store { address, value })),
        OTHER_ANSWER => Some(AnyFlit::UnknownAnswer(OWN, transaction_at(seen))),
        OTHER_REPLY => Some(AnyFlit::UnknownReply(OWN, transaction_at(seen), dbid_named(seen))),
        _ => unjudged_at(seen),
    }
}

/// The row of an opcode in the table of those that aren't judged.
fn row_of(opcode: u8) -> OtherOpcode
    ensures { result ≡ row_of opcode }
{
    OtherOpcode(opcode.saturating_sub(REQ_LCRD_RETURN))
}

/// A request that isn't judged.
fn unjudged_request(seen: &ChiSeen) -> Option<AnyFlit>
    ensures { result ≡ unjudged_request seen.now }
{
    let fields = request_fields_at(seen)?;
    Some(AnyFlit::UnknownRequest(row_of(seen.opcode), fields))
}

/// Whether it is the opcode of an answer to a snoop that isn't judged.
fn is_unjudged_answer(opcode: u8) -> bool
    ensures { result ≡ is_unjudged_answer opcode }
{
    opcode == SNP_RESP_FWDED || (SNP_RESP_DATA_PTL <= opcode && opcode <= SNP_RESP_DATA_FWDED)
}

/// A response or data that aren't judged.
fn unjudged_reply(seen: &ChiSeen) -> AnyFlit
    ensures { result ≡ unjudged_reply seen.now }
{
    let (row, transaction) = (row_of(seen.opcode), transaction_at(seen));
    if is_unjudged_answer(seen.opcode) {
        AnyFlit::UnknownAnswer(row, transaction)
    } else {
        AnyFlit::UnknownReply(row, transaction, dbid_named(seen))
    }
}

/// Whether an opcode is one from the first to the last.
fn is_between(first: u8, last: u8, opcode: u8) -> bool
    ensures { result ≡ is_between first last opcode }
{
    first <= opcode && opcode <= last
}

/// A flit of Issue B that isn't judged.
fn unjudged_at(seen: &ChiSeen) -> Option<AnyFlit>
    ensures { result ≡ unjudged_at seen.now }
{
    if is_between(REQ_LCRD_RETURN, PREFETCH_TGT, seen.opcode) {
        unjudged_request(seen)
    } else if is_between(SNP_LCRD_RETURN, SNP_UNIQUE_FWD, seen.opcode) {
        Some(AnyFlit::UnknownSnoop(row_of(seen.opcode), snoop_fields_at(seen)))
    } else if is_between(RESP_LCRD_RETURN, WRITE_DATA_CANCEL, seen.opcode) {
        Some(unjudged_reply(seen))
    } else {
        None
    }
}

/// Whether it is a request's opcode.
fn is_request(opcode: u8) -> bool
    ensures { result ≡ is_request opcode }
{
    (READ_NOT_SHARED_DIRTY <= opcode && opcode <= WRITE_UNIQUE_FULL) || opcode == OTHER_REQUEST
}

/// Whether it is a snoop's opcode.
fn is_snoop(opcode: u8) -> bool
    ensures { result ≡ is_snoop opcode }
{
    (SNP_ONCE <= opcode && opcode <= SNP_MAKE_INVALID) || opcode == OTHER_SNOOP
}

/// Whether it is the opcode of a response that has no data, or of a credit.
fn is_response(opcode: u8) -> bool
    ensures { result ≡ is_response opcode }
{
    opcode == PCRD_RETURN || (RETRY_ACK <= opcode && opcode <= COMP_ACK)
}

/// Whether it is an opcode of data.
fn is_data(opcode: u8) -> bool
    ensures { result ≡ is_data opcode }
{
    COMP_DATA <= opcode && opcode <= NON_COPY_BACK_WR_DATA
}

/// The flit that C's numbers name; `None` where they name none.
fn flit_at(seen: &ChiSeen) -> Option<AnyFlit>
    ensures { result ≡ flit_at seen.now }
{
    if is_request(seen.opcode) {
        request_at(seen)
    } else if is_snoop(seen.opcode) {
        snoop_flit(seen.opcode, snoop_fields_at(seen))
    } else if is_response(seen.opcode) {
        response_at(seen)
    } else if is_data(seen.opcode) {
        data_at(seen)
    } else {
        other_at(seen)
    }
}

/// The flit of C as a line of a trace: its number is the line's. `None` where a number names none, or a field lacks.
pub(crate) fn seen_at(seen: &ChiSeen) -> Option<AnySeen>
    ensures { result ≡ seen_of seen.now }
{
    if seen.number == 0 {
        return None;
    }
    let flit = flit_at(seen)?;
    Some(AnySeen {
        line: seen.number as usize,
        source: NodeId(seen.source),
        flit,
    })
}
