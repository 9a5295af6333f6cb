//! What transactions consist of: a row of each opcode.

ghost use Rattle.std.specs.Prelude.{◌≡◌};
ghost use Rattle.chi_transactions.specs.Rows.{beside, brings, data_row, expects_of, follows_of, may_lack, dbid_use, names_buffer, request_row, response_row, rest_of, row_beside, rows_beside, type_of};

use crate::entries::CreditTypes;
use crate::parts::{ANSWER, BUFFER, COMP_ACK, COMPLETION, Parts, READ_DATA, RECEIPT, WRITE_DATA};
use chi_issue_b::{DataOpcode, Opcode, RequestOpcode, Resp, ResponseOpcode};

/// Where a flit of an opcode names a DBID, which is opened then if something follows by it.
#[derive(Clone, Copy, Debug, PartialEq, Eq)]
pub(crate) enum DbidUse {
    /// Nowhere.
    Never,
    /// Where its RESP is UC.
    OfUnique,
    /// Always.
    Always,
}

/// A request's opcode. The parts that it expects; those that follow by the DBID; and which of both need not come, as another
/// field of the request decides. Its credit type, where there are two and where there are four.
pub(crate) type RequestRow = (RequestOpcode, u8, u8, u8, u8, u8);

/// The opcode of a response without data, the parts that it brings, and where it names a DBID.
pub(crate) type ResponseRow = (ResponseOpcode, u8, DbidUse);

/// The opcode of data, the parts that they bring, and where they name a DBID.
pub(crate) type DataRow = (DataOpcode, u8, DbidUse);

/// What requests expect. In the order of [`RequestOpcode`].
#[rattlefmt::skip]
pub(crate) static REQUESTS: [RequestRow; 35] = [
    (RequestOpcode::ReqLCrdReturn,        0,                      0,                     0,                  0, 0),
    (RequestOpcode::ReadShared,           READ_DATA,              COMP_ACK,              0,                  0, 0),
    (RequestOpcode::ReadClean,            READ_DATA,              COMP_ACK,              0,                  0, 0),
    (RequestOpcode::ReadOnce,             READ_DATA | RECEIPT,    COMP_ACK,              RECEIPT | COMP_ACK, 0, 0),
    (RequestOpcode::ReadNoSnp,            READ_DATA | RECEIPT,    COMP_ACK,              RECEIPT | COMP_ACK, 0, 0),
    (RequestOpcode::PCrdReturn,           0,                      0,                     0,                  0, 0),
    (RequestOpcode::ReadUnique,           READ_DATA,              COMP_ACK,              0,                  0, 2),
    (RequestOpcode::CleanShared,          COMPLETION,             0,                     0,                  0, 2),
    (RequestOpcode::CleanInvalid,         COMPLETION,             0,                     0,                  0, 2),
    (RequestOpcode::MakeInvalid,          COMPLETION,             0,                     0,                  0, 2),
    (RequestOpcode::CleanUnique,          COMPLETION,             COMP_ACK,              0,                  0, 2),
    (RequestOpcode::MakeUnique,           COMPLETION,             COMP_ACK,              0,                  0, 2),
    (RequestOpcode::Evict,                COMPLETION,             0,                     0,                  0, 3),
    (RequestOpcode::DVMOp,                COMPLETION | BUFFER,    WRITE_DATA,            0,                  1, 1),
    (RequestOpcode::WriteEvictFull,       COMPLETION | BUFFER,    WRITE_DATA,            0,                  1, 1),
    (RequestOpcode::WriteCleanFull,       COMPLETION | BUFFER,    WRITE_DATA,            0,                  1, 1),
    (RequestOpcode::WriteUniquePtl,       COMPLETION | BUFFER,    WRITE_DATA | COMP_ACK, COMP_ACK,           1, 1),
    (RequestOpcode::WriteUniqueFull,      COMPLETION | BUFFER,    WRITE_DATA | COMP_ACK, COMP_ACK,           1, 1),
    (RequestOpcode::WriteBackPtl,         COMPLETION | BUFFER,    WRITE_DATA,            0,                  1, 1),
    (RequestOpcode::WriteBackFull,        COMPLETION | BUFFER,    WRITE_DATA,            0,                  1, 1),
    (RequestOpcode::WriteNoSnpPtl,        COMPLETION | BUFFER,    WRITE_DATA,            0,                  1, 1),
    (RequestOpcode::WriteNoSnpFull,       COMPLETION | BUFFER,    WRITE_DATA,            0,                  1, 1),
    (RequestOpcode::WriteUniqueFullStash, COMPLETION | BUFFER,    WRITE_DATA | COMP_ACK, COMP_ACK,           1, 1),
    (RequestOpcode::WriteUniquePtlStash,  COMPLETION | BUFFER,    WRITE_DATA | COMP_ACK, COMP_ACK,           1, 1),
    (RequestOpcode::StashOnceShared,      COMPLETION,             0,                     0,                  0, 2),
    (RequestOpcode::StashOnceUnique,      COMPLETION,             0,                     0,                  0, 2),
    (RequestOpcode::ReadOnceCleanInvalid, READ_DATA | RECEIPT,    COMP_ACK,              RECEIPT | COMP_ACK, 0, 0),
    (RequestOpcode::ReadOnceMakeInvalid,  READ_DATA | RECEIPT,    COMP_ACK,              RECEIPT | COMP_ACK, 0, 0),
    (RequestOpcode::ReadNotSharedDirty,   READ_DATA,              COMP_ACK,              0,                  0, 0),
    (RequestOpcode::CleanSharedPersist,   COMPLETION,             0,                     0,                  0, 2),
    (RequestOpcode::AtomicStore,          COMPLETION | BUFFER,    WRITE_DATA,            0,                  1, 1),
    (RequestOpcode::AtomicLoad,           READ_DATA | BUFFER,     WRITE_DATA,            0,                  1, 1),
    (RequestOpcode::AtomicSwap,           READ_DATA | BUFFER,     WRITE_DATA,            0,                  1, 1),
    (RequestOpcode::AtomicCompare,        READ_DATA | BUFFER,     WRITE_DATA,            0,                  1, 1),
    (RequestOpcode::PrefetchTgt,          0,                      0,                     0,                  0, 0),
];

/// What responses without data bring, and where they name a DBID. In the order of [`ResponseOpcode`].
#[rattlefmt::skip]
pub(crate) static RESPONSES: [ResponseRow; 10] = [
    (ResponseOpcode::RespLCrdReturn, 0,                   DbidUse::Never),
    (ResponseOpcode::SnpResp,        ANSWER,              DbidUse::Never),
    (ResponseOpcode::CompAck,        COMP_ACK,            DbidUse::Never),
    (ResponseOpcode::RetryAck,       0,                   DbidUse::Never),
    (ResponseOpcode::Comp,           COMPLETION,          DbidUse::OfUnique),
    (ResponseOpcode::CompDBIDResp,   COMPLETION | BUFFER, DbidUse::Always),
    (ResponseOpcode::DBIDResp,       BUFFER,              DbidUse::Always),
    (ResponseOpcode::PCrdGrant,      0,                   DbidUse::Never),
    (ResponseOpcode::ReadReceipt,    RECEIPT,             DbidUse::Never),
    (ResponseOpcode::SnpRespFwded,   ANSWER,              DbidUse::Never),
];

/// What data bring, and where they name a DBID. In the order of [`DataOpcode`].
#[rattlefmt::skip]
pub(crate) static DATA_FLITS: [DataRow; 8] = [
    (DataOpcode::DataLCrdReturn,    0,          DbidUse::Never),
    (DataOpcode::SnpRespData,       ANSWER,     DbidUse::Never),
    (DataOpcode::CopyBackWrData,    WRITE_DATA, DbidUse::Never),
    (DataOpcode::NonCopyBackWrData, WRITE_DATA, DbidUse::Never),
    (DataOpcode::CompData,          READ_DATA,  DbidUse::Always),
    (DataOpcode::SnpRespDataPtl,    ANSWER,     DbidUse::Never),
    (DataOpcode::SnpRespDataFwded,  ANSWER,     DbidUse::Never),
    (DataOpcode::WriteDataCancel,   WRITE_DATA, DbidUse::Never),
];

/// The row of a request's opcode.
#[inline(always)]
#[tactic(auto, unfolding(crate::specs::Rows::request_row))]
fn request_row(opcode: RequestOpcode) -> &'static RequestRow
    ensures { result.now ≡ request_row opcode }
{
    &REQUESTS[opcode as usize]
}

/// The row of the opcode of a response without data.
#[inline(always)]
#[tactic(auto, unfolding(crate::specs::Rows::response_row))]
fn response_row(opcode: ResponseOpcode) -> &'static ResponseRow
    ensures { result.now ≡ response_row opcode }
{
    &RESPONSES[opcode as usize]
}

/// The row of the opcode of data.
#[inline(always)]
#[tactic(auto, unfolding(crate::specs::Rows::data_row))]
fn data_row(opcode: DataOpcode) -> &'static DataRow
    ensures { result.now ≡ data_row opcode }
{
    &DATA_FLITS[opcode as usize]
}

/// The parts that a request expects; none of other flits.
#[inline(always)]
pub(crate) fn expects_of(opcode: Opcode) -> Parts
    ensures { result ≡ expects_of opcode }
{
    match opcode {
        Opcode::Req(kind) => Parts {
            bits: request_row(kind).1,
        },
        Opcode::Snp(_) | Opcode::Rsp(_) | Opcode::Dat(_) => Parts::NONE,
    }
}

/// The parts that follow by the DBID of a request; none of other flits.
#[inline(always)]
pub(crate) fn follows_of(opcode: Opcode) -> Parts
    ensures { result ≡ follows_of opcode }
{
    match opcode {
        Opcode::Req(kind) => Parts {
            bits: request_row(kind).2,
        },
        Opcode::Snp(_) | Opcode::Rsp(_) | Opcode::Dat(_) => Parts::NONE,
    }
}

/// Which parts of a request's need not come, and none of a snoop's.
#[inline(always)]
pub(crate) fn may_lack(opcode: Opcode) -> Parts
    ensures { result ≡ may_lack opcode }
{
    match opcode {
        Opcode::Req(kind) => Parts {
            bits: request_row(kind).3,
        },
        Opcode::Snp(_) | Opcode::Rsp(_) | Opcode::Dat(_) => Parts::NONE,
    }
}

/// The credit type of a request's opcode; `None` where it may be any.
#[inline(always)]
pub(crate) fn type_of(types: CreditTypes, opcode: Opcode) -> Option<u8>
    ensures { result ≡ type_of types opcode }
{
    match (types, opcode) {
        (CreditTypes::Two, Opcode::Req(kind)) => Some(request_row(kind).4),
        (CreditTypes::Four, Opcode::Req(kind)) => Some(request_row(kind).5),
        _ => None,
    }
}

/// The parts that a flit of the opcode brings.
#[inline(always)]
pub(crate) fn brings(opcode: Opcode) -> Parts
    ensures { result ≡ brings opcode }
{
    match opcode {
        Opcode::Rsp(kind) => Parts {
            bits: response_row(kind).1,
        },
        Opcode::Dat(kind) => Parts {
            bits: data_row(kind).1,
        },
        Opcode::Req(_) | Opcode::Snp(_) => Parts::NONE,
    }
}

/// Where a flit of the opcode names a DBID.
#[inline(always)]
fn dbid_use(opcode: Opcode) -> DbidUse
    ensures { result ≡ dbid_use opcode }
{
    match opcode {
        Opcode::Rsp(kind) => response_row(kind).2,
        Opcode::Dat(kind) => data_row(kind).2,
        Opcode::Req(_) | Opcode::Snp(_) => DbidUse::Never,
    }
}

/// Whether a flit of this opcode and this RESP names a DBID, which is opened then if something follows by it.
#[inline(always)]
pub(crate) fn names_buffer(opcode: Opcode, resp: Option<Resp>) -> bool
    ensures { result ≡ names_buffer opcode resp }
{
    match dbid_use(opcode) {
        DbidUse::Never => false,
        DbidUse::OfUnique => matches!(resp, Some(Resp::UC)),
        DbidUse::Always => true,
    }
}

/// The parts of a row's that are beside those that have come, if all of these are among them.
fn rest_of(came: Parts, all: Parts) -> Parts
    ensures { result ≡ rest_of came all }
{
    if all.has(came) {
        all.without(came)
    } else {
        Parts::NONE
    }
}

/// The parts that a request has beside those that have come.
fn row_beside(came: Parts, row: &RequestRow) -> Parts
    ensures { result ≡ row_beside came row.now }
{
    rest_of(came, Parts { bits: row.1 }).either(rest_of(came, Parts { bits: row.2 }))
}

/// The parts that some request of these rows has beside those that have come.
fn rows_beside(came: Parts, rows: &[RequestRow]) -> Parts
    ensures { result ≡ rows_beside came rows.now }
{
    let mut parts = Parts::NONE;
    for row in rows {
        parts = parts.either(row_beside(came, row));
    }
    parts
}

/// The parts that some request has beside those that have come.
#[tactic(auto, unfolding(crate::specs::Rows::beside))]
pub(crate) fn beside(came: Parts) -> Parts
    ensures { result ≡ beside came }
{
    rows_beside(came, &REQUESTS)
}
