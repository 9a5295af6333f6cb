//! Why a flit isn't taken.

use chi_ids::{CacheLine, IdKey, Sides};
use chi_observer::Reason;
use chi_trace::{NodeId, PcrdType, Resp};

/// Why the ids or the credits don't allow a flit.
/// Source: `docs/OBSERVER.md`, "Ids and credits".
#[derive(Clone, Copy, Debug, PartialEq, Eq)]
pub enum IdReason {
    /// The flit opens an id that is in use.
    InUse(IdKey),
    /// The flit names an id that isn't open; of `Retried`: a request without AllowRetry, and none of its requester to the
    /// line waits for a credit.
    NotOpen(IdKey),
    /// The flit frees an id whose data lacks words yet.
    Unfinished(IdKey),
    /// A later beat of the id's data has a word again.
    WordAgain(IdKey),
    /// A later beat of the id's data has another form than the first, or names another DBID where CompAck follows.
    OtherBeat(IdKey),
    /// The flit's address is in the first line, and its id is of the other.
    WrongAddress { named: CacheLine, line: CacheLine },
    /// A RetryAck of a request without AllowRetry, or of what is no request.
    NotRetryable(IdKey),
    /// The credit type isn't that of the request: of a RetryAck, that of its kind; of a request without AllowRetry, that
    /// of its RetryAck.
    OtherType { named: PcrdType, wanted: PcrdType },
    /// A credit of the type is granted, and no retried request waits for a grant.
    NothingRetried(Sides, PcrdType),
    /// A request without AllowRetry, or a returned credit, and there is no credit of the type.
    NoCredit(Sides, PcrdType),
    /// A completion of this request names no DBID, and a CompAck or write data are to name it.
    NoDbid(IdKey),
    /// No flit of the opcode has this RESP.
    Form(Resp),
}

/// Why a line doesn't take a flit.
/// Source: `docs/OBSERVER.md`, "Faults".
#[derive(Clone, Copy, Debug, PartialEq, Eq)]
pub enum LineReason {
    /// Another node is the line's home.
    OtherHome(NodeId),
    /// A rule of the line's observer.
    Rule(Reason),
}
