//! Why the ids or the ledger don't allow a flit.

use crate::ids::OpenKey;
use crate::lines::CacheLine;
use chi_flit::WordNo;
use chi_trace::{Address, NodeId, PcrdType, Resp, TxnId};

/// The first flit that the ids or the ledger don't allow, counted from 0 in the flits that were seen, and why.
/// Source: `docs/TRACES.md`, "Nodes, ids and credits".
#[derive(Clone, Copy, Debug, PartialEq, Eq)]
pub struct IdFault {
    pub at: usize,
    pub reason: IdReason,
}

/// Why the ids or the ledger don't allow a flit.
/// Source: `docs/TRACES.md`, "Nodes, ids and credits".
#[derive(Clone, Copy, Debug, PartialEq, Eq)]
pub enum IdReason {
    /// The RESP, or the form of the data, isn't one that a flit of this opcode has in the profile.
    Form(Resp),
    /// A ninth requester.
    NinthRequester(NodeId),
    /// A node that is a requester here is the home elsewhere, or the other way round.
    BothSides(NodeId),
    /// Another node than this one is the home.
    SecondHome(NodeId),
    /// The flit opens an id that is in use.
    InUse(OpenKey),
    /// The flit names an id that isn't open; of `Retried`: a request without AllowRetry, and none of the
    /// node to the line waits for a credit.
    NotOpen(OpenKey),
    /// The flit frees an id whose data lacks words yet.
    Unfinished(OpenKey),
    /// A flit of the home that it sends once it has the data that frees this id, whose words lack yet.
    Lacking(OpenKey),
    /// The flit's address isn't in the line of its id.
    WrongAddress { named: Address, line: CacheLine },
    /// A later beat of the id's data, with another RESP or DBID than the first.
    OtherBeat(OpenKey),
    /// A later beat of the id's data has this word again.
    WordAgain(OpenKey, WordNo),
    /// A RetryAck of a request without AllowRetry.
    NotRetryable(NodeId, TxnId),
    /// The credit type isn't that of the request: of a RetryAck, that of its kind; of a request without
    /// AllowRetry, that of its RetryAck.
    OtherType { named: PcrdType, wanted: PcrdType },
    /// A credit of the type is granted, and the node has no retried request that waits for a grant: G < R
    /// doesn't hold.
    NothingRetried(NodeId, PcrdType),
    /// A request without AllowRetry, and the node has no credit of the type: G - S - B > 0 doesn't hold.
    NoCredit(NodeId, PcrdType),
    /// A credit of the type is returned, and the node has none, or none that a cancelled request has left:
    /// G - S - B > 0 or C > B doesn't hold.
    NothingToReturn(NodeId, PcrdType),
}
