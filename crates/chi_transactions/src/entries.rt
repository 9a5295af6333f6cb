//! What is kept of ids, of requests that wait for a credit, and of data in beats.

use crate::parts::Parts;
use chi_issue_b::{CacheLine, DbId, NodeId, Opcode, PcrdType, Resp};

/// What is kept of an id. It has 24 bytes.
/// Source: `docs/TRANSACTIONS.md`, "Ids".
#[derive(Clone, Copy, Debug, PartialEq, Eq)]
pub struct OpenId {
    /// The cache line of its request or its snoop.
    pub line: CacheLine,
    /// The number of the trace's line that opened it, counted from 1; 0 of an id from before the trace.
    pub since: u64,
    /// The home of its request or its snoop.
    pub home: NodeId,
    /// The opcode of its request or its snoop.
    pub of: Opcode,
    /// The parts that are left to come by it.
    pub left: Parts,
    /// The parts that will come by the DBID which its home names, until that is opened.
    pub follows: Parts,
    /// Whether a RetryAck may come: of a request with AllowRetry of which nothing has come yet.
    pub retryable: bool,
    /// Whether data have begun to come by it, and words lack.
    pub begun: bool,
}

/// Data that come in beats, and lack words.
/// Source: `docs/TRANSACTIONS.md`, "Data in beats".
#[derive(Clone, Copy, Debug, PartialEq, Eq)]
pub struct Begun {
    /// The opcode of the first beat.
    pub opcode: Opcode,
    /// Its RESP.
    pub resp: Option<Resp>,
    /// Its DBID, where a CompAck has to follow.
    pub dbid: Option<DbId>,
    /// The words that have come, a bit each.
    pub words: u8,
}

/// A request that was retried: what it waits for, to be sent again.
/// Source: `docs/TRANSACTIONS.md`, "Credits".
#[derive(Clone, Copy, Debug, PartialEq, Eq)]
pub struct Waiting {
    /// The home that retried it.
    pub home: NodeId,
    /// The type of credit.
    pub credit: PcrdType,
    /// The opcode of the request.
    pub of: Opcode,
    /// The number of the trace's line that retried it.
    pub since: u64,
}

/// Where a retried request waits: its requester and its cache line, as numbers.
#[derive(Clone, Copy, PartialEq, Eq, Hash)]
pub(crate) struct Place {
    pub requester: u16,
    pub line: u64,
}

/// What the flits so far have shown of the credits of one type between a requester and a home.
/// Source: `docs/TRANSACTIONS.md`, "Credits".
#[derive(Clone, Copy, Debug, PartialEq, Eq)]
pub struct Credits {
    /// RetryAcks.
    pub retried: u64,
    /// PCrdGrants.
    pub granted: u64,
    /// Requests without AllowRetry.
    pub resent: u64,
    /// PCrdReturns.
    pub returned: u64,
}

/// Which types of credit a trace has.
/// Source: `docs/TRANSACTIONS.md`, "Credits".
#[derive(Clone, Copy, Debug, PartialEq, Eq)]
pub enum CreditTypes {
    /// Two: write data have one of their own.
    Two,
    /// Four: shared reads, write data, what takes copies away or cleans them, and Evict.
    Four,
    /// Any, each with any request.
    Any,
}

/// What a trace is taken for.
/// Source: `docs/TRANSACTIONS.md`, "Credits".
#[derive(Clone, Copy, Debug, PartialEq, Eq)]
pub struct Options {
    /// Which types of credit it has.
    pub types: CreditTypes,
    /// Whether a grant may come before its RetryAck, as monitors at the requesters see it.
    pub early_grants: bool,
    /// Whether it is cut out of a longer one, so that flits may name ids from before it.
    pub begins_in_middle: bool,
}

/// Which part of its data a flit is.
/// Source: `docs/TRANSACTIONS.md`, "Data in beats".
#[derive(Clone, Copy, Debug, PartialEq, Eq)]
pub enum Portion {
    /// All, or the flit has none.
    Whole,
    /// The first beat, behind which words lack.
    First,
    /// A later beat, behind which words lack.
    Further,
    /// The beat behind which no word lacks.
    Last,
}

/// What a flit is of.
/// Source: `docs/TRANSACTIONS.md`, "The rule".
#[derive(Clone, Copy, Debug, PartialEq, Eq)]
pub struct Named {
    /// The cache line of the id that it opens or names.
    pub line: CacheLine,
    /// The opcode of the request or the snoop of that id.
    pub of: Opcode,
    /// The number of the trace's line that opened it.
    pub since: u64,
    /// Which part of its data it is.
    pub beat: Portion,
}

/// What is told of a flit that is taken.
/// Source: `docs/TRANSACTIONS.md`, "The rule".
#[derive(Clone, Copy, Debug, PartialEq, Eq)]
pub enum Taken {
    /// It is of a cache line.
    Of(Named),
    /// It names an id from before the trace.
    Before(Portion),
    /// It grants or returns a credit.
    Credit,
    /// It opens and names no id.
    Nothing,
}

/// Why a flit isn't taken: the first of these that is so.
/// Source: `docs/TRANSACTIONS.md`, "Reasons".
#[derive(Clone, Copy, Debug, PartialEq, Eq)]
pub enum Reason {
    /// A request or a snoop has no address.
    NoLine,
    /// The id that it names isn't open.
    NotOpen,
    /// The id is of another home.
    OtherHome,
    /// The id is of another cache line than the flit's address.
    OtherLine,
    /// It ends data of which words lack.
    Unfinished,
    /// What it brings isn't left to come by the id.
    NotLeft,
    /// A RetryAck names a request without AllowRetry, or one of which something has come.
    NotRetryable,
    /// A beat has another opcode, RESP or DBID than the first.
    OtherBeat,
    /// A beat has a word that an earlier one had.
    WordAgain,
    /// It has to name a DBID.
    NoDbid,
    /// The id that it opens is in use.
    InUse,
    /// A request without AllowRetry is sent to a line at which its requester waits for no credit of that home.
    NotWaiting,
    /// It names another credit type than it has to.
    OtherType,
    /// There is no credit to be spent or returned.
    NoCredit,
    /// A credit is granted for which no request waits.
    NothingRetried,
}

/// Why the ids of a trace didn't go on.
/// Source: `docs/TRANSACTIONS.md`, "Reasons".
#[derive(Clone, Copy, Debug, PartialEq, Eq)]
pub enum Stop {
    /// The flit isn't taken, and nothing has changed.
    Refused(Reason),
    /// Memory ran out: what is kept is of no use any more.
    NoMemory,
}
