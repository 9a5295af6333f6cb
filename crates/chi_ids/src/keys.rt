//! The keys of open ids.

ghost use Rattle.std.specs.Prelude.{◌≡◌};
ghost use Rattle.chi_ids.specs.Keys.{is_alike, numbers_of, sides_of};

use chi_trace::{DbId, NodeId, TxnId};

/// A line of memory: an address divided by the 64 bytes of a line.
/// Source: `docs/TRACES.md`, "Traces".
#[derive(Clone, Copy, Debug, PartialEq, Eq)]
pub struct CacheLine(pub u64);

/// The two nodes that a flit is between.
/// Source: `docs/OBSERVER.md`, "Ids and credits".
#[derive(Clone, Copy, Debug, PartialEq, Eq)]
pub struct Sides {
    pub requester: NodeId,
    pub home: NodeId,
}

/// What an open id is named by.
/// Source: `docs/OBSERVER.md`, "Ids and credits".
#[derive(Clone, Copy, Debug, PartialEq, Eq)]
pub enum IdKey {
    /// A request: from its flit to RetryAck, Comp, CompData or CompDBIDResp.
    Request(Sides, TxnId),
    /// What the home keeps for a request: from Comp_UC, CompData or CompDBIDResp to CompAck or write data.
    Buffer(Sides, DbId),
    /// A snoop: from its flit to SnpResp or SnpRespData.
    Snoop(Sides, TxnId),
    /// A request to the line that was retried: from its RetryAck to the requester's next request to the line.
    Retried(Sides, CacheLine),
}

/// A key as numbers, by which a table finds what it names: of two keys they are the same where the keys are.
/// Source: `docs/OBSERVER.md`, "Ids and credits".
#[derive(Clone, Copy, PartialEq, Eq, Hash)]
pub struct KeyNumbers {
    /// Which sort of key it is: 0 of a request, 1 of a buffer, 2 of a snoop, 3 of a retried request.
    pub sort: u8,
    pub home: u16,
    pub requester: u16,
    /// The TXN or the DBID, or the number of a retried request's line.
    pub number: u64,
}

/// A key as numbers. Each key has its own.
/// Source: `docs/OBSERVER.md`, "Ids and credits".
pub fn numbers_of(key: IdKey) -> KeyNumbers
    ensures { result ≡ numbers_of key }
{
    let (sort, sides, number) = match key {
        IdKey::Request(sides, txn) => (0, sides, u64::from(txn.0)),
        IdKey::Buffer(sides, dbid) => (1, sides, u64::from(dbid.0)),
        IdKey::Snoop(sides, txn) => (2, sides, u64::from(txn.0)),
        IdKey::Retried(sides, line) => (3, sides, line.0),
    };
    KeyNumbers {
        sort,
        home: sides.home.0,
        requester: sides.requester.0,
        number,
    }
}

/// The two nodes of a key.
/// Source: `docs/OBSERVER.md`, "Ids and credits".
pub fn sides_of(key: IdKey) -> Sides
    ensures { result ≡ sides_of key }
{
    match key {
        IdKey::Request(sides, _) => sides,
        IdKey::Buffer(sides, _) => sides,
        IdKey::Snoop(sides, _) => sides,
        IdKey::Retried(sides, _) => sides,
    }
}

/// Whether a key is another one but for its home.
/// Source: `docs/OBSERVER.md`, "Ids and credits".
pub fn is_alike(key: IdKey, other: IdKey) -> bool
    ensures { result ≡ is_alike key other }
{
    let (one, other) = (numbers_of(key), numbers_of(other));
    one.sort == other.sort && (one.requester == other.requester && one.number == other.number)
}
