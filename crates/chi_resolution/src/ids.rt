//! The ids that are open.

ghost use Rattle.std.specs.Prelude.{◌≡◌};
ghost use Rattle.chi_resolution.specs.Ids.{id_of, is_ack_due, is_completed, numbers_of, plain_id};

use crate::lines::CacheLine;
use chi_flit::Kind;
use chi_trace::{DbId, NodeId, PcrdType, TxnId};
use indexmap::IndexMap;
use std::alloc::Allocator;
use std::hash::{BuildHasherDefault, FoldHasher};

/// What an open id is named by. The home isn't named, as there is one.
/// Source: `docs/TRACES.md`, "Nodes, ids and credits".
#[derive(Clone, Copy, Debug, PartialEq, Eq)]
pub enum OpenKey {
    /// A request of the node: opened by its flit; free after RetryAck, Comp, CompData or CompDBIDResp.
    Request(NodeId, TxnId),
    /// What the home keeps for a request of the node: opened by Comp_UC, CompData or CompDBIDResp; free
    /// after CompAck or CopyBackWrData.
    Buffer(NodeId, DbId),
    /// A snoop of the node: opened by its flit; free after SnpResp or SnpRespData.
    Snoop(NodeId, TxnId),
    /// A retried request of the node to the line: opened by RetryAck; free after the request that resends it,
    /// or once it is cancelled, as an answer to a snoop has taken the copy that it needs.
    Retried(NodeId, CacheLine),
}

/// An id that is open.
/// Source: `docs/TRACES.md`, "Nodes, ids and credits".
#[derive(Clone, Copy, Debug, PartialEq, Eq)]
pub struct OpenId {
    pub key: OpenKey,
    pub line: CacheLine,
    /// How many flits, loads and stores were resolved before it was opened.
    pub place: usize,
    /// The kind of a first attempt, and of a request that was retried.
    pub may_retry: Option<Kind>,
    /// The type of credit that a retried request waits for.
    pub waits_for: Option<PcrdType>,
    /// A CompAck is to free it, for which loads and stores of the node at the line wait.
    pub awaits_ack: bool,
}

/// A key as numbers, by which a table finds what it names.
#[derive(Clone, Copy, PartialEq, Eq, Hash)]
pub(crate) struct KeyNumbers {
    /// Which sort of key it is.
    sort: u8,
    node: u16,
    number: u64,
}

/// What is open, each under its key.
pub(crate) type KeyTable<V, A> = IndexMap<KeyNumbers, V, BuildHasherDefault<FoldHasher>, A>;

/// A key as numbers.
pub(crate) fn numbers_of(key: OpenKey) -> KeyNumbers
    ensures { result ≡ numbers_of key }
{
    let (sort, node, number) = match key {
        OpenKey::Request(node, txn) => (0, node, u64::from(txn.0)),
        OpenKey::Buffer(node, dbid) => (1, node, u64::from(dbid.0)),
        OpenKey::Snoop(node, txn) => (2, node, u64::from(txn.0)),
        OpenKey::Retried(node, line) => (3, node, line.0),
    };
    let node = node.0;
    KeyNumbers { sort, node, number }
}

/// The open id that has this key.
pub(crate) fn find_id<A: Allocator>(ids: &KeyTable<OpenId, A>, key: OpenKey) -> Option<OpenId>
    ensures { result ≡ id_of key ids.now.entries }
{
    match ids.get(&numbers_of(key)) {
        Some(id) => Some(*id),
        None => None,
    }
}

/// An open id that no more is known of than its line, and how many flits were resolved before it was opened.
pub(crate) fn plain_id(key: OpenKey, line: CacheLine, place: usize) -> OpenId
    ensures { result ≡ plain_id key line place }
{
    OpenId {
        key,
        line,
        place,
        may_retry: None,
        waits_for: None,
        awaits_ack: false,
    }
}

/// Whether a CompAck of the node at the line is to free the id.
fn is_ack_due(id: &OpenId, node: NodeId, line: CacheLine) -> bool
    ensures { result ≡ is_ack_due node line id.now }
{
    match id.key {
        OpenKey::Buffer(of, _) => of.0 == node.0 && (id.awaits_ack && id.line.0 == line.0),
        OpenKey::Request(_, _) | OpenKey::Snoop(_, _) | OpenKey::Retried(_, _) => false,
    }
}

/// Whether the node has a completion at the line without its CompAck.
pub(crate) fn is_completed<A: Allocator>(
    ids: &KeyTable<OpenId, A>,
    node: NodeId,
    line: CacheLine,
) -> bool
    ensures { result ≡ is_completed node line ids.now.entries }
{
    let ids = ids.values().as_slice();
    ids.iter().any(|id| is_ack_due(id, node, line))
}
