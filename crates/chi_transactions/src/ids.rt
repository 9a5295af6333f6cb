//! The ids that flits name.

ghost use Rattle.std.specs.Prelude.{◌≡◌, ◌<◌};
ghost use Rattle.chi_transactions.specs.Ids.{id_numbered, last_field, number_of, packed};

use chi_issue_b::{DbId, NodeId, TxnId};

/// An id: whose it is, and its TXN or its DBID.
/// Source: `docs/TRANSACTIONS.md`, "Ids".
#[derive(Clone, Copy, Debug, PartialEq, Eq)]
pub enum Id {
    /// The TXN of a request, which its requester chose.
    Request {
        requester: NodeId,
        txn: TxnId,
    },
    /// The TXN of a snoop, which its home chose.
    Snoop {
        node: NodeId,
        home: NodeId,
        txn: TxnId,
    },
    /// The DBID that a home has given a requester.
    Buffer {
        requester: NodeId,
        home: NodeId,
        dbid: DbId,
    },
}

impl Id {
    /// The number by which tables know it. No two ids have the same.
    #[inline(always)]
    #[tactic(auto, unfolding(crate::specs::Ids::number_of))]
    pub(crate) fn number(self) -> u64
        ensures { result ≡ number_of self }
    {
        let (sort, node, home, id) = match self {
            Id::Request { requester, txn } => (0, requester.0, 0, txn.0),
            Id::Snoop { node, home, txn } => (1, node.0, home.0, txn.0),
            Id::Buffer {
                requester,
                home,
                dbid,
            } => (2, requester.0, home.0, dbid.0),
        };
        packed(sort, node, home, id)
    }

    /// The id that has this number, if one has.
    #[tactic(auto, unfolding(crate::specs::Ids::id_numbered))]
    pub(crate) fn numbered(number: u64) -> Id
        ensures { result ≡ id_numbered number }
    {
        let before = number / 65_536;
        let (id, home) = (last_field(number), NodeId(last_field(before)));
        let node = NodeId(last_field(before / 65_536));
        match before / 65_536 / 65_536 {
            0 => Id::Request {
                requester: node,
                txn: TxnId(id),
            },
            1 => Id::Snoop {
                node,
                home,
                txn: TxnId(id),
            },
            _ => Id::Buffer {
                requester: node,
                home,
                dbid: DbId(id),
            },
        }
    }
}

/// The lowest sixteen bits of a number.
pub(crate) fn last_field(number: u64) -> u16
    ensures { result ≡ last_field number }
{
    (number % 65_536) as u16
}

/// The number of these parts.
#[inline(always)]
#[tactic(auto, unfolding(crate::specs::Ids::packed))]
pub(crate) fn packed(sort: u64, node: u16, home: u16, id: u16) -> u64
    requires { sort < 65536 }
    ensures { result ≡ packed sort node home id }
{
    ((sort * 65_536 + u64::from(node)) * 65_536 + u64::from(home)) * 65_536 + u64::from(id)
}
