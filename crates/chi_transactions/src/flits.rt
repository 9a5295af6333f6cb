//! Whose a flit is, and the id that it opens or names.

ghost use Rattle.std.specs.Prelude.{◌≡◌};
ghost use Rattle.chi_transactions.specs.Flits.{account_of, buffer_of, credit_of, home_of, id_of, number_at, pair_of, place_of, requester_of, role};

use crate::entries::Place;
use crate::ids::{Id, packed};
use chi_issue_b::{CacheLine, DbId, Flit, NodeId, PcrdType, Role};

/// What the flit does to ids.
#[inline(always)]
#[tactic(auto, unfolding(crate::specs::Flits::role))]
pub(crate) fn role(flit: &Flit) -> Role
    ensures { result ≡ role flit.now }
{
    flit.opcode.role()
}

/// The requester that the flit is of: the node that sends requests, answers, CompAcks and write data, and that others go to.
/// Source: `docs/TRANSACTIONS.md`, "Ids".
#[inline(always)]
#[tactic(auto, unfolding(crate::specs::Flits::requester_of))]
pub fn requester_of(flit: &Flit) -> NodeId
    ensures { result ≡ requester_of flit.now }
{
    match role(flit) {
        Role::Request
        | Role::CreditReturn
        | Role::Answer
        | Role::Acknowledgement
        | Role::WriteData
        | Role::WriteCancel => flit.source,
        Role::Snoop
        | Role::Retry
        | Role::CreditGrant
        | Role::Completion
        | Role::BufferGrant
        | Role::Receipt
        | Role::NoTransaction => flit.target,
    }
}

/// The home that the flit is of: the other node.
/// Source: `docs/TRANSACTIONS.md`, "Ids".
#[inline(always)]
#[tactic(auto, unfolding(crate::specs::Flits::home_of))]
pub fn home_of(flit: &Flit) -> NodeId
    ensures { result ≡ home_of flit.now }
{
    match role(flit) {
        Role::Request
        | Role::CreditReturn
        | Role::Answer
        | Role::Acknowledgement
        | Role::WriteData
        | Role::WriteCancel => flit.target,
        Role::Snoop
        | Role::Retry
        | Role::CreditGrant
        | Role::Completion
        | Role::BufferGrant
        | Role::Receipt
        | Role::NoTransaction => flit.source,
    }
}

/// The id that the flit opens or names: of a snoop and its answers the snoop's TXN, of CompAck and write data a DBID, and of
/// others a request's TXN.
#[inline(always)]
#[tactic(auto, unfolding(crate::specs::Flits::id_of))]
pub(crate) fn id_of(flit: &Flit) -> Id
    ensures { result ≡ id_of flit.now }
{
    match role(flit) {
        Role::Snoop | Role::Answer => Id::Snoop {
            node: requester_of(flit),
            home: home_of(flit),
            txn: flit.txn,
        },
        Role::Acknowledgement | Role::WriteData | Role::WriteCancel => {
            buffer_of(flit, DbId(flit.txn.0))
        }
        Role::Request
        | Role::CreditReturn
        | Role::Retry
        | Role::CreditGrant
        | Role::Completion
        | Role::BufferGrant
        | Role::Receipt
        | Role::NoTransaction => Id::Request {
            requester: requester_of(flit),
            txn: flit.txn,
        },
    }
}

/// The DBID of this number between the nodes of the flit.
#[inline(always)]
pub(crate) fn buffer_of(flit: &Flit, dbid: DbId) -> Id
    ensures { result ≡ buffer_of flit.now dbid }
{
    Id::Buffer {
        requester: requester_of(flit),
        home: home_of(flit),
        dbid,
    }
}

/// The credit type that the flit names; 0 where it names none.
#[inline(always)]
pub(crate) fn credit_of(flit: &Flit) -> PcrdType
    ensures { result ≡ credit_of flit.now }
{
    flit.credit.unwrap_or(PcrdType(0))
}

/// The number of the id that the flit opens or names.
#[inline(always)]
#[tactic(auto, unfolding(crate::specs::Flits::number_at))]
pub(crate) fn number_at(flit: &Flit) -> u64
    ensures { result ≡ number_at flit.now }
{
    id_of(flit).number()
}

/// The number of the account of the flit's nodes and credit type.
#[inline(always)]
#[tactic(auto, unfolding(crate::specs::Flits::account_of))]
pub(crate) fn account_of(flit: &Flit) -> u64
    ensures { result ≡ account_of flit.now }
{
    packed(
        0,
        requester_of(flit).0,
        home_of(flit).0,
        u16::from(credit_of(flit).0),
    )
}

/// The number of the flit's nodes.
#[inline(always)]
#[tactic(auto, unfolding(crate::specs::Flits::pair_of))]
pub(crate) fn pair_of(flit: &Flit) -> u64
    ensures { result ≡ pair_of flit.now }
{
    packed(0, requester_of(flit).0, home_of(flit).0, 0)
}

/// Where a request of the flit's requester to the line waits.
#[inline(always)]
#[tactic(auto, unfolding(crate::specs::Flits::place_of))]
pub(crate) fn place_of(flit: &Flit, line: CacheLine) -> Place
    ensures { result ≡ place_of flit.now line }
{
    Place {
        requester: requester_of(flit).0,
        line: line.address(),
    }
}
