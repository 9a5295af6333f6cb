//! Whether the completions of an agent's requests are as every line keeps them.

ghost use Rattle.std.specs.Prelude.{◌≡◌, ◌↔◌, IsTrue};
ghost use Rattle.chi_homeline.specs.Home.{served_slot};
ghost use Rattle.chi_line.specs.Keeping.{AwaitedKept, CompletionsKept, IsApart, ReadDataKept, ReadKept, Reads, ResponseKept, lane_in};
ghost use Rattle.chi_line.specs.Kept.{is_read};

use crate::kept::lane::{AgentLane, HomeTerms};
use crate::kept::marks::{
    acks_for, is_ack, is_comp_unique, is_dbid, is_one_of_three, is_one_of_two, is_write_data,
    served_kind, writes_for,
};
use crate::kept::requests::{is_pending_as, is_pending_kind, is_pending_slot};
use crate::position::served_slot;
use chi_flit::{CompData, Data, Kind, RspDown, Slot};
use chi_homeline::Serving;
use chi_rnline::Pending;

/// Whether the completions of the agent's requests are as every line keeps them.
pub(crate) fn are_completions_kept(at: &AgentLane, home: &HomeTerms, agent: u8) -> bool
    ensures { IsTrue result
        ↔ CompletionsKept home.now.serving home.now.unique home.now.last agent (lane_in at.now) }
{
    is_response_kept(at, home) && is_read_kept(at, home) && is_awaited_kept(at, home.serving, agent)
}

/// Whether one of what asks for a CompAck or write data and itself is on its way while it is awaited, and
/// is of another request than what is pending.
fn is_awaited_kept(at: &AgentLane, serving: Serving, agent: u8) -> bool
    ensures { IsTrue result ↔ AwaitedKept serving agent (lane_in at.now) }
{
    let (flits, slot) = (&at.flits, served_slot(serving));
    let (acked, written) = (is_ack(flits.rsp_up), is_write_data(flits.dat_up));
    let (read, unique) = (flits.dat_down.is_some(), is_comp_unique(flits.rsp_down));
    let (acks, writes) = (acks_for(serving, agent), writes_for(serving, agent));
    is_one_of_three(read, unique, acked, acks)
        && is_one_of_two(is_dbid(flits.rsp_down), written, writes)
        && is_apart(acked, at.pending, slot)
        && is_apart(written, at.pending, slot)
}

/// Whether a response on its way to the agent belongs to what is pending.
fn is_response_kept(at: &AgentLane, home: &HomeTerms) -> bool
    ensures { IsTrue result
        ↔ ResponseKept home.now.unique at.now.named home.now.serving at.now.flits.rsp_down at.now.pending }
{
    let (kind, slot) = (served_kind(home.serving), served_slot(home.serving));
    match at.flits.rsp_down {
        Some(RspDown::CompDBIDResp) => is_pending_as(at.pending, kind, slot),
        Some(RspDown::CompUC) => {
            home.unique && at.named && is_pending_as(at.pending, Some(Kind::CleanUnique), slot)
        }
        Some(RspDown::CompI) => is_pending_kind(at.pending, Some(Kind::Evict)),
        Some(RspDown::RetryAck(_)) | None => true,
    }
}

/// Whether data on its way to the agent belongs to a read that is pending, and is what was last stored.
fn is_read_kept(at: &AgentLane, home: &HomeTerms) -> bool
    ensures { IsTrue result
        ↔ ReadKept home.now.unique (served_slot home.now.serving) home.now.last (lane_in at.now) }
{
    match at.flits.dat_down {
        Some(sent) => {
            reads(at.pending)
                && is_pending_slot(at.pending, served_slot(home.serving))
                && !at.state.is_valid()
                && at.named
                && is_data_kept(sent, home.unique, &home.last)
        }
        None => true,
    }
}

/// Whether the request that is pending, if there is one, is a read.
fn reads(pending: Option<Pending>) -> bool
    ensures { IsTrue result ↔ Reads pending }
{
    match pending {
        Some(request) => is_read(request.kind),
        None => true,
    }
}

/// Whether a kind is a read's.
fn is_read(kind: Kind) -> bool
    ensures { result ≡ is_read kind }
{
    matches!(
        kind,
        Kind::ReadNotSharedDirty | Kind::ReadShared | Kind::ReadUnique
    )
}

/// Whether the data of a read is what was last stored, and flagged where its copy will be the only one.
fn is_data_kept(sent: CompData, unique: bool, last: &Data) -> bool
    ensures { IsTrue result ↔ ReadDataKept unique last.now sent }
{
    sent.words == *last && (!sent.unique || unique)
}

/// Whether a slot isn't that of what is pending, where something is there.
fn is_apart(there: bool, pending: Option<Pending>, slot: Option<Slot>) -> bool
    ensures { IsTrue result ↔ IsApart there pending slot }
{
    !there || !is_pending_slot(pending, slot)
}
