//! What is asked of states, messages and what is served, one mark each.

ghost use Rattle.std.specs.Prelude.{◌≡◌, ◌↔◌, ◌≤◌, IsTrue};
ghost use Rattle.chi_filter.specs.Filter.{owned_by};
ghost use Rattle.chi_homeline.specs.Home.{acks_for, served_kind, writes_for};
ghost use Rattle.chi_line.specs.Keeping.{IsOneOfThree, IsOneOfTwo};
ghost use Rattle.chi_line.specs.Kept.{bit, is_answer, is_comp_unique, is_shared_dirty, is_snoop_data, is_unique_dirty, snoop_out, snoops_for};
ghost use Rattle.chi_line.specs.Step.{is_ack, is_dbid, is_write_data};

use chi_flit::{Agent, DatUp, Kind, RspDown, RspUp, Snoop, State};
use chi_homeline::Serving;

/// 1 for true: several marks are counted.
pub(crate) fn bit(mark: bool) -> u8
    ensures count { result ≡ bit mark }
    ensures limit { result ≤ 1 }
{
    if mark { 1 } else { 0 }
}

/// Whether exactly one of three is there where it is wanted, and none where not.
pub(crate) fn is_one_of_three(first: bool, second: bool, third: bool, wanted: bool) -> bool
    ensures { IsTrue result ↔ IsOneOfThree first second third wanted }
{
    bit(first) + bit(second) + bit(third) == bit(wanted)
}

/// Whether exactly one of two is there where it is wanted, and none where not.
pub(crate) fn is_one_of_two(first: bool, second: bool, wanted: bool) -> bool
    ensures { IsTrue result ↔ IsOneOfTwo first second wanted }
{
    bit(first) + bit(second) == bit(wanted)
}

/// Whether the state is SD.
pub(crate) fn is_shared_dirty(state: State) -> bool
    ensures { result ≡ is_shared_dirty state }
{
    matches!(state, State::SD)
}

/// Whether the state is UD.
pub(crate) fn is_unique_dirty(state: State) -> bool
    ensures { result ≡ is_unique_dirty state }
{
    matches!(state, State::UD)
}

/// Whether a response is Comp_UC.
pub(crate) fn is_comp_unique(response: Option<RspDown>) -> bool
    ensures { result ≡ is_comp_unique response }
{
    matches!(response, Some(RspDown::CompUC))
}

/// Whether a response is CompDBIDResp.
pub(crate) fn is_dbid(response: Option<RspDown>) -> bool
    ensures { result ≡ is_dbid response }
{
    matches!(response, Some(RspDown::CompDBIDResp))
}

/// Whether a response is CompAck.
pub(crate) fn is_ack(response: Option<RspUp>) -> bool
    ensures { result ≡ is_ack response }
{
    matches!(response, Some(RspUp::CompAck))
}

/// Whether a response is an answer to a snoop.
pub(crate) fn is_answer(response: Option<RspUp>) -> bool
    ensures { result ≡ is_answer response }
{
    matches!(response, Some(RspUp::SnpRespI | RspUp::SnpRespSC))
}

/// Whether data is write data.
pub(crate) fn is_write_data(sent: Option<DatUp>) -> bool
    ensures { result ≡ is_write_data sent }
{
    matches!(sent, Some(DatUp::CopyBackWrData(..)))
}

/// Whether data is an answer to a snoop.
pub(crate) fn is_snoop_data(sent: Option<DatUp>) -> bool
    ensures { result ≡ is_snoop_data sent }
{
    match sent {
        Some(DatUp::CopyBackWrData(..)) | None => false,
        Some(DatUp::SnpRespDataIPD(_) | DatUp::SnpRespDataSCPD(_) | DatUp::SnpRespDataSD(_)) =>
            true,
    }
}

/// Whether the agent is the owner.
pub(crate) fn owned_by(owner: Option<Agent>, agent: u8) -> bool
    ensures { result ≡ owned_by owner agent }
{
    match owner {
        Some(owner) => owner.0 == agent,
        None => false,
    }
}

/// Whether snoops are out for the agent's request.
pub(crate) fn snoops_for(serving: Serving, agent: u8) -> bool
    ensures { result ≡ snoops_for serving agent }
{
    match serving {
        Serving::Snooping { agent: served, .. } => served.0 == agent,
        _ => false,
    }
}

/// Whether the agent's CompAck is awaited.
pub(crate) fn acks_for(serving: Serving, agent: u8) -> bool
    ensures { result ≡ acks_for serving agent }
{
    match serving {
        Serving::AwaitingCompAck { agent: served, .. } => served.0 == agent,
        _ => false,
    }
}

/// Whether the agent's write data is awaited.
pub(crate) fn writes_for(serving: Serving, agent: u8) -> bool
    ensures { result ≡ writes_for serving agent }
{
    match serving {
        Serving::AwaitingWriteData { agent: served, .. } => served.0 == agent,
        _ => false,
    }
}

/// The kind of the request that is served, until it completes.
pub(crate) fn served_kind(serving: Serving) -> Option<Kind>
    ensures { result ≡ served_kind serving }
{
    match serving {
        Serving::Snooping { kind, .. } | Serving::AwaitingWriteData { kind, .. } => Some(kind),
        Serving::AwaitingCompAck { .. } | Serving::Idle => None,
    }
}

/// The snoop whose answers are awaited.
pub(crate) fn snoop_out(serving: Serving) -> Option<Snoop>
    ensures { result ≡ snoop_out serving }
{
    match serving {
        Serving::Snooping { kind, .. } => kind.snoop(),
        _ => None,
    }
}
