//! What a flit of Issue B is to the rules of a line.

ghost use Rattle.std.specs.Prelude.{◌≡◌, ◌&&◌};
ghost use Rattle.std.specs.List.{find};
ghost use Rattle.std.specs.Option.{option_map};
ghost use Rattle.chi_watch.specs.Flits.{data_meaning, fits_resp, is_acknowledged, is_data_row, is_response_row, meaning_of, request_meaning, response_meaning, response_row, snoop_meaning, told_by, told_of};

use crate::told::{Cause, Told};
use chi_flit::{Agent, Data, State};
use chi_issue_b::{DataOpcode, Opcode, RequestOpcode, Resp, ResponseOpcode, SnoopOpcode};
use chi_observer::{Act, Answer, CacheFlit, Flit, Grant, HomeFlit, Kind, Snoop};

/// What a flit is to the rules of a line.
#[derive(Clone, Copy, Debug, PartialEq, Eq)]
pub(crate) enum Meaning {
    /// A cache sends it.
    Sent(Act),
    /// The home does.
    Given(Grant),
    /// A part of a transaction that tells nothing of copies.
    Nothing,
}

/// The opcode of a response without data, its RESP where the flit has one that counts, and what that is.
pub(crate) type ResponseRow = (ResponseOpcode, Option<Resp>, Meaning);

/// The opcode of data, their RESP, and what that is.
pub(crate) type DataRow = (DataOpcode, Option<Resp>, Meaning);

/// The kind of each request that the rules have, and whether its CompAck ends what it does to copies. In the order of [`RequestOpcode`].
#[rattlefmt::skip]
pub(crate) static REQUESTS: [(RequestOpcode, Option<Kind>, bool); 35] = [
    (RequestOpcode::ReqLCrdReturn,        None,                          false),
    (RequestOpcode::ReadShared,           Some(Kind::ReadShared),        true),
    (RequestOpcode::ReadClean,            Some(Kind::ReadClean),         true),
    (RequestOpcode::ReadOnce,             Some(Kind::ReadOnce),          false),
    (RequestOpcode::ReadNoSnp,            None,                          false),
    (RequestOpcode::PCrdReturn,           None,                          false),
    (RequestOpcode::ReadUnique,           Some(Kind::ReadUnique),        true),
    (RequestOpcode::CleanShared,          Some(Kind::CleanShared),       false),
    (RequestOpcode::CleanInvalid,         Some(Kind::CleanInvalid),      false),
    (RequestOpcode::MakeInvalid,          Some(Kind::MakeInvalid),       false),
    (RequestOpcode::CleanUnique,          Some(Kind::CleanUnique),       true),
    (RequestOpcode::MakeUnique,           Some(Kind::MakeUnique),        true),
    (RequestOpcode::Evict,                Some(Kind::Evict),             false),
    (RequestOpcode::DVMOp,                None,                          false),
    (RequestOpcode::WriteEvictFull,       Some(Kind::WriteEvictFull),    false),
    (RequestOpcode::WriteCleanFull,       Some(Kind::WriteCleanFull),    false),
    (RequestOpcode::WriteUniquePtl,       None,                          false),
    (RequestOpcode::WriteUniqueFull,      Some(Kind::WriteUniqueFull),   false),
    (RequestOpcode::WriteBackPtl,         None,                          false),
    (RequestOpcode::WriteBackFull,        Some(Kind::WriteBackFull),     false),
    (RequestOpcode::WriteNoSnpPtl,        None,                          false),
    (RequestOpcode::WriteNoSnpFull,       None,                          false),
    (RequestOpcode::WriteUniqueFullStash, None,                          false),
    (RequestOpcode::WriteUniquePtlStash,  None,                          false),
    (RequestOpcode::StashOnceShared,      None,                          false),
    (RequestOpcode::StashOnceUnique,      None,                          false),
    (RequestOpcode::ReadOnceCleanInvalid, None,                          false),
    (RequestOpcode::ReadOnceMakeInvalid,  None,                          false),
    (RequestOpcode::ReadNotSharedDirty,   Some(Kind::ReadNotSharedDirty),true),
    (RequestOpcode::CleanSharedPersist,   None,                          false),
    (RequestOpcode::AtomicStore,          None,                          false),
    (RequestOpcode::AtomicLoad,           None,                          false),
    (RequestOpcode::AtomicSwap,           None,                          false),
    (RequestOpcode::AtomicCompare,        None,                          false),
    (RequestOpcode::PrefetchTgt,          None,                          false),
];

/// Each snoop that the rules have. In the order of [`SnoopOpcode`].
#[rattlefmt::skip]
pub(crate) static SNOOPS: [(SnoopOpcode, Option<Snoop>); 19] = [
    (SnoopOpcode::SnpLCrdReturn,        None),
    (SnoopOpcode::SnpShared,            Some(Snoop::SnpShared)),
    (SnoopOpcode::SnpClean,             Some(Snoop::SnpClean)),
    (SnoopOpcode::SnpOnce,              Some(Snoop::SnpOnce)),
    (SnoopOpcode::SnpNotSharedDirty,    Some(Snoop::SnpNotSharedDirty)),
    (SnoopOpcode::SnpUniqueStash,       None),
    (SnoopOpcode::SnpMakeInvalidStash,  None),
    (SnoopOpcode::SnpUnique,            Some(Snoop::SnpUnique)),
    (SnoopOpcode::SnpCleanShared,       Some(Snoop::SnpCleanShared)),
    (SnoopOpcode::SnpCleanInvalid,      Some(Snoop::SnpCleanInvalid)),
    (SnoopOpcode::SnpMakeInvalid,       Some(Snoop::SnpMakeInvalid)),
    (SnoopOpcode::SnpStashUnique,       None),
    (SnoopOpcode::SnpStashShared,       None),
    (SnoopOpcode::SnpDVMOp,             None),
    (SnoopOpcode::SnpSharedFwd,         None),
    (SnoopOpcode::SnpCleanFwd,          None),
    (SnoopOpcode::SnpOnceFwd,           None),
    (SnoopOpcode::SnpNotSharedDirtyFwd, None),
    (SnoopOpcode::SnpUniqueFwd,         None),
];

/// The responses without data that the rules have.
#[rattlefmt::skip]
pub(crate) static RESPONSES: [ResponseRow; 10] = [
    (ResponseOpcode::CompAck,      None,           Meaning::Sent(Act::CompAck)),
    (ResponseOpcode::SnpResp,      Some(Resp::I),  Meaning::Sent(Act::SnpResp(Answer::SnpRespI))),
    (ResponseOpcode::SnpResp,      Some(Resp::SC), Meaning::Sent(Act::SnpResp(Answer::SnpRespSC))),
    (ResponseOpcode::SnpResp,      Some(Resp::UC), Meaning::Sent(Act::SnpResp(Answer::SnpRespUC))),
    (ResponseOpcode::CompDBIDResp, None,           Meaning::Given(Grant::CompDBIDResp)),
    (ResponseOpcode::Comp,         Some(Resp::UC), Meaning::Given(Grant::CompUC)),
    (ResponseOpcode::Comp,         Some(Resp::SC), Meaning::Given(Grant::CompSC)),
    (ResponseOpcode::Comp,         Some(Resp::I),  Meaning::Given(Grant::CompI)),
    (ResponseOpcode::RetryAck,     None,           Meaning::Given(Grant::RetryAck)),
    (ResponseOpcode::ReadReceipt,  None,           Meaning::Nothing),
];

/// The data that the rules have.
#[rattlefmt::skip]
pub(crate) static DATA_FLITS: [DataRow; 19] = [
    (DataOpcode::CompData,          Some(Resp::UC),   Meaning::Given(Grant::CompData(State::UC))),
    (DataOpcode::CompData,          Some(Resp::SC),   Meaning::Given(Grant::CompData(State::SC))),
    (DataOpcode::CompData,          Some(Resp::UDPD), Meaning::Given(Grant::CompData(State::UD))),
    (DataOpcode::CompData,          Some(Resp::SDPD), Meaning::Given(Grant::CompData(State::SD))),
    (DataOpcode::CompData,          Some(Resp::I),    Meaning::Given(Grant::CompData(State::I))),
    (DataOpcode::SnpRespData,       Some(Resp::I),    Meaning::Sent(Act::SnpResp(Answer::SnpRespDataI))),
    (DataOpcode::SnpRespData,       Some(Resp::SC),   Meaning::Sent(Act::SnpResp(Answer::SnpRespDataSC))),
    (DataOpcode::SnpRespData,       Some(Resp::UC),   Meaning::Sent(Act::SnpResp(Answer::SnpRespDataUC))),
    (DataOpcode::SnpRespData,       Some(Resp::UD),   Meaning::Sent(Act::SnpResp(Answer::SnpRespDataUD))),
    (DataOpcode::SnpRespData,       Some(Resp::SD),   Meaning::Sent(Act::SnpResp(Answer::SnpRespDataSD))),
    (DataOpcode::SnpRespData,       Some(Resp::IPD),  Meaning::Sent(Act::SnpResp(Answer::SnpRespDataIPD))),
    (DataOpcode::SnpRespData,       Some(Resp::SCPD), Meaning::Sent(Act::SnpResp(Answer::SnpRespDataSCPD))),
    (DataOpcode::SnpRespData,       Some(Resp::UCPD), Meaning::Sent(Act::SnpResp(Answer::SnpRespDataUCPD))),
    (DataOpcode::CopyBackWrData,    Some(Resp::UDPD), Meaning::Sent(Act::CopyBackWrData(State::UD))),
    (DataOpcode::CopyBackWrData,    Some(Resp::SDPD), Meaning::Sent(Act::CopyBackWrData(State::SD))),
    (DataOpcode::CopyBackWrData,    Some(Resp::UC),   Meaning::Sent(Act::CopyBackWrData(State::UC))),
    (DataOpcode::CopyBackWrData,    Some(Resp::SC),   Meaning::Sent(Act::CopyBackWrData(State::SC))),
    (DataOpcode::CopyBackWrData,    Some(Resp::I),    Meaning::Sent(Act::CopyBackWrData(State::I))),
    (DataOpcode::NonCopyBackWrData, Some(Resp::I),    Meaning::Sent(Act::NonCopyBackWrData)),
];

/// What a request is, of a kind if it has one.
fn request_meaning(opcode: RequestOpcode, allows_retry: bool) -> Option<Meaning>
    ensures { result ≡ request_meaning opcode allows_retry }
{
    let kind = REQUESTS[opcode as usize].1?;
    if allows_retry {
        Some(Meaning::Sent(Act::Request(kind)))
    } else {
        Some(Meaning::Sent(Act::Resend(kind)))
    }
}

/// What a snoop is.
fn snoop_meaning(opcode: SnoopOpcode) -> Option<Meaning>
    ensures { result ≡ snoop_meaning opcode }
{
    let snoop = SNOOPS[opcode as usize].1?;
    Some(Meaning::Given(Grant::Snp(snoop)))
}

/// Whether a flit with this RESP has the one that a row names, if it names one.
fn fits_resp(wanted: Option<Resp>, resp: Option<Resp>) -> bool
    ensures { result ≡ fits_resp wanted resp }
{
    match (wanted, resp) {
        (None, _) => true,
        (Some(wanted), Some(resp)) => wanted as u8 == resp as u8,
        (Some(_), None) => false,
    }
}

/// Whether a row is of such a response.
fn is_response_row(row: &ResponseRow, opcode: ResponseOpcode, resp: Option<Resp>) -> bool
    ensures { result ≡ is_response_row opcode resp row.now }
{
    let fits = fits_resp(row.1, resp);
    row.0 as u8 == opcode as u8 && fits
}

/// Whether the CompAck of a request or a snoop of this opcode ends what that does to copies.
fn is_acknowledged(of: Opcode) -> bool
    ensures { result ≡ is_acknowledged of }
{
    match of {
        Opcode::Req(opcode) => REQUESTS[opcode as usize].2,
        Opcode::Snp(_) | Opcode::Rsp(_) | Opcode::Dat(_) => true,
    }
}

/// What a response is, to a request or a snoop of this opcode.
fn response_meaning(opcode: ResponseOpcode, resp: Option<Resp>, of: Opcode) -> Option<Meaning>
    ensures { result ≡ response_meaning opcode resp of }
{
    if matches!(opcode, ResponseOpcode::CompAck) && !is_acknowledged(of) {
        return Some(Meaning::Nothing);
    }
    response_row(opcode, resp)
}

/// What a response is by its row.
fn response_row(opcode: ResponseOpcode, resp: Option<Resp>) -> Option<Meaning>
    ensures { result ≡ response_row opcode resp }
{
    let row = RESPONSES
        .iter()
        .find(|row| is_response_row(row, opcode, resp))?;
    Some(row.2)
}

/// Whether a row is of such data.
fn is_data_row(row: &DataRow, opcode: DataOpcode, resp: Option<Resp>) -> bool
    ensures { result ≡ is_data_row opcode resp row.now }
{
    let fits = fits_resp(row.1, resp);
    row.0 as u8 == opcode as u8 && fits
}

/// What data are.
fn data_meaning(opcode: DataOpcode, resp: Option<Resp>) -> Option<Meaning>
    ensures { result ≡ data_meaning opcode resp }
{
    let row = DATA_FLITS
        .iter()
        .find(|row| is_data_row(row, opcode, resp))?;
    Some(row.2)
}

/// What a flit of a transaction of this opcode is; `None` where the rules have no row for its opcode and RESP.
fn meaning_of(flit: &chi_issue_b::Flit, of: Opcode) -> Option<Meaning>
    ensures { result ≡ meaning_of flit.now of }
{
    match flit.opcode {
        Opcode::Req(opcode) => request_meaning(opcode, flit.allows_retry()),
        Opcode::Snp(opcode) => snoop_meaning(opcode),
        Opcode::Rsp(opcode) => response_meaning(opcode, flit.resp, of),
        Opcode::Dat(opcode) => data_meaning(opcode, flit.resp),
    }
}

/// What a line is told of by a flit of an agent that means this, with these words.
fn told_by(meaning: Meaning, agent: Agent, words: &Data) -> Told
    ensures { result ≡ told_by meaning agent words.now }
{
    match meaning {
        Meaning::Sent(act) => Told::Flit(Flit::Up(CacheFlit {
            agent,
            act,
            shown: *words,
        })),
        Meaning::Given(grant) => Told::Flit(Flit::Down(HomeFlit {
            agent,
            grant,
            shown: *words,
        })),
        Meaning::Nothing => Told::Nothing,
    }
}

/// What a line is told of by a flit with these words: of a transaction whose request or snoop has this opcode, and of the agent that its
/// requester is, if it is one.
/// Source: `docs/WATCH.md`, "What a line is told".
pub fn told_of(flit: &chi_issue_b::Flit, of: Opcode, agent: Option<Agent>, words: &Data) -> Told
    ensures { result ≡ told_of flit.now of agent words.now }
{
    let Some(meaning) = meaning_of(flit, of) else {
        return Told::Unjudged(Cause::Opcode(flit.opcode));
    };
    match agent {
        Some(agent) => told_by(meaning, agent, words),
        None => Told::Unjudged(Cause::Node),
    }
}
