//! A flit that C observed.

ghost use Rattle.std.specs.Prelude.{◌≡◌};
ghost use Rattle.chi_library.specs.Observed.{answered_of, asked_of, observed_message, observed_of, request_if, response_of, retry_if, write_of};

use crate::flits::{ChiFlit, ChiSent};
use crate::messages::{
    COMP_ACK, COMP_DATA_SC, COMP_DATA_UC, COMP_DBID_RESP, COMP_I, COMP_UC, COPY_BACK_WR_DATA_I,
    COPY_BACK_WR_DATA_SC, COPY_BACK_WR_DATA_SD_PD, COPY_BACK_WR_DATA_UC, COPY_BACK_WR_DATA_UD_PD,
    REQUEST, RETRY_ACK, SNP_CLEAN_INVALID, SNP_NOT_SHARED_DIRTY, SNP_RESP_DATA_I_PD,
    SNP_RESP_DATA_SC_PD, SNP_RESP_DATA_SD, SNP_RESP_I, SNP_RESP_SC, SNP_SHARED, SNP_UNIQUE,
};
use chi_explain::SentFlit;
use chi_flit::{
    Agent, CompData, CreditType, DatUp, Kind, Msg, Request, RspDown, RspUp, Slot, Snoop, State,
};

/// A request, which needs a kind; its slot isn't read.
fn request_if(kind: Option<Kind>, flit: &ChiFlit) -> Option<Msg>
    ensures { result ≡ request_if kind flit.now }
{
    let kind = kind?;
    Some(Msg::Req(Request {
        kind,
        slot: Slot(0),
        allow_retry: flit.allow_retry != 0,
    }))
}

/// A RetryAck, which needs a credit type.
fn retry_if(credit: Option<CreditType>) -> Option<Msg>
    ensures { result ≡ retry_if credit }
{
    Some(Msg::RspDown(RspDown::RetryAck(credit?)))
}

/// A request or a snoop.
fn asked_at(flit: &ChiFlit) -> Option<Msg>
    ensures { result ≡ asked_of flit.now }
{
    match flit.message {
        REQUEST => request_if(Kind::numbered(flit.kind), flit),
        SNP_SHARED => Some(Msg::Snp(Snoop::SnpShared)),
        SNP_NOT_SHARED_DIRTY => Some(Msg::Snp(Snoop::SnpNotSharedDirty)),
        SNP_UNIQUE => Some(Msg::Snp(Snoop::SnpUnique)),
        SNP_CLEAN_INVALID => Some(Msg::Snp(Snoop::SnpCleanInvalid)),
        _ => None,
    }
}

/// A response to a requester, or the data of a read.
fn response_at(flit: &ChiFlit) -> Option<Msg>
    ensures { result ≡ response_of flit.now }
{
    let words = flit.words;
    match flit.message {
        RETRY_ACK => retry_if(CreditType::numbered(flit.credit)),
        COMP_UC => Some(Msg::RspDown(RspDown::CompUC)),
        COMP_I => Some(Msg::RspDown(RspDown::CompI)),
        COMP_DBID_RESP => Some(Msg::RspDown(RspDown::CompDBIDResp)),
        COMP_DATA_SC => Some(Msg::DatDown(CompData {
            words,
            unique: false,
        })),
        COMP_DATA_UC => Some(Msg::DatDown(CompData {
            words,
            unique: true,
        })),
        _ => None,
    }
}

/// A response of a requester, with or without data.
fn answer_at(flit: &ChiFlit) -> Option<Msg>
    ensures { result ≡ answered_of flit.now }
{
    match flit.message {
        SNP_RESP_I => Some(Msg::RspUp(RspUp::SnpRespI)),
        SNP_RESP_SC => Some(Msg::RspUp(RspUp::SnpRespSC)),
        COMP_ACK => Some(Msg::RspUp(RspUp::CompAck)),
        SNP_RESP_DATA_I_PD => Some(Msg::DatUp(DatUp::SnpRespDataIPD(flit.words))),
        SNP_RESP_DATA_SC_PD => Some(Msg::DatUp(DatUp::SnpRespDataSCPD(flit.words))),
        SNP_RESP_DATA_SD => Some(Msg::DatUp(DatUp::SnpRespDataSD(flit.words))),
        _ => None,
    }
}

/// Write data.
fn write_at(flit: &ChiFlit) -> Option<Msg>
    ensures { result ≡ write_of flit.now }
{
    match flit.message {
        COPY_BACK_WR_DATA_I => Some(Msg::DatUp(DatUp::CopyBackWrData(State::I, flit.words))),
        COPY_BACK_WR_DATA_SC => Some(Msg::DatUp(DatUp::CopyBackWrData(State::SC, flit.words))),
        COPY_BACK_WR_DATA_UC => Some(Msg::DatUp(DatUp::CopyBackWrData(State::UC, flit.words))),
        COPY_BACK_WR_DATA_UD_PD => Some(Msg::DatUp(DatUp::CopyBackWrData(State::UD, flit.words))),
        COPY_BACK_WR_DATA_SD_PD => Some(Msg::DatUp(DatUp::CopyBackWrData(State::SD, flit.words))),
        _ => None,
    }
}

/// The message that C's numbers name; `None` where they name none.
fn message_at(flit: &ChiFlit) -> Option<Msg>
    ensures { result ≡ observed_message flit.now }
{
    if flit.message < RETRY_ACK {
        asked_at(flit)
    } else if flit.message < SNP_RESP_I {
        response_at(flit)
    } else if flit.message < COPY_BACK_WR_DATA_I {
        answer_at(flit)
    } else {
        write_at(flit)
    }
}

/// The flit that C's numbers name; `None` where they name none. Its channel isn't read.
pub(crate) fn observed_at(sent: &ChiSent) -> Option<SentFlit>
    ensures { result ≡ observed_of sent.now }
{
    let message = message_at(&sent.flit)?;
    Some(SentFlit {
        agent: Agent(sent.agent),
        message,
    })
}
