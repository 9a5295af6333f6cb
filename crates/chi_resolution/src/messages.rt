//! The messages of the protocol that flits are.

ghost use Rattle.std.specs.Prelude.{◌≡◌};
ghost use Rattle.chi_resolution.specs.Messages.{answer_form, completion_response, is_same_resp, message_of, read_data_of, snoop_data_of, state_of};

use crate::data_flits::DataSort;
use chi_flit::{CompData, DatUp, Data, Msg, RspDown, RspUp, State};
use chi_trace::Resp;

/// A Comp of this form that no CompAck follows.
pub(crate) fn completion(resp: Resp) -> Option<RspDown>
    ensures { result ≡ completion_response resp }
{
    match resp {
        Resp::I => Some(RspDown::CompI),
        Resp::SC
        | Resp::UC
        | Resp::UD
        | Resp::SD
        | Resp::IPD
        | Resp::SCPD
        | Resp::UCPD
        | Resp::UDPD
        | Resp::SDPD => None,
    }
}

/// A SnpResp of this form.
pub(crate) fn answer(resp: Resp) -> Option<RspUp>
    ensures { result ≡ answer_form resp }
{
    match resp {
        Resp::I => Some(RspUp::SnpRespI),
        Resp::SC => Some(RspUp::SnpRespSC),
        Resp::UC
        | Resp::UD
        | Resp::SD
        | Resp::IPD
        | Resp::SCPD
        | Resp::UCPD
        | Resp::UDPD
        | Resp::SDPD => None,
    }
}

/// The message of data in this form and with these words.
pub(crate) fn message_with(sort: DataSort, resp: Resp, words: Data) -> Option<Msg>
    ensures { result ≡ message_of sort resp words }
{
    match sort {
        DataSort::Read(_) => Some(Msg::DatDown(read_data(resp, words)?)),
        DataSort::Snooped => Some(Msg::DatUp(snoop_data(resp, words)?)),
        DataSort::Written => Some(Msg::DatUp(DatUp::CopyBackWrData(form(resp)?, words))),
    }
}

/// A CompData of this form.
fn read_data(resp: Resp, words: Data) -> Option<CompData>
    ensures { result ≡ read_data_of resp words }
{
    let unique = match resp {
        Resp::UC => true,
        Resp::SC => false,
        Resp::I
        | Resp::UD
        | Resp::SD
        | Resp::IPD
        | Resp::SCPD
        | Resp::UCPD
        | Resp::UDPD
        | Resp::SDPD => return None,
    };
    Some(CompData { words, unique })
}

/// A SnpRespData of this form.
fn snoop_data(resp: Resp, words: Data) -> Option<DatUp>
    ensures { result ≡ snoop_data_of resp words }
{
    match resp {
        Resp::IPD => Some(DatUp::SnpRespDataIPD(words)),
        Resp::SCPD => Some(DatUp::SnpRespDataSCPD(words)),
        Resp::SD => Some(DatUp::SnpRespDataSD(words)),
        Resp::I | Resp::SC | Resp::UC | Resp::UD | Resp::UCPD | Resp::UDPD | Resp::SDPD => None,
    }
}

/// The state whose form of CopyBackWrData this is.
fn form(resp: Resp) -> Option<State>
    ensures { result ≡ state_of resp }
{
    match resp {
        Resp::I => Some(State::I),
        Resp::SC => Some(State::SC),
        Resp::UC => Some(State::UC),
        Resp::UDPD => Some(State::UD),
        Resp::SDPD => Some(State::SD),
        Resp::UD | Resp::SD | Resp::IPD | Resp::SCPD | Resp::UCPD => None,
    }
}

/// Whether two RESPs are the same.
pub(crate) fn is_same_resp(one: Resp, other: Resp) -> bool
    ensures { result ≡ is_same_resp one other }
{
    matches!(
        (one, other),
        (Resp::I, Resp::I)
            | (Resp::SC, Resp::SC)
            | (Resp::UC, Resp::UC)
            | (Resp::UD, Resp::UD)
            | (Resp::SD, Resp::SD)
            | (Resp::IPD, Resp::IPD)
            | (Resp::SCPD, Resp::SCPD)
            | (Resp::UCPD, Resp::UCPD)
            | (Resp::UDPD, Resp::UDPD)
            | (Resp::SDPD, Resp::SDPD)
    )
}
