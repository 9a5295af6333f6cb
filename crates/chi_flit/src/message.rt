//! The messages of the six channels.

ghost use Rattle.std.specs.Prelude.{◌≡◌, Some};
ghost use Rattle.chi_flit.specs.Message.{channel_of, channel_text, data_down_text, data_up_text, message_text, request_text, rsp_down_text, rsp_up_text, write_data_of};

use crate::credit::CreditType;
use crate::kind::Kind;
use crate::numbers::{Data, NO_DATA, Slot};
use crate::snoop::Snoop;
use crate::state::State;
use std::fmt;

/// A channel between requesters and home, with responses and data split by direction
/// (Arm IHI 0050 B, chapter 2).
/// Source: `docs/PROTOCOL.md`, "Messages".
#[derive(Clone, Copy, Debug, PartialEq, Eq)]
pub enum Channel {
    /// Requests, to the home.
    Req,
    /// Snoops, to the requester.
    Snp,
    /// Responses without data, to the requester.
    RspDown,
    /// Responses with data, to the requester.
    DatDown,
    /// Responses without data, to the home.
    RspUp,
    /// Responses with data, to the home.
    DatUp,
}

/// A request in flight.
/// Source: `docs/PROTOCOL.md`, "Messages".
#[derive(Clone, Copy, Debug, PartialEq, Eq)]
pub struct Request {
    pub kind: Kind,
    pub slot: Slot,
    /// The standard's AllowRetry: true on a first attempt, false where it is resent with a credit.
    pub allow_retry: bool,
}

/// A response without data to a requester.
/// Source: `docs/PROTOCOL.md`, "Messages".
#[derive(Clone, Copy, Debug, PartialEq, Eq)]
pub enum RspDown {
    /// No entry was free: resend with a credit of this type.
    RetryAck(CreditType),
    /// The copy may become unique.
    CompUC,
    /// The eviction is done.
    CompI,
    /// Send the write data.
    CompDBIDResp,
}

/// The data of a read: `CompData_UC` where `unique`, else `CompData_SC`.
/// Source: `docs/PROTOCOL.md`, "Messages".
#[derive(Clone, Copy, Debug, PartialEq, Eq)]
pub struct CompData {
    pub words: Data,
    pub unique: bool,
}

/// A response without data to the home.
/// Source: `docs/PROTOCOL.md`, "Messages".
#[derive(Clone, Copy, Debug, PartialEq, Eq)]
pub enum RspUp {
    SnpRespI,
    SnpRespSC,
    CompAck,
}

/// A response with data to the home.
/// Source: `docs/PROTOCOL.md`, "Messages".
#[derive(Clone, Copy, Debug, PartialEq, Eq)]
pub enum DatUp {
    /// `SnpRespData_I_PD`: dirty data, and no copy is left.
    SnpRespDataIPD(Data),
    /// `SnpRespData_SC_PD`: dirty data, and a clean copy is left.
    SnpRespDataSCPD(Data),
    /// `SnpRespData_SD`: data, and the sender stays responsible for it.
    SnpRespDataSD(Data),
    /// Write data, in the form of its sender's state: `CopyBackWrData_UD_PD` for `UD`,
    /// `CopyBackWrData_SD_PD` for `SD`, `CopyBackWrData_I`, `_SC` and `_UC` for the others.
    CopyBackWrData(State, Data),
}

/// A message of any channel.
/// Source: `docs/PROTOCOL.md`, "Messages".
#[derive(Clone, Copy, Debug, PartialEq, Eq)]
pub enum Msg {
    Req(Request),
    Snp(Snoop),
    RspDown(RspDown),
    DatDown(CompData),
    RspUp(RspUp),
    DatUp(DatUp),
}

impl Msg {
    /// The one channel that the message travels on.
    /// Source: `docs/PROTOCOL.md`, "Messages".
    pub fn channel(&self) -> Channel
        ensures { result ≡ channel_of self.now }
    {
        match self {
            Msg::Req(_) => Channel::Req,
            Msg::Snp(_) => Channel::Snp,
            Msg::RspDown(_) => Channel::RspDown,
            Msg::DatDown(_) => Channel::DatDown,
            Msg::RspUp(_) => Channel::RspUp,
            Msg::DatUp(_) => Channel::DatUp,
        }
    }
}

/// The write data that a copy in `state` with the data `words` sends: in the form of its state, with those
/// words, or with 0 in each where there is no copy.
/// Source: `docs/PROTOCOL.md`, "Write data".
pub fn write_data(state: State, words: Data) -> DatUp
    ensures { result ≡ write_data_of state words }
{
    match state {
        State::I => DatUp::CopyBackWrData(State::I, NO_DATA),
        State::SC | State::UC | State::UD | State::SD => DatUp::CopyBackWrData(state, words),
    }
}

impl Channel {
    /// The channel's name.
    fn name(self) -> &'static str
        ensures { result.now ≡ channel_text self }
    {
        match self {
            Channel::Req => "Req",
            Channel::Snp => "Snp",
            Channel::RspDown => "RspDown",
            Channel::DatDown => "DatDown",
            Channel::RspUp => "RspUp",
            Channel::DatUp => "DatUp",
        }
    }
}

impl fmt::Display for Channel {
    ghost output = { λ channel. Some (channel_text channel) };

    fn fmt<W: fmt::Write>(&self, f: &mut fmt::Formatter<W>) -> fmt::Result {
        f.write_str(self.name())
    }
}

impl fmt::Display for Request {
    ghost output = { λ request. Some (request_text request) };

    fn fmt<W: fmt::Write>(&self, f: &mut fmt::Formatter<W>) -> fmt::Result {
        let kind = self.kind;
        let slot = self.slot;
        if self.allow_retry {
            write!(f, "{kind}/{slot}/allow")
        } else {
            write!(f, "{kind}/{slot}/credit")
        }
    }
}

impl fmt::Display for RspDown {
    ghost output = { λ response. Some (rsp_down_text response) };

    fn fmt<W: fmt::Write>(&self, f: &mut fmt::Formatter<W>) -> fmt::Result {
        match self {
            RspDown::RetryAck(ty) => write!(f, "RetryAck/{ty}"),
            RspDown::CompUC => write!(f, "Comp_UC"),
            RspDown::CompI => write!(f, "Comp_I"),
            RspDown::CompDBIDResp => write!(f, "CompDBIDResp"),
        }
    }
}

impl fmt::Display for CompData {
    ghost output = { λ response. Some (data_down_text response) };

    fn fmt<W: fmt::Write>(&self, f: &mut fmt::Formatter<W>) -> fmt::Result {
        f.write_str(if self.unique {
            "CompData_UC"
        } else {
            "CompData_SC"
        })
    }
}

impl fmt::Display for RspUp {
    ghost output = { λ response. Some (rsp_up_text response) };

    fn fmt<W: fmt::Write>(&self, f: &mut fmt::Formatter<W>) -> fmt::Result {
        f.write_str(match self {
            RspUp::SnpRespI => "SnpResp_I",
            RspUp::SnpRespSC => "SnpResp_SC",
            RspUp::CompAck => "CompAck",
        })
    }
}

impl fmt::Display for DatUp {
    ghost output = { λ response. Some (data_up_text response) };

    fn fmt<W: fmt::Write>(&self, f: &mut fmt::Formatter<W>) -> fmt::Result {
        f.write_str(match self {
            DatUp::SnpRespDataIPD(_) => "SnpRespData_I_PD",
            DatUp::SnpRespDataSCPD(_) => "SnpRespData_SC_PD",
            DatUp::SnpRespDataSD(_) => "SnpRespData_SD",
            DatUp::CopyBackWrData(State::I, _) => "CopyBackWrData_I",
            DatUp::CopyBackWrData(State::SC, _) => "CopyBackWrData_SC",
            DatUp::CopyBackWrData(State::UC, _) => "CopyBackWrData_UC",
            DatUp::CopyBackWrData(State::UD, _) => "CopyBackWrData_UD_PD",
            DatUp::CopyBackWrData(State::SD, _) => "CopyBackWrData_SD_PD",
        })
    }
}

impl fmt::Display for Msg {
    ghost output = { λ message. Some (message_text message) };

    fn fmt<W: fmt::Write>(&self, f: &mut fmt::Formatter<W>) -> fmt::Result {
        match self {
            Msg::Req(request) => write!(f, "{request}"),
            Msg::Snp(snoop) => write!(f, "{snoop}"),
            Msg::RspDown(response) => write!(f, "{response}"),
            Msg::DatDown(response) => write!(f, "{response}"),
            Msg::RspUp(response) => write!(f, "{response}"),
            Msg::DatUp(response) => write!(f, "{response}"),
        }
    }
}
