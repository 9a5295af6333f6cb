//! The flits in flight in C's words.

ghost use Rattle.std.specs.Prelude.{◌≡◌, Some, length, option_map};
ghost use Rattle.chi_flit.specs.declared.message.Msg.TheVariants as messages;
ghost use Rattle.chi_slice.specs.Words.{cell_of, channel_number, flit, flit_of};
ghost use Rattle.chi_library.specs.Standing.{data_sent, opened_sent, read_data, told_or};
ghost use Rattle.chi_library.specs.Flits.{dat_down_message, dat_up_told, flit_told, flits_told, no_flit, request_told, response_told, rsp_up_message, sent_told, snoop_message, write_message};

use crate::messages::{
    COMP_ACK, COMP_DATA_SC, COMP_DATA_UC, COMP_DBID_RESP, COMP_I, COMP_UC, COPY_BACK_WR_DATA_I,
    COPY_BACK_WR_DATA_SC, COPY_BACK_WR_DATA_SD_PD, COPY_BACK_WR_DATA_UC, COPY_BACK_WR_DATA_UD_PD,
    NO_MESSAGE, REQUEST, RETRY_ACK, SNP_CLEAN_INVALID, SNP_NOT_SHARED_DIRTY, SNP_RESP_DATA_I_PD,
    SNP_RESP_DATA_SC_PD, SNP_RESP_DATA_SD, SNP_RESP_I, SNP_RESP_SC, SNP_SHARED, SNP_UNIQUE,
};
use crate::numbers::flag_number;
use chi_flit::{
    Agent, Channel, CompData, DatUp, Data, Msg, NO_DATA, Request, RspDown, RspUp, Snoop, State,
};
use chi_slice::Cells;

/// A message in flight: `ChiFlit` of `chihome.h`. `kind`, `slot` and `allow_retry` are a request's, `credit`
/// a RetryAck's, and `words` those of a message with data; elsewhere they are 0. `reserved` is padding in C.
/// Source: `docs/PROTOCOL.md`, "Messages".
#[repr(C)]
#[derive(Clone, Copy)]
pub struct ChiFlit {
    pub message: u8,
    pub kind: u8,
    pub slot: u8,
    pub allow_retry: u8,
    pub credit: u8,
    pub reserved: [u8; 3],
    pub words: [u64; 8],
}

/// What is in flight between an agent and the home for a line, by the number of its channel: `ChiFlits` of
/// `chihome.h`.
/// Source: `docs/PROTOCOL.md`, "Messages".
#[repr(C)]
#[derive(Clone, Copy)]
pub struct ChiFlits {
    pub channels: [ChiFlit; 6],
}

/// A flit that an action sent or took, with its agent and the number of its channel: `ChiSent` of `chihome.h`.
/// `reserved` is padding in C.
/// Source: `docs/PROTOCOL.md`, "Messages".
#[repr(C)]
#[derive(Clone, Copy)]
pub struct ChiSent {
    pub agent: u8,
    pub channel: u8,
    pub reserved: [u8; 6],
    pub flit: ChiFlit,
}

impl ChiFlit {
    /// No message: all numbers are 0.
    pub(crate) const NONE: ChiFlit = ChiFlit {
        message: NO_MESSAGE,
        kind: 0,
        slot: 0,
        allow_retry: 0,
        credit: 0,
        reserved: [0; 3],
        words: NO_DATA,
    };
}

impl ChiFlits {
    /// Nothing in flight.
    pub(crate) const NONE: ChiFlits = ChiFlits {
        channels: [ChiFlit::NONE; 6],
    };
}

impl ChiSent {
    /// No flit: all numbers are 0.
    pub(crate) const NONE: ChiSent = ChiSent {
        agent: 0,
        channel: 0,
        reserved: [0; 6],
        flit: ChiFlit::NONE,
    };
}

/// Tells a request, where all numbers are 0.
fn tell_request(flit: &mut ChiFlit, request: &Request)
    requires { flit.old ≡ no_flit }
    ensures { flit.new ≡ request_told request.now }
{
    flit.message = REQUEST;
    flit.kind = request.kind.number();
    flit.slot = request.slot.0;
    flit.allow_retry = flag_number(request.allow_retry);
}

/// The number of a snoop's message.
fn snoop_message(snoop: Snoop) -> u8
    ensures { result ≡ snoop_message snoop }
{
    match snoop {
        Snoop::SnpShared => SNP_SHARED,
        Snoop::SnpNotSharedDirty => SNP_NOT_SHARED_DIRTY,
        Snoop::SnpUnique => SNP_UNIQUE,
        Snoop::SnpCleanInvalid => SNP_CLEAN_INVALID,
    }
}

/// Tells a response without data to a requester, where all numbers are 0.
fn tell_response(flit: &mut ChiFlit, response: &RspDown)
    requires { flit.old ≡ no_flit }
    ensures { flit.new ≡ response_told response.now }
{
    match response {
        RspDown::RetryAck(credit) => {
            flit.message = RETRY_ACK;
            flit.credit = credit.number();
        }
        RspDown::CompUC => flit.message = COMP_UC,
        RspDown::CompI => flit.message = COMP_I,
        RspDown::CompDBIDResp => flit.message = COMP_DBID_RESP,
    }
}

/// The number of the message of a read's data.
fn dat_down_message(unique: bool) -> u8
    ensures { result ≡ dat_down_message unique }
{
    if unique { COMP_DATA_UC } else { COMP_DATA_SC }
}

/// The number of a response without data to the home.
fn rsp_up_message(response: RspUp) -> u8
    ensures { result ≡ rsp_up_message response }
{
    match response {
        RspUp::SnpRespI => SNP_RESP_I,
        RspUp::SnpRespSC => SNP_RESP_SC,
        RspUp::CompAck => COMP_ACK,
    }
}

/// The number of write data in the form of this state.
fn write_message(state: State) -> u8
    ensures { result ≡ write_message state }
{
    match state {
        State::I => COPY_BACK_WR_DATA_I,
        State::SC => COPY_BACK_WR_DATA_SC,
        State::UC => COPY_BACK_WR_DATA_UC,
        State::UD => COPY_BACK_WR_DATA_UD_PD,
        State::SD => COPY_BACK_WR_DATA_SD_PD,
    }
}

/// The number of the message of a response with data to the home.
#[inline(always)]
fn dat_up_message(response: &DatUp) -> u8
    ensures { result ≡ (dat_up_told response.now).message }
{
    match response {
        DatUp::SnpRespDataIPD(_) => SNP_RESP_DATA_I_PD,
        DatUp::SnpRespDataSCPD(_) => SNP_RESP_DATA_SC_PD,
        DatUp::SnpRespDataSD(_) => SNP_RESP_DATA_SD,
        DatUp::CopyBackWrData(state, _) => write_message(*state),
    }
}

/// The data of a response with data to the home.
#[inline(always)]
fn dat_up_words(response: &DatUp) -> &Data
    ensures { result.now ≡ (dat_up_told response.now).words }
{
    match response {
        DatUp::SnpRespDataIPD(words)
        | DatUp::SnpRespDataSCPD(words)
        | DatUp::SnpRespDataSD(words)
        | DatUp::CopyBackWrData(_, words) => words,
    }
}

/// Tells a response with data to the home, where all numbers are 0.
fn tell_dat_up(flit: &mut ChiFlit, response: &DatUp)
    requires { flit.old ≡ no_flit }
    ensures { flit.new ≡ dat_up_told response.now }
{
    flit.message = dat_up_message(response);
    flit.words = *dat_up_words(response);
}

/// Tells a message: each number once, and those that stay 0, nearly all of them, all together.
#[inline(never)]
fn tell_flit(flit: &mut ChiFlit, message: &Msg)
    ensures { flit.new ≡ flit_told (Some message.now) }
{
    *flit = ChiFlit::NONE;
    match message {
        Msg::Req(request) => tell_request(flit, request),
        Msg::Snp(snoop) => flit.message = snoop_message(*snoop),
        Msg::RspDown(response) => tell_response(flit, response),
        Msg::DatDown(sent) => {
            flit.message = dat_down_message(sent.unique);
            flit.words = sent.words;
        }
        Msg::RspUp(response) => flit.message = rsp_up_message(*response),
        Msg::DatUp(response) => tell_dat_up(flit, response),
    }
}

/// A message that may be in flight.
fn flit_told(message: Option<Msg>) -> ChiFlit
    ensures { result ≡ flit_told message }
{
    let mut flit = ChiFlit::NONE;
    if let Some(message) = message {
        tell_flit(&mut flit, &message);
    }
    flit
}

/// What is in flight between an agent and the home, in C's words.
pub(crate) fn flits_told(cells: &Cells) -> ChiFlits
    ensures { result ≡ flits_told cells.now }
{
    ChiFlits {
        channels: [
            flit_told(cells.get(Channel::Req)),
            flit_told(cells.get(Channel::Snp)),
            flit_told(cells.get(Channel::RspDown)),
            flit_told(cells.get(Channel::DatDown)),
            flit_told(cells.get(Channel::RspUp)),
            flit_told(cells.get(Channel::DatUp)),
        ],
    }
}

/// The number of a channel.
fn channel_number(channel: Channel) -> u8
    ensures { result ≡ channel_number channel }
{
    match channel {
        Channel::Req => 0,
        Channel::Snp => 1,
        Channel::RspDown => 2,
        Channel::DatDown => 3,
        Channel::RspUp => 4,
        Channel::DatUp => 5,
    }
}

/// Tells a flit with its agent and its channel.
pub(crate) fn tell_sent(told: &mut ChiSent, agent: Agent, message: &Msg)
    ensures { told.new ≡ sent_told (flit agent message.now) }
{
    told.agent = agent.0;
    told.channel = channel_number(message.channel());
    told.reserved = [0; 6];
    tell_flit(&mut told.flit, message);
}

/// Tells a snoop with its agent.
pub(crate) fn tell_snoop(told: &mut ChiSent, agent: Agent, snoop: Snoop)
    ensures { told.new ≡ sent_told (flit agent (messages.Snp snoop)) }
{
    *told = ChiSent::NONE;
    told.agent = agent.0;
    told.channel = 1;
    told.flit.message = snoop_message(snoop);
}

/// Tells a request with its agent.
pub(crate) fn tell_req(told: &mut ChiSent, agent: Agent, request: &Request)
    ensures { told.new ≡ sent_told (flit agent (messages.Req request.now)) }
{
    open_sent(told, agent, 0);
    tell_request(&mut told.flit, request);
}

/// Tells a response without data of its agent.
pub(crate) fn tell_rsp_up(told: &mut ChiSent, agent: Agent, response: RspUp)
    ensures { told.new ≡ sent_told (flit agent (messages.RspUp response)) }
{
    open_sent(told, agent, 4);
    told.flit.message = rsp_up_message(response);
}

/// Tells a response without data to its agent.
pub(crate) fn tell_rsp_down(told: &mut ChiSent, agent: Agent, response: &RspDown)
    ensures { told.new ≡ sent_told (flit agent (messages.RspDown response.now)) }
{
    open_sent(told, agent, 2);
    tell_response(&mut told.flit, response);
}

/// Tells the data of a read to its agent.
pub(crate) fn tell_dat_down(told: &mut ChiSent, agent: Agent, unique: bool, words: &Data)
    ensures { told.new ≡ sent_told (flit agent (read_data unique words.now)) }
{
    tell_data(told, agent, 3, dat_down_message(unique), words);
}

/// Tells a flit with data: each number once.
#[inline(always)]
fn tell_data(told: &mut ChiSent, agent: Agent, channel: u8, message: u8, words: &Data)
    ensures { told.new ≡ data_sent agent channel message words.now }
{
    told.agent = agent.0;
    told.channel = channel;
    told.reserved = [0; 6];
    told.flit.message = message;
    told.flit.kind = 0;
    told.flit.slot = 0;
    told.flit.allow_retry = 0;
    told.flit.credit = 0;
    told.flit.reserved = [0; 3];
    told.flit.words = *words;
}

/// Blanks a flit, but for its agent and its channel.
fn open_sent(told: &mut ChiSent, agent: Agent, channel: u8)
    ensures { told.new ≡ opened_sent agent channel }
{
    *told = ChiSent::NONE;
    told.agent = agent.0;
    told.channel = channel;
}

/// Tells a request with its agent, if there is one, and answers how many there are.
fn put_request(told: &mut ChiSent, agent: Agent, request: &Option<Request>) -> u8
    ensures told { told.new
        ≡ told_or (flit_of agent (option_map messages.Req request.now)) told.old }
    ensures count { result ≡ length (flit_of agent (option_map messages.Req request.now)) }
{
    match request {
        Some(request) => {
            tell_req(told, agent, request);
            1
        }
        None => 0,
    }
}

/// Tells a snoop with its agent, if there is one, and answers how many there are.
fn put_snoop(told: &mut ChiSent, agent: Agent, snoop: Option<Snoop>) -> u8
    ensures told { told.new
        ≡ told_or (flit_of agent (option_map messages.Snp snoop)) told.old }
    ensures count { result ≡ length (flit_of agent (option_map messages.Snp snoop)) }
{
    match snoop {
        Some(snoop) => {
            tell_snoop(told, agent, snoop);
            1
        }
        None => 0,
    }
}

/// Tells a response without data to its agent, if there is one, and answers how many there are.
fn put_response(told: &mut ChiSent, agent: Agent, response: &Option<RspDown>) -> u8
    ensures told { told.new
        ≡ told_or (flit_of agent (option_map messages.RspDown response.now)) told.old }
    ensures count { result ≡ length (flit_of agent (option_map messages.RspDown response.now)) }
{
    match response {
        Some(response) => {
            tell_rsp_down(told, agent, response);
            1
        }
        None => 0,
    }
}

/// Tells the data of a read to its agent, if there is one, and answers how many there are.
fn put_data(told: &mut ChiSent, agent: Agent, sent: &Option<CompData>) -> u8
    ensures told { told.new
        ≡ told_or (flit_of agent (option_map messages.DatDown sent.now)) told.old }
    ensures count { result ≡ length (flit_of agent (option_map messages.DatDown sent.now)) }
{
    match sent {
        Some(sent) => {
            tell_dat_down(told, agent, sent.unique, &sent.words);
            1
        }
        None => 0,
    }
}

/// Tells a response without data of its agent, if there is one, and answers how many there are.
fn put_rsp_up(told: &mut ChiSent, agent: Agent, response: Option<RspUp>) -> u8
    ensures told { told.new
        ≡ told_or (flit_of agent (option_map messages.RspUp response)) told.old }
    ensures count { result ≡ length (flit_of agent (option_map messages.RspUp response)) }
{
    match response {
        Some(response) => {
            tell_rsp_up(told, agent, response);
            1
        }
        None => 0,
    }
}

/// Tells a response with data of its agent, if there is one, and answers how many there are.
fn put_dat_up(told: &mut ChiSent, agent: Agent, response: &Option<DatUp>) -> u8
    ensures told { told.new
        ≡ told_or (flit_of agent (option_map messages.DatUp response.now)) told.old }
    ensures count { result ≡ length (flit_of agent (option_map messages.DatUp response.now)) }
{
    match response {
        Some(response) => {
            tell_data(
                told,
                agent,
                5,
                dat_up_message(response),
                dat_up_words(response),
            );
            1
        }
        None => 0,
    }
}

/// Tells the flit of the agent that is in flight on a channel straight from its cell, if there is one, and
/// answers how many there are.
#[inline(always)]
pub(crate) fn put_cell(told: &mut ChiSent, agent: Agent, cells: &Cells, channel: Channel) -> u8
    ensures told { told.new ≡ told_or (flit_of agent (cell_of cells.now channel)) told.old }
    ensures count { result ≡ length (flit_of agent (cell_of cells.now channel)) }
{
    match channel {
        Channel::Req => put_request(told, agent, &cells.req),
        Channel::Snp => put_snoop(told, agent, cells.snp),
        Channel::RspDown => put_response(told, agent, &cells.rsp_down),
        Channel::DatDown => put_data(told, agent, &cells.dat_down),
        Channel::RspUp => put_rsp_up(told, agent, cells.rsp_up),
        Channel::DatUp => put_dat_up(told, agent, &cells.dat_up),
    }
}
