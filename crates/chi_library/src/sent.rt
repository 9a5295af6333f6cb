//! The flits that a step took and sent, told straight out of their cells, in C's words.

ghost use Rattle.std.specs.Prelude.{◌≡◌, ◌∷◌, [], map};
ghost use Rattle.chi_flit.specs.Kind.{snoop_of};
ghost use Rattle.chi_flit.specs.declared.message.Msg.TheVariants as messages;
ghost use Rattle.chi_slice.specs.Words.{completion_message, answer_in, cell_of, flit, flit_of, snoop_flits};
ghost use Rattle.chi_library.specs.Flits.{no_sent, sent_told};
ghost use Rattle.chi_library.specs.Listed.{IsListed};
ghost use Rattle.chi_library.specs.Standing.{ack_due, ack_standing, cell_standing, completion_standing, down_on, first_request, message_on, read_data, snoops_standing, start_standing, told_or, up_on, words_due};
ghost use Rattle.chi_library.specs.Taken.{answer_message, message_taken};

use crate::flits::{
    ChiFlit, ChiSent, put_cell, tell_dat_down, tell_req, tell_rsp_down, tell_rsp_up, tell_snoop,
};
use crate::messages::{COMP_UC, SNP_RESP_DATA_SD};
use chi_flit::{Agent, Channel, DatUp, Data, Kind, Request, RspDown, RspUp, Slot, Snoop, Step};
use chi_slice::{Cells, HomeLine, Serving};

/// The channel of the flit that a step takes, if it takes one.
#[inline(always)]
fn channel_taken(cells: &Cells, step: Step) -> Option<Channel>
    ensures { message_on cells.now result ≡ message_taken cells.now step }
{
    match step {
        Step::Admit | Step::Retry => Some(Channel::Req),
        Step::RecvRetry | Step::RecvComp | Step::RecvDbid => Some(Channel::RspDown),
        Step::RecvSnp => Some(Channel::Snp),
        Step::RecvSnpResp => answer_channel(cells),
        Step::RecvData => Some(Channel::DatDown),
        Step::RecvAck => Some(Channel::RspUp),
        Step::RecvWrData => Some(Channel::DatUp),
        _ => None,
    }
}

/// The channel of the answer to a snoop, if there is one.
fn answer_channel(cells: &Cells) -> Option<Channel>
    ensures { message_on cells.now result ≡ answer_message cells.now (answer_in cells.now) }
{
    match (cells.rsp_up, &cells.dat_up) {
        (Some(RspUp::SnpRespI | RspUp::SnpRespSC), _) => Some(Channel::RspUp),
        (_, None | Some(DatUp::CopyBackWrData(..))) => None,
        (_, Some(_)) => Some(Channel::DatUp),
    }
}

/// Tells the flit that a step takes, or that it takes none.
#[inline(always)]
pub(crate) fn tell_taken(taken: &mut ChiSent, agent: Agent, cells: &Cells, step: Step)
    ensures { taken.new ≡ told_or (flit_of agent (message_taken cells.now step)) no_sent }
{
    match channel_taken(cells, step) {
        Some(channel) => tell_cell(taken, agent, cells, channel),
        None => *taken = ChiSent::NONE,
    }
}

/// Tells the flit of the agent that is in flight on a channel, or that there is none.
#[inline(always)]
fn tell_cell(told: &mut ChiSent, agent: Agent, cells: &Cells, channel: Channel)
    ensures { told.new ≡ told_or (flit_of agent (cell_of cells.now channel)) no_sent }
{
    if put_cell(told, agent, cells, channel) == 0 {
        *told = ChiSent::NONE;
    }
}

/// The channel of the answer to a snoop that a step sent.
fn up_channel(response: Option<RspUp>) -> Channel
    ensures { result ≡ up_on response }
{
    match response {
        Some(_) => Channel::RspUp,
        None => Channel::DatUp,
    }
}

/// The channel of what a start sent to its own agent.
fn down_channel(response: Option<RspDown>) -> Channel
    ensures { result ≡ down_on response }
{
    match response {
        Some(_) => Channel::RspDown,
        None => Channel::DatDown,
    }
}

/// Lists the request of an issue.
pub(crate) fn list_issued(agent: Agent, kind: Kind, slot: Slot, sent: &mut [ChiSent; 8]) -> u8
    ensures { IsListed (sent_told (flit agent (first_request kind slot)) ∷ [])
        sent.old sent.new result }
{
    let request = Request {
        kind,
        slot,
        allow_retry: true,
    };
    tell_req(&mut sent[0], agent, &request);
    1
}

/// Lists a CompAck.
pub(crate) fn list_ack(agent: Agent, sent: &mut [ChiSent; 8]) -> u8
    ensures { IsListed (map sent_told (ack_standing agent)) sent.old sent.new result }
{
    tell_rsp_up(&mut sent[0], agent, RspUp::CompAck);
    1
}

/// Lists the CompAck that a completion is answered by, if it is.
pub(crate) fn list_ack_of(agent: Agent, message: u8, sent: &mut [ChiSent; 8]) -> u8
    ensures { IsListed (map sent_told (ack_due agent message)) sent.old sent.new result }
{
    if message == COMP_UC {
        list_ack(agent, sent)
    } else {
        0
    }
}

/// Lists the answer to a snoop that a step sent.
pub(crate) fn list_answer(agent: Agent, cells: &Cells, sent: &mut [ChiSent; 8]) -> u8
    ensures { IsListed (map sent_told (cell_standing agent cells.now (up_on cells.now.rsp_up)))
        sent.old sent.new result }
{
    list_cell(agent, cells, up_channel(cells.rsp_up), sent)
}

/// Lists the flit that is in flight on a channel.
#[inline(always)]
pub(crate) fn list_cell(
    agent: Agent,
    cells: &Cells,
    channel: Channel,
    sent: &mut [ChiSent; 8],
) -> u8
    ensures { IsListed (map sent_told (cell_standing agent cells.now channel))
        sent.old sent.new result }
{
    put_cell(&mut sent[0], agent, cells, channel)
}

/// Lists the snoops that a start sent, or what it sent to its own agent.
pub(crate) fn list_started(
    agent: Agent,
    home: &HomeLine,
    cells: &Cells,
    sent: &mut [ChiSent; 8],
) -> u8
    ensures { IsListed
        (map sent_told (start_standing agent home.now.serving home.now.awaited cells.now))
        sent.old sent.new result }
{
    match home.serving() {
        Serving::Snooping { kind, .. } => list_asked(kind, &home.awaited(), sent),
        _ => list_cell(agent, cells, down_channel(cells.rsp_down), sent),
    }
}

/// Lists the snoops for a request of the kind.
fn list_asked(kind: Kind, agents: &[bool; 8], sent: &mut [ChiSent; 8]) -> u8
    ensures { IsListed (map sent_told (snoops_standing (snoop_of kind) agents.now))
        sent.old sent.new result }
{
    match kind.snoop() {
        Some(snoop) => list_snoops(snoop, agents, sent),
        None => 0,
    }
}

/// Lists the completion that an answer brought, by what was served before it and the home after it.
pub(crate) fn list_answered(
    before: Serving,
    taken: &ChiFlit,
    home: &HomeLine,
    sent: &mut [ChiSent; 8],
) -> u8
    ensures { IsListed (map sent_told (completion_standing before home.now.serving
        home.now.filter.unique (words_due taken.now home.now.memory))) sent.old sent.new result }
{
    let words = words_due(taken, home.memory());
    let unique = home.filter().is_unique();
    list_completion(before, home.serving(), unique, &words, sent)
}

/// The data of a completion that an answer brought, by the answer and the memory after it.
fn words_due(taken: &ChiFlit, memory: Data) -> Data
    ensures { result ≡ words_due taken.now memory }
{
    if taken.message == SNP_RESP_DATA_SD {
        taken.words
    } else {
        memory
    }
}

/// Lists the completion of what was served before an answer, once no other is awaited, by what is served after it.
fn list_completion(
    before: Serving,
    after: Serving,
    unique: bool,
    words: &Data,
    sent: &mut [ChiSent; 8],
) -> u8
    ensures { IsListed (map sent_told (completion_standing before after unique words.now))
        sent.old sent.new result }
{
    match (before, after) {
        (Serving::Snooping { agent, kind, .. }, Serving::AwaitingCompAck { .. }) => {
            list_completed(agent, kind, unique, words, sent)
        }
        _ => 0,
    }
}

/// Lists the completion of a request of the kind.
fn list_completed(
    agent: Agent,
    kind: Kind,
    unique: bool,
    words: &Data,
    sent: &mut [ChiSent; 8],
) -> u8
    ensures { IsListed (sent_told (flit agent (completion_message kind unique words.now)) ∷ [])
        sent.old sent.new result }
{
    match kind {
        Kind::CleanUnique => list_response(agent, RspDown::CompUC, sent),
        _ => list_data(agent, unique, words, sent),
    }
}

/// Lists one response without data.
fn list_response(agent: Agent, response: RspDown, sent: &mut [ChiSent; 8]) -> u8
    ensures { IsListed (sent_told (flit agent (messages.RspDown response)) ∷ [])
        sent.old sent.new result }
{
    tell_rsp_down(&mut sent[0], agent, &response);
    1
}

/// Lists the data of one read.
fn list_data(agent: Agent, unique: bool, words: &Data, sent: &mut [ChiSent; 8]) -> u8
    ensures { IsListed (sent_told (flit agent (read_data unique words.now)) ∷ [])
        sent.old sent.new result }
{
    tell_dat_down(&mut sent[0], agent, unique, words);
    1
}

/// Lists the snoop to each agent that has a mark, and answers how many they are.
fn list_snoops(snoop: Snoop, agents: &[bool; 8], sent: &mut [ChiSent; 8]) -> u8
    ensures { IsListed (map sent_told (snoop_flits 0 agents.now snoop)) sent.old sent.new result }
{
    let mut count = 0;
    for agent in 0..8 {
        if agents[usize::from(agent)] {
            tell_snoop(&mut sent[usize::from(count)], Agent(agent), snoop);
            count += 1;
        }
    }
    count
}
