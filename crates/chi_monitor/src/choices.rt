//! What the model allows in place of what was seen.
//! Not trusted: chi_explain does again what the search finds, and compares.

ghost use Rattle.std.specs.Prelude.{◌≡◌, ◌<◌, IfOk, OnOk};
ghost use Rattle.chi_monitor.specs.Choices.{AreInterchangeable, is_alike, is_same_way};

use crate::faults::{LineFault, SeenAt};
use crate::search::{LineSearch, line_behind, take};
use chi_explain::{Observed, SentFlit, StoreListing};
use chi_flit::{
    Agent, CompData, DatUp, Kind, Msg, NO_DATA, Request, RspDown, RspUp, Slot, Snoop, State, WordNo,
};
use chi_slice::Config;
use std::alloc::Allocator;

const KINDS: [Kind; 8] = [
    Kind::ReadNotSharedDirty,
    Kind::ReadShared,
    Kind::ReadUnique,
    Kind::CleanUnique,
    Kind::Evict,
    Kind::WriteBackFull,
    Kind::WriteCleanFull,
    Kind::WriteEvictFull,
];

const SNOOPS: [Snoop; 4] = [
    Snoop::SnpShared,
    Snoop::SnpNotSharedDirty,
    Snoop::SnpUnique,
    Snoop::SnpCleanInvalid,
];

const STATES: [State; 5] = [State::I, State::SC, State::UC, State::UD, State::SD];

/// What the model allows in place of what was seen, behind that before it: of a flit the flits of its requester in the
/// same direction, of a load or a store those of the same word. Words of data that no flit has shown are 0 in them.
/// Source: `docs/TRACES.md`, "What is printed".
pub fn allowed<A: Allocator + Copy>(
    alloc: A,
    config: &Config,
    stores: StoreListing,
    before: &[Observed],
    seen: &Observed,
) -> Result<Vec<Observed, A>, LineFault>
    ensures { IfOk result (λ others. AreInterchangeable seen.now others.items) }
{
    let mut allowed = Vec::new(alloc);
    let search = line_behind(alloc, config, stores, before)?;
    for candidate in candidates(alloc, &search, seen)?.iter() {
        let mut tried = line_behind(alloc, config, stores, before)?;
        if take(&mut tried, candidate, SeenAt(before.len() as u64)).is_ok() {
            add_alike(&mut allowed, seen, candidate)?;
        }
    }
    Ok(allowed)
}

/// Puts what is alike behind the others.
fn add_alike<A: Allocator>(
    others: &mut Vec<Observed, A>,
    seen: &Observed,
    other: &Observed,
) -> Result<(), LineFault>
    ensures { OnOk result (AreInterchangeable seen.now others.old.items
        → AreInterchangeable seen.now others.new.items) }
{
    if is_alike(seen, other) {
        others.push(*other)?;
    }
    Ok(())
}

/// Whether it is a flit of the same requester and direction, or a load or a store of the same requester and word.
#[tactic(auto, unfolding(crate::specs::Choices::is_alike))]
fn is_alike(one: &Observed, other: &Observed) -> bool
    ensures { result ≡ is_alike one.now other.now }
{
    match (one, other) {
        (Observed::Flit(one), Observed::Flit(other)) => {
            one.agent.0 == other.agent.0 && is_same_way(&one.message, &other.message)
        }
        (
            Observed::Load(agent, word, _) | Observed::Store(agent, word, _),
            Observed::Load(other, that, _) | Observed::Store(other, that, _),
        ) => agent.0 == other.0 && word.0 == that.0,
        _ => false,
    }
}

/// Whether two messages are of one direction: two requests, two snoops, or responses and data of the same way.
fn is_same_way(one: &Msg, other: &Msg) -> bool
    ensures { result ≡ is_same_way one.now other.now }
{
    match (one, other) {
        (Msg::Req(_), Msg::Req(_)) | (Msg::Snp(_), Msg::Snp(_)) => true,
        (Msg::RspDown(_) | Msg::DatDown(_), Msg::RspDown(_) | Msg::DatDown(_)) => true,
        (Msg::RspUp(_) | Msg::DatUp(_), Msg::RspUp(_) | Msg::DatUp(_)) => true,
        _ => false,
    }
}

/// What may stand in its place.
fn candidates<A: Allocator + Copy>(
    alloc: A,
    search: &LineSearch<A>,
    seen: &Observed,
) -> Result<Vec<Observed, A>, LineFault> {
    match seen {
        Observed::Flit(flit) if flit.agent.0 < 8 => flits(alloc, search, flit),
        Observed::Load(agent, word, value) | Observed::Store(agent, word, value)
            if agent.0 < 8 && word.0 < 8 => { accesses(alloc, search, *agent, *word, *value) }
        _ => Ok(Vec::new(alloc)),
    }
}

/// The load of what the copy has in the word, and a store to it.
fn accesses<A: Allocator>(
    alloc: A,
    search: &LineSearch<A>,
    agent: Agent,
    word: WordNo,
    value: u64,
) -> Result<Vec<Observed, A>, LineFault>
    requires agents { agent.0 < 8 }
    requires words { word.0 < 8 }
{
    let has = search.known.words_of(agent)[usize::from(word.0)];
    let mut accesses = Vec::new(alloc);
    accesses.push(Observed::Load(agent, word, has))?;
    accesses.push(Observed::Store(agent, word, value))?;
    Ok(accesses)
}

/// The flits of the requester in the same direction.
fn flits<A: Allocator + Copy>(
    alloc: A,
    search: &LineSearch<A>,
    flit: &SentFlit,
) -> Result<Vec<Observed, A>, LineFault>
    requires { flit.now.agent.0 < 8 }
{
    let agent = flit.agent;
    let mut flits = Vec::new(alloc);
    for message in messages(alloc, search, flit)?.iter() {
        let message = *message;
        flits.push(Observed::Flit(SentFlit { agent, message }))?;
    }
    Ok(flits)
}

/// The messages of the same direction.
fn messages<A: Allocator + Copy>(
    alloc: A,
    search: &LineSearch<A>,
    flit: &SentFlit,
) -> Result<Vec<Msg, A>, LineFault>
    requires { flit.now.agent.0 < 8 }
{
    match flit.message {
        Msg::Req(_) => requests(alloc, search.slot_of(flit.agent)),
        Msg::Snp(_) => snoops(alloc),
        Msg::RspDown(_) | Msg::DatDown(_) => completions(alloc, search, flit.agent),
        Msg::RspUp(_) | Msg::DatUp(_) => answers(alloc, search, flit.agent),
    }
}

fn requests<A: Allocator>(alloc: A, slot: Slot) -> Result<Vec<Msg, A>, LineFault> {
    let mut messages = Vec::new(alloc);
    for kind in KINDS {
        for allow_retry in [true, false] {
            messages.push(Msg::Req(Request {
                kind,
                slot,
                allow_retry,
            }))?;
        }
    }
    Ok(messages)
}

fn snoops<A: Allocator>(alloc: A) -> Result<Vec<Msg, A>, LineFault> {
    let mut messages = Vec::new(alloc);
    for snoop in SNOOPS {
        messages.push(Msg::Snp(snoop))?;
    }
    Ok(messages)
}

fn completions<A: Allocator>(
    alloc: A,
    search: &LineSearch<A>,
    agent: Agent,
) -> Result<Vec<Msg, A>, LineFault>
    requires { agent.0 < 8 }
{
    let mut messages = Vec::new(alloc);
    messages.push(Msg::RspDown(RspDown::RetryAck(search.credit_of(agent))))?;
    messages.push(Msg::RspDown(RspDown::CompUC))?;
    messages.push(Msg::RspDown(RspDown::CompI))?;
    messages.push(Msg::RspDown(RspDown::CompDBIDResp))?;
    let words = search.known.given();
    for unique in [true, false] {
        messages.push(Msg::DatDown(CompData { words, unique }))?;
    }
    Ok(messages)
}

fn answers<A: Allocator>(
    alloc: A,
    search: &LineSearch<A>,
    agent: Agent,
) -> Result<Vec<Msg, A>, LineFault>
    requires { agent.0 < 8 }
{
    let words = search.known.words_of(agent);
    let mut messages = Vec::new(alloc);
    messages.push(Msg::RspUp(RspUp::SnpRespI))?;
    messages.push(Msg::RspUp(RspUp::SnpRespSC))?;
    messages.push(Msg::RspUp(RspUp::CompAck))?;
    messages.push(Msg::DatUp(DatUp::SnpRespDataIPD(words)))?;
    messages.push(Msg::DatUp(DatUp::SnpRespDataSCPD(words)))?;
    messages.push(Msg::DatUp(DatUp::SnpRespDataSD(words)))?;
    for state in STATES {
        let words = if matches!(state, State::I) {
            NO_DATA
        } else {
            words
        };
        messages.push(Msg::DatUp(DatUp::CopyBackWrData(state, words)))?;
    }
    Ok(messages)
}
