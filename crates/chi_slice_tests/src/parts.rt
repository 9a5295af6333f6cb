//! The calls of a line's parts that refuse by themselves: each asks its part's question, and then has its part's effect
//! alone. By these questions and effects a line plays all that `suite/` shows (`docs/PROTOCOL.md`, "The actions").

use chi_flit::Kind::{
    self, CleanUnique, Evict, ReadNotSharedDirty, ReadShared, ReadUnique, WriteBackFull,
    WriteCleanFull, WriteEvictFull,
};
use chi_flit::State::{self, I, SC, SD, UC, UD};
use chi_flit::{Agent, Channel, Data, Msg, Refusal, RspUp, Slot, Snoop, WordNo};
use chi_homeline::{HomeLine, Waiting};
use chi_rnline::{Pending, Phase, RnLine};
use chi_wires::Wires;

const STATES: [State; 5] = [I, SC, UC, UD, SD];

const WORDS: Data = [1, 2, 3, 4, 5, 6, 7, 8];

const WORD: WordNo = WordNo(7);

const SLOT: Slot = Slot(3);

const KINDS: [Kind; 8] = [
    ReadNotSharedDirty,
    ReadShared,
    ReadUnique,
    CleanUnique,
    Evict,
    WriteBackFull,
    WriteCleanFull,
    WriteEvictFull,
];

/// A requester's side in each state, with nothing pending, and with a request of each kind that was sent or retried.
fn copies(kind: Kind, state: State) -> [RnLine; 3] {
    let pending = |phase| {
        Some(Pending {
            kind,
            slot: SLOT,
            phase,
        })
    };
    [None, pending(Phase::Sent), pending(Phase::Retried)].map(|request| RnLine::of_parts(
        state, WORDS, request,
    ))
}

fn load_asks(copy: &RnLine) -> bool {
    let wanted = match copy.why_no_load() {
        Some(refusal) => Err(refusal),
        None => Ok(copy.word(WORD)),
    };
    copy.load(WORD) == wanted
}

fn store_asks(copy: &RnLine) -> bool {
    let (mut whole, mut part) = (*copy, *copy);
    let refusal = part.why_no_store();
    if refusal.is_none() {
        part.stored(WORD, 9);
    }
    whole.store(WORD, 9).err() == refusal && whole == part
}

fn drop_asks(copy: &RnLine) -> bool {
    let (mut whole, mut part) = (*copy, *copy);
    let refusal = part.why_no_drop();
    if refusal.is_none() {
        part.dropped();
    }
    whole.drop_clean().err() == refusal && whole == part
}

fn issue_asks(copy: &RnLine, kind: Kind) -> bool {
    let (mut whole, mut part) = (*copy, *copy);
    let wanted = match part.why_no_issue(kind) {
        Some(refusal) => Err(refusal),
        None => Ok(part.issued(kind, SLOT)),
    };
    whole.issue(kind, SLOT) == wanted && whole == part
}

fn resend_asks(copy: &RnLine) -> bool {
    let (mut whole, mut part) = (*copy, *copy);
    let wanted = match (part.why_no_resend(), part.pending()) {
        (Some(refusal), _) => Err(refusal),
        (None, Some(request)) => Ok(part.resent(request)),
        (None, None) => return false,
    };
    whole.resend() == wanted && whole == part
}

fn cancel_asks(copy: &RnLine) -> bool {
    let (mut whole, mut part) = (*copy, *copy);
    let refusal = part.why_no_cancel();
    if refusal.is_none() {
        part.cancelled();
    }
    whole.cancel().err() == refusal && whole == part
}

/// Whether each call of this requester's side asks first.
fn copy_asks(copy: &RnLine, kind: Kind) -> bool {
    load_asks(copy)
        && store_asks(copy)
        && drop_asks(copy)
        && issue_asks(copy, kind)
        && resend_asks(copy)
        && cancel_asks(copy)
}

/// Whether each does so in this state, with a request of this kind pending, or none.
fn copies_ask(kind: Kind, state: State) -> bool {
    let [idle, sent, retried] = copies(kind, state);
    copy_asks(&idle, kind) && copy_asks(&sent, kind) && copy_asks(&retried, kind)
}

#[test]
fn each_call_of_a_requester_asks_first(rt: HostRuntime) {
    for kind in KINDS {
        for state in STATES {
            assert!(rt; copies_ask(kind, state), "{kind:?} in {state:?}");
        }
    }
}

const AGENT: Agent = Agent(0);

/// A home at which requests of this kind wait, of agents 0 and 1: of agent 0 one that waits yet, where `waits`, and of
/// agent 1 one that is served, where `busy`.
fn home(kind: Kind, waits: bool, busy: bool) -> HomeLine {
    let mut home = HomeLine::new();
    let request = Waiting { kind, slot: SLOT };
    if busy {
        home.admit(Agent(1), request);
        let _ = home.start(Agent(1));
    }
    if waits {
        home.admit(AGENT, request);
    }
    home
}

/// Whether a home so starts as it says.
fn start_asks(kind: Kind, waits: bool, busy: bool) -> bool {
    let (mut whole, mut part) = (home(kind, waits, busy), home(kind, waits, busy));
    let wanted = match (part.why_no_start(AGENT), part.waiting(AGENT)) {
        (Some(refusal), _) => Err(refusal),
        (None, Some(request)) => Ok(part.started(AGENT, request)),
        (None, None) => return false,
    };
    whole.start(AGENT) == wanted && whole == part
}

#[test]
fn each_start_asks_first(rt: HostRuntime) {
    for kind in KINDS {
        let open = start_asks(kind, true, false) && start_asks(kind, false, false);
        let busy = start_asks(kind, true, true) && start_asks(kind, false, true);
        assert!(rt; open && busy, "{kind:?}");
    }
}

/// The wires with a snoop to agent 0, and its CompAck.
fn wires() -> Wires {
    let mut wires = Wires::new();
    wires.put(AGENT, Msg::Snp(Snoop::SnpUnique));
    wires.put(AGENT, Msg::RspUp(RspUp::CompAck));
    wires
}

/// Whether what is on the channel is had and taken as the cells show it.
fn take_asks(channel: Channel) -> bool {
    let (mut whole, mut part) = (wires(), wires());
    let there = part.cells(AGENT).get(channel);
    if there.is_some() {
        part.clear(AGENT, channel);
    }
    whole.has(channel, AGENT) == there
        && whole.take(channel, AGENT) == there.ok_or(Refusal::NoFlit)
        && whole == part
}

const CHANNELS: [Channel; 6] = [
    Channel::Req,
    Channel::Snp,
    Channel::RspDown,
    Channel::DatDown,
    Channel::RspUp,
    Channel::DatUp,
];

#[test]
fn what_is_taken_is_what_the_cells_have(rt: HostRuntime) {
    for channel in CHANNELS {
        assert!(rt; take_asks(channel), "{channel:?}");
    }
}
