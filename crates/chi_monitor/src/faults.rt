//! Why no run of the model sends a flit, or does a load or a store, and what told it.
//! Not trusted, as the search that tells it: that a settled one is a fault is proved (`is_settled`), of others it is tested.

ghost use Rattle.std.specs.Prelude.{◌≡◌};
ghost use Rattle.chi_monitor.specs.declared.faults.LineFault.TheVariants as faults;

use chi_explain::StoreListing;
use chi_flit::{Agent, CreditType, Kind, Snoop, State, WordNo};
use std::alloc::{AllocError, AllocFailed};

/// The number of what was seen, counted from 0: of a line's flits, loads and stores, or of a monitor's flits.
/// Source: `docs/TRACES.md`, "Rules".
#[derive(Clone, Copy, Debug, PartialEq, Eq)]
pub struct SeenAt(pub u64);

/// The states that a copy may be in by now.
/// Source: `docs/TRACES.md`, "Rules".
#[derive(Clone, Copy, Debug, PartialEq, Eq)]
pub struct Reach {
    /// Its last known one; no other while a request is pending.
    pub base: State,
    pub stores: StoreListing,
    /// A request of its requester to the line is pending.
    pub pending: bool,
    /// What has told the last known one; `None` of a requester that never had a copy.
    pub since: Option<SeenAt>,
    /// That was the value of a load: a store was done that wasn't seen.
    pub loaded: bool,
}

/// A word whose value is known, and what has shown it; `None` where no flit has to.
/// Source: `docs/TRACES.md`, "Rules".
#[derive(Clone, Copy, Debug, PartialEq, Eq)]
pub struct KnownWord {
    pub value: u64,
    pub since: Option<SeenAt>,
}

/// The words of data that were seen, and beside each what its sender has, as far as it is known.
/// Source: `docs/TRACES.md`, "Rules".
#[derive(Clone, Copy, Debug, PartialEq, Eq)]
pub struct Differing {
    pub seen: [Option<u64>; 8],
    pub known: [Option<KnownWord>; 8],
}

/// What a reason rests on.
/// Source: `docs/TRACES.md`, "Reasons".
#[derive(Clone, Copy, Debug, PartialEq, Eq)]
pub enum Basis {
    /// The standard allows no such flit behind those before it.
    Standard,
    /// The standard leaves a choice, and this profile has made another one.
    Profile,
}

/// What is wrong with the snoops before a completion.
/// Source: `docs/TRACES.md`, "Rules".
#[derive(Clone, Copy, Debug, PartialEq, Eq)]
pub enum WrongSnoops {
    /// This agent, whose copy may be in these states, is to be snooped first.
    Unsnooped(Agent, Reach),
    /// This agent is to answer its snoop first, which was seen then.
    Unanswered(Agent, SeenAt),
    /// Those that were sent from then on are for a request of another node.
    OfAnother(SeenAt),
}

/// The other form that data of a read is to have.
/// Source: `docs/TRACES.md`, "Rules".
#[derive(Clone, Copy, Debug, PartialEq, Eq)]
pub enum WrongForm {
    /// SC of a ReadUnique.
    NotUnique,
    /// SC, and the model's home names nobody else.
    Alone,
    /// UC, and the model's home names this agent too, whose copy may be in these states.
    Shared(Agent, Reach),
}

/// What the home awaits for the request that it serves, before it serves another one at the line, and what told it.
/// Source: `docs/TRACES.md`, "Rules".
#[derive(Clone, Copy, Debug, PartialEq, Eq)]
pub enum Awaited {
    /// This agent's answer to a snoop.
    Answer(Agent, SeenAt),
    /// Nothing: it is to complete the request that it has snooped for from then on.
    Nothing(SeenAt),
    /// This agent's CompAck.
    Ack(Agent, SeenAt),
    /// This agent's write data.
    WriteData(Agent, SeenAt),
}

/// Why no run of the model sends the flit that was seen next, or does the load or the store.
/// Source: `docs/TRACES.md`, "Explanations".
#[derive(Clone, Copy, Debug, PartialEq, Eq)]
pub enum LineFault {
    /// Memory ran out.
    NoMemory,
    /// There is no such agent, word or slot.
    NoAgent,
    /// A first attempt or a store, and a request of the node to the line is pending, which was seen then.
    Pending(SeenAt),
    /// A first attempt of this kind, and the copy, which may be in these states, can't be in one that it needs.
    Needs(Kind, Reach),
    /// A request without AllowRetry, and none of this kind was retried.
    NotRetried(Kind),
    /// A RetryAck, and no request of the node that allows it is on its way or waits.
    NothingToRetry,
    /// A RetryAck of the first type, and the request's kind has the second one.
    OtherCredit(CreditType, CreditType),
    /// A RetryAck to the only node whose request the snoops can be for that were sent from then on.
    ServedRetry(SeenAt),
    /// A snoop, and no request that waits asks for it of this node.
    NobodyAsks(Snoop),
    /// A snoop, and the home awaits this for an earlier request.
    EarlySnoop(Awaited),
    /// A second snoop to the node for one request; the first one was seen then.
    SnoopedTwice(SeenAt),
    /// An answer, and the node has no snoop to answer.
    NothingToAnswer,
    /// An answer that the copy doesn't give, which may be in these states, to this snoop.
    Answer(Reach, Snoop, Basis),
    /// Data that isn't what the sender has.
    Words(Differing),
    /// CompData, and no read of the node waits.
    NoRead,
    /// Comp_UC, and no CleanUnique of the node waits.
    NoCleanUnique,
    /// Comp_I, and no Evict of the node waits.
    NoEvict,
    /// CompDBIDResp, and no copy-back of the node waits.
    NoCopyBack,
    /// CompData or Comp_UC, and the home awaits this for an earlier request.
    EarlyCompletion(Awaited),
    /// Comp_I, and the home awaits this for another request.
    EarlyEvict(Awaited),
    /// CompDBIDResp, and the home awaits this for another request.
    EarlyCopyBack(Awaited),
    /// A completion of a request of this kind, and others are to be snooped or to answer before it, or were snooped
    /// for another request.
    Snoops(Kind, WrongSnoops),
    /// Data of a read in another form than the model's home gives it.
    Form(WrongForm),
    /// A CompAck, and the home doesn't await one of this node.
    NoAckAwaited,
    /// Write data, and the home doesn't await any of this node.
    NoWriteDataAwaited,
    /// Write data in this form, and not that of the copy, whose state is this.
    WriteForm(State, Reach),
    /// A load, and the requester has no copy, whose state is this.
    NoCopy(Reach),
    /// A load of another value than this, which the copy has in this word.
    Word(WordNo, KnownWord, Basis),
    /// A store, and the copy, which may be in these states, can't be in one that is written.
    NoStore(Reach),
}

impl From<AllocError> for LineFault {
    ghost from_gives = { λ lack fault. fault ≡ faults.NoMemory };

    fn from(_lack: AllocError) -> LineFault {
        LineFault::NoMemory
    }
}

impl<T: Drop> From<AllocFailed<T>> for LineFault {
    ghost from_gives = { λ lack fault. fault ≡ faults.NoMemory };

    fn from(_lack: AllocFailed<T>) -> LineFault {
        LineFault::NoMemory
    }
}
