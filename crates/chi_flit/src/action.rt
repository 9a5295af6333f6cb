//! The actions of the protocol.

use crate::kind::Kind;
use crate::numbers::{Agent, Line, Slot, WordNo};

/// One action on one line: what a requester does, or what it or the home does with a message that has
/// arrived.
/// Source: `docs/PROTOCOL.md`, "The actions".
#[derive(Clone, Copy, Debug, PartialEq, Eq)]
pub struct Action {
    /// Who does it, or whose message it is about.
    pub agent: Agent,
    pub line: Line,
    pub step: Step,
}

/// What an action does.
/// Source: `docs/PROTOCOL.md`, "The actions".
#[derive(Clone, Copy, Debug, PartialEq, Eq)]
pub enum Step {
    /// The requester reads a word of its copy.
    Load(WordNo),
    /// The requester writes a word of its copy.
    Store(WordNo, u64),
    /// The requester drops its clean copy, and tells nobody.
    Drop,
    /// The requester issues a request, which takes one of its slots.
    Issue(Kind, Slot),
    /// The home lets a request in: it waits.
    Admit,
    /// The home refuses a request that allows it: a credit is to be granted later.
    Retry,
    /// The requester takes the RetryAck of its request.
    RecvRetry,
    /// The requester sends its retried request again, with a credit.
    Resend,
    /// The requester gives its retried request up.
    Cancel,
    /// The home begins to serve the agent's waiting request.
    Start,
    /// The requester takes a snoop, and answers it.
    RecvSnp,
    /// The home takes the agent's answer to a snoop.
    RecvSnpResp,
    /// The requester takes the data of its read.
    RecvData,
    /// The requester takes the completion of a request that brings no data.
    RecvComp,
    /// The home takes the requester's CompAck.
    RecvAck,
    /// The requester takes the home's leave to send write data, and sends it.
    RecvDbid,
    /// The home takes the requester's write data.
    RecvWrData,
}

/// What an action that was done gives.
/// Source: `docs/PROTOCOL.md`, "The actions".
#[derive(Clone, Copy, Debug, PartialEq, Eq)]
pub enum Effect {
    Nothing,
    /// The word that a load read.
    Value(u64),
    /// The home is done with the request of this slot.
    Completed(Slot),
}
