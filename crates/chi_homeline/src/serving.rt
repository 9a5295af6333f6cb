//! Requests at the home: those that wait, and the one that is served.

ghost use Rattle.std.specs.Prelude.{◌≡◌};
ghost use Rattle.chi_homeline.specs.Home.{form_message};

use chi_flit::{Agent, CompData, Data, Kind, Msg, RspDown, Slot, Snoop};

/// A request that was let in and not started yet.
/// Source: `docs/PROTOCOL.md`, "One line".
#[derive(Clone, Copy, Debug, PartialEq, Eq)]
pub struct Waiting {
    pub kind: Kind,
    pub slot: Slot,
}

/// What the home does at a line. A line serves one request at a time.
/// Source: `docs/PROTOCOL.md`, "One line".
#[derive(Clone, Copy, Debug, PartialEq, Eq)]
pub enum Serving {
    /// No request is served.
    Idle,
    /// Snoops were sent for this agent's request, and some answer is still awaited.
    Snooping {
        agent: Agent,
        kind: Kind,
        slot: Slot,
    },
    /// The agent was sent its completion, and its CompAck is awaited.
    AwaitingCompAck {
        agent: Agent,
        slot: Slot,
    },
    /// The agent was asked for its write data.
    AwaitingWriteData {
        agent: Agent,
        kind: Kind,
        slot: Slot,
    },
}

/// A completion, before its data is added.
/// Source: `docs/PROTOCOL.md`, "Completion".
#[derive(Clone, Copy, Debug, PartialEq, Eq)]
pub enum CompletionForm {
    /// CompData, and whether the copy is unique.
    Data { unique: bool },
    /// Comp_UC: the agent has the data.
    NoData,
}

impl CompletionForm {
    /// The completion's message, with this data where it has any.
    /// Source: `docs/PROTOCOL.md`, "Completion".
    #[inline(always)]
    pub fn message(self, words: Data) -> Msg
        ensures { result ≡ form_message self words }
    {
        match self {
            CompletionForm::Data { unique } => Msg::DatDown(CompData { unique, words }),
            CompletionForm::NoData => Msg::RspDown(RspDown::CompUC),
        }
    }
}

/// What a start sends, before the data of a completion is added.
/// Source: `docs/PROTOCOL.md`, "Start".
#[derive(Clone, Copy, Debug, PartialEq, Eq)]
pub enum Begun {
    /// A completion of this form.
    Completes(CompletionForm),
    /// CompDBIDResp.
    WriteData,
    /// Comp_I, and the request of this slot is complete.
    Evicted(Slot),
    /// The snoop to each agent that has a mark.
    Snoops { snoop: Snoop, agents: [bool; 8] },
}

/// An agent's answer to its snoop, by what it says of the agent's copy.
/// Source: `docs/PROTOCOL.md`, "Answers of snooped agents".
#[derive(Clone, Copy, Debug, PartialEq, Eq)]
pub enum SnoopAnswer {
    /// `SnpResp_I`: no copy is left.
    I,
    /// `SnpResp_SC`: a clean copy is left.
    SC,
    /// `SnpRespData_I_PD`: no copy is left, and this is the line's value.
    IPD(Data),
    /// `SnpRespData_SC_PD`: a clean copy is left, and this is the line's value.
    SCPD(Data),
    /// `SnpRespData_SD`: this is the line's value, and the agent stays responsible for it.
    SD(Data),
}

/// The completion of a request: its agent, and the message that is to be sent to it.
/// Source: `docs/PROTOCOL.md`, "Completion".
#[derive(Clone, Copy, Debug, PartialEq, Eq)]
pub struct Completion {
    pub agent: Agent,
    pub message: Msg,
}
