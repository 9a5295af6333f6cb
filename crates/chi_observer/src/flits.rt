//! The flits of a line, as an observer sees them.

ghost use Rattle.std.specs.Prelude.{◌≡◌};
ghost use Rattle.chi_observer.specs.Judged.{is_judged, judges_act, judges_grant};

use crate::kinds::{Kind, Snoop};
use chi_flit::{Agent, Data, State, WordNo};

/// Whether each store of a processor is told of.
/// Source: `docs/OBSERVER.md`, "Stores that are listed".
#[derive(Clone, Copy, Debug, PartialEq, Eq)]
pub enum Stores {
    /// Any may be missing.
    Hidden,
    /// None is missing.
    Listed,
}

/// What is due next of an agent's request to the line.
/// Source: `docs/OBSERVER.md`, "What is kept".
#[derive(Clone, Copy, Debug, PartialEq, Eq)]
pub enum Due {
    /// Nothing: no request is open.
    Nothing,
    /// The home's completion, or its RetryAck, of a request of this kind that was sent with AllowRetry 1.
    Completion(Kind),
    /// The request again, of this kind, with AllowRetry 0; or nothing, where the agent cancels it, which nobody sees.
    Resending(Kind),
    /// The home's completion of a request of this kind that was sent with AllowRetry 0.
    SureCompletion(Kind),
    /// The write data of a copy-back, or of a WriteUniqueFull.
    WriteData(Kind),
    /// The requester's CompAck.
    Acknowledgement,
}

/// An answer to a snoop, by its opcode and RESP.
/// Source: `docs/OBSERVER.md`, "Flits of a cache".
#[derive(Clone, Copy, Debug, PartialEq, Eq)]
pub enum Answer {
    SnpRespI,
    SnpRespSC,
    SnpRespUC,
    SnpRespDataI,
    SnpRespDataSC,
    SnpRespDataUC,
    SnpRespDataUD,
    SnpRespDataSD,
    SnpRespDataIPD,
    SnpRespDataSCPD,
    SnpRespDataUCPD,
}

/// A word of the line, as a load reads it or a store writes it.
/// Source: `docs/TRACES.md`, "Loads and stores".
#[derive(Clone, Copy, Debug, PartialEq, Eq)]
pub struct Word {
    /// Which one of the eight.
    pub place: WordNo,
    pub value: u64,
}

/// What a flit of a cache is.
/// Source: `docs/OBSERVER.md`, "Flits of a cache".
#[derive(Clone, Copy, Debug, PartialEq, Eq)]
pub enum Act {
    /// A request, with AllowRetry 1.
    Request(Kind),
    /// A request that was retried, with AllowRetry 0.
    Resend(Kind),
    /// An answer to a snoop.
    SnpResp(Answer),
    /// The acknowledgement of a completion.
    CompAck,
    /// Write data, in the form of its sender's state: `UD` for `CopyBackWrData_UD_PD`, `SD` for `_SD_PD`.
    CopyBackWrData(State),
    /// The write data of a WriteUniqueFull.
    NonCopyBackWrData,
    /// A load of its processor, of this word.
    Load(Word),
    /// A store of its processor, to this word. An observer judges what it writes where all stores are listed alone.
    Store(Word),
}

/// A flit of a cache.
#[derive(Clone, Copy, Debug, PartialEq, Eq)]
pub struct CacheFlit {
    /// Whose cache sends it.
    pub agent: Agent,
    /// What it is.
    pub act: Act,
    /// Its words; of no meaning where it carries none.
    pub shown: Data,
}

/// What a flit of the home is.
/// Source: `docs/OBSERVER.md`, "Flits of the home".
#[derive(Clone, Copy, Debug, PartialEq, Eq)]
pub enum Grant {
    /// RetryAck.
    RetryAck,
    /// A snoop.
    Snp(Snoop),
    /// The data of a read, by RESP: `UD` for `CompData_UD_PD`, `SD` for `_SD_PD`.
    CompData(State),
    /// A completion without data, with RESP `UC`.
    CompUC,
    /// A completion without data, with RESP `SC`.
    CompSC,
    /// A completion without data, with RESP `I`.
    CompI,
    /// The leave to send write data.
    CompDBIDResp,
}

/// A flit of the home.
#[derive(Clone, Copy, Debug, PartialEq, Eq)]
pub struct HomeFlit {
    /// To whom it goes.
    pub agent: Agent,
    /// What it is.
    pub grant: Grant,
    /// Its words; of no meaning where it carries none.
    pub shown: Data,
}

/// A flit of a line.
#[derive(Clone, Copy, Debug, PartialEq, Eq)]
pub enum Flit {
    /// Of a cache.
    Up(CacheFlit),
    /// Of the home.
    Down(HomeFlit),
}

impl Act {
    /// Whether such flits are judged: all are.
    /// Source: `docs/OBSERVER.md`, "What is judged".
    pub fn is_judged(self) -> bool
        ensures { result ≡ judges_act self }
    {
        match self {
            Act::Request(kind) => kind.is_judged(),
            Act::Resend(kind) => kind.is_judged(),
            Act::SnpResp(_)
            | Act::CompAck
            | Act::CopyBackWrData(_)
            | Act::NonCopyBackWrData
            | Act::Load(_)
            | Act::Store(_) => true,
        }
    }
}

impl Grant {
    /// Whether such flits are judged: all are.
    /// Source: `docs/OBSERVER.md`, "What is judged".
    pub fn is_judged(self) -> bool
        ensures { result ≡ judges_grant self }
    {
        match self {
            Grant::Snp(snoop) => snoop.is_judged(),
            Grant::RetryAck
            | Grant::CompData(_)
            | Grant::CompUC
            | Grant::CompSC
            | Grant::CompI
            | Grant::CompDBIDResp => true,
        }
    }
}

impl Flit {
    /// Whether the flit is judged: all are.
    /// Source: `docs/OBSERVER.md`, "What is judged".
    pub fn is_judged(self) -> bool
        ensures { result ≡ is_judged self }
    {
        match self {
            Flit::Up(sent) => sent.act.is_judged(),
            Flit::Down(given) => given.grant.is_judged(),
        }
    }
}
