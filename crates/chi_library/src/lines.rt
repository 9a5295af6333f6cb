//! A line in C's words.

ghost use Rattle.std.specs.Prelude.{◌≡◌, map};
ghost use Rattle.chi_library.specs.Numbers.{flag_number};
ghost use Rattle.chi_library.specs.Lines.{copy_told, line_told, owner_number, pending_told, phase_number, serving_told, waiting_told};

use crate::numbers::flag_number;
use chi_flit::{Agent, NO_DATA};
use chi_slice::{CopyView, LineView, Pending, Phase, Serving, Waiting};

/// A requester's copy of a line: `ChiCopy` of `chihome.h`. The words mean nothing in state I.
/// Source: `docs/PROTOCOL.md`, "One line".
#[repr(C)]
#[derive(Clone, Copy)]
pub struct ChiCopy {
    pub state: u8,
    pub words: [u64; 8],
}

/// A requester's pending request, or one that waits at the home: `ChiRequest` of `chihome.h`. Where there is
/// none all numbers are 0.
/// Source: `docs/PROTOCOL.md`, "One line".
#[repr(C)]
#[derive(Clone, Copy)]
pub struct ChiRequest {
    pub phase: u8,
    pub kind: u8,
    pub slot: u8,
}

/// What the home does at a line: `ChiServing` of `chihome.h`. Numbers that the form hasn't are 0.
/// Source: `docs/PROTOCOL.md`, "One line".
#[repr(C)]
#[derive(Clone, Copy)]
pub struct ChiServing {
    pub form: u8,
    pub agent: u8,
    pub kind: u8,
    pub slot: u8,
}

/// All parts of a line but its flits, by agent number: `ChiLine` of `chihome.h`.
/// Source: `docs/PROTOCOL.md`, "One line".
#[repr(C)]
#[derive(Clone, Copy)]
pub struct ChiLine {
    pub copies: [ChiCopy; 8],
    pub memory: [u64; 8],
    pub last: [u64; 8],
    pub pending: [ChiRequest; 8],
    pub waiting: [ChiRequest; 8],
    pub named: [u8; 8],
    pub awaited: [u8; 8],
    pub serving: ChiServing,
    pub unique: u8,
    pub owner: u8,
}

/// The number of no agent.
const NOBODY: u8 = 255;

impl ChiCopy {
    /// No copy: all numbers are 0.
    pub(crate) const NONE: ChiCopy = ChiCopy {
        state: 0,
        words: NO_DATA,
    };
}

impl ChiRequest {
    /// No request: all numbers are 0.
    pub(crate) const NONE: ChiRequest = ChiRequest {
        phase: 0,
        kind: 0,
        slot: 0,
    };
}

impl ChiServing {
    /// No request is served.
    pub(crate) const NONE: ChiServing = ChiServing {
        form: 0,
        agent: 0,
        kind: 0,
        slot: 0,
    };
}

impl ChiLine {
    /// A line of which nothing is told: all numbers are 0.
    pub(crate) const NONE: ChiLine = ChiLine {
        copies: [ChiCopy::NONE; 8],
        memory: NO_DATA,
        last: NO_DATA,
        pending: [ChiRequest::NONE; 8],
        waiting: [ChiRequest::NONE; 8],
        named: [0; 8],
        awaited: [0; 8],
        serving: ChiServing::NONE,
        unique: 0,
        owner: 0,
    };
}

/// A copy.
fn copy_told(copy: CopyView) -> ChiCopy
    ensures { result ≡ copy_told copy }
{
    let words = copy.words;
    ChiCopy {
        state: copy.state.number(),
        words,
    }
}

/// The number of a phase.
fn phase_number(phase: Phase) -> u8
    ensures { result ≡ phase_number phase }
{
    match phase {
        Phase::Sent => 1,
        Phase::Retried => 2,
    }
}

/// A pending request, if there is one.
fn pending_told(pending: Option<Pending>) -> ChiRequest
    ensures { result ≡ pending_told pending }
{
    match pending {
        Some(request) => ChiRequest {
            phase: phase_number(request.phase),
            kind: request.kind.number(),
            slot: request.slot.0,
        },
        None => ChiRequest::NONE,
    }
}

/// A waiting request, if there is one.
fn waiting_told(waiting: Option<Waiting>) -> ChiRequest
    ensures { result ≡ waiting_told waiting }
{
    match waiting {
        Some(request) => ChiRequest {
            phase: 3,
            kind: request.kind.number(),
            slot: request.slot.0,
        },
        None => ChiRequest::NONE,
    }
}

/// What is served.
fn serving_told(serving: Serving) -> ChiServing
    ensures { result ≡ serving_told serving }
{
    match serving {
        Serving::Idle => ChiServing::NONE,
        Serving::Snooping { agent, kind, slot } => ChiServing {
            form: 1,
            agent: agent.0,
            kind: kind.number(),
            slot: slot.0,
        },
        Serving::AwaitingCompAck { agent, slot } => ChiServing {
            form: 2,
            agent: agent.0,
            kind: 0,
            slot: slot.0,
        },
        Serving::AwaitingWriteData { agent, kind, slot } => ChiServing {
            form: 3,
            agent: agent.0,
            kind: kind.number(),
            slot: slot.0,
        },
    }
}

/// The number of an agent, if there is one.
fn owner_number(owner: Option<Agent>) -> u8
    ensures { result ≡ owner_number owner }
{
    match owner {
        Some(agent) => agent.0,
        None => NOBODY,
    }
}

/// The copies, by agent.
fn copies_told(copies: &[CopyView; 8]) -> [ChiCopy; 8]
    ensures { result ≡ map copy_told copies.now }
{
    copies.map(|copy| copy_told(copy))
}

/// The pending requests, by agent.
fn all_pending_told(pending: &[Option<Pending>; 8]) -> [ChiRequest; 8]
    ensures { result ≡ map pending_told pending.now }
{
    pending.map(|request| pending_told(request))
}

/// The waiting requests, by agent.
fn all_waiting_told(waiting: &[Option<Waiting>; 8]) -> [ChiRequest; 8]
    ensures { result ≡ map waiting_told waiting.now }
{
    waiting.map(|request| waiting_told(request))
}

/// Flags, by agent.
fn flags_told(flags: &[bool; 8]) -> [u8; 8]
    ensures { result ≡ map flag_number flags.now }
{
    flags.map(|flag| flag_number(flag))
}

/// A line in C's words.
pub(crate) fn line_told(view: &LineView) -> ChiLine
    ensures { result ≡ line_told view.now }
{
    let copies = copies_told(&view.copies);
    let memory = view.memory;
    let last = view.last;
    let pending = all_pending_told(&view.pending);
    let waiting = all_waiting_told(&view.waiting);
    let named = flags_told(&view.named);
    let awaited = flags_told(&view.awaited);
    ChiLine {
        copies,
        memory,
        last,
        pending,
        waiting,
        named,
        awaited,
        serving: serving_told(view.serving),
        unique: flag_number(view.unique),
        owner: owner_number(view.owner),
    }
}
