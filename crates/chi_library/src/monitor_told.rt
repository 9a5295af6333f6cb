//! What the calls on a monitor tell, in C's words.

ghost use Rattle.std.specs.Prelude.{◌≡◌, map};
ghost use Rattle.chi_library.specs.MonitorCalls.{cause_number, explained_number, fault_number, fault_told, open_told, reason_number, taken_number, undone_number};

use crate::answers::{DONE, FAULT, NO_MEMORY, NO_ROOM, NOT_KEPT, OUT_OF_RANGE};
use crate::numbers::flag_number;
use chi_explain::Unexplained;
use chi_monitor::{FirstFault, LineFault, NoExplanation, NotExplained, NotTaken, OpenFlits};

/// The first flit that no run of the model sends: `ChiFault` of `chihome.h`. Where there is none all numbers are 0.
/// `reserved` is padding in C.
/// Source: `docs/LIBRARY.md`, "A monitor".
#[repr(C)]
#[derive(Clone, Copy)]
pub struct ChiFault {
    pub number: u64,
    pub reason: u8,
    pub agent: u8,
    pub line: u8,
    pub reserved: [u8; 5],
}

/// What is open of an agent at a line, 1 where it is: `ChiOpen` of `chihome.h`.
/// Source: `docs/LIBRARY.md`, "A monitor".
#[repr(C)]
#[derive(Clone, Copy)]
pub struct ChiOpen {
    pub request: u8,
    pub retried: u8,
    pub snoop: u8,
    pub completion: u8,
    pub write_data: u8,
}

impl ChiFault {
    /// No fault: all numbers are 0.
    pub(crate) const NONE: ChiFault = ChiFault {
        number: 0,
        reason: 0,
        agent: 0,
        line: 0,
        reserved: [0; 5],
    };
}

impl ChiOpen {
    /// Nothing is open.
    pub(crate) const NONE: ChiOpen = ChiOpen {
        request: 0,
        retried: 0,
        snoop: 0,
        completion: 0,
        write_data: 0,
    };
}

/// The answer to a fault.
fn fault_number(reason: LineFault) -> u8
    ensures { result ≡ fault_number reason }
{
    match reason {
        LineFault::NoMemory => NO_MEMORY,
        _ => FAULT,
    }
}

/// The answer to a flit.
pub(crate) fn taken_number(taken: Result<(), NotTaken>) -> u8
    ensures { result ≡ taken_number taken }
{
    match taken {
        Ok(()) => DONE,
        Err(NotTaken::OutOfRange) => OUT_OF_RANGE,
        Err(NotTaken::Full) => NO_ROOM,
        Err(NotTaken::Faulty(reason)) => fault_number(reason),
    }
}

/// The number of a reason.
fn reason_number(reason: LineFault) -> u8
    ensures { result ≡ reason_number reason }
{
    match reason {
        LineFault::NoMemory => 1,
        LineFault::NoAgent => 2,
        LineFault::Pending(_) => 3,
        LineFault::Needs(_, _) => 4,
        LineFault::NotRetried(_) => 5,
        LineFault::NothingToRetry => 6,
        LineFault::ServedRetry(_) => 7,
        LineFault::NobodyAsks(_) => 8,
        LineFault::EarlySnoop(_)
        | LineFault::EarlyCompletion(_)
        | LineFault::EarlyEvict(_)
        | LineFault::EarlyCopyBack(_) => 9,
        LineFault::SnoopedTwice(_) => 10,
        LineFault::NothingToAnswer => 11,
        LineFault::Answer(_, _, _) => 12,
        LineFault::Words(_) => 13,
        LineFault::NoRead | LineFault::NoCleanUnique | LineFault::NoEvict | LineFault::NoCopyBack =>
            14,
        LineFault::Snoops(_, _) => 15,
        LineFault::Form(_) => 16,
        LineFault::NoAckAwaited | LineFault::NoWriteDataAwaited => 17,
        LineFault::WriteForm(_, _) => 18,
        LineFault::OtherCredit(_, _) => 20,
        _ => 19,
    }
}

/// The first fault, if there is one.
pub(crate) fn fault_told(fault: Option<FirstFault>) -> ChiFault
    ensures { result ≡ fault_told fault }
{
    match fault {
        Some(first) => ChiFault {
            number: first.number,
            reason: reason_number(first.reason),
            agent: first.flit.agent.0,
            line: first.line.0,
            reserved: [0; 5],
        },
        None => ChiFault::NONE,
    }
}

/// What is open of an agent.
fn open_told(open_flits: OpenFlits) -> ChiOpen
    ensures { result ≡ open_told open_flits }
{
    ChiOpen {
        request: flag_number(open_flits.request),
        retried: flag_number(open_flits.retried),
        snoop: flag_number(open_flits.snoop),
        completion: flag_number(open_flits.completion),
        write_data: flag_number(open_flits.write_data),
    }
}

/// What is open of each agent.
pub(crate) fn all_open_told(agents: &[OpenFlits; 8]) -> [ChiOpen; 8]
    ensures { result ≡ map open_told agents.now }
{
    agents.map(|agent| open_told(agent))
}

/// The answer where actions that were found don't explain the flits.
fn undone_number(cause: Unexplained) -> u8
    ensures { result ≡ undone_number cause }
{
    match cause {
        Unexplained::NoMemory => NO_MEMORY,
        _ => FAULT,
    }
}

/// The answer where flits aren't explained.
fn cause_number(cause: NoExplanation) -> u8
    ensures { result ≡ cause_number cause }
{
    match cause {
        NoExplanation::NoMemory => NO_MEMORY,
        NoExplanation::Fault(_, _) => FAULT,
        NoExplanation::Undone(cause) => undone_number(cause),
    }
}

/// The answer to a question for an explanation.
pub(crate) fn explained_number(told: Result<(), NotExplained>) -> u8
    ensures { result ≡ explained_number told }
{
    match told {
        Ok(()) => DONE,
        Err(NotExplained::OutOfRange) => OUT_OF_RANGE,
        Err(NotExplained::NotKept) => NOT_KEPT,
        Err(NotExplained::Not(cause)) => cause_number(cause),
    }
}
