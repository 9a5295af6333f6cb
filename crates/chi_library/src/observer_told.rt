//! What the calls on an observer are told and tell, in C's words.

ghost use Rattle.std.specs.Prelude.{◌≡◌};
ghost use Rattle.chi_observe.specs.Told.{is_nothing_judged, is_unjudged};
ghost use Rattle.chi_library.specs.ObserverTold.{counts_told, early_at, ended_number, facts_told, fault_told, id_reason_number, is_size, judged_number, least, least_byte, line_address, line_number, line_reason_number, opening_at, reason_number, room_at, rule_number, stores_at, types_at, unjudged_told};

use crate::answers::{DONE, FAULT, FULL, NO_MEMORY, NOTHING_JUDGED, PARTLY_JUDGED, SET_ASIDE};
use crate::numbers::flag_number;
use chi_ids::CacheLine;
use chi_observe::{
    Counts, CreditTypes, FaultFacts, IdReason, Judged, LineReason, Log, Room, Tally, WatchFault,
    WatchOptions,
};
use chi_observer::{Reason, Stores};
use chi_trace::TraceForm;

/// What an observer is opened for: `ChiObserverConfig` of `chihome.h`. `reserved` is padding in C, and isn't read.
/// Source: `docs/LIBRARY.md`, "An observer".
#[repr(C)]
#[derive(Clone, Copy)]
pub struct ChiObserverConfig {
    pub lines: u32,
    pub ids: u32,
    pub accounts: u32,
    pub requesters: u8,
    pub homes: u8,
    pub types: u8,
    pub early_grants: u8,
    pub stores: u8,
    pub reserved: [u8; 3],
}

/// The first flit that isn't taken: `ChiObserverFault` of `chihome.h`. Where there is none all numbers are 0. `reserved` is
/// padding in C.
/// Source: `docs/LIBRARY.md`, "An observer".
#[repr(C)]
#[derive(Clone, Copy)]
pub struct ChiObserverFault {
    pub number: u64,
    pub line: u64,
    pub node: u16,
    pub reason: u8,
    pub has_line: u8,
    pub reserved: [u8; 4],
}

/// How much an observer has seen, and what it holds: `ChiObserverCounts` of `chihome.h`. `reserved` is padding in C.
/// Source: `docs/LIBRARY.md`, "An observer".
#[repr(C)]
#[derive(Clone, Copy)]
pub struct ChiObserverCounts {
    pub flits: u64,
    pub accesses: u64,
    pub lines: u64,
    pub aside: u64,
    pub ids: u32,
    pub accounts: u32,
    pub requests: u32,
    pub completions: u32,
    pub snoops: u32,
    pub retried: u32,
    pub unsettled: u32,
    pub requesters: u8,
    pub homes: u8,
    pub reserved: [u8; 2],
}

/// How much of what an observer was given it hasn't judged: `ChiUnjudged` of `chihome.h`.
/// Source: `docs/LIBRARY.md`, "An observer".
#[repr(C)]
#[derive(Clone, Copy)]
pub struct ChiUnjudged {
    pub flits: u64,
    pub of_flits: u64,
    pub lines: u64,
    pub of_lines: u64,
    pub accesses: u64,
    pub of_accesses: u64,
}

/// What an observer opens with.
#[derive(Clone, Copy)]
pub(crate) struct Opening {
    pub options: WatchOptions,
    pub room: Room,
}

impl ChiObserverFault {
    /// No fault.
    pub(crate) const NONE: ChiObserverFault = ChiObserverFault {
        number: 0,
        line: 0,
        node: 0,
        reason: 0,
        has_line: 0,
        reserved: [0; 4],
    };
}

impl ChiObserverCounts {
    /// Nothing is told.
    pub(crate) const NONE: ChiObserverCounts = ChiObserverCounts {
        flits: 0,
        accesses: 0,
        lines: 0,
        aside: 0,
        ids: 0,
        accounts: 0,
        requests: 0,
        completions: 0,
        snoops: 0,
        retried: 0,
        unsettled: 0,
        requesters: 0,
        homes: 0,
        reserved: [0; 2],
    };
}

impl ChiUnjudged {
    /// Nothing is told.
    pub(crate) const NONE: ChiUnjudged = ChiUnjudged {
        flits: 0,
        of_flits: 0,
        lines: 0,
        of_lines: 0,
        accesses: 0,
        of_accesses: 0,
    };
}

/// The credit types of a number.
fn types_at(number: u8) -> Option<CreditTypes>
    ensures { result ≡ types_at number }
{
    match number {
        0 => Some(CreditTypes::Any),
        2 => Some(CreditTypes::Two),
        4 => Some(CreditTypes::Four),
        _ => None,
    }
}

/// A flag of a number.
fn early_at(number: u8) -> Option<bool>
    ensures { result ≡ early_at number }
{
    match number {
        0 => Some(false),
        1 => Some(true),
        _ => None,
    }
}

/// Whether stores may be hidden, of a number.
fn stores_at(number: u8) -> Option<Stores>
    ensures { result ≡ stores_at number }
{
    match number {
        0 => Some(Stores::Hidden),
        1 => Some(Stores::Listed),
        _ => None,
    }
}

/// Whether a table may have so many.
fn is_size(number: u32) -> bool
    ensures { result ≡ is_size number }
{
    1 <= number && number <= 16_777_216
}

/// The room, where each size is in its limits.
fn room_at(config: &ChiObserverConfig) -> Option<Room>
    ensures { result ≡ room_at config.now }
{
    let sizes = is_size(config.lines) && (is_size(config.ids) && is_size(config.accounts));
    let nodes = 1 <= config.requesters && (config.requesters <= 32 && 1 <= config.homes);
    if sizes && nodes {
        Some(Room {
            requesters: config.requesters as usize,
            homes: config.homes as usize,
            lines: config.lines as usize,
            ids: config.ids as usize,
            accounts: config.accounts as usize,
        })
    } else {
        None
    }
}

/// What an observer opens with; none where a number is none of its own.
pub(crate) fn opening_at(config: &ChiObserverConfig) -> Option<Opening>
    ensures { result ≡ opening_at config.now }
{
    let room = room_at(config)?;
    let types = types_at(config.types)?;
    let early_grants = early_at(config.early_grants)?;
    let stores = stores_at(config.stores)?;
    let options = WatchOptions {
        types,
        early_grants,
        stores,
        log: Log::Whole,
        form: TraceForm::USUAL,
    };
    Some(Opening { options, room })
}

/// The answer to a flit.
pub(crate) fn judged_number(judged: Judged) -> u8
    ensures { result ≡ judged_number judged }
{
    match judged {
        Judged::Taken => DONE,
        Judged::SetAside => SET_ASIDE,
        Judged::Full => FULL,
        Judged::Untaken => FAULT,
        Judged::NoMemory => NO_MEMORY,
    }
}

/// The number of a reason of ids or credits.
fn id_reason_number(reason: IdReason) -> u8
    ensures { result ≡ id_reason_number reason }
{
    match reason {
        IdReason::InUse(_) => 1,
        IdReason::NotOpen(_) => 2,
        IdReason::Unfinished(_) => 3,
        IdReason::WordAgain(_) => 4,
        IdReason::WrongAddress { named: _, line: _ } => 5,
        IdReason::NotRetryable(_) => 6,
        IdReason::OtherType {
            named: _,
            wanted: _,
        } => 7,
        IdReason::NothingRetried(_, _) => 8,
        IdReason::NoCredit(_, _) => 9,
        IdReason::NoDbid(_) => 10,
        IdReason::Form(_) => 11,
        IdReason::OtherBeat(_) => 25,
    }
}

/// The number of a rule of a line.
fn rule_number(reason: Reason) -> u8
    ensures { result ≡ rule_number reason }
{
    match reason {
        Reason::NotJudged => 13,
        Reason::NoAgent => 14,
        Reason::NotSent => 15,
        Reason::NotDue => 16,
        Reason::Busy => 17,
        Reason::NoMoment => 18,
        Reason::NoOverwriter => 19,
        Reason::NoDuty => 20,
        Reason::OtherWords => 21,
        Reason::OtherCopy => 22,
        Reason::Lost => 23,
    }
}

/// The number of a reason of a line.
fn line_reason_number(reason: LineReason) -> u8
    ensures { result ≡ line_reason_number reason }
{
    match reason {
        LineReason::OtherHome(_) => 12,
        LineReason::Rule(reason) => rule_number(reason),
    }
}

/// The number of a reason.
fn reason_number(fault: WatchFault) -> u8
    ensures { result ≡ reason_number fault }
{
    match fault {
        WatchFault::Ids(reason) => id_reason_number(reason),
        WatchFault::Line(reason) => line_reason_number(reason),
    }
}

/// The address of the first byte of a line.
fn line_address(line: CacheLine) -> u64
    ensures { result ≡ line_address line }
{
    line.0 % 0x400_0000_0000_0000 * 64
}

/// The address of a line, if it is known.
fn line_number(line: Option<CacheLine>) -> u64
    ensures { result ≡ line_number line }
{
    match line {
        Some(line) => line_address(line),
        None => 0,
    }
}

/// What is told of the first flit that isn't taken.
fn facts_told(facts: &FaultFacts) -> ChiObserverFault
    ensures { result ≡ facts_told facts.now }
{
    ChiObserverFault {
        number: facts.number as u64,
        line: line_number(facts.line),
        node: facts.sides.requester.0,
        reason: reason_number(facts.fault),
        has_line: flag_number(facts.line.is_some()),
        reserved: [0; 4],
    }
}

/// The same, if there is one.
pub(crate) fn fault_told(facts: &Option<FaultFacts>) -> ChiObserverFault
    ensures { result ≡ fault_told facts.now }
{
    match facts {
        Some(facts) => facts_told(facts),
        None => ChiObserverFault::NONE,
    }
}

/// A number that is told in 32 bits.
fn least(number: usize) -> u32
    ensures { result ≡ least number }
{
    number.min(0xffff_ffff) as u32
}

/// A number that is told in 8 bits.
fn least_byte(number: usize) -> u8
    ensures { result ≡ least_byte number }
{
    number.min(255) as u8
}

/// How much an observer has seen, and what it holds.
pub(crate) fn counts_told(tally: &Tally) -> ChiObserverCounts
    ensures { result ≡ counts_told tally.now }
{
    let counts = tally.counts;
    ChiObserverCounts {
        flits: counts.flits,
        accesses: counts.accesses,
        lines: counts.lines,
        aside: counts.aside,
        ids: least(tally.ids),
        accounts: least(tally.accounts),
        requests: least(tally.requests),
        completions: least(tally.completions),
        snoops: least(tally.snoops),
        retried: least(tally.retried),
        unsettled: least(tally.unsettled),
        requesters: least_byte(tally.requesters),
        homes: least_byte(tally.homes),
        reserved: [0; 2],
    }
}

/// How much wasn't judged.
pub(crate) fn unjudged_told(counts: &Counts) -> ChiUnjudged
    ensures { result ≡ unjudged_told counts.now }
{
    ChiUnjudged {
        flits: counts.unjudged,
        of_flits: counts.flits,
        lines: counts.aside,
        of_lines: counts.lines,
        accesses: counts.unseen,
        of_accesses: counts.accesses,
    }
}

/// Whether nothing was judged.
fn is_nothing_judged(counts: &Counts) -> bool
    ensures { result ≡ is_nothing_judged counts.now }
{
    counts.flits.saturating_sub(counts.unjudged) == 0
        && counts.accesses.saturating_sub(counts.unseen) == 0
}

/// Whether something wasn't.
fn is_unjudged(counts: &Counts) -> bool
    ensures { result ≡ is_unjudged counts.now }
{
    counts.unjudged != 0 || (counts.unseen != 0 || counts.cut.is_some())
}

/// What the close of an observer answers that has seen so much.
pub(crate) fn ended_number(counts: &Counts) -> u8
    ensures { result ≡ ended_number counts.now }
{
    if is_nothing_judged(counts) {
        NOTHING_JUDGED
    } else if is_unjudged(counts) {
        PARTLY_JUDGED
    } else {
        DONE
    }
}
