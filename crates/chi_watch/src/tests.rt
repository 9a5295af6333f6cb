//! What comes to a line, step by step, and what is judged then.

use crate::held::HeldFlit;
use crate::judge::{LineReason, Start};
use crate::lines::{Drained, LineFault, Lines, Tally};
use crate::nodes::Nodes;
use crate::told::{Cause, Told};
use chi_copies::Reason;
use chi_flit::{Agent, Data, NO_DATA, State, WordNo};
use chi_issue_b::{Beat, CacheLine, NodeId, Opcode, SnoopOpcode};
use chi_observer::{Act, Answer, CacheFlit, Flit, Grant, HomeFlit, Kind, Snoop, Stores, Word};
use std::alloc::Allocator;

/// What comes to a line.
#[derive(Clone, Copy)]
enum Coming {
    /// A flit of a cache, or the first beat of its data.
    Sent(Act),
    /// One of the home.
    Given(Grant),
    /// One that the rules haven't.
    Unknown,
    /// A later beat.
    Later,
}

/// Which words it has.
#[derive(Clone, Copy)]
enum Has {
    /// All, or it is no data.
    All,
    /// The words 0 to 3, and others are to come by this id.
    Low(u64),
    /// The words 4 to 7, and others are to come by this id.
    High(u64),
    /// The words 0 to 3, and others have come by this id.
    LowLast(u64),
    /// The words 4 to 7, and others have come by this id.
    HighLast(u64),
}

/// What comes, with its agent and the words that it has out of these; how many flits are judged then, and how many pass unjudged;
/// and the flit that is a fault, by its place from 1, if one is.
type Step = (
    Coming,
    u8,
    Has,
    &'static Data,
    usize,
    usize,
    Option<(u64, LineReason)>,
);

const OLD: Data = [7; 8];

const NEW: Data = [9; 8];

const READ_SHARED: Coming = Coming::Sent(Act::Request(Kind::ReadShared));

const READ_UNIQUE: Coming = Coming::Sent(Act::Request(Kind::ReadUnique));

const WRITE_BACK: Coming = Coming::Sent(Act::Request(Kind::WriteBackFull));

const COMP_ACK: Coming = Coming::Sent(Act::CompAck);

const WRITTEN: Coming = Coming::Sent(Act::CopyBackWrData(State::UD));

const GONE: Coming = Coming::Sent(Act::SnpResp(Answer::SnpRespI));

const SHARED: Coming = Coming::Given(Grant::CompData(State::SC));

const UNIQUE: Coming = Coming::Given(Grant::CompData(State::UC));

const GRANTED: Coming = Coming::Given(Grant::CompDBIDResp);

const SNOOPED: Coming = Coming::Given(Grant::Snp(Snoop::SnpShared));

const OTHER_WORDS: LineReason = LineReason::Rule(Reason::OtherWords);

/// Beats in either order, with flits of the line between them.
#[rattlefmt::skip]
const BEATS: [Step; 11] = [
    (READ_SHARED,   0, Has::All,         &OLD, 1, 0, None),
    (SHARED,        0, Has::Low(1),      &OLD, 0, 0, None),
    (READ_SHARED,   1, Has::All,         &OLD, 0, 0, None),
    (Coming::Later, 0, Has::HighLast(1), &OLD, 2, 0, None),
    (COMP_ACK,      0, Has::All,         &OLD, 1, 0, None),
    (SHARED,        1, Has::High(3),     &OLD, 0, 0, None),
    (COMP_ACK,      1, Has::All,         &OLD, 0, 0, None),
    (READ_SHARED,   2, Has::All,         &OLD, 0, 0, None),
    (Coming::Later, 1, Has::LowLast(3),  &OLD, 3, 0, None),
    (SHARED,        2, Has::All,         &OLD, 1, 0, None),
    (COMP_ACK,      2, Has::All,         &OLD, 1, 0, None),
];

/// A snoop between the beats of write data.
#[rattlefmt::skip]
const WRITES: [Step; 12] = [
    (READ_UNIQUE,   0, Has::All,         &OLD, 1, 0, None),
    (UNIQUE,        0, Has::All,         &OLD, 1, 0, None),
    (COMP_ACK,      0, Has::All,         &OLD, 1, 0, None),
    (WRITE_BACK,    0, Has::All,         &OLD, 1, 0, None),
    (READ_SHARED,   1, Has::All,         &OLD, 1, 0, None),
    (GRANTED,       0, Has::All,         &OLD, 1, 0, None),
    (WRITTEN,       0, Has::Low(6),      &NEW, 0, 0, None),
    (SNOOPED,       0, Has::All,         &OLD, 0, 0, None),
    (Coming::Later, 0, Has::HighLast(6), &NEW, 2, 0, None),
    (GONE,          0, Has::All,         &OLD, 1, 0, None),
    (SHARED,        1, Has::All,         &NEW, 1, 0, None),
    (COMP_ACK,      1, Has::All,         &OLD, 1, 0, None),
];

/// Two data begin before either ends.
#[rattlefmt::skip]
const TWO: [Step; 8] = [
    (READ_SHARED,   0, Has::All,         &OLD, 1, 0, None),
    (READ_SHARED,   1, Has::All,         &OLD, 1, 0, None),
    (SHARED,        0, Has::Low(1),      &OLD, 0, 0, None),
    (SHARED,        1, Has::Low(2),      &OLD, 0, 0, None),
    (Coming::Later, 1, Has::HighLast(2), &OLD, 0, 0, None),
    (Coming::Later, 0, Has::HighLast(1), &OLD, 2, 0, None),
    (COMP_ACK,      1, Has::All,         &OLD, 1, 0, None),
    (COMP_ACK,      0, Has::All,         &OLD, 1, 0, None),
];

/// A fault that is met when the beats end has the number of the last one, and nothing behind it is judged.
#[rattlefmt::skip]
const FAULT: [Step; 8] = [
    (READ_SHARED,   0, Has::All,         &OLD, 1, 0, None),
    (SHARED,        0, Has::All,         &OLD, 1, 0, None),
    (COMP_ACK,      0, Has::All,         &OLD, 1, 0, None),
    (READ_SHARED,   1, Has::All,         &OLD, 1, 0, None),
    (SHARED,        1, Has::Low(4),      &OLD, 0, 0, None),
    (COMP_ACK,      1, Has::All,         &OLD, 0, 0, None),
    (Coming::Later, 1, Has::HighLast(4), &NEW, 0, 1, Some((7, OTHER_WORDS))),
    (READ_SHARED,   2, Has::All,         &OLD, 0, 1, None),
];

/// A flit without a row sets the line aside at its place.
#[rattlefmt::skip]
const UNKNOWN: [Step; 6] = [
    (READ_SHARED,     0, Has::All,         &OLD, 1, 0, None),
    (SHARED,          0, Has::Low(1),      &OLD, 0, 0, None),
    (Coming::Unknown, 0, Has::All,         &OLD, 0, 0, None),
    (COMP_ACK,        0, Has::All,         &OLD, 0, 0, None),
    (Coming::Later,   0, Has::HighLast(1), &OLD, 1, 2, None),
    (READ_SHARED,     1, Has::All,         &OLD, 0, 1, None),
];

/// All of them, each of a line of its own.
const ALL: [&[Step]; 5] = [&BEATS, &WRITES, &TWO, &FAULT, &UNKNOWN];

/// Which bits of a mask it has.
fn mask_of(has: Has) -> u8 {
    match has {
        Has::All => 0xff,
        Has::Low(_) | Has::LowLast(_) => 0x0f,
        Has::High(_) | Has::HighLast(_) => 0xf0,
    }
}

/// The id that awaits others, if one does.
fn awaited(has: Has) -> Option<u64> {
    match has {
        Has::Low(id) | Has::High(id) => Some(id),
        Has::All | Has::LowLast(_) | Has::HighLast(_) => None,
    }
}

/// The id by which others have come.
fn ended(has: Has) -> u64 {
    match has {
        Has::Low(id) | Has::High(id) | Has::LowLast(id) | Has::HighLast(id) => id,
        Has::All => 0,
    }
}

/// The words that are there, and 0 for each of the others.
fn words_of(has: Has, words: &Data) -> Data {
    let low = mask_of(has) & 1 == 1;
    let high = mask_of(has) >> 7 == 1;
    let mut there = NO_DATA;
    for n in 0..4 {
        there[n] = if low { words[n] } else { 0 };
        there[n + 4] = if high { words[n + 4] } else { 0 };
    }
    there
}

/// What a line is told of.
fn told_of(coming: Coming, agent: u8, shown: Data) -> Told {
    let agent = Agent(agent);
    match coming {
        Coming::Sent(act) => Told::Flit(Flit::Up(CacheFlit { agent, act, shown })),
        Coming::Given(grant) => Told::Flit(Flit::Down(HomeFlit {
            agent,
            grant,
            shown,
        })),
        Coming::Unknown | Coming::Later => {
            Told::Unjudged(Cause::Opcode(Opcode::Snp(SnoopOpcode::SnpSharedFwd)))
        }
    }
}

/// A flit that comes with this number.
fn flit_of(step: &Step, number: u64) -> HeldFlit {
    HeldFlit {
        told: told_of(step.0, step.1, words_of(step.2, step.3)),
        is_access: matches!(step.0, Coming::Sent(Act::Load(_))),
        awaits: awaited(step.2),
        number,
        last: number,
    }
}

/// What comes of a step.
fn taken<A: Allocator + Copy>(
    lines: &mut Lines<A>,
    line: CacheLine,
    step: &Step,
    number: u64,
) -> Option<Drained> {
    if matches!(step.0, Coming::Later) {
        let beat = Beat {
            words: words_of(step.2, step.3),
            given: mask_of(step.2),
        };
        return Some(lines.join(
            line,
            ended(step.2),
            &beat,
            number,
            awaited(step.2).is_none(),
        ));
    }
    lines.arrive(line, NodeId(64), &flit_of(step, number)).ok()
}

/// What is wanted of a step.
fn wanted(step: &Step) -> Drained {
    Drained {
        flits: Tally {
            judged: step.4,
            unjudged: step.5,
        },
        accesses: Tally {
            judged: 0,
            unjudged: 0,
        },
        fault: step.6.map(|(number, reason)| LineFault { number, reason }),
    }
}

/// Whether the steps come to what is wanted, at a line of this address.
fn all_pass<A: Allocator + Copy>(lines: &mut Lines<A>, address: u64, steps: &[Step]) -> bool {
    let line = CacheLine::at(address);
    let mut number = 0;
    let mut pass = true;
    for step in steps {
        if number < u64::MAX {
            number += 1;
        }
        pass &= taken(lines, line, step, number) == Some(wanted(step));
    }
    pass
}

#[test]
fn flits_are_judged_in_the_order_of_their_first_beats(rt: HostRuntime) {
    let mut lines = Lines::new(rt.alloc(), Start::Empty, Stores::Hidden);
    let mut pass = true;
    for n in 0..ALL.len() {
        pass &= all_pass(&mut lines, n as u64 * 64, ALL[n]);
    }
    assert!(rt; pass);
}

/// A read whose data begin, and what comes behind them.
#[rattlefmt::skip]
const CROWD: [Step; 5] = [
    (READ_SHARED,   0, Has::All,         &OLD, 1, 0, None),
    (SHARED,        0, Has::Low(1),      &OLD, 0, 0, None),
    (READ_SHARED,   1, Has::All,         &OLD, 0, 0, None),
    (READ_SHARED,   1, Has::All,         &OLD, 0, 65, None),
    (Coming::Later, 0, Has::HighLast(1), &OLD, 0, 0, None),
];

#[test]
fn a_line_of_which_too_many_flits_wait_is_not_judged(rt: HostRuntime) {
    let mut lines = Lines::new(rt.alloc(), Start::Empty, Stores::Hidden);
    let mut pass = all_pass(&mut lines, 64, &CROWD[..2]);
    for _ in 0..63 {
        pass &= all_pass(&mut lines, 64, &CROWD[2..3]);
    }
    pass &= all_pass(&mut lines, 64, &CROWD[3..]);
    let cause = lines.unjudged(CacheLine::at(64)).map(|since| since.cause);
    assert!(rt; pass && cause == Some(Cause::Crowded) && lines.waiting(CacheLine::at(64)) == 0);
}

/// A read, and a load before and behind its data.
#[rattlefmt::skip]
const ACCESSES: [Step; 4] = [
    (READ_SHARED,   0, Has::All,         &OLD, 1, 0, None),
    (SHARED,        0, Has::Low(1),      &OLD, 0, 0, None),
    (LOAD,          0, Has::All,         &OLD, 0, 0, None),
    (Coming::Later, 0, Has::HighLast(1), &OLD, 1, 0, None),
];

const LOAD: Coming = Coming::Sent(Act::Load(Word {
    place: WordNo(6),
    value: 7,
}));

#[test]
fn a_load_waits_for_words_that_lack(rt: HostRuntime) {
    let mut lines = Lines::new(rt.alloc(), Start::Empty, Stores::Hidden);
    let line = CacheLine::at(128);
    let pass = all_pass(&mut lines, 128, &ACCESSES[..3]);
    let done = taken(&mut lines, line, &ACCESSES[3], 4);
    assert!(rt; pass && done.map(|done| done.accesses.judged) == Some(1));
}

#[test]
fn a_line_is_of_the_home_of_its_first_flit(rt: HostRuntime) {
    let mut lines = Lines::new(rt.alloc(), Start::Empty, Stores::Hidden);
    let line = CacheLine::at(192);
    let pass = all_pass(&mut lines, 192, &CROWD[..1]);
    let other = lines.arrive(line, NodeId(65), &flit_of(&CROWD[2], 2));
    let fault = other
        .ok()
        .and_then(|done| done.fault)
        .map(|fault| fault.reason);
    assert!(rt;
        pass && fault == Some(LineReason::OtherHome) && lines.home_of(line) == Some(NodeId(64))
    );
}

#[test]
fn a_trace_may_begin_in_the_middle(rt: HostRuntime) {
    let mut lines = Lines::new(rt.alloc(), Start::Unknown, Stores::Hidden);
    let pass = all_pass(&mut lines, 256, &FROM_BEFORE[..2]);
    lines.stray(Agent(1), 3);
    assert!(rt; pass && all_pass(&mut lines, 256, &FROM_BEFORE[2..]));
}

/// An answer and write data from before.
#[rattlefmt::skip]
const FROM_BEFORE: [Step; 3] = [
    (GONE,          0, Has::All,         &OLD, 1, 0, None),
    (WRITTEN,       1, Has::All,         &OLD, 1, 0, None),
    (READ_SHARED,   1, Has::All,         &OLD, 1, 0, None),
];

#[test]
fn requesters_are_numbered_in_the_order_of_their_first_flits(rt: HostRuntime) {
    let mut nodes = Nodes::new(rt.alloc());
    let mut pass = true;
    for (requester, home, agent) in PAIRS {
        let wanted = agent.map(Agent);
        pass &= nodes.number(NodeId(requester), NodeId(home)).ok() == Some(wanted);
    }
    assert!(rt; pass && nodes.requesters() == [NodeId(8), NodeId(9), NodeId(5)].as_slice());
}

/// Requesters and homes, and the agent that each requester is.
#[rattlefmt::skip]
const PAIRS: [(u16, u16, Option<u8>); 8] = [
    (8, 64, Some(0)),
    (9, 64, Some(1)),
    (8, 65, Some(0)),
    (64, 65, None),
    (9, 8, None),
    (7, 7, None),
    (5, 65, Some(2)),
    (9, 65, Some(1)),
];
