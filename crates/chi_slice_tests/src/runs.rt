//! Worked runs at line 0, each action with its answer; and whatever else is tried between them leaves a slice
//! coherent, and as it was where it is refused.

use crate::places::done;
use chi_flit::Kind::{
    self, CleanUnique, Evict, ReadNotSharedDirty, ReadShared, ReadUnique, WriteBackFull,
    WriteCleanFull, WriteEvictFull,
};
use chi_flit::{Agent, Effect, Line, Refusal, Slot, WordNo};
use chi_slice::Effect::{Completed, Nothing, Value};
use chi_slice::Step::{
    self, Admit, Cancel, Drop, Issue, Load, RecvAck, RecvComp, RecvData, RecvDbid, RecvRetry,
    RecvSnp, RecvSnpResp, RecvWrData, Resend, Retry, Start, Store,
};
use chi_slice::{Config, LineView, Slice, check};
use std::alloc::{Allocator, Global};
use std::process::Abort;

/// An agent's step at line 0, and what it is answered.
pub type Move = (u8, Step, Result<Effect, Refusal>);

pub const FREE: Result<Effect, Refusal> = Ok(Completed(Slot(0)));

pub const DONE: Result<Effect, Refusal> = Ok(Nothing);

/// A dirty copy is snooped by a ReadNotSharedDirty: memory and reader get its data.
pub const DIRTY_DATA_HANDED_ON: [Move; 14] = [
    (0, Issue(ReadNotSharedDirty, Slot(0)), DONE),
    (0, Admit, DONE),
    (0, Start, DONE),
    (0, RecvData, DONE),
    (0, RecvAck, FREE),
    (0, Store(WordNo(3), 7), DONE),
    (1, Issue(ReadNotSharedDirty, Slot(0)), DONE),
    (1, Admit, DONE),
    (1, Start, DONE),
    (0, RecvSnp, DONE),
    (0, RecvSnpResp, DONE),
    (1, RecvData, DONE),
    (1, Load(WordNo(3)), Ok(Value(7))),
    (1, RecvAck, FREE),
];

/// A ReadUnique takes the line from under a waiting WriteBackFull, whose data then changes nothing.
pub const SNOOP_CROSSES_WRITE_BACK: [Move; 20] = [
    (0, Issue(ReadUnique, Slot(0)), DONE),
    (0, Admit, DONE),
    (0, Start, DONE),
    (0, RecvData, DONE),
    (0, RecvAck, FREE),
    (0, Store(WordNo(0), 5), DONE),
    (0, Issue(WriteBackFull, Slot(0)), DONE),
    (0, Admit, DONE),
    (1, Issue(ReadUnique, Slot(0)), DONE),
    (1, Admit, DONE),
    (1, Start, DONE),
    (0, RecvSnp, DONE),
    (0, RecvSnpResp, DONE),
    (1, RecvData, DONE),
    (1, RecvAck, FREE),
    (1, Store(WordNo(0), 9), DONE),
    (0, Start, DONE),
    (0, RecvDbid, DONE),
    (0, RecvWrData, FREE),
    (1, Load(WordNo(0)), Ok(Value(9))),
];

/// A store after the write data of a WriteCleanFull was sent: memory gets the older value.
pub const STORE_BEHIND_WRITE_CLEAN: [Move; 12] = [
    (0, Issue(ReadUnique, Slot(0)), DONE),
    (0, Admit, DONE),
    (0, Start, DONE),
    (0, RecvData, DONE),
    (0, RecvAck, FREE),
    (0, Store(WordNo(0), 5), DONE),
    (0, Issue(WriteCleanFull, Slot(0)), DONE),
    (0, Admit, DONE),
    (0, Start, DONE),
    (0, RecvDbid, DONE),
    (0, Store(WordNo(0), 6), DONE),
    (0, RecvWrData, FREE),
];

/// A resent request must be accepted.
const RESENT: [Move; 6] = [
    (0, Issue(ReadNotSharedDirty, Slot(0)), DONE),
    (0, Retry, DONE),
    (0, RecvRetry, DONE),
    (0, Resend, DONE),
    (0, Retry, Err(Refusal::MustAccept)),
    (0, Admit, DONE),
];

/// Each run, with the agents that it takes.
const RUNS: [(u8, &[Move]); 4] = [
    (2, &DIRTY_DATA_HANDED_ON),
    (2, &SNOOP_CROSSES_WRITE_BACK),
    (1, &STORE_BEHIND_WRITE_CLEAN),
    (1, &RESENT),
];

/// The slice of a node of so many agents and lines, in the opening state.
fn slice_of(rt: &impl Abort, alloc: Global, agents: u8, lines: u8) -> Slice<Global> {
    let config = Config::new(agents, lines, 1, 2, 2, 8).expect(rt, "sizes in their limits");
    assert!(rt; config.slices() == 1);
    Slice::new(alloc, &config, 0).expect(rt, "memory for a slice")
}

/// The slice answers each move as it says.
pub fn plays<A: Allocator>(rt: &impl Abort, slice: &mut Slice<A>, moves: &[Move]) {
    for (agent, step, wanted) in moves {
        let found = done(slice, *agent, Line(0), *step);
        assert!(rt; found == *wanted, "{agent} {step:?}: {found:?}");
    }
}

#[test]
fn every_move_is_answered_as_it_says(rt: HostRuntime) {
    for (agents, moves) in &RUNS {
        plays(&rt, &mut slice_of(&rt, rt.alloc(), *agents, 1), moves);
    }
}

/// Every step but a request's issue, with words inside and outside their range.
const STEPS: [Step; 18] = [
    Load(WordNo(0)),
    Load(WordNo(8)),
    Store(WordNo(0), 1),
    Store(WordNo(8), 1),
    Drop,
    Admit,
    Retry,
    RecvRetry,
    Resend,
    Cancel,
    Start,
    RecvSnp,
    RecvSnpResp,
    RecvData,
    RecvComp,
    RecvAck,
    RecvDbid,
    RecvWrData,
];

const KINDS: [Kind; 8] = [
    ReadNotSharedDirty,
    ReadShared,
    ReadUnique,
    CleanUnique,
    Evict,
    WriteBackFull,
    WriteCleanFull,
    WriteEvictFull,
];

/// Slots inside and outside their range.
const SLOTS: [u8; 3] = [0, 1, 8];

/// The step of a number below 42: the steps above, and requests of each kind in each of the slots.
fn step_of(number: usize) -> Step {
    if number < 18 {
        return STEPS[number];
    }
    let request = number - 18;
    Issue(KINDS[request % 8], Slot(SLOTS[request / 8 % 3]))
}

/// A line as it is shown.
fn look(slice: &Slice<Global>, line: u8) -> Result<LineView, Refusal> {
    slice.view(Line(line))
}

/// Whether both slices show the same of both lines, and have the same journal.
fn are_the_same(slice: &Slice<Global>, other: &Slice<Global>) -> bool {
    look(slice, 0) == look(other, 0)
        && look(slice, 1) == look(other, 1)
        && slice.journal().records() == other.journal().records()
}

/// Whether the line, if it is one of the slice's, is coherent by what is shown of it.
fn is_coherent(slice: &Slice<Global>, line: u8) -> bool {
    match look(slice, line) {
        Ok(view) => check(&view),
        Err(_) => true,
    }
}

/// Tries the action of a number below 252 on a copy of the slice: a step of one of three agents at one of two
/// lines, which may be outside the node.
fn tries(rt: &impl Abort, alloc: Global, begun: &Slice<Global>, number: usize) {
    let mut slice = begun.clone_in(alloc).expect(rt, "memory for a copy");
    let (agent, line, step) = (number % 3, number / 3 % 2, step_of(number / 6));
    let refused = done(&mut slice, agent as u8, Line(line as u8), step).is_err();
    assert!(rt;
        is_coherent(&slice, 0) && is_coherent(&slice, 1),
        "{agent} {line} {step:?}"
    );
    assert!(rt;
        !refused || are_the_same(&slice, begun),
        "{agent} {line} {step:?}"
    );
}

/// Tries every action.
fn tries_all(rt: &impl Abort, alloc: Global, begun: &Slice<Global>) {
    for number in 0..252 {
        tries(rt, alloc, begun, number);
    }
}

/// Tries every action after each beginning of the moves.
fn tries_along(rt: &impl Abort, alloc: Global, mut slice: Slice<Global>, moves: &[Move]) {
    tries_all(rt, alloc, &slice);
    for (agent, step, _) in moves {
        done(&mut slice, *agent, Line(0), *step).ok();
        tries_all(rt, alloc, &slice);
    }
}

#[test]
fn what_is_refused_changes_nothing(rt: HostRuntime) {
    for (agents, moves) in &RUNS {
        tries_along(
            &rt,
            rt.alloc(),
            slice_of(&rt, rt.alloc(), *agents, 1),
            moves,
        );
        tries_along(&rt, rt.alloc(), slice_of(&rt, rt.alloc(), 3, 2), moves);
    }
}
