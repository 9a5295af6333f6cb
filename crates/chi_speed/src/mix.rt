//! What is measured: scripts after which nobody holds a line, so that they can be run again.

use chi_flit::{Agent, Kind, Line, Slot, WordNo};
use chi_slice::{Action, Step};
use std::alloc::{AllocError, Global};

/// A line's cycle in the mix: reads with and without snoops, loads, stores, retries, copy-backs and an
/// Evict. Each move is a step of the line's first, second or third requester (0 to 2), whose slot has
/// that number.
const CYCLE: [(u8, Step); 75] = [
    (0, Step::Issue(Kind::ReadNotSharedDirty, Slot(0))),
    (0, Step::Admit),
    (0, Step::Start),
    (0, Step::RecvData),
    (0, Step::RecvAck),
    (0, Step::Load(WordNo(0))),
    (1, Step::Issue(Kind::ReadShared, Slot(1))),
    (1, Step::Admit),
    (1, Step::Start),
    (0, Step::RecvSnp),
    (0, Step::RecvSnpResp),
    (1, Step::RecvData),
    (1, Step::RecvAck),
    (2, Step::Issue(Kind::ReadUnique, Slot(2))),
    (2, Step::Admit),
    (2, Step::Start),
    (0, Step::RecvSnp),
    (1, Step::RecvSnp),
    (1, Step::RecvSnpResp),
    (0, Step::RecvSnpResp),
    (2, Step::RecvData),
    (2, Step::RecvAck),
    (2, Step::Store(WordNo(3), 7)),
    (2, Step::Load(WordNo(3))),
    (0, Step::Issue(Kind::ReadShared, Slot(0))),
    (0, Step::Admit),
    (0, Step::Start),
    (2, Step::RecvSnp),
    (2, Step::RecvSnpResp),
    (0, Step::RecvData),
    (0, Step::RecvAck),
    (0, Step::Issue(Kind::CleanUnique, Slot(0))),
    (0, Step::Admit),
    (0, Step::Start),
    (2, Step::RecvSnp),
    (2, Step::RecvSnpResp),
    (0, Step::RecvComp),
    (0, Step::RecvAck),
    (0, Step::Store(WordNo(4), 9)),
    (0, Step::Issue(Kind::WriteCleanFull, Slot(0))),
    (0, Step::Retry),
    (0, Step::RecvRetry),
    (0, Step::Resend),
    (0, Step::Admit),
    (0, Step::Start),
    (0, Step::RecvDbid),
    (0, Step::RecvWrData),
    (0, Step::Issue(Kind::WriteEvictFull, Slot(0))),
    (0, Step::Admit),
    (0, Step::Start),
    (0, Step::RecvDbid),
    (0, Step::RecvWrData),
    (1, Step::Issue(Kind::ReadUnique, Slot(1))),
    (1, Step::Retry),
    (1, Step::RecvRetry),
    (1, Step::Resend),
    (1, Step::Admit),
    (1, Step::Start),
    (1, Step::RecvData),
    (1, Step::RecvAck),
    (1, Step::Store(WordNo(1), 5)),
    (1, Step::Issue(Kind::WriteBackFull, Slot(1))),
    (1, Step::Admit),
    (1, Step::Start),
    (1, Step::RecvDbid),
    (1, Step::RecvWrData),
    (2, Step::Issue(Kind::ReadShared, Slot(2))),
    (2, Step::Admit),
    (2, Step::Start),
    (2, Step::RecvData),
    (2, Step::RecvAck),
    (2, Step::Issue(Kind::Evict, Slot(2))),
    (2, Step::Admit),
    (2, Step::Start),
    (2, Step::RecvComp),
];

/// A cold read, and the drop that makes the line cold again.
const COLD_READ: [Step; 6] = [
    Step::Issue(Kind::ReadNotSharedDirty, Slot(0)),
    Step::Admit,
    Step::Start,
    Step::RecvData,
    Step::RecvAck,
    Step::Drop,
];

/// A step at a line, by the requester that comes so many after the line's own: line `l` is requester
/// `l mod 8`'s.
fn action(line: u8, after: u8, step: Step) -> Action {
    Action {
        agent: Agent((line % 8 + after % 8) % 8),
        line: Line(line),
        step,
    }
}

/// Adds a step at each of so many lines, from the first on.
fn add_side_by_side(
    actions: &mut Vec<Action>,
    first: u8,
    width: u8,
    after: u8,
    step: Step,
) -> Result<(), AllocError> {
    for place in 0..width {
        actions.push(action(first.wrapping_add(place), after, step))?;
    }
    Ok(())
}

/// Adds the cycle of each of so many lines, from the first on: they go side by side.
fn add_cycles(actions: &mut Vec<Action>, first: u8, width: u8) -> Result<(), AllocError> {
    for (after, step) in CYCLE {
        add_side_by_side(actions, first, width, after, step)?;
    }
    Ok(())
}

/// The mix over so many lines: blocks of lines take their turns, and those of a block go side by side.
pub fn mix(alloc: Global, blocks: u8, width: u8) -> Result<Vec<Action>, AllocError> {
    let mut actions = Vec::new(alloc);
    for block in 0..blocks {
        add_cycles(&mut actions, block.wrapping_mul(width), width)?;
    }
    Ok(actions)
}

/// Adds a cold read of the line.
fn add_cold_read(actions: &mut Vec<Action>, line: u8) -> Result<(), AllocError> {
    for step in COLD_READ {
        actions.push(action(line, 0, step))?;
    }
    Ok(())
}

/// A cold read of each of so many lines.
pub fn cold_reads(alloc: Global, lines: u8) -> Result<Vec<Action>, AllocError> {
    let mut actions = Vec::new(alloc);
    for line in 0..lines {
        add_cold_read(&mut actions, line)?;
    }
    Ok(actions)
}
