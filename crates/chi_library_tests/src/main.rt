//! Does a million random actions on a slice, and prints how many were done and refused, and a sum over all
//! answers and effects. tests/c does the same through the library for C, which must print the same.
#![tactic(auto)]

use chi_flit::{Agent, Kind, Line, Slot, WordNo};
use chi_slice::{Action, Config, Effect, Slice, Step};
use std::alloc::Global;
use std::io;

/// How many actions are done.
const ACTIONS: u32 = 1_000_000;

/// The steps, by their numbers in C. Their operands are drawn.
fn step_of(word: u64) -> Step {
    let slot = Slot(((word >> 32) % 9) as u8);
    let at = WordNo(((word >> 40) % 9) as u8);
    match (word >> 16) % 17 {
        0 => Step::Load(at),
        1 => Step::Store(at, word >> 48),
        2 => Step::Drop,
        3 => Step::Issue(kind_of(word >> 24), slot),
        4 => Step::Admit,
        5 => Step::Retry,
        6 => Step::RecvRetry,
        7 => Step::Resend,
        8 => Step::Cancel,
        9 => Step::Start,
        10 => Step::RecvSnp,
        11 => Step::RecvSnpResp,
        12 => Step::RecvData,
        13 => Step::RecvComp,
        14 => Step::RecvAck,
        15 => Step::RecvDbid,
        _ => Step::RecvWrData,
    }
}

/// The kinds of request, by their numbers in C.
fn kind_of(word: u64) -> Kind {
    match word % 8 {
        0 => Kind::ReadNotSharedDirty,
        1 => Kind::ReadShared,
        2 => Kind::ReadUnique,
        3 => Kind::CleanUnique,
        4 => Kind::Evict,
        5 => Kind::WriteBackFull,
        6 => Kind::WriteCleanFull,
        _ => Kind::WriteEvictFull,
    }
}

/// The action of a drawn word: of five agents and five lines, one more than there are of each.
fn action_of(word: u64) -> Action {
    Action {
        agent: Agent((word % 5) as u8),
        line: Line(((word >> 8) % 5) as u8),
        step: step_of(word),
    }
}

/// The next word drawn, by the generator SplitMix64.
fn drawn(state: u64) -> u64 {
    let word = (state ^ (state >> 30)).wrapping_mul(0xBF58_476D_1CE4_E5B9);
    let word = (word ^ (word >> 27)).wrapping_mul(0x94D0_49BB_1331_11EB);
    word ^ (word >> 31)
}

/// An effect as one number.
fn number_of(effect: Effect) -> u64 {
    match effect {
        Effect::Nothing => 0,
        Effect::Value(value) => value.wrapping_add(256),
        Effect::Completed(slot) => u64::from(slot.0).wrapping_add(512),
    }
}

/// What all actions came to.
#[derive(Drop)]
struct Outcome {
    done: u32,
    refused: u32,
    sum: u64,
}

/// Does all the actions.
fn run_all(slice: &mut Slice<Global>) -> Outcome {
    let (mut done, mut refused) = (0u32, 0u32);
    let (mut state, mut sum) = (0u64, 0u64);
    for _ in 0..ACTIONS {
        state = state.wrapping_add(0x9E37_79B9_7F4A_7C15);
        let answer = match slice.act(action_of(drawn(state))) {
            Ok(effect) => {
                done = done.wrapping_add(1);
                number_of(effect)
            }
            Err(refusal) => {
                refused = refused.wrapping_add(1);
                u64::from(refusal.number())
            }
        };
        sum = sum.wrapping_mul(31).wrapping_add(answer);
    }
    Outcome { done, refused, sum }
}

/// A slice of a node of four requesters and four lines.
fn opened(alloc: Global) -> io::Result<Slice<Global>> {
    let Some(config) = Config::new(4, 4, 1, 1, 1, 65_536) else {
        return Err(io::Error::from(io::ErrorKind::InvalidInput));
    };
    match Slice::new(alloc, &config, 0) {
        Ok(slice) => Ok(slice),
        Err(_) => Err(io::Error::from(io::ErrorKind::OutOfMemory)),
    }
}

fn main(rt: HostRuntime) -> io::Result<()> {
    let mut slice = opened(rt.alloc())?;
    let Outcome { done, refused, sum } = run_all(&mut slice);
    println!(rt; "{done} done, {refused} refused, sum {sum}")
}
