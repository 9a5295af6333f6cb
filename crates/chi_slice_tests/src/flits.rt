//! Each table of the flits, against the values of `docs/PROTOCOL.md`, and the names that no file of `suite/` has.

use chi_flit::CreditType::{self, T0, T1, T2, T3};
use chi_flit::DatUp::{CopyBackWrData, SnpRespDataIPD, SnpRespDataSCPD, SnpRespDataSD};
use chi_flit::Kind::{
    self, CleanUnique, Evict, ReadNotSharedDirty, ReadShared, ReadUnique, WriteBackFull,
    WriteCleanFull, WriteEvictFull,
};
use chi_flit::RspUp::{SnpRespI, SnpRespSC};
use chi_flit::Snoop::{self, SnpCleanInvalid, SnpNotSharedDirty, SnpShared, SnpUnique};
use chi_flit::State::{self, I, SC, SD, UC, UD};
use chi_flit::{Channel, Data, Msg, NoMemory, Profile, Refusal, answer, credit_type, write_data};
use std::alloc::Global;
use std::fmt;
use std::process::Abort;

const STATES: [State; 5] = [I, SC, UC, UD, SD];

const WORDS: Data = [1, 2, 3, 4, 5, 6, 7, 8];

/// A kind, the states that it needs, its snoop, and its credit type among two and among four.
type KindRow = (
    Kind,
    &'static [State],
    Option<Snoop>,
    CreditType,
    CreditType,
);

const KINDS: [KindRow; 8] = [
    (ReadNotSharedDirty, &[I], Some(SnpNotSharedDirty), T0, T0),
    (ReadShared, &[I], Some(SnpShared), T0, T0),
    (ReadUnique, &[I], Some(SnpUnique), T0, T2),
    (CleanUnique, &[SC, SD], Some(SnpCleanInvalid), T0, T2),
    (Evict, &[SC, UC], None, T0, T3),
    (WriteBackFull, &[UD, SD], None, T1, T1),
    (WriteCleanFull, &[UD, SD], None, T1, T1),
    (WriteEvictFull, &[UC], None, T1, T1),
];

/// Whether the kind is by its row.
fn is_kind(row: &KindRow) -> bool {
    let (kind, states, snoop, two, four) = *row;
    let mut found = kind.snoop() == snoop && kind.is_copy_back() == (two == T1);
    found &= credit_type(Profile::Two, kind) == two && credit_type(Profile::Four, kind) == four;
    for state in STATES {
        found &= kind.needs(state) == states.contains(&state);
    }
    found
}

#[test]
fn kinds_have_their_states_snoop_and_credit_types(rt: HostRuntime) {
    for row in &KINDS {
        assert!(rt; is_kind(row), "{row:?}");
    }
}

const NONE: (State, Msg) = (I, Msg::RspUp(SnpRespI));

const CLEAN: (State, Msg) = (SC, Msg::RspUp(SnpRespSC));

const OWNER: (State, Msg) = (SD, Msg::DatUp(SnpRespDataSD(WORDS)));

const PASSED: (State, Msg) = (SC, Msg::DatUp(SnpRespDataSCPD(WORDS)));

const LOST: (State, Msg) = (I, Msg::DatUp(SnpRespDataIPD(WORDS)));

/// Whether a state is valid, unique and dirty; what a copy in it answers to each snoop: SnpShared,
/// SnpNotSharedDirty, SnpUnique and SnpCleanInvalid; and its write data.
type StateRow = (State, [bool; 3], [(State, Msg); 4], Data);

const BY_STATE: [StateRow; 5] = [
    (I, [false, false, false], [NONE, NONE, NONE, NONE], [0; 8]),
    (SC, [true, false, false], [CLEAN, CLEAN, NONE, NONE], WORDS),
    (UC, [true, true, false], [CLEAN, CLEAN, NONE, NONE], WORDS),
    (UD, [true, true, true], [OWNER, PASSED, LOST, LOST], WORDS),
    (SD, [true, false, true], [OWNER, PASSED, LOST, LOST], WORDS),
];

/// Whether a copy in the state answers each snoop so.
fn answers(state: State, wanted: &[(State, Msg); 4]) -> bool {
    answer(state, SnpShared, WORDS) == wanted[0]
        && answer(state, SnpNotSharedDirty, WORDS) == wanted[1]
        && answer(state, SnpUnique, WORDS) == wanted[2]
        && answer(state, SnpCleanInvalid, WORDS) == wanted[3]
}

/// Whether the state is by its row.
fn is_state(row: &StateRow) -> bool {
    let (state, kept, wanted, words) = row;
    [state.is_valid(), state.is_unique(), state.is_dirty()] == *kept
        && answers(*state, wanted)
        && write_data(*state, WORDS) == CopyBackWrData(*state, *words)
}

#[test]
fn states_have_their_answers_and_write_data(rt: HostRuntime) {
    for row in &BY_STATE {
        assert!(rt; is_state(row), "{row:?}");
    }
}

/// The value prints as this text.
fn prints<T: fmt::Display + Drop>(rt: &impl Abort, alloc: Global, value: T, text: &str) {
    let printed = value.to_string(alloc).expect(rt, "memory for a text");
    assert!(rt; printed.as_str() == text, "{text}");
}

const CHANNELS: [(Channel, &str); 6] = [
    (Channel::Req, "Req"),
    (Channel::Snp, "Snp"),
    (Channel::RspDown, "RspDown"),
    (Channel::DatDown, "DatDown"),
    (Channel::RspUp, "RspUp"),
    (Channel::DatUp, "DatUp"),
];

/// Those that no command is answered.
const REFUSALS: [(Refusal, u8, &str); 3] = [
    (Refusal::NoMemory, 8, "NoMemory"),
    (Refusal::MustAccept, 9, "MustAccept"),
    (Refusal::NotOpen, 11, "NotOpen"),
];

#[test]
fn channels_and_refusals_have_their_names(rt: HostRuntime) {
    for (channel, text) in &CHANNELS {
        prints(&rt, rt.alloc(), *channel, text);
    }
    for (refusal, number, text) in &REFUSALS {
        assert!(&rt; refusal.number() == *number, "{text}");
        prints(&rt, rt.alloc(), *refusal, text);
    }
    prints(&rt, rt.alloc(), NoMemory, "NoMemory");
}
