//! Snoops, and what a snooped requester answers.

ghost use Rattle.std.specs.Prelude.{◌≡◌, Some};
ghost use Rattle.chi_flit.specs.Snoop.{answer_of, snoop_text, snoop_number, snoop_numbered};

use crate::message::{DatUp, Msg, RspUp};
use crate::numbers::Data;
use crate::state::State;
use std::fmt;

/// A snoop that the home sends to a requester (Arm IHI 0050 B, chapter 4).
/// Source: `docs/PROTOCOL.md`, "Answers to snoops".
#[derive(Clone, Copy, Debug, PartialEq, Eq)]
pub enum Snoop {
    /// Leaves any shared copy, dirty ones too.
    SnpShared,
    /// Leaves a shared copy that owes memory nothing.
    SnpNotSharedDirty,
    /// Leaves no copy, and wants dirty data.
    SnpUnique,
    /// Leaves no copy, and wants dirty data written.
    SnpCleanInvalid,
}

/// What a copy in `state` with the data `words` does at a snoop: its next state, and the message that
/// its requester answers by. Dirty data goes with the answer, with `_PD` where the responsibility goes
/// with it.
/// Source: `docs/PROTOCOL.md`, "Answers to snoops".
pub fn answer(state: State, snoop: Snoop, words: Data) -> (State, Msg)
    ensures { result ≡ answer_of state snoop words }
{
    match (state, snoop) {
        (State::I, _) => (State::I, Msg::RspUp(RspUp::SnpRespI)),
        (State::SC | State::UC, Snoop::SnpShared | Snoop::SnpNotSharedDirty) => {
            (State::SC, Msg::RspUp(RspUp::SnpRespSC))
        }
        (State::SC | State::UC, Snoop::SnpUnique | Snoop::SnpCleanInvalid) => {
            (State::I, Msg::RspUp(RspUp::SnpRespI))
        }
        (State::UD | State::SD, Snoop::SnpShared) => {
            (State::SD, Msg::DatUp(DatUp::SnpRespDataSD(words)))
        }
        (State::UD | State::SD, Snoop::SnpNotSharedDirty) => {
            (State::SC, Msg::DatUp(DatUp::SnpRespDataSCPD(words)))
        }
        (State::UD | State::SD, Snoop::SnpUnique | Snoop::SnpCleanInvalid) => {
            (State::I, Msg::DatUp(DatUp::SnpRespDataIPD(words)))
        }
    }
}

impl Snoop {
    /// The snoop's number, 0 to 3.
    /// Source: `docs/LIBRARY.md`, "Numbers".
    pub fn number(self) -> u8
        ensures { result ≡ snoop_number self }
    {
        match self {
            Snoop::SnpShared => 0,
            Snoop::SnpNotSharedDirty => 1,
            Snoop::SnpUnique => 2,
            Snoop::SnpCleanInvalid => 3,
        }
    }

    /// The snoop of a number; `None` above 3.
    /// Source: `docs/LIBRARY.md`, "Numbers".
    pub fn numbered(number: u8) -> Option<Snoop>
        ensures { result ≡ snoop_numbered number }
    {
        match number {
            0 => Some(Snoop::SnpShared),
            1 => Some(Snoop::SnpNotSharedDirty),
            2 => Some(Snoop::SnpUnique),
            3 => Some(Snoop::SnpCleanInvalid),
            _ => None,
        }
    }

    /// The snoop's name.
    fn name(self) -> &'static str
        ensures { result.now ≡ snoop_text self }
    {
        match self {
            Snoop::SnpShared => "SnpShared",
            Snoop::SnpNotSharedDirty => "SnpNotSharedDirty",
            Snoop::SnpUnique => "SnpUnique",
            Snoop::SnpCleanInvalid => "SnpCleanInvalid",
        }
    }
}

impl fmt::Display for Snoop {
    ghost output = { λ snoop. Some (snoop_text snoop) };

    fn fmt<W: fmt::Write>(&self, f: &mut fmt::Formatter<W>) -> fmt::Result {
        f.write_str(self.name())
    }
}
