//! The opcodes of a trace of any home and any caches: the profile's, and others.

ghost use Rattle.std.specs.Prelude.{◌≡◌, Some};
ghost use Rattle.chi_trace.specs.AnyOpcodes.{any_opcode_in, is_answer_name, other_data, other_kind, other_kind_text, other_opcode, other_or_unknown, other_request, other_snoop, other_snoop_in, other_snoop_text, unknown_on, unknown_opcode, unknown_reply};

use crate::forms::Opcodes;
use crate::opcodes::{Opcode, TraceChannel, opcode_in};
use crate::other_opcodes::{OtherOpcode, unjudged_in};
use chi_script::is;
use std::fmt;

/// A kind of request that the profile hasn't (Arm IHI 0050 B, chapter 4).
/// Source: `docs/TRACES.md`, "Other opcodes".
#[derive(Clone, Copy, Debug, PartialEq, Eq)]
pub enum OtherKind {
    /// A read that leaves its requester clean.
    ReadClean,
    /// A read of the words as they are, that leaves no copy.
    ReadOnce,
    /// Makes its requester the only holder, which writes the whole line.
    MakeUnique,
    /// Has dirty data of any cache written to memory; copies stay.
    CleanShared,
    /// Has dirty data of any cache written to memory; no copy stays.
    CleanInvalid,
    /// No copy stays, and dirty data are thrown away.
    MakeInvalid,
    /// Writes a whole line without a copy.
    WriteUniqueFull,
}

/// A snoop that the profile hasn't.
/// Source: `docs/TRACES.md`, "Other opcodes".
#[derive(Clone, Copy, Debug, PartialEq, Eq)]
pub enum OtherSnoop {
    /// Asks for the words, and leaves any copy.
    SnpOnce,
    /// Leaves a shared copy.
    SnpClean,
    /// Leaves a clean copy.
    SnpCleanShared,
    /// Leaves no copy, and throws dirty data away.
    SnpMakeInvalid,
}

/// What a line of a trace of any home and any caches is.
/// Source: `docs/TRACES.md`, "Other opcodes".
#[derive(Clone, Copy, Debug, PartialEq, Eq)]
pub enum AnyOpcode {
    /// An opcode of the profile.
    Profile(Opcode),
    /// A request of this kind.
    Request(OtherKind),
    /// A snoop.
    Snoop(OtherSnoop),
    NonCopyBackWrData,
    /// A request that isn't judged.
    UnknownRequest(OtherOpcode),
    /// A snoop that isn't.
    UnknownSnoop(OtherOpcode),
    /// An answer to a snoop that isn't: its name begins with `Snp`.
    UnknownAnswer(OtherOpcode),
    /// Another response, or other data, that aren't.
    UnknownReply(OtherOpcode),
}

/// The opcode of the channel that the word names.
pub(crate) fn any_opcode_in(
    opcodes: Opcodes,
    channel: TraceChannel,
    word: &[u8],
) -> Option<AnyOpcode>
    ensures { result ≡ any_opcode_in opcodes channel word.now }
{
    match opcode_in(channel, word) {
        Some(opcode) => Some(AnyOpcode::Profile(opcode)),
        None => other_or_unknown(opcodes, channel, word),
    }
}

/// The same of one that the profile hasn't.
fn other_or_unknown(opcodes: Opcodes, channel: TraceChannel, word: &[u8]) -> Option<AnyOpcode>
    ensures { result ≡ other_or_unknown opcodes channel word.now }
{
    match other_opcode(channel, word) {
        Some(opcode) => Some(opcode),
        None => unknown_opcode(opcodes, channel, word),
    }
}

/// Whether the word begins as an answer to a snoop does.
fn is_answer_name(word: &[u8]) -> bool
    ensures { result ≡ is_answer_name word.now }
{
    match word {
        [first, second, third, ..] => *first == b'S' && *second == b'n' && *third == b'p',
        _ => false,
    }
}

/// A response, or data, of this opcode, which the word names.
fn unknown_reply(word: &[u8], opcode: OtherOpcode) -> AnyOpcode
    ensures { result ≡ unknown_reply word.now opcode }
{
    if is_answer_name(word) {
        AnyOpcode::UnknownAnswer(opcode)
    } else {
        AnyOpcode::UnknownReply(opcode)
    }
}

/// What a line with this opcode, which the word names, is on the channel.
fn unknown_on(channel: TraceChannel, word: &[u8], opcode: OtherOpcode) -> Option<AnyOpcode>
    ensures { result ≡ unknown_on channel word.now opcode }
{
    match channel {
        TraceChannel::Req => Some(AnyOpcode::UnknownRequest(opcode)),
        TraceChannel::Snp => Some(AnyOpcode::UnknownSnoop(opcode)),
        TraceChannel::Rsp => Some(unknown_reply(word, opcode)),
        TraceChannel::Dat => Some(unknown_reply(word, opcode)),
        TraceChannel::Cpu => None,
    }
}

/// The opcode of the channel that the word names, and that isn't judged.
fn unknown_opcode(opcodes: Opcodes, channel: TraceChannel, word: &[u8]) -> Option<AnyOpcode>
    ensures { result ≡ unknown_opcode opcodes channel word.now }
{
    let opcode = unjudged_in(opcodes, channel, word)?;
    unknown_on(channel, word, opcode)
}

/// The opcode of the channel that the word names and the profile hasn't.
fn other_opcode(channel: TraceChannel, word: &[u8]) -> Option<AnyOpcode>
    ensures { result ≡ other_opcode channel word.now }
{
    match channel {
        TraceChannel::Req => other_request(word),
        TraceChannel::Snp => other_snoop(word),
        TraceChannel::Dat => other_data(word),
        TraceChannel::Rsp => None,
        TraceChannel::Cpu => None,
    }
}

#[tactic(auto, unfolding(crate::specs::AnyOpcodes::other_kind))]
fn other_kind(word: &[u8]) -> Option<OtherKind>
    ensures { result ≡ other_kind word.now }
{
    if is(word, "ReadClean") {
        Some(OtherKind::ReadClean)
    } else if is(word, "ReadOnce") {
        Some(OtherKind::ReadOnce)
    } else if is(word, "MakeUnique") {
        Some(OtherKind::MakeUnique)
    } else if is(word, "CleanShared") {
        Some(OtherKind::CleanShared)
    } else if is(word, "CleanInvalid") {
        Some(OtherKind::CleanInvalid)
    } else if is(word, "MakeInvalid") {
        Some(OtherKind::MakeInvalid)
    } else if is(word, "WriteUniqueFull") {
        Some(OtherKind::WriteUniqueFull)
    } else {
        None
    }
}

#[tactic(auto, unfolding(crate::specs::AnyOpcodes::other_snoop_in))]
fn other_snoop_in(word: &[u8]) -> Option<OtherSnoop>
    ensures { result ≡ other_snoop_in word.now }
{
    if is(word, "SnpOnce") {
        Some(OtherSnoop::SnpOnce)
    } else if is(word, "SnpClean") {
        Some(OtherSnoop::SnpClean)
    } else if is(word, "SnpCleanShared") {
        Some(OtherSnoop::SnpCleanShared)
    } else if is(word, "SnpMakeInvalid") {
        Some(OtherSnoop::SnpMakeInvalid)
    } else {
        None
    }
}

fn other_request(word: &[u8]) -> Option<AnyOpcode>
    ensures { result ≡ other_request word.now }
{
    let kind = other_kind(word)?;
    Some(AnyOpcode::Request(kind))
}

fn other_snoop(word: &[u8]) -> Option<AnyOpcode>
    ensures { result ≡ other_snoop word.now }
{
    let snoop = other_snoop_in(word)?;
    Some(AnyOpcode::Snoop(snoop))
}

fn other_data(word: &[u8]) -> Option<AnyOpcode>
    ensures { result ≡ other_data word.now }
{
    if is(word, "NonCopyBackWrData") {
        Some(AnyOpcode::NonCopyBackWrData)
    } else {
        None
    }
}

impl OtherKind {
    /// The word that names it.
    fn name(self) -> &'static str
        ensures { result.now ≡ other_kind_text self }
    {
        match self {
            OtherKind::ReadClean => "ReadClean",
            OtherKind::ReadOnce => "ReadOnce",
            OtherKind::MakeUnique => "MakeUnique",
            OtherKind::CleanShared => "CleanShared",
            OtherKind::CleanInvalid => "CleanInvalid",
            OtherKind::MakeInvalid => "MakeInvalid",
            OtherKind::WriteUniqueFull => "WriteUniqueFull",
        }
    }
}

impl OtherSnoop {
    /// The word that names it.
    fn name(self) -> &'static str
        ensures { result.now ≡ other_snoop_text self }
    {
        match self {
            OtherSnoop::SnpOnce => "SnpOnce",
            OtherSnoop::SnpClean => "SnpClean",
            OtherSnoop::SnpCleanShared => "SnpCleanShared",
            OtherSnoop::SnpMakeInvalid => "SnpMakeInvalid",
        }
    }
}

impl fmt::Display for OtherKind {
    ghost output = { λ kind. Some (other_kind_text kind) };

    fn fmt<W: fmt::Write>(&self, f: &mut fmt::Formatter<W>) -> fmt::Result {
        f.write_str(self.name())
    }
}

impl fmt::Display for OtherSnoop {
    ghost output = { λ snoop. Some (other_snoop_text snoop) };

    fn fmt<W: fmt::Write>(&self, f: &mut fmt::Formatter<W>) -> fmt::Result {
        f.write_str(self.name())
    }
}

impl fmt::Display for AnyOpcode {
    fn fmt<W: fmt::Write>(&self, f: &mut fmt::Formatter<W>) -> fmt::Result {
        match self {
            AnyOpcode::Profile(opcode) => write!(f, "{opcode}"),
            AnyOpcode::Request(kind) => write!(f, "{kind}"),
            AnyOpcode::Snoop(snoop) => write!(f, "{snoop}"),
            AnyOpcode::NonCopyBackWrData => f.write_str("NonCopyBackWrData"),
            AnyOpcode::UnknownRequest(opcode) => write!(f, "{opcode}"),
            AnyOpcode::UnknownSnoop(opcode) => write!(f, "{opcode}"),
            AnyOpcode::UnknownAnswer(opcode) => write!(f, "{opcode}"),
            AnyOpcode::UnknownReply(opcode) => write!(f, "{opcode}"),
        }
    }
}
