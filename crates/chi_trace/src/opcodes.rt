//! The opcodes of a trace, by channel.

ghost use Rattle.std.specs.Prelude.{◌≡◌, Some};
ghost use Rattle.chi_trace.specs.Opcodes.{channel_in, opcode_channel, cpu_opcode, data_opcode, opcode_in, opcode_text, request_opcode, response_opcode, snoop_opcode};

use chi_flit::{Kind, Snoop};
use chi_script::is;
use std::fmt;

/// What a line of a trace was seen on: one of the four channels of flits, or a requester's side where its
/// processor loads and stores.
/// Source: `docs/TRACES.md`, "Traces".
#[derive(Clone, Copy, Debug, PartialEq, Eq)]
pub enum TraceChannel {
    Req,
    Snp,
    Rsp,
    Dat,
    Cpu,
}

/// What a line of a trace is.
/// Source: `docs/TRACES.md`, "Traces".
#[derive(Clone, Copy, Debug, PartialEq, Eq)]
pub enum Opcode {
    /// A request of this kind.
    Request(Kind),
    /// A credit is returned.
    PCrdReturn,
    /// A snoop.
    Snoop(Snoop),
    RetryAck,
    Comp,
    CompDBIDResp,
    /// A credit is granted.
    PCrdGrant,
    SnpResp,
    CompAck,
    CompData,
    SnpRespData,
    CopyBackWrData,
    /// A processor read a word of its requester's copy.
    Load,
    /// A processor wrote a word of its requester's copy.
    Store,
}

/// The channel that the word names.
pub(crate) fn channel_in(word: &[u8]) -> Option<TraceChannel>
    ensures { result ≡ channel_in word.now }
{
    if is(word, "REQ") {
        Some(TraceChannel::Req)
    } else if is(word, "SNP") {
        Some(TraceChannel::Snp)
    } else if is(word, "RSP") {
        Some(TraceChannel::Rsp)
    } else if is(word, "DAT") {
        Some(TraceChannel::Dat)
    } else if is(word, "CPU") {
        Some(TraceChannel::Cpu)
    } else {
        None
    }
}

/// The opcode of the channel that the word names.
pub(crate) fn opcode_in(channel: TraceChannel, word: &[u8]) -> Option<Opcode>
    ensures { result ≡ opcode_in channel word.now }
{
    match channel {
        TraceChannel::Req => request_opcode(word),
        TraceChannel::Snp => snoop_opcode(word),
        TraceChannel::Rsp => response_opcode(word),
        TraceChannel::Dat => data_opcode(word),
        TraceChannel::Cpu => cpu_opcode(word),
    }
}

#[tactic(auto, unfolding(crate::specs::Opcodes::request_opcode))]
fn request_opcode(word: &[u8]) -> Option<Opcode>
    ensures { result ≡ request_opcode word.now }
{
    if is(word, "ReadNotSharedDirty") {
        Some(Opcode::Request(Kind::ReadNotSharedDirty))
    } else if is(word, "ReadShared") {
        Some(Opcode::Request(Kind::ReadShared))
    } else if is(word, "ReadUnique") {
        Some(Opcode::Request(Kind::ReadUnique))
    } else if is(word, "CleanUnique") {
        Some(Opcode::Request(Kind::CleanUnique))
    } else if is(word, "Evict") {
        Some(Opcode::Request(Kind::Evict))
    } else if is(word, "WriteBackFull") {
        Some(Opcode::Request(Kind::WriteBackFull))
    } else if is(word, "WriteCleanFull") {
        Some(Opcode::Request(Kind::WriteCleanFull))
    } else if is(word, "WriteEvictFull") {
        Some(Opcode::Request(Kind::WriteEvictFull))
    } else if is(word, "PCrdReturn") {
        Some(Opcode::PCrdReturn)
    } else {
        None
    }
}

#[tactic(auto, unfolding(crate::specs::Opcodes::snoop_opcode))]
fn snoop_opcode(word: &[u8]) -> Option<Opcode>
    ensures { result ≡ snoop_opcode word.now }
{
    if is(word, "SnpShared") {
        Some(Opcode::Snoop(Snoop::SnpShared))
    } else if is(word, "SnpNotSharedDirty") {
        Some(Opcode::Snoop(Snoop::SnpNotSharedDirty))
    } else if is(word, "SnpUnique") {
        Some(Opcode::Snoop(Snoop::SnpUnique))
    } else if is(word, "SnpCleanInvalid") {
        Some(Opcode::Snoop(Snoop::SnpCleanInvalid))
    } else {
        None
    }
}

#[tactic(auto, unfolding(crate::specs::Opcodes::response_opcode))]
fn response_opcode(word: &[u8]) -> Option<Opcode>
    ensures { result ≡ response_opcode word.now }
{
    if is(word, "RetryAck") {
        Some(Opcode::RetryAck)
    } else if is(word, "Comp") {
        Some(Opcode::Comp)
    } else if is(word, "CompDBIDResp") {
        Some(Opcode::CompDBIDResp)
    } else if is(word, "PCrdGrant") {
        Some(Opcode::PCrdGrant)
    } else if is(word, "SnpResp") {
        Some(Opcode::SnpResp)
    } else if is(word, "CompAck") {
        Some(Opcode::CompAck)
    } else {
        None
    }
}

#[tactic(auto, unfolding(crate::specs::Opcodes::data_opcode))]
fn data_opcode(word: &[u8]) -> Option<Opcode>
    ensures { result ≡ data_opcode word.now }
{
    if is(word, "CompData") {
        Some(Opcode::CompData)
    } else if is(word, "SnpRespData") {
        Some(Opcode::SnpRespData)
    } else if is(word, "CopyBackWrData") {
        Some(Opcode::CopyBackWrData)
    } else {
        None
    }
}

#[tactic(auto, unfolding(crate::specs::Opcodes::cpu_opcode))]
fn cpu_opcode(word: &[u8]) -> Option<Opcode>
    ensures { result ≡ cpu_opcode word.now }
{
    if is(word, "Load") {
        Some(Opcode::Load)
    } else if is(word, "Store") {
        Some(Opcode::Store)
    } else {
        None
    }
}

impl Opcode {
    /// The channel that a line of this opcode names.
    /// Source: `docs/TRACES.md`, "Traces".
    pub fn channel(self) -> TraceChannel
        ensures { result ≡ opcode_channel self }
    {
        match self {
            Opcode::Request(_) | Opcode::PCrdReturn => TraceChannel::Req,
            Opcode::Snoop(_) => TraceChannel::Snp,
            Opcode::RetryAck
            | Opcode::Comp
            | Opcode::CompDBIDResp
            | Opcode::PCrdGrant
            | Opcode::SnpResp
            | Opcode::CompAck => TraceChannel::Rsp,
            Opcode::CompData | Opcode::SnpRespData | Opcode::CopyBackWrData => TraceChannel::Dat,
            Opcode::Load | Opcode::Store => TraceChannel::Cpu,
        }
    }
}

impl fmt::Display for Opcode {
    fn fmt<W: fmt::Write>(&self, f: &mut fmt::Formatter<W>) -> fmt::Result {
        match self {
            Opcode::Request(kind) => write!(f, "{kind}"),
            Opcode::PCrdReturn => f.write_str("PCrdReturn"),
            Opcode::Snoop(snoop) => write!(f, "{snoop}"),
            Opcode::RetryAck => f.write_str("RetryAck"),
            Opcode::Comp => f.write_str("Comp"),
            Opcode::CompDBIDResp => f.write_str("CompDBIDResp"),
            Opcode::PCrdGrant => f.write_str("PCrdGrant"),
            Opcode::SnpResp => f.write_str("SnpResp"),
            Opcode::CompAck => f.write_str("CompAck"),
            Opcode::CompData => f.write_str("CompData"),
            Opcode::SnpRespData => f.write_str("SnpRespData"),
            Opcode::CopyBackWrData => f.write_str("CopyBackWrData"),
            Opcode::Load => f.write_str("Load"),
            Opcode::Store => f.write_str("Store"),
        }
    }
}
