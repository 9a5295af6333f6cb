//! What a line is, by the words of its channel and its opcode.

ghost use Rattle.std.specs.Prelude.{◌≡◌};
ghost use Rattle.std.specs.List.{list_all};
ghost use Rattle.chi_log.specs.Kinds.{access_of, begins_snp, flit_kind, is_answer, is_between, is_name, is_name_byte, kind_of, kind_on, own_in, own_opcode, port_of};

use crate::options::Opcodes;
use chi_issue_b::{Channel, Opcode};

/// An opcode that Issue B hasn't: one of a design's own. It isn't judged.
/// Source: `docs/TRACES.md`, "Other opcodes".
#[derive(Clone, Copy, Debug, PartialEq, Eq)]
pub struct OwnOpcode {
    pub channel: Channel,
    /// Whether it answers a snoop: it is on `RSP` or `DAT`, and its word begins with `Snp`.
    pub is_answer: bool,
}

/// What a line is.
#[derive(Clone, Copy, Debug, PartialEq, Eq)]
pub(crate) enum Kind {
    /// A flit of this opcode.
    Flit(Opcode),
    /// A flit of an opcode of a design's own.
    Own(OwnOpcode),
    /// A processor read a word.
    Load,
    /// A processor wrote a word.
    Store,
}

/// Where it was seen.
#[derive(Clone, Copy, Debug, PartialEq, Eq)]
pub(crate) enum Port {
    /// On a channel.
    Link(Channel),
    /// At a processor.
    Processor,
}

/// What a line with these words for its channel and its opcode is; `None` where it is none of a trace that has these
/// opcodes.
#[inline(always)]
pub(crate) fn kind_in(opcodes: Opcodes, channel: &[u8], opcode: &[u8]) -> Option<Kind>
    ensures { result ≡ kind_of opcodes channel.now opcode.now }
{
    let port = port_in(channel)?;
    kind_on(opcodes, opcode, port)
}

/// Where it was seen, by the word of the channel.
#[inline(always)]
pub(crate) fn port_in(word: &[u8]) -> Option<Port>
    ensures { result ≡ port_of word.now }
{
    if word == b"CPU".as_slice() {
        return Some(Port::Processor);
    }
    let channel = Channel::from_word(word)?;
    Some(Port::Link(channel))
}

/// What a line of this port is, by the word of its opcode.
#[inline(always)]
fn kind_on(opcodes: Opcodes, word: &[u8], port: Port) -> Option<Kind>
    ensures { result ≡ kind_on opcodes word.now port }
{
    match port {
        Port::Processor => access_in(word),
        Port::Link(channel) => flit_kind(opcodes, channel, word),
    }
}

/// A load or a store.
fn access_in(word: &[u8]) -> Option<Kind>
    ensures { result ≡ access_of word.now }
{
    if word == b"Load".as_slice() {
        Some(Kind::Load)
    } else if word == b"Store".as_slice() {
        Some(Kind::Store)
    } else {
        None
    }
}

/// A flit of the channel.
#[inline(always)]
fn flit_kind(opcodes: Opcodes, channel: Channel, word: &[u8]) -> Option<Kind>
    ensures { result ≡ flit_kind opcodes channel word.now }
{
    match Opcode::from_word(channel, word) {
        Some(opcode) => Some(Kind::Flit(opcode)),
        None => own_in(opcodes, channel, word),
    }
}

/// A flit of an opcode of a design's own, where a trace may have such.
#[inline(never)]
fn own_in(opcodes: Opcodes, channel: Channel, word: &[u8]) -> Option<Kind>
    ensures { result ≡ own_in opcodes channel word.now }
{
    match opcodes {
        Opcodes::IssueB => None,
        Opcodes::Any if is_name(word) => Some(Kind::Own(own_opcode(channel, word))),
        Opcodes::Any => None,
    }
}

/// The opcode that the word names.
fn own_opcode(channel: Channel, word: &[u8]) -> OwnOpcode
    ensures { result ≡ own_opcode channel word.now }
{
    let is_answer = is_answer(channel, word);
    OwnOpcode { channel, is_answer }
}

/// Whether flits of this opcode answer snoops.
fn is_answer(channel: Channel, word: &[u8]) -> bool
    ensures { result ≡ is_answer channel word.now }
{
    match channel {
        Channel::Req => false,
        Channel::Snp => false,
        Channel::Rsp => begins_snp(word),
        Channel::Dat => begins_snp(word),
    }
}

/// Whether the word begins as an answer to a snoop does.
fn begins_snp(word: &[u8]) -> bool
    ensures { result ≡ begins_snp word.now }
{
    match word {
        [first, second, third, ..] => *first == b'S' && *second == b'n' && *third == b'p',
        _ => false,
    }
}

/// Whether the byte is a letter or a digit.
fn is_name_byte(byte: u8) -> bool
    ensures { result ≡ is_name_byte byte }
{
    matches!(byte, b'A'..=b'Z' | b'a'..=b'z' | b'0'..=b'9')
}

/// Whether the byte is a capital.
fn is_capital(byte: u8) -> bool
    ensures { result ≡ is_between 65 90 byte }
{
    matches!(byte, b'A'..=b'Z')
}

/// Whether each byte is a letter or a digit.
fn are_name_bytes(word: &[u8]) -> bool
    ensures { result ≡ list_all is_name_byte word.now }
{
    word.iter().all(|byte| is_name_byte(*byte))
}

/// Whether the word may be an opcode's: letters and digits, a capital first.
fn is_name(word: &[u8]) -> bool
    ensures { result ≡ is_name word.now }
{
    match word {
        [] => false,
        [first, ..] => is_capital(*first) && are_name_bytes(word),
    }
}
