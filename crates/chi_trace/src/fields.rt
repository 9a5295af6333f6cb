//! What the columns of a flit hold.

ghost use Rattle.std.specs.Prelude.{◌≡◌, ◌==◌, ◌<◌, length, Some};
ghost use Rattle.std.specs.List.{position};
ghost use Rattle.std.specs.Option.{option_map};
ghost use Rattle.chi_trace.specs.Fields.{address_of, allow_of, beat_of, beat_with, dbid_of, first_part, is_dash, line_words_of, listed_of, node_of, only_of, comma_parts, pcrd_of, resp_of, resp_text, txn_of, value_of, vector_of, word_at, word_in, written_of};

use crate::numbers::{hex, plain, unmarked};
use chi_script::is;
use memchr::memchr;
use std::fmt;

/// A node of the interconnect, by its NodeID.
/// Source: `docs/TRACES.md`, "Traces".
#[derive(Clone, Copy, Debug, PartialEq, Eq)]
pub struct NodeId(pub u16);

/// What the TxnID field of a flit holds.
/// Source: `docs/TRACES.md`, "Traces".
#[derive(Clone, Copy, Debug, PartialEq, Eq)]
pub struct TxnId(pub u16);

/// What the DBID field of a flit holds.
/// Source: `docs/TRACES.md`, "Traces".
#[derive(Clone, Copy, Debug, PartialEq, Eq)]
pub struct DbId(pub u16);

/// A type of protocol credit, by the number that a flit's PCrdType field holds.
/// Source: `docs/TRACES.md`, "Traces".
#[derive(Clone, Copy, Debug, PartialEq, Eq)]
pub struct PcrdType(pub u8);

/// A byte's address.
/// Source: `docs/TRACES.md`, "Traces".
#[derive(Clone, Copy, Debug, PartialEq, Eq)]
pub struct Address(pub u64);

/// What the Resp field of a flit holds: the state that is left, or that is given, and whether the
/// responsibility for the data goes along (`_PD`).
/// Source: `docs/TRACES.md`, "Traces".
#[derive(Clone, Copy, Debug, PartialEq, Eq)]
pub enum Resp {
    I,
    SC,
    UC,
    UD,
    SD,
    IPD,
    SCPD,
    UCPD,
    UDPD,
    SDPD,
}

/// The words of a cache line that a beat of data has.
/// Source: `docs/TRACES.md`, "Traces".
#[derive(Clone, Copy, Debug, PartialEq, Eq)]
pub struct Beat {
    /// The words 0 to 7, with 0 in place of each that is in another beat.
    pub words: [u64; 8],
    /// Which of them the beat has.
    pub there: [bool; 8],
}

impl Beat {
    /// The beat that has these words.
    /// Source: `docs/TRACES.md`, "Traces".
    pub fn with(words: &[Option<u64>; 8]) -> Beat
        ensures { result ≡ beat_with words.now }
    {
        Beat {
            words: [
                words[0].unwrap_or(0),
                words[1].unwrap_or(0),
                words[2].unwrap_or(0),
                words[3].unwrap_or(0),
                words[4].unwrap_or(0),
                words[5].unwrap_or(0),
                words[6].unwrap_or(0),
                words[7].unwrap_or(0),
            ],
            there: [
                words[0].is_some(),
                words[1].is_some(),
                words[2].is_some(),
                words[3].is_some(),
                words[4].is_some(),
                words[5].is_some(),
                words[6].is_some(),
                words[7].is_some(),
            ],
        }
    }

    /// The word of this number, where the beat has it.
    /// Source: `docs/TRACES.md`, "Traces".
    pub fn word(&self, number: usize) -> Option<u64>
        requires { number < 8 }
        ensures { result ≡ word_at self.now number }
    {
        if self.there[number] {
            Some(self.words[number])
        } else {
            None
        }
    }
}

impl Resp {
    /// The text that a trace writes.
    fn name(self) -> &'static str
        ensures { result.now ≡ resp_text self }
    {
        match self {
            Resp::I => "I",
            Resp::SC => "SC",
            Resp::UC => "UC",
            Resp::UD => "UD",
            Resp::SD => "SD",
            Resp::IPD => "I_PD",
            Resp::SCPD => "SC_PD",
            Resp::UCPD => "UC_PD",
            Resp::UDPD => "UD_PD",
            Resp::SDPD => "SD_PD",
        }
    }
}

impl fmt::Display for Resp {
    ghost output = { λ resp. Some (resp_text resp) };

    fn fmt<W: fmt::Write>(&self, f: &mut fmt::Formatter<W>) -> fmt::Result {
        f.write_str(self.name())
    }
}

/// Whether the word says that there is nothing.
pub(crate) fn is_dash(word: &[u8]) -> bool
    ensures { result ≡ is_dash word.now }
{
    is(word, "-")
}

/// The node that the word names.
pub(crate) fn read_node(word: &[u8]) -> Option<NodeId>
    ensures { result ≡ node_of word.now }
{
    let number = hex(word, 0xffff)?;
    Some(NodeId(number as u16))
}

/// The transaction id that the word names.
pub(crate) fn read_txn(word: &[u8]) -> Option<TxnId>
    ensures { result ≡ txn_of word.now }
{
    let number = hex(word, 0xffff)?;
    Some(TxnId(number as u16))
}

/// The data buffer id that the word names.
pub(crate) fn read_dbid(word: &[u8]) -> Option<DbId>
    ensures { result ≡ dbid_of word.now }
{
    let number = hex(word, 0xffff)?;
    Some(DbId(number as u16))
}

/// The credit type that the word names.
pub(crate) fn read_pcrd(word: &[u8]) -> Option<PcrdType>
    ensures { result ≡ pcrd_of word.now }
{
    let number = hex(word, 0xf)?;
    Some(PcrdType(number as u8))
}

/// The address that the word names: a hexadecimal number of 64 bits. `None` for every other word.
/// Source: `docs/TRACES.md`, "Traces".
pub fn read_address(word: &[u8]) -> Option<Address>
    ensures { result ≡ address_of word.now }
{
    let number = hex(word, u64::MAX)?;
    Some(Address(number))
}

/// Whether the word asserts AllowRetry: `1`, or `0`.
pub(crate) fn read_allow(word: &[u8]) -> Option<bool>
    ensures { result ≡ allow_of word.now }
{
    if is(word, "1") {
        Some(true)
    } else if is(word, "0") {
        Some(false)
    } else {
        None
    }
}

/// The response that the word names.
#[tactic(auto, unfolding(crate::specs::Fields::resp_of))]
pub(crate) fn read_resp(word: &[u8]) -> Option<Resp>
    ensures { result ≡ resp_of word.now }
{
    if is(word, "I") {
        Some(Resp::I)
    } else if is(word, "SC") {
        Some(Resp::SC)
    } else if is(word, "UC") {
        Some(Resp::UC)
    } else if is(word, "UD") {
        Some(Resp::UD)
    } else if is(word, "SD") {
        Some(Resp::SD)
    } else if is(word, "I_PD") {
        Some(Resp::IPD)
    } else if is(word, "SC_PD") {
        Some(Resp::SCPD)
    } else if is(word, "UC_PD") {
        Some(Resp::UCPD)
    } else if is(word, "UD_PD") {
        Some(Resp::UDPD)
    } else if is(word, "SD_PD") {
        Some(Resp::SDPD)
    } else {
        None
    }
}

/// The word of 64 bits that a part of a list names: a number, or `x` where it isn't in this beat.
fn word(part: &[u8]) -> Option<Option<u64>>
    ensures { result ≡ word_in part.now }
{
    if is(part, "x") {
        Some(None)
    } else {
        let number = hex(part, u64::MAX)?;
        Some(Some(number))
    }
}

/// The word that the first part of a list names, and the parts behind its comma. `None` where there is no comma.
fn first_word(list: &[u8]) -> Option<(Option<u64>, &[u8])>
    ensures { option_map (λ found. (found.0, comma_parts found.1.now)) result
        ≡ first_part (comma_parts list.now) }
{
    let end = comma(list)?;
    let first = word(&list[..end])?;
    Some((first, &list[end + 1..]))
}

/// The word that a list of one part names.
fn only_word(list: &[u8]) -> Option<Option<u64>>
    ensures { result ≡ only_of (comma_parts list.now) }
{
    match comma(list) {
        Some(_) => None,
        None => word(list),
    }
}

/// Where the first comma stands.
fn comma(list: &[u8]) -> Option<usize>
    ensures { result ≡ position (λ byte. byte == 44) list.now }
{
    memchr(b',', list)
}

/// The words 0 to 7, with commas between them.
#[tactic(auto, unfolding(crate::specs::Fields::listed_of))]
fn listed(list: &[u8]) -> Option<[Option<u64>; 8]>
    ensures { result ≡ listed_of (comma_parts list.now) }
{
    let (w0, list) = first_word(list)?;
    let (w1, list) = first_word(list)?;
    let (w2, list) = first_word(list)?;
    let (w3, list) = first_word(list)?;
    let (w4, list) = first_word(list)?;
    let (w5, list) = first_word(list)?;
    let (w6, list) = first_word(list)?;
    let w7 = only_word(list)?;
    Some([w0, w1, w2, w3, w4, w5, w6, w7])
}

/// The words of one number of 512 bits, word 7 first, each as 16 digits.
#[tactic(auto, unfolding(crate::specs::Fields::vector_of))]
fn vector(digits: &[u8]) -> Option<[Option<u64>; 8]>
    requires { length digits.now ≡ 128 }
    ensures { result ≡ vector_of digits.now }
{
    let w0 = plain(&digits[112..128], u64::MAX)?;
    let w1 = plain(&digits[96..112], u64::MAX)?;
    let w2 = plain(&digits[80..96], u64::MAX)?;
    let w3 = plain(&digits[64..80], u64::MAX)?;
    let w4 = plain(&digits[48..64], u64::MAX)?;
    let w5 = plain(&digits[32..48], u64::MAX)?;
    let w6 = plain(&digits[16..32], u64::MAX)?;
    let w7 = plain(&digits[0..16], u64::MAX)?;
    Some([
        Some(w0),
        Some(w1),
        Some(w2),
        Some(w3),
        Some(w4),
        Some(w5),
        Some(w6),
        Some(w7),
    ])
}

/// The words of a line: as a list, or as one number of 128 digits.
fn line_words(word: &[u8]) -> Option<[Option<u64>; 8]>
    ensures { result ≡ line_words_of word.now }
{
    let digits = unmarked(word);
    if digits.len() == 128 && comma(word).is_none() {
        vector(digits)
    } else {
        listed(word)
    }
}

/// The words of the beat that the word names.
pub(crate) fn read_beat(word: &[u8]) -> Option<Beat>
    ensures { result ≡ beat_of word.now }
{
    let words = line_words(word)?;
    Some(Beat::with(&words))
}

/// The same of a write back with this RESP: `-` stands for the words of a copy that is lost, which are all 0.
pub(crate) fn read_written(resp: Resp, word: &[u8]) -> Option<Beat>
    ensures { result ≡ written_of resp word.now }
{
    match resp {
        Resp::I if is_dash(word) => Some(Beat {
            words: [0; 8],
            there: [true; 8],
        }),
        _ => read_beat(word),
    }
}

/// The word of 64 bits that the word names.
pub(crate) fn read_value(word: &[u8]) -> Option<u64>
    ensures { result ≡ value_of word.now }
{
    hex(word, u64::MAX)
}
