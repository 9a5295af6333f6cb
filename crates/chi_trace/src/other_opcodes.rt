//! The opcodes of Issue B that aren't judged, and those of a design's own.

ghost use Rattle.std.specs.Prelude.{◌≡◌, ◌<◌, IfSome, Some, length, map, slice_get};
ghost use Rattle.std.specs.List.{list_all, position};
ghost use Rattle.std.specs.Option.{option_map};
ghost use Rattle.chi_trace.specs.OtherOpcodes.{is_between, is_name, is_name_byte, is_row, other_opcode_text, own_in, row_of, unjudged_in};

use crate::forms::Opcodes;
use crate::opcodes::TraceChannel;
use chi_script::is;
use std::fmt;

/// An opcode that isn't judged: one of Issue B, by the row of its table, or, by any other number, one of a design's own. It
/// prints as its word; one of a design's own as `an opcode that Issue B hasn't`.
/// Source: `docs/TRACES.md`, "Other opcodes".
#[derive(Clone, Copy, Debug, PartialEq, Eq)]
pub struct OtherOpcode(pub u8);

/// An opcode, by its channel and its word.
pub(crate) type NamedOpcode = (TraceChannel, &'static str);

/// The opcodes of Issue B that aren't judged.
pub(crate) const ROWS: [NamedOpcode; 38] = [
    (TraceChannel::Req, "ReqLCrdReturn"),
    (TraceChannel::Req, "ReadNoSnp"),
    (TraceChannel::Req, "DVMOp"),
    (TraceChannel::Req, "WriteUniquePtl"),
    (TraceChannel::Req, "WriteBackPtl"),
    (TraceChannel::Req, "WriteNoSnpPtl"),
    (TraceChannel::Req, "WriteNoSnpFull"),
    (TraceChannel::Req, "WriteUniqueFullStash"),
    (TraceChannel::Req, "WriteUniquePtlStash"),
    (TraceChannel::Req, "StashOnceShared"),
    (TraceChannel::Req, "StashOnceUnique"),
    (TraceChannel::Req, "ReadOnceCleanInvalid"),
    (TraceChannel::Req, "ReadOnceMakeInvalid"),
    (TraceChannel::Req, "CleanSharedPersist"),
    (TraceChannel::Req, "AtomicStore"),
    (TraceChannel::Req, "AtomicLoad"),
    (TraceChannel::Req, "AtomicSwap"),
    (TraceChannel::Req, "AtomicCompare"),
    (TraceChannel::Req, "PrefetchTgt"),
    (TraceChannel::Snp, "SnpLCrdReturn"),
    (TraceChannel::Snp, "SnpUniqueStash"),
    (TraceChannel::Snp, "SnpMakeInvalidStash"),
    (TraceChannel::Snp, "SnpStashUnique"),
    (TraceChannel::Snp, "SnpStashShared"),
    (TraceChannel::Snp, "SnpDVMOp"),
    (TraceChannel::Snp, "SnpSharedFwd"),
    (TraceChannel::Snp, "SnpCleanFwd"),
    (TraceChannel::Snp, "SnpOnceFwd"),
    (TraceChannel::Snp, "SnpNotSharedDirtyFwd"),
    (TraceChannel::Snp, "SnpUniqueFwd"),
    (TraceChannel::Rsp, "RespLCrdReturn"),
    (TraceChannel::Rsp, "DBIDResp"),
    (TraceChannel::Rsp, "ReadReceipt"),
    (TraceChannel::Rsp, "SnpRespFwded"),
    (TraceChannel::Dat, "DataLCrdReturn"),
    (TraceChannel::Dat, "SnpRespDataPtl"),
    (TraceChannel::Dat, "SnpRespDataFwded"),
    (TraceChannel::Dat, "WriteDataCancel"),
];

impl OtherOpcode {
    /// One of a design's own.
    const OWN: OtherOpcode = OtherOpcode(255);

    /// Its word.
    #[tactic(auto, unfolding(crate::specs::OtherOpcodes::other_opcode_text))]
    fn word(self) -> &'static str
        ensures { result.now ≡ other_opcode_text self }
    {
        match word_among(&ROWS, usize::from(self.0)) {
            Some(word) => word,
            None => "an opcode that Issue B hasn't",
        }
    }
}

impl fmt::Display for OtherOpcode {
    ghost output = { λ opcode. Some (other_opcode_text opcode) };

    fn fmt<W: fmt::Write>(&self, f: &mut fmt::Formatter<W>) -> fmt::Result {
        f.write_str(self.word())
    }
}

/// The word of the row at this place.
fn word_among(rows: &[NamedOpcode], place: usize) -> Option<&'static str>
    ensures { option_map (λ word. word.now) result ≡ slice_get (map (λ row. row.1.now) rows.now) place }
{
    if place < rows.len() {
        Some(rows[place].1)
    } else {
        None
    }
}

/// The place of the row with this channel and word.
fn place_among(rows: &[NamedOpcode], channel: TraceChannel, word: &[u8]) -> Option<usize>
    ensures row { result ≡ position (λ row. is_row channel word.now (row.0, row.1.now)) rows.now }
    ensures small { IfSome result (λ place. place < length rows.now) }
{
    rows.iter()
        .position(|row| row.0 == channel && is(word, row.1))
}

/// The row of the opcode of Issue B that the word names, and that isn't judged.
#[tactic(auto, unfolding(crate::specs::OtherOpcodes::row_of))]
fn row_of(channel: TraceChannel, word: &[u8]) -> Option<usize>
    ensures row { result ≡ row_of channel word.now }
    ensures small { IfSome result (λ row. row < 38) }
{
    place_among(&ROWS, channel, word)
}

/// Whether the byte is a letter or a digit.
fn is_name_byte(byte: u8) -> bool
    ensures { result ≡ is_name_byte byte }
{
    matches!(byte, b'A'..=b'Z' | b'a'..=b'z' | b'0'..=b'9')
}

/// Whether the byte is a capital.
fn is_capital(byte: u8) -> bool
    ensures { result ≡ is_between 65 90 byte }
{
    matches!(byte, b'A'..=b'Z')
}

/// Whether each byte is a letter or a digit.
fn are_name_bytes(word: &[u8]) -> bool
    ensures { result ≡ list_all is_name_byte word.now }
{
    word.iter().all(|byte| is_name_byte(*byte))
}

/// Whether the word may be an opcode's: letters and digits, a capital first.
fn is_name(word: &[u8]) -> bool
    ensures { result ≡ is_name word.now }
{
    match word {
        [] => false,
        [first, ..] => is_capital(*first) && are_name_bytes(word),
    }
}

/// The opcode of a design's own that the word may name.
fn own_in(opcodes: Opcodes, word: &[u8]) -> Option<OtherOpcode>
    ensures { result ≡ own_in opcodes word.now }
{
    match opcodes {
        Opcodes::IssueB => None,
        Opcodes::Any if is_name(word) => Some(OtherOpcode::OWN),
        Opcodes::Any => None,
    }
}

/// The opcode of the channel that the word names, and that isn't judged.
pub(crate) fn unjudged_in(
    opcodes: Opcodes,
    channel: TraceChannel,
    word: &[u8],
) -> Option<OtherOpcode>
    ensures { result ≡ unjudged_in opcodes channel word.now }
{
    match row_of(channel, word) {
        Some(row) => Some(OtherOpcode(row as u8)),
        None => own_in(opcodes, word),
    }
}
