//! The opcode that a wrong word nearly is.

use crate::opcodes::{TraceChannel, channel_in};
use crate::other_opcodes::{NamedOpcode, ROWS};

/// The opcodes that are judged.
const JUDGED: [NamedOpcode; 36] = [
    (TraceChannel::Req, "ReadNotSharedDirty"),
    (TraceChannel::Req, "ReadShared"),
    (TraceChannel::Req, "ReadUnique"),
    (TraceChannel::Req, "CleanUnique"),
    (TraceChannel::Req, "Evict"),
    (TraceChannel::Req, "WriteBackFull"),
    (TraceChannel::Req, "WriteCleanFull"),
    (TraceChannel::Req, "WriteEvictFull"),
    (TraceChannel::Req, "PCrdReturn"),
    (TraceChannel::Req, "ReadClean"),
    (TraceChannel::Req, "ReadOnce"),
    (TraceChannel::Req, "MakeUnique"),
    (TraceChannel::Req, "CleanShared"),
    (TraceChannel::Req, "CleanInvalid"),
    (TraceChannel::Req, "MakeInvalid"),
    (TraceChannel::Req, "WriteUniqueFull"),
    (TraceChannel::Snp, "SnpShared"),
    (TraceChannel::Snp, "SnpNotSharedDirty"),
    (TraceChannel::Snp, "SnpUnique"),
    (TraceChannel::Snp, "SnpCleanInvalid"),
    (TraceChannel::Snp, "SnpOnce"),
    (TraceChannel::Snp, "SnpClean"),
    (TraceChannel::Snp, "SnpCleanShared"),
    (TraceChannel::Snp, "SnpMakeInvalid"),
    (TraceChannel::Rsp, "RetryAck"),
    (TraceChannel::Rsp, "Comp"),
    (TraceChannel::Rsp, "CompDBIDResp"),
    (TraceChannel::Rsp, "PCrdGrant"),
    (TraceChannel::Rsp, "SnpResp"),
    (TraceChannel::Rsp, "CompAck"),
    (TraceChannel::Dat, "CompData"),
    (TraceChannel::Dat, "SnpRespData"),
    (TraceChannel::Dat, "CopyBackWrData"),
    (TraceChannel::Dat, "NonCopyBackWrData"),
    (TraceChannel::Cpu, "Load"),
    (TraceChannel::Cpu, "Store"),
];

/// A letter as a capital; any other byte as it is.
fn capital(byte: u8) -> u8 {
    match byte {
        b'a'..=b'z' => byte - 32,
        _ => byte,
    }
}

/// Whether two words differ by the case of letters alone.
fn are_alike(word: &[u8], name: &[u8]) -> bool {
    let mut same = word.len() == name.len();
    for (one, other) in word.iter().zip(name) {
        same &= capital(*one) == capital(*other);
    }
    same
}

/// What two words have behind the letters that both begin with.
fn behind_front<'a>(word: &'a [u8], name: &'a [u8]) -> (&'a [u8], &'a [u8]) {
    let (mut word, mut name) = (word, name);
    for _ in 0..word.len() {
        match (word, name) {
            ([one, rest @ ..], [other, more @ ..]) if *one == *other => {
                word = rest;
                name = more;
            }
            _ => break,
        }
    }
    (word, name)
}

/// What two words have before the letters that both end with.
fn before_end<'a>(word: &'a [u8], name: &'a [u8]) -> (&'a [u8], &'a [u8]) {
    let (mut word, mut name) = (word, name);
    for _ in 0..word.len() {
        match (word, name) {
            ([rest @ .., one], [more @ .., other]) if *one == *other => {
                word = rest;
                name = more;
            }
            _ => break,
        }
    }
    (word, name)
}

/// Whether two words differ by one letter, which one has and the other hasn't or has another in its place, or by two
/// neighbours in the other order.
fn are_one_off(word: &[u8], name: &[u8]) -> bool {
    let (word, name) = behind_front(word, name);
    match before_end(word, name) {
        ([], [_]) | ([_], []) | ([_], [_]) => true,
        ([first, second], [third, fourth]) => *first == *fourth && *second == *third,
        _ => false,
    }
}

/// The first of the channel's opcodes among these that the word nearly is.
fn near_among(rows: &[NamedOpcode], channel: TraceChannel, word: &[u8]) -> Option<&'static str> {
    for (of, name) in rows {
        let bytes = name.as_bytes();
        if *of == channel && (are_alike(word, bytes) || are_one_off(word, bytes)) {
            return Some(*name);
        }
    }
    None
}

/// The opcode of Issue B that a word nearly is, on the channel of this word: they differ by the case of letters alone, or by
/// one letter, or by two neighbours in the other order. `None` where there is none, or no such channel.
/// Source: `docs/TRACES.md`, "Other opcodes".
pub fn near_opcode(channel: &[u8], word: &[u8]) -> Option<&'static str> {
    let channel = channel_in(channel)?;
    match near_among(&JUDGED, channel, word) {
        Some(name) => Some(name),
        None => near_among(&ROWS, channel, word),
    }
}
