//! Each byte in each lane, and lines beside a plain walk.

use crate::columns::Columns;
use crate::digits::sixteen;
use crate::lists::eight_words;
use crate::masks::{blanks, equal_to, line_blanks};
use crate::places::first_blank;

/// What a trace is made of, blanks more often than others, and bytes beside digits and blanks.
const BYTES: [u8; 32] = *b"  \t\r 09afAF/:@G`gx,-_ R\x00\x80\xff\n  12\r";

/// A number at random behind another.
fn next(number: u64) -> u64 {
    let first = number ^ (number << 13);
    let second = first ^ (first >> 7);
    second ^ (second << 17)
}

/// A line of this many bytes at random.
fn line(size: usize, seed: u64) -> [u8; 200] {
    let mut bytes = [b' '; 200];
    let mut number = seed;
    for at in 0..200 {
        if at < size {
            number = next(number);
            bytes[at] = BYTES[((number >> 20) % 32) as usize];
        }
    }
    bytes
}

/// Whether the byte is one of the three blanks.
fn parts(byte: u8) -> bool {
    matches!(byte, b' ' | b'\t' | b'\r')
}

/// What the byte is worth.
fn worth(byte: u8) -> Option<u64> {
    match byte {
        b'0'..=b'9' => Some(u64::from(byte) - 48),
        b'a'..=b'f' => Some(u64::from(byte) - 87),
        b'A'..=b'F' => Some(u64::from(byte) - 55),
        _ => None,
    }
}

/// Whether masks tell of this byte in this lane, beside others.
fn is_told(byte: u8, lane: usize, other: u8) -> bool {
    let mut bytes = [other; 64];
    bytes[lane % 64] = byte;
    let bit = 1 << (lane % 64);
    let rest = u64::MAX ^ bit;
    let blank = (if parts(byte) { bit } else { 0 }) | (if parts(other) { rest } else { 0 });
    let equal = bit | (if byte == other { rest } else { 0 });
    blanks(&bytes, 0) == blank
        && equal_to(&bytes, 0, byte) == equal
        && line_blanks(&bytes, 64) == blank
}

/// Whether sixteen digits have this byte as one of them.
fn is_worth(byte: u8, lane: usize, other: u8, whole: u64) -> bool {
    let mut bytes = [other; 16];
    bytes[lane % 16] = byte;
    let shift = 4 * (15 - lane % 16);
    match (worth(byte), sixteen(&bytes)) {
        (Some(worth), Some(number)) => number == (whole & !(15 << shift)) | (worth << shift),
        (None, None) => true,
        _ => false,
    }
}

/// Whether each byte is told in this lane.
fn is_lane(lane: usize) -> bool {
    (0..=255u8).all(|byte| {
        is_told(byte, lane, b'a')
            && is_told(byte, lane, b' ')
            && is_worth(byte, lane, b'7', 0x7777_7777_7777_7777)
            && is_worth(byte, lane, b'F', u64::MAX)
    })
}

/// The number that these bytes write, digit by digit.
fn written(text: &[u8]) -> Option<u64> {
    let mut number = 0u64;
    for byte in text {
        number = (number << 4) | worth(*byte)?;
    }
    Some(number)
}

/// Whether the next column is this text, and what is left begins with it; and whether its number is the next one.
fn is_next(columns: &mut Columns<'_>, numbers: &mut Columns<'_>, text: &[u8]) -> bool {
    let number = if text.len() > 16 { None } else { written(text) };
    numbers.next_number() == number && is_text(columns, text)
}

/// Whether the next column is this text, and what is left begins with it.
fn is_text(columns: &mut Columns<'_>, text: &[u8]) -> bool {
    let rest = columns.rest();
    match columns.next_column() {
        None => false,
        Some(column) => {
            column.text() == text
                && rest.starts_with(text)
                && (column.size() > 16 || column.number() == written(text))
        }
    }
}

/// Whether the columns of a line are those that a plain walk finds.
fn is_walked(bytes: &[u8], size: usize) -> bool {
    if size > bytes.len() {
        return false;
    }
    let mut columns = Columns::of(bytes, size);
    let mut numbers = Columns::of(bytes, size);
    let mut begun = 0;
    for at in 0..size {
        if parts(bytes[at]) {
            if begun < at && !is_next(&mut columns, &mut numbers, &bytes[begun..at]) {
                return false;
            }
            begun = at + 1;
        }
    }
    if begun < size && !is_next(&mut columns, &mut numbers, &bytes[begun..size]) {
        return false;
    }
    columns.rest().is_empty() && columns.next_column().is_none() && numbers.next_number().is_none()
}

/// Whether lines of this size are walked alike, as they are and with more behind them.
fn is_size(size: usize) -> bool {
    (1..40u64).all(|seed| {
        let bytes = line(size, seed.wrapping_mul(0x9e37_79b9) ^ size as u64);
        let first = bytes.iter().position(|byte| parts(*byte));
        is_walked(&bytes, size % 201)
            && is_walked(&bytes[..size % 201], size % 201)
            && first_blank(&bytes) == first
    })
}

#[test]
fn lines_beside_a_plain_walk(rt: HostRuntime) {
    let is_right = (0..200usize).all(is_size);
    assert!(rt; is_right);
}

/// A text of eight words.
const TEXT: &str =
    "0000000000000000,0000000000000001,0123456789abcdef,FEDCBA9876543210,ffffffffffffffff,8000000000000000,00000000000000aA,7fffffffffffffff";

/// The words that it lists.
const WORDS: [u64; 8] = [
    0,
    1,
    0x0123_4567_89ab_cdef,
    0xfedc_ba98_7654_3210,
    u64::MAX,
    1 << 63,
    0xaa,
    u64::MAX >> 1,
];

/// Whether the text lists no words with this byte at a place, but the words where it was there before.
fn is_broken(at: usize, byte: u8) -> bool {
    let mut bytes = [0; 135];
    for (place, old) in TEXT.as_bytes().iter().enumerate() {
        if place < 135 {
            bytes[place] = if place == at { byte } else { *old };
        }
    }
    let is_kept = TEXT.as_bytes().get(at) == Some(&byte);
    eight_words(&bytes) == (if is_kept { Some(WORDS) } else { None })
}

#[test]
fn words_of_a_list(rt: HostRuntime) {
    let is_right = (0..135usize).all(|at| is_broken(at, b',') && is_broken(at, b'g'))
        && eight_words(&TEXT.as_bytes()[1..]).is_none();
    assert!(rt; is_right);
}

#[test]
fn each_byte_in_each_lane(rt: HostRuntime) {
    let is_right = (0..64usize).all(is_lane);
    assert!(rt; is_right);
}
