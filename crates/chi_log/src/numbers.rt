//! Numbers as a trace writes them: in hexadecimal.

ghost use Rattle.std.specs.Prelude.{◌≡◌, ◌≤◌, ◌<◌, ◌+◌, ◌*◌, IfSome, length};
ghost use Rattle.std.specs.Option.{unwrap_or};
ghost use Rattle.chi_lanes.specs.Numbers.{digit_of, number_of};
ghost use Rattle.chi_log.specs.Numbers.{and_then, at_most, credit_of, hex_of, id_of, unmarked, with_digit, word_of};

use chi_lanes::{Column, number_at};

/// The id of 16 bits that the column has: mostly one digit or two.
#[inline(always)]
pub(crate) fn id_in(column: &Column) -> Option<u16>
    ensures { result ≡ id_of column.now }
{
    match column.text() {
        [only] => one_digit(*only),
        [first, second] => two_digits(*first, *second),
        long => long_id(long),
    }
}

/// The id of one digit.
#[inline(always)]
fn one_digit(only: u8) -> Option<u16>
    ensures { result ≡ digit_of only }
{
    let value = digit(only)?;
    Some(u16::from(value))
}

/// The id of two digits.
#[inline(always)]
fn two_digits(first: u8, second: u8) -> Option<u16>
    ensures { result ≡ and_then (digit_of first) (λ high. and_then (digit_of second) (λ low. Some (high * 16 + low))) }
{
    let high = digit(first)?;
    let low = digit(second)?;
    Some(u16::from(high) * 16 + u16::from(low))
}

/// The id of more digits.
#[inline(never)]
fn long_id(text: &[u8]) -> Option<u16>
    ensures { result ≡ id_of text.now }
{
    let number = text_number(text, 0xffff)?;
    Some(number as u16)
}

/// The credit type that the column has: mostly one digit.
#[inline(always)]
pub(crate) fn credit_in(column: &Column) -> Option<u8>
    ensures { result ≡ credit_of column.now }
{
    match column.text() {
        [only] => digit(*only),
        long => long_credit(long),
    }
}

/// The credit type of more digits.
#[inline(never)]
fn long_credit(text: &[u8]) -> Option<u8>
    ensures { result ≡ credit_of text.now }
{
    let number = text_number(text, 0xf)?;
    Some(number as u8)
}

/// The address, or the word of memory, that the column has.
#[inline(always)]
pub(crate) fn word_in(column: &Column) -> Option<u64>
    ensures { result ≡ word_of column.now }
{
    if column.size() <= 16 {
        if let Some(number) = column.number() {
            return up_to(number, u64::MAX);
        }
    }
    hex(column.text(), u64::MAX)
}

/// The number that a text has, in hexadecimal, with `0x` before it or without, with leading zeros or without, at most
/// `most`. `None` for every other text.
#[inline(always)]
pub(crate) fn text_number(text: &[u8], most: u64) -> Option<u64>
    ensures read { result ≡ hex_of most text.now }
    ensures fits { IfSome result (λ number. number ≤ most) }
{
    if !text.is_empty() && text.len() <= 16 {
        if let Some(number) = number_at(text, 0, text.len()) {
            return up_to(number, most);
        }
    }
    hex(text, most)
}

/// The number, where it is at most so much.
#[inline(always)]
pub(crate) fn up_to(number: u64, most: u64) -> Option<u64>
    ensures { result ≡ at_most most (Some number) }
{
    if number <= most { Some(number) } else { None }
}

/// The number that the text has, whatever its length.
#[inline(never)]
pub(crate) fn hex(text: &[u8], most: u64) -> Option<u64>
    ensures { result ≡ hex_of most text.now }
{
    let number = digits(unmarked(text))?;
    up_to(number, most)
}

/// What stands behind `0x`, where the text begins so, and else the text.
pub(crate) fn unmarked(text: &[u8]) -> &[u8]
    ensures { result.now ≡ unmarked text.now }
{
    match text {
        [first, second, digits @ ..] if *first == b'0' && *second == b'x' => digits,
        _ => text,
    }
}

/// The number of 64 bits whose digits these are, one or more.
fn digits(text: &[u8]) -> Option<u64>
    ensures { result ≡ at_most 0xffff_ffff_ffff_ffff (number_of text.now) }
{
    if text.is_empty() {
        return None;
    }
    let mut number: u64 = 0;
    for byte in text {
        number = with_digit(number, *byte)?;
    }
    Some(number)
}

/// The number of 64 bits with one more digit at its end.
fn with_digit(number: u64, byte: u8) -> Option<u64>
    ensures { result ≡ with_digit number byte }
{
    let value = u64::from(digit(byte)?);
    number.checked_mul(16)?.checked_add(value)
}

/// What each byte is worth as a digit; 16 of one that is none.
#[rattlefmt::skip]
static DIGITS: [u8; 256] = [
    16, 16, 16, 16, 16, 16, 16, 16, 16, 16, 16, 16, 16, 16, 16, 16,
    16, 16, 16, 16, 16, 16, 16, 16, 16, 16, 16, 16, 16, 16, 16, 16,
    16, 16, 16, 16, 16, 16, 16, 16, 16, 16, 16, 16, 16, 16, 16, 16,
    0, 1, 2, 3, 4, 5, 6, 7, 8, 9, 16, 16, 16, 16, 16, 16,
    16, 10, 11, 12, 13, 14, 15, 16, 16, 16, 16, 16, 16, 16, 16, 16,
    16, 16, 16, 16, 16, 16, 16, 16, 16, 16, 16, 16, 16, 16, 16, 16,
    16, 10, 11, 12, 13, 14, 15, 16, 16, 16, 16, 16, 16, 16, 16, 16,
    16, 16, 16, 16, 16, 16, 16, 16, 16, 16, 16, 16, 16, 16, 16, 16,
    16, 16, 16, 16, 16, 16, 16, 16, 16, 16, 16, 16, 16, 16, 16, 16,
    16, 16, 16, 16, 16, 16, 16, 16, 16, 16, 16, 16, 16, 16, 16, 16,
    16, 16, 16, 16, 16, 16, 16, 16, 16, 16, 16, 16, 16, 16, 16, 16,
    16, 16, 16, 16, 16, 16, 16, 16, 16, 16, 16, 16, 16, 16, 16, 16,
    16, 16, 16, 16, 16, 16, 16, 16, 16, 16, 16, 16, 16, 16, 16, 16,
    16, 16, 16, 16, 16, 16, 16, 16, 16, 16, 16, 16, 16, 16, 16, 16,
    16, 16, 16, 16, 16, 16, 16, 16, 16, 16, 16, 16, 16, 16, 16, 16,
    16, 16, 16, 16, 16, 16, 16, 16, 16, 16, 16, 16, 16, 16, 16, 16,
];

/// What a byte is worth as a digit; 16 where it is none.
#[inline(always)]
fn digit_number(byte: u8) -> u8
    ensures { result ≡ unwrap_or (digit_of byte) 16 }
{
    DIGITS[usize::from(byte)]
}

/// What a digit is worth.
#[inline(always)]
fn digit(byte: u8) -> Option<u8>
    ensures value { result ≡ digit_of byte }
    ensures small { IfSome result (λ value. value < 16) }
{
    let value = digit_number(byte);
    if value < 16 { Some(value) } else { None }
}
