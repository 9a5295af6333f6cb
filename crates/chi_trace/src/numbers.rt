//! Numbers as a trace writes them: in hexadecimal.

ghost use Rattle.std.specs.Prelude.{◌≡◌, ◌≤◌, ◌<◌, ◌∷◌, [], IfSome};
ghost use Rattle.std.specs.Option.{unwrap_or};
ghost use Rattle.chi_trace.specs.Numbers.{digit_of, digits_from, hex_of, plain_of, unmarked, with_hex_digit};

/// The number that the word writes in hexadecimal, with `0x` before it or without, with leading zeros or without, at
/// most `most`. `None` for every other word.
/// Source: `docs/TRACES.md`, "Traces".
pub(crate) fn hex(word: &[u8], most: u64) -> Option<u64>
    ensures read { result ≡ hex_of most word.now }
    ensures fits { IfSome result (λ number. number ≤ most) }
{
    plain(unmarked(word), most)
}

/// What stands behind `0x`, where the word begins so, and else the word.
pub(crate) fn unmarked(word: &[u8]) -> &[u8]
    ensures { result.now ≡ unmarked word.now }
{
    match word {
        [first, second, digits @ ..] if *first == b'0' && *second == b'x' => digits,
        _ => word,
    }
}

/// The number whose digits these are, one or more, at most `most`.
pub(crate) fn plain(word: &[u8], most: u64) -> Option<u64>
    ensures read { result ≡ plain_of most word.now }
    ensures fits { IfSome result (λ number. number ≤ most) }
{
    match word {
        [] => None,
        [_, ..] => digits(word, most),
    }
}

/// The number whose digits are all of `word`.
#[tactic(auto, unfolding(crate::specs::Numbers::digits_from))]
fn digits(word: &[u8], most: u64) -> Option<u64>
    ensures read { result ≡ digits_from most 0 word.now }
    ensures fits { IfSome result (λ number. number ≤ most) }
{
    let mut number = 0;
    let mut left = word;
    while let [first, second, rest @ ..] = left {
        number = with_pair(number, *first, *second, most)?;
        left = rest;
    }
    match left {
        [] => Some(number),
        [last, ..] => with_digit(number, *last, most),
    }
}

/// The number with two more digits at its end.
fn with_pair(number: u64, first: u8, second: u8, most: u64) -> Option<u64>
    requires { number ≤ most }
    ensures read { result ≡ digits_from most number (first ∷ second ∷ []) }
    ensures fits { IfSome result (λ number. number ≤ most) }
{
    let (high, low) = (digit_value(first)?, digit_value(second)?);
    let more = number
        .checked_mul(256)?
        .checked_add(u64::from(high * 16 + low))?;
    if more <= most { Some(more) } else { None }
}

/// The number with one more digit at its end.
fn with_digit(number: u64, digit: u8, most: u64) -> Option<u64>
    requires { number ≤ most }
    ensures read { result ≡ with_hex_digit most number digit }
    ensures fits { IfSome result (λ number. number ≤ most) }
{
    let value = digit_value(digit)?;
    let more = number.checked_mul(16)?.checked_add(u64::from(value))?;
    if more <= most { Some(more) } else { None }
}

/// What each byte is worth as a digit; 16 of one that is none.
#[rattlefmt::skip]
static DIGITS: [u8; 256] = [
    16, 16, 16, 16, 16, 16, 16, 16, 16, 16, 16, 16, 16, 16, 16, 16,
    16, 16, 16, 16, 16, 16, 16, 16, 16, 16, 16, 16, 16, 16, 16, 16,
    16, 16, 16, 16, 16, 16, 16, 16, 16, 16, 16, 16, 16, 16, 16, 16,
    0, 1, 2, 3, 4, 5, 6, 7, 8, 9, 16, 16, 16, 16, 16, 16,
    16, 10, 11, 12, 13, 14, 15, 16, 16, 16, 16, 16, 16, 16, 16, 16,
    16, 16, 16, 16, 16, 16, 16, 16, 16, 16, 16, 16, 16, 16, 16, 16,
    16, 10, 11, 12, 13, 14, 15, 16, 16, 16, 16, 16, 16, 16, 16, 16,
    16, 16, 16, 16, 16, 16, 16, 16, 16, 16, 16, 16, 16, 16, 16, 16,
    16, 16, 16, 16, 16, 16, 16, 16, 16, 16, 16, 16, 16, 16, 16, 16,
    16, 16, 16, 16, 16, 16, 16, 16, 16, 16, 16, 16, 16, 16, 16, 16,
    16, 16, 16, 16, 16, 16, 16, 16, 16, 16, 16, 16, 16, 16, 16, 16,
    16, 16, 16, 16, 16, 16, 16, 16, 16, 16, 16, 16, 16, 16, 16, 16,
    16, 16, 16, 16, 16, 16, 16, 16, 16, 16, 16, 16, 16, 16, 16, 16,
    16, 16, 16, 16, 16, 16, 16, 16, 16, 16, 16, 16, 16, 16, 16, 16,
    16, 16, 16, 16, 16, 16, 16, 16, 16, 16, 16, 16, 16, 16, 16, 16,
    16, 16, 16, 16, 16, 16, 16, 16, 16, 16, 16, 16, 16, 16, 16, 16,
];

/// What a byte is worth as a digit; 16 where it is none.
#[inline(always)]
fn digit_number(byte: u8) -> u8
    ensures { result ≡ unwrap_or (digit_of byte) 16 }
{
    DIGITS[usize::from(byte)]
}

/// What a digit is worth.
#[inline(always)]
fn digit_value(digit: u8) -> Option<u8>
    ensures value { result ≡ digit_of digit }
    ensures small { IfSome result (λ value. value < 16) }
{
    let value = digit_number(digit);
    if value < 16 { Some(value) } else { None }
}
