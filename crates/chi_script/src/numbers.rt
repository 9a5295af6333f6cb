//! Numbers as a file writes them.

ghost use Rattle.std.specs.Prelude.{◌≡◌, ◌<◌, ◌∷◌, [], IfSome};
ghost use Rattle.chi_script.specs.Words.{number_of, small_of, with_digit, digits_of};

/// The number that the word writes: `0`, or decimal digits without a leading zero, at most
/// 18,446,744,073,709,551,615. `None` for every other word.
/// Source: `docs/FORMATS.md`, "Replay files".
pub fn number(word: &[u8]) -> Option<u64>
    ensures { result ≡ number_of word.now }
{
    match word {
        [] => None,
        [digit] => with_digit(0, *digit),
        [b'0', _, ..] => None,
        [_, ..] => digits(0, word),
    }
}

/// The number that the word writes, read as 255 where it is above that, which is outside every range of
/// agents, lines, words, slots and types. `None` where the word is no number.
/// Source: `docs/FORMATS.md`, "Replay files".
pub fn small(word: &[u8]) -> Option<u8>
    ensures { result ≡ small_of word.now }
{
    match word {
        [digit] => with_small_digit(0, *digit),
        [high, low] => pair(*high, *low),
        _ => capped_number(word),
    }
}

/// The number that two bytes write.
#[tactic(auto, using(crate::proofs::NumberLemmas::two_small))]
fn pair(high: u8, low: u8) -> Option<u8>
    ensures { result ≡ small_of (high ∷ low ∷ []) }
{
    if high == b'0' {
        return None;
    }
    let tens = with_small_digit(0, high)?;
    with_small_digit(tens, low)
}

/// The same of a word of any length, by all its digits.
#[inline(never)]
fn capped_number(word: &[u8]) -> Option<u8>
    ensures { result ≡ small_of word.now }
{
    let written = number(word)?;
    Some(u8::try_from(written).unwrap_or(u8::MAX))
}

/// The number with one more digit at its end.
fn with_small_digit(number: u8, digit: u8) -> Option<u8>
    requires { number < 10 }
    ensures digit { result ≡ with_digit number digit }
    ensures small { number ≡ 0 → IfSome result (λ more. more < 10) }
{
    if !digit.is_ascii_digit() {
        return None;
    }
    Some(number * 10 + (digit - b'0'))
}

/// The number whose digits are those of `high` and then all of `word`.
#[tactic(auto, unfolding(crate::specs::Words::digits_of))]
fn digits(high: u64, word: &[u8]) -> Option<u64>
    ensures { result ≡ digits_of high word.now }
{
    let mut number = high;
    for digit in word {
        number = with_digit(number, *digit)?;
    }
    Some(number)
}

/// The number with one more digit at its end.
fn with_digit(number: u64, digit: u8) -> Option<u64>
    ensures { result ≡ with_digit number digit }
{
    if !digit.is_ascii_digit() {
        return None;
    }
    number.checked_mul(10)?.checked_add(u64::from(digit - b'0'))
}
