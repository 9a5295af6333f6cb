//! The words of a cache line that DATA has.

ghost use Rattle.std.specs.Prelude.{◌≡◌, ◌==◌, ◌<◌, IfSome, if◌then◌else◌, is_some, length};
ghost use Rattle.std.specs.List.{list_any, position};
ghost use Rattle.std.specs.Option.{option_map, unwrap_or};
ghost use Rattle.chi_log.specs.Beats.{beat_of, beat_with, comma_parts, first_part, given_of, is_vector, listed_of, only_of, part_of, vector_of};

use crate::numbers::{text_number, unmarked, up_to};
use chi_issue_b::Beat;
use chi_lanes::{Digits, number_at};

/// Lends the words that DATA has, a list of eight with commas between them, or one number of 128 digits; whether it has them.
#[inline(never)]
pub(crate) fn lend_beat(text: &[u8], beat: &mut Beat) -> bool
    ensures some { result ≡ is_some (beat_of text.now) }
    ensures beat { beat.new ≡ unwrap_or (beat_of text.now) beat.old }
{
    if is_vector(text) {
        lend_vector(unmarked(text), beat)
    } else {
        lend_listed(text, beat)
    }
}

/// Whether the word is one number of 128 digits.
#[inline(always)]
fn is_vector(text: &[u8]) -> bool
    ensures { result ≡ is_vector text.now }
{
    unmarked(text).len() == 128 && !has_comma(text)
}

/// Whether there is a comma.
fn has_comma(text: &[u8]) -> bool
    ensures { result ≡ list_any (λ byte. byte == 44) text.now }
{
    text.iter().any(|byte| *byte == b',')
}

/// Lends the words of one number of 512 bits, word 7 first.
#[inline(never)]
fn lend_vector(digits: &[u8], beat: &mut Beat) -> bool
    requires { length digits.now ≡ 128 }
    ensures some { result ≡ is_some (vector_of digits.now) }
    ensures beat { beat.new ≡ unwrap_or (vector_of digits.now) beat.old }
{
    match vector(digits) {
        Some(words) => {
            *beat = words;
            true
        }
        None => false,
    }
}

/// The words of one number of 512 bits, word 7 first.
#[tactic(auto, unfolding(crate::specs::Beats::vector_of))]
fn vector(digits: &[u8]) -> Option<Beat>
    requires { length digits.now ≡ 128 }
    ensures { result ≡ vector_of digits.now }
{
    let w0 = number_at(digits, 112, 128)?;
    let w1 = number_at(digits, 96, 112)?;
    let w2 = number_at(digits, 80, 96)?;
    let w3 = number_at(digits, 64, 80)?;
    let w4 = number_at(digits, 48, 64)?;
    let w5 = number_at(digits, 32, 48)?;
    let w6 = number_at(digits, 16, 32)?;
    let w7 = number_at(digits, 0, 16)?;
    Some(Beat::whole(&[w0, w1, w2, w3, w4, w5, w6, w7]))
}

/// A word of a list.
#[inline(always)]
fn part(text: &[u8]) -> Option<Option<u64>>
    ensures { result ≡ part_of text.now }
{
    if text == b"x".as_slice() {
        return Some(None);
    }
    let number = text_number(text, u64::MAX)?;
    Some(Some(number))
}

/// The word that the first part of a list is, and the parts behind its comma. `None` where there is no comma.
#[inline(always)]
fn first_word(list: &[u8]) -> Option<(Option<u64>, &[u8])>
    ensures { option_map (λ found. (found.0, comma_parts found.1.now)) result
        ≡ first_part (comma_parts list.now) }
{
    match quick_word(list) {
        Some(found) => Some(found),
        None => slow_word(list),
    }
}

/// The word of a first part of one digit to sixteen, where 16 bytes stand before the last.
#[inline(always)]
fn quick_word(list: &[u8]) -> Option<(Option<u64>, &[u8])>
    ensures { IfSome result (λ found. Some (found.0, comma_parts found.1.now) ≡ first_part (comma_parts list.now)) }
{
    if list.len() <= 16 {
        return None;
    }
    let run = Digits::at(list, 0).marks.trailing_ones() as usize;
    if run == 0 || run > 16 {
        return None;
    }
    if list[run] != b',' {
        return None;
    }
    let number = up_to(number_at(list, 0, run)?, u64::MAX)?;
    Some((Some(number), &list[run + 1..]))
}

/// The word of any first part.
#[inline(never)]
fn slow_word(list: &[u8]) -> Option<(Option<u64>, &[u8])>
    ensures { option_map (λ found. (found.0, comma_parts found.1.now)) result
        ≡ first_part (comma_parts list.now) }
{
    let end = comma(list)?;
    let first = part(&list[..end])?;
    Some((first, &list[end + 1..]))
}

/// The word that a list of one part is.
fn only_word(list: &[u8]) -> Option<Option<u64>>
    ensures { result ≡ only_of (comma_parts list.now) }
{
    match comma(list) {
        Some(_) => None,
        None => part(list),
    }
}

/// Where the first comma stands.
fn comma(list: &[u8]) -> Option<usize>
    ensures { result ≡ position (λ byte. byte == 44) list.now }
{
    list.iter().position(|byte| *byte == b',')
}

/// Lends the words 0 to 7, with commas between them.
#[inline(always)]
fn lend_listed(list: &[u8], beat: &mut Beat) -> bool
    ensures some { result ≡ is_some (listed_of (comma_parts list.now)) }
    ensures beat { beat.new ≡ unwrap_or (listed_of (comma_parts list.now)) beat.old }
{
    match listed(list) {
        Some(words) => {
            *beat = words;
            true
        }
        None => false,
    }
}

/// The words 0 to 7, with commas between them.
#[inline(always)]
#[tactic(auto, unfolding(crate::specs::Beats::listed_of))]
fn listed(list: &[u8]) -> Option<Beat>
    ensures { result ≡ listed_of (comma_parts list.now) }
{
    let (w0, list) = first_word(list)?;
    let (w1, list) = first_word(list)?;
    let (w2, list) = first_word(list)?;
    let (w3, list) = first_word(list)?;
    let (w4, list) = first_word(list)?;
    let (w5, list) = first_word(list)?;
    let (w6, list) = first_word(list)?;
    let w7 = only_word(list)?;
    Some(beat_with(&[w0, w1, w2, w3, w4, w5, w6, w7]))
}

/// The beat that has these words.
#[inline(always)]
fn beat_with(words: &[Option<u64>; 8]) -> Beat
    ensures { result ≡ beat_with words.now }
{
    Beat {
        words: [
            words[0].unwrap_or(0),
            words[1].unwrap_or(0),
            words[2].unwrap_or(0),
            words[3].unwrap_or(0),
            words[4].unwrap_or(0),
            words[5].unwrap_or(0),
            words[6].unwrap_or(0),
            words[7].unwrap_or(0),
        ],
        given: given(words),
    }
}

/// Which of the words are there.
#[inline(always)]
fn given(words: &[Option<u64>; 8]) -> u8
    ensures { result ≡ given_of words.now }
{
    bit(words[0])
        + 2 * bit(words[1])
        + 4 * bit(words[2])
        + 8 * bit(words[3])
        + 16 * bit(words[4])
        + 32 * bit(words[5])
        + 64 * bit(words[6])
        + 128 * bit(words[7])
}

/// 1 where the word is there.
#[inline(always)]
fn bit(word: Option<u64>) -> u8
    ensures bit { result ≡ (if is_some word then 1 else 0) }
    ensures small { result < 2 }
{
    u8::from(word.is_some())
}
