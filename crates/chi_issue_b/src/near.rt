//! The opcode that a wrong word nearly is.

ghost use Rattle.std.specs.Prelude.{◌≡◌, ◌||◌, map};
ghost use Rattle.chi_issue_b.specs.Near.{differ_at_front, is_alike, is_near, is_one_off, is_swapped, opcode_near};
ghost use Rattle.chi_issue_b.specs.Opcodes.{first_of, lent_row};

use crate::channels::Channel;
use crate::opcodes::Opcode;
use crate::table::{Row, rows_of};

impl Opcode {
    /// The first opcode of the channel, by number, that a word nearly is: they differ by the case of letters alone, by one
    /// letter that one has and the other hasn't or has another in its place, or by two neighbours in the other order. `None`
    /// where there is none.
    /// Source: `docs/TRACES.md`, "Other opcodes".
    pub fn near(channel: Channel, word: &[u8]) -> Option<Opcode>
        ensures { result ≡ opcode_near channel word.now }
    {
        near_in(rows_of(channel), word)
    }
}

/// The opcode of the first of these rows that the word nearly is.
fn near_in(rows: &[Row], word: &[u8]) -> Option<Opcode>
    ensures { result ≡ first_of (is_near word.now) (map lent_row rows.now) }
{
    for row in rows {
        if is_near(word, row.1.as_bytes()) {
            return Some(row.0);
        }
    }
    None
}

/// Whether a word nearly is a name.
fn is_near(word: &[u8], name: &[u8]) -> bool
    ensures { result ≡ is_alike word.now name.now || is_one_off word.now name.now }
{
    is_alike(word, name) || is_one_off(word, name)
}

/// Whether two words differ by the case of letters alone.
fn is_alike(word: &[u8], name: &[u8]) -> bool
    ensures { result ≡ is_alike word.now name.now }
{
    word.eq_ignore_ascii_case(name)
}

/// Whether two words differ by one letter, or by two neighbours in the other order.
fn is_one_off(word: &[u8], name: &[u8]) -> bool
    ensures { result ≡ is_one_off word.now name.now }
{
    match word {
        [] => name.len() == 1,
        [one, rest @ ..] => match name {
            [] => rest.is_empty(),
            [other, _more @ ..] if *one != *other => differ_at_front(word, name),
            [_other, more @ ..] => is_one_off(rest, more),
        },
    }
}

/// Whether two words whose first letters differ have no other difference than that one of these letters is too many, or stands
/// for the other one, or that the first two letters stand in the other order.
fn differ_at_front(word: &[u8], name: &[u8]) -> bool
    ensures { result ≡ differ_at_front word.now name.now }
{
    match (word, name) {
        ([_, rest @ ..], [_, more @ ..]) => {
            rest == more || rest == name || word == more || is_swapped(word, name)
        }
        _ => false,
    }
}

/// Whether two words differ in the order of their first two letters alone.
fn is_swapped(word: &[u8], name: &[u8]) -> bool
    ensures { result ≡ is_swapped word.now name.now }
{
    match (word, name) {
        ([first, second, rest @ ..], [third, fourth, more @ ..]) => {
            *first == *fourth && *second == *third && rest == more
        }
        _ => false,
    }
}
