//! The words of a line.

ghost use Rattle.std.specs.Prelude.{◌≡◌, ◌==◌, ◌∷◌, [], bytes_eq, IfNone, IfSome, OnOk};
ghost use Rattle.std.specs.List.{position};
ghost use Rattle.chi_script.specs.Words.{words_of, texts_of, is_text};

use std::alloc::{AllocError, Allocator};

/// Makes the list that of the words of a line, which is given without its line end: one space stands
/// between two of them. The list keeps its room, so that few lines want memory.
/// Source: `docs/FORMATS.md`, "Bytes, lines and numbers".
pub fn read_words<'a, A: Allocator>(
    words: &mut Vec<&'a [u8], A>,
    line: &'a [u8],
) -> Result<(), AllocError>
    ensures { OnOk result (texts_of words.new.items ≡ words_of line.now) }
{
    words.clear();
    words.extend(line.split(|byte| *byte == b' '))
}

/// The first word of a line, which is given without its line end, and what stands behind the space after it.
/// `None` where there is no space: the line is one word then.
/// Source: `docs/FORMATS.md`, "Bytes, lines and numbers".
pub fn first_word(line: &[u8]) -> Option<(&[u8], &[u8])>
    ensures some { IfSome result (λ parts. words_of line.now ≡ parts.0.now ∷ words_of parts.1.now) }
    ensures none { IfNone result (words_of line.now ≡ line.now ∷ []) }
{
    let end = word_end(line)?;
    Some((&line[..end], &line[end + 1..]))
}

/// The same as `first_word`, sooner where the first word has one byte or two, as most numbers have.
#[inline(always)]
pub(crate) fn first_argument(line: &[u8]) -> Option<(&[u8], &[u8])>
    ensures some { IfSome result (λ parts. words_of line.now ≡ parts.0.now ∷ words_of parts.1.now) }
    ensures none { IfNone result (words_of line.now ≡ line.now ∷ []) }
{
    let end = argument_end(line)?;
    Some((&line[..end], &line[end + 1..]))
}

/// Where the first space stands. It isn't inlined, so that its loop stays small.
#[inline(never)]
fn word_end(line: &[u8]) -> Option<usize>
    ensures { result ≡ position (λ byte. byte == 32) line.now }
{
    line.iter().position(|byte| *byte == b' ')
}

/// Where the first space stands; the places behind no more than two bytes are looked at without a loop.
#[inline(always)]
fn argument_end(line: &[u8]) -> Option<usize>
    ensures { result ≡ position (λ byte. byte == 32) line.now }
{
    match line {
        [b' ', ..] => Some(0),
        [_, b' ', ..] => Some(1),
        [_, _, b' ', ..] => Some(2),
        [] | [_] | [_, _] => None,
        _ => word_end(line),
    }
}

/// Whether a word is just this text.
/// Source: `docs/FORMATS.md`, "Bytes, lines and numbers".
#[inline(always)]
pub fn is(word: &[u8], text: &str) -> bool
    ensures { result ≡ is_text word.now text.now }
{
    word == text.as_bytes()
}
