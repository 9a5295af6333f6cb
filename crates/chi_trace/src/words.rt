//! The words of a line, between which any number of blanks may stand.

ghost use Rattle.std.specs.Prelude.{◌≡◌, not, true};
ghost use Rattle.std.specs.List.{position};
ghost use Rattle.chi_trace.specs.Words.{begins_in_word, blank_words, is_blank, word_or_empty, words_behind};

use memchr::memchr3;

/// Whether the byte parts words: a space, a tab, or the carriage return before a line end.
/// Source: `docs/TRACES.md`, "Traces".
#[inline(always)]
fn is_blank(byte: u8) -> bool
    ensures { result ≡ is_blank byte }
{
    byte == b' ' || byte == b'\t' || byte == b'\r'
}

/// A word of a line, and what stands behind the blank after it; both are empty where the line has no word.
/// Source: `docs/TRACES.md`, "Traces".
#[derive(Clone, Copy)]
pub(crate) struct Word<'a> {
    pub text: &'a [u8],
    pub rest: &'a [u8],
}

/// The first word of a line.
/// Source: `docs/TRACES.md`, "Traces".
#[inline(always)]
pub(crate) fn next_word(line: &[u8]) -> Word<'_>
    ensures text { result.text.now ≡ word_or_empty (blank_words line.now) }
    ensures rest { blank_words result.rest.now ≡ words_behind (blank_words line.now) }
{
    let text = from_word(line);
    cut(text, word_end(text))
}

/// The same, sooner where the first word is long.
#[inline(always)]
pub(crate) fn next_long_word(line: &[u8]) -> Word<'_>
    ensures text { result.text.now ≡ word_or_empty (blank_words line.now) }
    ensures rest { blank_words result.rest.now ≡ words_behind (blank_words line.now) }
{
    let text = from_word(line);
    cut(text, long_word_end(text))
}

/// The line from its first word on; nothing where it has none.
#[inline(always)]
fn from_word(line: &[u8]) -> &[u8]
    ensures same { blank_words result.now ≡ blank_words line.now }
    ensures first { begins_in_word result.now ≡ true }
{
    let start = word_start(line).unwrap_or(line.len());
    &line[start..]
}

/// A text that begins in a word, cut at its first blank.
#[inline(always)]
fn cut(text: &[u8], end: Option<usize>) -> Word<'_>
    requires first { begins_in_word text.now ≡ true }
    requires end { end ≡ position is_blank text.now }
    ensures text { result.text.now ≡ word_or_empty (blank_words text.now) }
    ensures rest { blank_words result.rest.now ≡ words_behind (blank_words text.now) }
{
    match end {
        Some(end) => Word {
            text: &text[..end],
            rest: &text[end + 1..],
        },
        None => Word { text, rest: &[] },
    }
}

/// Where the first byte stands that isn't blank: nearly always the first one.
#[inline(always)]
fn word_start(line: &[u8]) -> Option<usize>
    ensures { result ≡ position (λ byte. not (is_blank byte)) line.now }
{
    line.iter().position(|byte| !is_blank(*byte))
}

/// Where the first blank stands.
#[inline(always)]
fn word_end(text: &[u8]) -> Option<usize>
    ensures { result ≡ position is_blank text.now }
{
    text.iter().position(|byte| is_blank(*byte))
}

/// Where the first blank stands, by many bytes at once.
#[inline(never)]
fn long_word_end(text: &[u8]) -> Option<usize>
    ensures { result ≡ position is_blank text.now }
{
    memchr3(b' ', b'\t', b'\r', text)
}
