//! A wrong word of a line, as a message shows it.

ghost use Rattle.std.specs.Prelude.{◌≡◌, [], ◌∷◌, encode_utf8, take, Some};
ghost use Rattle.chi_log.specs.Shown.{shown_byte, shown_rest, shown_word};

use std::fmt;

/// The most bytes of a word that are shown.
const SHOWN: usize = 40;

/// A wrong word as a message shows it: at most 40 of its bytes, those that aren't printable as `?`, and `..` where it has
/// more.
#[derive(Clone, Copy)]
pub(crate) struct ShownWord<'a>(pub &'a [u8]);

impl fmt::Display for ShownWord<'_> {
    ghost output = { λ word. Some (shown_word word.0.now) };

    fn fmt<W: fmt::Write>(&self, f: &mut fmt::Formatter<W>) -> fmt::Result {
        for byte in front(self.0) {
            f.write_char(shown(*byte))?;
        }
        f.write_str(dots(self.0))
    }
}

/// The bytes that are shown.
fn front(word: &[u8]) -> &[u8]
    ensures { result.now ≡ take 40 word.now }
{
    if word.len() > SHOWN {
        &word[..SHOWN]
    } else {
        word
    }
}

/// What stands for the bytes that aren't shown.
fn dots(word: &[u8]) -> &'static str
    ensures { result.now ≡ shown_rest word.now }
{
    if word.len() > SHOWN { ".." } else { "" }
}

/// A byte as it is shown.
fn shown(byte: u8) -> char
    ensures { encode_utf8 result ≡ shown_byte byte ∷ [] }
{
    if byte.is_ascii_graphic() {
        char::from(byte)
    } else {
        '?'
    }
}
