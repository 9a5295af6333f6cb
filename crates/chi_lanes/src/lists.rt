//! The words of a cache line, as a text lists them.

ghost use Rattle.std.specs.Prelude.{◌≡◌, ◌≤◌, List, ℕ, drop, false, length, true, IfNone, IfSome};
ghost use Rattle.chi_lanes.specs.Lists.{Begins, Lists};

use crate::digits::number_at;

/// The eight words that a text lists, each in sixteen hexadecimal digits, with a comma between two of them. `None` for
/// every other text, a list in which some word has fewer digits too.
/// Source: `docs/TRACES.md`, "Traces".
pub fn eight_words(text: &[u8]) -> Option<[u64; 8]>
    ensures words { IfSome result (λ words. Lists text.now words) }
    ensures none { IfNone result ((words : List ℕ) → length words ≡ 8 → Lists text.now words → ⊥) }
{
    let mut words = [0; 8];
    if read_words(text, &mut words) {
        Some(words)
    } else {
        None
    }
}

/// Whether a text lists eight words, as [`eight_words`] says; these are put into `words` then. Where the text doesn't,
/// some of them may have been.
/// Source: `docs/TRACES.md`, "Traces".
pub fn read_words(text: &[u8], words: &mut [u64; 8]) -> bool
    ensures listed { result ≡ true → Lists text.now words.new }
    ensures none { result ≡ false → (others : List ℕ) → length others ≡ 8 → Lists text.now others → ⊥ }
{
    if text.len() != 135 {
        return false;
    }
    let mut left = text;
    for at in 0..7 {
        match listed_word(left) {
            Some((word, behind)) => {
                words[at] = word;
                left = behind;
            }
            None => return false,
        }
    }
    match number_at(left, 0, 16) {
        Some(word) => {
            words[7] = word;
            true
        }
        None => false,
    }
}

/// The word that a list begins with, and what stands behind its comma. `None` where it doesn't begin so.
#[inline(always)]
fn listed_word(text: &[u8]) -> Option<(u64, &[u8])>
    requires { 17 ≤ length text.now }
    ensures found { IfSome result (λ found. Begins text.now found.0 found.1.now) }
    ensures none { IfNone result ((word : ℕ) → Begins text.now word (drop 17 text.now) → ⊥) }
{
    if text[16] != b',' {
        return None;
    }
    let word = number_at(text, 0, 16)?;
    Some((word, &text[17..]))
}
