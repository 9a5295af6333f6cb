//! The words of a line, some of which lack.

ghost use Rattle.std.specs.Prelude.{◌≡◌};
ghost use Rattle.chi_observe.specs.Words.{agrees, agrees_word, but_known, but_one, lacking, lacks_some, left_of, unknown_behind, with_known, word_with, words_with};
ghost use Rattle.chi_observer.specs.WordedLines.{words_of};

use chi_flit::Data;
use chi_observer::KnownWords;

/// A word of data behind a beat: the beat's, where it has it.
fn word_with(old: u64, new: u64, there: bool) -> u64
    ensures { result ≡ word_with old new there }
{
    if there { new } else { old }
}

/// The words of data behind a beat.
pub(crate) fn words_with(old: &Data, new: &Data, there: &[bool; 8]) -> Data
    ensures { result ≡ words_with old.now new.now there.now }
{
    [
        word_with(old[0], new[0], there[0]),
        word_with(old[1], new[1], there[1]),
        word_with(old[2], new[2], there[2]),
        word_with(old[3], new[3], there[3]),
        word_with(old[4], new[4], there[4]),
        word_with(old[5], new[5], there[5]),
        word_with(old[6], new[6], there[6]),
        word_with(old[7], new[7], there[7]),
    ]
}

/// Whether a word lacks behind a beat.
fn lacking(lacks: bool, there: bool) -> bool
    ensures { result ≡ lacking lacks there }
{
    lacks && !there
}

/// The words that lack behind a beat.
pub(crate) fn left_of(lacks: &[bool; 8], there: &[bool; 8]) -> [bool; 8]
    ensures { result ≡ left_of lacks.now there.now }
{
    [
        lacking(lacks[0], there[0]),
        lacking(lacks[1], there[1]),
        lacking(lacks[2], there[2]),
        lacking(lacks[3], there[3]),
        lacking(lacks[4], there[4]),
        lacking(lacks[5], there[5]),
        lacking(lacks[6], there[6]),
        lacking(lacks[7], there[7]),
    ]
}

/// Whether some word lacks.
pub(crate) fn lacks_some(left: &[bool; 8]) -> bool
    ensures { result ≡ lacks_some left.now }
{
    left.iter().any(|lacks| *lacks)
}

/// The words that no flit has shown behind one that lacks such words.
pub(crate) fn unknown_behind(unknown: &[bool; 8], lacks: &[bool; 8]) -> [bool; 8]
    ensures { result ≡ unknown_behind unknown.now lacks.now }
{
    left_of(unknown, &left_of(unknown, lacks))
}

/// The words that lack where one in this place alone is there.
pub(crate) fn but_one(place: u8) -> [bool; 8]
    ensures { result ≡ but_one place }
{
    [
        place != 0,
        place != 1,
        place != 2,
        place != 3,
        place != 4,
        place != 5,
        place != 6,
        place != 7,
    ]
}

/// Words that are known in the place of others.
pub(crate) fn with_known(words: &Data, known: &KnownWords) -> Data
    ensures { result ≡ with_known (words_of known.now) words.now }
{
    [
        word_with(words[0], known.words[0], known.known[0]),
        word_with(words[1], known.words[1], known.known[1]),
        word_with(words[2], known.words[2], known.known[2]),
        word_with(words[3], known.words[3], known.known[3]),
        word_with(words[4], known.words[4], known.known[4]),
        word_with(words[5], known.words[5], known.known[5]),
        word_with(words[6], known.words[6], known.known[6]),
        word_with(words[7], known.words[7], known.known[7]),
    ]
}

/// The words that lack, but for those that are known.
#[tactic(auto, using(crate::proofs::WordLemmas::known_where))]
pub(crate) fn but_known(lacks: &[bool; 8], known: &KnownWords) -> [bool; 8]
    ensures { result ≡ but_known (words_of known.now) lacks.now }
{
    [
        lacking(lacks[0], known.known[0]),
        lacking(lacks[1], known.known[1]),
        lacking(lacks[2], known.known[2]),
        lacking(lacks[3], known.known[3]),
        lacking(lacks[4], known.known[4]),
        lacking(lacks[5], known.known[5]),
        lacking(lacks[6], known.known[6]),
        lacking(lacks[7], known.known[7]),
    ]
}

/// Whether a word is the known one, or isn't known.
fn agrees_at(unknown: bool, known: u64, shown: u64) -> bool
    ensures { result ≡ agrees_word unknown known shown }
{
    unknown || known == shown
}

/// Whether the words are those that are known, but for these.
pub(crate) fn agrees(unknown: &[bool; 8], known: &Option<Data>, shown: &Data) -> bool
    ensures { result ≡ agrees unknown.now known.now shown.now }
{
    let Some(known) = known else {
        return false;
    };
    let mut all = agrees_at(unknown[0], known[0], shown[0]);
    all &= agrees_at(unknown[1], known[1], shown[1]);
    all &= agrees_at(unknown[2], known[2], shown[2]);
    all &= agrees_at(unknown[3], known[3], shown[3]);
    all &= agrees_at(unknown[4], known[4], shown[4]);
    all &= agrees_at(unknown[5], known[5], shown[5]);
    all &= agrees_at(unknown[6], known[6], shown[6]);
    all &= agrees_at(unknown[7], known[7], shown[7]);
    all
}
