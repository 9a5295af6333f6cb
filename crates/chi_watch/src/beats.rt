//! The words that a later beat of data brings.

ghost use Rattle.std.specs.Prelude.{◌≡◌, ◌<◌};
ghost use Rattle.chi_watch.specs.Beats.{flit_with, told_with, word_with, words_with};

use crate::told::Told;
use chi_flit::Data;
use chi_issue_b::Beat;
use chi_observer::{CacheFlit, Flit, HomeFlit};

/// A word of data behind a beat: the beat's, where it has one of this number.
fn word_with(word: u64, beat: &Beat, number: usize) -> u64
    requires { number < 8 }
    ensures { result ≡ word_with word beat.now number }
{
    match beat.word(number) {
        Some(word) => word,
        None => word,
    }
}

/// The words of data behind a beat.
fn words_with(words: &Data, beat: &Beat) -> Data
    ensures { result ≡ words_with words.now beat.now }
{
    [
        word_with(words[0], beat, 0),
        word_with(words[1], beat, 1),
        word_with(words[2], beat, 2),
        word_with(words[3], beat, 3),
        word_with(words[4], beat, 4),
        word_with(words[5], beat, 5),
        word_with(words[6], beat, 6),
        word_with(words[7], beat, 7),
    ]
}

/// A flit behind a beat of its data.
fn flit_with(flit: &Flit, beat: &Beat) -> Flit
    ensures { result ≡ flit_with flit.now beat.now }
{
    match flit {
        Flit::Up(sent) => Flit::Up(CacheFlit {
            agent: sent.agent,
            act: sent.act,
            shown: words_with(&sent.shown, beat),
        }),
        Flit::Down(given) => Flit::Down(HomeFlit {
            agent: given.agent,
            grant: given.grant,
            shown: words_with(&given.shown, beat),
        }),
    }
}

/// What a line is told of behind a beat.
pub(crate) fn told_with(told: &Told, beat: &Beat) -> Told
    ensures { result ≡ told_with told.now beat.now }
{
    match told {
        Told::Flit(flit) => Told::Flit(flit_with(flit, beat)),
        Told::Nothing => Told::Nothing,
        Told::Unjudged(cause) => Told::Unjudged(*cause),
        Told::OtherHome => Told::OtherHome,
    }
}
