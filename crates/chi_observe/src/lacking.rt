//! What data of a line lack that come in beats.

ghost use Rattle.std.specs.Prelude.{◌≡◌};
ghost use Rattle.chi_observer.specs.WordedLines.{words_of};
ghost use Rattle.chi_observe.specs.Lacking.{is_known_lacking, lacking_shown, lacking_with, lacking_without, may_show, unknown_in};

use crate::words::{but_known, lacks_some, left_of, unknown_behind};
use chi_observer::{KnownWords, Wanted};

/// What data of a line lack.
/// Source: `docs/OBSERVER.md`, "Data in beats".
#[derive(Clone, Copy, Debug, PartialEq, Eq)]
pub(crate) enum Lacking {
    /// Nothing.
    Nothing,
    /// Words without which the line isn't told of the data: where another flit comes, it isn't judged any more.
    Data,
    /// Words of the value that the line was told of at the first beat of its data: those that no flit has shown yet, which
    /// are any. So many other data lack words of it too; and the home had them before, or gets them by these data.
    Words([bool; 8], u8, bool),
}

impl Lacking {
    /// What lacks behind the first beat of data, which the home sends or doesn't, that lack such words, and of whose words
    /// this is wanted; `None` where the line isn't told of them yet.
    pub(crate) fn with(
        self,
        wanted: Wanted,
        given: bool,
        lacks: &[bool; 8],
        known: &KnownWords,
    ) -> Option<Lacking>
        ensures { result ≡ lacking_with self wanted given lacks.now (words_of known.now) }
    {
        match (self, wanted) {
            (Lacking::Nothing, Wanted::Any) => {
                Some(Lacking::Words(but_known(lacks, known), 0, given))
            }
            (Lacking::Words(unknown, others, had), Wanted::Known) => {
                if !self.may_show(given, lacks) {
                    return None;
                }
                let others = others.checked_add(1)?;
                Some(Lacking::Words(unknown_behind(&unknown, lacks), others, had))
            }
            _ => None,
        }
    }

    /// Whether data that lack such words, which the home sends or doesn't, may show the others: the home not before it has
    /// them.
    pub(crate) fn may_show(&self, given: bool, lacks: &[bool; 8]) -> bool
        ensures { result ≡ may_show self.now given lacks.now }
    {
        match self {
            Lacking::Nothing => true,
            Lacking::Data => true,
            Lacking::Words(unknown, _, had) => !given
                || (*had || !lacks_some(&left_of(unknown, lacks))),
        }
    }

    /// What lacks behind the last beat of data.
    pub(crate) fn without(self) -> Lacking
        ensures { result ≡ lacking_without self }
    {
        match self {
            Lacking::Words(_, others, had) => match others.checked_sub(1) {
                Some(others) => Lacking::Words([false; 8], others, had),
                None => Lacking::Nothing,
            },
            Lacking::Nothing => Lacking::Nothing,
            Lacking::Data => Lacking::Nothing,
        }
    }

    /// The words that no flit has shown yet.
    pub(crate) fn unknown(&self) -> [bool; 8]
        ensures { result ≡ unknown_in self.now }
    {
        match self {
            Lacking::Nothing => [false; 8],
            Lacking::Data => [false; 8],
            Lacking::Words(unknown, _, _) => *unknown,
        }
    }

    /// Whether all words are known that the line was told of.
    pub(crate) fn is_known(&self) -> bool
        ensures { result ≡ is_known_lacking self.now }
    {
        match self {
            Lacking::Nothing => true,
            Lacking::Data => false,
            Lacking::Words(unknown, _, _) => !lacks_some(unknown),
        }
    }

    /// The same behind a flit that lacks such words, but no word of it lacks.
    pub(crate) fn shown(self, lacks: &[bool; 8]) -> Lacking
        ensures { result ≡ lacking_shown self lacks.now }
    {
        match self {
            Lacking::Words(unknown, others, had) => {
                Lacking::Words(unknown_behind(&unknown, lacks), others, had)
            }
            Lacking::Nothing => Lacking::Nothing,
            Lacking::Data => Lacking::Data,
        }
    }
}
