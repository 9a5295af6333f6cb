//! Words of lines, which may be unknown for a while.
//! Not trusted: chi_explain does again what the search finds, and compares.

ghost use Rattle.std.specs.Prelude.{◌≡◌, length};
ghost use Rattle.chi_monitor.specs.Forgotten.{are_many};

use crate::faults::{Differing, KnownWord, SeenAt};
use chi_flit::Data;
use std::alloc::{AllocError, Allocator};
use std::fmt;

/// A word that a flit may show later: until then it has no value.
#[derive(Clone, Copy, Debug, PartialEq, Eq)]
pub(crate) struct Unknown(pub usize);

/// From how many words on those that no line has are forgotten: a line has 208 at most.
const MANY: usize = 512;

/// The words of a line.
pub(crate) type UnknownWords = [Unknown; 8];

/// The words of data that were seen; the others may be any.
pub(crate) type SeenWords = [Option<u64>; 8];

/// The words of a line, as far as they are known.
#[derive(Clone, Copy, Debug, PartialEq, Eq)]
pub struct Known(pub [Option<u64>; 8]);

impl fmt::Display for Known {
    fn fmt<W: fmt::Write>(&self, f: &mut fmt::Formatter<W>) -> fmt::Result {
        for (number, word) in self.0.iter().enumerate() {
            if number > 0 {
                f.write_str(",")?;
            }
            match word {
                Some(value) => write!(f, "{value:x}")?,
                None => f.write_str("x")?,
            }
        }
        Ok(())
    }
}

/// The values that the flits so far have shown.
#[derive(Drop)]
pub(crate) struct Values<A: Allocator> {
    /// The number of what is seen now: it shows the words that get a value.
    pub(crate) number: SeenAt,
    shown: Vec<Option<KnownWord>, A>,
    /// The words that are kept while the others are forgotten.
    kept: Vec<KeptWord, A>,
}

/// A word that is kept, by its number before the others are forgotten.
#[derive(Clone, Copy)]
struct KeptWord {
    number: usize,
    shown: Option<KnownWord>,
}

impl<A: Allocator + Copy> Values<A> {
    /// None yet.
    pub fn new(alloc: A) -> Values<A> {
        Values {
            number: SeenAt(0),
            shown: Vec::new(alloc),
            kept: Vec::new(alloc),
        }
    }
}

impl<A: Allocator> Values<A> {
    /// Whether there are so many words that those that no line has should be forgotten.
    pub fn are_many(&self) -> bool
        ensures { result ≡ are_many (length self.now.shown.items) }
    {
        self.shown.len() >= MANY
    }

    /// Keeps the words of a line, whose numbers are others from now on.
    pub fn keep(&mut self, words: &mut UnknownWords) -> Result<(), AllocError> {
        for word in words.iter_mut() {
            *word = self.keep_one(*word)?;
        }
        Ok(())
    }

    /// The number that a word has among those that are kept.
    fn keep_one(&mut self, word: Unknown) -> Result<Unknown, AllocError> {
        for (at, kept) in self.kept.iter().enumerate() {
            if kept.number == word.0 {
                return Ok(Unknown(at));
            }
        }
        let at = self.kept.len();
        let shown = self.known_word(word);
        self.kept.push(KeptWord {
            number: word.0,
            shown,
        })?;
        Ok(Unknown(at))
    }

    /// Forgets all words but those that were kept.
    pub fn forget_others(&mut self) -> Result<(), AllocError> {
        self.shown.clear();
        for kept in self.kept.iter() {
            self.shown.push(kept.shown)?;
        }
        self.kept.clear();
        Ok(())
    }

    /// A value that is shown by what is seen now.
    fn shown_now(&self, value: u64) -> KnownWord {
        KnownWord {
            value,
            since: Some(self.number),
        }
    }

    /// One more word, with this value if it is known.
    fn add(&mut self, value: Option<u64>) -> Result<Unknown, AllocError> {
        let number = self.shown.len();
        let shown = value.map(|value| self.shown_now(value));
        self.shown.push(shown)?;
        Ok(Unknown(number))
    }

    /// The words of a line that nothing is known of.
    pub fn unknown_line(&mut self) -> Result<UnknownWords, AllocError> {
        let mut words = [Unknown(0); 8];
        for word in words.iter_mut() {
            *word = self.add(None)?;
        }
        Ok(words)
    }

    /// The words of a line that has these values, of those that were seen.
    pub fn seen_line(&mut self, values: &SeenWords) -> Result<UnknownWords, AllocError> {
        let mut words = [Unknown(0); 8];
        for (word, value) in words.iter_mut().zip(values) {
            *word = self.add(*value)?;
        }
        Ok(words)
    }

    /// What is known of a word.
    pub fn known_word(&self, word: Unknown) -> Option<KnownWord> {
        match self.shown.get(word.0) {
            Some(shown) => *shown,
            None => None,
        }
    }

    /// Whether the word may have the value, if one was seen.
    fn may_be(&self, word: Unknown, value: Option<u64>) -> bool {
        match (self.known_word(word), value) {
            (Some(known), Some(value)) => known.value == value,
            (_, None) | (None, _) => true,
        }
    }

    /// The word has the value from now on, if one was seen.
    pub fn bind(&mut self, word: Unknown, value: Option<u64>) {
        let Some(value) = value else {
            return;
        };
        if self.known_word(word).is_some() {
            return;
        }
        let now = self.shown_now(value);
        if let Some(shown) = self.shown.get_mut(word.0) {
            *shown = Some(now);
        }
    }

    /// A word of this value.
    pub fn known_one(&mut self, value: u64) -> Result<Unknown, AllocError> {
        self.add(Some(value))
    }

    /// Whether the words may have these values, of those that were seen; then they have them from now on.
    pub fn are_now(&mut self, words: &UnknownWords, values: &SeenWords) -> bool {
        let may = words
            .iter()
            .zip(values)
            .all(|(word, value)| self.may_be(*word, *value));
        if may {
            for (word, value) in words.iter().zip(values) {
                self.bind(*word, *value);
            }
        }
        may
    }

    /// The words that were seen, beside what is known of those of a line.
    pub fn beside(&self, words: &UnknownWords, seen: &SeenWords) -> Differing {
        let mut known = [None; 8];
        for (place, word) in known.iter_mut().zip(words) {
            *place = self.known_word(*word);
        }
        Differing { seen: *seen, known }
    }

    /// The word's value; 0 where no flit has shown it.
    pub fn value(&self, word: Unknown) -> u64 {
        match self.shown.get(word.0) {
            Some(Some(shown)) => shown.value,
            _ => 0,
        }
    }

    /// The values of the words of a line.
    pub fn line(&self, words: &UnknownWords) -> Data {
        let mut values = [0; 8];
        for (value, word) in values.iter_mut().zip(words) {
            *value = self.value(*word);
        }
        values
    }
}
