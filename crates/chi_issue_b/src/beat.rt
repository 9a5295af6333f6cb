//! The words of data that a flit has.

ghost use Rattle.std.specs.Prelude.{◌≡◌, ℕ, ◌<◌, ◌==◌, Some, if◌then◌else◌};
ghost use Rattle.chi_issue_b.specs.Beat.{is_whole, whole_beat, word_in};

/// The words of a cache line that a flit with data has; the others are in other beats.
/// Source: `docs/TRACES.md`, "Traces".
#[derive(Clone, Copy, Debug, PartialEq, Eq)]
pub struct Beat {
    /// The words 0 to 7, with 0 in place of each that is in another beat.
    pub words: [u64; 8],
    /// Which words the beat has: bit 0 of word 0, and so on.
    pub given: u8,
}

impl Beat {
    /// The beat that has no word.
    /// Source: `docs/TRACES.md`, "Traces".
    pub const NONE: Beat = Beat {
        words: [0; 8],
        given: 0,
    };

    /// The beat that has all words of a line.
    /// Source: `docs/TRACES.md`, "Traces".
    pub fn whole(words: &[u64; 8]) -> Beat
        ensures { result ≡ whole_beat words.now }
    {
        Beat {
            words: *words,
            given: 0xff,
        }
    }

    /// The word of this number; `None` where it is in another beat.
    /// Source: `docs/TRACES.md`, "Traces".
    #[inline(always)]
    pub fn word(&self, number: usize) -> Option<u64>
        requires { number < 8 }
        ensures { result ≡ word_in self.now number }
    {
        if self.given >> number & 1 == 1 {
            Some(self.words[number])
        } else {
            None
        }
    }

    /// Gives the beat a word.
    /// Source: `docs/TRACES.md`, "Traces".
    #[inline(always)]
    pub fn put(&mut self, number: usize, word: u64)
        requires { number < 8 }
        ensures { (n : ℕ) → n < 8 → word_in self.new n ≡ (if n == number then Some word else word_in self.old n) }
    {
        self.words[number] = word;
        self.given |= 1 << number;
    }

    /// Whether the beat has all words of its line.
    /// Source: `docs/TRACES.md`, "Traces".
    #[inline(always)]
    pub fn is_whole(&self) -> bool
        ensures { result ≡ is_whole self.now }
    {
        self.given == 0xff
    }
}
