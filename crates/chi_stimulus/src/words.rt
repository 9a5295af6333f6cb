//! The random words of a drawing.

use rand_chacha::ChaCha8Rng;
use rand_core::SeedableRng;
use rand_core::utils::NextWord;

/// The words that commands are drawn by: stream 0 of ChaCha8, whose key is the seed in eight bytes, the lowest
/// first, and then zeros.
#[derive(Drop)]
pub(crate) struct Words {
    rng: ChaCha8Rng,
}

/// The five words of a command: by them its verb is drawn, its agent, its line, and what stands behind these.
#[derive(Clone, Copy)]
pub(crate) struct Lot {
    pub(crate) verb: u32,
    pub(crate) agent: u32,
    pub(crate) line: u32,
    pub(crate) first: u32,
    pub(crate) second: u32,
}

impl Words {
    /// The stream of a seed, at its first word.
    pub(crate) fn new(seed: u64) -> Words {
        let mut key = [0u8; 32];
        key[..8].copy_from_slice(&seed.to_le_bytes());
        let rng = ChaCha8Rng::from_seed(key);
        Words { rng }
    }

    /// The next word.
    pub(crate) fn next(&mut self) -> u32 {
        self.rng.next_word()
    }

    /// The next five words.
    pub(crate) fn lot(&mut self) -> Lot {
        let verb = self.next();
        let agent = self.next();
        let line = self.next();
        let first = self.next();
        let second = self.next();
        Lot {
            verb,
            agent,
            line,
            first,
            second,
        }
    }
}
