//! The words that an agent draws, one for each of its turns.
//!
//! Source: `docs/FORMATS.md`, "A turn".

ghost use Rattle.std.specs.Prelude.{ℕ, ◌≡◌, ◌+◌, ◌%◌, ◌^◌};
ghost use Rattle.rand_chacha.specs.ChaCha.{ChaCha};
ghost use Rattle.chi_agent.specs.Draws.{stream_of, word_after};

use chi_flit::Agent;
use rand_chacha::ChaCha8Rng;
use rand_core::SeedableRng;
use rand_core::utils::NextWord;
use std::marker::Model;

/// The words of one agent. Contracts see key, stream and the place of the next word.
/// Source: `docs/FORMATS.md`, "A turn".
#[derive(Drop)]
pub struct Draws {
    rng: ChaCha8Rng,
}

impl Model for Draws {
    ghost Value = { ChaCha };

    ghost view = { λ d. d.rng };
}

impl Draws {
    /// The stream of an agent, at its first word.
    /// Source: `docs/FORMATS.md`, "A turn".
    pub fn new(seed: u64, agent: Agent) -> Draws
        ensures { result ≡ stream_of seed agent.0 }
    {
        let mut key = [0u8; 32];
        key[..8].copy_from_slice(&seed.to_le_bytes());
        let mut rng = ChaCha8Rng::from_seed(key);
        rng.set_stream(u64::from(agent.0));
        Draws { rng }
    }

    /// The word at the place of the stream, which goes on by one.
    /// Source: `docs/FORMATS.md`, "A turn".
    pub fn next(&mut self) -> u32
        ensures word { result ≡ word_after self.old }
        ensures place { self.new ≡ record self.old { word_pos = (self.old.word_pos + 1) % 2 ^ 68 } }
    {
        self.rng.next_word()
    }
}
