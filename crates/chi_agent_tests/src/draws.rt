//! The words of agents are those of ChaCha8's test vectors.

use chi_agent::Draws;
use chi_flit::Agent;

/// A seed, an agent's number, and the first words of its stream.
type Row = (u64, u8, &'static [u32]);

// The key streams of the test vectors of `draft-strombergson-chacha-test-vectors`, for 8 rounds and
// keys of 256 bits, read as words of 4 bytes with the low byte first: the key of zeros, for more words than a
// block has; the lowest bit of the key; and that of the nonce.
const STREAMS: [Row; 3] = [
    (
        0,
        0,
        &[
            0x2fef003e, 0xd6405f89, 0xe8b85b7f, 0xa1a5091f, 0xc30e842c, 0x3b7f9ace, 0x88e11b18,
            0x1e1a71ef, 0x72e14c98, 0x416f21b9, 0x6753449f, 0x19566d45, 0xa3424a31, 0x01b086da,
            0xb8fd7b38, 0x42fe0c0e, 0x0dfaaed2, 0x51c1a5ea, 0x6cdb0abf, 0xada5f201,
        ],
    ),
    (
        1,
        0,
        &[
            0xa0e95ecf, 0x61a94a49, 0xedd5053e, 0x4b805b72, 0x65a4f412, 0xcc5a63ee, 0xe81d313a,
            0xea890474,
        ],
    ),
    (
        0,
        1,
        &[
            0xb34b8f2b, 0xca068379, 0x7cd43051, 0xd14e8d4f, 0xcceda03a, 0x4269bec1, 0xecae0f09,
            0x9b59d7a0,
        ],
    ),
];

/// Whether the next words are these.
fn draws(draws: &mut Draws, wanted: &[u32]) -> bool {
    let mut found = true;
    for word in wanted {
        found &= draws.next() == *word;
    }
    found
}

#[test]
fn words_are_those_of_the_test_vectors(rt: HostRuntime) {
    for (seed, agent, words) in &STREAMS {
        let mut stream = Draws::new(*seed, Agent(*agent));
        assert!(rt; draws(&mut stream, words), "seed {seed}, agent {agent}");
    }
}
