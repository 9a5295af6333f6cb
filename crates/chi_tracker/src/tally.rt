//! Counting entries and credits in the tracker's words.

ghost use Rattle.std.specs.Prelude.{◌≡◌, ℕ, ◌+◌, ◌*◌, ◌<◌, ◌≤◌, slice_index};
ghost use Rattle.chi_tracker.specs.Sums.{set_at};
ghost use Rattle.chi_tracker.specs.Shape.{low, count_of, owed_in};
ghost use Rattle.chi_tracker.specs.Words.{p_of, o_of};
ghost use Rattle.chi_tracker.specs.Totals.{is_free, is_in_hand, is_promised, owed_all, IsCount};

use crate::marks::inverse;
use crate::sets::{counts_by_type, ones_from};
use crate::shape::Shape;
use crate::totals::Counts;
use crate::words::{WORD_COUNT, owed_word, promise_word};

/// The tracker's words, as they were read.
pub(crate) type Words = [u64; WORD_COUNT];

/// The entries that are promised to some requester.
fn promised_set(words: &Words, agents: usize) -> [u64; 4]
    requires { agents ≤ 8 }
    ensures { (e : ℕ) → e < 256 → set_at result e ≡ is_promised words.now agents e }
{
    let mut set = [0; 4];
    for agent in 0..agents {
        let at = promise_word(agent, 0);
        let more = [
            set[0] | words[at],
            set[1] | words[at + 1],
            set[2] | words[at + 2],
            set[3] | words[at + 3],
        ];
        set = more;
    }
    set
}

/// How many entries are free, by type.
fn free_counts(words: &Words, shape: &Shape) -> [u32; 4]
    requires { low shape.now 4 ≤ 256 }
    ensures { (t : ℕ) → t < 4 → slice_index result t ≡ count_of shape.now t (is_free words.now) }
{
    let free = [
        inverse(words[0]),
        inverse(words[1]),
        inverse(words[2]),
        inverse(words[3]),
    ];
    counts_by_type(&free, shape)
}

/// How many entries are in hand, by type: claimed, and promised to no requester.
fn hand_counts(words: &Words, promised: &[u64; 4], shape: &Shape) -> [u32; 4]
    requires entries { low shape.now 4 ≤ 256 }
    requires promised { (e : ℕ) → e < 256
        → set_at promised.now e ≡ is_promised words.now shape.now.agents e }
    ensures { (t : ℕ) → t < 4
        → slice_index result t ≡ count_of shape.now t (is_in_hand words.now shape.now.agents) }
{
    let hand = [
        words[0] & inverse(promised[0]),
        words[1] & inverse(promised[1]),
        words[2] & inverse(promised[2]),
        words[3] & inverse(promised[3]),
    ];
    counts_by_type(&hand, shape)
}

/// The credits owed to a requester, by type.
pub(crate) fn owed_to(words: &Words, agent: usize) -> [u32; 4]
    requires { agent < 8 }
    ensures is { (t : ℕ) → t < 4 → slice_index result t ≡ owed_in t (o_of words.now agent) }
    ensures few { (t : ℕ) → t < 4 → slice_index result t ≤ 8 }
{
    let word = words[owed_word(agent)];
    [
        ones_from(word, 0, 8),
        ones_from(word, 8, 8),
        ones_from(word, 16, 8),
        ones_from(word, 24, 8),
    ]
}

/// The entries promised to a requester, by type.
pub(crate) fn promised_of(words: &Words, agent: usize, shape: &Shape) -> [u32; 4]
    requires { (agent < 8) × (low shape.now 4 ≤ 256) }
    ensures { (t : ℕ) → t < 4 → slice_index result t ≡ count_of shape.now t (p_of words.now agent) }
{
    let at = promise_word(agent, 0);
    let set = [words[at], words[at + 1], words[at + 2], words[at + 3]];
    counts_by_type(&set, shape)
}

/// The credits owed to all requesters, by type.
fn owed_by_all(words: &Words, agents: usize) -> [u32; 4]
    requires { agents ≤ 8 }
    ensures { (t : ℕ) → t < 4 → slice_index result t ≡ owed_all words.now t agents }
{
    let mut owed = [0; 4];
    for agent in 0..agents {
        if words[owed_word(agent)] != 0 {
            let own = owed_to(words, agent);
            let sums = [
                owed[0] + own[0],
                owed[1] + own[1],
                owed[2] + own[2],
                owed[3] + own[3],
            ];
            owed = sums;
        }
    }
    owed
}

/// Counts all entries and owed credits.
pub(crate) fn counts(words: &Words, shape: &Shape) -> Counts
    requires { (shape.now.agents ≤ 8) × (low shape.now 4 ≤ 256) }
    ensures { IsCount shape.now words.now result }
{
    let promised = promised_set(words, shape.agents);
    Counts {
        free: free_counts(words, shape),
        hand: hand_counts(words, &promised, shape),
        promised: counts_by_type(&promised, shape),
        owed: owed_by_all(words, shape.agents),
    }
}
