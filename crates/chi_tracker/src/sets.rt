//! Sets of entries as words of 64 bits, and the places in a word of owed credits.

ghost use Rattle.std.specs.Prelude.{◌≡◌, ℕ, ◌+◌, ◌*◌, ◌<◌, ◌≤◌, slice_index};
ghost use Rattle.std.specs.Int.{bit_at};
ghost use Rattle.chi_tracker.specs.Sums.{below, set_at};
ghost use Rattle.chi_tracker.specs.Shape.{low, size};
ghost use Rattle.chi_tracker.specs.Calls.{set_count};
ghost use Rattle.chi_tracker.specs.Steps.{first_clear};

use crate::marks::is_set;
use crate::shape::Shape;

/// The lowest clear place of the type, as 8 times the type and the place.
pub(crate) fn first_clear(word: u64, ty: usize) -> usize
    requires kind { ty < 4 }
    requires clear { (bit_at word (first_clear (8 * ty) word) ≡ 0)
        × (first_clear (8 * ty) word < 8 * ty + 8) }
    ensures { result ≡ first_clear (8 * ty) word }
{
    for place in 8 * ty..8 * ty + 8 {
        if !is_set(word, place) {
            return place;
        }
    }
    unreachable!()
}

/// How many of the `count` places of a word from `first` on are set.
pub(crate) fn ones_from(word: u64, first: usize, count: usize) -> u32
    requires { (0 < count) × (first + count ≤ 64) }
    ensures is { result ≡ below (λ i. bit_at word (first + i)) count }
    ensures few { result ≤ count }
{
    ((word >> first) & (u64::MAX >> (64 - count))).count_ones()
}

/// How many of the first `end` entries are in the set.
fn rank(words: &[u64; 4], end: usize) -> u32
    requires { end ≤ 256 }
    ensures { result ≡ below (set_at words.now) end }
{
    let mut found = 0;
    for part in 0..end / 64 {
        found += ones_from(words[part], 0, 64);
    }
    let rest = end % 64;
    if rest == 0 {
        return found;
    }
    found + ones_from(words[end / 64], 0, rest)
}

/// How many entries of each type are in the set.
pub(crate) fn counts_by_type(words: &[u64; 4], shape: &Shape) -> [u32; 4]
    requires { low shape.now 4 ≤ 256 }
    ensures { (t : ℕ) → t < 4
        → slice_index result t ≡ set_count words.now (low shape.now t) (size shape.now t) }
{
    if *words == [0; 4] {
        return [0; 4];
    }
    let [zero, one, two, three] = shape.sizes;
    let first = rank(words, zero);
    let second = rank(words, zero + one);
    let third = rank(words, zero + one + two);
    let all = rank(words, zero + one + two + three);
    [first, second - first, third - second, all - third]
}

/// The lowest of the `count` entries from `start` on that is in the set.
pub(crate) fn lowest(words: [u64; 4], start: usize, count: usize) -> usize
    requires { (start + count ≤ 256) × (0 < set_count words start count) }
    ensures within { (start ≤ result) × (result < start + count) }
    ensures set { set_at words result ≡ 1 }
    ensures lowest { (i : ℕ) → start ≤ i → i < result → set_at words i ≡ 0 }
{
    for entry in start..start + count {
        if is_set(words[entry / 64], entry % 64) {
            return entry;
        }
    }
    unreachable!()
}
