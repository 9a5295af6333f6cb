//! Single bits of a word.

ghost use Rattle.std.specs.Prelude.{◌≡◌, ℕ, ◌-◌, ◌^◌, ◌<◌, MatchBool};
ghost use Rattle.std.specs.Int.{bit_at};
ghost use Rattle.chi_tracker.specs.Sums.{all_but};

/// The word in which bit `k` alone is set.
pub(crate) fn bit(k: usize) -> u64
    requires { k < 64 }
    ensures { result ≡ 2 ^ k }
{
    1 << k
}

/// The word in which all bits but `k` are set.
pub(crate) fn others(k: usize) -> u64
    requires { k < 64 }
    ensures { result ≡ all_but k }
{
    !(1u64 << k)
}

/// The word in which the clear bits are set, and the set ones clear.
pub(crate) fn inverse(word: u64) -> u64
    ensures { (i : ℕ) → i < 64 → bit_at result i ≡ 1 - bit_at word i }
{
    !word
}

/// Whether bit `k` of the word is set.
pub(crate) fn is_set(word: u64, k: usize) -> bool
    requires { k < 64 }
    ensures { MatchBool result (bit_at word k ≡ 1) (bit_at word k ≡ 0) }
{
    word >> k & 1 == 1
}
