//! Masks, bit by bit.

ghost use Rattle.std.specs.Prelude.{◌≡◌, ◌≢◌, ◌<◌, ◌==◌, ℕ, if◌then◌else◌, nat_le};
ghost use Rattle.std.specs.Int.{bit_at, trailing_zeros, w64};
ghost use Rattle.chi_lanes.specs.Columns.{changes_at};

/// The lowest bit that is set.
#[inline(always)]
pub(crate) fn lowest(mask: u64) -> usize
    requires { mask ≢ 0 }
    ensures value { result ≡ trailing_zeros w64 mask }
    ensures bound { result < 64 }
    ensures set { bit_at mask result ≡ 1 }
    ensures below { (k : ℕ) → k < result → bit_at mask k ≡ 0 }
{
    mask.trailing_zeros() as usize
}

/// The mask with its lowest set bit cleared.
#[inline(always)]
pub(crate) fn without_lowest(mask: u64) -> u64
    requires { mask ≢ 0 }
    ensures { (k : ℕ) → k < 64 → bit_at result k ≡ (if k == trailing_zeros w64 mask then 0 else bit_at mask k) }
{
    mask & (mask - 1)
}

/// Where the bits change, from the lowest on, below which a set one counts.
#[inline(always)]
pub(crate) fn changes(mask: u64) -> u64
    ensures { (k : ℕ) → k < 64 → bit_at result k ≡ changes_at mask k }
{
    mask ^ (mask << 1 | 1)
}

/// All bits from one on.
#[inline(always)]
pub(crate) fn from_bit(bit: usize) -> u64
    ensures { (k : ℕ) → k < 64 → bit_at result k ≡ (if nat_le bit k then 1 else 0) }
{
    if bit < 64 { u64::MAX << bit } else { 0 }
}
