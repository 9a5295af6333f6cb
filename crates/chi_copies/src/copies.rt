//! Sets of copies.

ghost use Rattle.std.specs.Prelude.{◌≡◌, ◌<◌, ◌&&◌, ◌||◌, false, not, true};
ghost use Rattle.chi_copies.specs.Copies.{Held as HeldOf, same_held};
ghost use Rattle.chi_copies.specs.Observed.{any_of};
ghost use Rattle.chi_copies.specs.Images.{led, led_by};
ghost use Rattle.chi_copies.specs.Sets.{copy_at, copy_is, held_at, held_is, members, place_of, place_of_copy};

use crate::held::{CacheCopy, Held};

/// A set of copies.
/// Source: `docs/COPIES.md`, "What a copy is".
#[derive(Clone, Copy, Debug, PartialEq, Eq)]
pub struct Copies {
    /// One bit of each copy.
    pub bits: u32,
}

/// The set of no copy alone: of an agent of whom nothing was told.
/// Source: `docs/COPIES.md`, "What is kept".
pub const NOBODY: Copies = Copies { bits: 1 };

/// What copies of a set lead to: where it has one of `from`, to each of `to`.
/// Source: `docs/COPIES.md`, "How a set is kept".
#[derive(Clone, Copy, Debug, PartialEq, Eq)]
pub(crate) struct Row {
    pub(crate) from: Copies,
    pub(crate) to: Copies,
}

/// The bits of all copies.
pub(crate) const EVERY: u32 = 0x0fff_ffff;

/// The bit of a copy by what its cache has.
fn place_of_copy(copy: CacheCopy) -> u32
    ensures { result ≡ place_of_copy (copy_is copy) }
{
    match copy {
        CacheCopy::Invalid => 0,
        CacheCopy::SharedClean => 1,
        CacheCopy::UniqueClean => 2,
        CacheCopy::UniqueEmpty => 3,
        CacheCopy::UniqueDirty => 4,
        CacheCopy::SharedDirty => 5,
        CacheCopy::Writing => 6,
    }
}

/// The bit of a copy.
fn place_of(held: Held) -> u32
    ensures is { result ≡ place_of (held_is held) }
    ensures low { result < 28 }
{
    let copy = place_of_copy(held.copy);
    let cancelled = if held.cancelled { 7 } else { 0 };
    let stored = if held.stored { 14 } else { 0 };
    copy + (cancelled + stored)
}

/// The copy of a bit.
pub(crate) fn held_at(place: u32) -> Held
    ensures { held_is result ≡ held_at place }
{
    Held {
        copy: copy_at(place % 7),
        cancelled: place / 7 % 2 == 1,
        stored: place / 14 == 1,
    }
}

/// What its cache has.
fn copy_at(place: u32) -> CacheCopy
    ensures { copy_is result ≡ copy_at place }
{
    match place {
        0 => CacheCopy::Invalid,
        1 => CacheCopy::SharedClean,
        2 => CacheCopy::UniqueClean,
        3 => CacheCopy::UniqueEmpty,
        4 => CacheCopy::UniqueDirty,
        5 => CacheCopy::SharedDirty,
        _ => CacheCopy::Writing,
    }
}

impl Copies {
    /// The set of none.
    pub(crate) fn empty() -> Copies
        ensures { (h : HeldOf) → members result h ≡ false }
    {
        Copies { bits: 0 }
    }

    /// Whether it has the copy.
    /// Source: `docs/COPIES.md`, "What a copy is".
    pub fn contains(self, held: Held) -> bool
        ensures { result ≡ members self (held_is held) }
    {
        self.bits >> place_of(held) & 1 == 1
    }

    /// The set with the copy.
    pub(crate) fn with(self, held: Held) -> Copies
        ensures { (h : HeldOf) → members result h ≡ (members self h || same_held (held_is held) h) }
    {
        Copies {
            bits: self.bits | 1 << place_of(held),
        }
    }

    /// The set with the copies of another.
    pub(crate) fn or(self, other: Copies) -> Copies
        ensures { (h : HeldOf) → members result h ≡ (members self h || members other h) }
    {
        Copies {
            bits: self.bits | other.bits,
        }
    }

    /// The copies that are in another too.
    pub(crate) fn and(self, other: Copies) -> Copies
        ensures { (h : HeldOf) → members result h ≡ (members self h && members other h) }
    {
        Copies {
            bits: self.bits & other.bits,
        }
    }

    /// The copies that aren't in it.
    pub(crate) fn others(self) -> Copies
        ensures { (h : HeldOf) → members result h ≡ not (members self h) }
    {
        let known = self.known();
        Copies { bits: !known.bits }
    }

    /// The set without any bit that is none of a copy.
    pub(crate) fn known(self) -> Copies
        ensures low { result.bits < 268435456 }
        ensures same { (h : HeldOf) → members result h ≡ members self h }
    {
        Copies {
            bits: self.bits & EVERY,
        }
    }

    /// Whether some copy is in both.
    pub(crate) fn meets(self, other: Copies) -> bool
        ensures { result ≡ any_of (members self) (members other) }
    {
        self.and(other).known().bits != 0
    }

    /// What a row leads to.
    #[inline(always)]
    fn led_by(self, row: Row) -> Copies
        ensures { (h : HeldOf) → members result h ≡ led_by row (members self) h }
    {
        if self.meets(row.from) {
            row.to
        } else {
            Copies::empty()
        }
    }

    /// What the rows lead to together.
    #[inline(always)]
    pub(crate) fn led(self, rows: &[Row]) -> Copies
        ensures { (h : HeldOf) → members result h ≡ led rows.now (members self) h }
    {
        let mut left = Copies::empty();
        for n in 0..rows.len() {
            left = left.or(self.led_by(rows[n]));
        }
        left
    }

    /// The bit of the first copy, of a set that has one.
    pub(crate) fn first(self) -> u32
        requires low { self.bits < 268435456 }
        requires some { 0 < self.bits }
        ensures low { result < 28 }
        ensures first { members self (held_at result) ≡ true }
    {
        self.bits.trailing_zeros()
    }

    /// The set without the copy of a bit.
    pub(crate) fn without(self, place: u32) -> Copies
        requires place { place < 28 }
        requires first { members self (held_at place) ≡ true }
        ensures fewer { result.bits < self.bits }
        ensures others { (h : HeldOf) → members result h ≡ (members self h && not (same_held (held_at place) h)) }
    {
        Copies {
            bits: self.bits & !(1 << place),
        }
    }
}
