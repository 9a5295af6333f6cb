//! What copies may be, as sets.

ghost use Rattle.std.specs.Prelude.{◌≡◌, ◌&&◌, ◌||◌, not};
ghost use Rattle.chi_observer.specs.Copies.{compatible};
ghost use Rattle.chi_copies.specs.Copies.{Held as HeldOf, is_fresh, is_lost};
ghost use Rattle.chi_copies.specs.Begun.{apart, is_home_copy};
ghost use Rattle.chi_copies.specs.Observed.{any_of};
ghost use Rattle.chi_copies.specs.Rules.{may_store};
ghost use Rattle.chi_copies.specs.Sets.{copy_is, held_is, members};
ghost use Rattle.chi_copies.specs.declared.tests.Test.TheVariants.{Shows};
ghost use Rattle.chi_copies.specs.Lines.{apart_by, passes};

use crate::copies::{Copies, EVERY, Row};
use crate::held::{CacheCopy, Held};
use crate::rules::{gives_copy, gives_data};
use chi_observer::{Due, Grant};

// A bit is that of what the cache has (copies.rt), of a copy that is neither cancelled nor stored to; 7 more if its
// request is cancelled, and 14 more if it was stored to.

/// No copy.
const NONE: Copies = Copies { bits: 0 };

/// Each copy.
const EACH: Copies = Copies { bits: EVERY };

/// A cache has some.
const LEFT: Copies = Copies { bits: 0x0fdf_bf7e };

/// Dirty.
const DIRTY: Copies = Copies { bits: 0x060c_1830 };

/// Not dirty.
const CLEAN: Copies = Copies { bits: 0x09f3_e7cf };

/// Stored to since the home has had its words.
const STORED: Copies = Copies { bits: 0x0fff_c000 };

/// Stored to, and not dirty.
const LOST: Copies = Copies { bits: 0x09f3_c000 };

/// With the value, which the home hasn't.
pub(crate) const NEWER: Copies = Copies { bits: 0x06cd_8000 };

/// With the value, which the home has too.
pub(crate) const FRESH: Copies = Copies { bits: 0x0000_1b36 };

/// With the value, which the home has too, and not UD.
const HOME_COPY: Copies = Copies { bits: 0x0000_1326 };

/// Without data, of a cache that has thrown the value away.
const THROWN: Copies = Copies { bits: 0x0932_4000 };

/// Unique, without data.
const UNIQUE_EMPTY: Copies = Copies { bits: 0x0102_0408 };

/// Unique, with the value, which the home hasn't.
const UNIQUE_NEWER: Copies = Copies { bits: 0x0285_0000 };

/// Of a cancelled request.
pub(crate) const CANCELLED: Copies = Copies { bits: 0x0fe0_3f80 };

/// None that another cache may have beside a shared clean one.
const APART_FROM_CLEAN: Copies = Copies { bits: 0x0b97_2e5c };

/// None that another cache may have beside a shared dirty one.
const APART_FROM_DIRTY: Copies = Copies { bits: 0x0f9f_3e7c };

/// None that another cache may have beside one of these.
const APART: [Row; 5] = [
    Row {
        from: APART_FROM_CLEAN,
        to: LEFT,
    },
    Row {
        from: Copies { bits: 0x0040_8102 },
        to: APART_FROM_CLEAN,
    },
    Row {
        from: Copies { bits: 0x0408_1020 },
        to: APART_FROM_DIRTY,
    },
    Row {
        from: THROWN,
        to: FRESH,
    },
    Row {
        from: FRESH,
        to: THROWN,
    },
];

/// What a copy may be.
/// Source: `docs/COPIES.md`, "What a copy is".
#[derive(Clone, Copy, Debug, PartialEq, Eq)]
pub enum Test {
    /// Any.
    Each,
    /// The words of a flit of the home to it are the home's own.
    Shows(Grant),
    /// A flit of the home fills it though its agent has thrown the value away.
    FillsStored(Grant),
    /// Some.
    Left,
    /// Dirty.
    Dirty,
    /// Stored to since the home has had its words.
    Stored,
    /// Stored to, and not dirty.
    Lost,
    /// A copy with the value, which the home hasn't.
    Newer,
    /// A store may be to it while this is due, and it has no data.
    StorableEmpty(Due),
    /// A store may be to it while this is due, and it has the value, which the home hasn't.
    StorableNewer(Due),
    /// No other agent may have it beside this one.
    Apart(Held),
    /// The copy has the home's words: it has data, was not stored to, and is not UD.
    HomeCopy,
    /// No other agent may have it beside this one, whatever the words of a UD copy are.
    SurelyApart(Held),
    /// Another agent may have it beside this one, by what the words of a UD copy may be.
    Together(Held),
}

/// The copies that a store may be to while this is due.
pub(crate) fn storable(due: Due) -> Copies
    ensures { (h : HeldOf) → members result h ≡ may_store due h }
{
    match due {
        Due::Nothing | Due::Acknowledgement => EACH,
        Due::Resending(_) => CANCELLED,
        Due::Completion(_) | Due::SureCompletion(_) | Due::WriteData(_) => NONE,
    }
}

/// The copies to which the home's own words go by its flit.
fn shown_to(grant: Grant) -> Copies
    ensures { (h : HeldOf) → members result h ≡ passes (Shows grant) h }
{
    if !gives_data(grant) {
        NONE
    } else if gives_copy(grant) {
        CLEAN
    } else {
        EACH
    }
}

/// The copies that no other cache may have beside one.
fn apart_from(copy: CacheCopy) -> Copies
    ensures { (h : HeldOf) → members result h ≡ not (compatible (copy_is copy) h.copy) }
{
    match copy {
        CacheCopy::Invalid => NONE,
        CacheCopy::SharedClean => APART_FROM_CLEAN,
        CacheCopy::SharedDirty => APART_FROM_DIRTY,
        CacheCopy::UniqueClean
        | CacheCopy::UniqueEmpty
        | CacheCopy::UniqueDirty
        | CacheCopy::Writing => LEFT,
    }
}

/// The copies that have what the home has where this one has lost the value, or the other way round.
fn lost_beside(held: Held) -> Copies
    ensures { (h : HeldOf) → members result h
        ≡ ((is_lost (held_is held) && is_fresh h) || (is_fresh (held_is held) && is_lost h)) }
{
    if held.is_lost() {
        FRESH
    } else if held.is_fresh() {
        THROWN
    } else {
        NONE
    }
}

/// The copies that have the home's words where this one has lost the value, or the other way round.
fn surely_lost_beside(held: Held) -> Copies
    ensures { (h : HeldOf) → members result h
        ≡ ((is_lost (held_is held) && is_home_copy h) || (is_home_copy (held_is held) && is_lost h)) }
{
    if held.is_lost() {
        HOME_COPY
    } else if held.is_home_copy() {
        THROWN
    } else {
        NONE
    }
}

/// The copies that no other cache may have beside one, whatever the words of a UD copy are.
fn surely_apart(held: Held) -> Copies
    ensures { (h : HeldOf) → members result h ≡ apart (held_is held) h }
{
    apart_from(held.copy).or(surely_lost_beside(held))
}

impl Test {
    /// The copies that are so.
    #[inline(always)]
    pub(crate) fn copies(self) -> Copies
        ensures { (h : HeldOf) → members result h ≡ passes self h }
    {
        match self {
            Test::Each => EACH,
            Test::Shows(grant) => shown_to(grant),
            Test::FillsStored(grant) => if gives_copy(grant) { LOST } else { NONE },
            Test::Left => LEFT,
            Test::Dirty => DIRTY,
            Test::Stored => STORED,
            Test::Lost => LOST,
            Test::Newer => NEWER,
            Test::StorableEmpty(due) => storable(due).and(UNIQUE_EMPTY),
            Test::StorableNewer(due) => storable(due).and(UNIQUE_NEWER),
            Test::Apart(held) => apart_from(held.copy).or(lost_beside(held)),
            Test::HomeCopy => HOME_COPY,
            Test::SurelyApart(held) => surely_apart(held),
            Test::Together(held) => surely_apart(held).others(),
        }
    }

    /// Whether some copy of the set is so.
    #[inline(always)]
    pub(crate) fn any(self, set: Copies) -> bool
        ensures { result ≡ any_of (members set) (passes self) }
    {
        set.meets(self.copies())
    }
}

/// The copies that another agent may not have beside those of a set; `alone` says that it is to have none.
pub(crate) fn apart_by(set: Copies, alone: bool) -> Copies
    ensures { (h : HeldOf) → members result h ≡ apart_by (members set) alone h }
{
    let apart = set.led(&APART);
    if alone { apart.or(LEFT) } else { apart }
}
