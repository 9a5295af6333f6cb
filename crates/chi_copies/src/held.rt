//! A copy, with what only its agent knows.

ghost use Rattle.std.specs.Prelude.{◌≡◌};
ghost use Rattle.chi_observer.specs.Copies.{compatible, holds_data, is_clean, is_dirty, is_unique, same as same_copy};
ghost use Rattle.chi_copies.specs.Copies.{beside, is_fresh, is_lost, is_newer, shown_of};
ghost use Rattle.chi_copies.specs.Begun.{is_home_copy};
ghost use Rattle.chi_copies.specs.Sets.{copy_is, held_is};

/// What a cache has of a line. `UniqueEmpty` is the standard's unique copy without data, and `Writing` is none, while the
/// data of a WriteUniqueFull are due.
/// Source: Arm IHI 0050 Issue B, chapter 4; `docs/COPIES.md`, "What a copy is".
#[derive(Clone, Copy, Debug, PartialEq, Eq)]
pub enum CacheCopy {
    Invalid,
    SharedClean,
    UniqueClean,
    UniqueEmpty,
    UniqueDirty,
    SharedDirty,
    Writing,
}

/// A copy, and what only its agent knows of it.
/// Source: `docs/COPIES.md`, "What a copy is".
#[derive(Clone, Copy, Debug, PartialEq, Eq)]
pub struct Held {
    /// What its cache has.
    pub copy: CacheCopy,
    /// Whether its agent has cancelled its request that was retried.
    pub cancelled: bool,
    /// Whether it was stored to since the home has had its words.
    pub stored: bool,
}

impl CacheCopy {
    /// Whether it has data.
    pub(crate) fn holds_data(self) -> bool
        ensures { result ≡ holds_data (copy_is self) }
    {
        matches!(
            self,
            CacheCopy::SharedClean
                | CacheCopy::UniqueClean
                | CacheCopy::UniqueDirty
                | CacheCopy::SharedDirty
        )
    }

    /// Whether no other cache has a copy.
    pub(crate) fn is_unique(self) -> bool
        ensures { result ≡ is_unique (copy_is self) }
    {
        matches!(
            self,
            CacheCopy::UniqueClean | CacheCopy::UniqueEmpty | CacheCopy::UniqueDirty
        )
    }

    /// Whether its words are to be written.
    pub(crate) fn is_dirty(self) -> bool
        ensures { result ≡ is_dirty (copy_is self) }
    {
        matches!(self, CacheCopy::UniqueDirty | CacheCopy::SharedDirty)
    }

    /// Whether it may be dropped unseen.
    pub(crate) fn is_clean(self) -> bool
        ensures { result ≡ is_clean (copy_is self) }
    {
        matches!(
            self,
            CacheCopy::SharedClean | CacheCopy::UniqueClean | CacheCopy::UniqueEmpty
        )
    }

    /// Whether two copies are one.
    pub(crate) fn is(self, other: CacheCopy) -> bool
        ensures { result ≡ same_copy (copy_is self) (copy_is other) }
    {
        matches!(
            (self, other),
            (CacheCopy::Invalid, CacheCopy::Invalid)
                | (CacheCopy::SharedClean, CacheCopy::SharedClean)
                | (CacheCopy::UniqueClean, CacheCopy::UniqueClean)
                | (CacheCopy::UniqueEmpty, CacheCopy::UniqueEmpty)
                | (CacheCopy::UniqueDirty, CacheCopy::UniqueDirty)
                | (CacheCopy::SharedDirty, CacheCopy::SharedDirty)
                | (CacheCopy::Writing, CacheCopy::Writing)
        )
    }

    /// Whether two caches may have such copies together.
    fn goes_with(self, other: CacheCopy) -> bool
        ensures { result ≡ compatible (copy_is self) (copy_is other) }
    {
        match self {
            CacheCopy::Invalid => true,
            CacheCopy::SharedClean => matches!(
                other,
                CacheCopy::Invalid | CacheCopy::SharedClean | CacheCopy::SharedDirty
            ),
            CacheCopy::SharedDirty => {
                matches!(other, CacheCopy::Invalid | CacheCopy::SharedClean)
            }
            CacheCopy::UniqueClean
            | CacheCopy::UniqueEmpty
            | CacheCopy::UniqueDirty
            | CacheCopy::Writing => matches!(other, CacheCopy::Invalid),
        }
    }
}

impl Held {
    /// A copy like this one, whose words the home has.
    pub(crate) fn shown(self) -> Held
        ensures { held_is result ≡ shown_of (held_is self) }
    {
        Held {
            stored: false,
            ..self
        }
    }

    /// Whether the value is lost with it.
    pub(crate) fn is_lost(self) -> bool
        ensures { result ≡ is_lost (held_is self) }
    {
        self.stored && !self.copy.holds_data()
    }

    /// Whether it has the value, and so has the home.
    pub(crate) fn is_fresh(self) -> bool
        ensures { result ≡ is_fresh (held_is self) }
    {
        self.copy.holds_data() && !self.stored
    }

    /// Whether it has the value, and the home hasn't.
    pub(crate) fn is_newer(self) -> bool
        ensures { result ≡ is_newer (held_is self) }
    {
        self.stored && self.copy.holds_data()
    }

    /// Whether its words are the home's: none but a UD copy may have others.
    pub(crate) fn is_home_copy(self) -> bool
        ensures { result ≡ is_home_copy (held_is self) }
    {
        self.is_fresh() && !self.copy.is(CacheCopy::UniqueDirty)
    }

    /// Whether two agents may have such copies together.
    pub(crate) fn stands_beside(self, other: Held) -> bool
        ensures { result ≡ beside (held_is self) (held_is other) }
    {
        self.copy.goes_with(other.copy)
            && (!(self.is_lost() && other.is_fresh()) && !(self.is_fresh() && other.is_lost()))
    }
}
