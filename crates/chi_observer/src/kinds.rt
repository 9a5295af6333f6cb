//! The kinds of request and the snoops of Issue B's page.

ghost use Rattle.std.specs.Prelude.{◌≡◌};
ghost use Rattle.chi_observer.specs.Judged.{judges_kind, judges_snoop};
ghost use Rattle.chi_observer.specs.Rules.{gives_up, is_copy_back, is_whole_write};

/// A kind of request.
/// Source: Arm IHI 0050 Issue B, chapter 4; `docs/OBSERVER.md`, "Flits of a cache".
#[derive(Clone, Copy, Debug, PartialEq, Eq)]
pub enum Kind {
    /// A read that never leaves its requester in `SD`.
    ReadNotSharedDirty,
    /// A read that accepts any shared state.
    ReadShared,
    /// A read that leaves its requester clean.
    ReadClean,
    /// A read of the words as they are, that leaves no copy.
    ReadOnce,
    /// A read that leaves its requester the only holder.
    ReadUnique,
    /// Makes a shared holder the only one, without data.
    CleanUnique,
    /// Makes its requester the only holder, which writes the whole line.
    MakeUnique,
    /// Has dirty data of any cache written to memory; copies stay.
    CleanShared,
    /// Has dirty data of any cache written to memory; no copy stays.
    CleanInvalid,
    /// No copy stays, and dirty data are thrown away.
    MakeInvalid,
    /// Tells the home that a clean copy is gone.
    Evict,
    /// Writes a dirty copy back and gives it up.
    WriteBackFull,
    /// Writes a dirty copy back and keeps it clean.
    WriteCleanFull,
    /// Hands a unique clean copy back and gives it up.
    WriteEvictFull,
    /// Writes a whole line without a copy.
    WriteUniqueFull,
}

/// A snoop.
/// Source: Arm IHI 0050 Issue B, chapter 4; `docs/OBSERVER.md`, "Flits of a cache".
#[derive(Clone, Copy, Debug, PartialEq, Eq)]
pub enum Snoop {
    /// Asks for the words, and leaves any copy.
    SnpOnce,
    /// Leaves a shared copy.
    SnpClean,
    /// Leaves any shared copy, dirty ones too.
    SnpShared,
    /// Leaves a shared copy that owes memory nothing.
    SnpNotSharedDirty,
    /// Leaves a clean copy.
    SnpCleanShared,
    /// Leaves no copy, and wants dirty data.
    SnpUnique,
    /// Leaves no copy, and wants dirty data written.
    SnpCleanInvalid,
    /// Leaves no copy, and throws dirty data away.
    SnpMakeInvalid,
}

impl Kind {
    /// Whether requests of the kind are judged: all are.
    /// Source: `docs/OBSERVER.md`, "What is judged".
    pub fn is_judged(self) -> bool
        ensures { result ≡ judges_kind self }
    {
        true
    }

    /// Whether it ends with the write data of a copy.
    pub(crate) fn is_copy_back(self) -> bool
        ensures { result ≡ is_copy_back self }
    {
        matches!(
            self,
            Kind::WriteBackFull | Kind::WriteCleanFull | Kind::WriteEvictFull
        )
    }

    /// Whether it ends with data of its own.
    pub(crate) fn is_whole_write(self) -> bool
        ensures { result ≡ is_whole_write self }
    {
        matches!(self, Kind::WriteUniqueFull)
    }

    /// Whether its write data leave no copy.
    pub(crate) fn gives_up(self) -> bool
        ensures { result ≡ gives_up self }
    {
        matches!(self, Kind::WriteBackFull | Kind::WriteEvictFull)
    }
}

impl Snoop {
    /// Whether the snoop is judged: all are.
    /// Source: `docs/OBSERVER.md`, "What is judged".
    pub fn is_judged(self) -> bool
        ensures { result ≡ judges_snoop self }
    {
        true
    }
}
