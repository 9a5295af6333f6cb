//! How many entries each credit type has, and how many requesters there are.

use chi_flit::CreditType;

/// The entries by credit type, which are numbered by rising type, and the number of requesters.
/// Source: `docs/PROTOCOL.md`, "Limits".
#[derive(Clone, Copy, Debug, PartialEq, Eq)]
pub struct Shape {
    pub sizes: [usize; 4],
    pub agents: usize,
}

impl Shape {
    ghost use Rattle.std.specs.Prelude.{◌≡◌, ◌<◌};
    ghost use Rattle.chi_flit.specs.Credit.{credit_number};
    ghost use Rattle.chi_tracker.specs.Shape.{low, size, IsOf, IsShape};
    ghost use Rattle.chi_tracker.specs.Calls.{shape_of};

    pub(crate) fn of(entries: [u16; 4], agents: usize) -> Shape
        ensures { result ≡ shape_of entries agents }
    {
        Shape {
            sizes: entries.map(usize::from),
            agents,
        }
    }

    /// The lowest entry of the type.
    pub(crate) fn first(&self, ty: CreditType) -> usize
        requires { IsShape self.now }
        ensures { result ≡ low self.now (credit_number ty) }
    {
        let sizes = self.sizes;
        match ty {
            CreditType::T0 => 0,
            CreditType::T1 => sizes[0],
            CreditType::T2 => sizes[0] + sizes[1],
            CreditType::T3 => sizes[0] + sizes[1] + sizes[2],
        }
    }

    /// How many entries the type has.
    pub(crate) fn count(&self, ty: CreditType) -> usize
        requires { IsShape self.now }
        ensures { result ≡ size self.now (credit_number ty) }
    {
        self.sizes[ty.number() as usize]
    }

    /// The number of the entry's type.
    pub(crate) fn kind_of(&self, entry: usize) -> usize
        requires { IsShape self.now × (entry < low self.now 4) }
        ensures { (result < 4) × IsOf self.now result entry }
    {
        let [zero, one, two, _three] = self.sizes;
        if entry < zero {
            0
        } else if entry < zero + one {
            1
        } else if entry < zero + one + two {
            2
        } else {
            3
        }
    }
}
