//! What the copies of a set lead to.

ghost use Rattle.std.specs.Prelude.{◌≡◌, ◌||◌};
ghost use Rattle.chi_observer.specs.declared.flits.Due.TheVariants.{Nothing};
ghost use Rattle.chi_copies.specs.Copies.{Held as HeldOf, image};
ghost use Rattle.chi_copies.specs.Rules.{slips};
ghost use Rattle.chi_copies.specs.Images.{led};
ghost use Rattle.chi_copies.specs.Sets.{held_is, members};
ghost use Rattle.chi_copies.specs.declared.steps.TheConstants.{DROPS};
ghost use Rattle.chi_copies.specs.Lines.{leads_by};
ghost use Rattle.chi_copies.specs.Observed.{shown_all};

use crate::acts::{dropped, freed, granted, may_be_free, stored_to};
use crate::copies::{Copies, Row, held_at};
use crate::held::Held;
use crate::rules::are_hidden;
use crate::sends::{Sent, with_left};
use crate::tests::Test;
use chi_observer::{Due, Grant, Stores};

// A bit is that of what the cache has (copies.rt), of a copy that is neither cancelled nor stored to; 7 more if its
// request is cancelled, and 14 more if it was stored to.

/// A drop of a clean copy.
const DROPS: [Row; 4] = [
    Row {
        from: Copies { bits: 0x0000_000e },
        to: Copies { bits: 0x0000_0001 },
    },
    Row {
        from: Copies { bits: 0x0000_0700 },
        to: Copies { bits: 0x0000_0080 },
    },
    Row {
        from: Copies { bits: 0x0003_8000 },
        to: Copies { bits: 0x0000_4000 },
    },
    Row {
        from: Copies { bits: 0x01c0_0000 },
        to: Copies { bits: 0x0020_0000 },
    },
];

/// A store to a unique copy.
const STORES: [Row; 2] = [
    Row {
        from: Copies { bits: 0x0007_001c },
        to: Copies { bits: 0x0004_0000 },
    },
    Row {
        from: Copies { bits: 0x0380_0e00 },
        to: Copies { bits: 0x0200_0000 },
    },
];

/// A step of one copy.
/// Source: `docs/COPIES.md`, "What a copy is".
#[derive(Clone, Copy, Debug, PartialEq, Eq)]
pub enum Step {
    /// A flit of its cache.
    Sending(Sent),
    /// One that nobody sees, or none.
    Hidden(Stores, Due),
    /// A flit of the home to its agent.
    Granted(Grant, Due),
    /// The home has its words.
    Shown,
    /// To each copy that no other agent may have beside it.
    Apart,
    /// To each copy that no other agent may have beside it, whatever the words of a UD copy are.
    SurelyApart,
    /// To each copy that another agent may have beside it, by what the words of a UD copy may be.
    Together,
}

/// The set with what unseen steps lead to from the copy.
#[inline(always)]
fn with_hidden(stores: Stores, due: Due, held: Held, left: Copies) -> Copies
    ensures { (h : HeldOf) → members result h ≡ (members left h || slips stores due (held_is held) h) }
{
    let stay = left.with(held);
    if !may_be_free(due) {
        return stay;
    }
    let free = freed(due, held);
    let freed = stay.with(free);
    let hides = are_hidden(stores) && held.copy.is_unique();
    let stored = with_left(freed, hides, Some(stored_to(free)));
    with_left(stored, held.copy.is_clean(), Some(dropped(free)))
}

impl Step {
    /// The set with what the copy leads to.
    #[inline(always)]
    fn leads(self, held: Held, left: Copies) -> Copies
        ensures { (h : HeldOf) → members result h ≡ (members left h || leads_by self (held_is held) h) }
    {
        match self {
            Step::Sending(sent) => sent.leads(held, left),
            Step::Hidden(stores, due) => with_hidden(stores, due, held, left),
            Step::Granted(grant, due) => left.with(granted(grant, due, held)),
            Step::Shown => left.with(held.shown()),
            Step::Apart => left.or(Test::Apart(held).copies()),
            Step::SurelyApart => left.or(Test::SurelyApart(held).copies()),
            Step::Together => left.or(Test::Together(held).copies()),
        }
    }

    /// The copies that those of a set lead to.
    #[inline(always)]
    pub(crate) fn image(self, set: Copies) -> Copies
        ensures { (h : HeldOf) → members result h ≡ image (leads_by self) (members set) h }
    {
        let (mut left, mut rest) = (Copies::empty(), set.known());
        while rest.bits != 0 {
            let place = rest.first();
            left = self.leads(held_at(place), left);
            rest = rest.without(place);
        }
        left
    }
}

impl Copies {
    /// The copies where the home has their words.
    pub(crate) fn shown(self) -> Copies
        ensures { (h : HeldOf) → members result h ≡ shown_all (members self) h }
    {
        Copies {
            bits: (self.bits | self.bits >> 14) & 0x0000_3fff,
        }
    }

    /// The copies behind drops of those that are clean.
    fn dropped(self) -> Copies
        ensures { (h : HeldOf) → members result h ≡ (members self h || led DROPS (members self) h) }
    {
        self.or(self.led(&DROPS))
    }

    /// The copies behind hidden steps of an agent of which nothing is due.
    fn free(self, stores: Stores) -> Copies
        ensures { (h : HeldOf) → members result h ≡ image (slips stores Nothing) (members self) h }
    {
        let dropped = self.dropped();
        if are_hidden(stores) {
            dropped.or(self.led(&STORES))
        } else {
            dropped
        }
    }

    /// The copies behind hidden steps of an agent of which this is due.
    pub(crate) fn hidden(self, stores: Stores, due: Due) -> Copies
        ensures { (h : HeldOf) → members result h ≡ image (slips stores due) (members self) h }
    {
        match due {
            Due::Nothing => self.free(stores),
            Due::Resending(_) => Step::Hidden(stores, due).image(self),
            Due::Completion(_) => self,
            Due::SureCompletion(_) => self,
            Due::WriteData(_) => self,
            Due::Acknowledgement => self,
        }
    }
}
