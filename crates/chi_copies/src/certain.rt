//! What counts of a set of copies: what is so of some copy, where an agent may have any of them; what is so of each, where it
//! has one that the home knew.

ghost use Rattle.std.specs.Prelude.{◌≡◌, ◌||◌, ◌==◌, ℕ, not};
ghost use Rattle.chi_copies.specs.Copies.{Held as HeldOf};
ghost use Rattle.chi_copies.specs.Begun.{apart_from, counts, is_one, left_beside};
ghost use Rattle.chi_copies.specs.BegunLines.{apart_beside, sets_of, stands, sure_of};
ghost use Rattle.chi_copies.specs.Worlds.{all_below};
ghost use Rattle.chi_copies.specs.Lines.{passes};
ghost use Rattle.chi_copies.specs.Sets.{members};

use crate::begun_moments::copies_at;
use crate::copies::Copies;
use crate::steps::Step;
use crate::tests::Test;

/// Whether it counts of a set that its agent's copy is one of these.
pub(crate) fn counts(sure: bool, set: Copies, of: Copies) -> bool
    ensures { result ≡ counts sure (members set) (members of) }
{
    if sure {
        set.meets(of)
    } else {
        !set.meets(of.others())
    }
}

impl Test {
    /// Whether it counts of a set that its agent's copy is so.
    pub(crate) fn counts(self, sure: bool, set: Copies) -> bool
        ensures { result ≡ counts sure (members set) (passes self) }
    {
        counts(sure, set, self.copies())
    }
}

/// What another agent can't have beside the copies of a set.
pub(crate) fn apart_from(sure: bool, set: Copies) -> Copies
    ensures { (h : HeldOf) → members result h ≡ apart_from sure (members set) h }
{
    if sure {
        Step::SurelyApart.image(set)
    } else {
        Step::Together.image(set).others()
    }
}

/// What another agent can't have beside the copies of a set; `alone` says that none may be left.
pub(crate) fn apart_beside(sure: bool, set: Copies, alone: bool) -> Copies
    ensures { (h : HeldOf) → members result h ≡ apart_beside sure (members set) alone h }
{
    let apart = apart_from(sure, set);
    if alone {
        apart.or(Test::Left.copies())
    } else {
        apart
    }
}

/// What is left of a set beside what its agent can't have.
pub(crate) fn left_beside(sure: bool, apart: Copies, set: Copies) -> Copies
    ensures { (h : HeldOf) → members result h ≡ left_beside sure (members apart) (members set) h }
{
    if sure { set } else { set.and(apart.others()) }
}

impl Copies {
    /// Whether it has one copy alone.
    pub(crate) fn is_one(self) -> bool
        ensures { result ≡ is_one (members self) }
    {
        let known = self.known();
        if known.bits == 0 {
            return false;
        }
        let rest = known.without(known.first());
        rest.bits == 0
    }
}

/// Whether a copy is sure behind a flit that leaves these: as it was kept so, or as there is one alone.
pub(crate) fn sure_behind(kept: bool, own: Copies) -> bool
    ensures { result ≡ (kept || is_one (members own)) }
{
    kept || own.is_one()
}

/// Whether an agent has none of these copies, as far as it counts; the other agent's own don't.
fn is_beside(n: usize, agent: u8, sure: bool, copies: Copies, apart: Copies) -> bool
    ensures { result ≡ (n == agent || not (counts sure (members copies) (members apart))) }
{
    n == usize::from(agent) || !counts(sure, copies, apart)
}

/// Whether no other agent has one of these copies, as far as it counts.
pub(crate) fn stands(agent: u8, apart: Copies, sure: &[bool; 32], may: &[Copies; 32]) -> bool
    ensures { result ≡ stands agent (members apart) (sure_of sure.now) (sets_of may.now) }
{
    let mut beside = true;
    for n in 0..32 {
        beside &= is_beside(n, agent, sure[n], copies_at(may, n), apart);
    }
    beside
}

/// What is left of each agent's copies beside those that it can't have.
pub(crate) fn each_left(apart: Copies, sure: &[bool; 32], may: &[Copies; 32]) -> [Copies; 32]
    ensures { (n : ℕ) (h : HeldOf) → sets_of result n h
        ≡ left_beside (sure_of sure.now n) (members apart) (sets_of may.now n) h }
{
    let mut left = *may;
    for n in 0..32 {
        left[n] = left_beside(sure[n], apart, copies_at(may, n));
    }
    left
}

/// What no agent can have beside another's copies; its own don't count.
fn apart_of(n: usize, agent: u8, sure: bool, copies: Copies) -> Copies
    ensures { (h : HeldOf) → members result h ≡ not (n == agent || not (apart_from sure (members copies) h)) }
{
    if n == usize::from(agent) {
        Copies::empty()
    } else {
        apart_from(sure, copies)
    }
}

/// What the agent can't have beside the others' copies.
pub(crate) fn some_apart(agent: u8, sure: &[bool; 32], may: &[Copies; 32]) -> Copies
    ensures { (h : HeldOf) → members result h
        ≡ not (all_below 32 (λ m. m == agent || not (apart_from (sure_of sure.now m) (sets_of may.now m) h))) }
{
    let mut apart = Copies::empty();
    for n in 0..32 {
        apart = apart.or(apart_of(n, agent, sure[n], copies_at(may, n)));
    }
    apart
}
