//! What an agent does before and after it looks at a line: it sees its credits, gives back those that it has
//! no request for, and tends what is owed.

ghost use Rattle.std.specs.Prelude.{◌≡◌, slice_index};
ghost use Rattle.chi_flit.specs.Credit.{credit_number};
ghost use Rattle.chi_node.specs.Calls.{IsSameRequester};
ghost use Rattle.chi_node.specs.Credits.{Sees};
ghost use Rattle.chi_node.specs.Outstanding.{give_back_refusal, outstanding_of, tend_refusal};
ghost use Rattle.chi_agent.specs.Lives.{tended_type, GivesBackIf, GivesBackSeen, GivesEach, Prepares, TendsIf};

use chi_flit::{CreditType, Profile};
use chi_node::{Requester, Tracker};
use std::alloc::Allocator;

/// Gives back a credit of the type, if that isn't refused.
fn returns<A: Allocator>(requester: &mut Requester, tracker: &Tracker<A>, ty: CreditType)
    requires { requester.old.table ≡ tracker.now.table }
    ensures same { IsSameRequester requester.old requester.new }
    ensures gives { GivesBackIf (give_back_refusal (outstanding_of requester.old) (credit_number ty))
        (credit_number ty) requester.old requester.new }
{
    let _ = requester.give_back(tracker, ty);
}

/// Gives back a credit of the type where one is seen, if that isn't refused.
fn returns_seen<A: Allocator>(
    requester: &mut Requester,
    tracker: &Tracker<A>,
    seen: [u32; 4],
    ty: CreditType,
)
    requires { requester.old.table ≡ tracker.now.table }
    ensures same { IsSameRequester requester.old requester.new }
    ensures gives { GivesBackSeen (slice_index seen (credit_number ty)) (credit_number ty) requester.old requester.new }
{
    if seen[usize::from(ty.number())] > 0 {
        returns(requester, tracker, ty);
    }
}

/// Looks at what is promised to the requester; the seen credits by type.
fn looks<A: Allocator>(requester: &mut Requester, tracker: &Tracker<A>) -> [u32; 4]
    requires { requester.old.table ≡ tracker.now.table }
    ensures same { IsSameRequester requester.old requester.new }
    ensures sees { Sees result requester.old requester.new }
{
    requester.see(tracker)
}

/// Gives back one credit of each type where one is seen and that isn't refused.
fn returns_each<A: Allocator>(requester: &mut Requester, tracker: &Tracker<A>, seen: [u32; 4])
    requires { requester.old.table ≡ tracker.now.table }
    ensures same { IsSameRequester requester.old requester.new }
    ensures gives { GivesEach seen requester.old requester.new }
{
    returns_seen(requester, tracker, seen, CreditType::T0);
    returns_seen(requester, tracker, seen, CreditType::T1);
    returns_seen(requester, tracker, seen, CreditType::T2);
    returns_seen(requester, tracker, seen, CreditType::T3);
}

/// Looks at what is promised to the requester, and gives back one credit of each type where that isn't
/// refused: of a type of which no credit is seen it always is.
pub(crate) fn prepare<A: Allocator>(requester: &mut Requester, tracker: &Tracker<A>)
    requires { requester.old.table ≡ tracker.now.table }
    ensures same { IsSameRequester requester.old requester.new }
    ensures prepares { Prepares requester.old requester.new }
{
    let seen = looks(requester, tracker);
    if seen != [0; 4] {
        returns_each(requester, tracker, seen);
    }
}

/// The type that a turn tends.
fn type_of(profile: Profile, turn: u64) -> CreditType
    ensures { credit_number result ≡ tended_type profile turn }
{
    // (by a constant in each case, so that it is no division)
    let number = match profile {
        Profile::Two => turn % 2,
        Profile::Four => turn % 4,
    };
    match number {
        0 => CreditType::T0,
        1 => CreditType::T1,
        2 => CreditType::T2,
        _ => CreditType::T3,
    }
}

/// Tends what is owed of the type of the turn.
pub(crate) fn tend<A: Allocator>(
    requester: &mut Requester,
    tracker: &Tracker<A>,
    profile: Profile,
    turn: u64,
)
    requires { requester.old.table ≡ tracker.now.table }
    ensures same { IsSameRequester requester.old requester.new }
    ensures tends { TendsIf (tend_refusal (outstanding_of requester.old) (tended_type profile turn))
        (tended_type profile turn) requester.old requester.new }
{
    let _ = requester.tend(tracker, type_of(profile, turn));
}
