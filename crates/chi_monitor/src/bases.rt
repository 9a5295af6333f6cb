//! What each reason rests on. The reason itself isn't trusted: that it is right is tested.

ghost use Rattle.std.specs.Prelude.{◌≡◌};
ghost use Rattle.chi_monitor.specs.Bases.{basis_if, basis_of, form_basis, gives_back, has_to_be_snooped, need_basis, snoop_basis, takes_all, told_basis, write_basis};

use crate::faults::{Basis, LineFault, SeenAt, WrongForm, WrongSnoops};
use chi_flit::{Kind, State};

/// By whether the standard allows no such flit.
pub(crate) fn basis_if(is_standard: bool) -> Basis
    ensures { result ≡ basis_if is_standard }
{
    if is_standard {
        Basis::Standard
    } else {
        Basis::Profile
    }
}

/// Of what is known of a copy: a requester that never had one may have got it before the first flit, which this
/// profile leaves out.
fn told_basis(since: Option<SeenAt>) -> Basis
    ensures { result ≡ told_basis since }
{
    match since {
        Some(_) => Basis::Standard,
        None => Basis::Profile,
    }
}

/// Whether no other copy may stay beside the one that such a request asks for.
fn takes_all(kind: Kind) -> bool
    ensures { result ≡ takes_all kind }
{
    matches!(kind, Kind::ReadUnique | Kind::CleanUnique)
}

/// Whether a copy whose last known state is this has to be snooped for a request of the kind.
fn has_to_be_snooped(kind: Kind, state: State) -> bool
    ensures { result ≡ has_to_be_snooped kind state }
{
    match state {
        State::I => false,
        State::SC => takes_all(kind),
        State::UC | State::UD | State::SD => true,
    }
}

/// Of snoops before a completion of such a request.
fn snoop_basis(kind: Kind, wrong: &WrongSnoops) -> Basis
    ensures { result ≡ snoop_basis kind wrong.now }
{
    match wrong {
        WrongSnoops::Unsnooped(_, reach) => basis_if(has_to_be_snooped(kind, reach.base)),
        WrongSnoops::Unanswered(_, _) => Basis::Standard,
        WrongSnoops::OfAnother(_) => Basis::Profile,
    }
}

/// Of the form of data: a copy isn't unique where another may still be there.
fn form_basis(form: &WrongForm) -> Basis
    ensures { result ≡ form_basis form.now }
{
    match form {
        WrongForm::NotUnique => Basis::Standard,
        WrongForm::Alone => Basis::Profile,
        WrongForm::Shared(_, reach) => basis_if(reach.base.is_valid()),
    }
}

/// Whether the kind is a copy-back or an Evict.
fn gives_back(kind: Kind) -> bool
    ensures { result ≡ gives_back kind }
{
    matches!(kind, Kind::Evict) || kind.is_copy_back()
}

/// Of a request of the kind that isn't issued from what is known of the copy.
fn need_basis(kind: Kind, since: Option<SeenAt>) -> Basis
    ensures { result ≡ need_basis kind since }
{
    if gives_back(kind) {
        told_basis(since)
    } else {
        Basis::Profile
    }
}

/// Of write data in this form of a copy in that state.
fn write_basis(form: State, state: State) -> Basis
    ensures { result ≡ write_basis form state }
{
    let made_dirty = form.is_dirty() && !state.is_dirty();
    let made_clean = !form.is_dirty() && state.is_dirty();
    basis_if(made_dirty || (made_clean || !state.is_valid()))
}

impl LineFault {
    /// What the reason rests on.
    /// Source: `docs/TRACES.md`, "Reasons".
    #[tactic(auto, unfolding(crate::specs::Bases::basis_of))]
    pub fn basis(&self) -> Basis
        ensures { result ≡ basis_of self.now }
    {
        match self {
            LineFault::Needs(kind, reach) => need_basis(*kind, reach.since),
            LineFault::Answer(_, _, basis) | LineFault::Word(_, _, basis) => *basis,
            LineFault::Snoops(kind, wrong) => snoop_basis(*kind, wrong),
            LineFault::Form(form) => form_basis(form),
            LineFault::WriteForm(form, reach) => write_basis(*form, reach.base),
            LineFault::NoCopy(reach) | LineFault::NoStore(reach) => told_basis(reach.since),
            LineFault::NoMemory
            | LineFault::NoAgent
            | LineFault::Pending(_)
            | LineFault::OtherCredit(_, _)
            | LineFault::ServedRetry(_)
            | LineFault::NobodyAsks(_)
            | LineFault::SnoopedTwice(_)
            | LineFault::EarlyCompletion(_)
            | LineFault::EarlyEvict(_)
            | LineFault::EarlyCopyBack(_) => Basis::Profile,
            LineFault::NotRetried(_)
            | LineFault::NothingToRetry
            | LineFault::EarlySnoop(_)
            | LineFault::NothingToAnswer
            | LineFault::Words(_)
            | LineFault::NoRead
            | LineFault::NoCleanUnique
            | LineFault::NoEvict
            | LineFault::NoCopyBack
            | LineFault::NoAckAwaited
            | LineFault::NoWriteDataAwaited => Basis::Standard,
        }
    }
}
