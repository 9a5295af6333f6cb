//! In which states an agent's copy may be by now, as its own flits, loads and stores tell, and what it may send from
//! there.

ghost use Rattle.std.specs.Prelude.{◌≡◌};
ghost use Rattle.chi_monitor.specs.Copies.{answer_basis, answer_fault, given_by, given_copy, gives, has_data, is_dirtied, is_dropped, is_made_up, is_state, is_written, issue_state, issued_copy, known_as, may_answer, may_hide, raised, state_left, leaves_none, written_copy};

use crate::bases::basis_if;
use crate::faults::{Basis, LineFault, Reach, SeenAt};
use chi_explain::StoreListing;
use chi_flit::{DatUp, Kind, Msg, NO_DATA, RspUp, Snoop, State, answer};

/// A copy behind the last of what was seen of its agent that has told its state.
#[derive(Clone, Copy)]
pub(crate) struct KnownCopy {
    pub base: State,
    /// What has told that state; `None` where there never was a copy.
    pub since: Option<SeenAt>,
}

/// A completion that its requester hasn't acknowledged.
#[derive(Clone, Copy)]
pub(crate) enum Given {
    Nothing,
    /// Data for a shared copy.
    Shared(SeenAt),
    /// Data for a unique copy.
    Unique(SeenAt),
    /// Comp_UC: the copy becomes unique, if it wasn't lost.
    Raised(SeenAt),
}

/// Whether two states are one.
pub(crate) fn is_state(one: State, other: State) -> bool
    ensures { result ≡ is_state one other }
{
    one.number() == other.number()
}

/// Whether stores may have been done that weren't seen.
pub(crate) fn may_hide(stores: StoreListing) -> bool
    ensures { result ≡ may_hide stores }
{
    matches!(stores, StoreListing::Partial)
}

impl Reach {
    /// Whether the copy may have been dropped by now.
    pub(crate) fn is_dropped(&self) -> bool
        ensures { result ≡ is_dropped self.now }
    {
        !self.pending && matches!(self.base, State::SC | State::UC)
    }

    /// Whether a copy that was in UC may be in UD by now.
    pub(crate) fn is_written(&self) -> bool
        ensures { result ≡ is_written self.now }
    {
        !self.pending && may_hide(self.stores) && matches!(self.base, State::UC)
    }

    /// The state from which a request of the kind is issued: the last known one, or one to which a Drop or stores lead.
    pub(crate) fn issue_state(&self, kind: Kind) -> Option<State>
        ensures { result ≡ issue_state self.now kind }
    {
        if kind.needs(self.base) {
            Some(self.base)
        } else if self.is_dropped() && kind.needs(State::I) {
            Some(State::I)
        } else if self.is_written() && kind.needs(State::UD) {
            Some(State::UD)
        } else {
            None
        }
    }

    /// Whether the copy may give such an answer to the snoop, which leaves it in the state told, and has data or not.
    pub(crate) fn may_answer(&self, snoop: Snoop, told: State, dirty: bool) -> bool
        ensures { result ≡ may_answer self.now snoop told dirty }
    {
        gives(self.base, snoop, told, dirty)
            || self.is_dropped() && gives(State::I, snoop, told, dirty)
            || self.is_written() && gives(State::UD, snoop, told, dirty)
    }

    /// Whether an answer tells of a copy where there is none.
    fn is_made_up(&self, told: State, dirty: bool) -> bool
        ensures { result ≡ is_made_up self.now told dirty }
    {
        !self.base.is_valid() && self.since.is_some() && (told.is_valid() || dirty)
    }

    /// Whether an answer tells that the copy was dirty, which it can't have been.
    fn is_dirtied(&self, dirty: bool) -> bool
        ensures { result ≡ is_dirtied self.now dirty }
    {
        let hidden = may_hide(self.stores) && matches!(self.base, State::UC);
        dirty && self.base.is_valid() && !self.base.is_dirty() && !hidden
    }

    /// Whether the standard has no such answer, or this profile.
    fn answer_basis(&self, snoop: Snoop, told: State, dirty: bool) -> Basis
        ensures { result ≡ answer_basis self.now snoop told dirty }
    {
        let stays = told.is_valid() && leaves_none(snoop);
        let lost = self.base.is_dirty() && !dirty;
        basis_if(stays || self.is_made_up(told, dirty) || lost || self.is_dirtied(dirty))
    }

    /// The fault of an answer that a copy in these states doesn't give.
    pub(crate) fn answer_fault(&self, snoop: Snoop, told: State, dirty: bool) -> LineFault
        ensures { result ≡ answer_fault self.now snoop told dirty }
    {
        LineFault::Answer(*self, snoop, self.answer_basis(snoop, told, dirty))
    }
}

/// Whether the snoop leaves no copy.
fn leaves_none(snoop: Snoop) -> bool
    ensures { result ≡ leaves_none snoop }
{
    matches!(snoop, Snoop::SnpUnique | Snoop::SnpCleanInvalid)
}

/// The state in which an answer to a snoop leaves the copy; `None` of another message.
pub(crate) fn state_left(message: &Msg) -> Option<State>
    ensures { result ≡ state_left message.now }
{
    match message {
        Msg::RspUp(RspUp::SnpRespI) | Msg::DatUp(DatUp::SnpRespDataIPD(_)) => Some(State::I),
        Msg::RspUp(RspUp::SnpRespSC) | Msg::DatUp(DatUp::SnpRespDataSCPD(_)) => Some(State::SC),
        Msg::DatUp(DatUp::SnpRespDataSD(_)) => Some(State::SD),
        _ => None,
    }
}

/// Whether an answer has data.
pub(crate) fn has_data(message: &Msg) -> bool
    ensures { result ≡ has_data message.now }
{
    matches!(message, Msg::DatUp(_))
}

/// Whether a copy in this state gives such an answer to the snoop, which leaves it in the state told.
pub(crate) fn gives(state: State, snoop: Snoop, told: State, dirty: bool) -> bool
    ensures { result ≡ gives state snoop told dirty }
{
    let left = answer(state, snoop, NO_DATA).0;
    let fits = if dirty {
        state.is_dirty()
    } else {
        !state.is_dirty()
    };
    is_state(left, told) && fits
}

impl KnownCopy {
    /// There never was one.
    pub const NONE: KnownCopy = KnownCopy {
        base: State::I,
        since: None,
    };

    /// A copy in this state, which was told then.
    pub fn known_as(base: State, at: SeenAt) -> KnownCopy
        ensures { result ≡ known_as base at }
    {
        KnownCopy {
            base,
            since: Some(at),
        }
    }

    /// The copy once a request of the kind was issued from this state: an Evict gives it up.
    pub fn issued(self, kind: Kind, state: State, at: SeenAt) -> KnownCopy
        ensures { result ≡ issued_copy self kind state at }
    {
        if matches!(kind, Kind::Evict) {
            KnownCopy::known_as(State::I, at)
        } else if is_state(self.base, state) {
            self
        } else {
            KnownCopy::known_as(state, at)
        }
    }

    /// The copy behind the CompAck to a Comp_UC that was seen then.
    fn raised(self, at: SeenAt) -> KnownCopy
        ensures { result ≡ raised self self.base at }
    {
        match self.base {
            State::SC => KnownCopy::known_as(State::UC, at),
            State::SD => KnownCopy::known_as(State::UD, at),
            State::I | State::UC | State::UD => self,
        }
    }

    /// The copy behind the CompAck to what was given.
    pub fn given(self, given: Given) -> KnownCopy
        ensures { result ≡ given_copy given self }
    {
        match given {
            Given::Nothing => self,
            Given::Shared(at) => KnownCopy::known_as(State::SC, at),
            Given::Unique(at) => KnownCopy::known_as(State::UC, at),
            Given::Raised(at) => self.raised(at),
        }
    }

    /// The copy behind the write data of a copy-back of the kind.
    pub fn written(self, kind: Kind, at: SeenAt) -> KnownCopy
        ensures { result ≡ written_copy self kind at }
    {
        let left = match self.base {
            _ if kind.gives_up() => State::I,
            State::UD => State::UC,
            State::SD => State::SC,
            State::I | State::SC | State::UC => self.base,
        };
        KnownCopy::known_as(left, at)
    }
}

/// What data for a unique copy, or a shared one, gives.
pub(crate) fn given_by(unique: bool, at: SeenAt) -> Given
    ensures { result ≡ given_by unique at }
{
    if unique {
        Given::Unique(at)
    } else {
        Given::Shared(at)
    }
}
