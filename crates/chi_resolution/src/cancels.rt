//! When a retried copy-back is cancelled: an answer to a snoop has taken the copy that it needs.

ghost use Rattle.std.specs.Prelude.{◌≡◌, drop};
ghost use Rattle.std.specs.List.{list_any};
ghost use Rattle.chi_resolution.specs.Cancels.{acts_by, is_loss, is_lost, is_unfit, is_unfit_in, left_by, state_left};

use crate::ids::OpenId;
use crate::lines::{CacheLine, Resolved};
use chi_explain::Observed;
use chi_flit::{Agent, DatUp, Kind, Msg, RspUp, State};

/// The state in which an answer to a snoop leaves the copy; none for other messages.
fn state_left(message: &Msg) -> Option<State>
    ensures { result ≡ state_left message.now }
{
    match message {
        Msg::RspUp(RspUp::SnpRespI) | Msg::DatUp(DatUp::SnpRespDataIPD(_)) => Some(State::I),
        Msg::RspUp(RspUp::SnpRespSC) | Msg::DatUp(DatUp::SnpRespDataSCPD(_)) => Some(State::SC),
        Msg::DatUp(DatUp::SnpRespDataSD(_)) => Some(State::SD),
        _ => None,
    }
}

/// The same of what was seen.
pub(crate) fn left_by(seen: &Observed) -> Option<State>
    ensures { result ≡ left_by seen.now }
{
    match seen {
        Observed::Flit(sent) => state_left(&sent.message),
        Observed::Load(_, _, _) | Observed::Store(_, _, _) => None,
    }
}

/// Whether a request of this kind isn't resent from a copy in this state: it is a copy-back, and needs another one.
pub(crate) fn is_unfit(kind: Option<Kind>, state: State) -> bool
    ensures { result ≡ is_unfit kind state }
{
    match kind {
        Some(kind) => kind.is_copy_back() && !kind.needs(state),
        None => false,
    }
}

/// The same, where a state is known.
fn is_unfit_in(kind: Kind, state: Option<State>) -> bool
    ensures { result ≡ is_unfit_in kind state }
{
    match state {
        Some(state) => is_unfit(Some(kind), state),
        None => false,
    }
}

/// Whether it is a flit of the agent.
fn acts_by(agent: Agent, seen: &Observed) -> bool
    ensures { result ≡ acts_by agent seen.now }
{
    match seen {
        Observed::Flit(sent) => sent.agent.0 == agent.0,
        Observed::Load(_, _, _) | Observed::Store(_, _, _) => false,
    }
}

/// Whether it is an answer of the agent at the line that takes the copy that the kind needs.
fn is_loss(kind: Kind, agent: Agent, line: CacheLine, item: &Resolved) -> bool
    ensures { result ≡ is_loss kind agent line item.now }
{
    item.line.0 == line.0 && (acts_by(agent, &item.flit) && is_unfit_in(kind, left_by(&item.flit)))
}

/// What was resolved from this place on.
fn since(flits: &[Resolved], place: usize) -> &[Resolved]
    ensures { result.now ≡ drop place flits.now }
{
    if place <= flits.len() {
        &flits[place..]
    } else {
        &[]
    }
}

/// Whether one of these is such an answer.
fn has_loss(kind: Kind, agent: Agent, line: CacheLine, items: &[Resolved]) -> bool
    ensures { result ≡ list_any (is_loss kind agent line) items.now }
{
    items.iter().any(|item| is_loss(kind, agent, line, item))
}

/// Whether an answer since this request was sent has taken the copy that it needs. Only copy-backs are lost so.
pub(crate) fn is_lost(kind: Kind, agent: Agent, found: &OpenId, flits: &[Resolved]) -> bool
    ensures { result ≡ is_lost kind agent found.now flits.now }
{
    kind.is_copy_back() && has_loss(kind, agent, found.line, since(flits, found.place))
}
