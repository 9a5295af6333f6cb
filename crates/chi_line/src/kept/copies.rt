//! Whether an agent's copy, and what the owner is, are as every line keeps them.

ghost use Rattle.std.specs.Prelude.{◌≡◌, ◌↔◌, IsTrue};
ghost use Rattle.chi_line.specs.Keeping.{CopyKept, KindFits, OwnerKept, lane_in};
ghost use Rattle.chi_line.specs.Kept.{allows, is_shared_dirty_data, is_shared_dirty_write};

use crate::kept::lane::AgentLane;
use crate::kept::marks::{
    is_answer, is_comp_unique, is_one_of_three, is_shared_dirty, is_snoop_data,
};
use chi_flit::{DatUp, Data, Kind, State};
use chi_rnline::Pending;

/// Whether a copy's holder is named, has the last values, and is flagged where it is the only one.
pub(crate) fn is_copy_kept(
    state: State,
    words: &Data,
    named: bool,
    unique: bool,
    last: &Data,
) -> bool
    ensures { IsTrue result ↔ CopyKept unique named last.now words.now state }
{
    (!state.is_valid() || (named && *words == *last)) && (!state.is_unique() || unique)
}

/// Whether a copy is in a state that the pending request, if there is one, allows.
pub(crate) fn does_kind_fit(pending: Option<Pending>, state: State) -> bool
    ensures { IsTrue result ↔ KindFits pending state }
{
    match pending {
        Some(request) => allows(request.kind, state),
        None => true,
    }
}

/// Whether a copy may be in the state while a request of the kind is pending.
fn allows(kind: Kind, state: State) -> bool
    ensures { result ≡ allows kind state }
{
    match state {
        State::I => true,
        State::SC => matches!(
            kind,
            Kind::CleanUnique | Kind::WriteBackFull | Kind::WriteCleanFull | Kind::WriteEvictFull
        ),
        State::UC => matches!(kind, Kind::WriteEvictFull),
        State::UD => matches!(kind, Kind::WriteBackFull | Kind::WriteCleanFull),
        State::SD => matches!(
            kind,
            Kind::CleanUnique | Kind::WriteBackFull | Kind::WriteCleanFull
        ),
    }
}

/// Whether the owner is as every line keeps it, as seen by an agent that is it or isn't.
pub(crate) fn is_owner_kept(at: &AgentLane, owned: bool, unique: bool) -> bool
    ensures { IsTrue result ↔ OwnerKept owned unique (lane_in at.now) }
{
    let shared_dirty = is_shared_dirty(at.state);
    let passed = is_one_of_three(
        is_answer(at.flits.rsp_up),
        is_snoop_data(at.flits.dat_up),
        is_shared_dirty_write(at.flits.dat_up),
        true,
    );
    if owned {
        !unique && (shared_dirty || passed)
    } else {
        !shared_dirty || is_comp_unique(at.flits.rsp_down) || is_shared_dirty_data(at.flits.dat_up)
    }
}

/// Whether write data is of a copy that was SD.
fn is_shared_dirty_write(sent: Option<DatUp>) -> bool
    ensures { result ≡ is_shared_dirty_write sent }
{
    match sent {
        Some(DatUp::CopyBackWrData(form, _)) => is_shared_dirty(form),
        _ => false,
    }
}

/// Whether data is SnpRespData_SD.
fn is_shared_dirty_data(sent: Option<DatUp>) -> bool
    ensures { result ≡ is_shared_dirty_data sent }
{
    matches!(sent, Some(DatUp::SnpRespDataSD(_)))
}
