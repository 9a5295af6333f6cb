//! Whether dirty data and write data are as every line keeps them.

ghost use Rattle.std.specs.Prelude.{◌≡◌, ◌↔◌, IsTrue};
ghost use Rattle.chi_line.specs.Clean.{passes_dirty};
ghost use Rattle.chi_line.specs.Keeping.{IsGone, WriteKept, WritesKept};

use crate::kept::marks::{is_shared_dirty, is_unique_dirty};
use chi_flit::{DatUp, Data, Kind, State};

/// Whether dirty data is sent by an agent that is named, and write data fits the copy that its sender keeps.
pub(crate) fn is_write_data_kept(
    sent: &Option<DatUp>,
    state: State,
    named: bool,
    kind: Option<Kind>,
    last: &Data,
) -> bool
    ensures { IsTrue result ↔ WritesKept kind last.now named sent.now state }
{
    let dirty = passes_dirty(sent);
    let fits = match sent {
        Some(DatUp::CopyBackWrData(form, words)) => is_write_kept(*form, state, kind, words, last),
        _ => true,
    };
    (!dirty || named) && fits
}

/// Whether data on its way up passes the responsibility for it.
pub(crate) fn passes_dirty(sent: &Option<DatUp>) -> bool
    ensures { result ≡ passes_dirty sent.now }
{
    match sent {
        Some(DatUp::SnpRespDataIPD(_) | DatUp::SnpRespDataSCPD(_)) => true,
        Some(DatUp::CopyBackWrData(form, _)) => form.is_dirty(),
        Some(DatUp::SnpRespDataSD(_)) | None => false,
    }
}

/// Whether write data in the form of a state fits the copy that its sender keeps.
fn is_write_kept(form: State, state: State, kind: Option<Kind>, words: &Data, last: &Data) -> bool
    ensures { IsTrue result ↔ WriteKept last.now words.now kind form state }
{
    let current = !form.is_dirty() || is_unique_dirty(state) || *words == *last;
    let left = form.is_valid() || !state.is_valid();
    current && left && !is_shared_dirty(state) && is_gone(kind, state)
}

/// Whether no copy is left, where the kind that is served gives it up.
fn is_gone(kind: Option<Kind>, state: State) -> bool
    ensures { IsTrue result ↔ IsGone kind state }
{
    match kind {
        Some(kind) => !kind.gives_up() || !state.is_valid(),
        None => true,
    }
}
