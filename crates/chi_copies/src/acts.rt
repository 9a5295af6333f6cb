//! What a cache may send from a copy, what is left of it, and what a flit of the home makes of it.

ghost use Rattle.std.specs.Prelude.{◌≡◌, ◌&&◌, ◌||◌, if◌then◌else◌, Some, None, false};
ghost use Rattle.chi_observer.specs.Copies.{copy_of, holds_data, is_unique};
ghost use Rattle.chi_observer.specs.declared.flits.Act.TheVariants.{CopyBackWrData, NonCopyBackWrData, Request, SnpResp};
ghost use Rattle.chi_observer.specs.declared.flits.Grant.TheVariants.{CompUC};
ghost use Rattle.chi_observer.specs.Rules.{answered, cleaned, copy_filled, copy_granted, gives_up, is_acknowledging, is_answered_from, is_copy_back, is_issued_from, is_resending, is_whole_write, is_written_from, issued, upgraded};
ghost use Rattle.chi_copies.specs.Rules.{acts, dropped, fills, freed, granted, is_due_data, is_free, is_resent, lets, may_be_free, may_hide, may_store, renews, row, shows, stored_to};
ghost use Rattle.chi_copies.specs.Images.{stays};
ghost use Rattle.chi_copies.specs.Sets.{copy_is, held_is, some_held};

use crate::held::{CacheCopy, Held};
use crate::rules::{
    answer_has_data, are_hidden, drops, form_has_data, gives_copy, gives_data, gives_up,
    is_copy_back, is_upgraded, is_whole_write, is_written_whole, left_by, makes, same_kind,
    settles,
};
use chi_flit::State;
use chi_observer::{Act, Answer, Due, Grant, Kind, Stores};

/// The copy of a state.
fn copy_of(form: State) -> CacheCopy
    ensures { copy_is result ≡ copy_of form }
{
    match form {
        State::I => CacheCopy::Invalid,
        State::SC => CacheCopy::SharedClean,
        State::UC => CacheCopy::UniqueClean,
        State::UD => CacheCopy::UniqueDirty,
        State::SD => CacheCopy::SharedDirty,
    }
}

/// Whether nothing is pending of the copy: no request, or one that was retried and cancelled.
pub(crate) fn is_free(due: Due, held: Held) -> bool
    ensures { result ≡ is_free due (held_is held) }
{
    match due {
        Due::Nothing => true,
        Due::Resending(_) => held.cancelled,
        Due::Completion(_) | Due::SureCompletion(_) | Due::WriteData(_) | Due::Acknowledgement =>
            false,
    }
}

/// Whether a store may be done to the copy: nothing is pending of it, or the CompAck alone.
pub(crate) fn may_store(due: Due, held: Held) -> bool
    ensures { result ≡ may_store due (held_is held) }
{
    matches!(due, Due::Acknowledgement) || is_free(due, held)
}

/// Whether a store that isn't told of may be done to the copy, if only behind its CompAck.
pub(crate) fn may_hide(stores: Stores, due: Due, held: Held) -> bool
    ensures { result ≡ may_hide stores due (held_is held) }
{
    are_hidden(stores) && may_store(due, held)
}

/// Whether nothing may be pending of a copy.
pub(crate) fn may_be_free(due: Due) -> bool
    ensures { result ≡ may_be_free due }
{
    matches!(due, Due::Nothing | Due::Resending(_))
}

/// Whether a request was retried.
pub(crate) fn is_resending(due: Due) -> bool
    ensures { result ≡ is_resending due }
{
    matches!(due, Due::Resending(_))
}

/// Whether a request of the kind was retried.
pub(crate) fn is_resent(kind: Kind, due: Due) -> bool
    ensures { result ≡ is_resent kind due }
{
    match due {
        Due::Resending(asked) => same_kind(kind, asked),
        Due::Nothing
        | Due::Completion(_)
        | Due::SureCompletion(_)
        | Due::WriteData(_)
        | Due::Acknowledgement => false,
    }
}

/// Whether the write data of a copy are due.
pub(crate) fn is_copy_back_due(due: Due) -> bool
    ensures { result ≡ is_due_data is_copy_back due }
{
    match due {
        Due::WriteData(kind) => is_copy_back(kind),
        Due::Nothing
        | Due::Completion(_)
        | Due::Resending(_)
        | Due::SureCompletion(_)
        | Due::Acknowledgement => false,
    }
}

/// Whether the data of a WriteUniqueFull are due.
pub(crate) fn is_whole_write_due(due: Due) -> bool
    ensures { result ≡ is_due_data is_whole_write due }
{
    match due {
        Due::WriteData(kind) => is_whole_write(kind),
        Due::Nothing
        | Due::Completion(_)
        | Due::Resending(_)
        | Due::SureCompletion(_)
        | Due::Acknowledgement => false,
    }
}

/// Whether write data are due that leave no copy.
pub(crate) fn gives_up_due(due: Due) -> bool
    ensures { result ≡ is_due_data gives_up due }
{
    match due {
        Due::WriteData(kind) => gives_up(kind),
        Due::Nothing
        | Due::Completion(_)
        | Due::Resending(_)
        | Due::SureCompletion(_)
        | Due::Acknowledgement => false,
    }
}

/// Whether what is due of a copy lets its cache send the flit; `own` says that the word of a load is the copy's.
pub(crate) fn lets(stores: Stores, act: Act, own: bool, due: Due, held: Held) -> bool
    ensures { result ≡ lets stores act own due (held_is held) }
{
    match act {
        Act::Request(_) => is_free(due, held),
        Act::Resend(kind) => is_resent(kind, due) && !held.cancelled,
        Act::SnpResp(_) => true,
        Act::CompAck => matches!(due, Due::Acknowledgement),
        Act::CopyBackWrData(_) => is_copy_back_due(due),
        Act::NonCopyBackWrData => is_whole_write_due(due),
        Act::Load(_) => own || may_hide(stores, due, held),
        Act::Store(_) => may_store(due, held),
    }
}

/// Whether a request of the kind is issued from the copy.
fn is_issued_from(kind: Kind, copy: CacheCopy) -> bool
    ensures { result ≡ is_issued_from kind (copy_is copy) }
{
    match kind {
        Kind::ReadNotSharedDirty | Kind::ReadShared | Kind::ReadClean => {
            matches!(copy, CacheCopy::Invalid | CacheCopy::UniqueEmpty)
        }
        Kind::ReadUnique | Kind::CleanUnique | Kind::MakeUnique => matches!(
            copy,
            CacheCopy::Invalid
                | CacheCopy::UniqueEmpty
                | CacheCopy::SharedClean
                | CacheCopy::SharedDirty
        ),
        Kind::CleanShared => matches!(
            copy,
            CacheCopy::Invalid | CacheCopy::SharedClean | CacheCopy::UniqueClean
        ),
        Kind::ReadOnce | Kind::CleanInvalid | Kind::MakeInvalid | Kind::WriteUniqueFull => {
            matches!(copy, CacheCopy::Invalid)
        }
        Kind::Evict => copy.is_clean(),
        Kind::WriteBackFull | Kind::WriteCleanFull => copy.is_dirty(),
        Kind::WriteEvictFull => matches!(copy, CacheCopy::UniqueClean),
    }
}

/// What is left of a copy behind a request of the kind: an Evict gives it up.
fn issued(kind: Kind, copy: CacheCopy) -> CacheCopy
    ensures { copy_is result ≡ issued kind (copy_is copy) }
{
    if matches!(kind, Kind::Evict) {
        CacheCopy::Invalid
    } else {
        copy
    }
}

/// What is left of a copy that may have sent a request.
fn requested(kind: Kind, held: Held) -> Option<Held>
    ensures { some_held result ≡ row (Request kind) false false false (held_is held) }
{
    if !is_issued_from(kind, held.copy) {
        return None;
    }
    Some(Held {
        copy: issued(kind, held.copy),
        cancelled: false,
        stored: held.stored,
    })
}

/// Whether the answer is given from the copy.
fn is_answered_from(answer: Answer, copy: CacheCopy) -> bool
    ensures { result ≡ is_answered_from answer (copy_is copy) }
{
    match answer {
        Answer::SnpRespI => matches!(copy, CacheCopy::Invalid) || copy.is_clean(),
        Answer::SnpRespSC | Answer::SnpRespDataI | Answer::SnpRespDataSC => {
            copy.is_clean() && copy.holds_data()
        }
        Answer::SnpRespUC => matches!(copy, CacheCopy::UniqueClean | CacheCopy::UniqueEmpty),
        Answer::SnpRespDataUC => matches!(copy, CacheCopy::UniqueClean),
        Answer::SnpRespDataUD | Answer::SnpRespDataUCPD => matches!(copy, CacheCopy::UniqueDirty),
        Answer::SnpRespDataSD | Answer::SnpRespDataIPD | Answer::SnpRespDataSCPD => {
            copy.is_dirty()
        }
    }
}

/// What is left of a copy behind the answer.
fn answered(answer: Answer, copy: CacheCopy) -> CacheCopy
    ensures { copy_is result ≡ answered answer (copy_is copy) }
{
    if matches!(answer, Answer::SnpRespUC) {
        copy
    } else {
        copy_of(left_by(answer))
    }
}

/// What is left of a copy that may have sent an answer; `goes` says that the snoop lets dirty data be thrown away.
fn replied(answer: Answer, goes: bool, held: Held) -> Option<Held>
    ensures { some_held result ≡ row (SnpResp answer) false goes false (held_is held) }
{
    let may = is_answered_from(answer, held.copy)
        || (goes && (drops(answer) && held.copy.is_dirty()));
    if !may {
        return None;
    }
    Some(Held {
        copy: answered(answer, held.copy),
        cancelled: held.cancelled,
        stored: held.stored && !answer_has_data(answer),
    })
}

/// Whether write data of the form are sent from the copy.
fn is_written_from(form: State, copy: CacheCopy) -> bool
    ensures { result ≡ is_written_from form (copy_is copy) }
{
    match form {
        State::I => matches!(copy, CacheCopy::Invalid) || copy.is_clean(),
        State::SC => matches!(copy, CacheCopy::SharedClean),
        State::UC => matches!(copy, CacheCopy::UniqueClean),
        State::UD => matches!(copy, CacheCopy::UniqueDirty),
        State::SD => matches!(copy, CacheCopy::SharedDirty),
    }
}

/// The form of a copy that was written.
fn cleaned(form: State) -> State
    ensures { result ≡ cleaned form }
{
    match form {
        State::UD => State::UC,
        State::SD => State::SC,
        State::I | State::SC | State::UC => form,
    }
}

/// What is left of a copy that may have sent write data; `up` says that they leave none.
fn written(form: State, up: bool, held: Held) -> Option<Held>
    ensures { some_held result ≡ row (CopyBackWrData form) false false up (held_is held) }
{
    if !is_written_from(form, held.copy) {
        return None;
    }
    let left = if up { State::I } else { cleaned(form) };
    Some(Held {
        copy: copy_of(left),
        cancelled: held.cancelled,
        stored: held.stored && !form_has_data(form),
    })
}

/// What is left of a copy that may have sent the data of a WriteUniqueFull.
fn written_whole(held: Held) -> Option<Held>
    ensures { some_held result ≡ row NonCopyBackWrData false false false (held_is held) }
{
    if !matches!(held.copy, CacheCopy::Writing) {
        return None;
    }
    Some(Held {
        copy: CacheCopy::Invalid,
        cancelled: held.cancelled,
        stored: false,
    })
}

/// The copy behind a store.
pub(crate) fn stored_to(held: Held) -> Held
    ensures { held_is result ≡ stored_to (held_is held) }
{
    Held {
        copy: CacheCopy::UniqueDirty,
        cancelled: held.cancelled,
        stored: true,
    }
}

/// The copy behind a drop.
pub(crate) fn dropped(held: Held) -> Held
    ensures { held_is result ≡ dropped (held_is held) }
{
    Held {
        copy: CacheCopy::Invalid,
        ..held
    }
}

/// The copy where its request that was retried is cancelled.
pub(crate) fn freed(due: Due, held: Held) -> Held
    ensures { held_is result ≡ freed due (held_is held) }
{
    Held {
        cancelled: held.cancelled || is_resending(due),
        ..held
    }
}

/// What is left of a copy that may have been stored to.
fn stored(held: Held) -> Option<Held>
    ensures { some_held result ≡ (if is_unique (copy_is held.copy) then Some (stored_to (held_is held)) else None) }
{
    if held.copy.is_unique() {
        Some(stored_to(held))
    } else {
        None
    }
}

/// What is left of a copy that may have been loaded from; `own` says that the word is the copy's.
fn loaded(own: bool, held: Held) -> Option<Held>
    ensures { some_held result ≡ (if holds_data (copy_is held.copy) then (if own then Some (held_is held) else (if is_unique (copy_is held.copy) then Some (stored_to (held_is held)) else None)) else None) }
{
    if !held.copy.holds_data() {
        None
    } else if own {
        Some(held)
    } else {
        stored(held)
    }
}

/// What is left of a copy that may have sent the flit.
pub(crate) fn row(act: Act, own: bool, goes: bool, up: bool, held: Held) -> Option<Held>
    ensures { some_held result ≡ row act own goes up (held_is held) }
{
    match act {
        Act::Request(kind) => requested(kind, held),
        Act::Resend(_) | Act::CompAck => Some(held),
        Act::SnpResp(answer) => replied(answer, goes, held),
        Act::CopyBackWrData(form) => written(form, up, held),
        Act::NonCopyBackWrData => written_whole(held),
        Act::Load(_) => loaded(own, held),
        Act::Store(_) => stored(held),
    }
}

/// What is left of a copy, where its cache may send the flit.
pub(crate) fn acts(
    stores: Stores,
    act: Act,
    own: bool,
    goes: bool,
    due: Due,
    held: Held,
) -> Option<Held>
    ensures { some_held result ≡ acts stores act own goes due (held_is held) }
{
    if lets(stores, act, own, due, held) {
        row(act, own, goes, gives_up_due(due), held)
    } else {
        None
    }
}

/// The copy that data of the form leave.
fn copy_filled(form: State, copy: CacheCopy) -> CacheCopy
    ensures { copy_is result ≡ copy_filled form (copy_is copy) }
{
    if matches!(form, State::I) {
        copy
    } else if copy.is_dirty() {
        CacheCopy::UniqueDirty
    } else {
        copy_of(form)
    }
}

/// The copy behind the completion of a CleanUnique.
fn upgraded(copy: CacheCopy) -> CacheCopy
    ensures { copy_is result ≡ upgraded (copy_is copy) }
{
    match copy {
        CacheCopy::Invalid => CacheCopy::UniqueEmpty,
        CacheCopy::SharedClean => CacheCopy::UniqueClean,
        CacheCopy::SharedDirty => CacheCopy::UniqueDirty,
        CacheCopy::UniqueClean
        | CacheCopy::UniqueEmpty
        | CacheCopy::UniqueDirty
        | CacheCopy::Writing => copy,
    }
}

/// The copy behind a CompUC.
fn copy_completed(due: Due, copy: CacheCopy) -> CacheCopy
    ensures { copy_is result ≡ copy_granted CompUC due (copy_is copy) }
{
    if makes(Grant::CompUC, due) {
        CacheCopy::UniqueDirty
    } else if is_upgraded(due) {
        upgraded(copy)
    } else {
        copy
    }
}

/// The copy behind a flit of the home.
fn copy_granted(grant: Grant, due: Due, copy: CacheCopy) -> CacheCopy
    ensures { copy_is result ≡ copy_granted grant due (copy_is copy) }
{
    match grant {
        Grant::CompData(form) => copy_filled(form, copy),
        Grant::CompUC => copy_completed(due, copy),
        Grant::CompDBIDResp => if is_written_whole(due) && !copy.is_dirty() {
            CacheCopy::Writing
        } else {
            copy
        },
        Grant::CompI => if settles(grant, due) {
            CacheCopy::Invalid
        } else {
            copy
        },
        Grant::RetryAck | Grant::Snp(_) | Grant::CompSC => copy,
    }
}

/// The copy of the agent to which a flit of the home goes.
pub(crate) fn granted(grant: Grant, due: Due, held: Held) -> Held
    ensures { held_is result ≡ granted grant due (held_is held) }
{
    Held {
        copy: copy_granted(grant, due, held.copy),
        cancelled: held.cancelled,
        stored: makes(grant, due) || (held.stored && !settles(grant, due)),
    }
}

/// Whether a flit of the home leaves each copy of its agent as it is.
pub(crate) fn stays(grant: Grant, due: Due) -> bool
    ensures { result ≡ stays grant due }
{
    match grant {
        Grant::CompData(form) => !form_has_data(form),
        Grant::CompUC => !(makes(grant, due) || is_upgraded(due)),
        Grant::CompDBIDResp => !is_written_whole(due),
        Grant::CompI => !settles(grant, due),
        Grant::RetryAck | Grant::Snp(_) | Grant::CompSC => true,
    }
}

/// Whether the words of a flit of the home are the copy's then.
pub(crate) fn fills(grant: Grant, held: Held) -> bool
    ensures { result ≡ fills grant (held_is held) }
{
    gives_copy(grant) && !held.copy.is_dirty()
}

/// Whether the words of a flit of the home are the home's own.
pub(crate) fn shows(grant: Grant, held: Held) -> bool
    ensures { result ≡ shows grant (held_is held) }
{
    gives_data(grant) && (!gives_copy(grant) || !held.copy.is_dirty())
}

/// Whether the value is the home's own or its agent's behind a flit of the home, whoever lost one before.
pub(crate) fn renews(grant: Grant, due: Due) -> bool
    ensures { result ≡ renews grant due }
{
    makes(grant, due) || settles(grant, due)
}
