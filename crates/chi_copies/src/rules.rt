//! What flits say by themselves.

ghost use Rattle.std.specs.Prelude.{◌≡◌, ◌&&◌, ◌||◌, Some, not};
ghost use Rattle.chi_observer.specs.Rules.{allows, answer_drops, answer_has_data, are_hidden, completes, due_after, due_granted, form_has_data, form_passes, gives_copy, gives_data, gives_up, has_data, is_clean_form, is_completed, is_copy_back, is_due, is_request, is_shared_form, is_upgraded, is_whole_write, is_written_whole, leaves, left_by, lets_go, makes, needs_alone, needs_duty, needs_moment, needs_overwriter, needs_quiet, passes_duty, reads_once, same_kind, settles, snooped_after, snooped_granted, tells_words, writes};

use chi_flit::State;
use chi_observer::{Act, Answer, Due, Grant, Kind, Snoop, Stores};

/// What an answer says is left of the copy.
pub(crate) fn left_by(answer: Answer) -> State
    ensures { result ≡ left_by answer }
{
    match answer {
        Answer::SnpRespI | Answer::SnpRespDataI | Answer::SnpRespDataIPD => State::I,
        Answer::SnpRespSC | Answer::SnpRespDataSC | Answer::SnpRespDataSCPD => State::SC,
        Answer::SnpRespUC | Answer::SnpRespDataUC | Answer::SnpRespDataUCPD => State::UC,
        Answer::SnpRespDataUD => State::UD,
        Answer::SnpRespDataSD => State::SD,
    }
}

/// Whether two kinds are one.
pub(crate) fn same_kind(kind: Kind, other: Kind) -> bool
    ensures { result ≡ same_kind kind other }
{
    matches!(
        (kind, other),
        (Kind::ReadNotSharedDirty, Kind::ReadNotSharedDirty)
            | (Kind::ReadShared, Kind::ReadShared)
            | (Kind::ReadClean, Kind::ReadClean)
            | (Kind::ReadOnce, Kind::ReadOnce)
            | (Kind::ReadUnique, Kind::ReadUnique)
            | (Kind::CleanUnique, Kind::CleanUnique)
            | (Kind::MakeUnique, Kind::MakeUnique)
            | (Kind::CleanShared, Kind::CleanShared)
            | (Kind::CleanInvalid, Kind::CleanInvalid)
            | (Kind::MakeInvalid, Kind::MakeInvalid)
            | (Kind::Evict, Kind::Evict)
            | (Kind::WriteBackFull, Kind::WriteBackFull)
            | (Kind::WriteCleanFull, Kind::WriteCleanFull)
            | (Kind::WriteEvictFull, Kind::WriteEvictFull)
            | (Kind::WriteUniqueFull, Kind::WriteUniqueFull)
    )
}

/// Whether the snoop that isn't answered, if the flit is an answer, lets it leave what it says.
pub(crate) fn allows(act: Act, snooped: Option<Snoop>) -> bool
    ensures { result ≡ allows act snooped }
{
    match act {
        Act::SnpResp(answer) => match snooped {
            None => false,
            Some(snoop) => lets(snoop, answer),
        },
        Act::Request(_)
        | Act::Resend(_)
        | Act::CompAck
        | Act::CopyBackWrData(_)
        | Act::NonCopyBackWrData
        | Act::Load(_)
        | Act::Store(_) => true,
    }
}

/// Whether a snoop lets it be answered so.
fn lets(snoop: Snoop, answer: Answer) -> bool
    ensures { result ≡ (leaves snoop (left_by answer)
        && (not (lets_go (Some snoop)) || answer_drops answer)) }
{
    leaves(snoop, left_by(answer)) && (!matches!(snoop, Snoop::SnpMakeInvalid) || drops(answer))
}

/// Whether an answer says that no copy is left, without data.
pub(crate) fn drops(answer: Answer) -> bool
    ensures { result ≡ answer_drops answer }
{
    matches!(answer, Answer::SnpRespI)
}

/// Whether the snoop that isn't answered lets dirty data be thrown away.
pub(crate) fn lets_go(snooped: Option<Snoop>) -> bool
    ensures { result ≡ lets_go snooped }
{
    matches!(snooped, Some(Snoop::SnpMakeInvalid))
}

/// Whether a snoop lets a copy be left so.
fn leaves(snoop: Snoop, left: State) -> bool
    ensures { result ≡ leaves snoop left }
{
    match snoop {
        Snoop::SnpOnce => true,
        Snoop::SnpClean | Snoop::SnpShared | Snoop::SnpNotSharedDirty => is_shared_form(left),
        Snoop::SnpCleanShared => is_clean_form(left),
        Snoop::SnpUnique | Snoop::SnpCleanInvalid | Snoop::SnpMakeInvalid => {
            matches!(left, State::I)
        }
    }
}

/// Whether a copy left so is shared, or none.
fn is_shared_form(left: State) -> bool
    ensures { result ≡ is_shared_form left }
{
    matches!(left, State::I | State::SC | State::SD)
}

/// Whether a copy left so is clean, or none.
fn is_clean_form(left: State) -> bool
    ensures { result ≡ is_clean_form left }
{
    matches!(left, State::I | State::SC | State::UC)
}

/// Whether a flit of a cache has the data of its copy.
pub(crate) fn has_data(act: Act) -> bool
    ensures { result ≡ has_data act }
{
    match act {
        Act::Request(_)
        | Act::Resend(_)
        | Act::CompAck
        | Act::NonCopyBackWrData
        | Act::Load(_)
        | Act::Store(_) => false,
        Act::SnpResp(answer) => {
            !matches!(
                answer,
                Answer::SnpRespI | Answer::SnpRespSC | Answer::SnpRespUC
            )
        }
        Act::CopyBackWrData(form) => !matches!(form, State::I),
    }
}

/// Whether a flit of a cache has the whole line, which its cache writes without a copy.
pub(crate) fn writes(act: Act) -> bool
    ensures { result ≡ writes act }
{
    matches!(act, Act::NonCopyBackWrData)
}

/// Whether the home has the words of a flit of a cache then.
pub(crate) fn tells_words(act: Act) -> bool
    ensures { result ≡ tells_words act }
{
    has_data(act) || writes(act)
}

/// What is due behind a flit of a cache.
pub(crate) fn due_after(act: Act, due: Due) -> Due
    ensures { result ≡ due_after act due }
{
    match act {
        Act::Request(kind) => Due::Completion(kind),
        Act::Resend(kind) => Due::SureCompletion(kind),
        Act::SnpResp(_) | Act::Load(_) | Act::Store(_) => due,
        Act::CompAck | Act::CopyBackWrData(_) | Act::NonCopyBackWrData => Due::Nothing,
    }
}

/// Which snoop isn't answered behind a flit of a cache.
pub(crate) fn snooped_after(act: Act, snooped: Option<Snoop>) -> Option<Snoop>
    ensures { result ≡ snooped_after act snooped }
{
    match act {
        Act::SnpResp(_) => None,
        Act::Request(_)
        | Act::Resend(_)
        | Act::CompAck
        | Act::CopyBackWrData(_)
        | Act::NonCopyBackWrData
        | Act::Load(_)
        | Act::Store(_) => snooped,
    }
}

/// Whether a flit of a cache passes the duty to write dirty data to the home.
pub(crate) fn passes_duty(act: Act) -> bool
    ensures { result ≡ passes_duty act }
{
    match act {
        Act::SnpResp(answer) => {
            matches!(
                answer,
                Answer::SnpRespDataIPD | Answer::SnpRespDataSCPD | Answer::SnpRespDataUCPD
            )
        }
        Act::CopyBackWrData(form) => passes_by(form),
        Act::NonCopyBackWrData => true,
        Act::Request(_) | Act::Resend(_) | Act::CompAck | Act::Load(_) | Act::Store(_) => false,
    }
}

/// Whether data of the form pass the duty on.
fn passes_by(form: State) -> bool
    ensures { result ≡ form_passes form }
{
    matches!(form, State::UD | State::SD)
}

/// Whether data of the form complete a request of the kind.
fn completes(kind: Kind, form: State) -> bool
    ensures { result ≡ completes kind form }
{
    match kind {
        Kind::ReadNotSharedDirty => matches!(form, State::SC | State::UC | State::UD),
        Kind::ReadShared => !matches!(form, State::I),
        Kind::ReadClean => matches!(form, State::SC | State::UC),
        Kind::ReadOnce => matches!(form, State::I),
        Kind::ReadUnique => matches!(form, State::UC | State::UD),
        Kind::CleanUnique
        | Kind::MakeUnique
        | Kind::CleanShared
        | Kind::CleanInvalid
        | Kind::MakeInvalid
        | Kind::Evict
        | Kind::WriteBackFull
        | Kind::WriteCleanFull
        | Kind::WriteEvictFull
        | Kind::WriteUniqueFull => false,
    }
}

/// Whether a flit of the home is due to an agent.
pub(crate) fn is_due(grant: Grant, due: Due, snooped: Option<Snoop>) -> bool
    ensures { result ≡ is_due grant due snooped }
{
    match (grant, due) {
        (Grant::RetryAck, Due::Completion(_)) => true,
        (Grant::RetryAck, _) => false,
        (Grant::Snp(_), _) => snooped.is_none(),
        (_, Due::Completion(kind)) => is_completed(grant, kind, snooped),
        (_, Due::SureCompletion(kind)) => is_completed(grant, kind, snooped),
        _ => false,
    }
}

/// Whether a flit of the home completes a request of the kind, or asks for its write data.
fn is_completed(grant: Grant, kind: Kind, snooped: Option<Snoop>) -> bool
    ensures { result ≡ is_completed grant kind snooped }
{
    match grant {
        Grant::CompData(form) => snooped.is_none() && completes(kind, form),
        Grant::CompUC => {
            snooped.is_none()
                && matches!(
                    kind,
                    Kind::CleanUnique | Kind::MakeUnique | Kind::CleanShared
                )
        }
        Grant::CompSC => snooped.is_none() && matches!(kind, Kind::CleanShared),
        Grant::CompI => {
            matches!(kind, Kind::Evict)
                || (snooped.is_none()
                    && matches!(
                        kind,
                        Kind::CleanShared | Kind::CleanInvalid | Kind::MakeInvalid
                    ))
        }
        Grant::CompDBIDResp => { snooped.is_none() && (is_copy_back(kind) || is_whole_write(kind)) }
        Grant::RetryAck | Grant::Snp(_) => false,
    }
}

/// Whether the completion of a CleanUnique is due.
pub(crate) fn is_upgraded(due: Due) -> bool
    ensures { result ≡ is_upgraded due }
{
    matches!(
        due,
        Due::Completion(Kind::CleanUnique) | Due::SureCompletion(Kind::CleanUnique)
    )
}

/// Whether the home's leave to send the data of a WriteUniqueFull is due.
pub(crate) fn is_written_whole(due: Due) -> bool
    ensures { result ≡ is_written_whole due }
{
    matches!(
        due,
        Due::Completion(Kind::WriteUniqueFull) | Due::SureCompletion(Kind::WriteUniqueFull)
    )
}

/// Whether a flit of the home is the completion of a MakeUnique, at which its agent writes the whole line.
pub(crate) fn makes(grant: Grant, due: Due) -> bool
    ensures { result ≡ makes grant due }
{
    matches!(
        (grant, due),
        (
            Grant::CompUC,
            Due::Completion(Kind::MakeUnique) | Due::SureCompletion(Kind::MakeUnique)
        )
    )
}

/// Whether a flit of the home says that no other copy is left.
pub(crate) fn needs_alone(grant: Grant, due: Due) -> bool
    ensures { result ≡ needs_alone grant due }
{
    matches!(
        (grant, due),
        (
            Grant::CompI,
            Due::Completion(Kind::CleanInvalid | Kind::MakeInvalid)
                | Due::SureCompletion(Kind::CleanInvalid | Kind::MakeInvalid)
        )
    )
}

/// Whether a ReadOnce is open.
pub(crate) fn reads_once(due: Due) -> bool
    ensures { result ≡ reads_once due }
{
    matches!(
        due,
        Due::Completion(Kind::ReadOnce)
            | Due::Resending(Kind::ReadOnce)
            | Due::SureCompletion(Kind::ReadOnce)
    )
}

/// Whether a flit of the home is the completion of a CleanShared or a ReadOnce.
pub(crate) fn needs_moment(grant: Grant, due: Due) -> bool
    ensures { result ≡ needs_moment grant due }
{
    match grant {
        Grant::CompData(_) => matches!(
            due,
            Due::Completion(Kind::ReadOnce) | Due::SureCompletion(Kind::ReadOnce)
        ),
        Grant::CompUC | Grant::CompSC | Grant::CompI => matches!(
            due,
            Due::Completion(Kind::CleanShared) | Due::SureCompletion(Kind::CleanShared)
        ),
        Grant::RetryAck | Grant::Snp(_) | Grant::CompDBIDResp => false,
    }
}

/// Whether a flit of the home has data.
pub(crate) fn gives_data(grant: Grant) -> bool
    ensures { result ≡ gives_data grant }
{
    matches!(grant, Grant::CompData(_))
}

/// Whether a flit of the home has data that leave a copy.
pub(crate) fn gives_copy(grant: Grant) -> bool
    ensures { result ≡ gives_copy grant }
{
    match grant {
        Grant::CompData(form) => !matches!(form, State::I),
        Grant::RetryAck
        | Grant::Snp(_)
        | Grant::CompUC
        | Grant::CompSC
        | Grant::CompI
        | Grant::CompDBIDResp => false,
    }
}

/// Whether a flit of the home passes the duty to write dirty data on.
pub(crate) fn needs_duty(grant: Grant) -> bool
    ensures { result ≡ needs_duty grant }
{
    match grant {
        Grant::CompData(form) => passes_by(form),
        Grant::RetryAck
        | Grant::Snp(_)
        | Grant::CompUC
        | Grant::CompSC
        | Grant::CompI
        | Grant::CompDBIDResp => false,
    }
}

/// Whether it is sent only where no CompAck and no write data are due at the line.
pub(crate) fn needs_quiet(grant: Grant) -> bool
    ensures { result ≡ needs_quiet grant }
{
    matches!(grant, Grant::Snp(_))
}

/// Whether a flit of the home is sent only while another agent has a request open for which copies may be thrown away.
pub(crate) fn needs_overwriter(grant: Grant) -> bool
    ensures { result ≡ needs_overwriter grant }
{
    match grant {
        Grant::Snp(snoop) => lets_go(Some(snoop)),
        Grant::RetryAck
        | Grant::CompData(_)
        | Grant::CompUC
        | Grant::CompSC
        | Grant::CompI
        | Grant::CompDBIDResp => false,
    }
}

/// Whether a flit of the home is the completion of a MakeInvalid, behind which the home's own words are the value.
pub(crate) fn settles(grant: Grant, due: Due) -> bool
    ensures { result ≡ settles grant due }
{
    matches!(
        (grant, due),
        (
            Grant::CompI,
            Due::Completion(Kind::MakeInvalid) | Due::SureCompletion(Kind::MakeInvalid)
        )
    )
}

/// What is due behind a flit of the home.
pub(crate) fn due_granted(grant: Grant, due: Due) -> Due
    ensures { result ≡ due_granted grant due }
{
    match (grant, due) {
        (Grant::RetryAck, Due::Completion(kind)) => Due::Resending(kind),
        (Grant::RetryAck | Grant::Snp(_), _) => due,
        (Grant::CompData(State::I), _) => Due::Nothing,
        (Grant::CompData(_), _) => Due::Acknowledgement,
        (Grant::CompUC, _) => if makes(grant, due) || is_upgraded(due) {
            Due::Acknowledgement
        } else {
            Due::Nothing
        },
        (Grant::CompSC | Grant::CompI, _) => Due::Nothing,
        (Grant::CompDBIDResp, Due::Completion(kind)) => Due::WriteData(kind),
        (Grant::CompDBIDResp, Due::SureCompletion(kind)) => Due::WriteData(kind),
        (Grant::CompDBIDResp, _) => due,
    }
}

/// Which snoop isn't answered behind a flit of the home.
pub(crate) fn snooped_granted(grant: Grant, snooped: Option<Snoop>) -> Option<Snoop>
    ensures { result ≡ snooped_granted grant snooped }
{
    match grant {
        Grant::Snp(snoop) => Some(snoop),
        Grant::RetryAck
        | Grant::CompData(_)
        | Grant::CompUC
        | Grant::CompSC
        | Grant::CompI
        | Grant::CompDBIDResp => snooped,
    }
}

/// Whether a request of the kind ends with the write data of a copy.
pub(crate) fn is_copy_back(kind: Kind) -> bool
    ensures { result ≡ is_copy_back kind }
{
    matches!(
        kind,
        Kind::WriteBackFull | Kind::WriteCleanFull | Kind::WriteEvictFull
    )
}

/// Whether a request of the kind ends with data of its own.
pub(crate) fn is_whole_write(kind: Kind) -> bool
    ensures { result ≡ is_whole_write kind }
{
    matches!(kind, Kind::WriteUniqueFull)
}

/// Whether write data of the kind leave no copy.
pub(crate) fn gives_up(kind: Kind) -> bool
    ensures { result ≡ gives_up kind }
{
    matches!(kind, Kind::WriteBackFull | Kind::WriteEvictFull)
}

/// Whether stores may be done that aren't told of.
pub(crate) fn are_hidden(stores: Stores) -> bool
    ensures { result ≡ are_hidden stores }
{
    matches!(stores, Stores::Hidden)
}

/// Whether a flit of a cache is a request.
pub(crate) fn is_request(act: Act) -> bool
    ensures { result ≡ is_request act }
{
    matches!(act, Act::Request(_))
}

/// Whether an answer has data.
pub(crate) fn answer_has_data(answer: Answer) -> bool
    ensures { result ≡ answer_has_data answer }
{
    !matches!(
        answer,
        Answer::SnpRespI | Answer::SnpRespSC | Answer::SnpRespUC
    )
}

/// Whether data of the form are a copy's.
pub(crate) fn form_has_data(form: State) -> bool
    ensures { result ≡ form_has_data form }
{
    !matches!(form, State::I)
}
