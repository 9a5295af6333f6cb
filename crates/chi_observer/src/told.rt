//! What flits have told of a copy.

ghost use Rattle.std.specs.Prelude.{◌≡◌, ◌&&◌, ◌||◌};
ghost use Rattle.chi_observer.specs.Copies.{compatible, Copy, holds_data, is_clean, is_dirty, is_unique, same};
ghost use Rattle.chi_observer.specs.Rules.{hides_stores, lets_store, may_be_free};
ghost use Rattle.chi_observer.specs.Tables.{answer_tells_dirty, fits_answer, fits_form, fits_issue, fits_load, fits_store, may_be_gone, strongest, tells_dirty, told_answered, told_as, told_behind, told_by, told_clean, told_completed, told_empty, told_filled, told_issued, told_loaded, told_shared, told_unique, told_upgraded};

use crate::flits::{Act, Answer, Due, Grant, Stores};
use crate::kinds::Kind;
use crate::rules::{is_upgraded, is_written_whole, left_by, makes, settles, written};
use chi_flit::State;

/// The copies that one may be right behind the last flit that told of it. From there it goes on unseen, by stores and
/// drops, while its cache has nothing open at the line. `UCE` is the standard's unique copy without data, which
/// `chi_flit::State` doesn't have; the pairs are for a request, which doesn't tell which of both it was sent from.
/// Source: `docs/OBSERVER.md`, "What is told of a copy".
#[derive(Clone, Copy, Debug, PartialEq, Eq)]
pub enum Told {
    /// No copy.
    I,
    /// Shared and clean.
    SC,
    /// Shared and clean, or dropped before the request was sent.
    SCOrI,
    /// Unique and clean.
    UC,
    /// Unique and clean, or dropped before the request was sent.
    UCOrI,
    /// Unique, without data.
    UCE,
    /// Unique without data, or dropped before the request was sent.
    UCEOrI,
    /// Unique and clean, or without data.
    UCOrUCE,
    /// Unique and dirty.
    UD,
    /// Shared and dirty.
    SD,
    /// No copy; the data of a WriteUniqueFull are due, and nobody else has a copy.
    Writing,
}

impl Told {
    /// Whether it is surely or possibly unique.
    pub(crate) fn is_unique(self) -> bool
        ensures { result ≡ is_unique (strongest self) }
    {
        matches!(
            self,
            Told::UC | Told::UCOrI | Told::UCE | Told::UCEOrI | Told::UCOrUCE | Told::UD
        )
    }

    /// Whether it is dirty.
    pub(crate) fn is_dirty(self) -> bool
        ensures { result ≡ is_dirty (strongest self) }
    {
        matches!(self, Told::UD | Told::SD)
    }

    /// Whether it may be clean, with data or without.
    fn is_clean(self) -> bool
        ensures { result ≡ is_clean (strongest self) }
    {
        matches!(
            self,
            Told::SC
                | Told::SCOrI
                | Told::UC
                | Told::UCOrI
                | Told::UCE
                | Told::UCEOrI
                | Told::UCOrUCE
        )
    }

    /// Whether it may be none, or none any more.
    fn may_be_gone(self) -> bool
        ensures { result ≡ may_be_gone self }
    {
        !matches!(self, Told::UD | Told::SD | Told::Writing)
    }

    /// Whether it may have data.
    pub(crate) fn holds_data(self) -> bool
        ensures { result ≡ holds_data (strongest self) }
    {
        matches!(
            self,
            Told::SC | Told::SCOrI | Told::UC | Told::UCOrI | Told::UCOrUCE | Told::UD | Told::SD
        )
    }

    /// Whether it may be unique, and is without data where it is.
    pub(crate) fn is_empty(self) -> bool
        ensures { result ≡ same (strongest self) Copy.UniqueEmpty }
    {
        matches!(self, Told::UCE | Told::UCEOrI)
    }

    /// Whether it is surely none.
    pub(crate) fn is_gone(self) -> bool
        ensures { result ≡ same (strongest self) Copy.Invalid }
    {
        matches!(self, Told::I)
    }

    /// Whether it may be unique and clean with data.
    fn is_unique_clean(self) -> bool
        ensures { result ≡ same (strongest self) Copy.UniqueClean }
    {
        matches!(self, Told::UC | Told::UCOrI | Told::UCOrUCE)
    }

    /// Whether it may be clean with data.
    fn is_clean_data(self) -> bool
        ensures { result ≡ (is_clean (strongest self) && holds_data (strongest self)) }
    {
        matches!(
            self,
            Told::SC | Told::SCOrI | Told::UC | Told::UCOrI | Told::UCOrUCE
        )
    }

    /// Whether two agents' copies may have been told so together.
    pub(crate) fn goes_with(self, other: Told) -> bool
        ensures { result ≡ compatible (strongest self) (strongest other) }
    {
        match self {
            Told::I => true,
            Told::SC | Told::SCOrI => {
                matches!(other, Told::I | Told::SC | Told::SCOrI | Told::SD)
            }
            Told::SD => matches!(other, Told::I | Told::SC | Told::SCOrI),
            Told::UC
            | Told::UCOrI
            | Told::UCE
            | Told::UCEOrI
            | Told::UCOrUCE
            | Told::UD
            | Told::Writing => matches!(other, Told::I),
        }
    }

    /// Whether a request of the kind may come from it, where nothing is open; `unseen` says that there may have been a
    /// store that nobody saw.
    pub(crate) fn may_issue(self, kind: Kind, unseen: bool) -> bool
        ensures { result ≡ fits_issue kind unseen self }
    {
        match kind {
            Kind::ReadNotSharedDirty
            | Kind::ReadShared
            | Kind::ReadClean
            | Kind::ReadOnce
            | Kind::CleanShared
            | Kind::CleanInvalid
            | Kind::MakeInvalid
            | Kind::WriteUniqueFull => self.may_be_gone(),
            Kind::ReadUnique | Kind::CleanUnique | Kind::MakeUnique => {
                self.may_be_gone() || matches!(self, Told::SD)
            }
            Kind::Evict => self.is_clean(),
            Kind::WriteBackFull | Kind::WriteCleanFull => self.may_be_dirty(unseen),
            Kind::WriteEvictFull => self.is_unique_clean(),
        }
    }

    /// Whether the answer may come from it; `unseen` says that there may have been a store that nobody saw.
    pub(crate) fn may_answer(self, answer: Answer, unseen: bool) -> bool
        ensures { result ≡ fits_answer answer unseen self }
    {
        match answer {
            Answer::SnpRespI => self.may_be_gone(),
            Answer::SnpRespSC | Answer::SnpRespDataI | Answer::SnpRespDataSC => {
                self.is_clean_data()
            }
            Answer::SnpRespUC => self.is_clean() && self.is_unique(),
            Answer::SnpRespDataUC => self.is_unique_clean(),
            Answer::SnpRespDataUD | Answer::SnpRespDataUCPD => {
                matches!(self, Told::UD) || (unseen && self.is_unique())
            }
            Answer::SnpRespDataSD | Answer::SnpRespDataIPD | Answer::SnpRespDataSCPD => {
                self.may_be_dirty(unseen)
            }
        }
    }

    /// Whether it may be dirty; `unseen` says that there may have been a store that nobody saw.
    fn may_be_dirty(self, unseen: bool) -> bool
        ensures { result ≡ (is_dirty (strongest self) || (unseen && is_unique (strongest self))) }
    {
        self.is_dirty() || (unseen && self.is_unique())
    }

    /// Whether write data of the form may come from it.
    pub(crate) fn may_write(self, form: State) -> bool
        ensures { result ≡ fits_form form self }
    {
        match form {
            State::I => self.may_be_gone(),
            State::SC => matches!(self, Told::SC | Told::SCOrI),
            State::UC => self.is_unique_clean(),
            State::UD => matches!(self, Told::UD),
            State::SD => matches!(self, Told::SD),
        }
    }

    /// Whether a load may be of it; `unseen` says that there may have been a store that nobody saw.
    pub(crate) fn may_load(self, unseen: bool) -> bool
        ensures { result ≡ fits_load unseen self }
    {
        self.holds_data() || (unseen && self.is_unique())
    }

    /// Whether a store to it may be done while this is due.
    pub(crate) fn may_store(self, due: Due) -> bool
        ensures { result ≡ fits_store due self }
    {
        lets_store(due) && self.is_unique()
    }

    /// What is told behind a flit of the copy's cache.
    pub(crate) fn after(self, act: Act, due: Due) -> Told
        ensures { result ≡ told_behind act due self }
    {
        match act {
            Act::Request(kind) => self.after_request(kind),
            Act::SnpResp(answer) => self.after_answer(answer),
            Act::NonCopyBackWrData => Told::I,
            Act::Load(_) => self.loaded(),
            Act::Store(_) => Told::UD,
            Act::Resend(_) | Act::CompAck => self,
            Act::CopyBackWrData(form) => match due {
                Due::WriteData(kind) => told_as(written(kind, form)),
                _ => self,
            },
        }
    }

    /// What is told behind an answer.
    fn after_answer(self, answer: Answer) -> Told
        ensures { result ≡ told_answered answer self }
    {
        match answer {
            Answer::SnpRespUC => self.unique(),
            _ => told_as(left_by(answer)),
        }
    }

    /// What is told behind a load: a copy with data, and of one without that the whole line was written.
    fn loaded(self) -> Told
        ensures { result ≡ told_loaded self }
    {
        match self {
            Told::SCOrI => Told::SC,
            Told::UCOrI | Told::UCOrUCE => Told::UC,
            Told::UCE | Told::UCEOrI => Told::UD,
            Told::I | Told::SC | Told::UC | Told::UD | Told::SD | Told::Writing => self,
        }
    }

    /// What is told of a unique copy that stays as it is.
    fn unique(self) -> Told
        ensures { result ≡ told_unique self }
    {
        match self {
            Told::UCE | Told::UCEOrI => Told::UCE,
            Told::UCOrUCE => Told::UCOrUCE,
            _ => Told::UC,
        }
    }

    /// What is told behind a request.
    fn after_request(self, kind: Kind) -> Told
        ensures { result ≡ told_issued kind self }
    {
        match kind {
            Kind::ReadNotSharedDirty | Kind::ReadShared | Kind::ReadClean => self.empty(),
            Kind::ReadUnique | Kind::CleanUnique | Kind::MakeUnique => self.shared(),
            Kind::CleanShared => self.clean(),
            Kind::Evict
            | Kind::ReadOnce
            | Kind::CleanInvalid
            | Kind::MakeInvalid
            | Kind::WriteUniqueFull => Told::I,
            Kind::WriteBackFull | Kind::WriteCleanFull => {
                if matches!(self, Told::SD) {
                    Told::SD
                } else {
                    Told::UD
                }
            }
            Kind::WriteEvictFull => Told::UC,
        }
    }

    /// What is told behind a request that is issued without data.
    fn empty(self) -> Told
        ensures { result ≡ told_empty self }
    {
        match self {
            Told::UCE | Told::UCEOrI | Told::UCOrUCE => Told::UCEOrI,
            _ => Told::I,
        }
    }

    /// What is told behind a request that is issued without data or from a shared copy.
    fn shared(self) -> Told
        ensures { result ≡ told_shared self }
    {
        match self {
            Told::SC | Told::SCOrI => Told::SCOrI,
            Told::SD => Told::SD,
            _ => self.empty(),
        }
    }

    /// What is told behind a request that is issued without data or from a clean copy.
    fn clean(self) -> Told
        ensures { result ≡ told_clean self }
    {
        match self {
            Told::SC | Told::SCOrI => Told::SCOrI,
            Told::UC | Told::UCOrI | Told::UCOrUCE => Told::UCOrI,
            _ => Told::I,
        }
    }

    /// What is told behind a flit of the home.
    pub(crate) fn granted(self, grant: Grant, due: Due) -> Told
        ensures { result ≡ told_by grant due self }
    {
        match grant {
            Grant::CompData(form) => self.filled(form),
            Grant::CompUC => self.completed(due),
            Grant::CompDBIDResp => if is_written_whole(due) && !self.is_dirty() {
                Told::Writing
            } else {
                self
            },
            Grant::CompI => if settles(grant, due) { Told::I } else { self },
            Grant::RetryAck | Grant::Snp(_) | Grant::CompSC => self,
        }
    }

    /// What is told behind data of the form.
    fn filled(self, form: State) -> Told
        ensures { result ≡ told_filled form self }
    {
        match form {
            State::I => self,
            State::SC | State::UC | State::UD | State::SD => if self.is_dirty() {
                Told::UD
            } else {
                told_as(form)
            },
        }
    }

    /// What is told behind Comp_UC.
    fn completed(self, due: Due) -> Told
        ensures { result ≡ told_completed due self }
    {
        if makes(Grant::CompUC, due) {
            return Told::UD;
        }
        if is_upgraded(due) {
            return self.upgraded();
        }
        self
    }

    /// What is told behind the completion of a CleanUnique.
    fn upgraded(self) -> Told
        ensures { result ≡ told_upgraded self }
    {
        match self {
            Told::I | Told::UCEOrI => Told::UCE,
            Told::SC => Told::UC,
            Told::SCOrI | Told::UCOrI => Told::UCOrUCE,
            Told::SD => Told::UD,
            _ => self,
        }
    }
}

/// What is told by a copy's own form.
fn told_as(form: State) -> Told
    ensures { result ≡ told_as form }
{
    match form {
        State::I => Told::I,
        State::SC => Told::SC,
        State::UC => Told::UC,
        State::UD => Told::UD,
        State::SD => Told::SD,
    }
}

/// Whether some copy of an agent of whom this is due may have nothing pending.
pub(crate) fn may_be_free(due: Due) -> bool
    ensures { result ≡ may_be_free due }
{
    matches!(due, Due::Nothing | Due::Resending(_))
}

/// Whether stores that nobody saw may be done while this is due.
pub(crate) fn hides_stores(stores: Stores, due: Due) -> bool
    ensures { result ≡ hides_stores stores due }
{
    matches!(stores, Stores::Hidden) && may_be_free(due)
}

/// Whether a store may be done while this is due.
fn lets_store(due: Due) -> bool
    ensures { result ≡ lets_store due }
{
    matches!(due, Due::Nothing | Due::Resending(_) | Due::Acknowledgement)
}

/// Whether the answer says that its sender's copy was dirty.
pub(crate) fn answer_tells_dirty(answer: Answer) -> bool
    ensures { result ≡ answer_tells_dirty answer }
{
    matches!(
        answer,
        Answer::SnpRespDataUD
            | Answer::SnpRespDataSD
            | Answer::SnpRespDataIPD
            | Answer::SnpRespDataSCPD
            | Answer::SnpRespDataUCPD
    )
}

/// Whether the flit says that its sender's copy was dirty.
pub(crate) fn tells_dirty(act: Act) -> bool
    ensures { result ≡ tells_dirty act }
{
    match act {
        Act::Request(kind) => matches!(kind, Kind::WriteBackFull | Kind::WriteCleanFull),
        Act::SnpResp(answer) => answer_tells_dirty(answer),
        Act::Resend(_)
        | Act::CompAck
        | Act::CopyBackWrData(_)
        | Act::NonCopyBackWrData
        | Act::Load(_)
        | Act::Store(_) => false,
    }
}
