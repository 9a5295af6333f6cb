//! The words of a row, and what each says of a flit.

use chi_flit::{Data, State, WordNo};
use chi_observer::{Act, Answer, Aside, Grant, Kind, Reason, Snoop, Word};

/// What a word says of the flit that it stands in.
#[derive(Clone, Copy)]
pub(crate) enum Said {
    /// The flit of this agent's cache begins.
    Cache(u8),
    /// The home's flit to this agent begins.
    Home(u8),
    /// What the flit of a cache is.
    Act(Act),
    /// What the home's flit is.
    Grant(Grant),
    /// A request is sent again.
    Again,
    /// The flit shows these words.
    Shown(Data),
    /// The flit is refused, by this rule.
    Refused(Reason),
    /// From it on the line isn't judged, by this cause.
    NotJudged(Aside),
    /// Nothing, as the end of a flit.
    Nothing,
}

/// The old words of the line.
pub(crate) const OLD: Data = [7; 8];

/// The words after the third was stored to.
pub(crate) const NEW: Data = [7, 7, 7, 9, 7, 7, 7, 7];

/// The words after the fifth was stored to, too.
pub(crate) const LATER: Data = [7, 7, 7, 9, 7, 5, 7, 7];

/// The word that makes the new words the later ones.
pub(crate) const FIVE: Word = Word {
    place: WordNo(5),
    value: 5,
};

/// A word of the old ones.
const SEVEN: Word = Word {
    place: WordNo(3),
    value: 7,
};

/// The word that makes the old words the new ones.
pub(crate) const NINE: Word = Word {
    place: WordNo(3),
    value: 9,
};

/// A word behind the last.
const BEYOND: Word = Word {
    place: WordNo(8),
    value: 7,
};

/// Each word, and what it says.
const WORDS: [(&str, Said); 79] = [
    ("0", Said::Cache(0)),
    ("1", Said::Cache(1)),
    ("2", Said::Cache(2)),
    ("32", Said::Cache(32)),
    (">0", Said::Home(0)),
    (">1", Said::Home(1)),
    (">2", Said::Home(2)),
    ("ReadShared", Said::Act(Act::Request(Kind::ReadShared))),
    ("ReadClean", Said::Act(Act::Request(Kind::ReadClean))),
    ("ReadOnce", Said::Act(Act::Request(Kind::ReadOnce))),
    ("ReadUnique", Said::Act(Act::Request(Kind::ReadUnique))),
    ("CleanUnique", Said::Act(Act::Request(Kind::CleanUnique))),
    ("MakeUnique", Said::Act(Act::Request(Kind::MakeUnique))),
    ("CleanShared", Said::Act(Act::Request(Kind::CleanShared))),
    ("CleanInvalid", Said::Act(Act::Request(Kind::CleanInvalid))),
    ("MakeInvalid", Said::Act(Act::Request(Kind::MakeInvalid))),
    ("Evict", Said::Act(Act::Request(Kind::Evict))),
    (
        "WriteBackFull",
        Said::Act(Act::Request(Kind::WriteBackFull)),
    ),
    (
        "WriteEvictFull",
        Said::Act(Act::Request(Kind::WriteEvictFull)),
    ),
    (
        "WriteUniqueFull",
        Said::Act(Act::Request(Kind::WriteUniqueFull)),
    ),
    ("again", Said::Again),
    ("SnpResp_I", Said::Act(Act::SnpResp(Answer::SnpRespI))),
    ("SnpResp_SC", Said::Act(Act::SnpResp(Answer::SnpRespSC))),
    ("SnpResp_UC", Said::Act(Act::SnpResp(Answer::SnpRespUC))),
    (
        "SnpRespData_UD",
        Said::Act(Act::SnpResp(Answer::SnpRespDataUD)),
    ),
    (
        "SnpRespData_SD",
        Said::Act(Act::SnpResp(Answer::SnpRespDataSD)),
    ),
    (
        "SnpRespData_I_PD",
        Said::Act(Act::SnpResp(Answer::SnpRespDataIPD)),
    ),
    (
        "SnpRespData_SC_PD",
        Said::Act(Act::SnpResp(Answer::SnpRespDataSCPD)),
    ),
    (
        "SnpRespData_UC_PD",
        Said::Act(Act::SnpResp(Answer::SnpRespDataUCPD)),
    ),
    ("CompAck", Said::Act(Act::CompAck)),
    ("CopyBackWrData_I", Said::Act(Act::CopyBackWrData(State::I))),
    (
        "CopyBackWrData_SC",
        Said::Act(Act::CopyBackWrData(State::SC)),
    ),
    (
        "CopyBackWrData_UC",
        Said::Act(Act::CopyBackWrData(State::UC)),
    ),
    (
        "CopyBackWrData_UD_PD",
        Said::Act(Act::CopyBackWrData(State::UD)),
    ),
    (
        "CopyBackWrData_SD_PD",
        Said::Act(Act::CopyBackWrData(State::SD)),
    ),
    ("NonCopyBackWrData", Said::Act(Act::NonCopyBackWrData)),
    ("Load(5)", Said::Act(Act::Load(FIVE))),
    ("Load(7)", Said::Act(Act::Load(SEVEN))),
    ("Load(9)", Said::Act(Act::Load(NINE))),
    ("Load(beyond)", Said::Act(Act::Load(BEYOND))),
    ("Store(5)", Said::Act(Act::Store(FIVE))),
    ("Store(9)", Said::Act(Act::Store(NINE))),
    ("RetryAck", Said::Grant(Grant::RetryAck)),
    ("CompDBIDResp", Said::Grant(Grant::CompDBIDResp)),
    ("SnpOnce", Said::Grant(Grant::Snp(Snoop::SnpOnce))),
    ("SnpShared", Said::Grant(Grant::Snp(Snoop::SnpShared))),
    (
        "SnpCleanShared",
        Said::Grant(Grant::Snp(Snoop::SnpCleanShared)),
    ),
    ("SnpUnique", Said::Grant(Grant::Snp(Snoop::SnpUnique))),
    (
        "SnpCleanInvalid",
        Said::Grant(Grant::Snp(Snoop::SnpCleanInvalid)),
    ),
    (
        "SnpMakeInvalid",
        Said::Grant(Grant::Snp(Snoop::SnpMakeInvalid)),
    ),
    ("CompData_I", Said::Grant(Grant::CompData(State::I))),
    ("CompData_SC", Said::Grant(Grant::CompData(State::SC))),
    ("CompData_UC", Said::Grant(Grant::CompData(State::UC))),
    ("CompData_UD_PD", Said::Grant(Grant::CompData(State::UD))),
    ("Comp_UC", Said::Grant(Grant::CompUC)),
    ("Comp_SC", Said::Grant(Grant::CompSC)),
    ("Comp_I", Said::Grant(Grant::CompI)),
    ("old", Said::Shown(OLD)),
    ("new", Said::Shown(NEW)),
    ("later", Said::Shown(LATER)),
    ("NoAgent", Said::Refused(Reason::NoAgent)),
    ("Busy", Said::Refused(Reason::Busy)),
    ("NotDue", Said::Refused(Reason::NotDue)),
    ("NotSent", Said::Refused(Reason::NotSent)),
    ("NotJudged", Said::Refused(Reason::NotJudged)),
    ("NoMoment", Said::Refused(Reason::NoMoment)),
    ("NoDuty", Said::Refused(Reason::NoDuty)),
    ("NoOverwriter", Said::Refused(Reason::NoOverwriter)),
    ("Lost", Said::Refused(Reason::Lost)),
    ("OtherCopy", Said::Refused(Reason::OtherCopy)),
    ("OtherWords", Said::Refused(Reason::OtherWords)),
    ("TwoRequests", Said::NotJudged(Aside::TwoRequests)),
    ("Retried", Said::NotJudged(Aside::Retried)),
    ("EarlierData", Said::NotJudged(Aside::EarlierData)),
    ("Thrown", Said::NotJudged(Aside::Thrown)),
    (
        "HeldRequest",
        Said::NotJudged(Aside::HeldRequest(Reason::OtherCopy)),
    ),
    (";", Said::Nothing),
    ("!", Said::Nothing),
    ("?", Said::Nothing),
];

/// What the word says; nothing where no row has it.
pub(crate) fn said_by(word: &str) -> Option<Said> {
    for (name, said) in &WORDS {
        if *name == word {
            return Some(*said);
        }
    }
    None
}
