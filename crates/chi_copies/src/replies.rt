//! A reply on its way to the home: an answer to a snoop, or write data.

ghost use Rattle.std.specs.Prelude.{◌≡◌, ◌==◌, ◌+◌, ◌*◌, ◌<◌, Some};
ghost use Rattle.chi_observer.specs.declared.flits.Act.TheVariants.{CopyBackWrData, SnpResp};
ghost use Rattle.chi_copies.specs.Arriving.{age_sent, aged, followed, has_words_so, is_last, number_of, number_of_age, outrun, snoop_of};
ghost use Rattle.chi_copies.specs.Sets.{held_is};
ghost use Rattle.chi_copies.specs.ArrivingLines.{act_at, age_at, answer_at, data_at, free_due, reply_at, reply_number, row_of};

use crate::held::Held;
use crate::rules::{tells_words, writes};
use chi_flit::State;
use chi_observer::{Act, Answer, Due, Kind, Snoop};

/// How old words on their way are.
/// Source: `docs/COPIES.md`, "Seen at the home".
#[derive(Clone, Copy, Debug, PartialEq, Eq)]
pub enum Age {
    /// The home's own.
    Own,
    /// The value last stored, which the home hasn't.
    Last,
    /// Another that the home hasn't, and a store followed.
    Past,
    /// Older than some that the home has received since.
    Older,
}

/// An answer or write data on their way.
/// Source: `docs/COPIES.md`, "Seen at the home".
#[derive(Clone, Copy, Debug, PartialEq, Eq)]
pub struct Reply {
    /// What it is.
    pub act: Act,
    /// How old its words are.
    pub age: Age,
}

/// The reply that the home awaits of an agent.
/// Source: `docs/COPIES.md`, "Seen at the home".
#[derive(Clone, Copy, Debug, PartialEq, Eq)]
pub enum Asked {
    /// None.
    NoReply,
    /// An answer to this snoop.
    AnswerTo(Snoop),
    /// The write data of a request of this kind.
    DataOf(Kind),
}

impl Age {
    /// The number of an age.
    fn number(self) -> usize
        ensures { result ≡ number_of_age self }
    {
        match self {
            Age::Own => 0,
            Age::Last => 1,
            Age::Past => 2,
            Age::Older => 3,
        }
    }

    /// The age of a number.
    fn at(number: usize) -> Age
        ensures { result ≡ age_at number }
    {
        match number {
            0 => Age::Own,
            1 => Age::Last,
            2 => Age::Past,
            _ => Age::Older,
        }
    }

    /// An age behind a store.
    pub(crate) fn followed(self) -> Age
        ensures { result ≡ followed self }
    {
        match self {
            Age::Last => Age::Past,
            Age::Own | Age::Past | Age::Older => self,
        }
    }

    /// An age behind newer words that the home has received.
    fn outrun(self) -> Age
        ensures { result ≡ outrun self }
    {
        match self {
            Age::Last => Age::Last,
            Age::Own | Age::Past | Age::Older => Age::Older,
        }
    }

    /// The age of the words that an agent sends of a copy.
    pub(crate) fn sent(act: Act, held: Held) -> Age
        ensures { result ≡ age_sent act (held_is held) }
    {
        if held.stored || writes(act) {
            Age::Last
        } else {
            Age::Own
        }
    }
}

/// A reply behind a store.
pub(crate) fn reply_followed(reply: Option<Reply>) -> Option<Reply>
    ensures { result ≡ aged followed reply }
{
    match reply {
        None => None,
        Some(sent) => Some(Reply {
            act: sent.act,
            age: sent.age.followed(),
        }),
    }
}

/// A reply behind newer words that the home has received.
pub(crate) fn reply_outrun(reply: Option<Reply>) -> Option<Reply>
    ensures { result ≡ aged outrun reply }
{
    match reply {
        None => None,
        Some(sent) => Some(Reply {
            act: sent.act,
            age: sent.age.outrun(),
        }),
    }
}

/// Whether the value last stored is on its way with it.
pub(crate) fn brings_last(reply: Option<Reply>) -> bool
    ensures { result ≡ has_words_so is_last reply }
{
    match reply {
        None => false,
        Some(sent) => tells_words(sent.act) && matches!(sent.age, Age::Last),
    }
}

/// Whether it has words of this age.
pub(crate) fn has_age(reply: Option<Reply>, age: Age) -> bool
    ensures { result ≡ has_words_so (λ e. number_of_age e == number_of_age age) reply }
{
    match reply {
        None => false,
        Some(sent) => tells_words(sent.act) && sent.age.number() == age.number(),
    }
}

/// The answer of a number.
fn answer_at(number: usize) -> Answer
    ensures { result ≡ answer_at number }
{
    match number {
        0 => Answer::SnpRespI,
        1 => Answer::SnpRespSC,
        2 => Answer::SnpRespUC,
        3 => Answer::SnpRespDataI,
        4 => Answer::SnpRespDataSC,
        5 => Answer::SnpRespDataUC,
        6 => Answer::SnpRespDataUD,
        7 => Answer::SnpRespDataSD,
        8 => Answer::SnpRespDataIPD,
        9 => Answer::SnpRespDataSCPD,
        _ => Answer::SnpRespDataUCPD,
    }
}

/// The number of an answer.
fn answer_number(answer: Answer) -> usize
    ensures { result ≡ number_of (SnpResp answer) }
{
    match answer {
        Answer::SnpRespI => 0,
        Answer::SnpRespSC => 1,
        Answer::SnpRespUC => 2,
        Answer::SnpRespDataI => 3,
        Answer::SnpRespDataSC => 4,
        Answer::SnpRespDataUC => 5,
        Answer::SnpRespDataUD => 6,
        Answer::SnpRespDataSD => 7,
        Answer::SnpRespDataIPD => 8,
        Answer::SnpRespDataSCPD => 9,
        Answer::SnpRespDataUCPD => 10,
    }
}

/// The number of a reply.
pub(crate) fn act_number(act: Act) -> usize
    ensures { result ≡ number_of act }
{
    match act {
        Act::SnpResp(answer) => answer_number(answer),
        Act::NonCopyBackWrData => 11,
        Act::CopyBackWrData(form) => 11 + form_number(form),
        Act::Request(_) | Act::Resend(_) | Act::CompAck | Act::Load(_) | Act::Store(_) => 20,
    }
}

/// The write data of a number.
fn data_at(number: usize) -> Act
    ensures { result ≡ data_at number }
{
    match number {
        0 => Act::NonCopyBackWrData,
        1 => Act::CopyBackWrData(State::I),
        2 => Act::CopyBackWrData(State::SC),
        3 => Act::CopyBackWrData(State::UC),
        5 => Act::CopyBackWrData(State::UD),
        _ => Act::CopyBackWrData(State::SD),
    }
}

/// The number of write data in the form of a state.
fn form_number(form: State) -> usize
    ensures { result ≡ reply_number (CopyBackWrData form) }
{
    match form {
        State::I => 1,
        State::SC => 2,
        State::UC => 3,
        State::UD => 5,
        State::SD => 6,
    }
}

/// The row of a reply that has a number: one for each age.
fn numbered(number: usize, age: Age) -> usize
    requires { number < 11 }
    ensures is { result ≡ 4 * number + number_of_age age }
    ensures low { result < 44 }
{
    4 * number + age.number()
}

/// The row of a reply that isn't awaited.
pub(crate) const NO_ROW: usize = 45;

impl Asked {
    /// The snoop that is to be answered.
    pub(crate) fn snoop(self) -> Option<Snoop>
        ensures { result ≡ snoop_of self }
    {
        match self {
            Asked::AnswerTo(snoop) => Some(snoop),
            Asked::NoReply | Asked::DataOf(_) => None,
        }
    }

    /// The reply of a number.
    pub(crate) fn act_at(self, number: usize) -> Act
        ensures { result ≡ act_at self number }
    {
        match self {
            Asked::DataOf(_) => data_at(number),
            Asked::NoReply | Asked::AnswerTo(_) => Act::SnpResp(answer_at(number)),
        }
    }

    /// What is due as an agent with no request on its way knows it, of which the home knows this.
    pub(crate) fn free_due(self, due: Due, reply: Option<Reply>) -> Due
        ensures { result ≡ free_due due self reply }
    {
        match (due, self, reply) {
            (Due::Nothing, Asked::DataOf(kind), None) => Due::WriteData(kind),
            _ => due,
        }
    }

    /// The row of an answer or of write data with such words.
    fn row_sent(self, sent: Reply) -> usize
        ensures { result ≡ row_of self (Some sent) }
    {
        match (self, sent.act) {
            (Asked::AnswerTo(_), Act::SnpResp(answer)) => numbered(answer_number(answer), sent.age),
            (Asked::DataOf(_), Act::NonCopyBackWrData) => numbered(0, sent.age),
            (Asked::DataOf(_), Act::CopyBackWrData(form)) => numbered(form_number(form), sent.age),
            _ => NO_ROW,
        }
    }

    /// The row of a reply on its way, or of none.
    pub(crate) fn row_of(self, reply: Option<Reply>) -> usize
        ensures { result ≡ row_of self reply }
    {
        match reply {
            None => 44,
            Some(sent) => self.row_sent(sent),
        }
    }

    /// The reply of a row.
    pub(crate) fn reply_at(self, row: usize) -> Option<Reply>
        ensures { result ≡ reply_at self row }
    {
        if row == 44 {
            None
        } else {
            Some(Reply {
                act: self.act_at(row / 4),
                age: Age::at(row % 4),
            })
        }
    }
}
