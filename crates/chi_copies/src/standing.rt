//! What the home knows of an agent, and what the agent may be.

ghost use Rattle.std.specs.Prelude.{◌≡◌, ◌<◌, ◌&&◌, IfSome, false, is_some, true};
ghost use Rattle.chi_copies.specs.Arriving.{Member, any_member, any_of, came, due_then, led, loose, may_come, same_member};
ghost use Rattle.chi_observer.specs.declared.flits.Due.TheVariants.{Nothing};
ghost use Rattle.chi_copies.specs.declared.replies.Asked.TheVariants.{NoReply};
ghost use Rattle.chi_copies.specs.Copies.{Held as HeldOf};
ghost use Rattle.chi_copies.specs.Sets.{members};
ghost use Rattle.chi_copies.specs.ArrivingLines.{Acknowledged, Answered, Beheld, Forgot, Gained, Requested, Settles, ages_of, brought, copies_of, due_of, is_asking, is_data_due, may_of, member_passes, nobody, nothing_sent, words_at};

use crate::copies::Copies;
use crate::dues::{DueCode, NOTHING_DUE};
use crate::members::Members;
use crate::moves::Move;
use crate::received::{Ages, Coming};
use crate::replies::{Age, Asked};
use crate::rules::{due_after, same_kind, tells_words};
use crate::side_tests::ReplyTest;
use crate::tests::Test;
use chi_observer::{Act, Due, Grant};

/// What the home knows of an agent.
/// Source: `docs/COPIES.md`, "Seen at the home".
#[derive(Clone, Copy, Debug, PartialEq, Eq)]
pub struct Facts {
    /// What is due of its request, which the home has. The home knows of no write data and no CompAck that are due: of
    /// these bytes nothing is.
    pub due: DueCode,
    /// The reply that the home awaits of it.
    pub asked: Asked,
    /// CompAcks of its that are on their way.
    pub acks: u64,
    /// Write data of its on their way that a later completion has overtaken.
    pub overtaken: u64,
}

/// What the home knows of an agent, and what it may be. 1,656 bytes.
/// Source: `docs/COPIES.md`, "Seen at the home".
#[derive(Clone, Copy, Debug, PartialEq, Eq)]
pub struct Standing {
    /// What the home knows.
    pub facts: Facts,
    /// What it may be, with what it has sent.
    pub members: Members,
}

/// What is due of a request that the home has.
fn due_then(due: Due) -> Due
    ensures is { result ≡ due_then due }
    ensures known { is_data_due result ≡ false }
{
    match due {
        Due::WriteData(_) | Due::Acknowledgement => Due::Nothing,
        Due::Nothing | Due::Completion(_) | Due::Resending(_) | Due::SureCompletion(_) => due,
    }
}

/// Whether such a request may come while this is due.
fn may_come(act: Act, due: Due) -> bool
    ensures { result ≡ may_come act due }
{
    match (act, due) {
        (Act::Resend(kind), Due::Resending(asked)) => same_kind(kind, asked),
        (Act::Request(_), Due::Nothing | Due::Resending(_)) => true,
        _ => false,
    }
}

impl Facts {
    /// What is due of an agent's request.
    pub(crate) fn due(self) -> Due
        ensures is { result ≡ due_of self }
        ensures known { is_data_due result ≡ false }
    {
        due_then(self.due.due())
    }
}

impl Standing {
    /// The standing of an agent of whom nothing was told.
    pub(crate) fn first() -> Standing
        ensures facts { result.facts ≡ nobody.facts }
        ensures may { (m : Member) → may_of result m ≡ loose Nothing NoReply (same_member nothing_sent) m }
    {
        Standing {
            facts: Facts {
                due: NOTHING_DUE,
                asked: Asked::NoReply,
                acks: 0,
                overtaken: 0,
            },
            members: Members::first(),
        }
    }

    /// What unseen steps make of an agent.
    pub(crate) fn settled(&self) -> Standing
        ensures { Settles self.now result }
    {
        let due = self.facts.due();
        let members = self.members.loose(due, self.facts.asked);
        Standing {
            facts: self.facts,
            members,
        }
    }

    /// What a step makes of an agent, unless it is the agent's own.
    pub(crate) fn beheld(&self, own: bool, step: Move) -> Standing
        ensures { Beheld own step self.now result }
    {
        if own {
            return *self;
        }
        let members = self.members.image(step, self.facts.asked);
        Standing {
            facts: self.facts,
            members,
        }
    }

    /// Whether some member is so.
    pub(crate) fn any(&self, test: ReplyTest, of: Copies) -> bool
        ensures { result ≡ any_of (may_of self.now) (member_passes test of) }
    {
        let due = self.facts.due();
        self.members.any(due, self.facts.asked, test, of)
    }

    /// The copies of all members.
    pub(crate) fn copies(&self) -> Copies
        ensures { (h : HeldOf) → members result h ≡ copies_of (may_of self.now) h }
    {
        let due = self.facts.due();
        self.members.copies(due, self.facts.asked)
    }

    /// Behind a request that comes, if it may.
    pub(crate) fn requested(&self, act: Act) -> Option<Standing>
        requires { is_asking act ≡ true }
        ensures taken { is_some result ≡ (may_come act (due_of self.now.facts) && any_member (led (came act) (may_of self.now))) }
        ensures after { IfSome result (λ next. Requested act self.now next) }
    {
        let due = self.facts.due();
        if !may_come(act, due) {
            return None;
        }
        let behind = due_after(act, due);
        let members = self.members.came(due, act);
        if !members.is_some(behind, self.facts.asked) {
            return None;
        }
        Some(Standing {
            facts: Facts {
                due: DueCode::encode(behind),
                ..self.facts
            },
            members,
        })
    }

    /// Behind a reply that comes, if it may.
    pub(crate) fn answered(&self, coming: Coming) -> Option<Standing>
        ensures taken { is_some result ≡ any_member (brought coming self.now) }
        ensures after { IfSome result (λ next. Answered coming self.now next) }
    {
        let due = self.facts.due();
        let members = self.members.image(Move::Brings(coming), self.facts.asked);
        if !members.is_some(due, self.facts.asked) {
            return None;
        }
        Some(Standing {
            facts: Facts {
                asked: Asked::NoReply,
                ..self.facts
            },
            members: members.at_rest(),
        })
    }

    /// Whether the reply may bring words of the age.
    fn may_bring(&self, coming: Coming, age: Age) -> bool
        ensures { result ≡ words_at coming age (may_of self.now) }
    {
        self.any(ReplyTest::Words(coming, age), Test::Each.copies())
    }

    /// Of which ages the words of the reply may be.
    pub(crate) fn ages(&self, coming: Coming) -> Ages
        ensures { result ≡ ages_of coming (may_of self.now) }
    {
        if !tells_words(coming.act) {
            return Ages {
                own: true,
                last: false,
                past: false,
                older: false,
            };
        }
        Ages {
            own: self.may_bring(coming, Age::Own),
            last: self.may_bring(coming, Age::Last),
            past: self.may_bring(coming, Age::Past),
            older: self.may_bring(coming, Age::Older),
        }
    }

    /// Behind a CompAck that comes.
    pub(crate) fn acknowledged(&self) -> Standing
        requires { 0 < self.now.facts.acks }
        ensures { Acknowledged self.now result }
    {
        Standing {
            facts: Facts {
                acks: self.facts.acks - 1,
                ..self.facts
            },
            members: self.members,
        }
    }

    /// Behind write data that a later completion has overtaken.
    pub(crate) fn forgot(&self) -> Standing
        requires { 0 < self.now.facts.overtaken }
        ensures { Forgot self.now result }
    {
        Standing {
            facts: Facts {
                overtaken: self.facts.overtaken - 1,
                ..self.facts
            },
            members: self.members.image(Move::ForgetsOwn, self.facts.asked),
        }
    }

    /// The agent behind a flit of the home to it, before what is kept of it changes.
    pub(crate) fn gained(&self, grant: Grant) -> Standing
        ensures { Gained grant self.now result }
    {
        let due = self.facts.due();
        let members = self
            .members
            .image(Move::Gains(grant, due), self.facts.asked);
        Standing {
            facts: self.facts,
            members,
        }
    }
}
