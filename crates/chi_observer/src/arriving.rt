//! What may still be on its way to the home from one agent, beside what flits have told of it.

ghost use Rattle.std.specs.Prelude.{◌≡◌, ◌<◌, ◌&&◌};
ghost use Rattle.chi_observer.specs.Arriving.{acks_after, asked_after, bearing_of, bearing_on, earlier_after, earlier_answered, earlier_of, fits_crossing, holds_none, is_clean_by, is_unlost, issued_before, later_if, left_by_data, may_be_sent, nobody_arriving, nothing_earlier, own_acknowledged, own_granted, own_holding, own_issued, own_resent, own_told, says_dirty, stays, stays_current, timed_after, turn_due, turn_free, turn_of, was_clean, was_dirty, was_stored, was_unique};
ghost use Rattle.chi_observer.specs.Rules.{answer_drops, is_timed, lets_go};

use crate::flits::{Act, Answer, Due, Grant};
use crate::kinds::{Kind, Snoop};
use crate::observer::AgentSeen;
use crate::rules::{allows, is_due, lets_go, opens_moment, throws};
use crate::told::{Told, answer_tells_dirty, may_be_free, tells_dirty};
use chi_flit::State;

/// A request that came before a flit which its agent sent first, or may have sent first.
/// Source: `docs/OBSERVER.md`, "Seen at the home".
#[derive(Clone, Copy, Debug, PartialEq, Eq)]
pub enum Held {
    /// None.
    Nothing,
    /// One of this kind, which the home hasn't answered.
    Open(Kind),
    /// One that was retried.
    Retried,
    /// An Evict that was completed.
    Evicted,
}

/// From which copies a request may have been sent before the answers that came last.
/// Source: `docs/OBSERVER.md`, "Seen at the home".
#[derive(Clone, Copy, Debug, PartialEq, Eq)]
pub struct Earlier {
    /// From a dirty one.
    pub dirty: bool,
    /// From a unique clean one with data.
    pub unique: bool,
    /// From a clean one, which the request gave up.
    pub clean: bool,
    /// A copy that may have been stored to was thrown away by them.
    pub thrown: bool,
}

/// What is kept of one agent beside what its flits have told.
/// Source: `docs/OBSERVER.md`, "Seen at the home".
#[derive(Clone, Copy, Debug, PartialEq, Eq)]
pub struct Arriving {
    /// How many CompAcks are on their way.
    pub acks: u8,
    /// The request that is held.
    pub held: Held,
    /// From where one may have been sent before the last answers.
    pub earlier: Earlier,
    /// Its copy, which is told to be dirty, may as well be unique and clean, with the home's words.
    pub unsure: bool,
    /// Its write data have the home's words, though a store may have followed them.
    pub current: bool,
    /// Its CleanShared or ReadOnce was held.
    pub delayed: bool,
    /// How many CleanShared and ReadOnce of the line had come when its last answer or write data were asked for.
    pub asked: u32,
    /// How many had come with its own last request.
    pub since: u32,
}

/// When a request that comes is judged.
#[derive(Clone, Copy, Debug, PartialEq, Eq)]
pub(crate) enum Turn {
    /// At once.
    Now,
    /// Once the flit is here that is awaited of its agent.
    Later,
    /// Never: no copy can have sent it.
    Never,
    /// What it was sent from isn't known.
    Unknown,
}

/// What a flit of the home bears on.
#[derive(Clone, Copy, Debug, PartialEq, Eq)]
pub(crate) enum Bearing {
    /// What flits have told.
    Told,
    /// The request that is held: it is retried.
    Retries,
    /// The Evict that is held: it is completed.
    Ends,
    /// The request that is held, behind write data that aren't here.
    Unknown,
}

impl Earlier {
    /// No request can have been sent before.
    pub(crate) fn nothing() -> Earlier
        ensures { result ≡ nothing_earlier }
    {
        Earlier {
            dirty: false,
            unique: false,
            clean: false,
            thrown: false,
        }
    }

    /// Whether a request of the kind may have been sent before.
    pub(crate) fn may_issue(self, kind: Kind) -> bool
        ensures { result ≡ issued_before self kind }
    {
        match kind {
            Kind::WriteBackFull | Kind::WriteCleanFull => self.dirty,
            Kind::WriteEvictFull => self.unique,
            Kind::Evict => self.clean,
            _ => false,
        }
    }

    /// Whether a request of the kind, if it was sent before, tells that what was thrown away hadn't been stored to.
    pub(crate) fn is_unlost(self, kind: Kind) -> bool
        ensures { result ≡ is_unlost self kind }
    {
        self.thrown && !tells_dirty(Act::Request(kind))
    }

    /// The same behind an answer or write data of the agent.
    pub(crate) fn after(self, act: Act, agent: AgentSeen) -> Earlier
        ensures { result ≡ earlier_after act (lets_go agent.snooped) agent.due agent.told self }
    {
        match act {
            Act::SnpResp(answer) => if may_be_free(agent.due) {
                self.answered(answer, throws(act, lets_go(agent.snooped)), agent.told)
            } else {
                Earlier::nothing()
            },
            _ => Earlier::nothing(),
        }
    }

    /// The same behind an answer of an agent with no request open; `goes` says that it throws its copy away.
    fn answered(self, answer: Answer, goes: bool, told: Told) -> Earlier
        ensures { result ≡ earlier_answered answer goes told self }
    {
        let stays = stays(answer, goes, told);
        Earlier {
            dirty: was_dirty(answer, goes, told) || (self.dirty && stays),
            unique: was_unique(answer, told) || (self.unique && stays),
            clean: was_clean(answer, told) || (self.clean && stays),
            thrown: was_stored(goes, told) || (self.thrown && stays),
        }
    }
}

/// Whether the copy may have been dirty before the answer.
fn was_dirty(answer: Answer, goes: bool, told: Told) -> bool
    ensures { result ≡ was_dirty answer goes told }
{
    answer_tells_dirty(answer) || (goes && (told.is_dirty() || told.is_unique()))
}

/// Whether it may have been unique and clean with data.
fn was_unique(answer: Answer, told: Told) -> bool
    ensures { result ≡ was_unique answer told }
{
    told.may_write(State::UC) && !answer_tells_dirty(answer)
}

/// Whether it may have been clean, and given up.
fn was_clean(answer: Answer, told: Told) -> bool
    ensures { result ≡ was_clean answer told }
{
    told.may_issue(Kind::Evict, true) && drops(answer)
}

/// Whether it may have been stored to, and was thrown away.
fn was_stored(goes: bool, told: Told) -> bool
    ensures { result ≡ was_stored goes told }
{
    goes && told.is_unique()
}

/// Whether an answer says that no copy is left, without data.
fn drops(answer: Answer) -> bool
    ensures { result ≡ answer_drops answer }
{
    matches!(answer, Answer::SnpRespI)
}

/// Whether a copy that a request was sent from gives the answer: nothing was stored to it or dropped since.
fn stays(answer: Answer, goes: bool, told: Told) -> bool
    ensures { result ≡ stays answer goes told }
{
    told.may_answer(answer, false) || (goes && told.is_dirty())
}

impl Arriving {
    /// Nothing is on its way.
    pub(crate) fn nothing() -> Arriving
        ensures { result ≡ nobody_arriving }
    {
        Arriving {
            acks: 0,
            held: Held::Nothing,
            earlier: Earlier::nothing(),
            unsure: false,
            current: false,
            delayed: false,
            asked: 0,
            since: 0,
        }
    }

    /// When a request that comes is judged.
    pub(crate) fn turn_of(self, agent: AgentSeen, kind: Kind) -> Turn
        ensures { result ≡ turn_of self agent.due agent.snooped agent.told kind }
    {
        match self.held {
            Held::Open(_) => Turn::Never,
            Held::Retried => Turn::Unknown,
            Held::Evicted => Turn::Unknown,
            Held::Nothing => self.turn_due(agent, kind),
        }
    }

    /// The same where no request is held.
    fn turn_due(self, agent: AgentSeen, kind: Kind) -> Turn
        ensures { result ≡ turn_due self agent.due agent.snooped agent.told kind }
    {
        match agent.due {
            Due::WriteData(asked) => later_if(left_by_data(asked, agent.told).may_issue(
                kind, true,
            )),
            Due::Nothing => self.turn_free(agent, kind),
            Due::Resending(_) => self.turn_free(agent, kind),
            Due::Completion(_) => Turn::Never,
            Due::SureCompletion(_) => Turn::Never,
            Due::Acknowledgement => Turn::Never,
        }
    }

    /// The same where none is open, or one that was retried.
    fn turn_free(self, agent: AgentSeen, kind: Kind) -> Turn
        ensures { result ≡ turn_free self agent.snooped agent.told kind }
    {
        if self.unsure {
            return Turn::Unknown;
        }
        match agent.snooped {
            None => Turn::Now,
            Some(snoop) => {
                later_if(self.earlier.may_issue(kind) || may_cross(snoop, kind, agent.told))
            }
        }
    }

    /// What a flit of the home to the agent bears on.
    pub(crate) fn bearing_of(self, agent: AgentSeen, grant: Grant) -> Bearing
        ensures { result ≡ bearing_of self.held agent.snooped grant }
    {
        match self.held {
            Held::Open(kind) => match grant {
                Grant::RetryAck => Bearing::Retries,
                Grant::Snp(_) => Bearing::Told,
                _ => bearing_on(kind, agent.snooped, grant),
            },
            Held::Nothing => Bearing::Told,
            Held::Retried => Bearing::Told,
            Held::Evicted => Bearing::Told,
        }
    }

    /// What is kept where a request is held.
    pub(crate) fn holding(self, held: Held) -> Arriving
        ensures { result ≡ own_holding self held }
    {
        Arriving { held, ..self }
    }

    /// Whether no request is held.
    pub(crate) fn holds_none(self) -> bool
        ensures { result ≡ holds_none self.held }
    {
        matches!(self.held, Held::Nothing)
    }

    /// What is kept behind a request that is sent again.
    pub(crate) fn resent(self) -> Arriving
        ensures { result ≡ own_resent self }
    {
        Arriving {
            earlier: Earlier::nothing(),
            ..self
        }
    }

    /// What is kept behind a CompAck.
    pub(crate) fn acknowledged(self) -> Arriving
        requires { 0 < self.acks }
        ensures { result ≡ own_acknowledged self }
    {
        Arriving {
            acks: self.acks - 1,
            ..self
        }
    }

    /// Whether an answer or write data tell that the copy is clean, which may be dirty or not.
    pub(crate) fn is_clean_by(self, act: Act, snooped: Option<Snoop>) -> bool
        ensures { result ≡ is_clean_by self act (lets_go snooped) }
    {
        self.unsure && !says_dirty(act, snooped)
    }

    /// From where a request may have been sent before the answer or write data that are here: an unsure copy that they
    /// throw away may have been unique and clean.
    pub(crate) fn earlier_of(self, act: Act, snooped: Option<Snoop>) -> Earlier
        ensures { result ≡ earlier_of self act (lets_go snooped) }
    {
        if self.unsure && throws(act, lets_go(snooped)) {
            return Earlier {
                unique: true,
                clean: true,
                ..self.earlier
            };
        }
        self.earlier
    }

    /// What is kept behind a request that is judged.
    pub(crate) fn issued(self, timed: u32, unsure: bool, delayed: bool) -> Arriving
        ensures { result ≡ own_issued self timed unsure delayed }
    {
        Arriving {
            acks: self.acks,
            held: Held::Nothing,
            earlier: Earlier::nothing(),
            unsure,
            current: false,
            delayed,
            asked: self.asked,
            since: timed,
        }
    }

    /// What is kept behind an answer or write data for which no request was held.
    pub(crate) fn told(self, earlier: Earlier) -> Arriving
        ensures { result ≡ own_told self earlier }
    {
        Arriving {
            acks: self.acks,
            held: Held::Nothing,
            earlier,
            unsure: false,
            current: false,
            delayed: self.delayed,
            asked: self.asked,
            since: self.since,
        }
    }

    /// What is kept behind a flit of the home that leaves the agent so; `current` says that the value last stored was the
    /// home's.
    pub(crate) fn granted(
        self,
        agent: AgentSeen,
        grant: Grant,
        timed: u32,
        current: bool,
    ) -> Arriving
        requires { self.acks < 255 }
        ensures { result ≡ own_granted self agent.due agent.told grant timed current }
    {
        Arriving {
            acks: acks_after(self.acks, agent.due),
            held: self.held,
            earlier: self.earlier,
            unsure: self.unsure,
            current: stays_current(self.current, agent, grant, current),
            delayed: self.delayed,
            asked: asked_after(self.asked, grant, timed),
            since: self.since,
        }
    }
}

/// What a completion bears on of an agent whose request of the kind is held.
fn bearing_on(kind: Kind, snooped: Option<Snoop>, grant: Grant) -> Bearing
    ensures { result ≡ bearing_on kind snooped grant }
{
    if !is_due(grant, Due::Completion(kind), snooped) {
        return Bearing::Told;
    }
    match snooped {
        None => Bearing::Unknown,
        Some(_) => Bearing::Ends,
    }
}

/// How many CompAcks are on their way behind a flit of the home.
fn acks_after(acks: u8, due: Due) -> u8
    requires { acks < 255 }
    ensures { result ≡ acks_after acks due }
{
    match due {
        Due::Acknowledgement => acks + 1,
        _ => acks,
    }
}

/// How many CleanShared and ReadOnce had come when the home asked last for an answer or write data.
fn asked_after(asked: u32, grant: Grant, timed: u32) -> u32
    ensures { result ≡ asked_after asked grant timed }
{
    match grant {
        Grant::Snp(_) => timed,
        Grant::CompDBIDResp => timed,
        _ => asked,
    }
}

/// Whether the write data that a flit of the home asks for have the home's words.
fn stays_current(was: bool, agent: AgentSeen, grant: Grant, current: bool) -> bool
    ensures { result ≡ stays_current was agent.due agent.told grant current }
{
    was || (may_be_sent(agent.due, agent.told, grant) && current)
}

/// Whether write data may have been sent right behind a flit of the home that asks for them, and a new value with them or
/// soon after.
pub(crate) fn may_be_sent(due: Due, told: Told, grant: Grant) -> bool
    ensures { result ≡ may_be_sent due told grant }
{
    match (grant, due) {
        (Grant::CompDBIDResp, Due::WriteData(Kind::WriteUniqueFull)) => true,
        (Grant::CompDBIDResp, Due::WriteData(Kind::WriteCleanFull)) => told.is_unique(),
        _ => false,
    }
}

/// How many CleanShared and ReadOnce have come behind a request of the kind.
pub(crate) fn timed_after(timed: u32, kind: Kind) -> u32
    requires { timed < 4294967295 }
    ensures { result ≡ timed_after timed kind }
{
    if is_timed(kind) { timed + 1 } else { timed }
}

/// Whether the kind's completion needs a moment.
pub(crate) fn is_timed(kind: Kind) -> bool
    ensures { result ≡ is_timed kind }
{
    opens_moment(Act::Request(kind))
}

/// A request that may have been sent is held.
fn later_if(may: bool) -> Turn
    ensures { result ≡ later_if may }
{
    if may { Turn::Later } else { Turn::Never }
}

/// Whether a request of the kind may come from what the copy may be, or from what an answer to the snoop may leave of a
/// dirty one.
fn may_cross(snoop: Snoop, kind: Kind, told: Told) -> bool
    ensures { result ≡ fits_crossing snoop kind told }
{
    let shared = allows(Act::SnpResp(Answer::SnpRespDataSCPD), Some(snoop));
    let clean = allows(Act::SnpResp(Answer::SnpRespDataUCPD), Some(snoop));
    told.may_issue(kind, true)
        || ((told.is_unique() || told.is_dirty()) && Told::I.may_issue(kind, true))
        || ((told.is_unique() || told.is_dirty()) && shared && Told::SC.may_issue(kind, true))
        || (told.is_unique() && clean && Told::UC.may_issue(kind, true))
}

/// What the write data of a request leave of the copy at most.
pub(crate) fn left_by_data(kind: Kind, told: Told) -> Told
    ensures { result ≡ left_by_data kind told }
{
    match (kind, told) {
        (Kind::WriteCleanFull, Told::UD) => Told::UC,
        (Kind::WriteCleanFull, Told::SD) => Told::SC,
        (Kind::WriteCleanFull, _) => told,
        _ => Told::I,
    }
}

/// Whether an answer or write data are those of a dirty copy.
fn says_dirty(act: Act, snooped: Option<Snoop>) -> bool
    ensures { result ≡ says_dirty act (lets_go snooped) }
{
    match act {
        Act::SnpResp(answer) => answer_tells_dirty(answer) || throws(act, lets_go(snooped)),
        Act::CopyBackWrData(form) => matches!(form, State::UD | State::SD),
        _ => true,
    }
}
