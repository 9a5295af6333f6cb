//! An observer of a line whose trace begins in the middle: of each agent's copy, and of its request and its snoop from
//! before, what isn't known hinders no flit, until flits tell it.

ghost use Rattle.std.specs.Prelude.{◌≡◌, ◌<◌, ◌&&◌, ◌||◌, ℕ, IfErr, None, OnErr, OnOk, Some, false, if◌then◌else◌, is_ok, not, true};
ghost use Rattle.chi_observer.specs.Copies.{is_unique};
ghost use Rattle.chi_observer.specs.Tables.{strongest, told_as};
ghost use Rattle.chi_observer.specs.Lines.{is_reason, is_taken, watch, watched, stands_beside};
ghost use Rattle.chi_observer.specs.Begun.{act_due, act_tells, agent_in, agent_kept, agent_supposed, alone, answerer, begun, begun_after, blurs, certain_of, certainty_given, certainty_sent, ends_others, forgetting, forgotten, given, is_begun_reason, is_left_over, is_told, issuer, kept_by, kept_in, kind_tells, leaves_alone, left_over, mark_behind, mark_of, mark_told, marks_beside, may_tell_stored, nothing_begun, reads_unique, receiver, sender, shows_older, stands, supposed_at, supposed_due, supposed_in, supposed_of, supposed_told, takes_begun, unique_behind, words_behind};

use crate::flits::{Act, Answer, Due, Flit, Grant, Stores};
use crate::kinds::{Kind, Snoop};
use crate::observer::{AgentSeen, Observer, Reason, stands_beside};
use crate::rules::{
    is_due, is_upgraded, is_written_whole, lets_go, looks, makes, needs_alone, settles, throws,
};
use crate::told::{Told, tells_dirty};
use chi_flit::{Agent, Data, State};

/// How much is known of an agent's copy.
/// Source: `docs/OBSERVER.md`, "A trace that begins in the middle".
#[derive(Clone, Copy, Debug, PartialEq, Eq)]
pub enum Certainty {
    /// It is as it is told.
    Told,
    /// It is unique: clean or dirty, with data or without.
    Unique,
    /// It may be any that goes with the others.
    Unknown,
}

/// What of one agent may be from before the trace's first flit.
/// Source: `docs/OBSERVER.md`, "A trace that begins in the middle".
#[derive(Clone, Copy, Debug, PartialEq, Eq)]
pub struct AgentBegun {
    /// How much is known of its copy.
    pub copy: Certainty,
    /// A flit may be due of a request from before.
    pub asked: bool,
    /// A snoop from before may not be answered.
    pub snooped: bool,
}

/// What flits have told of one line, where some went before that nobody saw. Of an agent whose copy isn't known the
/// observer is told I, which goes with every copy; and while a flit may be due of its request from before, that it has
/// a MakeInvalid open, which hinders nothing.
/// Source: `docs/OBSERVER.md`, "A trace that begins in the middle".
#[derive(Clone, Debug, Drop, PartialEq, Eq)]
pub struct Begun {
    /// What flits have told.
    pub observer: Observer,
    /// What of each agent may be from before.
    pub agents: [AgentBegun; 32],
}

/// What stands for a flit that may be due of a request from before: it hinders nothing.
const LEFT_OVER: Due = Due::Completion(Kind::MakeInvalid);

impl Begun {
    /// A line of which nothing is known: each copy, request, snoop and word may be any.
    /// Source: `docs/OBSERVER.md`, "A trace that begins in the middle".
    pub fn new(stores: Stores) -> Begun
        ensures { begun result ≡ nothing_begun stores }
    {
        let nobody = AgentSeen {
            told: Told::I,
            cancelled: false,
            due: LEFT_OVER,
            snooped: None,
        };
        let unknown = AgentBegun {
            copy: Certainty::Unknown,
            asked: true,
            snooped: true,
        };
        Begun {
            observer: Observer {
                stores,
                agents: [nobody; 32],
                home: None,
                current: true,
                duty: true,
                thrown: false,
                waits: true,
                shown: [true; 32],
            },
            agents: [unknown; 32],
        }
    }

    /// A flit of the agent, or to it, that is due of a request or a snoop from before may have been of this line: its
    /// copy, the words and the moments are unknown again.
    /// Source: `docs/OBSERVER.md`, "A trace that begins in the middle".
    pub fn forget(&mut self, agent: Agent)
        ensures { begun self.new ≡ forgetting agent.0 (begun self.old) }
    {
        if agent.0 >= 32 {
            return;
        }
        let at = usize::from(agent.0);
        if self.agents[at].may_be_left_over() {
            self.forget_at(at);
        }
    }

    /// The same of an agent of whom a flit may be due from before.
    fn forget_at(&mut self, at: usize)
        requires { at < 32 }
        ensures { begun self.new ≡ forgotten at (begun self.old) }
    {
        self.agents[at] = AgentBegun {
            copy: Certainty::Unknown,
            ..self.agents[at]
        };
        self.observer.agents[at] = AgentSeen {
            told: Told::I,
            ..self.observer.agents[at]
        };
        self.observer.home = None;
        self.observer.current = true;
        self.observer.duty = true;
        self.observer.waits = true;
        self.observer.shown = [true; 32];
    }

    /// Takes the next flit of the line. `Ok` exactly where the rules take it from something that the line may be. Else
    /// the first rule that it breaks, and nothing changes.
    /// Source: `docs/OBSERVER.md`, "A trace that begins in the middle".
    pub fn take(&mut self, flit: Flit) -> Result<(), Reason>
        ensures taken { is_ok result ≡ takes_begun (begun self.old) flit }
        ensures after { OnOk result (begun self.new ≡ begun_after (begun self.old) flit) }
        ensures kept { OnErr result (self.new ≡ self.old) }
        ensures reason { IfErr result
            (λ reason. is_begun_reason (begun self.old) flit reason ≡ true) }
    {
        let at = usize::from(agent_of(flit).0);
        if at >= 32 {
            return Err(Reason::NoAgent);
        }
        self.take_at(flit, at)
    }

    /// The same of a flit of this agent, or to it.
    fn take_at(&mut self, flit: Flit, at: usize) -> Result<(), Reason>
        requires low { at < 32 }
        requires own { at ≡ agent_in flit }
        ensures taken { is_ok result ≡ takes_begun (begun self.old) flit }
        ensures after { OnOk result (begun self.new ≡ begun_after (begun self.old) flit) }
        ensures kept { OnErr result (self.new ≡ self.old) }
        ensures reason { IfErr result
            (λ reason. is_begun_reason (begun self.old) flit reason ≡ true) }
    {
        if self.agents[at].is_left_over(flit) {
            self.forget_at(at);
            return Ok(());
        }
        if !self.stands(flit, at) {
            return Err(Reason::OtherCopy);
        }
        self.take_supposed(flit, at)
    }

    /// Whether the copy that the agent may send the flit from goes with what is told of the others.
    fn stands(&self, flit: Flit, at: usize) -> bool
        requires low { at < 32 }
        requires own { at ≡ agent_in flit }
        ensures { result ≡ stands (begun self.now) flit }
    {
        match flit {
            Flit::Up(sent) => {
                self.agents[at].copy.is_told()
                    || stands_beside(
                        &self.observer.agents,
                        sent.agent.0,
                        supposed_sender(sent.act),
                        false,
                    )
            }
            Flit::Down(_) => true,
        }
    }

    /// The observer, told what the agent may be that the flit is of or to.
    fn supposed(&self, flit: Flit, at: usize) -> Observer
        requires { at < 32 }
        ensures { watched result
            ≡ supposed_at at (mark_of self.now.agents at) flit (watched self.now.observer) }
    {
        let mark = self.agents[at];
        let seen = self.observer.agents[at];
        let mut agents = self.observer.agents;
        let mut shown = self.observer.shown;
        agents[at] = mark.supposed(seen, flit);
        shown[at] = is_either(shown[at], mark.asked);
        Observer {
            stores: self.observer.stores,
            agents,
            home: words_unless(mark.blurs(flit, seen.snooped), self.observer.home),
            current: self.observer.current,
            duty: self.observer.duty,
            thrown: self.observer.thrown,
            waits: self.observer.waits,
            shown,
        }
    }

    /// Takes a flit that nothing from before explains.
    fn take_supposed(&mut self, flit: Flit, at: usize) -> Result<(), Reason>
        requires { at < 32 }
        ensures taken { is_ok result ≡ is_taken (supposed_in at (begun self.old) flit) flit }
        ensures after { OnOk result (begun self.new ≡ kept_in at (begun self.old) flit) }
        ensures kept { OnErr result (self.new ≡ self.old) }
        ensures reason { IfErr result
            (λ reason. is_reason (supposed_in at (begun self.old) flit) flit reason ≡ true) }
    {
        let mut next = self.supposed(flit, at);
        next.take(flit)?;
        self.settle(next, flit, at);
        Ok(())
    }

    /// Keeps what the observer is behind a flit that it took as it was supposed to be.
    fn settle(&mut self, next: Observer, flit: Flit, at: usize)
        requires { at < 32 }
        ensures { begun self.new ≡ kept_by at (begun self.old) flit (watched next) }
    {
        let mut next = next;
        let mark = self.agents[at];
        let old = self.observer.agents[at];
        let new = next.agents[at];
        let behind = mark.behind(flit, old.due);
        next.agents[at] = behind.settled(new);
        next.home = words_behind(flit, self.observer.home, next.home);
        next.current = is_either(next.current, mark.blurs(flit, old.snooped));
        self.agents = beside(leaves_alone(flit, old.due, new.told), &self.agents);
        self.agents[at] = behind;
        self.observer = next;
    }
}

impl Certainty {
    /// Whether the copy is as it is told.
    fn is_told(self) -> bool
        ensures { result ≡ is_told self }
    {
        matches!(self, Certainty::Told)
    }

    /// What a copy may be that was told so, where one that isn't known may be the other.
    fn supposed(self, told: Told, other: Told) -> Told
        ensures { result ≡ supposed_of self told other }
    {
        match self {
            Certainty::Told => told,
            Certainty::Unique => alone(other),
            Certainty::Unknown => other,
        }
    }

    /// How much is known behind a flit of its cache.
    fn sent(self, act: Act) -> Certainty
        ensures { result ≡ certainty_sent self act }
    {
        match self {
            Certainty::Told => Certainty::Told,
            Certainty::Unique => unique_behind(act),
            Certainty::Unknown => if tells(act) {
                Certainty::Told
            } else {
                Certainty::Unknown
            },
        }
    }

    /// How much is known behind a flit of the home.
    fn granted(self, grant: Grant, due: Due) -> Certainty
        ensures { result ≡ certainty_given self grant due }
    {
        match self {
            Certainty::Told => Certainty::Told,
            Certainty::Unique => Certainty::Unique,
            Certainty::Unknown => given(grant, due),
        }
    }
}

impl AgentBegun {
    /// Whether a flit may be due of a request or a snoop from before.
    fn may_be_left_over(self) -> bool
        ensures { result ≡ (self.asked || self.snooped) }
    {
        self.asked || self.snooped
    }

    /// Whether the flit may be due of a request or a snoop from before.
    fn is_left_over(self, flit: Flit) -> bool
        ensures { result ≡ is_left_over self flit }
    {
        match flit {
            Flit::Up(sent) => match sent.act {
                Act::CompAck | Act::CopyBackWrData(_) | Act::NonCopyBackWrData => self.asked,
                Act::SnpResp(_) => self.snooped,
                Act::Request(_) | Act::Resend(_) | Act::Load(_) | Act::Store(_) => false,
            },
            Flit::Down(given) => self.asked && !matches!(given.grant, Grant::Snp(_)),
        }
    }

    /// What the agent may be that the flit is of or to.
    fn supposed(self, seen: AgentSeen, flit: Flit) -> AgentSeen
        ensures { result ≡ agent_supposed self flit seen }
    {
        let told = self.copy.supposed(seen.told, supposed_told(flit, seen.due));
        let due = if self.asked {
            supposed_due(flit)
        } else {
            seen.due
        };
        AgentSeen { told, due, ..seen }
    }

    /// Whether the flit leaves open whether there was a store that nobody saw; `snooped` is the snoop that isn't
    /// answered.
    fn blurs(self, flit: Flit, snooped: Option<Snoop>) -> bool
        ensures { result ≡ blurs self flit snooped }
    {
        match flit {
            Flit::Up(sent) => {
                (self.asked || !self.copy.is_told()) && may_tell_stored(sent.act, lets_go(snooped))
            }
            Flit::Down(_) => false,
        }
    }

    /// What may be from before behind the flit.
    fn behind(self, flit: Flit, due: Due) -> AgentBegun
        ensures { result ≡ mark_behind self flit due }
    {
        match flit {
            Flit::Up(sent) => AgentBegun {
                copy: self.copy.sent(sent.act),
                asked: self.asked && !matches!(sent.act, Act::Request(_) | Act::Resend(_)),
                snooped: self.snooped,
            },
            Flit::Down(given) => AgentBegun {
                copy: self.copy.granted(given.grant, due),
                asked: self.asked,
                snooped: self.snooped && is_due(given.grant, due, Some(Snoop::SnpOnce)),
            },
        }
    }

    /// What is kept of an agent that the rules leave so.
    fn settled(self, seen: AgentSeen) -> AgentSeen
        ensures { result ≡ agent_kept self seen }
    {
        let told = match self.copy {
            Certainty::Told => seen.told,
            Certainty::Unique => Told::UCOrUCE,
            Certainty::Unknown => Told::I,
        };
        let due = if self.asked { LEFT_OVER } else { seen.due };
        AgentSeen { told, due, ..seen }
    }
}

/// Whether one of both holds.
fn is_either(one: bool, other: bool) -> bool
    ensures { result ≡ (one || other) }
{
    one || other
}

/// The words that are known, unless the flit leaves them open.
fn words_unless(blurred: bool, known: Option<Data>) -> Option<Data>
    ensures { result ≡ (if blurred then None else known) }
{
    if blurred { None } else { known }
}

/// The agent of a flit.
fn agent_of(flit: Flit) -> Agent
    ensures { result.0 ≡ agent_in flit }
{
    match flit {
        Flit::Up(sent) => sent.agent,
        Flit::Down(given) => given.agent,
    }
}

/// A copy from which the kind may be issued, of those that go with the most.
fn supposed_issuer(kind: Kind) -> Told
    ensures { result ≡ issuer kind }
{
    match kind {
        Kind::WriteBackFull | Kind::WriteCleanFull => Told::SD,
        Kind::WriteEvictFull => Told::UC,
        Kind::Evict => Told::SC,
        Kind::ReadNotSharedDirty
        | Kind::ReadShared
        | Kind::ReadClean
        | Kind::ReadOnce
        | Kind::ReadUnique
        | Kind::CleanUnique
        | Kind::MakeUnique
        | Kind::CleanShared
        | Kind::CleanInvalid
        | Kind::MakeInvalid
        | Kind::WriteUniqueFull => Told::I,
    }
}

/// The same of an answer.
fn supposed_answerer(answer: Answer) -> Told
    ensures { result ≡ answerer answer }
{
    match answer {
        Answer::SnpRespI => Told::I,
        Answer::SnpRespSC | Answer::SnpRespDataI | Answer::SnpRespDataSC => Told::SC,
        Answer::SnpRespUC => Told::UCOrUCE,
        Answer::SnpRespDataUC => Told::UC,
        Answer::SnpRespDataUD | Answer::SnpRespDataUCPD => Told::UD,
        Answer::SnpRespDataSD | Answer::SnpRespDataIPD | Answer::SnpRespDataSCPD => Told::SD,
    }
}

/// The same of write data of the form.
fn supposed_writer(form: State) -> Told
    ensures { result ≡ told_as form }
{
    match form {
        State::I => Told::I,
        State::SC => Told::SC,
        State::UC => Told::UC,
        State::UD => Told::UD,
        State::SD => Told::SD,
    }
}

/// The same of a flit of a cache.
fn supposed_sender(act: Act) -> Told
    ensures { result ≡ sender act }
{
    match act {
        Act::Request(kind) => supposed_issuer(kind),
        Act::SnpResp(answer) => supposed_answerer(answer),
        Act::CopyBackWrData(form) => supposed_writer(form),
        Act::NonCopyBackWrData => Told::Writing,
        Act::Load(_) => Told::SC,
        Act::Store(_) => Told::UD,
        Act::Resend(_) | Act::CompAck => Told::I,
    }
}

/// Whether the completion of a ReadUnique is due.
fn reads_unique(due: Due) -> bool
    ensures { result ≡ reads_unique due }
{
    matches!(
        due,
        Due::Completion(Kind::ReadUnique) | Due::SureCompletion(Kind::ReadUnique)
    )
}

/// A copy to which the home may send the flit: a dirty one where it may be, which keeps its own words.
fn supposed_receiver(grant: Grant, due: Due) -> Told
    ensures { result ≡ receiver grant due }
{
    match grant {
        Grant::CompData(_) => if reads_unique(due) { Told::SD } else { Told::I },
        Grant::RetryAck
        | Grant::Snp(_)
        | Grant::CompUC
        | Grant::CompSC
        | Grant::CompI
        | Grant::CompDBIDResp => Told::I,
    }
}

/// What a unique copy may be in place of this one.
fn alone(told: Told) -> Told
    ensures { result ≡ alone told }
{
    match told {
        Told::SD => Told::UD,
        Told::I
        | Told::SC
        | Told::SCOrI
        | Told::UC
        | Told::UCOrI
        | Told::UCE
        | Told::UCEOrI
        | Told::UCOrUCE
        | Told::UD
        | Told::Writing => told,
    }
}

/// What a copy that isn't known may be, that the flit is of or to.
fn supposed_told(flit: Flit, due: Due) -> Told
    ensures { result ≡ supposed_told flit due }
{
    match flit {
        Flit::Up(sent) => supposed_sender(sent.act),
        Flit::Down(given) => supposed_receiver(given.grant, due),
    }
}

/// What may be due where the flit is sent, of a request from before.
fn supposed_due(flit: Flit) -> Due
    ensures { result ≡ supposed_due flit }
{
    match flit {
        Flit::Up(sent) => match sent.act {
            Act::Resend(kind) => Due::Resending(kind),
            Act::SnpResp(_) => if tells_dirty(sent.act) {
                Due::Nothing
            } else {
                LEFT_OVER
            },
            Act::Request(_)
            | Act::CompAck
            | Act::CopyBackWrData(_)
            | Act::NonCopyBackWrData
            | Act::Load(_)
            | Act::Store(_) => Due::Nothing,
        },
        Flit::Down(_) => LEFT_OVER,
    }
}

/// Whether the flit has words that may be older than the value: those that complete a ReadOnce tell nothing of it.
fn shows_older(flit: Flit) -> bool
    ensures { result ≡ shows_older flit }
{
    match flit {
        Flit::Up(_) => false,
        Flit::Down(given) => matches!(given.grant, Grant::CompData(State::I)),
    }
}

/// The words that are known behind the flit.
fn words_behind(flit: Flit, before: Option<Data>, after: Option<Data>) -> Option<Data>
    ensures { result ≡ words_behind flit before after }
{
    if shows_older(flit) { before } else { after }
}

/// Whether some copy sends the flit that may have been stored to since.
fn may_tell_stored(act: Act, goes: bool) -> bool
    ensures { result ≡ may_tell_stored act goes }
{
    tells_dirty(act) || (throws(act, goes) || looks(act))
}

/// Whether a request of the kind leaves one copy, whatever it was.
fn kind_tells(kind: Kind) -> bool
    ensures { result ≡ kind_tells kind }
{
    matches!(
        kind,
        Kind::ReadOnce
            | Kind::CleanInvalid
            | Kind::MakeInvalid
            | Kind::Evict
            | Kind::WriteEvictFull
            | Kind::WriteUniqueFull
    )
}

/// Whether a flit of a cache leaves one copy, whatever it was.
fn tells(act: Act) -> bool
    ensures { result ≡ act_tells act }
{
    match act {
        Act::Request(kind) => kind_tells(kind),
        Act::SnpResp(answer) => !matches!(answer, Answer::SnpRespUC),
        Act::CopyBackWrData(_) | Act::NonCopyBackWrData | Act::Store(_) => true,
        Act::Resend(_) | Act::CompAck | Act::Load(_) => false,
    }
}

/// How much is known behind a flit of a cache whose copy is unique.
fn unique_behind(act: Act) -> Certainty
    ensures { result ≡ unique_behind act }
{
    if tells(act) || tells_dirty(act) {
        return Certainty::Told;
    }
    match act {
        Act::Request(_) => Certainty::Unknown,
        Act::Resend(_)
        | Act::SnpResp(_)
        | Act::CompAck
        | Act::CopyBackWrData(_)
        | Act::NonCopyBackWrData
        | Act::Load(_)
        | Act::Store(_) => Certainty::Unique,
    }
}

/// How much is known of a copy behind a flit of the home, where nothing was.
fn given(grant: Grant, due: Due) -> Certainty
    ensures { result ≡ given grant due }
{
    match grant {
        Grant::CompData(State::I) => Certainty::Unknown,
        Grant::CompData(_) => certain_of(reads_unique(due), true),
        Grant::CompUC => certain_of(is_upgraded(due), makes(grant, due)),
        Grant::CompI => certain_of(false, settles(grant, due)),
        Grant::CompDBIDResp => certain_of(false, is_written_whole(due)),
        Grant::RetryAck | Grant::Snp(_) | Grant::CompSC => Certainty::Unknown,
    }
}

/// How much is known of a copy that is unique, or else is as it is told.
fn certain_of(unique: bool, told: bool) -> Certainty
    ensures { result ≡ certain_of unique told }
{
    if unique {
        Certainty::Unique
    } else if told {
        Certainty::Told
    } else {
        Certainty::Unknown
    }
}

/// Whether no other copy is left behind the flit, whose agent is told this.
fn leaves_alone(flit: Flit, due: Due, told: Told) -> bool
    ensures { result ≡ leaves_alone flit due told }
{
    told.is_unique() || matches!(told, Told::Writing) || ends_others(flit, due)
}

/// Whether the flit says that no other copy is left.
fn ends_others(flit: Flit, due: Due) -> bool
    ensures { result ≡ ends_others flit due }
{
    match flit {
        Flit::Up(_) => false,
        Flit::Down(given) => needs_alone(given.grant, due),
    }
}

/// What may be from before, where each copy is known if it is alone.
fn beside(alone: bool, agents: &[AgentBegun; 32]) -> [AgentBegun; 32]
    ensures { (n : ℕ) → mark_of result n ≡ marks_beside alone (λ m. mark_of agents.now m) n }
{
    if alone { all_told(agents) } else { *agents }
}

/// What may be from before, where each copy is known.
fn all_told(agents: &[AgentBegun; 32]) -> [AgentBegun; 32]
    ensures { (n : ℕ) → mark_of result n ≡ mark_told (mark_of agents.now n) }
{
    let mut told = *agents;
    for n in 0..32 {
        told[n] = AgentBegun {
            copy: Certainty::Told,
            ..agents[n]
        };
    }
    told
}
