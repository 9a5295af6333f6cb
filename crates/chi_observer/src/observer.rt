//! The observer of one line.

ghost use Rattle.std.specs.Prelude.{◌≡◌, ◌<◌, ◌&&◌, ◌||◌, IfErr, OnOk, OnErr, Some, false, if◌then◌else◌, is_ok, not, true};
ghost use Rattle.chi_observer.specs.Rules.{allows, has_word, reads_any, word_at, lets_go, makes, needs_duty, passes_duty, settles, tells_words, throws};
ghost use Rattle.chi_observer.specs.Tables.{fills_told, shows_told, fits_told, is_cancelled, renews, strongest};
ghost use Rattle.chi_observer.specs.Worlds.{all_below, home_may};
ghost use Rattle.chi_observer.specs.Observed.{differs as differs_by_home, fits, fits_word, goes, takes, takes_home, next_as, next_home};
ghost use Rattle.chi_observer.specs.Moments.{after_as, has_moment};
ghost use Rattle.chi_observer.specs.Lines.{agent_after, agent_granted, goes_beside, is_given_reason, is_judged_reason, is_quiet, is_reason, is_sent_reason, is_taken, known_of, none_overwrites, nothing_watched, observed, stands_beside, takes_flit, watch, watch_as, watched};

use crate::flits::{Act, CacheFlit, Due, Flit, Grant, HomeFlit, Stores};
use crate::kinds::Snoop;
use crate::moments::{shown_behind, waits_behind};
use crate::rules::{
    allows, due_after, due_granted, gives_copy, gives_data, has_data, is_busy, is_due, lets_go,
    makes, needs_alone, needs_duty, needs_moment, needs_overwriter, needs_quiet, overwrites,
    passes_duty, same_kind, settles, snooped_after, snooped_granted, tells_words, throws,
};
use crate::told::{Told, answer_tells_dirty, hides_stores, may_be_free, tells_dirty};
use chi_flit::{Data, WordNo};

/// How many agents an observer follows; their numbers are below it.
/// Source: `docs/OBSERVER.md`, "What is kept".
pub const AGENTS: usize = 32;

/// What flits have told of one agent at the line.
/// Source: `docs/OBSERVER.md`, "What is kept".
#[derive(Clone, Copy, Debug, PartialEq, Eq)]
pub struct AgentSeen {
    /// What its copy may be.
    pub told: Told,
    /// Its request that was retried is surely cancelled.
    pub cancelled: bool,
    /// What is due next of its request.
    pub due: Due,
    /// The snoop that it hasn't answered.
    pub snooped: Option<Snoop>,
}

/// One of whom nothing was told.
/// Source: `docs/OBSERVER.md`, "What is kept".
pub const NOBODY: AgentSeen = AgentSeen {
    told: Told::I,
    cancelled: false,
    due: Due::Nothing,
    snooped: None,
};

/// What flits have told of one line.
/// Source: `docs/OBSERVER.md`, "What is kept".
#[derive(Clone, Debug, Drop, PartialEq, Eq)]
pub struct Observer {
    /// Whether each store of a processor is told of.
    pub stores: Stores,
    /// Of each agent.
    pub agents: [AgentSeen; 32],
    /// The words of the home's own copy, once a flit has shown them.
    pub home: Option<Data>,
    /// Whether the value last stored is the home's, but for stores that nobody saw.
    pub current: bool,
    /// Whether the home has dirty data that it must write or pass on.
    pub duty: bool,
    /// Whether a SnpMakeInvalid was answered, and no flit has shown or made the line's value since.
    pub thrown: bool,
    /// Whether a CleanShared or a ReadOnce may be open.
    pub waits: bool,
    /// Of each agent whose CleanShared or ReadOnce is open: there was its moment since its issue. Of a CleanShared one at
    /// which no other copy was dirty, of a ReadOnce one at which the home had the value last stored.
    pub shown: [bool; 32],
}

/// Why a flit isn't taken. What it rests on can be read in the observer, which it leaves as it was.
/// Source: `docs/OBSERVER.md`, "Faults".
#[derive(Clone, Copy, Debug, PartialEq, Eq)]
pub enum Reason {
    /// The observer doesn't judge such flits, as `Flit::is_judged` says; it judges all.
    NotJudged,
    /// The agent's number is 32 or more.
    NoAgent,
    /// No copy that the agent may have sends this flit of a cache now.
    NotSent,
    /// What is due of the agent, or a snoop that it hasn't answered, doesn't let the home send it.
    NotDue,
    /// A CompAck or write data are due at the line, and nothing is snooped meanwhile.
    Busy,
    /// Since the agent's CleanShared was sent another copy may always have been dirty; or since its ReadOnce was sent the
    /// home may never have had the value last stored.
    NoMoment,
    /// No request of another agent is open for which copies may be thrown away.
    NoOverwriter,
    /// The home has no dirty data to pass on.
    NoDuty,
    /// The words are known to be others.
    OtherWords,
    /// Another agent's copy was told to be what doesn't go with the one that this makes.
    OtherCopy,
    /// The value last stored may have been thrown away.
    Lost,
}

impl Observer {
    /// An observer of a line that no cache has a copy of, with no request open, and whose memory has any words.
    /// Source: `docs/OBSERVER.md`, "What is kept".
    pub fn new(stores: Stores) -> Observer
        ensures { watched result ≡ nothing_watched stores }
    {
        Observer {
            stores,
            agents: [NOBODY; 32],
            home: None,
            current: true,
            duty: false,
            thrown: false,
            waits: false,
            shown: [false; 32],
        }
    }

    /// Takes the next flit of the line, as itself. `Ok` exactly where the rules take it: a flit of a cache where stores and
    /// drops that nobody saw explain it, and one of the home where it is safe whatever they were. Else the first rule that
    /// it breaks, and nothing changes.
    /// Source: `docs/OBSERVER.md`, "Flits of a cache", "Flits of the home".
    pub(crate) fn take(&mut self, flit: Flit) -> Result<(), Reason>
        ensures taken { is_ok result ≡ is_taken (watched self.old) flit }
        ensures after { OnOk result (watched self.new ≡ watch (watched self.old) flit) }
        ensures kept { OnErr result (self.new ≡ self.old) }
        ensures reason { IfErr result (λ reason. is_reason (watched self.old) flit reason ≡ true) }
    {
        self.take_as(flit, false)
    }

    /// The same; `differs` says that its data are known to be others than the value last stored, by what is kept beside.
    pub(crate) fn take_as(&mut self, flit: Flit, differs: bool) -> Result<(), Reason>
        ensures taken { is_ok result ≡ is_taken (watched self.old) flit }
        ensures after { OnOk result
            (watched self.new ≡ watch_as (watched self.old) flit differs) }
        ensures kept { OnErr result (self.new ≡ self.old) }
        ensures reason { IfErr result (λ reason. is_reason (watched self.old) flit reason ≡ true) }
    {
        if !flit.is_judged() {
            return Err(Reason::NotJudged);
        }
        self.take_judged(flit, differs)
    }

    /// Takes a flit that is judged.
    fn take_judged(&mut self, flit: Flit, differs: bool) -> Result<(), Reason>
        ensures taken { is_ok result ≡ takes_flit (watched self.old) flit }
        ensures after { OnOk result
            (watched self.new ≡ watch_as (watched self.old) flit differs) }
        ensures kept { OnErr result (self.new ≡ self.old) }
        ensures reason { IfErr result
            (λ reason. is_judged_reason (watched self.old) flit reason ≡ true) }
    {
        self.take_told(flit, differs)?;
        self.waits = waits_behind(&self.agents, self.waits, flit);
        self.shown = shown_behind(
            self.stores,
            &self.agents,
            self.current,
            self.waits,
            &self.shown,
            flit,
        );
        Ok(())
    }

    /// Takes what a flit that is judged tells of copies.
    #[tactic(auto, using(crate::proofs::Lines::refused))]
    fn take_told(&mut self, flit: Flit, differs: bool) -> Result<(), Reason>
        ensures taken { is_ok result ≡ takes_flit (watched self.old) flit }
        ensures after { OnOk result
            (observed self.new ≡ after_as (observed self.old) flit differs) }
        ensures stores { self.new.stores ≡ self.old.stores }
        ensures shown { self.new.shown ≡ self.old.shown }
        ensures waits { self.new.waits ≡ self.old.waits }
        ensures kept { OnErr result (self.new ≡ self.old) }
        ensures reason { IfErr result
            (λ reason. is_judged_reason (watched self.old) flit reason ≡ true) }
    {
        match flit {
            Flit::Up(sent) => {
                if sent.agent.0 >= 32 {
                    return Err(Reason::NoAgent);
                }
                self.take_sent(sent, differs)
            }
            Flit::Down(given) => {
                if given.agent.0 >= 32 {
                    return Err(Reason::NoAgent);
                }
                if !self.has_moment(given) {
                    return Err(Reason::NoMoment);
                }
                self.take_given(given)
            }
        }
    }

    /// Whether there was the moment that a flit of the home needs.
    fn has_moment(&self, flit: HomeFlit) -> bool
        requires { flit.agent.0 < 32 }
        ensures { result ≡ has_moment (observed self.now) (watched self.now).shown flit }
    {
        let at = usize::from(flit.agent.0);
        !needs_moment(flit.grant, self.agents[at].due) || self.shown[at]
    }

    /// Takes a flit of a cache.
    fn take_sent(&mut self, flit: CacheFlit, differs: bool) -> Result<(), Reason>
        requires { flit.agent.0 < 32 }
        ensures taken { is_ok result ≡ takes (observed self.old) flit }
        ensures after { OnOk result (observed self.new
            ≡ next_as (observed self.old) flit (differs || differs_by_home (observed self.old) flit)) }
        ensures stores { self.new.stores ≡ self.old.stores }
        ensures shown { self.new.shown ≡ self.old.shown }
        ensures waits { self.new.waits ≡ self.old.waits }
        ensures kept { OnErr result (self.new ≡ self.old) }
        ensures reason { IfErr result
            (λ reason. is_sent_reason (observed self.old) flit reason ≡ true) }
    {
        let at = usize::from(flit.agent.0);
        let agent = self.agents[at];
        let goes = lets_go(agent.snooped);
        if !agent.sends(self.stores, flit.act) {
            return Err(Reason::NotSent);
        }
        let renewed = agent.is_renewed(self.stores, flit.act, goes);
        let shows = has_data(flit.act);
        let known = may_be(&self.home, &flit.shown);
        let any = agent.reads_any(self.stores);
        let read = may_read(&self.home, flit.act);
        if !words_stand(self.current, shows, renewed, known, any, read) {
            return Err(Reason::OtherWords);
        }
        let others = shows_others(differs, shows, self.current, known);
        let tells = tells_words(flit.act);
        self.agents[at] = agent.after(flit.act, others);
        self.duty = duty_after(self.duty, flit.act);
        self.thrown = thrown_after(self.thrown, flit.act, goes);
        self.home = shown(tells, flit.shown, self.home);
        self.current = current_from(tells, renewed, self.current);
        Ok(())
    }

    /// Whether the home may send the flit by what flits say of requests, answers and its duty.
    fn may_give(&self, flit: HomeFlit) -> Result<(), Reason>
        requires { flit.agent.0 < 32 }
        ensures may { is_ok result ≡ home_may (observed self.now).public flit }
        ensures reason { IfErr result
            (λ reason. is_given_reason (observed self.now) flit reason ≡ true) }
    {
        let agent = self.agents[usize::from(flit.agent.0)];
        if !is_due(flit.grant, agent.due, agent.snooped) {
            return Err(Reason::NotDue);
        }
        if needs_duty(flit.grant) && !self.duty {
            return Err(Reason::NoDuty);
        }
        if needs_quiet(flit.grant) && !is_quiet(&self.agents) {
            return Err(Reason::Busy);
        }
        if needs_overwriter(flit.grant) && is_none_overwriting(&self.agents, flit.agent.0) {
            return Err(Reason::NoOverwriter);
        }
        Ok(())
    }

    /// Takes a flit of the home.
    fn take_given(&mut self, flit: HomeFlit) -> Result<(), Reason>
        requires { flit.agent.0 < 32 }
        ensures taken { is_ok result ≡ takes_home (observed self.old) flit }
        ensures after { OnOk result (observed self.new ≡ next_home (observed self.old) flit) }
        ensures stores { self.new.stores ≡ self.old.stores }
        ensures shown { self.new.shown ≡ self.old.shown }
        ensures waits { self.new.waits ≡ self.old.waits }
        ensures kept { OnErr result (self.new ≡ self.old) }
        ensures reason { IfErr result
            (λ reason. is_given_reason (observed self.old) flit reason ≡ true) }
    {
        let at = usize::from(flit.agent.0);
        let agent = self.agents[at];
        self.may_give(flit)?;
        let shows = agent.is_shown(flit.grant);
        if shows && !may_be(&self.home, &flit.shown) {
            return Err(Reason::OtherWords);
        }
        let told = agent.told.granted(flit.grant, agent.due);
        let alone = needs_alone(flit.grant, agent.due);
        if !stands_beside(&self.agents, flit.agent.0, told, alone) {
            return Err(Reason::OtherCopy);
        }
        if agent.is_filled(flit.grant) && !self.current {
            return Err(Reason::Lost);
        }
        self.agents[at] = agent.granted(flit.grant);
        self.duty = duty_granted(self.duty, flit.grant);
        self.thrown = thrown_granted(self.thrown, flit.grant, agent.due);
        self.current = current_granted(self.current, flit.grant, agent.due);
        self.home = shown(shows, flit.shown, self.home);
        Ok(())
    }
}

impl AgentSeen {
    /// Whether some copy that the agent may have sends the flit now.
    pub(crate) fn sends(self, stores: Stores, act: Act) -> bool
        ensures { result ≡ (allows act self.snooped
            && fits_told stores act (lets_go self.snooped) self.due (known_of self)) }
    {
        allows(act, self.snooped) && self.may_send(stores, act, lets_go(self.snooped))
    }

    /// Whether some copy that the agent may have sends the flit, where the snoop allows it; `goes` says that it lets
    /// dirty data be thrown away.
    fn may_send(self, stores: Stores, act: Act, goes: bool) -> bool
        ensures { result ≡ fits_told stores act goes self.due (known_of self) }
    {
        match (act, self.due) {
            (Act::Request(kind), due) => {
                may_be_free(due) && self.told.may_issue(kind, hides_stores(stores, due))
            }
            (Act::Resend(kind), Due::Resending(asked)) => {
                same_kind(kind, asked) && !self.cancelled
            }
            (Act::SnpResp(answer), due) => {
                self.told.may_answer(answer, hides_stores(stores, due))
                    || (throws(act, goes) && self.told.is_dirty())
            }
            (Act::CompAck, Due::Acknowledgement) => true,
            (Act::CopyBackWrData(form), Due::WriteData(kind)) => {
                kind.is_copy_back() && self.told.may_write(form)
            }
            (Act::NonCopyBackWrData, Due::WriteData(kind)) => {
                kind.is_whole_write() && matches!(self.told, Told::Writing)
            }
            (Act::Load(_), due) => self.told.may_load(hides_stores(stores, due)),
            (Act::Store(_), due) => self.told.may_store(due),
            _ => false,
        }
    }

    /// Whether a load of its copy may be of any word: a store that nobody saw may be done to it, if only behind the
    /// CompAck.
    pub(crate) fn reads_any(self, stores: Stores) -> bool
        ensures { result ≡ reads_any stores self.due (strongest self.told) }
    {
        matches!(stores, Stores::Hidden) && self.told.may_store(self.due)
    }

    /// Whether the flit says that there may have been a store since the last one.
    pub(crate) fn is_renewed(self, stores: Stores, act: Act, goes: bool) -> bool
        ensures { result ≡ renews stores act goes self.due (known_of self) }
    {
        match act {
            Act::Load(_) => hides_stores(stores, self.due) && self.told.is_empty(),
            Act::Store(_) => true,
            Act::Request(_)
            | Act::Resend(_)
            | Act::SnpResp(_)
            | Act::CompAck
            | Act::CopyBackWrData(_)
            | Act::NonCopyBackWrData => {
                hides_stores(stores, self.due)
                    && (self.told.is_unique() && (tells_dirty(act) || throws(act, goes)))
            }
        }
    }

    /// Whether the request that was retried is surely cancelled behind the flit; `differs` says that its words aren't
    /// the known ones.
    pub(crate) fn is_cancelled(self, act: Act, differs: bool) -> bool
        ensures { result ≡ is_cancelled act self.due (known_of self) differs }
    {
        match (act, self.due) {
            (Act::SnpResp(answer), Due::Resending(_)) => {
                self.cancelled
                    || (answer_tells_dirty(answer)
                        && (self.told.is_unique() && (differs || !matches!(self.told, Told::UD))))
            }
            (Act::Load(_), Due::Resending(_)) => self.cancelled || self.told.is_empty(),
            (Act::Store(_), Due::Resending(_)) => true,
            _ => false,
        }
    }

    /// Whether the data of a flit of the home to the agent are its copy's words then.
    fn is_filled(self, grant: Grant) -> bool
        ensures { result ≡ fills_told grant (known_of self) }
    {
        gives_copy(grant) && !self.told.is_dirty()
    }

    /// Whether the data of a flit of the home to the agent are the home's own words.
    pub(crate) fn is_shown(self, grant: Grant) -> bool
        ensures { result ≡ shows_told grant (known_of self) }
    {
        gives_data(grant) && (!gives_copy(grant) || !self.told.is_dirty())
    }

    /// What is told of the agent behind a flit of its cache.
    fn after(self, act: Act, differs: bool) -> AgentSeen
        ensures { result ≡ agent_after act self differs }
    {
        AgentSeen {
            told: self.told.after(act, self.due),
            cancelled: self.is_cancelled(act, differs),
            due: due_after(act, self.due),
            snooped: snooped_after(act, self.snooped),
        }
    }

    /// What is told of the agent behind a flit of the home to it.
    fn granted(self, grant: Grant) -> AgentSeen
        ensures { result ≡ agent_granted grant self }
    {
        AgentSeen {
            told: self.told.granted(grant, self.due),
            cancelled: !matches!(grant, Grant::RetryAck) && self.cancelled,
            due: due_granted(grant, self.due),
            snooped: snooped_granted(grant, self.snooped),
        }
    }
}

/// Whether the words may be those that are known.
pub(crate) fn may_be(known: &Option<Data>, words: &Data) -> bool
    ensures { result ≡ fits known.now words.now }
{
    match known {
        None => true,
        Some(known) => *known == *words,
    }
}

/// Whether a load's word may be one of those that are known.
pub(crate) fn may_read(known: &Option<Data>, act: Act) -> bool
    ensures { result ≡ fits_word known.now act }
{
    match known {
        None => true,
        Some(known) => has_word(act, known),
    }
}

/// Whether the words are those that have the word of a load.
fn has_word(act: Act, words: &Data) -> bool
    ensures { result ≡ has_word act words.now }
{
    match act {
        Act::Load(word) => word_at(words, word.place) == word.value,
        Act::Request(_)
        | Act::Resend(_)
        | Act::SnpResp(_)
        | Act::CompAck
        | Act::CopyBackWrData(_)
        | Act::NonCopyBackWrData
        | Act::Store(_) => true,
    }
}

/// The word of this number; 0 beyond the last.
fn word_at(words: &Data, place: WordNo) -> u64
    ensures { result ≡ word_at words.now place.0 }
{
    let at = usize::from(place.0);
    if at < 8 { words[at] } else { 0 }
}

/// Whether a flit's words stand: those that it shows are the known ones, or tell of a store, where some are known; and so
/// is what a load reads, where it may not be any word.
fn words_stand(
    current: bool,
    shows: bool,
    renewed: bool,
    known: bool,
    any: bool,
    read: bool,
) -> bool
    ensures { result ≡ ((not shows || (renewed || (not current || known)))
        && (any || (not current || read))) }
{
    (!shows || (renewed || (!current || known))) && (any || (!current || read))
}

/// Whether the home has the duty to write dirty data behind a flit of a cache.
fn duty_after(duty: bool, act: Act) -> bool
    ensures { result ≡ (duty || passes_duty act) }
{
    duty || passes_duty(act)
}

/// Whether the home has the duty to write dirty data behind a flit of its own.
fn duty_granted(duty: bool, grant: Grant) -> bool
    ensures { result ≡ (duty && not (needs_duty grant)) }
{
    duty && !needs_duty(grant)
}

/// Whether a SnpMakeInvalid was answered, and the value isn't shown since, behind a flit of a cache.
fn thrown_after(thrown: bool, act: Act, goes: bool) -> bool
    ensures { result ≡ (if tells_words act then false else thrown || throws act goes) }
{
    !tells_words(act) && (thrown || throws(act, goes))
}

/// The same behind a flit of the home.
fn thrown_granted(thrown: bool, grant: Grant, due: Due) -> bool
    ensures { result ≡ (thrown && not (makes grant due || settles grant due)) }
{
    thrown && !(makes(grant, due) || settles(grant, due))
}

/// Whether a flit shows words that are surely not the value last stored, but for a store that nobody saw; `differs` says
/// that what is kept beside tells so.
fn shows_others(differs: bool, shows: bool, current: bool, known: bool) -> bool
    ensures { result ≡ (differs || (shows && (current && not known))) }
{
    differs || (shows && (current && !known))
}

/// The words that are known behind a flit.
fn shown(shows: bool, words: Data, known: Option<Data>) -> Option<Data>
    ensures { result ≡ (if shows then Some words else known) }
{
    if shows { Some(words) } else { known }
}

/// Whether the value last stored is the home's behind a flit of a cache.
fn current_from(shows: bool, renewed: bool, current: bool) -> bool
    ensures { result ≡ (if shows then true else (if renewed then false else current)) }
{
    shows || (!renewed && current)
}

/// Whether the value last stored is the home's behind a flit of the home.
fn current_granted(current: bool, grant: Grant, due: Due) -> bool
    ensures { result ≡ (settles grant due || (current && not (makes grant due))) }
{
    settles(grant, due) || (current && !makes(grant, due))
}

/// Whether no agent has a CompAck or write data due.
fn is_quiet(agents: &[AgentSeen; 32]) -> bool
    ensures { result ≡ is_quiet agents.now }
{
    let mut quiet = true;
    for n in 0..32 {
        quiet = !is_busy(agents[n].due) && quiet;
    }
    quiet
}

/// Whether no other agent has a request open for which copies may be thrown away.
fn is_none_overwriting(agents: &[AgentSeen; 32], agent: u8) -> bool
    ensures { result ≡ none_overwrites agents.now agent }
{
    let mut none = true;
    for n in 0..32u8 {
        none = (n == agent || !overwrites(agents[usize::from(n)].due)) && none;
    }
    none
}

/// Whether a copy that is told so goes with each that another agent may have; `alone` says that there is to be none.
pub(crate) fn stands_beside(agents: &[AgentSeen; 32], agent: u8, told: Told, alone: bool) -> bool
    ensures { result ≡ stands_beside agents.now agent told alone }
{
    let mut beside = true;
    for n in 0..32u8 {
        let other = agents[usize::from(n)].told;
        beside = (n == agent || is_beside(told, other, alone)) && beside;
    }
    beside
}

/// Whether two agents' copies may have been told so together, and the other is none where it has to be.
fn is_beside(told: Told, other: Told, alone: bool) -> bool
    ensures { result ≡ goes_beside told alone other }
{
    told.goes_with(other) && (!alone || other.is_gone())
}
