//! Why a flit isn't taken, in words. No clause says these texts: they are tested.

use crate::events::{AccessEvent, Event, LineEvent, Tells, flit_by};
use crate::ids::{OpenId, find_id};
use crate::judges::{Before, Judge};
use crate::lacking::Lacking;
use crate::lines::{LineSeen, home_of, lacks_of};
use crate::marks::{is_known, teller_of};
use crate::names::{GIVEN, KeyName, LineName, NodeName, SENT, ToldName};
use crate::nodes::agent_of;
use crate::outstanding::{SinceText, requester_in};
use crate::reasons::{IdReason, LineReason};
use crate::steps::IdStep;
use crate::tables::Part;
use crate::watch::{Watch, WatchFault};
use crate::words::words_with;
use chi_flit::{Agent, Data};
use chi_ids::{CacheLine, IdKey};
use chi_observer::{
    AGENTS, Act, CacheFlit, Certainty, Due, Flit, HomeFlit, Kind, KnownWords, Observer, Reason,
    Told,
};
use chi_trace::NodeId;
use std::alloc::{AllocError, Allocator};
use std::fmt;
use std::fmt::Write;

/// Why the ids or the credits don't allow a flit.
#[derive(Clone, Copy)]
struct IdText(IdReason);

impl fmt::Display for IdText {
    fn fmt<W: fmt::Write>(&self, f: &mut fmt::Formatter<W>) -> fmt::Result {
        match self.0 {
            IdReason::InUse(key) => {
                let key = KeyName(key);
                write!(f, "a {key} of it is open")
            }
            IdReason::NotOpen(IdKey::Retried(_, _)) => {
                f.write_str("no request of it to the line was retried")
            }
            IdReason::NotOpen(key) => {
                let key = KeyName(key);
                write!(f, "no {key} of it is open")
            }
            IdReason::Unfinished(key) => {
                let key = KeyName(key);
                write!(f, "data of its {key} lack words")
            }
            IdReason::WordAgain(key) => {
                let key = KeyName(key);
                write!(f, "an earlier beat of its {key} has such a word")
            }
            IdReason::OtherBeat(key) => {
                let key = KeyName(key);
                write!(f, "the first beat of its {key} has another RESP or DBID")
            }
            IdReason::WrongAddress { named: _, line } => {
                let line = LineName(line);
                write!(f, "its id is of the line at {line}")
            }
            IdReason::NotRetryable(_) => f.write_str("its request has AR 0"),
            IdReason::OtherType { named: _, wanted } => {
                let wanted = wanted.0;
                write!(f, "its request needs PCRD {wanted:x}")
            }
            IdReason::NothingRetried(_, pcrd) => {
                let pcrd = pcrd.0;
                write!(f, "no request of it waits for a grant of type {pcrd:x}")
            }
            IdReason::NoCredit(_, pcrd) => {
                let pcrd = pcrd.0;
                write!(f, "it has no credit of type {pcrd:x}")
            }
            IdReason::NoDbid(_) => f.write_str("its request needs a DBID"),
            IdReason::Form(resp) => write!(f, "no flit of the opcode has RESP {resp}"),
        }
    }
}

/// What was told of a requester's copy last, and by which line of the trace; 0 where none has.
#[derive(Clone, Copy)]
struct CopyText {
    node: NodeId,
    told: Told,
    certainty: Certainty,
    number: usize,
}

impl fmt::Display for CopyText {
    fn fmt<W: fmt::Write>(&self, f: &mut fmt::Formatter<W>) -> fmt::Result {
        let (node, told, number) = (NodeName(self.node), ToldName(self.told), self.number);
        match self.certainty {
            Certainty::Unknown => return write!(f, "the copy of node {node} isn't known"),
            Certainty::Unique => {
                return write!(
                    f,
                    "the copy of node {node} was last told to be unique, by line {number}"
                );
            }
            Certainty::Told => {}
        }
        if number == 0 {
            return write!(f, "no flit has told of a copy of node {node}");
        }
        write!(
            f,
            "the copy of node {node} was last told to be {told}, by line {number}"
        )
    }
}

/// What is known of the line that didn't take a flit.
#[derive(Drop)]
struct Known<'a, A: Allocator> {
    line: CacheLine,
    /// The flit's requester.
    node: NodeId,
    requesters: &'a [NodeId],
    ids: &'a [OpenId],
    judge: &'a Judge<A>,
    before: &'a Before<'a>,
    /// By which lines of the trace; none of a line that no flit has touched.
    seen: Option<&'a LineSeen<A>>,
}

/// Whether the id is of what the home awaits of a requester: a CompAck or write data.
fn is_awaited(id: &OpenId) -> bool {
    matches!(id.key, IdKey::Buffer(_, _))
}

/// Whether a ReadOnce of the agent is open.
fn reads_once(observer: &Observer, agent: Agent) -> bool {
    match observer.agents.get(usize::from(agent.0)) {
        Some(seen) => matches!(
            seen.due,
            Due::Completion(Kind::ReadOnce) | Due::SureCompletion(Kind::ReadOnce)
        ),
        None => false,
    }
}

/// Puts `; ` behind the text, but where this is the first.
fn write_next<A: Allocator>(text: &mut String<A>, first: &mut bool) -> Result<(), AllocError> {
    let mark = if *first { "" } else { "; " };
    *first = false;
    write!(text, "{mark}")
}

impl<A: Allocator> Known<'_, A> {
    /// Whether data lack words of a value that the line was told of at their first beat.
    fn lacks_words(&self) -> bool {
        match self.seen {
            Some(seen) => matches!(seen.lacking, Lacking::Words(_, _, _)),
            None => false,
        }
    }

    /// What was told of the copy of a node last, which is this agent.
    fn copy(&self, node: NodeId, agent: usize) -> CopyText {
        let told = match self.judge.observer().agents.get(agent) {
            Some(seen) => seen.told,
            None => Told::I,
        };
        let number = match self.seen {
            Some(seen) => match seen.marks.copies.get(agent) {
                Some(number) => *number,
                None => 0,
            },
            None => 0,
        };
        CopyText {
            node,
            told,
            certainty: self.judge.certainty(agent),
            number,
        }
    }

    /// Puts the copies of all other agents that don't let the flit be taken behind the text.
    fn write_others(&self, text: &mut String<A>, flit: Flit) -> Result<(), AllocError> {
        let mut first = true;
        for other in 0..AGENTS {
            if let Some(node) = self.requesters.get(other) {
                if self.judge.is_in_the_way(flit, other) {
                    let copy = self.copy(*node, other);
                    write_next(text, &mut first)?;
                    write!(text, "{copy}")?;
                }
            }
        }
        Ok(())
    }

    /// Puts what is open of the line behind the text: of this requester, or of all what the home awaits.
    fn write_open(
        &self,
        text: &mut String<A>,
        of: Option<NodeId>,
        first: &mut bool,
    ) -> Result<(), AllocError> {
        for id in self.ids {
            let is_wanted = match of {
                Some(node) => requester_in(id.key).0 == node.0,
                None => is_awaited(id),
            };
            if is_wanted && id.line.0 == self.line.0 {
                let id = SinceText(*id);
                write_next(text, first)?;
                write!(text, "{id}")?;
            }
        }
        Ok(())
    }

    /// Puts the copy of the flit's requester, its request and a snoop to it behind the text.
    fn write_requester(&self, text: &mut String<A>, agent: Agent) -> Result<(), AllocError> {
        let copy = self.copy(self.node, usize::from(agent.0));
        write!(text, "{copy}")?;
        let before = text.len();
        self.write_open(text, Some(self.node), &mut false)?;
        if text.len() == before {
            write!(text, "; nothing of it is open")?;
        }
        Ok(())
    }

    /// Puts the words of the flit that are others than the known ones behind the text.
    fn write_words(&self, text: &mut String<A>, flit: Flit) -> Result<(), AllocError> {
        let known = known_words_of(self.judge, self.seen, flit);
        let shown = words_beside(flit, known.words);
        write_others(text, &shown, &expected_in(&known, &shown))?;
        self.write_words_since(text, flit)
    }

    /// Puts what has told the known words behind the text.
    fn write_words_since(&self, text: &mut String<A>, flit: Flit) -> Result<(), AllocError> {
        if self.judge.is_of_accesses(flit) {
            return write!(text, ", by loads and stores");
        }
        if let Some(seen) = self.seen {
            let number = seen.marks.words;
            write!(text, ", by line {number}")?;
        }
        Ok(())
    }

    /// The same, where these are still the home's.
    fn write_words_if(
        &self,
        text: &mut String<A>,
        words: Data,
        flit: Flit,
    ) -> Result<(), AllocError> {
        if is_known(&self.judge.observer().home, &words) {
            return self.write_words_since(text, flit);
        }
        Ok(())
    }

    /// Puts which moment a requester's CleanShared or ReadOnce lacks behind the text.
    fn write_moment(&self, text: &mut String<A>, agent: Agent) -> Result<(), AllocError> {
        if reads_once(self.judge.observer(), agent) {
            write!(
                text,
                "the home may have lacked the value last stored since its request was sent; "
            )?;
        } else {
            write!(
                text,
                "another copy may have been dirty since its request was sent; "
            )?;
        }
        self.write_requester(text, agent)
    }

    /// Puts the reason of a line's rule behind the text.
    fn write_rule(
        &self,
        text: &mut String<A>,
        flit: Flit,
        reason: Reason,
    ) -> Result<(), AllocError> {
        match reason {
            Reason::NotSent | Reason::NotDue => self.write_requester(text, teller_of(flit)),
            Reason::Busy => self.write_open(text, None, &mut true),
            Reason::NoMoment => self.write_moment(text, teller_of(flit)),
            Reason::NoOverwriter => {
                write!(
                    text,
                    "no MakeUnique, MakeInvalid or WriteUniqueFull of another node is open"
                )
            }
            Reason::NoDuty => write!(text, "the home has no dirty data to pass on"),
            Reason::Lost => write!(text, "the value last stored may have been thrown away"),
            Reason::OtherWords => self.write_words(text, flit),
            Reason::OtherCopy => self.write_others(text, flit),
            Reason::NoAgent | Reason::NotJudged => write!(text, "it isn't judged"),
        }
    }
}

/// Puts the words that are others than the expected ones behind the text.
fn write_others<A: Allocator>(
    text: &mut String<A>,
    shown: &Data,
    wanted: &Data,
) -> Result<(), AllocError> {
    let mut first = true;
    for word in 0..8 {
        let (is, expected) = (shown[word], wanted[word]);
        if is != expected {
            write_next(text, &mut first)?;
            write!(text, "word {word} is {is:x}, expected {expected:x}")?;
        }
    }
    Ok(())
}

/// The words that are known which those of the flit are to be, but for those that lack so far.
pub(crate) fn known_words_of<A: Allocator>(
    judge: &Judge<A>,
    seen: Option<&LineSeen<A>>,
    flit: Flit,
) -> KnownWords {
    let mut known = judge.known_words(flit);
    if let Some(seen) = seen {
        let unknown = seen.lacking.unknown();
        for n in 0..8 {
            known.known[n] = known.known[n] && !unknown[n];
        }
    }
    known
}

/// The flit as its line is told of it.
fn presented_to<A: Allocator>(seen: Option<&LineSeen<A>>, flit: Flit) -> Flit {
    match seen {
        Some(seen) => seen.presented(flit, &lacks_of(flit)),
        None => flit,
    }
}

/// The words of a flit.
pub(crate) fn words_of(flit: Flit) -> Data {
    match flit {
        Flit::Up(sent) => sent.shown,
        Flit::Down(given) => given.shown,
    }
}

/// The words of a flit; a load has one, among those that are known.
pub(crate) fn words_beside(flit: Flit, known: Data) -> Data {
    let Flit::Up(sent) = flit else {
        return words_of(flit);
    };
    let Act::Load(word) = sent.act else {
        return sent.shown;
    };
    let mut words = known;
    words[usize::from(word.place.0) % 8] = word.value;
    words
}

/// The words that a flit with these is expected to have: of those that aren't known its own.
pub(crate) fn expected_in(known: &KnownWords, shown: &Data) -> Data {
    let mut expected = *shown;
    for n in 0..8 {
        if known.known[n] {
            expected[n] = known.words[n];
        }
    }
    expected
}

/// The flits that the line takes in place of this one, by their names.
fn write_allowed<A: Allocator>(
    text: &mut String<A>,
    judge: &Judge<A>,
    before: &Before,
    flit: Flit,
) -> Result<(), AllocError> {
    let length = text.len();
    let shown = judge.known_words(flit).words;
    match flit {
        Flit::Up(sent) => write_sent(text, judge, before, sent.agent, shown)?,
        Flit::Down(given) => write_given(text, judge, before, given.agent, shown)?,
    }
    if text.len() == length {
        write!(text, "nothing")?;
    }
    Ok(())
}

/// Puts a name behind the text, and a comma before it where it isn't the first.
fn write_name<A: Allocator>(
    text: &mut String<A>,
    first: &mut bool,
    name: &str,
) -> Result<(), AllocError> {
    let comma = if *first { "" } else { ", " };
    *first = false;
    write!(text, "{comma}{name}")
}

/// The flits that the agent's cache may send.
fn write_sent<A: Allocator>(
    text: &mut String<A>,
    judge: &Judge<A>,
    before: &Before,
    agent: Agent,
    shown: Data,
) -> Result<(), AllocError> {
    let mut first = true;
    for (act, name) in SENT.iter() {
        let act = *act;
        if judge.takes(Flit::Up(CacheFlit { agent, act, shown }), before) {
            write_name(text, &mut first, name)?;
        }
    }
    Ok(())
}

/// The flits that the home may send to the agent.
fn write_given<A: Allocator>(
    text: &mut String<A>,
    judge: &Judge<A>,
    before: &Before,
    agent: Agent,
    shown: Data,
) -> Result<(), AllocError> {
    let mut first = true;
    for (grant, name) in GIVEN.iter() {
        let grant = *grant;
        let flit = HomeFlit {
            agent,
            grant,
            shown,
        };
        if judge.takes(Flit::Down(flit), before) {
            write_name(text, &mut first, name)?;
        }
    }
    Ok(())
}

/// The id that a flit names, where it names one.
fn named_key(event: &LineEvent) -> Option<IdKey> {
    let sides = event.sides;
    match event.step {
        IdStep::Attempt(_, _, _) => None,
        IdStep::Resent(_, _, line, _) => Some(IdKey::Retried(sides, line)),
        IdStep::Snoop(_, _, _) => None,
        IdStep::RetryAck(txn, _) => Some(IdKey::Request(sides, txn)),
        IdStep::Complete(txn) => Some(IdKey::Request(sides, txn)),
        IdStep::CompleteWith(txn, _) => Some(IdKey::Request(sides, txn)),
        IdStep::ReadData(txn, _, _) => Some(IdKey::Request(sides, txn)),
        IdStep::Answer(txn) => Some(IdKey::Snoop(sides, txn)),
        IdStep::AnswerData(txn, _) => Some(IdKey::Snoop(sides, txn)),
        IdStep::Acknowledge(dbid) => Some(IdKey::Buffer(sides, dbid)),
        IdStep::WriteData(dbid, _) => Some(IdKey::Buffer(sides, dbid)),
        IdStep::UnknownRequest(_, _, _) => None,
        IdStep::UnknownSnoop(_, _) => None,
        IdStep::UnknownAnswer(txn) => Some(IdKey::Snoop(sides, txn)),
        IdStep::UnknownReply(txn, _) => Some(IdKey::Request(sides, txn)),
    }
}

/// The line that a flit names, where it names one.
fn named_line(event: &LineEvent) -> Option<CacheLine> {
    match event.step {
        IdStep::Attempt(_, _, line) => Some(line),
        IdStep::Resent(_, _, line, _) => Some(line),
        IdStep::Snoop(_, _, line) => Some(line),
        IdStep::UnknownRequest(_, line, _) => Some(line),
        IdStep::UnknownSnoop(_, line) => Some(line),
        _ => event.at,
    }
}

/// The id that a reason rests on, where it is one that is open.
pub(crate) fn key_of(reason: IdReason, event: &Event) -> Option<IdKey> {
    match (reason, event) {
        (IdReason::InUse(key), _) => Some(key),
        (IdReason::Unfinished(key), _) => Some(key),
        (IdReason::WordAgain(key), _) => Some(key),
        (IdReason::OtherBeat(key), _) => Some(key),
        (IdReason::NotRetryable(key), _) => Some(key),
        (IdReason::NoDbid(key), _) => Some(key),
        (IdReason::WrongAddress { .. }, Event::Line(event)) => named_key(event),
        (IdReason::OtherType { .. }, Event::Line(event)) => named_key(event),
        _ => None,
    }
}

impl<A: Allocator> Watch<A> {
    /// The line of a flit, where it is known: that of its address, or of the open id that it names.
    pub(crate) fn place_of(&self, event: &Event) -> Option<CacheLine> {
        match event {
            Event::Line(event) => self.place_of_flit(event),
            Event::Access(event) => Some(event.line),
            Event::Granted(_, _) | Event::Returned(_, _) => None,
        }
    }

    /// The line of a flit that has one.
    fn place_of_flit(&self, event: &LineEvent) -> Option<CacheLine> {
        match (named_line(event), named_key(event)) {
            (Some(line), _) => Some(line),
            (None, Some(key)) => match find_id(&self.ids, key) {
                Some(id) => Some(id.line),
                None => None,
            },
            (None, None) => None,
        }
    }

    /// What data tell with the words that are known of the line in place of those that they lack.
    fn filled(&self, tells: Tells, line: CacheLine, lacks: &[bool; 8]) -> Tells {
        match self.lines.get(&line.0) {
            Some(seen) => match &seen.judge.observer().home {
                Some(home) => tells.with_words(words_with(&tells.words(), home, lacks)),
                None => tells,
            },
            None => tells,
        }
    }

    /// What a flit tells its line: data that came in beats all their words.
    pub(crate) fn told_by(&self, event: &LineEvent) -> Tells {
        match self.allowed(event) {
            Ok(change) => match change.part {
                Part::Last(told) => told,
                Part::First(lacks) => self.filled(event.tells, change.line, &lacks),
                Part::Known(told) => told,
                Part::Whole | Part::Further | Part::Held(_) => event.tells,
            },
            Err(_) => event.tells,
        }
    }

    /// Whether a flit is the last beat of data whose words weren't known at the first.
    fn is_last_beat(&self, event: &Event) -> bool {
        let Event::Line(event) = event else {
            return false;
        };
        match self.allowed(event) {
            Ok(change) => matches!(change.part, Part::Last(_)),
            Err(_) => false,
        }
    }

    /// The words that were known at the first beat of data, and those behind a later one, if the flit is such.
    pub(crate) fn held_words(&self, event: &Event) -> Option<(Data, Data)> {
        let Event::Line(event) = event else {
            return None;
        };
        let Ok(change) = self.allowed(event) else {
            return None;
        };
        if !matches!(change.part, Part::Held(_)) {
            return None;
        }
        if let Some(kept) = change.keeps {
            let known = find_id(&self.ids, kept.key)?.begun?.words();
            return Some((known, kept.begun?.words()));
        }
        let found = find_id(&self.ids, change.frees?)?;
        let known = found.begun?.words();
        let shown = words_with(&known, &event.tells.words(), &found.lacks?);
        Some((known, shown))
    }

    /// The requester of a flit, and what its line's observer is told; none of a credit, and of what isn't judged.
    pub(crate) fn judged_in(&self, event: &Event) -> Option<(NodeId, Flit)> {
        match event {
            Event::Line(event) => {
                let agent = agent_of(&self.requesters, &self.homes, event.sides);
                let flit = flit_by(&self.told_by(event), agent)?;
                Some((event.sides.requester, flit))
            }
            Event::Access(event) => {
                let flit = flit_by(&event.tells, self.agent_of_access(event))?;
                Some((event.requester, flit))
            }
            Event::Granted(_, _) | Event::Returned(_, _) => None,
        }
    }

    /// The agent of a load or a store; any of a line that no flit has touched, since nothing is told of them.
    fn agent_of_access(&self, event: &AccessEvent) -> Option<Agent> {
        match home_of(&self.lines, event.line) {
            Some(home) => self.agent_at(event, home),
            None => Some(Agent(0)),
        }
    }
}

impl<A: Allocator + Copy> Watch<A> {
    /// Puts why the line of a flit doesn't take it behind the text, and what it takes in its place.
    fn write_line_fault(
        &self,
        text: &mut String<A>,
        event: &Event,
        reason: Reason,
    ) -> Result<(), AllocError> {
        let (Some((node, flit)), Some(line)) = (self.judged_in(event), self.place_of(event)) else {
            return Ok(());
        };
        let (log, stores) = (self.options.log, self.options.stores);
        let untouched = Judge::new(*self.lines.allocator(), log, stores, 0)?;
        let before = Before {
            log,
            stores,
            last: &self.last,
        };
        let seen = self.lines.get(&line.0);
        let judge = match seen {
            Some(seen) => &seen.judge,
            None => &untouched,
        };
        let known = Known {
            line,
            node,
            requesters: &self.requesters,
            ids: self.ids.values().as_slice(),
            judge,
            before: &before,
            seen,
        };
        if let Some(held) = self.held_words(event) {
            let words = held.0;
            let shown = held.1;
            write_others(text, &shown, &words)?;
            return known.write_words_if(text, words, flit);
        }
        known.write_rule(text, flit, reason)?;
        if known.lacks_words() && self.is_last_beat(event) {
            return Ok(());
        }
        write!(text, "; allowed: ")?;
        write_allowed(text, judge, &before, presented_to(seen, flit))
    }

    /// Puts by which line of the trace the id was opened behind the text, where a reason rests on one.
    fn write_since(
        &self,
        text: &mut String<A>,
        event: &Event,
        reason: IdReason,
    ) -> Result<(), AllocError> {
        if let Some(key) = key_of(reason, event) {
            if let Some(id) = find_id(&self.ids, key) {
                let number = id.since;
                return match reason {
                    IdReason::InUse(_) => write!(text, ", since line {number}"),
                    IdReason::OtherType { .. } => write!(text, ", since line {number}"),
                    _ => write!(text, "; line {number} opened it"),
                };
            }
        }
        Ok(())
    }

    /// Puts the home of a line behind the text.
    fn write_home(
        &self,
        text: &mut String<A>,
        event: &Event,
        home: NodeId,
    ) -> Result<(), AllocError> {
        let home = NodeName(home);
        write!(text, "the line's home is node {home}")?;
        if let Some(line) = self.place_of(event) {
            if let Some(seen) = self.lines.get(&line.0) {
                let number = seen.marks.first;
                write!(text, ", since line {number}")?;
            }
        }
        Ok(())
    }

    /// Puts why this isn't taken behind the text.
    pub(crate) fn write_fault(
        &self,
        text: &mut String<A>,
        event: &Event,
        fault: WatchFault,
    ) -> Result<(), AllocError> {
        match fault {
            WatchFault::Ids(reason) => {
                let shown = IdText(reason);
                write!(text, "{shown}")?;
                self.write_since(text, event, reason)
            }
            WatchFault::Line(LineReason::OtherHome(home)) => self.write_home(text, event, home),
            WatchFault::Line(LineReason::Rule(reason)) => {
                self.write_line_fault(text, event, reason)
            }
        }
    }
}
