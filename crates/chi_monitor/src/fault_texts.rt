//! Reasons in words.
//! Not trusted, as the search whose reasons they are: that they are right is tested.

use crate::faults::{
    Awaited, Basis, Differing, KnownWord, LineFault, Reach, SeenAt, WrongForm, WrongSnoops,
};
use chi_flit::{Agent, NO_DATA, Snoop, State, answer};
use std::fmt;

/// How agents and numbers of what was seen are called: agents by these nodes, and numbers by these lines of a file; by
/// themselves where there is none.
/// Source: `docs/TRACES.md`, "Reasons".
#[derive(Clone, Copy)]
pub struct FaultNames<'a> {
    pub nodes: &'a [u16],
    pub lines: &'a [usize],
}

/// A reason in words, with these names.
/// Source: `docs/TRACES.md`, "Reasons".
#[derive(Clone, Copy)]
pub struct FaultText<'a> {
    pub fault: LineFault,
    pub names: FaultNames<'a>,
}

/// A node by its number in a trace, or an agent.
#[derive(Clone, Copy)]
struct AgentName<'a>(Agent, FaultNames<'a>);

/// A line of a trace, or the number of a flit.
#[derive(Clone, Copy)]
struct PlaceName<'a>(SeenAt, FaultNames<'a>);

/// Since when something is known; nothing where no flit has told it.
#[derive(Clone, Copy)]
struct SinceText<'a>(Option<SeenAt>, FaultNames<'a>);

/// The states that a copy may be in.
#[derive(Clone, Copy)]
struct States(Reach);

/// What a copy in one of these states answers to the snoop: in its last known state, and in UD where it may have been
/// stored to.
#[derive(Clone, Copy)]
struct OwnAnswer(Reach, Snoop);

/// What the home awaits.
#[derive(Clone, Copy)]
struct AwaitedText<'a>(Awaited, FaultNames<'a>);

/// Each word that differs, beside the one that was expected.
#[derive(Clone, Copy)]
struct DifferingText<'a>(Differing, FaultNames<'a>);

/// What is wrong with the snoops.
#[derive(Clone, Copy)]
struct SnoopsText<'a>(WrongSnoops, Basis, FaultNames<'a>);

/// What is wrong with the form.
#[derive(Clone, Copy)]
struct FormText<'a>(WrongForm, Basis, FaultNames<'a>);

impl fmt::Display for AgentName<'_> {
    fn fmt<W: fmt::Write>(&self, f: &mut fmt::Formatter<W>) -> fmt::Result {
        match self.1.nodes.get(usize::from(self.0.0)) {
            Some(node) => write!(f, "node {node:x}"),
            None => {
                let agent = self.0;
                write!(f, "agent {agent}")
            }
        }
    }
}

impl fmt::Display for PlaceName<'_> {
    fn fmt<W: fmt::Write>(&self, f: &mut fmt::Formatter<W>) -> fmt::Result {
        let number = self.0.0;
        match self.1.lines.get(number as usize) {
            Some(line) => write!(f, "line {line}"),
            None => write!(f, "flit {number}"),
        }
    }
}

impl fmt::Display for SinceText<'_> {
    fn fmt<W: fmt::Write>(&self, f: &mut fmt::Formatter<W>) -> fmt::Result {
        match self.0 {
            Some(since) => {
                let place = PlaceName(since, self.1);
                write!(f, " since {place}")
            }
            None => Ok(()),
        }
    }
}

impl fmt::Display for States {
    fn fmt<W: fmt::Write>(&self, f: &mut fmt::Formatter<W>) -> fmt::Result {
        let base = self.0.base;
        match (base, self.0.pending) {
            (State::SC, false) => f.write_str("SC or I"),
            (State::UC, false) => f.write_str(if self.0.is_written() {
                "UC, UD or I"
            } else {
                "UC or I"
            }),
            _ => write!(f, "{base}"),
        }
    }
}

impl fmt::Display for OwnAnswer {
    fn fmt<W: fmt::Write>(&self, f: &mut fmt::Formatter<W>) -> fmt::Result {
        let (states, snoop) = (self.0, self.1);
        let base = states.base;
        let message = answer(base, snoop, NO_DATA).1;
        write!(f, "{base} answers {snoop} by {message}")?;
        if states.is_written() {
            let dirty = answer(State::UD, snoop, NO_DATA).1;
            write!(f, ", UD by {dirty}")?;
        }
        Ok(())
    }
}

impl fmt::Display for AwaitedText<'_> {
    fn fmt<W: fmt::Write>(&self, f: &mut fmt::Formatter<W>) -> fmt::Result {
        match self.0 {
            Awaited::Answer(agent, since) => {
                let (node, place) = (AgentName(agent, self.1), PlaceName(since, self.1));
                write!(f, "awaits the answer of {node} to the snoop of {place}")
            }
            Awaited::Nothing(since) => {
                let place = PlaceName(since, self.1);
                write!(
                    f,
                    "has snooped since {place} for a request that it completes"
                )
            }
            Awaited::Ack(agent, since) => {
                let (node, place) = (AgentName(agent, self.1), PlaceName(since, self.1));
                write!(
                    f,
                    "awaits the CompAck of {node} to the completion of {place}"
                )
            }
            Awaited::WriteData(agent, since) => {
                let (node, place) = (AgentName(agent, self.1), PlaceName(since, self.1));
                write!(f, "awaits the write data of {node} that {place} asks for")
            }
        }
    }
}

impl fmt::Display for DifferingText<'_> {
    fn fmt<W: fmt::Write>(&self, f: &mut fmt::Formatter<W>) -> fmt::Result {
        let mut any = false;
        for (number, (seen, known)) in self.0.seen.iter().zip(&self.0.known).enumerate() {
            if let (Some(seen), Some(KnownWord { value, since })) = (seen, known)
                && *seen != *value
            {
                let since = SinceText(*since, self.1);
                let comma = if any { "; " } else { "" };
                write!(
                    f,
                    "{comma}word {number} is {seen:x}, and its sender has {value:x}{since}"
                )?;
                any = true;
            }
        }
        Ok(())
    }
}

impl fmt::Display for SnoopsText<'_> {
    fn fmt<W: fmt::Write>(&self, f: &mut fmt::Formatter<W>) -> fmt::Result {
        match (self.0, self.1) {
            (WrongSnoops::Unsnooped(agent, reach), Basis::Standard) => {
                let (node, states) = (AgentName(agent, self.2), States(reach));
                let since = SinceText(reach.since, self.2);
                write!(f, "{node} has had {states}{since}, and wasn't snooped")
            }
            (WrongSnoops::Unsnooped(agent, reach), Basis::Profile) => {
                let (node, states) = (AgentName(agent, self.2), States(reach));
                let since = SinceText(reach.since, self.2);
                write!(
                    f,
                    "the model's home names {node} and snoops it first, which has had {states}{since}"
                )
            }
            (WrongSnoops::Unanswered(agent, since), _) => {
                let (node, place) = (AgentName(agent, self.2), PlaceName(since, self.2));
                write!(f, "{node} hasn't answered the snoop of {place}")
            }
            (WrongSnoops::OfAnother(since), _) => {
                let place = PlaceName(since, self.2);
                write!(
                    f,
                    "the snoops that were sent since {place} aren't for its request"
                )
            }
        }
    }
}

impl fmt::Display for FormText<'_> {
    fn fmt<W: fmt::Write>(&self, f: &mut fmt::Formatter<W>) -> fmt::Result {
        match (self.0, self.1) {
            (WrongForm::NotUnique, _) => f.write_str("a ReadUnique gives a unique copy"),
            (WrongForm::Alone, _) => {
                f.write_str("the model's home names nobody else, and gives a unique copy")
            }
            (WrongForm::Shared(agent, reach), Basis::Standard) => {
                let (node, states) = (AgentName(agent, self.2), States(reach));
                let since = SinceText(reach.since, self.2);
                write!(
                    f,
                    "{node} has had {states}{since}, so the copy isn't unique"
                )
            }
            (WrongForm::Shared(agent, reach), Basis::Profile) => {
                let (node, states) = (AgentName(agent, self.2), States(reach));
                let since = SinceText(reach.since, self.2);
                write!(
                    f,
                    "the model's home names {node} too, which has had {states}{since}, and gives a shared copy"
                )
            }
        }
    }
}

/// Why a copy that may be written doesn't have the value that a load read: that no store is done while a request is
/// pending is a choice of the profile.
fn pending_text(basis: Basis) -> &'static str {
    match basis {
        Basis::Standard => "",
        Basis::Profile => ", and no store is done while its request to the line isn't over",
    }
}

impl FaultText<'_> {
    /// What has to do with what the home awaits, and with the request that a flit is for.
    fn write_stage<W: fmt::Write>(&self, f: &mut fmt::Formatter<W>) -> fmt::Result {
        let names = self.names;
        match self.fault {
            LineFault::EarlySnoop(awaited) => {
                let home = AwaitedText(awaited, names);
                write!(f, "the home {home} before it snoops for another request")
            }
            LineFault::EarlyCompletion(awaited) => {
                let home = AwaitedText(awaited, names);
                write!(
                    f,
                    "the model's home {home} before it completes another request"
                )
            }
            LineFault::EarlyEvict(awaited) => {
                let home = AwaitedText(awaited, names);
                write!(f, "the model's home {home} before it completes an Evict")
            }
            LineFault::EarlyCopyBack(awaited) => {
                let home = AwaitedText(awaited, names);
                write!(f, "the model's home {home} before it asks for write data")
            }
            LineFault::NoRead => f.write_str("no read of it waits there"),
            LineFault::NoCleanUnique => f.write_str("no CleanUnique of it waits there"),
            LineFault::NoEvict => f.write_str("no Evict of it waits there"),
            LineFault::NoCopyBack => f.write_str("no copy-back of it waits there"),
            LineFault::NoAckAwaited => f.write_str("the home awaits no CompAck of it there"),
            LineFault::NoWriteDataAwaited => {
                f.write_str("the home awaits no write data of it there")
            }
            LineFault::Words(words) => {
                let differing = DifferingText(words, names);
                write!(f, "{differing}")
            }
            LineFault::Snoops(_, wrong) => {
                let snoops = SnoopsText(wrong, self.fault.basis(), names);
                write!(f, "{snoops}")
            }
            LineFault::Form(form) => {
                let form = FormText(form, self.fault.basis(), names);
                write!(f, "{form}")
            }
            _ => self.write_request(f),
        }
    }

    /// What has to do with requests and snoops.
    fn write_request<W: fmt::Write>(&self, f: &mut fmt::Formatter<W>) -> fmt::Result {
        let names = self.names;
        match self.fault {
            LineFault::NoMemory => f.write_str("memory ran out"),
            LineFault::Pending(since) => {
                let place = PlaceName(since, names);
                write!(f, "the request of {place} of it to the line isn't over")
            }
            LineFault::NotRetried(kind) => write!(f, "no {kind} of it was retried"),
            LineFault::NothingToRetry => f.write_str("no first attempt of it is under way"),
            LineFault::OtherCredit(named, wanted) => {
                write!(
                    f,
                    "its request needs a credit of type {wanted}, not {named}"
                )
            }
            LineFault::ServedRetry(since) => {
                let place = PlaceName(since, names);
                write!(
                    f,
                    "the snoops that were sent since {place} are for its request"
                )
            }
            LineFault::NobodyAsks(snoop) => {
                write!(f, "no request that waits asks for {snoop} of it now")
            }
            LineFault::SnoopedTwice(since) => {
                let place = PlaceName(since, names);
                write!(f, "it was snooped for this request already, by {place}")
            }
            LineFault::NothingToAnswer => f.write_str("no snoop to it is unanswered"),
            _ => f.write_str("it is none of the requesters, or a slot or a word is none"),
        }
    }

    /// The reason, without what it rests on.
    fn write_reason<W: fmt::Write>(&self, f: &mut fmt::Formatter<W>) -> fmt::Result {
        let names = self.names;
        match self.fault {
            LineFault::Needs(kind, reach) => {
                let (states, since) = (States(reach), SinceText(reach.since, names));
                write!(
                    f,
                    "its copy is {states}{since}, and {kind} isn't issued from there"
                )
            }
            LineFault::Answer(reach, snoop, _) => {
                let (states, since) = (States(reach), SinceText(reach.since, names));
                let own = OwnAnswer(reach, snoop);
                write!(f, "its copy is {states}{since}, and {own}")
            }
            LineFault::WriteForm(_, reach) => {
                let (base, since) = (reach.base, SinceText(reach.since, names));
                write!(f, "its copy is {base}{since}, which has another form")
            }
            LineFault::NoCopy(reach) => {
                let since = SinceText(reach.since, names);
                write!(f, "its copy is I{since}, which no load reads")
            }
            LineFault::Word(word, KnownWord { value, since }, basis) => {
                let since = SinceText(since, names);
                let pending = pending_text(basis);
                write!(f, "word {word} of its copy is {value:x}{since}{pending}")
            }
            LineFault::NoStore(reach) => {
                let (states, since) = (States(reach), SinceText(reach.since, names));
                write!(f, "its copy is {states}{since}, which no store writes")
            }
            _ => self.write_stage(f),
        }
    }
}

impl fmt::Display for FaultText<'_> {
    fn fmt<W: fmt::Write>(&self, f: &mut fmt::Formatter<W>) -> fmt::Result {
        f.write_str(match self.fault.basis() {
            Basis::Standard => "CHI: ",
            Basis::Profile => "this profile: ",
        })?;
        self.write_reason(f)
    }
}
