//! A home of few entries, whose tracker sends back just the requests that an explanation says: requests to other
//! lines hold the entries that no request of the explained line has. No clause says so: that its check files hold is
//! tested.

ghost use Rattle.std.specs.Prelude.{◌<◌};

use crate::names::kept;
use chi_explain::WitnessItem;
use chi_flit::{Agent, CreditType, Kind, NoMemory, Profile, Step, credit_type};
use chi_script::{FILLER_BEGINS, FILLER_ENDS};
use std::alloc::Allocator;
use std::fmt::Write;

/// The types of credit, by their numbers.
const TYPES: [CreditType; 4] = [
    CreditType::T0,
    CreditType::T1,
    CreditType::T2,
    CreditType::T3,
];

/// What an agent has asked for at the explained line.
#[derive(Clone, Copy)]
struct Asked {
    ty: CreditType,
    /// Its RetryAck came, and an entry is promised to it.
    promised: bool,
}

/// The size of the home, and who has its entries.
#[derive(Clone, Copy)]
pub(crate) struct Ballast {
    profile: Profile,
    agents: u8,
    /// The entries by their types.
    entries: [u8; 4],
    /// How many other lines there are for requests of each type.
    lines: [u8; 4],
    /// How many of them have a request that holds an entry.
    held: [u8; 4],
    promised: [u8; 4],
    /// The type of the entry that the request has which is served at the explained line.
    serving: Option<CreditType>,
    asked: [Option<Asked>; 8],
}

/// The most promises of each type that are open at once.
fn most_promised(profile: Profile, items: &[WitnessItem]) -> [u8; 4] {
    let mut ballast = Ballast::empty(profile);
    let mut most = [0; 4];
    for item in items {
        if let WitnessItem::Act(agent, step) = *item {
            ballast.note(agent, step);
        }
        for (most, promised) in most.iter_mut().zip(ballast.promised) {
            *most = promised.max(*most);
        }
    }
    most
}

/// The commands that are written next are none of what is explained.
pub(crate) fn write_beginning<A: Allocator>(text: &mut String<A>) -> Result<(), NoMemory> {
    kept(writeln!(text, "{FILLER_BEGINS}"))
}

/// What is written next is of what is explained again.
pub(crate) fn write_end<A: Allocator>(text: &mut String<A>) -> Result<(), NoMemory> {
    kept(writeln!(text, "{FILLER_ENDS}"))
}

/// The place of a type among the four.
fn place_of(ty: CreditType) -> usize
    ensures { result < 4 }
{
    match ty {
        CreditType::T0 => 0,
        CreditType::T1 => 1,
        CreditType::T2 => 2,
        CreditType::T3 => 3,
    }
}

impl Ballast {
    /// A home without entries.
    fn empty(profile: Profile) -> Ballast {
        Ballast {
            profile,
            agents: 8,
            entries: [0; 4],
            lines: [0; 4],
            held: [0; 4],
            promised: [0; 4],
            serving: None,
            asked: [None; 8],
        }
    }

    /// The home for these items of an explanation, of so many agents.
    pub fn new(profile: Profile, agents: u8, items: &[WitnessItem]) -> Ballast {
        let most = most_promised(profile, items);
        let mut ballast = Ballast::empty(profile);
        let retries = most.iter().any(|count| *count > 0);
        ballast.agents = if retries { agents.max(3) } else { agents };
        for (number, most) in most.iter().enumerate() {
            let entries = if retries { most.saturating_add(2) } else { 1 };
            ballast.entries[number] = entries;
            ballast.lines[number] = if *most > 0 { entries } else { 0 };
        }
        ballast
    }

    /// Puts the header of a file behind the text.
    pub fn write_header<A: Allocator>(&self, text: &mut String<A>) -> Result<(), NoMemory> {
        let [t0, t1, t2, t3] = self.entries;
        let agents = self.agents;
        let lines = self
            .lines
            .iter()
            .fold(1_u8, |sum, more| sum.saturating_add(*more));
        kept(match self.profile {
            Profile::Two => writeln!(text, "node {agents} {lines} 1 {t0} {t1} 65536"),
            Profile::Four => { writeln!(text, "node {agents} {lines} 1 {t0} {t1} {t2} {t3} 65536") }
        })
    }

    /// The type of the agent's request.
    pub fn type_of(&self, agent: Agent) -> CreditType {
        match self.asked.get(usize::from(agent.0)) {
            Some(Some(asked)) => asked.ty,
            _ => CreditType::T0,
        }
    }

    /// Whether an entry is promised to the agent.
    fn is_promised(&self, agent: Agent) -> bool {
        match self.asked.get(usize::from(agent.0)) {
            Some(Some(asked)) => asked.promised,
            _ => false,
        }
    }

    fn put(&mut self, agent: Agent, asked: Option<Asked>) {
        if let Some(place) = self.asked.get_mut(usize::from(agent.0)) {
            *place = asked;
        }
    }

    /// Promises an entry to the agent, or takes its promise back.
    fn promise(&mut self, agent: Agent, promised: bool) {
        let ty = self.type_of(agent);
        if promised != self.is_promised(agent) {
            let count = self.promised[place_of(ty)];
            self.promised[place_of(ty)] = if promised {
                count.saturating_add(1)
            } else {
                count.saturating_sub(1)
            };
            self.put(agent, Some(Asked { ty, promised }));
        }
    }

    /// The agent's step at the explained line is done.
    pub fn note(&mut self, agent: Agent, step: Step) {
        match step {
            Step::Issue(kind, _) => {
                let ty = credit_type(self.profile, kind);
                let promised = false;
                self.put(agent, Some(Asked { ty, promised }));
            }
            Step::Admit => {
                self.promise(agent, false);
                self.serving = Some(self.type_of(agent));
            }
            Step::RecvRetry => self.promise(agent, true),
            Step::Cancel => self.promise(agent, false),
            Step::RecvAck | Step::RecvWrData => self.serving = None,
            // (of an Evict, which is over at its Start)
            Step::RecvComp => self.serving = None,
            _ => {}
        }
    }

    /// How many entries of the type are free.
    fn free(&self, ty: CreditType) -> u8 {
        let at = place_of(ty);
        let served = match self.serving {
            Some(serving) => u8::from(serving == ty),
            None => 0,
        };
        self.entries[at]
            .saturating_sub(self.held[at])
            .saturating_sub(self.promised[at])
            .saturating_sub(served)
    }

    /// The agent, the line and the slot of the request that holds the type's entry of this number.
    fn holder(&self, ty: CreditType, which: u8) -> (u8, u8, u8) {
        let before = TYPES
            .iter()
            .zip(self.lines)
            .filter(|(other, _)| other.number() < ty.number())
            .fold(0_u8, |sum, (_, lines)| sum.saturating_add(lines));
        let place = before.saturating_add(which);
        let agents = self.agents.max(1);
        (
            place % agents,
            place.saturating_add(1),
            (place / agents).saturating_add(1),
        )
    }

    /// The kind of the requests that hold entries of the type.
    fn kind(&self, ty: CreditType) -> Kind {
        match (self.profile, ty) {
            (_, CreditType::T1) => Kind::WriteEvictFull,
            (Profile::Four, CreditType::T0) => Kind::ReadNotSharedDirty,
            (Profile::Four, CreditType::T3) => Kind::Evict,
            (_, _) => Kind::ReadUnique,
        }
    }

    /// Before an agent's request is let in: an entry of its type is free.
    pub fn write_room<A: Allocator>(
        &mut self,
        text: &mut String<A>,
        agent: Agent,
    ) -> Result<(), NoMemory> {
        let ty = self.type_of(agent);
        if self.is_promised(agent) || self.free(ty) > 0 {
            return Ok(());
        }
        write_beginning(text)?;
        self.write_release(text, ty)?;
        write_end(text)
    }

    /// An entry of the type is free.
    fn write_free<A: Allocator>(
        &mut self,
        text: &mut String<A>,
        ty: CreditType,
    ) -> Result<(), NoMemory> {
        if self.free(ty) == 0 {
            self.write_release(text, ty)?;
        }
        Ok(())
    }

    /// Before an agent's request is sent back: no entry of its type is free.
    pub fn write_full<A: Allocator>(
        &mut self,
        text: &mut String<A>,
        agent: Agent,
    ) -> Result<(), NoMemory> {
        let ty = self.type_of(agent);
        let free = self.free(ty);
        if free == 0 {
            return Ok(());
        }
        write_beginning(text)?;
        for _ in 0..free {
            self.write_hold(text, ty)?;
        }
        write_end(text)
    }

    /// After an agent's RetryAck was taken: the entry that a request to another line leaves is promised to it.
    pub fn write_grant<A: Allocator>(
        &mut self,
        text: &mut String<A>,
        agent: Agent,
    ) -> Result<(), NoMemory> {
        let ty = self.type_of(agent);
        write_beginning(text)?;
        self.write_release(text, ty)?;
        kept(writeln!(text, "see {agent}"))?;
        write_end(text)
    }

    /// After an agent's request was cancelled: its credit is given back.
    pub fn write_return<A: Allocator>(
        &self,
        text: &mut String<A>,
        agent: Agent,
    ) -> Result<(), NoMemory> {
        let ty = self.type_of(agent);
        write_beginning(text)?;
        kept(writeln!(text, "giveback {agent} {ty}"))?;
        write_end(text)
    }

    /// A request to another line takes a free entry of the type.
    fn write_hold<A: Allocator>(
        &mut self,
        text: &mut String<A>,
        ty: CreditType,
    ) -> Result<(), NoMemory> {
        let kind = self.kind(ty);
        let at = place_of(ty);
        let (n, l, s) = self.holder(ty, self.held[at]);
        if matches!(kind, Kind::WriteEvictFull | Kind::Evict) {
            self.write_free(text, credit_type(self.profile, Kind::ReadUnique))?;
            kept(writeln!(
                text,
                "issue {n} {l} ReadUnique {s}\narrive {n} {l}\nstart {n} {l}\ndata {n} {l}\nack {n} {l}"
            ))?;
        }
        kept(writeln!(text, "issue {n} {l} {kind} {s}\narrive {n} {l}"))?;
        self.held[at] = self.held[at].saturating_add(1);
        Ok(())
    }

    /// A request to another line that holds an entry of the type comes to its end.
    fn write_release<A: Allocator>(
        &mut self,
        text: &mut String<A>,
        ty: CreditType,
    ) -> Result<(), NoMemory> {
        let at = place_of(ty);
        self.held[at] = self.held[at].saturating_sub(1);
        let (n, l, _) = self.holder(ty, self.held[at]);
        kept(match self.kind(ty) {
            Kind::WriteEvictFull => {
                writeln!(text, "start {n} {l}\ndbid {n} {l}\nwrdata {n} {l}")
            }
            Kind::Evict => writeln!(text, "start {n} {l}\ncomp {n} {l}"),
            _ => writeln!(
                text,
                "start {n} {l}\ndata {n} {l}\nack {n} {l}\ndrop {n} {l}"
            ),
        })
    }
}
