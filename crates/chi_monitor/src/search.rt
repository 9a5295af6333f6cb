//! The explanation of all that was seen of a line.
//! Not trusted in what it finds: chi_explain does that again, and compares. Of a fault by turns alone it is proved that
//! it is one.

ghost use Rattle.std.specs.Prelude.{◌≡◌, ◌<◌, IfErr, IfOk, Ok, OnOk, Some, false, replicate, true};
ghost use Rattle.chi_explain.specs.declared.observed.Observed.TheVariants.{Flit, Load, Store};
ghost use Rattle.std.specs.Result.{is_err};
ghost use Rattle.chi_monitor.specs.HomeTurns.{home_behind, is_out_of_turn, no_home};
ghost use Rattle.chi_monitor.specs.Places.{IsToldFault, is_settled, told_at};
ghost use Rattle.chi_monitor.specs.Turns.{no_turn, turns_after};

use crate::explained::NoExplanation;
use crate::faults::{LineFault, SeenAt, WrongForm, WrongSnoops};
use crate::home_turns::{HomeFault, HomeTurn};
use crate::line::{Draft, Search};
use crate::turns::{Turn, Turns, turn_of};
use crate::values::SeenWords;
use chi_explain::{Observed, SentFlit, StoreListing, WitnessItem};
use chi_flit::{
    Agent, CreditType, DatUp, Data, Msg, Profile, RspDown, RspUp, Slot, Step, WordNo, credit_type,
};
use chi_slice::Config;
use std::alloc::Allocator;

/// Actions that explain what was seen of a line, and what its memory had at first.
/// Source: `docs/TRACES.md`, "Explanations".
#[derive(Drop)]
pub struct Witness<A: Allocator> {
    pub memory: Data,
    pub items: Vec<WitnessItem, A>,
    /// Of each that was seen, how many of the items were found once it was taken.
    pub ends: Vec<usize, A>,
}

/// A line as the flits so far have shown it: whose turn it is, what the home does, and all else that is known.
#[derive(Drop)]
pub(crate) struct LineSearch<A: Allocator> {
    profile: Profile,
    stores: StoreListing,
    /// How many agents there are.
    agents: u8,
    turns: Turns,
    home: HomeTurn,
    pub(crate) known: Search<A>,
}

impl<A: Allocator + Copy> LineSearch<A> {
    /// A line of such a node that nobody has a copy of, and nothing is known of its memory.
    pub fn new(alloc: A, config: &Config, stores: StoreListing) -> Result<LineSearch<A>, LineFault>
        ensures profile { IfOk result (λ search. search.profile ≡ config.now.profile) }
        ensures stores { IfOk result (λ search. search.stores ≡ stores) }
        ensures turns { IfOk result (λ search. search.turns ≡ replicate 8 no_turn) }
        ensures home { IfOk result (λ search. search.home ≡ no_home) }
    {
        Ok(LineSearch {
            profile: config.profile(),
            stores,
            agents: config.agents(),
            turns: [Turn::NONE; 8],
            home: HomeTurn::NONE,
            known: Search::new(alloc, stores)?,
        })
    }
}

impl<A: Allocator> LineSearch<A> {
    /// Forgets the items that no flit can change any more, and the words that the line hasn't.
    pub fn forget(&mut self) -> Result<(), LineFault> {
        self.known.forget(&self.home.service)
    }

    /// The slot of the agent's request, or the first one.
    pub fn slot_of(&self, agent: Agent) -> Slot
        requires { agent.0 < 8 }
    {
        match turn_of(&self.turns, agent).asked {
            Some(asked) => asked.slot,
            None => Slot(0),
        }
    }

    /// The type of the agent's request, or the first one.
    pub fn credit_of(&self, agent: Agent) -> CreditType
        requires { agent.0 < 8 }
    {
        match turn_of(&self.turns, agent).asked {
            Some(asked) => credit_type(self.profile, asked.kind),
            None => CreditType::T0,
        }
    }
}

/// Actions that should explain what was seen of a line, or the first of it that no run of the model sends or does.
pub(crate) fn search_line<A: Allocator + Copy>(
    alloc: A,
    config: &Config,
    stores: StoreListing,
    seen: &[Observed],
) -> Result<Witness<A>, NoExplanation>
    ensures { IfErr result (IsToldFault config.now stores seen.now) }
{
    let mut ends = Vec::new(alloc);
    let mut search = match LineSearch::new(alloc, config, stores) {
        Ok(search) => search,
        Err(_) => return Err(NoExplanation::NoMemory),
    };
    for (at, item) in seen.iter().enumerate() {
        let taken = take(&mut search, item, SeenAt(at as u64));
        if let Err(fault) = taken {
            return Err(told_at(at, fault));
        }
        if ends.push(search.known.items().len()).is_err() {
            return Err(NoExplanation::NoMemory);
        }
    }
    search.known.close(&search.home.service);
    match explanation(alloc, &search.known, ends) {
        Ok(witness) => Ok(witness),
        Err(_) => Err(NoExplanation::NoMemory),
    }
}

/// The fault of what was seen at this place, or want of memory.
fn told_at(at: usize, fault: LineFault) -> NoExplanation
    ensures { result ≡ told_at at fault }
{
    match fault {
        LineFault::NoMemory => NoExplanation::NoMemory,
        fault => NoExplanation::Fault(at, fault),
    }
}

/// The line behind what was seen, of which none is a fault.
pub(crate) fn line_behind<A: Allocator + Copy>(
    alloc: A,
    config: &Config,
    stores: StoreListing,
    seen: &[Observed],
) -> Result<LineSearch<A>, LineFault> {
    let mut search = LineSearch::new(alloc, config, stores)?;
    for (at, item) in seen.iter().enumerate() {
        take(&mut search, item, SeenAt(at as u64))?;
    }
    Ok(search)
}

/// Takes what was seen next, of this number, with all words of its data.
pub(crate) fn take<A: Allocator>(
    search: &mut LineSearch<A>,
    seen: &Observed,
    at: SeenAt,
) -> Result<(), LineFault>
    ensures taken { OnOk result (turns_after search.old.profile search.old.stores at
        search.old.turns seen.now ≡ Ok search.new.turns) }
    ensures home { OnOk result (home_behind search.old.turns at search.old.home seen.now
        ≡ Some search.new.home) }
    ensures refused { IfErr result (λ fault. is_settled fault ≡ true → is_out_of_turn
        search.old.profile search.old.stores at search.old.turns search.old.home seen.now ≡ true) }
    ensures profile { search.new.profile ≡ search.old.profile }
    ensures stores { search.new.stores ≡ search.old.stores }
{
    take_part(search, seen, &words_in(seen), at)
}

/// Takes what was seen next, of this number, whose data, if it has any, has these words.
pub(crate) fn take_part<A: Allocator>(
    search: &mut LineSearch<A>,
    seen: &Observed,
    words: &SeenWords,
    at: SeenAt,
) -> Result<(), LineFault>
    ensures taken { OnOk result (turns_after search.old.profile search.old.stores at
        search.old.turns seen.now ≡ Ok search.new.turns) }
    ensures home { OnOk result (home_behind search.old.turns at search.old.home seen.now
        ≡ Some search.new.home) }
    ensures refused { IfErr result (λ fault. is_settled fault ≡ true → is_out_of_turn
        search.old.profile search.old.stores at search.old.turns search.old.home seen.now ≡ true) }
    ensures profile { search.new.profile ≡ search.old.profile }
    ensures stores { search.new.stores ≡ search.old.stores }
{
    search.known.values.number = at;
    match seen {
        Observed::Flit(flit) => take_flit(search, flit, words, at),
        Observed::Load(agent, word, value) if agent.0 < 8 && word.0 < 8 => {
            take_load(search, *agent, *word, *value, at)
        }
        Observed::Store(agent, word, value) if agent.0 < 8 && word.0 < 8 => {
            take_store(search, *agent, *word, *value, at)
        }
        Observed::Load(_, _, _) | Observed::Store(_, _, _) => Err(LineFault::NoAgent),
    }
}

/// Takes the agent's load of this value.
fn take_load<A: Allocator>(
    search: &mut LineSearch<A>,
    agent: Agent,
    word: WordNo,
    value: u64,
    at: SeenAt,
) -> Result<(), LineFault>
    requires agents { agent.0 < 8 }
    requires words { word.0 < 8 }
    ensures taken { OnOk result (turns_after search.old.profile search.old.stores at
        search.old.turns (Load agent word value) ≡ Ok search.new.turns) }
    ensures home { search.new.home ≡ search.old.home }
    ensures refused { IfErr result (λ fault. is_settled fault ≡ true → is_err (turns_after
        search.old.profile search.old.stores at search.old.turns (Load agent word value)) ≡ true) }
    ensures profile { search.new.profile ≡ search.old.profile }
    ensures stores { search.new.stores ≡ search.old.stores }
{
    let reach = turn_of(&search.turns, agent).reach(search.stores);
    if reach.base.is_valid() {
        search.known.load(&search.turns, agent, word, value)
    } else {
        Err(LineFault::NoCopy(reach))
    }
}

/// Takes the agent's store of this value.
fn take_store<A: Allocator>(
    search: &mut LineSearch<A>,
    agent: Agent,
    word: WordNo,
    value: u64,
    at: SeenAt,
) -> Result<(), LineFault>
    requires agents { agent.0 < 8 }
    requires words { word.0 < 8 }
    ensures taken { OnOk result (turns_after search.old.profile search.old.stores at
        search.old.turns (Store agent word value) ≡ Ok search.new.turns) }
    ensures home { search.new.home ≡ search.old.home }
    ensures refused { IfErr result (λ fault. is_settled fault ≡ true → is_err (turns_after
        search.old.profile search.old.stores at search.old.turns (Store agent word value)) ≡ true) }
    ensures profile { search.new.profile ≡ search.old.profile }
    ensures stores { search.new.stores ≡ search.old.stores }
{
    let turn = turn_of(&search.turns, agent);
    let turned = turn.stored(&turn.reach(search.stores), at)?;
    search.known.store(agent, word, value)?;
    search.turns[usize::from(agent.0)] = turned.turn;
    Ok(())
}

/// All words of the data of what was seen; none where it has no data.
pub(crate) fn words_in(seen: &Observed) -> SeenWords {
    match seen {
        Observed::Flit(flit) => match &flit.message {
            Msg::DatDown(read) => whole(&read.words),
            Msg::DatUp(written) => written_words(written),
            Msg::Req(_) | Msg::Snp(_) | Msg::RspDown(_) | Msg::RspUp(_) => [None; 8],
        },
        Observed::Load(_, _, _) | Observed::Store(_, _, _) => [None; 8],
    }
}

/// The words of data to the home.
fn written_words(written: &DatUp) -> SeenWords {
    match written {
        DatUp::SnpRespDataIPD(words)
        | DatUp::SnpRespDataSCPD(words)
        | DatUp::SnpRespDataSD(words)
        | DatUp::CopyBackWrData(_, words) => whole(words),
    }
}

/// Words that were all seen.
fn whole(words: &Data) -> SeenWords {
    let mut seen = [None; 8];
    for (place, word) in seen.iter_mut().zip(words) {
        *place = Some(*word);
    }
    seen
}

/// Whether it is a first attempt in no slot.
fn has_no_slot(message: &Msg) -> bool {
    match message {
        Msg::Req(request) => request.allow_retry && request.slot.0 >= 8,
        _ => false,
    }
}

/// Takes the next flit, of this number.
fn take_flit<A: Allocator>(
    search: &mut LineSearch<A>,
    flit: &SentFlit,
    words: &SeenWords,
    at: SeenAt,
) -> Result<(), LineFault>
    ensures taken { OnOk result (turns_after search.old.profile search.old.stores at
        search.old.turns (Flit flit.now) ≡ Ok search.new.turns) }
    ensures home { OnOk result (home_behind search.old.turns at search.old.home (Flit flit.now)
        ≡ Some search.new.home) }
    ensures refused { IfErr result (λ fault. is_settled fault ≡ true → is_out_of_turn
        search.old.profile search.old.stores at search.old.turns search.old.home
        (Flit flit.now) ≡ true) }
    ensures profile { search.new.profile ≡ search.old.profile }
    ensures stores { search.new.stores ≡ search.old.stores }
{
    let agent = flit.agent;
    if agent.0 >= 8 || agent.0 >= search.agents || has_no_slot(&flit.message) {
        return Err(LineFault::NoAgent);
    }
    let turned = turn_of(&search.turns, agent).after(
        search.profile,
        search.stores,
        at,
        &flit.message,
    )?;
    let home = match search.home.after(&search.turns, at, agent, &flit.message) {
        Ok(home) => home,
        Err(fault) => return Err(search.known.told(&search.turns, fault)),
    };
    search
        .known
        .follow(&search.turns, &search.home, agent, &flit.message, words)?;
    search.turns[usize::from(agent.0)] = turned.turn;
    search.home = home;
    if turned.cancels {
        search.known.act(agent, Step::Cancel)?;
    }
    Ok(())
}

impl<A: Allocator> Search<A> {
    /// The fault of a flit that the home doesn't send.
    fn told(&self, turns: &Turns, fault: HomeFault) -> LineFault {
        match fault {
            HomeFault::Told(fault) => fault,
            HomeFault::Unsnooped(kind, other) if other.0 < 8 => {
                let wrong = WrongSnoops::Unsnooped(other, self.reach(turns, other));
                LineFault::Snoops(kind, wrong)
            }
            HomeFault::Shared(other) if other.0 < 8 => {
                LineFault::Form(WrongForm::Shared(other, self.reach(turns, other)))
            }
            HomeFault::Unsnooped(_, _) | HomeFault::Shared(_) => LineFault::NoAgent,
        }
    }

    /// Takes the next flit of an agent, whose turn it is, and the home's.
    fn follow(
        &mut self,
        turns: &Turns,
        home: &HomeTurn,
        agent: Agent,
        message: &Msg,
        words: &SeenWords,
    ) -> Result<(), LineFault>
        requires { agent.0 < 8 }
        ensures { IfErr result (λ fault. is_settled fault ≡ false) }
    {
        match message {
            Msg::Req(request) if request.allow_retry => {
                self.issue(turns, agent, request.kind, request.slot)
            }
            Msg::Req(_) => self.act(agent, Step::Resend),
            Msg::Snp(_) => self.snoop(home, agent),
            Msg::RspDown(RspDown::RetryAck(_)) => self.retry(agent),
            Msg::RspDown(RspDown::CompUC) => self.complete_unique(home, agent),
            Msg::RspDown(RspDown::CompI) => self.complete_evict(agent),
            Msg::RspDown(RspDown::CompDBIDResp) => self.ask_write_data(agent),
            Msg::DatDown(read) => self.complete_read(turns, home, agent, read.unique, words),
            Msg::RspUp(RspUp::CompAck) => self.acknowledge(turns, agent),
            Msg::DatUp(DatUp::CopyBackWrData(form, _)) => self.write(turns, agent, *form, words),
            Msg::RspUp(_) | Msg::DatUp(_) => self.answer(turns, agent, message, words),
        }
    }
}

/// The explanation, in which words that no flit has shown are 0.
fn explanation<A: Allocator + Copy>(
    alloc: A,
    search: &Search<A>,
    ends: Vec<usize, A>,
) -> Result<Witness<A>, LineFault> {
    let mut items = Vec::new(alloc);
    for item in search.items() {
        items.push(known_item(search, *item))?;
    }
    Ok(Witness {
        memory: search.opening(),
        items,
        ends,
    })
}

/// The item, with the values that are known now.
fn known_item<A: Allocator>(search: &Search<A>, item: Draft) -> WitnessItem {
    match item {
        Draft::Act(agent, step) => WitnessItem::Act(agent, step),
        Draft::Store(agent, word, value) => {
            WitnessItem::Act(agent, Step::Store(word, search.value(value)))
        }
        Draft::Snoop(agent) => WitnessItem::Snoop(agent),
        Draft::Seen(item) => item,
    }
}
