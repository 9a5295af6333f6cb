//! The actions that explain what was seen of a line.

ghost use Rattle.std.specs.Prelude.{◌≡◌, ◌<◌, IfErr, IfOk, IsTrue, OnOk, length, replicate, false, true};
ghost use Rattle.std.specs.List.{All};
ghost use Rattle.chi_explain.specs.Explained.{Explained, Explains, IsAct, IsStepSeen, IsExplained, IsSnoopShown, IsSnoopSeen, IsUnexplainedBy, MayTake, is_listed, line_action, is_shown, shown_after};
ghost use Rattle.chi_explain.specs.declared.explanations.WitnessItem.TheVariants.{Load, Store};
ghost use Rattle.chi_explain.specs.declared.explanations.Unexplained.TheVariants.{NoMemory};
ghost use Rattle.chi_slice.specs.Slice.{line, slice_after};

use crate::observed::{Observed, StoreListing};
use crate::openings::{LINE, opened};
use crate::sent::{SentFlit, behind, behind_agent, behind_load, behind_store, busy_in, flit_agent};
use chi_flit::{Action, Agent, Data, Effect, Msg, NoMemory, Refusal, Snoop, Step, WordNo};
use chi_line::CoherentLine;
use chi_slice::{Config, Slice};
use std::alloc::Allocator;

/// An item of an explanation.
/// Source: `docs/TRACES.md`, "Explanations".
#[derive(Clone, Copy, Debug, PartialEq, Eq)]
pub enum WitnessItem {
    /// The agent's step is done.
    Act(Agent, Step),
    /// The snoop to the agent, which an earlier step has sent, is seen.
    Snoop(Agent),
    /// The agent's load, which was seen, reads this value of the word.
    Load(Agent, WordNo, u64),
    /// The agent's store, which was seen, writes this value to the word.
    Store(Agent, WordNo, u64),
}

/// Why the items of an explanation don't explain what was seen.
/// Source: `docs/TRACES.md`, "Explanations".
#[derive(Clone, Copy, Debug, PartialEq, Eq)]
pub enum Unexplained {
    /// Memory ran out.
    NoMemory,
    /// The journal of a slice has no room for what the memory has at first.
    NoRoom,
    /// This item, counted from 0, is refused so.
    Refused(usize, Refusal),
    /// This item, counted from 0, sends something else than was seen next, or a snoop is answered that wasn't
    /// seen, or a load reads another value.
    Differs(usize),
    /// All items are done, and so much of what was seen is left.
    Left(usize),
    /// All stores are listed, and an item is a store that isn't.
    Unlisted,
}

/// Which agents' snoops that are in flight were seen.
type Shown = [bool; 8];

impl From<NoMemory> for Unexplained {
    ghost from_gives = { λ lack cause. cause ≡ NoMemory };

    fn from(_lack: NoMemory) -> Unexplained {
        Unexplained::NoMemory
    }
}

/// Why an item doesn't explain what was seen next.
#[derive(Clone, Copy)]
enum Missed {
    Refused(Refusal),
    Differs,
}

/// The effect of a step that is done, and what is left of what was seen behind the flits that it sends.
#[derive(Clone, Copy)]
struct Sent<'f> {
    effect: Effect,
    rest: &'f [Observed],
}

/// Does the items in their order on a line whose memory has these words at first, in a node of this size, and
/// compares what they send with what was seen: it is explained where each item is enabled and sends what was seen
/// next, each load and store that was seen is an item in its turn, and nothing that was seen is left. Where all stores
/// are listed no other item is a store.
/// Source: `docs/TRACES.md`, "Explanations".
pub fn explain_line<A: Allocator + Copy>(
    alloc: A,
    config: &Config,
    stores: StoreListing,
    memory: Data,
    items: &[WitnessItem],
    seen: &[Observed],
) -> Result<(), Unexplained>
    ensures explained { OnOk result (IsExplained config.now stores memory items.now seen.now) }
    ensures unexplained { IfErr result (IsUnexplainedBy (length items.now)) }
{
    if !are_listed(stores, items) {
        return Err(Unexplained::Unlisted);
    }
    match opened(alloc, config, memory)? {
        Some(mut slice) => explain_from(&mut slice, items, seen),
        None => Err(Unexplained::NoRoom),
    }
}

/// Whether no item is a store that should be listed and isn't.
fn are_listed(stores: StoreListing, items: &[WitnessItem]) -> bool
    ensures { IsTrue result → All (λ item. is_listed stores item ≡ true) items.now }
{
    items.iter().all(|item| is_listed(stores, *item))
}

/// Whether the item is no store that should be listed and isn't.
fn is_listed(stores: StoreListing, item: WitnessItem) -> bool
    ensures { result ≡ is_listed stores item }
{
    match (stores, item) {
        (StoreListing::Complete, WitnessItem::Act(_, Step::Store(_, _))) => false,
        _ => true,
    }
}

/// The same from a slice as it stands.
fn explain_from<A: Allocator>(
    slice: &mut Slice<A>,
    items: &[WitnessItem],
    seen: &[Observed],
) -> Result<(), Unexplained>
    ensures explained { OnOk result
        (Explained slice.old (replicate 8 false) items.now seen.now) }
    ensures unexplained { IfErr result (IsUnexplainedBy (length items.now)) }
{
    let mut shown = [false; 8];
    let mut rest = seen;
    for (at, item) in items.iter().enumerate() {
        rest = match explain_next(slice, &mut shown, *item, rest) {
            Ok(later) => later,
            Err(Missed::Refused(refusal)) => return Err(Unexplained::Refused(at, refusal)),
            Err(Missed::Differs) => return Err(Unexplained::Differs(at)),
        };
    }
    if rest.is_empty() {
        Ok(())
    } else {
        Err(Unexplained::Left(rest.len()))
    }
}

/// Does one item; what is left of what was seen.
fn explain_next<'f, A: Allocator>(
    slice: &mut Slice<A>,
    shown: &mut Shown,
    item: WitnessItem,
    seen: &'f [Observed],
) -> Result<&'f [Observed], Missed>
    ensures { IfOk result
        (λ rest. Explains item slice.old shown.old seen.now slice.new shown.new rest.now) }
{
    match item {
        WitnessItem::Act(agent, step) if agent.0 < 8 => {
            let sent = act(slice, shown, agent, step, seen)?;
            Ok(sent.rest)
        }
        WitnessItem::Snoop(agent) if agent.0 < 8 => show(slice, shown, agent, seen),
        WitnessItem::Load(agent, word, value) if agent.0 < 8 => {
            load(slice, shown, agent, word, value, seen)
        }
        WitnessItem::Store(agent, word, value) if agent.0 < 8 => {
            store(slice, shown, agent, word, value, seen)
        }
        WitnessItem::Act(_, _)
        | WitnessItem::Snoop(_)
        | WitnessItem::Load(_, _, _)
        | WitnessItem::Store(_, _, _) => { Err(Missed::Refused(Refusal::OutOfRange)) }
    }
}

/// The agent's load reads this value, and was seen next.
fn load<'f, A: Allocator>(
    slice: &mut Slice<A>,
    shown: &mut Shown,
    agent: Agent,
    word: WordNo,
    value: u64,
    seen: &'f [Observed],
) -> Result<&'f [Observed], Missed>
    requires { agent.0 < 8 }
    ensures { IfOk result (λ rest.
        Explains (Load agent word value) slice.old shown.old seen.now slice.new shown.new rest.now) }
{
    let sent = act(slice, shown, agent, Step::Load(word), seen)?;
    match sent.effect {
        Effect::Value(read) if read == value => {}
        _ => return Err(Missed::Differs),
    }
    behind_load(sent.rest, agent, word, value).ok_or(Missed::Differs)
}

/// The agent's store of this value was seen next.
fn store<'f, A: Allocator>(
    slice: &mut Slice<A>,
    shown: &mut Shown,
    agent: Agent,
    word: WordNo,
    value: u64,
    seen: &'f [Observed],
) -> Result<&'f [Observed], Missed>
    requires { agent.0 < 8 }
    ensures { IfOk result (λ rest.
        Explains (Store agent word value) slice.old shown.old seen.now slice.new shown.new rest.now) }
{
    let sent = act(slice, shown, agent, Step::Store(word, value), seen)?;
    behind_store(sent.rest, agent, word, value).ok_or(Missed::Differs)
}

/// A snoop to the agent that is in flight and wasn't seen is the flit that was seen next.
fn show<'f, A: Allocator>(
    slice: &Slice<A>,
    shown: &mut Shown,
    agent: Agent,
    seen: &'f [Observed],
) -> Result<&'f [Observed], Missed>
    requires { agent.0 < 8 }
    ensures { IfOk result
        (λ rest. IsSnoopShown agent slice.now shown.old seen.now shown.new rest.now) }
{
    let cells = match slice.flits(agent, LINE) {
        Ok(cells) => cells,
        Err(refusal) => return Err(Missed::Refused(refusal)),
    };
    if is_shown(shown, agent) {
        return Err(Missed::Differs);
    }
    let rest = behind_snoop(seen, agent, cells.snp)?;
    shown[usize::from(agent.0)] = true;
    Ok(rest)
}

/// What is left of what was seen behind this snoop to the agent, where it is the first.
fn behind_snoop(
    seen: &[Observed],
    agent: Agent,
    snoop: Option<Snoop>,
) -> Result<&[Observed], Missed>
    ensures { IfOk result (λ rest. IsSnoopSeen agent snoop seen.now rest.now) }
{
    let Some(snoop) = snoop else {
        return Err(Missed::Differs);
    };
    let message = Msg::Snp(snoop);
    match behind(seen, SentFlit { agent, message }) {
        Some(rest) => Ok(rest),
        None => Err(Missed::Differs),
    }
}

/// The step is enabled, and sends the flits that were seen next; its effect, and what is left.
fn act<'f, A: Allocator>(
    slice: &mut Slice<A>,
    shown: &mut Shown,
    agent: Agent,
    step: Step,
    seen: &'f [Observed],
) -> Result<Sent<'f>, Missed>
    requires { agent.0 < 8 }
    ensures { IfOk result (λ sent. IsStepSeen agent step sent.effect
        slice.old shown.old seen.now slice.new shown.new sent.rest.now) }
{
    if !may_take(shown, agent, step) {
        return Err(Missed::Differs);
    }
    let line = line_in(slice)?;
    let whose = flit_agent(line, agent, step);
    let before = busy_in(line.flits(whose));
    let effect = do_step(slice, agent, step)?;
    answer(shown, agent, step);
    match behind_agent(seen, whose, before, line_in(slice)?.flits(whose)) {
        Some(rest) => Ok(Sent { effect, rest }),
        None => Err(Missed::Differs),
    }
}

/// Does the step; its effect.
fn do_step<A: Allocator>(slice: &mut Slice<A>, agent: Agent, step: Step) -> Result<Effect, Missed>
    ensures act { IfOk result
        (λ effect. IsAct slice.old (line_action agent step) effect slice.new) }
    ensures after { OnOk result (slice.new ≡ slice_after slice.old (line_action agent step)) }
{
    let action = Action {
        agent,
        line: LINE,
        step,
    };
    match slice.act(action) {
        Ok(effect) => Ok(effect),
        Err(refusal) => Err(Missed::Refused(refusal)),
    }
}

/// The line, lent.
fn line_in<A: Allocator>(slice: &Slice<A>) -> Result<&CoherentLine, Missed>
    ensures { IfOk result (λ at. at.now ≡ line slice.now 0) }
{
    match slice.lines() {
        [at, ..] => Ok(at),
        [] => Err(Missed::Refused(Refusal::OutOfRange)),
    }
}

/// Whether the agent's snoop that is in flight was seen.
fn is_shown(shown: &Shown, agent: Agent) -> bool
    requires { agent.0 < 8 }
    ensures { result ≡ is_shown shown.now agent }
{
    shown[usize::from(agent.0)]
}

/// Whether the step may be done: a snoop is answered once it was seen.
fn may_take(shown: &Shown, agent: Agent, step: Step) -> bool
    requires { agent.0 < 8 }
    ensures { IsTrue result → MayTake shown.now agent step }
{
    match step {
        Step::RecvSnp => is_shown(shown, agent),
        _ => true,
    }
}

/// After the step: a snoop that was answered is no more in flight.
fn answer(shown: &mut Shown, agent: Agent, step: Step)
    requires { agent.0 < 8 }
    ensures { shown.new ≡ shown_after shown.old agent step }
{
    match step {
        Step::RecvSnp => shown[usize::from(agent.0)] = false,
        _ => {}
    }
}
