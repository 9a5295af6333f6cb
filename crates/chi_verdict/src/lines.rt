//! The cache lines of a trace, each explained by itself.

ghost use Rattle.std.specs.Prelude.{◌≡◌, ◌≤◌, ◌+◌, [], true, IfErr, IfOk, length, take};
ghost use Rattle.std.specs.List.{All, count_by, slice_get};
ghost use Rattle.chi_verdict.specs.declared.lines.Obstacle.TheVariants as obstacles;
ghost use Rattle.chi_verdict.specs.Lines.{AreItemsExplained, AreLinesExplained, IsObstacle, IsReordered, in_order, is_action, is_on_line, item_in, items_of, said_by};

use chi_explain::{Observed, StoreListing, Unexplained, WitnessItem};
use chi_flit::NoMemory;
use chi_monitor::{LineFault, NoExplanation, explain_flits, first_fault};
use chi_resolution::{CacheLine, Resolved};
use chi_slice::Config;
use std::alloc::{AllocError, AllocFailed, Allocator};

/// By how many actions items are explained, and on how many lines they are.
/// Source: `docs/TRACES.md`, "What is printed".
#[derive(Clone, Copy, Debug, PartialEq, Eq)]
pub struct LineTotals {
    pub actions: u128,
    pub lines: usize,
}

/// Why what was seen of a cache line isn't explained. A flit, a load or a store is named by its place in the trace,
/// counted from 0.
/// Source: `docs/TRACES.md`, "What is printed".
#[derive(Clone, Copy, Debug, PartialEq, Eq)]
pub enum Obstacle {
    /// Memory ran out.
    NoMemory,
    /// No run of the model sends this flit, or does this load or store, behind those before it.
    Fault { at: usize, fault: LineFault },
    /// No explanation of this line was found that holds, though none of its flits is a fault. No trace is known that
    /// leads here: what a search finds is done again and compared, and this says that both differ.
    Undone(CacheLine),
}

impl From<AllocError> for Obstacle {
    ghost from_gives = { λ lack obstacle. obstacle ≡ obstacles.NoMemory };

    fn from(_lack: AllocError) -> Obstacle {
        Obstacle::NoMemory
    }
}

impl<T: Drop> From<AllocFailed<T>> for Obstacle {
    ghost from_gives = { λ lack obstacle. obstacle ≡ obstacles.NoMemory };

    fn from(_lack: AllocFailed<T>) -> Obstacle {
        Obstacle::NoMemory
    }
}

impl From<NoMemory> for Obstacle {
    ghost from_gives = { λ lack obstacle. obstacle ≡ obstacles.NoMemory };

    fn from(_lack: NoMemory) -> Obstacle {
        Obstacle::NoMemory
    }
}

/// The place of an item, and its line: so items are put in another order and stay where they are.
#[derive(Clone, Copy)]
struct Placed {
    line: CacheLine,
    place: usize,
}

/// What the items in front that are of the line say, put into a list that is empty; how many items these are.
fn gather<A: Allocator>(
    seen: &mut Vec<Observed, A>,
    line: CacheLine,
    items: &[Resolved],
    order: &[Placed],
) -> Result<usize, Obstacle>
    requires { seen.old.items ≡ [] }
    ensures bound { IfOk result (λ count. count ≤ length order.now) }
    ensures line { IfOk result (λ count. All (λ item. is_on_line line item
        ≡ true) (take count (in_order items.now order.now))) }
    ensures seen { IfOk result
        (λ count. seen.new.items ≡ said_by (take count (in_order items.now order.now))) }
{
    for (count, placed) in order.iter().enumerate() {
        let Some(item) = items.get(placed.place) else {
            return Err(Obstacle::Undone(line));
        };
        if item.line.0 != line.0 {
            return Ok(count);
        }
        seen.push(item.flit)?;
    }
    Ok(order.len())
}

/// The obstacle at a line whose items, which stand in front, have no explanation.
fn obstacle_at(
    line: CacheLine,
    items: &[Resolved],
    order: &[Placed],
    cause: NoExplanation,
) -> Obstacle {
    match cause {
        NoExplanation::NoMemory | NoExplanation::Undone(Unexplained::NoMemory) => {
            Obstacle::NoMemory
        }
        NoExplanation::Fault(number, fault) => match item_at(items, order, number) {
            Some(item) => Obstacle::Fault { at: item.at, fault },
            None => Obstacle::NoMemory,
        },
        NoExplanation::Undone(_) => Obstacle::Undone(line),
    }
}

/// The item of this number in the order, if there is one.
fn item_at<'i>(items: &'i [Resolved], order: &[Placed], number: usize) -> Option<&'i Resolved> {
    items.get(order.get(number)?.place)
}

/// The items in front that are of one line, explained.
#[derive(Clone, Copy)]
struct Front {
    line: CacheLine,
    /// How many items they are.
    count: usize,
    /// How many actions explain them.
    actions: usize,
}

/// Explains the items in front that are of the first one's line.
fn explain_front<A: Allocator + Copy>(
    alloc: A,
    config: &Config,
    stores: StoreListing,
    items: &[Resolved],
    order: &[Placed],
) -> Result<Front, Obstacle>
    ensures bound { IfOk result (λ front. front.count ≤ length order.now) }
    ensures line { IfOk result (λ front. All (λ item. is_on_line front.line item
        ≡ true) (take front.count (in_order items.now order.now))) }
    ensures explained { IfOk result (λ front. AreItemsExplained config.now stores
        (take front.count (in_order items.now order.now)) front.actions) }
{
    let line = match order.first() {
        Some(placed) => placed.line,
        None => CacheLine(0),
    };
    let mut seen = Vec::new(alloc);
    let count = match gather(&mut seen, line, items, order) {
        Ok(count) => count,
        Err(_) => return Err(Obstacle::NoMemory),
    };
    match explain_flits(alloc, config, stores, &seen) {
        Ok(witness) => Ok(Front {
            line,
            count,
            actions: count_actions(&witness.items),
        }),
        Err(cause) => Err(obstacle_at(line, items, order, cause)),
    }
}

/// Whether the item is an action: that a snoop is seen is none.
fn is_action(item: &WitnessItem) -> bool
    ensures { result ≡ is_action item.now }
{
    !matches!(*item, WitnessItem::Snoop(_))
}

/// How many of the items are actions.
fn count_actions(items: &[WitnessItem]) -> usize
    ensures { result ≡ count_by is_action items.now }
{
    items.iter().filter(|item| is_action(item)).count()
}

/// The number behind that of a line.
fn number_behind(line: CacheLine) -> u128
    ensures { result ≡ line.0 + 1 }
{
    u128::from(line.0) + 1
}

/// Explains items in an order in which they ascend by their lines.
fn explain_sorted<A: Allocator + Copy>(
    alloc: A,
    config: &Config,
    stores: StoreListing,
    items: &[Resolved],
    order: &[Placed],
) -> Result<LineTotals, Obstacle>
    ensures { IfOk result (λ totals. AreLinesExplained config.now stores
        (in_order items.now order.now) totals.actions totals.lines) }
{
    let (mut actions, mut lines): (u128, usize) = (0, 0);
    let mut floor: u128 = 0;
    let mut at = 0;
    while at < order.len() {
        let (_, rest) = order.split_at(at);
        let front = explain_front(alloc, config, stores, items, rest)?;
        if front.count == 0 || u128::from(front.line.0) < floor {
            return Err(Obstacle::Undone(front.line));
        }
        floor = number_behind(front.line);
        actions += front.actions as u128;
        lines += 1;
        at += front.count;
    }
    Ok(LineTotals { actions, lines })
}

/// The items in their order, each by its line and its place.
fn places_of<A: Allocator>(alloc: A, items: &[Resolved]) -> Result<Vec<Placed, A>, AllocError>
    ensures items { IfOk result (λ order. in_order items.now order.items ≡ items.now) }
    ensures lines { IfOk result
        (λ order. All (λ placed. (item_in items.now placed).line ≡ placed.line) order.items) }
{
    let mut order = Vec::with_capacity(alloc, items.len())?;
    for (place, item) in items.iter().enumerate() {
        order.push(Placed {
            line: item.line,
            place,
        })?;
    }
    Ok(order)
}

/// An order in which the items ascend by line, and those of each line stand as before.
fn order_of<A: Allocator>(alloc: A, items: &[Resolved]) -> Result<Vec<Placed, A>, AllocError>
    ensures { IfOk result (λ order. IsReordered items.now (in_order items.now order.items)) }
{
    let mut order = places_of(alloc, items)?;
    order.sort_by_key(|placed| placed.line.0)?;
    Ok(order)
}

/// Puts items that ascend by line, those of each line in their order.
pub(crate) fn sort_items<A: Allocator + Copy>(
    items: &mut Vec<Resolved, A>,
) -> Result<(), AllocError>
    ensures { IsReordered items.old.items items.new.items }
{
    items.sort_by_cached_key(|item| item.line.0)
}

/// Explains the items of each line by themselves, in a node of this size: by how many actions, and on how many lines.
///
/// `Fault` or `Undone` where a line isn't explained: a fault, where there is one, of the first of the flits,
/// loads and stores that have one. Of a settled reason it is that nothing explains its line up to it; that it is so of
/// the others is tested, and no clause says it. `NoMemory` where memory runs out. Whatever the result, the items are the same then but for their order, and those of
/// a line stand as before. Where a line isn't explained they ascend by line, and else they are where they were.
/// Source: `docs/TRACES.md`, "What is printed".
pub fn explain_lines<A: Allocator + Copy>(
    alloc: A,
    config: &Config,
    stores: StoreListing,
    items: &mut Vec<Resolved, A>,
) -> Result<LineTotals, Obstacle>
    ensures explained { IfOk result (λ totals.
        AreLinesExplained config.now stores items.old.items totals.actions totals.lines) }
    ensures told { IfErr result (IsObstacle config.now stores items.old.items) }
    ensures same { IsReordered items.old.items items.new.items }
{
    let order = order_of(alloc, items)?;
    match explain_sorted(alloc, config, stores, items, &order) {
        Ok(totals) => Ok(totals),
        Err(obstacle) => {
            let first = first_obstacle(alloc, config, stores, items, &order, obstacle);
            let told = told_alone(alloc, config, stores, items, first);
            sort_items(items)?;
            Err(told)
        }
    }
}

/// The obstacle that was met first, as a search of its line alone tells it.
fn told_alone<A: Allocator + Copy>(
    alloc: A,
    config: &Config,
    stores: StoreListing,
    items: &[Resolved],
    met: Obstacle,
) -> Obstacle
    ensures { IsObstacle config.now stores items.now result }
{
    match met {
        Obstacle::NoMemory => Obstacle::NoMemory,
        Obstacle::Fault { at, fault: _ } => match items.iter().find(|item| item.at == at) {
            Some(item) => fault_of(alloc, config, stores, item.line, items),
            None => Obstacle::NoMemory,
        },
        Obstacle::Undone(line) => Obstacle::Undone(line),
    }
}

/// The items of the line, in their order.
fn items_of<A: Allocator>(
    alloc: A,
    line: CacheLine,
    items: &[Resolved],
) -> Result<Vec<Resolved, A>, AllocError>
    ensures { IfOk result (λ own. own.items ≡ items_of line items.now) }
{
    let mut own = Vec::new(alloc);
    for item in items {
        if item.line.0 == line.0 {
            own.push(*item)?;
        }
    }
    Ok(own)
}

/// The item of this number, if there is one.
fn item_of_number(items: &[Resolved], number: usize) -> Option<Resolved>
    ensures { result ≡ slice_get items.now number }
{
    match items.get(number) {
        Some(item) => Some(*item),
        None => None,
    }
}

/// The fault of a line.
#[tactic(auto, using(crate::proofs::FaultLemmas::line_fault))]
fn fault_of<A: Allocator + Copy>(
    alloc: A,
    config: &Config,
    stores: StoreListing,
    line: CacheLine,
    items: &[Resolved],
) -> Obstacle
    ensures { IsObstacle config.now stores items.now result }
{
    let own = match items_of(alloc, line, items) {
        Ok(own) => own,
        Err(_) => return Obstacle::NoMemory,
    };
    let seen = match said_by(alloc, &own) {
        Ok(seen) => seen,
        Err(_) => return Obstacle::NoMemory,
    };
    match first_fault(alloc, config, stores, &seen) {
        Some(NoExplanation::Fault(number, fault)) => match item_of_number(&own, number) {
            Some(item) => Obstacle::Fault { at: item.at, fault },
            None => Obstacle::NoMemory,
        },
        Some(NoExplanation::NoMemory) => Obstacle::NoMemory,
        Some(NoExplanation::Undone(_)) | None => Obstacle::Undone(line),
    }
}

/// What items say.
pub(crate) fn said_by<A: Allocator>(
    alloc: A,
    items: &[Resolved],
) -> Result<Vec<Observed, A>, NoMemory>
    ensures { IfOk result (λ seen. seen.items ≡ said_by items.now) }
{
    let mut seen = Vec::new(alloc);
    for item in items {
        seen.push(item.flit)?;
    }
    Ok(seen)
}

/// The obstacle that comes first in the trace among items in an order in which they ascend by line, where one was met.
fn first_obstacle<A: Allocator + Copy>(
    alloc: A,
    config: &Config,
    stores: StoreListing,
    items: &[Resolved],
    order: &[Placed],
    met: Obstacle,
) -> Obstacle {
    let mut first = met;
    let mut rest = order;
    for _ in 0..order.len() {
        let [placed, ..] = rest else {
            break;
        };
        let (found, later) = search_line(alloc, config, stores, placed.line, items, rest);
        rest = later;
        first = earlier(first, found);
    }
    first
}

/// The fault of the items in front that are of the line, if there is one, and the items behind them.
fn search_line<'o, A: Allocator + Copy>(
    alloc: A,
    config: &Config,
    stores: StoreListing,
    line: CacheLine,
    items: &[Resolved],
    order: &'o [Placed],
) -> (Option<Obstacle>, &'o [Placed]) {
    let mut seen = Vec::new(alloc);
    match gather(&mut seen, line, items, order) {
        Ok(count) => {
            let (_, later) = order.split_at(count);
            match first_fault(alloc, config, stores, &seen) {
                Some(cause) => (Some(obstacle_at(line, items, order, cause)), later),
                None => (None, later),
            }
        }
        Err(_) => (Some(Obstacle::NoMemory), &[]),
    }
}

/// Of two obstacles the one whose place comes first in the trace; want of memory before all.
fn earlier(one: Obstacle, other: Option<Obstacle>) -> Obstacle {
    match (one, other) {
        (Obstacle::NoMemory, _) | (_, Some(Obstacle::NoMemory)) => Obstacle::NoMemory,
        (_, Some(other)) => match (place_of(&one), place_of(&other)) {
            (Some(first), Some(second)) if first <= second => one,
            (Some(_), None) => one,
            (_, _) => other,
        },
        (_, None) => one,
    }
}

/// The place in the trace that an obstacle tells.
fn place_of(obstacle: &Obstacle) -> Option<usize> {
    match obstacle {
        Obstacle::Fault { at, fault: _ } => Some(*at),
        Obstacle::NoMemory | Obstacle::Undone(_) => None,
    }
}
