//! The parts of a node: its slices, its tracker and its requesters.

ghost use Rattle.std.specs.Prelude.{◌≡◌, true, IfOk};
ghost use Rattle.chi_tracker.specs.Calls.{shape_of};
ghost use Rattle.chi_slice.specs.Words.{are_in_limits};
ghost use Rattle.chi_node.specs.Parts.{AgreeAtOpening, HasOwnTypes, opening_requesters, opening_slices};

use crate::requester::Requester;
use arrayvec::ArrayVec;
use chi_flit::{Agent, NoMemory};
use chi_slice::{Config, Slice};
use chi_tracker::Tracker;
use std::alloc::Allocator;

/// The slices of a node of that size, each in its opening state.
fn slices<A: Allocator + Copy>(alloc: A, config: &Config) -> Result<Vec<Slice<A>, A>, NoMemory>
    ensures slices { IfOk result (λ slices. slices.items
        ≡ opening_slices config.now config.now.slices) }
    ensures limits { are_in_limits config.now ≡ true }
{
    let count = config.slices();
    let mut slices = Vec::with_capacity(alloc, usize::from(count))?;
    for index in 0..count {
        let slice = Slice::new(alloc, config, index)?;
        slices.push(slice)?;
    }
    Ok(slices)
}

/// The tracker of a node of that size, and its requesters.
fn requesters<A: Allocator>(
    alloc: A,
    config: &Config,
) -> Result<(Tracker<A>, ArrayVec<Requester, 8>), NoMemory>
    ensures tracker { IfOk result (λ made. made.0.shape
        ≡ shape_of config.now.entries config.now.agents) }
    ensures types { IfOk result (λ made. HasOwnTypes config.now made.0.shape) }
    ensures requesters { IfOk result (λ made. made.1.items
        ≡ opening_requesters made.0.table made.0.shape config.now.agents) }
    ensures agree { IfOk result (λ made. AgreeAtOpening config.now made.0.table made.0.shape) }
{
    let (entries, agents) = (config.entries(), config.agents());
    let (tracker, mut ports) = Tracker::new(alloc, entries, agents)?;
    let mut requesters = ArrayVec::new();
    for number in 0..agents {
        let port = ports.remove(0);
        requesters.push(Requester::new(Agent(number), entries, port));
    }
    Ok((tracker, requesters))
}

/// The slices of a node of that size in rising order, each in its opening state; its tracker, with all
/// entries free and entries of exactly the profile's types; and its requesters in rising order, each with
/// its port, free slots and counts of 0, which agree with all the slices. All memory that they ever need is
/// found here; refused where it runs out. Whoever asks knows that the size is within the limits.
/// Source: `docs/PROTOCOL.md`, "A requester and its calls".
pub fn parts<A: Allocator + Copy>(
    alloc: A,
    config: &Config,
) -> Result<(Vec<Slice<A>, A>, Tracker<A>, ArrayVec<Requester, 8>), NoMemory>
    ensures limits { are_in_limits config.now ≡ true }
    ensures slices { IfOk result (λ made. made.0.items
        ≡ opening_slices config.now config.now.slices) }
    ensures tracker { IfOk result (λ made. made.1.shape
        ≡ shape_of config.now.entries config.now.agents) }
    ensures types { IfOk result (λ made. HasOwnTypes config.now made.1.shape) }
    ensures requesters { IfOk result (λ made. made.2.items
        ≡ opening_requesters made.1.table made.1.shape config.now.agents) }
    ensures agree { IfOk result (λ made. AgreeAtOpening config.now made.1.table made.1.shape) }
{
    let slices = slices(alloc, config)?;
    let (tracker, requesters) = requesters(alloc, config)?;
    Ok((slices, tracker, requesters))
}
