//! How a program of one's own uses the model: it does two actions on a slice and prints their answers, and
//! then replays a file that it has in memory and prints the text.
#![tactic(auto)]

use anyhow::{Context, Result};
use chi_flit::{Agent, Kind, Line, Slot, WordNo};
use chi_replay::replay;
use chi_script::{MemoryInput, MemoryOutput};
use chi_slice::{Action, Config, Slice, Step};
use std::alloc::Allocator;
use std::io;

/// A cold read up to its data, as a file of commands.
const COLD_READ: &[u8] =
    b"node 1 1 1 1 1 4\nissue 0 0 ReadNotSharedDirty 0\narrive 0 0\nstart 0 0\nflits 0 0\n";

/// Does an action of agent 0 on line 0, and prints its answer.
fn act<A: Allocator>(rt: &impl Print, slice: &mut Slice<A>, step: Step) -> io::Result<()> {
    let action = Action {
        agent: Agent(0),
        line: Line(0),
        step,
    };
    match slice.act(action) {
        Ok(effect) => println!(rt; "{step:?}: ok {effect:?}"),
        Err(refusal) => println!(rt; "{step:?}: refused {} {refusal}", refusal.number()),
    }
}

/// A request is issued; a load finds no copy yet.
fn act_on_a_slice(rt: &(impl Print + AllocGlobal)) -> Result<()> {
    let config = Config::new(1, 1, 1, 1, 1, 4).context("sizes outside the limits")?;
    let mut slice = Slice::new(rt.alloc(), &config, 0).context("opening a slice")?;
    act(
        rt,
        &mut slice,
        Step::Issue(Kind::ReadNotSharedDirty, Slot(0)),
    )?;
    act(rt, &mut slice, Step::Load(WordNo(0)))?;
    Ok(())
}

/// The text of a file's commands.
fn replay_from_memory(rt: &(impl Print + AllocGlobal)) -> Result<()> {
    let mut input = MemoryInput::new(COLD_READ, u64::MAX);
    let mut output = MemoryOutput::new(rt.alloc(), usize::MAX);
    replay(rt.alloc(), &mut input, &mut output)?;
    let text = str::from_utf8(output.bytes()).context("reading the text")?;
    print!(rt; "{text}")?;
    Ok(())
}

fn main(rt: HostRuntime) -> Result<()> {
    act_on_a_slice(&rt)?;
    replay_from_memory(&rt)
}
