//! From the bytes of a file of scripts to the four lines that are written.

ghost use Rattle.std.specs.Prelude.{◌≡◌, ◌≢◌, ◌↔◌, ◌+◌, ◌^◌, ◌<◌, IfOk, IfErr, IfSome, IsTrue};
ghost use Rattle.std.specs.Io.KnownBytes.{Appends, Keeps};
ghost use Rattle.chi_script.specs.Faults.{Fails};
ghost use Rattle.chi_script.specs.declared.faults.Fault.{Fault};
ghost use Rattle.chi_script.specs.Storms.{storm_of};
ghost use Rattle.chi_replay.specs.Replays.{AtWrite, KeepsAtFault, NoText, NoTextAt, RefusesFault};
ghost use Rattle.chi_storm.specs.Outcomes.{outcome_text};
ghost use Rattle.chi_storm.specs.Storms.{ComesOf, IsStormOf, NotTold, WritesStormFront, WritesOutcome};

use crate::outcome::Outcome;
use crate::scripts::scripts_of;
use crate::verdict::outcome_of;
use chi_agent::{OpenGate, run_agents};
use chi_flit::NoMemory;
use chi_node::Node;
use chi_replay::Printable;
use chi_script::{AgentOperation, Failed, Fault, Input, Output, StormFile, read_all, read_storm};
use chi_slice::Config;
use std::alloc::Global;
use std::sync::Wait;
use std::thread::Threads;
use std::time::Clock;

/// What comes of a node of that size whose agents run the scripts, in threads. It may wait. Refused where
/// memory runs out, and where a thread can't be started.
#[tactic(auto, using(chi_agent::proofs::Numbers::as_many))]
fn outcome_on<R: Threads + Wait + Clock + Sync>(
    rt: &R,
    alloc: Global,
    config: &Config,
    deeds: &[AgentOperation],
    seed: u64,
    turns: u64,
) -> Result<Outcome, NoMemory>
    ensures { IfOk result (ComesOf config.now deeds.now seed turns) }
{
    let (node, requesters) = Node::new(alloc, config)?;
    let agents = config.agents();
    let (cells, writers, _watcher) = chi_audit::tallies(alloc, agents)?;
    let scripts = scripts_of(alloc, &cells, deeds, agents, writers)?;
    let ended = run_agents(
        rt, alloc, &node, &cells, requesters, scripts, seed, turns, &OpenGate,
    )?;
    Ok(outcome_of(rt, node, ended))
}

/// What comes of a file, whose bytes these are; else its first fault, or want of memory.
fn outcome_in<R: Threads + Wait + Clock + Sync>(
    rt: &R,
    alloc: Global,
    bytes: &[u8],
    seed: u64,
    turns: u64,
) -> Result<Outcome, Fault>
    ensures ok { IfOk result (IsStormOf bytes.now seed turns) }
    ensures err { IfErr result (λ fault. Fails fault (storm_of bytes.now)) }
{
    let StormFile { header, deeds } = read_storm(alloc, bytes)?;
    match outcome_on(rt, alloc, &header, &deeds, seed, turns) {
        Ok(outcome) => Ok(outcome),
        Err(_) => Err(Fault::NoMemory),
    }
}

/// The same of an input's bytes; `Read` where reading them failed.
fn outcome_of_input<R: Threads + Wait + Clock + Sync, I: Input>(
    rt: &R,
    alloc: Global,
    input: &mut I,
    seed: u64,
    turns: u64,
) -> Result<Outcome, Fault>
    requires { I.failures input.old + 1 < 2 ^ 64 }
    ensures ok { IfOk result
        (λ outcome. IfSome (I.left input.old) (λ file. IsStormOf file seed turns outcome)) }
    ensures err { IfErr result
        (NoText storm_of (I.left input.old) (I.failures input.old) (I.failures input.new)) }
{
    let bytes = read_all(alloc, input)?;
    outcome_in(rt, alloc, &bytes, seed, turns)
}

/// Writes what came of a storm, and answers whether each agent's script finished.
fn write_outcome<O: Output>(alloc: Global, outcome: Outcome, output: &mut O) -> Result<bool, Fault>
    requires { O.failures output.old + 1 < 2 ^ 64 }
    ensures ok { IfOk result
        (λ all. (IsTrue all ↔ (outcome.finished ≡ outcome.agents))
        × Appends (O.written output.old) (O.written output.new) (outcome_text outcome)) }
    ensures err { IfErr result
        (NotTold outcome (O.failures output.old) (O.failures output.new) (O.written output.old)
        (O.written output.new)) }
{
    let mut text = String::new(alloc);
    outcome.print(&mut text)?;
    match output.write_all(text.as_bytes()) {
        Ok(()) => Ok(outcome.finished == outcome.agents),
        Err(Failed) => Err(Fault::Write),
    }
}

/// Runs the scripts of the file that the input has, each agent's in a thread of its own, with draws from this
/// seed and at most so many turns an agent, and writes what came of it. It may wait.
///
/// At `Ok` the input was a good file, and the four lines of its storm were written, no more; it is true
/// exactly where each agent's script finished. Where the file is faulty nothing is written, and the fault is
/// that of its first faulty line, or `TooLarge`, unless `Read` or `NoMemory` came first; `NoMemory` is also
/// the answer where a thread can't be started. `Read` and `Write` come only where that device counted a
/// failure. After `Write` a beginning of the four lines was written; after any other fault nothing was.
///
/// Conditions: the counts of failures of the input and of the output are below 2 ^ 64 - 1.
/// Source: `docs/FORMATS.md`, "Storm files", "The output of a storm" and "The program".
pub fn storm<R: Threads + Wait + Clock + Sync, I: Input, O: Output>(
    rt: &R,
    alloc: Global,
    input: &mut I,
    output: &mut O,
    seed: u64,
    turns: u64,
) -> Result<bool, Fault>
    requires reads { I.failures input.old + 1 < 2 ^ 64 }
    requires writes { O.failures output.old + 1 < 2 ^ 64 }
    ensures ok { IfOk result
        (WritesOutcome (I.left input.old) seed turns
        (O.written output.old) (O.written output.new)) }
    ensures write { AtWrite result (O.failures output.new ≡ O.failures output.old + 1) }
    ensures front { AtWrite result
        (WritesStormFront (I.left input.old) seed turns
        (O.written output.old) (O.written output.new)) }
    ensures err { NoTextAt result storm_of (I.left input.old)
        (I.failures input.old) (I.failures input.new) }
    ensures kept { IfErr result
        (λ fault. fault ≢ Fault.Write → Keeps (O.written output.old) (O.written output.new)) }
    ensures faulty { RefusesFault storm_of (I.left input.old) result }
    ensures silent { KeepsAtFault storm_of (I.left input.old)
        (O.written output.old) (O.written output.new) }
{
    let outcome = outcome_of_input(rt, alloc, input, seed, turns)?;
    write_outcome(alloc, outcome, output)
}
