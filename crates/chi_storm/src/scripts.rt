//! The script of each agent, out of the operations of a file.

ghost use Rattle.std.specs.Prelude.{◌≡◌, ◌==◌, All, IfOk, length, map, vec_capacity, vec_len};
ghost use Rattle.chi_audit.specs.Tallies.{writer_agent, IsFresh};
ghost use Rattle.chi_agent.specs.Script.{operations_of, writer_of, AreFresh};
ghost use Rattle.chi_storm.specs.Scripts.{deeds_of, agent_script, scripts_below};

use chi_agent::Script;
use chi_audit::{Tallies, Writer};
use chi_flit::{Agent, NoMemory, Operation};
use chi_script::AgentOperation;
use std::alloc::{AllocError, Allocator, Global};

/// Whether an operation is the agent's.
fn is_of(deed: &AgentOperation, agent: Agent) -> bool
    ensures { result ≡ (deed.now.agent.0 == agent.0) }
{
    deed.agent.0 == agent.0
}

/// How many of the file's operations are the agent's.
fn count_of(deeds: &[AgentOperation], agent: Agent) -> usize
    ensures { result ≡ length (deeds_of agent.0 deeds.now) }
{
    let mut count = 0;
    for deed in deeds {
        if is_of(deed, agent) {
            count += 1;
        }
    }
    count
}

/// The script of the agent: its operations, in the order of the file. The list has room for no more.
/// Refused where memory runs out.
/// Source: `docs/FORMATS.md`, "Storm files".
pub fn agent_script<A: Allocator>(
    alloc: A,
    deeds: &[AgentOperation],
    agent: Agent,
) -> Result<Vec<Operation, A>, AllocError>
    ensures script { IfOk result (λ script. script.items ≡ agent_script agent.0 deeds.now) }
    ensures room { IfOk result (λ script. vec_capacity script ≡ length script.items) }
{
    let mut script = Vec::with_capacity(alloc, count_of(deeds, agent))?;
    for deed in deeds {
        if is_of(deed, agent) {
            script.push_reserved(deed.operation);
        }
    }
    Ok(script)
}

/// The scripts of the agents in rising order, each with its writer. Refused where memory runs out.
#[tactic(auto, using(chi_agent::proofs::Numbers::all_moved))]
pub(crate) fn scripts_of(
    alloc: Global,
    tallies: &Tallies,
    deeds: &[AgentOperation],
    agents: u8,
    mut writers: Vec<Writer>,
) -> Result<Vec<Script<Global>>, NoMemory>
    requires fresh { All (IsFresh tallies.now) writers.items }
    requires count { length writers.items ≡ agents }
    ensures writers { IfOk result (λ scripts. map writer_of scripts.items
        ≡ map writer_agent writers.items) }
    ensures scripts { IfOk result
        (λ scripts. operations_of scripts.items ≡ scripts_below agents deeds.now) }
    ensures fresh { IfOk result (λ scripts. AreFresh tallies.now scripts.items) }
    ensures count { IfOk result (λ scripts. vec_len scripts ≡ agents) }
{
    let mut scripts = Vec::with_capacity(alloc, usize::from(agents))?;
    for agent in 0..agents {
        let script = agent_script(alloc, deeds, Agent(agent))?;
        let writer = writers.remove(0);
        scripts.push_reserved(Script::new(writer.agent(), script, writer));
    }
    Ok(scripts)
}
