//! The script of each agent.

use chi_flit::{Agent, Line, Operation, Task, WordNo};
use chi_script::AgentOperation;
use chi_storm::agent_script;
use std::alloc::AllocError;

/// A load of the agent on the line.
fn load(agent: u8, line: u8) -> AgentOperation {
    let agent = Agent(agent);
    let line = Line(line);
    let task = Task::Load(WordNo(0));
    let operation = Operation { line, task };
    AgentOperation { agent, operation }
}

#[test]
fn a_script_is_the_lines_of_its_agent(rt: HostRuntime) -> Result<(), AllocError> {
    let deeds = [load(1, 0), load(0, 1), load(1, 2), load(2, 3), load(1, 0)];
    let script = agent_script(rt.alloc(), &deeds, Agent(1))?;
    let wanted = [deeds[0].operation, deeds[2].operation, deeds[4].operation];
    assert!(rt; script.as_slice() == wanted.as_slice());
    assert!(rt; agent_script(rt.alloc(), &deeds, Agent(3))?.is_empty());
    Ok(())
}
