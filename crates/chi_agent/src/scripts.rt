//! What an agent is to do, and where its tallies go.

ghost use Rattle.std.specs.Prelude.{◌≡◌};

use chi_audit::Writer;
use chi_flit::{Agent, Operation};
use std::alloc::Allocator;
use std::marker::Model;

/// The operations of an agent, in their order, and the writer of its tallies. Contracts see it as a
/// `ScriptState`.
/// Source: `docs/FORMATS.md`, "Storm files".
#[derive(Drop)]
pub struct Script<A: Allocator> {
    pub(crate) agent: Agent,
    pub(crate) operations: Vec<Operation, A>,
    pub(crate) writer: Writer,
}

impl<A: Allocator> Model for Script<A> {
    ghost use Rattle.std.specs.Prelude.{◌≡◌};
    ghost use Rattle.chi_agent.specs.Script.{ScriptState};

    ghost Value = { ScriptState };

    ghost view = { λ s. record { operations = s.operations.items; writer = s.writer } };

    ghost invariant = { λ s. s.agent.0 ≡ s.writer.agent };
}

impl<A: Allocator> Script<A> {
    /// The script of an agent: its operations in their order, and the writer of its tallies. It takes no memory.
    ///
    /// Condition: the writer is the agent's.
    /// Source: `docs/FORMATS.md`, "Storm files".
    pub fn new(agent: Agent, operations: Vec<Operation, A>, writer: Writer) -> Script<A>
        requires { writer.agent ≡ agent.0 }
        ensures { result ≡ record { operations = operations.items; writer = writer } }
    {
        Script {
            agent,
            operations,
            writer,
        }
    }

    /// Whose script it is.
    /// Source: `docs/FORMATS.md`, "Storm files".
    pub fn agent(&self) -> Agent
        ensures { result.0 ≡ self.now.writer.agent }
    {
        self.agent
    }
}
