//! One answered load or store.

ghost use Rattle.std.specs.Prelude.{◌≡◌};
ghost use Rattle.chi_journal.specs.Record.{record_agent, record_line, record_word};

use chi_flit::{Agent, Line, WordNo};

/// One load or store that an agent was answered: the word, and its value then.
/// Source: `docs/PROTOCOL.md`, "The journal and last values".
#[derive(Clone, Copy, Debug, PartialEq, Eq)]
pub enum Record {
    Load {
        agent: Agent,
        line: Line,
        word: WordNo,
        value: u64,
    },
    Store {
        agent: Agent,
        line: Line,
        word: WordNo,
        value: u64,
    },
}

impl Record {
    /// Whose load or store it is.
    /// Source: `docs/PROTOCOL.md`, "The journal and last values".
    pub fn agent(self) -> Agent
        ensures { result ≡ record_agent self }
    {
        match self {
            Record::Load { agent, .. } | Record::Store { agent, .. } => agent,
        }
    }

    /// The line.
    /// Source: `docs/PROTOCOL.md`, "The journal and last values".
    pub fn line(self) -> Line
        ensures { result ≡ record_line self }
    {
        match self {
            Record::Load { line, .. } | Record::Store { line, .. } => line,
        }
    }

    /// The word of the line.
    /// Source: `docs/PROTOCOL.md`, "The journal and last values".
    pub fn word(self) -> WordNo
        ensures { result ≡ record_word self }
    {
        match self {
            Record::Load { word, .. } | Record::Store { word, .. } => word,
        }
    }
}
