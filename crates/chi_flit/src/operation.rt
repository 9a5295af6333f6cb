//! The operations that an agent's script is made of.

use crate::numbers::{Line, WordNo};

/// What an agent is to do on one line, by whatever actions that takes.
/// Source: `docs/FORMATS.md`, "Storm files".
#[derive(Clone, Copy, Debug, PartialEq, Eq)]
pub struct Operation {
    pub line: Line,
    pub task: Task,
}

/// What is to be done there.
/// Source: `docs/FORMATS.md`, "Storm files".
#[derive(Clone, Copy, Debug, PartialEq, Eq)]
pub enum Task {
    /// A word is loaded, of a copy that is read for it where there is none.
    Load(WordNo),
    /// As a load, but the copy is read by ReadShared.
    Share(WordNo),
    /// A word is stored, in a copy that is made unique for it.
    Store(WordNo, u64),
    /// A dirty copy goes back to the memory.
    WriteBack,
    /// The data of a dirty copy goes to the memory, and the copy stays.
    WriteClean,
    /// A unique clean copy goes back to the home.
    WriteEvict,
    /// A clean copy is given up, and the home is told.
    Evict,
    /// A clean copy is given up, and nobody is told.
    Drop,
}
