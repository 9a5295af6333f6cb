//! A record of the journal in C's words.

ghost use Rattle.std.specs.Prelude.{◌≡◌};
ghost use Rattle.chi_library.specs.Records.{record_told};

use chi_slice::Record;

/// One load or store that was answered: `ChiRecord` of `chihome.h`.
/// Source: `docs/PROTOCOL.md`, "The journal and last values".
#[repr(C)]
#[derive(Clone, Copy)]
pub struct ChiRecord {
    pub store: u8,
    pub agent: u8,
    pub line: u8,
    pub word: u8,
    pub value: u64,
}

impl ChiRecord {
    /// No record: all numbers are 0.
    pub(crate) const NONE: ChiRecord = ChiRecord {
        store: 0,
        agent: 0,
        line: 0,
        word: 0,
        value: 0,
    };
}

/// A record in C's words.
pub(crate) fn record_told(entry: Record) -> ChiRecord
    ensures { result ≡ record_told entry }
{
    match entry {
        Record::Load {
            agent,
            line,
            word,
            value,
        } => ChiRecord {
            store: 0,
            agent: agent.0,
            line: line.0,
            word: word.0,
            value,
        },
        Record::Store {
            agent,
            line,
            word,
            value,
        } => ChiRecord {
            store: 1,
            agent: agent.0,
            line: line.0,
            word: word.0,
            value,
        },
    }
}
