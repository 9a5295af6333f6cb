//! What is counted of a list of records.

ghost use Rattle.std.specs.Prelude.{◌≡◌, ◌<◌};
ghost use Rattle.chi_journal.specs.Record.{record_agent};
ghost use Rattle.chi_journal.specs.Totals.{are_counts, counted, most_counted, totals_with, no_totals};

use crate::record::Record;

/// The most that is counted: the counts of 64 journals are together below 2^64.
const MOST: u64 = 288_230_376_151_711_743;

/// One more, up to 2^58 - 1, which stays.
/// Source: `docs/PROTOCOL.md`, "The journal and last values".
pub fn counted(count: u64) -> u64
    ensures { result ≡ counted count }
{
    if count < MOST { count + 1 } else { count }
}

/// How many loads and stores there are, how many of each agent, and whether each load had the value that was
/// stored last.
#[derive(Clone, Copy, PartialEq, Eq)]
pub struct JournalTotals {
    pub loads: u64,
    pub stores: u64,
    pub parts: [u64; 8],
    pub legal: bool,
}

impl JournalTotals {
    /// The totals of no record.
    pub fn new() -> JournalTotals
        ensures { result ≡ no_totals }
    {
        JournalTotals {
            loads: 0,
            stores: 0,
            parts: [0; 8],
            legal: true,
        }
    }

    /// Whether the counts are no more than is counted.
    pub fn are_counts(&self) -> bool
        ensures { result ≡ are_counts self.now }
    {
        self.loads <= MOST && self.stores <= MOST
    }

    /// Counts one record more, before which its word had the value `last`.
    pub fn count(&mut self, entry: Record, last: u64)
        requires { (record_agent entry).0 < 8 }
        ensures { self.new ≡ totals_with self.old entry last }
    {
        match entry {
            Record::Load { value, .. } => {
                self.loads = counted(self.loads);
                self.legal = self.legal && value == last;
            }
            Record::Store { .. } => self.stores = counted(self.stores),
        }
        let agent = usize::from(entry.agent().0);
        self.parts[agent] = counted(self.parts[agent]);
    }
}
