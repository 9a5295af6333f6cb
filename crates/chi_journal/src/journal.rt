//! A journal of loads and stores with a limit.

ghost use Rattle.std.specs.Prelude.{◌≡◌, ◌<◌, ◌≤◌, ◌↔◌, false, length, IfNone, IfOk, IfSome, OnErr, IsTrue};
ghost use Rattle.chi_flit.specs.Refusal.{refusal_of};
ghost use Rattle.chi_journal.specs.Record.{record_agent, record_line, record_word};
ghost use Rattle.chi_journal.specs.Journal.{IsLegalLog, Log, LogKept, append_refusal, keeps_records, line_words, load_count, log_with, is_full, opening_log, part_count, store_count, unrecorded_log, word_value};
ghost use Rattle.chi_journal.specs.LastValues.{words_in_row};
ghost use Rattle.chi_journal.specs.Totals.{are_counts, most_counted};

use crate::last_values::LastValues;
use crate::record::Record;
use crate::totals::JournalTotals;
use chi_flit::{Agent, Data, Line, NO_DATA, NoMemory, Refusal, WordNo};
use std::alloc::Allocator;
use std::marker::Model;

/// The loads and stores that were answered, in their order, up to a limit; or, where the limit is 0, no
/// records, and no end. Contracts see it as a `Log`: the records, the limit, the number of lines, and what is
/// kept of loads and stores without records. No question walks over the records: how many there are of each
/// sort, the last values and whether they are legal are kept beside them.
/// Source: `docs/PROTOCOL.md`, "The journal and last values".
#[derive(Drop)]
pub struct Journal<A: Allocator> {
    records: Vec<Record, A>,
    limit: u32,
    last: LastValues<A>,
    totals: JournalTotals,
}

impl<A: Allocator> Model for Journal<A> {
    ghost use Rattle.std.specs.Vec.{vec_capacity};
    ghost use Rattle.chi_journal.specs.Journal.{Log};
    ghost use Rattle.chi_journal.specs.Tracked.{IsJournal, log_of};

    ghost Value = { Log };

    ghost view = { λ journal. log_of journal.records.items journal.limit journal.last journal.totals };

    ghost invariant = { λ journal. IsJournal journal.records.items journal.limit (vec_capacity journal.records) journal.last journal.totals };
}

impl<A: Allocator + Copy> Journal<A> {
    /// An empty journal for so many lines, with room for `limit` records, or, for a limit of 0, one without
    /// records and without an end: all memory that it ever needs is found here. Refused where it runs out.
    /// Source: `docs/PROTOCOL.md`, "The journal and last values".
    pub fn with_limit(alloc: A, lines: u8, limit: u32) -> Result<Journal<A>, NoMemory>
        ensures { IfOk result (λ journal. journal ≡ opening_log lines limit) }
    {
        let records = Vec::with_capacity(alloc, limit as usize)?;
        let last = LastValues::new(alloc, lines)?;
        Ok(Journal {
            records,
            limit,
            last,
            totals: JournalTotals::new(),
        })
    }

    /// A journal of limit 0, which keeps no records, with these last words of each line and these totals; `None`
    /// where a count is above 2^58 - 1. All memory that it ever needs is found here; refused where it runs out.
    /// Source: `docs/PROTOCOL.md`, "The journal and last values".
    #[tactic(auto, using(crate::proofs::Append::unrecorded_journal))]
    pub fn without_records(
        alloc: A,
        words: &[Data],
        totals: JournalTotals,
    ) -> Result<Option<Journal<A>>, NoMemory>
        ensures some { IfOk result (λ made. IfSome made
            (λ journal. journal ≡ unrecorded_log words.now totals)) }
        ensures none { IfOk result (λ made. IfNone made (are_counts totals ≡ false)) }
    {
        if !totals.are_counts() {
            return Ok(None);
        }
        Ok(Some(Journal {
            records: Vec::new(alloc),
            limit: 0,
            last: LastValues::of_words(alloc, words)?,
            totals,
        }))
    }

    /// A journal that is the same, in memory of this allocator: all memory that it ever needs is found
    /// here. Refused where it runs out.
    /// Source: `docs/PROTOCOL.md`, "The journal and last values".
    pub fn clone_in(&self, alloc: A) -> Result<Journal<A>, NoMemory>
        ensures { IfOk result (λ journal. journal ≡ self.now) }
    {
        let mut records = Vec::with_capacity(alloc, self.limit as usize)?;
        records.extend_from_slice(&self.records)?;
        let last = self.last.clone_in(alloc)?;
        Ok(Journal {
            records,
            limit: self.limit,
            last,
            totals: self.totals,
        })
    }
}

impl<A: Allocator> Journal<A> {
    /// Appends a record, as the last one; where the limit is 0 the last values and the totals follow it, and
    /// no record is kept. The limit and the number of lines stay. It takes no memory.
    ///
    /// Refused 1 (JournalFull) where the journal has a limit and holds exactly as many; nothing changes then.
    /// Conditions: the record's agent is below 8, its line below the number of lines, and its word below
    /// 8.
    /// Source: `docs/PROTOCOL.md`, "Refusals".
    pub fn append(&mut self, entry: Record) -> Result<(), Refusal>
        requires agent { (record_agent entry).0 < 8 }
        requires line { (record_line entry).0 < self.old.lines }
        requires word { (record_word entry).0 < 8 }
        ensures refusal { refusal_of result ≡ append_refusal self.old }
        ensures ok { IfOk result (λ _. self.new ≡ log_with self.old entry) }
        ensures err { OnErr result (self.new ≡ self.old) }
    {
        if self.is_full() {
            return Err(Refusal::JournalFull);
        }
        let last = self.last.value(entry.line(), entry.word());
        self.totals.count(entry, last);
        self.last.follow(entry);
        if self.limit > 0 {
            self.records.push_reserved(entry);
        }
        Ok(())
    }

    /// Whether the journal has a limit, and holds exactly as many records.
    /// Source: `docs/PROTOCOL.md`, "The journal and last values".
    pub fn is_full(&self) -> bool
        ensures { result ≡ is_full self.now }
    {
        self.limit > 0 && self.records.len() == self.limit as usize
    }

    /// The value of the last store to a word, or 0 where there is none.
    ///
    /// Conditions: the line is below the number of lines, and the word below 8.
    /// Source: `docs/PROTOCOL.md`, "The journal and last values".
    pub fn last(&self, line: Line, word: WordNo) -> u64
        requires line { line.0 < self.now.lines }
        requires word { word.0 < 8 }
        ensures { result ≡ word_value self.now line.0 word.0 }
    {
        self.last.value(line, word)
    }

    /// The values of the last stores to the words of a line, each 0 where there is none.
    ///
    /// Conditions: the line is below the number of lines.
    /// Source: `docs/PROTOCOL.md`, "The journal and last values".
    pub fn last_words(&self, line: Line) -> Data
        requires { line.0 < self.now.lines }
        ensures { result ≡ line_words self.now line.0 }
    {
        self.last.words(line)
    }

    /// How many loads there were, at most 2^58 - 1.
    /// Source: `docs/PROTOCOL.md`, "The journal and last values".
    pub fn loads(&self) -> u64
        ensures is { result ≡ load_count self.now }
        ensures few { result ≤ most_counted }
    {
        self.totals.loads
    }

    /// How many stores there were, at most 2^58 - 1.
    /// Source: `docs/PROTOCOL.md`, "The journal and last values".
    pub fn stores(&self) -> u64
        ensures is { result ≡ store_count self.now }
        ensures few { result ≤ most_counted }
    {
        self.totals.stores
    }

    /// How many loads and stores of the agent there were. All records are no more than the limit.
    ///
    /// Conditions: the agent's number is below 8.
    /// Source: `docs/PROTOCOL.md`, "The journal and last values".
    pub fn part_len(&self, agent: Agent) -> u64
        requires { agent.0 < 8 }
        ensures is { result ≡ part_count self.now agent.0 }
        ensures within { length self.now.entries ≤ self.now.limit }
    {
        self.totals.parts[usize::from(agent.0)]
    }

    /// Whether each load had the value that was stored last before it.
    /// Source: `docs/PROTOCOL.md`, "The journal and last values".
    pub fn legal(&self) -> bool
        ensures { IsTrue result ↔ IsLegalLog self.now }
    {
        self.totals.legal
    }

    /// The last words of a line by loads and stores that have no record: each 0 where records are kept.
    ///
    /// Conditions: the line is below the number of lines.
    /// Source: `docs/PROTOCOL.md`, "The journal and last values".
    #[tactic(auto, using(crate::proofs::Append::no_words_at))]
    pub fn unrecorded_words(&self, line: Line) -> Data
        requires { line.0 < self.now.lines }
        ensures { result ≡ words_in_row self.now.words line.0 }
    {
        if self.limit > 0 {
            NO_DATA
        } else {
            self.last.words(line)
        }
    }

    /// The totals of loads and stores that have no record: nothing is counted where records are kept.
    /// Source: `docs/PROTOCOL.md`, "The journal and last values".
    pub fn unrecorded_totals(&self) -> JournalTotals
        ensures { result ≡ self.now.totals }
    {
        if self.limit > 0 {
            JournalTotals::new()
        } else {
            self.totals
        }
    }

    /// How many records there are.
    /// Source: `docs/PROTOCOL.md`, "The journal and last values".
    pub fn len(&self) -> usize
        ensures { result ≡ length self.now.entries }
    {
        self.records.len()
    }

    /// How many records there may be; 0 where none are kept, and there is no end.
    /// Source: `docs/PROTOCOL.md`, "The journal and last values".
    pub fn limit(&self) -> u32
        ensures { result ≡ self.now.limit }
    {
        self.limit
    }

    /// The number of lines whose last values are kept.
    /// Source: `docs/PROTOCOL.md`, "The journal and last values".
    pub fn lines(&self) -> usize
        ensures is { result ≡ self.now.lines }
        ensures kept { LogKept self.now }
    {
        self.last.lines()
    }

    /// Whether the journals are the same: their records in their order, their limits, their numbers of lines,
    /// and what is kept without records.
    /// Source: `docs/PROTOCOL.md`, "The journal and last values".
    #[tactic(auto, using(crate::proofs::Equal::all_entries))]
    pub fn equals(&self, other: &Journal<A>) -> bool
        ensures { IsTrue result ↔ (self.now ≡ other.now) }
    {
        self.limit == other.limit
            && self.lines() == other.lines()
            && self.records() == other.records()
            && (self.limit > 0 || self.has_same_totals(other))
    }

    /// Whether the last values and the totals are the same.
    #[tactic(auto, using(crate::proofs::Equal::totals))]
    fn has_same_totals(&self, other: &Journal<A>) -> bool
        requires own { keeps_records self.now ≡ false }
        requires others { keeps_records other.now ≡ false }
        ensures { IsTrue result
            ↔ (self.now.words ≡ other.now.words) × (self.now.totals ≡ other.now.totals) }
    {
        self.last.equals(&other.last) && self.totals == other.totals
    }

    /// The records, in their order; none where the limit is 0.
    /// Source: `docs/PROTOCOL.md`, "The journal and last values".
    pub fn records(&self) -> &[Record]
        ensures { result.now ≡ self.now.entries }
    {
        &self.records
    }
}
