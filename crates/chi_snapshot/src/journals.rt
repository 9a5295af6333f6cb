//! A journal as bytes.

ghost use Rattle.std.specs.Prelude.{◌≡◌, ◌<◌, ◌++◌, ℕ, OnOk};
ghost use Rattle.std.specs.List.{flat_map};
ghost use Rattle.chi_journal.specs.Journal.{LogKept};
ghost use Rattle.chi_snapshot.specs.Bytes.{long_list_bytes};
ghost use Rattle.chi_snapshot.specs.JournalBytes.{journal_bytes, record_bytes, record_parts, totals_bytes};
ghost use Rattle.chi_snapshot.specs.Parts.{words_bytes};

use crate::flits::write_words;
use crate::written::{Written, write_list, write_long_list};
use chi_flit::{Agent, Line, NoMemory, WordNo};
use chi_journal::{Journal, JournalTotals, Record};
use std::alloc::Allocator;

/// Writes a load or store: the number of its form, the agent, the line, the word, and the value.
#[tactic(auto, unfolding(crate::specs::JournalBytes::record_parts))]
fn write_record<A: Allocator>(
    form: u8,
    agent: Agent,
    line: Line,
    word: WordNo,
    value: u64,
    out: &mut Vec<u8, A>,
) -> Result<(), NoMemory>
    ensures { OnOk result
        (out.new.items ≡ out.old.items ++ record_parts form agent.0 line.0 word.0 value) }
{
    form.write(out)?;
    agent.write(out)?;
    line.0.write(out)?;
    word.0.write(out)?;
    value.write(out)
}

impl Written for Record {
    ghost bytes = { record_bytes };

    fn write<A: Allocator>(&self, out: &mut Vec<u8, A>) -> Result<(), NoMemory> {
        match *self {
            Record::Load {
                agent,
                line,
                word,
                value,
            } => write_record(0, agent, line, word, value, out),
            Record::Store {
                agent,
                line,
                word,
                value,
            } => write_record(1, agent, line, word, value, out),
        }
    }
}

impl Written for JournalTotals {
    ghost bytes = { totals_bytes };

    #[tactic(auto, unfolding(crate::specs::JournalBytes::totals_bytes))]
    fn write<A: Allocator>(&self, out: &mut Vec<u8, A>) -> Result<(), NoMemory> {
        self.loads.write(out)?;
        self.stores.write(out)?;
        write_list(&self.parts, out)?;
        self.legal.write(out)
    }
}

/// Writes the last words of each of so many lines that loads and stores without a record left.
fn write_rows<A: Allocator, B: Allocator>(
    journal: &Journal<A>,
    count: u8,
    out: &mut Vec<u8, B>,
) -> Result<(), NoMemory>
    requires count { count ≡ journal.now.lines }
    requires kept { LogKept journal.now }
    ensures { OnOk result
        (out.new.items ≡ out.old.items ++ flat_map words_bytes journal.now.words) }
{
    for line in 0..count {
        write_words(&journal.unrecorded_words(Line(line)), out)?;
    }
    Ok(())
}

/// Writes the last words of each line that loads and stores without a record left.
fn write_last_words<A: Allocator, B: Allocator>(
    journal: &Journal<A>,
    out: &mut Vec<u8, B>,
) -> Result<(), NoMemory>
    requires { journal.now.lines < 256 }
    ensures { OnOk result
        (out.new.items ≡ out.old.items ++ long_list_bytes words_bytes journal.now.words) }
{
    let lines = journal.lines();
    (lines as u64).write(out)?;
    write_rows(journal, lines as u8, out)
}

/// Writes a journal of fewer than 256 lines.
#[tactic(auto, unfolding(crate::specs::JournalBytes::journal_bytes))]
pub(crate) fn write_journal<A: Allocator, B: Allocator>(
    journal: &Journal<A>,
    out: &mut Vec<u8, B>,
) -> Result<(), NoMemory>
    requires { journal.now.lines < 256 }
    ensures { OnOk result (out.new.items ≡ out.old.items ++ journal_bytes journal.now) }
{
    let lines = journal.lines() as u64;
    journal.limit().write(out)?;
    lines.write(out)?;
    write_long_list(journal.records(), out)?;
    write_last_words(journal, out)?;
    journal.unrecorded_totals().write(out)
}
