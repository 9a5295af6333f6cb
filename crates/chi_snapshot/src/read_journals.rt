//! A journal out of bytes.

ghost use Rattle.std.specs.Prelude.{IfErr};
ghost use Rattle.chi_snapshot.specs.Faults.{IsBehindFront};

use crate::faults::LoadFault;
use crate::read::Read;
use crate::read_flits::read_words;
use chi_flit::{Agent, Config, Data, Line, NoMemory, WordNo};
use chi_journal::{Journal, JournalTotals, Record};
use std::alloc::Allocator;

impl Read for Record {
    fn read(bytes: &[u8], at: usize) -> Option<(Record, usize)> {
        let (form, at) = u8::read(bytes, at)?;
        let (agent, at) = u8::read(bytes, at)?;
        let (line, at) = u8::read(bytes, at)?;
        let (word, at) = u8::read(bytes, at)?;
        let (value, at) = u64::read(bytes, at)?;
        let (agent, line, word) = (Agent(agent), Line(line), WordNo(word));
        let record = match form {
            0 => Record::Load {
                agent,
                line,
                word,
                value,
            },
            1 => Record::Store {
                agent,
                line,
                word,
                value,
            },
            _ => return None,
        };
        Some((record, at))
    }
}

/// Reads a record, and appends it to a journal. Answers where the next one begins.
fn read_into<A: Allocator>(bytes: &[u8], at: usize, journal: &mut Journal<A>) -> Option<usize> {
    let (record, at) = Record::read(bytes, at)?;
    let lines = journal.lines();
    if record.agent().0 >= 8 || usize::from(record.line().0) >= lines || record.word().0 >= 8 {
        return None;
    }
    journal.append(record).ok()?;
    Some(at)
}

/// Where the records of a journal begin, and how many there are.
fn records_from(bytes: &[u8], at: usize) -> Option<(u64, usize)> {
    let (_limit, at) = u32::read(bytes, at)?;
    let (_lines, at) = u64::read(bytes, at)?;
    u64::read(bytes, at)
}

/// Reads how many loads and stores there were.
fn read_totals(bytes: &[u8], at: usize) -> Option<JournalTotals> {
    let (loads, at) = u64::read(bytes, at)?;
    let (stores, at) = u64::read(bytes, at)?;
    let (parts, at) = read_words(bytes, at)?;
    let (legal, _) = bool::read(bytes, at)?;
    Some(JournalTotals {
        loads,
        stores,
        parts,
        legal,
    })
}

/// Reads the last words of each line. Answers where the totals begin besides.
fn read_rows<A: Allocator>(
    alloc: A,
    bytes: &[u8],
    at: usize,
) -> Result<(Vec<Data, A>, usize), LoadFault>
    ensures { IfErr result (λ fault. IsBehindFront fault) }
{
    let (count, mut next) = u64::read(bytes, at).ok_or(LoadFault::Damaged)?;
    let mut rows = Vec::new(alloc);
    for _ in 0..count {
        let (words, at) = read_words(bytes, next).ok_or(LoadFault::Damaged)?;
        rows.push(words).map_err(NoMemory::from)?;
        next = at;
    }
    Ok((rows, next))
}

/// Reads a journal that keeps no records.
fn read_unrecorded<A: Allocator + Copy>(
    alloc: A,
    bytes: &[u8],
    at: usize,
) -> Result<Journal<A>, LoadFault>
    ensures { IfErr result (λ fault. IsBehindFront fault) }
{
    let (_, at) = records_from(bytes, at).ok_or(LoadFault::Damaged)?;
    let (rows, at) = read_rows(alloc, bytes, at)?;
    let totals = read_totals(bytes, at).ok_or(LoadFault::Damaged)?;
    Journal::without_records(alloc, &rows, totals)?.ok_or(LoadFault::Damaged)
}

/// Reads a journal of a node of this size.
pub(crate) fn read_journal<A: Allocator + Copy>(
    alloc: A,
    config: &Config,
    bytes: &[u8],
    at: usize,
) -> Result<Journal<A>, LoadFault>
    ensures { IfErr result (λ fault. IsBehindFront fault) }
{
    if config.journal() == 0 {
        return read_unrecorded(alloc, bytes, at);
    }
    let (count, first) = records_from(bytes, at).ok_or(LoadFault::Damaged)?;
    let mut journal = Journal::with_limit(alloc, config.lines(), config.journal())?;
    let mut next = first;
    for _ in 0..count {
        next = read_into(bytes, next, &mut journal).ok_or(LoadFault::Damaged)?;
    }
    Ok(journal)
}
