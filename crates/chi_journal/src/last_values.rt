//! The last value of each word of each line.

ghost use Rattle.std.specs.Prelude.{◌≡◌, ◌<◌, ◌↔◌, length, replicate, IfOk, IsTrue};
ghost use Rattle.chi_flit.specs.Message.{no_words};
ghost use Rattle.chi_journal.specs.Record.{record_line, record_word};
ghost use Rattle.chi_journal.specs.LastValues.{rows_after, value_at, words_in_row};

use crate::record::Record;
use chi_flit::{Data, Line, NO_DATA, NoMemory, WordNo};
use std::alloc::Allocator;
use std::marker::Model;

/// The words of so many lines as the last stores left them. Contracts see it as a list by line of lists
/// of eight words.
#[derive(Drop)]
pub struct LastValues<A: Allocator> {
    rows: Vec<Data, A>,
}

impl<A: Allocator> Model for LastValues<A> {
    ghost use Rattle.std.specs.Prelude.{ℕ, List};

    ghost Value = { List (List ℕ) };

    ghost view = { λ last. last.rows.items };
}

impl<A: Allocator> LastValues<A> {
    /// Lines to which nothing was stored. Refused where memory runs out.
    pub fn new(alloc: A, lines: u8) -> Result<LastValues<A>, NoMemory>
        ensures { IfOk result (λ last. last ≡ replicate lines no_words) }
    {
        let mut rows = Vec::with_capacity(alloc, usize::from(lines))?;
        for _ in 0..lines {
            rows.push(NO_DATA)?;
        }
        Ok(LastValues { rows })
    }

    /// Lines of these words. Refused where memory runs out.
    pub fn of_words(alloc: A, words: &[Data]) -> Result<LastValues<A>, NoMemory>
        ensures { IfOk result (λ last. last ≡ words.now) }
    {
        let mut rows = Vec::with_capacity(alloc, words.len())?;
        rows.extend_from_slice(words)?;
        Ok(LastValues { rows })
    }

    /// The same words, in memory of this allocator. Refused where it runs out.
    pub fn clone_in(&self, alloc: A) -> Result<LastValues<A>, NoMemory>
        ensures { IfOk result (λ last. last ≡ self.now) }
    {
        let mut rows = Vec::with_capacity(alloc, self.rows.len())?;
        rows.extend_from_slice(&self.rows)?;
        Ok(LastValues { rows })
    }

    /// The words of each line.
    fn rows(&self) -> &[Data]
        ensures { result.now ≡ self.now }
    {
        &self.rows
    }

    /// Whether the words are the same.
    #[tactic(auto, using(crate::proofs::Equal::all_rows))]
    pub fn equals(&self, other: &LastValues<A>) -> bool
        ensures { IsTrue result ↔ (self.now ≡ other.now) }
    {
        self.rows() == other.rows()
    }

    /// The number of lines.
    pub fn lines(&self) -> usize
        ensures { result ≡ length self.now }
    {
        self.rows.len()
    }

    /// The words of a line.
    pub fn words(&self, line: Line) -> Data
        requires { line.0 < length self.now }
        ensures { result ≡ words_in_row self.now line.0 }
    {
        self.rows[usize::from(line.0)]
    }

    /// The value of a word.
    pub fn value(&self, line: Line, word: WordNo) -> u64
        requires line { line.0 < length self.now }
        requires word { word.0 < 8 }
        ensures { result ≡ value_at self.now line.0 word.0 }
    {
        let words = self.words(line);
        words[usize::from(word.0)]
    }

    /// Follows a record: a store changes its word.
    pub fn follow(&mut self, entry: Record)
        requires line { (record_line entry).0 < length self.old }
        requires word { (record_word entry).0 < 8 }
        ensures { self.new ≡ rows_after self.old entry }
    {
        match entry {
            Record::Load { .. } => {}
            Record::Store {
                line,
                word,
                value,
                ..
            } => {
                self.rows[usize::from(line.0)][usize::from(word.0)] = value;
            }
        }
    }
}
