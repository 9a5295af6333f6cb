//! What is told of a line that is none of a trace.

ghost use Rattle.std.specs.Prelude.{◌≡◌, ◌==◌, ◌&&◌, [], Some};
ghost use Rattle.std.specs.List.{slice_index_or};
ghost use Rattle.chi_lanes.specs.Columns.{columns_of};
ghost use Rattle.chi_log.specs.Malformed.{IsBadText, bad_text, begins_marked, column_name, few_text, is_processor, long_text, malformed_text, mark_text, near_text, opcode_wanted, payload_wanted, place_of, wanted_in, wanted_opcode, word_in};
ghost use Rattle.chi_log.specs.Shown.{shown_word};

use crate::columns::LineColumn;
use crate::kinds::{Port, port_in};
use crate::lines::Malformed;
use crate::options::{Listing, Opcodes, Options};
use crate::shown::ShownWord;
use chi_issue_b::{Channel, Opcode};
use chi_lanes::Columns;
use std::fmt;

/// What is told of the line with this number, counted from 1, which is none of a trace that has these options: it prints as
/// that. The line is given without its line end.
/// Source: `docs/TRACES.md`, "What is printed" and "Other opcodes".
#[derive(Clone, Copy)]
pub struct MalformedText<'a> {
    pub malformed: Malformed,
    pub number: usize,
    pub line: &'a [u8],
    pub options: Options,
}

/// What is told of a line that is too long.
#[derive(Clone, Copy)]
struct LongText(usize);

/// What is told of a line that has too few words, and of the mark before it.
#[derive(Clone, Copy)]
struct FewText<'a>(usize, &'a str);

/// What is told of a wrong word.
#[derive(Clone, Copy)]
struct BadText<'a> {
    number: usize,
    name: &'static str,
    word: &'a [u8],
    wanted: &'static str,
    mark: &'static str,
}

impl fmt::Display for LongText {
    ghost output = { λ text. Some (long_text text.0) };

    #[tactic(auto, unfolding(crate::specs::Malformed::long_text))]
    fn fmt<W: fmt::Write>(&self, f: &mut fmt::Formatter<W>) -> fmt::Result {
        let number = self.0;
        write!(f, "chihome: line {number}: longer than 4096 bytes")
    }
}

impl fmt::Display for FewText<'_> {
    ghost output = { λ text. Some (few_text text.0 text.1.now) };

    #[tactic(auto, unfolding(crate::specs::Malformed::few_text))]
    fn fmt<W: fmt::Write>(&self, f: &mut fmt::Formatter<W>) -> fmt::Result {
        let (number, mark) = (self.0, self.1);
        write!(
            f,
            "chihome: line {number}: fewer than eleven words, expected CH SRC TGT TXN OPCODE ADDR RESP DBID AR PCRD DATA{mark}"
        )
    }
}

impl fmt::Display for BadText<'_> {
    ghost output = { λ text. Some (bad_text text.number text.name.now (shown_word text.word.now) text.wanted.now text.mark.now) };

    #[tactic(auto, unfolding(crate::specs::Malformed::bad_text))]
    fn fmt<W: fmt::Write>(&self, f: &mut fmt::Formatter<W>) -> fmt::Result {
        let (number, name, wanted, mark) = (self.number, self.name, self.wanted, self.mark);
        let word = ShownWord(self.word);
        write!(
            f,
            "chihome: line {number}: {name} {word}, expected {wanted}{mark}"
        )
    }
}

impl fmt::Display for MalformedText<'_> {
    ghost output = { λ text. Some (malformed_text text.malformed text.number text.line.now text.options) };

    fn fmt<W: fmt::Write>(&self, f: &mut fmt::Formatter<W>) -> fmt::Result {
        match self.malformed {
            Malformed::Gzip => write!(f, "chihome: is gzip: zcat FILE | chihome observe -"),
            Malformed::LongLine => {
                let text = LongText(self.number);
                write!(f, "{text}")
            }
            Malformed::FewWords => {
                let text = FewText(self.number, mark(self.number, self.line));
                write!(f, "{text}")
            }
            Malformed::BadWord(column) => {
                let text = self.bad_text(column);
                write!(f, "{text}")
            }
        }
    }
}

impl MalformedText<'_> {
    /// What is told of the wrong word in this column.
    fn bad_text(&self, column: LineColumn) -> BadText<'_>
        ensures { IsBadText result self.now.number self.now.line.now self.now.options column }
    {
        BadText {
            number: self.number,
            name: column_name(column),
            word: word_in(self.line, column),
            wanted: wanted_in(self.options, self.line, column),
            mark: mark(self.number, self.line),
        }
    }
}

/// The name of a column at the head of a trace.
fn column_name(column: LineColumn) -> &'static str
    ensures { result.now ≡ column_name column }
{
    match column {
        LineColumn::Channel => "CH",
        LineColumn::Source => "SRC",
        LineColumn::Target => "TGT",
        LineColumn::Txn => "TXN",
        LineColumn::Opcode => "OPCODE",
        LineColumn::Address => "ADDR",
        LineColumn::Resp => "RESP",
        LineColumn::Dbid => "DBID",
        LineColumn::AllowRetry => "AR",
        LineColumn::Pcrd => "PCRD",
        LineColumn::Data => "DATA",
    }
}

/// The place of a column in its line, counted from 0.
fn place_of(column: LineColumn) -> usize
    ensures { result ≡ place_of column }
{
    match column {
        LineColumn::Channel => 0,
        LineColumn::Source => 1,
        LineColumn::Target => 2,
        LineColumn::Txn => 3,
        LineColumn::Opcode => 4,
        LineColumn::Address => 5,
        LineColumn::Resp => 6,
        LineColumn::Dbid => 7,
        LineColumn::AllowRetry => 8,
        LineColumn::Pcrd => 9,
        LineColumn::Data => 10,
    }
}

/// The word of a column; empty where the line has fewer.
fn word_in(line: &[u8], column: LineColumn) -> &[u8]
    ensures { result.now ≡ word_in line.now column }
{
    word_at(line, place_of(column))
}

/// The word at a place of a line, counted from 0; empty where there is none.
fn word_at(line: &[u8], place: usize) -> &[u8]
    ensures { result.now ≡ slice_index_or (columns_of line.now) place [] }
{
    let mut words = Columns::of(line, line.len());
    for _passed in 0..place {
        let _word = words.next_column();
    }
    match words.next_column() {
        Some(word) => word.text(),
        None => &[],
    }
}

/// What is expected in a column.
fn wanted_in(options: Options, line: &[u8], column: LineColumn) -> &'static str
    ensures { result.now ≡ wanted_in options line.now column }
{
    match column {
        LineColumn::Channel => "REQ, SNP, RSP, DAT or CPU",
        LineColumn::Source => "a hexadecimal number, ffff at most",
        LineColumn::Target => "a hexadecimal number, ffff at most",
        LineColumn::Txn => "a hexadecimal number, ffff at most",
        LineColumn::Opcode => wanted_opcode(
            options.opcodes,
            port_in(word_in(line, LineColumn::Channel)),
            word_in(line, LineColumn::Opcode),
        ),
        LineColumn::Address => "a hexadecimal number of 64 bits",
        LineColumn::Resp => "I, SC, UC, UD, SD, I_PD, SC_PD, UC_PD, UD_PD or SD_PD",
        LineColumn::Dbid => "a hexadecimal number, ffff at most",
        LineColumn::AllowRetry => "0 or 1",
        LineColumn::Pcrd => "a hexadecimal number, f at most",
        LineColumn::Data => payload_wanted(
            options.listing,
            port_in(word_in(line, LineColumn::Channel)),
        ),
    }
}

/// What is expected as the opcode of a line that was seen there.
fn wanted_opcode(opcodes: Opcodes, port: Option<Port>, word: &[u8]) -> &'static str
    ensures { result.now ≡ wanted_opcode opcodes port word.now }
{
    match port {
        Some(Port::Processor) => "Load or Store",
        Some(Port::Link(channel)) => opcode_wanted(opcodes, channel, word),
        None => "an opcode of Issue B (--opcodes any takes others)",
    }
}

/// What is expected as the opcode of a flit: the one that the word nearly is, or any.
fn opcode_wanted(opcodes: Opcodes, channel: Channel, word: &[u8]) -> &'static str
    ensures { result.now ≡ opcode_wanted opcodes channel word.now }
{
    match opcodes {
        Opcodes::Any => "an opcode: letters and digits, a capital first",
        Opcodes::IssueB => near_text(Opcode::near(channel, word)),
    }
}

/// An opcode that a word nearly is, or any.
fn near_text(near: Option<Opcode>) -> &'static str
    ensures { result.now ≡ near_text near }
{
    match near {
        Some(opcode) => opcode.word(),
        None => "an opcode of Issue B (--opcodes any takes others)",
    }
}

/// What is expected as data.
fn payload_wanted(listing: Listing, port: Option<Port>) -> &'static str
    ensures { result.now ≡ payload_wanted listing port }
{
    match listing {
        Listing::None => "-, as the log has no data",
        Listing::Listed if is_processor(port) => "a hexadecimal number of 64 bits",
        Listing::Listed => "eight hexadecimal words or x with commas between them, or 128 digits",
    }
}

/// Whether it was seen at a processor.
fn is_processor(port: Option<Port>) -> bool
    ensures { result ≡ is_processor port }
{
    match port {
        Some(Port::Processor) => true,
        _ => false,
    }
}

/// What is told of a byte-order mark before the first line.
fn mark(number: usize, line: &[u8]) -> &'static str
    ensures { result.now ≡ mark_text number line.now }
{
    if is_marked(number, line) {
        "; the trace begins with a byte-order mark"
    } else {
        ""
    }
}

/// Whether this is the first line, and a byte-order mark stands before it.
fn is_marked(number: usize, line: &[u8]) -> bool
    ensures { result ≡ (number == 1) && begins_marked line.now }
{
    number == 1 && begins_marked(line)
}

/// Whether a line begins with a byte-order mark.
fn begins_marked(line: &[u8]) -> bool
    ensures { result ≡ begins_marked line.now }
{
    match line {
        [first, second, third, ..] => *first == 0xef && *second == 0xbb && *third == 0xbf,
        _ => false,
    }
}
