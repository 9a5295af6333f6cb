//! What is told of a line that is none of a trace.

ghost use Rattle.std.specs.Prelude.{Some};
ghost use Rattle.chi_trace.specs.Malformed.{malformed_front};

use crate::columns::Column;
use crate::faults::TraceFault;
use crate::forms::Listing;
use chi_script::ShownWord;
use std::fmt;

/// How the text on a fault begins. It prints as that.
/// Source: `docs/TRACES.md`, "What is printed".
#[derive(Clone, Copy)]
pub struct MalformedFront(pub TraceFault);

/// What was expected of the line with the fault. It prints behind the front: of a wrong word its column, the word, and
/// what belongs there. `opcodes` is told of an opcode; `listing` is the log's, on which it rests what data are.
/// Source: `docs/TRACES.md`, "What is printed".
#[derive(Clone, Copy)]
pub struct Expected<'a> {
    pub fault: TraceFault,
    pub line: &'a [u8],
    pub opcodes: &'static str,
    pub listing: Listing,
}

/// A column, by its name at the head of a trace.
#[derive(Clone, Copy)]
struct ColumnName(Column);

/// The columns of a line.
const HEAD: &str = "CH SRC TGT TXN OPCODE ADDR RESP DBID AR PCRD DATA";

impl fmt::Display for MalformedFront {
    ghost output = { λ front. Some (malformed_front front.0) };

    fn fmt<W: fmt::Write>(&self, f: &mut fmt::Formatter<W>) -> fmt::Result {
        match self.0 {
            TraceFault::NoMemory => write!(f, "chihome: "),
            TraceFault::TooLarge => write!(f, "chihome: file too large"),
            TraceFault::Gzip => write!(f, "chihome: is gzip: zcat FILE | chihome observe -"),
            TraceFault::LongLine(line) => {
                write!(f, "chihome: line {line}: longer than 4096 bytes")
            }
            TraceFault::MissingNewline(line) => {
                write!(f, "chihome: line {line}: missing newline")
            }
            TraceFault::FewWords(line) => {
                write!(f, "chihome: line {line}: fewer than eleven words")
            }
            TraceFault::BadWord { line, column: _ } => write!(f, "chihome: line {line}: "),
        }
    }
}

impl<'a> fmt::Display for Expected<'a> {
    fn fmt<W: fmt::Write>(&self, f: &mut fmt::Formatter<W>) -> fmt::Result {
        match self.fault {
            TraceFault::FewWords(_) => write!(f, ", expected {HEAD}"),
            TraceFault::BadWord { line: _, column } => {
                let (name, word) = (
                    ColumnName(column),
                    ShownWord(word_at(self.line, place_of(column))),
                );
                let wanted = self.wanted_in(column);
                write!(f, "{name} {word}, expected {wanted}")
            }
            TraceFault::NoMemory
            | TraceFault::TooLarge
            | TraceFault::Gzip
            | TraceFault::LongLine(_)
            | TraceFault::MissingNewline(_) => Ok(()),
        }
    }
}

impl fmt::Display for ColumnName {
    fn fmt<W: fmt::Write>(&self, f: &mut fmt::Formatter<W>) -> fmt::Result {
        f.write_str(match self.0 {
            Column::Channel => "CH",
            Column::Source => "SRC",
            Column::Target => "TGT",
            Column::Txn => "TXN",
            Column::Opcode => "OPCODE",
            Column::Address => "ADDR",
            Column::Resp => "RESP",
            Column::Dbid => "DBID",
            Column::AllowRetry => "AR",
            Column::Pcrd => "PCRD",
            Column::Data => "DATA",
        })
    }
}

/// The place of a column in its line, counted from 0.
fn place_of(column: Column) -> usize {
    match column {
        Column::Channel => 0,
        Column::Source => 1,
        Column::Target => 2,
        Column::Txn => 3,
        Column::Opcode => 4,
        Column::Address => 5,
        Column::Resp => 6,
        Column::Dbid => 7,
        Column::AllowRetry => 8,
        Column::Pcrd => 9,
        Column::Data => 10,
    }
}

impl Expected<'_> {
    /// What is expected in a column.
    fn wanted_in(&self, column: Column) -> &'static str {
        match column {
            Column::Channel => "REQ, SNP, RSP, DAT or CPU",
            Column::Source | Column::Target | Column::Txn | Column::Dbid => {
                "a hexadecimal number, ffff at most"
            }
            Column::Opcode => self.opcodes,
            Column::Address => "a hexadecimal number of 64 bits",
            Column::Resp => "I, SC, UC, UD, SD, I_PD, SC_PD, UC_PD, UD_PD or SD_PD",
            Column::AllowRetry => "0 or 1",
            Column::Pcrd => "a hexadecimal number, f at most",
            Column::Data => self.wanted_data(),
        }
    }

    /// What is expected as data.
    fn wanted_data(&self) -> &'static str {
        match (self.listing, channel_word(self.line)) {
            (Listing::None, _) => "-, as the log has no data",
            (Listing::Listed, b"CPU") => "a hexadecimal number of 64 bits",
            (Listing::Listed, _) => {
                "eight hexadecimal words or x with commas between them, or 128 digits"
            }
        }
    }
}

/// The word at this place of a line, counted from 0; empty where there is none.
fn word_at(line: &[u8], place: usize) -> &[u8] {
    let mut words = line
        .split(|byte| matches!(*byte, b' ' | b'\t' | b'\r'))
        .filter(|word| !word.is_empty());
    words.nth(place).unwrap_or(&[])
}

/// The word of a line that names its channel; empty where there is none.
/// Source: `docs/TRACES.md`, "Traces".
pub fn channel_word(line: &[u8]) -> &[u8] {
    word_at(line, 0)
}

/// The word of a line that names its opcode; empty where there is none.
/// Source: `docs/TRACES.md`, "Traces".
pub fn opcode_word(line: &[u8]) -> &[u8] {
    word_at(line, place_of(Column::Opcode))
}
