//! What is told of a faulty line behind its fault: the word that is wrong, and what was expected there.

ghost use Rattle.std.specs.Prelude.{◌≡◌, ◌-◌, [], IfOk, string_bytes};
ghost use Rattle.std.specs.List.{slice_index_or};
ghost use Rattle.chi_script.specs.Files.{IsOneLine, lines_of};

use crate::check_files::MOST_CHECK_BYTES;
use crate::checks::parts;
use crate::commands::read_kind;
use crate::faults::Fault;
use crate::files::first_line;
use crate::headers::two_types;
use crate::numbers::number;
use crate::shown_words::ShownWord;
use crate::words::is;
use std::alloc::{AllocError, Allocator};
use std::fmt;
use std::fmt::Write;

/// The words of a header.
const HEADER: &str = "node A L S T0 T1 K or node A L S T0 T1 T2 T3 K";

/// The first words of commands.
const VERBS: &str =
    "load, store, drop, issue, arrive, start, snp, snpresp, retryack, resend, cancel, data, comp, dbid, ack, wrdata, see, giveback, tend, flits, show, totals or audit";

/// The forms of commands.
const FORMS: [&str; 23] = [
    "load N L W",
    "store N L W V",
    "drop N L",
    "issue N L KIND SLOT",
    "arrive N L",
    "start N L",
    "snp N L",
    "snpresp N L",
    "retryack N L",
    "resend N L",
    "cancel N L",
    "data N L",
    "comp N L",
    "dbid N L",
    "ack N L",
    "wrdata N L",
    "see N",
    "giveback N TYPE",
    "tend N TYPE",
    "flits N L",
    "show L",
    "totals",
    "audit",
];

/// The kinds of request.
const KINDS: &str =
    "ReadNotSharedDirty, ReadShared, ReadUnique, CleanUnique, Evict, WriteBackFull, WriteCleanFull or WriteEvictFull";

/// What a number is.
const NUMBER: &str = "a number without a leading zero, 18446744073709551615 at most";

/// What is wrong with a line.
#[derive(Clone, Copy)]
enum Hint<'a> {
    /// Nothing more is told than the fault.
    None,
    /// The file has more bytes than these.
    Large(usize),
    /// There is no line where this one was expected.
    NoLine,
    /// A carriage return stands at the line's end.
    Return,
    /// A space stands at the end, of a line or of its command.
    Space,
    /// Two spaces, or one at the beginning.
    Gap,
    /// This word is wrong, and this was expected there.
    Word(&'a [u8], &'static str),
    /// A word is missing behind these, and these were expected.
    Short(&'static str),
    /// This word is one too many behind these.
    Long(&'a [u8], &'static str),
}

impl fmt::Display for Hint<'_> {
    fn fmt<W: fmt::Write>(&self, f: &mut fmt::Formatter<W>) -> fmt::Result {
        match self {
            Hint::None => Ok(()),
            Hint::Large(most) => write!(f, ", expected {most} bytes at most"),
            Hint::NoLine => write!(f, ": no line, expected {HEADER}"),
            Hint::Return => f.write_str(": a carriage return at the line's end, expected LF alone"),
            Hint::Space => f.write_str(": a space behind the last word"),
            Hint::Gap => f.write_str(
                ": no word before a space, expected one space between two words",
            ),
            Hint::Word(word, wanted) => {
                let word = ShownWord(word);
                write!(f, ": {word}, expected {wanted}")
            }
            Hint::Short(wanted) => write!(f, ": a word is missing, expected {wanted}"),
            Hint::Long(word, wanted) => {
                let word = ShownWord(word);
                write!(f, ": {word}, expected no more than {wanted}")
            }
        }
    }
}

/// What is told behind a fault of a check file, whose bytes these are: the word that is wrong, and what was
/// expected there, or that a carriage return or a space stands at the line's end; and that a byte-order mark stands
/// before a wrong line 1. Of a file that is too large it is how large one may be; no text of any other fault. Refused
/// where memory runs out.
/// Source: `docs/FORMATS.md`, "Faults of check files".
pub fn hint_at<A: Allocator + Copy>(
    alloc: A,
    bytes: &[u8],
    fault: Fault,
) -> Result<String<A>, AllocError>
    ensures { IfOk result (λ hint. IsOneLine (string_bytes hint)) }
{
    let hint = hint_of(bytes, fault);
    let mut text = String::new(alloc);
    let mark = mark_at(bytes, fault);
    write!(text, "{hint}{mark}").map_err(|_| AllocError)?;
    match first_line(text.as_bytes()) {
        None => Ok(text),
        Some(_) => Ok(String::new(alloc)),
    }
}

/// What is told of a byte-order mark before line 1, where that line is wrong.
fn mark_at(bytes: &[u8], fault: Fault) -> &'static str {
    match (fault, bytes) {
        (Fault::BadHeader(1), [0xef, 0xbb, 0xbf, ..]) => "; the file begins with a byte-order mark",
        _ => "",
    }
}

/// What is wrong with the line of a fault of a check file, whose bytes these are.
fn hint_of(bytes: &[u8], fault: Fault) -> Hint<'_> {
    match fault {
        Fault::BadHeader(number) => match line_at(bytes, number) {
            [] => Hint::NoLine,
            line => spacing_of(line, header_hint(line)),
        },
        Fault::BadCommand(number) => {
            let line = line_at(bytes, number);
            spacing_of(line, command_hint(parts(line).0))
        }
        Fault::TooLarge => Hint::Large(MOST_CHECK_BYTES),
        _ => Hint::None,
    }
}

/// The line of this number, counted from 1, without its line end; empty where there is none.
/// Source: `docs/FORMATS.md`, "Bytes, lines and numbers".
#[tactic(auto, using(crate::proofs::NumberedLines::at_once, crate::proofs::NumberedLines::later, crate::proofs::NumberedLines::past))]
pub fn line_at(bytes: &[u8], number: usize) -> &[u8]
    ensures { result.now ≡ slice_index_or (lines_of bytes.now) (number - 1) [] }
{
    let mut rest = bytes;
    let mut at = 1;
    while let Some((line, after)) = first_line(rest) {
        if at >= number {
            return line;
        }
        rest = after;
        at += 1;
    }
    if at >= number { rest } else { &[] }
}

/// The carriage return that a line ends with, or else what is wrong with its words.
fn spacing_of<'a>(line: &[u8], words: Hint<'a>) -> Hint<'a> {
    match line {
        [.., b'\r'] => Hint::Return,
        _ => words,
    }
}

/// The word of this place, counted from 0; empty where there is none.
fn word_at(words: &[u8], place: usize) -> &[u8] {
    words.split(|byte| *byte == b' ').nth(place).unwrap_or(&[])
}

/// How many words there are.
fn count_of(words: &[u8]) -> usize {
    words.split(|byte| *byte == b' ').count()
}

/// Where the spaces stand otherwise than they may.
fn gap_in(words: &[u8]) -> Option<Hint<'static>> {
    if let [.., b' '] = words {
        return Some(Hint::Space);
    }
    if words
        .split(|byte| *byte == b' ')
        .any(|word| word.is_empty())
    {
        return Some(Hint::Gap);
    }
    None
}

/// The form of the commands with this first word, among these.
fn form_in(forms: &[&'static str], verb: &[u8]) -> Option<&'static str> {
    for form in forms {
        if word_at(form.as_bytes(), 0) == verb {
            return Some(form);
        }
    }
    None
}

/// What is wrong with the words of a command.
fn command_hint(words: &[u8]) -> Hint<'_> {
    if let Some(hint) = gap_in(words) {
        return hint;
    }
    let verb = word_at(words, 0);
    match form_in(&FORMS, verb) {
        Some(form) => operand_hint(words, form),
        None => Hint::Word(verb, VERBS),
    }
}

/// What is wrong with the words behind the first of a command of this form.
fn operand_hint<'a>(words: &'a [u8], form: &'static str) -> Hint<'a> {
    let (given, wanted) = (count_of(words), count_of(form.as_bytes()));
    for place in 1..given.min(wanted) {
        let word = word_at(words, place);
        if is(word_at(form.as_bytes(), place), "KIND") {
            if read_kind(word).is_none() {
                return Hint::Word(word, KINDS);
            }
        } else if number(word).is_none() {
            return Hint::Word(word, NUMBER);
        }
    }
    if given < wanted {
        Hint::Short(form)
    } else if given > wanted {
        Hint::Long(word_at(words, wanted), form)
    } else {
        Hint::None
    }
}

/// What is wrong with the words of a header.
fn header_hint(words: &[u8]) -> Hint<'_> {
    if let Some(hint) = gap_in(words) {
        return hint;
    }
    let node = word_at(words, 0);
    if !is(node, "node") {
        return Hint::Word(node, HEADER);
    }
    match count_of(words) {
        7 => size_hint(words, 6, 64),
        9 => size_hint(words, 8, 256),
        count if count > 9 => Hint::Long(word_at(words, 9), HEADER),
        _ => Hint::Short(HEADER),
    }
}

/// What is wrong with the sizes of a header, of which the journal's is at this place, where there may be so many
/// entries in all.
fn size_hint(words: &[u8], journal: usize, most: u64) -> Hint<'_> {
    let mut entries: u64 = 0;
    for place in 1..=journal {
        let word = word_at(words, place);
        let Some(size) = number(word) else {
            return Hint::Word(word, NUMBER);
        };
        if place > 3 && place < journal {
            entries = entries.saturating_add(size);
        }
        if !is_size(words, place, journal, size) || entries > most {
            return Hint::Word(word, size_words(place, journal));
        }
    }
    Hint::None
}

/// Whether a node may have these sizes, with one entry of each of two types.
fn is_node(agents: u64, lines: u64, slices: u64, journal: u64) -> bool {
    two_types(agents, lines, slices, 1, 1, journal).is_some()
}

/// Whether a node may have this size at this place of its header, the sum of its entries aside.
fn is_size(words: &[u8], place: usize, journal: usize, size: u64) -> bool {
    match place {
        1 => is_node(size, 1, 1, 1),
        2 => is_node(1, size, 1, 1),
        3 => is_node(1, number(word_at(words, 2)).unwrap_or(0), size, 1),
        _ if place == journal => is_node(1, 1, 1, size),
        _ => size >= 1,
    }
}

/// What is expected at a place of a header.
fn size_words(place: usize, journal: usize) -> &'static str {
    match place {
        1 => "agents, 1 to 8",
        2 => "lines, 1 to 64",
        3 => "slices, 1, 2, 4 or 8, no more than lines",
        _ if place == journal => "a journal's room, 1 to 65536",
        _ if journal == 6 => "entries, 1 or more of each type and 64 in all at most",
        _ => "entries, 1 or more of each type and 256 in all at most",
    }
}
