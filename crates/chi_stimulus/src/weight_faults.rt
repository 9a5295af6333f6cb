//! What is wrong with a file of weights.

use chi_script::ShownWord;
use std::fmt;

/// What has a weight.
const VERB_NAMES: &str =
    "load, store, drop, issue, arrive, start, snp, snpresp, retryack, resend, cancel, data, comp, dbid, ack, wrdata, see, giveback, tend or a kind of request";

/// What is wrong with a line of a file of weights.
/// Source: `docs/FORMATS.md`, "Drawn files".
#[derive(Clone, Copy, Debug, PartialEq, Eq)]
pub enum WrongWords<'a> {
    /// This word stands in the place of a verb or a kind of request.
    Verb(&'a [u8]),
    /// This word stands in the place of a weight.
    Weight(&'a [u8]),
    /// There is no weight.
    Missing,
    /// This stands behind the weight.
    Behind(&'a [u8]),
    /// No line end closes the line.
    Open,
}

/// A file that is no file of weights.
/// Source: `docs/FORMATS.md`, "Drawn files".
#[derive(Clone, Copy, Debug, PartialEq, Eq)]
pub struct WeightsFault<'a> {
    /// Its first wrong line, counted from 1.
    pub line: usize,
    pub wrong: WrongWords<'a>,
}

/// A word as it is shown, or that there is none.
#[derive(Clone, Copy)]
struct WordOrNone<'a>(&'a [u8]);

impl fmt::Display for WordOrNone<'_> {
    fn fmt<W: fmt::Write>(&self, f: &mut fmt::Formatter<W>) -> fmt::Result {
        if self.0.is_empty() {
            return f.write_str("no word");
        }
        let word = ShownWord(self.0);
        write!(f, "{word}")
    }
}

impl fmt::Display for WrongWords<'_> {
    fn fmt<W: fmt::Write>(&self, f: &mut fmt::Formatter<W>) -> fmt::Result {
        match self {
            WrongWords::Verb(word) => {
                let word = WordOrNone(word);
                write!(f, "{word}, expected {VERB_NAMES}")
            }
            WrongWords::Weight(word) => {
                let word = WordOrNone(word);
                write!(f, "{word}, expected a weight, 0 to 1000")
            }
            WrongWords::Missing => f.write_str("a word is missing, expected VERB WEIGHT"),
            WrongWords::Behind(word) => {
                let word = WordOrNone(word);
                write!(f, "{word}, expected no more than VERB WEIGHT")
            }
            WrongWords::Open => f.write_str("missing newline"),
        }
    }
}

impl fmt::Display for WeightsFault<'_> {
    fn fmt<W: fmt::Write>(&self, f: &mut fmt::Formatter<W>) -> fmt::Result {
        let (line, wrong) = (self.line, self.wrong);
        write!(f, "chihome: line {line}: {wrong}")
    }
}
