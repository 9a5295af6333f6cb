//! The verbs of commands.

ghost use Rattle.std.specs.Prelude.{◌≡◌, ◌<◌, Some, slice_get};
ghost use Rattle.std.specs.List.{find};
ghost use Rattle.chi_script.specs.Verbs.{all_verbs, verb_named, verb_place, verb_text};
ghost use Rattle.chi_script.specs.Words.{is_text};

use crate::words::is;
use std::fmt;

/// The word that a command begins with. It prints as that word.
/// Source: `docs/FORMATS.md`, "Replay files".
#[derive(Clone, Copy, Debug, PartialEq, Eq)]
pub enum Verb {
    Load,
    Store,
    Drop,
    Issue,
    Arrive,
    Start,
    Snp,
    SnpResp,
    RetryAck,
    Resend,
    Cancel,
    Data,
    Comp,
    Dbid,
    Ack,
    WrData,
    See,
    GiveBack,
    Tend,
    Totals,
    Audit,
    Show,
    Flits,
}

/// How many verbs there are.
const COUNT: usize = 23;

/// The verbs, each at its place.
const VERBS: [Verb; COUNT] = [
    Verb::Load,
    Verb::Store,
    Verb::Drop,
    Verb::Issue,
    Verb::Arrive,
    Verb::Start,
    Verb::Snp,
    Verb::SnpResp,
    Verb::RetryAck,
    Verb::Resend,
    Verb::Cancel,
    Verb::Data,
    Verb::Comp,
    Verb::Dbid,
    Verb::Ack,
    Verb::WrData,
    Verb::See,
    Verb::GiveBack,
    Verb::Tend,
    Verb::Totals,
    Verb::Audit,
    Verb::Show,
    Verb::Flits,
];

impl fmt::Display for Verb {
    ghost output = { λ verb. Some (verb_text verb) };

    fn fmt<W: fmt::Write>(&self, f: &mut fmt::Formatter<W>) -> fmt::Result {
        f.write_str(self.word())
    }
}

impl Verb {
    /// The verb of this word; `None` for every other word.
    /// Source: `docs/FORMATS.md`, "Replay files".
    #[tactic(auto, unfolding(crate::specs::Verbs::verb_named))]
    pub fn named(word: &[u8]) -> Option<Verb>
        ensures { result ≡ verb_named word.now }
    {
        first_named(&VERBS, word)
    }

    /// The verb at a place: those that do something have the places from 0 to 18, and those that only ask the
    /// places from 19 to 22.
    /// Source: `docs/FORMATS.md`, "Replay files".
    pub fn at(place: usize) -> Option<Verb>
        ensures { result ≡ slice_get all_verbs place }
    {
        verb_in(&VERBS, place)
    }

    /// Its place among the verbs.
    /// Source: `docs/FORMATS.md`, "Replay files".
    pub fn place(self) -> usize
        ensures is { result ≡ verb_place self }
        ensures low { result < 23 }
    {
        match self {
            Verb::Load => 0,
            Verb::Store => 1,
            Verb::Drop => 2,
            Verb::Issue => 3,
            Verb::Arrive => 4,
            Verb::Start => 5,
            Verb::Snp => 6,
            Verb::SnpResp => 7,
            Verb::RetryAck => 8,
            Verb::Resend => 9,
            Verb::Cancel => 10,
            Verb::Data => 11,
            Verb::Comp => 12,
            Verb::Dbid => 13,
            Verb::Ack => 14,
            Verb::WrData => 15,
            Verb::See => 16,
            Verb::GiveBack => 17,
            Verb::Tend => 18,
            Verb::Totals => 19,
            Verb::Audit => 20,
            Verb::Show => 21,
            Verb::Flits => 22,
        }
    }

    /// Its word.
    #[inline(always)]
    pub(crate) fn word(self) -> &'static str
        ensures { result.now ≡ verb_text self }
    {
        match self {
            Verb::Load => "load",
            Verb::Store => "store",
            Verb::Drop => "drop",
            Verb::Issue => "issue",
            Verb::Arrive => "arrive",
            Verb::Start => "start",
            Verb::Snp => "snp",
            Verb::SnpResp => "snpresp",
            Verb::RetryAck => "retryack",
            Verb::Resend => "resend",
            Verb::Cancel => "cancel",
            Verb::Data => "data",
            Verb::Comp => "comp",
            Verb::Dbid => "dbid",
            Verb::Ack => "ack",
            Verb::WrData => "wrdata",
            Verb::See => "see",
            Verb::GiveBack => "giveback",
            Verb::Tend => "tend",
            Verb::Totals => "totals",
            Verb::Audit => "audit",
            Verb::Show => "show",
            Verb::Flits => "flits",
        }
    }
}

/// The first of some verbs that has this word.
fn first_named(verbs: &[Verb], word: &[u8]) -> Option<Verb>
    ensures { result ≡ find (λ verb. is_text word.now (verb_text verb)) verbs.now }
{
    for verb in verbs {
        if is(word, verb.word()) {
            return Some(*verb);
        }
    }
    None
}

/// The verb at a place of some.
fn verb_in(verbs: &[Verb], place: usize) -> Option<Verb>
    ensures { result ≡ slice_get verbs.now place }
{
    if place < verbs.len() {
        Some(verbs[place])
    } else {
        None
    }
}
