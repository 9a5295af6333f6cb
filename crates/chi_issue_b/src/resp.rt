//! What the Resp field of a flit says.

ghost use Rattle.std.specs.Prelude.{◌≡◌, map};
ghost use Rattle.chi_issue_b.specs.Resp.{first_of, is_encoded, is_named, is_of, lent_row, resp_named, resp_number, resp_numbered, resp_word};

use std::fmt;

/// What the Resp field of a flit says: the state that a copy is given or left in, and whether the responsibility for dirty data
/// goes along (`_PD`).
/// Source: Arm IHI 0050 Issue B, chapter 4; `docs/TRACES.md`, "Traces".
#[derive(Clone, Copy, Debug, PartialEq, Eq)]
pub enum Resp {
    I,
    SC,
    UC,
    UD,
    SD,
    IPD,
    SCPD,
    UCPD,
    UDPD,
    SDPD,
}

/// Which flits a number of the Resp field is read of, as it means another thing in some.
/// Source: Arm IHI 0050 Issue B, chapter 12.
#[derive(Clone, Copy, Debug, PartialEq, Eq)]
pub enum RespUse {
    /// Comp, CompData, write data, and the FwdState of an answer.
    Completion,
    /// An answer to a snoop.
    Answer,
}

/// A Resp, its word, its number, and whether completions and answers to snoops may have it.
// A tuple, as a clause can cite a constant of these, and none of a struct with a reference in it.
type Row = (Resp, &'static str, u8, bool, bool);

/// All of them, in the order of [`Resp`]. In answers 2 is `UC` or `UD`, and 6 is `UC_PD` or `UD_PD`.
#[rattlefmt::skip]
static RESPS: [Row; 10] = [
    (Resp::I,    "I",     0, true,  true),
    (Resp::SC,   "SC",    1, true,  true),
    (Resp::UC,   "UC",    2, true,  true),
    (Resp::UD,   "UD",    2, false, true),
    (Resp::SD,   "SD",    3, false, true),
    (Resp::IPD,  "I_PD",  4, false, true),
    (Resp::SCPD, "SC_PD", 5, false, true),
    (Resp::UCPD, "UC_PD", 6, false, true),
    (Resp::UDPD, "UD_PD", 6, true,  true),
    (Resp::SDPD, "SD_PD", 7, true,  false),
];

impl Resp {
    /// The word that a trace writes.
    /// Source: `docs/TRACES.md`, "Traces".
    #[inline(always)]
    #[tactic(auto, unfolding(crate::specs::Resp::row_of, crate::specs::Resp::rows))]
    pub fn word(self) -> &'static str
        ensures { result.now ≡ resp_word self }
    {
        RESPS[self as usize].1
    }

    /// The three bits of the field.
    /// Source: Arm IHI 0050 Issue B, chapter 12.
    #[inline(always)]
    #[tactic(auto, unfolding(crate::specs::Resp::row_of, crate::specs::Resp::rows))]
    pub fn number(self) -> u8
        ensures { result ≡ resp_number self }
    {
        RESPS[self as usize].2
    }

    /// The Resp that a word of a trace names; `None` where it names none.
    /// Source: `docs/TRACES.md`, "Traces".
    #[tactic(auto, unfolding(crate::specs::Resp::rows))]
    pub fn from_word(word: &[u8]) -> Option<Resp>
        ensures { result ≡ resp_named word.now }
    {
        named_in(&RESPS, word)
    }

    /// The Resp that a number means in flits of this use; `None` where it means none. Of two that share a number in answers to
    /// snoops it is the clean one: `UC` of 2, and `UC_PD` of 6.
    /// Source: Arm IHI 0050 Issue B, chapter 12.
    #[tactic(auto, unfolding(crate::specs::Resp::rows))]
    pub fn from_number(of: RespUse, number: u8) -> Option<Resp>
        ensures { result ≡ resp_numbered of number }
    {
        encoded_in(&RESPS, of, number)
    }
}

/// Whether flits of this use may have the row's Resp.
fn is_of(of: RespUse, row: &Row) -> bool
    ensures { result ≡ is_of of (lent_row row.now) }
{
    match of {
        RespUse::Completion => row.3,
        RespUse::Answer => row.4,
    }
}

/// The Resp of the first of these rows that has this word.
fn named_in(rows: &[Row], word: &[u8]) -> Option<Resp>
    ensures { result ≡ first_of (is_named word.now) (map lent_row rows.now) }
{
    for row in rows {
        if row.1.as_bytes() == word {
            return Some(row.0);
        }
    }
    None
}

/// The Resp of the first of these rows that has this number and is of this use.
fn encoded_in(rows: &[Row], of: RespUse, number: u8) -> Option<Resp>
    ensures { result ≡ first_of (is_encoded of number) (map lent_row rows.now) }
{
    for row in rows {
        if row.2 == number && is_of(of, row) {
            return Some(row.0);
        }
    }
    None
}

impl fmt::Display for Resp {
    ghost use Rattle.std.specs.Prelude.{Some};

    ghost output = { λ resp. Some (resp_word resp) };

    fn fmt<W: fmt::Write>(&self, f: &mut fmt::Formatter<W>) -> fmt::Result {
        f.write_str(self.word())
    }
}
