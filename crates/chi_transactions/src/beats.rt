//! Data that come in beats.

ghost use Rattle.std.specs.Prelude.{◌≡◌};
ghost use Rattle.chi_transactions.specs.Rule.{beat_at, beat_of, beat_refusal, begun_behind, first_dbid, form_refusal, is_dbid, is_form, is_last, words_behind};

use crate::entries::{Begun, OpenId, Portion, Reason};
use crate::rule::{has_to_follow, is_opening};
use chi_issue_b::{DbId, Flit};

/// All eight words, a bit each.
const ALL_WORDS: u8 = 255;

/// Whether a beat has the DBID of the first, where that has one.
#[inline(always)]
fn is_dbid(first: Option<DbId>, dbid: Option<DbId>) -> bool
    ensures { result ≡ is_dbid first dbid }
{
    match first {
        Some(_) => first == dbid,
        None => true,
    }
}

/// Whether a beat has the opcode, the RESP and the DBID of the first.
#[tactic(auto, unfolding(crate::specs::Rule::is_form))]
fn is_form(flit: &Flit, begun: &Begun) -> bool
    ensures { result ≡ is_form flit.now begun.now }
{
    let opcode = begun.opcode == flit.opcode;
    let resp = begun.resp == flit.resp;
    let dbid = is_dbid(begun.dbid, flit.dbid());
    opcode && (resp && dbid)
}

/// Why a later beat doesn't go with those that have come.
fn form_refusal(flit: &Flit, there: u8, begun: Option<Begun>) -> Option<Reason>
    ensures { result ≡ form_refusal flit.now there begun }
{
    let begun = begun?;
    if !is_form(flit, &begun) {
        return Some(Reason::OtherBeat);
    }
    if begun.words & there != 0 {
        return Some(Reason::WordAgain);
    }
    None
}

/// Why the flit doesn't go with the beats that have come.
#[inline(always)]
pub(crate) fn beat_refusal(flit: &Flit, there: u8, begun: Option<Begun>) -> Option<Reason>
    ensures { result ≡ beat_refusal flit.now there begun }
{
    if flit.opcode.carries_data() {
        form_refusal(flit, there, begun)
    } else {
        None
    }
}

/// The words that have come behind a beat with these.
#[inline(always)]
fn words_behind(there: u8, begun: Option<Begun>) -> u8
    ensures { result ≡ words_behind there begun }
{
    match begun {
        Some(begun) => begun.words | there,
        None => there,
    }
}

/// Which beat it is behind which all words are there, or aren't.
#[inline(always)]
fn beat_at(all: bool, begun: Option<Begun>) -> Portion
    ensures { result ≡ beat_at all begun }
{
    match begun {
        Some(_) => { if all { Portion::Last } else { Portion::Further } }
        None => { if all { Portion::Whole } else { Portion::First } }
    }
}

/// Which part of its data a flit with these words is.
#[inline(always)]
#[tactic(auto, unfolding(crate::specs::Rule::beat_of))]
pub(crate) fn beat_of(flit: &Flit, there: u8, begun: Option<Begun>) -> Portion
    ensures { result ≡ beat_of flit.now there begun }
{
    if flit.opcode.carries_data() {
        beat_at(words_behind(there, begun) == ALL_WORDS, begun)
    } else {
        Portion::Whole
    }
}

/// Whether no word lacks behind the beat.
#[inline(always)]
pub(crate) fn is_last(beat: Portion) -> bool
    ensures { result ≡ is_last beat }
{
    match beat {
        Portion::Whole | Portion::Last => true,
        Portion::First | Portion::Further => false,
    }
}

/// The DBID that later beats must have, if there is one.
fn first_dbid(flit: &Flit, id: &OpenId) -> Option<DbId>
    ensures { result ≡ first_dbid flit.now id.now }
{
    let opens = is_opening(flit, id);
    let has_to = has_to_follow(id);
    if opens && has_to { flit.dbid() } else { None }
}

/// What is kept of the data behind a beat with these words.
pub(crate) fn begun_behind(flit: &Flit, there: u8, id: &OpenId, begun: Option<Begun>) -> Begun
    ensures { result ≡ begun_behind flit.now there id.now begun }
{
    match begun {
        Some(begun) => Begun {
            words: begun.words | there,
            ..begun
        },
        None => Begun {
            opcode: flit.opcode,
            resp: flit.resp,
            dbid: first_dbid(flit, id),
            words: there,
        },
    }
}
