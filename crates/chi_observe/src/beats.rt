//! Data that come in beats.

ghost use Rattle.std.specs.Prelude.{◌≡◌};
ghost use Rattle.chi_observe.specs.Beats.{beat_of, first_beat, first_dbid, held_by, held_in, is_again, is_same_beat, is_word_again, kept_with, later_beat, told_with};
ghost use Rattle.chi_observe.specs.Tables.{table_of};

use crate::events::Tells;
use crate::ids::{Later, OpenId, Purpose};
use crate::reasons::IdReason;
use crate::tables::{Change, Part, Tables, plain_change};
use crate::words::{lacks_some, left_of, words_with};
use chi_ids::{CacheLine, IdKey};
use chi_trace::DbId;
use std::alloc::Allocator;

/// Whether a beat has a word that doesn't lack.
fn is_word_again(lacks: bool, there: bool) -> bool
    ensures { result ≡ is_word_again lacks there }
{
    there && !lacks
}

/// Whether a beat has some word that doesn't lack.
pub(crate) fn is_again(lacks: &[bool; 8], there: &[bool; 8]) -> bool
    ensures { result ≡ is_again lacks.now there.now }
{
    let mut again = is_word_again(lacks[0], there[0]);
    again |= is_word_again(lacks[1], there[1]);
    again |= is_word_again(lacks[2], there[2]);
    again |= is_word_again(lacks[3], there[3]);
    again |= is_word_again(lacks[4], there[4]);
    again |= is_word_again(lacks[5], there[5]);
    again |= is_word_again(lacks[6], there[6]);
    again |= is_word_again(lacks[7], there[7]);
    again
}

/// What data tell behind a beat with such words: in the form of their first beat.
fn told_with(begun: Tells, beat: Tells, there: &[bool; 8]) -> Tells
    ensures { result ≡ told_with begun beat there.now }
{
    begun.with_words(words_with(&begun.words(), &beat.words(), there))
}

/// The DBID that all beats of data for an id have to name: none where no CompAck follows.
fn first_dbid(purpose: Purpose, dbid: Option<DbId>) -> Option<DbId>
    ensures { result ≡ first_dbid purpose dbid }
{
    if purpose.is_kept_for() { dbid } else { None }
}

/// Whether a later beat has the form of the first one, and its DBID.
fn is_same_beat(found: &OpenId, tells: &Tells, dbid: Option<DbId>) -> bool
    ensures { result ≡ is_same_beat found.now tells.now dbid }
{
    let begun = found.begun.unwrap_or(*tells);
    begun.with_words(tells.words()) == *tells && found.dbid == dbid
}

/// The id's data lack these words yet, and tell this.
fn kept_with(found: &OpenId, left: [bool; 8], tells: &Tells, dbid: Option<DbId>) -> OpenId
    ensures { result ≡ kept_with found.now left tells.now dbid }
{
    OpenId {
        lacks: Some(left),
        begun: Some(*tells),
        dbid,
        ..*found
    }
}

/// The id's first beat, behind which these words lack.
fn first_beat(found: &OpenId, left: [bool; 8], tells: &Tells, dbid: Option<DbId>) -> Change
    ensures { result ≡ first_beat found.now left tells.now dbid }
{
    let change = plain_change(found.line);
    if lacks_some(&left) {
        Change {
            keeps: Some(kept_with(found, left, tells, dbid)),
            part: Part::First(left),
            ..change
        }
    } else {
        Change {
            frees: Some(found.key),
            ..change
        }
    }
}

/// Whether a later beat of the id, behind which the data tell this, has the words that were known at the first one.
fn is_held(found: &OpenId, begun: Tells, told: Tells) -> Option<bool>
    ensures { result ≡ held_in found.now begun told }
{
    match found.later {
        Later::Told => None,
        Later::Held => Some(told == begun),
        Later::Free => Some(true),
    }
}

/// The same change, by a beat that has such words, or by another one.
fn held_by(change: Change, held: Option<bool>) -> Change
    ensures { result ≡ held_by change held }
{
    match held {
        Some(same) => Change {
            part: Part::Held(same),
            ..change
        },
        None => change,
    }
}

/// A later beat of the id, behind which these words lack and the data tell this.
fn later_beat(found: &OpenId, left: [bool; 8], tells: &Tells) -> Change
    ensures { result ≡ later_beat found.now left tells.now }
{
    let change = plain_change(found.line);
    if lacks_some(&left) {
        Change {
            keeps: Some(kept_with(found, left, tells, found.dbid)),
            part: Part::Further,
            ..change
        }
    } else {
        Change {
            frees: Some(found.key),
            part: Part::Last(*tells),
            ..change
        }
    }
}

impl<A: Allocator> Tables<'_, A> {
    /// A beat of data, which names a DBID where it is a read's: it frees the id where no word lacks any more.
    pub(crate) fn beat(
        &self,
        key: IdKey,
        there: &[bool; 8],
        dbid: Option<DbId>,
        at: Option<CacheLine>,
        tells: &Tells,
    ) -> Result<Change, IdReason>
        ensures { result ≡ beat_of (table_of self.now) key there.now dbid at tells.now }
    {
        let found = self.named(key, at)?;
        if found.purpose.is_unknown() {
            return Ok(plain_change(found.line));
        }
        let dbid = first_dbid(found.purpose, dbid);
        match found.lacks {
            None => Ok(first_beat(&found, left_of(&[true; 8], there), tells, dbid)),
            Some(lacks) => {
                if !is_same_beat(&found, tells, dbid) {
                    return Err(IdReason::OtherBeat(key));
                }
                if is_again(&lacks, there) {
                    return Err(IdReason::WordAgain(key));
                }
                let begun = found.begun.unwrap_or(*tells);
                let told = told_with(begun, *tells, there);
                let change = later_beat(&found, left_of(&lacks, there), &told);
                Ok(held_by(change, is_held(&found, begun, told)))
            }
        }
    }
}
