//! What the columns of a line hold.

ghost use Rattle.std.specs.Prelude.{◌≡◌, ◌&&◌, is_some};
ghost use Rattle.std.specs.Option.{unwrap_or};
ghost use Rattle.chi_log.specs.Beats.{zeros};
ghost use Rattle.chi_log.specs.Fields.{address_as, allow_as, allow_of, credit_as, dbid_need, fields_in, id_as, is_dash, is_left_out, is_resp_invalid, is_resp_unique, lent_by, listed_in, payload_by, payload_in, pcrd_need, resp_as, unlisted, value_in, written_of};

use crate::beats::lend_beat;
use crate::forms::{Form, Need};
use crate::numbers::{credit_in, id_in, text_number, word_in};
use crate::options::Listing;
use crate::rows::Row;
use chi_issue_b::{Beat, Resp};
use chi_lanes::Column;

/// What the columns of a line hold, but CH, SRC, OPCODE and DATA; `None` of a column that it hasn't, or leaves out.
#[derive(Clone, Copy)]
pub(crate) struct Fields {
    pub target: Option<u16>,
    pub txn: Option<u16>,
    pub address: Option<u64>,
    pub resp: Option<Resp>,
    pub dbid: Option<u16>,
    pub credit: Option<u8>,
}

/// Whether the word says that there is nothing.
#[inline(always)]
pub(crate) fn is_dash(word: &[u8]) -> bool
    ensures { result ≡ is_dash word.now }
{
    word == b"-".as_slice()
}

/// Whether the column says nothing.
#[inline(always)]
fn is_left_out(need: Need, column: &Column) -> bool
    ensures { result ≡ is_left_out need column.now }
{
    match need {
        Need::Unread => true,
        Need::OrDash => is_dash(column.text()),
        Need::Value => false,
        Need::OfUnique => false,
        Need::OfResent => false,
        Need::OfWritten => false,
    }
}

/// What a column of an id says.
#[inline(always)]
pub(crate) fn id_as(need: Need, column: &Column) -> Option<Option<u16>>
    ensures { result ≡ id_as need column.now }
{
    if is_left_out(need, column) {
        return Some(None);
    }
    let id = id_in(column)?;
    Some(Some(id))
}

/// What the column of the address says.
#[inline(always)]
pub(crate) fn address_as(need: Need, column: &Column) -> Option<Option<u64>>
    ensures { result ≡ address_as need column.now }
{
    if is_left_out(need, column) {
        return Some(None);
    }
    let address = word_in(column)?;
    Some(Some(address))
}

/// What the column of RESP says.
#[inline(always)]
pub(crate) fn resp_as(need: Need, column: &Column) -> Option<Option<Resp>>
    ensures { result ≡ resp_as need column.now }
{
    if is_left_out(need, column) {
        return Some(None);
    }
    let resp = Resp::from_word(column.text())?;
    Some(Some(resp))
}

/// Whether the word asserts AllowRetry: `1`, or `0`.
#[inline(always)]
fn allow_in(word: &[u8]) -> Option<bool>
    ensures { result ≡ allow_of word.now }
{
    if word == b"1".as_slice() {
        Some(true)
    } else if word == b"0".as_slice() {
        Some(false)
    } else {
        None
    }
}

/// What the column of AllowRetry says.
#[inline(always)]
pub(crate) fn allow_as(need: Need, column: &Column) -> Option<Option<bool>>
    ensures { result ≡ allow_as need column.now }
{
    if is_left_out(need, column) {
        return Some(None);
    }
    let allow = allow_in(column.text())?;
    Some(Some(allow))
}

/// What the column of the credit type says.
#[inline(always)]
pub(crate) fn credit_as(need: Need, column: &Column) -> Option<Option<u8>>
    ensures { result ≡ credit_as need column.now }
{
    if is_left_out(need, column) {
        return Some(None);
    }
    let credit = credit_in(column)?;
    Some(Some(credit))
}

/// Whether the DBID is there, beside this RESP.
#[inline(always)]
pub(crate) fn dbid_need(need: Need, resp: Option<Resp>) -> Need
    ensures { result ≡ dbid_need need resp }
{
    match need {
        Need::OfUnique if is_resp_unique(resp) => Need::OrDash,
        Need::OfUnique => Need::Unread,
        Need::Unread => Need::Unread,
        Need::Value => Need::Value,
        Need::OrDash => Need::OrDash,
        Need::OfResent => Need::OfResent,
        Need::OfWritten => Need::OfWritten,
    }
}

/// Whether the RESP is UC.
#[inline(always)]
fn is_resp_unique(resp: Option<Resp>) -> bool
    ensures { result ≡ is_resp_unique resp }
{
    match resp {
        Some(Resp::UC) => true,
        _ => false,
    }
}

/// Whether the RESP is I.
#[inline(always)]
fn is_resp_invalid(resp: Option<Resp>) -> bool
    ensures { result ≡ is_resp_invalid resp }
{
    match resp {
        Some(Resp::I) => true,
        _ => false,
    }
}

/// Whether the credit type is there, beside this AllowRetry.
#[inline(always)]
pub(crate) fn pcrd_need(need: Need, allow: Option<bool>) -> Need
    ensures { result ≡ pcrd_need need allow }
{
    match need {
        Need::OfResent => match allow {
            Some(false) => Need::Value,
            _ => Need::Unread,
        },
        Need::OfUnique => Need::OfUnique,
        Need::Unread => Need::Unread,
        Need::Value => Need::Value,
        Need::OrDash => Need::OrDash,
        Need::OfWritten => Need::OfWritten,
    }
}

/// What the columns of a line say that has them as this row of the table.
#[inline(always)]
#[tactic(auto, unfolding(crate::specs::Fields::fields_in))]
pub(crate) fn fields_in(form: &Form, row: &Row) -> Option<Fields>
    ensures { result ≡ fields_in form.now row.now }
{
    let target = id_as(form.target, &row.target)?;
    let txn = id_as(form.txn, &row.txn)?;
    let address = address_as(form.address, &row.address)?;
    let resp = resp_as(form.resp, &row.resp)?;
    let dbid = id_as(dbid_need(form.dbid, resp), &row.dbid)?;
    let allow = allow_as(form.allow_retry, &row.allow_retry)?;
    let credit = credit_as(pcrd_need(form.pcrd, allow), &row.pcrd)?;
    Some(Fields {
        target,
        txn,
        address,
        resp,
        dbid,
        credit,
    })
}

/// Lends the words of a log that lists none, where the word says that there are none.
#[inline(never)]
fn lend_unlisted(word: &[u8], beat: &mut Beat) -> bool
    ensures some { result ≡ is_some (unlisted zeros word.now) }
    ensures beat { beat.new ≡ unwrap_or (unlisted zeros word.now) beat.old }
{
    if is_dash(word) {
        *beat = Beat::whole(&[0; 8]);
        true
    } else {
        false
    }
}

/// Lends the words of write data with this RESP.
#[inline(always)]
fn lend_written(resp: Option<Resp>, word: &[u8], beat: &mut Beat) -> bool
    ensures some { result ≡ is_some (written_of resp word.now) }
    ensures beat { beat.new ≡ unwrap_or (written_of resp word.now) beat.old }
{
    if is_lost(resp, word) {
        *beat = Beat::whole(&[0; 8]);
        true
    } else {
        lend_beat(word, beat)
    }
}

/// Whether the RESP is I, and the words are left out.
#[inline(always)]
fn is_lost(resp: Option<Resp>, word: &[u8]) -> bool
    ensures { result ≡ is_resp_invalid resp && is_dash word.now }
{
    is_resp_invalid(resp) && is_dash(word)
}

/// Lends the words of data with this RESP, where they are listed.
#[inline(always)]
fn lend_listed(need: Need, resp: Option<Resp>, word: &[u8], beat: &mut Beat) -> bool
    ensures some { result ≡ is_some (listed_in need resp word.now) }
    ensures beat { beat.new ≡ unwrap_or (listed_in need resp word.now) beat.old }
{
    match need {
        Need::OfWritten => lend_written(resp, word, beat),
        Need::Unread => lend_beat(word, beat),
        Need::Value => lend_beat(word, beat),
        Need::OrDash => lend_beat(word, beat),
        Need::OfUnique => lend_beat(word, beat),
        Need::OfResent => lend_beat(word, beat),
    }
}

/// Lends the words of data.
#[inline(always)]
fn lend_by(listing: Listing, need: Need, resp: Option<Resp>, word: &[u8], beat: &mut Beat) -> bool
    ensures some { result ≡ is_some (payload_by listing need resp word.now) }
    ensures beat { beat.new ≡ unwrap_or (payload_by listing need resp word.now) beat.old }
{
    match listing {
        Listing::Listed => lend_listed(need, resp, word, beat),
        Listing::None => lend_unlisted(word, beat),
    }
}

/// Lends the words of a flit, if it has some; whether they aren't wrong.
#[inline(always)]
pub(crate) fn lend_payload(
    listing: Listing,
    need: Need,
    resp: Option<Resp>,
    word: &[u8],
    beat: &mut Beat,
) -> bool
    ensures some { result ≡ is_some (payload_in listing need resp word.now) }
    ensures beat { beat.new ≡ lent_by (payload_in listing need resp word.now) beat.old }
{
    match need {
        Need::Unread => true,
        Need::Value => lend_by(listing, need, resp, word, beat),
        Need::OrDash => lend_by(listing, need, resp, word, beat),
        Need::OfUnique => lend_by(listing, need, resp, word, beat),
        Need::OfResent => lend_by(listing, need, resp, word, beat),
        Need::OfWritten => lend_by(listing, need, resp, word, beat),
    }
}

/// The word of a load or a store.
pub(crate) fn value_in(listing: Listing, text: &[u8]) -> Option<u64>
    ensures { result ≡ value_in listing text.now }
{
    match listing {
        Listing::Listed => text_number(text, u64::MAX),
        Listing::None if is_dash(text) => Some(0),
        Listing::None => None,
    }
}
