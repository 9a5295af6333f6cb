//! The rule of ids: what a flit may bring, and what is left behind it.

ghost use Rattle.std.specs.Prelude.{◌≡◌, None};
ghost use Rattle.chi_transactions.specs.declared.entries.Reason.TheVariants.{InUse};
ghost use Rattle.chi_transactions.specs.Rule.{before, buffer_refusal, dbid_refusal, brought, follows_behind, found_by, has_to_follow, id_refusal, is_at, is_in_use, is_left, is_of_home, is_of_line, is_opening, is_unfinished, is_used, left_behind, named_refusal, opened_buffer, refused_if};

use crate::beats::{beat_refusal, is_last};
use crate::entries::{Begun, OpenId, Options, Portion, Reason};
use crate::flits::home_of;
use crate::parts::{BUFFER, EVERY, IN_BEATS, Parts};
use crate::rows::{beside, brings, may_lack, names_buffer};
use chi_issue_b::{CacheLine, Flit};

/// Whether something has to come by the id, and it isn't from before the trace.
#[inline(always)]
#[tactic(auto, unfolding(crate::specs::Rule::is_used))]
pub(crate) fn is_used(id: &OpenId) -> bool
    ensures { result ≡ is_used id.now }
{
    let lacks = id.left.without(may_lack(id.of));
    id.since != 0 && lacks.bits != 0
}

/// Whether the id that is kept, if one is, is in use.
#[inline(always)]
pub(crate) fn is_in_use(kept: Option<OpenId>) -> bool
    ensures { result ≡ is_in_use kept }
{
    match kept {
        Some(id) => is_used(&id),
        None => false,
    }
}

/// An id from before the trace, of which anything may be left.
#[tactic(auto, unfolding(crate::specs::Rule::before))]
fn before(flit: &Flit) -> OpenId
    ensures { result ≡ before flit.now }
{
    OpenId {
        line: CacheLine::at(0),
        since: 0,
        home: home_of(flit),
        of: flit.opcode,
        left: Parts { bits: EVERY },
        follows: Parts::NONE,
        retryable: true,
        begun: false,
    }
}

/// What the trace has of the id that the flit names, where that is kept so.
#[inline(always)]
pub(crate) fn found_by(options: Options, flit: &Flit, kept: Option<OpenId>) -> Option<OpenId>
    ensures { result ≡ found_by options flit.now kept }
{
    match kept {
        Some(id) => Some(id),
        None => {
            if options.begins_in_middle {
                Some(before(flit))
            } else {
                None
            }
        }
    }
}

/// Whether the id is of this line, if there is one.
#[inline(always)]
fn is_at(id: &OpenId, line: Option<CacheLine>) -> bool
    ensures { result ≡ is_at id.now line }
{
    match line {
        Some(line) => id.line.address() == line.address(),
        None => true,
    }
}

/// Whether the id is of the flit's address, where it has one; any is of an id from before the trace.
#[inline(always)]
#[tactic(auto, unfolding(crate::specs::Rule::is_of_line))]
pub(crate) fn is_of_line(flit: &Flit, id: &OpenId) -> bool
    ensures { result ≡ is_of_line flit.now id.now }
{
    let at = is_at(id, flit.line());
    id.since == 0 || at
}

/// Whether the flit has no data, and would end data that have begun to come.
#[inline(always)]
#[tactic(auto, unfolding(crate::specs::Rule::is_unfinished))]
fn is_unfinished(flit: &Flit, id: &OpenId) -> bool
    ensures { result ≡ is_unfinished flit.now id.now }
{
    let carries_data = flit.opcode.carries_data();
    let ends = brings(flit.opcode).meets(Parts { bits: IN_BEATS });
    id.begun && !carries_data && ends
}

/// Whether all that the flit brings is left.
#[inline(always)]
#[tactic(auto, unfolding(crate::specs::Rule::is_left))]
fn is_left(flit: &Flit, id: &OpenId) -> bool
    ensures { result ≡ is_left flit.now id.now }
{
    id.left.has(brings(flit.opcode))
}

/// What is left behind the flit, once it has come whole: all else; of an id from before the trace what may be left beside it.
#[inline(always)]
#[tactic(auto, unfolding(crate::specs::Rule::left_behind))]
fn left_behind(flit: &Flit, id: &OpenId) -> Parts
    ensures { result ≡ left_behind flit.now id.now }
{
    let brings = brings(flit.opcode);
    if id.since == 0 {
        id.left.both(beside(brings))
    } else {
        id.left.without(brings)
    }
}

/// Whether the flit opens the DBID that it names.
#[inline(always)]
#[tactic(auto, unfolding(crate::specs::Rule::is_opening))]
pub(crate) fn is_opening(flit: &Flit, id: &OpenId) -> bool
    ensures { result ≡ is_opening flit.now id.now }
{
    let named = names_buffer(flit.opcode, flit.resp);
    let apart = left_behind(flit, id).meets(Parts { bits: BUFFER });
    named && id.follows.bits != 0 && !apart
}

/// Whether something has to follow by the DBID of the id's request.
#[inline(always)]
#[tactic(auto, unfolding(crate::specs::Rule::has_to_follow))]
pub(crate) fn has_to_follow(id: &OpenId) -> bool
    ensures { result ≡ has_to_follow id.now }
{
    let lacks = id.follows.without(may_lack(id.of));
    lacks.bits != 0
}

/// Why the flit can't open a DBID, where it has to: there is none, or it is in use.
#[inline(always)]
fn buffer_refusal(flit: &Flit, id: &OpenId, buffer: Option<OpenId>) -> Option<Reason>
    ensures { result ≡ buffer_refusal flit.now id.now buffer }
{
    let opens = is_opening(flit, id);
    let has_to = has_to_follow(id);
    if opens && has_to {
        return match flit.dbid() {
            None => Some(Reason::NoDbid),
            Some(_) => in_use_refusal(buffer),
        };
    }
    None
}

/// The refusal of an id that is in use.
#[inline(always)]
pub(crate) fn in_use_refusal(kept: Option<OpenId>) -> Option<Reason>
    ensures { result ≡ refused_if (is_in_use kept) InUse None }
{
    if is_in_use(kept) {
        Some(Reason::InUse)
    } else {
        None
    }
}

/// Why the id doesn't allow the flit.
#[inline(always)]
fn id_refusal(flit: &Flit, id: &OpenId) -> Option<Reason>
    ensures { result ≡ id_refusal flit.now id.now }
{
    if id.left.bits == 0 {
        return Some(Reason::NotOpen);
    }
    if id.home.0 != home_of(flit).0 {
        return Some(Reason::OtherHome);
    }
    if !is_of_line(flit, id) {
        return Some(Reason::OtherLine);
    }
    if is_unfinished(flit, id) {
        return Some(Reason::Unfinished);
    }
    if !is_left(flit, id) {
        return Some(Reason::NotLeft);
    }
    None
}

/// Why a flit that names this id isn't taken: by the id, by the data that have begun to come by it, and by what is kept of the
/// DBID that it opens.
#[inline(always)]
#[tactic(auto, unfolding(crate::specs::Rule::named_refusal))]
pub(crate) fn named_refusal(
    flit: &Flit,
    there: u8,
    id: &OpenId,
    begun: Option<Begun>,
    buffer: Option<OpenId>,
) -> Option<Reason>
    ensures { result ≡ named_refusal flit.now there id.now begun buffer }
{
    if let Some(reason) = id_refusal(flit, id) {
        return Some(reason);
    }
    if let Some(reason) = beat_refusal(flit, there, begun) {
        return Some(reason);
    }
    buffer_refusal(flit, id, buffer)
}

/// The parts that follow by a DBID which isn't opened yet behind the flit.
#[inline(always)]
fn follows_behind(flit: &Flit, id: &OpenId) -> Parts
    ensures { result ≡ follows_behind flit.now id.now }
{
    if is_opening(flit, id) {
        Parts::NONE
    } else {
        id.follows
    }
}

/// The id behind a flit that names it, and is this beat of its data.
#[inline(always)]
#[tactic(auto, unfolding(crate::specs::Rule::brought))]
pub(crate) fn brought(flit: &Flit, beat: Portion, id: &OpenId) -> OpenId
    ensures { result ≡ brought flit.now beat id.now }
{
    let whole = is_last(beat);
    OpenId {
        left: if whole {
            left_behind(flit, id)
        } else {
            id.left
        },
        follows: follows_behind(flit, id),
        retryable: false,
        begun: if flit.opcode.carries_data() {
            !whole
        } else {
            id.begun
        },
        ..*id
    }
}

/// The DBID of the id's request that a flit with this number opens.
#[inline(always)]
#[tactic(auto, unfolding(crate::specs::Rule::opened_buffer))]
pub(crate) fn opened_buffer(number: u64, id: &OpenId) -> OpenId
    ensures { result ≡ opened_buffer number id.now }
{
    OpenId {
        line: id.line,
        since: number,
        home: id.home,
        of: id.of,
        left: id.follows,
        follows: Parts::NONE,
        retryable: false,
        begun: false,
    }
}
