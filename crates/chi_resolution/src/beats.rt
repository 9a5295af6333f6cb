//! Data in more than one beat.

ghost use Rattle.std.specs.Prelude.{◌≡◌, position};
ghost use Rattle.chi_resolution.specs.Beats.{completes_data, data_at, data_before, data_of, is_before, is_whole, joined, merged_one, waits_for};

use crate::ids::{KeyTable, OpenKey, numbers_of};
use crate::lines::CacheLine;
use crate::reasons::IdReason;
use chi_flit::WordNo;
use chi_trace::{Beat, DbId, Opcode, Resp};
use std::alloc::Allocator;

/// Data that lacks words yet: its id stays in use.
/// Source: `docs/TRACES.md`, "Nodes, ids and credits".
#[derive(Clone, Copy, Debug, PartialEq, Eq)]
pub struct OpenData {
    /// The id that the data frees: of a request's CompData, a copy-back's CopyBackWrData or a snoop's
    /// SnpRespData.
    pub key: OpenKey,
    pub line: CacheLine,
    /// The place of its flit among those that are resolved.
    pub place: usize,
    pub resp: Resp,
    pub dbid: Option<DbId>,
    /// The words so far.
    pub beat: Beat,
}

/// The unfinished data that frees an id.
pub(crate) fn find_data<A: Allocator>(
    unfinished: &KeyTable<OpenData, A>,
    key: OpenKey,
) -> Option<OpenData>
    ensures { result ≡ data_of key unfinished.now.entries }
{
    match unfinished.get(&numbers_of(key)) {
        Some(begun) => Some(*begun),
        None => None,
    }
}

/// Whether a flit of the opcode completes a request.
fn completes(opcode: Opcode) -> bool
    ensures { result ≡ completes_data opcode }
{
    matches!(
        opcode,
        Opcode::Comp | Opcode::CompDBIDResp | Opcode::CompData
    )
}

/// Whether the home sends a flit of the opcode only once it has the data that frees the id: a completion is behind all
/// answers and behind write data, a snoop behind write data.
fn waits_for(opcode: Opcode, key: OpenKey) -> bool
    ensures { result ≡ waits_for opcode key }
{
    match key {
        OpenKey::Snoop(_, _) => completes(opcode),
        OpenKey::Buffer(_, _) => completes(opcode) || matches!(opcode, Opcode::Snoop(_)),
        OpenKey::Request(_, _) | OpenKey::Retried(_, _) => false,
    }
}

/// Whether the home sends a flit of the opcode at the line only once it has the data.
fn is_before(begun: &OpenData, opcode: Opcode, line: CacheLine) -> bool
    ensures { result ≡ is_before opcode line begun.now }
{
    begun.line.0 == line.0 && waits_for(opcode, begun.key)
}

/// The place of the data, among that which is unfinished, that comes before a flit of this opcode at the line.
fn place_before(unfinished: &[OpenData], opcode: Opcode, line: CacheLine) -> Option<usize>
    ensures { result ≡ position (is_before opcode line) unfinished.now }
{
    unfinished
        .iter()
        .position(|data| is_before(data, opcode, line))
}

/// The unfinished data at a place.
fn data_at(unfinished: &[OpenData], place: Option<usize>) -> Option<OpenData>
    ensures { result ≡ data_at unfinished.now place }
{
    match unfinished.get(place?) {
        Some(begun) => Some(*begun),
        None => None,
    }
}

/// The unfinished data that comes before a flit of this opcode at the line.
pub(crate) fn find_before<A: Allocator>(
    unfinished: &KeyTable<OpenData, A>,
    opcode: Opcode,
    line: CacheLine,
) -> Option<OpenData>
    ensures { result ≡ data_before opcode line unfinished.now.entries }
{
    let unfinished = unfinished.values().as_slice();
    data_at(unfinished, place_before(unfinished, opcode, line))
}

/// Whether no word lacks.
pub(crate) fn is_whole(beat: &Beat) -> bool
    ensures { result ≡ is_whole beat.now }
{
    beat.there.iter().all(|there| *there)
}

/// The words of the beats so far and those of a further one. `WordAgain` where both have a word.
#[tactic(auto, unfolding(crate::specs::Beats::joined))]
pub(crate) fn joined(key: OpenKey, begun: &Beat, more: &Beat) -> Result<Beat, IdReason>
    ensures { result ≡ joined key begun.now more.now }
{
    Ok(Beat::with(&[
        one_of(key, WordNo(0), begun.word(0), more.word(0))?,
        one_of(key, WordNo(1), begun.word(1), more.word(1))?,
        one_of(key, WordNo(2), begun.word(2), more.word(2))?,
        one_of(key, WordNo(3), begun.word(3), more.word(3))?,
        one_of(key, WordNo(4), begun.word(4), more.word(4))?,
        one_of(key, WordNo(5), begun.word(5), more.word(5))?,
        one_of(key, WordNo(6), begun.word(6), more.word(6))?,
        one_of(key, WordNo(7), begun.word(7), more.word(7))?,
    ]))
}

/// The word that one of the two has, if one has.
fn one_of(
    key: OpenKey,
    number: WordNo,
    word: Option<u64>,
    new: Option<u64>,
) -> Result<Option<u64>, IdReason>
    ensures { result ≡ merged_one key number word new }
{
    match (word, new) {
        (Some(_), Some(_)) => Err(IdReason::WordAgain(key, number)),
        (Some(value), None) | (None, Some(value)) => Ok(Some(value)),
        (None, None) => Ok(None),
    }
}
