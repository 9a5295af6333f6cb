//! Data, a beat at a time.

ghost use Rattle.std.specs.Prelude.{◌≡◌};
ghost use Rattle.chi_resolution.specs.DataFlits.{beat_of, dbid_of, first_beat, is_form, is_same_dbid, later_beat, opened};
ghost use Rattle.chi_resolution.specs.Tables.{table_of};

use crate::beats::{OpenData, find_data, is_whole, joined};
use crate::ids::{OpenId, OpenKey};
use crate::lines::CacheLine;
use crate::messages::{is_same_resp, message_with};
use crate::nodes::Ends;
use crate::reasons::IdReason;
use crate::tables::{Change, Further, LineFlit, Tables, plain_flit, sent};
use chi_trace::{Address, Beat, DbId, Resp};
use std::alloc::Allocator;

/// Which data it is.
#[derive(Clone, Copy)]
pub(crate) enum DataSort {
    /// CompData, with the DBID that it opens.
    Read(DbId),
    /// SnpRespData.
    Snooped,
    /// CopyBackWrData.
    Written,
}

/// A beat of data, and the id that the data frees.
#[derive(Clone, Copy)]
pub(crate) struct DataFlit {
    pub sort: DataSort,
    pub key: OpenKey,
    pub resp: Resp,
    pub address: Option<Address>,
    pub beat: Beat,
}

/// The DBID that a read's data has.
fn dbid_of(sort: DataSort) -> Option<DbId>
    ensures { result ≡ dbid_of sort }
{
    match sort {
        DataSort::Read(dbid) => Some(dbid),
        DataSort::Snooped | DataSort::Written => None,
    }
}

/// Whether two flits have the same DBID, or none.
fn is_same_dbid(one: Option<DbId>, other: Option<DbId>) -> bool
    ensures { result ≡ is_same_dbid one other }
{
    match (one, other) {
        (Some(dbid), Some(dbid2)) => dbid.0 == dbid2.0,
        (None, None) => true,
        (Some(_), None) | (None, Some(_)) => false,
    }
}

/// Whether a further beat has the form and the DBID of the first.
fn is_form(begun: &OpenData, flit: &DataFlit) -> bool
    ensures { result ≡ is_form begun.now flit.now }
{
    is_same_resp(flit.resp, begun.resp) && is_same_dbid(dbid_of(flit.sort), begun.dbid)
}

/// A further beat of data that has these words so far.
#[tactic(auto, unfolding(crate::specs::DataFlits::later_beat))]
fn later_beat(
    ends: &Ends,
    flit: &DataFlit,
    found: &OpenId,
    begun: &OpenData,
) -> Result<Further, IdReason>
    ensures { result ≡ later_beat ends.now flit.now found.now begun.now }
{
    if !is_form(begun, flit) {
        return Err(IdReason::OtherBeat(begun.key));
    }
    let beat = joined(begun.key, &begun.beat, &flit.beat)?;
    let message = message_with(flit.sort, begun.resp, beat.words).ok_or(IdReason::Form(
        begun.resp,
    ))?;
    let frees = if is_whole(&beat) {
        Some(found.key)
    } else {
        None
    };
    Ok(Further {
        joined: OpenData { beat, ..*begun },
        flit: sent(ends, message),
        frees,
    })
}

impl<A: Allocator> Tables<'_, A> {
    /// A beat of data that frees the id: the first one, or a further one.
    #[tactic(auto, unfolding(crate::specs::DataFlits::beat_of))]
    pub(crate) fn data(&self, ends: &Ends, flit: &DataFlit) -> Result<Change, IdReason>
        ensures { result ≡ beat_of (table_of self.now) ends.now flit.now }
    {
        let found = self.named(flit.key, flit.address)?;
        match find_data(self.unfinished, flit.key) {
            Some(begun) => {
                let further = later_beat(ends, flit, &found, &begun)?;
                Ok(Change::Beat(further))
            }
            None => {
                let first = self.first_beat(ends, flit, &found)?;
                Ok(Change::Flit(first))
            }
        }
    }

    /// The first beat of data.
    #[tactic(auto, unfolding(crate::specs::DataFlits::first_beat))]
    fn first_beat(&self, ends: &Ends, flit: &DataFlit, found: &OpenId) -> Result<LineFlit, IdReason>
        ensures { result ≡ first_beat (table_of self.now) ends.now flit.now found.now }
    {
        let resp = flit.resp;
        let message = message_with(flit.sort, resp, flit.beat.words).ok_or(IdReason::Form(resp))?;
        let opens = self.opened(ends, found.line, flit.sort)?;
        let first = LineFlit {
            opens,
            ..plain_flit(found.line, sent(ends, message))
        };
        if is_whole(&flit.beat) {
            return Ok(LineFlit {
                frees: Some(found.key),
                ..first
            });
        }
        Ok(LineFlit {
            begins: Some(OpenData {
                key: found.key,
                line: found.line,
                place: self.flits.len(),
                resp,
                dbid: dbid_of(flit.sort),
                beat: flit.beat,
            }),
            ..first
        })
    }

    /// The DBID that the data of a read opens; other data opens none.
    fn opened(
        &self,
        ends: &Ends,
        line: CacheLine,
        sort: DataSort,
    ) -> Result<Option<OpenId>, IdReason>
        ensures { result ≡ opened (table_of self.now) ends.now line sort }
    {
        match sort {
            DataSort::Read(dbid) => {
                let buffer = self.new_id(OpenKey::Buffer(ends.requester, dbid))?;
                Ok(Some(OpenId {
                    awaits_ack: true,
                    ..self.plain_id(buffer, line)
                }))
            }
            DataSort::Snooped | DataSort::Written => Ok(None),
        }
    }
}
