//! What a line is.

ghost use Rattle.std.specs.Prelude.{◌≡◌};
ghost use Rattle.chi_log.specs.Seen.{access_read, beat_after, flit_read, flit_with, own_with, read_of, read_with, seen_of, with_credit, with_dbid, with_line, with_resp};

use crate::fields::{Fields, fields_in, lend_payload, value_in};
use crate::kinds::{Kind, OwnOpcode, kind_in};
use crate::numbers::id_in;
use crate::options::{Listing, Options};
use crate::rows::Row;
use chi_issue_b::{Beat, CacheLine, DbId, Flit, NodeId, Opcode, PcrdType, Resp, TxnId};
use chi_lanes::Column;

/// What a line is.
/// Source: `docs/TRACES.md`, "Traces".
#[derive(Clone, Copy, Debug, PartialEq, Eq)]
pub enum Seen {
    /// A flit. Its words of data, if it has some, are lent beside it.
    Flit(Flit),
    /// A flit of an opcode that Issue B hasn't.
    Own(OwnFlit),
    /// What a processor did.
    Access(Access),
}

/// A flit of an opcode that Issue B hasn't.
/// Source: `docs/TRACES.md`, "Other opcodes".
#[derive(Clone, Copy, Debug, PartialEq, Eq)]
pub struct OwnFlit {
    pub opcode: OwnOpcode,
    /// The node that sent it.
    pub source: NodeId,
    /// The node that it goes to.
    pub target: NodeId,
    pub txn: TxnId,
    /// The DBID that it names, if any.
    pub dbid: Option<DbId>,
    /// The credit type of a request with AllowRetry 0.
    pub credit: Option<PcrdType>,
    /// The cache line of its address, if it has one.
    pub line: Option<CacheLine>,
}

/// A load or a store of a processor.
/// Source: `docs/TRACES.md`, "Traces".
#[derive(Clone, Copy, Debug, PartialEq, Eq)]
pub struct Access {
    /// The node whose processor it was.
    pub source: NodeId,
    /// Whether it wrote the word.
    pub is_store: bool,
    /// The address of the word.
    pub address: u64,
    /// What it read, or wrote.
    pub word: u64,
}

/// The flit with the cache line of this address, if it has one.
#[inline(always)]
fn with_line(flit: Flit, address: Option<u64>) -> Flit
    ensures { result ≡ with_line flit address }
{
    match address {
        Some(address) => flit.with_line(CacheLine::at(address)),
        None => flit,
    }
}

/// The flit with this DBID, if it has one.
#[inline(always)]
fn with_dbid(flit: Flit, dbid: Option<u16>) -> Flit
    ensures { result ≡ with_dbid flit dbid }
{
    match dbid {
        Some(dbid) => flit.with_dbid(DbId(dbid)),
        None => flit,
    }
}

/// The flit with this RESP, if it has one.
#[inline(always)]
fn with_resp(flit: Flit, resp: Option<Resp>) -> Flit
    ensures { result ≡ with_resp flit resp }
{
    match resp {
        Some(resp) => flit.with_resp(resp),
        None => flit,
    }
}

/// The flit with this credit type, if it has one.
#[inline(always)]
fn with_credit(flit: Flit, credit: Option<u8>) -> Flit
    ensures { result ≡ with_credit flit credit }
{
    match credit {
        Some(credit) => flit.with_credit(PcrdType(credit)),
        None => flit,
    }
}

/// The flit of this opcode and source whose columns say this.
#[inline(always)]
fn flit_with(opcode: Opcode, source: u16, fields: &Fields) -> Flit
    ensures { result ≡ flit_with opcode source fields.now }
{
    let target = NodeId(fields.target.unwrap_or(0));
    let txn = TxnId(fields.txn.unwrap_or(0));
    let flit = Flit::new(opcode, NodeId(source), target, txn);
    let flit = with_line(flit, fields.address);
    let flit = with_dbid(flit, fields.dbid);
    let flit = with_resp(flit, fields.resp);
    with_credit(flit, fields.credit)
}

/// The flit of an opcode of a design's own whose columns say this.
#[inline(never)]
fn own_with(opcode: OwnOpcode, source: u16, fields: Fields) -> OwnFlit
    ensures { result ≡ own_with opcode source fields }
{
    OwnFlit {
        opcode,
        source: NodeId(source),
        target: NodeId(fields.target.unwrap_or(0)),
        txn: TxnId(fields.txn.unwrap_or(0)),
        dbid: fields.dbid.map(DbId),
        credit: fields.credit.map(PcrdType),
        line: fields.address.map(CacheLine::at),
    }
}

/// A flit, whose words of data are lent.
#[inline(always)]
fn flit_read(
    listing: Listing,
    opcode: Opcode,
    source: u16,
    fields: &Fields,
    payload: &Column,
    beat: &mut Beat,
) -> Option<Seen>
    ensures seen { result ≡ seen_of (flit_read listing opcode source fields.now payload.now) }
    ensures beat { beat.new ≡ beat_after (flit_read listing opcode source fields.now payload.now) beat.old }
{
    let need = Kind::Flit(opcode).form().payload;
    if lend_payload(listing, need, fields.resp, payload.text(), beat) {
        Some(Seen::Flit(flit_with(opcode, source, fields)))
    } else {
        None
    }
}

/// A load or a store.
#[inline(never)]
fn access_read(
    listing: Listing,
    is_store: bool,
    source: u16,
    address: Option<u64>,
    payload: &[u8],
) -> Option<Seen>
    ensures { result ≡ seen_of (access_read listing is_store source address payload.now) }
{
    let address = address?;
    let word = value_in(listing, payload)?;
    Some(Seen::Access(Access {
        source: NodeId(source),
        is_store,
        address,
        word,
    }))
}

/// What a line of this kind and source is, whose columns say this.
#[inline(always)]
fn read_with(
    listing: Listing,
    kind: Kind,
    source: u16,
    fields: &Fields,
    payload: &Column,
    beat: &mut Beat,
) -> Option<Seen>
    ensures seen { result ≡ seen_of (read_with listing kind source fields.now payload.now) }
    ensures beat { beat.new ≡ beat_after (read_with listing kind source fields.now payload.now) beat.old }
{
    match kind {
        Kind::Flit(opcode) => flit_read(listing, opcode, source, fields, payload, beat),
        Kind::Own(opcode) => Some(Seen::Own(own_with(opcode, source, *fields))),
        Kind::Load => access_read(listing, false, source, fields.address, payload.text()),
        Kind::Store => access_read(listing, true, source, fields.address, payload.text()),
    }
}

/// What a line with these columns is, whose words of data are lent; `None` where a column is wrong.
#[inline(always)]
#[tactic(auto, unfolding(crate::specs::Seen::read_of))]
pub(crate) fn read_in(options: Options, row: &Row, beat: &mut Beat) -> Option<Seen>
    ensures seen { result ≡ seen_of (read_of options row.now) }
    ensures beat { beat.new ≡ beat_after (read_of options row.now) beat.old }
{
    let kind = kind_in(options.opcodes, row.channel.text(), row.opcode.text())?;
    let source = id_in(&row.source)?;
    let fields = fields_in(kind.form(), row)?;
    read_with(options.listing, kind, source, &fields, &row.payload, beat)
}
