//! What each line of a trace is to a watch: the one place where a trace's words become an observer's.

ghost use Rattle.std.specs.Prelude.{◌≡◌, length};
ghost use Rattle.chi_observe.specs.Seen.{access_event, answer_data_told, answer_told, completion_told, data_given, data_sent, down, event_of, kind_named, line_named, line_of, named_buffer, other_kind_named, other_snoop_named, profile_event, read_event, read_told, request_event, request_step, request_told, snoop_event, snoop_named, up, whole_written_told, word_of, written_told};

use crate::events::{AccessEvent, Event, LineEvent, Tells};
use crate::steps::IdStep;
use chi_flit::{NO_DATA, State, WordNo};
use chi_ids::{CacheLine, Sides};
use chi_observer::{Act, Answer, Grant, Kind, Snoop, Word};
use chi_trace::{
    Address, AnyFlit, AnySeen, Beat, DbId, Flit, NodeId, OtherKind, OtherSnoop, PcrdType,
    RequestFields, Resp, SnoopFields, Transaction, TxnId,
};

/// The line that a byte is in.
/// Source: `docs/TRACES.md`, "Traces".
pub fn line_of(address: Address) -> CacheLine
    ensures { result ≡ line_of address }
{
    CacheLine(address.0 / 64)
}

/// The line of an address, if there is one.
fn line_named(address: Option<Address>) -> Option<CacheLine>
    ensures { result ≡ line_named address }
{
    match address {
        Some(address) => Some(line_of(address)),
        None => None,
    }
}

/// The kind of this name.
fn kind_named(kind: chi_flit::Kind) -> Kind
    ensures { result ≡ kind_named kind }
{
    match kind {
        chi_flit::Kind::ReadNotSharedDirty => Kind::ReadNotSharedDirty,
        chi_flit::Kind::ReadShared => Kind::ReadShared,
        chi_flit::Kind::ReadUnique => Kind::ReadUnique,
        chi_flit::Kind::CleanUnique => Kind::CleanUnique,
        chi_flit::Kind::Evict => Kind::Evict,
        chi_flit::Kind::WriteBackFull => Kind::WriteBackFull,
        chi_flit::Kind::WriteCleanFull => Kind::WriteCleanFull,
        chi_flit::Kind::WriteEvictFull => Kind::WriteEvictFull,
    }
}

/// The snoop of this name.
fn snoop_named(snoop: chi_flit::Snoop) -> Snoop
    ensures { result ≡ snoop_named snoop }
{
    match snoop {
        chi_flit::Snoop::SnpShared => Snoop::SnpShared,
        chi_flit::Snoop::SnpNotSharedDirty => Snoop::SnpNotSharedDirty,
        chi_flit::Snoop::SnpUnique => Snoop::SnpUnique,
        chi_flit::Snoop::SnpCleanInvalid => Snoop::SnpCleanInvalid,
    }
}

/// The kind of this name.
fn other_kind_named(kind: OtherKind) -> Kind
    ensures { result ≡ other_kind_named kind }
{
    match kind {
        OtherKind::ReadClean => Kind::ReadClean,
        OtherKind::ReadOnce => Kind::ReadOnce,
        OtherKind::MakeUnique => Kind::MakeUnique,
        OtherKind::CleanShared => Kind::CleanShared,
        OtherKind::CleanInvalid => Kind::CleanInvalid,
        OtherKind::MakeInvalid => Kind::MakeInvalid,
        OtherKind::WriteUniqueFull => Kind::WriteUniqueFull,
    }
}

/// The snoop of this name.
fn other_snoop_named(snoop: OtherSnoop) -> Snoop
    ensures { result ≡ other_snoop_named snoop }
{
    match snoop {
        OtherSnoop::SnpOnce => Snoop::SnpOnce,
        OtherSnoop::SnpClean => Snoop::SnpClean,
        OtherSnoop::SnpCleanShared => Snoop::SnpCleanShared,
        OtherSnoop::SnpMakeInvalid => Snoop::SnpMakeInvalid,
    }
}

/// What a request is to ids and credits: one that spends a credit is sent again.
fn request_step(kind: Kind, fields: RequestFields) -> IdStep
    ensures { result ≡ request_step kind fields }
{
    let line = line_of(fields.address);
    match fields.spends {
        None => IdStep::Attempt(fields.txn, kind, line),
        Some(pcrd) => IdStep::Resent(fields.txn, kind, line, pcrd),
    }
}

/// What a request tells.
fn request_told(kind: Kind, spends: Option<PcrdType>) -> Tells
    ensures { result ≡ request_told kind spends }
{
    match spends {
        None => Tells::Sent(Act::Request(kind), NO_DATA),
        Some(_) => Tells::Sent(Act::Resend(kind), NO_DATA),
    }
}

/// What a Comp whose RESP isn't UC tells.
fn completion_told(resp: Resp) -> Tells
    ensures { result ≡ completion_told resp }
{
    match resp {
        Resp::I => Tells::Given(Grant::CompI, NO_DATA),
        Resp::SC => Tells::Given(Grant::CompSC, NO_DATA),
        Resp::UC
        | Resp::UD
        | Resp::SD
        | Resp::IPD
        | Resp::SCPD
        | Resp::UCPD
        | Resp::UDPD
        | Resp::SDPD => Tells::NoForm(resp),
    }
}

/// What an answer without data tells.
fn answer_told(resp: Resp) -> Tells
    ensures { result ≡ answer_told resp }
{
    match resp {
        Resp::I => Tells::Sent(Act::SnpResp(Answer::SnpRespI), NO_DATA),
        Resp::SC => Tells::Sent(Act::SnpResp(Answer::SnpRespSC), NO_DATA),
        Resp::UC => Tells::Sent(Act::SnpResp(Answer::SnpRespUC), NO_DATA),
        Resp::UD | Resp::SD | Resp::IPD | Resp::SCPD | Resp::UCPD | Resp::UDPD | Resp::SDPD =>
            Tells::NoForm(resp),
    }
}

/// What data of a cache tell.
fn data_sent(beat: &Beat, act: Act) -> Tells
    ensures { result ≡ data_sent beat.now act }
{
    Tells::Sent(act, beat.words)
}

/// What data of the home tell.
fn data_given(beat: &Beat, state: State) -> Tells
    ensures { result ≡ data_given beat.now state }
{
    Tells::Given(Grant::CompData(state), beat.words)
}

/// What an answer with data tells.
fn answer_data_told(resp: Resp, beat: &Beat) -> Tells
    ensures { result ≡ answer_data_told resp beat.now }
{
    match resp {
        Resp::I => data_sent(beat, Act::SnpResp(Answer::SnpRespDataI)),
        Resp::SC => data_sent(beat, Act::SnpResp(Answer::SnpRespDataSC)),
        Resp::UC => data_sent(beat, Act::SnpResp(Answer::SnpRespDataUC)),
        Resp::UD => data_sent(beat, Act::SnpResp(Answer::SnpRespDataUD)),
        Resp::SD => data_sent(beat, Act::SnpResp(Answer::SnpRespDataSD)),
        Resp::IPD => data_sent(beat, Act::SnpResp(Answer::SnpRespDataIPD)),
        Resp::SCPD => data_sent(beat, Act::SnpResp(Answer::SnpRespDataSCPD)),
        Resp::UCPD => data_sent(beat, Act::SnpResp(Answer::SnpRespDataUCPD)),
        Resp::UDPD | Resp::SDPD => Tells::NoForm(resp),
    }
}

/// What write data tell.
fn written_told(resp: Resp, beat: &Beat) -> Tells
    ensures { result ≡ written_told resp beat.now }
{
    match resp {
        Resp::I => data_sent(beat, Act::CopyBackWrData(State::I)),
        Resp::SC => data_sent(beat, Act::CopyBackWrData(State::SC)),
        Resp::UC => data_sent(beat, Act::CopyBackWrData(State::UC)),
        Resp::UDPD => data_sent(beat, Act::CopyBackWrData(State::UD)),
        Resp::SDPD => data_sent(beat, Act::CopyBackWrData(State::SD)),
        Resp::UD | Resp::SD | Resp::IPD | Resp::SCPD | Resp::UCPD => Tells::NoForm(resp),
    }
}

/// What the write data of a WriteUniqueFull tell.
fn whole_written_told(resp: Resp, beat: &Beat) -> Tells
    ensures { result ≡ whole_written_told resp beat.now }
{
    match resp {
        Resp::I => data_sent(beat, Act::NonCopyBackWrData),
        Resp::SC
        | Resp::UC
        | Resp::UD
        | Resp::SD
        | Resp::IPD
        | Resp::SCPD
        | Resp::UCPD
        | Resp::UDPD
        | Resp::SDPD => Tells::NoForm(resp),
    }
}

/// What a read's data tell.
fn read_told(resp: Resp, beat: &Beat) -> Tells
    ensures { result ≡ read_told resp beat.now }
{
    match resp {
        Resp::I => data_given(beat, State::I),
        Resp::SC => data_given(beat, State::SC),
        Resp::UC => data_given(beat, State::UC),
        Resp::UDPD => data_given(beat, State::UD),
        Resp::SDPD => data_given(beat, State::SD),
        Resp::UD | Resp::SD | Resp::IPD | Resp::SCPD | Resp::UCPD => Tells::NoForm(resp),
    }
}

/// The DBID by which CompAck and write data name what the home keeps: it is their TxnID.
fn named_buffer(transaction: &Transaction) -> DbId
    ensures { result ≡ named_buffer transaction.now }
{
    DbId(transaction.txn.0)
}

/// A flit from a requester to the home.
fn up(seen: &AnySeen, home: NodeId, at: Option<Address>, step: IdStep, tells: Tells) -> Event
    ensures { result ≡ up seen.now home at step tells }
{
    Event::Line(LineEvent {
        number: seen.line,
        sides: Sides {
            requester: seen.source,
            home,
        },
        step,
        at: line_named(at),
        tells,
    })
}

/// A flit from the home to a requester.
fn down(seen: &AnySeen, requester: NodeId, at: Option<Address>, step: IdStep, tells: Tells) -> Event
    ensures { result ≡ down seen.now requester at step tells }
{
    Event::Line(LineEvent {
        number: seen.line,
        sides: Sides {
            requester,
            home: seen.source,
        },
        step,
        at: line_named(at),
        tells,
    })
}

/// What a response or data of a requester is to a watch.
fn up_in(seen: &AnySeen, transaction: &Transaction, step: IdStep, tells: Tells) -> Event
    ensures { result ≡ up seen.now transaction.now.target transaction.now.address step tells }
{
    up(seen, transaction.target, transaction.address, step, tells)
}

/// What a response or data of the home is to a watch.
fn down_in(seen: &AnySeen, transaction: &Transaction, step: IdStep, tells: Tells) -> Event
    ensures { result ≡ down seen.now transaction.now.target transaction.now.address step tells }
{
    down(seen, transaction.target, transaction.address, step, tells)
}

/// The word at an address, with this value.
fn word_of(address: Address, value: u64) -> Word
    ensures { result ≡ word_of address value }
{
    Word {
        place: WordNo((address.0 % 64 / 8) as u8),
        value,
    }
}

/// What a load or a store is to a watch.
fn access_event(seen: &AnySeen, address: Address, act: Act) -> Event
    ensures { result ≡ access_event seen.now address act }
{
    Event::Access(AccessEvent {
        number: seen.line,
        requester: seen.source,
        line: line_of(address),
        tells: Tells::Sent(act, NO_DATA),
    })
}

/// What a request is to a watch.
fn request_event(seen: &AnySeen, kind: Kind, fields: RequestFields) -> Event
    ensures { result ≡ request_event seen.now kind fields }
{
    let told = request_told(kind, fields.spends);
    up(seen, fields.target, None, request_step(kind, fields), told)
}

/// What a snoop is to a watch.
fn snoop_event(seen: &AnySeen, snoop: Snoop, fields: SnoopFields) -> Event
    ensures { result ≡ snoop_event seen.now snoop fields }
{
    let step = IdStep::Snoop(fields.txn, snoop, line_of(fields.address));
    let told = Tells::Given(Grant::Snp(snoop), NO_DATA);
    down(seen, fields.target, None, step, told)
}

/// What a read's data are to a watch.
fn read_event(
    seen: &AnySeen,
    transaction: &Transaction,
    resp: Resp,
    dbid: Option<DbId>,
    beat: &Beat,
) -> Event
    ensures { result ≡ read_event seen.now transaction.now resp dbid beat.now }
{
    let step = IdStep::ReadData(transaction.txn, dbid, beat.there);
    down_in(seen, transaction, step, read_told(resp, beat))
}

/// What a flit of the profile is to a watch.
fn profile_event(seen: &AnySeen, flit: &Flit) -> Event
    ensures { result ≡ profile_event seen.now flit.now }
{
    let source = seen.source;
    match flit {
        Flit::Request {
            kind,
            spends,
            target,
            txn,
            address,
        } => {
            let fields = RequestFields {
                spends: *spends,
                target: *target,
                txn: *txn,
                address: *address,
            };
            request_event(seen, kind_named(*kind), fields)
        }
        Flit::PCrdReturn { pcrd, target } => {
            let sides = Sides {
                requester: source,
                home: *target,
            };
            Event::Returned(sides, *pcrd)
        }
        Flit::Snoop {
            snoop,
            target,
            txn,
            address,
        } => {
            let fields = SnoopFields {
                target: *target,
                txn: *txn,
                address: *address,
            };
            snoop_event(seen, snoop_named(*snoop), fields)
        }
        Flit::RetryAck { pcrd, transaction } => down_in(
            seen,
            transaction,
            IdStep::RetryAck(transaction.txn, *pcrd),
            Tells::Given(Grant::RetryAck, NO_DATA),
        ),
        Flit::CompUC { dbid, transaction } => down_in(
            seen,
            transaction,
            IdStep::CompleteWith(transaction.txn, Some(*dbid)),
            Tells::Given(Grant::CompUC, NO_DATA),
        ),
        Flit::Comp { resp, transaction } => down_in(
            seen,
            transaction,
            IdStep::Complete(transaction.txn),
            completion_told(*resp),
        ),
        Flit::CompDBIDResp { dbid, transaction } => down_in(
            seen,
            transaction,
            IdStep::CompleteWith(transaction.txn, Some(*dbid)),
            Tells::Given(Grant::CompDBIDResp, NO_DATA),
        ),
        Flit::PCrdGrant { pcrd, target } => {
            let sides = Sides {
                requester: *target,
                home: source,
            };
            Event::Granted(sides, *pcrd)
        }
        Flit::SnpResp { resp, transaction } => up_in(
            seen,
            transaction,
            IdStep::Answer(transaction.txn),
            answer_told(*resp),
        ),
        Flit::CompAck { transaction } => up_in(
            seen,
            transaction,
            IdStep::Acknowledge(named_buffer(transaction)),
            Tells::Sent(Act::CompAck, NO_DATA),
        ),
        Flit::CompData {
            resp,
            dbid,
            transaction,
            beat,
        } => read_event(seen, transaction, *resp, Some(*dbid), beat),
        Flit::SnpRespData {
            resp,
            transaction,
            beat,
        } => up_in(
            seen,
            transaction,
            IdStep::AnswerData(transaction.txn, beat.there),
            answer_data_told(*resp, beat),
        ),
        Flit::CopyBackWrData {
            resp,
            transaction,
            beat,
        } => up_in(
            seen,
            transaction,
            IdStep::WriteData(named_buffer(transaction), beat.there),
            written_told(*resp, beat),
        ),
        Flit::Load { address, value } => {
            access_event(seen, *address, Act::Load(word_of(*address, *value)))
        }
        Flit::Store { address, value } => {
            access_event(seen, *address, Act::Store(word_of(*address, *value)))
        }
    }
}

/// What a line of a trace is to a watch.
/// Source: `docs/OBSERVER.md`, "A trace of many lines".
pub fn event_of(seen: &AnySeen) -> Event
    ensures { result ≡ event_of seen.now }
{
    match &seen.flit {
        AnyFlit::Profile(flit) => profile_event(seen, flit),
        AnyFlit::Request { kind, fields } => {
            request_event(seen, other_kind_named(*kind), *fields)
        }
        AnyFlit::Snoop { snoop, fields } => {
            snoop_event(seen, other_snoop_named(*snoop), *fields)
        }
        AnyFlit::CompUC { transaction } => down_in(
            seen,
            transaction,
            IdStep::CompleteWith(transaction.txn, None),
            Tells::Given(Grant::CompUC, NO_DATA),
        ),
        AnyFlit::CompData {
            resp,
            transaction,
            beat,
        } => read_event(seen, transaction, *resp, None, beat),
        AnyFlit::NonCopyBackWrData {
            resp,
            transaction,
            beat,
        } => up_in(
            seen,
            transaction,
            IdStep::WriteData(named_buffer(transaction), beat.there),
            whole_written_told(*resp, beat),
        ),
        AnyFlit::UnknownRequest(opcode, fields) => up(
            seen,
            fields.target,
            None,
            IdStep::UnknownRequest(fields.txn, line_of(fields.address), fields.spends),
            Tells::Unjudged(*opcode),
        ),
        AnyFlit::UnknownSnoop(opcode, fields) => down(
            seen,
            fields.target,
            None,
            IdStep::UnknownSnoop(fields.txn, line_of(fields.address)),
            Tells::Unjudged(*opcode),
        ),
        AnyFlit::UnknownAnswer(opcode, transaction) => up_in(
            seen,
            transaction,
            IdStep::UnknownAnswer(transaction.txn),
            Tells::Unjudged(*opcode),
        ),
        AnyFlit::UnknownReply(opcode, transaction, dbid) => down_in(
            seen,
            transaction,
            IdStep::UnknownReply(transaction.txn, *dbid),
            Tells::Unjudged(*opcode),
        ),
    }
}
