//! Whether a line is the same to both readers.

use chi_issue_b::{Beat, Channel, Flit};
use chi_log::{Access, LineColumn, Listing, Malformed, Opcodes, Options, OwnFlit, Seen, read_line};
use chi_trace::{
    AnyFlit, AnySeen, Column, Flit as ProfileFlit, Listing as TraceListing,
    Opcodes as TraceOpcodes, RequestFields, SnoopFields, TraceFault, TraceForm, Transaction,
    any_flit_in,
};
use std::alloc::{AllocError, Allocator};

/// What the columns of a flit say.
#[derive(Clone, Copy, Debug, PartialEq, Eq)]
struct Said {
    source: u16,
    target: u16,
    txn: u16,
    line: Option<u64>,
    dbid: Option<u16>,
    credit: Option<u8>,
}

/// What a trace may have, as both readers have it.
pub const FORMS: [(Options, TraceForm); 4] = [
    (
        Options {
            opcodes: Opcodes::IssueB,
            listing: Listing::Listed,
        },
        TraceForm {
            opcodes: TraceOpcodes::IssueB,
            listing: TraceListing::Listed,
        },
    ),
    (
        Options {
            opcodes: Opcodes::Any,
            listing: Listing::Listed,
        },
        TraceForm {
            opcodes: TraceOpcodes::Any,
            listing: TraceListing::Listed,
        },
    ),
    (
        Options {
            opcodes: Opcodes::IssueB,
            listing: Listing::None,
        },
        TraceForm {
            opcodes: TraceOpcodes::IssueB,
            listing: TraceListing::None,
        },
    ),
    (
        Options {
            opcodes: Opcodes::Any,
            listing: Listing::None,
        },
        TraceForm {
            opcodes: TraceOpcodes::Any,
            listing: TraceListing::None,
        },
    ),
];

/// The words that no line has: what was lent before.
const BEFORE: Beat = Beat {
    words: [1, 2, 3, 4, 5, 6, 7, 8],
    given: 0x5a,
};

fn of_transaction(source: u16, of: &Transaction, dbid: Option<u16>, credit: Option<u8>) -> Said {
    Said {
        source,
        target: of.target.0,
        txn: of.txn.0,
        line: of.address.map(|address| address.0 / 64 * 64),
        dbid,
        credit,
    }
}

fn of_request(source: u16, of: &RequestFields) -> Said {
    Said {
        source,
        target: of.target.0,
        txn: of.txn.0,
        line: Some(of.address.0 / 64 * 64),
        dbid: None,
        credit: of.spends.map(|credit| credit.0),
    }
}

fn of_snoop(source: u16, of: &SnoopFields) -> Said {
    Said {
        source,
        target: of.target.0,
        txn: of.txn.0,
        line: Some(of.address.0 / 64 * 64),
        dbid: None,
        credit: None,
    }
}

/// What a flit with an address says.
fn of_address(source: u16, target: u16, txn: u16, address: u64, credit: Option<u8>) -> Said {
    Said {
        source,
        target,
        txn,
        line: Some(address / 64 * 64),
        dbid: None,
        credit,
    }
}

/// What a flit says that has a credit and no id, or a line that is no flit.
fn of_no_id(source: u16, target: u16, credit: Option<u8>) -> Said {
    Said {
        source,
        target,
        txn: 0,
        line: None,
        dbid: None,
        credit,
    }
}

/// What a flit of the profile says.
fn of_profile(source: u16, flit: &ProfileFlit) -> Said {
    match flit {
        ProfileFlit::Request {
            spends,
            target,
            txn,
            address,
            ..
        } => {
            let credit = spends.map(|credit| credit.0);
            of_address(source, target.0, txn.0, address.0, credit)
        }
        ProfileFlit::Snoop {
            target,
            txn,
            address,
            ..
        } => of_address(source, target.0, txn.0, address.0, None),
        ProfileFlit::PCrdReturn { pcrd, target } => of_no_id(source, target.0, Some(pcrd.0)),
        ProfileFlit::PCrdGrant { pcrd, target } => of_no_id(source, target.0, Some(pcrd.0)),
        ProfileFlit::Load { .. } | ProfileFlit::Store { .. } => of_no_id(source, 0, None),
        other => of_reply(source, other),
    }
}

/// What a response, or data, of the profile says.
fn of_reply(source: u16, flit: &ProfileFlit) -> Said {
    match flit {
        ProfileFlit::RetryAck { pcrd, transaction } => of_transaction(
            source,
            transaction,
            None,
            Some(pcrd.0),
        ),
        ProfileFlit::CompUC { dbid, transaction }
        | ProfileFlit::CompDBIDResp { dbid, transaction } => of_transaction(
            source,
            transaction,
            Some(dbid.0),
            None,
        ),
        ProfileFlit::CompData {
            dbid,
            transaction,
            ..
        } => of_transaction(source, transaction, Some(dbid.0), None),
        ProfileFlit::Comp { transaction, .. }
        | ProfileFlit::SnpResp { transaction, .. }
        | ProfileFlit::SnpRespData { transaction, .. }
        | ProfileFlit::CopyBackWrData { transaction, .. }
        | ProfileFlit::CompAck { transaction } => of_transaction(source, transaction, None, None),
        _ => of_no_id(source, 0, None),
    }
}

/// What a flit says that `chi_trace` has read.
fn of_trace(seen: &AnySeen) -> Said {
    let source = seen.source.0;
    match &seen.flit {
        AnyFlit::Profile(flit) => of_profile(source, flit),
        AnyFlit::Request { fields, .. } => of_request(source, fields),
        AnyFlit::Snoop { fields, .. } => of_snoop(source, fields),
        AnyFlit::CompUC { transaction }
        | AnyFlit::CompData { transaction, .. }
        | AnyFlit::NonCopyBackWrData { transaction, .. }
        | AnyFlit::UnknownAnswer(_, transaction) => of_transaction(source, transaction, None, None),
        AnyFlit::UnknownRequest(_, fields) => of_request(source, fields),
        AnyFlit::UnknownSnoop(_, fields) => of_snoop(source, fields),
        AnyFlit::UnknownReply(_, transaction, dbid) => of_transaction(
            source,
            transaction,
            dbid.map(|dbid| dbid.0),
            None,
        ),
    }
}

/// What a flit says that `chi_log` has read.
fn of_flit(flit: &Flit) -> Said {
    Said {
        source: flit.source.0,
        target: flit.target.0,
        txn: flit.txn.0,
        line: flit.line().map(|line| line.address()),
        dbid: flit.dbid().map(|dbid| dbid.0),
        credit: flit.credit.map(|credit| credit.0),
    }
}

fn of_own(flit: &OwnFlit) -> Said {
    Said {
        source: flit.source.0,
        target: flit.target.0,
        txn: flit.txn.0,
        line: flit.line.map(|line| line.address()),
        dbid: flit.dbid.map(|dbid| dbid.0),
        credit: flit.credit.map(|credit| credit.0),
    }
}

/// The words of data of a flit that `chi_trace` has read.
fn words_of(seen: &AnySeen) -> Option<chi_trace::Beat> {
    match &seen.flit {
        AnyFlit::Profile(ProfileFlit::CompData { beat, .. })
        | AnyFlit::Profile(ProfileFlit::SnpRespData { beat, .. })
        | AnyFlit::Profile(ProfileFlit::CopyBackWrData { beat, .. })
        | AnyFlit::CompData { beat, .. }
        | AnyFlit::NonCopyBackWrData { beat, .. } => Some(*beat),
        _ => None,
    }
}

/// The RESP of a flit that `chi_trace` has read.
fn resp_of(seen: &AnySeen) -> Option<chi_trace::Resp> {
    match &seen.flit {
        AnyFlit::Profile(ProfileFlit::CompUC { .. }) | AnyFlit::CompUC { .. } => Some(
            chi_trace::Resp::UC,
        ),
        AnyFlit::Profile(ProfileFlit::Comp { resp, .. })
        | AnyFlit::Profile(ProfileFlit::SnpResp { resp, .. })
        | AnyFlit::Profile(ProfileFlit::SnpRespData { resp, .. })
        | AnyFlit::Profile(ProfileFlit::CopyBackWrData { resp, .. })
        | AnyFlit::Profile(ProfileFlit::CompData { resp, .. })
        | AnyFlit::CompData { resp, .. }
        | AnyFlit::NonCopyBackWrData { resp, .. } => Some(*resp),
        _ => None,
    }
}

/// Whether the words that are lent are those of the flit, or those from before where it has none.
fn are_lent(beat: &Beat, words: Option<chi_trace::Beat>) -> bool {
    let words = match words {
        Some(words) => words,
        None => return *beat == BEFORE,
    };
    let mut given = 0;
    for (number, there) in words.there.iter().enumerate() {
        if *there && number < 8 {
            given |= 1 << number;
        }
    }
    beat.words == words.words && beat.given == given
}

/// Whether both have the same word for an opcode, and for a RESP.
fn are_named<A: Allocator + Copy>(
    alloc: A,
    ours: &Flit,
    theirs: &AnySeen,
) -> Result<bool, AllocError> {
    let opcode = format!(in alloc; "{}", theirs.flit.opcode())?;
    let resp = match resp_of(theirs) {
        Some(resp) => format!(in alloc; "{resp}")?,
        None => format!(in alloc; "-")?,
    };
    let our_resp = match ours.resp {
        Some(resp) => resp.word(),
        None => "-",
    };
    Ok(opcode.as_str() == ours.opcode.word() && resp.as_str() == our_resp)
}

/// Whether an opcode of a design's own is of the same sort.
fn is_of_sort(ours: &OwnFlit, theirs: &AnySeen) -> bool {
    match &theirs.flit {
        AnyFlit::UnknownRequest(opcode, _) => opcode.0 == 255
            && ours.opcode.channel == Channel::Req,
        AnyFlit::UnknownSnoop(opcode, _) => opcode.0 == 255 && ours.opcode.channel == Channel::Snp,
        AnyFlit::UnknownAnswer(opcode, _) => opcode.0 == 255 && ours.opcode.is_answer,
        AnyFlit::UnknownReply(opcode, _, _) => opcode.0 == 255
            && !ours.opcode.is_answer
            && ours.opcode.channel != Channel::Req
            && ours.opcode.channel != Channel::Snp,
        _ => false,
    }
}

fn is_access(ours: &Access, theirs: &AnySeen) -> bool {
    let (is_store, address, word) = match &theirs.flit {
        AnyFlit::Profile(ProfileFlit::Load { address, value }) => (false, address.0, *value),
        AnyFlit::Profile(ProfileFlit::Store { address, value }) => (true, address.0, *value),
        _ => return false,
    };
    ours.source.0 == theirs.source.0
        && ours.is_store == is_store
        && ours.address == address
        && ours.word == word
}

/// Whether both have seen the same.
fn is_same<A: Allocator + Copy>(
    alloc: A,
    ours: &Seen,
    beat: &Beat,
    theirs: &AnySeen,
) -> Result<bool, AllocError> {
    match ours {
        Seen::Flit(flit) => Ok(
            of_flit(flit) == of_trace(theirs)
                && are_lent(beat, words_of(theirs))
                && are_named(alloc, flit, theirs)?,
        ),
        Seen::Own(flit) => Ok(
            of_own(flit) == of_trace(theirs) && are_lent(beat, None) && is_of_sort(flit, theirs),
        ),
        Seen::Access(access) => Ok(is_access(access, theirs) && are_lent(beat, None)),
    }
}

fn is_column(ours: LineColumn, theirs: Column) -> bool {
    match ours {
        LineColumn::Channel => theirs == Column::Channel,
        LineColumn::Source => theirs == Column::Source,
        LineColumn::Target => theirs == Column::Target,
        LineColumn::Txn => theirs == Column::Txn,
        LineColumn::Opcode => theirs == Column::Opcode,
        LineColumn::Address => theirs == Column::Address,
        LineColumn::Resp => theirs == Column::Resp,
        LineColumn::Dbid => theirs == Column::Dbid,
        LineColumn::AllowRetry => theirs == Column::AllowRetry,
        LineColumn::Pcrd => theirs == Column::Pcrd,
        LineColumn::Data => theirs == Column::Data,
    }
}

fn is_fault(ours: Malformed, theirs: TraceFault) -> bool {
    match theirs {
        TraceFault::Gzip => ours == Malformed::Gzip,
        TraceFault::LongLine(_) => ours == Malformed::LongLine,
        TraceFault::FewWords(_) => ours == Malformed::FewWords,
        TraceFault::BadWord { column, .. } => match ours {
            Malformed::BadWord(our) => is_column(our, column),
            _ => false,
        },
        _ => false,
    }
}

/// Whether a line of a trace of this form is the same to both readers.
pub fn is_alike<A: Allocator + Copy>(
    alloc: A,
    form: &(Options, TraceForm),
    line: &[u8],
) -> Result<bool, AllocError> {
    let mut beat = BEFORE;
    let ours = read_line(line, form.0, &mut beat);
    match (&ours, &any_flit_in(form.1, line, 1)) {
        (Ok(None), Ok(None)) => Ok(beat == BEFORE),
        (Ok(Some(ours)), Ok(Some(theirs))) => is_same(alloc, ours, &beat, theirs),
        (Err(ours), Err(theirs)) => Ok(is_fault(*ours, *theirs) && beat == BEFORE),
        _ => Ok(false),
    }
}
