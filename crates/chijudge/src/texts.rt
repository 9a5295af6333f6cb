//! What is told of a trace that isn't accepted.

use crate::judge::FaultReason;
use chi_log::{LineColumn, Malformed};
use chi_watch::LineReason;

/// Why a flit is a fault.
pub(crate) fn reason_text(reason: FaultReason) -> &'static str {
    match reason {
        FaultReason::Ids(reason) => ids_text(reason),
        FaultReason::Line(LineReason::OtherHome) => "its cache line is of another home",
        FaultReason::Line(LineReason::Rule(reason)) => rule_text(reason),
    }
}

/// Why ids or credits don't allow a flit.
fn ids_text(reason: chi_transactions::Reason) -> &'static str {
    match reason {
        chi_transactions::Reason::NoLine => "it has no address",
        chi_transactions::Reason::NotOpen => "its id isn't open",
        chi_transactions::Reason::OtherHome => "its id is of another home",
        chi_transactions::Reason::OtherLine => "its id is of another cache line",
        chi_transactions::Reason::Unfinished => "words of its data lack",
        chi_transactions::Reason::NotLeft => "nothing like that is left to come by its id",
        chi_transactions::Reason::NotRetryable => "its request can't be retried",
        chi_transactions::Reason::OtherBeat => "its data began with another opcode, RESP or DBID",
        chi_transactions::Reason::WordAgain => "an earlier beat had one of its words",
        chi_transactions::Reason::NoDbid => "it has no DBID",
        chi_transactions::Reason::InUse => "the id that it opens is in use",
        chi_transactions::Reason::NotWaiting => "no request of its line waits to be sent again",
        chi_transactions::Reason::OtherType => "its credit is of another type",
        chi_transactions::Reason::NoCredit => "there is no credit",
        chi_transactions::Reason::NothingRetried => "no request waits for the credit",
    }
}

/// Which rule of its line a flit breaks.
fn rule_text(reason: chi_copies::Reason) -> &'static str {
    match reason {
        chi_copies::Reason::NoAgent => "there is no such agent",
        chi_copies::Reason::NotSent => "no copy that its cache may have sends it now",
        chi_copies::Reason::NotDue => "it isn't due",
        chi_copies::Reason::NoDuty => "the home has no dirty data to pass on",
        chi_copies::Reason::Busy => "a CompAck or write data are due at its line",
        chi_copies::Reason::NoOverwriter => "no request is open that overwrites the line",
        chi_copies::Reason::OtherWords => "its words are known to be others",
        chi_copies::Reason::NoMoment => "at no moment since its request may it have been so",
        chi_copies::Reason::Lost => "the value last stored may have been thrown away",
        chi_copies::Reason::OtherCopy => "another cache may have a copy that doesn't go with it",
    }
}

/// Why a line is none of a trace.
pub(crate) fn malformed_text(why: Malformed) -> &'static str {
    match why {
        Malformed::Gzip => "a compressed file",
        Malformed::LongLine => "a line of more than 4,096 bytes",
        Malformed::FewWords => "fewer than eleven words",
        Malformed::BadWord(column) => column_text(column),
    }
}

/// Which word of a line is wrong.
fn column_text(column: LineColumn) -> &'static str {
    match column {
        LineColumn::Channel => "CH",
        LineColumn::Source => "SRC",
        LineColumn::Target => "TGT",
        LineColumn::Txn => "TXN",
        LineColumn::Opcode => "OPCODE",
        LineColumn::Address => "ADDR",
        LineColumn::Resp => "RESP",
        LineColumn::Dbid => "DBID",
        LineColumn::AllowRetry => "AR",
        LineColumn::Pcrd => "PCRD",
        LineColumn::Data => "DATA",
    }
}
