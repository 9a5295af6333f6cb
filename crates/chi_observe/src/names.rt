//! How nodes, lines and flits are written. Of flits and copies no clause says the texts: they are tested.

ghost use Rattle.std.specs.Prelude.{◌≡◌, IfOk, Some, min, string_bytes};
ghost use Rattle.chi_observe.specs.Names.{address_of, kind_text, line_text, node_text, snoop_text};
ghost use Rattle.chi_observe.specs.Reports.{BeginsWith};

use chi_flit::State;
use chi_ids::{CacheLine, IdKey};
use chi_observer::{Act, Answer, Grant, Kind, Snoop, Told};
use chi_trace::{AnyFlit, AnySeen, Flit, NodeId, Resp};
use std::alloc::{AllocError, Allocator};
use std::fmt;

/// A node, in hexadecimal as in a trace.
#[derive(Clone, Copy)]
pub(crate) struct NodeName(pub NodeId);

/// The address of a line, in hexadecimal.
#[derive(Clone, Copy)]
pub(crate) struct LineName(pub CacheLine);

/// A flit: its opcode and its RESP, and that it is sent again.
#[derive(Clone, Copy)]
pub(crate) struct SeenName<'a>(pub &'a AnySeen);

/// A kind of request.
#[derive(Clone, Copy)]
pub(crate) struct KindName(pub Kind);

/// A snoop.
#[derive(Clone, Copy)]
pub(crate) struct SnoopName(pub Snoop);

/// What a copy was told to be.
#[derive(Clone, Copy)]
pub(crate) struct ToldName(pub Told);

/// An id, by its number.
#[derive(Clone, Copy)]
pub(crate) struct KeyName(pub IdKey);

impl fmt::Display for NodeName {
    ghost output = { λ name. Some (node_text name.0) };

    fn fmt<W: fmt::Write>(&self, f: &mut fmt::Formatter<W>) -> fmt::Result {
        let number = self.0.0;
        write!(f, "{number:x}")
    }
}

/// The address of a line.
pub(crate) fn address_of(line: CacheLine) -> u64
    ensures { result ≡ address_of line }
{
    line.0.saturating_mul(64)
}

impl fmt::Display for LineName {
    ghost output = { λ name. Some (line_text name.0) };

    fn fmt<W: fmt::Write>(&self, f: &mut fmt::Formatter<W>) -> fmt::Result {
        let address = address_of(self.0);
        write!(f, "{address:x}")
    }
}

/// The RESP that a flit of the profile has in its name.
fn resp_of(flit: &Flit) -> Option<Resp> {
    match flit {
        Flit::CompUC { .. } => Some(Resp::UC),
        Flit::Comp { resp, .. } => Some(*resp),
        Flit::SnpResp { resp, .. } => Some(*resp),
        Flit::CompData { resp, .. } => Some(*resp),
        Flit::SnpRespData { resp, .. } => Some(*resp),
        Flit::CopyBackWrData { resp, .. } => Some(*resp),
        _ => None,
    }
}

/// The RESP that a flit has in its name.
fn any_resp_of(flit: &AnyFlit) -> Option<Resp> {
    match flit {
        AnyFlit::Profile(flit) => resp_of(flit),
        AnyFlit::CompUC { .. } => Some(Resp::UC),
        AnyFlit::CompData { resp, .. } => Some(*resp),
        AnyFlit::NonCopyBackWrData { resp, .. } => Some(*resp),
        _ => None,
    }
}

/// Whether a request is sent again.
fn is_again(flit: &AnyFlit) -> bool {
    match flit {
        AnyFlit::Profile(Flit::Request { spends, .. }) => spends.is_some(),
        AnyFlit::Request { fields, .. } => fields.spends.is_some(),
        AnyFlit::UnknownRequest(_, fields) => fields.spends.is_some(),
        _ => false,
    }
}

impl fmt::Display for SeenName<'_> {
    fn fmt<W: fmt::Write>(&self, f: &mut fmt::Formatter<W>) -> fmt::Result {
        let opcode = self.0.flit.opcode();
        write!(f, "{opcode}")?;
        if let Some(resp) = any_resp_of(&self.0.flit) {
            write!(f, "_{resp}")?;
        }
        if is_again(&self.0.flit) {
            f.write_str(" with AR 0")?;
        }
        Ok(())
    }
}

impl fmt::Display for KindName {
    ghost output = { λ name. Some (kind_text name.0) };

    fn fmt<W: fmt::Write>(&self, f: &mut fmt::Formatter<W>) -> fmt::Result {
        f.write_str(match self.0 {
            Kind::ReadNotSharedDirty => "ReadNotSharedDirty",
            Kind::ReadShared => "ReadShared",
            Kind::ReadClean => "ReadClean",
            Kind::ReadOnce => "ReadOnce",
            Kind::ReadUnique => "ReadUnique",
            Kind::CleanUnique => "CleanUnique",
            Kind::MakeUnique => "MakeUnique",
            Kind::CleanShared => "CleanShared",
            Kind::CleanInvalid => "CleanInvalid",
            Kind::MakeInvalid => "MakeInvalid",
            Kind::Evict => "Evict",
            Kind::WriteBackFull => "WriteBackFull",
            Kind::WriteCleanFull => "WriteCleanFull",
            Kind::WriteEvictFull => "WriteEvictFull",
            Kind::WriteUniqueFull => "WriteUniqueFull",
        })
    }
}

impl fmt::Display for SnoopName {
    ghost output = { λ name. Some (snoop_text name.0) };

    fn fmt<W: fmt::Write>(&self, f: &mut fmt::Formatter<W>) -> fmt::Result {
        f.write_str(match self.0 {
            Snoop::SnpOnce => "SnpOnce",
            Snoop::SnpClean => "SnpClean",
            Snoop::SnpShared => "SnpShared",
            Snoop::SnpNotSharedDirty => "SnpNotSharedDirty",
            Snoop::SnpCleanShared => "SnpCleanShared",
            Snoop::SnpUnique => "SnpUnique",
            Snoop::SnpCleanInvalid => "SnpCleanInvalid",
            Snoop::SnpMakeInvalid => "SnpMakeInvalid",
        })
    }
}

impl fmt::Display for ToldName {
    fn fmt<W: fmt::Write>(&self, f: &mut fmt::Formatter<W>) -> fmt::Result {
        f.write_str(match self.0 {
            Told::I => "I",
            Told::SC => "SC",
            Told::SCOrI => "SC or I",
            Told::UC => "UC",
            Told::UCOrI => "UC or I",
            Told::UCE => "UCE",
            Told::UCEOrI => "UCE or I",
            Told::UCOrUCE => "UC or UCE",
            Told::UD => "UD",
            Told::SD => "SD",
            Told::Writing => "I, and writes the line",
        })
    }
}

impl fmt::Display for KeyName {
    fn fmt<W: fmt::Write>(&self, f: &mut fmt::Formatter<W>) -> fmt::Result {
        match self.0 {
            IdKey::Request(_, txn) => {
                let txn = txn.0;
                write!(f, "request with TXN {txn:x}")
            }
            IdKey::Buffer(_, dbid) => {
                let dbid = dbid.0;
                write!(f, "completion with DBID {dbid:x}")
            }
            IdKey::Snoop(_, txn) => {
                let txn = txn.0;
                write!(f, "snoop with TXN {txn:x}")
            }
            IdKey::Retried(_, line) => {
                let line = LineName(line);
                write!(f, "retried request to {line}")
            }
        }
    }
}

/// The requester that a flit of the home goes to.
fn asked_by(flit: &AnyFlit) -> Option<NodeId> {
    match flit {
        AnyFlit::Profile(Flit::Snoop { target, .. }) => Some(*target),
        AnyFlit::Profile(Flit::PCrdGrant { target, .. }) => Some(*target),
        AnyFlit::Profile(Flit::RetryAck { transaction, .. }) => Some(transaction.target),
        AnyFlit::Profile(Flit::CompUC { transaction, .. }) => Some(transaction.target),
        AnyFlit::Profile(Flit::Comp { transaction, .. }) => Some(transaction.target),
        AnyFlit::Profile(Flit::CompDBIDResp { transaction, .. }) => Some(transaction.target),
        AnyFlit::Profile(Flit::CompData { transaction, .. }) => Some(transaction.target),
        AnyFlit::Snoop { fields, .. } => Some(fields.target),
        AnyFlit::CompUC { transaction } => Some(transaction.target),
        AnyFlit::CompData { transaction, .. } => Some(transaction.target),
        AnyFlit::UnknownSnoop(_, fields) => Some(fields.target),
        AnyFlit::UnknownReply(_, transaction, _) => Some(transaction.target),
        _ => None,
    }
}

/// The node that a flit's requester is, and whether the flit is of it or to it.
pub(crate) fn requester_of(seen: &AnySeen) -> (NodeId, &'static str) {
    match asked_by(&seen.flit) {
        Some(node) => (node, "to"),
        None => (seen.source, "of"),
    }
}

/// The text with this behind it.
pub(crate) fn joined<A: Allocator>(front: String<A>, rest: &str) -> Result<String<A>, AllocError>
    ensures { IfOk result (λ text. BeginsWith (string_bytes front) (string_bytes text)) }
{
    let mut text = front;
    text.push_str(rest)?;
    Ok(text)
}

/// The flits of a cache, by their names in a trace.
pub(crate) const SENT: [(Act, &str); 48] = [
    (Act::Request(Kind::ReadNotSharedDirty), "ReadNotSharedDirty"),
    (Act::Request(Kind::ReadShared), "ReadShared"),
    (Act::Request(Kind::ReadClean), "ReadClean"),
    (Act::Request(Kind::ReadOnce), "ReadOnce"),
    (Act::Request(Kind::ReadUnique), "ReadUnique"),
    (Act::Request(Kind::CleanUnique), "CleanUnique"),
    (Act::Request(Kind::MakeUnique), "MakeUnique"),
    (Act::Request(Kind::CleanShared), "CleanShared"),
    (Act::Request(Kind::CleanInvalid), "CleanInvalid"),
    (Act::Request(Kind::MakeInvalid), "MakeInvalid"),
    (Act::Request(Kind::Evict), "Evict"),
    (Act::Request(Kind::WriteBackFull), "WriteBackFull"),
    (Act::Request(Kind::WriteCleanFull), "WriteCleanFull"),
    (Act::Request(Kind::WriteEvictFull), "WriteEvictFull"),
    (Act::Request(Kind::WriteUniqueFull), "WriteUniqueFull"),
    (
        Act::Resend(Kind::ReadNotSharedDirty),
        "ReadNotSharedDirty with AR 0",
    ),
    (Act::Resend(Kind::ReadShared), "ReadShared with AR 0"),
    (Act::Resend(Kind::ReadClean), "ReadClean with AR 0"),
    (Act::Resend(Kind::ReadOnce), "ReadOnce with AR 0"),
    (Act::Resend(Kind::ReadUnique), "ReadUnique with AR 0"),
    (Act::Resend(Kind::CleanUnique), "CleanUnique with AR 0"),
    (Act::Resend(Kind::MakeUnique), "MakeUnique with AR 0"),
    (Act::Resend(Kind::CleanShared), "CleanShared with AR 0"),
    (Act::Resend(Kind::CleanInvalid), "CleanInvalid with AR 0"),
    (Act::Resend(Kind::MakeInvalid), "MakeInvalid with AR 0"),
    (Act::Resend(Kind::Evict), "Evict with AR 0"),
    (Act::Resend(Kind::WriteBackFull), "WriteBackFull with AR 0"),
    (
        Act::Resend(Kind::WriteCleanFull),
        "WriteCleanFull with AR 0",
    ),
    (
        Act::Resend(Kind::WriteEvictFull),
        "WriteEvictFull with AR 0",
    ),
    (
        Act::Resend(Kind::WriteUniqueFull),
        "WriteUniqueFull with AR 0",
    ),
    (Act::CompAck, "CompAck"),
    (Act::SnpResp(Answer::SnpRespI), "SnpResp_I"),
    (Act::SnpResp(Answer::SnpRespSC), "SnpResp_SC"),
    (Act::SnpResp(Answer::SnpRespUC), "SnpResp_UC"),
    (Act::SnpResp(Answer::SnpRespDataI), "SnpRespData_I"),
    (Act::SnpResp(Answer::SnpRespDataSC), "SnpRespData_SC"),
    (Act::SnpResp(Answer::SnpRespDataUC), "SnpRespData_UC"),
    (Act::SnpResp(Answer::SnpRespDataUD), "SnpRespData_UD"),
    (Act::SnpResp(Answer::SnpRespDataSD), "SnpRespData_SD"),
    (Act::SnpResp(Answer::SnpRespDataIPD), "SnpRespData_I_PD"),
    (Act::SnpResp(Answer::SnpRespDataSCPD), "SnpRespData_SC_PD"),
    (Act::SnpResp(Answer::SnpRespDataUCPD), "SnpRespData_UC_PD"),
    (Act::CopyBackWrData(State::I), "CopyBackWrData_I"),
    (Act::CopyBackWrData(State::SC), "CopyBackWrData_SC"),
    (Act::CopyBackWrData(State::UC), "CopyBackWrData_UC"),
    (Act::CopyBackWrData(State::UD), "CopyBackWrData_UD_PD"),
    (Act::CopyBackWrData(State::SD), "CopyBackWrData_SD_PD"),
    (Act::NonCopyBackWrData, "NonCopyBackWrData_I"),
];

/// The flits of a home, by their names in a trace.
pub(crate) const GIVEN: [(Grant, &str); 18] = [
    (Grant::RetryAck, "RetryAck"),
    (Grant::Snp(Snoop::SnpOnce), "SnpOnce"),
    (Grant::Snp(Snoop::SnpClean), "SnpClean"),
    (Grant::Snp(Snoop::SnpShared), "SnpShared"),
    (Grant::Snp(Snoop::SnpNotSharedDirty), "SnpNotSharedDirty"),
    (Grant::Snp(Snoop::SnpCleanShared), "SnpCleanShared"),
    (Grant::Snp(Snoop::SnpUnique), "SnpUnique"),
    (Grant::Snp(Snoop::SnpCleanInvalid), "SnpCleanInvalid"),
    (Grant::Snp(Snoop::SnpMakeInvalid), "SnpMakeInvalid"),
    (Grant::CompDBIDResp, "CompDBIDResp"),
    (Grant::CompData(State::I), "CompData_I"),
    (Grant::CompData(State::SC), "CompData_SC"),
    (Grant::CompData(State::UC), "CompData_UC"),
    (Grant::CompData(State::UD), "CompData_UD_PD"),
    (Grant::CompData(State::SD), "CompData_SD_PD"),
    (Grant::CompI, "Comp_I"),
    (Grant::CompSC, "Comp_SC"),
    (Grant::CompUC, "Comp_UC"),
];
