//! How nodes, lines and flits of a trace are written. No clause says how flits are: that is tested.

ghost use Rattle.std.specs.Prelude.{◌≡◌, IfOk, IsOk, OnOk, Some, string_bytes};
ghost use Rattle.chi_verdict.specs.Outstanding.{address_of, hexadecimal, line_name};
ghost use Rattle.chi_verdict.specs.Texts.{BeginsWith};

use chi_explain::Observed;
use chi_flit::{Msg, NoMemory, RspDown};
use chi_resolution::CacheLine;
use chi_trace::{Flit, NodeId, Resp, Seen};
use std::alloc::{AllocError, Allocator};
use std::fmt;

/// A node, in hexadecimal as in a trace.
#[derive(Clone, Copy)]
pub(crate) struct NodeName(pub NodeId);

/// The address of a line, in hexadecimal.
#[derive(Clone, Copy)]
pub(crate) struct LineName(pub CacheLine);

/// A flit: its opcode and its RESP, and that it is a resend.
#[derive(Clone, Copy)]
pub(crate) struct SeenName<'a>(pub &'a Seen);

/// A message as a trace would show it.
#[derive(Clone, Copy)]
struct MessageName(Msg);

/// What a trace would show: a message, or a load with its value, or a store.
#[derive(Clone, Copy)]
pub(crate) struct ObservedName(pub Observed);

impl fmt::Display for NodeName {
    ghost output = { λ name. Some (hexadecimal name.0.0) };

    fn fmt<W: fmt::Write>(&self, f: &mut fmt::Formatter<W>) -> fmt::Result {
        let number = self.0.0;
        write!(f, "{number:x}")
    }
}

impl fmt::Display for LineName {
    ghost output = { λ name. Some (line_name name.0) };

    fn fmt<W: fmt::Write>(&self, f: &mut fmt::Formatter<W>) -> fmt::Result {
        let address = address_of(self.0);
        write!(f, "{address:x}")
    }
}

/// The address of a line.
fn address_of(line: CacheLine) -> u64
    ensures { result ≡ address_of line }
{
    line.0.saturating_mul(64)
}

impl fmt::Display for SeenName<'_> {
    fn fmt<W: fmt::Write>(&self, f: &mut fmt::Formatter<W>) -> fmt::Result {
        let opcode = self.0.flit.opcode();
        write!(f, "{opcode}")?;
        if let Some(resp) = resp_of(&self.0.flit) {
            write!(f, "_{resp}")?;
        }
        if is_resent(&self.0.flit) {
            f.write_str(" with AR 0")?;
        }
        Ok(())
    }
}

impl fmt::Display for MessageName {
    fn fmt<W: fmt::Write>(&self, f: &mut fmt::Formatter<W>) -> fmt::Result {
        match self.0 {
            Msg::Req(request) => {
                let kind = request.kind;
                let again = if request.allow_retry {
                    ""
                } else {
                    " with AR 0"
                };
                write!(f, "{kind}{again}")
            }
            Msg::RspDown(RspDown::RetryAck(_)) => f.write_str("RetryAck"),
            message => write!(f, "{message}"),
        }
    }
}

impl fmt::Display for ObservedName {
    fn fmt<W: fmt::Write>(&self, f: &mut fmt::Formatter<W>) -> fmt::Result {
        match self.0 {
            Observed::Flit(flit) => {
                let name = MessageName(flit.message);
                write!(f, "{name}")
            }
            Observed::Load(_, _, value) => write!(f, "Load of {value:x}"),
            Observed::Store(_, _, _) => f.write_str("Store"),
        }
    }
}

/// The RESP of a flit, if it has one.
fn resp_of(flit: &Flit) -> Option<Resp> {
    match flit {
        Flit::CompUC { .. } => Some(Resp::UC),
        Flit::Comp { resp, .. }
        | Flit::SnpResp { resp, .. }
        | Flit::CompData { resp, .. }
        | Flit::SnpRespData { resp, .. }
        | Flit::CopyBackWrData { resp, .. } => Some(*resp),
        Flit::Request { .. }
        | Flit::PCrdReturn { .. }
        | Flit::Snoop { .. }
        | Flit::RetryAck { .. }
        | Flit::CompDBIDResp { .. }
        | Flit::PCrdGrant { .. }
        | Flit::CompAck { .. }
        | Flit::Load { .. }
        | Flit::Store { .. } => None,
    }
}

/// Whether it is a request that spends a credit.
fn is_resent(flit: &Flit) -> bool {
    matches!(
        *flit,
        Flit::Request {
            spends: Some(_),
            ..
        }
    )
}

/// The node that a flit's requester is, and whether the flit is of it or to it.
pub(crate) fn requester_of(seen: &Seen) -> (NodeId, &'static str) {
    match &seen.flit {
        Flit::Snoop { target, .. } | Flit::PCrdGrant { target, .. } => (*target, "to"),
        Flit::RetryAck { transaction, .. }
        | Flit::CompUC { transaction, .. }
        | Flit::Comp { transaction, .. }
        | Flit::CompDBIDResp { transaction, .. }
        | Flit::CompData { transaction, .. } => (transaction.target, "to"),
        Flit::Request { .. }
        | Flit::PCrdReturn { .. }
        | Flit::SnpResp { .. }
        | Flit::CompAck { .. }
        | Flit::SnpRespData { .. }
        | Flit::CopyBackWrData { .. }
        | Flit::Load { .. }
        | Flit::Store { .. } => (seen.source, "of"),
    }
}

/// Text that was written; `NoMemory` where memory ran out.
pub(crate) fn kept(written: Result<(), AllocError>) -> Result<(), NoMemory>
    ensures { OnOk result (IsOk written) }
{
    match written {
        Ok(()) => Ok(()),
        Err(_) => Err(NoMemory),
    }
}

/// The text with this behind it.
pub(crate) fn joined<A: Allocator>(front: String<A>, rest: &str) -> Result<String<A>, NoMemory>
    ensures { IfOk result (λ text. BeginsWith (string_bytes front) (string_bytes text)) }
{
    let mut text = front;
    text.push_str(rest)?;
    Ok(text)
}
