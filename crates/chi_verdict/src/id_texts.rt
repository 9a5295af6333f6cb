//! Why the ids or the ledger don't allow a flit, in words, and what they would allow. No clause says these texts: they are
//! tested.

use crate::names::{LineName, NodeName};
use chi_monitor::Basis;
use chi_resolution::{CreditLedger, IdReason, OpenId, OpenKey};
use chi_trace::{NodeId, Opcode, PcrdType};
use std::fmt;

/// An id that a flit names.
#[derive(Clone, Copy)]
pub(crate) struct KeyName(pub OpenKey);

/// Why the ids or the ledger don't allow a flit of this opcode, and what they allow, where these ids are open.
#[derive(Clone, Copy)]
pub(crate) struct ReasonText<'a> {
    pub reason: IdReason,
    pub opcode: Opcode,
    pub open: &'a [OpenId],
    pub requesters: &'a [NodeId],
    pub accounts: &'a [CreditLedger],
}

impl fmt::Display for KeyName {
    fn fmt<W: fmt::Write>(&self, f: &mut fmt::Formatter<W>) -> fmt::Result {
        match self.0 {
            OpenKey::Request(node, txn) => {
                let (node, txn) = (NodeName(node), txn.0);
                write!(f, "a request with TXN {txn:x} of node {node}")
            }
            OpenKey::Buffer(node, dbid) => {
                let (node, dbid) = (NodeName(node), dbid.0);
                write!(f, "a completion with DBID {dbid:x} to node {node}")
            }
            OpenKey::Snoop(node, txn) => {
                let (node, txn) = (NodeName(node), txn.0);
                write!(f, "a snoop with TXN {txn:x} to node {node}")
            }
            OpenKey::Retried(node, line) => {
                let (node, line) = (NodeName(node), LineName(line));
                write!(f, "a retried request of node {node} at {line}")
            }
        }
    }
}

/// The values of RESP that a flit of the opcode has in the profile.
fn forms(opcode: Opcode) -> &'static str {
    match opcode {
        Opcode::Comp => "UC with a DBID, I",
        Opcode::SnpResp => "I, SC",
        Opcode::CompData => "UC, SC",
        Opcode::SnpRespData => "I_PD, SC_PD, SD",
        Opcode::CopyBackWrData => "I, SC, UC, UD_PD, SD_PD",
        _ => "no RESP",
    }
}

/// Whether two keys are of the same sort and node.
fn is_alike(one: OpenKey, other: OpenKey) -> bool {
    match (one, other) {
        (OpenKey::Request(a, _), OpenKey::Request(b, _)) => a == b,
        (OpenKey::Buffer(a, _), OpenKey::Buffer(b, _)) => a == b,
        (OpenKey::Snoop(a, _), OpenKey::Snoop(b, _)) => a == b,
        (OpenKey::Retried(a, _), OpenKey::Retried(b, _)) => a == b,
        _ => false,
    }
}

impl ReasonText<'_> {
    /// What the reason rests on.
    fn basis(&self) -> Basis {
        match self.reason {
            IdReason::Form(_)
            | IdReason::NinthRequester(_)
            | IdReason::BothSides(_)
            | IdReason::SecondHome(_)
            | IdReason::Lacking(_)
            | IdReason::WrongAddress { .. } => Basis::Profile,
            IdReason::OtherType { .. } if matches!(self.opcode, Opcode::RetryAck) => Basis::Profile,
            IdReason::NothingToReturn(node, pcrd) if self.has_credit(node, pcrd) => Basis::Profile,
            IdReason::InUse(_)
            | IdReason::NotOpen(_)
            | IdReason::Unfinished(_)
            | IdReason::OtherBeat(_)
            | IdReason::WordAgain(_, _)
            | IdReason::NotRetryable(_, _)
            | IdReason::OtherType { .. }
            | IdReason::NothingRetried(_, _)
            | IdReason::NoCredit(_, _)
            | IdReason::NothingToReturn(_, _) => Basis::Standard,
        }
    }

    /// Whether the node has a credit of the type that it hasn't used.
    fn has_credit(&self, node: NodeId, pcrd: PcrdType) -> bool {
        self.accounts.iter().any(|account| {
            account.node == node && account.pcrd == pcrd && account.unused() > 0
        })
    }

    /// The open ids that a flit could name in place of this one.
    fn write_open<W: fmt::Write>(&self, key: OpenKey, f: &mut fmt::Formatter<W>) -> fmt::Result {
        let mut any = false;
        for id in self.open {
            if is_alike(id.key, key) {
                let (name, line) = (KeyName(id.key), LineName(id.line));
                let comma = if any { ", " } else { "" };
                match id.key {
                    OpenKey::Retried(_, _) => write!(f, "{comma}{name}")?,
                    _ => write!(f, "{comma}{name} at {line}")?,
                }
                any = true;
            }
        }
        if any {
            Ok(())
        } else {
            f.write_str("nothing, as none of its node is open")
        }
    }

    /// The nodes that are known as requesters.
    fn write_requesters<W: fmt::Write>(&self, f: &mut fmt::Formatter<W>) -> fmt::Result {
        for (number, node) in self.requesters.iter().enumerate() {
            let name = NodeName(*node);
            let comma = if number > 0 { ", " } else { "" };
            write!(f, "{comma}{name}")?;
        }
        Ok(())
    }

    /// The line of an open id.
    fn write_line<W: fmt::Write>(&self, key: OpenKey, f: &mut fmt::Formatter<W>) -> fmt::Result {
        match self.open.iter().find(|id| id.key == key) {
            Some(id) => {
                let line = LineName(id.line);
                write!(f, " at {line}")
            }
            None => Ok(()),
        }
    }

    /// What has to do with nodes and fields: the last of the reasons, a RESP outside the profile among them.
    fn write_field<W: fmt::Write>(&self, f: &mut fmt::Formatter<W>) -> fmt::Result {
        match self.reason {
            IdReason::NinthRequester(node) => {
                let name = NodeName(node);
                write!(f, "node {name} is a ninth requester; allowed: ")?;
                self.write_requesters(f)
            }
            IdReason::BothSides(node) => {
                let name = NodeName(node);
                write!(
                    f,
                    "node {name} is a requester and the home; allowed: one of both"
                )
            }
            IdReason::SecondHome(node) => {
                let name = NodeName(node);
                write!(f, "there is another home; allowed: {name}")
            }
            IdReason::WrongAddress { named, line } => {
                let (address, line) = (named.0, LineName(line));
                write!(
                    f,
                    "ADDR is {address:x}, and its id is of the line at {line}; allowed: {line}, -"
                )
            }
            _ => {
                let forms = forms(self.opcode);
                write!(f, "no such RESP is in the profile; allowed: {forms}")
            }
        }
    }

    /// What has to do with the beats of data.
    fn write_beats<W: fmt::Write>(&self, f: &mut fmt::Formatter<W>) -> fmt::Result {
        match self.reason {
            IdReason::Unfinished(key) => {
                let name = KeyName(key);
                write!(
                    f,
                    "the data of {name} lacks words; allowed: its other beats"
                )
            }
            IdReason::Lacking(key) => {
                let name = KeyName(key);
                write!(
                    f,
                    "the data of {name} lacks words, and comes first; allowed: its other beats"
                )
            }
            IdReason::OtherBeat(key) => {
                let name = KeyName(key);
                write!(
                    f,
                    "the first beat of {name} differs; allowed: its RESP and DBID"
                )
            }
            IdReason::WordAgain(key, word) => {
                let (name, word) = (KeyName(key), word.0);
                write!(
                    f,
                    "an earlier beat of {name} has word {word}; allowed: x for it"
                )
            }
            _ => self.write_field(f),
        }
    }

    /// What has to do with ids.
    fn write_id<W: fmt::Write>(&self, f: &mut fmt::Formatter<W>) -> fmt::Result {
        match self.reason {
            IdReason::InUse(key) => {
                let name = KeyName(key);
                write!(f, "{name} is open")?;
                self.write_line(key, f)?;
                f.write_str("; allowed: another id")
            }
            IdReason::NotOpen(key) => {
                let name = KeyName(key);
                write!(f, "{name} isn't open; allowed: ")?;
                self.write_open(key, f)
            }
            _ => self.write_beats(f),
        }
    }
}

impl fmt::Display for ReasonText<'_> {
    fn fmt<W: fmt::Write>(&self, f: &mut fmt::Formatter<W>) -> fmt::Result {
        f.write_str(match self.basis() {
            Basis::Standard => "CHI: ",
            Basis::Profile => "this profile: ",
        })?;
        match self.reason {
            IdReason::NotRetryable(_, _) => {
                f.write_str("its request has AR 0; allowed: to be completed")
            }
            IdReason::OtherType { named, wanted } => {
                let (named, wanted) = (named.0, wanted.0);
                write!(
                    f,
                    "PCRD is {named:x}, and its request needs another; allowed: {wanted:x}"
                )
            }
            IdReason::NothingRetried(_, pcrd) => {
                let pcrd = pcrd.0;
                write!(
                    f,
                    "no request of it waits for a grant of type {pcrd:x}; allowed: a RetryAck first, or with --early-grants a grant before it"
                )
            }
            IdReason::NoCredit(_, pcrd) => {
                let pcrd = pcrd.0;
                write!(
                    f,
                    "it has no credit of type {pcrd:x}; allowed: a grant first"
                )
            }
            IdReason::NothingToReturn(_, pcrd) => {
                let pcrd = pcrd.0;
                write!(
                    f,
                    "no cancelled request has left it a credit of type {pcrd:x}; allowed: to use it"
                )
            }
            _ => self.write_id(f),
        }
    }
}
