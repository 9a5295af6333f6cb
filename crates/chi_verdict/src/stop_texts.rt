//! What isn't explained of a trace, in words, and what would be. No clause says these texts: they are tested.

use crate::id_texts::ReasonText;
use crate::judged_traces::JudgedTrace;
use crate::lines::said_by;
use crate::names::{LineName, NodeName, ObservedName, SeenName, kept, requester_of};
use crate::outcome_texts::number_at;
use crate::readings::is_access;
use crate::reports::TraceStop;
use chi_explain::Observed;
use chi_flit::NoMemory;
use chi_monitor::{FaultNames, FaultText, LineFault, allowed};
use chi_resolution::{CacheLine, IdFault, OpenKey, Resolved, line_of};
use chi_trace::{Address, DbId, Flit, Seen, Transaction};
use std::alloc::Allocator;
use std::fmt::Write;

impl<A: Allocator + Copy> JudgedTrace<'_, A> {
    /// Puts the rest of the line on what isn't explained, behind how it begins, behind the text.
    pub(crate) fn write_stop(
        &self,
        alloc: A,
        text: &mut String<A>,
        stop: &TraceStop,
    ) -> Result<(), NoMemory> {
        match stop {
            TraceStop::Ids(fault) => self.write_ids(text, fault),
            TraceStop::Flit { at, fault } => self.write_fault(alloc, text, *at, fault),
            TraceStop::Undone(line) => {
                let line = LineName(*line);
                kept(writeln!(text, "{line} was found"))
            }
        }
    }

    /// The line of a flit, where it is known: that of its address, or of the open id that it names.
    fn line_of_seen(&self, seen: &Seen) -> Option<CacheLine> {
        match told_by(seen) {
            Place::Address(address) => Some(line_of(address)),
            Place::Id(key) => {
                let id = self.resolution.ids.iter().find(|id| id.key == key)?;
                Some(id.line)
            }
            Place::Nothing => None,
        }
    }

    /// A fault of ids.
    fn write_ids(&self, text: &mut String<A>, fault: &IdFault) -> Result<(), NoMemory> {
        let Some(seen) = self.seen.get(fault.at) else {
            return Ok(());
        };
        write_seen(text, seen)?;
        if let Some(line) = self.line_of_seen(seen) {
            let line = LineName(line);
            kept(write!(text, " at {line}"))?;
        }
        let reason = ReasonText {
            reason: fault.reason,
            opcode: seen.flit.opcode(),
            open: &self.resolution.ids,
            requesters: &self.resolution.nodes.requesters,
            accounts: &self.resolution.accounts,
        };
        kept(writeln!(text, ": {reason}"))
    }

    /// The lines of the file that these items are of.
    fn lines_of(&self, alloc: A, items: &[Resolved]) -> Result<Vec<usize, A>, NoMemory> {
        let mut lines = Vec::new(alloc);
        for item in items {
            lines.push(number_at(self.seen, item.at))?;
        }
        Ok(lines)
    }

    /// The numbers of the requesters' nodes.
    fn nodes(&self, alloc: A) -> Result<Vec<u16, A>, NoMemory> {
        let mut nodes = Vec::new(alloc);
        for node in self.resolution.nodes.requesters.iter() {
            nodes.push(node.0)?;
        }
        Ok(nodes)
    }

    /// Puts what is allowed in place of what was seen behind the text, and ends the line.
    fn write_allowed(
        &self,
        alloc: A,
        text: &mut String<A>,
        before: &[Observed],
        seen: &Observed,
    ) -> Result<(), NoMemory> {
        let others = match allowed(alloc, &self.config, self.stores, before, seen) {
            Ok(others) => others,
            Err(_) => return Err(NoMemory),
        };
        for (number, other) in others.iter().enumerate() {
            let name = ObservedName(*other);
            let comma = if number > 0 { ", " } else { "" };
            kept(write!(text, "{comma}{name}"))?;
        }
        let end = if others.is_empty() { "nothing" } else { "" };
        kept(writeln!(text, "{end}"))
    }

    /// A fault of a line's flits.
    fn write_fault(
        &self,
        alloc: A,
        text: &mut String<A>,
        at: usize,
        fault: &LineFault,
    ) -> Result<(), NoMemory> {
        let Some(seen) = self.seen.get(at) else {
            return Ok(());
        };
        write_seen(text, seen)?;
        let items = self.resolution.flits.as_slice();
        let access = is_access(&seen.flit);
        let Some(place) = items.iter().position(|item| item.at == at
            && is_done_by_processor(&item.flit) == access)
        else {
            return Ok(());
        };
        let (before, rest) = items.split_at(place);
        let [item, ..] = rest else {
            return Ok(());
        };
        let before = line_of_last(before, item.line);
        let line = LineName(item.line);
        let names = TraceNames {
            nodes: self.nodes(alloc)?,
            lines: self.lines_of(alloc, before)?,
        };
        let reason = FaultText {
            fault: *fault,
            names: names.lend(),
        };
        kept(write!(text, " at {line}: {reason}; allowed: "))?;
        let before = said_by(alloc, before)?;
        self.write_allowed(alloc, text, &before, &item.flit)
    }
}

/// The nodes of a trace by their agents, and its lines by the numbers of what was seen.
#[derive(Drop)]
struct TraceNames<A: Allocator> {
    nodes: Vec<u16, A>,
    lines: Vec<usize, A>,
}

impl<A: Allocator> TraceNames<A> {
    /// The names of a reason.
    fn lend(&self) -> FaultNames<'_> {
        FaultNames {
            nodes: self.nodes.as_slice(),
            lines: self.lines.as_slice(),
        }
    }
}

/// Whether it is a load or a store.
fn is_done_by_processor(seen: &Observed) -> bool {
    matches!(*seen, Observed::Load(_, _, _) | Observed::Store(_, _, _))
}

/// The items at the end of those that ascend by line that are of this line.
fn line_of_last(items: &[Resolved], line: CacheLine) -> &[Resolved] {
    match items.iter().position(|item| item.line == line) {
        Some(start) if start <= items.len() => &items[start..],
        Some(_) | None => &[],
    }
}

/// Puts the name of a flit and its node behind the text.
fn write_seen<A: Allocator>(text: &mut String<A>, seen: &Seen) -> Result<(), NoMemory> {
    let (node, side) = requester_of(seen);
    let (name, node) = (SeenName(seen), NodeName(node));
    kept(write!(text, "{name} {side} node {node}"))
}

/// Where a flit is: what it tells of its line.
#[derive(Clone, Copy)]
enum Place {
    Address(Address),
    /// The line of this open id.
    Id(OpenKey),
    Nothing,
}

/// What a response or data tells of its line: its address, or the id that it names.
fn told_in(transaction: &Transaction, key: OpenKey) -> Place {
    match transaction.address {
        Some(address) => Place::Address(address),
        None => Place::Id(key),
    }
}

/// What a flit tells of its line.
fn told_by(seen: &Seen) -> Place {
    let (node, _) = requester_of(seen);
    match &seen.flit {
        Flit::Request { address, .. }
        | Flit::Snoop { address, .. }
        | Flit::Load { address, .. }
        | Flit::Store { address, .. } => Place::Address(*address),
        Flit::RetryAck { transaction, .. }
        | Flit::CompUC { transaction, .. }
        | Flit::Comp { transaction, .. }
        | Flit::CompDBIDResp { transaction, .. }
        | Flit::CompData { transaction, .. } => {
            told_in(transaction, OpenKey::Request(node, transaction.txn))
        }
        Flit::SnpResp { transaction, .. } | Flit::SnpRespData { transaction, .. } => {
            told_in(transaction, OpenKey::Snoop(node, transaction.txn))
        }
        Flit::CompAck { transaction } | Flit::CopyBackWrData { transaction, .. } => told_in(
            transaction,
            OpenKey::Buffer(node, DbId(transaction.txn.0)),
        ),
        Flit::PCrdReturn { .. } | Flit::PCrdGrant { .. } => Place::Nothing,
    }
}
