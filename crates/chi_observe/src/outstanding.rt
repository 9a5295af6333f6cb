//! What is told to be open behind the flits of a trace.

ghost use Rattle.std.specs.Prelude.{◌≡◌, ◌++◌, OnOk, Some, string_bytes};
ghost use Rattle.std.specs.List.{flat_map};
ghost use Rattle.std.specs.Map.{values_of};
ghost use Rattle.chi_observe.specs.Outstanding.{account_end, account_front, account_line, end_text, id_end, id_front, id_line, lack_text, open_account_line, open_accounts_text, open_id_line, open_ids_text, open_text, purpose_text, requester_in};
ghost use Rattle.chi_observe.specs.Watched.{watched};

use crate::credits::Account;
use crate::ids::{OpenId, Purpose};
use crate::names::{KindName, LineName, NodeName, SnoopName};
use crate::pending::is_account_open;
use crate::watch::Watch;
use chi_ids::{IdKey, Sides};
use chi_trace::NodeId;
use std::alloc::{AllocError, Allocator};
use std::fmt;
use std::fmt::Write;

/// What an id is open for.
#[derive(Clone, Copy)]
struct PurposeName(Purpose);

/// An id of a known line, and since when it is open.
#[derive(Clone, Copy)]
pub(crate) struct SinceText(pub OpenId);

/// The requester of an id.
pub(crate) fn requester_in(key: IdKey) -> NodeId
    ensures { result ≡ requester_in key }
{
    let sides: Sides = match key {
        IdKey::Request(sides, _) => sides,
        IdKey::Buffer(sides, _) => sides,
        IdKey::Snoop(sides, _) => sides,
        IdKey::Retried(sides, _) => sides,
    };
    sides.requester
}

/// What ends an id of this key.
fn end_text(key: IdKey) -> &'static str
    ensures { result.now ≡ end_text key }
{
    match key {
        IdKey::Request(_, _) => "without its completion",
        IdKey::Buffer(_, _) => "without CompAck or write data",
        IdKey::Snoop(_, _) => "without its answer",
        IdKey::Retried(_, _) => "not sent again or cancelled",
    }
}

/// What an open id waits for.
fn lack_text(id: &OpenId) -> &'static str
    ensures { result.now ≡ lack_text id.now }
{
    match id.lacks {
        Some(_) => "without all words of its data",
        None => end_text(id.key),
    }
}

impl fmt::Display for PurposeName {
    ghost output = { λ name. Some (purpose_text name.0) };

    fn fmt<W: fmt::Write>(&self, f: &mut fmt::Formatter<W>) -> fmt::Result {
        match self.0 {
            Purpose::Request { kind, first: _ } => {
                let kind = KindName(kind);
                write!(f, "{kind} of")
            }
            Purpose::Snoop(snoop) => {
                let snoop = SnoopName(snoop);
                write!(f, "{snoop} to")
            }
            Purpose::Unknown { first: _ } => write!(f, "another flit of"),
        }
    }
}

impl fmt::Display for SinceText {
    fn fmt<W: fmt::Write>(&self, f: &mut fmt::Formatter<W>) -> fmt::Result {
        let (purpose, node) = (
            PurposeName(self.0.purpose),
            NodeName(requester_in(self.0.key)),
        );
        let (lack, number) = (lack_text(&self.0), self.0.since);
        write!(f, "{purpose} node {node}, since line {number} {lack}")
    }
}

/// Puts an id, its requester and its line behind the text.
fn write_id_front<A: Allocator>(text: &mut String<A>, id: &OpenId) -> Result<(), AllocError>
    ensures { OnOk result (string_bytes text.new ≡ string_bytes text.old ++ id_front id.now) }
{
    let (purpose, node) = (PurposeName(id.purpose), NodeName(requester_in(id.key)));
    let line = LineName(id.line);
    write!(text, "open: {purpose} node {node} at {line}")
}

/// Puts since when an id is open, and what it waits for, behind the text.
fn write_id_end<A: Allocator>(text: &mut String<A>, id: &OpenId) -> Result<(), AllocError>
    ensures { OnOk result (string_bytes text.new ≡ string_bytes text.old ++ id_end id.now) }
{
    let (number, lack) = (id.since, lack_text(id));
    writeln!(text, ", since line {number} {lack}")
}

/// Puts the line of an id behind the text.
fn write_id<A: Allocator>(text: &mut String<A>, id: &OpenId) -> Result<(), AllocError>
    ensures { OnOk result (string_bytes text.new ≡ string_bytes text.old ++ id_line id.now) }
{
    write_id_front(text, id)?;
    write_id_end(text, id)
}

/// Puts whose credits they are, and of which type, behind the text.
fn write_account_front<A: Allocator>(
    text: &mut String<A>,
    account: &Account,
) -> Result<(), AllocError>
    ensures { OnOk result
        (string_bytes text.new ≡ string_bytes text.old ++ account_front account.now) }
{
    let (node, pcrd) = (NodeName(account.sides.requester), account.pcrd.0);
    write!(text, "open: credits of type {pcrd:x} of node {node}")
}

/// Puts how many credits are owed and unused behind the text.
fn write_account_end<A: Allocator>(
    text: &mut String<A>,
    account: &Account,
) -> Result<(), AllocError>
    ensures { OnOk result
        (string_bytes text.new ≡ string_bytes text.old ++ account_end account.now) }
{
    let (owed, unused) = (account.owed(), account.unused());
    writeln!(text, ": {owed} owed, {unused} unused")
}

/// Puts the line of credits behind the text, if some are owed or unused.
fn write_account<A: Allocator>(text: &mut String<A>, account: &Account) -> Result<(), AllocError>
    ensures { OnOk result
        (string_bytes text.new ≡ string_bytes text.old ++ open_account_line account.now) }
{
    if !is_account_open(account) {
        return Ok(());
    }
    write_account_front(text, account)?;
    write_account_end(text, account)
}

/// Puts the lines of credits that are owed or unused behind the text.
fn write_accounts<A: Allocator>(
    text: &mut String<A>,
    accounts: &[Account],
) -> Result<(), AllocError>
    ensures { OnOk result
        (string_bytes text.new ≡ string_bytes text.old ++ flat_map open_account_line accounts.now) }
{
    for account in accounts {
        write_account(text, account)?;
    }
    Ok(())
}

impl<A: Allocator> Watch<A> {
    /// Puts the line of an id behind the text, if it is open.
    fn write_open_id(&self, text: &mut String<A>, id: &OpenId) -> Result<(), AllocError>
        ensures { OnOk result
            (string_bytes text.new ≡ string_bytes text.old ++ open_id_line (watched self.now) id.now) }
    {
        if self.is_id_open(id) {
            write_id(text, id)
        } else {
            Ok(())
        }
    }

    /// Puts the lines of these ids that are open behind the text.
    fn write_ids(&self, text: &mut String<A>, ids: &[OpenId]) -> Result<(), AllocError>
        ensures { OnOk result (string_bytes text.new
            ≡ string_bytes text.old ++ flat_map (open_id_line (watched self.now)) ids.now) }
    {
        for id in ids {
            self.write_open_id(text, id)?;
        }
        Ok(())
    }

    /// Puts the lines of all ids that are open behind the text.
    fn write_open_ids(&self, text: &mut String<A>) -> Result<(), AllocError>
        ensures { OnOk result
            (string_bytes text.new ≡ string_bytes text.old ++ open_ids_text (watched self.now)) }
    {
        self.write_ids(text, self.ids.values().as_slice())
    }

    /// Puts the lines of all credits that are owed or unused behind the text, but of a trace that is cut out of a longer one.
    fn write_open_accounts(&self, text: &mut String<A>) -> Result<(), AllocError>
        ensures { OnOk result
            (string_bytes text.new ≡ string_bytes text.old ++ open_accounts_text (watched self.now)) }
    {
        if self.options.is_cut() {
            return Ok(());
        }
        write_accounts(text, self.accounts.values().as_slice())
    }

    /// Puts a line for each thing that is open behind the text.
    pub(crate) fn write_open(&self, text: &mut String<A>) -> Result<(), AllocError>
        ensures { OnOk result
            (string_bytes text.new ≡ string_bytes text.old ++ open_text (watched self.now)) }
    {
        self.write_open_ids(text)?;
        self.write_open_accounts(text)
    }
}
