//! What is open at the end of a trace, a line for each.

ghost use Rattle.std.specs.Prelude.{◌≡◌, ◌++◌, OnOk, string_bytes};
ghost use Rattle.std.specs.List.{flat_map};
ghost use Rattle.chi_verdict.specs.Outstanding.{access_line, account_line, credits_line, data_line, id_line, key_line, lacking_words, open_text, outstanding_in, waiting_line};

use crate::asked::is_account_open;
use crate::closings::waiting_agent;
use crate::names::{LineName, NodeName};
use chi_explain::Observed;
use chi_resolution::{CacheLine, CreditLedger, OpenData, OpenId, OpenKey, Resolution, Resolved};
use chi_trace::{Beat, NodeId, PcrdType};
use std::alloc::{AllocError, Allocator};
use std::fmt::Write;

/// Puts a line for each thing that is open behind the text.
pub(crate) fn write_open<A: Allocator>(
    text: &mut String<A>,
    resolution: &Resolution<A>,
) -> Result<(), AllocError>
    ensures { OnOk result
        (string_bytes text.new ≡ string_bytes text.old ++ open_text (outstanding_in resolution.now)) }
{
    write_ids(text, &resolution.ids)?;
    write_unfinished(text, &resolution.unfinished)?;
    write_waiting(text, &resolution.nodes.requesters, &resolution.waiting)?;
    write_accounts(text, &resolution.accounts)
}

/// Puts a line for each id behind the text.
fn write_ids<A: Allocator>(text: &mut String<A>, ids: &[OpenId]) -> Result<(), AllocError>
    ensures { OnOk result
        (string_bytes text.new ≡ string_bytes text.old ++ flat_map id_line ids.now) }
{
    for id in ids {
        write_id(text, id)?;
    }
    Ok(())
}

/// Puts an id that is open behind the text.
fn write_id<A: Allocator>(text: &mut String<A>, id: &OpenId) -> Result<(), AllocError>
    ensures { OnOk result (string_bytes text.new ≡ string_bytes text.old ++ id_line id.now) }
{
    write_key(text, id.line, id.key)
}

/// Puts the line on an open id with this key behind the text; it is of this cache line.
fn write_key<A: Allocator>(
    text: &mut String<A>,
    line: CacheLine,
    key: OpenKey,
) -> Result<(), AllocError>
    ensures { OnOk result (string_bytes text.new ≡ string_bytes text.old ++ key_line line key) }
{
    let line = LineName(line);
    match key {
        OpenKey::Request(node, txn) => {
            let (node, txn) = (NodeName(node), txn.0);
            writeln!(
                text,
                "open: a request with TXN {txn:x} of node {node} at {line}, without its completion"
            )
        }
        OpenKey::Buffer(node, dbid) => {
            let (node, dbid) = (NodeName(node), dbid.0);
            writeln!(
                text,
                "open: a completion with DBID {dbid:x} to node {node} at {line}, without CompAck or write data"
            )
        }
        OpenKey::Snoop(node, txn) => {
            let (node, txn) = (NodeName(node), txn.0);
            writeln!(
                text,
                "open: a snoop with TXN {txn:x} to node {node} at {line}, without its answer"
            )
        }
        OpenKey::Retried(node, _) => {
            let node = NodeName(node);
            writeln!(
                text,
                "open: a retried request of node {node} at {line}, not sent again or cancelled"
            )
        }
    }
}

/// Puts a line for each of the data that lack words behind the text.
fn write_unfinished<A: Allocator>(
    text: &mut String<A>,
    unfinished: &[OpenData],
) -> Result<(), AllocError>
    ensures { OnOk result
        (string_bytes text.new ≡ string_bytes text.old ++ flat_map data_line unfinished.now) }
{
    for begun in unfinished {
        write_data(text, begun)?;
    }
    Ok(())
}

/// How many words the beats haven't had.
fn lacking_words(beat: &Beat) -> usize
    ensures { result ≡ lacking_words beat.now }
{
    beat.there.iter().filter(|there| !**there).count()
}

/// Puts data that lacks words behind the text.
#[tactic(auto, unfolding(crate::specs::Outstanding::data_line))]
fn write_data<A: Allocator>(text: &mut String<A>, begun: &OpenData) -> Result<(), AllocError>
    ensures { OnOk result (string_bytes text.new ≡ string_bytes text.old ++ data_line begun.now) }
{
    let (line, lacking) = (LineName(begun.line), lacking_words(&begun.beat));
    writeln!(text, "open: data at {line}, without {lacking} of its words")
}

/// Puts a line for each load and store that waits for a CompAck behind the text.
fn write_waiting<A: Allocator>(
    text: &mut String<A>,
    requesters: &[NodeId],
    waiting: &[Resolved],
) -> Result<(), AllocError>
    ensures { OnOk result (string_bytes text.new
        ≡ string_bytes text.old ++ flat_map (waiting_line requesters.now) waiting.now) }
{
    for item in waiting {
        write_waiting_one(text, requesters, item)?;
    }
    Ok(())
}

/// Puts a load or a store that waits behind the text.
fn write_waiting_one<A: Allocator>(
    text: &mut String<A>,
    requesters: &[NodeId],
    item: &Resolved,
) -> Result<(), AllocError>
    ensures { OnOk result
        (string_bytes text.new ≡ string_bytes text.old ++ waiting_line requesters.now item.now) }
{
    match requesters.get(usize::from(waiting_agent(&item.flit).0)) {
        Some(node) => write_access(text, *node, item.line, &item.flit),
        None => Ok(()),
    }
}

/// Puts a load or a store of this node at the line behind the text; nothing of a flit.
fn write_access<A: Allocator>(
    text: &mut String<A>,
    node: NodeId,
    line: CacheLine,
    seen: &Observed,
) -> Result<(), AllocError>
    ensures { OnOk result
        (string_bytes text.new ≡ string_bytes text.old ++ access_line node line seen.now) }
{
    let (node, line) = (NodeName(node), LineName(line));
    match seen {
        Observed::Flit(_) => Ok(()),
        Observed::Load(_, _, _) => writeln!(
            text,
            "open: a load of node {node} at {line}, without the CompAck that it waits for"
        ),
        Observed::Store(_, _, _) => writeln!(
            text,
            "open: a store of node {node} at {line}, without the CompAck that it waits for"
        ),
    }
}

/// Puts a line for each account that is open behind the text.
fn write_accounts<A: Allocator>(
    text: &mut String<A>,
    accounts: &[CreditLedger],
) -> Result<(), AllocError>
    ensures { OnOk result
        (string_bytes text.new ≡ string_bytes text.old ++ flat_map account_line accounts.now) }
{
    for account in accounts {
        write_account(text, account)?;
    }
    Ok(())
}

/// Puts credits that a node is owed, or hasn't used, behind the text; nothing where there are none.
fn write_account<A: Allocator>(
    text: &mut String<A>,
    account: &CreditLedger,
) -> Result<(), AllocError>
    ensures { OnOk result
        (string_bytes text.new ≡ string_bytes text.old ++ account_line account.now) }
{
    if is_account_open(account) {
        let (owed, unused) = (account.owed(), account.unused());
        write_credits(text, account.pcrd, account.node, owed, unused)
    } else {
        Ok(())
    }
}

/// Puts how many credits of this type the node is owed, and how many it hasn't used, behind the text.
#[tactic(auto, unfolding(crate::specs::Outstanding::credits_line))]
fn write_credits<A: Allocator>(
    text: &mut String<A>,
    pcrd: PcrdType,
    node: NodeId,
    owed: u64,
    unused: u64,
) -> Result<(), AllocError>
    ensures { OnOk result
        (string_bytes text.new ≡ string_bytes text.old ++ credits_line pcrd node owed unused) }
{
    let (pcrd, node) = (pcrd.0, NodeName(node));
    writeln!(
        text,
        "open: credits of type {pcrd:x} of node {node}: {owed} owed, {unused} unused"
    )
}
