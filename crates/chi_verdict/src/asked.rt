//! What is asked of a trace.

ghost use Rattle.std.specs.Prelude.{◌≡◌};
ghost use Rattle.std.specs.List.{list_any};
ghost use Rattle.chi_verdict.specs.Ending.{is_account_open, is_anything_open, is_nothing_of};
ghost use Rattle.chi_verdict.specs.Lines.{is_on_line};

use chi_resolution::{CacheLine, CreditLedger, Resolution, Resolved, line_of};
use chi_trace::Address;
use std::alloc::Allocator;

/// What may be open where a trace ends.
/// Source: `docs/TRACES.md`, "What is printed".
#[derive(Clone, Copy, Debug, PartialEq, Eq)]
pub enum Ending {
    /// Anything.
    Any,
    /// Nothing: the trace is complete.
    Complete,
}

/// What is asked of a trace.
/// Source: `docs/TRACES.md`, "What is printed".
#[derive(Clone, Copy, Debug, PartialEq, Eq)]
pub struct Asked {
    pub ending: Ending,
    /// Whether all of it has to be judged.
    pub judged: bool,
    /// The address whose line alone is explained, as a check file.
    pub only: Option<Address>,
}

/// Whether credits are owed to the node, or it has some that it hasn't used.
pub(crate) fn is_account_open(account: &CreditLedger) -> bool
    ensures { result ≡ is_account_open account.now }
{
    account.owed() > 0 || account.unused() > 0
}

/// Whether one of the accounts is open.
fn has_open_account(accounts: &[CreditLedger]) -> bool
    ensures { result ≡ list_any is_account_open accounts.now }
{
    accounts.iter().any(|account| is_account_open(account))
}

/// Whether anything is open behind the flits of a trace.
pub(crate) fn is_anything_open<A: Allocator>(resolution: &Resolution<A>) -> bool
    ensures { result ≡ is_anything_open resolution.now.ids.items resolution.now.unfinished.items
        resolution.now.waiting.items resolution.now.accounts.items }
{
    resolution.ids.len() > 0
        || resolution.unfinished.len() > 0
        || resolution.waiting.len() > 0
        || has_open_account(&resolution.accounts)
}

/// Whether some of the items are of the line.
fn has_line(line: CacheLine, items: &[Resolved]) -> bool
    ensures { result ≡ list_any (is_on_line line) items.now }
{
    items.iter().any(|item| item.line.0 == line.0)
}

/// Whether nothing was seen of what is asked for: of so many flits, loads and stores none, or none of the line.
pub(crate) fn is_nothing_there<A: Allocator>(
    count: usize,
    resolution: &Resolution<A>,
    only: Option<Address>,
) -> bool
    ensures { result ≡ is_nothing_of only count
        resolution.now.flits.items resolution.now.waiting.items }
{
    match only {
        None => count == 0,
        Some(address) => {
            let line = line_of(address);
            !(has_line(line, &resolution.flits) || has_line(line, &resolution.waiting))
        }
    }
}
