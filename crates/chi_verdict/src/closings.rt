//! Loads and stores that wait for a CompAck where a trace ends: they are judged behind one that comes next.

ghost use Rattle.std.specs.Prelude.{◌≡◌, ◌++◌, OnOk};
ghost use Rattle.std.specs.List.{list_any};
ghost use Rattle.chi_verdict.specs.Closing.{ack_for, behind_ack, closed, is_same_wait, waiting_agent};

use chi_explain::{Observed, SentFlit};
use chi_flit::{Agent, Msg, RspUp};
use chi_resolution::Resolved;
use std::alloc::{AllocError, Allocator};

/// Whose load or store it is.
pub(crate) fn waiting_agent(seen: &Observed) -> Agent
    ensures { result ≡ waiting_agent seen.now }
{
    match seen {
        Observed::Flit(sent) => sent.agent,
        Observed::Load(agent, _, _) | Observed::Store(agent, _, _) => *agent,
    }
}

/// The CompAck that a load or a store waits for.
fn ack_for(item: &Resolved) -> Resolved
    ensures { result ≡ ack_for item.now }
{
    Resolved {
        flit: Observed::Flit(SentFlit {
            agent: waiting_agent(&item.flit),
            message: Msg::RspUp(RspUp::CompAck),
        }),
        ..*item
    }
}

/// Whether two wait for the same CompAck.
fn is_same_wait(one: &Resolved, other: &Resolved) -> bool
    ensures { result ≡ is_same_wait one.now other.now }
{
    other.line.0 == one.line.0 && waiting_agent(&other.flit).0 == waiting_agent(&one.flit).0
}

/// Whether one of these waits for the same CompAck.
fn has_same_wait(item: &Resolved, others: &[Resolved]) -> bool
    ensures { result ≡ list_any (is_same_wait item.now) others.now }
{
    others.iter().any(|other| is_same_wait(item, other))
}

/// Puts a load or a store that waits behind the items, and behind its CompAck where none of those before it waits for
/// that.
fn put_behind_ack<A: Allocator>(
    items: &mut Vec<Resolved, A>,
    before: &[Resolved],
    item: &Resolved,
) -> Result<(), AllocError>
    ensures { OnOk result (items.new.items ≡ items.old.items ++ behind_ack before.now item.now) }
{
    if !has_same_wait(item, before) {
        items.push(ack_for(item))?;
    }
    items.push(*item)?;
    Ok(())
}

/// Puts the loads and stores that wait behind the items, each behind its CompAck.
pub(crate) fn close<A: Allocator>(
    items: &mut Vec<Resolved, A>,
    waiting: &[Resolved],
) -> Result<(), AllocError>
    ensures { OnOk result (items.new.items ≡ closed items.old.items waiting.now) }
{
    for (at, item) in waiting.iter().enumerate() {
        let (before, _) = waiting.split_at(at);
        put_behind_ack(items, before, item)?;
    }
    Ok(())
}
