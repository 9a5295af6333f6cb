//! First attempts that may be retried, counted where grants may come early.

ghost use Rattle.std.specs.Prelude.{◌≡◌, OnOk};
ghost use Rattle.chi_transactions.specs.Maps.{entry_in};
ghost use Rattle.chi_transactions.specs.Steps.{attempts_with, attempts_without, counted, is_attempt};

use crate::entries::{OpenId, Options};
use crate::flits::pair_of;
use crate::maps::{Table, entry_in, put};
use chi_issue_b::Flit;
use std::alloc::{AllocError, Allocator};

/// How many there are of the flit's nodes.
pub(crate) fn counted<A: Allocator>(attempts: &Table<u64, A>, flit: &Flit) -> u64
    ensures { result ≡ counted (entry_in attempts.now) flit.now }
{
    entry_in(attempts, pair_of(flit)).unwrap_or(0)
}

/// Whether the id is that of one which is counted.
fn is_attempt(options: Options, id: &OpenId) -> bool
    ensures { result ≡ is_attempt options id.now }
{
    options.early_grants && (id.retryable && id.since != 0)
}

/// Those behind a request of the flit's nodes, which has AllowRetry or hasn't.
#[inline(always)]
#[tactic(auto, unfolding(crate::specs::Steps::attempts_with))]
pub(crate) fn count_attempt<A: Allocator>(
    options: Options,
    attempts: &mut Table<u64, A>,
    flit: &Flit,
    first: bool,
) -> Result<(), AllocError>
    ensures { OnOk result (entry_in attempts.new
        ≡ attempts_with options (entry_in attempts.old) flit.now first) }
{
    if options.early_grants && first {
        let Some(count) = counted(attempts, flit).checked_add(1) else {
            return Err(AllocError);
        };
        return put(attempts, pair_of(flit), count);
    }
    Ok(())
}

/// Those behind a flit that names the id.
#[inline(always)]
#[tactic(auto, unfolding(crate::specs::Steps::attempts_without))]
pub(crate) fn keep_attempts<A: Allocator>(
    options: Options,
    attempts: &mut Table<u64, A>,
    flit: &Flit,
    id: &OpenId,
) -> Result<(), AllocError>
    ensures { OnOk result (entry_in attempts.new
        ≡ attempts_without options (entry_in attempts.old) flit.now id.now) }
{
    if is_attempt(options, id) {
        let count = counted(attempts, flit).saturating_sub(1);
        return put(attempts, pair_of(flit), count);
    }
    Ok(())
}
