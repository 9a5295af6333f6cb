//! Credits: of each home, requester and type what was retried, granted, sent again and returned.

ghost use Rattle.std.specs.Prelude.{◌≡◌, IfSome, OnOk, Some};
ghost use Rattle.chi_transactions.specs.Credits.{credits_at, may_grant, unused_of, with_event};
ghost use Rattle.chi_transactions.specs.Maps.{entry_in, put};

use crate::entries::Credits;
use crate::maps::{Table, entry_in, put};
use std::alloc::{AllocError, Allocator};

/// What a flit does to credits.
#[derive(Clone, Copy)]
pub(crate) enum CreditEvent {
    Retried,
    Granted,
    Resent,
    Returned,
}

/// No flit has shown any.
const NO_CREDITS: Credits = Credits {
    retried: 0,
    granted: 0,
    resent: 0,
    returned: 0,
};

/// The credits of an account that is kept so.
pub(crate) fn credits_at(kept: Option<Credits>) -> Credits
    ensures { result ≡ credits_at kept }
{
    kept.unwrap_or(NO_CREDITS)
}

impl Credits {
    /// The credits that a RetryAck has promised, and that were granted, and neither spent nor returned.
    /// Source: `docs/TRANSACTIONS.md`, "Credits".
    #[tactic(auto, unfolding(crate::specs::Credits::unused_of))]
    pub fn unused(&self) -> u64
        ensures { result ≡ unused_of self.now }
    {
        self.granted
            .min(self.retried)
            .saturating_sub(self.resent)
            .saturating_sub(self.returned)
    }

    /// Whether one more may be granted: G < R, or as far above R as that.
    #[tactic(auto, unfolding(crate::specs::Credits::may_grant))]
    pub(crate) fn may_grant(&self, early: u64) -> bool
        ensures { result ≡ may_grant self.now early }
    {
        match self.granted.checked_sub(self.retried) {
            Some(ahead) => ahead < early,
            None => true,
        }
    }

    /// The credits with one more; `None` where the number would pass 2^64.
    fn with_event(&self, event: CreditEvent) -> Option<Credits>
        ensures { IfSome result (λ credits. credits ≡ with_event event self.now) }
    {
        let mut credits = *self;
        match event {
            CreditEvent::Retried => credits.retried = self.retried.checked_add(1)?,
            CreditEvent::Granted => credits.granted = self.granted.checked_add(1)?,
            CreditEvent::Resent => credits.resent = self.resent.checked_add(1)?,
            CreditEvent::Returned => credits.returned = self.returned.checked_add(1)?,
        }
        Some(credits)
    }
}

/// The account has one more.
pub(crate) fn book<A: Allocator>(
    accounts: &mut Table<Credits, A>,
    account: u64,
    event: CreditEvent,
) -> Result<(), AllocError>
    ensures { OnOk result (entry_in accounts.new ≡ put (entry_in accounts.old) account
        (Some (with_event event (credits_at (entry_in accounts.old account))))) }
{
    let credits = credits_at(entry_in(accounts, account));
    let Some(credits) = credits.with_event(event) else {
        return Err(AllocError);
    };
    put(accounts, account, credits)
}
