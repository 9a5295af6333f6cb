//! Grants and returns of credits.

ghost use Rattle.std.specs.Prelude.{◌≡◌};
ghost use Rattle.chi_resolution.specs.Credits.{early_of, given_back, granted, may_grant};
ghost use Rattle.chi_resolution.specs.Tables.{table_of};

use crate::ledger::{Booking, CreditEvent, CreditLedger};
use crate::nodes::Ends;
use crate::reasons::IdReason;
use crate::tables::Tables;
use chi_trace::{NodeId, PcrdType};
use std::alloc::Allocator;

/// Whether one more credit may be granted: G < R, or as far above R as that.
fn may_grant(account: &CreditLedger, early: usize) -> bool
    ensures { result ≡ may_grant account.now early }
{
    match account.granted.checked_sub(account.retried) {
        Some(ahead) => ahead < early as u64,
        None => true,
    }
}

impl<A: Allocator> Tables<'_, A> {
    /// How many first attempts of the node a credit of the type may be granted for before their RetryAcks.
    fn early(&self, node: NodeId, pcrd: PcrdType) -> usize
        ensures { result ≡ early_of self.now.options (table_of self.now) node pcrd }
    {
        if self.options.early_grants {
            self.options.types.attempts(self.ids, node, pcrd)
        } else {
            0
        }
    }

    /// A granted credit: of a retried request that waits for a grant, or with early grants of a first attempt.
    #[tactic(auto, unfolding(crate::specs::Credits::granted))]
    pub(crate) fn grant(&self, ends: &Ends, pcrd: PcrdType) -> Result<Booking, IdReason>
        ensures { result ≡ granted self.now.options (table_of self.now) ends.now pcrd }
    {
        let node = ends.requester;
        let early = self.early(node, pcrd);
        let booking = self.booking(node, pcrd, CreditEvent::Granted);
        if may_grant(&booking.held.account, early) {
            Ok(booking)
        } else {
            Err(IdReason::NothingRetried(node, pcrd))
        }
    }

    /// A returned credit.
    #[tactic(auto, unfolding(crate::specs::Credits::given_back))]
    pub(crate) fn give_back(&self, ends: &Ends, pcrd: PcrdType) -> Result<Booking, IdReason>
        ensures { result ≡ given_back (table_of self.now) ends.now pcrd }
    {
        let node = ends.requester;
        let booking = self.booking(node, pcrd, CreditEvent::Returned);
        if booking.held.account.may_return() {
            Ok(booking)
        } else {
            Err(IdReason::NothingToReturn(node, pcrd))
        }
    }
}
