//! Credits that are granted and returned.

ghost use Rattle.std.specs.Prelude.{◌≡◌};
ghost use Rattle.std.specs.List.{count_by};
ghost use Rattle.chi_observe.specs.Grants.{attempts, early_of, granted, is_attempt, lacks_credit, returned};
ghost use Rattle.chi_observe.specs.Tables.{table_of};

use crate::credits::{Booking, CreditEvent};
use crate::ids::{OpenId, Purpose};
use crate::reasons::IdReason;
use crate::tables::Tables;
use chi_ids::{IdKey, Sides};
use chi_trace::PcrdType;
use std::alloc::Allocator;

/// Whether the id is that of a first attempt between these nodes.
fn is_attempt(id: &OpenId, sides: Sides) -> bool
    ensures { result ≡ is_attempt sides id.now }
{
    match (id.key, id.purpose) {
        (IdKey::Request(of, _), Purpose::Request { kind: _, first }) => {
            first && (of.home.0 == sides.home.0 && of.requester.0 == sides.requester.0)
        }
        (IdKey::Request(of, _), Purpose::Unknown { first }) => {
            first && (of.home.0 == sides.home.0 && of.requester.0 == sides.requester.0)
        }
        _ => false,
    }
}

impl<A: Allocator> Tables<'_, A> {
    /// How many first attempts between the nodes are on their way.
    fn attempts(&self, sides: Sides) -> usize
        ensures { result ≡ attempts sides (table_of self.now).ids }
    {
        let ids = self.ids.values().as_slice();
        ids.iter().filter(|id| is_attempt(id, sides)).count()
    }

    /// How many credits may be granted before their RetryAcks.
    fn early(&self, sides: Sides) -> usize
        ensures { result ≡ early_of self.now.options (table_of self.now) sides }
    {
        if self.options.early_grants {
            self.attempts(sides)
        } else {
            0
        }
    }

    /// Whether there is no credit for a booking; of a trace that is cut out of a longer one none is missed.
    pub(crate) fn lacks_credit(&self, booking: &Booking) -> bool
        ensures { result ≡ lacks_credit self.now.options booking.now }
    {
        !self.options.is_cut() && booking.account.unused() == 0
    }

    /// A granted credit: of a retried request that waits for a grant, or with early grants of a first attempt.
    pub(crate) fn grant(&self, sides: Sides, pcrd: PcrdType) -> Result<Booking, IdReason>
        ensures { result ≡ granted self.now.options (table_of self.now) sides pcrd }
    {
        let early = self.early(sides) as u64;
        let booking = self.booking(sides, pcrd, CreditEvent::Granted);
        if self.options.is_cut() || booking.account.may_grant(early) {
            Ok(booking)
        } else {
            Err(IdReason::NothingRetried(sides, pcrd))
        }
    }

    /// A returned credit.
    pub(crate) fn give_back(&self, sides: Sides, pcrd: PcrdType) -> Result<Booking, IdReason>
        ensures { result ≡ returned self.now.options (table_of self.now) sides pcrd }
    {
        let booking = self.booking(sides, pcrd, CreditEvent::Returned);
        if self.lacks_credit(&booking) {
            Err(IdReason::NoCredit(sides, pcrd))
        } else {
            Ok(booking)
        }
    }
}
