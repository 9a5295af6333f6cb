//! All requesters of a tracker, in one state of it.

ghost use Rattle.std.specs.Prelude.{◌≡◌, ◌≤◌, All, length};
ghost use Rattle.chi_tracker.specs.History.{IsAfter};

use crate::requester::Requester;
use chi_tracker::{Tracker, Witness};
use std::alloc::Allocator;

/// Tells a witness of each requester's port. It knows a history then that is no shorter than any of theirs; and
/// where it knew such a one before, that history leaves each port as it is.
fn tell_each<A: Allocator>(
    tracker: &Tracker<A>,
    requesters: &mut [Requester],
    witness: &mut Witness,
)
    requires tables { All (λ r. r.table ≡ tracker.now.table) requesters.old }
    requires witness { witness.old.table ≡ tracker.now.table }
    ensures same { requesters.new ≡ requesters.old }
    ensures witness { witness.new.table ≡ tracker.now.table }
    ensures longest { All (λ r. length r.history ≤ length witness.new.history) requesters.old }
    ensures after { All (λ r. length r.history ≤ length witness.old.history) requesters.old
        → All (λ r. IsAfter witness.new.history r.port) requesters.old }
    ensures own { All (λ r. r.port.who ≡ r.number) requesters.old }
{
    for index in 0..requesters.len() {
        requesters[index].tell(tracker, witness);
    }
}

/// A witness whose one history leaves each requester's port as it is.
pub(crate) fn witness_of<A: Allocator>(
    tracker: &Tracker<A>,
    requesters: &mut [Requester],
) -> Witness
    requires tables { All (λ r. r.table ≡ tracker.now.table) requesters.old }
    ensures same { requesters.new ≡ requesters.old }
    ensures after { All (λ r. IsAfter result.history r.port) requesters.old }
    ensures own { All (λ r. r.port.who ≡ r.number) requesters.old }
{
    let mut witness = tracker.witness();
    tell_each(tracker, requesters, &mut witness);
    tell_each(tracker, requesters, &mut witness);
    witness
}
