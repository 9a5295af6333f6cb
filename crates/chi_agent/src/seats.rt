//! What an agent takes into its thread.

ghost use Rattle.std.specs.Prelude.{◌≡◌, ◌∷◌, IfNone, IfSome, map};
ghost use Rattle.chi_agent.specs.Script.{writer_of};
ghost use Rattle.chi_agent.specs.Ended.{requester_number, outbox_of};

use crate::scripts::Script;
use arrayvec::ArrayVec;
use chi_audit::{Inbox, Outbox};
use chi_node::Requester;
use std::alloc::Global;

/// A requester, its script, and the outbox of its report: all three are of one agent.
#[derive(Drop)]
pub(crate) struct Seat {
    pub(crate) requester: Requester,
    pub(crate) script: Script<Global>,
    pub(crate) outbox: Outbox,
    pub(crate) ghost own_writer: { script.writer.agent ≡ requester.number },
    pub(crate) ghost own_outbox: { outbox.agent ≡ requester.number },
}

/// The first requester with the first script and the first outbox, whose inbox is this; `None` where one of the
/// three is lacking.
pub(crate) fn first_seat(
    requesters: &mut ArrayVec<Requester, 8>,
    scripts: &mut Vec<Script<Global>>,
    outboxes: &mut Vec<Outbox>,
    inbox: &Inbox,
) -> Option<Seat>
    requires writers { map writer_of scripts.old.items ≡ map requester_number requesters.old.items }
    requires outboxes { outboxes.old.items
        ≡ map (outbox_of inbox.now.channel) requesters.old.items }
    ensures requester { IfSome result (λ seat. requesters.old.items
        ≡ seat.requester ∷ requesters.new.items) }
    ensures script { IfSome result (λ seat. scripts.old.items ≡ seat.script ∷ scripts.new.items) }
    ensures outbox { IfSome result (λ seat. outboxes.old.items ≡ seat.outbox ∷ outboxes.new.items) }
    ensures channel { IfSome result (λ seat. seat.outbox
        ≡ outbox_of inbox.now.channel seat.requester) }
    ensures none { IfNone result (requesters.new ≡ requesters.old) }
{
    if requesters.is_empty() || scripts.is_empty() || outboxes.is_empty() {
        return None;
    }
    Some(Seat {
        requester: requesters.remove(0),
        script: scripts.remove(0),
        outbox: outboxes.remove(0),
    })
}
