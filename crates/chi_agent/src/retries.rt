//! A retried request: it is resent, or cancelled.

ghost use Rattle.std.specs.Prelude.{◌≡◌, IfSome};
ghost use Rattle.chi_agent.specs.Choice.{has_credit, is_pending_retried, retry, IsCall};

use crate::choice::{Call, Choice};
use chi_flit::{CreditType, Profile, Step};
use chi_node::Requester;
use chi_slice::{Pending, Phase, RnLine, pending_credit};

/// Whether the request is in phase Retried.
fn is_retried(pending: Option<Pending>) -> bool
    ensures { result ≡ is_pending_retried pending }
{
    match pending {
        Some(request) => matches!(request.phase, Phase::Retried),
        None => false,
    }
}

/// Whether a seen credit of the type, if there is one, is beyond those for the Riding slots.
fn has_credit(requester: &Requester, wanted: Option<CreditType>) -> bool
    ensures { result ≡ has_credit requester.now wanted }
{
    match wanted {
        Some(ty) => requester.can_resend(ty),
        None => false,
    }
}

/// What is done of a retried request; `None` where there is none, or no credit for it.
pub(crate) fn retry(profile: Profile, copy: &RnLine, requester: &Requester) -> Option<Choice>
    ensures is { result ≡ retry profile copy.now requester.now }
    ensures own { IfSome result IsCall }
{
    let pending = copy.pending();
    if !is_retried(pending) {
        return None;
    }
    if copy.why_no_resend().is_some() {
        return Some(Choice::Do(Call::Step(Step::Cancel)));
    }
    if !has_credit(requester, pending_credit(profile, pending)) {
        return None;
    }
    Some(Choice::Do(Call::Step(Step::Resend)))
}
