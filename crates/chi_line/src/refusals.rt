//! Why an action is refused: the seventeen rows of the protocol. What refuses a part of the line alone is asked
//! of that part.

ghost use Rattle.std.specs.Prelude.{◌≡◌, ◌<◌, Some, if◌then◌else◌};
ghost use Rattle.chi_flit.specs.declared.refusal.Refusal.TheVariants as refusals;
ghost use Rattle.chi_rnline.specs.Rn.{issue_refusal};
ghost use Rattle.chi_line.specs.Refused.{full_if, line_refusal, marked_credit_refusal, no_flit_unless, retry_refusal};
ghost use Rattle.chi_line.specs.Types.{pending_credit};

use crate::act::Conditions;
use crate::flits::has_flit;
use crate::line::CoherentLine;
use chi_flit::{Action, Kind, Refusal, Request, Step, credit_type};
use chi_rnline::RnLine;

impl CoherentLine {
    /// Why `act` refuses the action, its numbers being in their ranges; `None` where it doesn't.
    ///
    /// Conditions: the agent's number is below 8.
    /// Source: `docs/PROTOCOL.md`, "The actions".
    #[inline(always)]
    pub fn refusal(&self, conditions: Conditions, action: Action) -> Option<Refusal>
        requires { action.agent.0 < 8 }
        ensures { result ≡ line_refusal conditions self.now action }
    {
        let copy = &self.requesters[usize::from(action.agent.0)];
        let cells = self.flits.cells(action.agent);
        match action.step {
            Step::Load(_) => copy.why_no_load().or(full_if(conditions.journal_full)),
            Step::Store(_, _) => copy.why_no_store().or(full_if(conditions.journal_full)),
            Step::Drop => copy.why_no_drop(),
            Step::Issue(kind, _) => why_no_issue(copy, kind, conditions.slot_used),
            Step::Retry => why_no_retry(cells.req),
            Step::Resend => copy.why_no_resend().or(why_no_credit(copy, conditions)),
            Step::Cancel => copy.why_no_cancel(),
            Step::Start => self.home.why_no_start(action.agent),
            Step::Admit
            | Step::RecvRetry
            | Step::RecvSnp
            | Step::RecvSnpResp
            | Step::RecvData
            | Step::RecvComp
            | Step::RecvAck
            | Step::RecvDbid
            | Step::RecvWrData => no_flit_unless(has_flit(cells, action.step)),
        }
    }
}

/// The refusal of an Issue: that of a slot that is used, then the copy's, which begins with the same number.
#[inline(always)]
fn why_no_issue(copy: &RnLine, kind: Kind, used: bool) -> Option<Refusal>
    ensures { result ≡ if used then Some refusals.Pending else issue_refusal copy.now kind }
{
    if used {
        return Some(Refusal::Pending);
    }
    copy.why_no_issue(kind)
}

/// The refusal of a Retry: there is no request, then it is without AllowRetry.
#[inline(always)]
fn why_no_retry(request: Option<Request>) -> Option<Refusal>
    ensures { result ≡ retry_refusal request }
{
    match request {
        Some(request) if request.allow_retry => None,
        Some(_) => Some(Refusal::MustAccept),
        None => Some(Refusal::NoFlit),
    }
}

/// The refusal of a Resend without a credit of the type of the request that is pending, if one is.
#[inline(always)]
fn why_no_credit(copy: &RnLine, conditions: Conditions) -> Option<Refusal>
    ensures { result
        ≡ marked_credit_refusal conditions.credits (pending_credit conditions.profile copy.now.pending) }
{
    let request = copy.pending()?;
    let credit = credit_type(conditions.profile, request.kind);
    if conditions.credits[usize::from(credit.number())] {
        None
    } else {
        Some(Refusal::NoCredit)
    }
}

/// The refusal of a journal that is full.
#[inline(always)]
fn full_if(full: bool) -> Option<Refusal>
    ensures { result ≡ full_if full }
{
    if full {
        Some(Refusal::JournalFull)
    } else {
        None
    }
}

/// The refusal of a message that isn't in flight.
#[inline(always)]
fn no_flit_unless(there: bool) -> Option<Refusal>
    ensures { result ≡ no_flit_unless there }
{
    if there { None } else { Some(Refusal::NoFlit) }
}
