//! Requests that are retried, and credits that are granted and returned.

ghost use Rattle.std.specs.Prelude.{◌≡◌, IfSome, OnOk};
ghost use Rattle.chi_transactions.specs.declared.credits.CreditEvent.TheVariants as events;
ghost use Rattle.chi_transactions.specs.declared.entries.Taken.TheVariants.{Credit};
ghost use Rattle.chi_transactions.specs.Flits.{number_at};
ghost use Rattle.chi_transactions.specs.Maps.{IsSlot, waiting_in};
ghost use Rattle.chi_transactions.specs.State.{state_of};
ghost use Rattle.chi_transactions.specs.Steps.{IsDone, after_booked, after_retried, credits_of, early_of, grant_refusal, is_right_by, is_right_type, lacks_credit, retried, retried_refusal, retry_after, retry_answer, retry_refusal, return_refusal, waiting_of, waiting_with};

use crate::attempts::{counted, keep_attempts};
use crate::credits::{CreditEvent, book, credits_at};
use crate::entries::{Credits, OpenId, Options, Portion, Reason, Stop, Taken, Waiting};
use crate::flits::{account_of, credit_of, home_of, number_at, place_of};
use crate::maps::{Slot, WaitingTable, entry_in, put_at, value_of, wait};
use crate::named::taken_of;
use crate::parts::Parts;
use crate::rows::type_of;
use crate::rule::{found_by, is_of_line};
use crate::transactions::Transactions;
use chi_issue_b::Flit;
use std::alloc::{AllocError, Allocator};

/// Whether a type is the wanted one, if that isn't open.
fn is_right_by(wanted: Option<u8>, credit: u8) -> bool
    ensures { result ≡ is_right_by wanted credit }
{
    match wanted {
        Some(wanted) => wanted == credit,
        None => true,
    }
}

/// Whether a RetryAck names the type of the id's request.
#[tactic(auto, unfolding(crate::specs::Steps::is_right_type))]
fn is_right_type(options: Options, flit: &Flit, id: &OpenId) -> bool
    ensures { result ≡ is_right_type options flit.now id.now }
{
    is_right_by(type_of(options.types, id.of), credit_of(flit).0)
}

/// Why a RetryAck that names this id isn't taken.
#[tactic(auto, unfolding(crate::specs::Steps::retried_refusal))]
fn retried_refusal(options: Options, flit: &Flit, id: &OpenId) -> Option<Reason>
    ensures { result ≡ retried_refusal options flit.now id.now }
{
    if id.left.bits == 0 {
        return Some(Reason::NotOpen);
    }
    if id.home.0 != home_of(flit).0 {
        return Some(Reason::OtherHome);
    }
    if !is_of_line(flit, id) {
        return Some(Reason::OtherLine);
    }
    if !id.retryable {
        return Some(Reason::NotRetryable);
    }
    if !is_right_type(options, flit, id) {
        return Some(Reason::OtherType);
    }
    None
}

/// The id behind its RetryAck.
#[tactic(auto, unfolding(crate::specs::Steps::retried))]
fn retried(id: &OpenId) -> OpenId
    ensures { result ≡ retried id.now }
{
    OpenId {
        left: Parts::NONE,
        follows: Parts::NONE,
        retryable: false,
        ..*id
    }
}

/// What the id's request waits for behind a RetryAck with this number.
#[tactic(auto, unfolding(crate::specs::Steps::waiting_of))]
fn waiting_of(flit: &Flit, number: u64, id: &OpenId) -> Waiting
    ensures { result ≡ waiting_of flit.now number id.now }
{
    Waiting {
        home: id.home,
        credit: credit_of(flit),
        of: id.of,
        since: number,
    }
}

/// What waits behind a RetryAck with this number, which is of a request of the trace or from before it.
#[tactic(auto, unfolding(crate::specs::Steps::waiting_with))]
fn keep_waiting<A: Allocator>(
    table: &mut WaitingTable<A>,
    flit: &Flit,
    number: u64,
    id: &OpenId,
) -> Result<(), AllocError>
    ensures { OnOk result (waiting_in table.new
        ≡ waiting_with (waiting_in table.old) flit.now number id.now) }
{
    if id.since == 0 {
        return Ok(());
    }
    wait(table, place_of(flit, id.line), waiting_of(flit, number, id))
}

/// Whether there is no credit to be spent or returned, where credits are judged.
pub(crate) fn lacks_credit(options: Options, credits: &Credits) -> bool
    ensures { result ≡ lacks_credit options credits.now }
{
    let unused = credits.unused();
    !options.begins_in_middle && unused == 0
}

impl<A: Allocator> Transactions<A> {
    /// Keeps a RetryAck with this number that names the id.
    fn keep_retried(
        &mut self,
        flit: &Flit,
        number: u64,
        slot: Option<Slot<OpenId>>,
        id: &OpenId,
    ) -> Result<(), AllocError>
        requires { IfSome slot (λ slot. IsSlot self.old.ids (number_at flit.now) slot) }
        ensures { OnOk result
            (state_of self.new ≡ after_retried (state_of self.old) flit.now number id.now) }
    {
        put_at(&mut self.ids, number_at(flit), slot, retried(id))?;
        keep_waiting(&mut self.waiting, flit, number, id)?;
        book(&mut self.credits, account_of(flit), CreditEvent::Retried)?;
        keep_attempts(self.options, &mut self.attempts, flit, id)
    }

    /// Takes a RetryAck.
    pub(crate) fn take_retry(&mut self, flit: &Flit, number: u64) -> Result<Taken, Stop>
        ensures { IsDone (state_of self.old) (state_of self.new)
            (retry_refusal (state_of self.old) flit.now)
            (retry_after (state_of self.old) flit.now number)
            (retry_answer (state_of self.old) flit.now) result }
    {
        let slot = self.slot_at(flit);
        let Some(id) = found_by(self.options, flit, value_of(slot)) else {
            return Err(Stop::Refused(Reason::NotOpen));
        };
        if let Some(reason) = retried_refusal(self.options, flit, &id) {
            return Err(Stop::Refused(reason));
        }
        self.keep_retried(flit, number, slot, &id)?;
        Ok(taken_of(&id, Portion::Whole))
    }

    /// The credits of the flit's account.
    pub(crate) fn credits_of(&self, flit: &Flit) -> Credits
        ensures { result ≡ credits_of (state_of self.now) flit.now }
    {
        credits_at(entry_in(&self.credits, account_of(flit)))
    }

    /// How many grants may come before their RetryAcks.
    fn early_of(&self, flit: &Flit) -> u64
        ensures { result ≡ early_of (state_of self.now) flit.now }
    {
        if self.options.early_grants {
            counted(&self.attempts, flit)
        } else {
            0
        }
    }

    /// Takes a PCrdGrant.
    pub(crate) fn take_grant(&mut self, flit: &Flit) -> Result<Taken, Stop>
        ensures { IsDone (state_of self.old) (state_of self.new)
            (grant_refusal (state_of self.old) flit.now)
            (after_booked events.Granted (state_of self.old) flit.now) Credit result }
    {
        let allowed = self.credits_of(flit).may_grant(self.early_of(flit));
        if !self.options.begins_in_middle && !allowed {
            return Err(Stop::Refused(Reason::NothingRetried));
        }
        book(&mut self.credits, account_of(flit), CreditEvent::Granted)?;
        Ok(Taken::Credit)
    }

    /// Takes a PCrdReturn.
    pub(crate) fn take_return(&mut self, flit: &Flit) -> Result<Taken, Stop>
        ensures { IsDone (state_of self.old) (state_of self.new)
            (return_refusal (state_of self.old) flit.now)
            (after_booked events.Returned (state_of self.old) flit.now) Credit result }
    {
        if lacks_credit(self.options, &self.credits_of(flit)) {
            return Err(Stop::Refused(Reason::NoCredit));
        }
        book(&mut self.credits, account_of(flit), CreditEvent::Returned)?;
        Ok(Taken::Credit)
    }
}
