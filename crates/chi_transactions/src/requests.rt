//! Requests and snoops, which open ids.

ghost use Rattle.std.specs.Prelude.{◌≡◌, IfSome, OnOk, Some, if◌then◌else◌};
ghost use Rattle.chi_transactions.specs.declared.credits.CreditEvent.TheVariants as events;
ghost use Rattle.chi_transactions.specs.Maps.{IsSlot, entry_in};
ghost use Rattle.chi_transactions.specs.Flits.{number_at};
ghost use Rattle.chi_transactions.specs.State.{state_of};
ghost use Rattle.chi_transactions.specs.Steps.{IsDone, after_request, allows_retry, booked, opened_request, opened_snoop, opening_answer, opening_answer_by, request_after, request_refusal, request_refusal_by, resent_refusal, snoop_after, snoop_refusal, waiting_refusal};

use crate::attempts::count_attempt;
use crate::credits::{CreditEvent, book};
use crate::entries::{Credits, Named, OpenId, Options, Portion, Reason, Stop, Taken, Waiting};
use crate::flits::{account_of, credit_of, home_of, number_at, place_of};
use crate::maps::{Slot, Table, put_at, value_of, wait_no_more, waiting_in};
use crate::parts::{ANSWER, Parts};
use crate::retries::lacks_credit;
use crate::rows::{expects_of, follows_of};
use crate::rule::is_in_use;
use crate::transactions::Transactions;
use chi_issue_b::{CacheLine, Flit};
use std::alloc::{AllocError, Allocator};

/// Why a request without AllowRetry isn't the one that waits at its line, if one does.
fn waiting_refusal(options: Options, flit: &Flit, waiting: Option<Waiting>) -> Option<Reason>
    ensures { result ≡ waiting_refusal options flit.now waiting }
{
    match waiting {
        Some(waiting) => {
            if waiting.home.0 != home_of(flit).0 {
                return Some(Reason::NotWaiting);
            }
            if waiting.credit.0 != credit_of(flit).0 {
                return Some(Reason::OtherType);
            }
            None
        }
        None => {
            if options.begins_in_middle {
                None
            } else {
                Some(Reason::NotWaiting)
            }
        }
    }
}

/// The id that a request with this number to the line opens.
#[inline(always)]
#[tactic(auto, unfolding(crate::specs::Steps::opened_request))]
fn opened_request(flit: &Flit, number: u64, line: CacheLine) -> OpenId
    ensures { result ≡ opened_request flit.now number line }
{
    OpenId {
        line,
        since: number,
        home: home_of(flit),
        of: flit.opcode,
        left: expects_of(flit.opcode),
        follows: follows_of(flit.opcode),
        retryable: flit.allows_retry(),
        begun: false,
    }
}

/// The id that a snoop with this number of the line opens.
#[inline(always)]
#[tactic(auto, unfolding(crate::specs::Steps::opened_snoop))]
fn opened_snoop(flit: &Flit, number: u64, line: CacheLine) -> OpenId
    ensures { result ≡ opened_snoop flit.now number line }
{
    OpenId {
        line,
        since: number,
        home: home_of(flit),
        of: flit.opcode,
        left: Parts { bits: ANSWER },
        follows: Parts::NONE,
        retryable: false,
        begun: false,
    }
}

/// The credits behind a request, which spends one where it has no AllowRetry.
#[inline(always)]
fn keep_spent<A: Allocator>(credits: &mut Table<Credits, A>, flit: &Flit) -> Result<(), AllocError>
    ensures { OnOk result (entry_in credits.new
        ≡ if allows_retry flit.now then entry_in credits.old else booked events.Resent (entry_in credits.old) flit.now) }
{
    if flit.allows_retry() {
        return Ok(());
    }
    book(credits, account_of(flit), CreditEvent::Resent)
}

/// What is told of a flit with this number that opens an id of the line.
#[inline(always)]
fn opening_answer(flit: &Flit, number: u64, line: CacheLine) -> Taken
    ensures { result ≡ opening_answer_by flit.now number (Some line) }
{
    Taken::Of(Named {
        line,
        of: flit.opcode,
        since: number,
        beat: Portion::Whole,
    })
}

impl<A: Allocator> Transactions<A> {
    /// Why a request without AllowRetry to the line isn't taken.
    #[tactic(auto, unfolding(crate::specs::Steps::resent_refusal))]
    fn resent_refusal(&self, flit: &Flit, line: CacheLine) -> Option<Reason>
        ensures { result ≡ resent_refusal (state_of self.now) flit.now line }
    {
        let waiting = waiting_in(&self.waiting, place_of(flit, line));
        if let Some(reason) = waiting_refusal(self.options, flit, waiting) {
            return Some(reason);
        }
        if lacks_credit(self.options, &self.credits_of(flit)) {
            return Some(Reason::NoCredit);
        }
        None
    }

    /// Why a request to the line isn't taken, where this is kept of the id that it opens.
    #[inline(always)]
    fn line_refusal(&self, flit: &Flit, kept: Option<OpenId>, line: CacheLine) -> Option<Reason>
        requires { kept ≡ (state_of self.now).ids (number_at flit.now) }
        ensures { result ≡ request_refusal_by (state_of self.now) flit.now (Some line) }
    {
        if is_in_use(kept) {
            return Some(Reason::InUse);
        }
        if flit.allows_retry() {
            None
        } else {
            self.resent_refusal(flit, line)
        }
    }

    /// Keeps a request with this number to the line.
    fn keep_request(
        &mut self,
        flit: &Flit,
        number: u64,
        slot: Option<Slot<OpenId>>,
        line: CacheLine,
    ) -> Result<(), AllocError>
        requires { IfSome slot (λ slot. IsSlot self.old.ids (number_at flit.now) slot) }
        ensures { OnOk result
            (state_of self.new ≡ after_request (state_of self.old) flit.now number line) }
    {
        put_at(
            &mut self.ids,
            number_at(flit),
            slot,
            opened_request(flit, number, line),
        )?;
        wait_no_more(&mut self.waiting, place_of(flit, line));
        keep_spent(&mut self.credits, flit)?;
        count_attempt(self.options, &mut self.attempts, flit, flit.allows_retry())
    }

    /// Takes a request.
    pub(crate) fn take_request(&mut self, flit: &Flit, number: u64) -> Result<Taken, Stop>
        ensures { IsDone (state_of self.old) (state_of self.new)
            (request_refusal (state_of self.old) flit.now)
            (request_after (state_of self.old) flit.now number)
            (opening_answer flit.now number) result }
    {
        let Some(line) = flit.line() else {
            return Err(Stop::Refused(Reason::NoLine));
        };
        let slot = self.slot_at(flit);
        if let Some(reason) = self.line_refusal(flit, value_of(slot), line) {
            return Err(Stop::Refused(reason));
        }
        self.keep_request(flit, number, slot, line)?;
        Ok(opening_answer(flit, number, line))
    }

    /// Takes a snoop.
    pub(crate) fn take_snoop(&mut self, flit: &Flit, number: u64) -> Result<Taken, Stop>
        ensures { IsDone (state_of self.old) (state_of self.new)
            (snoop_refusal (state_of self.old) flit.now)
            (snoop_after (state_of self.old) flit.now number)
            (opening_answer flit.now number) result }
    {
        let Some(line) = flit.line() else {
            return Err(Stop::Refused(Reason::NoLine));
        };
        let slot = self.slot_at(flit);
        if is_in_use(value_of(slot)) {
            return Err(Stop::Refused(Reason::InUse));
        }
        put_at(
            &mut self.ids,
            number_at(flit),
            slot,
            opened_snoop(flit, number, line),
        )?;
        Ok(opening_answer(flit, number, line))
    }
}
