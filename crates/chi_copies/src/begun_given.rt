//! A flit of the home, of a line whose trace begins in the middle.

ghost use Rattle.std.specs.Prelude.{◌≡◌, ◌<◌, ◌&&◌, ◌||◌, ◌==◌, ℕ, IfErr, OnErr, OnOk, Option, Some, is_ok, not};
ghost use Rattle.chi_observer.specs.declared.flits.Flit.TheVariants.{Down};
ghost use Rattle.chi_copies.specs.Copies.{Held as HeldOf};
ghost use Rattle.chi_copies.specs.Rules.{fills};
ghost use Rattle.chi_copies.specs.Observed.{fits_home};
ghost use Rattle.chi_copies.specs.Worlds.{all_below, home_may};
ghost use Rattle.chi_observer.specs.Rules.{is_busy, is_due, overwrites};
ghost use Rattle.chi_observer.specs.declared.kinds.Snoop.TheVariants.{SnpOnce};
ghost use Rattle.chi_copies.specs.Sets.{members};
ghost use Rattle.chi_copies.specs.declared.line.Reason.{Reason};
ghost use Rattle.chi_copies.specs.Begun.{apart_given, behind_given, counts, got_begun, has_its_moment, is_shown, kept_behind, left_beside, others_begun, shown_then, sure_given, takes_given};
ghost use Rattle.chi_copies.specs.BegunLines.{begun, behind_of, keeps_order_begun, sets_of};
ghost use Rattle.chi_copies.specs.BegunRefusals.{given_by, given_refusal, order_refusal};

use crate::acts::renews;
use crate::begun::Begun;
use crate::begun_moments::flag_at;
use crate::certain::{apart_beside, each_left, stands, sure_behind};
use crate::copies::Copies;
use crate::dues::DueCode;
use crate::line::{
    Reason, duty_granted, home_then, home_words, is_none_overwriting, is_quiet, others_may,
};
use crate::rules::{
    due_granted, is_due, needs_alone, needs_duty, needs_moment, needs_overwriter, needs_quiet,
    snooped_granted,
};
use crate::sends::fits_each;
use crate::steps::Step;
use crate::tests::Test;
use chi_observer::{Due, Grant, HomeFlit, Snoop};

/// Whether a snoop may still be unanswered from before, behind a flit of the home.
fn is_left_behind(left: bool, grant: Grant, due: Due) -> bool
    ensures { result ≡ (left && is_due grant due (Some SnpOnce)) }
{
    left && is_due(grant, due, Some(Snoop::SnpOnce))
}

impl Begun {
    /// Takes a flit of the home that isn't from before.
    pub(crate) fn take_given(&mut self, flit: HomeFlit) -> Result<(), Reason>
        requires { flit.agent.0 < 32 }
        ensures taken { is_ok result ≡ takes_given (begun self.old) flit }
        ensures after { OnOk result (begun self.new
            ≡ kept_behind (behind_given (begun self.old) flit) (shown_then (begun self.old) (Down flit))) }
        ensures why { IfErr result (λ reason. given_refusal (begun self.old) flit ≡ Some reason) }
        ensures kept { OnErr result (self.new ≡ self.old) }
    {
        match self.may_give(flit) {
            Err(reason) => Err(reason),
            Ok(()) => self.give(flit),
        }
    }

    /// Takes it where it is due, if it leaves all in order.
    fn give(&mut self, flit: HomeFlit) -> Result<(), Reason>
        requires { flit.agent.0 < 32 }
        ensures taken { is_ok result ≡ keeps_order_begun (begun self.old) flit }
        ensures after { OnOk result (begun self.new
            ≡ kept_behind (behind_given (begun self.old) flit) (shown_then (begun self.old) (Down flit))) }
        ensures why { IfErr result (λ reason. order_refusal (begun self.old) flit ≡ Some reason) }
        ensures kept { OnErr result (self.new ≡ self.old) }
    {
        let own = self.got(flit);
        let sure = self.is_sure_given(flit, own);
        let alone = needs_alone(flit.grant, self.due_of(flit.agent.0));
        let apart = apart_beside(sure, own, alone);
        let others = self.given_may(flit);
        match self.keeps_order(flit, apart, &others) {
            Err(reason) => Err(reason),
            Ok(()) => {
                let may = each_left(apart, &self.sure, &others);
                self.grant(flit, own, sure, may);
                self.settle(flit.agent.0, None);
                Ok(())
            }
        }
    }

    /// Whether no agent has a CompAck or write data due.
    fn is_quiet(&self) -> bool
        ensures { result ≡ all_below 32 (λ m. not (is_busy ((begun self.now).seen.public.due m))) }
    {
        is_quiet(&self.due)
    }

    /// Whether no other agent has a request open for which copies may be thrown away.
    fn is_none_overwriting(&self, agent: u8) -> bool
        ensures { result ≡ all_below 32 (λ m. m == agent || not (overwrites ((begun self.now).seen.public.due m))) }
    {
        is_none_overwriting(&self.due, agent)
    }

    /// Whether there may have been the moment that the flit needs.
    fn has_moment(&self, flit: HomeFlit) -> bool
        requires { flit.agent.0 < 32 }
        ensures { result ≡ has_its_moment (begun self.now) flit }
    {
        let due = self.due_of(flit.agent.0);
        let shown = flag_at(&self.shown, usize::from(flit.agent.0));
        !needs_moment(flit.grant, due) || shown
    }

    /// Whether there may have been the moment that the flit needs, and the home may send it by what flits say of requests,
    /// answers and its duty.
    fn may_give(&self, flit: HomeFlit) -> Result<(), Reason>
        requires { flit.agent.0 < 32 }
        ensures may { is_ok result ≡ (has_its_moment (begun self.now) flit && home_may (begun self.now).seen.public flit) }
        ensures why { IfErr result (λ reason. (rest : Option Reason) →
            given_by (begun self.now) flit rest ≡ Some reason) }
    {
        let due = self.due_of(flit.agent.0);
        let snooped = self.snooped_of(flit.agent.0);
        if !self.has_moment(flit) {
            return Err(Reason::NoMoment);
        }
        if !is_due(flit.grant, due, snooped) {
            return Err(Reason::NotDue);
        }
        if needs_duty(flit.grant) && !self.duty {
            return Err(Reason::NoDuty);
        }
        if needs_quiet(flit.grant) && !self.is_quiet() {
            return Err(Reason::Busy);
        }
        if needs_overwriter(flit.grant) && self.is_none_overwriting(flit.agent.0) {
            return Err(Reason::NoOverwriter);
        }
        Ok(())
    }

    /// The copies of the flit's agent then.
    fn got(&self, flit: HomeFlit) -> Copies
        requires { flit.agent.0 < 32 }
        ensures { (h : HeldOf) → members result h ≡ got_begun (begun self.now) flit h }
    {
        let due = self.due_of(flit.agent.0);
        let may = self.may_of(flit.agent.0);
        Step::Granted(flit.grant, due).image(may)
    }

    /// Whether the copy is sure behind the flit, which leaves these.
    fn is_sure_given(&self, flit: HomeFlit, own: Copies) -> bool
        requires low { flit.agent.0 < 32 }
        requires own { (h : HeldOf) → members own h ≡ got_begun (begun self.now) flit h }
        ensures { result ≡ sure_given (begun self.now) flit }
    {
        let sure = self.is_sure(flit.agent.0);
        sure_behind(sure, own)
    }

    /// What the others' copies may be then.
    fn given_may(&self, flit: HomeFlit) -> [Copies; 32]
        requires { flit.agent.0 < 32 }
        ensures { (n : ℕ) (h : HeldOf) → sets_of result n h ≡ others_begun (begun self.now) flit n h }
    {
        let due = self.due_of(flit.agent.0);
        let renews = renews(flit.grant, due);
        others_may(renews, &self.may)
    }

    /// Whether the words of a flit of the home are the home's own, whatever the copy is.
    fn is_shown(&self, flit: HomeFlit) -> bool
        requires { flit.agent.0 < 32 }
        ensures { result ≡ is_shown (begun self.now) flit }
    {
        let (sure, may) = (self.is_sure(flit.agent.0), self.may_of(flit.agent.0));
        Test::Shows(flit.grant).counts(sure, may)
    }

    /// Whether the words may be the home's, if they are its own.
    fn fits_shown(&self, flit: HomeFlit) -> bool
        requires { flit.agent.0 < 32 }
        ensures { result ≡ (not (is_shown (begun self.now) flit) || fits_home self.now.home flit.shown) }
    {
        let shows = self.is_shown(flit);
        !shows || self.fits_home(flit)
    }

    /// Whether the words may be the home's.
    fn fits_home(&self, flit: HomeFlit) -> bool
        ensures { result ≡ fits_home self.now.home flit.shown }
    {
        let words = home_words(&self.home);
        fits_each(&words, &flit.shown)
    }

    /// Whether the flit fills a copy whose agent has thrown the value away.
    fn fills_stored(&self, flit: HomeFlit) -> bool
        requires { flit.agent.0 < 32 }
        ensures { result ≡ counts ((begun self.now).sure flit.agent.0) ((begun self.now).seen.may flit.agent.0)
            (λ h. fills flit.grant h && h.stored) }
    {
        let (sure, may) = (self.is_sure(flit.agent.0), self.may_of(flit.agent.0));
        Test::FillsStored(flit.grant).counts(sure, may)
    }

    /// Whether the flit leaves all in order, where the home may send it.
    fn keeps_order(
        &self,
        flit: HomeFlit,
        apart: Copies,
        others: &[Copies; 32],
    ) -> Result<(), Reason>
        requires low { flit.agent.0 < 32 }
        requires apart { (h : HeldOf) → members apart h ≡ apart_given (begun self.now) flit h }
        requires others { (n : ℕ) (h : HeldOf) → sets_of others.now n h ≡ others_begun (begun self.now) flit n h }
        ensures keeps { is_ok result ≡ keeps_order_begun (begun self.now) flit }
        ensures why { IfErr result (λ reason. order_refusal (begun self.now) flit ≡ Some reason) }
    {
        if !self.fits_shown(flit) {
            return Err(Reason::OtherWords);
        }
        if self.fills_stored(flit) {
            return Err(Reason::Lost);
        }
        if !stands(flit.agent.0, apart, &self.sure, others) {
            return Err(Reason::OtherCopy);
        }
        Ok(())
    }

    /// What is kept right behind the flit, which leaves these copies of its agent's and of the others'.
    fn grant(&mut self, flit: HomeFlit, own: Copies, sure: bool, may: [Copies; 32])
        requires low { flit.agent.0 < 32 }
        requires own { (h : HeldOf) → members own h ≡ got_begun (begun self.old) flit h }
        requires sure { sure ≡ sure_given (begun self.old) flit }
        requires may { (n : ℕ) (h : HeldOf) → sets_of may n h ≡ left_beside ((begun self.old).sure n)
            (apart_given (begun self.old) flit) (others_begun (begun self.old) flit n) h }
        ensures after { behind_of self.new ≡ behind_given (begun self.old) flit }
        ensures shown { self.new.shown ≡ self.old.shown }
    {
        let at = usize::from(flit.agent.0);
        let due = self.due_of(flit.agent.0);
        let snooped = self.snooped_of(flit.agent.0);
        let shows = self.is_shown(flit);
        let was = flag_at(&self.left, at);
        let left = is_left_behind(was, flit.grant, due);
        self.home = home_then(shows, flit.shown, self.home);
        self.may = may;
        self.may[at] = own;
        self.sure[at] = sure;
        self.left[at] = left;
        self.due[at] = DueCode::encode(due_granted(flit.grant, due));
        self.snooped[at] = snooped_granted(flit.grant, snooped);
        self.duty = duty_granted(self.duty, flit.grant);
    }
}
