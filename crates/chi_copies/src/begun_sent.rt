//! A flit of a cache, of a line whose trace begins in the middle.

ghost use Rattle.std.specs.Prelude.{◌≡◌, ◌<◌, ◌&&◌, ◌||◌, ℕ, IfErr, IfSome, OnErr, OnOk, Option, Some, if◌then◌else◌, is_ok, is_some, not, true};
ghost use Rattle.chi_observer.specs.Rules.{due_after};
ghost use Rattle.chi_observer.specs.declared.flits.Flit.TheVariants.{Up};
ghost use Rattle.chi_copies.specs.Copies.{Held as HeldOf};
ghost use Rattle.chi_copies.specs.Worlds.{is_placed};
ghost use Rattle.chi_copies.specs.Sets.{members};
ghost use Rattle.chi_copies.specs.declared.line.Reason.{Reason};
ghost use Rattle.chi_copies.specs.Begun.{act_due, apart_sent, asks, behind_sent, due_in, has_words, kept_behind, left_beside, left_over, may_in, others_sent, sent_begun, shown_then, sure_sent, takes_sent};
ghost use Rattle.chi_copies.specs.BegunLines.{begun, behind_of, may_send, sent_with, sets_of};
ghost use Rattle.chi_copies.specs.BegunRefusals.{sent_refusal};

use crate::begun::{Begun, LEFT_OVER};
use crate::begun_moments::{code_at, copies_at, flag_at};
use crate::certain::{apart_from, each_left, stands, sure_behind};
use crate::copies::Copies;
use crate::dues::DueCode;
use crate::line::{Reason, duty_after, home_then, home_words, none_known, others_may};
use crate::rules::{allows, due_after, has_data, lets_go, snooped_after, tells_words};
use crate::sends::{Sent, fits_by, is_placed};
use crate::steps::Step;
use crate::tests::Test;
use crate::timed::issuer_of;
use chi_flit::Data;
use chi_observer::{Act, CacheFlit, Due};

/// What may be due of a request from before where a flit of its cache is sent.
fn act_due(act: Act) -> Due
    ensures { result ≡ act_due act }
{
    match act {
        Act::Resend(kind) => Due::Resending(kind),
        Act::Request(_)
        | Act::SnpResp(_)
        | Act::CompAck
        | Act::CopyBackWrData(_)
        | Act::NonCopyBackWrData
        | Act::Load(_)
        | Act::Store(_) => Due::Nothing,
    }
}

/// Whether the flit is a request, or one that is sent again.
fn asks(act: Act) -> bool
    ensures { result ≡ asks act }
{
    matches!(act, Act::Request(_) | Act::Resend(_))
}

/// Whether the flit tells words of the copy.
fn has_words(act: Act) -> bool
    ensures { result ≡ has_words act }
{
    matches!(act, Act::Load(_)) || has_data(act)
}

/// Whether a copy that is sure stays so behind the flit, whatever it may have been.
fn is_kept(sure: bool, act: Act) -> bool
    ensures { result ≡ (sure && not (has_words act)) }
{
    sure && !has_words(act)
}

/// Whether a request may still be open from before, behind the flit.
fn is_asked_behind(asked: bool, act: Act) -> bool
    ensures { result ≡ (asked && not (asks act)) }
{
    asked && !asks(act)
}

/// What is due behind a flit of a cache, of which this was.
fn due_behind(asked: bool, act: Act, due: Due) -> Due
    ensures { result ≡ (if asked then left_over else due_after act due) }
{
    if asked {
        LEFT_OVER
    } else {
        due_after(act, due)
    }
}

impl Begun {
    /// Takes a flit of a cache that isn't from before.
    pub(crate) fn take_sent(&mut self, flit: CacheFlit) -> Result<(), Reason>
        requires { flit.agent.0 < 32 }
        ensures taken { is_ok result ≡ takes_sent (begun self.old) flit }
        ensures after { OnOk result (begun self.new
            ≡ kept_behind (behind_sent (begun self.old) flit) (shown_then (begun self.old) (Up flit))) }
        ensures why { IfErr result (λ reason. sent_refusal (begun self.old) flit ≡ Some reason) }
        ensures kept { OnErr result (self.new ≡ self.old) }
    {
        match self.left_by(flit) {
            None => Err(Reason::NotSent),
            Some(own) => self.leave(flit, own),
        }
    }

    /// Takes it where it leaves these copies, if they go with the others'.
    fn leave(&mut self, flit: CacheFlit, own: Copies) -> Result<(), Reason>
        requires low { flit.agent.0 < 32 }
        requires own { (h : HeldOf) → members own h ≡ sent_begun (begun self.old) flit h }
        requires sent { may_send (begun self.old) flit ≡ true }
        ensures taken { is_ok result ≡ takes_sent (begun self.old) flit }
        ensures after { OnOk result (begun self.new
            ≡ kept_behind (behind_sent (begun self.old) flit) (shown_then (begun self.old) (Up flit))) }
        ensures why { IfErr result (λ reason. sent_refusal (begun self.old) flit ≡ Some reason) }
        ensures kept { OnErr result (self.new ≡ self.old) }
    {
        let sure = self.is_sure_sent(flit, own);
        let apart = apart_from(sure, own);
        let others = others_may(tells_words(flit.act), &self.may);
        if !stands(flit.agent.0, apart, &self.sure, &others) {
            return Err(Reason::OtherCopy);
        }
        let may = each_left(apart, &self.sure, &others);
        self.move_to(flit, own, sure, may);
        self.settle(flit.agent.0, issuer_of(flit));
        Ok(())
    }

    /// What may be due of the flit's agent as it is sent.
    fn due_in(&self, flit: CacheFlit) -> Due
        requires { flit.agent.0 < 32 }
        ensures { result ≡ due_in (begun self.now) flit }
    {
        let at = usize::from(flit.agent.0);
        let asked = flag_at(&self.asked, at);
        if asked {
            act_due(flit.act)
        } else {
            code_at(&self.due, at).due()
        }
    }

    /// All that the copy may be as the flit is sent.
    fn may_in(&self, flit: CacheFlit) -> Copies
        requires { flit.agent.0 < 32 }
        ensures { (h : HeldOf) → members result h ≡ may_in (begun self.now) flit h }
    {
        let at = usize::from(flit.agent.0);
        let may = copies_at(&self.may, at);
        let sure = self.sure[at];
        if sure {
            may
        } else {
            may.hidden(self.stores, self.due_in(flit))
        }
    }

    /// The flit beside what is kept of the line, of a copy whose words would be these.
    fn sent_with(&self, flit: CacheFlit, words: &Option<Data>) -> Sent
        requires low { flit.agent.0 < 32 }
        requires placed { is_placed flit.act ≡ true }
        ensures { result ≡ sent_with (begun self.now) flit words.now }
    {
        let snooped = self.snooped_of(flit.agent.0);
        let goes = lets_go(snooped);
        let due = self.due_in(flit);
        let known = home_words(words);
        let none = none_known();
        let home = fits_by(flit, &known);
        let news = fits_by(flit, &none);
        Sent {
            stores: self.stores,
            act: flit.act,
            goes,
            due,
            home,
            news,
        }
    }

    /// The copies that the flit leaves of those that may have sent it.
    fn sent(&self, flit: CacheFlit) -> Copies
        requires low { flit.agent.0 < 32 }
        requires placed { is_placed flit.act ≡ true }
        ensures { (h : HeldOf) → members result h ≡ sent_begun (begun self.now) flit h }
    {
        let may = self.may_in(flit);
        let home = Test::HomeCopy.copies();
        let known = self.sent_with(flit, &self.home);
        let unknown = self.sent_with(flit, &None);
        let with_home = Step::Sending(known).image(may.and(home));
        let with_others = Step::Sending(unknown).image(may.and(home.others()));
        with_home.or(with_others)
    }

    /// The copies that a flit of a cache leaves, where some copy sends it.
    fn left_by(&self, flit: CacheFlit) -> Option<Copies>
        requires { flit.agent.0 < 32 }
        ensures sent { is_some result ≡ may_send (begun self.now) flit }
        ensures left { IfSome result (λ left. (h : HeldOf) → members left h ≡ sent_begun (begun self.now) flit h) }
    {
        let snooped = self.snooped_of(flit.agent.0);
        if !allows(flit.act, snooped) {
            return None;
        }
        if !is_placed(flit.act) {
            return None;
        }
        let left = self.sent(flit);
        if Test::Each.any(left) {
            Some(left)
        } else {
            None
        }
    }

    /// Whether the copy is sure behind the flit, which leaves these.
    fn is_sure_sent(&self, flit: CacheFlit, own: Copies) -> bool
        requires low { flit.agent.0 < 32 }
        requires own { (h : HeldOf) → members own h ≡ sent_begun (begun self.now) flit h }
        ensures { result ≡ sure_sent (begun self.now) flit }
    {
        let sure = self.is_sure(flit.agent.0);
        let kept = is_kept(sure, flit.act);
        sure_behind(kept, own)
    }

    /// What is kept right behind the flit, which leaves these copies of its agent's and of the others'.
    fn move_to(&mut self, flit: CacheFlit, own: Copies, sure: bool, may: [Copies; 32])
        requires low { flit.agent.0 < 32 }
        requires own { (h : HeldOf) → members own h ≡ sent_begun (begun self.old) flit h }
        requires sure { sure ≡ sure_sent (begun self.old) flit }
        requires may { (n : ℕ) (h : HeldOf) → sets_of may n h ≡ left_beside ((begun self.old).sure n)
            (apart_sent (begun self.old) flit) (others_sent (begun self.old) flit n) h }
        ensures after { behind_of self.new ≡ behind_sent (begun self.old) flit }
        ensures shown { self.new.shown ≡ self.old.shown }
    {
        let at = usize::from(flit.agent.0);
        let due = self.due_in(flit);
        let was = flag_at(&self.asked, at);
        let asked = is_asked_behind(was, flit.act);
        let tells = tells_words(flit.act);
        self.home = home_then(tells, flit.shown, self.home);
        self.may = may;
        self.may[at] = own;
        self.sure[at] = sure;
        self.asked[at] = asked;
        self.due[at] = DueCode::encode(due_behind(asked, flit.act, due));
        self.snooped[at] = snooped_after(flit.act, self.snooped[at]);
        self.duty = duty_after(self.duty, flit.act);
    }
}
