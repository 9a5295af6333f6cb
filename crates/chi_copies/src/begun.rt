//! A line whose trace begins in the middle: of each agent, what it may have, and what may be open from before.

ghost use Rattle.std.specs.Prelude.{◌≡◌, ◌<◌, ◌||◌, ℕ, IfErr, OnErr, OnOk, Some, if◌then◌else◌, is_ok};
ghost use Rattle.chi_observer.specs.declared.flits.Due.TheVariants.{Nothing};
ghost use Rattle.chi_observer.specs.declared.flits.Flit.TheVariants.{Down, Up};
ghost use Rattle.chi_copies.specs.Begun.{act_left_over, begun_after, begun_with, forgetting, forgotten, grant_left_over, is_left_over, kept_behind, left_over, may_be_left, nothing_begun, takes_begun};
ghost use Rattle.chi_copies.specs.Copies.{Held as HeldOf};
ghost use Rattle.chi_copies.specs.Sets.{members};
ghost use Rattle.chi_copies.specs.BegunLines.{begun, behind_of, dues_of, flags_of, shown_beside};
ghost use Rattle.chi_copies.specs.Dues.{due_is};
ghost use Rattle.chi_copies.specs.BegunRefusals.{begun_refusal};

use crate::begun_moments::{code_at, copies_at, flag_at, may_then, shown_then, sure_then};
use crate::certain::some_apart;
use crate::copies::Copies;
use crate::dues::{DueCode, NOTHING_DUE};
use crate::line::{Reason, others_may};
use chi_flit::{Agent, Data};
use chi_observer::{Act, CacheFlit, Due, Flit, Grant, HomeFlit, Kind, Snoop, Stores};

/// What flits have told of one line, where some went before that nobody saw.
/// Source: `docs/COPIES.md`, "A trace that begins in the middle".
#[derive(Clone, Debug, Drop, PartialEq, Eq)]
pub struct Begun {
    /// Whether each store of a processor is told of.
    pub stores: Stores,
    /// What is due next of each agent's request.
    pub due: [DueCode; 32],
    /// The snoop that each agent hasn't answered.
    pub snooped: [Option<Snoop>; 32],
    /// Whether the home may have dirty data that it must write or pass on.
    pub duty: bool,
    /// What each agent's copy may be; of one that isn't sure, right behind the last flit that told of it.
    pub may: [Copies; 32],
    /// The words of the home's own copy, once a flit has shown them.
    pub home: Option<Data>,
    /// Whether each agent's copy is sure: the home has to be safe for each of them. Of one that isn't, the home knew
    /// which it was.
    pub sure: [bool; 32],
    /// Whether a request of each agent may be open from before.
    pub asked: [bool; 32],
    /// Whether a snoop of each agent may be unanswered from before.
    pub left: [bool; 32],
    /// Whether there may have been the moment that each agent's CleanShared or ReadOnce awaits.
    pub shown: [bool; 32],
}

/// What stands for a request from before: it hinders nothing.
pub(crate) const LEFT_OVER: Due = Due::Completion(Kind::MakeInvalid);

/// The byte of what stands for a request from before.
const LEFT_OVER_CODE: DueCode = DueCode(25);

/// Each copy that is neither cancelled nor stored to.
const PLAIN: Copies = Copies { bits: 0x0000_007f };

/// Each copy that was not stored to, cancelled or not.
const UNSTORED: Copies = Copies { bits: 0x0000_3fff };

/// Whether a flit of a cache may be due of a request or a snoop from before.
fn is_act_left_over(asked: bool, left: bool, act: Act) -> bool
    ensures { result ≡ act_left_over asked left act }
{
    match act {
        Act::CompAck | Act::CopyBackWrData(_) | Act::NonCopyBackWrData => asked,
        Act::SnpResp(_) => left,
        Act::Request(_) | Act::Resend(_) | Act::Load(_) | Act::Store(_) => false,
    }
}

/// Whether a flit of the home may be due of a request from before.
fn is_grant_left_over(asked: bool, grant: Grant) -> bool
    ensures { result ≡ grant_left_over asked grant }
{
    asked && !matches!(grant, Grant::Snp(_))
}

/// What the copy of an agent may be behind a flit from before, by what is due of its request.
fn may_be_left(due: Due) -> Copies
    ensures { (h : HeldOf) → members result h ≡ may_be_left due h }
{
    match due {
        Due::Resending(_) => UNSTORED,
        Due::Nothing
        | Due::Completion(_)
        | Due::SureCompletion(_)
        | Due::WriteData(_)
        | Due::Acknowledgement => PLAIN,
    }
}

/// What stands for the request of an agent of which one may be open from before.
fn code_before(asked: bool) -> DueCode
    ensures { due_is result ≡ (if asked then left_over else Nothing) }
{
    if asked { LEFT_OVER_CODE } else { NOTHING_DUE }
}

/// What stands for the requests of the agents of which one may be open from before.
fn due_before(asked: &[bool; 32]) -> [DueCode; 32]
    ensures { (n : ℕ) → dues_of result n ≡ (if flags_of asked.now n then left_over else Nothing) }
{
    let mut due = [LEFT_OVER_CODE; 32];
    for n in 0..32 {
        due[n] = code_before(flag_at(asked, n));
    }
    due
}

impl Begun {
    /// A line of which nothing is known: each copy, request, snoop and word may be any.
    /// Source: `docs/COPIES.md`, "A trace that begins in the middle".
    pub fn new(stores: Stores) -> Begun
        ensures { begun result ≡ nothing_begun stores }
    {
        Begun::with_open(stores, &[true; 32], &[true; 32])
    }

    /// A line of which nothing is known but what may be open from before: requests of the agents of `asked`, and snoops of those of
    /// `left`.
    /// Source: `docs/COPIES.md`, "A line that comes back".
    pub fn with_open(stores: Stores, asked: &[bool; 32], left: &[bool; 32]) -> Begun
        ensures { begun result ≡ begun_with stores (flags_of asked.now) (flags_of left.now) }
    {
        Begun {
            stores,
            due: due_before(asked),
            snooped: [None; 32],
            duty: true,
            may: [PLAIN; 32],
            home: None,
            sure: [false; 32],
            asked: *asked,
            left: *left,
            shown: [true; 32],
        }
    }

    /// A flit of the agent, or to it, that is due of a request or a snoop from before may have been of this line: its copy
    /// may be any that goes with the others, and the words, the duty and the moments are unknown again. Nothing changes if
    /// none can be due, or the agent's number is 32 or more.
    /// Source: `docs/COPIES.md`, "A trace that begins in the middle".
    pub fn forget(&mut self, agent: Agent)
        ensures { begun self.new ≡ forgetting agent.0 (begun self.old) }
    {
        if agent.0 >= 32 {
            return;
        }
        if self.may_be_left_over(agent.0) {
            self.forget_at(agent.0);
        }
    }

    /// Takes the next flit of the line. `Ok` exactly where the rules take it from something that the line may be. Else the
    /// first rule that it breaks, and nothing changes.
    /// Source: `docs/COPIES.md`, "A trace that begins in the middle".
    pub fn take(&mut self, flit: Flit) -> Result<(), Reason>
        ensures taken { is_ok result ≡ takes_begun (begun self.old) flit }
        ensures after { OnOk result (begun self.new ≡ begun_after (begun self.old) flit) }
        ensures why { IfErr result (λ reason. begun_refusal (begun self.old) flit ≡ Some reason) }
        ensures kept { OnErr result (self.new ≡ self.old) }
    {
        match flit {
            Flit::Up(sent) => self.take_cache(sent),
            Flit::Down(given) => self.take_home(given),
        }
    }

    /// Takes a flit of a cache.
    fn take_cache(&mut self, flit: CacheFlit) -> Result<(), Reason>
        ensures taken { is_ok result ≡ takes_begun (begun self.old) (Up flit) }
        ensures after { OnOk result (begun self.new ≡ begun_after (begun self.old) (Up flit)) }
        ensures why { IfErr result (λ reason. begun_refusal (begun self.old) (Up flit) ≡ Some reason) }
        ensures kept { OnErr result (self.new ≡ self.old) }
    {
        if flit.agent.0 >= 32 {
            return Err(Reason::NoAgent);
        }
        if self.is_sent_before(flit) {
            self.forget_at(flit.agent.0);
            return Ok(());
        }
        self.take_sent(flit)
    }

    /// Takes a flit of the home.
    fn take_home(&mut self, flit: HomeFlit) -> Result<(), Reason>
        ensures taken { is_ok result ≡ takes_begun (begun self.old) (Down flit) }
        ensures after { OnOk result (begun self.new ≡ begun_after (begun self.old) (Down flit)) }
        ensures why { IfErr result (λ reason. begun_refusal (begun self.old) (Down flit) ≡ Some reason) }
        ensures kept { OnErr result (self.new ≡ self.old) }
    {
        if flit.agent.0 >= 32 {
            return Err(Reason::NoAgent);
        }
        if self.is_given_before(flit) {
            self.forget_at(flit.agent.0);
            return Ok(());
        }
        self.take_given(flit)
    }

    /// Whether a flit may be due of a request or a snoop of the agent from before.
    fn may_be_left_over(&self, agent: u8) -> bool
        requires { agent < 32 }
        ensures { result ≡ ((begun self.now).asked agent || (begun self.now).snooped agent) }
    {
        let asked = flag_at(&self.asked, usize::from(agent));
        let left = flag_at(&self.left, usize::from(agent));
        asked || left
    }

    /// Whether the flit of a cache may be due of a request or a snoop from before.
    fn is_sent_before(&self, flit: CacheFlit) -> bool
        requires { flit.agent.0 < 32 }
        ensures { result ≡ is_left_over (begun self.now) (Up flit) }
    {
        let asked = flag_at(&self.asked, usize::from(flit.agent.0));
        let left = flag_at(&self.left, usize::from(flit.agent.0));
        is_act_left_over(asked, left, flit.act)
    }

    /// Whether the flit of the home may be due of a request from before.
    fn is_given_before(&self, flit: HomeFlit) -> bool
        requires { flit.agent.0 < 32 }
        ensures { result ≡ is_left_over (begun self.now) (Down flit) }
    {
        let asked = flag_at(&self.asked, usize::from(flit.agent.0));
        is_grant_left_over(asked, flit.grant)
    }

    /// What is due next of an agent's request.
    pub(crate) fn due_of(&self, agent: u8) -> Due
        requires { agent < 32 }
        ensures { result ≡ (begun self.now).seen.public.due agent }
    {
        code_at(&self.due, usize::from(agent)).due()
    }

    /// The snoop that an agent hasn't answered.
    pub(crate) fn snooped_of(&self, agent: u8) -> Option<Snoop>
        requires { agent < 32 }
        ensures { result ≡ (begun self.now).seen.public.snooped agent }
    {
        self.snooped[usize::from(agent)]
    }

    /// What an agent's copy may be.
    pub(crate) fn may_of(&self, agent: u8) -> Copies
        requires { agent < 32 }
        ensures { (h : HeldOf) → members result h ≡ (begun self.now).seen.may agent h }
    {
        copies_at(&self.may, usize::from(agent))
    }

    /// Whether an agent's copy is sure.
    pub(crate) fn is_sure(&self, agent: u8) -> bool
        requires { agent < 32 }
        ensures { result ≡ (begun self.now).sure agent }
    {
        self.sure[usize::from(agent)]
    }

    /// What is kept behind a flit of the agent, or to it, from before.
    fn forget_at(&mut self, agent: u8)
        requires { agent < 32 }
        ensures { begun self.new ≡ forgotten agent (begun self.old) }
    {
        let at = usize::from(agent);
        let left = may_be_left(code_at(&self.due, at).due());
        let shown = others_may(true, &self.may);
        let apart = some_apart(agent, &self.sure, &shown);
        self.may = shown;
        self.may[at] = left.and(apart.others());
        self.sure[at] = false;
        self.home = None;
        self.duty = true;
        self.shown = [true; 32];
    }

    /// What is kept behind hidden steps, and the moments, behind a flit of this agent, or to it; if it is a request, `issuer`
    /// is its agent.
    pub(crate) fn settle(&mut self, agent: u8, issuer: Option<u8>)
        requires { agent < 32 }
        ensures { begun self.new ≡ kept_behind (behind_of self.old)
            (λ k. shown_beside (behind_of self.old) agent issuer (flags_of self.old.shown k) k) }
    {
        let at = usize::from(agent);
        let sure = sure_then(&self.asked, &self.sure, &self.may);
        let may = may_then(self.stores, &self.due, &sure, &self.may);
        let mut sure_here = sure;
        let mut may_here = may;
        sure_here[at] = self.sure[at];
        may_here[at] = self.may[at];
        self.shown = shown_then(
            &self.asked,
            &self.due,
            &self.shown,
            issuer,
            &sure_here,
            &may_here,
        );
        self.sure = sure;
        self.may = may;
    }
}
