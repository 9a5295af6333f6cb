//! The observer of one line whose flits are logged at the home: those of a cache where they are received, however late.

ghost use Rattle.std.specs.Prelude.{◌≡◌, ◌<◌, ◌&&◌, ◌||◌, ◌==◌, ℕ, IfErr, IfOk, OnErr, is_ok, not, true};
ghost use Rattle.chi_observer.specs.Lines.{is_reason, is_taken, shown_of, watched};
ghost use Rattle.chi_observer.specs.Rules.{needs_quiet};
ghost use Rattle.chi_observer.specs.Tables.{fits_issue};
ghost use Rattle.chi_observer.specs.Arriving.{issued_before, may_be_sent};
ghost use Rattle.chi_observer.specs.Arrivals.{acknowledged, again, all_acknowledged, answered_line, arrived, arriving_of, awaited, drifts, due_acknowledged, evicted, given, is_doubtful, is_fault_of, is_full, is_late_at, is_not_sent, is_sure, is_unlost_at, is_untaken, is_untaken_again, is_untaken_awaited, is_untaken_evicted, is_untaken_given, is_untaken_issue, is_untaken_line, is_untaken_played, is_untaken_requested, is_untaken_sent, is_untaken_told, issued, leaves_unsure, left_if, line_issued, line_takes, none_held, nothing_arrived, outcome, outcome_of, played, request_of, requested, sent_outcome, settled, sure_shown, surely_shown, told_given, told_if, with_due, with_own, with_told};
ghost use Rattle.chi_observer.specs.declared.flits.Flit.TheVariants.{Down, Up};

use crate::arriving::{Arriving, Bearing, Earlier, Held, Turn, is_timed, may_be_sent, timed_after};
use crate::doubts::supposed;
use crate::flits::{Act, CacheFlit, Due, Flit, Grant, HomeFlit, Stores};
use crate::kinds::Kind;
use crate::observer::{AgentSeen, Observer, Reason};
use crate::rules::{needs_moment, needs_quiet};
use crate::told::{Told, may_be_free, tells_dirty};
use chi_flit::{Data, State};

/// Why a line is set aside: what is on its way leaves open whether the flit is legal, or what it tells.
/// Source: `docs/OBSERVER.md`, "Seen at the home".
#[derive(Clone, Copy, Debug, PartialEq, Eq)]
pub enum Aside {
    /// A request came while it isn't known what the agent's last one was sent from.
    TwoRequests,
    /// A request was retried while it was held, and what it was held for came.
    Retried,
    /// The home completed a request before the write data that its agent sent first.
    EarlierData,
    /// What the home sent breaks this rule, but for what a request that is held may tell.
    HeldRequest(Reason),
    /// A request tells that a copy was clean which was thrown away as one that may have been stored to.
    Thrown,
    /// More is on its way than is counted.
    Uncounted,
}

/// Why a flit isn't taken. The observer stays as it was.
/// Source: `docs/OBSERVER.md`, "Seen at the home".
#[derive(Clone, Copy, Debug, PartialEq, Eq)]
pub enum Untaken {
    /// No legal run explains it.
    Fault(Reason),
    /// From here on the line can't be judged.
    SetAside(Aside),
}

/// What flits have told of one line in a log that is taken at the home.
/// Source: `docs/OBSERVER.md`, "Seen at the home".
#[derive(Clone, Debug, Drop, PartialEq, Eq)]
pub struct Arrivals {
    /// What they have told of copies, where a CompAck counts as sent with its completion, and a request that is held as
    /// not yet sent.
    pub seen: Observer,
    /// What is kept beside of each agent.
    pub agents: [Arriving; 32],
    /// How many CleanShared and ReadOnce of the line have come.
    pub timed: u32,
}

impl Arrivals {
    /// An observer of a line that no cache has a copy of, with no request open and nothing on its way, and whose memory
    /// has any words.
    /// Source: `docs/OBSERVER.md`, "Seen at the home".
    pub fn new() -> Arrivals
        ensures { arrived result ≡ nothing_arrived }
    {
        Arrivals {
            seen: Observer::new(Stores::Hidden),
            agents: [Arriving::nothing(); 32],
            timed: 0,
        }
    }

    /// Takes the next flit of the line. `Ok` exactly where the rules take it: a flit of a cache where stores, drops and
    /// what is on its way explain it, and one of the home where it is safe whatever is. Else the rule that it breaks,
    /// or why the line is to be set aside; and nothing changes.
    /// Source: `docs/OBSERVER.md`, "Seen at the home".
    pub fn take(&mut self, flit: Flit) -> Result<(), Untaken>
        ensures outcome { outcome_of result (arrived self.new) ≡ outcome (arrived self.old) flit }
        ensures kept { OnErr result (self.new ≡ self.old) }
        ensures untaken { IfErr result (λ why. is_untaken (arrived self.old) flit why ≡ true) }
    {
        if self.timed == u32::MAX {
            return Err(Untaken::SetAside(Aside::Uncounted));
        }
        match flit {
            Flit::Up(sent) => {
                if sent.agent.0 >= 32 {
                    return Err(Untaken::Fault(Reason::NoAgent));
                }
                self.receive(sent)
            }
            Flit::Down(given) => {
                if given.agent.0 >= 32 {
                    return Err(Untaken::Fault(Reason::NoAgent));
                }
                self.give(given)
            }
        }
    }

    /// Takes a flit of a cache.
    fn receive(&mut self, sent: CacheFlit) -> Result<(), Untaken>
        requires agent { sent.agent.0 < 32 }
        requires timed { self.now.timed < 4294967295 }
        ensures outcome { outcome_of result (arrived self.new)
            ≡ sent_outcome sent.act (arrived self.old) sent }
        ensures kept { OnErr result (self.new ≡ self.old) }
        ensures untaken { IfErr result
            (λ why. is_untaken_sent sent.act (arrived self.old) sent why ≡ true) }
    {
        match sent.act {
            Act::Request(kind) => self.receive_request(sent, kind),
            Act::Resend(_) => self.receive_again(sent),
            Act::CompAck => self.receive_acknowledgement(sent),
            Act::SnpResp(_) => self.receive_awaited(sent),
            Act::CopyBackWrData(_) => self.receive_awaited(sent),
            Act::NonCopyBackWrData => self.receive_awaited(sent),
            Act::Load(_) => Err(Untaken::Fault(Reason::NotJudged)),
            Act::Store(_) => Err(Untaken::Fault(Reason::NotJudged)),
        }
    }

    /// Takes a request with AllowRetry 1.
    fn receive_request(&mut self, sent: CacheFlit, kind: Kind) -> Result<(), Untaken>
        requires agent { sent.agent.0 < 32 }
        requires timed { self.now.timed < 4294967295 }
        ensures outcome { outcome_of result (arrived self.new)
            ≡ requested (arrived self.old) sent kind }
        ensures kept { OnErr result (self.new ≡ self.old) }
        ensures untaken { IfErr result
            (λ why. is_untaken_requested (arrived self.old) sent kind why ≡ true) }
    {
        let at = usize::from(sent.agent.0);
        let own = self.agents[at];
        match own.turn_of(self.seen.agents[at], kind) {
            Turn::Never => Err(Untaken::Fault(Reason::NotSent)),
            Turn::Unknown => Err(Untaken::SetAside(Aside::TwoRequests)),
            Turn::Later => {
                self.put(at, own.holding(Held::Open(kind)));
                Ok(())
            }
            Turn::Now => {
                let seen = copy_of(&self.seen);
                self.issue(seen, sent, kind, own.earlier, false)
            }
        }
    }

    /// Takes a request that is sent again.
    fn receive_again(&mut self, sent: CacheFlit) -> Result<(), Untaken>
        requires { sent.agent.0 < 32 }
        ensures outcome { outcome_of result (arrived self.new) ≡ again (arrived self.old) sent }
        ensures kept { OnErr result (self.new ≡ self.old) }
        ensures untaken { IfErr result
            (λ why. is_untaken_again (arrived self.old) sent why ≡ true) }
    {
        let at = usize::from(sent.agent.0);
        let own = self.agents[at];
        match own.held {
            Held::Open(_) => Err(Untaken::Fault(Reason::NotSent)),
            Held::Retried => Err(Untaken::SetAside(Aside::TwoRequests)),
            Held::Evicted => Err(Untaken::SetAside(Aside::TwoRequests)),
            Held::Nothing => {
                if let Err(reason) = self.seen.take(Flit::Up(sent)) {
                    return Err(Untaken::Fault(reason));
                }
                self.put(at, own.resent());
                Ok(())
            }
        }
    }

    /// Takes a CompAck.
    fn receive_acknowledgement(&mut self, sent: CacheFlit) -> Result<(), Untaken>
        requires { sent.agent.0 < 32 }
        ensures outcome { outcome_of result (arrived self.new)
            ≡ acknowledged (arrived self.old) sent }
        ensures kept { OnErr result (self.new ≡ self.old) }
        ensures untaken { IfErr result (λ why. is_not_sent why ≡ true) }
    {
        let at = usize::from(sent.agent.0);
        let own = self.agents[at];
        if own.acks == 0 {
            return Err(Untaken::Fault(Reason::NotSent));
        }
        self.put(at, own.acknowledged());
        Ok(())
    }

    /// Takes an answer or write data, and the request that was held for them.
    fn receive_awaited(&mut self, sent: CacheFlit) -> Result<(), Untaken>
        requires agent { sent.agent.0 < 32 }
        requires timed { self.now.timed < 4294967295 }
        ensures outcome { outcome_of result (arrived self.new) ≡ awaited (arrived self.old) sent }
        ensures kept { OnErr result (self.new ≡ self.old) }
        ensures untaken { IfErr result
            (λ why. is_untaken_awaited (arrived self.old) sent why ≡ true) }
    {
        let at = usize::from(sent.agent.0);
        let own = self.agents[at];
        let before = self.settled(sent);
        let earlier = own
            .earlier_of(sent.act, before.agents[at].snooped)
            .after(sent.act, before.agents[at]);
        match self.answered(before, sent) {
            Err(why) => Err(why),
            Ok(seen) => self.play(own.held, seen, sent, earlier),
        }
    }

    /// Keeps what is told behind an answer or write data, and judges the request that was held for them.
    fn play(
        &mut self,
        held: Held,
        seen: Observer,
        sent: CacheFlit,
        earlier: Earlier,
    ) -> Result<(), Untaken>
        requires agent { sent.agent.0 < 32 }
        requires timed { self.now.timed < 4294967295 }
        ensures outcome { outcome_of result (arrived self.new)
            ≡ played held (arrived self.old) (watched seen) sent earlier }
        ensures kept { OnErr result (self.new ≡ self.old) }
        ensures untaken { IfErr result
            (λ why. is_untaken_played held (watched seen) sent earlier why ≡ true) }
    {
        let at = usize::from(sent.agent.0);
        let own = self.agents[at];
        match held {
            Held::Retried => Err(Untaken::SetAside(Aside::Retried)),
            Held::Nothing => {
                self.seen = seen;
                self.put(at, own.told(earlier));
                Ok(())
            }
            Held::Open(kind) => {
                let request = request_of(sent, kind);
                self.issue(seen, request, kind, earlier, is_timed(kind))
            }
            Held::Evicted => self.evict(seen, sent, earlier),
        }
    }

    /// Judges an Evict that was completed meanwhile.
    fn evict(&mut self, seen: Observer, sent: CacheFlit, earlier: Earlier) -> Result<(), Untaken>
        requires agent { sent.agent.0 < 32 }
        requires timed { self.now.timed < 4294967295 }
        ensures outcome { outcome_of result (arrived self.new)
            ≡ evicted (arrived self.old) (watched seen) sent earlier }
        ensures kept { OnErr result (self.new ≡ self.old) }
        ensures untaken { IfErr result
            (λ why. is_untaken_evicted (watched seen) sent earlier why ≡ true) }
    {
        let at = usize::from(sent.agent.0);
        let request = request_of(sent, Kind::Evict);
        match self.issue(seen, request, Kind::Evict, earlier, false) {
            Err(why) => Err(why),
            Ok(()) => {
                set_due(&mut self.seen, at, Due::Nothing);
                Ok(())
            }
        }
    }

    /// What was told before an answer or write data, where these tell whether the copy was stored to.
    fn settled(&self, sent: CacheFlit) -> Observer
        requires { sent.agent.0 < 32 }
        ensures { watched result ≡ settled (arrived self.now) sent }
    {
        let at = usize::from(sent.agent.0);
        let own = self.agents[at];
        let mut seen = copy_of(&self.seen);
        let clean = own.is_clean_by(sent.act, seen.agents[at].snooped);
        seen.current = seen.current || (own.current || clean);
        let told = told_if(clean, seen.agents[at].told);
        set_told(&mut seen, at, told);
        seen
    }

    /// What is told behind an answer or write data, if they are sent by some copy.
    fn answered(&self, before: Observer, sent: CacheFlit) -> Result<Observer, Untaken>
        requires { sent.agent.0 < 32 }
        ensures taken { is_ok result ≡ is_taken (watched before) (Up sent) }
        ensures after { IfOk result
            (λ seen. watched seen ≡ answered_line (arrived self.now) (watched before) sent) }
        ensures untaken { IfErr result
            (λ why. is_fault_of (watched before) (Up sent) why ≡ true) }
    {
        let at = usize::from(sent.agent.0);
        let mut seen = before;
        if let Err(reason) = seen.take(Flit::Up(sent)) {
            return Err(Untaken::Fault(reason));
        }
        let shown = surely_shown(&seen, &self.seen.shown, &self.agents, at);
        seen.shown = shown;
        Ok(seen)
    }

    /// Judges a request, where this is told before it.
    fn issue(
        &mut self,
        seen: Observer,
        request: CacheFlit,
        kind: Kind,
        earlier: Earlier,
        delayed: bool,
    ) -> Result<(), Untaken>
        requires agent { request.agent.0 < 32 }
        requires timed { self.now.timed < 4294967295 }
        ensures outcome { outcome_of result (arrived self.new)
            ≡ issued (arrived self.old) (watched seen) request kind earlier delayed }
        ensures kept { OnErr result (self.new ≡ self.old) }
        ensures untaken { IfErr result
            (λ why. is_untaken_issue (watched seen) request kind earlier why ≡ true) }
    {
        let at = usize::from(request.agent.0);
        let own = self.agents[at];
        let unsure = leaves_unsure(earlier, kind, seen.agents[at].told);
        if is_unlost_at(&seen, at, kind, earlier) {
            return Err(Untaken::SetAside(Aside::Thrown));
        }
        match issued_on(seen, request, kind, earlier) {
            Err(reason) => Err(Untaken::Fault(reason)),
            Ok(behind) => {
                self.seen = behind;
                self.timed = timed_after(self.timed, kind);
                self.put(at, own.issued(self.timed, unsure, delayed));
                Ok(())
            }
        }
    }

    /// Takes a flit of the home.
    fn give(&mut self, flit: HomeFlit) -> Result<(), Untaken>
        requires { flit.agent.0 < 32 }
        ensures outcome { outcome_of result (arrived self.new) ≡ given (arrived self.old) flit }
        ensures kept { OnErr result (self.new ≡ self.old) }
        ensures untaken { IfErr result
            (λ why. is_untaken_given (arrived self.old) flit why ≡ true) }
    {
        let at = usize::from(flit.agent.0);
        let own = self.agents[at];
        match own.bearing_of(self.seen.agents[at], flit.grant) {
            Bearing::Unknown => Err(Untaken::SetAside(Aside::EarlierData)),
            Bearing::Retries => {
                self.put(at, own.holding(Held::Retried));
                Ok(())
            }
            Bearing::Ends => {
                self.put(at, own.holding(Held::Evicted));
                Ok(())
            }
            Bearing::Told => self.give_told(flit),
        }
    }

    /// Takes a flit of the home that bears on no request that is held.
    fn give_told(&mut self, flit: HomeFlit) -> Result<(), Untaken>
        requires { flit.agent.0 < 32 }
        ensures outcome { outcome_of result (arrived self.new)
            ≡ told_given (arrived self.old) flit }
        ensures kept { OnErr result (self.new ≡ self.old) }
        ensures untaken { IfErr result
            (λ why. is_untaken_told (arrived self.old) flit why ≡ true) }
    {
        let at = usize::from(flit.agent.0);
        let own = self.agents[at];
        if is_full(own.acks) {
            return Err(Untaken::SetAside(Aside::Uncounted));
        }
        if is_early(flit.grant, &self.agents) {
            return Err(Untaken::Fault(Reason::Busy));
        }
        if let Err(reason) = self.seen.take(Flit::Down(flit)) {
            return Err(self.untaken(flit, reason));
        }
        let agent = self.seen.agents[at];
        let current = self.seen.current;
        self.seen.current = stays_last(current, agent, flit.grant);
        set_due(&mut self.seen, at, due_acknowledged(agent.due));
        self.put(at, own.granted(agent, flit.grant, self.timed, current));
        Ok(())
    }

    /// Why a flit of the home isn't taken that breaks this rule: one that it breaks whatever requests that are held tell, or
    /// the line is set aside for theirs.
    fn untaken(&self, flit: HomeFlit, reason: Reason) -> Untaken
        requires agent { flit.agent.0 < 32 }
        requires reason { is_reason (watched self.now.seen) (Down flit) reason ≡ true }
        ensures outcome { outcome_of (Err result) (arrived self.now)
            ≡ left_if (is_doubtful (arrived self.now) flit) }
        ensures untaken { is_untaken_line (arrived self.now) flit result ≡ true }
    {
        if !self.is_late_at(flit) {
            return Untaken::Fault(reason);
        }
        let mut told = supposed(&self.seen, &self.agents);
        match told.take(Flit::Down(flit)) {
            Ok(()) => Untaken::SetAside(Aside::HeldRequest(reason)),
            Err(certain) => Untaken::Fault(certain),
        }
    }

    /// Whether a request that is held bears on what the home may send: one of the line, or a moment may have been while the
    /// agent's own was.
    fn is_late_at(&self, flit: HomeFlit) -> bool
        requires { flit.agent.0 < 32 }
        ensures { result ≡ is_late_at (arrived self.now) flit }
    {
        let at = usize::from(flit.agent.0);
        let missed = self.agents[at].delayed && needs_moment(flit.grant, self.seen.agents[at].due);
        !is_none_held(&self.agents) || missed
    }

    /// Sets what is kept of an agent.
    fn put(&mut self, at: usize, own: Arriving)
        requires { at < 32 }
        ensures { arrived self.new ≡ with_own (arrived self.old) at own }
    {
        self.agents[at] = own;
    }
}

/// The same observer.
fn copy_of(seen: &Observer) -> Observer
    ensures { result ≡ seen.now }
{
    Observer {
        stores: seen.stores,
        agents: seen.agents,
        home: seen.home,
        current: seen.current,
        duty: seen.duty,
        thrown: seen.thrown,
        waits: seen.waits,
        shown: seen.shown,
    }
}

/// The request of a kind, of the flit's agent.
fn request_of(sent: CacheFlit, kind: Kind) -> CacheFlit
    ensures { result ≡ request_of sent kind }
{
    let shown = sent.shown;
    CacheFlit {
        agent: sent.agent,
        act: Act::Request(kind),
        shown,
    }
}

/// What is told behind a request, if some copy sends it: from what the copy may be, or from what it may have been before
/// the last answers.
fn issued_on(
    seen: Observer,
    request: CacheFlit,
    kind: Kind,
    earlier: Earlier,
) -> Result<Observer, Reason>
    requires { request.agent.0 < 32 }
    ensures taken { is_ok result ≡ line_takes (watched seen) request kind earlier }
    ensures after { IfOk result
        (λ behind. watched behind ≡ line_issued (watched seen) request kind earlier) }
    ensures reason { IfErr result
        (λ reason. is_reason (watched seen) (Up request) reason ≡ true) }
{
    let at = usize::from(request.agent.0);
    let mut behind = seen;
    if earlier.may_issue(kind) && !behind.agents[at].told.may_issue(kind, true) {
        set_due(&mut behind, at, Due::Completion(kind));
        return Ok(behind);
    }
    if let Err(reason) = behind.take(Flit::Up(request)) {
        return Err(reason);
    }
    Ok(behind)
}

/// Whether a request that was sent before the last answers tells that no value is lost which seemed to be.
fn is_unlost_at(seen: &Observer, at: usize, kind: Kind, earlier: Earlier) -> bool
    requires { at < 32 }
    ensures { result ≡ is_unlost_at (watched seen.now) at kind earlier }
{
    is_from_before(earlier, kind, seen.agents[at].told) && earlier.is_unlost(kind)
}

/// Whether a request can only have been sent before the last answers.
fn is_from_before(earlier: Earlier, kind: Kind, told: Told) -> bool
    ensures { result ≡ (issued_before earlier kind && not (fits_issue kind true told)) }
{
    earlier.may_issue(kind) && !told.may_issue(kind, true)
}

/// Whether a copy-back may come from a dirty copy before the last answer, or from one that was clean and is stored to since.
fn leaves_unsure(earlier: Earlier, kind: Kind, told: Told) -> bool
    ensures { result ≡ leaves_unsure earlier kind told }
{
    earlier.may_issue(kind) && (tells_dirty(Act::Request(kind)) && told.may_write(State::UC))
}

/// Sets what is due of an agent.
fn set_due(seen: &mut Observer, at: usize, due: Due)
    requires { at < 32 }
    ensures { watched seen.new ≡ with_due (watched seen.old) at due }
{
    seen.agents[at].due = due;
}

/// Sets what is told of an agent's copy.
fn set_told(seen: &mut Observer, at: usize, told: Told)
    requires { at < 32 }
    ensures { watched seen.new ≡ with_told (watched seen.old) at told }
{
    seen.agents[at].told = told;
}

/// What is told of a copy that may be clean, where it is.
fn told_if(clean: bool, told: Told) -> Told
    ensures { result ≡ told_if clean told }
{
    if clean { Told::UC } else { told }
}

/// A CompAck counts as sent with its completion.
fn due_acknowledged(due: Due) -> Due
    ensures { result ≡ due_acknowledged due }
{
    match due {
        Due::Acknowledgement => Due::Nothing,
        _ => due,
    }
}

/// Whether the value last stored is the home's right behind a flit of the home that leaves the agent so.
fn stays_last(current: bool, agent: AgentSeen, grant: Grant) -> bool
    ensures { result ≡ (current && not (may_be_sent agent.due agent.told grant)) }
{
    current && !may_be_sent(agent.due, agent.told, grant)
}

/// Whether no CompAck more is counted.
fn is_full(acks: u8) -> bool
    ensures { result ≡ is_full acks }
{
    acks >= u8::MAX
}

/// Whether a flit of the home is a snoop, and some CompAck is on its way.
fn is_early(grant: Grant, agents: &[Arriving; 32]) -> bool
    ensures { result ≡ (needs_quiet grant && not (all_acknowledged agents.now)) }
{
    needs_quiet(grant) && !is_acknowledged(agents)
}

/// Whether no agent's CompAck is on its way.
fn is_acknowledged(agents: &[Arriving; 32]) -> bool
    ensures { result ≡ all_acknowledged agents.now }
{
    let mut none = true;
    for n in 0..32 {
        none = agents[n].acks == 0 && none;
    }
    none
}

/// Whether no agent's request is held.
fn is_none_held(agents: &[Arriving; 32]) -> bool
    ensures { result ≡ none_held agents.now }
{
    let mut none = true;
    for n in 0..32 {
        none = agents[n].holds_none() && none;
    }
    none
}

/// Of each agent whose CleanShared or ReadOnce is open: whether there was its moment behind an answer or write data of the
/// agent `at`. What was asked for before that request came may have been sent before it was.
fn surely_shown(seen: &Observer, was: &[bool; 32], agents: &[Arriving; 32], at: usize) -> [bool; 32]
    requires { at < 32 }
    ensures { (n : ℕ) → shown_of result n
        ≡ surely_shown (watched seen.now) (shown_of was.now) (arriving_of agents.now) at n }
{
    if !seen.agents[at].drifts() {
        let shown = seen.shown;
        return shown;
    }
    each_sure(&seen.shown, was, agents, at)
}

/// The same where the agent's copy may have been stored to since.
fn each_sure(shown: &[bool; 32], was: &[bool; 32], agents: &[Arriving; 32], at: usize) -> [bool; 32]
    requires { at < 32 }
    ensures { (n : ℕ) → shown_of result n
        ≡ sure_shown true (shown_of shown.now) (shown_of was.now) (arriving_of agents.now) at n }
{
    let asked = agents[at].asked;
    let mut sure = [false; 32];
    for n in 0..32 {
        sure[n] = is_still(shown[n], was[n], n == at, agents[n].since, asked);
    }
    sure
}

/// Whether a moment that is shown behind a flit that was asked for when so many requests had come is one of a request that
/// came with so many.
fn is_still(shown: bool, was: bool, own: bool, since: u32, asked: u32) -> bool
    ensures { result ≡ (shown && is_sure true was own since asked) }
{
    shown && (was || (own || since <= asked))
}

impl AgentSeen {
    /// Whether the copy may have been stored to since it was told.
    fn drifts(self) -> bool
        ensures { result ≡ drifts self }
    {
        may_be_free(self.due) && self.told.is_unique()
    }
}
