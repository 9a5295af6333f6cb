//! The observer of a line whose log is taken at the home.

ghost use Rattle.std.specs.Prelude.{◌≡◌, ◌<◌, ◌||◌, ◌==◌, ℕ, IfErr, OnErr, None, OnOk, Some, false, if◌then◌else◌, is_ok, nat_lt, not, true};
ghost use Rattle.chi_copies.specs.Arriving.{Member, acknowledged, answered, any_of, comes, data_come, forgot, is_shown, next_received, nothing_received, received_then, request_comes, requested, settled, takes_received};
ghost use Rattle.chi_copies.specs.Observed.{fits_home};
ghost use Rattle.chi_copies.specs.Worlds.{all_below};
ghost use Rattle.chi_copies.specs.ArrivingLines.{Beheld, Settles, agent_at, arriving_refusal, coming_of, gives_away, home_by, is_asking, is_taken, may_of, received, KnowsNothing};

use crate::line::{Reason, duty_after, home_words};
use crate::moves::Move;
use crate::received::{Ages, Coming};
use crate::rules::tells_words;
use crate::sends::fits_each;
use crate::side_tests::ReplyTest;
use crate::standing::Standing;
use crate::tests::Test;
use chi_flit::Data;
use chi_observer::{Act, CacheFlit};

/// What flits have told of one line, whose log is taken at its home.
/// Source: `docs/COPIES.md`, "Seen at the home".
#[derive(Clone, Debug, Drop, PartialEq, Eq)]
pub struct Arriving {
    /// What the home knows of each agent, and what that may be.
    pub agents: [Standing; 32],
    /// Whether the home has dirty data that it must write or pass on.
    pub duty: bool,
    /// The words of the home's own copy, where flits have shown them.
    pub home: Option<Data>,
}

/// Each agent takes unseen steps.
pub(crate) fn settle(agents: &mut [Standing; 32])
    ensures { (n : ℕ) → Settles (agent_at agents.old n) (agent_at agents.new n) }
{
    for n in 0..32 {
        agents[n] = agents[n].settled();
    }
}

/// Each agent but one behind a step.
pub(crate) fn behold(agents: &mut [Standing; 32], agent: u8, step: Move)
    ensures { (n : ℕ) → Beheld (n == agent) step (agent_at agents.old n) (agent_at agents.new n) }
{
    for n in 0..32 {
        agents[n] = agents[n].beheld(n == usize::from(agent), step);
    }
}

/// Whether an agent has some member without the value last stored on its way; the other agent counts as one that has.
fn stays(n: usize, agent: u8, standing: &Standing) -> bool
    ensures { result ≡ (n == agent || any_of (may_of standing.now) (λ k. not (comes k))) }
{
    n == usize::from(agent) || standing.any(ReplyTest::Stays, Test::Each.copies())
}

/// Whether each member of some other agent has the value last stored on its way.
fn is_elsewhere(agents: &[Standing; 32], agent: u8) -> bool
    ensures { result ≡ not (all_below 32 (λ m. m == agent || any_of (may_of (agent_at agents.now m)) (λ k. not (comes k)))) }
{
    let mut all = true;
    for n in 0..32 {
        all &= stays(n, agent, &agents[n]);
    }
    !all
}

/// Whether words are the home's own, or may be.
fn fits_words(home: &Option<Data>, words: &Data) -> bool
    ensures { result ≡ fits_home home.now words.now }
{
    let known = home_words(home);
    fits_each(&known, words)
}

/// Whether the home's words are known, and these.
fn is_shown(home: &Option<Data>, flit: &CacheFlit) -> bool
    ensures { result ≡ is_shown home.now flit.now }
{
    home.is_some() && fits_words(home, &flit.shown)
}

/// The home's words behind words of such ages.
fn home_behind(home: &Option<Data>, flit: &CacheFlit, ages: Ages) -> Option<Data>
    ensures { result ≡ home_by home.now flit.now ages }
{
    let new = ages.last || ages.past;
    if !(tells_words(flit.act) && new) || is_shown(home, flit) {
        *home
    } else if ages.own || ages.older {
        None
    } else {
        Some(flit.shown)
    }
}

impl Arriving {
    /// A line that no cache has a copy of, with nothing on its way, and whose memory has any words.
    /// Source: `docs/COPIES.md`, "Seen at the home".
    pub fn new() -> Arriving
        ensures facts { (n : ℕ) → KnowsNothing (received result) n }
        ensures duty { result.duty ≡ false }
        ensures home { result.home ≡ None }
        ensures may { (n : ℕ) → n < 32 → (m : Member) → (received result).may n m ≡ nothing_received.may n m }
    {
        Arriving {
            agents: [Standing::first(); 32],
            duty: false,
            home: None,
        }
    }

    /// Takes a flit of a cache, as it comes. `late` says that it is write data that follow a completion which a later
    /// one of its agent has overtaken. `Ok` exactly where what is known lets it come. Else nothing changes.
    /// Source: `docs/COPIES.md`, "Seen at the home".
    pub fn take(&mut self, flit: CacheFlit, late: bool) -> Result<(), Reason>
        ensures taken { is_ok result ≡ is_taken (received self.old) late flit }
        ensures after { OnOk result (received self.new ≡ next_received (received self.old) late flit) }
        ensures why { IfErr result (λ reason. arriving_refusal (received self.old) late flit ≡ Some reason) }
        ensures kept { OnErr result (self.new ≡ self.old) }
    {
        if flit.agent.0 >= 32 {
            return Err(Reason::NoAgent);
        }
        if !self.receive(flit, late) {
            return Err(Reason::NotSent);
        }
        self.settle();
        Ok(())
    }

    /// Each agent takes unseen steps.
    fn settle(&mut self)
        ensures { received self.new ≡ settled (received self.old) }
    {
        settle(&mut self.agents);
    }

    /// What is kept behind a flit of a cache, before unseen steps, if it may come.
    fn receive(&mut self, flit: CacheFlit, late: bool) -> bool
        requires { flit.agent.0 < 32 }
        ensures taken { result ≡ takes_received (received self.old) late flit }
        ensures after { result ≡ true → received self.new ≡ received_then flit.act (received self.old) late flit }
        ensures kept { result ≡ false → self.new ≡ self.old }
    {
        match flit.act {
            Act::Request(_) => self.request(flit),
            Act::Resend(_) => self.request(flit),
            Act::CompAck => self.acknowledge(flit.agent.0),
            Act::SnpResp(_) => self.reply(flit),
            Act::CopyBackWrData(_) => self.write(flit, late),
            Act::NonCopyBackWrData => self.write(flit, late),
            Act::Load(_) | Act::Store(_) => false,
        }
    }

    /// A request comes, if it may.
    fn request(&mut self, flit: CacheFlit) -> bool
        requires low { flit.agent.0 < 32 }
        requires asks { is_asking flit.act ≡ true }
        ensures taken { result ≡ request_comes (received self.old) flit }
        ensures after { result ≡ true → received self.new ≡ requested (received self.old) flit }
        ensures kept { result ≡ false → self.new ≡ self.old }
    {
        let at = usize::from(flit.agent.0);
        match self.agents[at].requested(flit.act) {
            None => false,
            Some(next) => {
                self.agents[at] = next;
                true
            }
        }
    }

    /// A CompAck comes, if one may.
    fn acknowledge(&mut self, agent: u8) -> bool
        requires { agent < 32 }
        ensures taken { result ≡ nat_lt 0 ((received self.old).acks agent) }
        ensures after { result ≡ true → received self.new ≡ acknowledged (received self.old) agent }
        ensures kept { result ≡ false → self.new ≡ self.old }
    {
        let at = usize::from(agent);
        if self.agents[at].facts.acks == 0 {
            return false;
        }
        self.agents[at] = self.agents[at].acknowledged();
        true
    }

    /// Write data come, if they may.
    fn write(&mut self, flit: CacheFlit, late: bool) -> bool
        requires low { flit.agent.0 < 32 }
        requires replies { gives_away flit.act ≡ true }
        ensures taken { result ≡ data_come (received self.old) late flit }
        ensures after { result ≡ true → received self.new
            ≡ (if late then forgot (received self.old) flit else answered (received self.old) flit) }
        ensures kept { result ≡ false → self.new ≡ self.old }
    {
        if late {
            self.forget(flit)
        } else {
            self.reply(flit)
        }
    }

    /// The reply that a flit is, beside what is kept.
    fn coming(&self, flit: &CacheFlit) -> Coming
        requires { flit.now.agent.0 < 32 }
        ensures { result ≡ coming_of (received self.now) flit.now }
    {
        Coming {
            act: flit.act,
            own: fits_words(&self.home, &flit.shown),
            last: !is_elsewhere(&self.agents, flit.agent.0),
        }
    }

    /// An answer or write data come, if they may.
    fn reply(&mut self, flit: CacheFlit) -> bool
        requires low { flit.agent.0 < 32 }
        requires replies { gives_away flit.act ≡ true }
        ensures taken { result ≡ data_come (received self.old) false flit }
        ensures after { result ≡ true → received self.new ≡ answered (received self.old) flit }
        ensures kept { result ≡ false → self.new ≡ self.old }
    {
        let at = usize::from(flit.agent.0);
        let coming = self.coming(&flit);
        match self.agents[at].answered(coming) {
            None => false,
            Some(next) => {
                let ages = self.agents[at].ages(coming);
                behold(&mut self.agents, flit.agent.0, Move::Passes(ages));
                self.agents[at] = next;
                self.duty = duty_after(self.duty, flit.act);
                self.home = home_behind(&self.home, &flit, ages);
                true
            }
        }
    }

    /// Write data come that a later completion has overtaken, if such may.
    fn forget(&mut self, flit: CacheFlit) -> bool
        requires { flit.agent.0 < 32 }
        ensures taken { result ≡ nat_lt 0 ((received self.old).overtaken flit.agent.0) }
        ensures after { result ≡ true → received self.new ≡ forgot (received self.old) flit }
        ensures kept { result ≡ false → self.new ≡ self.old }
    {
        let at = usize::from(flit.agent.0);
        if self.agents[at].facts.overtaken == 0 {
            return false;
        }
        let next = self.agents[at].forgot();
        behold(&mut self.agents, flit.agent.0, Move::Forgets);
        self.agents[at] = next;
        self.duty = duty_after(self.duty, flit.act);
        self.home = None;
        true
    }
}
