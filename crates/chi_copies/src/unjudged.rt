//! A line while it isn't judged: what of it is outstanding, and when it comes back.

ghost use Rattle.std.specs.Prelude.{◌≡◌, ◌≤◌, ◌<◌, ◌*◌, ◌&&◌, ◌||◌, ◌==◌, ℕ, IfSome, false, is_some, not};
ghost use Rattle.std.specs.List.{slice_index_or};
ghost use Rattle.chi_observer.specs.Rules.{is_resending};
ghost use Rattle.chi_copies.specs.Begun.{begun_with};
ghost use Rattle.chi_copies.specs.BegunLines.{begun, code_at, dues_of, flags_of};
ghost use Rattle.chi_copies.specs.Dues.{due_is};
ghost use Rattle.chi_copies.specs.Lines.{observed, snooped_at};
ghost use Rattle.chi_copies.specs.Unjudged.{is_outstanding, may_be_asked, no_one, one_less, one_more, outstanding_in, outstanding_of, sum_below};

use crate::acts::is_resending;
use crate::begun::Begun;
use crate::begun_moments::{code_at, flag_at};
use crate::dues::DueCode;
use crate::line::Line;
use chi_flit::Agent;
use chi_observer::{Due, Snoop, Stores};

/// What is outstanding at a line that isn't judged, as behind a flit that has no rule. Who follows its ids says of each when it is
/// opened and when it ends, whatever its opcode.
/// Source: `docs/COPIES.md`, "A line that comes back".
#[derive(Clone, Debug, Drop, PartialEq, Eq)]
pub struct Unjudged {
    /// How many requests and snoops are outstanding. A request that was retried isn't, until it is sent again.
    pub outstanding: u32,
    /// Whether each agent may have a request open that isn't counted: it was retried, or is from before the trace.
    pub asked: [bool; 32],
    /// Whether a snoop of each agent may be unanswered from before the trace.
    pub left: [bool; 32],
}

/// Whether a request is outstanding, of which this is due.
fn is_outstanding(due: Due) -> bool
    ensures { result ≡ is_outstanding due }
{
    !matches!(due, Due::Nothing | Due::Resending(_))
}

/// How many requests and snoops of an agent are outstanding.
fn outstanding_of(asked: bool, due: Due, snooped: Option<Snoop>) -> u32
    ensures is { result ≡ outstanding_of asked due snooped }
    ensures low { result ≤ 2 }
{
    let requests = u32::from(!asked && is_outstanding(due));
    let snoops = u32::from(snooped.is_some());
    requests + snoops
}

/// How many requests and snoops of all agents are outstanding.
fn outstanding_in(asked: &[bool; 32], due: &[DueCode; 32], snooped: &[Option<Snoop>; 32]) -> u32
    ensures { result ≡ sum_below 32 (λ n. outstanding_of (flags_of asked.now n) (dues_of due.now n) (snooped_at snooped.now n)) }
{
    let mut outstanding = 0u32;
    for n in 0..32 {
        outstanding += outstanding_of(flag_at(asked, n), code_at(due, n).due(), snooped[n]);
    }
    outstanding
}

/// Whether each agent may have a request open that isn't outstanding.
fn may_be_asked(asked: &[bool; 32], due: &[DueCode; 32]) -> [bool; 32]
    ensures { (n : ℕ) → n < 32 → flags_of result n ≡ (flags_of asked.now n || is_resending (dues_of due.now n)) }
{
    let mut asked_then = [false; 32];
    for n in 0..32 {
        asked_then[n] = is_asked(flag_at(asked, n), code_at(due, n).due());
    }
    asked_then
}

/// Whether an agent may have a request open that isn't outstanding.
fn is_asked(asked: bool, due: Due) -> bool
    ensures { result ≡ (asked || is_resending due) }
{
    asked || is_resending(due)
}

/// The flags with this one of an agent; of one whose number is 32 or more they stay.
fn with_flag(flags: [bool; 32], agent: Agent, flag: bool) -> [bool; 32]
    ensures here { agent.0 < 32 → flags_of result agent.0 ≡ flag }
    ensures there { (n : ℕ) → (n == agent.0) ≡ false → flags_of result n ≡ flags_of flags n }
{
    let mut next = flags;
    if agent.0 < 32 {
        next[usize::from(agent.0)] = flag;
    }
    next
}

impl Line {
    /// What is outstanding at the line, which isn't judged from here on.
    /// Source: `docs/COPIES.md`, "A line that comes back".
    pub fn outstanding(&self) -> Unjudged
        ensures count { result.outstanding ≡ outstanding_in no_one (observed self.now).public }
        ensures asked { (n : ℕ) → n < 32 → flags_of result.asked n ≡ may_be_asked no_one (observed self.now).public n }
        ensures left { (n : ℕ) → n < 32 → flags_of result.left n ≡ false }
    {
        let none = [false; 32];
        Unjudged {
            outstanding: outstanding_in(&none, &self.due, &self.snooped),
            asked: may_be_asked(&none, &self.due),
            left: none,
        }
    }
}

impl Begun {
    /// What is outstanding at the line, which isn't judged from here on.
    /// Source: `docs/COPIES.md`, "A line that comes back".
    pub fn outstanding(&self) -> Unjudged
        ensures count { result.outstanding ≡ outstanding_in (begun self.now).asked (begun self.now).seen.public }
        ensures asked { (n : ℕ) → n < 32 → flags_of result.asked n
            ≡ may_be_asked (begun self.now).asked (begun self.now).seen.public n }
        ensures left { (n : ℕ) → n < 32 → flags_of result.left n ≡ (begun self.now).snooped n }
    {
        Unjudged {
            outstanding: outstanding_in(&self.asked, &self.due, &self.snooped),
            asked: may_be_asked(&self.asked, &self.due),
            left: self.left,
        }
    }
}

impl Unjudged {
    /// A request or a snoop of the line was sent, of whatever kind.
    /// Source: `docs/COPIES.md`, "A line that comes back".
    pub fn opened(&mut self)
        ensures count { self.new.outstanding ≡ one_more self.old.outstanding }
        ensures asked { self.new.asked ≡ self.old.asked }
        ensures left { self.new.left ≡ self.old.left }
    {
        if self.outstanding < u32::MAX {
            self.outstanding += 1;
        }
    }

    /// A request or a snoop that was counted is over.
    /// Source: `docs/COPIES.md`, "A line that comes back".
    pub fn ended(&mut self)
        ensures count { self.new.outstanding ≡ one_less self.old.outstanding }
        ensures asked { self.new.asked ≡ self.old.asked }
        ensures left { self.new.left ≡ self.old.left }
    {
        if self.outstanding < u32::MAX {
            self.outstanding = self.outstanding.saturating_sub(1);
        }
    }

    /// The agent sent a request of a kind that has rules, or sent one again: none of its requests is open but this. Of an agent whose
    /// number is 32 or more it is counted alone.
    /// Source: `docs/COPIES.md`, "A line that comes back".
    pub fn requested(&mut self, agent: Agent)
        ensures count { self.new.outstanding ≡ one_more self.old.outstanding }
        ensures asked { (n : ℕ) → n < 32 → flags_of self.new.asked n ≡ (flags_of self.old.asked n && not (n == agent.0)) }
        ensures left { self.new.left ≡ self.old.left }
    {
        self.asked = with_flag(self.asked, agent, false);
        self.opened();
    }

    /// The agent's request, which was counted, was retried.
    /// Source: `docs/COPIES.md`, "A line that comes back".
    pub fn retried(&mut self, agent: Agent)
        ensures count { self.new.outstanding ≡ one_less self.old.outstanding }
        ensures asked { (n : ℕ) → n < 32 → flags_of self.new.asked n ≡ (flags_of self.old.asked n || n == agent.0) }
        ensures left { self.new.left ≡ self.old.left }
    {
        self.asked = with_flag(self.asked, agent, true);
        self.ended();
    }

    /// A snoop of a kind that has rules was sent to the agent: it has answered each that was sent before.
    /// Source: `docs/COPIES.md`, "A line that comes back".
    pub fn snooped(&mut self, agent: Agent)
        ensures count { self.new.outstanding ≡ one_more self.old.outstanding }
        ensures asked { self.new.asked ≡ self.old.asked }
        ensures left { (n : ℕ) → n < 32 → flags_of self.new.left n ≡ (flags_of self.old.left n && not (n == agent.0)) }
    {
        self.left = with_flag(self.left, agent, false);
        self.opened();
    }

    /// Whether nothing is outstanding, so that the line is judged again.
    /// Source: `docs/COPIES.md`, "A line that comes back".
    pub fn is_over(&self) -> bool
        ensures { result ≡ (self.now.outstanding == 0) }
    {
        self.outstanding == 0
    }

    /// The line that comes back, once nothing is outstanding; `None` before.
    /// Source: `docs/COPIES.md`, "A line that comes back".
    pub fn back(&self, stores: Stores) -> Option<Begun>
        ensures over { is_some result ≡ (self.now.outstanding == 0) }
        ensures begun { IfSome result (λ line. begun line ≡ begun_with stores (flags_of self.now.asked) (flags_of self.now.left)) }
    {
        if self.is_over() {
            Some(Begun::with_open(stores, &self.asked, &self.left))
        } else {
            None
        }
    }
}
