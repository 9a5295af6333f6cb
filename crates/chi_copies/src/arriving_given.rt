//! A flit of the home, of a line whose log is taken there: what is asked of all agents.

ghost use Rattle.std.specs.Prelude.{◌≡◌, ◌&&◌, ◌||◌, ◌==◌, nat_lt, not};
ghost use Rattle.chi_observer.specs.Copies.{same};
ghost use Rattle.chi_observer.specs.Copies.Copy.{Invalid};
ghost use Rattle.chi_observer.specs.Rules.{overwrites};
ghost use Rattle.chi_copies.specs.Arriving.{any_of, awaits_data, comes, is_quiet};
ghost use Rattle.chi_copies.specs.ArrivingLines.{due_of, may_of, received};
ghost use Rattle.chi_copies.specs.Worlds.{all_below};

use crate::arriving::Arriving;
use crate::replies::Asked;
use crate::side_tests::ReplyTest;
use crate::standing::{Facts, Standing};
use crate::tests::Test;

impl Facts {
    /// Whether no CompAck and no write data of the agent are on their way.
    fn is_quiet(self) -> bool
        ensures { result ≡ (not (nat_lt 0 self.acks) && (not (nat_lt 0 self.overtaken) && not (awaits_data self.asked))) }
    {
        self.acks == 0 && (self.overtaken == 0 && !matches!(self.asked, Asked::DataOf(_)))
    }

    /// Whether the agent has no request open for which copies may be thrown away.
    fn is_sparing(self) -> bool
        ensures { result ≡ not (overwrites (due_of self)) }
    {
        !self.due.overwrites()
    }
}

impl Standing {
    /// Whether the agent has no copy.
    fn is_without(&self) -> bool
        ensures { result ≡ not (any_of (may_of self.now) (λ k. not (same k.held.copy Invalid))) }
    {
        !self.any(ReplyTest::Any, Test::Left.copies())
    }

    /// Whether the value last stored isn't on its way from the agent.
    fn is_still(&self) -> bool
        ensures { result ≡ not (any_of (may_of self.now) comes) }
    {
        !self.any(ReplyTest::Comes, Test::Each.copies())
    }
}

/// Whether a test holds of an agent, or it is the one that isn't tested.
fn is_own_or(n: usize, agent: u8, holds: bool) -> bool
    ensures { result ≡ (n == agent || holds) }
{
    n == usize::from(agent) || holds
}

impl Arriving {
    /// Whether no CompAck and no write data are on their way.
    pub(crate) fn is_quiet(&self) -> bool
        ensures { result ≡ is_quiet (received self.now) }
    {
        let mut quiet = true;
        for n in 0..32 {
            quiet &= self.agents[n].facts.is_quiet();
        }
        quiet
    }

    /// Whether no other agent has a request open for which copies may be thrown away.
    pub(crate) fn is_none_overwriting(&self, agent: u8) -> bool
        ensures { result ≡ all_below 32 (λ m. m == agent || not (overwrites ((received self.now).due m))) }
    {
        let mut none = true;
        for n in 0..32 {
            none &= is_own_or(n, agent, self.agents[n].facts.is_sparing());
        }
        none
    }

    /// Whether no other agent has a copy.
    pub(crate) fn is_alone(&self, agent: u8) -> bool
        ensures { result ≡ all_below 32 (λ n. n == agent
            || not (any_of ((received self.now).may n) (λ k. not (same k.held.copy Invalid)))) }
    {
        let mut alone = true;
        for n in 0..32 {
            alone &= is_own_or(n, agent, self.agents[n].is_without());
        }
        alone
    }

    /// Whether the value last stored isn't on its way.
    pub(crate) fn is_still(&self) -> bool
        ensures { result ≡ all_below 32 (λ n. not (any_of ((received self.now).may n) comes)) }
    {
        let mut still = true;
        for n in 0..32 {
            still &= self.agents[n].is_still();
        }
        still
    }
}
