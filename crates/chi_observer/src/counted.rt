//! Loads that tell of stores which nobody saw.

ghost use Rattle.std.specs.Prelude.{◌≡◌, ◌<◌, ◌&&◌};
ghost use Rattle.chi_observer.specs.Lines.{observed, watched};
ghost use Rattle.chi_observer.specs.Counted.{CountedLoadsAreTaken, CountedLoadsLead, CountedLoadsCome, may_tell, may_tell_store, tells_store};

use crate::flits::{Act, Flit, Word};
use crate::observer::{Observer, may_read};
use crate::rules::looks;
use chi_flit::Agent;

/// The law of a load that counts as a store: it is taken, and so is the store. Each world whose copy has its word is one that
/// the store leaves; and where no request of its agent is open, or one that was retried, hidden steps lead from such worlds
/// to just those.
/// Source: `docs/OBSERVER.md`, "What is proved".
pub fn counted_loads()
    ensures taken { CountedLoadsAreTaken }
    ensures leads { CountedLoadsLead }
    ensures comes { CountedLoadsCome }
{}

impl Observer {
    /// Whether a load of this word, where the value last stored may be the home's, tells of a store which nobody saw.
    pub(crate) fn tells_store(&self, agent: Agent, word: Word) -> bool
        requires { agent.0 < 32 }
        ensures { result ≡ tells_store (observed self.now) agent.0 word }
    {
        self.may_be_stored(agent) && !may_read(&self.home, Act::Load(word))
    }

    /// Whether a flit is a load that tells of a store where its word isn't the home's.
    /// Source: `docs/OBSERVER.md`, "Data in beats".
    pub fn may_tell_store(&self, flit: Flit) -> bool
        ensures { result ≡ may_tell (watched self.now) flit }
    {
        match flit {
            Flit::Up(sent) => {
                sent.agent.0 < 32 && (looks(sent.act) && self.may_be_stored(sent.agent))
            }
            Flit::Down(_) => false,
        }
    }

    /// Whether the value last stored is the home's but for stores that nobody saw, and one may have been done to the agent's
    /// copy, which has data.
    fn may_be_stored(&self, agent: Agent) -> bool
        requires { agent.0 < 32 }
        ensures { result ≡ may_tell_store (observed self.now) agent.0 }
    {
        let seen = self.agents[usize::from(agent.0)];
        self.current && (seen.reads_any(self.stores) && seen.told.holds_data())
    }
}
