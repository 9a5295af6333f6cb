//! Sets of agents, as a mark for each agent number.

ghost use Rattle.std.specs.Prelude.{◌≡◌, ◌<◌};
ghost use Rattle.chi_filter.specs.Filter.{only_set, others_than};

use chi_flit::Agent;

/// For each agent, the set of that agent alone.
static ALONE: [[bool; 8]; 8] = [
    [true, false, false, false, false, false, false, false],
    [false, true, false, false, false, false, false, false],
    [false, false, true, false, false, false, false, false],
    [false, false, false, true, false, false, false, false],
    [false, false, false, false, true, false, false, false],
    [false, false, false, false, false, true, false, false],
    [false, false, false, false, false, false, true, false],
    [false, false, false, false, false, false, false, true],
];

/// The set of one agent. Marks are read together, so none is written by itself: that would wait for the
/// write.
pub fn only_set(agent: Agent) -> [bool; 8]
    requires { agent.0 < 8 }
    ensures { result ≡ only_set agent.0 }
{
    ALONE[usize::from(agent.0)]
}

/// A set without an agent.
pub fn others_than(set: [bool; 8], agent: Agent) -> [bool; 8]
    requires { agent.0 < 8 }
    ensures { result ≡ others_than agent.0 set }
{
    let alone = only_set(agent);
    let mut others = [false; 8];
    for n in 0..8 {
        others[n] = set[n] & !alone[n];
    }
    others
}
