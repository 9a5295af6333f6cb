//! What stays the same while commands are drawn.

use crate::options::DrawOptions;
use crate::weights::Weights;
use chi_flit::Profile;
use chi_slice::Config;

/// How many proposals are tried for a command by weights, and as many without.
const TRIES: u32 = 1000;

/// How many rounds bring a node to rest at most.
const ROUNDS: u32 = 1000;

/// What stays the same while commands are drawn.
#[derive(Clone, Copy)]
pub(crate) struct Plan {
    /// How many agents, lines and credit types there are.
    pub(crate) agents: u8,
    pub(crate) lines: u8,
    pub(crate) types: u8,
    /// How many commands in a hundred are any command.
    pub(crate) wild: u8,
    pub(crate) weights: Weights,
    /// How many proposals are tried for a command by weights, and as many without.
    pub(crate) tries: u32,
    /// How many rounds bring the node to rest at most.
    pub(crate) rounds: u32,
}

/// How many credit types a profile has.
fn types_in(profile: Profile) -> u8 {
    match profile {
        Profile::Two => 2,
        Profile::Four => 4,
    }
}

/// The weights that are given, or the usual ones.
fn weights_in(weights: Option<Weights>) -> Weights {
    match weights {
        Some(weights) => weights,
        None => Weights::usual(),
    }
}

impl Plan {
    /// The plan for a node of these sizes, by the options.
    pub(crate) fn new(sizes: &Config, options: &DrawOptions) -> Plan {
        Plan {
            agents: sizes.agents(),
            lines: sizes.lines(),
            types: types_in(sizes.profile()),
            wild: options.wild,
            weights: weights_in(options.weights),
            tries: TRIES,
            rounds: ROUNDS,
        }
    }
}
