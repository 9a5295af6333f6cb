//! What an agent reports.

use chi_flit::Agent;

/// What an agent did: whether its script finished, and how many loads and stores were answered.
/// Source: `docs/FORMATS.md`, "Reports and tallies".
#[derive(Clone, Copy, Debug, PartialEq, Eq)]
pub struct Report {
    pub agent: Agent,
    pub finished: bool,
    pub loads: u64,
    pub stores: u64,
}

impl Default for Report {
    ghost use Rattle.std.specs.Prelude.{◌≡◌, false};

    ghost is_default = { λ r. r ≡ record {
      agent = record { 0 = 0 };
      finished = false;
      loads = 0;
      stores = 0;
    } };

    fn default() -> Report {
        Report {
            agent: Agent(0),
            finished: false,
            loads: 0,
            stores: 0,
        }
    }
}
