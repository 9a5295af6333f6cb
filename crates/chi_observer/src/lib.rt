//! An observer of one line: what flits have told of each copy, and whether the next flit can be explained by stores,
//! drops and cancels that nobody saw (a cache's), or was safe whatever they were (the home's).
//!
//! Source: Arm IHI 0050 Issue B, chapter 4, as `docs/OBSERVER.md` reads it.
#![tactic(auto)]

mod arrivals;
mod arriving;
mod begun;
mod counted;
mod cuts;
mod doubts;
mod flits;
mod kinds;
mod late;
mod laws;
mod moments;
mod observer;
mod prompt;
mod rules;
mod told;
mod wanted;
mod worded;

pub use arrivals::{Arrivals, Aside, Untaken};
pub use arriving::{Arriving, Earlier, Held};
pub use begun::{AgentBegun, Begun, Certainty};
pub use counted::counted_loads;
pub use cuts::tails;
pub use flits::{Act, Answer, CacheFlit, Due, Flit, Grant, HomeFlit, Stores, Word};
pub use kinds::{Kind, Snoop};
pub use late::late_flits;
pub use laws::{cache_flits, home_flits, listed_traces, meaning, traces, worded_flits};
pub use observer::{AGENTS, AgentSeen, NOBODY, Observer, Reason};
pub use prompt::{crossing_flits, prompt_flits};
pub use told::Told;
pub use wanted::{Wanted, data_in_beats};
pub use worded::{KnownWords, WordedObserver};
