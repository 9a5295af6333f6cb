//! What a cache's copy of one line may be, as a set of copies: the rules of one copy, which worlds and sets share, a line that
//! judges flits by them, and the laws of whole traces.
//!
//! Source: Arm IHI 0050 Issue B, chapter 4, as `docs/COPIES.md` reads it.
#![tactic(auto)]

mod acts;
mod arriving;
mod arriving_given;
mod begun;
mod begun_given;
mod begun_moments;
mod begun_sent;
mod certain;
mod copies;
mod dues;
mod held;
mod laws;
mod line;
mod members;
mod moves;
mod received;
mod replies;
mod rules;
mod sends;
mod side_tests;
mod sides;
mod standing;
mod steps;
mod tests;
mod timed;
mod unjudged;

pub use arriving::Arriving;
pub use begun::Begun;
pub use copies::{Copies, NOBODY};
pub use dues::{DueCode, NOTHING_DUE};
pub use held::{CacheCopy, Held};
pub use laws::{above, cache_flits, calls, home_flits, meaning, outstanding, tails, traces};
pub use line::{AGENTS, Line, Reason};
pub use members::Members;
pub use replies::{Age, Asked, Reply};
pub use sides::Sides;
pub use standing::{Facts, Standing};
pub use unjudged::Unjudged;
