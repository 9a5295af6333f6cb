//! A whole trace, judged line by line by observers: its ids and credits, and where it stands in its lines of memory.
//!
//! Source: `docs/OBSERVER.md`, "A trace of many lines".
#![tactic(auto)]

mod accesses;
mod beats;
mod beginnings;
mod benches;
mod bounded;
mod causes;
mod copies;
mod credits;
mod events;
mod facts;
mod grants;
mod ids;
mod judges;
mod lacking;
mod late;
mod laws;
mod left_over;
mod lines;
mod malformed;
mod marks;
mod names;
mod nodes;
mod observations;
mod outstanding;
mod pending;
mod progress;
mod reasons;
mod recent;
mod reports;
mod seen;
mod steps;
mod stream;
mod tables;
mod tallies;
mod texts;
mod told;
mod unknown;
mod watch;
mod words;

pub use benches::{BenchWatch, FirstStop, Judged};
pub use bounded::{BoundedStop, BoundedWatch, Room};
pub use causes::{Cause, CauseRow};
pub use credits::{Account, CreditTypes};
pub use events::{AccessEvent, Event, LineEvent, Tells};
pub use facts::{FaultFacts, Ground};
pub use ids::{Later, OpenId, Purpose};
pub use judges::Log;
pub use laws::{a_watch_stays_in_its_room, beats_are_one_flit};
pub use observations::observe;
pub use progress::{Nobody, Progress};
pub use reasons::{IdReason, LineReason};
pub use reports::{Demands, ObserveOutcome, ObserveReport};
pub use seen::{event_of, line_of};
pub use steps::{IdStep, WatchOptions};
pub use stream::{TextStop, TraceStop};
pub use tallies::{IdForm, Tally};
pub use watch::{Aside, Counts, Watch, WatchFault, WatchStop};
