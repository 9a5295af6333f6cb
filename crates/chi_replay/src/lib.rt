//! Replays and checks: the commands of a file, played one after the other, the text of their answers, and the
//! comparison of the answers with those that are wanted.
//!
//! Source: `docs/FORMATS.md`, "Replay files" and "Check files".
#![tactic(auto)]

mod agents;
mod audits;
mod checks;
mod copies;
mod credits;
mod flights;
mod laws;
mod listener;
mod node_replies;
mod numbers;
mod prints;
mod replays;
mod replies;
mod reports;
mod runs;
mod session;
mod shown;
mod suites;
mod totals;

pub use audits::verdict_word;
pub use checks::{check, commands_of};
pub use credits::SeenCredits;
pub use flights::InFlight;
pub use laws::answers_are_lines;
pub use prints::Printable;
pub use replays::replay;
pub use replies::Reply;
pub use runs::{run, run_lines};
pub use session::answer;
pub use shown::Shown;
pub use suites::{FaultWords, SuiteFile, SuiteForm, SuiteReport, check_suite};
pub use totals::NodeTotals;
