//! The protocol: a slice of the home's lines, the journal of what its copies answered, and the verdicts on
//! them.
#![tactic(auto)]

mod agent_line;
mod audits;
mod laws;
mod loading;
mod places;
mod records;
mod slice;
mod verdict;

pub use agent_line::AgentLine;
pub use audits::{Audit, audit_of, check_slice};
pub use chi_flit::{Action, Config, Effect, Step};
pub use chi_homeline::{HomeLine, Serving, Waiting};
pub use chi_journal::{Journal, Record, counted};
pub use chi_line::{ActionOutcome, CopyView, LineView, Position, has_flit, pending_credit};
pub use chi_rnline::{Pending, Phase, RnLine};
pub use chi_wires::{Cells, cells_of};
pub use laws::{
    an_action_leaves_one_slice, only_room_and_slots_join_lines, what_is_computed_is_by_the_protocol,
};
pub use places::RequestPlace;
pub use records::is_step_in_range;
pub use slice::{EACH_CREDIT, Slice};
pub use verdict::check;
