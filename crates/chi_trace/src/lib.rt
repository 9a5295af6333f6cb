//! The grammar of traces: from the bytes of a monitor's log to the flits that it saw, a flit a line, or to
//! the first line that is none.
//!
//! Source: `docs/TRACES.md`, "Traces".
#![tactic(auto)]

mod any_flits;
mod any_opcodes;
mod any_reading;
mod columns;
mod faults;
mod fields;
mod files;
mod flits;
mod forms;
mod laws;
mod malformed;
mod near_opcodes;
mod numbers;
mod opcodes;
mod other_opcodes;
mod reading;
mod words;

pub use any_flits::{AnyFlit, AnySeen, MOST_LINE_BYTES, any_flit_in};
pub use any_opcodes::{AnyOpcode, OtherKind, OtherSnoop};
pub use columns::Column;
pub use faults::TraceFault;
pub use fields::{Address, Beat, DbId, NodeId, PcrdType, Resp, TxnId, read_address};
pub use files::{MOST_BYTES, read_trace};
pub use flits::{Flit, RequestFields, Seen, SnoopFields, Transaction, flit_in};
pub use forms::{Listing, Opcodes, TraceForm};
pub use laws::{lines_are_flits, numbers_are_hexadecimal, traces_are_lines};
pub use malformed::{Expected, MalformedFront, channel_word, opcode_word};
pub use near_opcodes::near_opcode;
pub use opcodes::{Opcode, TraceChannel};
pub use other_opcodes::OtherOpcode;
