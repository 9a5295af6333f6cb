//! The words of CHI Issue B that a judge of traces speaks: channels, opcodes with their numbers and what they do to ids,
//! responses, ids, cache lines, and a flit.
//!
//! Source: Arm IHI 0050 Issue B, as `docs/TRACES.md` reads it.
#![tactic(auto)]

mod beat;
mod channels;
mod flit;
mod ids;
mod laws;
mod near;
mod opcodes;
mod resp;
mod roles;
mod table;
#[cfg(test)]
mod tests;

pub use beat::Beat;
pub use channels::Channel;
pub use flit::Flit;
pub use ids::{CacheLine, DbId, NodeId, PcrdType, TxnId};
pub use laws::{each_opcode_has_one_row, numbers_differ, resp_words_differ, words_differ};
pub use opcodes::{DataOpcode, Opcode, RequestOpcode, ResponseOpcode, SnoopOpcode};
pub use resp::{Resp, RespUse};
pub use roles::Role;
