//! The grammars of replay, check and storm files: from a file's bytes to its header and its commands, checks
//! or operations, or to its first fault.
//!
//! Source: `docs/FORMATS.md`, "Replay files", "Check files" and "Storm files", and `docs/PROTOCOL.md`, "Limits".
#![tactic(auto)]

mod check_files;
mod checks;
mod commands;
mod devices;
mod faults;
mod files;
mod fillers;
mod good_lines;
mod headers;
mod hints;
mod laws;
mod memory;
mod numbers;
mod operations;
mod reading;
mod requester_actions;
mod shown_words;
mod spelling;
mod storms;
mod system;
mod usual_lines;
mod verbs;
mod words;

pub use check_files::{CheckFile, MOST_CHECK_BYTES, read_checks};
pub use checks::{Check, is_comment};
pub use commands::{Command, read_command, read_kind};
pub use devices::{Failed, Input, Output};
pub use faults::Fault;
pub use files::{MOST_BYTES, command_in, first_line, header_in, read_head};
pub use fillers::{FILLER_BEGINS, FILLER_ENDS};
pub use good_lines::{check_lines, first_fault};
pub use headers::read_header;
pub use hints::{hint_at, line_at};
pub use laws::{
    check_files_are_lines, check_front_is_enough, checks_are_lines, commands_are_lines,
    headers_are_lines, numbers_are_decimal, operations_are_lines, printed_commands_are_read,
    replay_front_is_enough, replays_are_check_files, storm_front_is_enough, storms_are_files,
};
pub use memory::{MemoryInput, MemoryOutput};
pub use numbers::{number, small};
pub use operations::{AgentOperation, read_operation};
pub use reading::{read_all, read_most};
pub use requester_actions::RequesterAction;
pub use shown_words::ShownWord;
pub use storms::{StormFile, read_storm};
pub use system::{FileInput, StandardOutput};
pub use verbs::Verb;
pub use words::{first_word, is, read_words};
