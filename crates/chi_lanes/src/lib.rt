//! The bytes of a line of text, many at once: where its columns stand, and what its hexadecimal digits say.
//!
//! Source: `docs/TRACES.md`, "Traces".
#![tactic(auto)]

mod bits;
mod columns;
mod digits;
mod laws;
mod lists;
mod masks;
mod places;
#[cfg(test)]
mod tests;

pub use columns::{Column, Columns};
pub use digits::{Digits, number_at, sixteen};
pub use laws::limits;
pub use lists::{eight_words, read_words};
pub use masks::{blanks, equal_to, line_blanks};
pub use places::first_blank;
