//! The chart of a file: its commands are replayed, and drawn as a message sequence chart.
//!
//! Source: `docs/FORMATS.md`, "Charts".
#![tactic(auto)]

mod charts;
mod drawn;
mod frame;
mod headings;
mod layout;
mod marks;
mod notes;
mod picture;
mod rows;
mod style;

pub use charts::chart;
pub use rows::ChartPart;
