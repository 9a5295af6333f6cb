//! Coverage: which cells of the protocol's tables the commands of files reach, and how often.
//!
//! Source: `docs/FORMATS.md`, "Coverage".
#![tactic(auto)]

/// One more of the cell whose text is printed so, where the condition holds, or where there are the values that it names; a
/// text of none counts nowhere. Refused where memory runs out.
macro_rules! reach {
    ($tally:expr, if $holds:expr, $text:literal) => {
        if $holds { reach!($tally, $text) } else { Ok(()) }
    };
    ($tally:expr, $one:ident in $value:expr, $($rest:tt)+) => {
        match $value {
            Some($one) => reach!($tally, $($rest)+),
            None => Ok(()),
        }
    };
    ($tally:expr, $text:literal) => {{
        let text = format!(in $tally.alloc; $text)?;
        $tally.add(text.as_str(), 1)
    }};
}

mod cells;
mod coverage;
mod forms;
mod past;
mod rows;
mod steps;
mod tally;

pub use coverage::{CoverReport, cover, merge};
pub use forms::{CoverForm, CoverShape};
