//! Tests that lines of traces, right and wrong, are read by `chi_log` as by `chi_trace`.
#![tactic(auto)]

#[cfg(test)]
mod alike;
#[cfg(test)]
mod lines;
#[cfg(test)]
mod random;
#[cfg(test)]
mod texts;
