//! Tests of `chi_observer` through its public calls alone, by the tables of `docs/OBSERVER.md`.
#![tactic(auto)]

#[cfg(test)]
mod kept;
#[cfg(test)]
mod random;
#[cfg(test)]
mod returns;
#[cfg(test)]
mod rows;
#[cfg(test)]
mod said;
#[cfg(test)]
mod tails;
#[cfg(test)]
mod walk;
