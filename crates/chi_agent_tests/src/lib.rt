//! Tests of agents, in threads and one after another, and of reports and tallies, through their public calls, by
//! `docs/FORMATS.md`, "A turn" and "Reports and tallies".
#![tactic(auto)]

#[cfg(test)]
mod bench;
#[cfg(test)]
mod beside;
#[cfg(test)]
mod cancels;
#[cfg(test)]
mod crossing;
#[cfg(test)]
mod draws;
#[cfg(test)]
mod gates;
#[cfg(test)]
mod guests;
#[cfg(test)]
mod isolation;
#[cfg(test)]
mod plays;
#[cfg(test)]
mod races;
#[cfg(test)]
mod reports;
#[cfg(test)]
mod seen_lines;
#[cfg(test)]
mod tallies;
#[cfg(test)]
mod watched;
