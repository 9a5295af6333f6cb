//! Tests of `chi_observe` through its public calls alone: traces that are read and judged, devices that fail, and a watch
//! with a room.
#![tactic(auto)]

#[cfg(test)]
mod rooms;
#[cfg(test)]
mod traces;
