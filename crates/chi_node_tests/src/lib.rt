//! Tests of ports and of nodes through their public calls: ports, in threads too, a node behind locks beside the
//! parts of another one, and a node that is closed.
//!
//! What `docs/PROTOCOL.md` says of a requester and its calls is tested by `tests/rows` and `suite/`.
#![tactic(auto)]

#[cfg(test)]
mod beside;
#[cfg(test)]
mod ends;
#[cfg(test)]
mod ports;
