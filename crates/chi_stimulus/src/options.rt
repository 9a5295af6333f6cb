//! What is to be drawn.

use crate::weights::Weights;

/// What is drawn for a node.
/// Source: `docs/FORMATS.md`, "Drawn files".
#[derive(Clone, Copy, Debug, PartialEq, Eq)]
pub struct DrawOptions {
    /// The seed of the random words.
    pub seed: u64,
    /// How many commands are drawn.
    pub commands: u64,
    /// How many commands in a hundred are any command, which may be refused; all others are enabled.
    pub wild: u8,
    /// How often each verb is proposed, for the commands that are enabled; as usual where none is given.
    pub weights: Option<Weights>,
    /// Whether commands follow that bring the node to rest.
    pub drain: bool,
}
