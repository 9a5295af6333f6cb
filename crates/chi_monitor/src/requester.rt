//! What is known of the words of a requester's copy of a line.
//! Not trusted: chi_explain does again what the search finds, and compares.

use crate::faults::SeenAt;
use crate::values::{Unknown, UnknownWords};

/// What is known of a requester's copy, beside the state that its turn tells.
#[derive(Clone, Copy)]
pub(crate) struct KnownRequester {
    pub words: UnknownWords,
    /// The words of data that it hasn't acknowledged.
    pub given: Option<UnknownWords>,
    /// The load whose value has told that the copy is in UD, where nothing has told its state since.
    pub loaded: Option<SeenAt>,
}

impl KnownRequester {
    /// No copy, and nothing under way.
    pub const NONE: KnownRequester = KnownRequester {
        words: [Unknown(0); 8],
        given: None,
        loaded: None,
    };
}
