//! Where the tracker's words are.

ghost use Rattle.std.specs.Prelude.{◌≡◌, ◌<◌};
ghost use Rattle.chi_tracker.specs.Words.{owed_word, promise_word};

/// How many words the tracker has.
/// Source: `docs/PROTOCOL.md`, "Words of the tracker".
pub(crate) const WORD_COUNT: usize = 44;

/// The word with this part of the entries that are promised to a requester.
/// Source: `docs/PROTOCOL.md`, "Words of the tracker".
pub(crate) fn promise_word(agent: usize, part: usize) -> usize
    requires { (agent < 8) × (part < 4) }
    ensures { result ≡ promise_word agent part }
{
    4 + 5 * agent + part
}

/// The word of the credits that are owed to a requester.
/// Source: `docs/PROTOCOL.md`, "Words of the tracker".
pub(crate) fn owed_word(agent: usize) -> usize
    requires { agent < 8 }
    ensures { result ≡ owed_word agent }
{
    8 + 5 * agent
}
