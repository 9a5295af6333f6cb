//! The answer of `audit`: what an audit of a node found.

ghost use Rattle.std.specs.Prelude.{◌≡◌};
ghost use Rattle.chi_replay.specs.Replies.{audit_text, verdict_text};

use crate::prints::Printable;
use chi_slice::Audit;
use std::alloc::{AllocError, Allocator};

impl Printable for Audit {
    ghost text = { audit_text };

    fn print<A: Allocator>(&self, printed: &mut String<A>) -> Result<(), AllocError> {
        let (loads, stores) = (self.loads, self.stores);
        let verdict = verdict_word(self.coherent);
        write!(printed, "ok loads {loads} stores {stores} {verdict}")
    }
}

/// The word for a verdict: `coherent` or `broken`.
/// Source: `docs/FORMATS.md`, "Replay files".
pub fn verdict_word(coherent: bool) -> &'static str
    ensures { result.now ≡ verdict_text coherent }
{
    if coherent { "coherent" } else { "broken" }
}
