//! The answer of `see`.

ghost use Rattle.std.specs.Prelude.{◌++◌, codes};
ghost use Rattle.chi_replay.specs.Replies.{counts_text};

use crate::numbers::type_count;
use crate::prints::{Printable, print_numbers};
use chi_flit::Profile;
use std::alloc::{AllocError, Allocator};

/// How many credits of each type a requester has seen granted. It prints as the answer of `see`, without
/// the line feed: the numbers of the types that the profile has.
/// Source: `docs/FORMATS.md`, "Replay files".
#[derive(Clone, Copy, Debug, PartialEq, Eq)]
pub struct SeenCredits {
    pub counts: [u32; 4],
    pub profile: Profile,
}

impl Printable for SeenCredits {
    ghost text = { λ credits. codes "ok credits" ++ counts_text credits.profile credits.counts };

    fn print<A: Allocator>(&self, printed: &mut String<A>) -> Result<(), AllocError> {
        let types = type_count(self.profile);
        printed.push_str("ok credits")?;
        print_numbers(&self.counts[..types], printed)
    }
}
