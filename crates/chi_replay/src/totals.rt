//! The numbers of `totals`.

ghost use Rattle.std.specs.Prelude.{◌≡◌, ◌++◌, OnOk, string_bytes};
ghost use Rattle.std.specs.Fmt.{decimal};
ghost use Rattle.chi_replay.specs.Replies.{spaced_texts, totals_text};
ghost use Rattle.chi_replay.specs.Totals.{totals_numbers};

use crate::numbers::type_count;
use crate::prints::{Printable, print_numbers};
use chi_flit::Profile;
use chi_node::Counts;
use std::alloc::{AllocError, Allocator};

/// How many entries of each credit type are free, in hand of a requester or promised to one, and how many
/// credits are owed. It prints as the line of a storm, without the line feed: the numbers of the types that the
/// profile has. The answer of `totals` says `ok` before it.
/// Source: `docs/FORMATS.md`, "Replay files" and "The output of a storm".
#[derive(Clone, Copy, Debug, PartialEq, Eq)]
pub struct NodeTotals {
    pub counts: Counts,
    pub profile: Profile,
}

impl Printable for NodeTotals {
    ghost text = { totals_text };

    fn print<A: Allocator>(&self, printed: &mut String<A>) -> Result<(), AllocError> {
        self.print_behind("free", printed)
    }
}

impl NodeTotals {
    /// Prints the numbers, this front before those of the free entries.
    pub(crate) fn print_behind<A: Allocator>(
        &self,
        front: &str,
        printed: &mut String<A>,
    ) -> Result<(), AllocError>
        ensures { OnOk result (string_bytes printed.new
            ≡ string_bytes printed.old ++ (front.now ++ totals_numbers self.now)) }
    {
        let counts = &self.counts;
        let types = type_count(self.profile);
        print_named(front, &counts.free[..types], printed)?;
        print_named(" hand", &counts.hand[..types], printed)?;
        print_named(" promised", &counts.promised[..types], printed)?;
        print_named(" owed", &counts.owed[..types], printed)
    }
}

/// Prints a name and the numbers behind it, a space before each. Inlined, since each name is a short one.
#[inline(always)]
fn print_named<A: Allocator>(
    name: &str,
    numbers: &[u32],
    printed: &mut String<A>,
) -> Result<(), AllocError>
    ensures { OnOk result (string_bytes printed.new ≡ string_bytes printed.old ++
        (name.now ++ spaced_texts decimal numbers.now)) }
{
    printed.push_str(name)?;
    print_numbers(numbers, printed)
}
