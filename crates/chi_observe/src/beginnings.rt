//! What isn't known of the copies in a trace that begins in the middle.

ghost use Rattle.std.specs.Prelude.{◌≡◌, ◌++◌, OnOk, string_bytes};
ghost use Rattle.std.specs.List.{count_by};
ghost use Rattle.chi_observe.specs.Beginnings.{IsCountOf, is_unknown_at, is_unknown_in, unknown_line};
ghost use Rattle.chi_observe.specs.Lines.{line_state};
ghost use Rattle.chi_observe.specs.Watched.{watched};

use crate::lines::LineSeen;
use crate::steps::WatchOptions;
use crate::watch::Watch;
use std::alloc::{AllocError, Allocator};
use std::fmt::Write;

/// Whether a line is judged of which one of the first agents, so many, has a copy that isn't known.
fn is_unknown_in<A: Allocator>(seen: &LineSeen<A>, agents: usize) -> bool
    ensures { result ≡ is_unknown_in agents (line_state seen.now) }
{
    !seen.aside && !seen.judge.are_told(agents)
}

/// How many of the lines are such.
fn count_unknown<A: Allocator>(lines: &[LineSeen<A>], agents: usize) -> usize
    ensures { result ≡ count_by (λ seen. is_unknown_in agents (line_state seen)) lines.now }
{
    lines
        .iter()
        .filter(|seen| is_unknown_in(seen, agents))
        .count()
}

/// Puts on how many lines a copy isn't known behind the text, of a trace that is cut out of a longer one.
pub(crate) fn write_unknown<A: Allocator>(
    text: &mut String<A>,
    options: WatchOptions,
    lines: usize,
) -> Result<(), AllocError>
    ensures { OnOk result
        (string_bytes text.new ≡ string_bytes text.old ++ unknown_line options lines) }
{
    if options.is_cut() {
        writeln!(
            text,
            "begun in the middle: on {lines} lines a copy isn't known"
        )
    } else {
        Ok(())
    }
}

impl<A: Allocator> Watch<A> {
    /// On how many lines that are judged a requester's copy isn't known.
    pub(crate) fn unknown_lines(&self) -> usize
        ensures { IsCountOf (is_unknown_at (watched self.now)) result }
    {
        let lines = self.lines.as_slice().values();
        count_unknown(lines.as_slice(), self.requesters.len())
    }
}
