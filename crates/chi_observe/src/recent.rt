//! The last flits of each line of memory.

ghost use Rattle.std.specs.Prelude.{◌≡◌, None, OnOk, nat_eq};
ghost use Rattle.std.specs.Map.{lookup};
ghost use Rattle.chi_observe.specs.Recent.{pushed, recent_behind, recent_in};

use chi_ids::CacheLine;
use chi_trace::AnySeen;
use indexmap::IndexMap;
use std::alloc::{AllocError, Allocator};
use std::hash::{BuildHasherDefault, FoldHasher};

/// The flits of each line of memory that were taken last.
/// Source: `docs/OBSERVER.md`, "What is printed".
#[derive(Drop)]
pub(crate) struct Recent<A: Allocator> {
    /// How many of a line are kept at most.
    pub most: usize,
    pub lines: RecentTable<A>,
}

/// The flits of one line.
#[derive(Drop)]
pub(crate) struct LastFlits<A: Allocator> {
    /// Oldest first.
    pub flits: Vec<AnySeen, A>,
}

/// Those of each line, under its number.
type RecentTable<A> = IndexMap<u64, LastFlits<A>, BuildHasherDefault<FoldHasher>, A>;

impl<A: Allocator> LastFlits<A> {
    /// A flit is the last one; the oldest one is dropped where there are so many already.
    fn push(&mut self, most: usize, seen: AnySeen) -> Result<(), AllocError>
        ensures { OnOk result (self.new.flits.items ≡ pushed most seen self.old.flits.items) }
    {
        if self.flits.len() >= most && !self.flits.is_empty() {
            let _ = self.flits.remove(0);
        }
        self.flits.push(seen)?;
        Ok(())
    }
}

/// Of a line without flits this is the last one.
fn add_line<A: Allocator + Copy>(
    lines: &mut RecentTable<A>,
    most: usize,
    line: CacheLine,
    seen: AnySeen,
) -> Result<(), AllocError>
    requires { lookup (nat_eq line.0) lines.old.entries ≡ None }
    ensures { OnOk result (recent_in lines.new.entries
        ≡ recent_behind most line seen (recent_in lines.old.entries)) }
{
    let mut last = LastFlits {
        flits: Vec::new(*lines.allocator()),
    };
    last.push(most, seen)?;
    let _ = lines.insert(line.0, last)?;
    Ok(())
}

impl<A: Allocator + Copy> Recent<A> {
    /// No flit was taken; so many are to be kept of a line.
    pub(crate) fn new(alloc: A, most: usize) -> Recent<A> {
        Recent {
            most,
            lines: IndexMap::new(alloc),
        }
    }

    /// A flit of the line was taken.
    pub(crate) fn keep(&mut self, line: CacheLine, seen: AnySeen) -> Result<(), AllocError>
        ensures { OnOk result (recent_in self.new.lines.entries
            ≡ recent_behind self.old.most line seen (recent_in self.old.lines.entries)) }
    {
        match self.lines.get_mut(&line.0) {
            Some(last) => last.push(self.most, seen),
            None => add_line(&mut self.lines, self.most, line, seen),
        }
    }
}

impl<A: Allocator> Recent<A> {
    /// The flits of the line that were taken last, oldest first.
    pub(crate) fn of(&self, line: Option<CacheLine>) -> &[AnySeen] {
        match line {
            Some(line) => match self.lines.get(&line.0) {
                Some(last) => &last.flits,
                None => &[],
            },
            None => &[],
        }
    }
}
