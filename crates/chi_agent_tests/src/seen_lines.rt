//! What the lines of a node show while nobody has a lock: it changes by what is done between two looks alone.

use chi_flit::{Agent, Line};
use chi_node::Node;
use chi_slice::{LineView, Record, Slice};
use std::alloc::Global;
use std::process::Abort;
use std::sync::Wait;

/// What was shown of a line, and the journal of its slice, which has no other line.
#[derive(Drop)]
struct SeenLine {
    line: Line,
    view: LineView,
    records: Vec<Record>,
}

/// Whether of all copies the agent's alone has changed, if any.
fn others_stay(before: &LineView, after: &LineView, agent: Agent) -> bool {
    let mut stay = true;
    for other in 0..8 {
        stay &= other == usize::from(agent.0) || before.copies[other] == after.copies[other];
    }
    stay
}

/// What a line shows.
fn look(rt: &impl Abort, slice: &Slice<Global>, line: Line) -> LineView {
    slice.view(line).expect(rt, "the line is in its slice")
}

impl SeenLine {
    /// What the line shows of a slice in which nothing was loaded or stored.
    fn new(rt: &impl Abort, alloc: Global, slice: &Slice<Global>, line: Line) -> SeenLine {
        assert!(rt; slice.journal().records().is_empty());
        SeenLine {
            line,
            view: look(rt, slice, line),
            records: Vec::new(alloc),
        }
    }

    /// The journal begins with what it was before; the answer is whether it has a record more, of which there
    /// is one at most.
    fn has_grown(&mut self, rt: &impl Abort, slice: &Slice<Global>) -> bool {
        let records = slice.journal().records();
        let before = self.records.len();
        assert!(rt; before <= records.len());
        assert!(rt; records[..before] == self.records[..]);
        let new = &records[before..];
        assert!(rt; new.len() <= 1);
        for record in new {
            self.records.push(*record).expect(rt, "memory for a record");
        }
        !new.is_empty()
    }

    /// Whether the line shows something else than before. The copies of other agents than this one stay.
    fn has_moved(&mut self, rt: &impl Abort, slice: &Slice<Global>, agent: Agent) -> bool {
        let view = look(rt, slice, self.line);
        assert!(rt; others_stay(&self.view, &view, agent));
        let moved = view != self.view;
        self.view = view;
        moved
    }
}

/// What all lines of a node show, each of which is in a slice of its own.
#[derive(Drop)]
pub struct SeenLines<'n> {
    node: &'n Node<Global>,
    all: Vec<SeenLine>,
}

impl<'n> SeenLines<'n> {
    /// What they show in the opening state.
    pub fn new<R: Abort + Wait>(rt: &R, alloc: Global, node: &'n Node<Global>) -> SeenLines<'n> {
        assert_eq!(rt; node.config().lines(), node.config().slices());
        let mut all = Vec::new(alloc);
        for line in 0..node.config().lines() {
            let slice = node.lock(rt, Line(line)).expect(rt, "a line of the node");
            let seen = SeenLine::new(rt, alloc, &slice, Line(line));
            all.push(seen).expect(rt, "memory for a line");
        }
        SeenLines { node, all }
    }

    /// Every slice is locked. The one of this line alone may have changed since the look before, and its
    /// journal may have a record more. Of all copies the agent's alone may have changed.
    pub fn follow<R: Abort + Wait>(&mut self, rt: &R, agent: Agent, line: Line) {
        for seen in self.all.iter_mut() {
            let slice = self
                .node
                .lock(rt, seen.line)
                .expect(rt, "a line of the node");
            let grown = seen.has_grown(rt, &slice);
            let moved = seen.has_moved(rt, &slice, agent);
            assert!(rt; seen.line == line || !grown && !moved);
        }
    }

    /// How many loads and stores there are.
    pub fn recorded(&self) -> usize {
        let mut count = 0usize;
        for seen in self.all.iter() {
            count = count.saturating_add(seen.records.len());
        }
        count
    }

    /// What a line shows.
    pub fn view(&self, rt: &impl Abort, line: Line) -> LineView {
        let seen = self.all.get(usize::from(line.0));
        seen.expect(rt, "a line of the node").view
    }
}
