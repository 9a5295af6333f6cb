//! A node that is made and closed.

use chi_flit::{Line, Refusal};
use chi_node::Node;
use chi_slice::Config;
use std::alloc::Global;
use std::process::Abort;
use std::sync::Wait;

/// Each line's slice is behind the lock of that line, and a line outside the node has none.
fn lends_each_slice<R: Abort + Wait>(rt: &R, node: &Node<Global>) {
    for line in 0..5 {
        let Ok(slice) = node.lock(rt, Line(line)) else {
            panic!(rt; "line {line} has no slice");
        };
        assert!(rt; slice.index() == line % 2);
    }
    assert!(rt; node.lock(rt, Line(5)).is_err());
}

/// Whether the node has five lines, and all entries of its tracker are free.
fn is_new(node: &Node<Global>) -> bool {
    node.config().lines() == 5 && node.tracker().glance().free == [2, 1, 0, 0]
}

#[test]
fn a_new_node_is_closed(rt: HostRuntime) {
    let config = Config::new(3, 5, 2, 2, 1, 16).expect(&rt, "sizes in their limits");
    let made = Node::new(rt.alloc(), &config);
    let (node, requesters) = made.expect(&rt, "memory for a node");
    lends_each_slice(&rt, &node);
    assert!(rt; is_new(&node));
    let (slices, totals) = node.close(requesters);
    assert!(rt; slices.len() == 2);
    for (place, slice) in slices.iter().enumerate() {
        assert!(rt; usize::from(slice.index()) == place);
    }
    assert!(rt; totals.counts.free == [2, 1, 0, 0] && totals.requesters.len() == 3);
}
