//! A node behind a handle that C holds.

ghost use Rattle.std.specs.Prelude.{◌≡◌, None, Some};
ghost use Rattle.std.specs.declared.option.Option.{Option};
ghost use Rattle.std.specs.Option.{MatchOption};
ghost use Rattle.chi_node.specs.System.{SystemState};
ghost use Rattle.chi_library.specs.NodeHandle.{node_code, node_ownership};

use crate::box_pointer::BoxPointer;
use chi_node::System;
use std::alloc::Global;
use std::marker::Model;
use std::mem;
use std::ptr::null_mut;

/// A node that C holds: a pointer to it, or null where there is none. Contracts see the node as `value`.
/// Source: `docs/LIBRARY.md`, "Handles".
#[repr(C)]
#[derive(Drop)]
pub struct ChiNode {
    at: *mut u8,
    alloc: Global,
    pub ghost value: { Option SystemState } by { node_code },
}

impl Model for ChiNode {
    ghost also_owns = { λ h. node_ownership h.alloc h.at h.value };
}

impl ChiNode {
    /// A handle of no node.
    fn none(alloc: Global) -> ChiNode
        ensures { result.value ≡ None }
    {
        ChiNode {
            at: null_mut(),
            alloc,
        }
    }

    /// The handle of a node.
    fn of(node: BoxPointer<System<Global>, Global>) -> ChiNode
        ensures { result.value ≡ Some node.value }
    {
        let BoxPointer { at, alloc } = node;
        ChiNode {
            at: at as *mut u8,
            alloc,
        }
    }

    /// The node of a handle, if it has one.
    fn into_node(self) -> Option<BoxPointer<System<Global>, Global>>
        ensures { MatchOption result (self.value ≡ None) (λ node. self.value ≡ Some node.value) }
    {
        let ChiNode { at, alloc } = self;
        if at.is_null() {
            None
        } else {
            Some(BoxPointer {
                at: at as *mut System<Global>,
                alloc,
            })
        }
    }

    /// Takes the node out, if there is one: the handle is closed then.
    pub(crate) fn take(&mut self, alloc: Global) -> Option<Box<System<Global>>>
        ensures node { MatchOption result (self.old.value ≡ None) (λ held. self.old.value
            ≡ Some held.value) }
        ensures closed { self.new.value ≡ None }
    {
        let handle = mem::replace(self, ChiNode::none(alloc));
        Some(handle.into_node()?.into_box())
    }

    /// Puts a node into a closed handle.
    pub(crate) fn put(&mut self, node: Box<System<Global>>)
        requires { self.old.value ≡ None }
        ensures { self.new.value ≡ Some node.value }
    {
        *self = ChiNode::of(BoxPointer::of(node));
    }
}
