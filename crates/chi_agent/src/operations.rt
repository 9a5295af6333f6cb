//! The unfinished operations of an agent's script.

ghost use Rattle.std.specs.Prelude.{◌≡◌, ◌<◌, ◌↔◌, [], IsTrue, IfSome, IfNone, map, length, position, slice_set, remove};
ghost use Rattle.chi_agent.specs.Operations.{eligible_on, is_on, issued_operation, no_operation, unfinished_at, unissued_operation, IsEligible, IsNoneEligible};

use arrayvec::ArrayVec;
use chi_flit::{Line, Operation, Task};
use std::alloc::Allocator;
use std::marker::Model;

/// The place of an operation among the unfinished ones, from 0.
/// Source: `docs/FORMATS.md`, "A turn".
#[derive(Clone, Copy, Debug, PartialEq, Eq)]
pub struct OperationPlace(pub usize);

/// An operation that isn't finished, and whether its request was issued.
/// Source: `docs/FORMATS.md`, "A turn".
#[derive(Clone, Copy, Debug, PartialEq, Eq)]
pub struct Unfinished {
    pub operation: Operation,
    pub issued: bool,
}

impl Unfinished {
    // An operation of the script, before its request is issued.
    fn new(operation: Operation) -> Unfinished
        ensures { result ≡ unissued_operation operation }
    {
        Unfinished {
            operation,
            issued: false,
        }
    }
}

impl Default for Unfinished {
    ghost is_default = { λ one. one ≡ no_operation };

    // What the unused places of a window hold.
    fn default() -> Unfinished {
        Unfinished::new(Operation {
            line: Line(0),
            task: Task::Drop,
        })
    }
}

/// The place of the first operation that is on a line.
fn first_on(operations: &[Unfinished], line: Line) -> Option<usize>
    ensures { result ≡ position (is_on line.0) operations.now }
{
    operations.iter().position(|one| one.operation.line == line)
}

/// The operations of a script that aren't finished. Contracts see their list, in the script's order.
///
/// The first eight of them are the window; one there is eligible where no earlier one is on its line.
/// Source: `docs/FORMATS.md`, "A turn".
#[derive(Drop)]
pub struct Operations<A: Allocator> {
    window: ArrayVec<Unfinished, 8>,
    script: Vec<Operation, A>,
    next: usize,
}

impl<A: Allocator> Model for Operations<A> {
    ghost use Rattle.std.specs.Prelude.{List};
    ghost use Rattle.chi_agent.specs.declared.operations.Unfinished.{Unfinished};
    ghost use Rattle.chi_agent.specs.Operations.{unfinished_of, IsFilled};

    ghost Value = { List Unfinished };

    ghost view = { λ o. unfinished_of o.window.items o.script.items o.next };

    ghost invariant = { λ o. IsFilled o.window.items o.script.items o.next };
}

impl<A: Allocator> Operations<A> {
    /// All operations of a script, none of them issued. It takes no memory.
    /// Source: `docs/FORMATS.md`, "Storm files".
    pub fn new(script: Vec<Operation, A>) -> Operations<A>
        ensures { result ≡ map unissued_operation script.items }
    {
        let next = script.len().min(8);
        let mut window = ArrayVec::new();
        for place in 0..next {
            window.push(Unfinished::new(script[place]));
        }
        Operations {
            window,
            script,
            next,
        }
    }

    /// Whether all operations are finished.
    /// Source: `docs/FORMATS.md`, "A turn".
    pub fn is_empty(&self) -> bool
        ensures { IsTrue result ↔ (self.now ≡ []) }
    {
        self.window.is_empty()
    }

    /// The place of the eligible operation on a line; `None` where no operation of the window is on it.
    /// Source: `docs/FORMATS.md`, "A turn".
    pub fn eligible(&self, line: Line) -> Option<OperationPlace>
        ensures is { result ≡ eligible_on self.now line.0 }
        ensures some { IfSome result (λ place. IsEligible self.now line.0 place.0) }
        ensures none { IfNone result (IsNoneEligible self.now line.0) }
    {
        let place = first_on(&self.window, line)?;
        Some(OperationPlace(place))
    }

    /// The operation at a place of the window.
    ///
    /// Conditions: the place is below 8, and so many operations are unfinished.
    /// Source: `docs/FORMATS.md`, "A turn".
    pub fn at(&self, place: OperationPlace) -> Unfinished
        requires window { place.0 < 8 }
        requires there { place.0 < length self.now }
        ensures { result ≡ unfinished_at self.now place.0 }
    {
        self.window[place.0]
    }

    /// The request of the operation at a place of the window was issued. All else stays.
    ///
    /// Conditions: the place is below 8, and so many operations are unfinished.
    /// Source: `docs/FORMATS.md`, "A turn".
    pub fn issue(&mut self, place: OperationPlace)
        requires window { place.0 < 8 }
        requires there { place.0 < length self.old }
        ensures { self.new ≡ slice_set self.old place.0 (issued_operation (unfinished_at self.old place.0)) }
    {
        self.window[place.0].issued = true;
    }

    /// The operation at a place of the window is finished. The others stay, in their order; it takes no
    /// memory.
    ///
    /// Conditions: the place is below 8, and so many operations are unfinished.
    /// Source: `docs/FORMATS.md`, "A turn".
    #[tactic(auto, using(crate::proofs::Windows::finished_refilled))]
    pub fn finish(&mut self, place: OperationPlace)
        requires window { place.0 < 8 }
        requires there { place.0 < length self.old }
        ensures { self.new ≡ remove self.old place.0 }
    {
        self.window.remove(place.0);
        if let Some(operation) = self.script.get(self.next) {
            self.window.push(Unfinished::new(*operation));
            self.next += 1;
        }
    }
}
