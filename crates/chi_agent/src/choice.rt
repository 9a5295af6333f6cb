//! What a turn has a requester do on the slice of its line.

ghost use Rattle.std.specs.Prelude.{◌≡◌, ◌<◌, ◌/◌, IfSome};
ghost use Rattle.chi_agent.specs.Choice.{choice, choice_at, drawn_line, IsOwnChoice};
ghost use Rattle.chi_agent.specs.declared.choice.Call.TheVariants as variants;

use crate::deliveries::delivery_at;
use crate::operations::{OperationPlace, Operations};
use crate::retries::retry;
use crate::tries::operation;
use crate::turn_line::TurnLine;
use chi_flit::{Line, Step};
use chi_node::Requester;
use chi_slice::{Config, Slice};
use std::alloc::Allocator;

/// A call of a requester on a slice.
/// Source: `docs/PROTOCOL.md`, "A requester and its calls".
#[derive(Clone, Copy, Debug, PartialEq, Eq)]
pub enum Call {
    /// A step of its own.
    Step(Step),
    /// The arrival of its request that is in flight.
    Arrival,
}

impl Default for Call {
    ghost is_default = { λ call. call ≡ variants.Arrival };

    // What the unused places of a list of calls hold.
    fn default() -> Call {
        Call::Arrival
    }
}

/// What is done in a turn.
/// Source: `docs/FORMATS.md`, "A turn".
#[derive(Clone, Copy, Debug, PartialEq, Eq)]
pub enum Choice {
    /// The operation at the place is skipped, or its request has ended: it is finished.
    Finish(OperationPlace),
    /// The operation at the place is tried by the step.
    Try(OperationPlace, Step),
    /// A retried request is resent or cancelled, or a message is delivered.
    Do(Call),
}

/// The line of a turn: the word of the draw, modulo the number of lines.
/// Source: `docs/FORMATS.md`, "A turn".
pub fn line_of(config: &Config, x: u32) -> Line
    ensures is { result ≡ drawn_line config.now x }
    ensures inside { result.0 < config.now.lines }
{
    // (the largest node by a constant, so that its turns have no division)
    match config.lines() {
        64 => Line((x % 64) as u8),
        lines => Line((x % u32::from(lines)) as u8),
    }
}

/// The number by which a turn picks a delivery: the word of the draw, divided by the number of lines.
fn number_of(config: &Config, x: u32) -> u32
    ensures { result ≡ x / config.now.lines }
{
    match config.lines() {
        64 => x / 64,
        lines => x / u32::from(lines),
    }
}

/// What is done at a line of the slice: the first of the three parts that has a choice.
fn choose_at<A: Allocator, B: Allocator>(
    here: &TurnLine<'_, B>,
    operations: &Operations<A>,
    stopped: bool,
    number: u32,
) -> Option<Choice>
    ensures is { result
        ≡ choice_at here.now.slice.now here.now.requester.now operations.now stopped here.now.line number }
    ensures own { IfSome result (IsOwnChoice operations.now) }
{
    let (requester, copy) = (here.requester, here.at.copy);
    if let Some(choice) = retry(here.slice.config().profile(), copy, requester) {
        return Some(choice);
    }
    if let Some(choice) = operation(stopped, operations, copy, requester, here.line) {
        return Some(choice);
    }
    delivery_at(here, number)
}

/// What is done for the word of the draw, which drew the line; `None` where nothing is, and of a slice that
/// hasn't the line. A choice is a finish or a try of an operation of the window, or a call.
pub(crate) fn choose<A: Allocator, B: Allocator>(
    slice: &Slice<B>,
    requester: &Requester,
    operations: &Operations<A>,
    stopped: bool,
    line: Line,
    x: u32,
) -> Option<Choice>
    requires { line ≡ drawn_line slice.now.config x }
    ensures is { result ≡ choice slice.now requester.now operations.now stopped x }
    ensures own { IfSome result (IsOwnChoice operations.now) }
{
    let number = number_of(slice.config(), x);
    let here = TurnLine::of(slice, requester, line)?;
    choose_at(&here, operations, stopped, number)
}
