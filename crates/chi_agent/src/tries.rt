//! The eligible operation of a script: what is tried of it.

ghost use Rattle.std.specs.Prelude.{◌≡◌, IfSome, length};
ghost use Rattle.chi_agent.specs.Choice.{by_task, drop_or_skip, issue, issue_into, load, lowest_idle_slot, operation, store_in, write_or_evict, IsChosenAt, IsOwnChoice};

use crate::choice::Choice;
use crate::operations::{OperationPlace, Operations, Unfinished};
use chi_flit::{Kind, Line, Slot, State, Step, Task, WordNo};
use chi_node::Requester;
use chi_slice::RnLine;
use std::alloc::Allocator;

/// The free slot of the lowest number.
fn lowest_idle(requester: &Requester) -> Option<Slot>
    requires { length requester.now.slots ≡ 8 }
    ensures { result ≡ lowest_idle_slot requester.now.slots }
{
    requester.lowest_idle()
}

/// A request of the kind for the operation at the place; `None` where a request is pending, or no slot is
/// idle.
fn issue(copy: &RnLine, requester: &Requester, place: OperationPlace, kind: Kind) -> Option<Choice>
    requires { length requester.now.slots ≡ 8 }
    ensures is { result ≡ issue copy.now requester.now.slots place kind }
    ensures own { IfSome result (IsChosenAt place) }
{
    if copy.pending().is_some() {
        return None;
    }
    let slot = lowest_idle(requester)?;
    Some(Choice::Try(place, Step::Issue(kind, slot)))
}

/// A load where the copy is valid, and else a read of the kind.
fn load(
    copy: &RnLine,
    requester: &Requester,
    place: OperationPlace,
    word: WordNo,
    kind: Kind,
) -> Option<Choice>
    requires { length requester.now.slots ≡ 8 }
    ensures is { result ≡ load copy.now requester.now.slots place word kind }
    ensures own { IfSome result (IsChosenAt place) }
{
    if copy.state().is_valid() {
        return Some(Choice::Try(place, Step::Load(word)));
    }
    issue(copy, requester, place, kind)
}

/// A store in a unique copy, and else the request that makes the copy so.
fn store(
    copy: &RnLine,
    requester: &Requester,
    place: OperationPlace,
    word: WordNo,
    value: u64,
) -> Option<Choice>
    requires { length requester.now.slots ≡ 8 }
    ensures is { result ≡ store_in copy.now.state copy.now requester.now.slots place word value }
    ensures own { IfSome result (IsChosenAt place) }
{
    match copy.state() {
        State::I => issue(copy, requester, place, Kind::ReadUnique),
        State::SC | State::SD => issue(copy, requester, place, Kind::CleanUnique),
        State::UC | State::UD => Some(Choice::Try(place, Step::Store(word, value))),
    }
}

/// A copy-back or an Evict, which is finished where it was issued and nothing is pending, or where the copy
/// is in another state than the needed one.
fn write_or_evict(
    issued: bool,
    copy: &RnLine,
    requester: &Requester,
    place: OperationPlace,
    kind: Kind,
) -> Option<Choice>
    requires { length requester.now.slots ≡ 8 }
    ensures is { result ≡ write_or_evict issued copy.now requester.now.slots place kind }
    ensures own { IfSome result (IsChosenAt place) }
{
    if issued {
        return match copy.pending() {
            Some(_) => None,
            None => Some(Choice::Finish(place)),
        };
    }
    if !kind.needs(copy.state()) {
        return Some(Choice::Finish(place));
    }
    issue(copy, requester, place, kind)
}

/// A drop of a clean copy; it is skipped in another state.
fn drop_or_skip(copy: &RnLine, place: OperationPlace) -> Option<Choice>
    ensures is { result ≡ drop_or_skip copy.now place }
    ensures own { IfSome result (IsChosenAt place) }
{
    match copy.state() {
        State::SC | State::UC => Some(Choice::Try(place, Step::Drop)),
        State::I | State::UD | State::SD => Some(Choice::Finish(place)),
    }
}

/// What is tried of the operation at the place.
fn by_task(
    found: Unfinished,
    copy: &RnLine,
    requester: &Requester,
    place: OperationPlace,
) -> Option<Choice>
    requires { length requester.now.slots ≡ 8 }
    ensures is { result ≡ by_task found.operation.task found.issued copy.now requester.now.slots place }
    ensures own { IfSome result (IsChosenAt place) }
{
    let issued = found.issued;
    match found.operation.task {
        Task::Load(word) => load(copy, requester, place, word, Kind::ReadNotSharedDirty),
        Task::Share(word) => load(copy, requester, place, word, Kind::ReadShared),
        Task::Store(word, value) => store(copy, requester, place, word, value),
        Task::WriteBack => write_or_evict(issued, copy, requester, place, Kind::WriteBackFull),
        Task::WriteClean => write_or_evict(issued, copy, requester, place, Kind::WriteCleanFull),
        Task::WriteEvict => write_or_evict(issued, copy, requester, place, Kind::WriteEvictFull),
        Task::Evict => write_or_evict(issued, copy, requester, place, Kind::Evict),
        Task::Drop => drop_or_skip(copy, place),
    }
}

/// What is tried of the eligible operation on the line; `None` where the script has stopped, where there is
/// none, and where nothing is to be done of it.
pub(crate) fn operation<A: Allocator>(
    stopped: bool,
    operations: &Operations<A>,
    copy: &RnLine,
    requester: &Requester,
    line: Line,
) -> Option<Choice>
    requires { length requester.now.slots ≡ 8 }
    ensures is { result ≡ operation stopped operations.now copy.now requester.now.slots line.0 }
    ensures own { IfSome result (IsOwnChoice operations.now) }
{
    if stopped {
        return None;
    }
    let place = operations.eligible(line)?;
    by_task(operations.at(place), copy, requester, place)
}
