//! Lines whose memory isn't 0 at first.

ghost use Rattle.std.specs.Prelude.{◌≡◌, ◌↔◌, IfOk, IsTrue, is_none, not, true};
ghost use Rattle.std.specs.List.{All};
ghost use Rattle.chi_flit.specs.declared.state.State.TheVariants.{I};
ghost use Rattle.chi_slice.specs.Servings.{Idle};
ghost use Rattle.chi_explain.specs.Opening.{IsOpen, IsOpenAt, IsOpenedIf, IsUntouched, are_empty};

use chi_flit::{Action, Agent, Data, Kind, Line, NoMemory, Slot, State, Step, WordNo};
use chi_slice::{Cells, Config, CopyView, LineView, Pending, Serving, Slice, Waiting};
use std::alloc::Allocator;

/// The line of a slice that has one.
pub(crate) const LINE: Line = Line(0);

/// Who stores what is memory at first.
const STORER: Agent = Agent(0);

/// The steps that make a copy of a line unique, before the stores.
const READ: [Step; 5] = [
    Step::Issue(Kind::ReadUnique, Slot(0)),
    Step::Admit,
    Step::Start,
    Step::RecvData,
    Step::RecvAck,
];

/// The steps that write a copy back, behind the stores.
const WRITE_BACK: [Step; 5] = [
    Step::Issue(Kind::WriteBackFull, Slot(0)),
    Step::Admit,
    Step::Start,
    Step::RecvDbid,
    Step::RecvWrData,
];

/// The first slice of a node, at whose line 0 nobody has a copy and nothing is under way, and whose memory has
/// these words there: a requester has stored them and written them back. `None` where the journal has no room
/// for eight stores. Refused where memory runs out.
/// Source: `docs/TRACES.md`, "Explanations".
pub fn opened<A: Allocator + Copy>(
    alloc: A,
    config: &Config,
    memory: Data,
) -> Result<Option<Slice<A>>, NoMemory>
    ensures { IfOk result (IsOpenedIf config.now memory) }
{
    // A node has a slice: the call tells its limits.
    let _some = config.slices();
    let mut slice = Slice::new(alloc, config, 0)?;
    put_memory(&mut slice, &memory);
    if is_open_at(&slice, &memory) {
        Ok(Some(slice))
    } else {
        Ok(None)
    }
}

/// Stores the words and writes them back.
fn put_memory<A: Allocator>(slice: &mut Slice<A>, memory: &Data)
    ensures { slice.new.config ≡ slice.old.config }
{
    do_all(slice, &READ);
    for (word, value) in memory.iter().enumerate() {
        let step = Step::Store(WordNo(word as u8), *value);
        do_all(slice, &[step]);
    }
    do_all(slice, &WRITE_BACK);
}

/// Does the storer's steps on the line, in their order; what is refused is passed over.
fn do_all<A: Allocator>(slice: &mut Slice<A>, steps: &[Step])
    ensures { slice.new.config ≡ slice.old.config }
{
    for step in steps {
        let action = Action {
            agent: STORER,
            line: LINE,
            step: *step,
        };
        let _ = slice.run(&[action]);
    }
}

/// Whether nobody has a copy of line 0 and nothing is under way at it, and memory has these words there.
fn is_open_at<A: Allocator>(slice: &Slice<A>, memory: &Data) -> bool
    ensures { IsTrue result → IsOpenAt memory.now slice.now }
{
    // The call tells what a slice keeps.
    let _kept = slice.row_for(STORER, LINE);
    match slice.view(LINE) {
        Ok(view) => is_open(&view, memory),
        Err(_) => false,
    }
}

/// The same of the line as plain data.
fn is_open(view: &LineView, memory: &Data) -> bool
    ensures { IsTrue result → IsOpen memory.now view.now }
{
    let copies = are_invalid(&view.copies);
    let words = view.memory == *memory;
    let last = view.last == *memory;
    let flits = are_empty(&view.flits);
    copies & words & last & flits & is_quiet(view)
}

/// Whether no copy is valid.
fn are_invalid(copies: &[CopyView; 8]) -> bool
    ensures { IsTrue result ↔ All (λ copy. copy.state ≡ I) copies.now }
{
    copies.iter().all(|copy| matches!(copy.state, State::I))
}

/// Whether nothing is in flight.
fn are_empty(flits: &[Cells; 8]) -> bool
    ensures { IsTrue result ↔ All (λ cells. are_empty cells ≡ true) flits.now }
{
    flits.iter().all(|cells| has_none(cells))
}

/// Whether nothing is in flight to or from one agent.
fn has_none(cells: &Cells) -> bool
    ensures { result ≡ are_empty cells.now }
{
    cells.req.is_none()
        && cells.snp.is_none()
        && cells.rsp_down.is_none()
        && cells.dat_down.is_none()
        && cells.rsp_up.is_none()
        && cells.dat_up.is_none()
}

/// Whether the home names nobody, and nothing is pending, waits or is served.
fn is_quiet(view: &LineView) -> bool
    ensures { IsTrue result → IsUntouched view.now }
{
    let pending = is_nothing_pending(&view.pending);
    let waiting = does_nothing_wait(&view.waiting);
    let named = is_nobody_named(&view.named);
    let nobody = !view.unique & view.owner.is_none();
    pending & waiting & named & nobody & is_idle(view.serving)
}

/// Whether no request is pending.
fn is_nothing_pending(pending: &[Option<Pending>; 8]) -> bool
    ensures { IsTrue result ↔ All (λ request. is_none request ≡ true) pending.now }
{
    pending.iter().all(|request| request.is_none())
}

/// Whether no request waits.
fn does_nothing_wait(waiting: &[Option<Waiting>; 8]) -> bool
    ensures { IsTrue result ↔ All (λ request. is_none request ≡ true) waiting.now }
{
    waiting.iter().all(|request| request.is_none())
}

/// Whether nobody is named.
fn is_nobody_named(named: &[bool; 8]) -> bool
    ensures { IsTrue result ↔ All (λ marked. not marked ≡ true) named.now }
{
    named.iter().all(|marked| !*marked)
}

/// Whether no request is served.
fn is_idle(serving: Serving) -> bool
    ensures { IsTrue result ↔ (serving ≡ Idle) }
{
    matches!(serving, Serving::Idle)
}
