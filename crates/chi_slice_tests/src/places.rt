//! Which lines a slice has, and where it finds the request of a slot (`docs/PROTOCOL.md`, "Limits" and
//! "Agreement").

ghost use Rattle.std.specs.Prelude.{◌≡◌};

use chi_flit::CreditType::{T0, T1, T2, T3};
use chi_flit::Kind::{Evict, ReadUnique, WriteCleanFull};
use chi_flit::{Agent, CreditType, Effect, Line, Refusal, Slot, WordNo};
use chi_slice::Position::{Admitted, Answered, Closing, Refused, Resent, Retried, Sent};
use chi_slice::Step::{
    self, Admit, Issue, Load, RecvAck, RecvComp, RecvData, RecvDbid, RecvRetry, RecvSnp,
    RecvSnpResp, RecvWrData, Resend, Retry, Start, Store,
};
use chi_slice::{Action, Config, Position, RequestPlace, Slice};
use std::alloc::{Allocator, Global};
use std::process::Abort;

const LINE: Line = Line(0);

/// The slot of every request here.
const SLOT: Slot = Slot(5);

/// A node of three agents and four credit types, with five lines in so many slices.
pub fn node(rt: &impl Abort, slices: u8) -> Config
    ensures { result.slices ≡ slices }
{
    Config::four(3, 5, slices, [1, 1, 1, 1], 16).expect(rt, "sizes in their limits")
}

/// The agent's step at the line. A call of its own, so that no test carries along what each action promises;
/// so are the other questions here.
pub fn done<A: Allocator>(
    slice: &mut Slice<A>,
    agent: u8,
    line: Line,
    step: Step,
) -> Result<Effect, Refusal> {
    let agent = Agent(agent);
    slice.act(Action { agent, line, step })
}

/// What the agent's step would complete.
fn completes<A: Allocator>(slice: &Slice<A>, agent: u8, step: Step) -> Option<Slot> {
    let (agent, line) = (Agent(agent), LINE);
    slice.completes(Action { agent, line, step })
}

/// Where the agent's slot is found.
fn place<A: Allocator>(slice: &Slice<A>, agent: u8) -> Option<RequestPlace> {
    slice.place(Agent(agent), SLOT)
}

/// Whether the agent's slot may be of the credit type.
fn has<A: Allocator>(slice: &Slice<A>, agent: u8, credit: CreditType) -> bool {
    slice.has_type(Agent(agent), SLOT, credit)
}

/// A line, and which of the node's two slices has it, if one does.
const LINES: [(u8, Option<u8>); 7] = [
    (0, Some(0)),
    (1, Some(1)),
    (2, Some(0)),
    (4, Some(0)),
    (5, None),
    (64, None),
    (255, None),
];

/// Whether the slice has the line, and acts at it, by the row.
fn has_line_by(slice: &mut Slice<Global>, line: u8, owner: Option<u8>) -> bool {
    let has = owner == Some(slice.index());
    let asked = done(slice, 0, Line(line), Issue(ReadUnique, Slot(line % 8)));
    slice.has_line(Line(line)) == has && asked.is_ok() == has
}

/// A slice of two has its own lines.
fn has_lines(rt: &impl Abort, slice: &mut Slice<Global>) {
    for (line, owner) in &LINES {
        assert!(rt; has_line_by(slice, *line, *owner), "line {line}");
    }
}

#[test]
fn a_slice_has_its_own_lines(rt: HostRuntime) {
    let config = node(&rt, 2);
    for index in 0..2 {
        let made = Slice::new(rt.alloc(), &config, index);
        has_lines(&rt, &mut made.expect(&rt, "memory for a slice"));
    }
}

/// A step of an agent, and its slot after it: whether its request is completed by the step, where it is then,
/// and its credit type, if the slice keeps one.
pub type Row = (u8, Step, bool, Option<Position>, Option<CreditType>);

/// A read that is retried, a copy-back with a store behind its data, a snoop, and an Evict.
pub const WALK: [Row; 30] = [
    (0, Issue(ReadUnique, SLOT), false, Some(Sent), Some(T2)),
    (0, Retry, false, Some(Refused), Some(T2)),
    (0, RecvRetry, false, Some(Retried), Some(T2)),
    (0, Resend, false, Some(Resent), Some(T2)),
    (0, Admit, false, Some(Admitted), Some(T2)),
    (0, Start, false, Some(Admitted), Some(T2)),
    // the home keeps no kind while it awaits the CompAck
    (0, RecvData, false, Some(Answered), None),
    (0, RecvAck, true, None, None),
    (0, Store(WordNo(7), 5), false, None, None),
    (0, Issue(WriteCleanFull, SLOT), false, Some(Sent), Some(T1)),
    (0, Admit, false, Some(Admitted), Some(T1)),
    (0, Start, false, Some(Admitted), Some(T1)),
    (0, RecvDbid, false, Some(Answered), Some(T1)),
    (0, Store(WordNo(7), 6), false, Some(Answered), Some(T1)),
    (0, RecvWrData, true, None, None),
    (0, Issue(WriteCleanFull, SLOT), false, Some(Sent), Some(T1)),
    (1, Issue(ReadUnique, SLOT), false, Some(Sent), Some(T2)),
    (1, Admit, false, Some(Admitted), Some(T2)),
    (1, Start, false, Some(Admitted), Some(T2)),
    (0, RecvSnp, false, Some(Sent), Some(T1)),
    (0, RecvSnpResp, false, Some(Sent), Some(T1)),
    (1, RecvData, false, Some(Answered), None),
    (1, Load(WordNo(7)), false, Some(Answered), None),
    (1, RecvAck, true, None, None),
    (1, Issue(Evict, SLOT), false, Some(Sent), Some(T3)),
    (1, Admit, false, Some(Admitted), Some(T3)),
    (1, Start, true, Some(Closing), Some(T3)),
    (1, RecvComp, false, None, None),
    (0, Retry, false, Some(Refused), Some(T1)),
    (0, RecvRetry, false, Some(Retried), Some(T1)),
];

/// Whether the agent's slot is found there, and is of the type alone; where the slice keeps none, of any.
fn is_found<A: Allocator>(
    slice: &Slice<A>,
    agent: u8,
    at: Option<Position>,
    kept: Option<CreditType>,
) -> bool {
    let mut found = place(slice, agent) == at.map(|at| RequestPlace { line: LINE, at });
    for credit in [T0, T1, T2, T3] {
        found &= has(slice, agent, credit) == (kept.is_none() || kept == Some(credit));
    }
    found
}

/// Whether the slice goes on by the row.
pub fn goes_by<A: Allocator>(slice: &mut Slice<A>, row: &Row) -> bool {
    let (agent, step, ends, at, kept) = *row;
    let would = completes(slice, agent, step) == Some(SLOT);
    let effect = done(slice, agent, LINE, step);
    let does = effect == Ok(Effect::Completed(SLOT));
    effect.is_ok() && would == ends && does == ends && is_found(slice, agent, at, kept)
}

/// The slice goes the whole walk.
fn walks<A: Allocator>(rt: &impl Abort, slice: &mut Slice<A>) {
    for row in &WALK {
        assert!(rt; goes_by(slice, row), "{row:?}");
    }
}

#[test]
fn a_request_is_found_after_each_step(rt: HostRuntime) {
    let made = Slice::new(rt.alloc(), &node(&rt, 1), 0);
    walks(&rt, &mut made.expect(&rt, "memory for a slice"));
}
