//! Requests that cross one another, done call by call under locks.

ghost use Rattle.std.specs.Prelude.{◌≡◌};
ghost use Rattle.chi_slice.specs.Words.{two_types};

use crate::guests::{Guest, guests_of};
use crate::seen_lines::SeenLines;
use chi_flit::Kind::{CleanUnique, ReadNotSharedDirty, ReadUnique, WriteBackFull};
use chi_flit::Step::{
    self, Issue, Load, RecvAck, RecvData, RecvDbid, RecvSnp, RecvSnpResp, RecvWrData, Start, Store,
};
use chi_flit::{Agent, Effect, Entry, Line, Slot, State, WordNo};
use chi_node::{Arrived, Node, Released, Stepped};
use chi_slice::{Config, LineView, Serving};
use std::alloc::Global;
use std::process::Abort;
use std::sync::Wait;

const LINE: Line = Line(0);

/// A call of an agent, with its answer.
#[derive(Clone, Copy)]
enum Call {
    Comes(Entry),
    Does(Step, Stepped),
}

const NOTHING: Stepped = Stepped {
    effect: Effect::Nothing,
    released: None,
};

const FREED: Stepped = Stepped {
    effect: Effect::Completed(Slot(0)),
    released: Some(Released::Freed),
};

const VALUE: Stepped = Stepped {
    effect: Effect::Value(9),
    released: None,
};

/// A ReadUnique takes the line from under a waiting WriteBackFull, whose data then changes nothing.
const CALLS: [(u8, Call); 20] = [
    (0, Call::Does(Issue(ReadUnique, Slot(0)), NOTHING)),
    (0, Call::Comes(Entry(0))),
    (0, Call::Does(Start, NOTHING)),
    (0, Call::Does(RecvData, NOTHING)),
    (0, Call::Does(RecvAck, FREED)),
    (0, Call::Does(Store(WordNo(0), 5), NOTHING)),
    (0, Call::Does(Issue(WriteBackFull, Slot(0)), NOTHING)),
    (0, Call::Comes(Entry(2))),
    (1, Call::Does(Issue(ReadUnique, Slot(0)), NOTHING)),
    (1, Call::Comes(Entry(0))),
    (1, Call::Does(Start, NOTHING)),
    (0, Call::Does(RecvSnp, NOTHING)),
    (0, Call::Does(RecvSnpResp, NOTHING)),
    (1, Call::Does(RecvData, NOTHING)),
    (1, Call::Does(RecvAck, FREED)),
    (1, Call::Does(Store(WordNo(0), 9), NOTHING)),
    (0, Call::Does(Start, NOTHING)),
    (0, Call::Does(RecvDbid, NOTHING)),
    (0, Call::Does(RecvWrData, FREED)),
    (1, Call::Does(Load(WordNo(0)), VALUE)),
];

/// A CleanUnique waits while another agent reads the line, which three agents then have a clean copy of.
const CLEAN_CALLS: [(u8, Call); 17] = [
    (0, Call::Does(Issue(ReadNotSharedDirty, Slot(0)), NOTHING)),
    (0, Call::Comes(Entry(0))),
    (0, Call::Does(Start, NOTHING)),
    (0, Call::Does(RecvData, NOTHING)),
    (0, Call::Does(RecvAck, FREED)),
    (1, Call::Does(Issue(ReadNotSharedDirty, Slot(0)), NOTHING)),
    (1, Call::Comes(Entry(0))),
    (1, Call::Does(Start, NOTHING)),
    (0, Call::Does(RecvSnp, NOTHING)),
    (0, Call::Does(RecvSnpResp, NOTHING)),
    (1, Call::Does(RecvData, NOTHING)),
    (1, Call::Does(RecvAck, FREED)),
    (1, Call::Does(Issue(CleanUnique, Slot(0)), NOTHING)),
    (2, Call::Does(Issue(ReadNotSharedDirty, Slot(0)), NOTHING)),
    (2, Call::Comes(Entry(0))),
    (2, Call::Does(Start, NOTHING)),
    (2, Call::Does(RecvData, NOTHING)),
];

/// Two requesters on one line, with two entries of type 0 and one of type 1.
fn sizes(rt: &impl Abort) -> Config
    ensures { result ≡ two_types 2 1 1 2 1 8 }
{
    Config::new(2, 1, 1, 2, 1, 8).expect(rt, "sizes in their limits")
}

/// The call is answered as it says.
fn plays<R: Abort + Wait>(rt: &R, guest: &mut Guest<'_>, call: Call) {
    match call {
        Call::Comes(entry) => {
            let came = guest.arrives(rt, LINE);
            assert_eq!(rt; came, Ok(Arrived::Admitted(entry)));
        }
        Call::Does(step, wanted) => {
            let done = guest.does(rt, LINE, step);
            assert_eq!(rt; done, Ok(wanted), "{step:?}");
        }
    }
}

/// Whether the reader has the line to itself, nobody is served or waits, and memory has what was handed on.
fn has_ended(view: &LineView) -> bool {
    let named = [false, true, false, false, false, false, false, false];
    view.copies[0].state == State::I
        && view.copies[1].state == State::UD
        && view.copies[1].words == [9, 0, 0, 0, 0, 0, 0, 0]
        && (view.named, view.unique) == (named, true)
        && view.serving == Serving::Idle
        && view.waiting == [None; 8]
        && view.memory == [5, 0, 0, 0, 0, 0, 0, 0]
}

/// What line 0 shows, and how many loads and stores there are, where these calls are done in a node of that size.
/// After each call every slice is looked at.
fn played<R: Abort + Wait>(
    rt: &R,
    alloc: Global,
    config: &Config,
    calls: &[(u8, Call)],
) -> (LineView, usize) {
    let made = Node::new(alloc, config);
    let (node, requesters) = made.expect(rt, "memory for a node");
    let mut guests = guests_of(rt, alloc, &node, requesters);
    let mut seen_lines = SeenLines::new(rt, alloc, &node);
    for (agent, call) in calls {
        assert!(rt; usize::from(*agent) < guests.len());
        plays(rt, &mut guests[usize::from(*agent)], *call);
        seen_lines.follow(rt, Agent(*agent), LINE);
    }
    (seen_lines.view(rt, LINE), seen_lines.recorded())
}

#[test]
fn a_call_changes_nothing_but_its_line(rt: HostRuntime) {
    let (view, recorded) = played(&rt, rt.alloc(), &sizes(&rt), &CALLS);
    assert!(rt; has_ended(&view) && recorded == 3);
}

/// Three requesters on one line, with two entries of type 0 and one of type 1.
fn three(rt: &impl Abort) -> Config
    ensures { result ≡ two_types 3 1 1 2 1 8 }
{
    Config::new(3, 1, 1, 2, 1, 8).expect(rt, "sizes in their limits")
}

#[test]
fn a_call_changes_no_copy_but_its_agents(rt: HostRuntime) {
    let (view, _) = played(&rt, rt.alloc(), &three(&rt), &CLEAN_CALLS);
    for agent in 0..3 {
        assert_eq!(rt; view.copies[agent].state, State::SC);
    }
}
