//! The parts of a node: beside a node behind locks, where the same calls leave the same slices, and a requester of them
//! beside the slice of another node, with which it doesn't agree (`docs/PROTOCOL.md`, "Agreement").

ghost use Rattle.std.specs.Prelude.{◌≡◌, [], ◌∷◌};
ghost use Rattle.chi_flit.specs.declared.credit.Profile.TheVariants.{Two};
ghost use Rattle.chi_slice.specs.Words.{two_types};
ghost use Rattle.chi_node.specs.Calls.{is_own_step};
ghost use Rattle.chi_node.specs.Node.{IsOwn};
ghost use Rattle.chi_node.specs.Parts.{opening_requesters, opening_slices};
ghost use Rattle.chi_node.specs.Words.{shape_of};

use crate::beside::Call::{Comes, Does};
use arrayvec::ArrayVec;
use chi_flit::Kind::{ReadNotSharedDirty, ReadUnique};
use chi_flit::Step::{self, Issue, Load, RecvAck, RecvData, RecvSnp, RecvSnpResp, Start};
use chi_flit::{Action, Effect, Entry, Line, Refusal, Slot, WordNo};
use chi_node::{
    Arrived, Node, Released, Requester, Stepped, Tracker, agrees, arrive_on, parts, step_on,
};
use chi_slice::{Config, Slice};
use std::alloc::Global;
use std::process::Abort;
use std::sync::Wait;

/// A call of a requester, with its answer.
#[derive(Clone, Copy)]
enum Call {
    Comes(Result<Arrived, Refusal>),
    Does(Step, Result<Stepped, Refusal>),
}

const NOTHING: Stepped = Stepped {
    effect: Effect::Nothing,
    released: None,
};

const FREED: Stepped = Stepped {
    effect: Effect::Completed(Slot(0)),
    released: Some(Released::Freed),
};

/// A requester reads a line of which the home names nobody.
const READ: [(u8, Call); 5] = [
    (0, Does(Issue(ReadNotSharedDirty, Slot(0)), Ok(NOTHING))),
    (0, Comes(Ok(Arrived::Admitted(Entry(0))))),
    (0, Does(Start, Ok(NOTHING))),
    (0, Does(RecvData, Ok(NOTHING))),
    (0, Does(RecvAck, Ok(FREED))),
];

/// The other one takes the line, which is refused while the first one's CompAck is in flight, and the first reads it
/// once more.
const CROSSING: [(u8, Call); 20] = [
    (0, Does(Issue(ReadUnique, Slot(0)), Ok(NOTHING))),
    (0, Comes(Ok(Arrived::Admitted(Entry(0))))),
    (0, Does(Start, Ok(NOTHING))),
    (0, Does(RecvData, Ok(NOTHING))),
    (1, Does(Issue(ReadUnique, Slot(0)), Ok(NOTHING))),
    (1, Comes(Ok(Arrived::Admitted(Entry(1))))),
    (1, Does(Start, Err(Refusal::LineBusy))),
    (0, Does(RecvAck, Ok(FREED))),
    (1, Does(Start, Ok(NOTHING))),
    (0, Does(RecvSnp, Ok(NOTHING))),
    (0, Does(RecvSnpResp, Ok(NOTHING))),
    (1, Does(RecvData, Ok(NOTHING))),
    (1, Does(RecvAck, Ok(FREED))),
    (0, Does(Issue(ReadNotSharedDirty, Slot(0)), Ok(NOTHING))),
    (0, Comes(Ok(Arrived::Admitted(Entry(0))))),
    (0, Does(Start, Ok(NOTHING))),
    (1, Does(RecvSnp, Ok(NOTHING))),
    (1, Does(RecvSnpResp, Ok(NOTHING))),
    (0, Does(RecvData, Ok(NOTHING))),
    (0, Does(RecvAck, Ok(FREED))),
];

/// Two requesters and four lines in two slices, with two entries of type 0 and one of type 1.
fn sizes(rt: &impl Abort) -> Config
    ensures { result ≡ two_types 2 4 2 2 1 16 }
{
    Config::new(2, 4, 2, 2, 1, 16).expect(rt, "sizes in their limits")
}

/// Whether a step is a requester's own: an arrival admits or retries.
fn is_own(step: Step) -> bool
    ensures { result ≡ is_own_step step }
{
    !matches!(step, Step::Admit | Step::Retry)
}

/// The node and its requesters, 0 and 1.
#[derive(Drop)]
struct Locked {
    node: Node<Global>,
    first: Requester,
    second: Requester,
    ghost agents: { node.tracker.shape.agents ≡ 2 },
    ghost first_own: { IsOwn node first },
    ghost second_own: { IsOwn node second },
}

/// The requester's call at the line, under its lock, is answered as it says.
fn calls<R: Abort + Wait>(
    rt: &R,
    node: &Node<Global>,
    requester: &mut Requester,
    line: Line,
    call: Call,
)
    requires { IsOwn node.now requester.old }
    ensures { IsOwn node.now requester.new }
{
    match call {
        Comes(wanted) => {
            let came = node.arrive(rt, requester, line);
            assert!(rt; came == wanted);
        }
        Does(step, wanted) => {
            assert!(rt; is_own(step));
            let agent = requester.number();
            let done = node.step(rt, requester, Action { agent, line, step });
            assert!(rt; done == wanted, "{step:?}");
        }
    }
}

impl Locked {
    /// A new node of that size.
    fn new(rt: &impl Abort, alloc: Global) -> Locked {
        let made = Node::new(alloc, &sizes(rt));
        let (node, mut requesters) = made.expect(rt, "memory for a node");
        let first = requesters.remove(0);
        let second = requesters.remove(0);
        Locked {
            node,
            first,
            second,
        }
    }

    /// The call of the requester is answered as it says.
    fn call<R: Abort + Wait>(&mut self, rt: &R, agent: u8, line: Line, call: Call) {
        if agent == 0 {
            calls(rt, &self.node, &mut self.first, line, call);
        } else {
            calls(rt, &self.node, &mut self.second, line, call);
        }
    }

    /// Whether the slice behind the lock of the line is this one.
    fn shows<R: Abort + Wait>(&self, rt: &R, line: Line, wanted: &Slice<Global>) -> bool {
        let slice = self.node.lock(rt, line).expect(rt, "a line of the node");
        slice.equals(wanted)
    }

    /// The slices of the node, which is closed.
    fn close(self) -> Vec<Slice<Global>> {
        let Locked {
            node,
            first,
            second,
        } = self;
        let mut requesters = ArrayVec::new();
        requesters.push(first);
        requesters.push(second);
        let (slices, _) = node.close(requesters);
        slices
    }
}

/// A slice of a node with two credit types.
#[derive(Drop)]
struct BareSlice {
    slice: Slice<Global>,
    ghost profile: { slice.config.profile ≡ Two },
}

/// A requester beside the tracker of its node.
#[derive(Drop)]
struct BareRequester<'k> {
    tracker: &'k Tracker<Global>,
    requester: Requester,
    ghost table: { requester.table ≡ tracker.now.table },
    ghost shape: { requester.port.shape ≡ shape_of (2 ∷ 1 ∷ 0 ∷ 0 ∷ []) 2 },
}

impl BareRequester<'_> {
    /// The call at the line, which is in the slice, is answered as the step says.
    fn call(&mut self, rt: &impl Abort, bare: &mut BareSlice, line: Line, call: Call) {
        let slice = &mut bare.slice;
        let requester = &mut self.requester;
        match call {
            Comes(wanted) => {
                let came = arrive_on(slice, self.tracker, requester, line);
                assert!(rt; came == wanted);
            }
            Does(step, wanted) => {
                assert!(rt; is_own(step));
                let agent = requester.number();
                let action = Action { agent, line, step };
                let done = step_on(slice, self.tracker, requester, action);
                assert!(rt; done == wanted, "{step:?}");
            }
        }
    }
}

/// The requesters of a new node, in the same order, beside its tracker.
fn bare_of<'k>(
    rt: &impl Abort,
    alloc: Global,
    tracker: &'k Tracker<Global>,
    mut requesters: ArrayVec<Requester, 8>,
) -> Vec<BareRequester<'k>>
    requires shape { tracker.now.shape ≡ shape_of (2 ∷ 1 ∷ 0 ∷ 0 ∷ []) 2 }
    requires own { requesters.items ≡ opening_requesters tracker.now.table tracker.now.shape 2 }
{
    let requester = requesters.remove(0);
    let first = BareRequester { tracker, requester };
    let requester = requesters.remove(0);
    let second = BareRequester { tracker, requester };
    let mut bare = Vec::new(alloc);
    bare.push(first).expect(rt, "memory for a requester");
    bare.push(second).expect(rt, "memory for a requester");
    bare
}

/// The slices of a new node, in the same order.
fn slices_of(rt: &impl Abort, alloc: Global, mut slices: Vec<Slice<Global>>) -> Vec<BareSlice>
    requires { slices.items ≡ opening_slices (two_types 2 4 2 2 1 16) 2 }
{
    let even = BareSlice {
        slice: slices.remove(0),
    };
    let odd = BareSlice {
        slice: slices.remove(0),
    };
    let mut bare = Vec::new(alloc);
    bare.push(even).expect(rt, "memory for a slice");
    bare.push(odd).expect(rt, "memory for a slice");
    bare
}

/// Whether each slice is the one behind the lock of its line.
fn are_same<R: Abort + Wait>(rt: &R, locked: &Locked, slices: &[BareSlice]) -> bool {
    let mut same = slices.len() == 2;
    for index in 0..slices.len() {
        same &= locked.shows(rt, Line((index % 2) as u8), &slices[index].slice);
    }
    same
}

/// The calls at the line, each done at both, leave the same slices.
fn play<R: Abort + Wait>(
    rt: &R,
    locked: &mut Locked,
    slices: &mut [BareSlice],
    requesters: &mut [BareRequester<'_>],
    line: u8,
    calls: &[(u8, Call)],
) {
    let place = usize::from(line % 2);
    for (agent, call) in calls {
        let number = usize::from(*agent);
        locked.call(rt, *agent, Line(line), *call);
        assert!(rt; place < slices.len() && number < requesters.len());
        requesters[number].call(rt, &mut slices[place], Line(line), *call);
        assert!(rt; are_same(rt, locked, slices), "agent {number}");
    }
}

// What a lock holds is known to no clause: so each slice is compared before the first call, after each, and once the
// node is closed, when the first requester has a copy of each line.
#[test]
fn locks_leave_what_calls_on_the_parts_leave(rt: HostRuntime) {
    let made = parts(rt.alloc(), &sizes(&rt));
    let (slices, tracker, requesters) = made.expect(&rt, "memory for the parts");
    let mut slices = slices_of(&rt, rt.alloc(), slices);
    let mut requesters = bare_of(&rt, rt.alloc(), &tracker, requesters);
    let mut locked = Locked::new(&rt, rt.alloc());
    assert!(&rt; are_same(&rt, &locked, &slices));
    play(&rt, &mut locked, &mut slices, &mut requesters, 0, &CROSSING);
    for line in 1..4 {
        play(&rt, &mut locked, &mut slices, &mut requesters, line, &READ);
    }
    let ended = locked.close();
    assert!(&rt; ended.len() == 2 && slices.len() == 2);
    assert!(&rt; ended[0].equals(&slices[0].slice) && ended[1].equals(&slices[1].slice));
}

/// A request of the first requester, at its own slice.
const OWN: Step = Issue(ReadUnique, Slot(4));

/// What refuses its calls beside the slice of another node then: the slice's own refusals come first, with the slot that
/// is in use in the account.
const FAR: [Call; 5] = [
    Does(OWN, Err(Refusal::Pending)),
    Does(Load(WordNo(0)), Err(Refusal::WrongState)),
    Does(Load(WordNo(8)), Err(Refusal::OutOfRange)),
    Does(Issue(ReadUnique, Slot(5)), Err(Refusal::NotOpen)),
    Comes(Err(Refusal::NoFlit)),
];

/// The requester's request at its own slice is done, and at the other one each call is refused as it says.
fn is_strange(
    rt: &impl Abort,
    requester: &mut BareRequester<'_>,
    own: &mut BareSlice,
    far: &mut BareSlice,
) {
    requester.call(rt, own, Line(0), Does(OWN, Ok(NOTHING)));
    assert!(rt; agrees(&own.slice, &requester.requester));
    for call in &FAR {
        requester.call(rt, far, Line(0), *call);
    }
    assert!(rt; !agrees(&far.slice, &requester.requester));
}

#[test]
fn a_requester_of_another_node_is_refused(rt: HostRuntime) {
    let made = parts(rt.alloc(), &sizes(&rt));
    let (own, tracker, requesters) = made.expect(&rt, "memory for the parts");
    let made = parts(rt.alloc(), &sizes(&rt));
    let (far, _, _) = made.expect(&rt, "memory for the parts");
    let mut own = slices_of(&rt, rt.alloc(), own);
    let mut far = slices_of(&rt, rt.alloc(), far);
    let mut requesters = bare_of(&rt, rt.alloc(), &tracker, requesters);
    assert!(&rt; !own.is_empty() && !far.is_empty() && !requesters.is_empty());
    is_strange(&rt, &mut requesters[0], &mut own[0], &mut far[0]);
}
