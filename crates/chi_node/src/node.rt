//! A node whose slices are behind locks.

ghost use Rattle.std.specs.Prelude.{◌≡◌, ◌<◌, ◌%◌, ◌⊎◌, IfOk, None, OnErr, OnOk, Some, false, nat_lt, true, vec_len};
ghost use Rattle.std.specs.List.Sorted.{IsNonDecreasingBy};
ghost use Rattle.std.specs.Sync.Mutex.{mutex_guard_value};
ghost use Rattle.chi_flit.specs.Refusal.{refusal_of};
ghost use Rattle.chi_flit.specs.declared.refusal.Refusal.TheVariants.{OutOfRange};
ghost use Rattle.chi_tracker.specs.Calls.{shape_of};
ghost use Rattle.chi_tracker.specs.Witness.{GoesOnFromEach};
ghost use Rattle.chi_tracker.specs.Totals.{longest, views_of, IsBalanced, IsClosed};
ghost use Rattle.chi_node.specs.Agree.{Agree};
ghost use Rattle.chi_node.specs.Calls.{is_own_step, DoesArrival, DoesStep, IsSameRequester, OrNotOpen};
ghost use Rattle.chi_node.specs.Outstanding.{arrival_refusal, outstanding_of, step_refusal};
ghost use Rattle.chi_node.specs.Parts.{opening_requesters, HasTypes};
ghost use Rattle.chi_node.specs.Node.{owners_of, AreOwn, IsLockRefusal, IsOwn, IsSliceOf, UnderLock};

use crate::answers::{Arrived, Stepped};
use crate::calls::{arrive_on, step_on};
use crate::locks::{behind_locks, out_of_locks, ports_of};
use crate::opening::parts;
use crate::own::is_slice_of;
use crate::requester::Requester;
use arrayvec::ArrayVec;
use chi_flit::{Action, Line, NoMemory, Refusal};
use chi_slice::{Config, Slice};
use chi_tracker::{Totals, Tracker};
use std::alloc::Allocator;
use std::marker::Model;
use std::sync::{Mutex, MutexGuard, Wait};

/// The slices of a node in rising order, each behind a lock of its own, and its tracker, which needs none.
/// Contracts see it as a `NodeState`.
///
/// What a slice holds while nobody has its lock is known to no clause.
/// Source: `docs/PROTOCOL.md`, "A requester and its calls".
#[derive(Drop)]
pub struct Node<A: Allocator> {
    config: Config,
    slices: Vec<Mutex<Slice<A>>, A>,
    ended: Vec<Slice<A>, A>,
    tracker: Tracker<A>,
}

impl<A: Allocator> Model for Node<A> {
    ghost use Rattle.std.specs.Prelude.{◌≡◌, ◌<◌, ◌≤◌, vec_capacity, vec_len};
    ghost use Rattle.chi_node.specs.Parts.{HasTypes};
    ghost use Rattle.chi_node.specs.Node.{NodeState};

    ghost Value = { NodeState };

    ghost view = { λ n. record { config = n.config; tracker = n.tracker } };

    ghost invariant = { λ n. (vec_len n.slices ≡ n.config.slices) × (0 < n.config.slices) × (n.tracker.shape.agents ≡ n.config.agents) × HasTypes n.config n.tracker.shape × (vec_len n.ended ≡ 0) × (n.config.slices ≤ vec_capacity n.ended) };
}

impl<A: Allocator + Copy> Node<A> {
    /// A node of that size in its opening state, and its requesters in rising order. All memory that they
    /// ever need is found here; refused where it runs out.
    /// Source: `docs/PROTOCOL.md`, "A requester and its calls".
    pub fn new(alloc: A, config: &Config) -> Result<(Node<A>, ArrayVec<Requester, 8>), NoMemory>
        ensures config { IfOk result (λ made. made.0.config ≡ config.now) }
        ensures tracker { IfOk result
            (λ made. made.0.tracker.shape ≡ shape_of config.now.entries config.now.agents) }
        ensures requesters { IfOk result (λ made. made.1.items
            ≡ opening_requesters made.0.tracker.table made.0.tracker.shape config.now.agents) }
        ensures own { IfOk result (λ made. AreOwn made.0 made.1.items) }
    {
        let (made, tracker, requesters) = parts(alloc, config)?;
        let ended = Vec::with_capacity(alloc, made.len())?;
        let slices = behind_locks(alloc, made)?;
        let node = Node {
            config: *config,
            slices,
            ended,
            tracker,
        };
        Ok((node, requesters))
    }
}

impl<A: Allocator> Node<A> {
    /// The tracker of the node's requesters.
    /// Source: `docs/PROTOCOL.md`, "Words of the tracker".
    pub fn tracker(&self) -> &Tracker<A>
        ensures { result.now ≡ self.now.tracker }
    {
        &self.tracker
    }

    /// The size of the node. Whoever asks for it knows that the tracker has entries of each type of its
    /// profile.
    /// Source: `docs/PROTOCOL.md`, "Limits".
    pub fn config(&self) -> &Config
        ensures value { result.now ≡ self.now.config }
        ensures types { HasTypes self.now.config self.now.tracker.shape }
    {
        &self.config
    }

    /// The slice of a line, for as long as the guard lives: what is seen in it stays until then. It is of the
    /// node's size, and its index is that of the line. It may wait for another thread that has the lock.
    ///
    /// Refused 10 (OutOfRange) exactly where the line is outside the node, and 11 (NotOpen) where another
    /// slice is found behind the lock: no call puts one there, but no contract can tell what a lock holds.
    /// Source: `docs/PROTOCOL.md`, "A requester and its calls".
    #[inline(always)]
    pub fn lock<R: Wait>(&self, rt: &R, line: Line) -> Result<MutexGuard<'_, Slice<A>>, Refusal>
        ensures refusal { (refusal_of result ≡ None)
            ⊎ IsLockRefusal self.now line.0 (refusal_of result) }
        ensures inside { OnOk result (nat_lt line.0 self.now.config.lines ≡ true) }
        ensures slice { IfOk result
            (λ guard. IsSliceOf self.now.config line.0 (mutex_guard_value guard)) }
    {
        if self.config.lines() <= line.0 {
            return Err(Refusal::OutOfRange);
        }
        let slice = self.slices[self.place_of(line)].lock(rt);
        if !is_slice_of(&slice, &self.config, line) {
            return Err(Refusal::NotOpen);
        }
        Ok(slice)
    }

    /// The place of a line's slice.
    fn place_of(&self, line: Line) -> usize
        ensures place { result ≡ line.0 % self.now.config.slices }
        ensures inside { result < self.now.config.slices }
    {
        usize::from(self.config.slice_of(line))
    }

    /// The requester's request that is in flight at the line arrives at the home, under the lock of the
    /// line's slice: what `arrive_on` leaves and answers, of the state that the slice has then. It may wait
    /// for another thread that has the lock.
    ///
    /// Refused as `lock` refuses the line, and then as `arrive_on` refuses it, in its order; the requester
    /// doesn't change then. Condition: the requester is the node's own.
    /// Source: `docs/PROTOCOL.md`, "A requester and its calls", Arrival.
    pub fn arrive<R: Wait>(
        &self,
        rt: &R,
        requester: &mut Requester,
        line: Line,
    ) -> Result<Arrived, Refusal>
        requires own { IsOwn self.now requester.old }
        ensures outside { nat_lt line.0 self.now.config.lines ≡ false
            → refusal_of result ≡ Some OutOfRange }
        ensures done { UnderLock self.now line.0 requester.old requester.new (refusal_of result)
            (λ s s'. OrNotOpen (arrival_refusal s requester.old.number line.0)
            (Agree s requester.old) (refusal_of result)
            × DoesArrival s s' line requester.old requester.new result) }
        ensures err { OnErr result (requester.new ≡ requester.old) }
        ensures same { IsSameRequester requester.old requester.new }
    {
        let mut slice = self.lock(rt, line)?;
        arrive_on(&mut *slice, &self.tracker, requester, line)
    }

    /// The requester does an action other than Admit and Retry, under the lock of the line's slice: what
    /// `step_on` leaves and answers, of the state that the slice has then. It may wait for another thread that
    /// has the lock.
    ///
    /// Refused as `lock` refuses the line, and then as `step_on` refuses the action, in its order; the
    /// requester doesn't change then. Conditions: the requester is the node's own and the action's agent, and
    /// the step is neither Admit nor Retry.
    /// Source: `docs/PROTOCOL.md`, "A requester and its calls".
    pub fn step<R: Wait>(
        &self,
        rt: &R,
        requester: &mut Requester,
        action: Action,
    ) -> Result<Stepped, Refusal>
        requires own { IsOwn self.now requester.old }
        requires agent { action.agent.0 ≡ requester.old.number }
        requires step { is_own_step action.step ≡ true }
        ensures outside { nat_lt action.line.0 self.now.config.lines ≡ false
            → refusal_of result ≡ Some OutOfRange }
        ensures done { UnderLock self.now action.line.0 requester.old requester.new (refusal_of result)
            (λ s s'. OrNotOpen (step_refusal s (outstanding_of requester.old) action)
            (Agree s requester.old) (refusal_of result)
            × DoesStep s s' action requester.old requester.new result) }
        ensures err { OnErr result (requester.new ≡ requester.old) }
        ensures same { IsSameRequester requester.old requester.new }
    {
        let mut slice = self.lock(rt, action.line)?;
        step_on(&mut *slice, &self.tracker, requester, action)
    }

    /// Ends the node: its slices, in rising order of their index, and what the words of its tracker hold then.
    /// With the views of the requesters' ports the words keep the tracker's rule, no duty is open, and for
    /// each requester and type what is due is what is owed and what is promised. One legal history made these
    /// words and ports. No memory is taken, and nothing waited for.
    ///
    /// Condition: the requesters are all that `new` gave, in any order.
    /// Source: `docs/PROTOCOL.md`, "Words of the tracker".
    pub fn close(self, requesters: ArrayVec<Requester, 8>) -> (Vec<Slice<A>, A>, Totals)
        requires { AreOwn self requesters.items }
        ensures slices { vec_len result.0 ≡ self.config.slices }
        ensures order { IsNonDecreasingBy (λ s. s.index) result.0.items }
        ensures closed { IsClosed self.tracker.shape
            (views_of (owners_of requesters.items))
            (longest (owners_of requesters.items)) result.1.counts result.1.requesters.items }
        ensures balanced { IsBalanced self.tracker.shape.agents result.1.requesters.items }
        ensures later { GoesOnFromEach (owners_of requesters.items) (longest (owners_of requesters.items)) }
    {
        let Node {
            config: _,
            slices,
            ended,
            tracker,
        } = self;
        let totals = tracker.close(ports_of(requesters));
        (out_of_locks(slices, ended), totals)
    }
}
