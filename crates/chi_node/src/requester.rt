//! A requester, with its port and its account.

ghost use Rattle.std.specs.Prelude.{◌≡◌, ◌≢◌, ℕ, ◌<◌, ◌≤◌, [], IfOk, OnErr, IfSome, IfNone, slice_index};
ghost use Rattle.chi_flit.specs.Credit.{credit_number};
ghost use Rattle.chi_flit.specs.Refusal.{refusal_of};
ghost use Rattle.chi_tracker.specs.Shape.{low};
ghost use Rattle.chi_tracker.specs.Views.{new_port};
ghost use Rattle.chi_tracker.specs.Calls.{seen_of};
ghost use Rattle.chi_tracker.specs.History.{IsAfter};
ghost use Rattle.chi_tracker.specs.Witness.{Told};
ghost use Rattle.chi_credit.specs.Account.{slot_record_at, state_at, IsLowestIdle};
ghost use Rattle.chi_slice.specs.Slice.{SliceState};
ghost use Rattle.chi_node.specs.Agree.{Agree};
ghost use Rattle.chi_node.specs.Credits.{GivesBack, Sees, Tends};
ghost use Rattle.chi_node.specs.Requester.{no_requester, opening_requester, RequesterKept};
ghost use Rattle.chi_node.specs.Outstanding.{can_give_back, give_back_refusal, has_entries_of, has_spare, outstanding_of, tend_refusal};

use chi_credit::{Account, SlotRecord, SlotState};
use chi_flit::{Agent, CreditType, Refusal, Slot};
use chi_tracker::{Port, Released, Tracker, Witness};
use std::alloc::Allocator;
use std::marker::Model;

/// An agent with its port to the tracker, its account of the requests in its eight slots, and how many
/// loads and stores each slice answered it. Contracts see it as a `RequesterState`.
///
/// The Riding slots of a type are never more than the port's seen credits of the type; the credits due of
/// a type are as many as its slots that are Refused, Retried, Riding or Cancelled; the entries of the
/// Admitted slots are different, and all that the port has in hand. No call takes memory or waits.
/// Source: `docs/PROTOCOL.md`, "A requester and its calls".
#[derive(Drop)]
pub struct Requester {
    pub(crate) number: Agent,
    pub(crate) entries: [u16; 4],
    pub(crate) port: Port,
    pub(crate) account: Account,
    pub(crate) counts: [u64; 8],
}

impl Model for Requester {
    ghost use Rattle.chi_node.specs.Requester.{RequesterState, RequesterKept};

    ghost Value = { RequesterState };

    ghost view = { λ r. record { number = r.number.0; table = r.port.table; port = r.port.port; history = r.port.history; slots = r.account; counts = r.counts } };

    ghost invariant = { λ r. RequesterKept r.entries (record { number = r.number.0; table = r.port.table; port = r.port.port; history = r.port.history; slots = r.account; counts = r.counts }) };
}

impl Default for Requester {
    ghost is_default = { λ r. r ≡ no_requester };

    fn default() -> Requester {
        Requester {
            number: Agent(0),
            entries: [0; 4],
            port: Port::default(),
            account: Account::new(),
            counts: [0; 8],
        }
    }
}

impl Requester {
    // The requester of that port, to a tracker with so many entries of each type. It has done nothing yet.
    pub(crate) fn new(number: Agent, entries: [u16; 4], port: Port) -> Requester
        requires number { number.0 < 8 }
        requires port { port.port ≡ new_port port.port.shape number.0 }
        requires history { port.history ≡ [] }
        requires sizes { port.port.shape.sizes ≡ entries }
        requires shape { low port.port.shape 4 ≤ 256 }
        ensures { result ≡ opening_requester port.table port.port.shape number.0 }
    {
        Requester {
            number,
            entries,
            port,
            account: Account::new(),
            counts: [0; 8],
        }
    }

    /// The agent's number, below 8. Whoever asks for it knows what every requester keeps.
    /// Source: `docs/PROTOCOL.md`, "A requester and its calls".
    pub fn number(&self) -> Agent
        ensures is { result.0 ≡ self.now.number }
        ensures kept { RequesterKept self.now.port.shape.sizes self.now }
    {
        self.number
    }

    /// The slot of this number, as the account has it.
    ///
    /// Condition: the slot's number is below 8.
    /// Source: `docs/PROTOCOL.md`, "Slots and accounts".
    pub fn slot(&self, slot: Slot) -> SlotRecord
        requires { slot.0 < 8 }
        ensures { result ≡ slot_record_at self.now.slots slot.0 }
    {
        self.account.slot(slot)
    }

    /// The lowest free slot; `None` where no slot is free.
    /// Source: `docs/PROTOCOL.md`, "Slots and accounts".
    pub fn lowest_idle(&self) -> Option<Slot>
        ensures some { IfSome result (λ slot. IsLowestIdle self.now.slots slot.0) }
        ensures none { IfNone result ((s : ℕ) → s < 8
            → state_at self.now.slots s ≢ SlotState.Idle) }
    {
        self.account.lowest_idle()
    }

    /// The seen credits by type, as the port has them. It does no step.
    /// Source: `docs/PROTOCOL.md`, "Steps of the tracker", seen.
    pub fn seen(&self) -> [u32; 4]
        ensures { (t : ℕ) → t < 4 → slice_index result t ≡ seen_of self.now.port t }
    {
        self.port.seen()
    }

    /// How many loads and stores the slice of that index answered the requester, at most 2^58 - 1.
    ///
    /// Condition: the index is below 8.
    /// Source: `docs/PROTOCOL.md`, "A requester and its calls".
    pub fn count(&self, index: u8) -> u64
        requires { index < 8 }
        ensures { result ≡ slice_index self.now.counts index }
    {
        self.counts[usize::from(index)]
    }

    /// Whether a seen credit of the type is left beside those for the Riding slots.
    /// Source: `docs/PROTOCOL.md`, "Slots and accounts", can_resend.
    pub fn can_resend(&self, ty: CreditType) -> bool
        ensures { result ≡ has_spare (outstanding_of self.now) (credit_number ty) }
    {
        let seen = self.port.seen();
        self.account.can_resend(ty, seen[usize::from(ty.number())])
    }

    /// Whether the tracker has entries of the type.
    fn has_type(&self, ty: CreditType) -> bool
        ensures { result ≡ has_entries_of (outstanding_of self.now) (credit_number ty) }
    {
        0 < self.entries[usize::from(ty.number())]
    }

    /// Whether a slot of the type is Cancelled and a credit of the type can be given back for it.
    fn can_give_back(&self, ty: CreditType) -> bool
        ensures { result ≡ can_give_back (outstanding_of self.now) (credit_number ty) }
    {
        self.account.has_cancelled(ty) && self.can_resend(ty)
    }

    /// The requester's port, with which its tracker is closed.
    /// Source: `docs/PROTOCOL.md`, "Words of the tracker".
    pub fn into_port(self) -> Port
        ensures table { result.table ≡ self.table }
        ensures view { result.port ≡ self.port }
        ensures history { result.history ≡ self.history }
    {
        self.port
    }

    /// Tells a witness of the requester's port, as `Port::tell` says. Nothing of the requester changes.
    ///
    /// Condition: the tracker is the requester's, and the witness is the tracker's.
    /// Source: `docs/PROTOCOL.md`, "The rule between steps".
    pub fn tell<A: Allocator>(&mut self, tracker: &Tracker<A>, witness: &mut Witness)
        requires table { self.old.table ≡ tracker.now.table }
        requires witness { witness.old.table ≡ tracker.now.table }
        ensures same { self.new ≡ self.old }
        ensures witness { witness.new.table ≡ witness.old.table }
        ensures told { Told self.old.port.who self.old.history witness.old.history witness.new.history }
        ensures running { IsAfter witness.new.history self.old.port }
        ensures own { self.old.port.who ≡ self.old.number }
    {
        self.port.tell(tracker, witness);
    }

    /// Looks at what is promised to the requester, one step on each of the four words, and answers the
    /// seen credits by type. Nothing but the port changes; the requester agrees with each slice that it
    /// agreed with. These four acts are all that the requester did, in a legal history of the tracker that
    /// leaves the port so: with `Law::running` of chi_tracker each entry is then in one place, and the
    /// ledgers hold.
    ///
    /// Condition: the tracker is the requester's.
    /// Source: `docs/PROTOCOL.md`, "A requester and its calls", see.
    #[tactic(auto, using(crate::proofs::Keeps::saw_within, crate::proofs::CreditCalls::ported_agrees))]
    pub fn see<A: Allocator>(&mut self, tracker: &Tracker<A>) -> [u32; 4]
        requires { self.old.table ≡ tracker.now.table }
        ensures sees { Sees result self.old self.new }
        ensures agreement { (s : SliceState) → Agree s self.old → Agree s self.new }
    {
        self.port.see(tracker)
    }

    /// The lowest Cancelled slot of the type becomes Idle, and the port gives the lowest seen credit of the
    /// type back. Nothing but the port and that slot changes; the requester agrees with each slice that it
    /// agreed with. What the contract says of the release and of its acts is told at `Port::release`.
    ///
    /// Refused 10 (OutOfRange) where the tracker has no entries of the type, and then 12 (NoCredit) where no
    /// slot of the type is Cancelled, or no seen credit is beyond those for the Riding slots; nothing changes
    /// then. Condition: the tracker is the requester's.
    /// Source: `docs/PROTOCOL.md`, "A requester and its calls", give back.
    pub fn give_back<A: Allocator>(
        &mut self,
        tracker: &Tracker<A>,
        ty: CreditType,
    ) -> Result<Released, Refusal>
        requires { self.old.table ≡ tracker.now.table }
        ensures refusal { refusal_of result
            ≡ give_back_refusal (outstanding_of self.old) (credit_number ty) }
        ensures ok { IfOk result (λ released. GivesBack (credit_number ty) released self.old self.new) }
        ensures err { OnErr result (self.new ≡ self.old) }
        ensures agreement { (s : SliceState) → Agree s self.old → Agree s self.new }
    {
        if !self.has_type(ty) {
            return Err(Refusal::OutOfRange);
        }
        if !self.can_give_back(ty) {
            return Err(Refusal::NoCredit);
        }
        Ok(self.account.give_back(ty, tracker, &mut self.port))
    }

    /// Where a requester shows an owed credit of the type, an entry of the type is claimed and released.
    /// `None` where no credit of the type was seen owed, or each entry of the type was found claimed. What of
    /// this the contract says is told at `Port::tend`. Nothing but the port changes, and its credits and its
    /// hand stay; the requester agrees with each slice that it agreed with.
    ///
    /// Refused 10 (OutOfRange) exactly where the tracker has no entries of the type; nothing changes then.
    /// Condition: the tracker is the requester's.
    /// Source: `docs/PROTOCOL.md`, "A requester and its calls", tend.
    pub fn tend<A: Allocator>(
        &mut self,
        tracker: &Tracker<A>,
        ty: CreditType,
    ) -> Result<Option<Released>, Refusal>
        requires { self.old.table ≡ tracker.now.table }
        ensures refusal { refusal_of result
            ≡ tend_refusal (outstanding_of self.old) (credit_number ty) }
        ensures ok { IfOk result (λ released. Tends (credit_number ty) released self.old self.new) }
        ensures err { OnErr result (self.new ≡ self.old) }
        ensures agreement { (s : SliceState) → Agree s self.old → Agree s self.new }
    {
        if !self.has_type(ty) {
            return Err(Refusal::OutOfRange);
        }
        Ok(self.port.tend(tracker, ty))
    }
}
