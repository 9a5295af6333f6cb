//! One requester's copy and pending request of one line.

ghost use Rattle.std.specs.Prelude.{◌≡◌, ◌<◌, OnErr, IfOk, Some, None, true, false, is_some, ⊤};
ghost use Rattle.chi_rnline.specs.Rn.{Rn, cancel_refusal, rn_of_parts, rn_after_cancel, rn_after_comp, dbid_taken, drop_refusal, rn_after_drop, rn_after_evict, is_clean_copy, issue_refusal, rn_after_issue, load_refusal, may_resend, no_line, rn_after_data, request_message, resend_refusal, rn_after_resend, rn_after_retry, rn_after_snoop, state_after_clean, state_after_comp, state_after_write, store_refusal, rn_after_store, word_of};
ghost use Rattle.chi_rnline.specs.declared.pending.Pending.{Pending};
ghost use Rattle.chi_flit.specs.Message.{write_data_of};
ghost use Rattle.chi_flit.specs.Refusal.{refusal_of};
ghost use Rattle.chi_flit.specs.Snoop.{answer_of};
ghost use Rattle.chi_flit.specs.declared.message.Msg.TheVariants as messages;
ghost use Rattle.chi_flit.specs.declared.message.RspUp.TheVariants.{CompAck};

use crate::pending::{Pending, Phase};
use chi_flit::{
    CompData, Data, Kind, Msg, NO_DATA, Refusal, Request, RspUp, Slot, Snoop, State, WordNo,
    answer, write_data,
};
use std::alloc::AllocError;
use std::marker::Model;

/// One requester's side of one line. Contracts see it as an `Rn`: the copy's state and data, and the
/// pending request.
/// Source: `docs/PROTOCOL.md`, "One line".
#[derive(PartialEq, Eq)]
pub struct RnLine {
    state: State,
    words: Data,
    pending: Option<Pending>,
}

impl Model for RnLine {
    ghost use Rattle.chi_rnline.specs.Rn.{Rn};

    ghost Value = { Rn };

    ghost view = { λ line. record { state = line.state; words = line.words; pending = line.pending } };

    ghost inverse = { λ line. record { state = line.state; words = line.words; pending = line.pending } };
}

impl Clone for RnLine {
    ghost is_clone = { λ line copy. copy ≡ line };

    ghost is_infallible = { λ _. ⊤ };

    fn clone(&self) -> Result<Self, AllocError> {
        Ok(*self)
    }
}

impl Copy for RnLine {}

impl RnLine {
    /// A line without a copy, and nothing pending.
    /// Source: `docs/PROTOCOL.md`, "One line".
    pub fn new() -> RnLine
        ensures { result ≡ no_line }
    {
        RnLine {
            state: State::I,
            words: NO_DATA,
            pending: None,
        }
    }

    /// A line with this copy, and with this request pending.
    /// Source: `docs/PROTOCOL.md`, "One line".
    pub fn of_parts(state: State, words: Data, pending: Option<Pending>) -> RnLine
        ensures { result ≡ rn_of_parts state words pending }
    {
        RnLine {
            state,
            words,
            pending,
        }
    }

    /// The refusal that `issue` would answer to a request of the kind: 3 (Pending) where a request is pending,
    /// then 2 (WrongState) where the copy isn't in the state that the kind needs.
    /// Source: `docs/PROTOCOL.md`, "The actions", Issue.
    #[inline(always)]
    pub fn why_no_issue(&self, kind: Kind) -> Option<Refusal>
        ensures { result ≡ issue_refusal self.now kind }
    {
        if self.pending.is_some() {
            return Some(Refusal::Pending);
        }
        if !kind.needs(self.state) {
            return Some(Refusal::WrongState);
        }
        None
    }

    /// Issues a request: it is pending, in phase Sent, and an Evict gives up the copy at once; the data
    /// stays, and at every other kind the state does too. Answers the request that is to be put, with
    /// AllowRetry.
    ///
    /// Refused 3 (Pending) where a request is pending, then 2 (WrongState) where the copy isn't in the
    /// state that the kind needs; nothing changes then.
    /// Source: `docs/PROTOCOL.md`, "The actions", Issue.
    pub fn issue(&mut self, kind: Kind, slot: Slot) -> Result<Msg, Refusal>
        ensures refusal { refusal_of result ≡ issue_refusal self.old kind }
        ensures message { IfOk result (λ message. message ≡ request_message kind slot true) }
        ensures ok { IfOk result (λ _. self.new ≡ rn_after_issue self.old kind slot) }
        ensures err { OnErr result (self.new ≡ self.old) }
    {
        match self.why_no_issue(kind) {
            Some(refusal) => Err(refusal),
            None => Ok(self.issued(kind, slot)),
        }
    }

    /// What `issue` does where nothing refuses it.
    /// Source: `docs/PROTOCOL.md`, "The actions", Issue.
    pub fn issued(&mut self, kind: Kind, slot: Slot) -> Msg
        ensures message { result ≡ request_message kind slot true }
        ensures after { self.new ≡ rn_after_issue self.old kind slot }
    {
        self.pending = Some(Pending {
            kind,
            slot,
            phase: Phase::Sent,
        });
        if matches!(kind, Kind::Evict) {
            self.state = State::I;
        }
        Msg::Req(Request {
            kind,
            slot,
            allow_retry: true,
        })
    }

    /// Takes the data of a read: the copy has its state and data, and nothing is pending. Answers the
    /// CompAck that is to be put.
    /// Source: `docs/PROTOCOL.md`, "The actions", RecvData.
    pub fn data(&mut self, sent: CompData) -> Msg
        ensures message { result ≡ messages.RspUp CompAck }
        ensures after { self.new ≡ rn_after_data self.old sent }
    {
        self.state = if sent.unique { State::UC } else { State::SC };
        let words = sent.words;
        self.words = words;
        self.pending = None;
        Msg::RspUp(RspUp::CompAck)
    }

    /// The copy's state.
    /// Source: `docs/PROTOCOL.md`, "One line".
    pub fn state(&self) -> State
        ensures { result ≡ self.now.state }
    {
        self.state
    }

    /// The copy's data, which means nothing in state `I`.
    /// Source: `docs/PROTOCOL.md`, "One line".
    pub fn words(&self) -> Data
        ensures { result ≡ self.now.words }
    {
        self.words
    }

    /// The request that is pending; `None` where there is none.
    /// Source: `docs/PROTOCOL.md`, "One line".
    pub fn pending(&self) -> Option<Pending>
        ensures { result ≡ self.now.pending }
    {
        self.pending
    }

    /// The refusal that `load` would answer: 2 (WrongState) where there is no copy.
    /// Source: `docs/PROTOCOL.md`, "The actions", Load.
    #[inline(always)]
    pub fn why_no_load(&self) -> Option<Refusal>
        ensures { result ≡ load_refusal self.now }
    {
        if !self.state.is_valid() {
            return Some(Refusal::WrongState);
        }
        None
    }

    /// Loads the word of the copy.
    ///
    /// Refused 2 (WrongState) where there is no copy. Conditions: the word is below 8.
    /// Source: `docs/PROTOCOL.md`, "The actions", Load.
    pub fn load(&self, word: WordNo) -> Result<u64, Refusal>
        requires { word.0 < 8 }
        ensures refusal { refusal_of result ≡ load_refusal self.now }
        ensures value { IfOk result (λ value. value ≡ word_of self.now word.0) }
    {
        match self.why_no_load() {
            Some(refusal) => Err(refusal),
            None => Ok(self.word(word)),
        }
    }

    /// The word of the copy, which means nothing in state `I`.
    ///
    /// Conditions: the word is below 8.
    /// Source: `docs/PROTOCOL.md`, "One line".
    pub fn word(&self, word: WordNo) -> u64
        requires { word.0 < 8 }
        ensures { result ≡ word_of self.now word.0 }
    {
        self.words[usize::from(word.0)]
    }

    /// The refusal that `store` would answer: 3 (Pending) where a request is pending, then 2 (WrongState) where
    /// the copy isn't `UC` or `UD`.
    /// Source: `docs/PROTOCOL.md`, "The actions", Store.
    #[inline(always)]
    pub fn why_no_store(&self) -> Option<Refusal>
        ensures { result ≡ store_refusal self.now }
    {
        match (self.pending, self.state.is_unique()) {
            (Some(_), _) => Some(Refusal::Pending),
            (None, false) => Some(Refusal::WrongState),
            (None, true) => None,
        }
    }

    /// Stores the value: the word of the copy has it, and the copy is `UD`; the other words stay.
    ///
    /// Refused 3 (Pending) where a request is pending, then 2 (WrongState) where the copy isn't `UC` or `UD`;
    /// nothing changes then. Conditions: the word is below 8.
    /// Source: `docs/PROTOCOL.md`, "The actions", Store.
    pub fn store(&mut self, word: WordNo, value: u64) -> Result<(), Refusal>
        requires { word.0 < 8 }
        ensures refusal { refusal_of result ≡ store_refusal self.old }
        ensures ok { IfOk result (λ _. self.new ≡ rn_after_store self.old word.0 value) }
        ensures err { OnErr result (self.new ≡ self.old) }
    {
        match self.why_no_store() {
            Some(refusal) => Err(refusal),
            None => Ok(self.stored(word, value)),
        }
    }

    /// What `store` does where nothing refuses it.
    ///
    /// Conditions: the word is below 8.
    /// Source: `docs/PROTOCOL.md`, "The actions", Store.
    pub fn stored(&mut self, word: WordNo, value: u64)
        requires { word.0 < 8 }
        ensures { self.new ≡ rn_after_store self.old word.0 value }
    {
        self.words[usize::from(word.0)] = value;
        self.state = State::UD;
    }

    /// The refusal that `drop_clean` would answer: 3 (Pending) where a request is pending, then 2 (WrongState)
    /// where the copy isn't `SC` or `UC`.
    /// Source: `docs/PROTOCOL.md`, "The actions", Drop.
    #[inline(always)]
    pub fn why_no_drop(&self) -> Option<Refusal>
        ensures { result ≡ drop_refusal self.now }
    {
        match self.pending {
            Some(_) => Some(Refusal::Pending),
            None if is_clean_copy(self.state) => None,
            None => Some(Refusal::WrongState),
        }
    }

    /// Gives up the copy without a message: its state is `I`, and its data stays.
    ///
    /// Refused 3 (Pending) where a request is pending, then 2 (WrongState) where the copy isn't `SC` or
    /// `UC`; nothing changes then.
    /// Source: `docs/PROTOCOL.md`, "The actions", Drop.
    pub fn drop_clean(&mut self) -> Result<(), Refusal>
        ensures refusal { refusal_of result ≡ drop_refusal self.old }
        ensures ok { IfOk result (λ _. self.new ≡ rn_after_drop self.old) }
        ensures err { OnErr result (self.new ≡ self.old) }
    {
        match self.why_no_drop() {
            Some(refusal) => Err(refusal),
            None => Ok(self.dropped()),
        }
    }

    /// What `drop_clean` does where nothing refuses it.
    /// Source: `docs/PROTOCOL.md`, "The actions", Drop.
    pub fn dropped(&mut self)
        ensures { self.new ≡ rn_after_drop self.old }
    {
        self.state = State::I;
    }

    /// Answers a snoop: the copy is in the answer's state, and its data and the pending request stay.
    /// Source: `docs/PROTOCOL.md`, "Answers to snoops".
    pub fn snooped(&mut self, snoop: Snoop) -> Msg
        ensures message { result ≡ (answer_of self.old.state snoop self.old.words).1 }
        ensures after { self.new ≡ rn_after_snoop self.old snoop }
    {
        let (state, message) = answer(self.state, snoop, self.words);
        self.state = state;
        message
    }

    /// Takes a RetryAck: the pending request is in phase Retried, and the copy stays. Where nothing is
    /// pending nothing changes.
    /// Source: `docs/PROTOCOL.md`, "The actions", RecvRetry.
    pub fn retried(&mut self)
        ensures { self.new ≡ rn_after_retry self.old }
    {
        if let Some(request) = self.pending {
            self.pending = Some(Pending {
                kind: request.kind,
                slot: request.slot,
                phase: Phase::Retried,
            });
        }
    }

    /// The request that may be sent again.
    #[inline(always)]
    fn to_resend(&self) -> Result<Pending, Refusal>
        ensures refusal { refusal_of result ≡ resend_refusal self.now }
        ensures request { IfOk result (λ request. self.now.pending ≡ Some request) }
    {
        let Some(request) = self.pending else {
            return Err(Refusal::NothingPending);
        };
        match request.phase {
            Phase::Sent => Err(Refusal::NothingPending),
            Phase::Retried => {
                if !may_resend(request.kind, self.state) {
                    return Err(Refusal::WrongState);
                }
                Ok(request)
            }
        }
    }

    /// The refusal that `resend` would answer: 4 (NothingPending) where no request is in phase Retried, then
    /// 2 (WrongState) where it is a copy-back and the copy isn't in its needed state.
    /// Source: `docs/PROTOCOL.md`, "The actions", Resend.
    #[inline(always)]
    pub fn why_no_resend(&self) -> Option<Refusal>
        ensures { result ≡ resend_refusal self.now }
    {
        self.to_resend().err()
    }

    /// Sends the pending request again, with a credit: it is in phase Sent, and the copy stays. Answers the
    /// request that is to be put, without AllowRetry.
    ///
    /// Refused 4 (NothingPending) where no request is in phase Retried, then 2 (WrongState) where it is a
    /// copy-back and the copy isn't in its needed state; nothing changes then.
    /// Source: `docs/PROTOCOL.md`, "The actions", Resend.
    pub fn resend(&mut self) -> Result<Msg, Refusal>
        ensures refusal { refusal_of result ≡ resend_refusal self.old }
        ensures message { IfOk result (λ message. (request : Pending)
            → self.old.pending ≡ Some request
            → message ≡ request_message request.kind request.slot false) }
        ensures ok { IfOk result (λ _. self.new ≡ rn_after_resend self.old) }
        ensures err { OnErr result (self.new ≡ self.old) }
    {
        let request = self.to_resend()?;
        Ok(self.resent(request))
    }

    /// What `resend` does where nothing refuses it.
    ///
    /// Conditions: the request is the one that is pending.
    /// Source: `docs/PROTOCOL.md`, "The actions", Resend.
    pub fn resent(&mut self, request: Pending) -> Msg
        requires { self.old.pending ≡ Some request }
        ensures message { result ≡ request_message request.kind request.slot false }
        ensures after { self.new ≡ rn_after_resend self.old }
    {
        let Pending { kind, slot, .. } = request;
        self.pending = Some(Pending {
            kind,
            slot,
            phase: Phase::Sent,
        });
        Msg::Req(Request {
            kind,
            slot,
            allow_retry: false,
        })
    }

    /// The refusal that `cancel` would answer: 4 (NothingPending) where no request is in phase Retried, then
    /// 2 (WrongState) where it may still be sent.
    /// Source: `docs/PROTOCOL.md`, "The actions", Cancel.
    #[inline(always)]
    pub fn why_no_cancel(&self) -> Option<Refusal>
        ensures { result ≡ cancel_refusal self.now }
    {
        let Some(
            Pending {
                kind,
                phase: Phase::Retried,
                ..
            },
        ) = self.pending
        else {
            return Some(Refusal::NothingPending);
        };
        if may_resend(kind, self.state) {
            return Some(Refusal::WrongState);
        }
        None
    }

    /// Cancels a retried copy-back whose copy has left the needed state: nothing is pending, and the copy
    /// stays.
    ///
    /// Refused 4 (NothingPending) where no request is in phase Retried, then 2 (WrongState) where it may
    /// still be sent; nothing changes then.
    /// Source: `docs/PROTOCOL.md`, "The actions", Cancel.
    pub fn cancel(&mut self) -> Result<(), Refusal>
        ensures refusal { refusal_of result ≡ cancel_refusal self.old }
        ensures ok { IfOk result (λ _. self.new ≡ rn_after_cancel self.old) }
        ensures err { OnErr result (self.new ≡ self.old) }
    {
        match self.why_no_cancel() {
            Some(refusal) => Err(refusal),
            None => Ok(self.cancelled()),
        }
    }

    /// What `cancel` does where nothing refuses it.
    /// Source: `docs/PROTOCOL.md`, "The actions", Cancel.
    pub fn cancelled(&mut self)
        ensures { self.new ≡ rn_after_cancel self.old }
    {
        self.pending = None;
    }

    /// Takes Comp_UC: a copy that is left is unique, a lost one stays lost, the data stays, and nothing
    /// is pending. Answers the CompAck that is to be put.
    /// Source: `docs/PROTOCOL.md`, "The actions", RecvComp.
    pub fn comp(&mut self) -> Msg
        ensures message { result ≡ messages.RspUp CompAck }
        ensures after { self.new ≡ rn_after_comp self.old }
    {
        self.state = state_after_comp(self.state);
        self.pending = None;
        Msg::RspUp(RspUp::CompAck)
    }

    /// Takes Comp_I, which ends an Evict: nothing is pending, the copy stays, and nothing is to be put.
    /// Source: `docs/PROTOCOL.md`, "The actions", RecvComp.
    pub fn evicted(&mut self)
        ensures { self.new ≡ rn_after_evict self.old }
    {
        self.pending = None;
    }

    /// Takes CompDBIDResp. Answers the write data that is to be put: that of the copy as it stands. The
    /// copy is what the pending request leaves of it, the data stays, and nothing is pending; where
    /// nothing was, the copy stays.
    /// Source: `docs/PROTOCOL.md`, "Write data".
    pub fn dbid(&mut self) -> Msg
        ensures message { result ≡ messages.DatUp (write_data_of self.old.state self.old.words) }
        ensures after { self.new ≡ dbid_taken self.old self.old.pending }
    {
        let message = Msg::DatUp(write_data(self.state, self.words));
        if let Some(request) = self.pending {
            self.state = state_after_write(request.kind, self.state);
            self.pending = None;
        }
        message
    }
}

/// Whether a copy is clean, so that it may be dropped.
fn is_clean_copy(state: State) -> bool
    ensures { result ≡ is_clean_copy state }
{
    matches!(state, State::SC | State::UC)
}

/// Whether a retried request may still be sent: a copy-back only from its needed state.
fn may_resend(kind: Kind, state: State) -> bool
    ensures { result ≡ may_resend kind state }
{
    !kind.is_copy_back() || kind.needs(state)
}

/// The copy's state after Comp_UC.
fn state_after_comp(state: State) -> State
    ensures { result ≡ state_after_comp state }
{
    match state {
        State::I => State::I,
        State::SC | State::UC => State::UC,
        State::UD | State::SD => State::UD,
    }
}

/// The copy's state after write data of a request of the kind was sent.
fn state_after_write(kind: Kind, state: State) -> State
    ensures { result ≡ state_after_write kind state }
{
    if kind.gives_up() {
        State::I
    } else {
        state_after_clean(state)
    }
}

/// The copy's state after a WriteCleanFull: clean.
fn state_after_clean(state: State) -> State
    ensures { result ≡ state_after_clean state }
{
    match state {
        State::I => State::I,
        State::SC | State::SD => State::SC,
        State::UC | State::UD => State::UC,
    }
}
