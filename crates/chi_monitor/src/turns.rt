//! How far an agent's request at a line has come, whether it has a snoop to answer, and in which states its copy may be:
//! which flits of it may come next, whatever words are and other agents do.

ghost use Rattle.std.specs.Prelude.{◌≡◌, ◌<◌};
ghost use Rattle.chi_monitor.specs.Copies.{issue_state};
ghost use Rattle.chi_monitor.specs.HomeTurns.{kind_of};
ghost use Rattle.chi_monitor.specs.Turns.{acknowledged, answered, answered_as, evict_completed, fitted, has_stage, in_stage, is_asked_again, is_left_fit, is_lost, is_read, issued, issued_from, over, plain, reach_of, read_completed, resent, retried, retried_as, settled, snooped, stored, turn_after, turn_of, unique_completed, waiting, with_copy, with_given, write_asked, written, written_as};

use crate::copies::{Given, KnownCopy, given_by, has_data, is_state, state_left};
use crate::faults::{LineFault, Reach, SeenAt};
use chi_explain::StoreListing;
use chi_flit::{
    Agent, CreditType, DatUp, Kind, Msg, Profile, Request, RspDown, RspUp, Slot, Snoop, State,
    credit_type,
};

/// How far a request has come.
#[derive(Clone, Copy, PartialEq, Eq)]
pub(crate) enum Stage {
    /// A first attempt, on its way or waiting.
    First,
    /// A RetryAck has come to it.
    Retried,
    /// It was resent, and is on its way or waits.
    Resent,
    /// A completion has come to it that a CompAck is to follow.
    Completed,
    /// A CompDBIDResp has come to it.
    Writing,
}

/// A request that isn't over for its requester.
#[derive(Clone, Copy)]
pub(crate) struct Asked {
    pub kind: Kind,
    pub slot: Slot,
    pub stage: Stage,
    /// Its first attempt.
    pub since: SeenAt,
    /// It may be resent: of a copy-back, no answer to a snoop has taken the copy that it needs.
    pub fits: bool,
}

/// A snoop that isn't answered.
#[derive(Clone, Copy)]
pub(crate) struct OpenSnoop {
    pub snoop: Snoop,
    pub since: SeenAt,
}

/// What is under way of an agent at a line.
#[derive(Clone, Copy)]
pub(crate) struct Turn {
    pub asked: Option<Asked>,
    pub snoop: Option<OpenSnoop>,
    pub copy: KnownCopy,
    pub given: Given,
}

/// The agents' turns.
pub(crate) type Turns = [Turn; 8];

/// The turn of an agent.
pub(crate) fn turn_of(turns: &Turns, agent: Agent) -> Turn
    requires { agent.0 < 8 }
    ensures { result ≡ turn_of turns.now agent }
{
    turns[usize::from(agent.0)]
}

/// What a flit leaves of an agent's turn.
#[derive(Clone, Copy)]
pub(crate) struct Turned {
    pub turn: Turn,
    /// The request was a retried copy-back, and is cancelled, as the copy doesn't fit it any more.
    pub cancels: bool,
}

/// Whether a read asks.
fn is_read(kind: Kind) -> bool
    ensures { result ≡ is_read kind }
{
    matches!(
        kind,
        Kind::ReadNotSharedDirty | Kind::ReadShared | Kind::ReadUnique
    )
}

/// Whether a request of the kind may be resent from a copy in this state.
fn is_left_fit(kind: Kind, left: State) -> bool
    ensures { result ≡ is_left_fit kind left }
{
    !kind.is_copy_back() || kind.needs(left)
}

/// The request, of which an answer to a snoop has left a copy in this state.
fn fitted(asked: Option<Asked>, left: State) -> Option<Asked>
    ensures { result ≡ fitted asked left }
{
    match asked {
        Some(asked) => Some(Asked {
            fits: is_left_fit(asked.kind, left),
            ..asked
        }),
        None => None,
    }
}

/// Whether the request is retried, and may not be resent any more.
fn is_lost(asked: Option<Asked>) -> bool
    ensures { result ≡ is_lost asked }
{
    match asked {
        Some(asked) => asked.stage == Stage::Retried && !asked.fits,
        None => false,
    }
}

/// A turn, and nothing is cancelled.
fn plain(turn: Turn) -> Turned
    ensures { result ≡ plain turn }
{
    Turned {
        turn,
        cancels: false,
    }
}

impl Turn {
    /// Nothing is under way.
    pub const NONE: Turn = Turn {
        asked: None,
        snoop: None,
        copy: KnownCopy::NONE,
        given: Given::Nothing,
    };

    /// Whether no request is pending: the copy may be dropped, stored to and asked for.
    pub fn is_free(&self) -> bool {
        self.asked.is_none()
    }

    /// The kind of the request; Evict where there is none.
    pub fn kind(&self) -> Kind
        ensures { result ≡ kind_of self.now.asked }
    {
        match self.asked {
            Some(asked) => asked.kind,
            None => Kind::Evict,
        }
    }

    /// The snoop that isn't answered; this one where there is none.
    pub fn snoop_or(&self, other: Snoop) -> Snoop {
        match self.snoop {
            Some(open) => open.snoop,
            None => other,
        }
    }

    /// The states that the copy may be in by now.
    pub fn reach(&self, stores: StoreListing) -> Reach
        ensures { result ≡ reach_of stores self.now }
    {
        Reach {
            base: self.copy.base,
            stores,
            pending: self.asked.is_some(),
            since: self.copy.since,
            loaded: false,
        }
    }

    /// The turn, with this copy.
    pub fn with_copy(&self, copy: KnownCopy) -> Turn
        ensures { result ≡ with_copy self.now copy }
    {
        Turn { copy, ..*self }
    }

    /// The turn, in which a completion has given this.
    fn with_given(&self, given: Given) -> Turn
        ensures { result ≡ with_given self.now given }
    {
        Turn { given, ..*self }
    }

    /// The request that is on its way or waits.
    pub fn waiting(&self) -> Option<Asked>
        ensures { result ≡ waiting self.now.asked }
    {
        match self.asked {
            Some(asked) if asked.stage == Stage::First || asked.stage == Stage::Resent => {
                Some(asked)
            }
            Some(_) | None => None,
        }
    }

    /// The turn, in which the request is in this stage.
    fn in_stage(&self, asked: Asked, stage: Stage) -> Turned
        ensures { result ≡ in_stage self.now asked stage }
    {
        plain(Turn {
            asked: Some(Asked { stage, ..asked }),
            ..*self
        })
    }

    /// The turn, in which the request is over.
    fn over(&self) -> Turned
        ensures { result ≡ over self.now }
    {
        plain(Turn {
            asked: None,
            ..*self
        })
    }

    /// The turn, in which a retried copy-back is given up that the copy doesn't fit any more.
    fn settled(&self) -> Turned
        ensures { result ≡ settled self.now }
    {
        if is_lost(self.asked) {
            Turned {
                turn: Turn {
                    asked: None,
                    ..*self
                },
                cancels: true,
            }
        } else {
            plain(*self)
        }
    }

    /// A first attempt, by a copy in these states.
    fn issued(&self, reach: &Reach, at: SeenAt, request: &Request) -> Result<Turned, LineFault>
        ensures { result ≡ issued self.now reach.now at request.now }
    {
        match self.asked {
            Some(asked) => Err(LineFault::Pending(asked.since)),
            None => self.issued_from(reach, at, request),
        }
    }

    /// The same, where nothing is pending.
    fn issued_from(&self, reach: &Reach, at: SeenAt, request: &Request) -> Result<Turned, LineFault>
        ensures { result ≡ issued_from self.now at request.now reach.now
            (issue_state reach.now request.now.kind) }
    {
        match reach.issue_state(request.kind) {
            Some(state) => Ok(plain(Turn {
                asked: Some(Asked {
                    kind: request.kind,
                    slot: request.slot,
                    stage: Stage::First,
                    since: at,
                    fits: true,
                }),
                copy: self.copy.issued(request.kind, state, at),
                ..*self
            })),
            None => Err(LineFault::Needs(request.kind, *reach)),
        }
    }

    /// A request that is resent.
    fn resent(&self, request: &Request) -> Result<Turned, LineFault>
        ensures { result ≡ resent self.now request.now }
    {
        match self.asked {
            Some(asked) if is_asked_again(&asked, request) => {
                Ok(self.in_stage(asked, Stage::Resent))
            }
            Some(_) | None => Err(LineFault::NotRetried(request.kind)),
        }
    }

    /// A RetryAck of this credit type.
    fn retried(&self, profile: Profile, named: CreditType) -> Result<Turned, LineFault>
        ensures { result ≡ retried self.now profile named }
    {
        match self.asked {
            Some(asked) if asked.stage == Stage::First => {
                self.retried_as(asked, named, credit_type(profile, asked.kind))
            }
            Some(_) | None => Err(LineFault::NothingToRetry),
        }
    }

    /// The same of a first attempt, whose credit type is wanted.
    fn retried_as(
        &self,
        asked: Asked,
        named: CreditType,
        wanted: CreditType,
    ) -> Result<Turned, LineFault>
        ensures { result ≡ retried_as self.now asked named wanted }
    {
        if named.number() == wanted.number() {
            Ok(self.in_stage(asked, Stage::Retried).turn.settled())
        } else {
            Err(LineFault::OtherCredit(named, wanted))
        }
    }

    /// CompData, for a unique copy or a shared one.
    fn read_completed(&self, at: SeenAt, unique: bool) -> Result<Turned, LineFault>
        ensures { result ≡ read_completed self.now at unique }
    {
        match self.waiting() {
            Some(asked) if is_read(asked.kind) => Ok(
                self.with_given(given_by(unique, at))
                    .in_stage(asked, Stage::Completed),
            ),
            Some(_) | None => Err(LineFault::NoRead),
        }
    }

    /// Comp with RESP UC.
    fn unique_completed(&self, at: SeenAt) -> Result<Turned, LineFault>
        ensures { result ≡ unique_completed self.now at }
    {
        match self.waiting() {
            Some(asked) if matches!(asked.kind, Kind::CleanUnique) => Ok(
                self.with_given(Given::Raised(at))
                    .in_stage(asked, Stage::Completed),
            ),
            Some(_) | None => Err(LineFault::NoCleanUnique),
        }
    }

    /// Comp with RESP I.
    fn evict_completed(&self) -> Result<Turned, LineFault>
        ensures { result ≡ evict_completed self.now }
    {
        match self.waiting() {
            Some(asked) if matches!(asked.kind, Kind::Evict) => Ok(self.over()),
            Some(_) | None => Err(LineFault::NoEvict),
        }
    }

    /// CompDBIDResp.
    fn write_asked(&self) -> Result<Turned, LineFault>
        ensures { result ≡ write_asked self.now }
    {
        match self.waiting() {
            Some(asked) if asked.kind.is_copy_back() => Ok(self.in_stage(asked, Stage::Writing)),
            Some(_) | None => Err(LineFault::NoCopyBack),
        }
    }

    /// Whether there is a request in this stage.
    fn has_stage(&self, stage: Stage) -> bool
        ensures { result ≡ has_stage self.now.asked stage }
    {
        match self.asked {
            Some(asked) => asked.stage == stage,
            None => false,
        }
    }

    /// CompAck.
    fn acknowledged(&self) -> Result<Turned, LineFault>
        ensures { result ≡ acknowledged self.now }
    {
        if self.has_stage(Stage::Completed) {
            Ok(self.with_copy(self.copy.given(self.given)).over())
        } else {
            Err(LineFault::NoAckAwaited)
        }
    }

    /// Write data in this form.
    fn written(&self, reach: &Reach, at: SeenAt, form: State) -> Result<Turned, LineFault>
        ensures { result ≡ written self.now reach.now at form }
    {
        match self.asked {
            Some(asked) if asked.stage == Stage::Writing => {
                self.written_as(reach, at, form, asked.kind)
            }
            Some(_) | None => Err(LineFault::NoWriteDataAwaited),
        }
    }

    /// The same of a copy-back of the kind.
    fn written_as(
        &self,
        reach: &Reach,
        at: SeenAt,
        form: State,
        kind: Kind,
    ) -> Result<Turned, LineFault>
        ensures { result ≡ written_as self.now reach.now at form kind }
    {
        if is_state(form, self.copy.base) {
            Ok(self.with_copy(self.copy.written(kind, at)).over())
        } else {
            Err(LineFault::WriteForm(form, *reach))
        }
    }

    /// A snoop.
    fn snooped(&self, at: SeenAt, snoop: Snoop) -> Turned
        ensures { result ≡ snooped self.now at snoop }
    {
        plain(Turn {
            snoop: Some(OpenSnoop { snoop, since: at }),
            ..*self
        })
    }

    /// An answer to a snoop, by a copy in these states.
    fn answered(&self, reach: &Reach, at: SeenAt, message: &Msg) -> Result<Turned, LineFault>
        ensures { result ≡ answered self.now reach.now at message.now }
    {
        match (self.snoop, state_left(message)) {
            (Some(open), Some(left)) => {
                self.answered_as(reach, at, open.snoop, left, has_data(message))
            }
            (_, _) => Err(LineFault::NothingToAnswer),
        }
    }

    /// The same of this snoop, where the answer leaves the copy in this state, and has data or not.
    fn answered_as(
        &self,
        reach: &Reach,
        at: SeenAt,
        snoop: Snoop,
        left: State,
        dirty: bool,
    ) -> Result<Turned, LineFault>
        ensures { result ≡ answered_as self.now reach.now at snoop left dirty }
    {
        if reach.may_answer(snoop, left, dirty) {
            Ok(Turn {
                asked: fitted(self.asked, left),
                snoop: None,
                copy: KnownCopy::known_as(left, at),
                ..*self
            }
            .settled())
        } else {
            Err(reach.answer_fault(snoop, left, dirty))
        }
    }

    /// A store, by a copy in these states.
    pub fn stored(&self, reach: &Reach, at: SeenAt) -> Result<Turned, LineFault>
        ensures { result ≡ stored self.now reach.now at }
    {
        match self.asked {
            Some(asked) => Err(LineFault::Pending(asked.since)),
            None if reach.base.is_unique() => {
                Ok(plain(self.with_copy(KnownCopy::known_as(State::UD, at))))
            }
            None => Err(LineFault::NoStore(*reach)),
        }
    }

    /// The turn behind a flit of the agent, of this number.
    pub fn after(
        &self,
        profile: Profile,
        stores: StoreListing,
        at: SeenAt,
        message: &Msg,
    ) -> Result<Turned, LineFault>
        ensures { result ≡ turn_after profile stores at self.now message.now }
    {
        let reach = self.reach(stores);
        match message {
            Msg::Req(request) => {
                if request.allow_retry {
                    self.issued(&reach, at, request)
                } else {
                    self.resent(request)
                }
            }
            Msg::Snp(snoop) => Ok(self.snooped(at, *snoop)),
            Msg::RspDown(RspDown::RetryAck(named)) => self.retried(profile, *named),
            Msg::RspDown(RspDown::CompUC) => self.unique_completed(at),
            Msg::RspDown(RspDown::CompI) => self.evict_completed(),
            Msg::RspDown(RspDown::CompDBIDResp) => self.write_asked(),
            Msg::DatDown(read) => self.read_completed(at, read.unique),
            Msg::RspUp(RspUp::CompAck) => self.acknowledged(),
            Msg::DatUp(DatUp::CopyBackWrData(form, _)) => self.written(&reach, at, *form),
            Msg::RspUp(_) => self.answered(&reach, at, message),
            Msg::DatUp(_) => self.answered(&reach, at, message),
        }
    }
}

/// Whether the request is the one that was retried.
fn is_asked_again(asked: &Asked, request: &Request) -> bool
    ensures { result ≡ is_asked_again asked.now request.now }
{
    asked.stage == Stage::Retried
        && asked.kind.number() == request.kind.number()
        && asked.slot.0 == request.slot.0
}
