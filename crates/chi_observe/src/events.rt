//! What a flit of a trace is to a watch.

ghost use Rattle.std.specs.Prelude.{◌≡◌};
ghost use Rattle.chi_observe.specs.Events.{begun_by, early_by, ended_by, flit_by, judged, news_of, with_words, words_of};

use crate::lines::LineNews;
use crate::marks::shows_some;
use crate::steps::IdStep;
use crate::tables::Part;
use chi_flit::{Agent, Data, NO_DATA};
use chi_ids::{CacheLine, Sides};
use chi_observer::{Act, CacheFlit, Flit, Grant, HomeFlit};
use chi_trace::{NodeId, OtherOpcode, PcrdType, Resp};

/// What a flit of a line tells of it.
/// Source: `docs/OBSERVER.md`, "A trace of many lines".
#[derive(Clone, Copy, Debug, PartialEq, Eq)]
pub enum Tells {
    /// A flit of a cache, with these words; 0 in place of each that is in another beat.
    Sent(Act, Data),
    /// The same of the home.
    Given(Grant, Data),
    /// It isn't judged: a flit of this opcode.
    Unjudged(OtherOpcode),
    /// No flit of the opcode has this RESP.
    NoForm(Resp),
}

/// A flit of a line.
/// Source: `docs/OBSERVER.md`, "A trace of many lines".
#[derive(Clone, Copy, Debug, PartialEq, Eq)]
pub struct LineEvent {
    /// The number of its line in the trace, counted from 1.
    pub number: usize,
    pub sides: Sides,
    pub step: IdStep,
    /// The line of its address, if it has one.
    pub at: Option<CacheLine>,
    pub tells: Tells,
}

/// A load or a store of a processor.
/// Source: `docs/OBSERVER.md`, "A trace of many lines".
#[derive(Clone, Copy, Debug, PartialEq, Eq)]
pub struct AccessEvent {
    /// The number of its line in the trace, counted from 1.
    pub number: usize,
    /// Whose processor it is.
    pub requester: NodeId,
    pub line: CacheLine,
    pub tells: Tells,
}

/// What a line of a trace is to a watch.
/// Source: `docs/OBSERVER.md`, "A trace of many lines".
#[derive(Clone, Copy, Debug, PartialEq, Eq)]
pub enum Event {
    /// A load or a store of a processor.
    Access(AccessEvent),
    /// A granted credit.
    Granted(Sides, PcrdType),
    /// A returned credit.
    Returned(Sides, PcrdType),
    /// A flit of a line.
    Line(LineEvent),
}

/// The flit of a line's observer, between the home and this agent; none where it isn't judged.
pub(crate) fn flit_by(tells: &Tells, agent: Option<Agent>) -> Option<Flit>
    ensures { result ≡ flit_by tells.now agent }
{
    let agent = agent?;
    match tells {
        Tells::Sent(act, shown) => judged(Flit::Up(CacheFlit {
            agent,
            act: *act,
            shown: *shown,
        })),
        Tells::Given(grant, shown) => judged(Flit::Down(HomeFlit {
            agent,
            grant: *grant,
            shown: *shown,
        })),
        Tells::Unjudged(_) => None,
        Tells::NoForm(_) => None,
    }
}

impl Tells {
    /// The words.
    pub(crate) fn words(self) -> Data
        ensures { result ≡ words_of self }
    {
        match self {
            Tells::Sent(_, words) => words,
            Tells::Given(_, words) => words,
            Tells::Unjudged(_) => NO_DATA,
            Tells::NoForm(_) => NO_DATA,
        }
    }

    /// The same with these words.
    pub(crate) fn with_words(self, words: Data) -> Tells
        ensures { result ≡ with_words self words }
    {
        match self {
            Tells::Sent(act, _) => Tells::Sent(act, words),
            Tells::Given(grant, _) => Tells::Given(grant, words),
            Tells::Unjudged(opcode) => Tells::Unjudged(opcode),
            Tells::NoForm(resp) => Tells::NoForm(resp),
        }
    }
}

/// What a line is told of by a flit of this agent: of its data in this part.
pub(crate) fn news_of(tells: &Tells, part: &Part, agent: Option<Agent>) -> LineNews
    ensures { result ≡ news_of tells.now part.now agent }
{
    match part {
        Part::Last(told) => ended_by(flit_by(told, agent)),
        Part::Known(told) => early_by(flit_by(told, agent)),
        Part::Held(same) => LineNews::Held(*same),
        Part::First(lacks) => begun_by(flit_by(tells, agent), *lacks),
        Part::Whole | Part::Further => LineNews::Flit(flit_by(tells, agent)),
    }
}

/// The first beat of data that such a flit has, and lack these words; of data that aren't judged a flit that isn't, and of
/// data without words of the line the flit.
fn begun_by(flit: Option<Flit>, lacks: [bool; 8]) -> LineNews
    ensures { result ≡ begun_by flit lacks }
{
    match flit {
        Some(flit) => {
            if shows_some(&flit) {
                LineNews::Begun(flit, lacks)
            } else {
                LineNews::Flit(Some(flit))
            }
        }
        None => LineNews::Flit(None),
    }
}

/// The first beat of data whose words are known; of data that aren't judged a flit that isn't.
fn early_by(flit: Option<Flit>) -> LineNews
    ensures { result ≡ early_by flit }
{
    match flit {
        Some(flit) => LineNews::Early(flit),
        None => LineNews::Flit(None),
    }
}

/// The last beat of such data; nothing of data without words of the line.
fn ended_by(flit: Option<Flit>) -> LineNews
    ensures { result ≡ ended_by flit }
{
    match flit {
        Some(flit) => {
            if shows_some(&flit) {
                LineNews::Ended(Some(flit))
            } else {
                LineNews::Nothing
            }
        }
        None => LineNews::Ended(None),
    }
}

/// The flit, if an observer judges it.
fn judged(flit: Flit) -> Option<Flit>
    ensures { result ≡ judged flit }
{
    if flit.is_judged() { Some(flit) } else { None }
}
