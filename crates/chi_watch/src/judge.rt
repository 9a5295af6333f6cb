//! What judges the flits of a cache line.

ghost use Rattle.std.specs.Prelude.{◌≡◌, ◌<◌, IfOk, OnOk};
ghost use Rattle.chi_observer.specs.declared.flits.Flit.TheVariants.{Down, Up};
ghost use Rattle.chi_copies.specs.Begun.{begun_after};
ghost use Rattle.chi_copies.specs.BegunLines.{begun};
ghost use Rattle.chi_copies.specs.BegunRefusals.{begun_refusal};
ghost use Rattle.chi_copies.specs.Lines.{observed, shown_at};
ghost use Rattle.chi_copies.specs.Refusals.{home_refusal, refusal};
ghost use Rattle.chi_watch.specs.Judges.{after_flit, begun_judged, crowded_by, flit_by, is_judging, judged, judged_after, line_after, line_refusal, next_of, opened, reason_of, refusal_of, set_aside, since_of, verdict, verdict_by, verdict_of, wake, whole_judged, woken};

use crate::told::{Cause, Told};
use chi_copies::{Begun, Line, Reason};
use chi_flit::Agent;
use chi_observer::{CacheFlit, Flit, HomeFlit, Stores};
use std::alloc::{AllocError, Allocator};

/// What was before a trace's first flit.
/// Source: `docs/WATCH.md`, "What isn't judged".
#[derive(Clone, Copy, Debug, PartialEq, Eq)]
pub enum Start {
    /// No cache has a copy, and no request is open.
    Empty,
    /// Nobody knows: it is cut out of a longer one.
    Unknown,
}

/// Why a flit of a cache line is a fault.
/// Source: `docs/WATCH.md`, "What isn't judged".
#[derive(Clone, Copy, Debug, PartialEq, Eq)]
pub enum LineReason {
    /// A rule of the line, which this is the name of, is broken.
    Rule(Reason),
    /// The flit is of another home than the line's first one.
    OtherHome,
}

/// What comes of a flit that a line is told of.
/// Source: `docs/WATCH.md`, "What isn't judged".
#[derive(Clone, Copy, Debug, PartialEq, Eq)]
pub enum Verdict {
    /// The line's judge has taken it.
    Judged,
    /// Nothing judges it.
    Unjudged,
    /// A fault, for this reason.
    Fault(LineReason),
}

/// Why a line isn't judged, and since when.
/// Source: `docs/WATCH.md`, "What isn't judged".
#[derive(Clone, Copy, Debug, PartialEq, Eq)]
pub struct Unjudged {
    pub cause: Cause,
    /// The number of the first flit that isn't judged.
    pub number: u64,
}

/// Of each agent the number of its last flit that names an id from before the trace, and so may have been of any line; 0 where
/// there is none.
/// Source: `docs/WATCH.md`, "What isn't judged".
pub type Strays = [u64; 32];

/// A line whose trace begins in the middle.
/// Source: `docs/WATCH.md`, "What isn't judged".
#[derive(Drop)]
pub struct BegunLine {
    pub begun: Begun,
    /// The number of the flit that it was told last, or of its first where it was told none.
    pub told: u64,
}

/// What judges the flits of a cache line.
/// Source: `docs/WATCH.md`, "What a line is told".
#[derive(Drop)]
pub enum Judge<A: Allocator> {
    /// From the trace's beginning.
    Whole(Line),
    /// From its middle.
    Begun(Box<BegunLine, A>),
    /// Nothing does.
    Unjudged(Unjudged),
}

/// Takes the next flit of a line from its beginning.
fn take_whole(line: &mut Line, flit: &Flit) -> Result<(), Reason>
    ensures why { reason_of result ≡ line_refusal (observed line.old) (shown_at line.old.shown) flit.now }
    ensures after { OnOk result (whole_judged line.new ≡ line_after (observed line.old) (shown_at line.old.shown) flit.now) }
{
    match flit {
        Flit::Up(sent) => take_sent(line, *sent),
        Flit::Down(given) => take_given(line, *given),
    }
}

/// Takes a flit of a cache.
fn take_sent(line: &mut Line, flit: CacheFlit) -> Result<(), Reason>
    ensures why { reason_of result ≡ refusal (observed line.old) flit }
    ensures after { OnOk result (whole_judged line.new ≡ line_after (observed line.old) (shown_at line.old.shown) (Up flit)) }
{
    line.take(flit)
}

/// Takes a flit of the home.
fn take_given(line: &mut Line, flit: HomeFlit) -> Result<(), Reason>
    ensures why { reason_of result ≡ home_refusal (observed line.old) (shown_at line.old.shown) flit }
    ensures after { OnOk result (whole_judged line.new ≡ line_after (observed line.old) (shown_at line.old.shown) (Down flit)) }
{
    line.take_home(flit)
}

/// Tells a line that a flit of an agent from before may have been of it, if that came behind the flit that it was told last.
fn wake(line: &mut Begun, strays: &Strays, last: u64, agent: u8)
    requires { agent < 32 }
    ensures { begun line.new ≡ wake strays.now last agent (begun line.old) }
{
    if strays[usize::from(agent)] > last {
        line.forget(Agent(agent));
    }
}

/// Tells it of all agents.
fn wake_all(line: &mut Begun, strays: &Strays, last: u64)
    ensures { begun line.new ≡ woken strays.now last (begun line.old) }
{
    for n in 0..32u8 {
        wake(line, strays, last, n);
    }
}

impl BegunLine {
    /// Takes the next flit of the line, which has this number.
    fn take(&mut self, flit: &Flit, number: u64, strays: &Strays) -> Result<(), Reason>
        ensures why { reason_of result ≡ refusal_of strays.now (begun_judged self.old) flit.now }
        ensures after { OnOk result (begun_judged self.new ≡ after_flit strays.now number (begun_judged self.old) flit.now) }
    {
        wake_all(&mut self.begun, strays, self.told);
        let taken = take_begun(&mut self.begun, flit);
        self.told = number;
        taken
    }
}

/// Takes the next flit of a line that begins in the middle.
fn take_begun(line: &mut Begun, flit: &Flit) -> Result<(), Reason>
    ensures why { reason_of result ≡ begun_refusal (begun line.old) flit.now }
    ensures after { OnOk result (begun line.new ≡ begun_after (begun line.old) flit.now) }
{
    line.take(*flit)
}

impl<A: Allocator> Judge<A> {
    /// The judge of a line which no flit has touched before the one with this number.
    pub(crate) fn new(
        alloc: A,
        start: Start,
        stores: Stores,
        number: u64,
    ) -> Result<Judge<A>, AllocError>
        ensures { IfOk result (λ judge. judged judge ≡ opened start stores number) }
    {
        match start {
            Start::Empty => Ok(Judge::Whole(Line::new(stores))),
            Start::Unknown => {
                let line = BegunLine {
                    begun: Begun::new(stores),
                    told: number,
                };
                Ok(Judge::Begun(Box::new(alloc, line)?))
            }
        }
    }

    /// Whether it judges the line's flits.
    pub(crate) fn is_judging(&self) -> bool
        ensures { result ≡ is_judging (judged self.now) }
    {
        !matches!(self, Judge::Unjudged(_))
    }

    /// Why it judges none, and since when.
    pub(crate) fn unjudged(&self) -> Option<Unjudged>
        ensures { result ≡ since_of (judged self.now) }
    {
        match self {
            Judge::Whole(_) => None,
            Judge::Begun(_) => None,
            Judge::Unjudged(since) => Some(*since),
        }
    }

    /// Takes the next thing that the line is told of, which has this number.
    pub(crate) fn take(&mut self, told: &Told, number: u64, strays: &Strays) -> Verdict
        ensures verdict { result ≡ verdict strays.now (judged self.old) told.now }
        ensures after { judged self.new ≡ judged_after strays.now number (judged self.old) told.now }
    {
        // A line that isn't judged any more would come back here.
        if !self.is_judging() {
            return Verdict::Unjudged;
        }
        self.take_next(told, number, strays)
    }

    /// Takes the next thing that a line is told of which is judged.
    fn take_next(&mut self, told: &Told, number: u64, strays: &Strays) -> Verdict
        ensures verdict { result ≡ verdict_of strays.now (judged self.old) told.now }
        ensures after { judged self.new ≡ next_of strays.now number (judged self.old) told.now }
    {
        match told {
            Told::Flit(flit) => self.take_flit(flit, number, strays),
            Told::Nothing => Verdict::Judged,
            Told::Unjudged(cause) => {
                self.set_aside(*cause, number);
                Verdict::Unjudged
            }
            Told::OtherHome => {
                self.set_aside(Cause::Fault, number);
                Verdict::Fault(LineReason::OtherHome)
            }
        }
    }

    /// Takes the next flit; a fault sets the line aside.
    fn take_flit(&mut self, flit: &Flit, number: u64, strays: &Strays) -> Verdict
        ensures verdict { result ≡ verdict_by (refusal_of strays.now (judged self.old) flit.now) }
        ensures after { judged self.new ≡ flit_by (refusal_of strays.now (judged self.old) flit.now) number
            (after_flit strays.now number (judged self.old) flit.now) }
    {
        match self.judge(flit, number, strays) {
            Ok(()) => Verdict::Judged,
            Err(reason) => {
                self.set_aside(Cause::Fault, number);
                Verdict::Fault(LineReason::Rule(reason))
            }
        }
    }

    /// Judges the next flit: the first rule that it breaks.
    fn judge(&mut self, flit: &Flit, number: u64, strays: &Strays) -> Result<(), Reason>
        ensures why { reason_of result ≡ refusal_of strays.now (judged self.old) flit.now }
        ensures after { OnOk result (judged self.new ≡ after_flit strays.now number (judged self.old) flit.now) }
    {
        match self {
            Judge::Whole(line) => take_whole(line, flit),
            Judge::Begun(line) => line.take(flit, number, strays),
            Judge::Unjudged(_) => Ok(()),
        }
    }

    /// The line isn't judged from here on, as too many of its flits wait; one that isn't judged already stays as it is.
    pub(crate) fn crowd(&mut self, number: u64)
        ensures { judged self.new ≡ crowded_by number (judged self.old) }
    {
        if self.is_judging() {
            self.set_aside(Cause::Crowded, number);
        }
    }

    /// The line isn't judged from here on, for this cause.
    fn set_aside(&mut self, cause: Cause, number: u64)
        ensures { judged self.new ≡ set_aside cause number }
    {
        *self = Judge::Unjudged(Unjudged { cause, number });
    }
}
