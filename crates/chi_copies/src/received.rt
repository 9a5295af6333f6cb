//! What flits that come, and flits of the home, make of the sides of a set.

ghost use Rattle.std.specs.Prelude.{◌≡◌, ◌||◌, Option, false, true};
ghost use Rattle.chi_copies.specs.declared.replies.Reply.{Reply as ReplyOf};
ghost use Rattle.chi_copies.specs.declared.moves.Move.TheVariants.{Beholds, Brings, Forgets, ForgetsOwn, Gains, Passes};
ghost use Rattle.chi_copies.specs.Arriving.{aged, followed, is_completion, is_gone, kept, may_write, with_mark};
ghost use Rattle.chi_copies.specs.Copies.{Held as HeldOf};
ghost use Rattle.chi_copies.specs.Sets.{held_is};
ghost use Rattle.chi_copies.specs.ArrivingLines.{behind, brings_by, comes_so, fits, is_side, moves, side, sides_of};

use crate::acts::granted;
use crate::held::Held;
use crate::replies::{Age, Asked, Reply, act_number, brings_last, reply_followed, reply_outrun};
use crate::rules::{is_upgraded, is_written_whole, makes, settles, tells_words};
use crate::sides::Sides;
use chi_observer::{Act, Due, Grant};

/// A reply that comes, and of which ages its words may be.
/// Source: `docs/COPIES.md`, "Seen at the home".
#[derive(Clone, Copy, Debug, PartialEq, Eq)]
pub struct Coming {
    /// What it is.
    pub act: Act,
    /// Whether its words may be the home's own.
    pub own: bool,
    /// Whether they may be the value last stored.
    pub last: bool,
}

/// Of which ages words that came may be.
/// Source: `docs/COPIES.md`, "Seen at the home".
#[derive(Clone, Copy, Debug, PartialEq, Eq)]
pub struct Ages {
    /// The home's own.
    pub own: bool,
    /// The value last stored.
    pub last: bool,
    /// Another that the home hadn't.
    pub past: bool,
    /// Older than some that the home had received.
    pub older: bool,
}

/// The copy with another mark: whether it was stored to since the home has had its words.
fn with_mark(held: Held, stored: bool) -> Held
    ensures { held_is result ≡ with_mark (held_is held) stored }
{
    Held { stored, ..held }
}

/// Whether the value is lost: a copy that was stored to was thrown away, and its words aren't on their way.
fn is_gone(held: Held, reply: Option<Reply>) -> bool
    ensures { result ≡ is_gone (side (held_is held) reply) }
{
    held.is_lost() && !brings_last(reply)
}

/// Whether a copy has the value last stored still, or its words are on their way.
fn is_kept(held: Held, reply: Option<Reply>) -> bool
    ensures { result ≡ kept (side (held_is held) reply) }
{
    held.stored && (held.copy.is_dirty() || brings_last(reply))
}

/// The set with the side behind words that the home has received; `stored` says whether the home hasn't its words still.
fn behind(stored: bool, asked: Asked, held: Held, reply: Option<Reply>, left: &mut Sides)
    requires { fits asked reply ≡ true }
    ensures { (h : HeldOf) (s : Option ReplyOf) → sides_of asked left.new h s
        ≡ (sides_of asked left.old h s || behind stored (held_is held) reply h s) }
{
    left.add(asked, with_mark(held, stored), reply_outrun(reply));
}

impl Coming {
    /// Whether the reply is it, with words of an age that they may be of.
    pub(crate) fn is_it(self, reply: Option<Reply>) -> bool
        ensures { result ≡ brings_by self reply }
    {
        match reply {
            None => false,
            Some(sent) => act_number(sent.act) == act_number(self.act) && self.may_be(sent.age),
        }
    }

    /// Whether its words may be of the age.
    fn may_be(self, age: Age) -> bool
        ensures { result ≡ comes_so self age }
    {
        if !tells_words(self.act) {
            return true;
        }
        match age {
            Age::Own => self.own,
            Age::Last => self.last,
            Age::Past | Age::Older => true,
        }
    }

    /// The set with the side behind it, if it was on its way.
    pub(crate) fn brings(self, asked: Asked, held: Held, reply: Option<Reply>, left: &mut Sides)
        ensures { (h : HeldOf) (s : Option ReplyOf) → sides_of asked left.new h s
            ≡ (sides_of asked left.old h s || moves (Brings self) asked (held_is held) reply h s) }
    {
        if self.is_it(reply) {
            let stored = held.stored && !brings_last(reply);
            left.add(asked, with_mark(held, stored), None);
        }
    }
}

impl Ages {
    /// The set with what another agent's side is behind such words.
    pub(crate) fn passes(self, asked: Asked, held: Held, reply: Option<Reply>, left: &mut Sides)
        requires { fits asked reply ≡ true }
        ensures { (h : HeldOf) (s : Option ReplyOf) → sides_of asked left.new h s
            ≡ (sides_of asked left.old h s || moves (Passes self) asked (held_is held) reply h s) }
    {
        if self.own || self.older {
            left.add(asked, held, reply);
        }
        if self.past {
            behind(held.stored, asked, held, reply, left);
        }
        if self.last && !brings_last(reply) {
            behind(
                held.stored && !is_gone(held, reply),
                asked,
                held,
                reply,
                left,
            );
        }
    }
}

/// The set with the side behind write data of its own that a later completion has overtaken.
pub(crate) fn forgets_own(asked: Asked, held: Held, reply: Option<Reply>, left: &mut Sides)
    requires { fits asked reply ≡ true }
    ensures { (h : HeldOf) (s : Option ReplyOf) → sides_of asked left.new h s
        ≡ (sides_of asked left.old h s || moves ForgetsOwn asked (held_is held) reply h s) }
{
    behind(is_kept(held, reply), asked, held, reply, left);
}

/// The set with the side behind such data of another agent.
pub(crate) fn forgets(asked: Asked, held: Held, reply: Option<Reply>, left: &mut Sides)
    requires { fits asked reply ≡ true }
    ensures { (h : HeldOf) (s : Option ReplyOf) → sides_of asked left.new h s
        ≡ (sides_of asked left.old h s || moves Forgets asked (held_is held) reply h s) }
{
    behind(
        held.stored && !is_gone(held, reply),
        asked,
        held,
        reply,
        left,
    );
}

/// The set with the side to which a flit of the home goes.
pub(crate) fn gains(
    grant: Grant,
    due: Due,
    asked: Asked,
    held: Held,
    reply: Option<Reply>,
    left: &mut Sides,
)
    requires { fits asked reply ≡ true }
    ensures { (h : HeldOf) (s : Option ReplyOf) → sides_of asked left.new h s
        ≡ (sides_of asked left.old h s || moves (Gains grant due) asked (held_is held) reply h s) }
{
    let made = makes(grant, due);
    let lost = settles(grant, due) && is_gone(held, reply);
    let got = with_mark(granted(grant, due, held), made || (held.stored && !lost));
    if made {
        left.add(asked, got, reply_followed(reply));
    } else {
        left.add(asked, got, reply);
    }
}

/// Whether a flit of the home completes a request.
fn is_completion(grant: Grant) -> bool
    ensures { result ≡ is_completion grant }
{
    !matches!(grant, Grant::RetryAck | Grant::Snp(_))
}

/// Whether an agent may write the line without its words, as its request is completed.
fn may_write(due: Due) -> bool
    ensures { result ≡ may_write due }
{
    is_upgraded(due) || is_written_whole(due)
}

/// The set with the side where another agent makes the value.
fn replaced(asked: Asked, held: Held, reply: Option<Reply>, left: &mut Sides)
    requires { fits asked reply ≡ true }
    ensures { (h : HeldOf) (s : Option ReplyOf) → sides_of asked left.new h s
        ≡ (sides_of asked left.old h s || is_side (with_mark (held_is held) false) (aged followed reply) h s) }
{
    left.add(asked, with_mark(held, false), reply_followed(reply));
}

/// The set with the side of another agent than the one to which a flit of the home goes.
pub(crate) fn beholds(
    grant: Grant,
    due: Due,
    asked: Asked,
    held: Held,
    reply: Option<Reply>,
    left: &mut Sides,
)
    requires { fits asked reply ≡ true }
    ensures { (h : HeldOf) (s : Option ReplyOf) → sides_of asked left.new h s
        ≡ (sides_of asked left.old h s || moves (Beholds grant due) asked (held_is held) reply h s) }
{
    if makes(grant, due) {
        replaced(asked, held, reply, left);
    } else if settles(grant, due) && is_gone(held, reply) {
        left.add(asked, with_mark(held, false), reply);
    } else {
        left.add(asked, held, reply);
        if is_completion(grant) && (may_write(due) && brings_last(reply)) {
            replaced(asked, held, reply, left);
        }
    }
}
