//! What the sides of a set lead to: unseen steps of their agent, and flits that come or go.

ghost use Rattle.std.specs.Prelude.{◌≡◌, ◌<◌, ◌||◌, Option, true};
ghost use Rattle.chi_copies.specs.declared.replies.Reply.{Reply as ReplyOf};
ghost use Rattle.chi_copies.specs.Arriving.{left_unseen};
ghost use Rattle.chi_copies.specs.Copies.{Held as HeldOf};
ghost use Rattle.chi_copies.specs.Sets.{held_is, members};
ghost use Rattle.chi_copies.specs.ArrivingLines.{asks_by, each_reply, fits, fits_reply, free_of, is_awaiting, moves, of_row, replies, replies_by, row_image, side_image, sides_of, slips_so, unseen_of};

use crate::acts::{acts, dropped, freed, is_free, is_resending, stored_to};
use crate::copies::{Copies, held_at};
use crate::held::Held;
use crate::received::{Ages, Coming, beholds, forgets, forgets_own, gains};
use crate::replies::{Age, Asked, Reply, reply_followed};
use crate::rules::{allows, lets_go, tells_words, writes};
use crate::sides::Sides;
use chi_observer::{Act, Due, Grant, Kind, Stores};

/// What becomes of a side.
/// Source: `docs/COPIES.md`, "Seen at the home".
#[derive(Clone, Copy, Debug, PartialEq, Eq)]
pub enum Move {
    /// One unseen step, or none, of an agent that has no request on its way; this is due of its last one.
    Unseen(Due),
    /// One unseen step, or none, of an agent that has a request on its way.
    Busy,
    /// A request, or one that is sent again, goes on its way; this is due of the last one.
    Asks(Act, Due),
    /// A reply on its way comes.
    Brings(Coming),
    /// Another agent's reply has come, whose words may be of these ages.
    Passes(Ages),
    /// No reply is on the way any more.
    Drops,
    /// Write data of its own have come that a later completion has overtaken.
    ForgetsOwn,
    /// Such data of another agent have come.
    Forgets,
    /// A flit of the home goes to its agent; this is due of the agent's request.
    Gains(Grant, Due),
    /// A flit of the home goes to another agent, of whose request this is due.
    Beholds(Grant, Due),
}

/// What is due while a request is on its way.
const UNDERWAY: Due = Due::Completion(Kind::MakeInvalid);

/// What the home hasn't of a copy that has sent this.
fn left_unseen(act: Act, held: Held, left: Held) -> Held
    ensures { held_is result ≡ left_unseen act (held_is held) (held_is left) }
{
    let stored = if tells_words(act) {
        held.stored || writes(act)
    } else {
        left.stored
    };
    Held { stored, ..left }
}

impl Move {
    /// The set with what the side leads to.
    fn leads(self, asked: Asked, held: Held, reply: Option<Reply>, left: &mut Sides)
        requires { fits asked reply ≡ true }
        ensures { (h : HeldOf) (s : Option ReplyOf) → sides_of asked left.new h s
            ≡ (sides_of asked left.old h s || moves self asked (held_is held) reply h s) }
    {
        match self {
            Move::Unseen(due) => unseen(asked.free_due(due, reply), asked, held, reply, left),
            Move::Busy => unseen(UNDERWAY, asked, held, reply, left),
            Move::Asks(act, due) => {
                asks(act, asked.free_due(due, reply), asked, held, reply, left)
            }
            Move::Brings(coming) => coming.brings(asked, held, reply, left),
            Move::Passes(ages) => ages.passes(asked, held, reply, left),
            Move::Drops => left.add(asked, held, None),
            Move::ForgetsOwn => forgets_own(asked, held, reply, left),
            Move::Forgets => forgets(asked, held, reply, left),
            Move::Gains(grant, due) => gains(grant, due, asked, held, reply, left),
            Move::Beholds(grant, due) => beholds(grant, due, asked, held, reply, left),
        }
    }
}

impl Move {
    /// The set with what the copies of a row lead to.
    fn image_row(self, asked: Asked, reply: Option<Reply>, copies: Copies, left: &mut Sides)
        requires { fits asked reply ≡ true }
        ensures { (h : HeldOf) (s : Option ReplyOf) → sides_of asked left.new h s
            ≡ (sides_of asked left.old h s || row_image (moves self asked) (members copies) reply h s) }
    {
        let mut rest = copies.known();
        while rest.bits != 0 {
            let place = rest.first();
            self.leads(asked, held_at(place), reply, left);
            rest = rest.without(place);
        }
    }

    /// The set with what the row leads to, if it stands for a reply.
    fn add_row(self, asked: Asked, row: usize, from: &Sides, left: &mut Sides)
        requires { row < 45 }
        ensures { (h : HeldOf) (s : Option ReplyOf) → sides_of asked left.new h s
            ≡ (sides_of asked left.old h s || of_row (moves self asked) asked from.now row h s) }
    {
        if from.rows[row].bits == 0 {
            return;
        }
        let reply = asked.reply_at(row);
        if asked.row_of(reply) == row {
            self.image_row(asked, reply, from.rows[row], left);
        }
    }

    /// The set with what the sides of another lead to.
    pub(crate) fn image(self, asked: Asked, from: &Sides, left: &mut Sides)
        ensures { (h : HeldOf) (s : Option ReplyOf) → sides_of asked left.new h s
            ≡ (sides_of asked left.old h s || side_image (moves self asked) (sides_of asked from.now) h s) }
    {
        for row in 0..45 {
            self.add_row(asked, row, from, left);
        }
    }
}

/// The set with the side where a request goes on its way.
fn asks(act: Act, due: Due, asked: Asked, held: Held, reply: Option<Reply>, left: &mut Sides)
    requires { fits asked reply ≡ true }
    ensures { (h : HeldOf) (s : Option ReplyOf) → sides_of asked left.new h s
        ≡ (sides_of asked left.old h s || asks_by act due (held_is held) reply h s) }
{
    if let Some(behind) = acts(Stores::Hidden, act, true, false, due, held) {
        left.add(asked, behind, reply);
    }
}

/// The set with what one unseen step, or none, makes of the side; this is due of it.
fn unseen(due: Due, asked: Asked, held: Held, reply: Option<Reply>, left: &mut Sides)
    requires { fits asked reply ≡ true }
    ensures { (h : HeldOf) (s : Option ReplyOf) → sides_of asked left.new h s
        ≡ (sides_of asked left.old h s || unseen_of due asked (held_is held) reply h s) }
{
    slips(due, asked, held, reply, left);
    send_replies(due, asked, held, reply, left);
}

/// The set with the side, and with what a cancel, a store or a drop makes of it.
fn slips(due: Due, asked: Asked, held: Held, reply: Option<Reply>, left: &mut Sides)
    requires { fits asked reply ≡ true }
    ensures { (h : HeldOf) (s : Option ReplyOf) → sides_of asked left.new h s
        ≡ (sides_of asked left.old h s || slips_so due (held_is held) reply h s) }
{
    left.add(asked, held, reply);
    if is_resending(due) {
        left.add(asked, freed(due, held), reply);
    }
    if is_free(due, held) {
        free_steps(asked, held, reply, left);
    }
}

/// The set with what a store or a drop makes of the side.
fn free_steps(asked: Asked, held: Held, reply: Option<Reply>, left: &mut Sides)
    requires { fits asked reply ≡ true }
    ensures { (h : HeldOf) (s : Option ReplyOf) → sides_of asked left.new h s
        ≡ (sides_of asked left.old h s || free_of (held_is held) reply h s) }
{
    if held.copy.is_unique() {
        left.add(asked, stored_to(held), reply_followed(reply));
    }
    if held.copy.is_clean() {
        left.add(asked, dropped(held), reply);
    }
}

/// The set with what the side is where it has sent a reply, if none is on its way.
fn send_replies(due: Due, asked: Asked, held: Held, reply: Option<Reply>, left: &mut Sides)
    ensures { (h : HeldOf) (s : Option ReplyOf) → sides_of asked left.new h s
        ≡ (sides_of asked left.old h s || replies asked due (held_is held) reply h s) }
{
    if reply.is_some() {
        return;
    }
    match asked {
        Asked::NoReply => {}
        Asked::AnswerTo(_) | Asked::DataOf(_) => send_each(due, asked, held, left),
    }
}

/// The set with what the side is where it has sent each reply that it may send.
fn send_each(due: Due, asked: Asked, held: Held, left: &mut Sides)
    requires { is_awaiting asked ≡ true }
    ensures { (h : HeldOf) (s : Option ReplyOf) → sides_of asked left.new h s
        ≡ (sides_of asked left.old h s || each_reply asked due (held_is held) h s) }
{
    for number in 0..11 {
        send(asked.act_at(number), due, asked, held, left);
    }
}

/// The set with what the side is where it has sent the reply, if it may send it.
fn send(act: Act, due: Due, asked: Asked, held: Held, left: &mut Sides)
    requires { fits_reply asked act ≡ true }
    ensures { (h : HeldOf) (s : Option ReplyOf) → sides_of asked left.new h s
        ≡ (sides_of asked left.old h s || replies_by asked due act (held_is held) h s) }
{
    let snoop = asked.snoop();
    if !allows(act, snoop) {
        return;
    }
    if let Some(behind) = acts(Stores::Hidden, act, true, lets_go(snoop), due, held) {
        let age = Age::sent(act, held);
        left.add(
            asked,
            left_unseen(act, held, behind),
            Some(Reply { act, age }),
        );
    }
}
