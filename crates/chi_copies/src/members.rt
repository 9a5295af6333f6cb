//! What an agent may be that has flits on their way to the home: a set of members.

ghost use Rattle.std.specs.Prelude.{◌≡◌, ◌<◌, ℕ, Option, Some, false, length, true};
ghost use Rattle.chi_observer.specs.declared.flits.Due.{Due as DueOf};
ghost use Rattle.chi_observer.specs.declared.flits.Due.TheVariants.{Nothing};
ghost use Rattle.chi_observer.specs.Rules.{is_resending};
ghost use Rattle.chi_copies.specs.declared.replies.Asked.TheVariants.{NoReply};
ghost use Rattle.chi_copies.specs.declared.replies.Asked.{Asked as AskedOf};
ghost use Rattle.chi_copies.specs.declared.replies.Reply.{Reply as ReplyOf};
ghost use Rattle.chi_copies.specs.Arriving.{Member, any_member, any_of, came, led, loose, same_member, steps};
ghost use Rattle.chi_copies.specs.Copies.{Held as HeldOf};
ghost use Rattle.chi_copies.specs.Sets.{members};
ghost use Rattle.chi_copies.specs.ArrivingLines.{class_of, copies_at_place, copies_of, is_asking, is_data_due, is_place, kind_of_class, member_moves, member_passes, members_of, moves, nothing_sent, passes_at_place, place_of_request, request_at, resent_of, rest_of, side_image, sides_at, sides_of, stepped};

use crate::acts::is_resent;
use crate::copies::{Copies, held_at};
use crate::moves::Move;
use crate::replies::Asked;
use crate::side_tests::ReplyTest;
use crate::sides::Sides;
use crate::tests::Test;
use chi_observer::{Act, Due, Kind};

/// A set of members, of an agent of which this is due and the home awaits some reply, or none: a place for each class of
/// requests that may be on their way, for one that is sent again, and for none. 1,620 bytes.
/// Source: `docs/COPIES.md`, "Seen at the home".
#[derive(Clone, Copy, Debug, PartialEq, Eq)]
pub struct Members {
    /// The sides of each place.
    pub sides: [Sides; 9],
}

/// The place of a request: that of its class. The same copies send the requests of a class, and are left alike.
fn class_of(kind: Kind) -> usize
    ensures { result ≡ class_of kind }
{
    match kind {
        Kind::ReadNotSharedDirty | Kind::ReadShared | Kind::ReadClean => 1,
        Kind::ReadUnique | Kind::CleanUnique | Kind::MakeUnique => 2,
        Kind::CleanShared => 3,
        Kind::ReadOnce | Kind::CleanInvalid | Kind::MakeInvalid | Kind::WriteUniqueFull => 4,
        Kind::Evict => 5,
        Kind::WriteBackFull | Kind::WriteCleanFull => 6,
        Kind::WriteEvictFull => 7,
    }
}

/// A request of the class.
fn kind_of_class(place: usize) -> Kind
    ensures { result ≡ kind_of_class place }
{
    match place {
        1 => Kind::ReadNotSharedDirty,
        2 => Kind::ReadUnique,
        3 => Kind::CleanShared,
        4 => Kind::ReadOnce,
        5 => Kind::Evict,
        6 => Kind::WriteBackFull,
        _ => Kind::WriteEvictFull,
    }
}

/// The kind of a request that was retried.
fn resent_of(due: Due) -> Kind
    ensures { result ≡ resent_of due }
{
    match due {
        Due::Resending(kind) => kind,
        Due::Nothing
        | Due::Completion(_)
        | Due::SureCompletion(_)
        | Due::WriteData(_)
        | Due::Acknowledgement => Kind::MakeInvalid,
    }
}

/// The request of a place, if it has one.
fn request_at(due: Due, place: usize) -> Option<Act>
    ensures { result ≡ request_at due place }
{
    match place {
        0 => None,
        8 => Some(Act::Resend(resent_of(due))),
        _ => Some(Act::Request(kind_of_class(place))),
    }
}

/// The place of a request, or of one that is sent again while this is due; 9 where it has none.
fn place_of_request(due: Due, act: Act) -> usize
    ensures { result ≡ place_of_request due (Some act) }
{
    match act {
        Act::Request(kind) => class_of(kind),
        Act::Resend(kind) => if is_resent(kind, due) { 8 } else { 9 },
        Act::SnpResp(_)
        | Act::CompAck
        | Act::CopyBackWrData(_)
        | Act::NonCopyBackWrData
        | Act::Load(_)
        | Act::Store(_) => 9,
    }
}

/// Whether a place stands for a request while this is due, or for none.
fn is_place(due: Due, place: usize) -> bool
    ensures { result ≡ is_place due place }
{
    match request_at(due, place) {
        None => place == 0,
        Some(act) => place_of_request(due, act) == place,
    }
}

impl Members {
    /// What one unseen step, or none, makes of those with the request of a place on its way.
    fn stepped_at(&self, due: Due, asked: Asked, place: usize) -> Sides
        requires { place < 9 }
        ensures { (h : HeldOf) (s : Option ReplyOf) → sides_of asked result h s
            ≡ stepped due asked (request_at due place) (sides_of asked (sides_at self.now 0))
            (sides_of asked (sides_at self.now place)) h s }
    {
        let mut left = Sides::empty();
        match request_at(due, place) {
            None => Move::Unseen(due).image(asked, &self.sides[0], &mut left),
            Some(act) => {
                Move::Busy.image(asked, &self.sides[place], &mut left);
                Move::Asks(act, due).image(asked, &self.sides[0], &mut left);
            }
        }
        left
    }

    /// What one unseen step, or none, makes of them.
    fn stepped(&self, due: Due, asked: Asked) -> Members
        requires { is_data_due due ≡ false }
        ensures { (m : Member) → members_of due asked result m ≡ led (steps due asked) (members_of due asked self.now) m }
    {
        let mut next = *self;
        for place in 0..9 {
            next.sides[place] = self.stepped_at(due, asked, place);
        }
        next
    }

    /// What they are behind unseen steps, of which there are five at most.
    pub(crate) fn loose(&self, due: Due, asked: Asked) -> Members
        requires { is_data_due due ≡ false }
        ensures { (m : Member) → members_of due asked result m ≡ loose due asked (members_of due asked self.now) m }
    {
        let mut members = *self;
        for _ in 0..5u32 {
            let next = members.stepped(due, asked);
            if next == members {
                return members;
            }
            members = next;
        }
        members
    }

    /// No members.
    fn empty() -> Members
        ensures { (a : AskedOf) (p : ℕ) (h : HeldOf) (s : Option ReplyOf) → sides_of a (sides_at result p) h s ≡ false }
    {
        Members {
            sides: [Sides::empty(); 9],
        }
    }

    /// The member of an agent with no copy, which has sent nothing.
    fn of_none() -> Members
        ensures { (m : Member) → members_of Nothing NoReply result m ≡ same_member nothing_sent m }
    {
        let mut sides = Sides::empty();
        sides.add(Asked::NoReply, held_at(0), None);
        let mut first = Members::empty();
        first.sides[0] = sides;
        first
    }

    /// What an agent with no copy may be, which has sent nothing that the home has received.
    pub(crate) fn first() -> Members
        ensures { (m : Member) → members_of Nothing NoReply result m ≡ loose Nothing NoReply (same_member nothing_sent) m }
    {
        let first = Members::of_none();
        first.loose(Due::Nothing, Asked::NoReply)
    }

    /// What the step makes of them.
    pub(crate) fn image(&self, step: Move, asked: Asked) -> Members
        ensures { (d : DueOf) (m : Member) → members_of d asked result m
            ≡ led (member_moves step asked) (members_of d asked self.now) m }
    {
        let mut next = *self;
        for place in 0..9 {
            next.sides[place] = self.sides_moved(step, asked, place);
        }
        next
    }

    /// What the step makes of those of a place.
    fn sides_moved(&self, step: Move, asked: Asked, place: usize) -> Sides
        requires { place < 9 }
        ensures { (h : HeldOf) (s : Option ReplyOf) → sides_of asked result h s
            ≡ side_image (moves step asked) (sides_of asked (sides_at self.now place)) h s }
    {
        let mut left = Sides::empty();
        step.image(asked, &self.sides[place], &mut left);
        left
    }

    /// Members with no reply on their way, whatever the home awaits.
    pub(crate) fn at_rest(&self) -> Members
        ensures { (d : DueOf) (a b : AskedOf) (m : Member) → members_of d b result m ≡ rest_of (members_of d a self.now) m }
    {
        let mut next = *self;
        for place in 0..9 {
            next.sides[place] = self.sides[place].at_rest();
        }
        next
    }

    /// Members of an agent of which no reply was awaited, whatever the home awaits.
    pub(crate) fn resting(&self) -> Members
        ensures { (d : DueOf) (b : AskedOf) (m : Member) → members_of d b result m ≡ members_of d NoReply self.now m }
    {
        let mut next = *self;
        for place in 0..9 {
            next.sides[place] = self.sides[place].resting();
        }
        next
    }

    /// Members whose request comes, which is on its way no more; this is due of the last one.
    pub(crate) fn came(&self, due: Due, act: Act) -> Members
        requires { is_asking act ≡ true }
        ensures { (d : DueOf) (a : AskedOf) (m : Member) → members_of d a result m ≡ led (came act) (members_of due a self.now) m }
    {
        let place = place_of_request(due, act);
        let mut next = Members::empty();
        if place < 9 {
            next.sides[0] = self.sides_of(place);
        }
        next
    }

    /// The sides of a place.
    fn sides_of(&self, place: usize) -> Sides
        requires { place < 9 }
        ensures is { result ≡ sides_at self.now place }
        ensures whole { length result.rows ≡ 45 }
    {
        self.sides[place].copied()
    }

    /// Members of an agent whose request isn't retried, whatever is due of it then.
    pub(crate) fn unresent(&self) -> Members
        ensures { (d e : DueOf) (a : AskedOf) (m : Member) → is_resending d ≡ false
            → members_of e a result m ≡ members_of d a self.now m }
    {
        let mut next = *self;
        next.sides[8] = Sides::empty();
        next
    }

    /// Whether some side of a place is so.
    fn place_any(&self, due: Due, asked: Asked, place: usize, test: ReplyTest, of: Copies) -> bool
        requires { place < 9 }
        ensures { result ≡ passes_at_place test of due asked self.now place }
    {
        is_place(due, place) && self.sides[place].any(asked, test, of)
    }

    /// Whether some member is so.
    pub(crate) fn any(&self, due: Due, asked: Asked, test: ReplyTest, of: Copies) -> bool
        ensures { result ≡ any_of (members_of due asked self.now) (member_passes test of) }
    {
        let mut found = false;
        for place in 0..9 {
            found |= self.place_any(due, asked, place, test, of);
        }
        found
    }

    /// Whether there is some member.
    pub(crate) fn is_some(&self, due: Due, asked: Asked) -> bool
        ensures { result ≡ any_member (members_of due asked self.now) }
    {
        self.any(due, asked, ReplyTest::Any, Test::Each.copies())
    }

    /// The copies of a place.
    fn place_copies(&self, due: Due, asked: Asked, place: usize) -> Copies
        requires { place < 9 }
        ensures { (h : HeldOf) → members result h ≡ copies_at_place due asked self.now place h }
    {
        if is_place(due, place) {
            self.sides[place].copies(asked)
        } else {
            Copies::empty()
        }
    }

    /// The copies of all members.
    pub(crate) fn copies(&self, due: Due, asked: Asked) -> Copies
        ensures { (h : HeldOf) → members result h ≡ copies_of (members_of due asked self.now) h }
    {
        let mut copies = Copies::empty();
        for place in 0..9 {
            copies = copies.or(self.place_copies(due, asked, place));
        }
        copies
    }
}
