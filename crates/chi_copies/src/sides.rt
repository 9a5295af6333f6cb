//! Sets of sides: of a copy, each with the reply that is on its way.

ghost use Rattle.std.specs.Prelude.{◌≡◌, ◌||◌, Option, false, length, true};
ghost use Rattle.chi_copies.specs.declared.replies.Asked.{Asked as AskedOf};
ghost use Rattle.chi_copies.specs.declared.replies.Asked.TheVariants.{NoReply};
ghost use Rattle.chi_copies.specs.declared.replies.Reply.{Reply as ReplyOf};
ghost use Rattle.chi_copies.specs.Copies.{Held as HeldOf};
ghost use Rattle.chi_copies.specs.Sets.{held_is};
ghost use Rattle.chi_copies.specs.ArrivingLines.{fits, is_side, rests, sides_of};

use crate::copies::Copies;
use crate::held::Held;
use crate::replies::{Asked, Reply};

/// A set of sides, of an agent of which the home awaits some reply, or none: a row for each reply that may be on its way.
/// Source: `docs/COPIES.md`, "Seen at the home".
#[derive(Clone, Copy, Debug, PartialEq, Eq)]
pub struct Sides {
    /// The copies of each row.
    pub rows: [Copies; 45],
}

/// No copies.
const NO_COPIES: Copies = Copies { bits: 0 };

impl Sides {
    /// The set of none.
    pub(crate) fn empty() -> Sides
        ensures { (asked : Asked) (h : HeldOf) (s : Option ReplyOf) → sides_of asked result h s ≡ false }
    {
        Sides {
            rows: [NO_COPIES; 45],
        }
    }

    /// The set with the side.
    pub(crate) fn add(&mut self, asked: Asked, held: Held, reply: Option<Reply>)
        requires { fits asked reply ≡ true }
        ensures { (h : HeldOf) (s : Option ReplyOf) → sides_of asked self.new h s
            ≡ (sides_of asked self.old h s || is_side (held_is held) reply h s) }
    {
        let row = asked.row_of(reply);
        if row < 45 {
            self.rows[row] = self.rows[row].with(held);
        }
    }

    /// A copy of the set.
    pub(crate) fn copied(&self) -> Sides
        ensures is { result ≡ self.now }
        ensures whole { length result.rows ≡ 45 }
    {
        *self
    }

    /// Sides with no reply on their way, whatever the home awaits.
    pub(crate) fn at_rest(&self) -> Sides
        ensures { (a b : AskedOf) (h : HeldOf) (s : Option ReplyOf) → sides_of b result h s ≡ rests (sides_of a self.now) h s }
    {
        let mut rest = Sides::empty();
        rest.rows[44] = self.rows[44];
        rest
    }

    /// Sides of an agent of which no reply was awaited, whatever the home awaits.
    pub(crate) fn resting(&self) -> Sides
        ensures { (b : AskedOf) (h : HeldOf) (s : Option ReplyOf) → sides_of b result h s ≡ sides_of NoReply self.now h s }
    {
        self.at_rest()
    }
}
