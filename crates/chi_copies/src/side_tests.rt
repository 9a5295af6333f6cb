//! What is asked of a set of sides.

ghost use Rattle.std.specs.Prelude.{◌≡◌, ◌<◌, ◌&&◌, ◌||◌, Option};
ghost use Rattle.chi_copies.specs.declared.replies.Reply.{Reply as ReplyOf};
ghost use Rattle.chi_copies.specs.Copies.{Held as HeldOf};
ghost use Rattle.chi_copies.specs.Sets.{members};
ghost use Rattle.chi_copies.specs.ArrivingLines.{any_side, copies_at_row, passes_at_row, reply_passes, side_passes, sides_of, side_copies};

use crate::copies::Copies;
use crate::received::Coming;
use crate::replies::{Age, Asked, Reply, brings_last, has_age};
use crate::sides::Sides;

/// What a reply on its way may be.
/// Source: `docs/COPIES.md`, "Seen at the home".
#[derive(Clone, Copy, Debug, PartialEq, Eq)]
pub enum ReplyTest {
    /// Any, or none.
    Any,
    /// One with the value last stored.
    Comes,
    /// None with the value last stored.
    Stays,
    /// The one that comes, with words of this age.
    Words(Coming, Age),
}

impl ReplyTest {
    /// Whether the reply is so.
    fn passes(self, reply: Option<Reply>) -> bool
        ensures { result ≡ reply_passes self reply }
    {
        match self {
            ReplyTest::Any => true,
            ReplyTest::Comes => brings_last(reply),
            ReplyTest::Stays => !brings_last(reply),
            ReplyTest::Words(coming, age) => coming.is_it(reply) && has_age(reply, age),
        }
    }
}

impl Sides {
    /// Whether the row stands for a reply that is so, with one of these copies.
    fn row_any(&self, asked: Asked, row: usize, test: ReplyTest, of: Copies) -> bool
        requires { row < 45 }
        ensures { result ≡ passes_at_row test of asked self.now row }
    {
        let reply = asked.reply_at(row);
        asked.row_of(reply) == row && (test.passes(reply) && self.rows[row].meets(of))
    }

    /// Whether some side is so.
    pub(crate) fn any(&self, asked: Asked, test: ReplyTest, of: Copies) -> bool
        ensures { result ≡ any_side (side_passes test of) (sides_of asked self.now) }
    {
        let mut found = false;
        for row in 0..45 {
            found |= self.row_any(asked, row, test, of);
        }
        found
    }

    /// The copies of the row, if it stands for a reply.
    fn row_copies(&self, asked: Asked, row: usize) -> Copies
        requires { row < 45 }
        ensures { (h : HeldOf) → members result h ≡ copies_at_row asked self.now row h }
    {
        if asked.row_of(asked.reply_at(row)) == row {
            self.rows[row]
        } else {
            Copies::empty()
        }
    }

    /// The copies of all sides.
    pub(crate) fn copies(&self, asked: Asked) -> Copies
        ensures { (h : HeldOf) → members result h ≡ side_copies (sides_of asked self.now) h }
    {
        let mut copies = Copies::empty();
        for row in 0..45 {
            copies = copies.or(self.row_copies(asked, row));
        }
        copies
    }
}
