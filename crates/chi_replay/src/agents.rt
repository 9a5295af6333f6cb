//! Sets of agents inside an answer.

ghost use Rattle.std.specs.Prelude.{◌≡◌, Some};
ghost use Rattle.std.specs.Fmt.{decimal};
ghost use Rattle.chi_replay.specs.Replies.{joined_texts, members};

use arrayvec::ArrayVec;
use std::fmt;

/// Numbers of agents, joined by commas.
#[derive(Drop)]
pub(crate) struct Agents<'a>(pub &'a [u8]);

impl<'a> fmt::Display for Agents<'a> {
    ghost output = { λ agents. Some (joined_texts decimal agents.0.now) };

    fn fmt<W: fmt::Write>(&self, f: &mut fmt::Formatter<W>) -> fmt::Result {
        match self.0 {
            [] => write!(f, "-"),
            [first, rest @ ..] => {
                write!(f, "{first}")?;
                for agent in rest {
                    write!(f, ",{agent}")?;
                }
                Ok(())
            }
        }
    }
}

/// The numbers that have a mark, in rising order.
pub(crate) fn members(marks: &[bool; 8]) -> ArrayVec<u8, 8>
    ensures { result.items ≡ members marks.now }
{
    let mut members = ArrayVec::new();
    for agent in 0..8 {
        if marks[usize::from(agent)] {
            members.push(agent);
        }
    }
    members
}
