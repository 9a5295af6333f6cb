//! The states of copies inside an answer.

ghost use Rattle.std.specs.Prelude.{◌≡◌, Some, take};
ghost use Rattle.chi_replay.specs.Replies.{copy_text, joined_texts};

use chi_slice::CopyView;
use std::fmt;

/// The states of copies, joined by commas.
#[derive(Drop)]
pub(crate) struct States<'a>(pub &'a [CopyView]);

impl<'a> fmt::Display for States<'a> {
    ghost output = { λ copies. Some (joined_texts copy_text copies.0.now) };

    fn fmt<W: fmt::Write>(&self, f: &mut fmt::Formatter<W>) -> fmt::Result {
        match self.0 {
            [] => write!(f, "-"),
            [first, rest @ ..] => {
                let state = first.state;
                write!(f, "{state}")?;
                for copy in rest {
                    let state = copy.state;
                    write!(f, ",{state}")?;
                }
                Ok(())
            }
        }
    }
}

/// The copies of the agents from 0 on, so many as are asked for.
pub(crate) fn first_copies(copies: &[CopyView; 8], agents: u8) -> &[CopyView]
    ensures { result.now ≡ take agents copies.now }
{
    let shown = usize::from(agents).min(8);
    &copies[..shown]
}
