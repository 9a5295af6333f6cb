//! Rows of numbers inside an answer.

ghost use Rattle.std.specs.Prelude.{◌≡◌, Some};
ghost use Rattle.std.specs.Fmt.{decimal};
ghost use Rattle.chi_replay.specs.Replies.{spaced_texts, type_count};

use chi_flit::Profile;
use std::fmt;

/// Words of a line, a space before each.
#[derive(Drop)]
pub(crate) struct Words<'a>(pub &'a [u64]);

impl<'a> fmt::Display for Words<'a> {
    ghost output = { λ words. Some (spaced_texts decimal words.0.now) };

    fn fmt<W: fmt::Write>(&self, f: &mut fmt::Formatter<W>) -> fmt::Result {
        for word in self.0 {
            write!(f, " {word}")?;
        }
        Ok(())
    }
}

/// How many credit types the profile has.
pub(crate) fn type_count(profile: Profile) -> usize
    ensures { result ≡ type_count profile }
{
    match profile {
        Profile::Two => 2,
        Profile::Four => 4,
    }
}
