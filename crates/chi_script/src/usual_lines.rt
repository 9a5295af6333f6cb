//! The lines that nearly all commands of a file are, known by their first letters.

ghost use Rattle.std.specs.Prelude.{◌≡◌, IfSome, Some};
ghost use Rattle.chi_script.specs.Words.{words_of};
ghost use Rattle.chi_script.specs.Commands.{command_of, command_with};

use crate::commands::{Command, with_one, with_two, with_words};
use crate::numbers::small;
use crate::verbs::Verb;
use crate::words::{first_argument, is};

/// The command that a line is, where its first letters are those of a verb that most files are full of.
/// `None` where it is another line, which may be a command all the same.
pub(crate) fn usual_command(line: &[u8]) -> Option<Command>
    ensures { IfSome result (λ command. command_of (words_of line.now) ≡ Some command) }
{
    match line {
        [b'a', b'r', ..] => two_numbers(line, Verb::Arrive),
        [b'a', ..] => two_numbers(line, Verb::Ack),
        [b'i', ..] => command_with_verb(line, Verb::Issue),
        [b's', b't', b'a', ..] => two_numbers(line, Verb::Start),
        [b's', b't', ..] => command_with_verb(line, Verb::Store),
        [b's', b'n', b'p', b' ', ..] => two_numbers(line, Verb::Snp),
        [b's', b'n', ..] => two_numbers(line, Verb::SnpResp),
        [b's', b'e', ..] => one_number(line, Verb::See),
        [b'd', b'a', ..] => two_numbers(line, Verb::Data),
        [b'd', b'b', ..] => two_numbers(line, Verb::Dbid),
        [b'r', b'e', b't', ..] => two_numbers(line, Verb::RetryAck),
        [b'r', ..] => two_numbers(line, Verb::Resend),
        [b'c', b'o', ..] => two_numbers(line, Verb::Comp),
        [b'w', ..] => two_numbers(line, Verb::WrData),
        [b'l', ..] => command_with_verb(line, Verb::Load),
        [b't', b'o', ..] => glance(line),
        _ => None,
    }
}

/// `totals`
#[inline(always)]
fn glance(line: &[u8]) -> Option<Command>
    ensures { IfSome result (λ command. command_of (words_of line.now) ≡ Some command) }
{
    if is(line, Verb::Totals.word()) {
        Some(Command::Totals)
    } else {
        None
    }
}

/// `VERB N`
#[inline(always)]
fn one_number(line: &[u8], verb: Verb) -> Option<Command>
    ensures { IfSome result (λ command. command_of (words_of line.now) ≡ Some command) }
{
    let rest = behind(line, verb)?;
    with_one(verb, small(rest)?)
}

/// `VERB N L`
#[inline(always)]
fn two_numbers(line: &[u8], verb: Verb) -> Option<Command>
    ensures { IfSome result (λ command. command_of (words_of line.now) ≡ Some command) }
{
    let rest = behind(line, verb)?;
    let (first, second) = first_argument(rest)?;
    with_two(verb, small(first)?, small(second)?)
}

/// The command of a line that begins with the verb, by its words.
fn command_with_verb(line: &[u8], verb: Verb) -> Option<Command>
    ensures { IfSome result (λ command. command_of (words_of line.now) ≡ Some command) }
{
    with_words(verb, behind(line, verb)?)
}

/// What stands behind the verb and a space, where the line begins so.
#[inline(always)]
fn behind(line: &[u8], verb: Verb) -> Option<&[u8]>
    ensures { IfSome result
        (λ rest. command_of (words_of line.now) ≡ command_with verb (words_of rest.now)) }
{
    let word = verb.word().as_bytes();
    let end = word.len();
    if line.len() <= end {
        return None;
    }
    if line[end] != b' ' {
        return None;
    }
    if !line.starts_with(word) {
        return None;
    }
    Some(&line[end + 1..])
}
