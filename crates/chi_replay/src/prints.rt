//! How an answer is printed: put behind the text that was printed before.

ghost use Rattle.std.specs.Prelude.{◌≡◌, ◌<◌, ◌≤◌, ◌++◌, ℕ, List, OnOk, string_bytes};
ghost use Rattle.std.specs.Fmt.{decimal};
ghost use Rattle.chi_replay.specs.Replies.{spaced_texts};

use std::alloc::{AllocError, Allocator};

/// What has a text that is printed.
/// Source: `docs/FORMATS.md`, "Replay files".
pub trait Printable {
    ghost text: { Self → List ℕ };

    /// Puts its text behind what was printed before, without a line feed. Refused where memory for the text
    /// runs out.
    fn print<A: Allocator>(&self, printed: &mut String<A>) -> Result<(), AllocError>
        ensures { OnOk result
            (string_bytes printed.new ≡ string_bytes printed.old ++ text self.now) };
}

/// Prints a number in decimal. Most have one digit or two, which are put there one by one.
pub(crate) fn print_number<A: Allocator>(
    number: u64,
    printed: &mut String<A>,
) -> Result<(), AllocError>
    ensures { OnOk result (string_bytes printed.new ≡ string_bytes printed.old ++ decimal number) }
{
    if number < 10 {
        return print_digit(number as u8, printed);
    }
    if number < 100 {
        return print_pair(number as u8, printed);
    }
    write!(printed, "{number}")
}

/// Prints a number of two digits.
fn print_pair<A: Allocator>(number: u8, printed: &mut String<A>) -> Result<(), AllocError>
    requires { (10 ≤ number) × (number < 100) }
    ensures { OnOk result (string_bytes printed.new ≡ string_bytes printed.old ++ decimal number) }
{
    print_digit(number / 10, printed)?;
    print_digit(number % 10, printed)
}

/// Prints a digit.
#[tactic(auto, using(crate::proofs::Digits::one_digit))]
fn print_digit<A: Allocator>(digit: u8, printed: &mut String<A>) -> Result<(), AllocError>
    requires { digit < 10 }
    ensures { OnOk result (string_bytes printed.new ≡ string_bytes printed.old ++ decimal digit) }
{
    printed.push(char::from(b'0' + digit))
}

/// Prints numbers, a space before each.
pub(crate) fn print_numbers<A: Allocator>(
    numbers: &[u32],
    printed: &mut String<A>,
) -> Result<(), AllocError>
    ensures { OnOk result
        (string_bytes printed.new ≡ string_bytes printed.old ++ spaced_texts decimal numbers.now) }
{
    for number in numbers {
        printed.push(' ')?;
        print_number(u64::from(*number), printed)?;
    }
    Ok(())
}
