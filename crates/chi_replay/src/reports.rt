//! The answers of a file's commands beside those that are wanted, and the text that is printed of them.

ghost use Rattle.std.specs.Prelude.{◌≡◌, ◌<◌, ◌+◌, ◌^◌, [], ◌∷◌, ◌++◌, IfOk, OnOk, length, map};
ghost use Rattle.chi_script.specs.Files.{lines_of};
ghost use Rattle.chi_script.specs.Checks.{line_of_check};
ghost use Rattle.chi_replay.specs.Reports.{difference_line, differing, differing_text, check_summary, wanted_in};

use chi_flit::NoMemory;
use chi_script::{Check, first_line};
use std::alloc::Allocator;
use std::io::Write;

/// The answers of a file's checks beside the wanted ones.
/// Source: `docs/FORMATS.md`, "Check files".
#[derive(Drop)]
pub(crate) struct Comparison<A: Allocator> {
    /// A line for each answer that differs.
    pub(crate) lines: Vec<u8, A>,
    /// How many answers are wanted.
    pub(crate) wanted: usize,
    /// How many of them differ.
    pub(crate) differing: usize,
}

/// Compares each answer of a text, which has a line for each check, with the one that is wanted. The front
/// stands at the beginning of each line on an answer that differs. Refused where memory runs out.
pub(crate) fn compare<A: Allocator>(
    alloc: A,
    front: &[u8],
    checks: &[Check],
    text: &[u8],
) -> Result<Comparison<A>, NoMemory>
    requires { length checks.now < length (lines_of text.now) }
    ensures lines { IfOk result
        (λ found. found.lines.items
        ≡ differing_text front.now (map line_of_check checks.now) (lines_of text.now)) }
    ensures wanted { IfOk result
        (λ found. found.wanted ≡ length (wanted_in (map line_of_check checks.now))) }
    ensures differing { IfOk result
        (λ found. found.differing
        ≡ length (differing (map line_of_check checks.now) (lines_of text.now))) }
{
    let mut found = Comparison::new(alloc);
    let mut rest = text;
    for check in checks {
        let (answer, after) = next_answer(rest);
        found.add(front, check, answer)?;
        rest = after;
    }
    Ok(found)
}

/// The first line of a text that a line end closes, and what stands behind it.
fn next_answer(text: &[u8]) -> (&[u8], &[u8])
    requires { 1 < length (lines_of text.now) }
    ensures { lines_of text.now ≡ result.0.now ∷ lines_of result.1.now }
{
    match first_line(text) {
        Some(parts) => parts,
        None => unreachable!(),
    }
}

impl<A: Allocator> Comparison<A> {
    /// Nothing was compared yet.
    fn new(alloc: A) -> Comparison<A>
        ensures lines { result.lines.items ≡ [] }
        ensures wanted { result.wanted ≡ 0 }
        ensures differing { result.differing ≡ 0 }
    {
        Comparison {
            lines: Vec::new(alloc),
            wanted: 0,
            differing: 0,
        }
    }

    /// Compares one answer more.
    fn add(&mut self, front: &[u8], check: &Check, answer: &[u8]) -> Result<(), NoMemory>
        requires wanted { self.old.wanted + 1 < 2 ^ 64 }
        requires differing { self.old.differing + 1 < 2 ^ 64 }
        ensures lines { OnOk result
            (self.new.lines.items
            ≡ self.old.lines.items
            ++ differing_text front.now (line_of_check check.now ∷ []) (answer.now ∷ [])) }
        ensures wanted { OnOk result
            (self.new.wanted
            ≡ self.old.wanted + length (wanted_in (line_of_check check.now ∷ []))) }
        ensures differing { OnOk result
            (self.new.differing
            ≡ self.old.differing
            + length (differing (line_of_check check.now ∷ []) (answer.now ∷ []))) }
    {
        let Some(wanted) = check.wanted else {
            return Ok(());
        };
        self.wanted += 1;
        if answer == wanted {
            return Ok(());
        }
        self.differing += 1;
        self.lines.extend_from_slice(front)?;
        write_difference(&mut self.lines, check.line, wanted, answer)
    }
}

/// Puts the line on an answer that differs behind the text.
fn write_difference<A: Allocator>(
    text: &mut Vec<u8, A>,
    line: usize,
    wanted: &[u8],
    answer: &[u8],
) -> Result<(), NoMemory>
    ensures { OnOk result
        (text.new.items ≡ text.old.items ++ difference_line line wanted.now answer.now) }
{
    write!(text, "line {line}: wanted ").map_err(|_| NoMemory)?;
    text.extend_from_slice(wanted)?;
    text.extend_from_slice(b", is ")?;
    text.extend_from_slice(answer)?;
    text.push(b'\n')?;
    Ok(())
}

/// Puts the last line of a report behind the text. Refused where memory runs out.
pub(crate) fn write_summary<A: Allocator>(
    text: &mut Vec<u8, A>,
    wanted: usize,
    differing: usize,
) -> Result<(), NoMemory>
    ensures { OnOk result (text.new.items ≡ text.old.items ++ check_summary wanted differing) }
{
    if differing == 0 {
        writeln!(text, "checked {wanted} answers").map_err(|_| NoMemory)
    } else {
        writeln!(text, "{differing} of {wanted} answers differ").map_err(|_| NoMemory)
    }
}
