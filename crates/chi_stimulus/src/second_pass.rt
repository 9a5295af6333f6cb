//! The second pass: whether a text is what is promised of a drawn file.

ghost use Rattle.std.specs.Prelude.{◌≡◌, ℕ, All, List, IfOk, IsTrue, Ok, length, map, nat_lt, true};
ghost use Rattle.chi_script.specs.Checks.{line_of_check};
ghost use Rattle.chi_script.specs.CheckFiles.{check_file_of};
ghost use Rattle.chi_replay.specs.Checks.{IsCheckReport};
ghost use Rattle.chi_stimulus.specs.Stimulus.{HasCommands};
ghost use Rattle.chi_stimulus.specs.SecondPass.{IsDrawn, is_plain, is_told};

use crate::options::DrawOptions;
use chi_flit::NoMemory;
use chi_replay::check;
use chi_script::{Check, CheckFile, Fault, MemoryInput, MemoryOutput, read_checks};
use chi_slice::Config;
use std::alloc::Allocator;

/// Whether all wanted answers of a text are those that its commands give. It was read as a check file before, so only
/// want of memory is left as a fault.
fn holds<A: Allocator + Copy>(alloc: A, text: &[u8]) -> Result<bool, NoMemory>
    ensures { IfOk result (λ hold. (report : List ℕ) × IsCheckReport text.now hold report) }
{
    let mut input = MemoryInput::new(text, u64::MAX);
    let mut output = MemoryOutput::new(alloc, usize::MAX);
    match check(alloc, &mut input, &mut output) {
        Ok(hold) => Ok(hold),
        Err(_) => Err(NoMemory),
    }
}

/// Whether an answer begins as no refusal does.
fn is_plain(answer: &[u8]) -> bool
    ensures { result ≡ is_plain answer.now }
{
    match answer {
        [] => false,
        [first, ..] => *first == b'o',
    }
}

/// Whether an answer is wanted of a command, and it is none that tells a refusal, unless it may be any command.
fn is_told(check: &Check, wild: bool) -> bool
    ensures { result ≡ is_told wild (line_of_check check.now).wanted }
{
    match check.wanted {
        None => false,
        Some(wanted) => wild || is_plain(wanted),
    }
}

/// Whether this is so of all commands.
fn are_told(checks: &[Check], wild: bool) -> bool
    ensures { IsTrue result
        → All (λ check. is_told wild (line_of_check check).wanted ≡ true) checks.now }
{
    checks.iter().all(|check| is_told(check, wild))
}

/// Whether there are as many commands as were asked for.
fn is_count(options: &DrawOptions, count: usize) -> bool
    ensures { IsTrue result → HasCommands options.now count }
{
    let count = count as u64;
    if options.drain {
        options.commands <= count
    } else {
        options.commands == count
    }
}

/// Whether two headers are the same.
#[tactic(auto, using(chi_flit::proofs::Equal::sizes))]
fn is_same(read: &Config, wanted: &Config) -> bool
    ensures { IsTrue result → read.now ≡ wanted.now }
{
    read == wanted
}

/// Whether a file that was read has this header, and commands as they were asked for.
fn fits<A: Allocator>(script: &CheckFile<'_, A>, header: &Config, options: &DrawOptions) -> bool
    ensures same { IsTrue result → script.now.header ≡ header.now }
    ensures count { IsTrue result → HasCommands options.now (length script.now.checks.items) }
    ensures told { IsTrue result
        → All (λ check. is_told (nat_lt 0 options.now.wild) (line_of_check check).wanted ≡ true)
        script.now.checks.items }
{
    if !is_same(&script.header, header) {
        return false;
    }
    if !is_count(options, script.checks.len()) {
        return false;
    }
    are_told(&script.checks, options.wild > 0)
}

/// Whether the text, whose lines are these, is what was drawn for that header, by the options.
fn is_good_script<A: Allocator + Copy>(
    alloc: A,
    header: &Config,
    options: &DrawOptions,
    text: &[u8],
    script: &CheckFile<'_, A>,
) -> Result<bool, NoMemory>
    requires { check_file_of text.now
        ≡ Ok (script.now.header, map line_of_check script.now.checks.items) }
    ensures { IfOk result (λ good. IsTrue good → IsDrawn header.now options.now text.now) }
{
    if !fits(script, header, options) {
        return Ok(false);
    }
    holds(alloc, text)
}

/// Whether the text is what was drawn for that header, by the options.
pub(crate) fn is_good<A: Allocator + Copy>(
    alloc: A,
    header: &Config,
    options: &DrawOptions,
    text: &[u8],
) -> Result<bool, NoMemory>
    ensures { IfOk result (λ good. IsTrue good → IsDrawn header.now options.now text.now) }
{
    match read_checks(alloc, text) {
        Ok(script) => is_good_script(alloc, header, options, text, &script),
        Err(Fault::NoMemory) => Err(NoMemory),
        Err(_) => Ok(false),
    }
}
