//! From a header and options to the file that is written.

ghost use Rattle.std.specs.Prelude.{◌≡◌, ◌≢◌, ◌+◌, ◌^◌, ◌<◌, ◌⊎◌, IfErr, IfOk, Err, None, Some};
ghost use Rattle.std.specs.Io.KnownBytes.{Keeps};
ghost use Rattle.chi_script.specs.Headers.{line_header};
ghost use Rattle.chi_replay.specs.Replays.{AtWrite};
ghost use Rattle.chi_stimulus.specs.SecondPass.{IsDrawFault, IsOutputFault, NoHeader, WritesDrawn, WritesDrawnFront};
ghost use Rattle.chi_stimulus.specs.Stimulus.{NoStimulus, WritesStimulus, WritesStimulusFront};

use crate::drawing::Drawing;
use crate::options::DrawOptions;
use crate::plan::Plan;
use crate::second_pass::is_good;
use chi_flit::NoMemory;
use chi_script::{Failed, Fault, MOST_CHECK_BYTES, Output, header_in};
use chi_slice::Config;
use std::alloc::Allocator;

/// The fewest bytes of a command with its answer and its line end, as `snp 0 0 -> ok`.
const LEAST_BYTES: u64 = 14;

/// The header, and commands that are drawn, each with its answer.
fn drawn_text<A: Allocator + Copy>(
    alloc: A,
    line: &str,
    sizes: &Config,
    options: &DrawOptions,
) -> Result<String<A>, NoMemory> {
    let plan = Plan::new(sizes, options);
    let mut drawing = Drawing::new(alloc, line, sizes, options.seed)?;
    drawing.add_all(&plan, options.commands)?;
    drawing.settle_if(&plan, options.drain)?;
    Ok(drawing.into_text())
}

/// Writes the text where the second pass finds it good, and answers whether it does.
fn hand_out<A: Allocator + Copy, O: Output>(
    alloc: A,
    line: &str,
    sizes: &Config,
    options: &DrawOptions,
    text: &[u8],
    output: &mut O,
) -> Result<bool, Fault>
    requires writes { O.failures output.old + 1 < 2 ^ 64 }
    ensures ok { IfOk result
        (WritesDrawn line.now sizes.now options.now (O.written output.old) (O.written output.new)) }
    ensures write { AtWrite result (O.failures output.new ≡ O.failures output.old + 1) }
    ensures front { AtWrite result
        (WritesDrawnFront line.now sizes.now options.now
        (O.written output.old) (O.written output.new)) }
    ensures kept { IfErr result
        (λ fault. fault ≢ Fault.Write → Keeps (O.written output.old) (O.written output.new)) }
    ensures err { IfErr result IsOutputFault }
{
    let good = is_good(alloc, sizes, options, text)?;
    if !good {
        return Ok(false);
    }
    match output.write_all(text) {
        Ok(()) => Ok(true),
        Err(Failed) => Err(Fault::Write),
    }
}

/// Draws a file for the sizes that the line says, and writes it.
fn draw_for<A: Allocator + Copy, O: Output>(
    alloc: A,
    line: &str,
    sizes: &Config,
    options: &DrawOptions,
    output: &mut O,
) -> Result<bool, Fault>
    requires writes { O.failures output.old + 1 < 2 ^ 64 }
    ensures ok { IfOk result
        (WritesDrawn line.now sizes.now options.now (O.written output.old) (O.written output.new)) }
    ensures write { AtWrite result (O.failures output.new ≡ O.failures output.old + 1) }
    ensures front { AtWrite result
        (WritesDrawnFront line.now sizes.now options.now
        (O.written output.old) (O.written output.new)) }
    ensures kept { IfErr result
        (λ fault. fault ≢ Fault.Write → Keeps (O.written output.old) (O.written output.new)) }
    ensures err { IfErr result (IsDrawFault line.now sizes.now options.now) }
{
    if options.commands > MOST_CHECK_BYTES as u64 / LEAST_BYTES {
        return Err(Fault::TooLarge);
    }
    let text = drawn_text(alloc, line, sizes, options)?;
    if text.len() > MOST_CHECK_BYTES {
        return Err(Fault::TooLarge);
    }
    hand_out(alloc, line, sizes, options, text.as_bytes(), output)
}

/// The sizes that a header says; `BadHeader` of line 1 where it says none within the limits.
#[tactic(auto, using(crate::proofs::Headlines::header_is, crate::proofs::Headlines::no_header))]
fn sizes_of<A: Allocator>(alloc: A, header: &str) -> Result<Config, Fault>
    ensures ok { IfOk result (λ sizes. line_header header.now ≡ Some sizes) }
    ensures err { IfErr result (NoHeader header.now) }
{
    header_in(alloc, header.as_bytes(), 1)
}

/// Draws a check file by the seed, and writes it: the header as it is given, and so many commands, each with its
/// answer behind the arrow. Each is enabled where it stands, but for those that may be any command: so many in a
/// hundred, with the refusals that they get. With `drain` commands follow, round after round, until one keeps none
/// but looks, or, where that isn't reached, a comment that says so.
///
/// At `Ok(true)` a good check file with that header was written, no more: it has so many commands, or at least so
/// many with `drain`; on a new node of that size each gives the answer that stands behind it, under answers that
/// the tracker may give; and where `wild` is 0 none of them is refused. No clause says which commands are drawn, nor how
/// often. At `Ok(false)` the text that was made is no such file, and
/// nothing was written: it is never seen. `BadHeader` of line 1 where the line is no header within the limits,
/// `TooLarge` where there are more commands than a check file has room for lines of 14 bytes, or where the file that is
/// drawn is larger than one may be, and `NoMemory` where memory runs out; nothing is written then. `Write` comes only
/// where the output counted a failure, and a beginning of such a file was written then.
///
/// Condition: the output's count of failures is below 2 ^ 64 - 1.
/// Source: `docs/FORMATS.md`, "Drawn files".
#[tactic(auto, using(crate::proofs::Headlines::drawn_ok, crate::proofs::Headlines::drawn_front, crate::proofs::Headlines::drawn_err, crate::proofs::Headlines::header_err))]
pub fn draw<A: Allocator + Copy, O: Output>(
    alloc: A,
    header: &str,
    options: &DrawOptions,
    output: &mut O,
) -> Result<bool, Fault>
    requires { O.failures output.old + 1 < 2 ^ 64 }
    ensures ok { IfOk result
        (WritesStimulus header.now options.now (O.written output.old) (O.written output.new)) }
    ensures write { AtWrite result (O.failures output.new ≡ O.failures output.old + 1) }
    ensures front { AtWrite result
        (WritesStimulusFront header.now options.now (O.written output.old) (O.written output.new)) }
    ensures kept { IfErr result
        (λ fault. fault ≢ Fault.Write → Keeps (O.written output.old) (O.written output.new)) }
    ensures err { IfErr result (NoStimulus header.now options.now) }
    ensures faulty { line_header header.now ≡ None
        → (result ≡ Err (Fault.BadHeader 1)) ⊎ (result ≡ Err Fault.NoMemory) }
{
    match sizes_of(alloc, header) {
        Ok(sizes) => draw_for(alloc, header, &sizes, options, output),
        Err(fault) => Err(fault),
    }
}
