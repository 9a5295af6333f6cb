//! Files that are drawn.

ghost use Rattle.std.specs.Prelude.{◌≡◌, Ok, Some};
ghost use Rattle.chi_program.specs.declared.faults.ArgFault.{ArgFault};
ghost use Rattle.chi_program.specs.declared.stops.Stop.TheVariants.{Arguments};
ghost use Rattle.chi_program.specs.Stops.{draw_end};

use crate::faults::ArgFault;
use crate::inputs::{tell, tell_unread};
use crate::stops::{End, Stop};
use crate::suites::read_file;
use chi_script::{Fault, MOST_BYTES, StandardOutput};
use chi_stimulus::{DrawOptions, Weights, draw, read_kinds, read_weights};
use std::io;
use std::rt::Files;

/// Draws a check file with this header, by the weights of the file at this path and of the kinds in this list where they
/// are given, and writes it to standard output. Of a faulty file of weights a line is on standard error; a list with a
/// name of no kind is bad arguments.
pub(crate) fn draw_by<R: Files + AllocGlobal + Print + Eprint>(
    rt: &R,
    header: &str,
    options: DrawOptions,
    path: Option<&str>,
    list: Option<&str>,
) -> Result<End, Stop> {
    let mut options = options;
    if let Some(path) = path {
        let Some(bytes) = read_file(rt, path, MOST_BYTES + 1)? else {
            return Ok(tell_unread(rt, path)?);
        };
        match read_weights(&bytes) {
            Ok(weights) => options.weights = Some(weights),
            Err(fault) => {
                let _ = rt.eprintln(fault);
                return Ok(End::Malformed);
            }
        }
    }
    if let Some(list) = list {
        let Some(kinds) = read_kinds(list.as_bytes()) else {
            return Err(Stop::Arguments(ArgFault::Bad));
        };
        let weights = options.weights.unwrap_or(Weights::usual());
        options.weights = Some(weights.of_kinds(&kinds));
    }
    Ok(draw_file(rt, header, &options)?)
}

/// Draws a check file with this header, and writes it to standard output.
fn draw_file<R: AllocGlobal + Print + Eprint>(
    rt: &R,
    header: &str,
    options: &DrawOptions,
) -> Result<End, Fault> {
    let mut output = StandardOutput::new(io::writer(rt));
    match draw(rt.alloc(), header, options, &mut output) {
        Ok(drawn) => Ok(draw_end(drawn)),
        Err(fault) => tell(rt, header.as_bytes(), fault),
    }
}

/// The end of a file that was drawn, or not.
fn draw_end(drawn: bool) -> End
    ensures { result ≡ draw_end drawn }
{
    if drawn { End::Done } else { End::Unfinished }
}
