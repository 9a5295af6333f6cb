//! The program over the system: its arguments, its file, its streams and its status.

ghost use Rattle.std.specs.Prelude.{◌≡◌, Ok, IfOk, IfErr, Contains, map, string_bytes};
ghost use Rattle.std.specs.Vec.Iter.{into_iter_items};
ghost use Rattle.chi_program.specs.declared.faults.ArgFault.{ArgFault};
ghost use Rattle.chi_program.specs.declared.stops.Stop.TheVariants.{Arguments};
ghost use Rattle.chi_program.specs.Stops.{run_status, statuses, words_fault};
ghost use Rattle.chi_program.specs.Covers.{form_asked};
ghost use Rattle.chi_program.specs.Endings.{ending_asked};
ghost use Rattle.chi_program.specs.Watches.{types_watched};

use crate::covers::{cover_files, merge_files};
use crate::drawings::draw_by;
use crate::faults::ArgFault;
use crate::jobs::{Job, arguments};
use crate::options::CellForm;
use crate::progress::Ticker;
use crate::runs::{chart_file, part_of, replay_file, storm_file};
use crate::stops::{End, Stop};
use crate::suites::check_files;
use crate::traces::{explain_file, observe_file, stores_watched, types_watched};
use crate::usages::{usage, version};
use chi_coverage::{CoverForm, CoverShape, merge};
use chi_observe::WatchOptions;
use chi_resolution::Options;
use chi_script::{Fault, Output, StandardOutput};
use chi_stimulus::DrawOptions;
use chi_storm::storm;
use chi_verdict::{Asked, Ending};
use std::alloc::Global;
use std::env::Args;
use std::fmt::Write;
use std::io::ErrorKind;
use std::rt::{Clock, Env, Files};
use std::sync::Wait;
use std::thread::Threads;
use std::{env, io};

/// Does what the command line asks for, and answers the exit status. A fault is one line on standard
/// error, of which the caller says whether it is a terminal: only there it is told how far a job has come. It may
/// wait: a storm's agents run in threads.
/// Source: `docs/FORMATS.md`, "The program".
pub fn serve<R: Env + Files + AllocGlobal + Print + Eprint + Threads + Wait + Clock + Sync>(
    rt: &R,
    is_terminal: bool,
) -> u8
    ensures { Contains statuses result }
{
    report_end(rt, follow(rt, is_terminal))
}

/// The exit status of a run, which came to an end or was stopped. A stop is told on standard error.
fn report_end<R: Eprint>(rt: &R, run: Result<End, Stop>) -> u8
    ensures { result ≡ run_status run }
{
    match run {
        Ok(end) => end.status(),
        Err(stop) => {
            let _ = rt.eprintln(stop);
            stop.status()
        }
    }
}

/// Reads the command line, and does what it asks for.
fn follow<R: Env + Files + AllocGlobal + Print + Eprint + Threads + Wait + Clock + Sync>(
    rt: &R,
    is_terminal: bool,
) -> Result<End, Stop> {
    let texts = match env::args(rt) {
        Ok(given) => arguments_of(rt.alloc(), given)?,
        Err(error) => return Err(Stop::Arguments(fault_of(error.kind()))),
    };
    let words = words_of(rt.alloc(), &texts)?;
    work(rt, is_terminal, arguments(rt.alloc(), &words)?)
}

/// Does a job.
fn work<R: Files + AllocGlobal + Print + Eprint + Threads + Wait + Clock + Sync>(
    rt: &R,
    is_terminal: bool,
    job: Job<'_>,
) -> Result<End, Stop> {
    match job {
        Job::Replay(path) => Ok(replay_file(rt, path)?),
        Job::Check { paths, tap } => Ok(check_files(rt, &paths, tap)?),
        Job::Chart { path, only, rows } => Ok(chart_file(rt, path, part_of(only, rows))?),
        Job::Explain {
            path,
            types,
            stores,
            early_grants,
            complete,
            judged,
            only,
        } => {
            let options = Options {
                types,
                early_grants,
                stores,
            };
            let asked = Asked {
                ending: ending_of(complete),
                judged,
                only,
            };
            Ok(explain_file(rt, path, options, asked)?)
        }
        Job::Observe {
            path,
            types,
            stores,
            log,
            early_grants,
            demands,
            form,
            context,
            progress,
        } => {
            let options = WatchOptions {
                types: types_watched(types),
                early_grants,
                stores: stores_watched(stores),
                log,
                form,
            };
            let mut ticker = Ticker::new(rt, progress && is_terminal);
            Ok(observe_file(rt, path, options, demands, context, &mut ticker)?)
        }
        Job::Storm { path, seed, turns } => Ok(storm_file(rt, path, seed, turns)?),
        Job::Cover {
            paths,
            missing,
            form,
            merge,
            least,
        } => {
            let shape = CoverShape {
                form: form_of(form),
                only_missing: missing,
            };
            if merge {
                Ok(merge_files(rt, &paths, shape, least)?)
            } else {
                Ok(cover_files(rt, &paths, shape, least)?)
            }
        }
        Job::Draw {
            header,
            seed,
            commands,
            wild,
            weights,
            kinds,
            drain,
        } => {
            let options = DrawOptions {
                seed,
                commands,
                wild,
                weights: None,
                drain,
            };
            draw_by(rt, header, options, weights, kinds)
        }
        Job::Usage(topic) => Ok(tell_text(rt, usage(topic))?),
        Job::Version => Ok(tell_text(rt, version())?),
    }
}

/// Writes a text to standard output.
fn tell_text<R: Print>(rt: &R, text: &str) -> Result<End, Fault> {
    let mut output = StandardOutput::new(io::writer(rt));
    match output.write_all(text.as_bytes()) {
        Ok(()) => Ok(End::Done),
        Err(_) => Err(Fault::Write),
    }
}

/// What may be open at the end of a trace.
fn ending_of(complete: bool) -> Ending
    ensures { result ≡ ending_asked complete }
{
    if complete {
        Ending::Complete
    } else {
        Ending::Any
    }
}

/// The form of cells that is asked for.
fn form_of(form: CellForm) -> CoverForm
    ensures { result ≡ form_asked form }
{
    match form {
        CellForm::Lines => CoverForm::Lines,
        CellForm::Json => CoverForm::Json,
        CellForm::Tsv => CoverForm::Tsv,
    }
}

/// The words that were given, in their order; `NoMemory` where memory runs out.
fn arguments_of(alloc: Global, given: Args) -> Result<Vec<String>, ArgFault>
    ensures ok { IfOk result (λ texts. texts.items ≡ into_iter_items given) }
    ensures err { IfErr result (λ fault. fault ≡ ArgFault.NoMemory) }
{
    Ok(given.collect(alloc)?)
}

/// The same words, lent; `NoMemory` where memory runs out.
fn words_of<'a>(alloc: Global, texts: &'a [String]) -> Result<Vec<&'a str>, ArgFault>
    ensures ok { IfOk result (λ words. map (λ word. word.now) words.items
        ≡ map string_bytes texts.now) }
    ensures err { IfErr result (λ fault. fault ≡ ArgFault.NoMemory) }
{
    Ok(texts.iter().map(|text| text.as_str()).collect(alloc)?)
}

/// Want of memory while the words are read, or words that can't be read.
fn fault_of(kind: ErrorKind) -> ArgFault
    ensures { result ≡ words_fault kind }
{
    match kind {
        ErrorKind::OutOfMemory => ArgFault::NoMemory,
        _ => ArgFault::Bad,
    }
}
