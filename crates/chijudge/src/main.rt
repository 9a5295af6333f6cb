//! `chijudge FILE` judges a trace flit by flit, to its first fault.
//!
//! Source: `docs/OBSERVER.md`, "A trace of many lines".
#![tactic(auto)]

mod judge;
mod pieces;
mod texts;
mod words;

use judge::{Counts, Stop};
use pieces::Ending;
use std::alloc::Global;
use std::process::ExitCode;
use std::rt::{Env, Files};
use std::{env, fs, io};
use texts::{malformed_text, reason_text};
use words::{Asked, asked_in};

/// The status where a trace isn't read or is none.
const NO_TRACE: u8 = 1;

/// The status where a flit, a load or a store is a fault.
const FAULTY: u8 = 6;

/// The status where nothing was judged.
const NOTHING: u8 = 8;

/// The status where some wasn't judged.
const SOME: u8 = 9;

/// What is told where the words on the command line are none.
const USAGE: &str =
    "chijudge [--types two|four|any] [--stores hidden|listed] [--start empty|unknown] [--early-grants] \
[--data listed|none] [--opcodes issue-b|any] FILE";

/// Judges the trace of the file, prints what comes of it, and answers the exit status.
fn main(rt: HostRuntime) -> io::Result<ExitCode> {
    let status = serve(&rt)?;
    Ok(ExitCode::from(status))
}

/// Does what the words on the command line ask for.
fn serve<R: Env + Files + AllocGlobal + Print + Eprint>(rt: &R) -> io::Result<u8> {
    let texts = env::args(rt)?.collect::<Vec<String>>(rt.alloc())?;
    match asked_in(&texts) {
        Some(asked) => judge_file(rt, &asked),
        None => {
            rt.eprintln(USAGE)?;
            Ok(NO_TRACE)
        }
    }
}

/// Judges a file.
fn judge_file<R: Files + AllocGlobal + Print + Eprint>(rt: &R, asked: &Asked) -> io::Result<u8> {
    let mut file = fs::open(rt, asked.path)?;
    match pieces::judge_all(rt.alloc(), &mut file, asked.settings, asked.reading) {
        Ok(ending) => tell_ending(rt, &ending),
        Err(stop) => tell_stop(rt, &stop),
    }
}

/// Tells how many flits, loads and stores were judged; the exit status.
fn tell_ending<R: Print>(rt: &R, ending: &Ending) -> io::Result<u8> {
    let counts = &ending.counts;
    println!(rt;
        "accepted {} flits, not judged {}",
        counts.judged,
        counts.unjudged()
    )?;
    if counts.accesses > 0 {
        println!(rt;
            "accepted {} loads and stores, not judged {}",
            counts.judged_accesses,
            counts.unjudged_accesses()
        )?;
    }
    if ending.is_cut {
        println!(rt; "not judged: the last line, which has no line end")?;
    }
    Ok(status_of(counts, ending.is_cut))
}

/// The exit status of a trace with no fault.
fn status_of(counts: &Counts, is_cut: bool) -> u8 {
    if counts.judged == 0 && counts.judged_accesses == 0 {
        NOTHING
    } else if counts.unjudged() == 0 && counts.unjudged_accesses() == 0 && !is_cut {
        0
    } else {
        SOME
    }
}

/// Tells why a trace isn't judged to its end; the exit status.
fn tell_stop<R: Print + Eprint>(rt: &R, stop: &Stop) -> io::Result<u8> {
    match stop {
        Stop::Malformed { number, why } => {
            eprintln!(rt; "line {number}: {}", malformed_text(*why))?;
            Ok(NO_TRACE)
        }
        Stop::Fault { number, reason } => {
            println!(rt; "line {number}: {}", reason_text(*reason))?;
            Ok(FAULTY)
        }
        Stop::NoMemory => {
            rt.eprintln("chijudge: out of memory")?;
            Ok(NO_TRACE)
        }
        Stop::Unread => {
            rt.eprintln("chijudge: cannot read")?;
            Ok(NO_TRACE)
        }
    }
}
