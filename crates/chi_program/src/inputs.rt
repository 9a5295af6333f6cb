//! The files that the command line names.

ghost use Rattle.std.specs.Prelude.{Ok};

use crate::stops::End;
use chi_script::{Fault, FileInput, hint_at, read_most};
use std::fs;
use std::io::ErrorKind;
use std::rt::Files;

/// The path that stands for standard input.
const DASH: &str = "-";

/// Standard input, as a file.
const STANDARD_INPUT: &str = "/dev/stdin";

/// The file that a path stands for.
pub(crate) fn file_of(path: &str) -> &str {
    if path == DASH { STANDARD_INPUT } else { path }
}

/// The bytes of the file at the path, or of standard input, so many at most; `Read` where it can't be read, `NoMemory`
/// where memory runs out.
pub(crate) fn bytes_of<R: Files + AllocGlobal>(
    rt: &R,
    path: &str,
    most: usize,
) -> Result<Vec<u8>, Fault> {
    let mut input = FileInput::open(rt, file_of(path))?;
    read_most(rt.alloc(), &mut input, most)
}

/// Tells a fault on standard error, of a file whose bytes these are, and what is wrong with its line.
pub(crate) fn tell<R: AllocGlobal + Eprint>(
    rt: &R,
    bytes: &[u8],
    fault: Fault,
) -> Result<End, Fault> {
    let hint = hint_at(rt.alloc(), bytes, fault)?;
    let mut text = String::new(rt.alloc());
    write!(text, "{fault}{hint}").map_err(|_| Fault::NoMemory)?;
    let _ = rt.eprintln(text.as_str());
    Ok(End::Faulty(fault))
}

/// What a file that can't be opened lacks, by the kind of the error; `None` where it isn't known.
fn named_cause(kind: ErrorKind) -> Option<&'static str> {
    match kind {
        ErrorKind::NotFound | ErrorKind::NotADirectory => Some("no such file"),
        ErrorKind::PermissionDenied => Some("no permission"),
        ErrorKind::IsADirectory => Some("is a directory"),
        _ => None,
    }
}

/// Why the file at the path can't be opened; `None` where it isn't known, or where it can.
fn unopened_cause<R: Files>(rt: &R, path: &str) -> Option<&'static str> {
    match fs::open(rt, path) {
        Ok(_) => None,
        Err(error) => named_cause(error.kind()),
    }
}

/// Why the file at the path can't be read; `None` where it isn't known. A directory can be opened, and isn't read.
fn unread_cause<R: Files>(rt: &R, path: &str) -> Option<&'static str> {
    match fs::metadata(rt, path) {
        Ok(metadata) if metadata.is_dir() => Some("is a directory"),
        _ => unopened_cause(rt, path),
    }
}

/// Tells on standard error that the file at the path can't be read, and why, where that is known.
pub(crate) fn tell_unread<R: Files + AllocGlobal + Eprint>(
    rt: &R,
    path: &str,
) -> Result<End, Fault> {
    let Some(cause) = unread_cause(rt, file_of(path)) else {
        return tell_unread_file(rt, path);
    };
    let mut text = String::new(rt.alloc());
    write!(text, "chihome: cannot read {path}: {cause}").map_err(|_| Fault::NoMemory)?;
    let _ = rt.eprintln(text.as_str());
    Ok(End::Faulty(Fault::Read))
}

/// Tells on standard error that the file at the path can't be read.
pub(crate) fn tell_unread_file<R: AllocGlobal + Eprint>(rt: &R, path: &str) -> Result<End, Fault> {
    let mut text = String::new(rt.alloc());
    write!(text, "chihome: {path}: cannot read").map_err(|_| Fault::NoMemory)?;
    let _ = rt.eprintln(text.as_str());
    Ok(End::Faulty(Fault::Read))
}
