//! A file, read in pieces.

use crate::judge::{Counts, Judging, Stop};
use chi_log::{Options, line_end};
use chi_watch::Settings;
use std::alloc::{AllocError, Allocator};
use std::io::{ErrorKind, Read};

/// How many bytes one read takes at most.
const PIECE: usize = 32_768;

/// What comes of a trace with no fault.
#[derive(Clone, Copy, Debug, PartialEq, Eq)]
pub(crate) struct Ending {
    pub counts: Counts,
    /// Whether bytes stand behind the last line end.
    pub is_cut: bool,
}

impl From<AllocError> for Stop {
    fn from(_lack: AllocError) -> Stop {
        Stop::NoMemory
    }
}

/// Judges the lines of these bytes that a line end closes; the bytes behind the last one.
fn take_lines<'a, A: Allocator + Copy>(
    judging: &mut Judging<A>,
    bytes: &'a [u8],
) -> Result<&'a [u8], Stop> {
    let mut rest = bytes;
    while let Some(end) = line_end(rest) {
        judging.take_line(rest, end)?;
        rest = &rest[end..][1..];
    }
    judging.take_rest(rest)?;
    Ok(rest)
}

/// Judges the lines that end in this piece, behind what is held; what is held of the next one.
fn take_piece<A: Allocator + Copy>(
    judging: &mut Judging<A>,
    held: &mut Vec<u8, A>,
    spare: &mut Vec<u8, A>,
    piece: &[u8],
) -> Result<(), Stop> {
    held.extend_from_slice(piece)?;
    let rest = take_lines(judging, held)?;
    spare.clear();
    spare.extend_from_slice(rest)?;
    held.clear();
    held.extend_from_slice(spare)?;
    Ok(())
}

/// Judges the trace that the file has.
pub(crate) fn judge_all<A: Allocator + Copy, F: Read>(
    alloc: A,
    file: &mut F,
    settings: Settings,
    reading: Options,
) -> Result<Ending, Stop> {
    let mut judging = Judging::new(alloc, settings, reading);
    let mut held = Vec::new(alloc);
    let mut spare = Vec::new(alloc);
    let mut buffer = [0; PIECE];
    for _ in 0..u64::MAX {
        match file.read(&mut buffer) {
            Ok(0) => break,
            Ok(count) => take_piece(&mut judging, &mut held, &mut spare, &buffer[..count])?,
            Err(error) if error.kind() == ErrorKind::Interrupted => {}
            Err(_) => return Err(Stop::Unread),
        }
    }
    Ok(Ending {
        counts: judging.counts,
        is_cut: !held.is_empty(),
    })
}
