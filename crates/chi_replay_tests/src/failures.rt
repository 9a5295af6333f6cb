//! Inputs and outputs that fail.

use crate::jobs::{JOBS, Job, done};
use chi_script::Fault;
use std::alloc::Global;

/// Whether the job ends with this fault, or with none, and what it wrote is a beginning of the text: all of it without a
/// fault, and nothing where the input failed.
fn ends(
    alloc: Global,
    job: Job,
    file: &[u8],
    good_reads: u64,
    room: usize,
    text: &[u8],
    wanted: Option<Fault>,
) -> bool {
    let (fault, output) = done(alloc, alloc, job, file, good_reads, room);
    let written = output.bytes();
    let is_beginning = text.starts_with(written) && written.len() <= room;
    match fault {
        None => wanted.is_none() && is_beginning && written.len() == text.len(),
        Some(Fault::Read) => wanted == fault && written.is_empty(),
        Some(_) => wanted == fault && is_beginning,
    }
}

/// Whether each read and each write that fails is told. A short file is read in two reads, the second of which finds its
/// end.
fn tells_each(alloc: Global, job: Job, file: &[u8], end: &[u8]) -> bool {
    let (fault, output) = done(alloc, alloc, job, file, 2, 100_000);
    let text = output.bytes();
    let mut told = fault.is_none() && text.ends_with(end);
    for good_reads in 0..2 {
        told &= ends(
            alloc,
            job,
            file,
            good_reads,
            100_000,
            text,
            Some(Fault::Read),
        );
    }
    for room in 0..text.len() {
        told &= ends(alloc, job, file, 2, room, text, Some(Fault::Write));
    }
    told && ends(alloc, job, file, 2, text.len(), text, None)
}

#[test]
fn each_read_and_each_write_that_fails_is_told(rt: HostRuntime) {
    for (job, file, end) in &JOBS {
        assert!(rt; tells_each(rt.alloc(), *job, file, end), "{job:?}");
    }
}
