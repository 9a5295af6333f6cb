//! What is done of a file, from memory to memory.

use chi_chart::{ChartPart, chart};
use chi_replay::{check, replay};
use chi_script::{Fault, MemoryInput, MemoryOutput};
use std::alloc::{Allocator, Global};

#[derive(Clone, Copy, Debug)]
pub enum Job {
    Replay,
    Check,
    Chart,
}

/// All of a chart.
const ALL: ChartPart = ChartPart {
    line: None,
    first: 1,
    last: u64::MAX,
};

/// One command, whose text has 43 bytes.
const TOTALS: &[u8] = b"node 1 1 1 1 1 4\ntotals\n";

const TOTALS_TEXT: &[u8] = b"ok free 1 1 hand 0 0 promised 0 0 owed 0 0\n";

/// Reads of which the third is retried, and a copy-back that is let in.
const RETRIED: &[u8] = b"node 1 4 1 2 1 8\nissue 0 0 ReadNotSharedDirty 0\n\
    issue 0 1 ReadNotSharedDirty 1\nissue 0 2 ReadNotSharedDirty 2\narrive 0 0\narrive 0 1\n\
    arrive 0 2\nstart 0 0\ndata 0 0\nissue 0 0 WriteEvictFull 3\narrive 0 0\ntotals\ntend 0 0\n\
    flits 0 2\n";

const RETRIED_TEXT: &[u8] = b"ok\nok\nok\nok admitted 0\nok admitted 1\nok retry 0\nok\nok\nok\n\
    ok admitted 2\nok free 0 0 hand 2 1 promised 0 0 owed 1 0\nok idle\nok RetryAck/0\n";

/// A title, a heading, a request in flight, a refusal, and two answers of three that differ.
const CHECKED: &[u8] = b"# Title\nnode 1 1 1 1 1 4\nissue 0 0 ReadUnique 0 -> other\n# Heading\n\n\
    load 0 0 0 -> refused 2 WrongState\nflits 0 0 -> ok\n";

const CHECKED_TEXT: &[u8] = b"line 3: wanted other, is ok\n\
    line 7: wanted ok, is ok ReadUnique/0/allow\n2 of 3 answers differ\n";

/// Jobs with their files, and how what they write ends: all of it, but for a chart.
pub const JOBS: [(Job, &[u8], &[u8]); 4] = [
    (Job::Replay, TOTALS, TOTALS_TEXT),
    (Job::Replay, RETRIED, RETRIED_TEXT),
    (Job::Check, CHECKED, CHECKED_TEXT),
    (Job::Chart, CHECKED, b"</svg>\n"),
];

/// The fault of the job where it has this memory, so many reads succeed, and the output has so much room; and the output.
pub fn done<A: Allocator + Copy>(
    alloc: A,
    out: Global,
    job: Job,
    file: &[u8],
    good_reads: u64,
    room: usize,
) -> (Option<Fault>, MemoryOutput<Global>) {
    let mut input = MemoryInput::new(file, good_reads);
    let mut output = MemoryOutput::new(out, room);
    let fault = match job {
        Job::Replay => replay(alloc, &mut input, &mut output).err(),
        Job::Check => check(alloc, &mut input, &mut output).err(),
        Job::Chart => chart(alloc, &mut input, &mut output, &ALL).err(),
    };
    (fault, output)
}
