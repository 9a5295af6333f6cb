//! Storms through the text that they write, and with devices that fail.

use chi_script::{Fault, MemoryInput, MemoryOutput};
use chi_storm::storm;
use std::process::Abort;
use std::sync::Wait;
use std::thread::Threads;
use std::time::Clock;

/// Eight agents, each of which stores to a line, writes it back, and loads and drops its neighbour's.
const EIGHT_AGENTS: &[u8] =
    b"node 8 8 8 1 1 16\nstore 0 0 0 1\nwriteback 0 0\nload 0 1 0\ndrop 0 1\nstore 1 1 0 2\nwriteback 1 1\nload 1 2 0\ndrop 1 2\nstore 2 2 0 3\nwriteback 2 2\nload 2 3 0\ndrop 2 3\nstore 3 3 0 4\nwriteback 3 3\nload 3 4 0\ndrop 3 4\nstore 4 4 0 5\nwriteback 4 4\nload 4 5 0\ndrop 4 5\nstore 5 5 0 6\nwriteback 5 5\nload 5 6 0\ndrop 5 6\nstore 6 6 0 7\nwriteback 6 6\nload 6 7 0\ndrop 6 7\nstore 7 7 0 8\nwriteback 7 7\nload 7 0 0\ndrop 7 0\n";

const EIGHT_AGENTS_TEXT: &[u8] =
    b"agents 8 finished 8\nloads 8 stores 8\nfree 1 1 hand 0 0 promised 0 0 owed 0 0\nverdict coherent\n";

/// The journal has room for one record, and the script has two.
const FULL_JOURNAL: &[u8] = b"node 1 1 1 1 1 1\nstore 0 0 0 1\nload 0 0 0\n";

const FULL_JOURNAL_TEXT: &[u8] =
    b"agents 1 finished 0\nloads 0 stores 1\nfree 1 1 hand 0 0 promised 0 0 owed 0 0\nverdict coherent\n";

/// Each operation once, of two agents and four credit types, so that each copy-back finds the state that it
/// needs or is skipped.
const EACH_OPERATION: &[u8] =
    b"node 2 2 1 1 1 1 1 16\nload 0 0 0\nshare 0 1 0\nstore 0 0 1 5\nwriteclean 0 0\nwriteevict 0 0\nstore 0 1 2 6\nwriteback 0 1\nload 0 1 2\nevict 0 1\nload 0 0 1\ndrop 0 0\nshare 1 0 1\nstore 1 1 0 7\nwriteclean 1 1\nevict 1 1\n";

const EACH_OPERATION_TEXT: &[u8] =
    b"agents 2 finished 2\nloads 5 stores 3\nfree 1 1 1 1 hand 0 0 0 0 promised 0 0 0 0 owed 0 0 0 0\nverdict coherent\n";

/// Eight agents that all want one line, with one entry of each type.
const ONE_LINE: &[u8] =
    b"node 8 1 1 1 1 32\nstore 0 0 0 1\nload 0 0 0\nstore 1 0 1 1\nload 1 0 1\nstore 2 0 2 1\nload 2 0 2\nstore 3 0 3 1\nload 3 0 3\nstore 4 0 4 1\nload 4 0 4\nstore 5 0 5 1\nload 5 0 5\nstore 6 0 6 1\nload 6 0 6\nstore 7 0 7 1\nload 7 0 7\n";

const ONE_LINE_TEXT: &[u8] =
    b"agents 8 finished 8\nloads 8 stores 8\nfree 1 1 hand 0 0 promised 0 0 owed 0 0\nverdict coherent\n";

/// One agent that loads. In its first four turns the request is issued, arrives and is started, and its data
/// comes; in the fifth it loads, and the CompAck is still in flight.
const ONE_LOAD: &[u8] = b"node 1 1 1 1 1 4\nload 0 0 0\n";

const FOUR_TURNS_TEXT: &[u8] =
    b"agents 1 finished 0\nloads 0 stores 0\nfree 0 1 hand 1 0 promised 0 0 owed 0 0\nverdict coherent\n";

const FIVE_TURNS_TEXT: &[u8] =
    b"agents 1 finished 1\nloads 1 stores 0\nfree 0 1 hand 1 0 promised 0 0 owed 0 0\nverdict coherent\n";

/// No script at all.
const NO_SCRIPT: &[u8] = b"node 2 2 1 1 1 16\n";

const NO_SCRIPT_TEXT: &[u8] =
    b"agents 2 finished 2\nloads 0 stores 0\nfree 1 1 hand 0 0 promised 0 0 owed 0 0\nverdict coherent\n";

/// A file, the most turns of an agent, the text of its storm, and whether all of its scripts finish.
type Storm = (&'static [u8], u64, &'static [u8], bool);

const STORMS: [Storm; 7] = [
    (EIGHT_AGENTS, 10_000_000, EIGHT_AGENTS_TEXT, true),
    (FULL_JOURNAL, 10_000_000, FULL_JOURNAL_TEXT, false),
    (EACH_OPERATION, 10_000_000, EACH_OPERATION_TEXT, true),
    (ONE_LINE, 10_000_000, ONE_LINE_TEXT, true),
    (ONE_LOAD, 4, FOUR_TURNS_TEXT, false),
    (ONE_LOAD, 5, FIVE_TURNS_TEXT, true),
    (NO_SCRIPT, 1, NO_SCRIPT_TEXT, true),
];

/// Files that are faulty, and the fault of each.
const FAULTY: [(&[u8], Fault); 4] = [
    (b"", Fault::BadHeader(1)),
    (b"node 9 64 8 32 32 65536\n", Fault::BadHeader(1)),
    (b"node 1 1 1 1 1 4\nload 0 0 8\n", Fault::BadCommand(2)),
    (b"node 1 1 1 1 1 4\ndrop 0 0", Fault::MissingNewline(2)),
];

/// What comes of it with this seed, where so many reads succeed and the output has so much room. What is written
/// is the beginning of the text, and all of it exactly where nothing fails.
fn outcome(
    rt: &(impl Abort + AllocGlobal + Threads + Wait + Clock + Sync),
    storm_file: &Storm,
    seed: u64,
    good_reads: u64,
    room: usize,
) -> Result<bool, Fault> {
    let (file, turns, text, _) = *storm_file;
    let mut input = MemoryInput::new(file, good_reads);
    let mut output = MemoryOutput::new(rt.alloc(), room);
    let done = storm(rt, rt.alloc(), &mut input, &mut output, seed, turns);
    let written = output.bytes();
    assert!(rt; text.starts_with(written) && done.is_ok() == (written == text));
    done
}

#[test]
fn storms_end_with_their_lines_with_any_seed(rt: HostRuntime) {
    for storm_file in &STORMS {
        for seed in 1..=20 {
            assert!(&rt; outcome(&rt, storm_file, seed, 10, 1_000) == Ok(storm_file.3));
        }
    }
}

#[test]
fn an_input_or_an_output_that_fails_is_told(rt: HostRuntime) {
    let storm_file = (ONE_LOAD, 5, FIVE_TURNS_TEXT, true);
    for good_reads in 0..2 {
        assert!(&rt; outcome(&rt, &storm_file, 1, good_reads, 1_000) == Err(Fault::Read));
    }
    for room in 0..FIVE_TURNS_TEXT.len() {
        assert!(&rt; outcome(&rt, &storm_file, 1, 10, room) == Err(Fault::Write));
    }
}

#[test]
fn a_faulty_file_is_told_and_nothing_written(rt: HostRuntime) {
    for (file, fault) in FAULTY {
        assert!(&rt; outcome(&rt, &(file, 1, FIVE_TURNS_TEXT, true), 1, 10, 0) == Err(fault));
    }
}
