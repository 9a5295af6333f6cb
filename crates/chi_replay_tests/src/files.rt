//! Replays of files: faulty ones, those at the limit of a file's size, and those of a file system.

use crate::jobs::{Job, done};
use chi_replay::replay;
use chi_script::{Fault, FileInput, MemoryInput, MemoryOutput, Output, StandardOutput};
use std::alloc::{AllocError, Global};
use std::io::{ErrorKind, Write};
use std::{fs, io};

/// Files, and the fault of each; nothing is written then.
const FAULTY: [(&[u8], Fault); 11] = [
    (
        b"node 1 1 1 1 1 2\nissue 0 0 Read",
        Fault::MissingNewline(2),
    ),
    (b"node 9 64 8 32 32 65536\n", Fault::BadHeader(1)),
    (b"", Fault::BadHeader(1)),
    (b"node 1 1 1 1 1 4", Fault::MissingNewline(1)),
    (b"node 1 1 1 1 1 4\r\n", Fault::BadHeader(1)),
    (b"node 1 1 1 1 1 4\nload 0 0\n", Fault::BadCommand(2)),
    (b"node 1 1 1 1 1 4\nload 00 0 0\n", Fault::BadCommand(2)),
    (b"node 1 1 1 1 1 4\nload  0 0 0\n", Fault::BadCommand(2)),
    (b"node 1 1 1 1 1 4\n\n", Fault::BadCommand(2)),
    (
        b"node 1 1 1 1 1 4\nload 18446744073709551616 0 0\n",
        Fault::BadCommand(2),
    ),
    (
        b"node 8 64 8 100 100 30 27 65536\ntotals\n",
        Fault::BadHeader(1),
    ),
];

/// Numbers above their ranges are read, and refused.
const ABOVE: &[u8] =
    b"node 1 1 1 1 1 4\nload 256 0 0\nload 0 0 8\nstore 0 0 0 18446744073709551615\n";

const ABOVE_TEXT: &[u8] = b"refused 10 OutOfRange\nrefused 10 OutOfRange\nrefused 2 WrongState\n";

/// Whether the replay of the file ends with this fault, or with none, and writes this text.
fn is_told(alloc: Global, file: &[u8], fault: Option<Fault>, text: &[u8]) -> bool {
    let (found, output) = done(alloc, alloc, Job::Replay, file, 1_000, 3_000_000);
    found == fault && output.bytes() == text
}

#[test]
fn a_faulty_file_is_told_and_nothing_written(rt: HostRuntime) {
    for (file, fault) in &FAULTY {
        assert!(rt; is_told(rt.alloc(), file, Some(*fault), b""), "{fault:?}");
    }
    assert!(rt; is_told(rt.alloc(), ABOVE, None, ABOVE_TEXT));
}

/// Adds the line so many times.
fn add_lines(file: &mut Vec<u8>, times: usize, line: &[u8]) -> Result<(), AllocError> {
    for _ in 0..times {
        file.extend_from_slice(line)?;
    }
    Ok(())
}

// The largest file has a header, and as many commands as there is room for.
#[test]
fn of_the_largest_file_each_line_is_answered(rt: HostRuntime) -> Result<(), AllocError> {
    let (mut file, mut text) = (Vec::new(rt.alloc()), Vec::new(rt.alloc()));
    add_lines(&mut file, 1, b"node 1 1 1 1 1 4\n")?;
    add_lines(&mut file, 174_754, b"see 0\n")?;
    add_lines(&mut file, 5, b"totals\n")?;
    add_lines(&mut text, 174_754, b"ok credits 0 0\n")?;
    add_lines(
        &mut text,
        5,
        b"ok free 1 1 hand 0 0 promised 0 0 owed 0 0\n",
    )?;
    assert_eq!(rt; file.len(), 1_048_576);
    assert!(rt; is_told(rt.alloc(), &file, None, &text));
    file.push(b'\n')?;
    assert!(rt; is_told(rt.alloc(), &file, Some(Fault::TooLarge), b""));
    Ok(())
}

#[test]
fn a_file_is_replayed_and_a_missing_one_is_not(rt: HostRuntime) -> io::Result<()> {
    fs::write(&rt, "two.chi", "node 1 1 1 1 1 4\nflits 0 0\n")?;
    match FileInput::open(&rt, "two.chi") {
        Ok(mut input) => {
            let mut output = MemoryOutput::new(rt.alloc(), 1_000);
            assert!(rt; replay(rt.alloc(), &mut input, &mut output).is_ok());
            assert!(rt; output.bytes() == b"ok none\n".as_slice());
        }
        Err(fault) => assert!(rt; false, "{fault}"),
    }
    fs::remove_file(&rt, "two.chi")?;
    assert!(rt; FileInput::open(&rt, "none.chi").err() == Some(Fault::Read));
    Ok(())
}

/// A stream that takes each byte, and can't hand them on.
#[derive(Drop)]
struct Unflushed;

impl Write for Unflushed {
    fn write(&mut self, bytes: &[u8]) -> io::Result<usize> {
        Ok(bytes.len())
    }

    fn flush(&mut self) -> io::Result<()> {
        Err(ErrorKind::Other.into())
    }
}

#[test]
fn a_text_that_is_not_flushed_is_not_written(rt: HostRuntime) {
    let mut input = MemoryInput::new(ABOVE, 10);
    let mut output = StandardOutput::new(Unflushed);
    let fault = replay(rt.alloc(), &mut input, &mut output).err();
    assert!(rt; fault == Some(Fault::Write) && output.failures() == 1);
}
