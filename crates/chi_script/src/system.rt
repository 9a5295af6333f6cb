//! The program's own devices: a file that is read, and standard output.

ghost use Rattle.std.specs.Prelude.{◌≡◌, ◌≤◌, length, IfOk, IfErr, OnOk, OnErr};
ghost use Rattle.std.specs.Io.KnownBytes.{Appends, ReadConsumes};
ghost use Rattle.chi_script.specs.Devices.{AppendsFront, IsUnopened, unopened_fault};

use crate::devices::{Failed, Input, Output};
use crate::faults::Fault;
use std::fs;
use std::io::{ErrorKind, Read, Write};
use std::rt::Files;

/// Reads from a file, or from another reader. Its bytes are known where the reader's are, and so a
/// file's are not.
/// Source: `docs/FORMATS.md`, "The program".
#[derive(Drop)]
pub struct FileInput<F> {
    file: F,
    failures: u64,
}

impl<F: Read> FileInput<F> {
    /// An input from this reader.
    /// Source: `docs/FORMATS.md`, "The program".
    pub fn new(file: F) -> FileInput<F>
        ensures file { result.file ≡ file }
        ensures failures { result.failures ≡ 0 }
    {
        FileInput { file, failures: 0 }
    }

    /// The file at this path, opened for reading.
    ///
    /// `NoMemory` where memory runs out, and `Read` where the file can't be opened for another cause.
    /// Source: `docs/FORMATS.md`, "The program".
    pub fn open<R: Files<File = F>>(rt: &R, path: &str) -> Result<FileInput<F>, Fault>
        ensures ok { IfOk result (λ input. input.failures ≡ 0) }
        ensures err { IfErr result IsUnopened }
    {
        match fs::open(rt, path) {
            Ok(file) => Ok(FileInput::new(file)),
            Err(error) => Err(open_fault(error.kind())),
        }
    }
}

/// The fault where a file can't be opened for this cause.
fn open_fault(kind: ErrorKind) -> Fault
    ensures fault { result ≡ unopened_fault kind }
    ensures one { IsUnopened result }
{
    match kind {
        ErrorKind::OutOfMemory => Fault::NoMemory,
        _ => Fault::Read,
    }
}

impl<F: Read> Input for FileInput<F> {
    ghost left = { λ input. F.remaining input.file };

    ghost failures = { λ input. input.failures };

    fn failures(&self) -> u64 {
        self.failures
    }

    fn read(&mut self, buffer: &mut [u8]) -> Result<usize, Failed> {
        match read_once(&mut self.file, buffer) {
            Ok(count) => Ok(count),
            Err(Failed) => {
                self.failures += 1;
                Err(Failed)
            }
        }
    }
}

/// Reads into the front of the buffer, again where a read was interrupted. Where that fails, no byte was
/// taken.
fn read_once<F: Read>(file: &mut F, buffer: &mut [u8]) -> Result<usize, Failed>
    ensures bound { IfOk result (λ count. count ≤ length buffer.new) }
    ensures bytes { ReadConsumes (F.remaining file.old) (F.remaining file.new) result buffer.new }
{
    'reads: for _ in 0..u64::MAX {
        match file.read(buffer) {
            Ok(count) => return Ok(count),
            Err(error) if error.kind() == ErrorKind::Interrupted => {}
            Err(_) => return Err(Failed),
        }
    }
    Err(Failed)
}

/// Writes to standard output, or to another writer. Its bytes are known where the writer's are, and so
/// standard output's are not.
/// Source: `docs/FORMATS.md`, "The program".
#[derive(Drop)]
pub struct StandardOutput<W> {
    stream: W,
    failures: u64,
}

impl<W: Write> StandardOutput<W> {
    /// An output to this stream.
    /// Source: `docs/FORMATS.md`, "The program".
    pub fn new(stream: W) -> StandardOutput<W>
        ensures stream { result.stream ≡ stream }
        ensures failures { result.failures ≡ 0 }
    {
        StandardOutput {
            stream,
            failures: 0,
        }
    }
}

impl<W: Write> Output for StandardOutput<W> {
    ghost written = { λ output. W.contents output.stream };

    ghost failures = { λ output. output.failures };

    fn failures(&self) -> u64 {
        self.failures
    }

    fn write_all(&mut self, bytes: &[u8]) -> Result<(), Failed> {
        let done = write_whole(&mut self.stream, bytes);
        if done.is_err() {
            self.failures += 1;
        }
        done
    }
}

/// Writes all of the bytes and flushes. Where that fails, a front of them was written.
fn write_whole<W: Write>(stream: &mut W, bytes: &[u8]) -> Result<(), Failed>
    ensures ok { OnOk result (Appends (W.contents stream.old) (W.contents stream.new) bytes.now) }
    ensures err { OnErr result
        (AppendsFront (W.contents stream.old) (W.contents stream.new) bytes.now) }
{
    let mut done = 0;
    'writes: for _ in 0..u64::MAX {
        if done >= bytes.len() {
            break;
        }
        match stream.write(&bytes[done..]) {
            Ok(0) => return Err(Failed),
            Ok(count) => done += count,
            Err(error) if error.kind() == ErrorKind::Interrupted => {}
            Err(_) => return Err(Failed),
        }
    }
    if done < bytes.len() || stream.flush().is_err() {
        return Err(Failed);
    }
    Ok(())
}
