//! Devices over memory, which fail where they are told to.

ghost use Rattle.std.specs.Prelude.{◌≡◌, ◌+◌, ◌^◌, ◌<◌, ◌≤◌, Some, [], length, min, IfOk, OnOk, OnErr};
ghost use Rattle.std.specs.Io.KnownBytes.{Appends, ReadConsumes};
ghost use Rattle.chi_script.specs.Devices.{AppendsFront};

use crate::devices::{Failed, Input, Output};
use std::alloc::Allocator;

/// Reads from bytes in memory.
/// Source: `docs/FORMATS.md`, "The program".
#[derive(Drop)]
pub struct MemoryInput<'a> {
    left: &'a [u8],
    good_reads: u64,
    failures: u64,
}

impl<'a> MemoryInput<'a> {
    /// An input of these bytes. So many reads succeed, and every later one fails.
    /// Source: `docs/FORMATS.md`, "The program".
    pub fn new(bytes: &'a [u8], good_reads: u64) -> MemoryInput<'a>
        ensures left { result.left.now ≡ bytes.now }
        ensures good_reads { result.good_reads ≡ good_reads }
        ensures failures { result.failures ≡ 0 }
    {
        MemoryInput {
            left: bytes,
            good_reads,
            failures: 0,
        }
    }
}

impl Input for MemoryInput<'_> {
    ghost left = { λ input. Some input.left.now };

    ghost failures = { λ input. input.failures };

    fn failures(&self) -> u64 {
        self.failures
    }

    /// Reads as much as there is room for. Each read that succeeds is one fewer of the good ones, and one
    /// fails only where none of them is left.
    fn read(&mut self, buffer: &mut [u8]) -> Result<usize, Failed>
        requires { self.old.failures + 1 < 2 ^ 64 }
        ensures bound { IfOk result (λ count. count ≤ length buffer.new) }
        ensures bytes { ReadConsumes (Some self.old.left.now)
            (Some self.new.left.now) result buffer.new }
        ensures ok { OnOk result (self.new.failures ≡ self.old.failures) }
        ensures err { OnErr result (self.new.failures ≡ self.old.failures + 1) }
        ensures most { IfOk result (λ count. count ≡ min (length self.old.left.now) (length buffer.new)) }
        ensures good { OnOk result (self.old.good_reads ≡ self.new.good_reads + 1) }
        ensures none { OnErr result (self.old.good_reads ≡ 0) }
        ensures stays { OnErr result (self.new.good_reads ≡ 0) }
    {
        if self.good_reads == 0 {
            self.failures += 1;
            return Err(Failed);
        }
        self.good_reads -= 1;
        let count = self.left.len().min(buffer.len());
        let (front, rest) = self.left.split_at(count);
        buffer[..count].copy_from_slice(front);
        self.left = rest;
        Ok(count)
    }
}

/// Keeps the bytes that are written to it in memory.
/// Source: `docs/FORMATS.md`, "The program".
#[derive(Drop)]
pub struct MemoryOutput<A: Allocator> {
    bytes: Vec<u8, A>,
    room: usize,
    failures: u64,
}

impl<A: Allocator> MemoryOutput<A> {
    /// An output without a byte, which takes `room` bytes and then fails. It fails too where memory for
    /// them runs out. After a write that failed it takes no byte more.
    /// Source: `docs/FORMATS.md`, "The program".
    pub fn new(alloc: A, room: usize) -> MemoryOutput<A>
        ensures bytes { result.bytes.items ≡ [] }
        ensures room { result.room ≡ room }
        ensures failures { result.failures ≡ 0 }
    {
        MemoryOutput {
            bytes: Vec::new(alloc),
            room,
            failures: 0,
        }
    }

    /// The bytes that were written.
    /// Source: `docs/FORMATS.md`, "The program".
    pub fn bytes(&self) -> &[u8]
        ensures { result.now ≡ self.now.bytes.items }
    {
        &self.bytes
    }
}

impl<A: Allocator> Output for MemoryOutput<A> {
    ghost written = { λ output. Some output.bytes.items };

    ghost failures = { λ output. output.failures };

    fn failures(&self) -> u64 {
        self.failures
    }

    /// Writes all of the bytes where there is room for them, and the room is less by so many then. After a
    /// write that failed there is no room, and so nothing more can be written.
    fn write_all(&mut self, bytes: &[u8]) -> Result<(), Failed>
        requires { self.old.failures + 1 < 2 ^ 64 }
        ensures written { OnOk result
            (Appends (Some self.old.bytes.items) (Some self.new.bytes.items) bytes.now) }
        ensures front { OnErr result
            (AppendsFront (Some self.old.bytes.items) (Some self.new.bytes.items) bytes.now) }
        ensures ok { OnOk result (self.new.failures ≡ self.old.failures) }
        ensures err { OnErr result (self.new.failures ≡ self.old.failures + 1) }
        ensures room { OnOk result (self.old.room ≡ self.new.room + length bytes.now) }
        ensures full { OnErr result (self.new.room ≡ 0) }
    {
        let count = bytes.len().min(self.room);
        let kept = self.bytes.extend_from_slice(&bytes[..count]).is_ok();
        if !kept || count < bytes.len() {
            self.room = 0;
            self.failures += 1;
            return Err(Failed);
        }
        self.room -= count;
        Ok(())
    }
}
