//! What a device is.

ghost use Rattle.std.specs.Prelude.{◌≡◌, ℕ, ◌+◌, ◌^◌, ◌<◌, ◌≤◌, List, Option, length, IfOk, OnOk, OnErr};
ghost use Rattle.std.specs.Io.KnownBytes.{ReadConsumes, Appends};
ghost use Rattle.chi_script.specs.Devices.{AppendsFront};

/// A device failed, and counted it.
/// Source: `docs/FORMATS.md`, "The program".
#[derive(Clone, Copy, Debug, PartialEq, Eq)]
pub struct Failed;

/// What bytes are read from. It counts its failures, so that who called it can tell that it failed.
/// Source: `docs/FORMATS.md`, "The program".
pub trait Input {
    /// The bytes that are still to be read, where they are known.
    ghost left: { Self → Option (List ℕ) };

    /// How often a read failed.
    ghost failures: { Self → ℕ };

    /// How often a read failed.
    /// Source: `docs/FORMATS.md`, "The program".
    fn failures(&self) -> u64
        ensures { result ≡ failures self.now };

    /// Reads bytes into the front of the buffer, and answers how many: 0 of a buffer with room only at the
    /// end. A read that fails takes no byte, and counts; where it succeeds the count of failures stays.
    ///
    /// Condition: the count of failures is below 2 ^ 64 - 1.
    /// Source: `docs/FORMATS.md`, "The program".
    fn read(&mut self, buffer: &mut [u8]) -> Result<usize, Failed>
        requires { failures self.old + 1 < 2 ^ 64 }
        ensures bound { IfOk result (λ count. count ≤ length buffer.new) }
        ensures bytes { ReadConsumes (left self.old) (left self.new) result buffer.new }
        ensures ok { OnOk result (failures self.new ≡ failures self.old) }
        ensures err { OnErr result (failures self.new ≡ failures self.old + 1) };
}

/// What bytes are written to. It counts its failures, so that who called it can tell that it failed.
/// Source: `docs/FORMATS.md`, "The program".
pub trait Output {
    /// The bytes that were written, where they are known.
    ghost written: { Self → Option (List ℕ) };

    /// How often a write failed.
    ghost failures: { Self → ℕ };

    /// How often a write failed.
    /// Source: `docs/FORMATS.md`, "The program".
    fn failures(&self) -> u64
        ensures { result ≡ failures self.now };

    /// Writes all of the bytes, and hands them on where the device keeps some back. Where that fails it
    /// counts, and a front of them was written; where it succeeds the count of failures stays.
    ///
    /// Condition: the count of failures is below 2 ^ 64 - 1.
    /// Source: `docs/FORMATS.md`, "The program".
    fn write_all(&mut self, bytes: &[u8]) -> Result<(), Failed>
        requires { failures self.old + 1 < 2 ^ 64 }
        ensures written { OnOk result (Appends (written self.old) (written self.new) bytes.now) }
        ensures front { OnErr result
            (AppendsFront (written self.old) (written self.new) bytes.now) }
        ensures ok { OnOk result (failures self.new ≡ failures self.old) }
        ensures err { OnErr result (failures self.new ≡ failures self.old + 1) };
}
