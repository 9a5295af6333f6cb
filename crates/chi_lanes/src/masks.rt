//! Where the bytes of one kind stand among 64.

ghost use Rattle.std.specs.Prelude.{◌≡◌, ◌+◌, ◌≤◌, ◌==◌, length, take};
ghost use Rattle.chi_lanes.specs.Columns.{MarksBlanks};
ghost use Rattle.chi_lanes.specs.Masks.{Marks, bytes_at, is_blank};

use crate::bits::from_bit;
use std::simd::prelude::*;

/// Which of the 64 bytes from the place on are this one: bit `k` of the mask is set exactly if byte `k` of them is.
/// Source: `docs/TRACES.md`, "Traces".
#[inline(always)]
pub fn equal_to(bytes: &[u8], at: usize, byte: u8) -> u64
    requires { at + 64 ≤ length bytes.now }
    ensures { Marks result (λ other. other == byte) (bytes_at bytes.now at 64) }
{
    u8x64::from_slice(&bytes[at..])
        .simd_eq(u8x64::splat(byte))
        .to_bitmask()
}

/// Which of the 64 bytes from the place on part columns: spaces, tabs and carriage returns. Bit `k` of the mask is
/// set exactly if byte `k` of them is one of the three.
/// Source: `docs/TRACES.md`, "Traces".
#[inline(always)]
pub fn blanks(bytes: &[u8], at: usize) -> u64
    requires { at + 64 ≤ length bytes.now }
    ensures { Marks result is_blank (bytes_at bytes.now at 64) }
{
    let bytes = u8x64::from_slice(&bytes[at..]);
    let spaces = bytes.simd_eq(u8x64::splat(b' '));
    let tabs = bytes.simd_eq(u8x64::splat(b'\t'));
    let returns = bytes.simd_eq(u8x64::splat(b'\r'));
    (spaces | tabs | returns).to_bitmask()
}

/// Which of the first 64 bytes of a line are blanks: bit `k` of the mask is set exactly if byte `k` is one, or stands
/// behind the line's end. The line is the first `size` of the bytes; no byte is copied where there are 64.
/// Source: `docs/TRACES.md`, "Traces".
#[inline(always)]
pub fn line_blanks(bytes: &[u8], size: usize) -> u64
    requires { size ≤ length bytes.now }
    ensures { MarksBlanks result (take size bytes.now) }
{
    if bytes.len() >= 64 {
        blanks(bytes, 0) | from_bit(size)
    } else {
        let mut front = [b' '; 64];
        front[..size].copy_from_slice(&bytes[..size]);
        blanks(&front, 0)
    }
}
