//! What bytes say as hexadecimal digits, sixteen at once.

ghost use Rattle.std.specs.Prelude.{◌≡◌, ◌+◌, ◌-◌, ◌≤◌, ◌<◌, IfSome, List, ℕ, length, map, slice_range};
ghost use Rattle.chi_lanes.specs.Masks.{Marks, bytes_at};
ghost use Rattle.chi_lanes.specs.Numbers.{IsOf, digit_of, is_small, number_of, packed_of, worth_of};

use std::simd::prelude::*;

/// Sixteen bytes, read as hexadecimal digits: byte 0 stands first.
/// Source: `docs/TRACES.md`, "Traces".
#[derive(Clone, Copy, Debug, PartialEq, Eq)]
pub struct Digits {
    /// The number whose digits the bytes are: four bits for each, those of byte 15 the lowest. A byte that is no digit
    /// has all four.
    pub packed: u64,
    /// Which of the bytes are digits: bit `k` is set exactly if byte `k` is one.
    pub marks: u64,
}

impl Digits {
    /// The 16 bytes from the place on.
    /// Source: `docs/TRACES.md`, "Traces".
    #[inline(always)]
    pub fn at(bytes: &[u8], at: usize) -> Digits
        requires { at + 16 ≤ length bytes.now }
        ensures { IsOf result (bytes_at bytes.now at 16) }
    {
        let worths = worths(u8x16::from_slice(&bytes[at..]));
        Digits {
            packed: packed(worths),
            marks: small(worths),
        }
    }

    /// The number that the bytes from one place up to another write. `None` where one of them is no digit.
    /// Source: `docs/TRACES.md`, "Traces".
    #[inline(always)]
    pub fn number(self, from: usize, to: usize) -> Option<u64>
        requires some { from < to }
        requires within { to ≤ 16 }
        ensures { (bytes : List ℕ) → IsOf self bytes → result ≡ number_of (slice_range bytes from to) }
    {
        let size = to - from;
        let run = (self.marks >> from).trailing_ones() as usize;
        if size <= run {
            Some((self.packed << (4 * from)) >> (64 - 4 * size))
        } else {
            None
        }
    }
}

/// The number that 16 bytes write. `None` where one of them is no digit.
/// Source: `docs/TRACES.md`, "Traces".
#[inline(always)]
pub fn sixteen(bytes: &[u8; 16]) -> Option<u64>
    ensures { result ≡ number_of bytes.now }
{
    Digits::at(bytes, 0).number(0, 16)
}

/// The number that the bytes from one place up to another write, one to sixteen of them. `None` where one of them is
/// no digit.
/// Source: `docs/TRACES.md`, "Traces".
#[inline(always)]
pub fn number_at(bytes: &[u8], from: usize, to: usize) -> Option<u64>
    requires some { from < to }
    requires few { to ≤ from + 16 }
    requires within { to ≤ length bytes.now }
    ensures { result ≡ number_of (slice_range bytes.now from to) }
{
    if bytes.len() - from >= 16 {
        Digits::at(bytes, from).number(0, to - from)
    } else {
        number(&bytes[from..to])
    }
}

/// The number that a text writes, byte by byte.
#[inline(never)]
fn number(text: &[u8]) -> Option<u64>
    requires some { 0 < length text.now }
    requires few { length text.now ≤ 16 }
    ensures { result ≡ number_of text.now }
{
    let mut number = 0;
    for byte in text {
        number = number * 16 + u64::from(digit(*byte)?);
    }
    Some(number)
}

/// What a digit is worth.
#[inline(always)]
fn digit(byte: u8) -> Option<u8>
    ensures value { result ≡ digit_of byte }
    ensures small { IfSome result (λ value. value < 16) }
{
    match byte {
        b'0'..=b'9' => Some(byte - b'0'),
        b'a'..=b'f' => Some(byte - b'a' + 10),
        b'A'..=b'F' => Some(byte - b'A' + 10),
        _ => None,
    }
}

/// What each of 16 bytes is worth as a digit; 255 of one that is none.
#[inline(always)]
fn worths(bytes: u8x16) -> u8x16
    ensures { result ≡ map worth_of bytes }
{
    let numeral = bytes - u8x16::splat(b'0');
    let letter = (bytes | u8x16::splat(32)) - u8x16::splat(b'a');
    let numerals = numeral
        .simd_lt(u8x16::splat(10))
        .select(numeral, u8x16::splat(255));
    letter
        .simd_lt(u8x16::splat(6))
        .select(letter + u8x16::splat(10), numerals)
}

/// Which lanes are below 16.
#[inline(always)]
fn small(worths: u8x16) -> u64
    ensures { Marks result is_small worths }
{
    worths.simd_lt(u8x16::splat(16)).to_bitmask()
}

/// The number whose 16 digits are the low halves of these bytes.
#[inline(always)]
fn packed(worths: u8x16) -> u64
    ensures { result ≡ packed_of worths }
{
    let halves = worths & u8x16::splat(15);
    let (high, low) = halves.deinterleave(halves);
    let pairs = ((high << u8x16::splat(4)) | low).to_array();
    u64::from_be_bytes([
        pairs[0], pairs[1], pairs[2], pairs[3], pairs[4], pairs[5], pairs[6], pairs[7],
    ])
}
