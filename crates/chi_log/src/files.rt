//! The lines of a trace that comes in pieces.

ghost use Rattle.std.specs.Prelude.{◌≡◌, ◌++◌, List, ℕ, [], OnErr, OnOk, false};
ghost use Rattle.std.specs.List.{All, position};
ghost use Rattle.chi_log.specs.Files.{cut_fault, is_line_end};

use crate::lines::{MOST_LINE_BYTES, Malformed, is_gzip};
use memchr::memchr;
use std::alloc::{AllocError, Allocator};
use std::marker::Model;

/// Where the first of the lines that these bytes are ends: the place of their first LF. `None` where they have none, and so
/// are no whole line.
/// Source: `docs/TRACES.md`, "Traces".
#[inline(always)]
pub fn line_end(bytes: &[u8]) -> Option<usize>
    ensures { result ≡ position is_line_end bytes.now }
{
    memchr(b'\n', bytes)
}

/// Why these bytes, which are the beginning of a line, begin none of a trace, whatever follows: `Gzip` where they begin with
/// 1f and 8b, and else `LongLine` where there are more than `MOST_LINE_BYTES`. `None` where a line may begin so.
/// Source: `docs/TRACES.md`, "Traces".
pub fn cut_fault(bytes: &[u8]) -> Option<Malformed>
    ensures { result ≡ cut_fault bytes.now }
{
    if is_gzip(bytes) {
        Some(Malformed::Gzip)
    } else if bytes.len() > MOST_LINE_BYTES {
        Some(Malformed::LongLine)
    } else {
        None
    }
}

/// The beginning of a line whose end hasn't come yet. It is its bytes, among which there is no LF: so none of them is looked
/// through again when more come.
/// Source: `docs/TRACES.md`, "Traces".
#[derive(Drop)]
pub struct CutLine<A: Allocator> {
    bytes: Vec<u8, A>,
}

impl<A: Allocator> Model for CutLine<A> {
    ghost Value = { List ℕ };

    ghost view = { λ cut. cut.bytes.items };

    ghost invariant = { λ cut. All (λ byte. is_line_end byte ≡ false) cut.bytes.items };
}

impl<A: Allocator> CutLine<A> {
    /// Nothing of a line.
    /// Source: `docs/TRACES.md`, "Traces".
    pub fn new(alloc: A) -> CutLine<A>
        ensures { result ≡ [] }
    {
        CutLine {
            bytes: Vec::new(alloc),
        }
    }

    /// The bytes that have come.
    /// Source: `docs/TRACES.md`, "Traces".
    #[inline(always)]
    pub fn bytes(&self) -> &[u8]
        ensures { result.now ≡ self.now }
    {
        &self.bytes
    }

    /// Puts more bytes of the line behind them, among which there is no LF. `AllocError` where memory runs out: they stay as
    /// they were then.
    /// Source: `docs/TRACES.md`, "Traces".
    pub fn put(&mut self, more: &[u8]) -> Result<(), AllocError>
        requires { All (λ byte. is_line_end byte ≡ false) more.now }
        ensures ok { OnOk result (self.new ≡ self.old ++ more.now) }
        ensures err { OnErr result (self.new ≡ self.old) }
    {
        self.bytes.extend_from_slice(more)
    }

    /// Forgets them: the line has ended.
    /// Source: `docs/TRACES.md`, "Traces".
    pub fn clear(&mut self)
        ensures { self.new ≡ [] }
    {
        self.bytes.clear();
    }
}
