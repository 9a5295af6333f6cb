//! Lines of memory, and what was seen of them.

ghost use Rattle.std.specs.Prelude.{◌≡◌, ◌/◌, ◌%◌};
ghost use Rattle.chi_resolution.specs.Lines.{line_of};

use chi_explain::Observed;
use chi_flit::WordNo;
use chi_trace::Address;

/// A line of memory: an address divided by the 64 bytes of a line. A monitor that sees the NS bit puts it
/// into a high bit of the address.
/// Source: `docs/TRACES.md`, "Traces".
#[derive(Clone, Copy, Debug, PartialEq, Eq)]
pub struct CacheLine(pub u64);

/// What was seen of which line.
/// Source: `docs/TRACES.md`, "Nodes, ids and credits".
#[derive(Clone, Copy, Debug, PartialEq, Eq)]
pub struct Resolved {
    /// Which line of those that were read it is, counted from 0: the first beat of data.
    pub at: usize,
    pub line: CacheLine,
    pub flit: Observed,
}

/// The line that a byte is in.
/// Source: `docs/TRACES.md`, "Traces".
pub fn line_of(address: Address) -> CacheLine
    ensures { result ≡ line_of address }
{
    CacheLine(address.0 / 64)
}

/// The word of its line that a byte is in.
pub(crate) fn word_of(address: Address) -> WordNo
    ensures { result.0 ≡ address.0 % 64 / 8 }
{
    WordNo((address.0 % 64 / 8) as u8)
}
