//! Nodes, ids, credit types and cache lines.

ghost use Rattle.std.specs.Prelude.{◌≡◌};
ghost use Rattle.chi_issue_b.specs.Ids.{credit_type_numbered, hexadecimal, line_at};

use std::fmt;

/// A node of the interconnect, by its NodeID. It prints as a trace writes it, in hexadecimal.
/// Source: `docs/TRACES.md`, "Traces".
#[derive(Clone, Copy, Debug, PartialEq, Eq, Hash)]
pub struct NodeId(pub u16);

/// What the TxnID field of a flit holds. It prints in hexadecimal.
/// Source: `docs/TRACES.md`, "Traces".
#[derive(Clone, Copy, Debug, PartialEq, Eq, Hash)]
pub struct TxnId(pub u16);

/// What the DBID field of a flit holds. It prints in hexadecimal.
/// Source: `docs/TRACES.md`, "Traces".
#[derive(Clone, Copy, Debug, PartialEq, Eq, Hash)]
pub struct DbId(pub u16);

/// A type of protocol credit, by the four bits that the PCrdType field of a flit holds. It prints in hexadecimal.
/// Source: `docs/TRACES.md`, "Traces".
#[derive(Clone, Copy, Debug, PartialEq, Eq, Hash)]
pub struct PcrdType(pub u8);

/// A cache line of 64 bytes, by the address of its first byte. It prints as a trace writes that address, in hexadecimal.
/// Source: `docs/TRACES.md`, "Traces".
#[derive(Clone, Copy, Debug, PartialEq, Eq, Hash)]
pub struct CacheLine {
    /// The address of its first byte: a multiple of 64.
    address: u64,
}

impl PcrdType {
    /// The credit type of a number; `None` above 15.
    /// Source: `docs/TRACES.md`, "Traces".
    #[inline(always)]
    pub fn from_number(number: u8) -> Option<PcrdType>
        ensures { result ≡ credit_type_numbered number }
    {
        if number < 16 {
            Some(PcrdType(number))
        } else {
            None
        }
    }
}

impl CacheLine {
    /// The cache line that has the byte at this address.
    /// Source: `docs/TRACES.md`, "Traces".
    #[inline(always)]
    pub fn at(address: u64) -> CacheLine
        ensures { result ≡ line_at address }
    {
        CacheLine {
            address: address / 64 * 64,
        }
    }

    /// The address of the line's first byte.
    /// Source: `docs/TRACES.md`, "Traces".
    #[inline(always)]
    pub fn address(self) -> u64
        ensures { result ≡ self.address }
    {
        self.address
    }
}

impl fmt::Display for NodeId {
    ghost use Rattle.std.specs.Prelude.{Some};

    ghost output = { λ node. Some (hexadecimal node.0) };

    fn fmt<W: fmt::Write>(&self, f: &mut fmt::Formatter<W>) -> fmt::Result {
        let number = self.0;
        write!(f, "{number:x}")
    }
}

impl fmt::Display for TxnId {
    ghost use Rattle.std.specs.Prelude.{Some};

    ghost output = { λ txn. Some (hexadecimal txn.0) };

    fn fmt<W: fmt::Write>(&self, f: &mut fmt::Formatter<W>) -> fmt::Result {
        let number = self.0;
        write!(f, "{number:x}")
    }
}

impl fmt::Display for DbId {
    ghost use Rattle.std.specs.Prelude.{Some};

    ghost output = { λ dbid. Some (hexadecimal dbid.0) };

    fn fmt<W: fmt::Write>(&self, f: &mut fmt::Formatter<W>) -> fmt::Result {
        let number = self.0;
        write!(f, "{number:x}")
    }
}

impl fmt::Display for PcrdType {
    ghost use Rattle.std.specs.Prelude.{Some};

    ghost output = { λ credit. Some (hexadecimal credit.0) };

    fn fmt<W: fmt::Write>(&self, f: &mut fmt::Formatter<W>) -> fmt::Result {
        let number = self.0;
        write!(f, "{number:x}")
    }
}

impl fmt::Display for CacheLine {
    ghost use Rattle.std.specs.Prelude.{Some};

    ghost output = { λ line. Some (hexadecimal line.address) };

    fn fmt<W: fmt::Write>(&self, f: &mut fmt::Formatter<W>) -> fmt::Result {
        let address = self.address;
        write!(f, "{address:x}")
    }
}
