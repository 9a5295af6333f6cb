//! The flit of any home or any cache that a line is.

ghost use Rattle.std.specs.Prelude.{◌≡◌};
ghost use Rattle.chi_trace.specs.AnyFlits.{any_flit_at, any_flit_of_words, any_opcode, is_gzip};
ghost use Rattle.chi_trace.specs.Words.{blank_words};

use crate::any_opcodes::{AnyOpcode, OtherKind, OtherSnoop};
use crate::columns::columns_behind;
use crate::faults::TraceFault;
use crate::fields::{Beat, DbId, NodeId, Resp};
use crate::flits::{Flit, RequestFields, SnoopFields, Transaction, is_comment};
use crate::forms::TraceForm;
use crate::opcodes::Opcode;
use crate::other_opcodes::OtherOpcode;
use crate::words::next_word;

/// A flit of any home or any cache that a monitor saw, or a load or a store of a processor: a line of a trace.
/// Source: `docs/TRACES.md`, "Other opcodes".
#[derive(Clone, Copy, Debug, PartialEq, Eq)]
pub struct AnySeen {
    /// The number of its line, counted from 1.
    pub line: usize,
    /// The node that sent it, or whose processor it was.
    pub source: NodeId,
    pub flit: AnyFlit,
}

/// A flit of any home or any cache, with the fields that its opcode has.
/// Source: `docs/TRACES.md`, "Other opcodes".
#[derive(Clone, Copy, Debug, PartialEq, Eq)]
pub enum AnyFlit {
    /// One of the profile.
    Profile(Flit),
    /// A request of a kind that the profile hasn't.
    Request {
        kind: OtherKind,
        fields: RequestFields,
    },
    /// A snoop that the profile hasn't.
    Snoop {
        snoop: OtherSnoop,
        fields: SnoopFields,
    },
    /// A Comp with RESP UC that names no DBID.
    CompUC {
        transaction: Transaction,
    },
    /// CompData that names no DBID.
    CompData {
        resp: Resp,
        transaction: Transaction,
        beat: Beat,
    },
    NonCopyBackWrData {
        resp: Resp,
        transaction: Transaction,
        beat: Beat,
    },
    /// A request that isn't judged.
    UnknownRequest(OtherOpcode, RequestFields),
    /// A snoop that isn't.
    UnknownSnoop(OtherOpcode, SnoopFields),
    /// An answer to a snoop that isn't.
    UnknownAnswer(OtherOpcode, Transaction),
    /// Another response, or other data, that aren't, and the DBID that it names, if any.
    UnknownReply(OtherOpcode, Transaction, Option<DbId>),
}

impl AnyFlit {
    /// Its opcode.
    /// Source: `docs/TRACES.md`, "Other opcodes".
    pub fn opcode(&self) -> AnyOpcode
        ensures { result ≡ any_opcode self.now }
    {
        match self {
            AnyFlit::Profile(flit) => AnyOpcode::Profile(flit.opcode()),
            AnyFlit::Request { kind, .. } => AnyOpcode::Request(*kind),
            AnyFlit::Snoop { snoop, .. } => AnyOpcode::Snoop(*snoop),
            AnyFlit::CompUC { .. } => AnyOpcode::Profile(Opcode::Comp),
            AnyFlit::CompData { .. } => AnyOpcode::Profile(Opcode::CompData),
            AnyFlit::NonCopyBackWrData { .. } => AnyOpcode::NonCopyBackWrData,
            AnyFlit::UnknownRequest(opcode, _) => AnyOpcode::UnknownRequest(*opcode),
            AnyFlit::UnknownSnoop(opcode, _) => AnyOpcode::UnknownSnoop(*opcode),
            AnyFlit::UnknownAnswer(opcode, _) => AnyOpcode::UnknownAnswer(*opcode),
            AnyFlit::UnknownReply(opcode, _, _) => AnyOpcode::UnknownReply(*opcode),
        }
    }
}

/// The most bytes that a line may have, without its line end.
/// Source: `docs/TRACES.md`, "Other opcodes".
pub const MOST_LINE_BYTES: usize = 4_096;

/// Whether a line begins as a compressed file does.
fn is_gzip(line: &[u8]) -> bool
    ensures { result ≡ is_gzip line.now }
{
    match line {
        [first, second, ..] => *first == 0x1f && *second == 0x8b,
        _ => false,
    }
}

/// The flit that the words of a line are.
fn any_flit_of(form: TraceForm, line: &[u8], number: usize) -> Result<Option<AnySeen>, TraceFault>
    ensures { result ≡ any_flit_of_words form number (blank_words line.now) }
{
    let first = next_word(line);
    if first.text.is_empty() {
        return Ok(None);
    }
    if is_comment(first.text) {
        return Ok(None);
    }
    let columns = columns_behind(first.text, first.rest);
    if !columns.are_all() {
        return Err(TraceFault::FewWords(number));
    }
    match columns.any_seen(form, number) {
        Ok(seen) => Ok(Some(seen)),
        Err(column) => Err(TraceFault::BadWord {
            line: number,
            column,
        }),
    }
}

/// The flit of any home or any cache that a line of a trace of this form is, which is given without its line end and has this
/// number; `None` where it is a comment or has no words.
///
/// `Gzip` where it begins with the bytes 1f and 8b, and `LongLine` where it has more than `MOST_LINE_BYTES` bytes, before all
/// else. `FewWords` where it has words, and fewer than eleven; `BadWord` with the first column whose word is wrong. No other
/// fault is told.
/// Source: `docs/TRACES.md`, "Other opcodes".
#[tactic(auto, unfolding(crate::specs::AnyFlits::any_flit_at))]
pub fn any_flit_in(
    form: TraceForm,
    line: &[u8],
    number: usize,
) -> Result<Option<AnySeen>, TraceFault>
    ensures { result ≡ any_flit_at form number line.now }
{
    if is_gzip(line) {
        return Err(TraceFault::Gzip);
    }
    if line.len() > MOST_LINE_BYTES {
        return Err(TraceFault::LongLine(number));
    }
    any_flit_of(form, line, number)
}
