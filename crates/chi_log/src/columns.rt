//! The columns of a line, by their names.

/// A column of a line: one of its first eleven words.
/// Source: `docs/TRACES.md`, "Traces".
#[derive(Clone, Copy, Debug, PartialEq, Eq)]
pub enum LineColumn {
    Channel,
    Source,
    Target,
    Txn,
    Opcode,
    Address,
    Resp,
    Dbid,
    AllowRetry,
    Pcrd,
    Data,
}
