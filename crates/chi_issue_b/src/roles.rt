//! What opcodes do to the ids that are open.

/// What a flit of an opcode does to the ids that are open: which it opens, names or frees.
/// Source: `docs/OBSERVER.md`, "Ids and credits".
#[derive(Clone, Copy, Debug, PartialEq, Eq)]
pub enum Role {
    /// A request opens the TXN of its source.
    Request,
    /// PCrdReturn returns a credit, and names no id.
    CreditReturn,
    /// A snoop opens its TXN at its target.
    Snoop,
    /// RetryAck frees the TXN of its target's request, which may be sent again.
    Retry,
    /// PCrdGrant grants a credit, and names no id.
    CreditGrant,
    /// A completion frees the TXN of its target's request, and may open a DBID.
    Completion,
    /// DBIDResp names the TXN of its target's request, which stays open, and opens a DBID for write data.
    BufferGrant,
    /// ReadReceipt names the TXN of its target's request, which stays open.
    Receipt,
    /// An answer to a snoop frees the TXN of the snoop of its source.
    Answer,
    /// CompAck frees the DBID that it names.
    Acknowledgement,
    /// Write data free the DBID that they name.
    WriteData,
    /// WriteDataCancel frees the DBID that it names, in place of write data.
    WriteCancel,
    /// A returned link credit, or a hint to a memory, which nothing answers: it opens and names no id.
    NoTransaction,
}
