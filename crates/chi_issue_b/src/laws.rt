//! Laws of the tables.

ghost use Rattle.std.specs.Prelude.{◌≡◌, Some};
ghost use Rattle.chi_issue_b.specs.Laws.{HasOwnNumbers, HasOwnRows, HasOwnWords, HasRespWords};
ghost use Rattle.chi_issue_b.specs.Opcodes.{channel_of, opcode_named, opcode_numbered, number_of, row_of, word_of};
ghost use Rattle.chi_issue_b.specs.declared.channels.Channel.{Channel as ChannelOf};
ghost use Rattle.chi_issue_b.specs.declared.opcodes.Opcode.{Opcode as OpcodeOf};

/// Each opcode has one row of its channel, which is its own; and each row is that of its opcode.
/// Source: `docs/TRACES.md`, "Other opcodes".
pub fn each_opcode_has_one_row()
    ensures own { (opcode : OpcodeOf) → (row_of opcode).opcode ≡ opcode }
    ensures each { (channel : ChannelOf) → HasOwnRows channel }
{}

/// The word of an opcode names it among all of its channel, so no two have one word.
/// Source: `docs/TRACES.md`, "Other opcodes".
pub fn words_differ()
    ensures own { (opcode : OpcodeOf) → opcode_named (channel_of opcode) (word_of opcode) ≡ Some opcode }
    ensures each { (channel : ChannelOf) → HasOwnWords channel }
{}

/// Each number of an opcode names it among all of its channel, so no two share a number.
/// Source: Arm IHI 0050 Issue B, chapter 12.
pub fn numbers_differ()
    ensures own { (opcode : OpcodeOf) → opcode_numbered (channel_of opcode) (number_of opcode) ≡ Some opcode }
    ensures each { (channel : ChannelOf) → HasOwnNumbers channel }
{}

/// The word of a Resp names it.
/// Source: `docs/TRACES.md`, "Traces".
pub fn resp_words_differ()
    ensures { HasRespWords }
{}
