//! All cells, by the tables of `docs/PROTOCOL.md`.

/// Cells of one section: the text of each is a word of each part, in the order of the parts, and the words of the last part
/// change first. The words of a part stand between bars.
pub(crate) struct Row {
    pub(crate) section: &'static str,
    pub(crate) parts: &'static [&'static str],
}

/// Rows, section by section.
macro_rules! rows {
    ($($section:literal { $([$($part:expr),*])* })*) => {
        &[$($(Row { section: $section, parts: &[$($part),*] },)*)*]
    };
}

/// The kinds of request: those that ask others, and of those that don't Evict and the ones that write back.
const KINDS: &str =
    "ReadNotSharedDirty|ReadShared|ReadUnique|CleanUnique|Evict|WriteBackFull|WriteCleanFull|WriteEvictFull";

const ASKING: &str = "ReadNotSharedDirty|ReadShared|ReadUnique|CleanUnique";

const LEAVING: &str = "Evict|WriteBackFull|WriteCleanFull|WriteEvictFull";

const WRITING: &str = "WriteBackFull|WriteCleanFull|WriteEvictFull";

const STATES: &str = "I|SC|UC|UD|SD";

const WRITE_FORMS: &str = "I|SC|UC|UD_PD|SD_PD";

const SNOOPS: &str = "SnpNotSharedDirty|SnpShared|SnpUnique|SnpCleanInvalid";

const ANSWERS: &str = "SnpResp_I|SnpResp_SC|SnpRespData_I_PD|SnpRespData_SC_PD|SnpRespData_SD";

const LAST: &str = "the last|not the last";

const AT_START: &str = " at its start| behind answers";

/// All cells.
pub(crate) const ROWS: &[Row] = rows! {
    "The actions" {
        ["load|store|drop|issue|arrive|start|snp|snpresp|retryack|data|comp|dbid|ack|wrdata|resend|cancel|see|giveback|\
          tend|flits|show|totals|audit", ": done"]
        ["load: refused ", "10 by its agent|10 by its line|10 by its word|2 in I|1"]
        ["store: refused ", "10 by its agent|10 by its line|10 by its word|3 a request is pending|2 in I|2 in SC|2 in SD|1"]
        ["drop: refused ", "10 by its agent|10 by its line|3 a request is pending|2 in I|2 in UD|2 in SD"]
        ["issue: refused ", "10 by its agent|10 by its line|10 by its slot|3 a request is pending|3 the slot is in use"]
        ["start: refused ", "10 by its agent|10 by its line|6|5 snooping|5 compack|5 wrdata"]
        ["arrive|snp|snpresp|retryack|data|comp|dbid|ack|wrdata", ": refused ", "10 by its agent|10 by its line|7"]
        ["resend: refused ", "10 by its agent|10 by its line|4 nothing is pending|4 it wasn't retried|\
          4 it was sent again|2|12"]
        ["cancel: refused ", "10 by its agent|10 by its line|4 nothing is pending|4 it wasn't retried|\
          4 it was sent again|2 it is no copy-back|2 its copy is as it needs it"]
        ["see: refused 10 by its agent"]
        ["giveback|tend", ": refused 10 by its ", "agent|type"]
        ["flits: refused 10 by its ", "agent|line"]
        ["show: refused 10 by its line"]
        ["giveback: refused 12 ", "no slot is cancelled|a credit is seen, and no slot is cancelled|no credit is seen"]
        ["store|drop|issue", ": 3 before 2"]
        ["start: 6 before 5|resend: 2 before 12|load: 2 before 1|store: 3 before 1|store: 2 before 1"]
        ["load: done in ", "SC|UC|UD|SD"]
        ["store: done in ", "UC|UD"]
        ["drop: done in ", "SC|UC"]
        ["comp: Comp_UC finds ", "SC|SD|I"]
    }
    "Kinds of request" {
        ["issue: ", KINDS, " in ", STATES]
        ["retry: ", KINDS, " of two types| of four types"]
    }
    "Start" {
        [ASKING, ": ", "nobody is named|n alone is named|another has the flag|another is the owner|others share"]
        ["CleanUnique: n is the owner, and ", "alone|others share"]
        [LEAVING, ": n ", "isn't named|has the flag|is named without the flag|is the owner"]
    }
    "Answers of snooped agents" {
        ["SnpResp_I|SnpResp_SC|SnpRespData_SC_PD", " for ReadNotSharedDirty, ", LAST]
        ["SnpResp_I|SnpResp_SC|SnpRespData_SD", " for ReadShared, ", LAST]
        ["SnpResp_I|SnpRespData_I_PD", " for ReadUnique, ", LAST]
        ["SnpResp_I|SnpRespData_I_PD", " for CleanUnique, ", LAST]
        [ANSWERS, " of the owner| of no owner"]
    }
    "Completion" {
        ["ReadNotSharedDirty|ReadShared", ": CompData_UC|: CompData_SC", AT_START]
        ["ReadUnique: CompData_UC|CleanUnique: Comp_UC", AT_START]
        ["ReadShared: CompData_SC with ", "the data of SnpRespData_SD|memory, behind such data"]
    }
    "The filter" { ["a read behind SnpRespData_SC_PD of the owner|write data beside another owner"] }
    "Answers to snoops" {
        [STATES, " at SnpNotSharedDirty"]
        [STATES, " at SnpShared"]
        [STATES, " at SnpUnique"]
        [STATES, " at SnpCleanInvalid"]
        [SNOOPS, " crosses ", "ReadNotSharedDirty in I|ReadShared in I|ReadUnique in I|CleanUnique in SC|\
          CleanUnique in SD|CleanUnique in I|Evict in I|WriteBackFull in UD|WriteBackFull in SD|WriteBackFull in SC|\
          WriteBackFull in I|WriteCleanFull in UD|WriteCleanFull in SD|WriteCleanFull in SC|WriteCleanFull in I|\
          WriteEvictFull in UC|WriteEvictFull in SC|WriteEvictFull in I"]
        ["a snoop crosses ", KINDS, ", ", "its first attempt in flight|RetryAck in flight|Retried|\
          its second attempt in flight|waiting"]
    }
    "Write data" {
        ["dbid: ", WRITING, " in ", STATES]
        ["wrdata: ", WRITING, ", CopyBackWrData_", WRITE_FORMS]
        ["wrdata: a ", "store|drop", " came behind it"]
    }
    "Messages" {
        ["none"]
        [KINDS, "/allow|/credit"]
        [SNOOPS]
        ["RetryAck/", "0|1|2|3"]
        ["Comp_UC|Comp_I|CompDBIDResp|CompData_SC|CompData_UC|CompAck"]
        [ANSWERS]
        ["CopyBackWrData_", WRITE_FORMS]
    }
    "The journal and last values" { ["full in one slice, not in another|a load behind a store"] }
    "Limits" { ["two credit types|four credit types|lines of two slices|eight agents"] }
    "Slots and accounts" { ["a request is issued behind its ", "CompAck in flight|write data in flight"] }
    "A requester and its calls" {
        ["arrive: ", KINDS, " admitted| retried| resent"]
        ["resend: ", "ReadNotSharedDirty in I|ReadShared in I|ReadUnique in I|CleanUnique in SC|CleanUnique in SD|\
          CleanUnique in I|Evict in I|WriteBackFull in UD|WriteBackFull in SD|WriteCleanFull in UD|\
          WriteCleanFull in SD|WriteEvictFull in UC"]
        ["resend refused 2: ", WRITING, " in SC| in I"]
        ["cancel: ", WRITING, " in SC| in I"]
        ["cancel refused 2: ", KINDS]
        ["retryack: ", KINDS, ", the grant first|, RetryAck first"]
        ["see: ", "none|one|two of a type|of two types"]
    }
    "Steps of the tracker" {
        ["ack|wrdata|start|giveback|tend", ": granted|: freed"]
        ["tend: idle|granted to itself"]
    }
};

/// The rows of cells that no run is known to reach.
/// Source: `docs/DECISIONS.md`, "The suite".
pub(crate) const UNREACHABLE: &[Row] = rows! {
    "Start" { ["Evict|WriteEvictFull", ": n is the owner"] }
    "Answers of snooped agents" {
        ["SnpResp_I|SnpResp_SC|SnpRespData_SC_PD", " for ReadNotSharedDirty, not the last"]
        ["SnpResp_I|SnpResp_SC|SnpRespData_SD", " for ReadShared, not the last"]
        ["SnpResp_I|SnpResp_SC", " of the owner"]
    }
    "Answers to snoops" {
        ["SC at ", "SnpNotSharedDirty|SnpShared"]
        ["SnpNotSharedDirty|SnpShared", " crosses ", "CleanUnique|WriteBackFull|WriteCleanFull|WriteEvictFull", " in SC"]
        [SNOOPS, " crosses ", "CleanUnique|WriteBackFull|WriteCleanFull|WriteEvictFull", " in I"]
    }
    "Write data" {
        ["dbid: ", "WriteBackFull in UC|WriteCleanFull in UC|WriteEvictFull in UD|WriteEvictFull in SD"]
        ["wrdata: ", "WriteBackFull|WriteCleanFull", ", CopyBackWrData_UC"]
        ["wrdata: WriteEvictFull, CopyBackWrData_", "UD_PD|SD_PD"]
    }
    "Steps of the tracker" { ["tend: granted|tend: freed"] }
};
