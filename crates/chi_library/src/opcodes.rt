//! The numbers of the opcodes in C: `ChiOpcode` of `chihome.h`.
//!
//! Source: `docs/LIBRARY.md`, "An observer".

// Requests, and a returned credit.
pub(crate) const READ_NOT_SHARED_DIRTY: u8 = 1;

pub(crate) const READ_SHARED: u8 = 2;

pub(crate) const READ_CLEAN: u8 = 3;

pub(crate) const READ_ONCE: u8 = 4;

pub(crate) const READ_UNIQUE: u8 = 5;

pub(crate) const CLEAN_UNIQUE: u8 = 6;

pub(crate) const MAKE_UNIQUE: u8 = 7;

pub(crate) const CLEAN_SHARED: u8 = 8;

pub(crate) const CLEAN_INVALID: u8 = 9;

pub(crate) const MAKE_INVALID: u8 = 10;

pub(crate) const EVICT: u8 = 11;

pub(crate) const WRITE_BACK_FULL: u8 = 12;

pub(crate) const WRITE_CLEAN_FULL: u8 = 13;

pub(crate) const WRITE_EVICT_FULL: u8 = 14;

pub(crate) const WRITE_UNIQUE_FULL: u8 = 15;

pub(crate) const PCRD_RETURN: u8 = 16;

// Snoops.
pub(crate) const SNP_ONCE: u8 = 17;

pub(crate) const SNP_CLEAN: u8 = 18;

pub(crate) const SNP_SHARED: u8 = 19;

pub(crate) const SNP_NOT_SHARED_DIRTY: u8 = 20;

pub(crate) const SNP_CLEAN_SHARED: u8 = 21;

pub(crate) const SNP_UNIQUE: u8 = 22;

pub(crate) const SNP_CLEAN_INVALID: u8 = 23;

pub(crate) const SNP_MAKE_INVALID: u8 = 24;

// Responses, and a granted credit.
pub(crate) const RETRY_ACK: u8 = 25;

pub(crate) const COMP: u8 = 26;

pub(crate) const COMP_DBID_RESP: u8 = 27;

pub(crate) const PCRD_GRANT: u8 = 28;

pub(crate) const SNP_RESP: u8 = 29;

pub(crate) const COMP_ACK: u8 = 30;

// Data.
pub(crate) const COMP_DATA: u8 = 31;

pub(crate) const SNP_RESP_DATA: u8 = 32;

pub(crate) const COPY_BACK_WR_DATA: u8 = 33;

pub(crate) const NON_COPY_BACK_WR_DATA: u8 = 34;

// Loads and stores of a processor.
pub(crate) const LOAD: u8 = 35;

pub(crate) const STORE: u8 = 36;

// A request, a snoop, and a response or data of another opcode: an answer where its name begins with `Snp`, else a reply.
pub(crate) const OTHER_REQUEST: u8 = 37;

pub(crate) const OTHER_SNOOP: u8 = 38;

pub(crate) const OTHER_ANSWER: u8 = 39;

pub(crate) const OTHER_REPLY: u8 = 40;

// Those of Issue B that aren't judged have the numbers from 41 on, in the order of their table: the first and the last of each
// channel, and the answers to snoops.
pub(crate) const REQ_LCRD_RETURN: u8 = 41;

pub(crate) const PREFETCH_TGT: u8 = 59;

pub(crate) const SNP_LCRD_RETURN: u8 = 60;

pub(crate) const SNP_UNIQUE_FWD: u8 = 70;

pub(crate) const RESP_LCRD_RETURN: u8 = 71;

pub(crate) const SNP_RESP_FWDED: u8 = 74;

pub(crate) const SNP_RESP_DATA_PTL: u8 = 76;

pub(crate) const SNP_RESP_DATA_FWDED: u8 = 77;

pub(crate) const WRITE_DATA_CANCEL: u8 = 78;
