//! The numbers of the messages in C: `ChiMessage` of `chihome.h`.
//!
//! Source: `docs/PROTOCOL.md`, "Messages".

pub(crate) const NO_MESSAGE: u8 = 0;

pub(crate) const REQUEST: u8 = 1;

pub(crate) const SNP_SHARED: u8 = 2;

pub(crate) const SNP_NOT_SHARED_DIRTY: u8 = 3;

pub(crate) const SNP_UNIQUE: u8 = 4;

pub(crate) const SNP_CLEAN_INVALID: u8 = 5;

pub(crate) const RETRY_ACK: u8 = 6;

pub(crate) const COMP_UC: u8 = 7;

pub(crate) const COMP_I: u8 = 8;

pub(crate) const COMP_DBID_RESP: u8 = 9;

pub(crate) const COMP_DATA_SC: u8 = 10;

pub(crate) const COMP_DATA_UC: u8 = 11;

pub(crate) const SNP_RESP_I: u8 = 12;

pub(crate) const SNP_RESP_SC: u8 = 13;

pub(crate) const COMP_ACK: u8 = 14;

pub(crate) const SNP_RESP_DATA_I_PD: u8 = 15;

pub(crate) const SNP_RESP_DATA_SC_PD: u8 = 16;

pub(crate) const SNP_RESP_DATA_SD: u8 = 17;

pub(crate) const COPY_BACK_WR_DATA_I: u8 = 18;

pub(crate) const COPY_BACK_WR_DATA_SC: u8 = 19;

pub(crate) const COPY_BACK_WR_DATA_UC: u8 = 20;

pub(crate) const COPY_BACK_WR_DATA_UD_PD: u8 = 21;

pub(crate) const COPY_BACK_WR_DATA_SD_PD: u8 = 22;
