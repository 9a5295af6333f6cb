//! Flits in flight out of bytes.

use crate::read::{Read, read_list};
use chi_flit::{
    CompData, CreditType, DatUp, Data, Kind, NO_DATA, Request, RspDown, RspUp, Slot, Snoop, State,
};
use chi_wires::Cells;

impl Read for State {
    fn read(bytes: &[u8], at: usize) -> Option<(State, usize)> {
        let (number, at) = u8::read(bytes, at)?;
        Some((State::numbered(number)?, at))
    }
}

impl Read for Kind {
    fn read(bytes: &[u8], at: usize) -> Option<(Kind, usize)> {
        let (number, at) = u8::read(bytes, at)?;
        Some((Kind::numbered(number)?, at))
    }
}

impl Read for Snoop {
    fn read(bytes: &[u8], at: usize) -> Option<(Snoop, usize)> {
        let (number, at) = u8::read(bytes, at)?;
        Some((Snoop::numbered(number)?, at))
    }
}

impl Read for CreditType {
    fn read(bytes: &[u8], at: usize) -> Option<(CreditType, usize)> {
        let (number, at) = u8::read(bytes, at)?;
        Some((CreditType::numbered(number)?, at))
    }
}

impl Read for RspUp {
    fn read(bytes: &[u8], at: usize) -> Option<(RspUp, usize)> {
        let (number, at) = u8::read(bytes, at)?;
        let response = match number {
            0 => RspUp::SnpRespI,
            1 => RspUp::SnpRespSC,
            2 => RspUp::CompAck,
            _ => return None,
        };
        Some((response, at))
    }
}

/// Reads the words of a line.
pub(crate) fn read_words(bytes: &[u8], at: usize) -> Option<(Data, usize)> {
    let mut words = NO_DATA;
    let at = read_list(bytes, at, &mut words)?;
    Some((words, at))
}

impl Read for Request {
    fn read(bytes: &[u8], at: usize) -> Option<(Request, usize)> {
        let (kind, at) = Kind::read(bytes, at)?;
        let (slot, at) = Slot::read(bytes, at)?;
        let (allow_retry, at) = bool::read(bytes, at)?;
        let request = Request {
            kind,
            slot,
            allow_retry,
        };
        Some((request, at))
    }
}

impl Read for RspDown {
    fn read(bytes: &[u8], at: usize) -> Option<(RspDown, usize)> {
        let (form, at) = u8::read(bytes, at)?;
        let (credit, at) = CreditType::read(bytes, at)?;
        let response = match form {
            0 => RspDown::RetryAck(credit),
            1 => RspDown::CompUC,
            2 => RspDown::CompI,
            3 => RspDown::CompDBIDResp,
            _ => return None,
        };
        Some((response, at))
    }
}

impl Read for CompData {
    fn read(bytes: &[u8], at: usize) -> Option<(CompData, usize)> {
        let (words, at) = read_words(bytes, at)?;
        let (unique, at) = bool::read(bytes, at)?;
        Some((CompData { words, unique }, at))
    }
}

impl Read for DatUp {
    fn read(bytes: &[u8], at: usize) -> Option<(DatUp, usize)> {
        let (form, at) = u8::read(bytes, at)?;
        let (state, at) = State::read(bytes, at)?;
        let (words, at) = read_words(bytes, at)?;
        let response = match form {
            0 => DatUp::SnpRespDataIPD(words),
            1 => DatUp::SnpRespDataSCPD(words),
            2 => DatUp::SnpRespDataSD(words),
            3 => DatUp::CopyBackWrData(state, words),
            _ => return None,
        };
        Some((response, at))
    }
}

impl Read for Cells {
    fn read(bytes: &[u8], at: usize) -> Option<(Cells, usize)> {
        let (req, at) = Option::<Request>::read(bytes, at)?;
        let (snp, at) = Option::<Snoop>::read(bytes, at)?;
        let (rsp_down, at) = Option::<RspDown>::read(bytes, at)?;
        let (dat_down, at) = Option::<CompData>::read(bytes, at)?;
        let (rsp_up, at) = Option::<RspUp>::read(bytes, at)?;
        let (dat_up, at) = Option::<DatUp>::read(bytes, at)?;
        let cells = Cells {
            req,
            snp,
            rsp_down,
            dat_down,
            rsp_up,
            dat_up,
        };
        Some((cells, at))
    }
}
