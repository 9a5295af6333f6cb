//! Which flit a step takes, and whether it is in flight.

ghost use Rattle.std.specs.Prelude.{◌≡◌, IfNone, IfSome, None, Some, is_some};
ghost use Rattle.chi_flit.specs.declared.message.Channel.TheVariants as channels;
ghost use Rattle.chi_line.specs.Refused.{has_flit};
ghost use Rattle.chi_line.specs.Snooped.{answer_channel};
ghost use Rattle.chi_line.specs.Step.{answer_in, data_answer};

use chi_flit::{Channel, DatUp, RspDown, RspUp, Step};
use chi_homeline::SnoopAnswer;
use chi_wires::Cells;

/// Whether the flit that the step takes is among those of its agent; false of a step that takes none. Where it
/// isn't there, the step is refused 7 (NoFlit).
/// Source: `docs/PROTOCOL.md`, "The actions".
#[inline(always)]
pub fn has_flit(cells: &Cells, step: Step) -> bool
    ensures { result ≡ has_flit cells.now step }
{
    match step {
        Step::Admit | Step::Retry => cells.req.is_some(),
        Step::RecvRetry => matches!(cells.rsp_down, Some(RspDown::RetryAck(_))),
        Step::RecvSnp => cells.snp.is_some(),
        Step::RecvSnpResp => has_answer(cells),
        Step::RecvData => cells.dat_down.is_some(),
        Step::RecvComp => matches!(cells.rsp_down, Some(RspDown::CompUC | RspDown::CompI)),
        Step::RecvAck => matches!(cells.rsp_up, Some(RspUp::CompAck)),
        Step::RecvDbid => matches!(cells.rsp_down, Some(RspDown::CompDBIDResp)),
        Step::RecvWrData => matches!(cells.dat_up, Some(DatUp::CopyBackWrData(..))),
        _ => false,
    }
}

/// Whether an answer to a snoop is among these cells.
#[inline(always)]
fn has_answer(cells: &Cells) -> bool
    ensures { result ≡ is_some (answer_in cells.now) }
{
    match cells.rsp_up {
        Some(RspUp::SnpRespI | RspUp::SnpRespSC) => true,
        _ => is_answer(cells.dat_up),
    }
}

/// Whether data is an answer to a snoop.
fn is_answer(response: Option<DatUp>) -> bool
    ensures { result ≡ is_some (data_answer response) }
{
    match response {
        Some(DatUp::CopyBackWrData(..)) | None => false,
        Some(_) => true,
    }
}

/// An answer to a snoop that is in flight, and the channel that it is on.
#[derive(Clone, Copy)]
pub(crate) struct AnswerFlit {
    pub(crate) channel: Channel,
    pub(crate) answer: SnoopAnswer,
}

/// The answer to a snoop among these cells.
pub(crate) fn answer_in(cells: &Cells) -> Option<AnswerFlit>
    ensures some { IfSome result (λ found. answer_in cells.now ≡ Some found.answer) }
    ensures channel { IfSome result (λ found. found.channel ≡ answer_channel found.answer) }
    ensures none { IfNone result (answer_in cells.now ≡ None) }
{
    match cells.rsp_up {
        Some(RspUp::SnpRespI) => Some(AnswerFlit {
            channel: Channel::RspUp,
            answer: SnoopAnswer::I,
        }),
        Some(RspUp::SnpRespSC) => Some(AnswerFlit {
            channel: Channel::RspUp,
            answer: SnoopAnswer::SC,
        }),
        _ => Some(AnswerFlit {
            channel: Channel::DatUp,
            answer: data_answer(cells.dat_up)?,
        }),
    }
}

/// The answer to a snoop that data is.
fn data_answer(response: Option<DatUp>) -> Option<SnoopAnswer>
    ensures answer { result ≡ data_answer response }
    ensures channel { IfSome result (λ answer. answer_channel answer ≡ channels.DatUp) }
{
    match response {
        Some(DatUp::SnpRespDataIPD(words)) => Some(SnoopAnswer::IPD(words)),
        Some(DatUp::SnpRespDataSCPD(words)) => Some(SnoopAnswer::SCPD(words)),
        Some(DatUp::SnpRespDataSD(words)) => Some(SnoopAnswer::SD(words)),
        Some(DatUp::CopyBackWrData(..)) | None => None,
    }
}
