//! Whether two messages are the same.

ghost use Rattle.std.specs.Prelude.{◌≡◌, IsTrue};

use chi_flit::{CompData, DatUp, Msg, Request, RspDown};

/// Whether two messages are the same.
pub(crate) fn is_same_message(one: &Msg, other: &Msg) -> bool
    ensures { IsTrue result → one.now ≡ other.now }
{
    match (one, other) {
        (Msg::Req(a), Msg::Req(b)) => is_same_request(a, b),
        (Msg::Snp(a), Msg::Snp(b)) => *a == *b,
        (Msg::RspDown(a), Msg::RspDown(b)) => is_same_response(a, b),
        (Msg::DatDown(a), Msg::DatDown(b)) => is_same_read(a, b),
        (Msg::RspUp(a), Msg::RspUp(b)) => *a == *b,
        (Msg::DatUp(a), Msg::DatUp(b)) => is_same_data(a, b),
        _ => false,
    }
}

/// Whether two requests are the same.
fn is_same_request(one: &Request, other: &Request) -> bool
    ensures { IsTrue result → one.now ≡ other.now }
{
    if one.slot.0 != other.slot.0 {
        return false;
    }
    if one.kind != other.kind {
        return false;
    }
    one.allow_retry == other.allow_retry
}

/// Whether two responses to a requester are the same.
fn is_same_response(one: &RspDown, other: &RspDown) -> bool
    ensures { IsTrue result → one.now ≡ other.now }
{
    match (one, other) {
        (RspDown::RetryAck(a), RspDown::RetryAck(b)) => *a == *b,
        (RspDown::CompUC, RspDown::CompUC)
        | (RspDown::CompI, RspDown::CompI)
        | (RspDown::CompDBIDResp, RspDown::CompDBIDResp) => true,
        _ => false,
    }
}

/// Whether the data of two reads is the same.
fn is_same_read(one: &CompData, other: &CompData) -> bool
    ensures { IsTrue result → one.now ≡ other.now }
{
    if one.unique != other.unique {
        return false;
    }
    one.words == other.words
}

/// Whether two responses with data to the home are the same.
fn is_same_data(one: &DatUp, other: &DatUp) -> bool
    ensures { IsTrue result → one.now ≡ other.now }
{
    match (one, other) {
        (DatUp::SnpRespDataIPD(a), DatUp::SnpRespDataIPD(b)) => *a == *b,
        (DatUp::SnpRespDataSCPD(a), DatUp::SnpRespDataSCPD(b)) => *a == *b,
        (DatUp::SnpRespDataSD(a), DatUp::SnpRespDataSD(b)) => *a == *b,
        (DatUp::CopyBackWrData(form, a), DatUp::CopyBackWrData(other_form, b)) => {
            *form == *other_form && *a == *b
        }
        _ => false,
    }
}
