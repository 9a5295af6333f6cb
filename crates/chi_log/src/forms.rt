//! THE TABLE: which columns flits have, by their opcodes.

ghost use Rattle.std.specs.Prelude.{◌≡◌};
ghost use Rattle.chi_log.specs.Forms.{flit_form, form_of, own_form, reply_form};

use crate::kinds::{Kind, OwnOpcode};
use chi_issue_b::{Channel, DataOpcode, Opcode, RequestOpcode, ResponseOpcode};

/// Whether a line has a column.
#[derive(Clone, Copy, Debug, PartialEq, Eq)]
pub(crate) enum Need {
    /// The column isn't read.
    Unread,
    /// The column has a word of its own sort.
    Value,
    /// The column has a word of its own sort, or `-`.
    OrDash,
    /// Of DBID: as `OrDash` where RESP is UC, and else as `Unread`.
    OfUnique,
    /// Of PCRD: as `Value` where AR is 0, and else as `Unread`.
    OfResent,
    /// Of DATA: as `OrDash` where RESP is I, and else as `Value`.
    OfWritten,
}

/// Which of its columns a line has. Each has CH, SRC and OPCODE.
#[derive(Clone, Copy, Debug, PartialEq, Eq)]
pub(crate) struct Form {
    pub target: Need,
    pub txn: Need,
    pub address: Need,
    pub resp: Need,
    pub dbid: Need,
    pub allow_retry: Need,
    pub pcrd: Need,
    pub payload: Need,
}

/// A row: TGT, TXN, ADDR, RESP, DBID, AR, PCRD and DATA.
macro_rules! form {
    ($target:ident $txn:ident $address:ident $resp:ident $dbid:ident $allow_retry:ident $pcrd:ident $payload:ident) => {
        Form {
            target: Need::$target,
            txn: Need::$txn,
            address: Need::$address,
            resp: Need::$resp,
            dbid: Need::$dbid,
            allow_retry: Need::$allow_retry,
            pcrd: Need::$pcrd,
            payload: Need::$payload,
        }
    };
}

// TGT, TXN, ADDR, RESP, DBID, AR, PCRD, DATA
/// Requests.
static REQUEST: Form = form!(Value Value Value Unread Unread Value OfResent Unread);
/// PCrdReturn.
static CREDIT_RETURN: Form = form!(Value Unread Unread Unread Unread Unread Value Unread);
/// Snoops.
static SNOOP: Form = form!(Value Value Value Unread Unread Unread Unread Unread);
/// Loads and stores.
static ACCESS: Form = form!(Unread Unread Value Unread Unread Unread Unread Value);
/// Answers to snoops by an opcode of a design's own.
static OWN_ANSWER: Form = form!(Value Value OrDash Unread Unread Unread Unread Unread);
/// Other responses and data of a design's own.
static OWN_REPLY: Form = form!(Value Value OrDash Unread OrDash Unread Unread Unread);

/// Responses without data. In the order of [`ResponseOpcode`].
#[rattlefmt::skip]
static RESPONSES: [(ResponseOpcode, Form); 10] = [
    //                                      TGT    TXN    ADDR   RESP   DBID     AR     PCRD   DATA
    (ResponseOpcode::RespLCrdReturn, form!(Value  Value  OrDash Unread OrDash   Unread Unread Unread)),
    (ResponseOpcode::SnpResp,        form!(Value  Value  OrDash Value  Unread   Unread Unread Unread)),
    (ResponseOpcode::CompAck,        form!(Value  Value  OrDash Unread Unread   Unread Unread Unread)),
    (ResponseOpcode::RetryAck,       form!(Value  Value  OrDash Unread Unread   Unread Value  Unread)),
    (ResponseOpcode::Comp,           form!(Value  Value  OrDash Value  OfUnique Unread Unread Unread)),
    (ResponseOpcode::CompDBIDResp,   form!(Value  Value  OrDash Unread Value    Unread Unread Unread)),
    (ResponseOpcode::DBIDResp,       form!(Value  Value  OrDash Unread OrDash   Unread Unread Unread)),
    (ResponseOpcode::PCrdGrant,      form!(Value  Unread Unread Unread Unread   Unread Value  Unread)),
    (ResponseOpcode::ReadReceipt,    form!(Value  Value  OrDash Unread OrDash   Unread Unread Unread)),
    (ResponseOpcode::SnpRespFwded,   form!(Value  Value  OrDash Unread Unread   Unread Unread Unread)),
];

/// Data. In the order of [`DataOpcode`].
#[rattlefmt::skip]
static DATA_FLITS: [(DataOpcode, Form); 8] = [
    //                                      TGT    TXN    ADDR   RESP   DBID     AR     PCRD   DATA
    (DataOpcode::DataLCrdReturn,     form!(Value  Value  OrDash Unread OrDash   Unread Unread Unread)),
    (DataOpcode::SnpRespData,        form!(Value  Value  OrDash Value  Unread   Unread Unread Value)),
    (DataOpcode::CopyBackWrData,     form!(Value  Value  OrDash Value  Unread   Unread Unread OfWritten)),
    (DataOpcode::NonCopyBackWrData,  form!(Value  Value  OrDash Value  Unread   Unread Unread Value)),
    (DataOpcode::CompData,           form!(Value  Value  OrDash Value  OrDash   Unread Unread Value)),
    (DataOpcode::SnpRespDataPtl,     form!(Value  Value  OrDash Unread Unread   Unread Unread Unread)),
    (DataOpcode::SnpRespDataFwded,   form!(Value  Value  OrDash Unread Unread   Unread Unread Unread)),
    (DataOpcode::WriteDataCancel,    form!(Value  Value  OrDash Unread OrDash   Unread Unread Unread)),
];

impl Kind {
    /// Which columns a line has that is so.
    #[inline(always)]
    pub(crate) fn form(self) -> &'static Form
        ensures { result.now ≡ form_of self }
    {
        match self {
            Kind::Flit(opcode) => flit_form(opcode),
            Kind::Own(own) => own_form(own),
            Kind::Load => &ACCESS,
            Kind::Store => &ACCESS,
        }
    }
}

/// Which columns a flit of the opcode has.
#[inline(always)]
#[tactic(auto, unfolding(crate::specs::Forms::flit_form))]
fn flit_form(opcode: Opcode) -> &'static Form
    ensures { result.now ≡ flit_form opcode }
{
    match opcode {
        Opcode::Req(RequestOpcode::PCrdReturn) => &CREDIT_RETURN,
        Opcode::Req(_) => &REQUEST,
        Opcode::Snp(_) => &SNOOP,
        Opcode::Rsp(kind) => &RESPONSES[kind as usize].1,
        Opcode::Dat(kind) => &DATA_FLITS[kind as usize].1,
    }
}

/// Which columns a flit of an opcode of a design's own has.
#[inline(never)]
fn own_form(own: OwnOpcode) -> &'static Form
    ensures { result.now ≡ own_form own }
{
    match own.channel {
        Channel::Req => &REQUEST,
        Channel::Snp => &SNOOP,
        Channel::Rsp => reply_form(own.is_answer),
        Channel::Dat => reply_form(own.is_answer),
    }
}

/// Which columns a response, or data, of an opcode of a design's own has.
fn reply_form(is_answer: bool) -> &'static Form
    ensures { result.now ≡ reply_form is_answer }
{
    if is_answer { &OWN_ANSWER } else { &OWN_REPLY }
}
