//! What is open of an agent at a line.

ghost use Rattle.std.specs.Prelude.{◌≡◌};
ghost use Rattle.chi_monitor.specs.Watched.{open_behind};

use chi_flit::{DatUp, Msg, RspDown, RspUp};

/// What is open of an agent at a line, behind the flits that were taken.
/// Source: `docs/TRACES.md`, "A monitor".
#[derive(Clone, Copy, Debug, PartialEq, Eq)]
pub struct OpenFlits {
    /// A request that was neither completed nor retried.
    pub request: bool,
    /// A retried request that wasn't sent again, be it cancelled or not.
    pub retried: bool,
    /// A snoop without its answer.
    pub snoop: bool,
    /// A completion without its CompAck.
    pub completion: bool,
    /// A CompDBIDResp without its write data.
    pub write_data: bool,
}

impl OpenFlits {
    /// Nothing is left.
    pub(crate) const NONE: OpenFlits = OpenFlits {
        request: false,
        retried: false,
        snoop: false,
        completion: false,
        write_data: false,
    };

    /// What is open behind a flit of the agent.
    pub(crate) fn behind(self, message: &Msg) -> OpenFlits
        ensures { result ≡ open_behind self message.now }
    {
        let mut left = self;
        match message {
            Msg::Req(_) => {
                left.request = true;
                left.retried = false;
            }
            Msg::Snp(_) => left.snoop = true,
            Msg::RspDown(RspDown::RetryAck(_)) => {
                left.request = false;
                left.retried = true;
            }
            Msg::RspDown(RspDown::CompUC) | Msg::DatDown(_) => {
                left.request = false;
                left.completion = true;
            }
            Msg::RspDown(RspDown::CompI) => left.request = false,
            Msg::RspDown(RspDown::CompDBIDResp) => {
                left.request = false;
                left.write_data = true;
            }
            Msg::RspUp(RspUp::CompAck) => left.completion = false,
            Msg::DatUp(DatUp::CopyBackWrData(_, _)) => left.write_data = false,
            Msg::RspUp(_) | Msg::DatUp(_) => left.snoop = false,
        }
        left
    }
}
