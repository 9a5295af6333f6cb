//! The six cells of one agent at one line.

ghost use Rattle.std.specs.Prelude.{◌≡◌};
ghost use Rattle.chi_flit.specs.declared.message.Msg.TheVariants as messages;
ghost use Rattle.chi_wires.specs.Cell.{no_flits, cell_of, with_message, without_message};

use chi_flit::{Channel, CompData, DatUp, Msg, Request, RspDown, RspUp, Snoop};

/// What is in flight between one agent and the home for one line: at most one message on each channel.
/// Source: `docs/PROTOCOL.md`, "Messages".
#[derive(Clone, Copy, Debug, PartialEq, Eq)]
pub struct Cells {
    pub req: Option<Request>,
    pub snp: Option<Snoop>,
    pub rsp_down: Option<RspDown>,
    pub dat_down: Option<CompData>,
    pub rsp_up: Option<RspUp>,
    pub dat_up: Option<DatUp>,
}

impl Cells {
    /// Nothing in flight.
    /// Source: `docs/PROTOCOL.md`, "Messages".
    pub const fn new() -> Cells
        ensures { result ≡ no_flits }
    {
        Cells {
            req: None,
            snp: None,
            rsp_down: None,
            dat_down: None,
            rsp_up: None,
            dat_up: None,
        }
    }

    /// The message that is in flight on `channel`; `None` where there is none.
    /// Source: `docs/PROTOCOL.md`, "Messages".
    pub fn get(&self, channel: Channel) -> Option<Msg>
        ensures { result ≡ cell_of self.now channel }
    {
        match channel {
            Channel::Req => self.req.map(Msg::Req),
            Channel::Snp => self.snp.map(Msg::Snp),
            Channel::RspDown => self.rsp_down.map(Msg::RspDown),
            Channel::DatDown => self.dat_down.map(Msg::DatDown),
            Channel::RspUp => self.rsp_up.map(Msg::RspUp),
            Channel::DatUp => self.dat_up.map(Msg::DatUp),
        }
    }

    /// The message is in flight on its channel; all else stays.
    pub(crate) fn put(&mut self, message: Msg)
        ensures { self.new ≡ with_message self.old message }
    {
        match message {
            Msg::Req(request) => self.req = Some(request),
            Msg::Snp(snoop) => self.snp = Some(snoop),
            Msg::RspDown(response) => self.rsp_down = Some(response),
            Msg::DatDown(response) => self.dat_down = Some(response),
            Msg::RspUp(response) => self.rsp_up = Some(response),
            Msg::DatUp(response) => self.dat_up = Some(response),
        }
    }

    /// Nothing is in flight on `channel`; all else stays.
    pub(crate) fn clear(&mut self, channel: Channel)
        ensures { self.new ≡ without_message self.old channel }
    {
        match channel {
            Channel::Req => self.req = None,
            Channel::Snp => self.snp = None,
            Channel::RspDown => self.rsp_down = None,
            Channel::DatDown => self.dat_down = None,
            Channel::RspUp => self.rsp_up = None,
            Channel::DatUp => self.dat_up = None,
        }
    }

    /// Nothing is in flight on `taken`, and then the message is on its channel.
    pub(crate) fn exchange(&mut self, taken: Channel, message: Msg)
        ensures { self.new ≡ with_message (without_message self.old taken) message }
    {
        self.clear(taken);
        self.put(message);
    }
}
