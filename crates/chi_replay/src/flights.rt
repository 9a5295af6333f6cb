//! The answer of `flits`.

ghost use Rattle.std.specs.Prelude.{◌≡◌, Some, option_to_list};
ghost use Rattle.chi_flit.specs.Message.{message_text};
ghost use Rattle.chi_replay.specs.Replies.{flits_text, has_none, messages_in, spaced_texts};

use crate::prints::Printable;
use chi_flit::{Channel, Msg};
use chi_slice::Cells;
use std::alloc::{AllocError, Allocator};
use std::fmt;

/// The flits between an agent and the home for a line. It prints as the answer of `flits`, without the
/// line feed.
/// Source: `docs/FORMATS.md`, "Replay files", and `docs/PROTOCOL.md`, "Messages".
#[derive(Drop)]
pub struct InFlight<'a>(pub &'a Cells);

/// A message that may be in flight, with a space before it.
#[derive(Drop)]
struct FlitText(Option<Msg>);

/// The channels in the order in which an answer shows their flits.
const CHANNELS: [Channel; 6] = [
    Channel::Req,
    Channel::Snp,
    Channel::RspDown,
    Channel::DatDown,
    Channel::RspUp,
    Channel::DatUp,
];

impl<'a> InFlight<'a> {
    /// Whether nothing is in flight.
    /// Source: `docs/FORMATS.md`, "Replay files".
    pub fn is_empty(&self) -> bool
        ensures { result ≡ has_none (messages_in self.now.0.now) }
    {
        let cells = self.0;
        cells.req.is_none()
            && cells.snp.is_none()
            && cells.rsp_down.is_none()
            && cells.dat_down.is_none()
            && cells.rsp_up.is_none()
            && cells.dat_up.is_none()
    }
}

impl<'a> fmt::Display for InFlight<'a> {
    ghost output = { λ flits. Some (flits_text flits.0.now) };

    fn fmt<W: fmt::Write>(&self, f: &mut fmt::Formatter<W>) -> fmt::Result {
        write!(f, "ok")?;
        if self.is_empty() {
            return write!(f, " none");
        }
        for channel in CHANNELS {
            let flit = FlitText(self.0.get(channel));
            write!(f, "{flit}")?;
        }
        Ok(())
    }
}

impl<'a> Printable for InFlight<'a> {
    ghost text = { λ flits. flits_text flits.0.now };

    fn print<A: Allocator>(&self, printed: &mut String<A>) -> Result<(), AllocError> {
        write!(printed, "{self}")
    }
}

impl fmt::Display for FlitText {
    ghost output = { λ flit. Some (spaced_texts message_text (option_to_list flit.0)) };

    fn fmt<W: fmt::Write>(&self, f: &mut fmt::Formatter<W>) -> fmt::Result {
        match self.0 {
            Some(message) => write!(f, " {message}"),
            None => Ok(()),
        }
    }
}
