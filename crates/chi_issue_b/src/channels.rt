//! The four channels of flits.

ghost use Rattle.std.specs.Prelude.{◌≡◌};
ghost use Rattle.chi_issue_b.specs.Channels.{channel_named, channel_word};

use std::fmt;

/// A channel of flits.
/// Source: `docs/TRACES.md`, "Traces".
#[derive(Clone, Copy, Debug, PartialEq, Eq)]
pub enum Channel {
    /// Requests.
    Req,
    /// Snoops.
    Snp,
    /// Responses without data.
    Rsp,
    /// Data, with what is responded by them.
    Dat,
}

impl Channel {
    /// The word that names the channel in a trace: `REQ`, `SNP`, `RSP` or `DAT`.
    /// Source: `docs/TRACES.md`, "Traces".
    pub fn word(self) -> &'static str
        ensures { result.now ≡ channel_word self }
    {
        match self {
            Channel::Req => "REQ",
            Channel::Snp => "SNP",
            Channel::Rsp => "RSP",
            Channel::Dat => "DAT",
        }
    }

    /// The channel that a word of a trace names; `None` where it names none.
    /// Source: `docs/TRACES.md`, "Traces".
    pub fn from_word(word: &[u8]) -> Option<Channel>
        ensures { result ≡ channel_named word.now }
    {
        match word {
            b"REQ" => Some(Channel::Req),
            b"SNP" => Some(Channel::Snp),
            b"RSP" => Some(Channel::Rsp),
            b"DAT" => Some(Channel::Dat),
            _ => None,
        }
    }
}

impl fmt::Display for Channel {
    ghost use Rattle.std.specs.Prelude.{Some};

    ghost output = { λ channel. Some (channel_word channel) };

    fn fmt<W: fmt::Write>(&self, f: &mut fmt::Formatter<W>) -> fmt::Result {
        f.write_str(self.word())
    }
}
