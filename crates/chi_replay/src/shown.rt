//! The answer of `show`.

ghost use Rattle.std.specs.Prelude.{◌≡◌, Some, is_some, map};
ghost use Rattle.chi_replay.specs.Replies.{serving_text, shown_text, yes_no};

use crate::agents::{Agents, members};
use crate::copies::{States, first_copies};
use crate::numbers::Words;
use crate::prints::Printable;
use chi_slice::{LineView, Serving, Waiting};
use std::alloc::{AllocError, Allocator};
use std::fmt;

/// A line, with the copies of so many agents, at most all eight. It prints as the answer of `show`,
/// without the line feed.
/// Source: `docs/FORMATS.md`, "Replay files".
#[derive(Drop)]
pub struct Shown<'a> {
    pub agents: u8,
    pub view: &'a LineView,
}

/// Which request is served, in the words of an answer.
#[derive(Drop)]
struct Served(Serving);

impl<'a> Printable for Shown<'a> {
    ghost text = { λ shown. shown_text shown.agents shown.view.now };

    fn print<A: Allocator>(&self, printed: &mut String<A>) -> Result<(), AllocError> {
        let view = self.view;
        let named = members(&view.named);
        let waiting = members(&has_waiting(&view.waiting));
        let copies = States(first_copies(&view.copies, self.agents));
        let named = Agents(named.as_slice());
        let unique = yes_or_no(view.unique);
        let serving = Served(view.serving);
        let waiting = Agents(waiting.as_slice());
        let memory = Words(&view.memory);
        write!(
            printed,
            "ok copies {copies} named {named} unique {unique} serving {serving} waiting {waiting} memory{memory}"
        )
    }
}

impl fmt::Display for Served {
    ghost output = { λ served. Some (serving_text served.0) };

    fn fmt<W: fmt::Write>(&self, f: &mut fmt::Formatter<W>) -> fmt::Result {
        match self.0 {
            Serving::Idle => write!(f, "none"),
            Serving::Snooping { agent, .. } => write!(f, "snooping {agent}"),
            Serving::AwaitingCompAck { agent, .. } => write!(f, "compack {agent}"),
            Serving::AwaitingWriteData { agent, .. } => write!(f, "wrdata {agent}"),
        }
    }
}

/// The word for a flag.
fn yes_or_no(flag: bool) -> &'static str
    ensures { result.now ≡ yes_no flag }
{
    if flag { "yes" } else { "no" }
}

/// Whose request waits.
fn has_waiting(requests: &[Option<Waiting>; 8]) -> [bool; 8]
    ensures { result ≡ map is_some requests.now }
{
    requests.map(|request| request.is_some())
}
