//! The answers of the commands, and their text.

ghost use Rattle.std.specs.Prelude.{◌≡◌, [], ◌∷◌, ◌++◌, OnOk, codes, string_bytes};
ghost use Rattle.std.specs.Fmt.{decimal};
ghost use Rattle.chi_replay.specs.declared.replies.Reply.TheVariants as replies;
ghost use Rattle.chi_replay.specs.Replies.{audit_text, refusal_in, refused_text, released_text, reply_text, totals_text};

use crate::credits::SeenCredits;
use crate::flights::InFlight;
use crate::listener::Listener;
use crate::prints::{Printable, print_number};
use crate::shown::Shown;
use crate::totals::NodeTotals;
use chi_flit::{Agent, CreditType, Entry, Line, NoMemory, Refusal, Slot};
use chi_node::System;
use chi_slice::Audit;
use chi_tracker::Released;
use std::alloc::{AllocError, Allocator};

/// What a command answers. A line and its flits aren't in it: it says that they are there, and its text
/// shows them.
/// Source: `docs/FORMATS.md`, "Replay files".
#[derive(Clone, Copy, Debug, PartialEq, Eq)]
pub enum Reply {
    /// `ok`: it was done, and there is no more to say.
    Done,
    /// `ok value V`: the word that a load read.
    Value(u64),
    /// `ok admitted ENTRY`: the request was let in, and holds this entry.
    Admitted(Entry),
    /// `ok retry TYPE`: no entry was left for the request, and it waits for a credit of this type.
    Retry(CreditType),
    /// `ok completed SLOT freed` or `ok completed SLOT granted M`: the request of this slot is complete,
    /// and its entry is free, or promised to agent M.
    Completed(Slot, Released),
    /// `ok freed` or `ok granted M`: an entry was released, and is free, or promised to agent M.
    Paid(Released),
    /// `ok idle`: no entry was released, since nobody was owed one or none was free.
    Idle,
    /// `ok credits C0 C1 ..`: the seen credits by type.
    Credits(SeenCredits),
    /// `ok free .. hand .. promised .. owed ..`: the entries and the owed credits by type.
    Totals(NodeTotals),
    /// `ok loads N stores N VERDICT`: what an audit found.
    Audit(Audit),
    /// `ok copies ..`: this line is there.
    Line(Line),
    /// `ok FLIT ..` or `ok none`: this agent and this line are there.
    Flits(Agent, Line),
    /// `refused NUMBER NAME`: nothing was done.
    Refused(Refusal),
}

impl Reply {
    /// Why nothing was done, where it is so.
    /// Source: `docs/PROTOCOL.md`, "Refusals".
    pub fn refusal(&self) -> Option<Refusal>
        ensures { result ≡ refusal_in self.now }
    {
        match self {
            Reply::Refused(refusal) => Some(*refusal),
            _ => None,
        }
    }

    /// Puts its line, with the line end, behind what was printed before. A line and its flits are shown as
    /// they are in the system now. Refused where memory for the text runs out.
    /// Source: `docs/FORMATS.md`, "Replay files".
    #[inline(always)]
    pub fn print<A: Allocator, B: Allocator>(
        &self,
        system: &System<A>,
        printed: &mut String<B>,
    ) -> Result<(), NoMemory>
        ensures { OnOk result (string_bytes printed.new
            ≡ string_bytes printed.old ++ (reply_text system.now.home self.now ++ (10 ∷ []))) }
    {
        printed.hear(system, *self)
    }

    /// Puts its text there.
    #[inline(always)]
    pub(crate) fn put<A: Allocator, B: Allocator>(
        &self,
        system: &System<A>,
        printed: &mut String<B>,
    ) -> Result<(), AllocError>
        ensures { OnOk result (string_bytes printed.new
            ≡ string_bytes printed.old ++ reply_text system.now.home self.now) }
    {
        match self {
            Reply::Done => printed.push_str("ok"),
            Reply::Value(value) => print_numbered("ok value ", *value, printed),
            Reply::Admitted(entry) => print_numbered("ok admitted ", u64::from(entry.0), printed),
            Reply::Retry(credit) => write!(printed, "ok retry {credit}"),
            Reply::Completed(slot, released) => {
                print_numbered("ok completed ", u64::from(slot.0), printed)?;
                printed.push(' ')?;
                print_released(*released, printed)
            }
            Reply::Paid(released) => {
                printed.push_str("ok ")?;
                print_released(*released, printed)
            }
            Reply::Idle => printed.push_str("ok idle"),
            Reply::Credits(credits) => credits.print(printed),
            Reply::Totals(totals) => print_totals(totals, printed),
            Reply::Audit(audit) => print_audit(*audit, printed),
            Reply::Line(line) => print_line(system, *line, printed),
            Reply::Flits(agent, line) => print_flits(system, *agent, *line, printed),
            Reply::Refused(refusal) => print_refused(*refusal, printed),
        }
    }
}

/// Prints why nothing was done.
fn print_refused<A: Allocator>(refusal: Refusal, printed: &mut String<A>) -> Result<(), AllocError>
    ensures { OnOk result
        (string_bytes printed.new ≡ string_bytes printed.old ++ refused_text refusal) }
{
    let number = refusal.number();
    write!(printed, "refused {number} {refusal}")
}

/// Prints numbers of entries. It isn't inlined, so that the frame of the others stays small.
#[inline(never)]
pub(crate) fn print_totals<A: Allocator>(
    totals: &NodeTotals,
    printed: &mut String<A>,
) -> Result<(), AllocError>
    ensures { OnOk result (string_bytes printed.new
        ≡ string_bytes printed.old ++ (codes "ok " ++ totals_text totals.now)) }
{
    totals.print_behind("ok free", printed)
}

/// Prints what an audit found. It isn't inlined either.
#[inline(never)]
fn print_audit<A: Allocator>(audit: Audit, printed: &mut String<A>) -> Result<(), AllocError>
    ensures { OnOk result
        (string_bytes printed.new ≡ string_bytes printed.old ++ audit_text audit) }
{
    audit.print(printed)
}

/// Prints all parts of a line. It isn't inlined either.
#[inline(never)]
fn print_line<A: Allocator, B: Allocator>(
    system: &System<A>,
    line: Line,
    printed: &mut String<B>,
) -> Result<(), AllocError>
    ensures { OnOk result (string_bytes printed.new
        ≡ string_bytes printed.old ++ reply_text system.now.home (replies.Line line)) }
{
    match system.view(line) {
        Ok(view) => {
            let agents = system.config().agents();
            let shown = Shown {
                agents,
                view: &view,
            };
            shown.print(printed)
        }
        Err(refusal) => print_refused(refusal, printed),
    }
}

/// Prints the flits of an agent and a line. It isn't inlined either.
#[inline(never)]
fn print_flits<A: Allocator, B: Allocator>(
    system: &System<A>,
    agent: Agent,
    line: Line,
    printed: &mut String<B>,
) -> Result<(), AllocError>
    ensures { OnOk result (string_bytes printed.new
        ≡ string_bytes printed.old ++ reply_text system.now.home (replies.Flits agent line)) }
{
    match system.flits(agent, line) {
        Ok(cells) => {
            let flits = InFlight(&cells);
            flits.print(printed)
        }
        Err(refusal) => print_refused(refusal, printed),
    }
}

/// Prints words and the number behind them.
fn print_numbered<A: Allocator>(
    words: &str,
    number: u64,
    printed: &mut String<A>,
) -> Result<(), AllocError>
    ensures { OnOk result
        (string_bytes printed.new ≡ string_bytes printed.old ++ (words.now ++ decimal number)) }
{
    printed.push_str(words)?;
    print_number(number, printed)
}

/// Prints where a released entry went.
fn print_released<A: Allocator>(
    released: Released,
    printed: &mut String<A>,
) -> Result<(), AllocError>
    ensures { OnOk result
        (string_bytes printed.new ≡ string_bytes printed.old ++ released_text released) }
{
    match released {
        Released::Granted(agent) => print_numbered("granted ", u64::from(agent.0), printed),
        Released::Freed => printed.push_str("freed"),
    }
}
