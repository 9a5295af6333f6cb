//! The flits that an action sends, beside those that were seen.

ghost use Rattle.std.specs.Prelude.{◌≡◌, ◌<◌, ◌∷◌, ◌++◌, IfSome, IsTrue};
ghost use Rattle.chi_slice.specs.Words.{Cells, cell_of};
ghost use Rattle.chi_explain.specs.Sent.{busy_in, flit_agent, new_flit, sent_of_agent, served_or};
ghost use Rattle.chi_explain.specs.declared.observed.Observed.TheVariants.{Flit, Load, Store};

use crate::observed::Observed;
use crate::same::is_same_message;
use chi_flit::{Agent, Channel, Msg, Step, WordNo};
use chi_line::CoherentLine;
use chi_slice::{Cells, Serving};

/// A message that a requester sent to the home, or the home to it.
/// Source: `docs/TRACES.md`, "Explanations".
#[derive(Clone, Copy, Debug, PartialEq, Eq)]
pub struct SentFlit {
    /// The requester.
    pub agent: Agent,
    pub message: Msg,
}

/// On which of an agent's channels, but the snoops', something is in flight.
#[derive(Clone, Copy)]
pub(crate) struct Busy {
    req: bool,
    rsp_down: bool,
    dat_down: bool,
    rsp_up: bool,
    dat_up: bool,
}

/// On which channels something is in flight.
pub(crate) fn busy_in(cells: &Cells) -> Busy
    ensures { result ≡ busy_in cells.now }
{
    Busy {
        req: cells.req.is_some(),
        rsp_down: cells.rsp_down.is_some(),
        dat_down: cells.dat_down.is_some(),
        rsp_up: cells.rsp_up.is_some(),
        dat_up: cells.dat_up.is_some(),
    }
}

/// The agent on whose channels a step of an agent puts what it sends, snoops aside: its own, or for an answer to a
/// snoop that of the request that is served.
pub(crate) fn flit_agent(line: &CoherentLine, agent: Agent, step: Step) -> Agent
    requires { agent.0 < 8 }
    ensures which { result ≡ flit_agent line.now agent step }
    ensures low { result.0 < 8 }
{
    match step {
        Step::RecvSnpResp => served_or(line.home().serving(), agent),
        _ => agent,
    }
}

/// The agent that is snooped for, or this one.
fn served_or(serving: Serving, agent: Agent) -> Agent
    requires { agent.0 < 8 }
    ensures which { result ≡ served_or serving agent }
    ensures low { result.0 < 8 }
{
    match serving {
        Serving::Snooping { agent: served, .. } if served.0 < 8 => served,
        _ => agent,
    }
}

/// What is left of what was seen behind the flit that an action has put on an agent's channel, if it has: nothing was
/// in flight there before. `None` where it has put one that wasn't seen there.
fn behind_new<'f>(
    seen: &'f [Observed],
    agent: Agent,
    was_busy: bool,
    after: &Cells,
    channel: Channel,
) -> Option<&'f [Observed]>
    ensures { IfSome result (λ rest.
        seen.now ≡ new_flit agent was_busy (cell_of after.now channel) ++ rest.now) }
{
    if was_busy {
        return Some(seen);
    }
    match after.get(channel) {
        Some(message) => behind(seen, SentFlit { agent, message }),
        None => Some(seen),
    }
}

/// What is left of what was seen behind this flit, where it is the first.
pub(crate) fn behind(seen: &[Observed], flit: SentFlit) -> Option<&[Observed]>
    ensures { IfSome result (λ rest. seen.now ≡ Flit flit ∷ rest.now) }
{
    match seen {
        [Observed::Flit(first), rest @ ..] if is_same(first, &flit) => Some(rest),
        _ => None,
    }
}

/// What is left of what was seen behind the agent's load of this value, where it is the first.
pub(crate) fn behind_load(
    seen: &[Observed],
    agent: Agent,
    word: WordNo,
    value: u64,
) -> Option<&[Observed]>
    ensures { IfSome result (λ rest. seen.now ≡ Load agent word value ∷ rest.now) }
{
    match seen {
        [Observed::Load(by, of, read), rest @ ..] if *read == value => {
            if by.0 == agent.0 && of.0 == word.0 {
                Some(rest)
            } else {
                None
            }
        }
        _ => None,
    }
}

/// What is left of what was seen behind the agent's store of this value, where it is the first.
pub(crate) fn behind_store(
    seen: &[Observed],
    agent: Agent,
    word: WordNo,
    value: u64,
) -> Option<&[Observed]>
    ensures { IfSome result (λ rest. seen.now ≡ Store agent word value ∷ rest.now) }
{
    match seen {
        [Observed::Store(by, of, written), rest @ ..] if *written == value => {
            if by.0 == agent.0 && of.0 == word.0 {
                Some(rest)
            } else {
                None
            }
        }
        _ => None,
    }
}

/// Whether two flits are the same.
fn is_same(one: &SentFlit, other: &SentFlit) -> bool
    ensures { IsTrue result → one.now ≡ other.now }
{
    if one.agent.0 != other.agent.0 {
        return false;
    }
    is_same_message(&one.message, &other.message)
}

/// What is left of what was seen behind the flits that an action has put on an agent's channels, but for snoops; on
/// these of them something was in flight before. `None` where it has put others.
pub(crate) fn behind_agent<'f>(
    seen: &'f [Observed],
    agent: Agent,
    before: Busy,
    after: &Cells,
) -> Option<&'f [Observed]>
    ensures { IfSome result (λ rest. seen.now
        ≡ sent_of_agent agent before after.now ++ rest.now) }
{
    let rest = behind_new(seen, agent, before.req, after, Channel::Req)?;
    let rest = behind_new(rest, agent, before.rsp_down, after, Channel::RspDown)?;
    let rest = behind_new(rest, agent, before.dat_down, after, Channel::DatDown)?;
    let rest = behind_new(rest, agent, before.rsp_up, after, Channel::RspUp)?;
    let rest = behind_new(rest, agent, before.dat_up, after, Channel::DatUp)?;
    Some(rest)
}
