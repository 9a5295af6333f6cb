//! The commands of a replay file: a table for each count of words, a line for each command.

ghost use Rattle.std.specs.Prelude.{◌≡◌, ◌≢◌, IfSome};
ghost use Rattle.chi_script.specs.Words.{words_of};
ghost use Rattle.chi_script.specs.Commands.{command_of, command_bare, command_one, command_two, command_with, act_at, verb_step, step_with_one, step_with_two, kind_named};

use crate::numbers::{number, small};
use crate::requester_actions::RequesterAction;
use crate::usual_lines::usual_command;
use crate::verbs::Verb;
use crate::words::{first_argument, first_word, is};
use chi_flit::{Action, Agent, CreditType, Kind, Line, Slot, Step, WordNo};

/// One command of a replay file.
/// Source: `docs/FORMATS.md`, "Replay files".
#[derive(Clone, Copy, Debug, PartialEq, Eq)]
pub enum Command {
    /// `totals`: the tracker's words, at a glance.
    Totals,
    /// `audit`: whether all lines and journals are coherent.
    Audit,
    /// `show L`: the line's copies, filter, service and memory.
    Show {
        line: Line,
    },
    /// `flits N L`: the messages in flight for one agent and line.
    Flits {
        agent: Agent,
        line: Line,
    },
    /// `arrive N L`: the home takes the agent's request, and admits it or answers a retry.
    Arrive {
        agent: Agent,
        line: Line,
    },
    /// `see N`: the agent looks which credits it was granted.
    See {
        agent: Agent,
    },
    /// `giveback N TYPE`: the agent returns a credit of the type. No type: the number is above 3.
    GiveBack {
        agent: Agent,
        credit: Option<CreditType>,
    },
    /// `tend N TYPE`: the agent hands a free entry of the type to whoever is owed a credit. No type: the
    /// number is above 3.
    Tend {
        agent: Agent,
        credit: Option<CreditType>,
    },
    /// A command that is one action: `load N L W`, `store N L W V`, `issue N L KIND SLOT`, and of the
    /// form `VERB N L` those of `drop`, `start`, `snp`, `snpresp`, `retryack`, `resend`, `cancel`, `data`,
    /// `comp`, `ack`, `dbid` and `wrdata`. No line is Admit or Retry, which `arrive` does.
    Act(RequesterAction),
}

/// The command that a line is, which is given without its line end. `None` for an unknown word, a wrong
/// count of words or a faulty number.
/// Source: `docs/FORMATS.md`, "Replay files".
pub fn read_command(line: &[u8]) -> Option<Command>
    ensures { result ≡ command_of (words_of line.now) }
{
    match usual_command(line) {
        Some(command) => Some(command),
        None => worded_command(line),
    }
}

/// The command that a line is, by its words.
fn worded_command(line: &[u8]) -> Option<Command>
    ensures { result ≡ command_of (words_of line.now) }
{
    match first_word(line) {
        None => bare(Verb::named(line)?),
        Some((word, rest)) => with_words(Verb::named(word)?, rest),
    }
}

/// The command of a verb and the words behind it.
pub(crate) fn with_words(verb: Verb, words: &[u8]) -> Option<Command>
    ensures { result ≡ command_with verb (words_of words.now) }
{
    let Some((first, rest)) = first_argument(words) else {
        return with_one(verb, small(words)?);
    };
    let Some((second, rest)) = first_argument(rest) else {
        return with_two(verb, small(first)?, small(rest)?);
    };
    let Some((third, rest)) = first_argument(rest) else {
        let step = step_with_one(verb, rest)?;
        return Some(act(small(first)?, small(second)?, step));
    };
    match first_argument(rest) {
        None => {
            let step = step_with_two(verb, third, rest)?;
            Some(act(small(first)?, small(second)?, step))
        }
        Some(_) => None,
    }
}

/// `VERB`
fn bare(verb: Verb) -> Option<Command>
    ensures { result ≡ command_bare verb }
{
    match verb {
        Verb::Totals => Some(Command::Totals),
        Verb::Audit => Some(Command::Audit),
        _ => None,
    }
}

/// `VERB L`, or `VERB N`
#[inline(always)]
pub(crate) fn with_one(verb: Verb, first: u8) -> Option<Command>
    ensures { result ≡ command_one verb first }
{
    match verb {
        Verb::Show => Some(Command::Show { line: Line(first) }),
        Verb::See => Some(Command::See {
            agent: Agent(first),
        }),
        _ => None,
    }
}

/// `VERB N L`, or `VERB N TYPE`
#[inline(always)]
pub(crate) fn with_two(verb: Verb, first: u8, second: u8) -> Option<Command>
    ensures { result ≡ command_two verb first second }
{
    let agent = Agent(first);
    let line = Line(second);
    match verb {
        Verb::Arrive => Some(Command::Arrive { agent, line }),
        Verb::Flits => Some(Command::Flits { agent, line }),
        Verb::GiveBack => {
            let credit = CreditType::numbered(second);
            Some(Command::GiveBack { agent, credit })
        }
        Verb::Tend => {
            let credit = CreditType::numbered(second);
            Some(Command::Tend { agent, credit })
        }
        _ => Some(act(first, second, step_of(verb)?)),
    }
}

/// The command that is this step of an agent on a line.
fn act(first: u8, second: u8, step: Step) -> Command
    requires no_admit { step ≢ Step.Admit }
    requires no_retry { step ≢ Step.Retry }
    ensures { result ≡ act_at first second step }
{
    let agent = Agent(first);
    let line = Line(second);
    let action = RequesterAction::new(Action { agent, line, step });
    Command::Act(action)
}

/// The step of `VERB N L`.
#[inline(always)]
fn step_of(verb: Verb) -> Option<Step>
    ensures is { result ≡ verb_step verb }
    ensures own { IfSome result (λ step. (step ≢ Step.Admit) × (step ≢ Step.Retry)) }
{
    match verb {
        Verb::Drop => Some(Step::Drop),
        Verb::Start => Some(Step::Start),
        Verb::Snp => Some(Step::RecvSnp),
        Verb::SnpResp => Some(Step::RecvSnpResp),
        Verb::RetryAck => Some(Step::RecvRetry),
        Verb::Resend => Some(Step::Resend),
        Verb::Cancel => Some(Step::Cancel),
        Verb::Data => Some(Step::RecvData),
        Verb::Comp => Some(Step::RecvComp),
        Verb::Ack => Some(Step::RecvAck),
        Verb::Dbid => Some(Step::RecvDbid),
        Verb::WrData => Some(Step::RecvWrData),
        _ => None,
    }
}

/// The step of `VERB N L` and one word whose form the verb says.
fn step_with_one(verb: Verb, third: &[u8]) -> Option<Step>
    ensures is { result ≡ step_with_one verb third.now }
    ensures own { IfSome result (λ step. (step ≢ Step.Admit) × (step ≢ Step.Retry)) }
{
    match verb {
        Verb::Load => Some(Step::Load(WordNo(small(third)?))),
        _ => None,
    }
}

/// The step of `VERB N L` and two words whose form the verb says.
fn step_with_two(verb: Verb, third: &[u8], fourth: &[u8]) -> Option<Step>
    ensures is { result ≡ step_with_two verb third.now fourth.now }
    ensures own { IfSome result (λ step. (step ≢ Step.Admit) × (step ≢ Step.Retry)) }
{
    match verb {
        Verb::Store => Some(Step::Store(WordNo(small(third)?), number(fourth)?)),
        Verb::Issue => Some(Step::Issue(read_kind(third)?, Slot(small(fourth)?))),
        _ => None,
    }
}

/// The kind of request that the word names; `None` for every other word.
/// Source: `docs/FORMATS.md`, "Replay files".
#[tactic(auto, unfolding(crate::specs::Commands::kind_named))]
pub fn read_kind(word: &[u8]) -> Option<Kind>
    ensures { result ≡ kind_named word.now }
{
    if is(word, "ReadNotSharedDirty") {
        Some(Kind::ReadNotSharedDirty)
    } else if is(word, "ReadShared") {
        Some(Kind::ReadShared)
    } else if is(word, "ReadUnique") {
        Some(Kind::ReadUnique)
    } else if is(word, "CleanUnique") {
        Some(Kind::CleanUnique)
    } else if is(word, "Evict") {
        Some(Kind::Evict)
    } else if is(word, "WriteBackFull") {
        Some(Kind::WriteBackFull)
    } else if is(word, "WriteCleanFull") {
        Some(Kind::WriteCleanFull)
    } else if is(word, "WriteEvictFull") {
        Some(Kind::WriteEvictFull)
    } else {
        None
    }
}
