//! How a command is printed.

ghost use Rattle.std.specs.Prelude.{◌≡◌, ◌≢◌, Some};
ghost use Rattle.chi_script.specs.Spelling.{IsReadAgain, command_text, command_verb, step_verb, type_text};

use crate::commands::Command;
use crate::verbs::Verb;
use chi_flit::{CreditType, Step};
use std::fmt;

/// A credit type, or a number that is none.
#[derive(Drop)]
struct TypeOrNone(Option<CreditType>);

impl fmt::Display for Command {
    ghost output = { λ command. Some (command_text command) };

    fn fmt<W: fmt::Write>(&self, f: &mut fmt::Formatter<W>) -> fmt::Result {
        let verb = self.verb();
        match *self {
            Command::Totals => write!(f, "{verb}"),
            Command::Audit => write!(f, "{verb}"),
            Command::Show { line } => write!(f, "{verb} {line}"),
            Command::Flits { agent, line } => write!(f, "{verb} {agent} {line}"),
            Command::Arrive { agent, line } => write!(f, "{verb} {agent} {line}"),
            Command::See { agent } => write!(f, "{verb} {agent}"),
            Command::GiveBack { agent, credit } => {
                let credit = TypeOrNone(credit);
                write!(f, "{verb} {agent} {credit}")
            }
            Command::Tend { agent, credit } => {
                let credit = TypeOrNone(credit);
                write!(f, "{verb} {agent} {credit}")
            }
            Command::Act(action) => {
                let action = action.action();
                let (agent, line) = (action.agent, action.line);
                match action.step {
                    Step::Load(word) => write!(f, "{verb} {agent} {line} {word}"),
                    Step::Store(word, value) => write!(f, "{verb} {agent} {line} {word} {value}"),
                    Step::Issue(kind, slot) => write!(f, "{verb} {agent} {line} {kind} {slot}"),
                    _ => write!(f, "{verb} {agent} {line}"),
                }
            }
        }
    }
}

impl fmt::Display for TypeOrNone {
    ghost output = { λ credit. Some (type_text credit.0) };

    fn fmt<W: fmt::Write>(&self, f: &mut fmt::Formatter<W>) -> fmt::Result {
        match self.0 {
            Some(credit) => write!(f, "{credit}"),
            None => write!(f, "4"),
        }
    }
}

impl Command {
    /// Its verb.
    /// Source: `docs/FORMATS.md`, "Replay files".
    pub fn verb(self) -> Verb
        ensures { command_verb self ≡ Some result }
    {
        match self {
            Command::Totals => Verb::Totals,
            Command::Audit => Verb::Audit,
            Command::Show { .. } => Verb::Show,
            Command::Flits { .. } => Verb::Flits,
            Command::Arrive { .. } => Verb::Arrive,
            Command::See { .. } => Verb::See,
            Command::GiveBack { .. } => Verb::GiveBack,
            Command::Tend { .. } => Verb::Tend,
            Command::Act(action) => verb_of_step(action.action().step),
        }
    }
}

/// The verb of a step that a file asks for.
fn verb_of_step(step: Step) -> Verb
    requires no_admit { step ≢ Step.Admit }
    requires no_retry { step ≢ Step.Retry }
    ensures { step_verb step ≡ Some result }
{
    match step {
        Step::Load(_) => Verb::Load,
        Step::Store(..) => Verb::Store,
        Step::Drop => Verb::Drop,
        Step::Issue(..) => Verb::Issue,
        Step::RecvRetry => Verb::RetryAck,
        Step::Resend => Verb::Resend,
        Step::Cancel => Verb::Cancel,
        Step::Start => Verb::Start,
        Step::RecvSnp => Verb::Snp,
        Step::RecvSnpResp => Verb::SnpResp,
        Step::RecvData => Verb::Data,
        Step::RecvComp => Verb::Comp,
        Step::RecvAck => Verb::Ack,
        Step::RecvDbid => Verb::Dbid,
        Step::RecvWrData => Verb::WrData,
        Step::Admit | Step::Retry => unreachable!(),
    }
}
