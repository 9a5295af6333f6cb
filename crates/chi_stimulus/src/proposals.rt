//! The command of a verb and its operands.

ghost use Rattle.std.specs.Prelude.{◌≢◌};

use crate::operands::Operands;
use crate::plan::Plan;
use crate::words::Lot;
use chi_flit::{Action, Agent, Line, Slot, Step, WordNo};
use chi_script::{Command, RequesterAction, Verb};

/// How many verbs there are.
const VERBS: u32 = 23;

/// A step of the agent at the line.
fn act(operands: &Operands, step: Step) -> Command
    requires no_admit { step ≢ Step.Admit }
    requires no_retry { step ≢ Step.Retry }
{
    let agent = Agent(operands.agent);
    let line = Line(operands.line);
    Command::Act(RequesterAction::new(Action { agent, line, step }))
}

/// The command of a verb. A store writes the number of the commands before it.
pub(crate) fn command_by(verb: Verb, operands: &Operands, count: u64) -> Command {
    let (agent, line) = (Agent(operands.agent), Line(operands.line));
    let credit = operands.credit;
    match verb {
        Verb::Load => act(operands, Step::Load(WordNo(operands.number))),
        Verb::Store => act(operands, Step::Store(WordNo(operands.number), count)),
        Verb::Drop => act(operands, Step::Drop),
        Verb::Issue => act(operands, Step::Issue(operands.kind, Slot(operands.number))),
        Verb::Arrive => Command::Arrive { agent, line },
        Verb::Start => act(operands, Step::Start),
        Verb::Snp => act(operands, Step::RecvSnp),
        Verb::SnpResp => act(operands, Step::RecvSnpResp),
        Verb::RetryAck => act(operands, Step::RecvRetry),
        Verb::Resend => act(operands, Step::Resend),
        Verb::Cancel => act(operands, Step::Cancel),
        Verb::Data => act(operands, Step::RecvData),
        Verb::Comp => act(operands, Step::RecvComp),
        Verb::Dbid => act(operands, Step::RecvDbid),
        Verb::Ack => act(operands, Step::RecvAck),
        Verb::WrData => act(operands, Step::RecvWrData),
        Verb::See => Command::See { agent },
        Verb::GiveBack => Command::GiveBack { agent, credit },
        Verb::Tend => Command::Tend { agent, credit },
        Verb::Totals => Command::Totals,
        Verb::Audit => Command::Audit,
        Verb::Show => Command::Show { line },
        Verb::Flits => Command::Flits { agent, line },
    }
}

/// Any command.
pub(crate) fn any_command(plan: &Plan, lot: &Lot, count: u64) -> Command {
    let operands = Operands::near(plan, lot);
    let verb = Verb::at((lot.verb % VERBS) as usize).unwrap_or(Verb::Totals);
    command_by(verb, &operands, count)
}

/// The verb at a place among those that bring a request to rest.
pub(crate) fn rest_verb(place: u8) -> Verb {
    match place {
        0 => Verb::Arrive,
        1 => Verb::Start,
        2 => Verb::Snp,
        3 => Verb::SnpResp,
        4 => Verb::RetryAck,
        5 => Verb::Data,
        6 => Verb::Comp,
        7 => Verb::Ack,
        8 => Verb::Dbid,
        9 => Verb::WrData,
        10 => Verb::Resend,
        _ => Verb::Cancel,
    }
}
