//! An action in C's words, and what it gives.

ghost use Rattle.std.specs.Prelude.{◌≡◌};
ghost use Rattle.chi_library.specs.Actions.{action_by, action_of, action_told, effect_told, no_effect, step_number, step_told};

use chi_flit::{Action, Agent, Effect, Kind, Line, Slot, Step, WordNo};

/// One action: `ChiAction` of `chihome.h`. `kind` and `slot` are read of an Issue, `word` of a Load and a
/// Store, and `value` of a Store.
/// Source: `docs/LIBRARY.md`, "Numbers".
#[repr(C)]
#[derive(Clone, Copy)]
pub struct ChiAction {
    pub agent: u8,
    pub line: u8,
    pub step: u8,
    pub kind: u8,
    pub slot: u8,
    pub word: u8,
    pub value: u64,
}

/// What an action that was done gives: `ChiEffect` of `chihome.h`.
/// Source: `docs/LIBRARY.md`, "Numbers".
#[repr(C)]
#[derive(Clone, Copy)]
pub struct ChiEffect {
    pub effect: u8,
    pub slot: u8,
    pub value: u64,
}

impl ChiAction {
    /// No action: all numbers are 0.
    pub(crate) const NONE: ChiAction = ChiAction {
        agent: 0,
        line: 0,
        step: 0,
        kind: 0,
        slot: 0,
        word: 0,
        value: 0,
    };
}

impl ChiEffect {
    /// No effect: all numbers are 0.
    pub(crate) const NONE: ChiEffect = ChiEffect {
        effect: 0,
        slot: 0,
        value: 0,
    };
}

/// Calls `$done` with the action that C's numbers name, and with what else is given; `$none` where they name none. Each
/// step has a call of its own, in which it is known: where that call is inlined, nothing asks again which step it is.
macro_rules! by_step {
    ($action:ident, $done:path, ($($given:expr),*), $none:expr) => {
        match $action.step {
            0 => $done(action_by($action, Step::Load(WordNo($action.word))) $(, $given)*),
            1 => $done(action_by($action, Step::Store(WordNo($action.word), $action.value)) $(, $given)*),
            2 => $done(action_by($action, Step::Drop) $(, $given)*),
            3 => match Kind::numbered($action.kind) {
                Some(kind) => $done(action_by($action, Step::Issue(kind, Slot($action.slot))) $(, $given)*),
                None => $none,
            },
            4 => $done(action_by($action, Step::Admit) $(, $given)*),
            5 => $done(action_by($action, Step::Retry) $(, $given)*),
            6 => $done(action_by($action, Step::RecvRetry) $(, $given)*),
            7 => $done(action_by($action, Step::Resend) $(, $given)*),
            8 => $done(action_by($action, Step::Cancel) $(, $given)*),
            9 => $done(action_by($action, Step::Start) $(, $given)*),
            10 => $done(action_by($action, Step::RecvSnp) $(, $given)*),
            11 => $done(action_by($action, Step::RecvSnpResp) $(, $given)*),
            12 => $done(action_by($action, Step::RecvData) $(, $given)*),
            13 => $done(action_by($action, Step::RecvComp) $(, $given)*),
            14 => $done(action_by($action, Step::RecvAck) $(, $given)*),
            15 => $done(action_by($action, Step::RecvDbid) $(, $given)*),
            16 => $done(action_by($action, Step::RecvWrData) $(, $given)*),
            _ => $none,
        }
    };
}

pub(crate) use by_step;

/// The action of this step with an action's agent and line.
#[inline(always)]
pub(crate) fn action_by(action: &ChiAction, step: Step) -> Action
    ensures { result ≡ action_by action.now step }
{
    Action {
        agent: Agent(action.agent),
        line: Line(action.line),
        step,
    }
}

/// The action that C's numbers name; `None` where they name none.
pub(crate) fn action_at(action: &ChiAction) -> Option<Action>
    ensures { result ≡ action_of action.now }
{
    by_step!(action, Some, (), None)
}

/// Tells what an action gives, where all numbers are 0: those that stay 0, nearly all of them, aren't written
/// again.
pub(crate) fn tell_effect(effect: &mut ChiEffect, given: Effect)
    requires { effect.old ≡ no_effect }
    ensures { effect.new ≡ effect_told given }
{
    match given {
        Effect::Nothing => {}
        Effect::Value(value) => {
            effect.effect = 1;
            effect.value = value;
        }
        Effect::Completed(slot) => {
            effect.effect = 2;
            effect.slot = slot.0;
        }
    }
}

/// The number of a step.
fn step_number(step: Step) -> u8
    ensures { result ≡ step_number step }
{
    match step {
        Step::Load(_) => 0,
        Step::Store(..) => 1,
        Step::Drop => 2,
        Step::Issue(..) => 3,
        Step::Admit => 4,
        Step::Retry => 5,
        Step::RecvRetry => 6,
        Step::Resend => 7,
        Step::Cancel => 8,
        Step::Start => 9,
        Step::RecvSnp => 10,
        Step::RecvSnpResp => 11,
        Step::RecvData => 12,
        Step::RecvComp => 13,
        Step::RecvAck => 14,
        Step::RecvDbid => 15,
        Step::RecvWrData => 16,
    }
}

/// A step by C's numbers, with agent and line 0.
fn step_told(step: Step) -> ChiAction
    ensures { result ≡ step_told step }
{
    match step {
        Step::Load(word) => ChiAction {
            word: word.0,
            ..ChiAction::NONE
        },
        Step::Store(word, value) => ChiAction {
            step: 1,
            word: word.0,
            value,
            ..ChiAction::NONE
        },
        Step::Issue(kind, slot) => ChiAction {
            step: 3,
            kind: kind.number(),
            slot: slot.0,
            ..ChiAction::NONE
        },
        other => ChiAction {
            step: step_number(other),
            ..ChiAction::NONE
        },
    }
}

/// An action by C's numbers.
pub(crate) fn action_told(action: Action) -> ChiAction
    ensures { result ≡ action_told action }
{
    ChiAction {
        agent: action.agent.0,
        line: action.line.0,
        ..step_told(action.step)
    }
}
