//! An action that a requester's step takes.

ghost use Rattle.std.specs.Prelude.{◌≡◌, ◌≢◌};

use chi_flit::{Action, Step};
use std::marker::Model;

/// An action other than Admit and Retry, which are an arrival's. Contracts see it as the `Action`.
/// Source: `docs/PROTOCOL.md`, "A requester and its calls".
#[derive(Clone, Copy, Debug, PartialEq, Eq)]
pub struct RequesterAction {
    action: Action,
}

impl Model for RequesterAction {
    ghost use Rattle.std.specs.Prelude.{◌≢◌};
    ghost use Rattle.chi_flit.specs.declared.action.Action.{Action};
    ghost use Rattle.chi_flit.specs.declared.action.Step.TheVariants.{Admit, Retry};

    ghost Value = { Action };

    ghost view = { λ a. a.action };

    ghost invariant = { λ a. (a.action.step ≢ Admit) × (a.action.step ≢ Retry) };

    ghost inverse = { λ action. record { action = action } };
}

impl RequesterAction {
    /// This action. Conditions: it is neither Admit nor Retry.
    /// Source: `docs/PROTOCOL.md`, "A requester and its calls".
    pub fn new(action: Action) -> RequesterAction
        requires no_admit { action.step ≢ Step.Admit }
        requires no_retry { action.step ≢ Step.Retry }
        ensures { result ≡ action }
    {
        RequesterAction { action }
    }

    /// The action. Whoever asks for it knows that it is neither Admit nor Retry.
    /// Source: `docs/PROTOCOL.md`, "A requester and its calls".
    pub fn action(self) -> Action
        ensures is { result ≡ self }
        ensures no_admit { result.step ≢ Step.Admit }
        ensures no_retry { result.step ≢ Step.Retry }
    {
        self.action
    }
}
