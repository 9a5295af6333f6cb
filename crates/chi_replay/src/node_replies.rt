//! What is answered to each call of a node.

ghost use Rattle.std.specs.Prelude.{◌≡◌};
ghost use Rattle.chi_replay.specs.NodeReplies.{arrival_reply, give_back_reply, step_reply, tend_reply};

use crate::replies::Reply;
use chi_flit::{Effect, Refusal};
use chi_node::{Arrived, Released, Stepped};

/// What is answered to an arrival.
pub(crate) fn arrival_reply(arrived: Result<Arrived, Refusal>) -> Reply
    ensures { result ≡ arrival_reply arrived }
{
    match arrived {
        Ok(Arrived::Admitted(entry)) => Reply::Admitted(entry),
        Ok(Arrived::Retried(ty)) => Reply::Retry(ty),
        Err(refusal) => Reply::Refused(refusal),
    }
}

/// What is answered to a step.
pub(crate) fn step_reply(stepped: Result<Stepped, Refusal>) -> Reply
    ensures { result ≡ step_reply stepped }
{
    match stepped {
        Ok(
            Stepped {
                effect: Effect::Completed(slot),
                released: Some(released),
            },
        ) => Reply::Completed(slot, released),
        Ok(
            Stepped {
                effect: Effect::Value(word),
                ..
            },
        ) => Reply::Value(word),
        Ok(_) => Reply::Done,
        Err(refusal) => Reply::Refused(refusal),
    }
}

/// What is answered where a credit is given back.
pub(crate) fn give_back_reply(given: Result<Released, Refusal>) -> Reply
    ensures { result ≡ give_back_reply given }
{
    match given {
        Ok(released) => Reply::Paid(released),
        Err(refusal) => Reply::Refused(refusal),
    }
}

/// What is answered where a type is tended.
pub(crate) fn tend_reply(tended: Result<Option<Released>, Refusal>) -> Reply
    ensures { result ≡ tend_reply tended }
{
    match tended {
        Ok(Some(released)) => Reply::Paid(released),
        Ok(None) => Reply::Idle,
        Err(refusal) => Reply::Refused(refusal),
    }
}
