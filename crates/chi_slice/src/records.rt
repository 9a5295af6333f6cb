//! How the journal follows what was done.

ghost use Rattle.std.specs.Prelude.{◌≡◌};
ghost use Rattle.chi_slice.specs.Recorded.{CanAppend, done_record, load_record, record_by};
ghost use Rattle.chi_slice.specs.Slice.{log_after};
ghost use Rattle.chi_line.specs.Step.{is_step_in_range};

use chi_flit::{Action, Agent, Effect, Line, Step, WordNo};
use chi_journal::{Journal, Record};
use std::alloc::Allocator;

/// Appends the record of an action that was done, if it has one. There is room for it.
#[inline(always)]
pub fn note<A: Allocator>(journal: &mut Journal<A>, action: Action, effect: Effect)
    requires { CanAppend journal.old (record_by action effect) }
    ensures { journal.new ≡ log_after journal.old (record_by action effect) }
{
    let Some(entry) = done_record(action.agent, action.line, action.step, effect) else {
        return;
    };
    match journal.append(entry) {
        Ok(()) => {}
        Err(_) => unreachable!(),
    }
}

/// The record of a step that had the effect.
fn done_record(agent: Agent, line: Line, step: Step, effect: Effect) -> Option<Record>
    ensures { result ≡ done_record agent line step effect }
{
    match step {
        Step::Load(word) => load_record(agent, line, word, effect),
        Step::Store(word, value) => Some(Record::Store {
            agent,
            line,
            word,
            value,
        }),
        _ => None,
    }
}

/// The record of a load that had the effect.
fn load_record(agent: Agent, line: Line, word: WordNo, effect: Effect) -> Option<Record>
    ensures { result ≡ load_record agent line word effect }
{
    match effect {
        Effect::Value(value) => Some(Record::Load {
            agent,
            line,
            word,
            value,
        }),
        _ => None,
    }
}

/// Whether the numbers of a step are in their ranges: a word and a slot are below 8.
/// Source: `docs/PROTOCOL.md`, "Limits".
pub fn is_step_in_range(step: Step) -> bool
    ensures { result ≡ is_step_in_range step }
{
    match step {
        Step::Load(word) | Step::Store(word, _) => word.0 < 8,
        Step::Issue(_, slot) => slot.0 < 8,
        _ => true,
    }
}
