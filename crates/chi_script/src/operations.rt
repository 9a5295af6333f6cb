//! The operations of a storm file: a table for each count of words, a line for each operation.

ghost use Rattle.std.specs.Prelude.{◌≡◌};
ghost use Rattle.chi_script.specs.Words.{texts_of};
ghost use Rattle.chi_script.specs.Operations.{number_below, task_of, task_with_word, task_with_value, operation_with, operation_of};

use crate::numbers::number;
use crate::words::is;
use chi_flit::{Agent, Config, Line, Operation, Task, WordNo};

/// One line of a storm file: an operation, and the agent in whose script it stands.
/// Source: `docs/FORMATS.md`, "Storm files".
#[derive(Clone, Copy, Debug, PartialEq, Eq)]
pub struct AgentOperation {
    pub agent: Agent,
    pub operation: Operation,
}

/// How many words a line has.
const WORDS: u8 = 8;

/// The operation that the words of a line are: `load N L W`, `share N L W`, `store N L W V`, and of the
/// form `VERB N L` those of `writeback`, `writeclean`, `writeevict`, `evict` and `drop`. `None` for an
/// unknown word, a wrong count of words, a faulty number, and an agent, a line or a word that is outside
/// the header's ranges.
/// Source: `docs/FORMATS.md`, "Storm files".
pub fn read_operation(header: &Config, words: &[&[u8]]) -> Option<AgentOperation>
    ensures { result ≡ operation_of header.now (texts_of words.now) }
{
    match words {
        [verb, agent, line] => operation_with(header, agent, line, task_of(verb)?),
        [verb, agent, line, word] => operation_with(
            header,
            agent,
            line,
            task_with_word(verb, word)?,
        ),
        [verb, agent, line, word, value] => {
            operation_with(header, agent, line, task_with_value(verb, word, value)?)
        }
        _ => None,
    }
}

/// The task of the agent on the line that two words name.
fn operation_with(header: &Config, agent: &[u8], line: &[u8], task: Task) -> Option<AgentOperation>
    ensures { result ≡ operation_with header.now agent.now line.now task }
{
    let agent = Agent(number_below(header.agents(), agent)?);
    let line = Line(number_below(header.lines(), line)?);
    let operation = Operation { line, task };
    Some(AgentOperation { agent, operation })
}

/// The task of `VERB N L`.
#[tactic(auto, unfolding(crate::specs::Operations::task_of))]
fn task_of(verb: &[u8]) -> Option<Task>
    ensures { result ≡ task_of verb.now }
{
    if is(verb, "writeback") {
        Some(Task::WriteBack)
    } else if is(verb, "writeclean") {
        Some(Task::WriteClean)
    } else if is(verb, "writeevict") {
        Some(Task::WriteEvict)
    } else if is(verb, "evict") {
        Some(Task::Evict)
    } else if is(verb, "drop") {
        Some(Task::Drop)
    } else {
        None
    }
}

/// The task of `VERB N L W`.
fn task_with_word(verb: &[u8], word: &[u8]) -> Option<Task>
    ensures { result ≡ task_with_word verb.now word.now }
{
    if is(verb, "load") {
        Some(Task::Load(WordNo(number_below(WORDS, word)?)))
    } else if is(verb, "share") {
        Some(Task::Share(WordNo(number_below(WORDS, word)?)))
    } else {
        None
    }
}

/// The task of `VERB N L W V`.
fn task_with_value(verb: &[u8], word: &[u8], value: &[u8]) -> Option<Task>
    ensures { result ≡ task_with_value verb.now word.now value.now }
{
    if is(verb, "store") {
        Some(Task::Store(WordNo(number_below(WORDS, word)?), number(value)?))
    } else {
        None
    }
}

/// The number that the word writes, where it is below the end of its range.
fn number_below(end: u8, word: &[u8]) -> Option<u8>
    ensures { result ≡ number_below end word.now }
{
    let written = number(word)?;
    if written < u64::from(end) {
        Some(written as u8)
    } else {
        None
    }
}
