//! The values of options.

ghost use Rattle.std.specs.Prelude.{◌≡◌, ◌==◌};
ghost use Rattle.std.specs.List.{position};

use chi_explain::StoreListing;
use chi_flit::Line;
use chi_observe::Log;
use chi_resolution::Types;
use chi_script::{is, number};
use chi_trace::{Address, Listing, Opcodes, read_address};

/// The seed of a storm whose `--seed` has this value: 1 where it isn't given, and `None` where the value
/// is no number of a replay file.
/// Source: `docs/FORMATS.md`, "The program".
pub fn seed(value: Option<&str>) -> Option<u64> {
    match value {
        None => Some(1),
        Some(word) => number(word.as_bytes()),
    }
}

/// How many turns an agent takes at most in a storm whose `--turns` has this value: 10,000,000 where it
/// isn't given, and `None` where the value is no number of a replay file from 1 to 4,000,000,000.
/// Source: `docs/FORMATS.md`, "The program".
pub fn turns(value: Option<&str>) -> Option<u64> {
    match value {
        None => Some(10_000_000),
        Some(word) => {
            let turns = number(word.as_bytes())?;
            (1..=4_000_000_000).contains(&turns).then_some(turns)
        }
    }
}

/// How many commands are drawn where `--commands` has this value: `None` where it isn't given, and where the value is no
/// number of a replay file from 1 to 10,000,000.
/// Source: `docs/FORMATS.md`, "The program".
pub fn commands(value: Option<&str>) -> Option<u64> {
    let commands = number(value?.as_bytes())?;
    (1..=10_000_000).contains(&commands).then_some(commands)
}

/// How many commands in a hundred are drawn from all where `--wild` has this value: 0 where it isn't given, and `None`
/// where the value is no number of a replay file from 0 to 100.
/// Source: `docs/FORMATS.md`, "The program".
pub fn wild(value: Option<&str>) -> Option<u8> {
    match value {
        None => Some(0),
        Some(word) => match number(word.as_bytes())? {
            wild @ 0..=100 => Some(wild as u8),
            _ => None,
        },
    }
}

/// The line alone that a chart shows whose `--line` has this value: none where it isn't given, and `None`
/// where the value is no number of a replay file from 0 to 63.
/// Source: `docs/FORMATS.md`, "The program".
pub fn only(value: Option<&str>) -> Option<Option<Line>> {
    match value {
        None => Some(None),
        Some(word) => match number(word.as_bytes())? {
            line @ 0..=63 => Some(Some(Line(line as u8))),
            _ => None,
        },
    }
}

/// The rows of a chart that are drawn: those of the first to the last of these commands, counted from 1.
/// Source: `docs/FORMATS.md`, "The program".
#[derive(Clone, Copy, Debug, PartialEq, Eq)]
pub struct RowRange {
    /// At least 1.
    pub first: u64,
    /// No less than the first.
    pub last: u64,
}

/// The rows that a chart shows whose `--rows` has this value: all where it isn't given, and `None` where the value
/// isn't `A-B` with numbers of a replay file, of which A is at least 1 and B no less than A.
/// Source: `docs/FORMATS.md`, "The program".
pub fn rows(value: Option<&str>) -> Option<RowRange> {
    match value {
        None => Some(RowRange {
            first: 1,
            last: u64::MAX,
        }),
        Some(word) => {
            let word = word.as_bytes();
            let dash = dash(word)?;
            range(&word[..dash], &word[dash + 1..])
        }
    }
}

/// Where the first `-` stands.
fn dash(word: &[u8]) -> Option<usize>
    ensures { result ≡ position (λ byte. byte == 45) word.now }
{
    word.iter().position(|byte| *byte == b'-')
}

/// The range from this number to that one.
fn range(first: &[u8], last: &[u8]) -> Option<RowRange> {
    let (first, last) = (number(first)?, number(last)?);
    (1..=last)
        .contains(&first)
        .then_some(RowRange { first, last })
}

/// Which types of credit a trace has whose `--types` has this value: those of profile `Two` where it isn't given, and
/// `None` where the value is none of `two`, `four` and `any`.
/// Source: `docs/FORMATS.md`, "The program".
pub fn types(value: Option<&str>) -> Option<Types> {
    match value {
        None => Some(Types::Two),
        Some(word) => types_in(word.as_bytes()),
    }
}

/// The same of a trace that is observed: any where it isn't given.
/// Source: `docs/FORMATS.md`, "The program".
pub fn watched_types(value: Option<&str>) -> Option<Types> {
    match value {
        None => Some(Types::Any),
        Some(word) => types_in(word.as_bytes()),
    }
}

/// The types of this name.
fn types_in(word: &[u8]) -> Option<Types> {
    if is(word, "two") {
        Some(Types::Two)
    } else if is(word, "four") {
        Some(Types::Four)
    } else if is(word, "any") {
        Some(Types::Any)
    } else {
        None
    }
}

/// How a trace is taken whose `--start` has this value: whole where it isn't given, and `None` where the value is neither
/// `empty` nor `unknown`.
/// Source: `docs/FORMATS.md`, "The program".
pub fn start(value: Option<&str>) -> Option<Log> {
    match value {
        None => Some(Log::Whole),
        Some(word) => start_in(word.as_bytes()),
    }
}

/// The same of a start of this name.
fn start_in(word: &[u8]) -> Option<Log> {
    if is(word, "empty") {
        Some(Log::Whole)
    } else if is(word, "unknown") {
        Some(Log::Tail)
    } else {
        None
    }
}

/// How a trace is taken that starts so and lists stores so, and whose `--seen` has this value: where flits are sent where it
/// isn't given, and `None` where the value is neither `requesters` nor `home`, and of a log that is taken at the home and
/// begins in the middle or lists all stores.
/// Source: `docs/FORMATS.md`, "The program".
pub fn seen(value: Option<&str>, start: Log, stores: StoreListing) -> Option<Log> {
    match value {
        None => Some(start),
        Some(word) => seen_in(word.as_bytes(), start, stores),
    }
}

/// The same of a place of this name.
fn seen_in(word: &[u8], start: Log, stores: StoreListing) -> Option<Log> {
    if is(word, "requesters") {
        Some(start)
    } else if is(word, "home") {
        home_log(start, stores)
    } else {
        None
    }
}

/// A log that is taken at the home: none that begins in the middle, or lists all stores.
fn home_log(start: Log, stores: StoreListing) -> Option<Log> {
    match (start, stores) {
        (Log::Whole, StoreListing::Partial) => Some(Log::Home),
        _ => None,
    }
}

/// Which stores a trace lists whose `--stores` has this value: some or none where it isn't given, and `None` where the
/// value is neither `hidden` nor `listed`.
/// Source: `docs/FORMATS.md`, "The program".
pub fn stores(value: Option<&str>) -> Option<StoreListing> {
    match value {
        None => Some(StoreListing::Partial),
        Some(word) => listing_in(word.as_bytes()),
    }
}

/// The listing of this name.
fn listing_in(word: &[u8]) -> Option<StoreListing> {
    if is(word, "hidden") {
        Some(StoreListing::Partial)
    } else if is(word, "listed") {
        Some(StoreListing::Complete)
    } else {
        None
    }
}

/// Which opcodes a trace may have whose `--opcodes` has this value: those of Issue B where it isn't given, and `None` where
/// the value is neither `issue-b` nor `any`.
/// Source: `docs/FORMATS.md`, "The program".
pub fn opcodes(value: Option<&str>) -> Option<Opcodes> {
    match value {
        None | Some("issue-b") => Some(Opcodes::IssueB),
        Some("any") => Some(Opcodes::Any),
        Some(_) => None,
    }
}

/// Whether a trace has data whose `--data` has this value: it has where it isn't given, and `None` where the value is
/// neither `listed` nor `none`.
/// Source: `docs/FORMATS.md`, "The program".
pub fn data_listing(value: Option<&str>) -> Option<Listing> {
    match value {
        None | Some("listed") => Some(Listing::Listed),
        Some("none") => Some(Listing::None),
        Some(_) => None,
    }
}

/// Whether all of a trace has to be judged where `--unjudged` has this value: so it is where it isn't given, and
/// `None` where the value is neither `refused` nor `allowed`.
/// Source: `docs/FORMATS.md`, "The program".
pub fn judged(value: Option<&str>) -> Option<bool> {
    match value {
        None | Some("refused") => Some(true),
        Some("allowed") => Some(false),
        Some(_) => None,
    }
}

/// How cells are written.
/// Source: `docs/FORMATS.md`, "Coverage".
#[derive(Clone, Copy, Debug, PartialEq, Eq)]
pub enum CellForm {
    /// A line of words for each cell.
    Lines,
    /// One JSON value.
    Json,
    /// Values between tabs, a line for each cell.
    Tsv,
}

/// How cells are written where `--json` and `--tsv` have these values: as lines where none is given, and `None` where both
/// are.
/// Source: `docs/FORMATS.md`, "The program".
pub fn form(json: Option<&str>, tsv: Option<&str>) -> Option<CellForm> {
    match (is_given(json), is_given(tsv)) {
        (false, false) => Some(CellForm::Lines),
        (true, false) => Some(CellForm::Json),
        (false, true) => Some(CellForm::Tsv),
        (true, true) => None,
    }
}

/// How many cells are to be reached at least where `--at-least` has this value: 0 where it isn't given, and `None` where
/// the value is no number of a replay file.
/// Source: `docs/FORMATS.md`, "The program".
pub fn least(value: Option<&str>) -> Option<u64> {
    match value {
        None => Some(0),
        Some(word) => number(word.as_bytes()),
    }
}

/// How many flits of a line are told with a fault where `--context` has this value: 0 where it isn't given, and `None`
/// where the value is no number of a replay file from 1 to 64.
/// Source: `docs/FORMATS.md`, "The program".
pub fn context(value: Option<&str>) -> Option<u64> {
    match value {
        None => Some(0),
        Some(word) => match number(word.as_bytes())? {
            context @ 1..=64 => Some(context),
            _ => None,
        },
    }
}

/// Whether an option without a value was given, of which the command line has this word.
/// Source: `docs/FORMATS.md`, "The program".
pub fn is_given(value: Option<&str>) -> bool {
    match value {
        None => false,
        Some(word) => is(word.as_bytes(), "true"),
    }
}

/// The address whose line alone is explained where `--line` has this value: none where it isn't given, and `None`
/// where the value is no address of a trace.
/// Source: `docs/FORMATS.md`, "The program".
pub fn address(value: Option<&str>) -> Option<Option<Address>> {
    match value {
        None => Some(None),
        Some(word) => Some(Some(read_address(word.as_bytes())?)),
    }
}
