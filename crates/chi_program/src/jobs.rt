//! What the program is asked to do.

use crate::faults::ArgFault;
use crate::options::{
    CellForm, RowRange, address, commands, context, data_listing, form, is_given, judged, least,
    only, opcodes, rows, seed, seen, start, stores, turns, types, watched_types, wild,
};
use crate::usages::{Topic, topic_of};
use chi_explain::StoreListing;
use chi_flit::Line;
use chi_observe::{Demands, Log};
use chi_resolution::Types;
use chi_trace::{Address, TraceForm};
use clap::{Arg, ArgAction, ArgMatches, Command};
use std::alloc::{AllocError, Global};

/// What the program is asked to do.
/// Source: `docs/FORMATS.md`, "The program".
#[derive(Debug, Drop, PartialEq, Eq)]
pub enum Job<'a> {
    /// `replay FILE`: runs the commands of the file at this path.
    Replay(&'a str),
    /// `check FILE.. [--tap]`: runs the commands of each of the files at these paths, and compares their
    /// answers with those that are wanted.
    Check {
        /// One path or more, in their order.
        paths: Vec<&'a str>,
        /// Whether TAP is printed.
        tap: bool,
    },
    /// `chart FILE [--line L] [--rows A-B]`: draws the chart of the file at this path.
    Chart {
        path: &'a str,
        /// The line alone that is shown, 0 to 63; all lines where it isn't given.
        only: Option<Line>,
        /// The rows that are shown; all where they aren't given.
        rows: RowRange,
    },
    /// `explain FILE [--types two|four|any] [--stores hidden|listed] [--early-grants] [--complete]
    /// [--unjudged refused|allowed] [--line ADDR]`: holds the trace at this path against the model.
    Explain {
        path: &'a str,
        /// Which types of credit it has; those of profile `Two` where it isn't given.
        types: Types,
        /// Which stores of processors it lists; some or none where it isn't given.
        stores: StoreListing,
        /// Whether its monitors stand at the requesters, where a grant may come before its RetryAck.
        early_grants: bool,
        /// Whether nothing may be open at its end.
        complete: bool,
        /// Whether all of it has to be judged.
        judged: bool,
        /// The address of the line whose explanation is written as a check file, where one is given.
        only: Option<Address>,
    },
    /// `observe FILE [--types two|four|any] [--stores hidden|listed] [--start empty|unknown] [--seen requesters|home]
    /// [--early-grants] [--complete] [--unjudged refused|allowed] [--opcodes issue-b|any] [--data listed|none] [--context N]
    /// [--progress]`: judges the trace at this path, whatever its home and its caches are.
    Observe {
        path: &'a str,
        /// Which types of credit it has; any where it isn't given.
        types: Types,
        /// Which stores of processors it lists; some or none where it isn't given.
        stores: StoreListing,
        /// How it was taken; whole, and where flits are sent, where neither `--start` nor `--seen` is given.
        log: Log,
        /// Whether its monitors stand at the requesters, where a grant may come before its RetryAck.
        early_grants: bool,
        /// Whether nothing may be open at its end, and whether all of it has to be judged.
        demands: Demands,
        /// Which opcodes it may have, and whether it has data.
        form: TraceForm,
        /// How many flits of a line are told with a fault, from 1 to 64; 0 where it isn't given.
        context: u64,
        /// Whether it is told how far the reading has come.
        progress: bool,
    },
    /// `storm FILE [--seed N] [--turns N]`: runs the scripts of the file at this path in threads.
    Storm {
        path: &'a str,
        /// What the agents' draws are made from; 1 where it isn't given.
        seed: u64,
        /// How many turns an agent takes at most, from 1 to 4,000,000,000; 10,000,000 where it isn't
        /// given.
        turns: u64,
    },
    /// `cover FILE.. [--missing] [--json] [--tsv] [--merge] [--at-least N]`: counts the cells of the protocol's tables
    /// that the commands of the files at these paths reach.
    Cover {
        /// One path or more, in their order.
        paths: Vec<&'a str>,
        /// Whether only the cells that none of them reaches are listed.
        missing: bool,
        /// How the cells are written.
        form: CellForm,
        /// Whether the files are earlier reports, whose counts are added up.
        merge: bool,
        /// How many cells are to be reached at least; 0 where it isn't given.
        least: u64,
    },
    /// `draw [--seed N] --commands M [--wild P] [--weights FILE] [--kinds LIST] [--drain] HEADER`: writes a check file of
    /// commands that are drawn.
    Draw {
        /// The header of the file.
        header: &'a str,
        /// What the draws are made from; 1 where it isn't given.
        seed: u64,
        /// How many commands are drawn, from 1 to 10,000,000.
        commands: u64,
        /// How many commands in a hundred are drawn from all, 0 to 100; none where it isn't given.
        wild: u8,
        /// The path of the file that says how often each verb is drawn, where one is given.
        weights: Option<&'a str>,
        /// The list of the kinds of request that are drawn alone, where one is given.
        kinds: Option<&'a str>,
        /// Whether commands follow until nothing is in flight.
        drain: bool,
    },
    /// `usage [COMMAND]`: says how this command is used, or all of them.
    Usage(Topic),
    /// `version`: says which version of the program this is.
    Version,
}

/// What the words of a command line ask for; the first word is the program's own name.
///
/// `Bad` where they are no command line of the program, as where an option stands twice or its number
/// is out of range or written otherwise than in a replay file, and where they ask for help; `NoMemory`
/// where memory runs out.
/// Source: `docs/FORMATS.md`, "The program".
pub fn arguments<'a>(alloc: Global, words: &'a [&'a str]) -> Result<Job<'a>, ArgFault> {
    let matches = command_line(alloc)?.try_get_matches_from(words)?;
    read_job(alloc, &matches)
}

/// The subcommand that replays a file.
const REPLAY: &str = "replay";

/// The subcommand that checks a file.
const CHECK: &str = "check";

/// The subcommand that draws a chart.
const CHART: &str = "chart";

/// The subcommand that explains a trace.
const EXPLAIN: &str = "explain";

/// The subcommand that judges a trace.
const OBSERVE: &str = "observe";

/// The subcommand that runs a storm.
const STORM: &str = "storm";

/// The subcommand that counts cells.
const COVER: &str = "cover";

/// The subcommand that draws commands.
const DRAW: &str = "draw";

/// The subcommand that says how commands are used.
const USAGE: &str = "usage";

/// The subcommand that says which version this is.
const VERSION: &str = "version";

/// The argument that is the name of a command.
const COMMAND: &str = "COMMAND";

/// The argument that is the header of a file.
const HEADER: &str = "HEADER";

/// The argument that is a file's path.
const FILE: &str = "FILE";

/// The option that is the line alone that a chart shows, or the address of the line alone that is explained.
const LINE: &str = "line";

/// The option that says which rows of a chart are shown.
const ROWS: &str = "rows";

/// The option that says which types of credit a trace has.
const TYPES: &str = "types";

/// The option that says which stores a trace lists.
const STORES: &str = "stores";

/// The option that says that grants may come early.
const EARLY_GRANTS: &str = "early-grants";

/// The option that says what the lines of memory are before a trace.
const START: &str = "start";

/// The option that says where a trace's flits are seen.
const SEEN: &str = "seen";

/// The option that says that a check prints TAP.
const TAP: &str = "tap";

/// The option that is a storm's seed.
const SEED: &str = "seed";

/// The option that says how many turns an agent takes at most.
const TURNS: &str = "turns";

/// The option that says that only missing cells are listed.
const MISSING: &str = "missing";

/// The option that says that cells are written as JSON.
const JSON: &str = "json";

/// The option that says that cells are written as values between tabs.
const TSV: &str = "tsv";

/// The option that says that files are earlier reports.
const MERGE: &str = "merge";

/// The option that says how many cells are to be reached at least.
const AT_LEAST: &str = "at-least";

/// The option that says that nothing may be open at the end of a trace.
const COMPLETE: &str = "complete";

/// The option that says how many flits of a line are told with a fault.
const CONTEXT: &str = "context";

/// The option that says whether some of a trace may be left unjudged.
const UNJUDGED: &str = "unjudged";

/// The option that says which opcodes a trace may have.
const OPCODES: &str = "opcodes";

/// The option that says whether a trace has data.
const DATA: &str = "data";

const PROGRESS: &str = "progress";

/// The option that says how many commands are drawn.
const COMMANDS: &str = "commands";

/// The option that says how many of them are drawn from all.
const WILD: &str = "wild";

/// The option that is the path of a file of weights.
const WEIGHTS: &str = "weights";

/// The option that is the list of the kinds of request that are drawn.
const KINDS: &str = "kinds";

/// The option that says that deliveries follow.
const DRAIN: &str = "drain";

/// The command lines of the program.
fn command_line<'a>(alloc: Global) -> Result<Command<'a>, AllocError> {
    program_command(alloc)
        .subcommand(replay_command(alloc)?)?
        .subcommand(check_command(alloc)?)?
        .subcommand(chart_command(alloc)?)?
        .subcommand(explain_command(alloc)?)?
        .subcommand(observe_command(alloc)?)?
        .subcommand(storm_command(alloc)?)?
        .subcommand(cover_command(alloc)?)?
        .subcommand(draw_command(alloc)?)?
        .subcommand(usage_command(alloc)?)?
        .subcommand(version_command(alloc))
}

/// The program itself, of which one command has to be given.
fn program_command<'a>(alloc: Global) -> Command<'a> {
    Command::new(alloc, "chihome").subcommand_required(true)
}

/// The command line of `replay`.
fn replay_command<'a>(alloc: Global) -> Result<Command<'a>, AllocError> {
    Command::new(alloc, REPLAY).arg(file(alloc))
}

/// The command line of `check`.
fn check_command<'a>(alloc: Global) -> Result<Command<'a>, AllocError> {
    Command::new(alloc, CHECK)
        .arg(files(alloc))?
        .arg(flag(alloc, TAP))
}

/// The command line of `chart`.
fn chart_command<'a>(alloc: Global) -> Result<Command<'a>, AllocError> {
    Command::new(alloc, CHART)
        .arg(file(alloc))?
        .arg(option(alloc, LINE))?
        .arg(option(alloc, ROWS))
}

/// The command line of `explain`.
fn explain_command<'a>(alloc: Global) -> Result<Command<'a>, AllocError> {
    Command::new(alloc, EXPLAIN)
        .arg(file(alloc))?
        .arg(option(alloc, TYPES))?
        .arg(option(alloc, STORES))?
        .arg(flag(alloc, EARLY_GRANTS))?
        .arg(flag(alloc, COMPLETE))?
        .arg(option(alloc, UNJUDGED))?
        .arg(option(alloc, LINE))
}

/// The command line of `observe`.
fn observe_command<'a>(alloc: Global) -> Result<Command<'a>, AllocError> {
    Command::new(alloc, OBSERVE)
        .arg(file(alloc))?
        .arg(option(alloc, TYPES))?
        .arg(option(alloc, STORES))?
        .arg(option(alloc, START))?
        .arg(option(alloc, SEEN))?
        .arg(flag(alloc, EARLY_GRANTS))?
        .arg(flag(alloc, COMPLETE))?
        .arg(option(alloc, UNJUDGED))?
        .arg(option(alloc, OPCODES))?
        .arg(option(alloc, DATA))?
        .arg(option(alloc, CONTEXT))?
        .arg(flag(alloc, PROGRESS))
}

/// The command line of `storm`.
fn storm_command<'a>(alloc: Global) -> Result<Command<'a>, AllocError> {
    Command::new(alloc, STORM)
        .arg(file(alloc))?
        .arg(option(alloc, SEED))?
        .arg(option(alloc, TURNS))
}

/// The command line of `cover`.
fn cover_command<'a>(alloc: Global) -> Result<Command<'a>, AllocError> {
    Command::new(alloc, COVER)
        .arg(files(alloc))?
        .arg(flag(alloc, MISSING))?
        .arg(flag(alloc, JSON))?
        .arg(flag(alloc, TSV))?
        .arg(flag(alloc, MERGE))?
        .arg(option(alloc, AT_LEAST))
}

/// The command line of `draw`.
fn draw_command<'a>(alloc: Global) -> Result<Command<'a>, AllocError> {
    Command::new(alloc, DRAW)
        .arg(header(alloc))?
        .arg(option(alloc, SEED))?
        .arg(option(alloc, COMMANDS))?
        .arg(option(alloc, WILD))?
        .arg(option(alloc, WEIGHTS))?
        .arg(option(alloc, KINDS))?
        .arg(flag(alloc, DRAIN))
}

/// The command line of `usage`.
fn usage_command<'a>(alloc: Global) -> Result<Command<'a>, AllocError> {
    Command::new(alloc, USAGE).arg(topic_argument(alloc))
}

/// The command line of `version`.
fn version_command<'a>(alloc: Global) -> Command<'a> {
    Command::new(alloc, VERSION)
}

/// The name of a command, which may be given.
fn topic_argument<'a>(alloc: Global) -> Arg<'a> {
    Arg::new(alloc, COMMAND).action(ArgAction::Set)
}

/// The path of a file, which has to be given.
fn file<'a>(alloc: Global) -> Arg<'a> {
    Arg::new(alloc, FILE).required(true).action(ArgAction::Set)
}

/// The paths of files, of which one has to be given at least.
fn files<'a>(alloc: Global) -> Arg<'a> {
    Arg::new(alloc, FILE)
        .required(true)
        .action(ArgAction::Append)
}

/// The header of a file, which has to be given.
fn header<'a>(alloc: Global) -> Arg<'a> {
    Arg::new(alloc, HEADER)
        .required(true)
        .action(ArgAction::Set)
}

/// An option of this name, which has one value where it is given.
fn option<'a>(alloc: Global, name: &'a str) -> Arg<'a> {
    Arg::new(alloc, name).long(name).action(ArgAction::Set)
}

/// An option of this name that has no value.
fn flag<'a>(alloc: Global, name: &'a str) -> Arg<'a> {
    Arg::new(alloc, name).long(name).action(ArgAction::SetTrue)
}

/// The job of the subcommand that was read.
fn read_job<'a>(alloc: Global, matches: &ArgMatches<'a>) -> Result<Job<'a>, ArgFault> {
    match matches.subcommand() {
        Some((REPLAY, replay)) => read_replay(replay),
        Some((CHECK, check)) => read_check(alloc, check),
        Some((CHART, chart)) => read_chart(chart).ok_or(ArgFault::Bad),
        Some((EXPLAIN, explain)) => read_explain(explain).ok_or(ArgFault::Bad),
        Some((OBSERVE, observe)) => read_observe(observe).ok_or(ArgFault::Bad),
        Some((STORM, storm)) => read_storm(storm).ok_or(ArgFault::Bad),
        Some((COVER, cover)) => read_cover(alloc, cover),
        Some((DRAW, draw)) => read_draw(draw).ok_or(ArgFault::Bad),
        Some((USAGE, usage)) => read_usage(usage).ok_or(ArgFault::Bad),
        Some((VERSION, version)) => read_version(version).ok_or(ArgFault::Bad),
        _ => Err(ArgFault::Bad),
    }
}

/// The job of `replay FILE`.
fn read_replay<'a>(matches: &ArgMatches<'a>) -> Result<Job<'a>, ArgFault> {
    match text_of(matches, FILE) {
        Some(path) => Ok(Job::Replay(path)),
        None => Err(ArgFault::Bad),
    }
}

/// The job of `check FILE..` and its option.
fn read_check<'a>(alloc: Global, matches: &ArgMatches<'a>) -> Result<Job<'a>, ArgFault> {
    let Some(given) = texts_of(matches, FILE) else {
        return Err(ArgFault::Bad);
    };
    let tap = is_given(text_of(matches, TAP));
    let mut paths = Vec::new(alloc);
    paths.extend_from_slice(given)?;
    Ok(Job::Check { paths, tap })
}

/// The job of `chart FILE` and its options.
fn read_chart<'a>(matches: &ArgMatches<'a>) -> Option<Job<'a>> {
    let path = text_of(matches, FILE)?;
    let only = only(text_of(matches, LINE))?;
    let rows = rows(text_of(matches, ROWS))?;
    Some(Job::Chart { path, only, rows })
}

/// The job of `explain FILE` and its options.
fn read_explain<'a>(matches: &ArgMatches<'a>) -> Option<Job<'a>> {
    let path = text_of(matches, FILE)?;
    let types = types(text_of(matches, TYPES))?;
    let stores = stores(text_of(matches, STORES))?;
    let early_grants = is_given(text_of(matches, EARLY_GRANTS));
    let complete = is_given(text_of(matches, COMPLETE));
    let judged = judged(text_of(matches, UNJUDGED))?;
    let only = address(text_of(matches, LINE))?;
    Some(Job::Explain {
        path,
        types,
        stores,
        early_grants,
        complete,
        judged,
        only,
    })
}

/// The job of `observe FILE` and its options.
fn read_observe<'a>(matches: &ArgMatches<'a>) -> Option<Job<'a>> {
    let path = text_of(matches, FILE)?;
    let types = watched_types(text_of(matches, TYPES))?;
    let stores = stores(text_of(matches, STORES))?;
    let start = start(text_of(matches, START))?;
    let log = seen(text_of(matches, SEEN), start, stores)?;
    let early_grants = is_given(text_of(matches, EARLY_GRANTS));
    let demands = Demands {
        complete: is_given(text_of(matches, COMPLETE)),
        judged: judged(text_of(matches, UNJUDGED))?,
    };
    let form = TraceForm {
        opcodes: opcodes(text_of(matches, OPCODES))?,
        listing: data_listing(text_of(matches, DATA))?,
    };
    let context = context(text_of(matches, CONTEXT))?;
    let progress = is_given(text_of(matches, PROGRESS));
    Some(Job::Observe {
        path,
        types,
        stores,
        log,
        early_grants,
        demands,
        form,
        context,
        progress,
    })
}

/// The job of `storm FILE` and its options.
fn read_storm<'a>(matches: &ArgMatches<'a>) -> Option<Job<'a>> {
    let path = text_of(matches, FILE)?;
    let seed = seed(text_of(matches, SEED))?;
    let turns = turns(text_of(matches, TURNS))?;
    Some(Job::Storm { path, seed, turns })
}

/// The job of `cover FILE..` and its options.
fn read_cover<'a>(alloc: Global, matches: &ArgMatches<'a>) -> Result<Job<'a>, ArgFault> {
    let Some(given) = texts_of(matches, FILE) else {
        return Err(ArgFault::Bad);
    };
    let Some(form) = form(text_of(matches, JSON), text_of(matches, TSV)) else {
        return Err(ArgFault::Bad);
    };
    let Some(least) = least(text_of(matches, AT_LEAST)) else {
        return Err(ArgFault::Bad);
    };
    let missing = is_given(text_of(matches, MISSING));
    let merge = is_given(text_of(matches, MERGE));
    let mut paths = Vec::new(alloc);
    paths.extend_from_slice(given)?;
    Ok(Job::Cover {
        paths,
        missing,
        form,
        merge,
        least,
    })
}

/// The job of `draw HEADER` and its options.
fn read_draw<'a>(matches: &ArgMatches<'a>) -> Option<Job<'a>> {
    let header = text_of(matches, HEADER)?;
    let seed = seed(text_of(matches, SEED))?;
    let commands = commands(text_of(matches, COMMANDS))?;
    let wild = wild(text_of(matches, WILD))?;
    let weights = text_of(matches, WEIGHTS);
    let kinds = text_of(matches, KINDS);
    let drain = is_given(text_of(matches, DRAIN));
    Some(Job::Draw {
        header,
        seed,
        commands,
        wild,
        weights,
        kinds,
        drain,
    })
}

/// The job of `usage` and the name of a command.
fn read_usage<'a>(matches: &ArgMatches<'a>) -> Option<Job<'a>> {
    Some(Job::Usage(topic_of(text_of(matches, COMMAND))?))
}

/// The job of `version`.
fn read_version<'a>(matches: &ArgMatches<'a>) -> Option<Job<'a>> {
    let _ = matches;
    Some(Job::Version)
}

/// The first text that was found for this name.
fn text_of<'a>(matches: &ArgMatches<'a>, name: &str) -> Option<&'a str> {
    matches.get_str(name)
}

/// All texts that were found for this name.
fn texts_of<'m, 'a>(matches: &'m ArgMatches<'a>, name: &str) -> Option<&'m [&'a str]> {
    matches.get_strs(name)
}
