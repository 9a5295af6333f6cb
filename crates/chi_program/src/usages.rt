//! How the commands are used, and which version this is.

use chi_script::is;

/// What `usage` is asked about.
/// Source: `docs/FORMATS.md`, "The program".
#[derive(Clone, Copy, Debug, PartialEq, Eq)]
pub enum Topic {
    /// All commands: a line of words for each.
    All,
    Replay,
    Check,
    Chart,
    Storm,
    Explain,
    Observe,
    Cover,
    Draw,
    Usage,
    Version,
}

/// What is asked about where the word behind `usage` is this: all commands where there is none, and `None` where it names
/// no command.
/// Source: `docs/FORMATS.md`, "The program".
pub fn topic_of(word: Option<&str>) -> Option<Topic> {
    match word {
        None => Some(Topic::All),
        Some(word) => topic_named(word.as_bytes()),
    }
}

/// The command of this name.
fn topic_named(word: &[u8]) -> Option<Topic> {
    if is(word, "replay") {
        Some(Topic::Replay)
    } else if is(word, "check") {
        Some(Topic::Check)
    } else if is(word, "chart") {
        Some(Topic::Chart)
    } else if is(word, "storm") {
        Some(Topic::Storm)
    } else if is(word, "explain") {
        Some(Topic::Explain)
    } else if is(word, "observe") {
        Some(Topic::Observe)
    } else if is(word, "cover") {
        Some(Topic::Cover)
    } else if is(word, "draw") {
        Some(Topic::Draw)
    } else if is(word, "usage") {
        Some(Topic::Usage)
    } else if is(word, "version") {
        Some(Topic::Version)
    } else {
        None
    }
}

/// How the command is used, or all of them: the line of each, and of one alone its options too.
/// Source: `docs/FORMATS.md`, "The program".
pub fn usage(topic: Topic) -> &'static str {
    match topic {
        Topic::All => all_usage(),
        Topic::Replay => replay_usage(),
        Topic::Check => check_usage(),
        Topic::Chart => chart_usage(),
        Topic::Storm => storm_usage(),
        Topic::Explain => explain_usage(),
        Topic::Observe => observe_usage(),
        Topic::Cover => cover_usage(),
        Topic::Draw => draw_usage(),
        Topic::Usage => usage_usage(),
        Topic::Version => version_usage(),
    }
}

/// All commands.
fn all_usage() -> &'static str {
    "chihome replay FILE\n\
     chihome check FILE.. [--tap]\n\
     chihome chart FILE [--line L] [--rows A-B]\n\
     chihome storm FILE [--seed N] [--turns N]\n\
     chihome explain FILE [--types two|four|any] [--stores hidden|listed] [--early-grants] [--complete] [--unjudged refused|allowed] [--line ADDR]\n\
     chihome observe FILE [--types two|four|any] [--stores hidden|listed] [--start empty|unknown] [--seen requesters|home] [--early-grants] [--complete] [--unjudged refused|allowed] [--opcodes issue-b|any] [--data listed|none] [--context N] [--progress]\n\
     chihome cover FILE.. [--missing] [--json] [--tsv] [--merge] [--at-least N]\n\
     chihome draw [--seed N] --commands M [--wild P] [--weights FILE] [--kinds LIST] [--drain] HEADER\n\
     chihome usage [COMMAND]\n\
     chihome version\n"
}

/// How `replay` is used.
fn replay_usage() -> &'static str {
    "chihome replay FILE\n\
     Runs the commands of a replay file, and prints the answer of each.\n\
     Example: chihome replay flow.chi\n"
}

/// How `check` is used.
fn check_usage() -> &'static str {
    "chihome check FILE.. [--tap]\n\
     Compares the answers of the commands of check files with those that are wanted.\n\
     \x20 --tap                prints TAP (the Test Anything Protocol): a test point for each file\n\
     Example: chihome check --tap flow.check other.check\n"
}

/// How `chart` is used.
fn chart_usage() -> &'static str {
    "chihome chart FILE [--line L] [--rows A-B]\n\
     Draws the message sequence chart of a replay or check file, as an SVG.\n\
     \x20 --line L             draws line L alone, 0 to 63\n\
     \x20 --rows A-B           draws the commands from the Ath to the Bth alone, counted from 1\n\
     Example: chihome chart flow.check --line 0 > flow.svg\n"
}

/// How `storm` is used.
fn storm_usage() -> &'static str {
    "chihome storm FILE [--seed N] [--turns N]\n\
     Runs the scripts of a storm file in threads.\n\
     \x20 --seed N             the number that the random draws are made from; 1 if it isn't given\n\
     \x20 --turns N            the turns that an agent takes at most, 1 to 4000000000; 10000000 if it isn't given\n\
     Example: chihome storm agents.chi --seed 7\n"
}

/// How `explain` is used.
fn explain_usage() -> &'static str {
    "chihome explain FILE [--types two|four|any] [--stores hidden|listed] [--early-grants] [--complete] [--unjudged refused|allowed] [--line ADDR]\n\
     Holds a trace against the model.\n\
     \x20 --types T            two or four: its home has so many types of credit; any: a RetryAck may name any type; two if it isn't given\n\
     \x20 --stores S           hidden: the trace may lack stores; listed: it has every store; hidden if it isn't given\n\
     \x20 --early-grants       a PCrdGrant may stand before the RetryAck that it is for\n\
     \x20 --complete           status 7 if something is outstanding at its end\n\
     \x20 --unjudged U         refused: status 9 if its last line has no line end, and so isn't judged; allowed: that is no fault; refused if it isn't given\n\
     \x20 --line ADDR          writes the explanation of the cache line at ADDR (hexadecimal) as a check file\n\
     Example: chihome explain run.trace --line 1040 > line.check\n"
}

/// How `observe` is used.
fn observe_usage() -> &'static str {
    "chihome observe FILE [--types two|four|any] [--stores hidden|listed] [--start empty|unknown] [--seen requesters|home] [--early-grants] [--complete] [--unjudged refused|allowed] [--opcodes issue-b|any] [--data listed|none] [--context N] [--progress]\n\
     Judges a trace, whatever its home and its caches are.\n\
     \x20 --types T            two or four: its home has so many types of credit; any: a RetryAck may name any type; any if it isn't given\n\
     \x20 --stores S           hidden: the trace may lack stores; listed: it has every store; hidden if it isn't given\n\
     \x20 --start S            empty: no cache has a copy before it; unknown: it is cut out of a longer trace; empty if it isn't given\n\
     \x20 --seen S             requesters: each flit stands where it is sent; home: a cache's flit stands where it arrives; requesters if it isn't given\n\
     \x20 --early-grants       a PCrdGrant may stand before the RetryAck that it is for\n\
     \x20 --complete           status 7 if something is outstanding at its end\n\
     \x20 --unjudged U         refused: status 9 if some of it isn't judged; allowed: that is no fault; refused if it isn't given\n\
     \x20 --opcodes O          issue-b: another opcode is an error; any: the design has opcodes of its own; issue-b if it isn't given\n\
     \x20 --data D             listed: flits have their data; none: each has - for its data; listed if it isn't given\n\
     \x20 --context N          tells with a fault the last N flits of its cache line, 1 to 64\n\
     \x20 --progress           tells each second how far it has come, if standard error is a terminal\n\
     Example: zcat run.trace.gz | chihome observe - --stores listed --complete\n"
}

/// How `cover` is used.
fn cover_usage() -> &'static str {
    "chihome cover FILE.. [--missing] [--json] [--tsv] [--merge] [--at-least N]\n\
     Counts the cells of the protocol's tables that the commands of replay and check files reach.\n\
     \x20 --missing            lists the cells alone that none of the files reaches\n\
     \x20 --json               prints a JSON value\n\
     \x20 --tsv                prints values between tabs\n\
     \x20 --merge              the files are earlier reports, without --missing: adds up their counts\n\
     \x20 --at-least N         status 9 if fewer than N cells are reached\n\
     Example: chihome cover flow.check other.check --missing\n"
}

/// How `draw` is used.
fn draw_usage() -> &'static str {
    "chihome draw [--seed N] --commands M [--wild P] [--weights FILE] [--kinds LIST] [--drain] HEADER\n\
     Writes a check file with this header, of commands that are drawn at random.\n\
     \x20 --seed N             the number that the random draws are made from; 1 if it isn't given\n\
     \x20 --commands M         how many commands are drawn, 1 to 10000000\n\
     \x20 --wild P             so many commands in a hundred are any command, which may be refused; 0 if it isn't given\n\
     \x20 --weights FILE       the file that says how often each verb and each kind of request is drawn\n\
     \x20 --kinds LIST         draws requests of these kinds alone, with commas between them\n\
     \x20 --drain              goes on until nothing is in flight and each entry is free\n\
     Example: chihome draw --seed 3 --commands 100 \"node 2 4 1 2 1 64\" > random.check\n"
}

/// How `usage` is used.
fn usage_usage() -> &'static str {
    "chihome usage [COMMAND]\n\
     Says how a command is used, or all of them.\n\
     Example: chihome usage observe\n"
}

/// How `version` is used.
fn version_usage() -> &'static str {
    "chihome version\n\
     Says which version this is.\n"
}

/// The version of the program, as the file `VERSION` has it, and a line end.
/// Source: `docs/FORMATS.md`, "The program".
pub fn version() -> &'static str {
    "chihome 0.1.0\n"
}
