//! The header of a replay file: the sizes of the node that its commands are for.

ghost use Rattle.std.specs.Prelude.{◌≡◌, min};
ghost use Rattle.std.specs.Option.{option_map};
ghost use Rattle.chi_script.specs.Words.{texts_of};
ghost use Rattle.chi_flit.specs.Config.{config_if, four_types, two_types};
ghost use Rattle.chi_script.specs.Headers.{header_of, header_sizes, sizes_read, types_of};

use crate::numbers::number;
use crate::words::is;
use chi_flit::{Config, Profile};

/// The sizes as the numbers of a line write them, within the limits or not.
#[derive(Clone, Copy)]
struct SizeFields {
    agents: u64,
    lines: u64,
    slices: u64,
    entries: [u64; 4],
    journal: u64,
    profile: Profile,
}

/// What a header says of the credit types, and its last number.
#[derive(Clone, Copy)]
struct CreditTypes {
    entries: [u64; 4],
    journal: u64,
    profile: Profile,
}

/// The header that the words of a line are: `node A L S T0 T1 K`, or `node A L S T0 T1 T2 T3 K` for four
/// credit types. `None` for other words, a wrong count of words, a faulty number, and sizes outside the
/// limits.
/// Source: `docs/FORMATS.md`, "Replay files", and `docs/PROTOCOL.md`, "Limits".
pub fn read_header(words: &[&[u8]]) -> Option<Config>
    ensures { result ≡ header_of (texts_of words.now) }
{
    match words {
        [verb, numbers @ ..] if is(verb, "node") => read_sizes(numbers)?.config(),
        _ => None,
    }
}

/// The sizes that the words write, in the order of a header.
fn read_sizes(words: &[&[u8]]) -> Option<SizeFields>
    ensures { option_map sizes_read result ≡ header_sizes (texts_of words.now) }
{
    let [agents, lines, slices, rest @ ..] = words else {
        return None;
    };
    let agents = number(agents)?;
    let lines = number(lines)?;
    let slices = number(slices)?;
    let types = read_types(rest)?;
    let entries = types.entries;
    Some(SizeFields {
        agents,
        lines,
        slices,
        entries,
        journal: types.journal,
        profile: types.profile,
    })
}

/// The credit types and the journal that the words write.
fn read_types(words: &[&[u8]]) -> Option<CreditTypes>
    ensures { result ≡ types_of (texts_of words.now) }
{
    match words {
        [t0, t1, journal] => Some(CreditTypes {
            entries: [number(t0)?, number(t1)?, 0, 0],
            journal: number(journal)?,
            profile: Profile::Two,
        }),
        [t0, t1, t2, t3, journal] => Some(CreditTypes {
            entries: [number(t0)?, number(t1)?, number(t2)?, number(t3)?],
            journal: number(journal)?,
            profile: Profile::Four,
        }),
        _ => None,
    }
}

impl SizeFields {
    /// The sizes, where they are within the limits.
    /// Source: `docs/PROTOCOL.md`, "Limits".
    fn config(&self) -> Option<Config>
        ensures { result ≡ config_if (sizes_read self.now) }
    {
        let (agents, lines, slices) = (self.agents, self.lines, self.slices);
        let [t0, t1, t2, t3] = self.entries;
        match self.profile {
            Profile::Two => {
                if t2 != 0 || t3 != 0 {
                    return None;
                }
                two_types(agents, lines, slices, t0, t1, self.journal)
            }
            Profile::Four => four_types(agents, lines, slices, [t0, t1, t2, t3], self.journal),
        }
    }
}

/// The sizes of a node of two credit types, where they are within the limits.
#[tactic(auto, using(crate::proofs::WideLemmas::two_wide))]
pub(crate) fn two_types(
    agents: u64,
    lines: u64,
    slices: u64,
    t0: u64,
    t1: u64,
    journal: u64,
) -> Option<Config>
    ensures { result ≡ config_if (two_types agents lines slices t0 t1 journal) }
{
    Config::new(
        count(agents),
        count(lines),
        count(slices),
        entry_count(t0),
        entry_count(t1),
        record_count(journal),
    )
}

/// The sizes of a node of four credit types, where they are within the limits.
#[tactic(auto, using(crate::proofs::WideLemmas::four_wide))]
fn four_types(
    agents: u64,
    lines: u64,
    slices: u64,
    entries: [u64; 4],
    journal: u64,
) -> Option<Config>
    ensures { result ≡ config_if (four_types agents lines slices entries journal) }
{
    let [t0, t1, t2, t3] = entries;
    Config::four(
        count(agents),
        count(lines),
        count(slices),
        [
            entry_count(t0),
            entry_count(t1),
            entry_count(t2),
            entry_count(t3),
        ],
        record_count(journal),
    )
}

/// A number of agents, lines or slices, as 255 where it is above that, which is outside the limits.
fn count(number: u64) -> u8
    ensures { result ≡ min number 255 }
{
    u8::try_from(number).unwrap_or(u8::MAX)
}

/// A number of entries, as 65,535 where it is above that, which is outside the limits.
fn entry_count(number: u64) -> u16
    ensures { result ≡ min number 65535 }
{
    u16::try_from(number).unwrap_or(u16::MAX)
}

/// A number of records, as 4,294,967,295 where it is above that, which is outside the limits.
fn record_count(number: u64) -> u32
    ensures { result ≡ min number 4294967295 }
{
    u32::try_from(number).unwrap_or(u32::MAX)
}
