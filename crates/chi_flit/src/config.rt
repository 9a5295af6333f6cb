//! The sizes of a node.

ghost use Rattle.std.specs.Prelude.{◌≡◌, ◌+◌, ◌/◌, ◌%◌, ◌&&◌, nat_le, true, None, Some, ⊤};
ghost use Rattle.chi_flit.specs.declared.credit.Profile.TheVariants.{Four};
ghost use Rattle.chi_flit.specs.Config.{Sizes, are_entries, are_in_limits, config_if, four_types, is_between, is_slice_count, row_in, sizes_if, sizes_of, two_types};

use crate::credit::Profile;
use crate::numbers::Line;
use std::alloc::AllocError;
use std::marker::Model;

/// The size of a node and its profile of credit types. Contracts see it as `Sizes`, which are always in
/// the limits.
/// Source: `docs/PROTOCOL.md`, "Limits".
#[derive(PartialEq, Eq)]
pub struct Config {
    agents: u8,
    lines: u8,
    slices: u8,
    entries: [u16; 4],
    journal: u32,
    profile: Profile,
}

impl Model for Config {
    ghost use Rattle.std.specs.Prelude.{◌≡◌, true};
    ghost use Rattle.chi_flit.specs.Config.{Sizes, are_in_limits, sizes_of};

    ghost Value = { Sizes };

    ghost view = { λ c. sizes_of c.agents c.lines c.slices c.entries c.journal c.profile };

    ghost invariant = { λ c. are_in_limits (sizes_of c.agents c.lines c.slices c.entries c.journal c.profile) ≡ true };

    ghost inverse = { λ c. record { agents = c.agents; lines = c.lines; slices = c.slices; entries = c.entries; journal = c.journal; profile = c.profile } };
}

impl Clone for Config {
    ghost is_clone = { λ config copy. copy ≡ config };

    ghost is_infallible = { λ _. ⊤ };

    fn clone(&self) -> Result<Self, AllocError> {
        Ok(*self)
    }
}

impl Copy for Config {}

/// Whether a number is in a range, both ends in it.
fn is_between(low: u32, high: u32, n: u32) -> bool
    ensures { result ≡ is_between low high n }
{
    low <= n && n <= high
}

/// Whether there may be so many slices.
fn is_slice_count(n: u8) -> bool
    ensures { result ≡ is_slice_count n }
{
    n == 1 || n == 2 || n == 4 || n == 8
}

/// Whether all but the entries and the journal is in the limits.
fn are_counts(agents: u8, lines: u8, slices: u8) -> bool
    ensures { result
        ≡ (is_between 1 8 agents &&
        (is_between 1 64 lines && (is_slice_count slices && nat_le slices lines))) }
{
    is_between(1, 8, u32::from(agents))
        && is_between(1, 64, u32::from(lines))
        && is_slice_count(slices)
        && slices <= lines
}

/// Whether there may be so many entries of two types.
fn are_two_entries(t0: u16, t1: u16) -> bool
    ensures { result ≡ (nat_le 1 t0 && (nat_le 1 t1 && nat_le (t0 + t1) 64)) }
{
    1 <= t0 && 1 <= t1 && u32::from(t0) + u32::from(t1) <= 64
}

/// Whether there may be so many entries of four types.
fn are_four_entries(entries: [u16; 4]) -> bool
    ensures { result ≡ are_entries Four entries }
{
    let [t0, t1, t2, t3] = entries;
    let sum = u32::from(t0) + (u32::from(t1) + (u32::from(t2) + u32::from(t3)));
    1 <= t0 && 1 <= t1 && 1 <= t2 && 1 <= t3 && sum <= 256
}

/// Whether there may be so many entries of the profile's types, and none of the types that it lacks.
fn are_entries(profile: Profile, entries: [u16; 4]) -> bool
    ensures { result ≡ are_entries profile entries }
{
    match profile {
        Profile::Two => {
            let [t0, t1, t2, t3] = entries;
            are_two_entries(t0, t1) && t2 == 0 && t3 == 0
        }
        Profile::Four => are_four_entries(entries),
    }
}

impl Config {
    /// A node of two credit types, with `t0` and `t1` entries of them: `agents` requesters, `lines` lines
    /// in `slices` slices, and `journal` records a slice. `None` exactly where a number is outside its limits;
    /// a journal has 1 record or more.
    /// Source: `docs/PROTOCOL.md`, "Limits".
    pub fn new(agents: u8, lines: u8, slices: u8, t0: u16, t1: u16, journal: u32) -> Option<Config>
        ensures { result ≡ config_if (two_types agents lines slices t0 t1 journal) }
    {
        let recorded = is_between(1, 65536, journal);
        if !recorded || !are_counts(agents, lines, slices) || !are_two_entries(t0, t1) {
            return None;
        }
        Some(Config {
            agents,
            lines,
            slices,
            entries: [t0, t1, 0, 0],
            journal,
            profile: Profile::Two,
        })
    }

    /// A node of four credit types, with so many entries of each: `agents` requesters, `lines` lines in
    /// `slices` slices, and `journal` records a slice. `None` exactly where a number is outside its limits; a
    /// journal has 1 record or more.
    /// Source: `docs/PROTOCOL.md`, "Limits".
    pub fn four(
        agents: u8,
        lines: u8,
        slices: u8,
        entries: [u16; 4],
        journal: u32,
    ) -> Option<Config>
        ensures { result ≡ config_if (four_types agents lines slices entries journal) }
    {
        let recorded = is_between(1, 65536, journal);
        if !recorded || !are_counts(agents, lines, slices) || !are_four_entries(entries) {
            return None;
        }
        Some(Config {
            agents,
            lines,
            slices,
            entries,
            journal,
            profile: Profile::Four,
        })
    }

    /// A node of this profile whose journals keep no records, and have no end: with so many entries of each
    /// type, `agents` requesters, and `lines` lines in `slices` slices. `None` exactly where a number is outside
    /// its limits; a type that the profile lacks has no entries.
    /// Source: `docs/PROTOCOL.md`, "Limits" and "The journal and last values".
    pub fn without_records(
        agents: u8,
        lines: u8,
        slices: u8,
        profile: Profile,
        entries: [u16; 4],
    ) -> Option<Config>
        ensures { result ≡ sizes_if (sizes_of agents lines slices entries 0 profile) }
    {
        if !are_counts(agents, lines, slices) || !are_entries(profile, entries) {
            return None;
        }
        Some(Config {
            agents,
            lines,
            slices,
            entries,
            journal: 0,
            profile,
        })
    }

    /// The number of requesters, 1 to 8.
    /// Source: `docs/PROTOCOL.md`, "Limits".
    pub fn agents(&self) -> u8
        ensures value { result ≡ self.now.agents }
        ensures limits { are_in_limits self.now ≡ true }
    {
        self.agents
    }

    /// The number of lines, 1 to 64.
    /// Source: `docs/PROTOCOL.md`, "Limits".
    pub fn lines(&self) -> u8
        ensures value { result ≡ self.now.lines }
        ensures limits { are_in_limits self.now ≡ true }
    {
        self.lines
    }

    /// The number of slices, 1, 2, 4 or 8: line `l` is in slice `l mod slices`.
    /// Source: `docs/PROTOCOL.md`, "Limits".
    pub fn slices(&self) -> u8
        ensures value { result ≡ self.now.slices }
        ensures limits { are_in_limits self.now ≡ true }
    {
        self.slices
    }

    /// The slice that a line is in, and its row there: `line mod slices` and `line / slices`, with no
    /// division.
    fn split(&self, line: u8) -> (u8, u8)
        ensures slice { result.0 ≡ line % self.now.slices }
        ensures row { result.1 ≡ line / self.now.slices }
        ensures limits { are_in_limits self.now ≡ true }
    {
        match self.slices {
            1 => (0, line),
            2 => (line % 2, line / 2),
            4 => (line % 4, line / 4),
            _ => (line % 8, line / 8),
        }
    }

    /// The index of the slice that a line is in: `line mod slices`, with no division. A line outside the
    /// node has such an index too, and nothing is refused.
    /// Source: `docs/PROTOCOL.md`, "Limits".
    pub fn slice_of(&self, line: Line) -> u8
        ensures value { result ≡ line.0 % self.now.slices }
        ensures limits { are_in_limits self.now ≡ true }
    {
        self.split(line.0).0
    }

    /// The row of a line in the slice of this index, counted from 0: `line / slices`, with no division. `None`
    /// exactly where the line is outside the node or in another slice.
    /// Source: `docs/PROTOCOL.md`, "Limits".
    pub fn row_in(&self, index: u8, line: u8) -> Option<u8>
        ensures { result ≡ row_in self.now index line }
    {
        let (slice, row) = self.split(line);
        if line < self.lines && slice == index {
            Some(row)
        } else {
            None
        }
    }

    /// The number of tracker entries of each credit type, by the type's number: 0 for a type that the
    /// profile lacks.
    /// Source: `docs/PROTOCOL.md`, "Limits".
    pub fn entries(&self) -> [u16; 4]
        ensures value { result ≡ self.now.entries }
        ensures limits { are_in_limits self.now ≡ true }
    {
        self.entries
    }

    /// The number of records that the journal of a slice may have, up to 65,536; 0 where it keeps none, and has
    /// no end.
    /// Source: `docs/PROTOCOL.md`, "Limits".
    pub fn journal(&self) -> u32
        ensures value { result ≡ self.now.journal }
        ensures limits { are_in_limits self.now ≡ true }
    {
        self.journal
    }

    /// Which kinds share a credit type.
    /// Source: `docs/PROTOCOL.md`, "Kinds of request".
    pub fn profile(&self) -> Profile
        ensures { result ≡ self.now.profile }
    {
        self.profile
    }
}
