//! The sizes of a node in C's words.

ghost use Rattle.std.specs.Prelude.{◌≡◌, ◌<◌, Some};
ghost use Rattle.chi_flit.specs.declared.credit.Profile.TheVariants.{Two};
ghost use Rattle.chi_library.specs.Sizes.{config_of, sizes_in};

use crate::numbers::profile_at;
use chi_flit::Profile;
use chi_slice::Config;

/// The sizes of a node: `ChiConfig` of `chihome.h`. In profile 0 the third and the fourth number of
/// entries are 0. A journal of 0 records keeps none.
/// Source: `docs/PROTOCOL.md`, "Limits".
#[repr(C)]
#[derive(Clone, Copy)]
pub struct ChiConfig {
    pub agents: u8,
    pub lines: u8,
    pub slices: u8,
    pub profile: u8,
    pub entries: [u16; 4],
    pub journal: u32,
}

/// The sizes of a node of two credit types, whose journals keep records.
fn two_types(sizes: &ChiConfig) -> Option<Config>
    requires { 0 < sizes.now.journal }
    ensures { result ≡ sizes_in sizes.now (Some Two) }
{
    let [t0, t1, t2, t3] = sizes.entries;
    if t2 != 0 || t3 != 0 {
        return None;
    }
    Config::new(
        sizes.agents,
        sizes.lines,
        sizes.slices,
        t0,
        t1,
        sizes.journal,
    )
}

/// The sizes that C's numbers name; `None` where one is outside its limits.
pub(crate) fn config_at(sizes: &ChiConfig) -> Option<Config>
    ensures { result ≡ config_of sizes.now }
{
    let profile = profile_at(sizes.profile)?;
    if sizes.journal == 0 {
        return Config::without_records(
            sizes.agents,
            sizes.lines,
            sizes.slices,
            profile,
            sizes.entries,
        );
    }
    match profile {
        Profile::Two => two_types(sizes),
        Profile::Four => Config::four(
            sizes.agents,
            sizes.lines,
            sizes.slices,
            sizes.entries,
            sizes.journal,
        ),
    }
}
