//! A slice as bytes.

ghost use Rattle.std.specs.Prelude.{◌≡◌, ◌++◌, ℕ, OnOk, IfOk};
ghost use Rattle.sha2.specs.Sha256.{sha256};
ghost use Rattle.chi_flit.specs.Config.{Sizes};
ghost use Rattle.chi_snapshot.specs.Bytes.{one_byte};
ghost use Rattle.chi_snapshot.specs.Snapshot.{head_bytes, plain_bytes, profile_byte, saved, sealed, sizes_bytes};

use crate::journals::write_journal;
use crate::written::{Written, write_list, write_long_list};
use chi_flit::{Config, NoMemory, Profile};
use chi_slice::Slice;
use sha2::{Digest, Sha256};
use std::alloc::Allocator;

/// What a snapshot begins with: a magic word, and the version of what follows.
pub(crate) const HEAD: [u8; 6] = [b'C', b'H', b'I', b'S', 1, 0];

impl Written for Profile {
    ghost use Rattle.chi_flit.specs.declared.credit.Profile.{Profile};

    ghost bytes = { λ (profile : Profile). one_byte (profile_byte profile) };

    fn write<A: Allocator>(&self, out: &mut Vec<u8, A>) -> Result<(), NoMemory> {
        let number: u8 = match self {
            Profile::Two => 0,
            Profile::Four => 1,
        };
        number.write(out)
    }
}

impl Written for Config {
    ghost bytes = { sizes_bytes };

    #[tactic(auto, unfolding(crate::specs::Snapshot::sizes_bytes))]
    fn write<A: Allocator>(&self, out: &mut Vec<u8, A>) -> Result<(), NoMemory> {
        self.agents().write(out)?;
        self.lines().write(out)?;
        self.slices().write(out)?;
        write_list(&self.entries(), out)?;
        self.journal().write(out)?;
        self.profile().write(out)
    }
}

/// Writes all of a slice but the digest.
#[tactic(auto, unfolding(crate::specs::Snapshot::plain_bytes))]
fn write_plain<A: Allocator, B: Allocator>(
    slice: &Slice<A>,
    out: &mut Vec<u8, B>,
) -> Result<(), NoMemory>
    ensures { OnOk result (out.new.items ≡ out.old.items ++ plain_bytes slice.now) }
{
    out.extend_from_slice(&HEAD)?;
    slice.config().write(out)?;
    slice.index().write(out)?;
    write_long_list(slice.lines(), out)?;
    write_journal(slice.journal(), out)
}

/// The digest of bytes.
pub(crate) fn digest(bytes: &[u8]) -> [u8; 32]
    ensures { result ≡ sha256 bytes.now }
{
    Sha256::digest(bytes)
}

/// Puts the digest of bytes behind them.
fn seal<B: Allocator>(out: &mut Vec<u8, B>) -> Result<(), NoMemory>
    ensures { OnOk result (out.new.items ≡ sealed out.old.items) }
{
    let digest = digest(out);
    out.extend_from_slice(&digest)?;
    Ok(())
}

/// The bytes of a slice: no other slice has them, and `load` makes this one of them again. The slice stays.
///
/// Refused where memory runs out.
/// Source: `docs/SNAPSHOTS.md`.
pub fn save<A: Allocator, B: Allocator>(slice: &Slice<A>, alloc: B) -> Result<Vec<u8, B>, NoMemory>
    ensures { IfOk result (λ bytes. bytes.items ≡ saved slice.now) }
{
    let mut bytes = Vec::new(alloc);
    write_plain(slice, &mut bytes)?;
    seal(&mut bytes)?;
    Ok(bytes)
}
