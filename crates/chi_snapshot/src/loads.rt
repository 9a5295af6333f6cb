//! A slice out of bytes.

ghost use Rattle.std.specs.Prelude.{◌≡◌, ◌↔◌, IfErr, IfOk, IsTrue, OnOk};
ghost use Rattle.chi_snapshot.specs.Faults.{HasFront, IsAtFront, IsFaultOf, IsBehindFront, front_bytes};
ghost use Rattle.chi_snapshot.specs.Snapshot.{is_sealed, saved};

use crate::faults::LoadFault;
use crate::read::Read;
use crate::read_journals::read_journal;
use crate::read_lines::read_line;
use crate::saves::{HEAD, digest, save};
use crate::written::Written;
use chi_flit::{Config, NoMemory};
use chi_line::CoherentLine;
use chi_slice::Slice;
use std::alloc::Allocator;

/// How many bytes are the digest.
const DIGEST: usize = 32;

/// What the bytes of a slice of this size and index begin with.
fn front<A: Allocator>(alloc: A, config: &Config, index: u8) -> Result<Vec<u8, A>, NoMemory>
    ensures { IfOk result (λ front. front.items ≡ front_bytes config.now index) }
{
    let mut front = Vec::new(alloc);
    front.extend_from_slice(&HEAD)?;
    config.write(&mut front)?;
    index.write(&mut front)?;
    Ok(front)
}

/// Whether bytes begin with these.
fn has_front(bytes: &[u8], front: &[u8]) -> bool
    ensures { IsTrue result ↔ HasFront front.now bytes.now }
{
    bytes.starts_with(front)
}

/// Whether the last bytes are the digest of those before.
fn is_sealed(bytes: &[u8]) -> bool
    ensures { result ≡ is_sealed bytes.now }
{
    if bytes.len() < DIGEST {
        return false;
    }
    let (plain, given) = bytes.split_at(bytes.len() - DIGEST);
    given == digest(plain).as_slice()
}

/// Where the lines begin in the bytes of a slice of this size and index.
///
/// Refused where the bytes are not such ones.
fn lines_from<A: Allocator>(
    alloc: A,
    config: &Config,
    index: u8,
    bytes: &[u8],
) -> Result<usize, LoadFault>
    ensures front { OnOk result (IsAtFront config.now index bytes.now) }
    ensures fault { IfErr result (λ fault. IsFaultOf config.now index bytes.now fault) }
{
    if !has_front(bytes, &HEAD[..4]) {
        return Err(LoadFault::Damaged);
    }
    if !has_front(bytes, &HEAD) {
        return Err(LoadFault::OtherVersion);
    }
    if !is_sealed(bytes) {
        return Err(LoadFault::Damaged);
    }
    let front = front(alloc, config, index)?;
    if !has_front(bytes, &front) {
        return Err(LoadFault::OtherSize);
    }
    Ok(front.len())
}

/// Reads the lines of a slice. Answers where the journal begins besides.
fn read_lines<A: Allocator>(
    alloc: A,
    bytes: &[u8],
    at: usize,
) -> Result<(Vec<CoherentLine, A>, usize), LoadFault>
    ensures { IfErr result (λ fault. IsBehindFront fault) }
{
    let (count, first) = u64::read(bytes, at).ok_or(LoadFault::Damaged)?;
    let mut lines = Vec::new(alloc);
    let mut next = first;
    for _ in 0..count {
        let (line, at) = read_line(bytes, next).ok_or(LoadFault::Damaged)?;
        lines.push(line).map_err(NoMemory::from)?;
        next = at;
    }
    Ok((lines, next))
}

/// The slice that the bytes stand for, as far as it can be read.
fn guessed<A: Allocator + Copy>(
    alloc: A,
    config: &Config,
    index: u8,
    bytes: &[u8],
) -> Result<Slice<A>, LoadFault>
    ensures config { IfOk result (λ slice. slice.config ≡ config.now) }
    ensures index { IfOk result (λ slice. slice.index ≡ index) }
    ensures front { OnOk result (IsAtFront config.now index bytes.now) }
    ensures fault { IfErr result (λ fault. IsFaultOf config.now index bytes.now fault) }
{
    let at = lines_from(alloc, config, index, bytes)?;
    let (lines, at) = read_lines(alloc, bytes, at)?;
    let journal = read_journal(alloc, config, bytes, at)?;
    Slice::of_parts(config, index, lines, journal).ok_or(LoadFault::Damaged)
}

/// The slice of this size and index whose bytes these are: what it does from now on is what the slice that was
/// saved does. All memory that it ever needs is found here.
///
/// Refused `OtherVersion` where the bytes begin with "CHIS" and not with this version's head, `OtherSize` where they have
/// the head and their digest, and don't begin as those of this size and index do, `Damaged` where they are of no such
/// slice otherwise, and `NoMemory` where memory runs out.
/// Source: `docs/SNAPSHOTS.md`.
pub fn load<A: Allocator + Copy>(
    alloc: A,
    config: &Config,
    index: u8,
    bytes: &[u8],
) -> Result<Slice<A>, LoadFault>
    ensures same { IfOk result (λ slice. bytes.now ≡ saved slice) }
    ensures config { IfOk result (λ slice. slice.config ≡ config.now) }
    ensures index { IfOk result (λ slice. slice.index ≡ index) }
    ensures fault { IfErr result (λ fault. IsFaultOf config.now index bytes.now fault) }
{
    let slice = guessed(alloc, config, index, bytes)?;
    let again = save(&slice, alloc)?;
    if bytes == again.as_slice() {
        Ok(slice)
    } else {
        Err(LoadFault::Damaged)
    }
}
