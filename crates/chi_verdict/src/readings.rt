//! A trace, resolved as it is read: no flit is kept but in what it resolves to.

ghost use Rattle.std.specs.Prelude.{◌≡◌, ◌≤◌, ◌+◌, IfOk, OnOk, length};
ghost use Rattle.chi_script.specs.Files.{lines_of};
ghost use Rattle.chi_trace.specs.Faults.{TraceGives};
ghost use Rattle.chi_resolution.specs.Resolution.{resolved_more};
ghost use Rattle.chi_verdict.specs.Counts.{counted, is_access};
ghost use Rattle.chi_verdict.specs.Readings.{IsReadAs, IsReadingOf, last_read, lines_read, nothing_read, read_line, read_more};
ghost use Rattle.chi_verdict.specs.Traces.{trace_from, trace_in};

use crate::traces::{cut_at, line_flit};
use chi_flit::NoMemory;
use chi_resolution::{IdFault, Options, Resolution, Resolver};
use chi_script::first_line;
use chi_trace::{Flit, MOST_BYTES, Seen, TraceFault};
use std::alloc::Allocator;
use std::marker::Model;

/// How many flits, loads and stores a trace has.
#[derive(Clone, Copy)]
pub(crate) struct Counts {
    pub all: usize,
    /// Those that are no loads and stores.
    pub flits: usize,
    pub accesses: usize,
    /// The number of a last line that isn't read, as no line end follows it.
    pub cut: Option<usize>,
}

/// A trace that was read.
#[derive(Drop)]
pub(crate) struct Reading<A: Allocator> {
    pub counts: Counts,
    pub resolution: Resolution<A>,
}

/// A trace as far as it was read.
#[derive(Drop)]
struct Reader<A: Allocator> {
    counts: Counts,
    resolver: Resolver<A>,
    /// The first flit that isn't allowed: none behind it is resolved.
    fault: Option<IdFault>,
}

impl<A: Allocator> Model for Reader<A> {
    ghost use Rattle.chi_verdict.specs.Readings.{ReadSoFar};

    ghost Value = { ReadSoFar };

    ghost view = { λ s.
        record { counts = s.counts; outcome = record { progress = s.resolver; fault = s.fault } } };
}

/// Whether it is a load or a store, and no flit.
pub(crate) fn is_access(flit: &Flit) -> bool
    ensures { result ≡ is_access flit.now }
{
    matches!(*flit, Flit::Load { .. } | Flit::Store { .. })
}

/// One more; `NoMemory` where the number would pass 2^64, and no file has so many lines.
fn one_more(count: usize) -> Result<usize, NoMemory>
    ensures { IfOk result (λ more. more ≡ count + 1) }
{
    count.checked_add(1).ok_or(NoMemory)
}

impl Counts {
    /// With one flit, load or store more.
    fn with(self, flit: &Flit) -> Result<Counts, NoMemory>
        ensures { IfOk result (λ counts. counts ≡ counted flit.now self) }
    {
        let all = one_more(self.all)?;
        if is_access(flit) {
            let accesses = one_more(self.accesses)?;
            return Ok(Counts {
                all,
                flits: self.flits,
                accesses,
                cut: self.cut,
            });
        }
        let flits = one_more(self.flits)?;
        Ok(Counts {
            all,
            flits,
            accesses: self.accesses,
            cut: self.cut,
        })
    }
}

impl<A: Allocator + Copy> Reader<A> {
    /// Nothing was read yet.
    fn new(alloc: A) -> Result<Reader<A>, NoMemory>
        ensures { IfOk result (λ reader. reader ≡ nothing_read) }
    {
        let resolver = Resolver::new(alloc, 0)?;
        Ok(Reader {
            counts: Counts {
                all: 0,
                flits: 0,
                accesses: 0,
                cut: None,
            },
            resolver,
            fault: None,
        })
    }
}

impl<A: Allocator> Reader<A> {
    /// Resolves the next flit, if none before it is at fault.
    fn resolve(&mut self, options: Options, seen: &Seen) -> Result<(), NoMemory>
        ensures { OnOk result (self.new ≡ record self.old {
          outcome = resolved_more options self.old.counts.all self.old.outcome seen.now;
        }) }
    {
        if self.fault.is_some() {
            return Ok(());
        }
        let at = self.counts.all;
        if let Some(reason) = self.resolver.take(options, at, seen)? {
            self.fault = Some(IdFault { at, reason });
        }
        Ok(())
    }

    /// Takes the next flit.
    fn take(&mut self, options: Options, seen: &Seen) -> Result<(), NoMemory>
        ensures { OnOk result (self.new ≡ read_more options self.old seen.now) }
    {
        self.resolve(options, seen)?;
        self.counts = self.counts.with(&seen.flit)?;
        Ok(())
    }

    /// Takes what a line is, which has this number.
    fn take_line(&mut self, options: Options, line: &[u8], number: usize) -> Result<(), TraceFault>
        ensures { TraceGives (λ _. self.new) result
            (read_line options number line.now self.old) }
    {
        if let Some(seen) = line_flit(line, number)? {
            if self.take(options, &seen).is_err() {
                return Err(TraceFault::NoMemory);
            }
        }
        Ok(())
    }

    /// Takes what stands behind the last line end, which would be the line of this number.
    fn take_end(&mut self, last: &[u8], number: usize) -> Result<(), TraceFault>
        ensures { TraceGives (λ _. self.new) result (last_read number last.now self.old) }
    {
        self.counts.cut = cut_at(last, number)?;
        Ok(())
    }
}

impl<A: Allocator + Copy> Reader<A> {
    /// What was read.
    fn ended(self, alloc: A) -> Result<Reading<A>, NoMemory>
        ensures { IfOk result (IsReadingOf self) }
    {
        let counts = self.counts;
        let resolution = self.resolver.ended(alloc, self.fault)?;
        Ok(Reading { counts, resolution })
    }
}

/// Takes all lines.
fn read_lines<A: Allocator + Copy>(
    alloc: A,
    bytes: &[u8],
    options: Options,
) -> Result<Reader<A>, TraceFault>
    requires { length bytes.now ≤ 67108864 }
    ensures { TraceGives (λ reader. reader) result
        (lines_read options 1 (lines_of bytes.now) nothing_read) }
{
    let Ok(mut reader) = Reader::new(alloc) else {
        return Err(TraceFault::NoMemory);
    };
    let mut rest = bytes;
    let mut number = 1;
    while let Some((line, after)) = first_line(rest) {
        reader.take_line(options, line, number)?;
        rest = after;
        number += 1;
    }
    reader.take_end(rest, number)?;
    Ok(reader)
}

/// The trace that these lines are.
fn resolved_lines<A: Allocator + Copy>(
    alloc: A,
    bytes: &[u8],
    options: Options,
) -> Result<Reading<A>, TraceFault>
    requires { length bytes.now ≤ 67108864 }
    ensures { IsReadAs options result (trace_from 1 (lines_of bytes.now)) }
{
    let reader = read_lines(alloc, bytes, options)?;
    match reader.ended(alloc) {
        Ok(reading) => Ok(reading),
        Err(_) => Err(TraceFault::NoMemory),
    }
}

/// The trace that a file of these bytes is, resolved as it is read. The whole file is read: where a flit isn't allowed by
/// the ids or the ledger, those behind it are counted. A last line that no line end follows isn't read, and its number is
/// kept.
///
/// `TooLarge` where the file has more than `MOST_BYTES` bytes, before all else. Otherwise the first faulty line is told:
/// `Gzip`, `LongLine`, `FewWords` or `BadWord`; a last line that no line end follows can be faulty by its bytes alone.
#[tactic(auto, unfolding(crate::specs::Traces::trace_in))]
pub(crate) fn read_resolved<A: Allocator + Copy>(
    alloc: A,
    bytes: &[u8],
    options: Options,
) -> Result<Reading<A>, TraceFault>
    ensures { IsReadAs options result (trace_in bytes.now) }
{
    if bytes.len() > MOST_BYTES {
        return Err(TraceFault::TooLarge);
    }
    resolved_lines(alloc, bytes, options)
}
