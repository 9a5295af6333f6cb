//! A trace that is read in pieces of any size.

ghost use Rattle.std.specs.Prelude.{◌≡◌, ◌+◌, ◌^◌, ◌<◌, IfErr, IfSome, OnOk, []};
ghost use Rattle.chi_script.specs.Devices.{CountsFault};
ghost use Rattle.chi_observe.specs.Streams.{AreLinesTaken, IsInputWatched, IsEndTaken, IsOverlong, IsPieceTaken, IsSeenTaken, IsTextTaken};
ghost use Rattle.chi_observe.specs.Watched.{watched};

use crate::events::Event;
use crate::progress::Progress;
use crate::recent::Recent;
use crate::seen::event_of;
use crate::watch::{Watch, WatchFault, WatchStop};
use chi_ids::CacheLine;
use chi_script::{Failed, Fault, Input, first_line};
use chi_trace::{AnySeen, MOST_LINE_BYTES, TraceFault, TraceForm, any_flit_in};
use std::alloc::{AllocError, Allocator};

/// Why a trace isn't accepted.
/// Source: `docs/OBSERVER.md`, "A trace of many lines".
#[derive(Clone, Copy, Debug, PartialEq, Eq)]
pub enum TraceStop {
    /// This line is none of a trace.
    Malformed(TraceFault),
    /// The flit of the line with this number isn't taken.
    Untaken(usize),
}

/// Why a line of a trace didn't go on.
#[derive(Clone, Copy, Debug, PartialEq, Eq)]
pub enum TextStop {
    /// It is none.
    Malformed(TraceFault),
    /// Its flit isn't taken, for this reason.
    Untaken(AnySeen, WatchFault),
    /// Memory ran out.
    NoMemory,
}

/// What is held of a trace whose lines were taken so far.
#[derive(Drop)]
pub(crate) struct Stream<A: Allocator> {
    /// The bytes behind the last line end.
    pub held: Vec<u8, A>,
    /// Room for the bytes that are held next.
    pub spare: Vec<u8, A>,
    /// The number of the next line.
    pub number: usize,
}

/// The bytes behind the last line end, and the number of the line that they begin.
#[derive(Clone, Copy)]
pub(crate) struct Left<'a> {
    pub rest: &'a [u8],
    pub number: usize,
}

/// What a report is to tell besides.
#[derive(Drop)]
pub(crate) struct Notes<A: Allocator> {
    /// The bytes of the line that is none, without its line end.
    pub wrong: Vec<u8, A>,
    /// The flits of each line of memory that were taken last.
    pub recent: Recent<A>,
}

impl<A: Allocator + Copy> Notes<A> {
    /// Nothing is noted; so many flits are to be kept of a line.
    pub(crate) fn new(alloc: A, most: usize) -> Notes<A> {
        Notes {
            wrong: Vec::new(alloc),
            recent: Recent::new(alloc, most),
        }
    }

    /// The line of a flit, where flits are to be kept.
    fn line_of(&self, watch: &Watch<A>, event: &Event) -> Option<CacheLine> {
        if self.recent.most == 0 {
            return None;
        }
        watch.place_of(event)
    }

    /// Keeps a flit of the line, if it is known.
    fn keep(&mut self, line: Option<CacheLine>, seen: &AnySeen) -> Result<(), AllocError> {
        match line {
            Some(line) => self.recent.keep(line, *seen),
            None => Ok(()),
        }
    }
}

impl From<AllocError> for TextStop {
    ghost use Rattle.chi_observe.specs.declared.stream.TextStop.TheVariants.{NoMemory};

    ghost from_gives = { λ _ stop. stop ≡ NoMemory };

    fn from(_lack: AllocError) -> TextStop {
        TextStop::NoMemory
    }
}

/// Takes a line, which is given without its line end and has this number. Of a line that is none the bytes are noted.
fn take_text<A: Allocator + Copy>(
    watch: &mut Watch<A>,
    notes: &mut Notes<A>,
    line: &[u8],
    number: usize,
) -> Result<(), TextStop>
    ensures { IsTextTaken (watched watch.old) (watched watch.new) number line.now result }
{
    match &any_flit_in(watch.options.form, line, number) {
        Ok(Some(seen)) => take_seen(watch, notes, seen),
        Ok(None) => Ok(()),
        Err(fault) => {
            notes.wrong.extend_from_slice(line)?;
            Err(TextStop::Malformed(*fault))
        }
    }
}

/// Takes a flit.
fn take_seen<A: Allocator + Copy>(
    watch: &mut Watch<A>,
    notes: &mut Notes<A>,
    seen: &AnySeen,
) -> Result<(), TextStop>
    ensures { IsSeenTaken (watched watch.old) (watched watch.new) seen.now result }
{
    let event = event_of(seen);
    let line = notes.line_of(watch, &event);
    match watch.take(&event) {
        Ok(()) => Ok(notes.keep(line, seen)?),
        Err(WatchStop::Fault(fault)) => Err(TextStop::Untaken(*seen, fault)),
        Err(WatchStop::NoMemory) => Err(TextStop::NoMemory),
    }
}

/// Takes the lines of these bytes that a line end closes, whatever follows them.
fn take_lines<'a, A: Allocator + Copy>(
    watch: &mut Watch<A>,
    notes: &mut Notes<A>,
    bytes: &'a [u8],
    number: usize,
) -> Result<Left<'a>, TextStop>
    ensures { AreLinesTaken (watched watch.old) (watched watch.new) number bytes.entry.now result }
{
    let mut rest = bytes;
    let mut number = number;
    while let Some((line, after)) = first_line(rest) {
        if let Err(stop) = take_text(watch, notes, line, number) {
            return Err(stop);
        }
        rest = after;
        number = match number.checked_add(1) {
            Some(next) => next,
            None => return Err(TextStop::NoMemory),
        };
    }
    Ok(Left { rest, number })
}

/// Takes such lines, where what is left isn't too long for a line.
fn take_short_lines<'a, A: Allocator + Copy>(
    watch: &mut Watch<A>,
    notes: &mut Notes<A>,
    bytes: &'a [u8],
    number: usize,
) -> Result<Left<'a>, TextStop>
    ensures { AreLinesTaken (watched watch.old) (watched watch.new) number bytes.entry.now result }
{
    match take_lines(watch, notes, bytes, number) {
        Ok(left) => match overlong(watch.options.form, left.rest, left.number) {
            Some(stop) => Err(stop),
            None => Ok(left),
        },
        Err(stop) => Err(stop),
    }
}

impl<A: Allocator + Copy> Stream<A> {
    /// A trace of which nothing was read.
    fn new(alloc: A) -> Stream<A>
        ensures held { result.held.items ≡ [] }
        ensures number { result.number ≡ 1 }
    {
        Stream {
            held: Vec::new(alloc),
            spare: Vec::new(alloc),
            number: 1,
        }
    }
}

/// Takes the next piece of a trace.
fn take_piece<A: Allocator + Copy>(
    watch: &mut Watch<A>,
    notes: &mut Notes<A>,
    stream: Stream<A>,
    piece: &[u8],
) -> Result<Stream<A>, TextStop>
    ensures { IsPieceTaken (watched watch.old) (watched watch.new) stream piece.now result }
{
    let Stream {
        mut held,
        mut spare,
        number,
    } = stream;
    held.extend_from_slice(piece)?;
    let left = match take_short_lines(watch, notes, &held, number) {
        Ok(left) => left,
        Err(stop) => return Err(stop),
    };
    spare.clear();
    spare.extend_from_slice(left.rest)?;
    let number = left.number;
    Ok(Stream {
        held: spare,
        spare: held,
        number,
    })
}

/// What comes of a trace that has ended: a line that no line end follows isn't judged, and its number is kept.
fn end<A: Allocator>(watch: &mut Watch<A>, held: &[u8], number: usize) -> Option<TextStop>
    ensures { IsEndTaken (watched watch.old) (watched watch.new) held.now number result }
{
    if held.is_empty() {
        return None;
    }
    match any_flit_in(watch.options.form, held, number) {
        Err(TraceFault::Gzip) => Some(TextStop::Malformed(TraceFault::Gzip)),
        Err(TraceFault::LongLine(line)) => Some(TextStop::Malformed(TraceFault::LongLine(line))),
        _ => {
            watch.counts.cut = Some(number);
            None
        }
    }
}

/// What stops a trace within a line of which so much was read: that it is too long.
fn overlong(form: TraceForm, line: &[u8], number: usize) -> Option<TextStop>
    ensures { IfSome result (IsOverlong form number line.now) }
{
    if line.len() <= MOST_LINE_BYTES {
        return None;
    }
    match any_flit_in(form, line, number) {
        Ok(_) => None,
        Err(fault) => Some(TextStop::Malformed(fault)),
    }
}

/// How many bytes one read takes at most.
const PIECE: usize = 4_096;

/// Takes the lines of the trace that the input has, which is read in pieces: `None` where all are taken, else the first that
/// isn't. It is told after each piece how far it has come.
///
/// `Read` where the input failed, and its count of failures is one more then; `NoMemory` where memory ran out, and the
/// count stays then, as it does where the trace has ended.
pub(crate) fn watch_input<A: Allocator + Copy, I: Input, P: Progress>(
    alloc: A,
    input: &mut I,
    watch: &mut Watch<A>,
    notes: &mut Notes<A>,
    progress: &mut P,
) -> Result<Option<TextStop>, Fault>
    requires { I.failures input.old + 1 < 2 ^ 64 }
    ensures told { IsInputWatched (I.left input.old) (watched watch.old) (watched watch.new) result }
    ensures ok { OnOk result (I.failures input.new ≡ I.failures input.old) }
    ensures err { IfErr result (CountsFault (I.failures input.old) (I.failures input.new)) }
{
    let mut stream = Stream::new(alloc);
    let mut buffer = [0; PIECE];
    let mut bytes: u64 = 0;
    'pieces: for _ in 0..u64::MAX {
        let count = match input.read(&mut buffer) {
            Ok(0) => return Ok(end(watch, &stream.held, stream.number)),
            Ok(count) => count,
            Err(Failed) => return Err(Fault::Read),
        };
        bytes = bytes.saturating_add(count as u64);
        stream = match take_piece(watch, notes, stream, &buffer[..count]) {
            Ok(stream) => stream,
            Err(TextStop::NoMemory) => return Err(Fault::NoMemory),
            Err(stop) => return Ok(Some(stop)),
        };
        progress.tell(&watch.counts, bytes);
    }
    Err(Fault::NoMemory)
}
