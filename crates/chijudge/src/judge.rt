//! A trace, judged line by line.

ghost use Rattle.std.specs.Prelude.{◌≤◌, length};

use chi_flit::WordNo;
use chi_issue_b::{Beat, CacheLine, Flit};
use chi_log::{Access, Malformed, Options, Seen, cut_fault, read_line_among};
use chi_observer::{Act, Word};
use chi_transactions::{Portion, Taken};
use chi_watch::{Drained, LineFault, LineReason, Settings, Watch, WatchStop};
use std::alloc::Allocator;

/// What a trace is not accepted for.
#[derive(Clone, Copy, Debug, PartialEq, Eq)]
pub(crate) enum FaultReason {
    /// Ids or credits don't allow the flit.
    Ids(chi_transactions::Reason),
    /// Its cache line doesn't.
    Line(LineReason),
}

/// Why a trace isn't judged any further.
#[derive(Clone, Copy, Debug, PartialEq, Eq)]
pub(crate) enum Stop {
    /// The line of this number is none of a trace.
    Malformed { number: u64, why: Malformed },
    /// The flit, load or store of the line of this number is a fault.
    Fault { number: u64, reason: FaultReason },
    /// Memory ran out.
    NoMemory,
    /// The file can't be read.
    Unread,
}

/// How much of a trace was judged.
#[derive(Clone, Copy, Debug, PartialEq, Eq)]
pub(crate) struct Counts {
    /// The flits.
    pub flits: u64,
    /// Those that are a later beat of data: these are counted once, by their first beat.
    pub later_beats: u64,
    /// The flits that were judged.
    pub judged: u64,
    /// The loads and stores.
    pub accesses: u64,
    /// Those that were judged.
    pub judged_accesses: u64,
}

impl Counts {
    /// Of nothing.
    const NONE: Counts = Counts {
        flits: 0,
        later_beats: 0,
        judged: 0,
        accesses: 0,
        judged_accesses: 0,
    };

    /// How many flits weren't judged, those included that wait for words of data.
    pub(crate) fn unjudged(&self) -> u64 {
        self.flits
            .saturating_sub(self.later_beats)
            .saturating_sub(self.judged)
    }

    /// How many loads and stores weren't.
    pub(crate) fn unjudged_accesses(&self) -> u64 {
        self.accesses.saturating_sub(self.judged_accesses)
    }

    /// Counts what a line has judged.
    fn count_done(&mut self, done: &Drained) {
        self.judged = self.judged.saturating_add(done.flits.judged as u64);
        self.judged_accesses = self
            .judged_accesses
            .saturating_add(done.accesses.judged as u64);
    }

    /// Counts a flit that ids and credits allow.
    fn count_taken(&mut self, taken: &Taken) {
        match taken {
            Taken::Credit => self.judged = self.judged.saturating_add(1),
            Taken::Of(named) if is_later(named.beat) => {
                self.later_beats = self.later_beats.saturating_add(1);
            }
            _ => {}
        }
    }
}

/// Whether a beat isn't the first of its data.
fn is_later(beat: Portion) -> bool {
    matches!(beat, Portion::Further | Portion::Last)
}

/// A fault of a line, if there is one.
fn fault_of(fault: Option<LineFault>) -> Result<(), Stop> {
    match fault {
        Some(fault) => Err(Stop::Fault {
            number: fault.number,
            reason: FaultReason::Line(fault.reason),
        }),
        None => Ok(()),
    }
}

/// What a processor did, to a line's rules.
fn act_of(access: &Access) -> Act {
    let word = Word {
        place: WordNo((access.address / 8 % 8) as u8),
        value: access.word,
    };
    if access.is_store {
        Act::Store(word)
    } else {
        Act::Load(word)
    }
}

/// A trace, as far as it was judged.
#[derive(Drop)]
pub(crate) struct Judging<A: Allocator> {
    watch: Watch<A>,
    reading: Options,
    pub counts: Counts,
    /// The number of the next line.
    number: u64,
}

impl<A: Allocator + Copy> Judging<A> {
    /// Before the first line.
    pub(crate) fn new(alloc: A, settings: Settings, reading: Options) -> Judging<A> {
        Judging {
            watch: Watch::new(alloc, settings),
            reading,
            counts: Counts::NONE,
            number: 1,
        }
    }

    /// Judges the next line, which the first `size` of the bytes are.
    pub(crate) fn take_line(&mut self, bytes: &[u8], size: usize) -> Result<(), Stop>
        requires { size ≤ length bytes.now }
    {
        let number = self.number;
        let mut beat = Beat::NONE;
        match read_line_among(bytes, size, self.reading, &mut beat) {
            Ok(Some(seen)) => self.take_seen(&seen, &beat, number)?,
            Ok(None) => {}
            Err(why) => return Err(Stop::Malformed { number, why }),
        }
        self.number = number.saturating_add(1);
        Ok(())
    }

    /// Judges what a line is.
    fn take_seen(&mut self, seen: &Seen, beat: &Beat, number: u64) -> Result<(), Stop> {
        match seen {
            Seen::Flit(flit) => self.take_flit(flit, beat, number),
            Seen::Own(_) => {
                self.counts.flits = self.counts.flits.saturating_add(1);
                Ok(())
            }
            Seen::Access(access) => self.take_access(access, number),
        }
    }

    /// Judges a flit.
    fn take_flit(&mut self, flit: &Flit, beat: &Beat, number: u64) -> Result<(), Stop> {
        self.counts.flits = self.counts.flits.saturating_add(1);
        match self.watch.take(flit, beat, number) {
            Ok(watched) => {
                self.counts.count_taken(&watched.taken);
                self.counts.count_done(&watched.done);
                fault_of(watched.done.fault)
            }
            Err(WatchStop::Ids(reason)) => Err(Stop::Fault {
                number,
                reason: FaultReason::Ids(reason),
            }),
            Err(WatchStop::NoMemory) => Err(Stop::NoMemory),
        }
    }

    /// Judges a load or a store.
    fn take_access(&mut self, access: &Access, number: u64) -> Result<(), Stop> {
        self.counts.accesses = self.counts.accesses.saturating_add(1);
        let line = CacheLine::at(access.address);
        match self
            .watch
            .access(access.source, line, act_of(access), number)
        {
            Ok(done) => {
                self.counts.count_done(&done);
                fault_of(done.fault)
            }
            Err(_) => Err(Stop::NoMemory),
        }
    }

    /// Takes the bytes behind the last line end: they may begin a line that is none of a trace, whatever follows.
    pub(crate) fn take_rest(&self, rest: &[u8]) -> Result<(), Stop> {
        match cut_fault(rest) {
            Some(why) => Err(Stop::Malformed {
                number: self.number,
                why,
            }),
            None => Ok(()),
        }
    }
}
