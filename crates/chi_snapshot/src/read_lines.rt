//! Lines out of bytes: what the requesters and the home keep of one.

use crate::read::{Read, read_list};
use crate::read_flits::read_words;
use chi_filter::Filter;
use chi_flit::{Agent, Kind, Slot, State};
use chi_homeline::{HomeLine, Serving, Waiting};
use chi_line::CoherentLine;
use chi_rnline::{Pending, Phase, RnLine};
use chi_wires::{Cells, Wires};

impl Read for Phase {
    fn read(bytes: &[u8], at: usize) -> Option<(Phase, usize)> {
        let (number, at) = u8::read(bytes, at)?;
        let phase = match number {
            0 => Phase::Sent,
            1 => Phase::Retried,
            _ => return None,
        };
        Some((phase, at))
    }
}

impl Read for Pending {
    fn read(bytes: &[u8], at: usize) -> Option<(Pending, usize)> {
        let (kind, at) = Kind::read(bytes, at)?;
        let (slot, at) = Slot::read(bytes, at)?;
        let (phase, at) = Phase::read(bytes, at)?;
        Some((Pending { kind, slot, phase }, at))
    }
}

impl Read for RnLine {
    fn read(bytes: &[u8], at: usize) -> Option<(RnLine, usize)> {
        let (state, at) = State::read(bytes, at)?;
        let (words, at) = read_words(bytes, at)?;
        let (pending, at) = Option::<Pending>::read(bytes, at)?;
        Some((RnLine::of_parts(state, words, pending), at))
    }
}

impl Read for Waiting {
    fn read(bytes: &[u8], at: usize) -> Option<(Waiting, usize)> {
        let (kind, at) = Kind::read(bytes, at)?;
        let (slot, at) = Slot::read(bytes, at)?;
        Some((Waiting { kind, slot }, at))
    }
}

impl Read for Serving {
    fn read(bytes: &[u8], at: usize) -> Option<(Serving, usize)> {
        let (form, at) = u8::read(bytes, at)?;
        let (agent, at) = Agent::read(bytes, at)?;
        let (kind, at) = Kind::read(bytes, at)?;
        let (slot, at) = Slot::read(bytes, at)?;
        let serving = match form {
            0 => Serving::Idle,
            1 => Serving::Snooping { agent, kind, slot },
            2 => Serving::AwaitingCompAck { agent, slot },
            3 => Serving::AwaitingWriteData { agent, kind, slot },
            _ => return None,
        };
        Some((serving, at))
    }
}

/// Reads a snoop filter.
fn read_filter(bytes: &[u8], at: usize) -> Option<(Filter, usize)> {
    let mut named = [false; 8];
    let at = read_list(bytes, at, &mut named)?;
    let (unique, at) = bool::read(bytes, at)?;
    let (owner, at) = Option::<Agent>::read(bytes, at)?;
    let filter = Filter::of_parts(named, unique, owner)?;
    Some((filter, at))
}

/// Reads what the home keeps of a line.
fn read_home(bytes: &[u8], at: usize) -> Option<(HomeLine, usize)> {
    let (memory, at) = read_words(bytes, at)?;
    let (filter, at) = read_filter(bytes, at)?;
    let (serving, at) = Serving::read(bytes, at)?;
    let mut awaited = [false; 8];
    let at = read_list(bytes, at, &mut awaited)?;
    let mut waiting: [Option<Waiting>; 8] = [None; 8];
    let at = read_list(bytes, at, &mut waiting)?;
    let home = HomeLine::of_parts(memory, filter, serving, awaited, waiting)?;
    Some((home, at))
}

/// Reads the copies and pending requests of a line.
fn read_copies(bytes: &[u8], at: usize) -> Option<([RnLine; 8], usize)> {
    let mut copies = [RnLine::new(); 8];
    let at = read_list(bytes, at, &mut copies)?;
    Some((copies, at))
}

/// Reads what is in flight at a line.
fn read_wires(bytes: &[u8], at: usize) -> Option<(Wires, usize)> {
    let mut cells = [Cells::new(); 8];
    let at = read_list(bytes, at, &mut cells)?;
    Some((Wires::of_parts(cells), at))
}

/// Reads a line.
pub(crate) fn read_line(bytes: &[u8], at: usize) -> Option<(CoherentLine, usize)> {
    let (copies, at) = read_copies(bytes, at)?;
    let (home, at) = read_home(bytes, at)?;
    let (wires, at) = read_wires(bytes, at)?;
    Some((CoherentLine::of_parts(copies, home, wires), at))
}
