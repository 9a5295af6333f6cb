//! What is read out of bytes: numbers, marks, what may be missing, and lists.
//!
//! What is read is looked at no further: `load` writes it again.

use chi_flit::{Agent, Slot};

/// A value that is read out of bytes.
pub(crate) trait Read: Copy {
    /// The value whose bytes begin at that place, and where the next ones begin; `None` where there is none.
    fn read(bytes: &[u8], at: usize) -> Option<(Self, usize)>;
}

impl Read for u8 {
    fn read(bytes: &[u8], at: usize) -> Option<(u8, usize)> {
        if at < bytes.len() {
            Some((bytes[at], at + 1))
        } else {
            None
        }
    }
}

impl Read for u16 {
    fn read(bytes: &[u8], at: usize) -> Option<(u16, usize)> {
        let (low, at) = u8::read(bytes, at)?;
        let (high, at) = u8::read(bytes, at)?;
        Some((u16::from(high) * 256 + u16::from(low), at))
    }
}

impl Read for u32 {
    fn read(bytes: &[u8], at: usize) -> Option<(u32, usize)> {
        let (low, at) = u16::read(bytes, at)?;
        let (high, at) = u16::read(bytes, at)?;
        Some((u32::from(high) * 65536 + u32::from(low), at))
    }
}

impl Read for u64 {
    fn read(bytes: &[u8], at: usize) -> Option<(u64, usize)> {
        let (low, at) = u32::read(bytes, at)?;
        let (high, at) = u32::read(bytes, at)?;
        Some((u64::from(high) * 4294967296 + u64::from(low), at))
    }
}

impl Read for bool {
    fn read(bytes: &[u8], at: usize) -> Option<(bool, usize)> {
        let (number, at) = u8::read(bytes, at)?;
        match number {
            0 => Some((false, at)),
            1 => Some((true, at)),
            _ => None,
        }
    }
}

impl<T: Read> Read for Option<T> {
    fn read(bytes: &[u8], at: usize) -> Option<(Option<T>, usize)> {
        let (there, at) = bool::read(bytes, at)?;
        if !there {
            return Some((None, at));
        }
        let (value, at) = T::read(bytes, at)?;
        Some((Some(value), at))
    }
}

impl Read for Agent {
    fn read(bytes: &[u8], at: usize) -> Option<(Agent, usize)> {
        let (number, at) = u8::read(bytes, at)?;
        Some((Agent(number), at))
    }
}

impl Read for Slot {
    fn read(bytes: &[u8], at: usize) -> Option<(Slot, usize)> {
        let (number, at) = u8::read(bytes, at)?;
        Some((Slot(number), at))
    }
}

/// Reads a short list into as many places. Answers where the next bytes begin.
pub(crate) fn read_list<T: Read>(bytes: &[u8], at: usize, places: &mut [T]) -> Option<usize> {
    let (count, first) = u8::read(bytes, at)?;
    if usize::from(count) != places.len() {
        return None;
    }
    let mut next = first;
    for place in places.iter_mut() {
        let (value, at) = T::read(bytes, next)?;
        *place = value;
        next = at;
    }
    Some(next)
}
