//! Lines with bytes that were changed at random.

use crate::alike::{FORMS, is_alike};
use crate::lines::{LINES_0, LINES_1, LINES_2, LINES_3, LINES_4, LINES_5};
use std::alloc::{AllocError, Allocator};
use std::test::Fail;

/// How many times each line is changed.
const TIMES: usize = 60;

/// What is put in place of a byte.
static BYTES: [u8; 48] = *b" \t\r--,,x0123456789abcdef0xABCDEFGSNPIUC_D#zZ~\x80\xff ";

/// Numbers at random, by a seed.
#[derive(Drop)]
struct Draws {
    state: u64,
}

impl Draws {
    /// The next number below a limit; 0 where that is 0.
    fn below(&mut self, limit: usize) -> usize {
        self.state ^= self.state << 13;
        self.state ^= self.state >> 7;
        self.state ^= self.state << 17;
        if limit == 0 {
            return 0;
        }
        (self.state % limit as u64) as usize
    }

    /// A byte that lines may have.
    fn byte(&mut self) -> u8 {
        BYTES[self.below(48) % 48]
    }
}

/// Changes the line at a place: a byte is another one, comes twice, or is left out.
fn change<A: Allocator + Copy>(draws: &mut Draws, line: &mut Vec<u8, A>) -> Result<(), AllocError> {
    let place = draws.below(line.len());
    let byte = draws.byte();
    match draws.below(3) {
        0 if place < line.len() => line[place] = byte,
        1 if place < line.len() => {
            line.remove(place);
        }
        _ => line.insert(place.min(line.len()), byte)?,
    }
    Ok(())
}

/// The place of the first line that isn't alike once it is changed.
fn first_other<A: Allocator + Copy>(
    alloc: A,
    seed: u64,
    lines: &[&[u8]],
) -> Result<Option<usize>, AllocError> {
    let mut draws = Draws { state: seed };
    for (place, line) in lines.iter().enumerate() {
        for time in 0..TIMES {
            let mut changed = Vec::new(alloc);
            changed.extend_from_slice(line)?;
            change(&mut draws, &mut changed)?;
            if time % 2 == 1 {
                change(&mut draws, &mut changed)?;
            }
            if !is_alike(alloc, &FORMS[time % 4], &changed)? {
                return Ok(Some(place));
            }
        }
    }
    Ok(None)
}

#[test]
fn changed_lines_are_read_alike(rt: HostRuntime) -> Result<(), Fail> {
    assert_eq!(rt; first_other(rt.alloc(), 1, &LINES_0)?, None);
    assert_eq!(rt; first_other(rt.alloc(), 2, &LINES_1)?, None);
    assert_eq!(rt; first_other(rt.alloc(), 3, &LINES_2)?, None);
    assert_eq!(rt; first_other(rt.alloc(), 4, &LINES_3)?, None);
    assert_eq!(rt; first_other(rt.alloc(), 5, &LINES_4)?, None);
    assert_eq!(rt; first_other(rt.alloc(), 6, &LINES_5)?, None);
    Ok(())
}
