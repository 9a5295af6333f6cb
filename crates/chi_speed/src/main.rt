//! Prints how fast slices and trackers are. It measures where it is given an argument, as by `rt run -- now`, and prints
//! nothing without one: `slice` measures slices alone, `tracker` trackers alone, any other word both.
//!
//! `act LINES COUNT` does about `COUNT` actions of the mix over 64 lines, 8 or one, one action at a time, and prints what
//! `tests/c/speed.c` prints of the same through the library for C: nanoseconds, actions, and the sum of what the effects
//! told.
#![tactic(auto)]

mod acts;
mod mix;
mod ports;
mod slices;

use ports::{alone, together};
use slices::{measure_all, print_acts};
use std::{env, io};

fn main(rt: HostRuntime) -> io::Result<()> {
    let words: Vec<String> = env::args(&rt)?.collect(rt.alloc())?;
    match words.as_slice() {
        [] | [_] => Ok(()),
        [_, command, lines, count] if command.as_str() == "act" => print_acts(
            &rt,
            rt.alloc(),
            lines,
            count,
        ),
        [_, part] if part.as_str() == "slice" => measure_all(&rt, rt.alloc()),
        [_, part] if part.as_str() == "tracker" => {
            alone(&rt, rt.alloc())?;
            together(&rt, rt.alloc())
        }
        _ => {
            measure_all(&rt, rt.alloc())?;
            alone(&rt, rt.alloc())?;
            together(&rt, rt.alloc())
        }
    }
}
