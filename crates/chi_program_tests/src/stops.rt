//! Each way in which the program stops, its line and its status.

use chi_program::{ArgFault, Stop, arguments};
use chi_script::Fault;
use std::alloc::AllocError;

/// Command lines without a file, with a number outside its range, and with an option twice.
const BAD: [&[&str]; 3] = [
    &["chihome", "replay"],
    &["chihome", "storm", "F", "--turns", "0"],
    &["chihome", "storm", "F", "--seed", "1", "--seed", "2"],
];

#[test]
fn bad_arguments_are_told(rt: HostRuntime) -> Result<(), AllocError> {
    for words in BAD {
        assert!(rt; arguments(rt.alloc(), words).err() == Some(ArgFault::Bad));
    }
    let stops = [
        (ArgFault::Bad, 4, "chihome: bad arguments"),
        (ArgFault::NoMemory, 3, "chihome: out of memory"),
    ];
    for (fault, status, line) in stops {
        let stop = Stop::from(fault);
        let text = format!(in rt.alloc(); "{stop}")?;
        assert!(rt; text.as_str() == line && stop.status() == status, "{line}");
    }
    Ok(())
}

/// Each fault, its status and its line.
const FAULTS: [(Fault, u8, &str); 7] = [
    (Fault::NoMemory, 3, "chihome: out of memory"),
    (Fault::BadHeader(1), 1, "chihome: line 1: bad header"),
    (Fault::BadCommand(2), 1, "chihome: line 2: bad command"),
    (
        Fault::MissingNewline(30),
        1,
        "chihome: line 30: missing newline",
    ),
    (Fault::TooLarge, 1, "chihome: file too large"),
    (Fault::Read, 1, "chihome: cannot read"),
    (Fault::Write, 1, "chihome: cannot write"),
];

#[test]
fn a_fault_is_a_line_and_a_status(rt: HostRuntime) -> Result<(), AllocError> {
    for (fault, status, line) in &FAULTS {
        let told = format!(in rt.alloc(); "{fault}")?;
        assert!(rt;
            told.as_str() == *line && fault.status() == *status,
            "{line}"
        );
        let stop = Stop::from(*fault);
        let told = format!(in rt.alloc(); "{stop}")?;
        assert!(rt;
            told.as_str() == *line && stop.status() == *status,
            "{line}"
        );
    }
    Ok(())
}
