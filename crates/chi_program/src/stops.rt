//! How a run of the program ends.

ghost use Rattle.std.specs.Prelude.{◌≡◌, Some};
ghost use Rattle.chi_program.specs.declared.faults.ArgFault.{ArgFault};
ghost use Rattle.chi_program.specs.declared.stops.Stop.TheVariants.{Arguments, Run};
ghost use Rattle.chi_program.specs.Stops.{end_status, stop_status, stop_text};

use crate::faults::ArgFault;
use chi_script::Fault;
use std::fmt;
use std::fmt::Write;

/// Why the program didn't do what it was asked for. Its text is the line on standard error.
/// Source: `docs/FORMATS.md`, "The program".
#[derive(Clone, Copy, Debug, PartialEq, Eq)]
pub enum Stop {
    /// The command line isn't followed.
    Arguments(ArgFault),
    /// The replay, the check or the storm found a fault.
    Run(Fault),
}

impl Stop {
    /// The program's status.
    /// Source: `docs/FORMATS.md`, "The program".
    pub fn status(self) -> u8
        ensures { result ≡ stop_status self }
    {
        match self {
            Stop::Arguments(fault) => fault.status(),
            Stop::Run(fault) => fault.status(),
        }
    }
}

impl fmt::Display for Stop {
    ghost output = { λ stop. Some (stop_text stop) };

    fn fmt<W: fmt::Write>(&self, f: &mut fmt::Formatter<W>) -> fmt::Result {
        match self {
            Stop::Arguments(fault) => write!(f, "{fault}"),
            Stop::Run(fault) => write!(f, "{fault}"),
        }
    }
}

impl From<ArgFault> for Stop {
    ghost from_gives = { λ fault stop. stop ≡ Arguments fault };

    fn from(fault: ArgFault) -> Stop {
        Stop::Arguments(fault)
    }
}

impl From<Fault> for Stop {
    ghost from_gives = { λ fault stop. stop ≡ Run fault };

    fn from(fault: Fault) -> Stop {
        Stop::Run(fault)
    }
}

/// What came of a run that no fault stopped.
/// Source: `docs/FORMATS.md`, "The program".
#[derive(Clone, Copy, Debug, PartialEq, Eq)]
pub(crate) enum End {
    /// All went well.
    Done,
    /// The script of some agent of a storm didn't finish, or a file wasn't drawn.
    Unfinished,
    /// An answer of a check differs from the one that is wanted.
    Differs,
    /// A file is faulty, or some of several, which was told; this is the first fault.
    Faulty(Fault),
    /// The file is no trace, no file of weights, or no report.
    Malformed,
    /// Some flit of a trace isn't explained.
    Unexplained,
    /// Something is open at the end of a trace.
    Incomplete,
    /// Nothing was compared, shown or judged: no answer is wanted, there is no such line, or a trace is empty.
    Nothing,
    /// Less was done than was asked for: fewer cells were reached, or not all of a trace was judged.
    Few,
}

impl End {
    /// The program's status.
    pub(crate) fn status(self) -> u8
        ensures { result ≡ end_status self }
    {
        match self {
            End::Done => 0,
            End::Unfinished => 2,
            End::Differs => 5,
            End::Faulty(fault) => fault.status(),
            End::Malformed => 1,
            End::Unexplained => 6,
            End::Incomplete => 7,
            End::Nothing => 8,
            End::Few => 9,
        }
    }
}
