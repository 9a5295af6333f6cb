//! `chihome replay FILE` runs the commands of a file on one thread, and prints an answer for each;
//! `chihome check FILE` compares the answers with those that the file wants; `chihome storm FILE` runs the
//! scripts of a file in threads, and prints what came of them.
#![tactic(auto)]

use chi_program::serve;
use std::io::IsTerminal;
use std::process::ExitCode;

fn main(rt: HostRuntime) -> ExitCode {
    ExitCode::from(serve(&rt, rt.stderr().is_terminal()))
}
