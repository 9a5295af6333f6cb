//! Judges the trace on standard input, as `chihome observe -` does. It uses no more of the crates than that needs, so
//! `./try` has it compiled in a minute.
#![tactic(auto)]

use anyhow::{Context, Result};
use chi_observe::{CreditTypes, Demands, Log, Nobody, ObserveOutcome, WatchOptions, observe};
use chi_observer::Stores;
use chi_script::{MemoryInput, StandardOutput};
use chi_trace::TraceForm;
use std::io::{self, Read};
use std::process::ExitCode;

/// A trace from its beginning, which may lack stores.
const OPTIONS: WatchOptions = WatchOptions {
    types: CreditTypes::Any,
    early_grants: false,
    stores: Stores::Hidden,
    log: Log::Whole,
    form: TraceForm::USUAL,
};

/// Requests may be outstanding at its end, and each flit has to be judged.
const DEMANDS: Demands = Demands {
    complete: false,
    judged: true,
};

/// Judges the trace, prints the report on it, and answers the exit status: 0 where it is accepted, and else 6.
fn main(rt: HostRuntime) -> Result<ExitCode> {
    let mut trace = Vec::new(rt.alloc());
    rt.reader()
        .read_to_end(&mut trace)
        .context("reading the trace")?;
    let mut input = MemoryInput::new(&trace, u64::MAX);
    let mut output = StandardOutput::new(io::writer(&rt));
    let report = observe(
        rt.alloc(),
        &mut input,
        &mut output,
        OPTIONS,
        DEMANDS,
        0,
        &mut Nobody,
    )?;
    match report.outcome {
        ObserveOutcome::Accepted(_) => Ok(ExitCode::SUCCESS),
        _ => Ok(ExitCode::from(6)),
    }
}
