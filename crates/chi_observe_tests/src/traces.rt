//! Short traces, and what is told of them.

use chi_observe::{CreditTypes, Demands, Log, Nobody, WatchOptions, observe};
use chi_observer::Stores;
use chi_script::{Fault, MemoryInput, MemoryOutput};
use chi_trace::TraceForm;

/// A read, and one flit of another that the home answers while the first holds the line alone.
const TRACE: &[u8] = b"REQ 8 40 1 ReadShared 1040 - - 1 - -\n\
    DAT 40 8 1 CompData - UC 11 - - 0,0,0,0,0,0,0,0\n\
    RSP 8 40 11 CompAck - - - - - -\n\
    REQ 9 40 2 ReadShared 1040 - - 1 - -\n\
    DAT 40 9 2 CompData - SC 12 - - 0,0,0,0,0,0,0,0\n";

/// The first line of what is told of it.
const TOLD: &[u8] =
    b"line 5: CompData_SC to node 9 at 1040: the copy of node 8 was last told to be UC, by line 2; ";

const OPTIONS: WatchOptions = WatchOptions {
    types: CreditTypes::Any,
    early_grants: false,
    stores: Stores::Hidden,
    log: Log::Whole,
    form: TraceForm::USUAL,
};

const DEMANDS: Demands = Demands {
    complete: false,
    judged: true,
};

#[test]
fn the_first_flit_that_is_not_taken_is_told(rt: HostRuntime) {
    let mut input = MemoryInput::new(TRACE, u64::MAX);
    let mut output = MemoryOutput::new(rt.alloc(), 4096);
    let done = observe(
        rt.alloc(),
        &mut input,
        &mut output,
        OPTIONS,
        DEMANDS,
        0,
        &mut Nobody,
    )
    .is_ok();
    assert!(rt; done && output.bytes().starts_with(TOLD));
}

#[test]
fn an_input_that_fails_is_told_so(rt: HostRuntime) {
    let mut input = MemoryInput::new(TRACE, 0);
    let mut output = MemoryOutput::new(rt.alloc(), 4096);
    let done = observe(
        rt.alloc(),
        &mut input,
        &mut output,
        OPTIONS,
        DEMANDS,
        0,
        &mut Nobody,
    );
    assert!(rt; matches!(done, Err(Fault::Read)) && output.bytes().is_empty());
}

#[test]
fn an_output_that_fails_is_told_so(rt: HostRuntime) {
    let mut input = MemoryInput::new(TRACE, u64::MAX);
    let mut output = MemoryOutput::new(rt.alloc(), 4);
    let done = observe(
        rt.alloc(),
        &mut input,
        &mut output,
        OPTIONS,
        DEMANDS,
        0,
        &mut Nobody,
    );
    assert!(rt; matches!(done, Err(Fault::Write)) && output.bytes() == b"line".as_slice());
}
