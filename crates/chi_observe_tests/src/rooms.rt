//! A watch with a room: what it answers to flits, and what it tells of the first fault.

use chi_observe::{BenchWatch, CreditTypes, Judged, Log, Room, WatchOptions};
use chi_observer::Stores;
use chi_trace::{TraceForm, any_flit_in};
use std::alloc::Global;

/// Flits, and what a watch with room for one requester, one line and two ids answers.
const FLITS: [(&[u8], Judged); 8] = [
    (b"REQ 8 40 1 ReadShared 1040 - - 1 - -", Judged::Taken),
    (b"REQ 8 40 2 ReadShared 2040 - - 1 - -", Judged::Full),
    (b"REQ 9 40 1 ReadShared 1040 - - 1 - -", Judged::Full),
    (
        b"DAT 40 8 1 CompData - UC 11 - - 0,0,0,0,0,0,0,0",
        Judged::Taken,
    ),
    (b"RSP 8 40 11 CompAck - - - - - -", Judged::Taken),
    (b"REQ 8 40 1 ReadNoSnp 1040 - - 1 - -", Judged::SetAside),
    (b"RSP 8 40 12 CompAck - - - - - -", Judged::Untaken),
    (b"REQ 8 40 3 ReadShared 1040 - - 1 - -", Judged::Untaken),
];

/// The line of the first fault.
const TOLD: &[u8] = b"line 7: CompAck of node 8: no completion with DBID 12 of it is open";

/// What isn't judged.
const UNJUDGED: &[u8] =
    b"not judged: 1 of 4 flits, on 1 of 1 cache lines\nReadNoSnp: 1 cache lines, the first 1040 by trace line 6\n";

const OPTIONS: WatchOptions = WatchOptions {
    types: CreditTypes::Any,
    early_grants: false,
    stores: Stores::Hidden,
    log: Log::Whole,
    form: TraceForm::USUAL,
};

const ROOM: Room = Room {
    requesters: 1,
    homes: 1,
    lines: 1,
    ids: 2,
    accounts: 1,
};

/// Whether the watch answers a flit so.
fn is_judged_so(
    watch: &mut BenchWatch<Global>,
    line: &[u8],
    number: usize,
    wanted: Judged,
) -> bool {
    match any_flit_in(TraceForm::USUAL, line, number) {
        Ok(Some(seen)) => watch.see(&seen) == wanted,
        _ => false,
    }
}

/// Whether the watch answers all flits so.
fn are_judged_so(watch: &mut BenchWatch<Global>, flits: &[(&[u8], Judged)]) -> bool {
    let mut found = true;
    for (at, (line, wanted)) in flits.iter().enumerate() {
        let number = at.wrapping_add(1);
        found &= is_judged_so(watch, line, number, *wanted);
    }
    found
}

/// Whether a watch with the room answers the flits so, and tells the first fault and what isn't judged.
fn is_told_so(alloc: Global) -> bool {
    match BenchWatch::new(alloc, OPTIONS, ROOM) {
        Ok(mut watch) => {
            let so = are_judged_so(&mut watch, &FLITS);
            match (watch.fault_text(alloc), watch.unjudged_text(alloc)) {
                (Ok(fault), Ok(unjudged)) => {
                    so && (fault.as_bytes() == TOLD && unjudged.as_bytes() == UNJUDGED)
                }
                _ => false,
            }
        }
        Err(_) => false,
    }
}

#[test]
fn a_flit_that_finds_no_room_changes_nothing(rt: HostRuntime) {
    assert!(rt; is_told_so(rt.alloc()));
}

/// Whether a bench's watch opens for a log that was taken so.
fn opens_for(alloc: Global, log: Log) -> bool {
    let options = WatchOptions { log, ..OPTIONS };
    BenchWatch::new(alloc, options, ROOM).is_ok()
}

#[test]
fn a_bench_takes_whole_logs_alone(rt: HostRuntime) {
    let alloc = rt.alloc();
    let whole = opens_for(alloc, Log::Whole);
    assert!(rt; whole && !opens_for(alloc, Log::Tail) && !opens_for(alloc, Log::Home));
}
